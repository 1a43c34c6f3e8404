//! CALL SPANS TIMES: does one call of `byte_ranges` again and again, for a count of instructions.
#![tactic(auto)]

ghost use Rattle.std.specs.Prelude.{◌^◌, ◌<◌};

use anyhow::{Context, bail};
use byte_ranges::{RangeSet, Span};
use std::alloc::{AllocError, Global};
use std::env;

/// What is done again and again.
#[derive(Clone, Copy)]
enum Call {
    Nothing,
    Covers,
    FirstMissing,
    FirstPresent,
    InsertAtTheEnd,
    InsertIntoASpan,
}

// Spans of 10 bytes, with gaps of 10.
fn spans(alloc: Global, count: u64) -> Result<RangeSet, AllocError> {
    let mut set = RangeSet::new(alloc);
    for i in 0..count {
        let start = i.saturating_mul(20);
        if start < u64::MAX - 10 {
            set.insert(Span {
                start,
                end: start + 10,
            })?;
        }
    }
    Ok(set)
}

// The call at the span that stands at this place, and a number that depends on its answer.
fn run(set: &mut RangeSet, call: Call, start: u64, count: u64) -> Result<u64, AllocError>
    requires { start < 2 ^ 63 }
{
    let span = Span {
        start: start + 2,
        end: start + 15,
    };
    match call {
        Call::Nothing => Ok(0),
        Call::Covers => Ok(u64::from(set.covers(span))),
        Call::FirstMissing => Ok(set.first_missing(span).map_or(0, |gap| gap.start)),
        Call::FirstPresent => Ok(set.first_present(span).map_or(0, |run| run.start)),
        Call::InsertAtTheEnd => {
            let start = (start.saturating_add(count.saturating_mul(20))).min(u64::MAX - 10);
            set.insert(Span {
                start,
                end: start + 10,
            })?;
            Ok(0)
        }
        Call::InsertIntoASpan => {
            set.insert(Span {
                start: start + 2,
                end: start + 8,
            })?;
            Ok(0)
        }
    }
}

fn call_named(name: &str) -> Option<Call> {
    match name {
        "nothing" => Some(Call::Nothing),
        "covers" => Some(Call::Covers),
        "first_missing" => Some(Call::FirstMissing),
        "first_present" => Some(Call::FirstPresent),
        "insert_at_the_end" => Some(Call::InsertAtTheEnd),
        "insert_into_a_span" => Some(Call::InsertIntoASpan),
        _ => None,
    }
}

fn main(rt: HostRuntime) -> anyhow::Result<()> {
    let mut words = env::args(&rt)?.skip(1);
    let (Some(name), Some(count), Some(times)) = (words.next(), words.next(), words.next()) else {
        bail!("CALL SPANS TIMES");
    };
    let call = call_named(name.as_str()).context("an unknown call")?;
    let count: u64 = count.as_str().parse().context("SPANS is no number")?;
    let times: u64 = times.as_str().parse().context("TIMES is no number")?;
    let mut set = spans(rt.alloc(), count)?;
    let mut sum: u64 = 0;
    for i in 0..times {
        let place = match call {
            Call::InsertAtTheEnd => i,
            _ => i.saturating_mul(7919) % count.max(1),
        };
        let start = place.saturating_mul(20).min(1 << 62);
        sum = sum.wrapping_add(run(&mut set, call, start, count)?);
    }
    println!(rt; "{name}: {sum}, {} bytes", set.count())?;
    Ok(())
}
