//! CALL MEMBERS TIMES: does one call of `writeback_queue` again and again, for a count of instructions.
#![tactic(auto)]

ghost use Rattle.std.specs.Prelude.{◌≡◌, ◌+◌};

use anyhow::{Context, bail};
use std::alloc::Global;
use std::env;
use vfs_names::{Actor, By, ItemId, NoMemory, Who};
use writeback_queue::QueueBook;

/// What is done again and again. An add looks its item up first.
#[derive(Clone, Copy)]
enum Call {
    Nothing,
    Look,
    Take,
    Add,
    Remove,
}

/// The maker of an entry, in the queue pass of the item's book.
fn by(item: ItemId) -> By
    ensures { result.pass ≡ item.0 + 1 }
{
    let who = Who {
        epoch: 0,
        phase: 0,
        actor: Actor::Main,
    };
    By {
        who,
        pass: u64::from(item.0) + 1,
        tree: false,
        now: 1_000_000,
    }
}

fn add(queue: &mut QueueBook, item: ItemId) -> bool {
    if queue.spare() < 2 || queue.due(item).is_some() {
        return false;
    }
    queue.add(by(item), item, u64::from(item.0 % 1_000));
    true
}

/// A queue with so many members that are due, and room for `times` calls.
fn filled(alloc: Global, members: u32, times: u32) -> Result<QueueBook, NoMemory> {
    let mut queue = QueueBook::new(alloc, 5_000, u32::MAX);
    queue.reserve(members.saturating_add(times).saturating_mul(2))?;
    for item in 0..members {
        add(&mut queue, ItemId(item));
    }
    Ok(queue)
}

/// The call, and whether it did something.
fn run(queue: &mut QueueBook, call: Call, item: ItemId) -> bool {
    match call {
        Call::Nothing => false,
        Call::Look => queue.due(item).is_some(),
        Call::Take => queue.spare() >= 2 && queue.take(by(item)).is_some(),
        Call::Add => add(queue, item),
        Call::Remove => {
            queue.remove(by(item), item);
            true
        }
    }
}

fn call_named(name: &str) -> Option<Call> {
    match name {
        "nothing" => Some(Call::Nothing),
        "look" => Some(Call::Look),
        "take" => Some(Call::Take),
        "add" => Some(Call::Add),
        "remove" => Some(Call::Remove),
        _ => None,
    }
}

fn main(rt: HostRuntime) -> anyhow::Result<()> {
    let mut words = env::args(&rt)?.skip(1);
    let (Some(name), Some(members), Some(times)) = (words.next(), words.next(), words.next()) else {
        bail!("CALL MEMBERS TIMES");
    };
    let call = call_named(name.as_str()).context("an unknown call")?;
    let members: u32 = members.as_str().parse().context("MEMBERS is no number")?;
    let times: u32 = times.as_str().parse().context("TIMES is no number")?;
    let Ok(mut queue) = filled(rt.alloc(), members, times) else {
        bail!("no memory");
    };
    let mut done: u32 = 0;
    for turn in 0..times {
        let item = match call {
            Call::Add => members.saturating_add(turn),
            _ => turn.saturating_mul(7_919) % members.max(1),
        };
        if run(&mut queue, call, ItemId(item)) {
            done = done.saturating_add(1);
        }
    }
    println!(rt; "{name}: {done} done, {} members", queue.len())?;
    Ok(())
}
