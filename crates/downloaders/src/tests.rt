ghost use Rattle.std.specs.Prelude.{◌≡◌, ◌<◌};
ghost use Rattle.downloaders.specs.Rules.{HasChunk};

use crate::{Ask, Crew, Limit, Plan};
use byte_ranges::{RangeSet, Span};
use std::alloc::{AllocError, Global};
use std::test::Fail;

// Does what the crew says until it says done, and tells the requests.
fn read(
    crew: &mut Crew,
    plan: &Plan,
    present: &mut RangeSet,
    span: Span,
    base_end: u64,
    asked: &mut Vec<(u64, u64)>,
) -> Result<(), AllocError>
    requires chunk { HasChunk plan.now.chunk }
    requires some { span.start < span.end }
{
    for _ in 0..100 {
        if span.end > base_end {
            return Ok(());
        }
        match crew.next(plan, present, span, base_end) {
            Ask::Done => return Ok(()),
            Ask::Request {
                run,
                start,
                end,
                chunk,
            } => {
                crew.requested(run, start, end, chunk);
                asked.push((start, end))?;
            }
            Ask::Pull { run, pos, len } => {
                let end = pos.saturating_add(u64::from(len)).min(base_end);
                if pos < end {
                    present.insert(Span { start: pos, end })?;
                }
                crew.pulled(run, len);
            }
        }
    }
    Ok(())
}

fn requests(
    alloc: Global,
    mut crew: Crew,
    plan: Plan,
    reads: &[(u64, u64)],
    base_end: u64,
) -> Result<Vec<(u64, u64)>, AllocError>
    requires { HasChunk plan.chunk }
{
    let mut present = RangeSet::new(alloc);
    let mut asked = Vec::new(alloc);
    for (start, end) in reads {
        if *start < *end {
            let span = Span {
                start: *start,
                end: *end,
            };
            read(&mut crew, &plan, &mut present, span, base_end, &mut asked)?;
        }
    }
    Ok(asked)
}

fn of(chunk: u64, limit: Limit) -> Plan
    ensures { result ≡ record { chunk = Some chunk; limit = limit } }
{
    Plan {
        chunk: Some(chunk),
        limit,
    }
}

#[test]
fn grows_as_the_limit_says(rt: HostRuntime) -> Result<(), Fail> {
    let alloc = rt.alloc();
    let most = Plan {
        chunk: Some(100),
        limit: Limit::Most(500),
    };
    let all = requests(alloc, Crew::new(), most, &[(0, 1700)], 1700)?;
    assert_eq!(rt;
        all.as_slice(),
        [(0, 100), (100, 300), (300, 700), (700, 1200), (1200, 1700)].as_slice()
    );
    let parts = requests(
        alloc,
        Crew::new(),
        most,
        &[(0, 50), (50, 150), (300, 301)],
        1700,
    )?;
    assert_eq!(rt;
        parts.as_slice(),
        [(0, 100), (100, 300), (300, 700)].as_slice()
    );
    let same = Plan {
        chunk: Some(100),
        limit: Limit::Same,
    };
    let seventeen = requests(alloc, Crew::new(), same, &[(0, 1700)], 1700)?;
    assert_eq!(rt; seventeen.len(), 17);
    assert_eq!(rt; seventeen.last().copied(), Some((1600, 1700)));
    let off = Plan {
        chunk: Some(100),
        limit: Limit::Off,
    };
    let jump = requests(alloc, Crew::new(), off, &[(0, 1), (250, 251)], 300)?;
    assert_eq!(rt; jump.as_slice(), [(0, 100), (250, 300)].as_slice());
    let whole = Plan {
        chunk: None,
        limit: Limit::Off,
    };
    let rest = requests(alloc, Crew::new(), whole, &[(10, 20)], 1700)?;
    assert_eq!(rt; rest.as_slice(), [(10, 1700)].as_slice());
    Ok(())
}

#[test]
fn chooses_the_downloader(rt: HostRuntime) -> Result<(), Fail> {
    let plan = of(1000, Limit::Off);
    let mut present = RangeSet::new(rt.alloc());
    let mut asked = Vec::new(rt.alloc());
    let mut crew = Crew::new();
    let far = 1 << 30;
    read(
        &mut crew,
        &plan,
        &mut present,
        Span { start: 0, end: 1 },
        far,
        &mut asked,
    )?;
    // It stands at 1,000, and reads over at most 1,048,576 bytes.
    let ask = crew.next(
        &plan,
        &present,
        Span {
            start: 1_049_576,
            end: 1_049_577,
        },
        far,
    );
    assert_eq!(rt;
        ask,
        Ask::Request {
            run: 0,
            start: 1_049_576,
            end: 1_051_576,
            chunk: 2000
        }
    );
    let ask = crew.next(
        &plan,
        &present,
        Span {
            start: 1_049_577,
            end: 1_049_578,
        },
        far,
    );
    assert_eq!(rt;
        ask,
        Ask::Request {
            run: 1,
            start: 1_049_577,
            end: 1_050_577,
            chunk: 1000
        }
    );
    for start in [10_000_000, 20_000_000, 30_000_000, 1_500] {
        read(
            &mut crew,
            &plan,
            &mut present,
            Span {
                start,
                end: start + 1,
            },
            far,
            &mut asked,
        )?;
    }
    // The second was used the longest ago.
    let ask = crew.next(
        &plan,
        &present,
        Span {
            start: 40_000_000,
            end: 40_000_001,
        },
        far,
    );
    assert_eq!(rt;
        ask,
        Ask::Request {
            run: 1,
            start: 40_000_000,
            end: 40_001_000,
            chunk: 1000
        }
    );
    crew.ended(2);
    let ask = crew.next(
        &plan,
        &present,
        Span {
            start: 40_000_000,
            end: 40_000_001,
        },
        far,
    );
    assert_eq!(rt;
        ask,
        Ask::Request {
            run: 2,
            start: 40_000_000,
            end: 40_001_000,
            chunk: 1000
        }
    );
    Ok(())
}

#[test]
fn asks_for_no_present_byte(rt: HostRuntime) -> Result<(), Fail> {
    let plan = of(100, Limit::Same);
    let mut present = RangeSet::new(rt.alloc());
    let mut asked = Vec::new(rt.alloc());
    let mut crew = Crew::new();
    present.insert(Span {
        start: 50,
        end: 150,
    })?;
    let span = Span { start: 0, end: 200 };
    read(&mut crew, &plan, &mut present, span, 200, &mut asked)?;
    assert_eq!(rt; asked.as_slice(), [(0, 100), (150, 200)].as_slice());
    assert_eq!(rt; crew.next(&plan, &present, span, 200), Ask::Done);
    Ok(())
}

#[test]
fn stores_nothing_past_a_lowered_end(rt: HostRuntime) -> Result<(), Fail> {
    let plan = Plan {
        chunk: None,
        limit: Limit::Off,
    };
    let mut present = RangeSet::new(rt.alloc());
    let mut asked = Vec::new(rt.alloc());
    let mut crew = Crew::new();
    read(
        &mut crew,
        &plan,
        &mut present,
        Span { start: 0, end: 1 },
        400_000,
        &mut asked,
    )?;
    let span = Span {
        start: 150_000,
        end: 160_000,
    };
    let ask = crew.next(&plan, &present, span, 200_000);
    assert_eq!(rt;
        ask,
        Ask::Pull {
            run: 0,
            pos: 131_072,
            len: 131_072
        }
    );
    read(&mut crew, &plan, &mut present, span, 200_000, &mut asked)?;
    assert_eq!(rt; asked.as_slice(), [(0, 400_000)].as_slice());
    assert_eq!(rt; present.count(), 200_000);
    Ok(())
}

#[test]
fn reads_directly(rt: HostRuntime) -> Result<(), Fail> {
    let plan = Plan {
        chunk: None,
        limit: Limit::Off,
    };
    let mut present = RangeSet::new(rt.alloc());
    let mut asked = Vec::new(rt.alloc());
    let mut crew = Crew::direct();
    assert!(rt; crew.is_direct());
    for (start, end) in [(0, 10), (10, 30)] {
        let span = Span { start, end };
        read(&mut crew, &plan, &mut present, span, 1000, &mut asked)?;
        assert_eq!(rt; present.count(), end);
    }
    let ask = crew.next(&plan, &present, Span { start: 30, end: 31 }, 1000);
    assert_eq!(rt;
        ask,
        Ask::Pull {
            run: 0,
            pos: 30,
            len: 1
        }
    );
    let ask = crew.next(&plan, &present, Span { start: 31, end: 32 }, 1000);
    assert_eq!(rt;
        ask,
        Ask::Request {
            run: 0,
            start: 31,
            end: 1000,
            chunk: 969
        }
    );
    assert_eq!(rt; asked.as_slice(), [(0, 1000)].as_slice());
    Ok(())
}
