//! Each of the disk's calls fails in turn.
use super::calls::Answer;
use super::images::{Bench, State, expect_images, last_at};
use super::{Step, act, expect};
use remote_memory::MemoryObject;
use std::alloc::Global;
use std::process::Abort;
use std::test::Fail;
use vfs_names::{At, Refusal};

/// A call and the number that it answers, and the path and the bytes of the file after it.
type Row = (Step, u64, &'static str, &'static str);

const CUT: [Row; 9] = [
    (Step::Create("a"), 0, "a", ""),
    (Step::Open, 0, "a", ""),
    (Step::Write(At::Pos(0), "abcdef"), 6, "a", "abcdef"),
    (Step::Write(At::Pos(7), "xyz"), 3, "a", "abcdef\0xyz"),
    (Step::Size(8), 0, "a", "abcdef\0x"),
    (Step::Read(0, 100, "abcdef\0x"), 1, "a", "abcdef\0x"),
    (Step::Close, 1, "a", "abcdef\0x"),
    (Step::Evict, 0, "a", "abcdef\0x"),
    (Step::Rename("b"), 0, "b", "abcdef\0x"),
];

const READ: [Row; 7] = [
    (Step::Create("a"), 0, "a", ""),
    (Step::Open, 0, "a", ""),
    (Step::Write(At::End, "abc"), 3, "a", "abc"),
    (Step::Read(0, 100, "abc"), 1, "a", "abc"),
    (Step::Write(At::Pos(1), "z"), 1, "a", "azc"),
    (Step::Close, 1, "a", "azc"),
    (Step::Rename("b"), 0, "b", "azc"),
];

/// A call on the slot's file that fails, and the row that is refused for it, or one that there isn't:
/// a write whose data fails is settled later.
const CUT_FAULTS: [(u64, usize); 10] = [
    (1, 0),
    (2, 2),
    (3, 99),
    (4, 3),
    (5, 99),
    (6, 4),
    (7, 5),
    (8, 5),
    (9, 8),
    (10, 99),
];

const READ_FAULTS: [(u64, usize); 8] = [
    (1, 0),
    (2, 2),
    (3, 99),
    (4, 3),
    (5, 4),
    (6, 99),
    (7, 6),
    (8, 99),
];

/// Makes a row's call, after it was refused for the disk where that is to be. What the file is then.
fn made(
    rt: &impl Abort,
    alloc: Global,
    bench: &mut Bench<MemoryObject>,
    row: Row,
    i: usize,
    refused: bool,
) -> Result<State, Fail> {
    if refused {
        let found: Answer = act(&mut bench.book, alloc, row.0);
        expect(rt, found?, Err(Refusal::DiskFault), i);
    }
    let found: Answer = act(&mut bench.book, alloc, row.0);
    expect(rt, found?, Ok(row.1), i);
    Ok(State {
        at: last_at(&bench.book),
        path: row.2,
        bytes: row.3.as_bytes().to_vec(alloc)?,
    })
}

/// Makes the rows' calls on a file of whose disk calls the nth fails. The row that is refused for it
/// is tried again. After each number of calls the image is the file that was made by then.
fn goes_on(
    rt: &impl Abort,
    alloc: Global,
    nth: u64,
    refused: usize,
    rows: &[Row],
) -> Result<(), Fail> {
    let mut bench = Bench::new(alloc, [nth, 0, 0], 100)?;
    let mut states = Vec::new(alloc);
    for (i, row) in rows.iter().enumerate() {
        states.push(made(rt, alloc, &mut bench, *row, i, i == refused)?)?;
    }
    let disk = bench.ended()?;
    expect_images(rt, alloc, &disk, states.as_slice(), &[])
}

#[test]
fn no_call_that_fails_loses_what_was_cut(rt: HostRuntime) -> Result<(), Fail> {
    for (nth, refused) in &CUT_FAULTS {
        goes_on(&rt, rt.alloc(), *nth, *refused, &CUT)?;
    }
    Ok(())
}

#[test]
fn no_call_that_fails_loses_what_was_read(rt: HostRuntime) -> Result<(), Fail> {
    for (nth, refused) in &READ_FAULTS {
        goes_on(&rt, rt.alloc(), *nth, *refused, &READ)?;
    }
    Ok(())
}
