mod calls;
mod faults;
mod images;
mod reading;

use crate::{BaseState, Look};
use cache_memory::MemoryDisk;
use calls::{Answer, path_of};
use downloaders::{Limit, Plan};
use images::{Bench, text_after};
use remote_memory::{MemoryObject, MemoryRemote};
use std::alloc::Global;
use std::process::Abort;
use std::test::Fail;
use vfs_names::{At, Blob, Fingerprint, Found, ItemId, Payload, Refusal, SlotId};
use vfs_outside::{CacheFile, Remote};

type Book = crate::ItemBook<MemoryObject, cache_memory::MemoryFile>;

/// A call on a file. An object is named by its bytes; its time is 7.
#[derive(Clone, Copy)]
enum Step {
    Create(&'static str),
    Adopt(&'static str, &'static str),
    Bind(&'static str),
    Lose,
    Open,
    Close,
    Write(At, &'static str),
    /// From where and how long; the answer is 1 where these are the bytes, and else 0.
    Read(u64, u64, &'static str),
    Size(u64),
    Stat,
    Evict,
    Rename(&'static str),
    Discard,
}

/// A call, the number that it answers or its refusal, and the place of the last entry then, with the
/// number of calls on the cache file when it was made.
type Row = (Step, Result<u64, Refusal>, usize, u64);

/// The greatest place of a byte.
const LAST: u64 = (1 << 40) - 1;

/// An object of these bytes.
fn object_of(alloc: Global, text: &str) -> Result<MemoryObject, Fail> {
    let mut remote = MemoryRemote::new(alloc);
    let bytes = Blob::from_slice(alloc, text.as_bytes())?;
    let _print = remote.put(path_of(alloc, "o")?, bytes, 7)?;
    match remote.open_object(alloc, &path_of(alloc, "o")?) {
        Ok(object) => Ok(object),
        Err(_) => Err(Fail::from("no object")),
    }
}

fn payload_of(alloc: Global, text: &str) -> Result<Payload, Fail> {
    Ok(Payload::Bytes(Blob::from_slice(alloc, text.as_bytes())?))
}

/// Whether a read gives these bytes.
fn reads(book: &mut Book, pos: u64, len: u64, text: &str) -> Answer {
    let plan = Plan {
        chunk: None,
        limit: Limit::Off,
    };
    match calls::read(book, &plan, pos, len)? {
        Ok(found) => Ok(Ok(u64::from(found.as_slice() == text.as_bytes()))),
        Err(why) => Ok(Err(why)),
    }
}

fn act(book: &mut Book, alloc: Global, step: Step) -> Answer {
    match step {
        Step::Create(path) => calls::create(book, alloc, path),
        Step::Adopt(path, text) => {
            calls::adopt(book, path_of(alloc, path)?, object_of(alloc, text)?)
        }
        Step::Bind(text) => calls::bind(book, object_of(alloc, text)?),
        Step::Write(at, text) => calls::write(book, at, payload_of(alloc, text)?),
        Step::Read(pos, len, text) => reads(book, pos, len, text),
        Step::Rename(path) => calls::rename(book, alloc, path),
        _ => act_alone(book, step),
    }
}

/// The calls that take no memory of the test.
fn act_alone(book: &mut Book, step: Step) -> Answer {
    match step {
        Step::Lose => calls::lose(book),
        Step::Open => calls::open_handle(book),
        Step::Close => calls::close(book),
        Step::Size(size) => calls::set_size(book, size),
        Step::Stat => calls::stat(book),
        Step::Evict => calls::evict(book),
        Step::Discard => calls::discard(book),
        _ => Err(Fail::from("no call")),
    }
}

fn expect(
    rt: &impl Abort,
    found: Result<u64, Refusal>,
    expected: Result<u64, Refusal>,
    row: usize,
) {
    assert_eq!(rt; found, expected, "row {row}");
}

/// Looks at the last entry and its number.
fn expect_last(rt: &impl Abort, book: &Book, place: usize, at: u64, row: usize) {
    assert_eq!(rt; book.entries().len(), place, "row {row}");
    assert_eq!(rt; images::last_at(book), at, "row {row}");
}

fn expect_text(
    rt: &impl Abort,
    alloc: Global,
    disk: &MemoryDisk,
    calls: u64,
    text: &str,
) -> Result<(), Fail> {
    let found = text_after(disk, alloc, calls)?;
    assert_eq!(rt; found.as_slice(), text.as_bytes(), "after {calls}");
    Ok(())
}

/// Does the rows' calls on a new file of whose disk calls these fail, and looks at what each left.
fn followed(
    rt: &impl Abort,
    alloc: Global,
    fails: [u64; 3],
    limit: u32,
    rows: &[Row],
) -> Result<Bench<MemoryObject>, Fail> {
    let mut bench = Bench::new(alloc, fails, limit)?;
    for (i, (step, expected, place, at)) in rows.iter().enumerate() {
        let found = act(&mut bench.book, alloc, *step)?;
        expect(rt, found, *expected, i);
        expect_last(rt, &bench.book, *place, *at, i);
    }
    Ok(bench)
}

/// The same, and gives the disk back.
fn left(
    rt: &impl Abort,
    alloc: Global,
    fails: [u64; 3],
    limit: u32,
    rows: &[Row],
) -> Result<MemoryDisk, Fail> {
    let bench = followed(rt, alloc, fails, limit, rows)?;
    bench.ended()
}

const WRITTEN: &str =
    r#"{"atime":42,"base":null,"base_end":0,"dirty":true,"intent":{"bytes":"68656c6c6f","pos":0},"mtime":42,"path":"a.txt","ranges":[[0,5]],"size":5,"v":1}"#;

#[test]
fn a_file_is_made_and_written(rt: HostRuntime) -> Result<(), Fail> {
    let rows = [
        (Step::Create("a.txt"), Ok(0), 1, 1),
        (Step::Open, Ok(0), 2, 1),
        (Step::Write(At::Pos(0), "hello"), Ok(5), 3, 2),
        (Step::Close, Ok(1), 4, 3),
    ];
    let disk = left(&rt, rt.alloc(), [0, 0, 0], 100, &rows)?;
    expect_text(&rt, rt.alloc(), &disk, 0, "")?;
    expect_text(&rt, rt.alloc(), &disk, 2, WRITTEN)?;
    expect_text(&rt, rt.alloc(), &disk, 3, WRITTEN)
}

#[test]
fn a_write_whose_data_fails_is_settled_later(rt: HostRuntime) -> Result<(), Fail> {
    let rows = [
        (Step::Create("a"), Ok(0), 1, 1),
        (Step::Open, Ok(0), 2, 1),
        // saved by call 2; call 3 tears the data
        (Step::Write(At::Pos(0), "abcd"), Ok(4), 3, 2),
        // the settling call 4 fails
        (Step::Size(2), Err(Refusal::DiskFault), 4, 4),
        (Step::Write(At::Pos(9), ""), Ok(0), 5, 4),
        // settled by call 5, saved by 6, written by 7
        (Step::Write(At::End, "ef"), Ok(2), 6, 6),
        (Step::Size(5), Err(Refusal::DiskFault), 7, 8),
        (Step::Read(0, 9, "abcdef"), Ok(1), 8, 9),
        (Step::Size(5), Ok(0), 9, 10),
        (Step::Stat, Ok(5), 10, 10),
        (Step::Read(0, 9, "abcde"), Ok(1), 11, 11),
        (Step::Close, Ok(1), 12, 11),
        (Step::Discard, Ok(0), 13, 12),
        (Step::Evict, Ok(0), 13, 12),
    ];
    let bench = followed(&rt, rt.alloc(), [3, 4, 8], 100, &rows)?;
    assert!(rt; bench.book.path().is_none());
    let disk = bench.ended()?;
    expect_text(&rt, rt.alloc(), &disk, 12, "")
}

/// What is saved from the write on whose data fail, until the next save.
const INTENDED: &str =
    r#"{"atime":42,"base":null,"base_end":0,"dirty":true,"intent":{"bytes":"616263","pos":0},"mtime":42,"path":"a","ranges":[[0,3]],"size":3,"v":1}"#;

#[test]
fn a_read_writes_the_data_of_a_write_again(rt: HostRuntime) -> Result<(), Fail> {
    let rows = [
        (Step::Create("a"), Ok(0), 1, 1),
        (Step::Open, Ok(0), 2, 1),
        (Step::Write(At::Pos(0), "abc"), Ok(3), 3, 2),
        // settled by call 4, read by 5
        (Step::Read(0, 9, "abc"), Ok(1), 4, 5),
        (Step::Read(1, 2, "bc"), Ok(1), 5, 6),
    ];
    let disk = left(&rt, rt.alloc(), [3, 0, 0], 100, &rows)?;
    expect_text(&rt, rt.alloc(), &disk, 3, INTENDED)?;
    expect_text(&rt, rt.alloc(), &disk, 6, INTENDED)
}

#[test]
fn a_read_that_cannot_settle_is_refused(rt: HostRuntime) -> Result<(), Fail> {
    let rows = [
        (Step::Create("a"), Ok(0), 1, 1),
        (Step::Open, Ok(0), 2, 1),
        (Step::Write(At::Pos(0), "abc"), Ok(3), 3, 2),
        (Step::Read(0, 9, ""), Err(Refusal::DiskFault), 4, 4),
        (Step::Read(0, 9, "abc"), Ok(1), 5, 6),
    ];
    let disk = left(&rt, rt.alloc(), [3, 4, 0], 100, &rows)?;
    expect_text(&rt, rt.alloc(), &disk, 6, INTENDED)
}

#[test]
fn a_growth_after_a_cut_shows_zeros(rt: HostRuntime) -> Result<(), Fail> {
    let of_an_object = [
        (Step::Adopt("o", "0123456789"), Ok(0), 1, 1),
        (Step::Open, Ok(0), 2, 1),
        (Step::Size(4), Ok(0), 3, 2),
        (Step::Size(10), Ok(0), 4, 3),
        // the four bytes are written by call 4, saved by 5 and read by 6
        (Step::Read(0, 10, "0123\0\0\0\0\0\0"), Ok(1), 5, 6),
        (Step::Read(0, 11, "0123\0\0\0\0\0\0"), Ok(1), 6, 7),
    ];
    left(&rt, rt.alloc(), [0, 0, 0], 100, &of_an_object)?;
    let of_a_new_file = [
        (Step::Create("a"), Ok(0), 1, 1),
        (Step::Open, Ok(0), 2, 1),
        (Step::Write(At::Pos(0), "0123456789"), Ok(10), 3, 2),
        (Step::Size(4), Ok(0), 4, 4),
        (Step::Size(10), Ok(0), 5, 5),
        (Step::Read(0, 10, "0123\0\0\0\0\0\0"), Ok(1), 6, 6),
        (Step::Read(4, 6, "\0\0\0\0\0\0"), Ok(1), 7, 6),
    ];
    left(&rt, rt.alloc(), [0, 0, 0], 100, &of_a_new_file)?;
    Ok(())
}

#[test]
fn the_farthest_byte_is_read_back(rt: HostRuntime) -> Result<(), Fail> {
    let rows = [
        (Step::Create("a"), Ok(0), 1, 1),
        (Step::Open, Ok(0), 2, 1),
        (Step::Write(At::Pos(LAST), "Z"), Ok(1), 3, 2),
        (
            Step::Write(At::Pos(LAST + 1), "Z"),
            Err(Refusal::TooBig),
            3,
            2,
        ),
        (Step::Write(At::End, "Z"), Err(Refusal::TooBig), 3, 2),
        (Step::Write(At::Pos(LAST), "ZZ"), Err(Refusal::TooBig), 3, 2),
        (Step::Size(LAST + 2), Err(Refusal::TooBig), 3, 2),
        (Step::Read(LAST - 5, 6, "\0\0\0\0\0Z"), Ok(1), 4, 4),
        (Step::Read(LAST, 9, "Z"), Ok(1), 5, 5),
        (Step::Read(LAST + 1, 9, ""), Ok(1), 6, 5),
        (Step::Stat, Ok(LAST + 1), 7, 5),
    ];
    left(&rt, rt.alloc(), [0, 0, 0], 100, &rows)?;
    Ok(())
}

const RENAMED: &str =
    r#"{"atime":40,"base":{"mtime":7,"rev":1,"size":3},"base_end":3,"dirty":false,"intent":null,"mtime":7,"path":"p","ranges":[],"size":3,"v":1}"#;

const HELD: Fingerprint = Fingerprint {
    size: 3,
    mtime: 7,
    rev: 1,
};

const OTHER: Fingerprint = Fingerprint {
    size: 4,
    mtime: 7,
    rev: 1,
};

/// What is seen of a file whose object is another, to which a byte was written.
fn expect_lost(rt: &impl Abort, book: &Book) {
    let found = Found::Other(OTHER);
    assert_eq!(rt; book.base_state(), BaseState::Lost { held: HELD, found });
    assert!(rt; !book.base_whole());
    let expected = Look {
        size: 4,
        dirty: true,
        opens: 0,
        version: 1,
        atime: 43,
        mtime: 42,
        kept: 1,
    };
    assert_eq!(rt; book.look(), expected);
}

fn expect_names(rt: &impl Abort, book: &Book, path: &str) {
    assert_eq!(rt; book.path().map(|path| path.as_str()), Some(path));
    assert_eq!(rt; book.id(), ItemId(2));
    assert_eq!(rt; book.slot_id(), SlotId(3));
}

#[test]
fn an_object_is_taken_bound_and_lost(rt: HostRuntime) -> Result<(), Fail> {
    let rows = [
        (Step::Adopt("o", "abc"), Ok(0), 1, 1),
        (Step::Bind("xyz"), Ok(1), 2, 1),
        (Step::Rename("p"), Ok(0), 3, 2),
        (Step::Evict, Ok(1), 4, 3),
        (Step::Adopt("q", "ab"), Err(Refusal::DiskFault), 4, 3),
        (Step::Adopt("q", "abc"), Ok(0), 5, 5),
        (Step::Open, Ok(0), 6, 5),
        (Step::Evict, Ok(0), 6, 5),
        (Step::Bind("abcd"), Ok(0), 6, 5),
        (Step::Write(At::End, "d"), Ok(1), 7, 6),
        (Step::Close, Ok(1), 8, 7),
    ];
    let bench = followed(&rt, rt.alloc(), [4, 0, 0], 100, &rows)?;
    expect_lost(&rt, &bench.book);
    expect_names(&rt, &bench.book, "q");
    let disk = bench.ended()?;
    expect_text(&rt, rt.alloc(), &disk, 2, RENAMED)
}

#[test]
fn each_refusal_has_its_cause(rt: HostRuntime) -> Result<(), Fail> {
    let fault = Err(Refusal::DiskFault);
    let full = Err(Refusal::HistoryFull);
    let rows = [
        (Step::Create("a"), Ok(0), 1, 1),
        (Step::Open, Ok(0), 2, 1),
        (Step::Write(At::Pos(LAST + 1), ""), Ok(0), 3, 1),
        (Step::Write(At::Pos(LAST), "z"), fault, 4, 2),
        (Step::Size(1), full, 4, 2),
        (Step::Open, full, 4, 2),
        (Step::Read(0, 1, ""), full, 4, 2),
        (Step::Close, Ok(1), 5, 2),
        (Step::Rename("b"), full, 5, 2),
        (Step::Discard, full, 5, 2),
    ];
    left(&rt, rt.alloc(), [2, 3, 0], 5, &rows)?;
    Ok(())
}

#[test]
fn a_clear_that_fails_says_so(rt: HostRuntime) -> Result<(), Fail> {
    let rows = [
        (Step::Adopt("o", "abc"), Ok(0), 1, 1),
        (Step::Evict, Err(Refusal::DiskFault), 2, 2),
        (Step::Rename("p"), Err(Refusal::DiskFault), 2, 2),
        (Step::Lose, Ok(0), 2, 2),
        (Step::Open, Ok(0), 3, 3),
        (Step::Write(At::Pos(2), "z"), Ok(1), 4, 4),
    ];
    let bench = followed(&rt, rt.alloc(), [2, 3, 0], 100, &rows)?;
    expect_names(&rt, &bench.book, "o");
    bench.ended()?;
    Ok(())
}
