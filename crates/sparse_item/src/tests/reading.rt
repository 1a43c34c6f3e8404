//! What is read of an object through a file: the requests, the blocks that stay, and the causes of
//! each refusal.
ghost use Rattle.std.specs.Prelude.{◌≡◌, ◌≤◌, length, OnOk};
ghost use Rattle.downloaders.specs.Rules.{HasChunk};

use super::calls;
use super::images::{Bench, State, expect_images, last_at};
use downloaders::{Limit, Plan};
use remote_memory::{MemoryObject, MemoryRemote};
use std::alloc::Global;
use std::cell::RefCell;
use std::process::Abort;
use std::test::Fail;
use vfs_names::{At, Blob, Fingerprint, Found, Payload, Refusal};
use vfs_outside::{Object, ObjectError, Remote};

/// The chunk size where none is given.
const CHUNK: u64 = 134_217_728;

const LONGEST: u64 = 131_072;

/// The ranges that were asked for.
type Asked = RefCell<Vec<(u64, u64)>>;

/// An object whose requests a test sees.
#[derive(Drop)]
struct Watched<'a, O: Object> {
    object: O,
    asked: &'a Asked,
}

/// Notes a range.
fn note(asked: &Asked, start: u64, end: u64) -> Result<(), ObjectError> {
    let Ok(mut asked) = asked.try_borrow_mut() else {
        return Err(ObjectError::NoMemory);
    };
    match asked.push((start, end)) {
        Ok(()) => Ok(()),
        Err(_) => Err(ObjectError::NoMemory),
    }
}

impl<O: Object> Object for Watched<'_, O> {
    type Stream = O::Stream;

    ghost tells = { O.tells };

    ghost bytes = { λ o. O.bytes o.object };

    ghost print_of = { λ o. O.print_of o.object };

    ghost path = { λ o. O.path o.object };

    ghost faults = { λ o. O.faults o.object };

    ghost changes = { λ o. O.changes o.object };

    ghost asked = { λ o. O.asked o.object };

    ghost source = { O.source };

    ghost place = { O.place };

    ghost finish = { O.finish };

    fn print(&self) -> Fingerprint {
        self.object.print()
    }

    fn request(&mut self, start: u64, end: u64) -> Result<O::Stream, ObjectError> {
        match note(self.asked, start, end) {
            Ok(()) => self.object.request(start, end),
            Err(_) => Err(ObjectError::NoMemory),
        }
    }

    fn pull(&mut self, stream: &mut O::Stream, into: &mut [u8]) -> Result<(), ObjectError> {
        self.object.pull(stream, into)
    }
}

type Seen<'a> = Watched<'a, MemoryObject>;

/// What is done to a file, and what comes of it.
#[derive(Clone, Copy)]
enum Step {
    /// A read from a place on of so many bytes gives those of the plain file.
    Shows(u64, u64),
    IsRefused(u64, u64, Refusal),
    Writes(u64, &'static str),
    Fills(u64, u64),
    Ends(u64),
    /// From and to, and how many bytes are stored.
    Fetches(u64, u64, u64),
    FetchIsRefused(u64, u64, Refusal),
}

/// An object of so many bytes, of whose pulls these are to fail and one is to find another object;
/// the plan of its requests; which of the disk's calls fail; the steps, each with the number of the
/// last entry's call after it; and the ranges that were asked for in the end.
#[derive(Clone, Copy)]
struct Case<'a> {
    size: u64,
    pull_fails: [u64; 2],
    other_at: u64,
    chunk: u64,
    limit: Limit,
    disk_fails: [u64; 3],
    steps: &'a [(Step, u64)],
    wanted: &'a [(u64, u64)],
}

/// A case in which nothing fails.
const WELL: Case<'static> = Case {
    size: 0,
    pull_fails: [0, 0],
    other_at: 0,
    chunk: CHUNK,
    limit: Limit::Off,
    disk_fails: [0, 0, 0],
    steps: &[],
    wanted: &[],
};

/// The byte at a place of the objects of these tests.
fn byte_at(place: u64) -> u8 {
    ((place % 251 * 7 + 7) % 251) as u8
}

fn content(alloc: Global, size: u64) -> Result<Vec<u8>, Fail> {
    let bytes: Vec<u8> = (0..size).map(byte_at).collect(alloc)?;
    Ok(bytes)
}

/// A store whose object at `o` fails as a case says.
fn store_of(alloc: Global, case: &Case) -> Result<MemoryRemote, Fail> {
    let [first, second] = case.pull_fails;
    let mut remote = MemoryRemote::new(alloc);
    remote.fail_pull(calls::path_of(alloc, "o")?, first)?;
    remote.fail_pull(calls::path_of(alloc, "o")?, second)?;
    remote.change_at_pull(calls::path_of(alloc, "o")?, case.other_at)?;
    Ok(remote)
}

/// The object of a case.
fn object_of<'a>(alloc: Global, case: &Case, asked: &'a Asked) -> Result<Seen<'a>, Fail> {
    let mut remote = store_of(alloc, case)?;
    let bytes = Blob::from_vec(content(alloc, case.size)?);
    let _print = remote.put(calls::path_of(alloc, "o")?, bytes, 5)?;
    match remote.open_object(alloc, &calls::path_of(alloc, "o")?) {
        Ok(object) => Ok(Watched { object, asked }),
        Err(_) => Err(Fail::from("no object")),
    }
}

/// A plan of this chunk, or of none where it is 0.
fn plan_of(chunk: u64, limit: Limit) -> Plan
    ensures { HasChunk result.chunk }
{
    let chunk = if chunk == 0 { None } else { Some(chunk) };
    Plan { chunk, limit }
}

fn accept(done: Result<u64, Refusal>, expected: u64) -> Result<(), Fail> {
    match done {
        Ok(found) if found == expected => Ok(()),
        Ok(_) => Err(Fail::from("another number")),
        Err(_) => Err(Fail::from("a refusal")),
    }
}

/// There are at least so many bytes.
fn grow(plain: &mut Vec<u8>, end: usize) -> Result<(), Fail>
    ensures { OnOk result (end ≤ length plain.new.items) }
{
    if end <= plain.len() {
        return Ok(());
    }
    match plain.resize(end, 0) {
        Ok(()) => Ok(()),
        Err(_) => Err(Fail::from("no memory")),
    }
}

/// These bytes stand from a place on.
fn spread(plain: &mut Vec<u8>, pos: u64, bytes: &[u8]) -> Result<(), Fail> {
    if pos > 1 << 32 || bytes.len() > 1 << 20 {
        return Err(Fail::from("too far"));
    }
    let start = pos as usize;
    let end = start + bytes.len();
    match grow(plain, end) {
        Ok(()) => {
            plain.as_mut_slice()[start..end].copy_from_slice(bytes);
            Ok(())
        }
        Err(why) => Err(why),
    }
}

/// Those of the bytes that a read gives.
fn part(plain: &[u8], pos: u64, len: u64) -> &[u8] {
    let size = plain.len() as u64;
    let start = pos.min(size);
    let end = pos.saturating_add(len).min(size);
    &plain[start as usize..end as usize]
}

/// A file with the plain bytes that it is to show.
#[derive(Drop)]
struct Pair<'a> {
    alloc: Global,
    chunk: u64,
    limit: Limit,
    bench: Bench<Seen<'a>>,
    plain: Vec<u8>,
}

impl<'a> Pair<'a> {
    /// A file that took the object of a case and was opened.
    fn opened(alloc: Global, case: &Case, asked: &'a Asked) -> Result<Pair<'a>, Fail> {
        let object = object_of(alloc, case, asked)?;
        let mut bench = Bench::new(alloc, case.disk_fails, 200)?;
        let path = calls::path_of(alloc, "o")?;
        accept(calls::adopt(&mut bench.book, path, object)?, 0)?;
        accept(calls::open_handle(&mut bench.book)?, 0)?;
        Ok(Pair {
            alloc,
            chunk: case.chunk,
            limit: case.limit,
            bench,
            plain: content(alloc, case.size)?,
        })
    }

    fn read(&mut self, pos: u64, len: u64) -> Result<Result<Blob, Refusal>, Fail> {
        let plan = plan_of(self.chunk, self.limit);
        calls::read(&mut self.bench.book, &plan, pos, len)
    }

    fn fetch(&mut self, start: u64, end: u64) -> calls::Answer {
        let plan = plan_of(self.chunk, self.limit);
        calls::fetch(&mut self.bench.book, &plan, start, end)
    }

    fn shows(&mut self, pos: u64, len: u64) -> Result<bool, Fail> {
        match self.read(pos, len)? {
            Ok(found) => Ok(found.as_slice() == part(self.plain.as_slice(), pos, len)),
            Err(_) => Ok(false),
        }
    }

    fn is_refused(&mut self, pos: u64, len: u64, expected: Refusal) -> Result<bool, Fail> {
        match self.read(pos, len)? {
            Ok(_) => Ok(false),
            Err(why) => Ok(why == expected),
        }
    }

    fn writes(&mut self, pos: u64, bytes: &[u8], payload: Payload) -> Result<bool, Fail> {
        spread(&mut self.plain, pos, bytes)?;
        let written = calls::write(&mut self.bench.book, At::Pos(pos), payload)?;
        Ok(written == Ok(bytes.len() as u64))
    }

    fn writes_text(&mut self, pos: u64, text: &str) -> Result<bool, Fail> {
        let bytes = Blob::from_slice(self.alloc, text.as_bytes())?;
        self.writes(pos, text.as_bytes(), Payload::Bytes(bytes))
    }

    fn fills(&mut self, pos: u64, len: u64) -> Result<bool, Fail> {
        let mut bytes = Vec::new(self.alloc);
        bytes.resize(len as usize, 9)?;
        self.writes(pos, bytes.as_slice(), Payload::Fill { byte: 9, len })
    }

    fn ends(&mut self, size: u64) -> Result<bool, Fail> {
        self.plain.resize(size as usize, 0)?;
        let done = calls::set_size(&mut self.bench.book, size)?;
        Ok(done == Ok(0))
    }

    /// Whether a step goes as it says.
    fn does(&mut self, step: Step) -> Result<bool, Fail> {
        match step {
            Step::Shows(pos, len) => self.shows(pos, len),
            Step::IsRefused(pos, len, expected) => self.is_refused(pos, len, expected),
            Step::Writes(pos, text) => self.writes_text(pos, text),
            Step::Fills(pos, len) => self.fills(pos, len),
            Step::Ends(size) => self.ends(size),
            Step::Fetches(start, end, stored) => Ok(self.fetch(start, end)? == Ok(stored)),
            Step::FetchIsRefused(start, end, expected) => {
                Ok(self.fetch(start, end)? == Err(expected))
            }
        }
    }

    /// What the file is now. Of a large file the bytes are left out.
    fn state(&self) -> Result<State, Fail> {
        let bytes = if self.plain.len() < 2000 {
            self.plain.clone()?
        } else {
            Vec::new(self.alloc)
        };
        Ok(State {
            at: last_at(&self.bench.book),
            path: "o",
            bytes,
        })
    }
}

/// Takes a step, after which the last entry's call has this number. What the file is then.
fn take_step(
    rt: &impl Abort,
    pair: &mut Pair,
    row: usize,
    step: Step,
    at: u64,
) -> Result<State, Fail> {
    assert!(rt; pair.does(step)?, "step {row}");
    let state = pair.state()?;
    assert_eq!(rt; state.at, at, "step {row}");
    Ok(state)
}

/// Takes a case's steps. The file after the opening and after each of them.
fn states(rt: &impl Abort, pair: &mut Pair, case: &Case) -> Result<Vec<State>, Fail> {
    let mut states = Vec::new(pair.alloc);
    states.push(pair.state()?)?;
    for (i, (next, at)) in case.steps.iter().enumerate() {
        states.push(take_step(rt, pair, i, *next, *at)?)?;
    }
    Ok(states)
}

fn expect_asked(rt: &impl Abort, asked: &Asked, wanted: &[(u64, u64)]) -> Result<(), Fail> {
    let Ok(asked) = asked.try_borrow() else {
        return Err(Fail::from("in use"));
    };
    assert_eq!(rt; asked.as_slice(), wanted);
    Ok(())
}

/// Takes a case's steps, and looks at what was asked for. Of a small object each image of the slot
/// is to have the content that was made by then.
fn follow(rt: &impl Abort, alloc: Global, case: Case) -> Result<(), Fail> {
    let asked = RefCell::new(Vec::new(alloc));
    let mut pair = Pair::opened(alloc, &case, &asked)?;
    let made = states(rt, &mut pair, &case)?;
    let disk = pair.bench.ended()?;
    expect_asked(rt, &asked, case.wanted)?;
    if case.size < 2000 {
        let object = content(alloc, case.size)?;
        expect_images(rt, alloc, &disk, made.as_slice(), object.as_slice())?;
    }
    Ok(())
}

/// An object of 1,700 bytes that is asked for by 100, and by at most 500.
const FIVE: Case<'static> = Case {
    size: 1700,
    chunk: 100,
    limit: Limit::Most(500),
    ..WELL
};

#[test]
fn requests_are_those_of_the_plan(rt: HostRuntime) -> Result<(), Fail> {
    // five blocks, each written and saved
    let whole = Case {
        steps: &[(Step::Shows(0, 1700), 12), (Step::Shows(3, 9), 13)],
        wanted: &[(0, 100), (100, 300), (300, 700), (700, 1200), (1200, 1700)],
        ..FIVE
    };
    follow(&rt, rt.alloc(), whole)?;
    let parts = Case {
        steps: &[
            (Step::Shows(0, 50), 4),
            (Step::Shows(50, 100), 7),
            (Step::Shows(300, 1), 10),
        ],
        wanted: &[(0, 100), (100, 300), (300, 700)],
        ..FIVE
    };
    follow(&rt, rt.alloc(), parts)
}

#[test]
fn requests_of_one_size_are_seventeen(rt: HostRuntime) -> Result<(), Fail> {
    let same = Case {
        limit: Limit::Same,
        steps: &[(Step::Shows(0, 1700), 36)],
        wanted: &[
            (0, 100),
            (100, 200),
            (200, 300),
            (300, 400),
            (400, 500),
            (500, 600),
            (600, 700),
            (700, 800),
            (800, 900),
            (900, 1000),
            (1000, 1100),
            (1100, 1200),
            (1200, 1300),
            (1300, 1400),
            (1400, 1500),
            (1500, 1600),
            (1600, 1700),
        ],
        ..FIVE
    };
    follow(&rt, rt.alloc(), same)
}

#[test]
fn a_downloader_goes_on_from_the_byte_that_is_missing(rt: HostRuntime) -> Result<(), Fail> {
    let jump = Case {
        size: 300,
        chunk: 100,
        steps: &[(Step::Shows(0, 1), 4), (Step::Shows(250, 1), 7)],
        wanted: &[(0, 100), (250, 300)],
        ..WELL
    };
    follow(&rt, rt.alloc(), jump)
}

/// A block from the start, and eight written ones after it, of an object of 4 MiB.
const BLOCKS: [(Step, u64); 9] = [
    (Step::Shows(0, LONGEST), 4),
    (Step::Fills(LONGEST, LONGEST), 5),
    (Step::Fills(2 * LONGEST, LONGEST), 7),
    (Step::Fills(3 * LONGEST, LONGEST), 9),
    (Step::Fills(4 * LONGEST, LONGEST), 11),
    (Step::Fills(5 * LONGEST, LONGEST), 13),
    (Step::Fills(6 * LONGEST, LONGEST), 15),
    (Step::Fills(7 * LONGEST, LONGEST), 17),
    (Step::Fills(8 * LONGEST, LONGEST), 19),
];

const MEBIBYTES: Case<'static> = Case {
    size: 1 << 22,
    ..WELL
};

/// Takes the steps of `BLOCKS` and then these.
fn after_blocks(
    rt: &impl Abort,
    alloc: Global,
    more: &[(Step, u64)],
    wanted: &[(u64, u64)],
) -> Result<(), Fail> {
    let mut steps = Vec::new(alloc);
    steps.extend_from_slice(&BLOCKS)?;
    steps.extend_from_slice(more)?;
    let case = Case {
        steps: steps.as_slice(),
        wanted,
        ..MEBIBYTES
    };
    follow(rt, alloc, case)
}

#[test]
fn a_downloader_reads_over_what_is_there(rt: HostRuntime) -> Result<(), Fail> {
    // eight blocks of which nothing was missing make a save each
    let more = [(Step::Shows(9 * LONGEST, 1), 31)];
    after_blocks(&rt, rt.alloc(), &more, &[(0, 1 << 22)])
}

#[test]
fn a_byte_that_is_too_far_gets_a_request(rt: HostRuntime) -> Result<(), Fail> {
    let more = [
        (Step::Fills(9 * LONGEST, 1), 21),
        (Step::Shows(9 * LONGEST + 1, 1), 25),
    ];
    let wanted = [(0, 1 << 22), (9 * LONGEST + 1, 1 << 22)];
    after_blocks(&rt, rt.alloc(), &more, &wanted)
}

#[test]
fn eight_reads_in_order_ask_once(rt: HostRuntime) -> Result<(), Fail> {
    let case = Case {
        steps: &[
            (Step::Shows(0, LONGEST), 4),
            (Step::Shows(LONGEST, LONGEST), 7),
            (Step::Shows(2 * LONGEST, LONGEST), 10),
            (Step::Shows(3 * LONGEST, LONGEST), 13),
            (Step::Shows(4 * LONGEST, LONGEST), 16),
            (Step::Shows(5 * LONGEST, LONGEST), 19),
            (Step::Shows(6 * LONGEST, LONGEST), 22),
            (Step::Shows(7 * LONGEST, LONGEST), 25),
            (Step::Shows(1_048_576, 1), 28),
            (Step::Shows(1_048_577, 1), 29),
        ],
        wanted: &[(0, 1 << 22)],
        ..MEBIBYTES
    };
    follow(&rt, rt.alloc(), case)
}

/// An object of ten bytes that is asked for as a whole.
const TEN: Case<'static> = Case { size: 10, ..WELL };

#[test]
fn a_read_makes_one_call_for_each_run(rt: HostRuntime) -> Result<(), Fail> {
    // the object's bytes go as far as 4, and two writes stand past it
    let case = Case {
        steps: &[
            (Step::Ends(4), 2),
            (Step::Ends(20), 3),
            (Step::Writes(8, "ab"), 4),
            (Step::Writes(12, "cd"), 6),
            (Step::Shows(9, 4), 9),
            (Step::Shows(0, 99), 14),
            (Step::Shows(10, 2), 14),
            (Step::Shows(20, 5), 14),
            (Step::Shows(19, 0), 14),
            (Step::Shows(1 << 63, LONGEST), 14),
            (Step::IsRefused(0, LONGEST + 1, Refusal::TooBig), 14),
            (Step::Shows(0, 4), 15),
        ],
        wanted: &[(0, 4)],
        ..TEN
    };
    follow(&rt, rt.alloc(), case)
}

#[test]
fn a_fetch_makes_one_pull(rt: HostRuntime) -> Result<(), Fail> {
    let case = Case {
        steps: &[
            (Step::Writes(2, "ab"), 2),
            // 0-2 and 4-100
            (Step::Fetches(0, 1, 98), 2),
            (Step::Fetches(50, 1000, 200), 2),
            (Step::Fetches(0, 300, 0), 2),
            (Step::Fetches(1700, 2000, 0), 2),
            (Step::Shows(0, 300), 9),
            (Step::Fetches(0, 9999, 400), 9),
        ],
        wanted: &[(0, 100), (100, 300), (300, 700)],
        ..FIVE
    };
    follow(&rt, rt.alloc(), case)
}

const FAULT: Refusal = Refusal::DiskFault;

#[test]
fn a_disk_that_fails_under_a_read_is_told(rt: HostRuntime) -> Result<(), Fail> {
    // 1 the save of the object, 2 the block's write, 3 its save, 4 and 5 a read each
    let reading = Case {
        disk_fails: [4, 0, 0],
        steps: &[(Step::IsRefused(0, 10, FAULT), 4), (Step::Shows(0, 10), 5)],
        wanted: &[(0, 10)],
        ..TEN
    };
    follow(&rt, rt.alloc(), reading)
}

#[test]
fn a_block_that_is_not_stored_is_asked_for_again(rt: HostRuntime) -> Result<(), Fail> {
    let storing = Case {
        disk_fails: [2, 4, 5],
        steps: &[
            (Step::IsRefused(0, 10, FAULT), 2),
            (Step::IsRefused(0, 10, FAULT), 4),
            (Step::FetchIsRefused(0, 10, FAULT), 4),
            (Step::Shows(0, 10), 8),
        ],
        wanted: &[(0, 10), (0, 10), (0, 10), (0, 10)],
        ..TEN
    };
    follow(&rt, rt.alloc(), storing)
}

#[test]
fn a_write_whose_data_fails_stands_over_an_object(rt: HostRuntime) -> Result<(), Fail> {
    let settling = Case {
        disk_fails: [3, 4, 5],
        steps: &[
            (Step::Writes(2, "ab"), 2),
            (Step::IsRefused(2, 1, FAULT), 4),
            (Step::Shows(99, 1), 4),
            (Step::FetchIsRefused(0, 10, FAULT), 4),
            (Step::Fetches(2, 4, 0), 4),
            (Step::Shows(0, 10), 10),
        ],
        wanted: &[(0, 10)],
        ..TEN
    };
    follow(&rt, rt.alloc(), settling)
}

/// An object of 1,000 bytes that is asked for by 100.
const THOUSAND: Case<'static> = Case {
    size: 1000,
    chunk: 100,
    limit: Limit::Same,
    ..WELL
};

#[test]
fn a_pull_that_fails_is_asked_for_again(rt: HostRuntime) -> Result<(), Fail> {
    let failing = Case {
        pull_fails: [2, 3],
        steps: &[
            (Step::Shows(0, 50), 4),
            (Step::IsRefused(0, 150, Refusal::RemoteFault), 4),
            (Step::FetchIsRefused(100, 101, Refusal::RemoteFault), 4),
            (Step::Shows(0, 100), 5),
            (Step::Shows(0, 150), 8),
        ],
        wanted: &[(0, 100), (100, 200), (100, 200), (100, 200)],
        ..THOUSAND
    };
    follow(&rt, rt.alloc(), failing)
}

const STALE: Refusal = Refusal::Stale {
    held: Fingerprint {
        size: 1000,
        mtime: 5,
        rev: 1,
    },
    found: Found::Changed,
};

#[test]
fn an_object_that_changes_is_stale(rt: HostRuntime) -> Result<(), Fail> {
    let changing = Case {
        other_at: 2,
        steps: &[
            (Step::Writes(500, "ab"), 2),
            (Step::Shows(0, 50), 6),
            (Step::IsRefused(50, 100, STALE), 6),
            (Step::IsRefused(50, 100, STALE), 6),
            (Step::FetchIsRefused(50, 101, STALE), 6),
            (Step::Shows(0, 100), 7),
            (Step::Shows(500, 2), 8),
            (Step::IsRefused(500, 3, STALE), 8),
        ],
        wanted: &[(0, 100), (100, 200)],
        ..THOUSAND
    };
    follow(&rt, rt.alloc(), changing)
}
