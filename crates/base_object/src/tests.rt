ghost use Rattle.std.specs.Prelude.{◌≢◌, [], IfOk};
ghost use Rattle.downloaders.specs.Rules.{HasChunk};

use crate::*;
use byte_ranges::{RangeSet, Span};
use downloaders::{Limit, Plan};
use remote_memory::{MemoryObject, MemoryRemote};
use std::alloc::Global;
use std::test::Fail;
use vfs_names::{Blob, Fingerprint, Found, Refusal, VPath};
use vfs_outside::{Object, ObjectError, Remote};

const FIRST: Fingerprint = Fingerprint {
    size: 1000,
    mtime: 1,
    rev: 1,
};

const SECOND: Fingerprint = Fingerprint {
    size: 5,
    mtime: 1,
    rev: 2,
};

const CHANGED: Refusal = Refusal::Stale {
    held: FIRST,
    found: Found::Changed,
};

const REPLACED: Refusal = Refusal::Stale {
    held: FIRST,
    found: Found::Other(SECOND),
};

/// An object that notes the ranges that were asked of it.
#[derive(Drop)]
struct Noted<O: Object> {
    object: O,
    notes: Vec<(u64, u64)>,
}

impl<O: Object> Object for Noted<O> {
    type Stream = O::Stream;

    ghost tells = { O.tells };

    ghost bytes = { λ o. O.bytes o.object };

    ghost print_of = { λ o. O.print_of o.object };

    ghost path = { λ o. O.path o.object };

    ghost faults = { λ o. O.faults o.object };

    ghost changes = { λ o. O.changes o.object };

    ghost asked = { λ o. O.asked o.object };

    ghost source = { O.source };

    ghost place = { O.place };

    ghost finish = { O.finish };

    fn print(&self) -> Fingerprint {
        self.object.print()
    }

    fn request(&mut self, start: u64, end: u64) -> Result<O::Stream, ObjectError> {
        match self.notes.push((start, end)) {
            Ok(()) => self.object.request(start, end),
            Err(_) => Err(ObjectError::NoMemory),
        }
    }

    fn pull(&mut self, stream: &mut O::Stream, into: &mut [u8]) -> Result<(), ObjectError> {
        self.object.pull(stream, into)
    }
}

/// The byte at a place of the objects of these tests.
fn byte_at(place: u64) -> u8 {
    (place % 251) as u8
}

/// A file that is read in memory: the store of its object, its base, what is here, and the blocks
/// that were pulled.
#[derive(Drop)]
struct Reader {
    remote: MemoryRemote,
    base: BaseObject<Noted<MemoryObject>>,
    present: RangeSet,
    blocks: Vec<Block>,
}

/// What is done with a reader, and how it is to go.
#[derive(Clone, Copy)]
enum Step<'a> {
    /// A read from the one place to the other is done.
    Reads(u64, u64),
    /// It is refused.
    IsRefused(u64, u64, Refusal),
    /// These ranges were asked of the object that was bound last.
    HasAsked(&'a [(u64, u64)]),
    /// So many bytes are here.
    Has(u64),
    Is(BaseState),
    /// An object of so many bytes is put into the store.
    Puts(u64),
    /// The object in the store is given to the base, which takes it or doesn't.
    Binds(bool),
    Loses(Found),
    /// The base has no object any more.
    Unbinds,
}

/// A reader of an object of so many bytes, of whose pulls one is to fail and one to find another
/// object; by requests that begin with so many bytes, or with all where that is 0.
#[derive(Clone, Copy)]
struct Case<'a> {
    size: u64,
    fails: u64,
    changes: u64,
    chunk: u64,
    limit: Limit,
    steps: &'a [Step<'a>],
}

fn path_of_object(alloc: Global) -> Result<VPath, Fail>
    ensures { IfOk result (λ path. path ≢ []) }
{
    let path = VPath::parse(alloc, "o")?;
    if path.is_root() {
        return Err(Fail::from("the root"));
    }
    Ok(path)
}

fn put(remote: &mut MemoryRemote, alloc: Global, size: u64) -> Result<(), Fail> {
    let path = path_of_object(alloc)?;
    let bytes: Vec<u8> = (0..size).map(byte_at).collect(alloc)?;
    let _ = remote.put(path, Blob::from_vec(bytes), 1)?;
    Ok(())
}

fn opened(remote: &mut MemoryRemote, alloc: Global) -> Result<Noted<MemoryObject>, Fail> {
    let path = path_of_object(alloc)?;
    match remote.open_object(alloc, &path) {
        Ok(object) => Ok(Noted {
            object,
            notes: Vec::new(alloc),
        }),
        Err(_) => Err(Fail::from("no object")),
    }
}

/// A plan of this chunk, or of none where it is 0.
fn plan_of(chunk: u64, limit: Limit) -> Plan
    ensures { HasChunk result.chunk }
{
    let chunk = if chunk == 0 { None } else { Some(chunk) };
    Plan { chunk, limit }
}

impl Reader {
    fn of(alloc: Global, case: Case) -> Result<Reader, Fail> {
        let mut remote = MemoryRemote::new(alloc);
        remote.fail_pull(path_of_object(alloc)?, case.fails)?;
        remote.change_at_pull(path_of_object(alloc)?, case.changes)?;
        put(&mut remote, alloc, case.size)?;
        let object = opened(&mut remote, alloc)?;
        Ok(Reader {
            remote,
            base: BaseObject::of(object),
            present: RangeSet::new(alloc),
            blocks: Vec::new(alloc),
        })
    }

    fn read(&mut self, alloc: Global, plan: &Plan, start: u64, end: u64) -> Result<(), Refusal>
        requires { HasChunk plan.now.chunk }
    {
        let span = Span { start, end };
        let (base, present, blocks) = (&mut self.base, &mut self.present, &mut self.blocks);
        match base.state() {
            BaseState::Bound(held) if start < end && end <= held.size => {
                base.read_through(alloc, plan, present, span, held.size, blocks)
            }
            BaseState::Lost { held, found: _ } if start < end && end <= held.size => {
                base.read_through(alloc, plan, present, span, held.size, blocks)
            }
            _ => Err(Refusal::Unsupported),
        }
    }

    /// The ranges that were asked of the object that was bound last.
    fn notes(&self) -> &[(u64, u64)] {
        match &self.base.downloads {
            Some(downloads) => downloads.object.notes.as_slice(),
            None => &[],
        }
    }

    /// Each byte of the blocks is the object's.
    fn is_true(&self) -> bool {
        self.blocks.iter().all(|block| {
            let bytes = block.bytes.as_slice();
            bytes.iter().enumerate().all(|(i, byte)| *byte
                == byte_at(block.pos.saturating_add(i as u64)))
        })
    }

    fn bind(&mut self, alloc: Global) -> Result<bool, Fail> {
        let object = opened(&mut self.remote, alloc)?;
        match self.base.state().held() {
            Some(_) => Ok(self.base.bind(object)),
            None => Err(Fail::from("nothing is held")),
        }
    }

    fn lose(&mut self, found: Found) -> Result<bool, Fail> {
        match found {
            Found::Other(_) => Err(Fail::from("by a bind alone")),
            found => match self.base.state().held() {
                Some(_) => {
                    self.base.lose(found);
                    Ok(true)
                }
                None => Err(Fail::from("nothing is held")),
            },
        }
    }

    fn unbind(&mut self) -> bool {
        match self.base.state().held() {
            Some(held) => {
                self.base = BaseObject::unbound(held);
                true
            }
            None => false,
        }
    }

    /// Does a step; whether it went as it says.
    fn does(&mut self, alloc: Global, plan: &Plan, step: Step) -> Result<bool, Fail>
        requires { HasChunk plan.now.chunk }
    {
        match step {
            Step::Reads(start, end) => Ok(self.read(alloc, plan, start, end) == Ok(())),
            Step::IsRefused(start, end, why) => Ok(self.read(alloc, plan, start, end) == Err(why)),
            Step::HasAsked(ranges) => Ok(self.notes() == ranges),
            Step::Has(count) => Ok(self.present.count() == count),
            Step::Is(state) => Ok(self.base.state() == state),
            Step::Puts(size) => match put(&mut self.remote, alloc, size) {
                Ok(()) => Ok(true),
                Err(why) => Err(why),
            },
            Step::Binds(taken) => Ok(self.bind(alloc)? == taken),
            Step::Loses(found) => self.lose(found),
            Step::Unbinds => Ok(self.unbind()),
        }
    }
}

/// How many steps of a case go as they say before one that doesn't.
fn follow(alloc: Global, case: Case) -> Result<usize, Fail> {
    let plan = plan_of(case.chunk, case.limit);
    let mut reader = Reader::of(alloc, case)?;
    for (i, step) in case.steps.iter().enumerate() {
        match reader.does(alloc, &plan, *step) {
            Ok(true) => {}
            Ok(false) => return Ok(i),
            Err(why) => return Err(why),
        }
    }
    if !reader.is_true() {
        return Err(Fail::from("another byte"));
    }
    Ok(case.steps.len())
}

#[test]
fn asks_for_what_the_rules_say(rt: HostRuntime) -> Result<(), Fail> {
    let limited = Case {
        size: 1700,
        fails: 0,
        changes: 0,
        chunk: 100,
        limit: Limit::Most(500),
        steps: &[
            Step::Reads(0, 1700),
            Step::HasAsked(&[(0, 100), (100, 300), (300, 700), (700, 1200), (1200, 1700)]),
            Step::Has(1700),
        ],
    };
    let in_parts = Case {
        steps: &[
            Step::Reads(0, 50),
            Step::Has(100),
            Step::Reads(50, 150),
            Step::Reads(300, 301),
            Step::HasAsked(&[(0, 100), (100, 300), (300, 700)]),
            Step::Has(700),
        ],
        ..limited
    };
    let same = Case {
        limit: Limit::Same,
        steps: &[
            Step::Reads(0, 1700),
            Step::HasAsked(&[
                (0, 100),
                (100, 200),
                (200, 300),
                (300, 400),
                (400, 500),
                (500, 600),
                (600, 700),
                (700, 800),
                (800, 900),
                (900, 1000),
                (1000, 1100),
                (1100, 1200),
                (1200, 1300),
                (1300, 1400),
                (1400, 1500),
                (1500, 1600),
                (1600, 1700),
            ]),
        ],
        ..limited
    };
    let whole = Case {
        chunk: 0,
        steps: &[
            Step::Reads(10, 20),
            Step::Reads(1600, 1700),
            Step::HasAsked(&[(10, 1700)]),
        ],
        ..limited
    };
    let jump = Case {
        size: 300,
        limit: Limit::Off,
        steps: &[
            Step::Reads(0, 1),
            Step::Reads(250, 251),
            Step::HasAsked(&[(0, 100), (250, 300)]),
        ],
        ..limited
    };
    for case in [limited, in_parts, same, whole, jump] {
        assert_eq!(rt; follow(rt.alloc(), case)?, case.steps.len());
    }
    Ok(())
}

#[test]
fn an_object_that_fails_or_changes(rt: HostRuntime) -> Result<(), Fail> {
    let fails = Case {
        size: 1000,
        fails: 2,
        changes: 0,
        chunk: 100,
        limit: Limit::Off,
        steps: &[
            Step::Reads(0, 50),
            Step::IsRefused(100, 150, Refusal::RemoteFault),
            Step::HasAsked(&[(0, 100), (100, 300)]),
            Step::Is(BaseState::Bound(FIRST)),
            // the downloader has ended, so a new one asks
            Step::Reads(100, 150),
            Step::HasAsked(&[(0, 100), (100, 300), (100, 200)]),
        ],
    };
    let changes = Case {
        fails: 0,
        changes: 2,
        steps: &[
            Step::Reads(0, 50),
            Step::IsRefused(150, 160, CHANGED),
            Step::HasAsked(&[(0, 100), (150, 350)]),
            Step::IsRefused(300, 310, CHANGED),
            Step::Reads(0, 100),
            Step::HasAsked(&[(0, 100), (150, 350)]),
            Step::Binds(true),
            Step::Is(BaseState::Bound(FIRST)),
            Step::Reads(150, 160),
            Step::HasAsked(&[(150, 250)]),
        ],
        ..fails
    };
    for case in [fails, changes] {
        assert_eq!(rt; follow(rt.alloc(), case)?, case.steps.len());
    }
    Ok(())
}

#[test]
fn objects_are_bound_and_lost(rt: HostRuntime) -> Result<(), Fail> {
    let case = Case {
        size: 1000,
        fails: 0,
        changes: 0,
        chunk: 100,
        limit: Limit::Off,
        steps: &[
            Step::Unbinds,
            Step::Is(BaseState::Unbound(FIRST)),
            Step::Binds(true),
            Step::Is(BaseState::Bound(FIRST)),
            Step::Reads(0, 50),
            // no downloader is left of the object before
            Step::Binds(true),
            Step::Reads(100, 150),
            Step::HasAsked(&[(100, 200)]),
            Step::Puts(5),
            Step::Binds(false),
            Step::IsRefused(200, 210, REPLACED),
            Step::HasAsked(&[(100, 200)]),
            Step::Loses(Found::Missing),
            Step::Is(BaseState::Lost {
                held: FIRST,
                found: Found::Missing,
            }),
            Step::Reads(0, 200),
        ],
    };
    assert_eq!(rt; follow(rt.alloc(), case)?, case.steps.len());
    let none: BaseObject<Noted<MemoryObject>> = BaseObject::none();
    assert_eq!(rt; none.state(), BaseState::Absent);
    assert_eq!(rt; none.state().held(), None);
    Ok(())
}

#[test]
fn five_downloaders_and_large_requests(rt: HostRuntime) -> Result<(), Fail> {
    // each place is more than 1,048,576 bytes past the one before it
    let four = Case {
        size: 4_500_000,
        fails: 0,
        changes: 0,
        chunk: 1000,
        limit: Limit::Off,
        steps: &[
            Step::Reads(0, 1),
            Step::Reads(1_100_000, 1_100_001),
            Step::Reads(2_200_000, 2_200_001),
            Step::Reads(3_300_000, 3_300_001),
            Step::Reads(1000, 1001),
            Step::HasAsked(&[
                (0, 1000),
                (1_100_000, 1_101_000),
                (2_200_000, 2_201_000),
                (3_300_000, 3_301_000),
                (1000, 3000),
            ]),
        ],
    };
    // the first downloader gives way to the fifth
    let five = Case {
        steps: &[
            Step::Reads(0, 1),
            Step::Reads(1_100_000, 1_100_001),
            Step::Reads(2_200_000, 2_200_001),
            Step::Reads(3_300_000, 3_300_001),
            Step::Reads(4_400_000, 4_400_001),
            Step::Reads(1000, 1001),
            Step::HasAsked(&[
                (0, 1000),
                (1_100_000, 1_101_000),
                (2_200_000, 2_201_000),
                (3_300_000, 3_301_000),
                (4_400_000, 4_401_000),
                (1000, 2000),
            ]),
        ],
        ..four
    };
    let blocks = Case {
        size: 4_194_304,
        chunk: 134_217_728,
        steps: &[
            Step::Reads(0, 131_072),
            Step::Has(131_072),
            Step::HasAsked(&[(0, 4_194_304)]),
            Step::Reads(131_072, 131_073),
            Step::Has(262_144),
            Step::HasAsked(&[(0, 4_194_304)]),
        ],
        ..four
    };
    for case in [four, five, blocks] {
        assert_eq!(rt; follow(rt.alloc(), case)?, case.steps.len());
    }
    Ok(())
}
