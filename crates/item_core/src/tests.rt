use crate::{plain, *};
use std::alloc::Global;
use std::test::Fail;
use vfs_names::{Access, Actor, Blob, By, Fingerprint, Found, Payload, Refusal, VPath, Verb, Who};

/// No object is known, and the cache saved nothing.
struct Nothing;

impl Source for Nothing {
    ghost use Rattle.std.specs.Prelude.{None, []};

    ghost known = { λ _. record { content = λ _. []; saved = λ _. None } };

    fn content_byte(&self, _print: Fingerprint, _p: u64) -> u8 {
        0
    }

    fn saved_byte(&self, _p: u64) -> Option<u8> {
        None
    }
}

fn made(now: u64, at: u64, kind: FileKind) -> Entry {
    let who = Who {
        epoch: 0,
        phase: 1,
        actor: Actor::Session(1),
    };
    let by = By {
        who,
        pass: 2,
        tree: true,
        now,
    };
    Entry { by, at, kind }
}

fn write(alloc: Global, pos: u64, bytes: &[u8]) -> Result<FileKind, Fail> {
    let payload = Payload::Bytes(Blob::from_slice(alloc, bytes)?);
    Ok(FileKind::Write { pos, payload })
}

/// Adds an entry where it may come next and finds a place.
fn add(core: &mut Core, entry: Entry) -> Result<(), Fail> {
    if !core.allows(&entry) {
        return Err(Fail::new("not allowed"));
    }
    core.reserve(entry.kind.places())?;
    core.push(entry);
    Ok(())
}

/// A file is made, opened, written, read and closed.
fn written(alloc: Global) -> Result<Core, Fail> {
    let mut core = Core::new(alloc, 7);
    add(&mut core, made(20, 1, FileKind::Create))?;
    add(&mut core, made(20, 1, FileKind::Opened(Access::Both)))?;
    add(&mut core, made(30, 2, write(alloc, 0, b"hello")?))?;
    add(&mut core, made(40, 2, FileKind::Read { pos: 1, len: 100 }))?;
    add(&mut core, made(50, 2, FileKind::Closed))?;
    Ok(core)
}

#[test]
fn counts_a_written_file(rt: HostRuntime) -> Result<(), Fail> {
    let core = written(rt.alloc())?;
    assert_eq!(rt; [core.version(), core.size(), core.base_end()], [2, 5, 0]);
    assert_eq!(rt;
        [core.kept(), core.dirty(), core.modified(), core.owed()],
        [true, true, false, true]
    );
    assert_eq!(rt; [core.opens(), core.begun(), core.free()], [0, 0, 2]);
    assert_eq!(rt; core.held(), None);
    assert_eq!(rt; core.entries().len(), 5);
    Ok(())
}

#[test]
fn counts_it_by_the_plain_programs(rt: HostRuntime) -> Result<(), Fail> {
    let core = written(rt.alloc())?;
    let entries = core.entries();
    assert!(rt; is_legal(entries) && is_timely(entries));
    assert_eq!(rt;
        [
            plain::version_of(entries),
            plain::size_of(entries),
            plain::base_end_of(entries)
        ],
        [2, 5, 0]
    );
    assert_eq!(rt;
        [plain::is_kept(entries), plain::is_dirty(entries)],
        [true, true]
    );
    assert_eq!(rt;
        [plain::is_modified(entries), plain::is_owed(entries)],
        [false, true]
    );
    assert_eq!(rt;
        [
            plain::opens_of(entries),
            plain::opens_by(entries, 2),
            plain::begun_of(entries)
        ],
        [0, 0, 0]
    );
    assert_eq!(rt; plain::held_by(entries), None);
    assert_eq!(rt; plain::upload_at(entries, 4), None);
    assert_eq!(rt; plain::place(entries, 1).len(), 2);
    assert_eq!(rt; plain::atime_of(7, entries), 50);
    Ok(())
}

#[test]
fn names_a_renamed_file(rt: HostRuntime) -> Result<(), Fail> {
    let names = [VPath::parse(rt.alloc(), "a")?];
    let moved = FileKind::Rename(VPath::parse(rt.alloc(), "b")?);
    let entries = [made(20, 1, FileKind::Create), made(60, 3, moved)];
    assert_eq!(rt;
        plain::name_of(&entries, &names).ok_or("no name")?.as_str(),
        "b"
    );
    assert_eq!(rt;
        plain::name_of(&entries[..1], &names)
            .ok_or("no name")?
            .as_str(),
        "a"
    );
    Ok(())
}

#[test]
fn reads_what_was_written(rt: HostRuntime) -> Result<(), Fail> {
    let entries = written(rt.alloc())?.into_entries();
    let read = read_at(rt.alloc(), &Nothing, entries.as_slice(), 1, 100)?;
    assert_eq!(rt; read.as_slice(), b"ello".as_slice());
    Ok(())
}

#[test]
fn a_growth_after_a_cut_reads_zeros(rt: HostRuntime) -> Result<(), Fail> {
    let mut core = Core::new(rt.alloc(), 9);
    add(&mut core, made(20, 1, FileKind::Create))?;
    add(&mut core, made(20, 1, FileKind::Opened(Access::Both)))?;
    add(&mut core, made(30, 2, write(rt.alloc(), 0, b"hello")?))?;
    add(&mut core, made(30, 3, FileKind::SetSize(2)))?;
    add(&mut core, made(30, 4, FileKind::SetSize(8)))?;
    let read = read_at(rt.alloc(), &Nothing, core.entries(), 0, 8)?;
    assert_eq!(rt; read.as_slice(), b"he\0\0\0\0\0\0".as_slice());
    Ok(())
}

#[test]
fn the_last_byte_is_at_its_place(rt: HostRuntime) -> Result<(), Fail> {
    let last = (1 << 40) - 1;
    let mut core = Core::new(rt.alloc(), 9);
    add(&mut core, made(20, 1, FileKind::Create))?;
    add(&mut core, made(20, 1, FileKind::Opened(Access::Both)))?;
    add(&mut core, made(30, 2, write(rt.alloc(), last, b"x")?))?;
    assert_eq!(rt; core.size(), 1 << 40);
    assert_eq!(rt; byte_at(&Nothing, core.entries(), last), b'x');
    assert_eq!(rt; byte_at(&Nothing, core.entries(), last - 1), 0);
    assert!(rt; !core.allows(&made(40, 3, write(rt.alloc(), last, b"xy")?)));
    Ok(())
}

fn may(core: &Core, kind: FileKind) -> bool {
    core.allows(&made(70, 3, kind))
}

#[test]
fn an_upload_is_of_the_present_version(rt: HostRuntime) -> Result<(), Fail> {
    let print = Fingerprint {
        size: 5,
        mtime: 60,
        rev: 1,
    };
    let mut core = written(rt.alloc())?;
    assert!(rt; !may(&core, FileKind::Evict));
    assert!(rt; !may(&core, FileKind::UploadStart(1)));
    assert!(rt; !core.allows(&made(60, 1, FileKind::UploadStart(2))));
    add(&mut core, made(60, 2, FileKind::UploadStart(2)))?;
    assert_eq!(rt;
        plain::upload_at(core.entries(), 5),
        Some(Upload {
            version: 2,
            pass: 2
        })
    );
    assert!(rt; !may(&core, FileKind::Uploaded { start: 4, print }));
    add(
        &mut core,
        made(70, 3, FileKind::Uploaded { start: 5, print }),
    )?;
    assert!(rt; !core.dirty());
    assert_eq!(rt; core.held(), Some(print));
    assert!(rt; may(&core, FileKind::Evict));
    Ok(())
}

#[test]
fn a_stale_refusal_tells_what_is_held(rt: HostRuntime) -> Result<(), Fail> {
    let held = Fingerprint {
        size: 6,
        mtime: 1,
        rev: 1,
    };
    let other = Fingerprint {
        size: 9,
        mtime: 9,
        rev: 9,
    };
    let mut core = Core::new(rt.alloc(), 3);
    add(&mut core, made(20, 1, FileKind::Adopt(held)))?;
    let refused = |held, found| FileKind::Refused {
        verb: Verb::Read,
        why: Refusal::Stale { held, found },
    };
    assert!(rt; may(&core, refused(held, Found::Missing)));
    assert!(rt; may(&core, refused(held, Found::Other(other))));
    assert!(rt; !may(&core, refused(held, Found::Other(held))));
    assert!(rt; !may(&core, refused(other, Found::Missing)));
    Ok(())
}

#[test]
fn a_close_keeps_its_place(rt: HostRuntime) -> Result<(), Fail> {
    let mut core = Core::new(rt.alloc(), 4);
    add(&mut core, made(20, 1, FileKind::Create))?;
    add(&mut core, made(20, 1, FileKind::Opened(Access::Read)))?;
    core.reserve(1)?;
    assert_eq!(rt; core.reserve(2), Err(Refusal::HistoryFull));
    assert_eq!(rt; [core.free(), core.opens()], [1, 1]);
    add(&mut core, made(20, 1, FileKind::Stat))?;
    add(&mut core, made(20, 1, FileKind::Closed))?;
    assert_eq!(rt; [core.free(), core.spare(), core.opens()], [0, 0, 0]);
    Ok(())
}
