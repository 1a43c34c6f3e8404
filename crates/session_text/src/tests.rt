use crate::*;
use item_core::{Dropped, Entry, FileKind};
use std::alloc::Global;
use std::test::Fail;
use vfs_names::{
    Access, Actor, Blob, By, Fingerprint, Found, ItemId, Payload, QueueRow, Refusal, SlotId, VPath,
    Verb, Who,
};
use vfs_outside::{Kind, Listing, NameRow, Names, Row, Rows, TreeEntry, TreeKind};

const PRINT: Fingerprint = Fingerprint {
    size: 8,
    mtime: 9,
    rev: 2,
};

fn by(actor: Actor, now: u64) -> By {
    By {
        who: Who {
            epoch: 0,
            phase: 1,
            actor,
        },
        pass: 0,
        tree: false,
        now,
    }
}

fn entry(at: u64, kind: FileKind) -> Entry {
    Entry {
        by: by(Actor::Session(1), 5000),
        at,
        kind,
    }
}

fn tree_entry(kind: TreeKind) -> TreeEntry {
    TreeEntry {
        by: by(Actor::Main, 70),
        kind,
    }
}

fn blob(alloc: Global, bytes: &[u8]) -> Result<Blob, Fail> {
    Ok(Blob::from_slice(alloc, bytes)?)
}

fn path(alloc: Global, text: &str) -> Result<VPath, Fail> {
    Ok(VPath::parse(alloc, text)?)
}

fn text(out: &Blob) -> Result<&str, Fail> {
    Ok(std::str::from_utf8(out.as_slice())?)
}

#[test]
fn a_file_shows_what_its_calls_did(rt: HostRuntime) -> Result<(), Fail> {
    let alloc = rt.alloc();
    let written = Payload::Bytes(blob(alloc, b"hello")?);
    let entries = [
        entry(1, FileKind::Create),
        entry(1, FileKind::Opened(Access::Both)),
        entry(
            2,
            FileKind::Write {
                pos: 0,
                payload: written,
            },
        ),
        entry(
            3,
            FileKind::Write {
                pos: 5,
                payload: Payload::Fill { byte: 90, len: 3 },
            },
        ),
        entry(
            4,
            FileKind::Write {
                pos: 9,
                payload: Payload::Pattern { seed: 7, len: 4096 },
            },
        ),
        entry(5, FileKind::SetSize(10)),
        entry(6, FileKind::Read { pos: 0, len: 8 }),
        entry(6, FileKind::Stat),
        entry(7, FileKind::Closed),
    ];
    let mut out = blob(alloc, b"tree\n")?;
    print_file(
        &mut out,
        ItemId(3),
        Some(&path(alloc, "a b/100%,")?),
        &entries,
    )?;
    assert_eq!(rt;
        text(&out)?,
        "tree
file 3 a%20b/100%25%2C
0 s1 5000 1 create
1 s1 5000 1 opened rw
2 s1 5000 2 write 0 hex:68656c6c6f
3 s1 5000 3 write 5 fill:90:3
4 s1 5000 4 write 9 pat:7:4096
5 s1 5000 5 size 10
6 s1 5000 6 read 0 8
7 s1 5000 6 stat
8 s1 5000 7 closed
"
    );
    Ok(())
}

#[test]
fn a_file_shows_what_was_kept_and_uploaded(rt: HostRuntime) -> Result<(), Fail> {
    let alloc = rt.alloc();
    let stale = Refusal::Stale {
        held: PRINT,
        found: Found::Missing,
    };
    let entries = [
        entry(
            0,
            FileKind::Recovered {
                size: 5,
                base_end: 0,
                dirty: true,
                base: None,
            },
        ),
        entry(
            0,
            FileKind::Recovered {
                size: 8,
                base_end: 8,
                dirty: false,
                base: Some(PRINT),
            },
        ),
        entry(1, FileKind::Bind(PRINT)),
        entry(1, FileKind::Adopt(PRINT)),
        entry(1, FileKind::Rename(path(alloc, "d/b")?)),
        entry(1, FileKind::UploadStart(4)),
        entry(
            1,
            FileKind::Uploaded {
                start: 5,
                print: PRINT,
            },
        ),
        entry(
            1,
            FileKind::UploadDropped {
                start: 5,
                why: Dropped::Cancelled { was: 4, now: 6 },
            },
        ),
        entry(
            1,
            FileKind::UploadDropped {
                start: 5,
                why: Dropped::Refused(Refusal::RemoteFault),
            },
        ),
        entry(1, FileKind::Evict),
        entry(1, FileKind::Discard),
        entry(
            1,
            FileKind::Refused {
                verb: Verb::Read,
                why: stale,
            },
        ),
    ];
    let mut out = Blob::new(alloc);
    print_file(&mut out, ItemId(0), None, &entries)?;
    assert_eq!(rt;
        text(&out)?,
        "file 0 -
0 s1 5000 0 recovered 5 0 dirty -
1 s1 5000 0 recovered 8 8 clean 8.9.2
2 s1 5000 1 bind 8.9.2
3 s1 5000 1 adopt 8.9.2
4 s1 5000 1 rename d/b
5 s1 5000 1 upload_start 4
6 s1 5000 1 uploaded 5 8.9.2
7 s1 5000 1 upload_dropped 5 cancelled 4 6
8 s1 5000 1 upload_dropped 5 E13 remote fault
9 s1 5000 1 evict
10 s1 5000 1 discard
11 s1 5000 1 refused read E15 stale 8.9.2 missing
"
    );
    Ok(())
}

#[test]
fn the_tree_shows_its_entries(rt: HostRuntime) -> Result<(), Fail> {
    let alloc = rt.alloc();
    let mut rows = Vec::new(alloc);
    rows.push(Row {
        name: blob(alloc, b"z")?,
        kind: Kind::File,
        print: PRINT,
    })?;
    rows.push(Row {
        name: blob(alloc, b"a b")?,
        kind: Kind::Dir,
        print: PRINT,
    })?;
    let listing = Listing {
        number: 12,
        rows: Rows::from_vec(rows),
    };
    let entries = [
        tree_entry(TreeKind::Kept {
            path: path(alloc, "k")?,
            item: ItemId(0),
            dirty: true,
        }),
        tree_entry(TreeKind::Listed {
            dir: VPath::root(alloc),
            listing,
        }),
        tree_entry(TreeKind::Opened {
            path: path(alloc, "o")?,
            item: ItemId(1),
            print: None,
        }),
        tree_entry(TreeKind::Opened {
            path: path(alloc, "o")?,
            item: ItemId(1),
            print: Some(PRINT),
        }),
        tree_entry(TreeKind::Created {
            path: path(alloc, "c")?,
            item: ItemId(2),
        }),
        tree_entry(TreeKind::Closed {
            item: ItemId(2),
            dirty: false,
        }),
        tree_entry(TreeKind::Stored {
            path: path(alloc, "s")?,
            print: PRINT,
        }),
        tree_entry(TreeKind::Gone(path(alloc, "g")?)),
        tree_entry(TreeKind::Removed(path(alloc, "r")?)),
        tree_entry(TreeKind::Renamed {
            from: path(alloc, "f")?,
            to: path(alloc, "t")?,
        }),
    ];
    let mut out = Blob::new(alloc);
    print_tree(&mut out, &entries)?;
    assert_eq!(rt;
        text(&out)?,
        "tree
0 m 70 kept k 0 dirty
1 m 70 listed / 12 f:z:8.9.2 d:a%20b
2 m 70 opened o 1 -
3 m 70 opened o 1 8.9.2
4 m 70 created c 2
5 m 70 closed 2 clean
6 m 70 stored s 8.9.2
7 m 70 gone g
8 m 70 removed r
9 m 70 renamed f t
"
    );
    Ok(())
}

#[test]
fn the_tree_shows_directories_and_direct_handles(rt: HostRuntime) -> Result<(), Fail> {
    let alloc = rt.alloc();
    let entries = [
        tree_entry(TreeKind::MadeDir(path(alloc, "d")?)),
        tree_entry(TreeKind::UnmadeDir(path(alloc, "d")?)),
        tree_entry(TreeKind::Polled(Some(1))),
        tree_entry(TreeKind::Forgot(VPath::root(alloc))),
        tree_entry(TreeKind::Polled(None)),
        tree_entry(TreeKind::DirectRead {
            path: path(alloc, "r")?,
            print: PRINT,
        }),
        tree_entry(TreeKind::Direct(path(alloc, "w")?)),
        tree_entry(TreeKind::Undirect(path(alloc, "w")?)),
        tree_entry(TreeKind::Asked {
            verb: Verb::Stat,
            path: VPath::root(alloc),
        }),
        TreeEntry {
            by: by(Actor::Worker(4), 71),
            kind: TreeKind::Refused {
                verb: Verb::Upload,
                path: path(alloc, "u")?,
                why: Refusal::NotFound,
            },
        },
    ];
    let mut out = Blob::new(alloc);
    print_tree(&mut out, &entries)?;
    assert_eq!(rt;
        text(&out)?,
        "tree
0 m 70 made d
1 m 70 unmade d
2 m 70 polled 1
3 m 70 forgot /
4 m 70 polled off
5 m 70 direct_read r 8.9.2
6 m 70 direct w
7 m 70 undirect w
8 m 70 asked stat /
9 w4 71 refused upload u E1 not found
"
    );
    Ok(())
}

#[test]
fn verbs_and_refusals_have_their_texts(rt: HostRuntime) -> Result<(), Fail> {
    let alloc = rt.alloc();
    let changed = Refusal::Stale {
        held: PRINT,
        found: Found::Changed,
    };
    let other = Refusal::Stale {
        held: PRINT,
        found: Found::Other(Fingerprint {
            size: 3,
            mtime: 0,
            rev: 1,
        }),
    };
    let table = [
        (Verb::Open, Refusal::NotFound, "open / E1 not found"),
        (Verb::Read, Refusal::Exists, "read / E2 exists"),
        (Verb::Write, Refusal::IsDir, "write / E3 is a directory"),
        (Verb::Size, Refusal::NotDir, "size / E4 not a directory"),
        (Verb::Close, Refusal::NotEmpty, "close / E5 not empty"),
        (Verb::Stat, Refusal::BadHandle, "stat / E6 bad handle"),
        (Verb::List, Refusal::NotReadable, "list / E7 not readable"),
        (
            Verb::MakeDir,
            Refusal::NotWritable,
            "mkdir / E8 not writable",
        ),
        (Verb::RemoveDir, Refusal::TableFull, "rmdir / E9 table full"),
        (Verb::Unlink, Refusal::InUse, "unlink / E10 in use"),
        (
            Verb::Rename,
            Refusal::Unsupported,
            "rename / E11 unsupported",
        ),
        (Verb::Clean, Refusal::TooBig, "clean / E12 too big"),
        (Verb::Poll, Refusal::RemoteFault, "poll / E13 remote fault"),
        (Verb::Upload, Refusal::DiskFault, "upload / E14 disk fault"),
        (
            Verb::Refresh,
            changed,
            "vfs/refresh / E15 stale 8.9.2 changed",
        ),
        (Verb::Open, other, "open / E15 stale 8.9.2 3.0.1"),
        (Verb::Open, Refusal::HistoryFull, "open / E16 history full"),
        (Verb::Open, Refusal::NoMemory, "open / E17 no memory"),
    ];
    for (verb, why, shown) in table {
        let mut out = Blob::new(alloc);
        let path = VPath::root(alloc);
        print_tree(
            &mut out,
            &[tree_entry(TreeKind::Refused { verb, path, why })],
        )?;
        let printed = text(&out)?
            .strip_prefix("tree\n0 m 70 refused ")
            .ok_or("another head")?;
        assert_eq!(rt; printed.strip_suffix("\n"), Some(shown));
    }
    Ok(())
}

fn replied(
    alloc: Global,
    reply: Reply,
    tree: Option<u32>,
    file: Option<(ItemId, u32)>,
) -> Result<Blob, Fail> {
    let mut out = Blob::new(alloc);
    let record = Record {
        line: 7,
        reply,
        tree,
        file,
    };
    print_reply(&mut out, &record)?;
    Ok(out)
}

#[test]
fn replies_have_their_texts_and_places(rt: HostRuntime) -> Result<(), Fail> {
    let alloc = rt.alloc();
    let mut names = Vec::new(alloc);
    names.push(NameRow {
        kind: Kind::Dir,
        name: blob(alloc, b"b")?,
    })?;
    names.push(NameRow {
        kind: Kind::File,
        name: blob(alloc, b"c d")?,
    })?;
    let file = Some((ItemId(2), 5));
    let table = [
        (Reply::Done, None, None, "7 ok\n"),
        (Reply::Done, Some(3), None, "7 ok [t3]\n"),
        (Reply::Done, Some(3), file, "7 ok [t3 f2:5]\n"),
        (
            Reply::Bytes(Blob::new(alloc)),
            None,
            file,
            "7 ok 0 [f2:5]\n",
        ),
        (
            Reply::Bytes(blob(alloc, b"new\n\xff")?),
            None,
            file,
            "7 ok 5 6e65770aff [f2:5]\n",
        ),
        (Reply::Wrote(131072), None, file, "7 ok 131072 [f2:5]\n"),
        (Reply::Dir, Some(0), None, "7 ok dir [t0]\n"),
        (
            Reply::File(3000000),
            Some(0),
            file,
            "7 ok file 3000000 [t0 f2:5]\n",
        ),
        (
            Reply::Listed(Names::from_vec(Vec::new(alloc))),
            Some(0),
            None,
            "7 ok 0 [t0]\n",
        ),
        (
            Reply::Listed(Names::from_vec(names)),
            Some(0),
            None,
            "7 ok 2 d:b f:c%20d [t0]\n",
        ),
        (
            Reply::Refused(Refusal::BadHandle),
            None,
            None,
            "7 E6 bad handle\n",
        ),
    ];
    for (reply, tree, file, shown) in table {
        let out = replied(alloc, reply, tree, file)?;
        assert_eq!(rt; text(&out)?, shown);
    }
    Ok(())
}

fn shows(alloc: Global, shown: Shown) -> Result<Blob, Fail> {
    let mut out = Blob::new(alloc);
    print_shown(&mut out, &shown)?;
    Ok(out)
}

#[test]
fn the_other_lines_of_a_script_are_shown(rt: HostRuntime) -> Result<(), Fail> {
    let alloc = rt.alloc();
    let done = Record {
        line: 1,
        reply: Reply::Done,
        tree: None,
        file: None,
    };
    let table = [
        (Shown::Replied(done), "1 ok\n"),
        (Shown::Advanced { line: 2, now: 4999 }, "2 advance 4999\n"),
        (
            Shown::Ticked {
                line: 3,
                uploaded: 1,
                failed: 2,
            },
            "3 tick uploaded 1 failed 2\n",
        ),
        (
            Shown::Cleaned {
                line: 4,
                evicted: 5,
                refused: 0,
            },
            "4 clean evicted 5 refused 0\n",
        ),
        (
            Shown::Polled {
                line: 5,
                answer: Ok(Some(2)),
            },
            "5 poll forgot 2\n",
        ),
        (
            Shown::Polled {
                line: 6,
                answer: Ok(None),
            },
            "6 poll off\n",
        ),
        (
            Shown::Polled {
                line: 7,
                answer: Err(Refusal::RemoteFault),
            },
            "7 poll E13 remote fault\n",
        ),
        (Shown::Joined { line: 8 }, "8 join\n"),
        (Shown::Restarted { line: 9 }, "9 restart\n"),
    ];
    for (shown, printed) in table {
        let out = shows(alloc, shown)?;
        assert_eq!(rt; text(&out)?, printed);
    }
    Ok(())
}

#[test]
fn an_epoch_has_its_first_and_last_lines(rt: HostRuntime) -> Result<(), Fail> {
    let mut out = Blob::new(rt.alloc());
    print_damaged(&mut out, SlotId(1), "ranges")?;
    print_start(&mut out, 1, 0, 2)?;
    let rows = [
        QueueRow {
            item: ItemId(0),
            due: 5000,
            fails: 0,
        },
        QueueRow {
            item: ItemId(3),
            due: 10000,
            fails: 1,
        },
    ];
    print_queue(&mut out, &rows)?;
    print_end(&mut out, 0)?;
    assert_eq!(rt;
        text(&out)?,
        "damaged 1 ranges
start files 1 queued 0 damaged 2
queue
0 5000 0
3 10000 1
end 0
"
    );
    Ok(())
}
