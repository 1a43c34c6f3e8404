use crate::*;
use std::alloc::Global;
use std::test::Fail;
use vfs_names::{Blob, Fingerprint, VPath};
use vfs_outside::{Object, ObjectError, Remote, RemoteError};

fn put_at(
    remote: &mut MemoryRemote,
    alloc: Global,
    path: &str,
    bytes: &[u8],
    mtime: u64,
) -> Result<u64, Fail> {
    let path = VPath::parse(alloc, path)?;
    let bytes = Blob::from_slice(alloc, bytes)?;
    if path.is_root() {
        return Err(Fail::from("the root"));
    }
    let print = remote.put(path, bytes, mtime)?;
    Ok(print.rev)
}

#[test]
fn objects_and_their_parents_are_listed(rt: HostRuntime) -> Result<(), Fail> {
    let mut remote = MemoryRemote::new(rt.alloc());
    let objects = ["d/e", "a", "d", "d/f/g"];
    for path in objects {
        let _ = put_at(&mut remote, rt.alloc(), path, b"x", 1)?;
    }
    let table = [
        ("", Ok("ad")),
        ("d", Ok("f")),
        ("d/f", Ok("g")),
        ("a", Err(RemoteError::Missing)),
        ("d/f/g", Err(RemoteError::Missing)),
        ("d/e", Err(RemoteError::Missing)),
    ];
    for (dir, expected) in table {
        let dir = VPath::parse(rt.alloc(), dir)?;
        let mut shown = Vec::new(rt.alloc());
        let error = match remote.list(rt.alloc(), &dir) {
            Ok(listing) => {
                for row in listing.rows() {
                    shown.extend_from_slice(row.name.as_slice())?;
                }
                None
            }
            Err(why) => Some(why),
        };
        assert_eq!(rt; error, expected.err());
        assert_eq!(rt; shown.as_slice(), expected.unwrap_or("").as_bytes());
    }
    assert_eq!(rt; remote.list_calls(), 6);
    Ok(())
}

#[test]
fn an_object_keeps_its_bytes(rt: HostRuntime) -> Result<(), Fail> {
    let mut remote = MemoryRemote::new(rt.alloc());
    assert_eq!(rt; put_at(&mut remote, rt.alloc(), "o", b"old", 5)?, 1);
    assert_eq!(rt; put_at(&mut remote, rt.alloc(), "a", b"abcdef", 9)?, 2);
    remote.fail_pull(VPath::parse(rt.alloc(), "a")?, 2)?;
    remote.change_at_pull(VPath::parse(rt.alloc(), "a")?, 3)?;
    let path = VPath::parse(rt.alloc(), "a")?;
    assert_eq!(rt; remote.bytes_of(&path), Some(b"abcdef".as_slice()));
    let mut object = remote.open_object(rt.alloc(), &path)?;
    assert_eq!(rt;
        object.print().text(rt.alloc())?.as_slice(),
        b"6.9.2".as_slice()
    );
    assert!(rt; !path.is_root());
    remote.delete(&path);
    assert_eq!(rt; remote.bytes_of(&path), None);
    assert_eq!(rt; object.print().size, 6);
    let mut stream = object.request(1, 6)?;
    let mut into = [0u8; 2];
    assert_eq!(rt; object.pull(&mut stream, &mut into), Ok(()));
    assert_eq!(rt; into, *b"bc");
    Ok(())
}

#[test]
fn planned_pulls_fail_and_find_another_object(rt: HostRuntime) -> Result<(), Fail> {
    let mut remote = MemoryRemote::new(rt.alloc());
    let _ = put_at(&mut remote, rt.alloc(), "a", b"abc", 0)?;
    remote.fail_pull(VPath::parse(rt.alloc(), "a")?, 1)?;
    remote.change_at_pull(VPath::parse(rt.alloc(), "a")?, 2)?;
    let path = VPath::parse(rt.alloc(), "a")?;
    for expected in [ObjectError::Failed, ObjectError::Changed] {
        let mut object = remote.open_object(rt.alloc(), &path)?;
        assert_eq!(rt; object.print().size, 3);
        let mut first = object.request(0, 1)?;
        let mut second = object.request(1, 3)?;
        let mut into = [0u8; 1];
        let failed = object.pull(&mut first, &mut into);
        let changed = object.pull(&mut second, &mut into);
        let error = if expected == ObjectError::Failed {
            failed
        } else {
            changed
        };
        assert_eq!(rt; error, Err(expected));
    }
    Ok(())
}

#[test]
fn planned_faults_and_changes_come(rt: HostRuntime) -> Result<(), Fail> {
    let mut remote = MemoryRemote::new(rt.alloc());
    let _ = put_at(&mut remote, rt.alloc(), "a", b"abc", 0)?;
    remote.fail(RemoteCall::OpenObject, 2)?;
    remote.fail(RemoteCall::Attach, 1)?;
    remote.fail(RemoteCall::List, 1)?;
    let path = VPath::parse(rt.alloc(), "a")?;
    assert!(rt; !path.is_root());
    remote.outside(3, Change::Delete(path.copy(rt.alloc())?))?;
    remote.outside(
        4,
        Change::Put(path.copy(rt.alloc())?, Blob::new(rt.alloc()), 7),
    )?;
    let expected = [
        None,
        Some(RemoteError::Failed),
        Some(RemoteError::Missing),
        None,
    ];
    for error in expected {
        assert_eq!(rt; remote.open_object(rt.alloc(), &path).err(), error);
    }
    assert_eq!(rt; remote.attach("r"), Err(RemoteError::Failed));
    assert_eq!(rt; remote.attach("r"), Ok(()));
    let root = VPath::root(rt.alloc());
    assert_eq!(rt;
        remote.list(rt.alloc(), &root).err(),
        Some(RemoteError::Failed)
    );
    let listing = remote.list(rt.alloc(), &root)?;
    assert_eq!(rt; listing.number, 2);
    Ok(())
}

/// Puts these bytes at the path by a stage, in two pieces.
fn upload(
    remote: &mut MemoryRemote,
    alloc: Global,
    path: &str,
    bytes: &[u8],
    mtime: u64,
) -> Result<Fingerprint, RemoteError> {
    let (first, rest) = bytes.split_at(bytes.len() / 2);
    let mut stage = remote.stage(alloc)?;
    remote.append(&mut stage, first)?;
    remote.append(&mut stage, rest)?;
    let Ok(path) = VPath::parse(alloc, path) else {
        return Err(RemoteError::NoMemory);
    };
    if path.is_root() {
        return Err(RemoteError::NoMemory);
    }
    remote.commit(alloc, stage, &path, mtime)
}

#[test]
fn a_commit_puts_a_stage_whole(rt: HostRuntime) -> Result<(), Fail> {
    let alloc = rt.alloc();
    let mut remote = MemoryRemote::new(alloc);
    assert_eq!(rt; put_at(&mut remote, alloc, "d/old", b"old", 1)?, 1);
    let table = [
        ("new", b"hello".as_slice(), 7, Ok(b"5.7.2".as_slice())),
        ("new", b"HELLO".as_slice(), 7, Ok(b"5.7.3".as_slice())),
        ("d/old", b"".as_slice(), 9, Ok(b"0.9.4".as_slice())),
        ("d/e", b"x".as_slice(), 0, Ok(b"1.0.5".as_slice())),
        ("d", b"x".as_slice(), 0, Err(RemoteError::Missing)),
        ("e/f", b"x".as_slice(), 0, Err(RemoteError::Missing)),
        ("new/f", b"x".as_slice(), 0, Err(RemoteError::Missing)),
    ];
    for (path, bytes, mtime, expected) in table {
        let answer = upload(&mut remote, alloc, path, bytes, mtime);
        assert_eq!(rt; answer.err(), expected.err(), "{path}");
        if let (Ok(print), Ok(text)) = (answer, expected) {
            assert_eq!(rt; print.text(alloc)?.as_slice(), text);
            let path = VPath::parse(alloc, path)?;
            assert_eq!(rt; remote.bytes_of(&path), Some(bytes));
            assert_eq!(rt; remote.open_object(alloc, &path)?.print(), print);
        }
    }
    assert_eq!(rt; put_at(&mut remote, alloc, "a", b"", 1)?, 6);
    assert_eq!(rt;
        remote.list(alloc, &VPath::parse(alloc, "d")?)?.rows().len(),
        2
    );
    Ok(())
}

#[test]
fn a_stage_that_is_dropped_leaves_nothing(rt: HostRuntime) -> Result<(), Fail> {
    let alloc = rt.alloc();
    let mut remote = MemoryRemote::new(alloc);
    {
        let mut stage = remote.stage(alloc)?;
        remote.append(&mut stage, b"dropped")?;
    }
    assert_eq!(rt; remote.list(alloc, &VPath::root(alloc))?.rows().len(), 0);
    assert_eq!(rt; upload(&mut remote, alloc, "a", b"kept", 3)?.rev, 1);
    Ok(())
}

#[test]
fn planned_faults_of_an_upload_come(rt: HostRuntime) -> Result<(), Fail> {
    let alloc = rt.alloc();
    let path = VPath::parse(alloc, "a")?;
    assert!(rt; !path.is_root());
    for call in [RemoteCall::Stage, RemoteCall::Append, RemoteCall::Commit] {
        let mut remote = MemoryRemote::new(alloc);
        assert_eq!(rt; put_at(&mut remote, alloc, "a", b"old", 1)?, 1);
        remote.fail(call, 1)?;
        let failed = upload(&mut remote, alloc, "a", b"new", 2);
        assert_eq!(rt; failed, Err(RemoteError::Failed), "{call:?}");
        assert_eq!(rt; remote.bytes_of(&path), Some(b"old".as_slice()));
        assert_eq!(rt; upload(&mut remote, alloc, "a", b"new", 2)?.rev, 2);
        assert_eq!(rt; remote.bytes_of(&path), Some(b"new".as_slice()));
    }
    Ok(())
}

#[test]
fn others_change_what_a_commit_meets(rt: HostRuntime) -> Result<(), Fail> {
    let alloc = rt.alloc();
    let mut remote = MemoryRemote::new(alloc);
    let below = VPath::parse(alloc, "a/b")?;
    assert!(rt; !below.is_root());
    remote.outside(4, Change::Put(below, Blob::new(alloc), 1))?;
    let refused = upload(&mut remote, alloc, "a", b"x", 2);
    assert_eq!(rt; refused, Err(RemoteError::Missing));
    assert_eq!(rt; upload(&mut remote, alloc, "a/b", b"x", 2)?.rev, 2);
    Ok(())
}
