use super::*;
use std::os::unix::fs::symlink;
use vfs_outside::ObjectError;

#[derive(Clone, Copy, Debug, PartialEq, Eq)]
enum Change {
    Replaced,
    OtherSize,
    OtherTime,
    Removed,
    Link,
    LinkOnTheWay,
    Directory,
}

const CHANGES: [Change; 7] = [
    Change::Replaced,
    Change::OtherSize,
    Change::OtherTime,
    Change::Removed,
    Change::Link,
    Change::LinkOnTheWay,
    Change::Directory,
];

fn make(rt: &HostRuntime) -> Result<(), Fail> {
    let _ = fs::remove_dir_all(rt, "folder_changes");
    fs::create_dir_all(rt, "folder_changes/d")?;
    put(rt, "folder_changes/d/a", b"old content", 50)
}

fn make_change(rt: &HostRuntime, change: Change) -> Result<(), Fail> {
    match change {
        Change::Replaced => {
            put(rt, "folder_changes/b", b"new content", 50)?;
            fs::rename(rt, "folder_changes/b", "folder_changes/d/a")?;
        }
        Change::OtherSize => fs::write(rt, "folder_changes/d/a", b"new".as_slice())?,
        Change::OtherTime => put(rt, "folder_changes/d/a", b"new content", 51)?,
        Change::Removed => fs::remove_file(rt, "folder_changes/d/a")?,
        Change::Link => {
            fs::rename(rt, "folder_changes/d/a", "folder_changes/d/b")?;
            symlink(rt, "b", "folder_changes/d/a")?;
        }
        Change::LinkOnTheWay => {
            fs::rename(rt, "folder_changes/d", "folder_changes/e")?;
            symlink(rt, "e", "folder_changes/d")?;
        }
        Change::Directory => {
            fs::remove_file(rt, "folder_changes/d/a")?;
            fs::create_dir(rt, "folder_changes/d/a")?;
        }
    }
    Ok(())
}

#[test]
fn a_file_that_changed_before_a_request_is_told(rt: HostRuntime) -> Result<(), Fail> {
    let alloc = rt.alloc();
    for kind in CHANGES {
        make(&rt)?;
        let mut remote = FolderRemote::new(alloc, rt);
        remote.attach("folder_changes")?;
        let mut object = remote.open_object(alloc, &VPath::parse(alloc, "d/a")?)?;
        make_change(&rt, kind)?;
        assert_eq!(rt; object.print().size, 11);
        let answer = object.request(0, 11);
        assert_eq!(rt; answer.err(), Some(ObjectError::Changed), "{kind:?}");
    }
    fs::remove_dir_all(&rt, "folder_changes")?;
    Ok(())
}

#[test]
fn a_file_that_changed_before_a_pull_is_told(rt: HostRuntime) -> Result<(), Fail> {
    let alloc = rt.alloc();
    for kind in CHANGES {
        make(&rt)?;
        let mut remote = FolderRemote::new(alloc, rt);
        remote.attach("folder_changes")?;
        let mut object = remote.open_object(alloc, &VPath::parse(alloc, "d/a")?)?;
        assert_eq!(rt; object.print().size, 11);
        let mut stream = object.request(0, 11)?;
        let mut into = [0u8; 4];
        assert_eq!(rt; object.pull(&mut stream, &mut into), Ok(()));
        assert_eq!(rt; into, *b"old ");
        make_change(&rt, kind)?;
        let mut rest = [0u8; 7];
        let answer = object.pull(&mut stream, &mut rest);
        let is_told = answer == Err(ObjectError::Changed);
        let is_old = answer == Ok(()) && rest == *b"content";
        let may_be_old = kind != Change::OtherSize && kind != Change::OtherTime;
        assert!(rt; is_told || (is_old && may_be_old), "{kind:?}");
    }
    fs::remove_dir_all(&rt, "folder_changes")?;
    Ok(())
}
