use super::*;
use std::alloc::Allocator;
use std::cell::Cell;
use std::fs::{Metadata, OpenOptions};
use std::io::ErrorKind;

/// A call of the file system that goes wrong.
#[derive(Clone, Copy, Debug, PartialEq, Eq)]
enum Call {
    None,
    Look,
    Open,
    // another file is opened than the one that was looked at
    Swap,
    OpenDir,
    Rename,
    Remove,
    MakeDir,
}

/// A file system in which calls of one kind go wrong.
#[derive(Clone, Copy)]
struct Broken<'a> {
    rt: HostRuntime,
    call: &'a Cell<Call>,
    kind: ErrorKind,
}

impl Broken<'_> {
    fn pass(&self, call: Call) -> io::Result<()> {
        if self.call.get() == call {
            Err(self.kind.into())
        } else {
            Ok(())
        }
    }
}

impl Files for Broken<'_> {
    type File = File;

    type Dir = <HostRuntime as Files>::Dir;

    fn open_file(&self, how: &OpenOptions, path: &str) -> io::Result<File> {
        self.pass(Call::Open)?;
        if self.call.get() == Call::Swap {
            return self.rt.open_file(how, "cache_broken/other");
        }
        self.rt.open_file(how, path)
    }

    fn open_dir(&self, path: &str) -> io::Result<<HostRuntime as Files>::Dir> {
        self.pass(Call::OpenDir)?;
        self.rt.open_dir(path)
    }

    fn metadata(&self, path: &str) -> io::Result<Metadata> {
        fs::metadata(&self.rt, path)
    }

    fn symlink_metadata(&self, path: &str) -> io::Result<Metadata> {
        self.pass(Call::Look)?;
        fs::symlink_metadata(&self.rt, path)
    }

    fn copy(&self, _from: &str, _to: &str) -> io::Result<u64> {
        Err(ErrorKind::Unsupported.into())
    }

    fn rename(&self, from: &str, to: &str) -> io::Result<()> {
        self.pass(Call::Rename)?;
        fs::rename(&self.rt, from, to)
    }

    fn remove_file(&self, path: &str) -> io::Result<()> {
        self.pass(Call::Remove)?;
        fs::remove_file(&self.rt, path)
    }

    fn create_dir(&self, path: &str) -> io::Result<()> {
        self.pass(Call::MakeDir)?;
        fs::create_dir(&self.rt, path)
    }

    fn remove_dir(&self, _path: &str) -> io::Result<()> {
        Err(ErrorKind::Unsupported.into())
    }

    fn remove_dir_all<B: Allocator>(&self, _alloc: B, _path: &str) -> io::Result<()> {
        Err(ErrorKind::Unsupported.into())
    }
}

/// A folder with metadata, data and half a text in slot 1, and another file.
fn make(rt: &HostRuntime) -> Result<(), Fail> {
    let _ = fs::remove_dir_all(rt, "cache_broken");
    fs::create_dir(rt, "cache_broken")?;
    write(rt, "cache_broken/1.meta", "old")?;
    write(rt, "cache_broken/1.meta.new", "half")?;
    write(rt, "cache_broken/1.data", "data")?;
    write(rt, "cache_broken/other", "secret")?;
    Ok(())
}

/// Makes a call on slot 1 while the calls of one kind go wrong. Gives the answer and the count of faults of the file.
fn call_while(
    rt: &HostRuntime,
    made: Made,
    call: Call,
    kind: ErrorKind,
) -> Result<(Result<(), DiskError>, u64), Fail> {
    make(rt)?;
    let cell = Cell::new(Call::None);
    let files = Broken {
        rt: *rt,
        call: &cell,
        kind,
    };
    let mut disk = FolderDisk::new(rt.alloc(), files);
    disk.attach("cache_broken")?;
    let mut file = taken(&mut disk, 1)?;
    cell.set(call);
    let answer = make_call(&mut file, made);
    Ok((answer, file.faults()))
}

#[test]
fn a_call_that_fails_changes_nothing(rt: HostRuntime) -> Result<(), Fail> {
    let table = [
        (Made::ReadMeta, Call::Look),
        (Made::ReadMeta, Call::Open),
        (Made::ReadMeta, Call::Swap),
        (Made::SaveMeta, Call::Look),
        (Made::SaveMeta, Call::Open),
        (Made::SaveMeta, Call::Swap),
        (Made::SaveMeta, Call::Rename),
        (Made::SaveMeta, Call::Remove),
        (Made::ReadAt, Call::Look),
        (Made::ReadAt, Call::Open),
        (Made::ReadAt, Call::Swap),
        (Made::WriteAt, Call::Look),
        (Made::WriteAt, Call::Open),
        (Made::WriteAt, Call::Swap),
        (Made::Clear, Call::Look),
        (Made::Clear, Call::Remove),
    ];
    for (made, call) in table {
        let answer = call_while(&rt, made, call, ErrorKind::Other)?;
        assert_eq!(rt; answer, (Err(DiskError::Failed), 1), "{made:?} {call:?}");
        assert!(rt;
            holds(&rt, "cache_broken/1.meta", "old")?,
            "{made:?} {call:?}"
        );
        assert!(rt;
            holds(&rt, "cache_broken/1.data", "data")?,
            "{made:?} {call:?}"
        );
        assert!(rt;
            holds(&rt, "cache_broken/other", "secret")?,
            "{made:?} {call:?}"
        );
    }
    fs::remove_dir_all(&rt, "cache_broken")?;
    Ok(())
}

#[test]
fn a_call_beside_those_that_go_wrong_is_done(rt: HostRuntime) -> Result<(), Fail> {
    let table = [
        (Made::ReadMeta, Call::Remove),
        (Made::SaveMeta, Call::MakeDir),
        (Made::ReadAt, Call::Rename),
        (Made::WriteAt, Call::Remove),
        (Made::Clear, Call::Open),
    ];
    for (made, call) in table {
        let answer = call_while(&rt, made, call, ErrorKind::Other)?;
        assert_eq!(rt; answer, (Ok(()), 0), "{made:?} {call:?}");
    }
    fs::remove_dir_all(&rt, "cache_broken")?;
    Ok(())
}

#[test]
fn want_of_memory_is_no_fault_where_nothing_is_changed(rt: HostRuntime) -> Result<(), Fail> {
    let (no_memory, failed) = (Err(DiskError::NoMemory), Err(DiskError::Failed));
    let table = [
        (Made::ReadMeta, Call::Look, (no_memory, 0)),
        (Made::ReadMeta, Call::Open, (no_memory, 0)),
        (Made::SaveMeta, Call::Rename, (failed, 1)),
        (Made::ReadAt, Call::Open, (no_memory, 0)),
        (Made::WriteAt, Call::Open, (failed, 1)),
        (Made::Clear, Call::Remove, (failed, 1)),
    ];
    for (made, call, expected) in table {
        let answer = call_while(&rt, made, call, ErrorKind::OutOfMemory)?;
        assert_eq!(rt; answer, expected, "{made:?} {call:?}");
    }
    fs::remove_dir_all(&rt, "cache_broken")?;
    Ok(())
}

#[test]
fn a_replacement_that_fails_leaves_no_half_of_a_text(rt: HostRuntime) -> Result<(), Fail> {
    let answer = call_while(&rt, Made::SaveMeta, Call::Rename, ErrorKind::Other)?;
    assert_eq!(rt; answer, (Err(DiskError::Failed), 1));
    assert!(rt; !fs::exists(&rt, "cache_broken/1.meta.new")?);
    fs::remove_dir_all(&rt, "cache_broken")?;
    Ok(())
}

/// Attaches a new folder, and lists its one slot, while the calls of one kind go wrong. Gives the count of faults after
/// each.
fn disk_calls_while(
    rt: &HostRuntime,
    call: Call,
    kind: ErrorKind,
) -> Result<(Result<(), DiskError>, Result<Vec<u32>, DiskError>, u64), Fail> {
    let _ = fs::remove_dir_all(rt, "cache_broken_disk");
    let cell = Cell::new(call);
    let files = Broken {
        rt: *rt,
        call: &cell,
        kind,
    };
    let mut disk = FolderDisk::new(rt.alloc(), files);
    let attach = disk.attach("cache_broken_disk");
    cell.set(Call::None);
    disk.attach("cache_broken_disk")?;
    write(rt, "cache_broken_disk/1.meta", "text")?;
    cell.set(call);
    let slots = disk.slots();
    Ok((attach, slots, disk.faults()))
}

#[test]
fn the_disk_tells_what_the_system_answered(rt: HostRuntime) -> Result<(), Fail> {
    let (no_memory, failed) = (DiskError::NoMemory, DiskError::Failed);
    let table = [
        (Call::Look, ErrorKind::Other, failed, Some(failed), 2),
        (Call::Open, ErrorKind::Other, failed, None, 1),
        (Call::OpenDir, ErrorKind::Other, failed, Some(failed), 2),
        (Call::MakeDir, ErrorKind::Other, failed, None, 1),
        (
            Call::OpenDir,
            ErrorKind::OutOfMemory,
            no_memory,
            Some(no_memory),
            0,
        ),
        (Call::Open, ErrorKind::OutOfMemory, no_memory, None, 0),
    ];
    for (call, kind, attach, slots, faults) in table {
        let (attached, listed, count) = disk_calls_while(&rt, call, kind)?;
        assert_eq!(rt; attached, Err(attach), "{call:?}");
        assert_eq!(rt; listed.err(), slots, "{call:?}");
        assert_eq!(rt; count, faults, "{call:?}");
    }
    fs::remove_dir_all(&rt, "cache_broken_disk")?;
    Ok(())
}
