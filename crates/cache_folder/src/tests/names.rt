use super::*;
use std::os::unix::fs::symlink;

/// Files in a cache's folder that are none of its slots' metadata.
const OTHERS: [&str; 14] = [
    "1.meta.new",
    "01.meta",
    "00.meta",
    "+1.meta",
    "-1.meta",
    "1.META",
    "1.meta.old",
    "1meta",
    ".meta",
    "meta",
    "x",
    "5.data",
    "4294967296.meta",
    "18446744073709551617.meta",
];

fn put_in(rt: &HostRuntime, name: &str) -> Result<(), Fail> {
    let path = format!(in rt.alloc(); "cache_names/{name}")?;
    write(rt, path.as_str(), name)?;
    Ok(())
}

fn is_in(rt: &HostRuntime, name: &str) -> Result<bool, Fail> {
    let path = format!(in rt.alloc(); "cache_names/{name}")?;
    holds(rt, path.as_str(), name)
}

#[test]
fn other_names_are_passed_over_and_stay(rt: HostRuntime) -> Result<(), Fail> {
    let _ = fs::remove_dir_all(&rt, "cache_names");
    let mut disk = attached(&rt, "cache_names")?;
    for name in OTHERS {
        put_in(&rt, name)?;
    }
    for name in ["10.meta", "0.meta", "4294967295.meta", "2.meta"] {
        put_in(&rt, name)?;
    }
    fs::create_dir(&rt, "cache_names/7.meta")?;
    symlink(&rt, "10.meta", "cache_names/8.meta")?;
    assert!(rt; lists(&mut disk, &[0, 2, 10, 4294967295])?);
    for slot in [4294967295, 10, 2, 0] {
        let mut file = taken(&mut disk, slot)?;
        let name = format!(in rt.alloc(); "{slot}.meta")?;
        assert!(rt; shows(&mut file, name.as_str())?);
        assert_eq!(rt; file.save_meta(b"new"), Ok(()));
        assert_eq!(rt; file.write_at(0, b"data"), Ok(()));
        assert_eq!(rt; file.clear(false), Ok(()));
    }
    assert!(rt; lists(&mut disk, &[])?);
    for name in OTHERS {
        assert!(rt; is_in(&rt, name)?, "{name}");
    }
    assert_eq!(rt; fs::read_dir(&rt, "cache_names")?.count(), OTHERS.len() + 3);
    fs::remove_dir_all(&rt, "cache_names")?;
    Ok(())
}

/// What stands at a name that a slot's file has, and is no plain file.
#[derive(Clone, Copy, Debug)]
enum Odd {
    Link,
    Broken,
    Directory,
}

fn put_odd(rt: &HostRuntime, odd: Odd, path: &str) -> io::Result<()> {
    match odd {
        Odd::Link => symlink(rt, "../cache_odd_other", path),
        Odd::Broken => symlink(rt, "../cache_odd_none", path),
        Odd::Directory => fs::create_dir(rt, path),
    }
}

/// Makes a call on slot 1, where something odd stands at one name. Gives the answer and the count of faults of the disk.
fn call_at(
    rt: &HostRuntime,
    odd: Odd,
    path: &str,
    made: Made,
) -> Result<(Result<(), DiskError>, u64), Fail> {
    let _ = fs::remove_dir_all(rt, "cache_odd");
    let mut disk = attached(rt, "cache_odd")?;
    write(rt, "cache_odd_other", "secret")?;
    put_odd(rt, odd, path)?;
    let mut file = taken(&mut disk, 1)?;
    let answer = make_call(&mut file, made);
    give_back(&mut disk, 1, file)?;
    Ok((answer, disk.faults()))
}

#[test]
fn what_is_no_plain_file_is_not_used(rt: HostRuntime) -> Result<(), Fail> {
    let table = [
        ("cache_odd/1.meta", Made::ReadMeta),
        ("cache_odd/1.meta", Made::SaveMeta),
        ("cache_odd/1.meta", Made::Clear),
        ("cache_odd/1.meta.new", Made::SaveMeta),
        ("cache_odd/1.data", Made::ReadAt),
        ("cache_odd/1.data", Made::WriteAt),
    ];
    for odd in [Odd::Link, Odd::Broken, Odd::Directory] {
        for (path, made) in table {
            let answer = call_at(&rt, odd, path, made)?;
            assert_eq!(rt; answer, (Err(DiskError::Failed), 1), "{odd:?} {path}");
            assert!(rt; !fs::symlink_metadata(&rt, path)?.is_file());
            assert!(rt; holds(&rt, "cache_odd_other", "secret")?);
            assert!(rt; !fs::exists(&rt, "cache_odd_none")?);
        }
        let answer = call_at(&rt, odd, "cache_odd/1.data", Made::Clear)?;
        assert_eq!(rt; answer, (Ok(()), 0), "{odd:?}");
        assert!(rt; !fs::symlink_metadata(&rt, "cache_odd/1.data")?.is_file());
    }
    fs::remove_dir_all(&rt, "cache_odd")?;
    fs::remove_file(&rt, "cache_odd_other")?;
    Ok(())
}

/// A folder with a file, and folders that can't be held.
fn make_bad_folders(rt: &HostRuntime) -> Result<(), Fail> {
    let _ = fs::remove_dir_all(rt, "cache_made");
    fs::create_dir_all(rt, "cache_made/locked/lock")?;
    fs::create_dir(rt, "cache_made/linked")?;
    write(rt, "cache_made/file", "x")?;
    symlink(rt, "../file", "cache_made/linked/lock")?;
    symlink(rt, "nothing", "cache_made/broken")?;
    Ok(())
}

#[test]
fn a_folder_that_cannot_be_made_or_held_is_not_attached(rt: HostRuntime) -> Result<(), Fail> {
    make_bad_folders(&rt)?;
    let long = [b'n'; 3001];
    let table = [
        "cache_made/file",
        "cache_made/file/under",
        "cache_made/locked",
        "cache_made/linked",
        "cache_made/broken",
        "",
        "n\0n",
        std::str::from_utf8(&long)?,
    ];
    let mut disk = FolderDisk::new(rt.alloc(), rt);
    for name in table {
        assert_eq!(rt; disk.attach(name), Err(DiskError::Failed), "{name}");
    }
    assert_eq!(rt; disk.slots().err(), Some(DiskError::Failed));
    assert!(rt; !disk.is_out(1));
    assert_eq!(rt; disk.take(1).err(), Some(DiskError::Failed));
    assert_eq!(rt; disk.faults(), 10);
    assert_eq!(rt; disk.attach("cache_made/one/two"), Ok(()));
    assert!(rt; lists(&mut disk, &[])?);
    assert!(rt; !fs::exists(&rt, "/lock")?);
    fs::remove_dir_all(&rt, "cache_made")?;
    Ok(())
}
