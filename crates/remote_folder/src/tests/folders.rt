use super::*;
use std::os::unix::fs::symlink;

fn fill(rt: &HostRuntime) -> Result<(), Fail> {
    put(rt, "folder_rows/b", b"xyz", 1_234_567)?;
    put(rt, "folder_rows/a", b"", 1)?;
    put(rt, "folder_rows/Z", b"1", 2000)?;
    put(rt, "folder_rows/..x", b"12", 3)?;
    put(rt, "folder_rows/\u{e9}", b"1", 4)?;
    put(rt, "folder_rows/.vfs-stage-1", b"1", 4)?;
    put(rt, "folder_other", b"secret", 4)?;
    fs::create_dir_all(rt, "folder_rows/d/e")?;
    put(rt, "folder_rows/d/f", b"inner", 5)?;
    put(rt, "folder_rows/d/.vfs-stage-2", b"inner", 5)?;
    symlink(rt, "b", "folder_rows/link")?;
    symlink(rt, "../folder_other", "folder_rows/out")?;
    symlink(rt, "d", "folder_rows/dir")?;
    symlink(rt, "nothing", "folder_rows/broken")?;
    Ok(())
}

#[test]
fn a_listing_is_sorted_and_has_files_and_directories_alone(rt: HostRuntime) -> Result<(), Fail> {
    let alloc = rt.alloc();
    let mut remote = attached(&rt, "folder_rows")?;
    assert_eq!(rt; listed(alloc, &mut remote, "")?.as_str(), "");
    fill(&rt)?;
    assert_eq!(rt;
        listed(alloc, &mut remote, "")?.as_str(),
        "..x 2 3\nZ 1 2000\na 0 1\nb 3 1234567\nd/\n\u{e9} 1 4\n"
    );
    assert_eq!(rt; listed(alloc, &mut remote, "d")?.as_str(), "e/\nf 5 5\n");
    assert_eq!(rt; listed(alloc, &mut remote, "d/e")?.as_str(), "");
    let long = [b'n'; 300];
    let long = std::str::from_utf8(&long)?;
    let missing = [
        "x", "b", "b/x", "link", "dir", "dir/e", "out", "broken", "d/x", long,
    ];
    for dir in missing {
        let found = remote.list(alloc, &VPath::parse(alloc, dir)?);
        assert_eq!(rt; found.err(), Some(RemoteError::Missing), "{dir}");
    }
    assert_eq!(rt; remote.list(alloc, &VPath::root(alloc))?.number, 15);
    fs::remove_dir_all(&rt, "folder_rows")?;
    fs::remove_file(&rt, "folder_other")?;
    let found = remote.list(alloc, &VPath::root(alloc));
    assert_eq!(rt; found.err(), Some(RemoteError::Missing));
    Ok(())
}

#[test]
fn objects_are_plain_files_of_the_folder(rt: HostRuntime) -> Result<(), Fail> {
    let alloc = rt.alloc();
    let mut remote = attached(&rt, "folder_objects")?;
    put(&rt, "folder_objects/a", b"hello, folder", 9_999)?;
    put(&rt, "folder_objects_other", b"secret", 4)?;
    fs::create_dir_all(&rt, "folder_objects/d")?;
    put(&rt, "folder_objects/d/f", b"inner", 5)?;
    symlink(&rt, "a", "folder_objects/link")?;
    symlink(&rt, "../folder_objects_other", "folder_objects/out")?;
    symlink(&rt, "d", "folder_objects/dir")?;
    let missing = ["", "x", "d", "a/x", "link", "out", "dir/f", "dir", "d/x"];
    for path in missing {
        let found = remote.open_object(alloc, &VPath::parse(alloc, path)?);
        assert_eq!(rt; found.err(), Some(RemoteError::Missing), "{path}");
    }
    fs::remove_dir_all(&rt, "folder_objects")?;
    fs::remove_file(&rt, "folder_objects_other")?;
    Ok(())
}

#[test]
fn files_are_read_in_pieces(rt: HostRuntime) -> Result<(), Fail> {
    let alloc = rt.alloc();
    let mut remote = attached(&rt, "folder_pieces")?;
    put(&rt, "folder_pieces/a", b"hello, folder", 9_999)?;
    fs::create_dir_all(&rt, "folder_pieces/d")?;
    put(&rt, "folder_pieces/d/f", b"inner", 5)?;
    put(&rt, "folder_pieces/d/empty", b"", 6)?;
    let mut object = remote.open_object(alloc, &VPath::parse(alloc, "a")?)?;
    assert_eq!(rt; object.print().size, 13);
    let mut stream = object.request(0, 13)?;
    let (mut first, mut rest) = ([0u8; 5], [0u8; 8]);
    assert_eq!(rt; object.pull(&mut stream, &mut first), Ok(()));
    assert_eq!(rt; object.pull(&mut stream, &mut rest), Ok(()));
    assert_eq!(rt; (first, rest), (*b"hello", *b", folder"));
    let mut inner = remote.open_object(alloc, &VPath::parse(alloc, "d/f")?)?;
    assert_eq!(rt; inner.print().size, 5);
    let mut stream = inner.request(1, 4)?;
    let mut part = [0u8; 3];
    assert_eq!(rt; inner.pull(&mut stream, &mut part), Ok(()));
    assert_eq!(rt; part, *b"nne");
    let empty = remote.open_object(alloc, &VPath::parse(alloc, "d/empty")?)?;
    assert_eq!(rt; empty.print().size, 0);
    assert_eq!(rt;
        object.print().text(alloc)?.as_slice(),
        b"13.9999.0".as_slice()
    );
    fs::remove_dir_all(&rt, "folder_pieces")?;
    Ok(())
}

#[test]
fn a_folder_is_attached_or_every_call_fails(rt: HostRuntime) -> Result<(), Fail> {
    let alloc = rt.alloc();
    let _ = fs::remove_dir_all(&rt, "folder_attach");
    let mut remote = FolderRemote::new(alloc, rt);
    let root = VPath::root(alloc);
    let path = VPath::parse(alloc, "a")?;
    assert_eq!(rt; remote.list(alloc, &root).err(), Some(RemoteError::Failed));
    assert_eq!(rt;
        remote.open_object(alloc, &path).err(),
        Some(RemoteError::Failed)
    );
    remote.attach("folder_attach/one/two")?;
    put(&rt, "folder_attach/one/two/a", b"first", 7)?;
    let mut object = remote.open_object(alloc, &path)?;
    let long = [b'n'; 3001];
    let long = std::str::from_utf8(&long)?;
    for name in [
        "folder_attach/one/two/a/b",
        "folder_attach/one/two/a",
        "",
        "n\0n",
        long,
    ] {
        assert_eq!(rt; remote.attach(name), Err(RemoteError::Failed), "{name}");
    }
    assert_eq!(rt; listed(alloc, &mut remote, "")?.as_str(), "a 5 7\n");
    remote.attach("folder_attach/three/")?;
    assert_eq!(rt; listed(alloc, &mut remote, "")?.as_str(), "");
    assert_eq!(rt;
        remote.open_object(alloc, &path).err(),
        Some(RemoteError::Missing)
    );
    assert_eq!(rt; object.print().size, 5);
    let mut stream = object.request(1, 4)?;
    let mut into = [0u8; 3];
    assert_eq!(rt; object.pull(&mut stream, &mut into), Ok(()));
    assert_eq!(rt; into, *b"irs");
    fs::remove_dir_all(&rt, "folder_attach")?;
    Ok(())
}

#[test]
fn many_files_are_listed(rt: HostRuntime) -> Result<(), Fail> {
    let alloc = rt.alloc();
    let mut remote = attached(&rt, "folder_many")?;
    for number in 0..3000u64 {
        let name = format!(in alloc; "folder_many/{:04}", number * 7 % 3000)?;
        fs::write(&rt, name.as_str(), b"x".as_slice())?;
    }
    let listing = remote.list(alloc, &VPath::root(alloc))?;
    assert_eq!(rt; listing.rows().len(), 3000);
    for (number, row) in listing.rows().iter().enumerate() {
        let name = format!(in alloc; "{number:04}")?;
        assert_eq!(rt; row.name.as_slice(), name.as_bytes());
    }
    fs::remove_dir_all(&rt, "folder_many")?;
    Ok(())
}

#[test]
fn a_device_is_no_object(rt: HostRuntime) -> Result<(), Fail> {
    let alloc = rt.alloc();
    let mut remote = FolderRemote::new(alloc, rt);
    remote.attach("/dev")?;
    let null = VPath::parse(alloc, "null")?;
    assert_eq!(rt;
        remote.open_object(alloc, &null).err(),
        Some(RemoteError::Missing)
    );
    let listing = remote.list(alloc, &VPath::root(alloc))?;
    for row in listing.rows() {
        assert!(rt; row.name.as_slice() != b"null".as_slice());
    }
    Ok(())
}
