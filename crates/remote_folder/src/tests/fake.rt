use super::*;
use std::alloc::Allocator;
use std::fs::{File, Metadata, OpenOptions};
use std::io::{ErrorKind, Read};

/// A file system with one directory, in which every name is that of a file but for the ones that say otherwise.
#[derive(Clone, Copy)]
struct Odd {
    rt: HostRuntime,
    names: &'static [u8],
    // whether reading the names ends in an error
    fails: bool,
}

#[derive(Drop)]
struct OddNames {
    left: &'static [u8],
    fails: bool,
}

impl Read for OddNames {
    fn read(&mut self, buf: &mut [u8]) -> io::Result<usize> {
        if self.left.is_empty() && self.fails {
            return Err(ErrorKind::Other.into());
        }
        self.left.read(buf)
    }
}

impl Files for Odd {
    type File = File;

    type Dir = OddNames;

    fn open_file(&self, how: &OpenOptions, path: &str) -> io::Result<File> {
        self.rt.open_file(how, path)
    }

    fn open_dir(&self, _path: &str) -> io::Result<OddNames> {
        Ok(OddNames {
            left: self.names,
            fails: self.fails,
        })
    }

    fn metadata(&self, _path: &str) -> io::Result<Metadata> {
        Ok(Metadata::of_dir())
    }

    fn symlink_metadata(&self, path: &str) -> io::Result<Metadata> {
        match path.as_bytes() {
            [.., b'g', b'o', b'n', b'e'] => Err(ErrorKind::NotFound.into()),
            [.., b's', b'e', b'c'] => Err(ErrorKind::PermissionDenied.into()),
            [.., b'm', b'e', b'm'] => Err(ErrorKind::OutOfMemory.into()),
            [.., b'l', b'n', b'k'] => Ok(Metadata::of_symlink(3)),
            [.., b'd', b'i', b'r'] => Ok(Metadata::of_dir()),
            _ => Ok(Metadata::of_file(3)),
        }
    }

    fn copy(&self, _from: &str, _to: &str) -> io::Result<u64> {
        Err(ErrorKind::Unsupported.into())
    }

    fn rename(&self, _from: &str, _to: &str) -> io::Result<()> {
        Err(ErrorKind::Unsupported.into())
    }

    fn remove_file(&self, _path: &str) -> io::Result<()> {
        Err(ErrorKind::Unsupported.into())
    }

    fn create_dir(&self, _path: &str) -> io::Result<()> {
        Ok(())
    }

    fn remove_dir(&self, _path: &str) -> io::Result<()> {
        Err(ErrorKind::Unsupported.into())
    }

    fn remove_dir_all<B: Allocator>(&self, _alloc: B, _path: &str) -> io::Result<()> {
        Err(ErrorKind::Unsupported.into())
    }
}

#[test]
fn odd_names_hurt_nothing(rt: HostRuntime) -> Result<(), Fail> {
    let alloc = rt.alloc();
    let table = [
        (b"".as_slice(), false, Ok("")),
        (b"b\0\xff\0a\0".as_slice(), false, Ok("a 3 0\nb 3 0\n")),
        (
            b"\xff\xfe\0\xc3\xa9\0".as_slice(),
            false,
            Ok("\u{e9} 3 0\n"),
        ),
        (
            b"b\0a\0b\0a.dir\0".as_slice(),
            false,
            Ok("a 3 0\na.dir/\nb 3 0\n"),
        ),
        (b"b.gone\0a\0x.lnk\0".as_slice(), false, Ok("a 3 0\n")),
        (b"a\0.vfs-stage-7\0.\0..\0".as_slice(), false, Ok("a 3 0\n")),
        (b"a\0b\0".as_slice(), true, Err(RemoteError::Failed)),
        (b"a\0\xff\0".as_slice(), true, Err(RemoteError::Failed)),
        (b"a\0b.sec\0".as_slice(), false, Err(RemoteError::Failed)),
        (b"a\0b.mem\0".as_slice(), false, Err(RemoteError::NoMemory)),
    ];
    for (names, fails, expected) in table {
        let mut remote = FolderRemote::new(alloc, Odd { rt, names, fails });
        remote.attach("f")?;
        let error = remote.list(alloc, &VPath::root(alloc)).err();
        assert_eq!(rt; error, expected.err());
        if let Ok(rows) = expected {
            assert_eq!(rt; listed(alloc, &mut remote, "")?.as_str(), rows);
        }
    }
    Ok(())
}

#[test]
fn a_folder_that_cannot_be_read_is_not_attached(rt: HostRuntime) {
    let names = b"".as_slice();
    let fails = true;
    let mut remote = FolderRemote::new(rt.alloc(), Odd { rt, names, fails });
    assert_eq!(rt; remote.attach("f"), Err(RemoteError::Failed));
}

#[test]
fn a_path_of_the_greatest_length_is_the_last_that_shows(rt: HostRuntime) -> Result<(), Fail> {
    let alloc = rt.alloc();
    let names = b"abc\0ab\0".as_slice();
    let fails = false;
    let mut remote = FolderRemote::new(alloc, Odd { rt, names, fails });
    remote.attach("f")?;
    let mut dir = String::new(alloc);
    for _ in 0..203 {
        dir.push_str("ndir/")?;
    }
    let table = [
        ("nndir", "ab 3 0\nabc 3 0\n"),
        ("nnndir", "ab 3 0\n"),
        ("nnnndir", ""),
        ("nnnnndir", ""),
        ("nnnnnndir", ""),
    ];
    for (last, rows) in table {
        let dir = format!(in alloc; "{dir}{last}")?;
        assert_eq!(rt;
            listed(alloc, &mut remote, dir.as_str())?.as_str(),
            rows,
            "{last}"
        );
    }
    Ok(())
}
