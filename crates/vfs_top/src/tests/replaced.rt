use super::folder::{put, run_remote};
use super::shared_folder::{Other, SharedFolder};
use super::*;
use remote_folder::FolderRemote;
use std::{fs, io};

const FOLDER: &str = "vfs_top_replaced";

/// What somebody else does to the file `a` before the run opens another file.
#[derive(Clone, Copy, Debug)]
enum Deed {
    Nothing,
    RenamesOver(&'static [u8], u64),
    Rewrites(&'static [u8], u64),
    Removes,
}

/// Somebody who does a deed before the object at a path is opened.
#[derive(Drop)]
struct Meddler {
    rt: HostRuntime,
    opened: &'static str,
    deed: Deed,
}

impl Other for Meddler {
    fn before_open(&self, path: &str) -> io::Result<()> {
        if path != self.opened {
            return Ok(());
        }
        match self.deed {
            Deed::Nothing => Ok(()),
            Deed::RenamesOver(bytes, mtime) => {
                put(&self.rt, "vfs_top_replacing", bytes, mtime)?;
                fs::rename(&self.rt, "vfs_top_replacing", "vfs_top_replaced/a")
            }
            Deed::Rewrites(bytes, mtime) => put(&self.rt, "vfs_top_replaced/a", bytes, mtime),
            Deed::Removes => fs::remove_file(&self.rt, "vfs_top_replaced/a"),
        }
    }

    fn before_stage(&mut self) -> io::Result<()> {
        Ok(())
    }
}

const SCRIPT: &str = "s1 open 0 a r
s1 read 0 0 2
s1 open 1 b r
s1 read 0 0 8
s1 read 0 0 2
";

const CHANGED: &str = "1 ok [t1 f0:1]
2 ok 2 6162 [f0:2]
3 ok [t2 f1:1]
4 E15 stale 4.1000.0 changed [f0:3]
5 ok 2 6162 [f0:4]
";

/// The object `a` of `abcd`, of which a part was read before, is read on after the deed: all its bytes, or none of another.
#[test]
fn a_file_that_is_replaced_is_never_mixed(rt: HostRuntime) -> Result<(), Fail> {
    let table = [
        (
            Deed::Nothing,
            "1 ok [t1 f0:1]\n2 ok 2 6162 [f0:2]\n3 ok [t2 f1:1]\n4 ok 4 61626364 [f0:3]\n5 ok 2 6162 [f0:4]\n",
        ),
        (Deed::RenamesOver(b"wxyz", 1000), CHANGED),
        (Deed::RenamesOver(b"wxyz", 2000), CHANGED),
        (Deed::Rewrites(b"wxyz", 2000), CHANGED),
        (Deed::Rewrites(b"wxy", 1000), CHANGED),
        (Deed::Rewrites(b"wxyz!", 1000), CHANGED),
        (Deed::Removes, CHANGED),
    ];
    for (deed, replies) in table {
        let seen = run_deed(&rt, "b", deed, SCRIPT)?;
        expect_replies(&rt, &seen, replies);
    }
    Ok(())
}

/// A file that is removed, or replaced, between the listing of the root and its opening.
#[test]
fn a_file_that_is_removed_is_not_found(rt: HostRuntime) -> Result<(), Fail> {
    let table = [
        (Deed::Removes, "1 E1 not found [t2]\n2 E1 not found [t3]\n"),
        (
            Deed::RenamesOver(b"wxyz!", 2000),
            "1 ok [t1 f0:1]\n2 ok 5 7778797a21 [f0:2]\n",
        ),
    ];
    for (deed, replies) in table {
        let script = match deed {
            Deed::Removes => "s1 open 0 a r\ns1 open 0 a r\n",
            _ => "s1 open 0 a r\ns1 read 0 0 8\n",
        };
        let seen = run_deed(&rt, "a", deed, script)?;
        expect_replies(&rt, &seen, replies);
    }
    Ok(())
}

fn run_deed(
    rt: &HostRuntime,
    opened: &'static str,
    deed: Deed,
    script: &str,
) -> Result<Seen, Fail> {
    let _ = fs::remove_dir_all(rt, FOLDER);
    fs::create_dir_all(rt, FOLDER)?;
    put(rt, "vfs_top_replaced/a", b"abcd", 1000)?;
    put(rt, "vfs_top_replaced/b", b"", 1000)?;
    let remote = SharedFolder {
        inner: FolderRemote::new(rt.alloc(), *rt),
        other: Meddler {
            rt: *rt,
            opened,
            deed,
        },
    };
    let seen = run_remote(rt, FOLDER, "2B", script, remote)?;
    fs::remove_dir_all(rt, FOLDER)?;
    Ok(seen)
}
