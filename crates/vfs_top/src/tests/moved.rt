use super::folder::{put, run_remote};
use super::shared_folder::{Other, SharedFolder};
use super::*;
use remote_folder::FolderRemote;
use std::io::ErrorKind;
use std::{fs, io};

const FOLDER: &str = "vfs_top_moved";

const AWAY: &str = "vfs_top_moved_away";

/// Somebody who renames the folder away before the first stage, and back before the second one.
#[derive(Drop)]
struct Mover {
    rt: HostRuntime,
    stages: u64,
}

impl Other for Mover {
    fn before_open(&self, _path: &str) -> io::Result<()> {
        Ok(())
    }

    /// The object in the folder has to be as it was when that comes back.
    fn before_stage(&mut self) -> io::Result<()> {
        self.stages = self.stages.saturating_add(1);
        match self.stages {
            1 => fs::rename(&self.rt, FOLDER, AWAY),
            2 => {
                let older = fs::read(&self.rt, "vfs_top_moved_away/a")?;
                fs::rename(&self.rt, AWAY, FOLDER)?;
                if older.as_slice() == b"abcd".as_slice() {
                    Ok(())
                } else {
                    Err(ErrorKind::InvalidData.into())
                }
            }
            _ => Ok(()),
        }
    }
}

const SCRIPT: &str = "s1 open 0 a rw
s1 write 0 0 text:XY
s1 close 0
advance 5000
tick
advance 5000
tick
";

const REPLIES: &str = "1 ok [t1 f0:1]
2 ok 2 [f0:2]
3 ok [t2 f0:3]
4 advance 5000
5 tick uploaded 0 failed 1
6 advance 10000
7 tick uploaded 1 failed 0
";

/// The first try fails and leaves the older object, the second puts the file in its place; nothing else is left.
#[test]
fn a_folder_that_comes_back_gets_the_file(rt: HostRuntime) -> Result<(), Fail> {
    let _ = fs::remove_dir_all(&rt, FOLDER);
    let _ = fs::remove_dir_all(&rt, AWAY);
    fs::create_dir_all(&rt, FOLDER)?;
    put(&rt, "vfs_top_moved/a", b"abcd", 1000)?;
    let remote = SharedFolder {
        inner: FolderRemote::new(rt.alloc(), rt),
        other: Mover { rt, stages: 0 },
    };
    let seen = run_remote(&rt, FOLDER, "2B", SCRIPT, remote)?;
    assert_eq!(rt; seen.status, 0);
    expect_replies(&rt, &seen, REPLIES);
    let bytes = fs::read(&rt, "vfs_top_moved/a")?;
    assert_eq!(rt; bytes.as_slice(), b"XYcd".as_slice());
    assert_eq!(rt; fs::read_dir(&rt, FOLDER)?.count(), 1);
    fs::remove_dir_all(&rt, FOLDER)?;
    Ok(())
}
