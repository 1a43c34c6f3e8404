mod changes;
mod fake;
mod folders;
mod stages;

use crate::*;
use std::alloc::Global;
use std::fs::Files;
use std::test::Fail;
use std::time::{Duration, UNIX_EPOCH};
use std::{fs, io};
use vfs_names::VPath;
use vfs_outside::{Kind, Object, Remote, RemoteError};

/// Writes a file anew, with its modification time in milliseconds.
fn put(rt: &HostRuntime, name: &str, bytes: &[u8], mtime: u64) -> Result<(), Fail> {
    fs::write(rt, name, bytes)?;
    let file = fs::OpenOptions::new().write(true).open(rt, name)?;
    let time = UNIX_EPOCH
        .checked_add(Duration::from_millis(mtime))
        .ok_or("time")?;
    file.set_modified(time)?;
    Ok(())
}

/// An empty folder, with a store attached to it.
fn attached(rt: &HostRuntime, name: &str) -> Result<FolderRemote<HostRuntime>, Fail> {
    let _ = fs::remove_dir_all(rt, name);
    let mut remote = FolderRemote::new(rt.alloc(), *rt);
    remote.attach(name)?;
    Ok(remote)
}

/// The rows of a directory, one in a line: the name, and the size of a file with its time, or a slash.
fn listed<R: Files<File = fs::File> + Clone + Drop>(
    alloc: Global,
    remote: &mut FolderRemote<R>,
    dir: &str,
) -> Result<String, Fail> {
    let listing = remote.list(alloc, &VPath::parse(alloc, dir)?)?;
    let mut text = String::new(alloc);
    for row in listing.rows() {
        text.push_str(std::str::from_utf8(row.name.as_slice())?)?;
        match row.kind {
            Kind::Dir => text.push('/')?,
            Kind::File => {
                let print = format!(in alloc; " {} {}", row.print.size, row.print.mtime)?;
                text.push_str(print.as_str())?;
            }
        }
        text.push('\n')?;
    }
    Ok(text)
}
