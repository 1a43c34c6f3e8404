mod broken;
mod names;
mod whole;

use crate::*;
use std::fs::{File, Files};
use std::test::Fail;
use std::{fs, io};
use vfs_outside::{CacheDisk, CacheFile, DiskError};

/// A call on a slot's file.
#[derive(Clone, Copy, Debug)]
enum Made {
    ReadMeta,
    SaveMeta,
    ReadAt,
    WriteAt,
    Clear,
}

fn make_call<F: CacheFile>(file: &mut F, made: Made) -> Result<(), DiskError> {
    match made {
        Made::ReadMeta => match file.read_meta() {
            Ok(_) => Ok(()),
            Err(error) => Err(error),
        },
        Made::SaveMeta => file.save_meta(b"new"),
        Made::ReadAt => file.read_at(0, &mut [0u8; 4]),
        Made::WriteAt => file.write_at(0, b"DATA"),
        Made::Clear => file.clear(false),
    }
}

/// A disk attached to the folder as it is.
fn attached(rt: &HostRuntime, name: &str) -> Result<FolderDisk<HostRuntime>, Fail> {
    let mut disk = FolderDisk::new(rt.alloc(), *rt);
    disk.attach(name)?;
    Ok(disk)
}

/// The slot's file, which is here.
fn taken<R: Files<File = File> + Clone + Drop>(
    disk: &mut FolderDisk<R>,
    slot: u32,
) -> Result<FolderFile<R>, Fail> {
    if disk.is_out(slot) {
        return Err(Fail::new("the slot's file is out"));
    }
    Ok(disk.take(slot)?)
}

/// Gives the slot's file back, which is out.
fn give_back(
    disk: &mut FolderDisk<HostRuntime>,
    slot: u32,
    file: FolderFile<HostRuntime>,
) -> Result<(), Fail> {
    if !disk.is_out(slot) {
        return Err(Fail::new("the slot's file is here"));
    }
    disk.give_back(slot, file);
    Ok(())
}

/// Whether the metadata is this text.
fn shows(file: &mut FolderFile<HostRuntime>, text: &str) -> Result<bool, Fail> {
    match file.read_meta()? {
        Some(found) => Ok(found.as_slice() == text.as_bytes()),
        None => Ok(false),
    }
}

/// Whether these slots have metadata, and no others.
fn lists(disk: &mut FolderDisk<HostRuntime>, slots: &[u32]) -> Result<bool, Fail> {
    Ok(disk.slots()?.as_slice() == slots)
}

/// Whether the file has this text.
fn holds(rt: &HostRuntime, path: &str, text: &str) -> Result<bool, Fail> {
    Ok(fs::read_to_string(rt, path)?.as_str() == text)
}

fn write(rt: &HostRuntime, path: &str, text: &str) -> io::Result<()> {
    fs::write(rt, path, text)
}
