//! Files of stages, each held by a lock as long as its stage lives. The system frees the lock when the process is gone.
ghost use Rattle.std.specs.Prelude.{◌≡◌, IfOk, string_bytes};
ghost use Rattle.remote_folder.specs.Names.{stage_path};

use crate::stage_name::{stage_of_name, stage_path};
use crate::trouble::Trouble;
use std::alloc::Global;
use std::fs::{File, Files, OpenOptions, TryLockError};
use std::io::ErrorKind;
use std::os::unix::fs::MetadataExt;
use std::{fs, io};

/// A stage's file that was made, and is held.
#[derive(Drop)]
pub struct HeldFile {
    pub number: u64,
    pub path: String,
    pub file: File,
}

/// Whether the open file stands at the path.
pub fn is_at(files: &impl Files, path: &str, file: &File) -> io::Result<bool> {
    let open = file.metadata()?;
    match files.symlink_metadata(path) {
        Ok(seen) => Ok(open.dev() == seen.dev() && open.ino() == seen.ino()),
        Err(error) if error.kind() == ErrorKind::NotFound => Ok(false),
        Err(error) => Err(error),
    }
}

/// Takes the lock of a file that was just made. False where another process has it, which then removes the file, or has
/// removed it.
fn hold(files: &impl Files, path: &str, file: &File) -> io::Result<bool> {
    match file.try_lock() {
        Ok(()) => is_at(files, path, file),
        Err(TryLockError::WouldBlock) => Ok(false),
        Err(TryLockError::Error(error)) => {
            let _removed = files.remove_file(path);
            Err(error)
        }
    }
}

/// Makes a file at the path and holds it; None where something stands there, or another process took it away.
fn make_held(files: &impl Files<File = File>, path: &str) -> io::Result<Option<File>> {
    let made = OpenOptions::new()
        .write(true)
        .create_new(true)
        .open(files, path);
    let file = match made {
        Ok(file) => file,
        Err(error) if error.kind() == ErrorKind::AlreadyExists => return Ok(None),
        Err(error) => return Err(error),
    };
    if hold(files, path, &file)? {
        Ok(Some(file))
    } else {
        Ok(None)
    }
}

/// Makes a stage's file, of the first free number from `first` on.
pub fn make_file(
    alloc: Global,
    files: &impl Files<File = File>,
    folder: &str,
    first: u64,
) -> Result<HeldFile, Trouble>
    ensures { IfOk result (λ held. string_bytes held.path ≡ stage_path folder.now held.number) }
{
    for number in first..u64::MAX {
        let path = stage_path(alloc, folder, number)?;
        if let Some(file) = make_held(files, path.as_str())? {
            return Ok(HeldFile { number, path, file });
        }
    }
    Err(Trouble::Failed)
}

/// Removes the plain file at the path, where nobody holds it.
fn remove_left(files: &impl Files<File = File>, path: &str) -> io::Result<()> {
    if !files.symlink_metadata(path)?.is_file() {
        return Ok(());
    }
    let file = OpenOptions::new().write(true).open(files, path)?;
    file.try_lock()?;
    if is_at(files, path, &file)? {
        files.remove_file(path)?;
    }
    Ok(())
}

/// Removes the stages' files of a folder that nobody holds, as far as the system lets them be removed.
pub fn remove_all_left<R: Files<File = File> + Clone + Drop>(
    alloc: Global,
    files: &R,
    folder: &str,
) -> io::Result<()> {
    let reader = (files.clone()?, alloc);
    for entry in fs::read_dir(&reader, folder)? {
        let Ok(entry) = entry else {
            continue;
        };
        if stage_of_name(entry.file_name()).is_some() {
            let _removed = remove_left(files, entry.path().as_str());
        }
    }
    Ok(())
}
