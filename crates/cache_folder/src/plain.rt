//! Plain files of the system at a path. Where anything else stands there, be it a link to one, each call here fails.
ghost use Rattle.std.specs.Prelude.{IfOk, IfSome};
ghost use Rattle.std.specs.Fs.{IsFile, file_type};

use std::fs::{Files, Metadata, OpenFile, OpenOptions};
use std::io::{ErrorKind, Write};
use std::os::unix::fs::{MetadataExt, OpenOptionsExt};
use std::{fs, io};

/// What stands at the path; None where nothing does.
fn look(files: &impl Files, path: &str) -> io::Result<Option<Metadata>>
    ensures { IfOk result (λ found. IfSome found (λ seen. IsFile (file_type seen))) }
{
    match files.symlink_metadata(path) {
        Ok(seen) => {
            if seen.is_file() {
                Ok(Some(seen))
            } else {
                Err(ErrorKind::InvalidInput.into())
            }
        }
        Err(error) => {
            if error.kind() == ErrorKind::NotFound {
                Ok(None)
            } else {
                Err(error)
            }
        }
    }
}

/// Opens the file that was seen at the path. Fails where another one stands there by now.
fn open_seen<R: Files>(
    files: &R,
    path: &str,
    how: &OpenOptions,
    seen: &Metadata,
) -> io::Result<R::File> {
    let file = how.open(files, path)?;
    let now = file.metadata()?;
    if now.dev() == seen.dev() && now.ino() == seen.ino() {
        Ok(file)
    } else {
        Err(ErrorKind::InvalidInput.into())
    }
}

/// The file, to be read; None where there is none.
pub fn open_to_read<R: Files>(files: &R, path: &str) -> io::Result<Option<R::File>> {
    match look(files, path)? {
        Some(seen) => {
            let file = open_seen(files, path, OpenOptions::new().read(true), &seen)?;
            Ok(Some(file))
        }
        None => Ok(None),
    }
}

/// Makes a file where there is none, to be written, with rights for its owner alone.
fn create_new<R: Files>(files: &R, path: &str) -> io::Result<R::File> {
    OpenOptions::new()
        .write(true)
        .create_new(true)
        .mode(0o600)
        .open(files, path)
}

/// The file, to be written in its place, made where there is none.
pub fn open_to_write<R: Files>(files: &R, path: &str) -> io::Result<R::File> {
    match look(files, path)? {
        Some(seen) => open_seen(files, path, OpenOptions::new().write(true), &seen),
        None => create_new(files, path),
    }
}

/// Removes the file, where there is one.
pub fn remove(files: &impl Files, path: &str) -> io::Result<()> {
    match look(files, path)? {
        Some(_) => fs::remove_file(files, path),
        None => Ok(()),
    }
}

/// Makes a new file in the place of the one that was there, with this text.
fn write_new(files: &impl Files, path: &str, text: &[u8]) -> io::Result<()> {
    remove(files, path)?;
    let mut file = create_new(files, path)?;
    file.write_all(text)
}

/// Writes a file with this text at `new`, whole, and then gives it the name `path`.
fn write_and_rename(files: &impl Files, path: &str, new: &str, text: &[u8]) -> io::Result<()> {
    write_new(files, new, text)?;
    fs::rename(files, new, path)
}

/// Puts a file with this text in the place of the one at `path`, or of none. Where that fails, the file at `path` is as
/// it was, and what was written at `new` is removed as far as the system lets it be.
pub fn replace(files: &impl Files, path: &str, new: &str, text: &[u8]) -> io::Result<()> {
    look(files, path)?;
    let outcome = write_and_rename(files, path, new, text);
    if outcome.is_err() {
        let _removed = remove(files, new);
    }
    outcome
}
