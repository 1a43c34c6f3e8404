ghost use Rattle.std.specs.Prelude.{◌≡◌, IfOk, string_bytes};
ghost use Rattle.cache_folder.specs.Names.{path_of};

use crate::names::{Part, slot_path};
use crate::plain::{open_to_read, open_to_write, remove, replace};
use crate::trouble::{read_error, written};
use std::alloc::{AllocError, Global};
use std::fs::Files;
use std::io;
use std::io::{ErrorKind, Read};
use std::os::unix::fs::FileExt;
use vfs_names::Blob;
use vfs_outside::DiskError;

/// The files of a slot in a folder. No call changes which they are, and each opens what it uses.
#[derive(Drop)]
pub struct SlotFiles<R: Files> {
    pub alloc: Global,
    pub files: R,
    pub folder: String,
    pub slot: u32,
}

/// All bytes of a file; None where there is none.
fn read_whole<R: Files>(alloc: Global, files: &R, path: &str) -> io::Result<Option<Blob>> {
    let Some(mut file) = open_to_read(files, path)? else {
        return Ok(None);
    };
    let mut bytes = Vec::new(alloc);
    file.read_to_end(&mut bytes)?;
    Ok(Some(Blob::from_vec(bytes)))
}

/// The bytes of a file from `pos` on, and zeros for those that it hasn't.
fn read_part<R: Files>(files: &R, path: &str, pos: u64, into: &mut [u8]) -> io::Result<()>
where
    R::File: FileExt,
{
    into.fill(0);
    let Some(file) = open_to_read(files, path)? else {
        return Ok(());
    };
    match file.read_exact_at(into, pos) {
        Ok(()) => Ok(()),
        Err(error) if error.kind() == ErrorKind::UnexpectedEof => Ok(()),
        Err(error) => Err(error),
    }
}

/// Writes bytes into a file from `pos` on, which is made where there is none.
fn write_part<R: Files>(files: &R, path: &str, pos: u64, bytes: &[u8]) -> io::Result<()>
where
    R::File: FileExt,
{
    let file = open_to_write(files, path)?;
    file.write_all_at(bytes, pos)
}

impl<R: Files> SlotFiles<R> {
    fn path(&self, part: Part) -> Result<String, AllocError>
        ensures { IfOk result (λ path.
            string_bytes path ≡ path_of (string_bytes self.now.folder) self.now.slot part) }
    {
        slot_path(self.alloc, self.folder.as_str(), self.slot, part)
    }

    pub fn read_meta(&self) -> Result<Option<Blob>, DiskError> {
        let Ok(path) = self.path(Part::Meta) else {
            return Err(DiskError::NoMemory);
        };
        match read_whole(self.alloc, &self.files, path.as_str()) {
            Ok(text) => Ok(text),
            Err(error) => Err(read_error(&error)),
        }
    }

    /// A text that a killed process left half written is written over.
    pub fn save_meta(&self, text: &[u8]) -> Result<(), DiskError> {
        let Ok(path) = self.path(Part::Meta) else {
            return Err(DiskError::NoMemory);
        };
        let Ok(new) = self.path(Part::NewMeta) else {
            return Err(DiskError::NoMemory);
        };
        written(replace(&self.files, path.as_str(), new.as_str(), text))
    }

    /// Done where the metadata is gone. Data that can't be removed stays: no metadata speaks of it.
    pub fn clear(&self, keep: bool) -> Result<(), DiskError> {
        let Ok(meta) = self.path(Part::Meta) else {
            return Err(DiskError::NoMemory);
        };
        let Ok(stored) = self.path(Part::Data) else {
            return Err(DiskError::NoMemory);
        };
        if remove(&self.files, meta.as_str()).is_err() {
            return Err(DiskError::Failed);
        }
        if !keep {
            let _removed = remove(&self.files, stored.as_str());
        }
        Ok(())
    }
}

impl<R: Files> SlotFiles<R>
where
    R::File: FileExt,
{
    pub fn read_at(&self, pos: u64, into: &mut [u8]) -> Result<(), DiskError> {
        let Ok(path) = self.path(Part::Data) else {
            return Err(DiskError::NoMemory);
        };
        match read_part(&self.files, path.as_str(), pos, into) {
            Ok(()) => Ok(()),
            Err(error) => Err(read_error(&error)),
        }
    }

    pub fn write_at(&self, pos: u64, bytes: &[u8]) -> Result<(), DiskError> {
        let Ok(path) = self.path(Part::Data) else {
            return Err(DiskError::NoMemory);
        };
        written(write_part(&self.files, path.as_str(), pos, bytes))
    }
}
