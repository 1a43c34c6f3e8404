ghost use Rattle.std.specs.Prelude.{◌≡◌, ◌≤◌, ◌++◌, ◌∷◌, [], length};
ghost use Rattle.vfs_outside.specs.Causes.{Rose};
ghost use Rattle.remote_folder.specs.Folder.{asked_of, changes_after, faults_after, object_error};

use crate::place::Place;
use crate::stamp::Stamp;
use crate::trouble::Trouble;
use std::alloc::Global;
use std::fs;
use std::fs::{Files, OpenFile};
use std::io::ErrorKind;
use std::os::unix::fs::FileExt;
use std::snapshot::Snapshot;
use vfs_names::{Fingerprint, VPath};
use vfs_outside::{Object, ObjectError};

/// A file of a folder, as it was when it was opened. It keeps no file open: each request opens the file anew.
#[derive(Drop)]
pub struct FolderObject<R: Files> {
    files: R,
    path: VPath,
    place: Place,
    stamp: Stamp,
    print: Fingerprint,
    asked: Vec<Snapshot<(u64, u64)>>,
    faults: u64,
    changes: u64,
}

/// A range of a file that was asked for. It keeps the file open.
#[derive(Drop)]
pub struct FolderStream<F> {
    file: F,
    source: Fingerprint,
    place: u64,
    finish: u64,
}

/// Whether the open file is the plain file that had this stamp, with no change since.
fn is_same<F: OpenFile>(file: &F, stamp: &Stamp) -> Result<bool, Trouble> {
    match file.metadata() {
        Ok(metadata) => Ok(Stamp::of(&metadata) == Some(*stamp)),
        Err(error) => Err(Trouble::from(error)),
    }
}

/// Fills `into` with the bytes from `place` on. `Gone` where the file has another stamp after that, so that what was read
/// may be of other content.
fn read_same<F: OpenFile + FileExt>(
    file: &F,
    stamp: &Stamp,
    place: u64,
    into: &mut [u8],
) -> Result<(), Trouble> {
    if let Err(error) = file.read_exact_at(into, place) {
        if error.kind() == ErrorKind::UnexpectedEof {
            return Err(Trouble::Gone);
        }
        return Err(Trouble::from(error));
    }
    if is_same(file, stamp)? {
        Ok(())
    } else {
        Err(Trouble::Gone)
    }
}

impl<R: Files> FolderObject<R> {
    pub(crate) fn new(
        alloc: Global,
        files: R,
        path: VPath,
        place: Place,
        stamp: Stamp,
    ) -> FolderObject<R>
        ensures path { result.path ≡ path }
        ensures asked { result.asked.items ≡ [] }
        ensures counts { (result.faults ≡ 0) × (result.changes ≡ 0) }
    {
        FolderObject {
            files,
            path,
            place,
            stamp,
            print: stamp.print(),
            asked: Vec::new(alloc),
            faults: 0,
            changes: 0,
        }
    }

    /// The file, opened, where it is still the one that the object is of. What stands at the place is looked at first,
    /// since opening a pipe would wait for a writer.
    fn open_same(&self) -> Result<R::File, Trouble> {
        if Stamp::of(&self.place.look(&self.files)?) != Some(self.stamp) {
            return Err(Trouble::Gone);
        }
        let file = fs::open(&self.files, self.place.name())?;
        if is_same(&file, &self.stamp)? {
            Ok(file)
        } else {
            Err(Trouble::Gone)
        }
    }

    /// Counts what went wrong, and gives the error for it.
    fn refuse(&mut self, trouble: Trouble) -> ObjectError
        ensures rest { self.new ≡ record self.old {
          faults = faults_after trouble self.old.faults;
          changes = changes_after trouble self.old.changes;
        } }
        ensures faults { self.old.faults ≤ self.new.faults }
        ensures changes { self.old.changes ≤ self.new.changes }
        ensures error { result ≡ object_error trouble }
        ensures failed { result ≡ ObjectError.Failed → Rose self.old.faults self.new.faults }
        ensures changed { result ≡ ObjectError.Changed → Rose self.old.changes self.new.changes }
    {
        match trouble {
            Trouble::Gone => {
                self.changes = self.changes.saturating_add(1);
                ObjectError::Changed
            }
            Trouble::Failed => {
                self.faults = self.faults.saturating_add(1);
                ObjectError::Failed
            }
            Trouble::NoMemory => ObjectError::NoMemory,
        }
    }
}

impl<R: Files + Drop> Object for FolderObject<R>
where
    R::File: FileExt,
{
    type Stream = FolderStream<R::File>;

    ghost tells = { ⊥ };

    ghost bytes = { λ o. [] };

    ghost print_of = { λ o. o.print };

    ghost path = { λ o. o.path };

    ghost faults = { λ o. o.faults };

    ghost changes = { λ o. o.changes };

    ghost asked = { λ o. asked_of o.asked.items };

    ghost source = { λ s. s.source };

    ghost place = { λ s. s.place };

    ghost finish = { λ s. s.finish };

    fn print(&self) -> Fingerprint {
        self.print
    }

    fn request(&mut self, start: u64, end: u64) -> Result<FolderStream<R::File>, ObjectError> {
        let Ok(()) = self.asked.reserve(1) else {
            return Err(ObjectError::NoMemory);
        };
        match self.open_same() {
            Ok(file) => {
                self.asked.push_reserved(Snapshot::of(&(start, end)));
                Ok(FolderStream {
                    file,
                    source: self.print,
                    place: start,
                    finish: end,
                })
            }
            Err(Trouble::NoMemory) => Err(ObjectError::NoMemory),
            Err(Trouble::Gone) => {
                self.asked.push_reserved(Snapshot::of(&(start, end)));
                Err(self.refuse(Trouble::Gone))
            }
            Err(Trouble::Failed) => {
                self.asked.push_reserved(Snapshot::of(&(start, end)));
                Err(self.refuse(Trouble::Failed))
            }
        }
    }

    fn pull(
        &mut self,
        stream: &mut FolderStream<R::File>,
        into: &mut [u8],
    ) -> Result<(), ObjectError> {
        match read_same(&stream.file, &self.stamp, stream.place, into) {
            Ok(()) => {
                stream.place += into.len() as u64;
                Ok(())
            }
            Err(trouble) => Err(self.refuse(trouble)),
        }
    }
}
