ghost use Rattle.std.specs.Prelude.{◌≡◌, ◌+◌, IfOk, OnOk, length};

use crate::held::{HeldFile, is_at};
use crate::place::Place;
use crate::stamp::{Stamp, time_in_place};
use crate::trouble::Trouble;
use std::fs;
use std::fs::{File, Files};
use std::os::unix::fs::FileExt;
use std::time::{Duration, UNIX_EPOCH};
use vfs_names::Fingerprint;

/// Bytes that are to become a file of a folder. They stand in a file of the folder itself, which no listing shows, and
/// which is held by a lock as long as the stage lives. A stage that is dropped removes its file.
pub struct FolderStage<R: Files + Drop> {
    files: R,
    path: String,
    file: File,
    len: u64,
    // whether the file became an object
    placed: bool,
}

impl<R: Files + Drop> Drop for FolderStage<R> {
    fn drop(self) {
        let FolderStage {
            files,
            path,
            file,
            len: _,
            placed,
        } = self;
        if !placed && is_at(&files, path.as_str(), &file).unwrap_or(false) {
            let _removed = files.remove_file(path.as_str());
        }
    }
}

impl<R: Files + Drop> FolderStage<R> {
    /// A stage with no bytes, of a file that was just made.
    pub(crate) fn new(files: R, held: HeldFile) -> FolderStage<R>
        ensures { result.len ≡ 0 }
    {
        let HeldFile {
            number: _,
            path,
            file,
        } = held;
        FolderStage {
            files,
            path,
            file,
            len: 0,
            placed: false,
        }
    }

    /// The stage is longer by these bytes.
    pub(crate) fn append(&mut self, bytes: &[u8]) -> Result<(), Trouble>
        ensures { OnOk result (self.new.len ≡ self.old.len + length bytes.now) }
    {
        let Some(len) = self.len.checked_add(bytes.len() as u64) else {
            return Err(Trouble::Failed);
        };
        self.file.write_all_at(bytes, self.len)?;
        self.len = len;
        Ok(())
    }

    /// The stamp of the file, which must have as many bytes as the stage.
    fn stamp(&self) -> Result<Stamp, Trouble>
        ensures { IfOk result (λ stamp. stamp.size ≡ self.now.len) }
    {
        match Stamp::of(&self.file.metadata()?) {
            Some(stamp) if stamp.size() == self.len => Ok(stamp),
            _ => Err(Trouble::Failed),
        }
    }

    /// Gives the file another time, where it could have the fingerprint of the old one or of one before that.
    fn date(&self, old: &Stamp) -> Result<(), Trouble> {
        let old = old.print();
        let Some(millis) = time_in_place(old, self.stamp()?.print()) else {
            return Ok(());
        };
        let Some(time) = UNIX_EPOCH.checked_add(Duration::from_millis(millis)) else {
            return Err(Trouble::Failed);
        };
        self.file.set_modified(time)?;
        if self.stamp()?.print() == old {
            return Err(Trouble::Failed);
        }
        Ok(())
    }

    /// The stage's file stands at the place, in place of the file that stood there, whose fingerprint is another one.
    /// Gives its fingerprint. `Gone` where no file can stand there.
    pub(crate) fn put_at(mut self, place: &Place) -> Result<Fingerprint, Trouble>
        ensures size { IfOk result (λ print. print.size ≡ self.len) }
        ensures rev { IfOk result (λ print. print.rev ≡ 0) }
    {
        let old = place.look_free(&self.files)?;
        if !is_at(&self.files, self.path.as_str(), &self.file)? {
            return Err(Trouble::Failed);
        }
        if let Some(old) = old {
            self.date(&old)?;
        }
        let _whole = self.stamp()?;
        fs::rename(&self.files, self.path.as_str(), place.name())?;
        self.placed = true;
        match self.stamp() {
            Ok(stamp) => Ok(stamp.print()),
            Err(_) => Err(Trouble::Failed),
        }
    }
}
