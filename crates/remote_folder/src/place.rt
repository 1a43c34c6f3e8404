ghost use Rattle.std.specs.Prelude.{◌≡◌, ◌-◌, IfOk, length, string_bytes};
ghost use Rattle.remote_folder.specs.Names.{file_name};

use crate::stamp::Stamp;
use crate::trouble::Trouble;
use std::alloc::Global;
use std::fs::{Files, Metadata};
use std::io::ErrorKind;
use vfs_names::{NoMemory, VPath};

/// Where a path of a folder stands in the file system.
#[derive(Debug, Drop)]
pub struct Place {
    // the folder's name, and after a slash the path, where it isn't the root
    name: String,
    folder_len: usize,
}

impl Place {
    pub fn new(alloc: Global, folder: &str, path: &VPath) -> Result<Place, NoMemory>
        ensures name { IfOk result (λ place. string_bytes place.name ≡ file_name folder.now path.now) }
        ensures folder { IfOk result (λ place. place.folder_len ≡ length folder.now) }
    {
        let mut name = String::from_str(alloc, folder)?;
        if !path.is_root() {
            name.push('/')?;
            name.push_str(path.as_str())?;
        }
        Ok(Place {
            name,
            folder_len: folder.len(),
        })
    }

    pub fn name(&self) -> &str
        ensures { result.now ≡ string_bytes self.now.name }
    {
        self.name.as_str()
    }

    /// How many bytes of the name the path is with the slash before it; 0 for the root.
    pub fn path_len(&self) -> usize
        ensures { result ≡ length (string_bytes self.now.name) - self.now.folder_len }
    {
        self.name.len().saturating_sub(self.folder_len)
    }

    /// Whether each name of the path before the last one is a directory, and no link to one.
    fn has_way(&self, files: &impl Files) -> Result<bool, Trouble> {
        let name = self.name.as_str();
        for (end, _slash) in name.match_indices('/') {
            if end > self.folder_len && !is_dir(files, name, end)? {
                return Ok(false);
            }
        }
        Ok(true)
    }

    /// What stands at the place. `Gone` where a name on the way to it is a link or no directory; of a link it tells that
    /// it is one. The folder itself may be a link.
    pub fn look(&self, files: &impl Files) -> Result<Metadata, Trouble> {
        if !self.has_way(files)? {
            return Err(Trouble::Gone);
        }
        if self.folder_len == self.name.len() {
            Ok(files.metadata(self.name())?)
        } else {
            Ok(files.symlink_metadata(self.name())?)
        }
    }

    /// Whether the folder itself is a directory, or a link to one.
    fn has_folder(&self, files: &impl Files) -> Result<bool, Trouble> {
        match self.name.as_str().get(..self.folder_len) {
            Some(folder) => Ok(files.metadata(folder)?.is_dir()),
            None => Ok(false),
        }
    }

    /// The plain file that stands at the place, and None where nothing does, so that a file can be put there. `Gone`
    /// where a name on the way to the place is a link or no directory, and where anything but a plain file stands there.
    pub fn look_free(&self, files: &impl Files) -> Result<Option<Stamp>, Trouble> {
        if !self.has_folder(files)? || !self.has_way(files)? {
            return Err(Trouble::Gone);
        }
        match files.symlink_metadata(self.name()) {
            Ok(seen) => match Stamp::of(&seen) {
                Some(stamp) => Ok(Some(stamp)),
                None => Err(Trouble::Gone),
            },
            Err(error) => match error.kind() {
                ErrorKind::NotFound => Ok(None),
                ErrorKind::InvalidFilename => Err(Trouble::Failed),
                _ => Err(Trouble::from(error)),
            },
        }
    }
}

/// Whether the first `end` bytes of the name are the name of a directory, and of no link to one.
fn is_dir(files: &impl Files, name: &str, end: usize) -> Result<bool, Trouble> {
    match name.get(..end) {
        Some(dir) => Ok(files.symlink_metadata(dir)?.is_dir()),
        None => Ok(false),
    }
}
