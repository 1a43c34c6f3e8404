ghost use Rattle.std.specs.Prelude.{◌≡◌, ◌↔◌, ◌⊎◌};
ghost use Rattle.std.specs.IoError.{error_kind};

use std::alloc::AllocError;
use std::io;
use std::io::ErrorKind;
use vfs_names::NoMemory;

/// Why the file system did not do what a call asked for.
#[derive(Clone, Copy, Debug, PartialEq, Eq)]
pub enum Trouble {
    /// What was asked for isn't there, or isn't what it was.
    Gone,
    Failed,
    NoMemory,
}

/// What an error of the file system means. A name that is longer than the system takes is one of nothing.
pub fn trouble_of(error: &io::Error) -> Trouble
    ensures gone { (result ≡ Trouble.Gone) ↔ ((error_kind error.now ≡ ErrorKind.NotFound)
        ⊎ ((error_kind error.now ≡ ErrorKind.NotADirectory) ⊎ (error_kind error.now ≡ ErrorKind.InvalidFilename))) }
    ensures memory { (result ≡ Trouble.NoMemory) ↔ (error_kind error.now ≡ ErrorKind.OutOfMemory) }
{
    match error.kind() {
        ErrorKind::NotFound => Trouble::Gone,
        ErrorKind::NotADirectory => Trouble::Gone,
        ErrorKind::InvalidFilename => Trouble::Gone,
        ErrorKind::OutOfMemory => Trouble::NoMemory,
        _ => Trouble::Failed,
    }
}

impl From<io::Error> for Trouble {
    fn from(error: io::Error) -> Trouble {
        trouble_of(&error)
    }
}

impl From<AllocError> for Trouble {
    fn from(_error: AllocError) -> Trouble {
        Trouble::NoMemory
    }
}

impl From<NoMemory> for Trouble {
    fn from(_error: NoMemory) -> Trouble {
        Trouble::NoMemory
    }
}
