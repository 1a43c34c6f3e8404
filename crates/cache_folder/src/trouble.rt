ghost use Rattle.std.specs.Prelude.{◌≡◌, ◌≢◌, ◌↔◌, IfErr, IsOk};
ghost use Rattle.std.specs.IoError.{error_kind};

use std::io;
use std::io::ErrorKind;
use vfs_outside::DiskError;

/// What an error of a call means that changes nothing: the system wanted memory, or the call failed.
pub fn read_error(error: &io::Error) -> DiskError
    ensures { (result ≡ DiskError.NoMemory) ↔ (error_kind error.now ≡ ErrorKind.OutOfMemory) }
{
    match error.kind() {
        ErrorKind::OutOfMemory => DiskError::NoMemory,
        _ => DiskError::Failed,
    }
}

/// What a call that changes something did. One that the system didn't do may have done a part of it, so that it failed
/// also where memory was wanting.
pub fn written(outcome: io::Result<()>) -> Result<(), DiskError>
    ensures done { IsOk result ↔ IsOk outcome }
    ensures failed { IfErr result (λ error. error ≡ DiskError.Failed) }
{
    match outcome {
        Ok(()) => Ok(()),
        Err(_) => Err(DiskError::Failed),
    }
}
