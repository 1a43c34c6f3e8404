ghost use Rattle.std.specs.Prelude.{◌≡◌, IfOk};

use std::alloc::Global;
use vfs_names::{Blob, NoMemory, Payload};

/// The payload once more.
pub(crate) fn copy_of(alloc: Global, payload: &Payload) -> Result<Payload, NoMemory>
    ensures { IfOk result (λ p. p ≡ payload.now) }
{
    match payload {
        Payload::Bytes(bytes) => match Blob::from_slice(alloc, bytes.as_slice()) {
            Ok(bytes) => Ok(Payload::Bytes(bytes)),
            Err(_) => Err(NoMemory),
        },
        Payload::Fill { byte, len } => Ok(Payload::Fill {
            byte: *byte,
            len: *len,
        }),
        Payload::Pattern { seed, len } => Ok(Payload::Pattern {
            seed: *seed,
            len: *len,
        }),
    }
}
