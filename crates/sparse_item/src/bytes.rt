ghost use Rattle.std.specs.Prelude.{IfOk};
ghost use Rattle.item_image.specs.Next.{IsBytes};

use std::alloc::Global;
use vfs_names::{Blob, NoMemory, Payload};

/// The payload's bytes.
pub fn bytes_of(alloc: Global, payload: &Payload) -> Result<Blob, NoMemory>
    ensures { IfOk result (IsBytes payload.now) }
{
    match payload {
        Payload::Bytes(bytes) => Blob::from_slice(alloc, bytes.as_slice()),
        Payload::Fill { .. } => spelled(alloc, payload),
        Payload::Pattern { .. } => spelled(alloc, payload),
    }
}

/// The payload's bytes, one by one.
fn spelled(alloc: Global, payload: &Payload) -> Result<Blob, NoMemory>
    ensures { IfOk result (IsBytes payload.now) }
{
    let mut bytes = Vec::new(alloc);
    for i in 0..payload.len() {
        let Ok(()) = bytes.push(payload.byte(i)) else {
            return Err(NoMemory);
        };
    }
    Ok(Blob::from_vec(bytes))
}
