ghost use Rattle.std.specs.Prelude.{◌≡◌, ◌<◌, ◌==◌};
ghost use Rattle.vfs_names.specs.Payload.{payload_len, payload_byte};

use crate::Blob;

/// What a write carries: its bytes, one byte again and again, or a pattern that a seed gives. Lengths are in bytes.
#[derive(Debug, Drop, PartialEq, Eq)]
pub enum Payload {
    Bytes(Blob),
    Fill { byte: u8, len: u64 },
    Pattern { seed: u8, len: u64 },
}

impl Payload {
    pub fn len(&self) -> u64
        ensures { result ≡ payload_len self.now }
    {
        match self {
            Payload::Bytes(blob) => blob.as_slice().len() as u64,
            Payload::Fill { len, .. } => *len,
            Payload::Pattern { len, .. } => *len,
        }
    }

    pub fn is_empty(&self) -> bool
        ensures { result ≡ (payload_len self.now == 0) }
    {
        self.len() == 0
    }

    /// The byte at `i`.
    pub fn byte(&self, i: u64) -> u8
        requires { i < payload_len self.now }
        ensures { result ≡ payload_byte self.now i }
    {
        match self {
            Payload::Bytes(blob) => blob.as_slice()[i as usize],
            Payload::Fill { byte, .. } => *byte,
            Payload::Pattern { seed, .. } => ((u64::from(*seed) % 251 + 7 * (i % 251)) % 251) as u8,
        }
    }
}
