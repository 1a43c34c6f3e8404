ghost use Rattle.std.specs.Prelude.{◌≡◌, IfOk};
ghost use Rattle.vfs_names.specs.Fingerprint.{agree, print_text};

use crate::{Blob, NoMemory};
use itoa::Buffer;
use std::alloc::Global;

/// What tells one content of an object from another: its size in bytes, its modification time in milliseconds and the
/// revision that the remote gave it.
#[derive(Clone, Copy, Debug, PartialEq, Eq)]
pub struct Fingerprint {
    pub size: u64,
    pub mtime: u64,
    pub rev: u64,
}

impl Fingerprint {
    /// The two are fingerprints of one content. Takes no memory.
    pub fn agrees(&self, other: &Fingerprint) -> bool
        ensures { result ≡ agree self.now other.now }
    {
        self.size == other.size && self.mtime == other.mtime && self.rev == other.rev
    }

    /// The text `SIZE.MTIME.REV`.
    pub fn text(&self, alloc: Global) -> Result<Blob, NoMemory>
        ensures { IfOk result (λ text. text ≡ print_text self.now) }
    {
        let mut size = Buffer::new();
        let mut mtime = Buffer::new();
        let mut rev = Buffer::new();
        let mut text = Vec::new(alloc);
        text.extend_from_slice(size.format(self.size).as_bytes())?;
        text.extend_from_slice(b".")?;
        text.extend_from_slice(mtime.format(self.mtime).as_bytes())?;
        text.extend_from_slice(b".")?;
        text.extend_from_slice(rev.format(self.rev).as_bytes())?;
        Ok(Blob::from_vec(text))
    }
}
