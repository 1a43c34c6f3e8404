ghost use Rattle.std.specs.Prelude.{◌≡◌, ◌≤◌, ℕ, List};
ghost use Rattle.remote_memory.specs.Nodes.{fingerprint_of};

use crate::node::Stored;
use vfs_names::{Fingerprint, VPath};
use vfs_outside::{Object, ObjectError};

/// An object as it was when it was opened: it keeps its bytes, whatever stands at its path later.
#[derive(Debug, Drop)]
pub struct MemoryObject {
    pub(crate) path: VPath,
    pub(crate) stored: Stored,
    pub(crate) asked: Vec<(u64, u64)>,
    pub(crate) pulls: u64,
    // the numbers of the pulls that are to fail, and of those that are to find another object
    pub(crate) fails: Vec<u64>,
    pub(crate) finds_other: Vec<u64>,
    pub(crate) faults: u64,
    pub(crate) changes: u64,
}

/// A range of an object's bytes that was asked for.
#[derive(Debug, Drop)]
pub struct MemoryStream {
    source: Fingerprint,
    place: u64,
    finish: u64,
    ghost inside: { finish ≤ source.size },
}

impl Object for MemoryObject {
    type Stream = MemoryStream;

    ghost tells = { Unit {0} };

    ghost bytes = { λ o. o.stored.bytes };

    ghost print_of = { λ o. fingerprint_of o.stored };

    ghost path = { λ o. o.path };

    ghost faults = { λ o. o.faults };

    ghost changes = { λ o. o.changes };

    ghost asked = { λ o. o.asked.items };

    ghost source = { λ s. s.source };

    ghost place = { λ s. s.place };

    ghost finish = { λ s. s.finish };

    fn print(&self) -> Fingerprint {
        self.stored.print()
    }

    fn request(&mut self, start: u64, end: u64) -> Result<MemoryStream, ObjectError> {
        let source = self.stored.print();
        match self.asked.push((start, end)) {
            Ok(()) => Ok(MemoryStream {
                source,
                place: start,
                finish: end,
            }),
            Err(_) => Err(ObjectError::NoMemory),
        }
    }

    fn pull(&mut self, stream: &mut MemoryStream, into: &mut [u8]) -> Result<(), ObjectError> {
        self.pulls = self.pulls.saturating_add(1);
        if self.fails.contains(&self.pulls) {
            self.faults = self.faults.saturating_add(1);
            return Err(ObjectError::Failed);
        }
        if self.finds_other.contains(&self.pulls) {
            self.changes = self.changes.saturating_add(1);
            return Err(ObjectError::Changed);
        }
        let start = stream.place as usize;
        let end = start + into.len();
        into.copy_from_slice(&self.stored.bytes.as_slice()[start..end]);
        stream.place = end as u64;
        Ok(())
    }
}
