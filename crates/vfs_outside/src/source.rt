ghost use Rattle.std.specs.Prelude.{◌≡◌, ℕ, Option, List, Some, take, length, min};
ghost use Rattle.std.specs.Io.{ReadsAtMost};
ghost use Rattle.std.specs.Io.KnownBytes.{ReadConsumes};
ghost use Rattle.vfs_outside.specs.Causes.{HasCause};

use crate::Failed;
use std::io::Read;
use std::marker::Model;

/// Where the script is read from.
pub trait Source {
    // The bytes that reads will give from here on, where the source tells them.
    ghost left: { Self → Option (List ℕ) };

    // How often it failed, up to the last value of its type.
    ghost faults: { Self → ℕ };

    /// The next bytes, from the start of `into`; their number, which is 0 for a non-empty `into` exactly at the end.
    fn read(&mut self, into: &mut [u8]) -> Result<usize, Failed>
        ensures bound { ReadsAtMost result into.new }
        ensures bytes { ReadConsumes (left self.old) (left self.new) result into.new }
        ensures cause { HasCause (faults self.old) (faults self.new) result };
}

/// A source of bytes in memory, with the numbers of the calls that are to fail; calls count from 1.
#[derive(Debug, Drop)]
pub struct MemorySource {
    bytes: Vec<u8>,
    at: usize,
    calls: u64,
    fail: Vec<u64>,
    faults: u64,
}

impl Model for MemorySource {
    ghost use Rattle.std.specs.Prelude.{◌≤◌, drop, vec_len};
    ghost use Rattle.vfs_outside.specs.Memory.{Held};

    ghost Value = { Held };

    ghost view = { λ s. record { bytes = drop s.at s.bytes.items; faults = s.faults } };

    ghost invariant = { λ s. s.at ≤ vec_len s.bytes };
}

impl MemorySource {
    /// These bytes are left to be read.
    pub fn new(bytes: Vec<u8>, fail: Vec<u64>) -> MemorySource
        ensures { result.bytes ≡ bytes.items }
    {
        MemorySource {
            bytes,
            at: 0,
            calls: 0,
            fail,
            faults: 0,
        }
    }
}

/// The bytes that a read gives: as many as fit.
fn copy_front(from: &[u8], into: &mut [u8]) -> usize
    ensures count { result ≡ min (length from.now) (length into.old) }
    ensures bytes { take result into.new ≡ take result from.now }
{
    let count = from.len().min(into.len());
    into[..count].copy_from_slice(&from[..count]);
    count
}

impl Source for MemorySource {
    ghost left = { λ s. Some s.bytes };

    ghost faults = { λ s. s.faults };

    fn read(&mut self, into: &mut [u8]) -> Result<usize, Failed> {
        self.calls = self.calls.saturating_add(1);
        if self.fail.contains(&self.calls) {
            self.faults = self.faults.saturating_add(1);
            return Err(Failed);
        }
        let count = copy_front(&self.bytes.as_slice()[self.at..], into);
        self.at += count;
        Ok(count)
    }
}

/// A source over a reader of the system. A read that was interrupted is tried again by the caller's next call, as a read
/// that failed.
#[derive(Drop)]
pub struct StdSource<R: Read + Drop> {
    reader: R,
    faults: u64,
}

impl<R: Read + Drop> StdSource<R> {
    pub fn new(reader: R) -> StdSource<R> {
        StdSource { reader, faults: 0 }
    }
}

impl<R: Read + Drop> Source for StdSource<R> {
    ghost left = { λ s. R.remaining s.reader };

    ghost faults = { λ s. s.faults };

    fn read(&mut self, into: &mut [u8]) -> Result<usize, Failed> {
        match self.reader.read(into) {
            Ok(count) => Ok(count),
            Err(_) => {
                self.faults = self.faults.saturating_add(1);
                Err(Failed)
            }
        }
    }
}
