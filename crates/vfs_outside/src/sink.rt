ghost use Rattle.std.specs.Prelude.{◌≡◌, ℕ, Option, List, Some, [], OnOk, OnErr};
ghost use Rattle.std.specs.Io.KnownBytes.{Appends};
ghost use Rattle.vfs_outside.specs.Causes.{AppendsFront, HasCause};

use crate::Failed;
use std::alloc::Global;
use std::io::Write;
use std::marker::Model;

/// Where the transcript is written.
pub trait Sink {
    // The bytes that were written, where the sink tells them.
    ghost written: { Self → Option (List ℕ) };

    // How often it failed, up to the last value of its type.
    ghost faults: { Self → ℕ };

    /// Appends all these bytes; after `Failed` a front of them may be appended.
    fn write(&mut self, bytes: &[u8]) -> Result<(), Failed>
        ensures ok { OnOk result (Appends (written self.old) (written self.new) bytes.now) }
        ensures err { OnErr result (AppendsFront (written self.old) (written self.new) bytes.now) }
        ensures cause { HasCause (faults self.old) (faults self.new) result };
}

/// A sink in memory, with the numbers of the calls that are to fail; calls count from 1. A call that fails, or that
/// memory is wanting for, appends nothing.
#[derive(Debug, Drop)]
pub struct MemorySink {
    written: Vec<u8>,
    calls: u64,
    fail: Vec<u64>,
    faults: u64,
}

impl Model for MemorySink {
    ghost use Rattle.vfs_outside.specs.Memory.{Held};

    ghost Value = { Held };

    ghost view = { λ s. record { bytes = s.written.items; faults = s.faults } };
}

impl MemorySink {
    /// Nothing is written yet.
    pub fn new(alloc: Global, fail: Vec<u64>) -> MemorySink
        ensures { result.bytes ≡ [] }
    {
        MemorySink {
            written: Vec::new(alloc),
            calls: 0,
            fail,
            faults: 0,
        }
    }

    /// The bytes that were written.
    pub fn written(&self) -> &[u8]
        ensures { result.now ≡ self.now.bytes }
    {
        self.written.as_slice()
    }
}

impl Sink for MemorySink {
    ghost written = { λ s. Some s.bytes };

    ghost faults = { λ s. s.faults };

    fn write(&mut self, bytes: &[u8]) -> Result<(), Failed> {
        self.calls = self.calls.saturating_add(1);
        if self.fail.contains(&self.calls) || self.written.extend_from_slice(bytes).is_err() {
            self.faults = self.faults.saturating_add(1);
            return Err(Failed);
        }
        Ok(())
    }
}

/// A sink over a writer of the system.
#[derive(Drop)]
pub struct StdSink<W: Write + Drop> {
    writer: W,
    faults: u64,
}

impl<W: Write + Drop> StdSink<W> {
    pub fn new(writer: W) -> StdSink<W> {
        StdSink { writer, faults: 0 }
    }
}

impl<W: Write + Drop> Sink for StdSink<W> {
    ghost written = { λ s. W.contents s.writer };

    ghost faults = { λ s. s.faults };

    fn write(&mut self, bytes: &[u8]) -> Result<(), Failed> {
        match write_whole(&mut self.writer, bytes) {
            Ok(()) => Ok(()),
            Err(failed) => {
                self.faults = self.faults.saturating_add(1);
                Err(failed)
            }
        }
    }
}

/// Writes all bytes and flushes them; gives up at the first call that fails or takes nothing.
fn write_whole<W: Write>(writer: &mut W, bytes: &[u8]) -> Result<(), Failed>
    ensures ok { OnOk result (Appends (W.contents writer.old) (W.contents writer.new) bytes.now) }
    ensures err { OnErr result (AppendsFront (W.contents writer.old) (W.contents writer.new) bytes.now) }
{
    let mut rest = bytes;
    while !rest.is_empty() {
        match writer.write(rest) {
            Ok(0) => return Err(Failed),
            Ok(count) => rest = &rest[count..],
            Err(_) => return Err(Failed),
        }
    }
    match writer.flush() {
        Ok(()) => Ok(()),
        Err(_) => Err(Failed),
    }
}
