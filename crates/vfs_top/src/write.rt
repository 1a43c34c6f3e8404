ghost use Rattle.std.specs.Prelude.{◌++◌, map};
ghost use Rattle.session_text.specs.Lines.{end_text, shown_text, start_text};
ghost use Rattle.session_text.specs.declared.shown.Shown.TheVariants.{Replied};
ghost use Rattle.session_text.specs.declared.shown.Shown.TheVariants as shown;
ghost use Rattle.vfs_top.specs.Epoch.{epoch_of};
ghost use Rattle.vfs_outside.specs.Causes.{AppendsFront};
ghost use Rattle.vfs_top.specs.Event.{pause_shown};
ghost use Rattle.vfs_top.specs.Stop.{no_memory_text, stop_text};
ghost use Rattle.vfs_top.specs.Transcript.{ending, shown_texts};
ghost use Rattle.vfs_top.specs.Writing.{Writes};

use crate::phase::Pause;
use crate::print::{print_ending, print_paused, print_replies};
use crate::stop::{Stop, print_stop};
use crate::tick::Ticked;
use one_session::EpochLog;
use session_text::{Record, print_start, print_tick};
use std::alloc::Global;
use vfs_names::{Blob, NoMemory, QueueRow};
use vfs_outside::{CacheFile, Object, Sink};

/// Why a text wasn't written.
#[derive(Clone, Copy, Debug, PartialEq, Eq)]
pub enum Unwritten {
    /// The sink failed; a front of the text may be written.
    Failed,
    /// Memory was wanting; a front of the text may be written.
    NoMemory,
}

/// Writes a text that was printed, all at once.
fn write<K: Sink>(sink: &mut K, text: &Blob) -> Result<(), Unwritten>
    ensures { Writes (K.written sink.old) (K.written sink.new) (K.faults sink.old) (K.faults sink.new) text.now result }
{
    match sink.write(text.as_slice()) {
        Ok(()) => Ok(()),
        Err(_) => Err(Unwritten::Failed),
    }
}

/// Writes that an epoch begins.
#[tactic(auto, using(crate::proofs::Texts::none_written))]
pub fn write_start<K: Sink>(alloc: Global, sink: &mut K) -> Result<(), Unwritten>
    ensures { Writes (K.written sink.old) (K.written sink.new) (K.faults sink.old) (K.faults sink.new)
        (start_text 0 0 0) result }
{
    let mut text = Blob::new(alloc);
    match print_start(&mut text, 0, 0, 0) {
        Ok(()) => write(sink, &text),
        Err(NoMemory) => Err(Unwritten::NoMemory),
    }
}

/// Writes the replies of a phase's calls.
#[tactic(auto, using(crate::proofs::Texts::none_written))]
pub fn write_replies<K: Sink>(
    alloc: Global,
    sink: &mut K,
    records: &[Record],
) -> Result<(), Unwritten>
    ensures { Writes (K.written sink.old) (K.written sink.new) (K.faults sink.old) (K.faults sink.new)
        (shown_texts (map Replied records.now)) result }
{
    let mut text = Blob::new(alloc);
    match print_replies(&mut text, records) {
        Ok(()) => write(sink, &text),
        Err(NoMemory) => Err(Unwritten::NoMemory),
    }
}

/// Writes the replies of a phase's calls, and what this line showed that ended the phase, after which the clock told
/// `moment`.
#[tactic(auto, using(crate::proofs::Texts::none_written))]
pub fn write_paused<K: Sink>(
    alloc: Global,
    sink: &mut K,
    records: &[Record],
    line: u32,
    pause: Pause,
    moment: u64,
) -> Result<(), Unwritten>
    ensures { Writes (K.written sink.old) (K.written sink.new) (K.faults sink.old) (K.faults sink.new)
        (shown_texts (map Replied records.now) ++ shown_text (pause_shown line pause moment)) result }
{
    let mut text = Blob::new(alloc);
    match print_paused(&mut text, records, line, pause, moment) {
        Ok(()) => write(sink, &text),
        Err(NoMemory) => Err(Unwritten::NoMemory),
    }
}

/// Writes how many uploads of a line saved their file, and how many didn't.
#[tactic(auto, using(crate::proofs::Texts::none_written))]
pub fn write_ticked<K: Sink>(
    alloc: Global,
    sink: &mut K,
    line: u32,
    ticked: Ticked,
) -> Result<(), Unwritten>
    ensures { Writes (K.written sink.old) (K.written sink.new) (K.faults sink.old) (K.faults sink.new)
        (shown_text (shown.Ticked line ticked.uploaded ticked.failed)) result }
{
    let mut text = Blob::new(alloc);
    match print_tick(&mut text, line, ticked.uploaded, ticked.failed) {
        Ok(()) => write(sink, &text),
        Err(NoMemory) => Err(Unwritten::NoMemory),
    }
}

/// Writes the histories of an epoch, these rows of its queue, and the last line.
#[tactic(auto, using(crate::proofs::Texts::none_written))]
pub fn write_ending<K: Sink, O: Object, F: CacheFile>(
    alloc: Global,
    sink: &mut K,
    log: &EpochLog<O, F>,
    rows: &[QueueRow],
) -> Result<(), Unwritten>
    ensures { Writes (K.written sink.old) (K.written sink.new) (K.faults sink.old) (K.faults sink.new)
        (ending (epoch_of log.now) rows.now ++ end_text 0) result }
{
    let mut text = Blob::new(alloc);
    match print_ending(&mut text, log, rows) {
        Ok(()) => write(sink, &text),
        Err(NoMemory) => Err(Unwritten::NoMemory),
    }
}

/// Writes why a run stops.
#[tactic(auto, using(crate::proofs::Texts::none_written))]
pub fn write_stop<K: Sink>(alloc: Global, sink: &mut K, stop: Stop) -> Result<(), Unwritten>
    ensures { Writes (K.written sink.old) (K.written sink.new) (K.faults sink.old) (K.faults sink.new)
        (stop_text stop) result }
{
    let mut text = Blob::new(alloc);
    match print_stop(&mut text, stop) {
        Ok(()) => write(sink, &text),
        Err(NoMemory) => Err(Unwritten::NoMemory),
    }
}

/// Writes that memory was wanting, or a front of that.
#[tactic(auto, using(crate::proofs::Texts::some_written))]
pub fn write_no_memory<K: Sink>(sink: &mut K)
    ensures { AppendsFront (K.written sink.old) (K.written sink.new) no_memory_text }
{
    let _ = sink.write(b"no memory\nend 8\n");
}
