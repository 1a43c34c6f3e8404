ghost use Rattle.std.specs.Prelude.{◌≡◌, ◌≢◌, ◌≤◌, ◌^◌, ℕ, [], false, length, map, string_bytes};
ghost use Rattle.std.specs.Io.KnownBytes.{Appends};
ghost use Rattle.downloaders.specs.Rules.{HasChunk};
ghost use Rattle.run_words.specs.Words.{meaning};
ghost use Rattle.vfs_outside.specs.Causes.{AppendsFront, Rose};
ghost use Rattle.vfs_top.specs.Around.{around};
ghost use Rattle.vfs_top.specs.Ended.{Breaks, BreaksStarted, Broken, DoesAll, DoesStop, Done, Starved, StarvesStarted, Stopped, told};
ghost use Rattle.vfs_top.specs.Epoch.{epoch_of};
ghost use Rattle.vfs_top.specs.Going.{CanDoAll};
ghost use Rattle.vfs_top.specs.Stop.{status_of, stop_text};

use crate::prepare::prepare;
use crate::script::{Kept, no_memory, run_script};
use crate::start::attach;
use crate::stop::Stop;
use crate::write::{Unwritten, write_no_memory, write_stop};
use one_session::EpochLog;
use run_words::RunWords;
use session_script::Line;
use std::alloc::Global;
use vfs_outside::{CacheDisk, CacheFile, Clock, Gate, Object, Remote, Sink, Source};

/// How a run ended: the status that the program ends with, the devices, and what was kept of each epoch, also where
/// the sink failed.
#[derive(Drop)]
pub struct Ended<R: Remote, D: CacheDisk> {
    pub status: u8,
    pub remote: R,
    pub disk: D,
    pub epochs: Vec<EpochLog<R::Object, D::File>>,
}

/// Does what the program does: reads the words and the script, runs the script, and writes the transcript, or why it
/// stops. `words` are those after the program's name. No file of the disk is to be out. Where memory is wanting the
/// status is 8, whatever else is so, and what is written is then a front of the lines that it asks for.
pub fn run<S: Source, K: Sink, R: Remote, D: CacheDisk, C: Clock, G: Gate>(
    alloc: Global,
    words: &[String],
    source: &mut S,
    sink: &mut K,
    remote: R,
    disk: D,
    clock: &mut C,
    gate: &G,
) -> Ended<R, D>
    requires free { (slot : ℕ) → (D.disk disk).out slot ≡ false }
    ensures done { result.status ≡ 0 → Done D.File.tells R.Object.tells (map string_bytes words.now)
        (told (S.left source.old) (S.faults source.old) (K.written sink.old) (K.faults sink.old)
        (around (C.moment clock.old) (R.outside remote) (D.disk disk)))
        (told (S.left source.new) (S.faults source.new) (K.written sink.new) (K.faults sink.new)
        (around (C.moment clock.new) (R.outside result.remote) (D.disk result.disk)))
        (map epoch_of result.epochs.items) }
    ensures stopped { result.status ≢ 0 → result.status ≢ 5 → result.status ≢ 8
        → Stopped D.File.tells (map string_bytes words.now)
        (told (S.left source.old) (S.faults source.old) (K.written sink.old) (K.faults sink.old)
        (around (C.moment clock.old) (R.outside remote) (D.disk disk)))
        (told (S.left source.new) (S.faults source.new) (K.written sink.new) (K.faults sink.new)
        (around (C.moment clock.new) (R.outside result.remote) (D.disk result.disk)))
        result.status (map epoch_of result.epochs.items) }
    ensures broken { result.status ≡ 5 → Broken D.File.tells R.Object.tells (map string_bytes words.now)
        (told (S.left source.old) (S.faults source.old) (K.written sink.old) (K.faults sink.old)
        (around (C.moment clock.old) (R.outside remote) (D.disk disk)))
        (told (S.left source.new) (S.faults source.new) (K.written sink.new) (K.faults sink.new)
        (around (C.moment clock.new) (R.outside result.remote) (D.disk result.disk)))
        (map epoch_of result.epochs.items) }
    ensures starved { result.status ≡ 8 → Starved D.File.tells R.Object.tells (map string_bytes words.now)
        (told (S.left source.old) (S.faults source.old) (K.written sink.old) (K.faults sink.old)
        (around (C.moment clock.old) (R.outside remote) (D.disk disk)))
        (told (S.left source.new) (S.faults source.new) (K.written sink.new) (K.faults sink.new)
        (around (C.moment clock.new) (R.outside result.remote) (D.disk result.disk)))
        (map epoch_of result.epochs.items) }
{
    let mut remote = remote;
    let mut disk = disk;
    let Kept { status, epochs } = do_words(
        alloc,
        words,
        source,
        sink,
        &mut remote,
        &mut disk,
        clock,
        gate,
    );
    if status == 8 {
        write_no_memory(sink);
        return Ended {
            status,
            remote,
            disk,
            epochs,
        };
    }
    Ended {
        status,
        remote,
        disk,
        epochs,
    }
}

/// Does all but to write that memory was wanting.
#[tactic(auto, using(crate::proofs::Breaking::broken_run, crate::proofs::Breaking::starved_run, crate::proofs::Breaking::starved_stop))]
fn do_words<S: Source, K: Sink, R: Remote, D: CacheDisk, C: Clock, G: Gate>(
    alloc: Global,
    words: &[String],
    source: &mut S,
    sink: &mut K,
    remote: &mut R,
    disk: &mut D,
    clock: &mut C,
    gate: &G,
) -> Kept<R::Object, D::File>
    requires free { (slot : ℕ) → (D.disk disk.old).out slot ≡ false }
    ensures done { result.status ≡ 0 → Done D.File.tells R.Object.tells (map string_bytes words.now)
        (told (S.left source.old) (S.faults source.old) (K.written sink.old) (K.faults sink.old)
        (around (C.moment clock.old) (R.outside remote.old) (D.disk disk.old)))
        (told (S.left source.new) (S.faults source.new) (K.written sink.new) (K.faults sink.new)
        (around (C.moment clock.new) (R.outside remote.new) (D.disk disk.new)))
        (map epoch_of result.epochs.items) }
    ensures stopped { result.status ≢ 0 → result.status ≢ 5 → result.status ≢ 8
        → Stopped D.File.tells (map string_bytes words.now)
        (told (S.left source.old) (S.faults source.old) (K.written sink.old) (K.faults sink.old)
        (around (C.moment clock.old) (R.outside remote.old) (D.disk disk.old)))
        (told (S.left source.new) (S.faults source.new) (K.written sink.new) (K.faults sink.new)
        (around (C.moment clock.new) (R.outside remote.new) (D.disk disk.new)))
        result.status (map epoch_of result.epochs.items) }
    ensures broken { result.status ≡ 5 → Broken D.File.tells R.Object.tells (map string_bytes words.now)
        (told (S.left source.old) (S.faults source.old) (K.written sink.old) (K.faults sink.old)
        (around (C.moment clock.old) (R.outside remote.old) (D.disk disk.old)))
        (told (S.left source.new) (S.faults source.new) (K.written sink.new) (K.faults sink.new)
        (around (C.moment clock.new) (R.outside remote.new) (D.disk disk.new)))
        (map epoch_of result.epochs.items) }
    ensures starved { result.status ≡ 8 → Breaks D.File.tells R.Object.tells (map string_bytes words.now)
        (told (S.left source.old) (S.faults source.old) (K.written sink.old) (K.faults sink.old)
        (around (C.moment clock.old) (R.outside remote.old) (D.disk disk.old)))
        (told (S.left source.new) (S.faults source.new) (K.written sink.new) (K.faults sink.new)
        (around (C.moment clock.new) (R.outside remote.new) (D.disk disk.new)))
        (map epoch_of result.epochs.items) }
{
    match prepare(alloc, words, source) {
        Ok(job) => {
            let lines = job.script.lines();
            start(alloc, &job.run, sink, remote, disk, clock, lines, gate)
        }
        Err(Stop::NoMemory) => no_memory(alloc),
        Err(stop) => run_stop(alloc, sink, stop),
    }
}

/// Makes the remote and the disk ready, and does the lines of a script.
fn start<K: Sink, R: Remote, D: CacheDisk, C: Clock, G: Gate>(
    alloc: Global,
    run: &RunWords,
    sink: &mut K,
    remote: &mut R,
    disk: &mut D,
    clock: &mut C,
    lines: &[Line],
    gate: &G,
) -> Kept<R::Object, D::File>
    requires free { (slot : ℕ) → (D.disk disk.old).out slot ≡ false }
    requires chunk { HasChunk run.now.plan.chunk }
    requires transfers { 1 ≤ run.now.transfers }
    requires small { run.now.write_back ≤ 2 ^ 40 }
    requires can { CanDoAll lines.now }
    requires few { length lines.now ≤ 65536 }
    ensures all { result.status ≡ 0 → DoesAll D.File.tells R.Object.tells (meaning run.now)
        (K.written sink.old) (K.written sink.new)
        (around (C.moment clock.old) (R.outside remote.old) (D.disk disk.old))
        (around (C.moment clock.new) (R.outside remote.new) (D.disk disk.new))
        lines.now (map epoch_of result.epochs.items) }
    ensures stopped { result.status ≢ 0 → result.status ≢ 5 → result.status ≢ 8
        → DoesStop D.File.tells (K.written sink.old) (K.written sink.new)
        (around (C.moment clock.old) (R.outside remote.old) (D.disk disk.old))
        (around (C.moment clock.new) (R.outside remote.new) (D.disk disk.new))
        result.status (map epoch_of result.epochs.items) }
    ensures some { result.status ≡ 5 → BreaksStarted D.File.tells R.Object.tells (meaning run.now)
        (K.written sink.old) (K.written sink.new)
        (around (C.moment clock.old) (R.outside remote.old) (D.disk disk.old))
        (around (C.moment clock.new) (R.outside remote.new) (D.disk disk.new))
        lines.now (map epoch_of result.epochs.items) }
    ensures starved { result.status ≡ 8 → StarvesStarted D.File.tells R.Object.tells (meaning run.now)
        (K.written sink.old) (K.written sink.new)
        (around (C.moment clock.old) (R.outside remote.old) (D.disk disk.old))
        (around (C.moment clock.new) (R.outside remote.new) (D.disk disk.new))
        lines.now (map epoch_of result.epochs.items) }
    ensures rose { result.status ≡ 5 → Rose (K.faults sink.old) (K.faults sink.new) }
{
    match attach(run, remote, disk) {
        Ok(()) => run_script(alloc, run, sink, remote, disk, clock, lines, gate),
        Err(Stop::NoMemory) => no_memory(alloc),
        Err(stop) => run_stop(alloc, sink, stop),
    }
}

/// Writes why a run stops.
#[tactic(auto, using(crate::proofs::Texts::whole_front))]
fn run_stop<K: Sink, O: Object, F: CacheFile>(alloc: Global, sink: &mut K, stop: Stop) -> Kept<O, F>
    ensures never { result.status ≢ 0 }
    ensures stopped { result.status ≢ 5 → result.status ≢ 8 → result.status ≡ status_of stop }
    ensures text { result.status ≢ 5 → result.status ≢ 8 → Appends (K.written sink.old) (K.written sink.new) (stop_text stop) }
    ensures front { AppendsFront (K.written sink.old) (K.written sink.new) (stop_text stop) }
    ensures rose { result.status ≡ 5 → Rose (K.faults sink.old) (K.faults sink.new) }
    ensures none { result.epochs.items ≡ [] }
{
    let epochs = Vec::new(alloc);
    match write_stop(alloc, sink, stop) {
        Ok(()) => Kept {
            status: stop.status(),
            epochs,
        },
        Err(Unwritten::Failed) => Kept { status: 5, epochs },
        Err(Unwritten::NoMemory) => Kept { status: 8, epochs },
    }
}
