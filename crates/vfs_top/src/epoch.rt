ghost use Rattle.std.specs.Prelude.{◌≡◌, ◌≤◌, ◌++◌, [], ℕ, List, length, IfOk};
ghost use Rattle.vfs_names.specs.declared.fingerprint.Fingerprint.{Fingerprint};
ghost use Rattle.downloaders.specs.Rules.{HasChunk};
ghost use Rattle.run_words.specs.Words.{meaning};
ghost use Rattle.one_session.specs.Served.{Fits, Knows};
ghost use Rattle.one_session.specs.Slots.{Lends};
ghost use Rattle.session_text.specs.Lines.{end_text};
ghost use Rattle.one_session.specs.Queued.{queue_of};
ghost use Rattle.vfs_top.specs.Around.{around};
ghost use Rattle.vfs_top.specs.Ended.{RunsEpoch, RunsLines};
ghost use Rattle.vfs_top.specs.Epoch.{epoch_of};
ghost use Rattle.vfs_top.specs.Going.{CanDoAll, IsUntouched};
ghost use Rattle.vfs_top.specs.Phases.{history_limit, terms_of};
ghost use Rattle.vfs_top.specs.Transcript.{end_block};
ghost use Rattle.vfs_top.specs.Writing.{Writes};

use crate::lines::do_lines;
use crate::write::{Unwritten, write_ending, write_start};
use one_session::{EpochLog, OneSession};
use run_words::RunWords;
use session_script::Line;
use std::alloc::Global;
use vfs_names::{NoMemory, QueueRow};
use vfs_outside::{CacheDisk, CacheFile, Clock, Gate, Object, Remote, Sink};

/// What was kept of an epoch, and whether all that it prints was written.
#[derive(Drop)]
pub struct Ran<O: Object, F: CacheFile> {
    pub log: EpochLog<O, F>,
    pub wrote: Result<(), Unwritten>,
}

/// Does the lines of a script. Where the sink fails at the start, no line is done.
pub fn run_epoch<K: Sink, R: Remote, D: CacheDisk, C: Clock, G: Gate>(
    alloc: Global,
    run: &RunWords,
    session: OneSession<R::Object, D::File>,
    sink: &mut K,
    remote: &mut R,
    disk: &mut D,
    clock: &mut C,
    lines: &[Line],
    gate: &G,
) -> Ran<R::Object, D::File>
    requires lends { Lends D.tells 0 (D.disk disk.old) }
    requires new { (handed : List (Fingerprint × List ℕ))
        → Fits 1 (Knows D.File.tells R.Object.tells handed) [] session }
    requires limit { session.limit ≡ history_limit }
    requires terms { session.terms ≡ terms_of (meaning run.now) }
    requires none { session.files ≡ [] }
    requires untouched { IsUntouched session }
    requires chunk { HasChunk run.now.plan.chunk }
    requires transfers { 1 ≤ run.now.transfers }
    requires can { CanDoAll lines.now }
    requires few { length lines.now ≤ 65536 }
    requires room { length lines.now ≤ session.room }
    ensures { RunsEpoch D.File.tells R.Object.tells (meaning run.now)
        (K.written sink.old) (K.written sink.new) (K.faults sink.old) (K.faults sink.new)
        (around (C.moment clock.old) (R.outside remote.old) (D.disk disk.old))
        (around (C.moment clock.new) (R.outside remote.new) (D.disk disk.new))
        lines.now (epoch_of result.log) result.wrote }
{
    match write_start(alloc, sink) {
        Ok(()) => run_lines(alloc, run, session, sink, remote, disk, clock, lines, gate),
        Err(why) => Ran {
            log: session.into_log(disk),
            wrote: Err(why),
        },
    }
}

/// Does the lines, and writes the epoch's end.
fn run_lines<K: Sink, R: Remote, D: CacheDisk, C: Clock, G: Gate>(
    alloc: Global,
    run: &RunWords,
    session: OneSession<R::Object, D::File>,
    sink: &mut K,
    remote: &mut R,
    disk: &mut D,
    clock: &mut C,
    lines: &[Line],
    gate: &G,
) -> Ran<R::Object, D::File>
    requires lends { Lends D.tells 0 (D.disk disk.old) }
    requires new { (handed : List (Fingerprint × List ℕ))
        → Fits 1 (Knows D.File.tells R.Object.tells handed) [] session }
    requires limit { session.limit ≡ history_limit }
    requires terms { session.terms ≡ terms_of (meaning run.now) }
    requires none { session.files ≡ [] }
    requires untouched { IsUntouched session }
    requires chunk { HasChunk run.now.plan.chunk }
    requires transfers { 1 ≤ run.now.transfers }
    requires can { CanDoAll lines.now }
    requires few { length lines.now ≤ 65536 }
    requires room { length lines.now ≤ session.room }
    ensures { RunsLines D.File.tells R.Object.tells (meaning run.now)
        (K.written sink.old) (K.written sink.new) (K.faults sink.old) (K.faults sink.new)
        (around (C.moment clock.old) (R.outside remote.old) (D.disk disk.old))
        (around (C.moment clock.new) (R.outside remote.new) (D.disk disk.new))
        lines.now (epoch_of result.log) result.wrote }
{
    let mut session = session;
    match do_lines(
        alloc,
        run,
        &mut session,
        sink,
        remote,
        disk,
        clock,
        lines,
        gate,
    ) {
        Ok(()) => {
            let rows = session.queue_rows(alloc);
            let log = session.into_log(disk);
            let wrote = write_end(alloc, sink, &log, rows);
            Ran { log, wrote }
        }
        Err(why) => Ran {
            log: session.into_log(disk),
            wrote: Err(why),
        },
    }
}

/// Writes the epoch's end, where there was memory for the rows of its queue.
fn write_end<K: Sink, O: Object, F: CacheFile>(
    alloc: Global,
    sink: &mut K,
    log: &EpochLog<O, F>,
    rows: Result<Vec<QueueRow>, NoMemory>,
) -> Result<(), Unwritten>
    ensures { (write_back : ℕ) → IfOk rows (λ rows. rows.items
        ≡ queue_of write_back (epoch_of log.now).queue (epoch_of log.now).files)
        → Writes (K.written sink.old) (K.written sink.new) (K.faults sink.old) (K.faults sink.new)
        (end_block write_back (epoch_of log.now) ++ end_text 0) result }
{
    match rows {
        Ok(rows) => write_ending(alloc, sink, log, &rows),
        Err(NoMemory) => Err(Unwritten::NoMemory),
    }
}
