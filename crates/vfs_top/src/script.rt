ghost use Rattle.std.specs.Prelude.{◌≡◌, ◌≢◌, ◌≤◌, ◌<◌, ◌^◌, ◌⊎◌, ◌++◌, ℕ, List, [], ◌∷◌, length, map, vec_capacity, vec_len, IfOk};
ghost use Rattle.vfs_names.specs.declared.fingerprint.Fingerprint.{Fingerprint};
ghost use Rattle.vfs_outside.specs.Causes.{Rose};
ghost use Rattle.downloaders.specs.Rules.{HasChunk};
ghost use Rattle.run_words.specs.Words.{meaning};
ghost use Rattle.one_session.specs.Served.{Fits, Knows};
ghost use Rattle.one_session.specs.Slots.{Lends};
ghost use Rattle.vfs_top.specs.Around.{around};
ghost use Rattle.vfs_top.specs.Ended.{DoesAll, DoesNothing, DoesSome};
ghost use Rattle.vfs_top.specs.Epoch.{epoch_of};
ghost use Rattle.vfs_top.specs.Going.{CanDoAll, IsUntouched};
ghost use Rattle.vfs_top.specs.Phases.{history_limit, terms_of};

use crate::epoch::{Ran, run_epoch};
use crate::write::Unwritten;
use one_session::{EpochLog, OneSession};
use run_words::RunWords;
use session_script::Line;
use std::alloc::Global;
use vfs_names::NoMemory;
use vfs_outside::{CacheDisk, CacheFile, Clock, Gate, Object, Remote, Sink};
use writeback_queue::QueueTerms;

/// The most places of a history.
const HISTORY_LIMIT: u32 = 1_048_576;

/// The status that a run ends with, and what was kept of its epochs.
#[derive(Drop)]
pub struct Kept<O: Object, F: CacheFile> {
    pub status: u8,
    pub epochs: Vec<EpochLog<O, F>>,
}

/// Does the lines of a script. Its memory for what is kept is taken first, so that no record of a call that was done is
/// lost. The status is 0, 5 or 8.
pub fn run_script<K: Sink, R: Remote, D: CacheDisk, C: Clock, G: Gate>(
    alloc: Global,
    run: &RunWords,
    sink: &mut K,
    remote: &mut R,
    disk: &mut D,
    clock: &mut C,
    lines: &[Line],
    gate: &G,
) -> Kept<R::Object, D::File>
    requires lends { Lends D.tells 0 (D.disk disk.old) }
    requires chunk { HasChunk run.now.plan.chunk }
    requires transfers { 1 ≤ run.now.transfers }
    requires small { run.now.write_back ≤ 2 ^ 40 }
    requires can { CanDoAll lines.now }
    requires few { length lines.now ≤ 65536 }
    ensures all { result.status ≡ 0 → DoesAll D.File.tells R.Object.tells (meaning run.now)
        (K.written sink.old) (K.written sink.new)
        (around (C.moment clock.old) (R.outside remote.old) (D.disk disk.old))
        (around (C.moment clock.new) (R.outside remote.new) (D.disk disk.new))
        lines.now (map epoch_of result.epochs.items) }
    ensures some { result.status ≡ 5 → DoesSome D.File.tells R.Object.tells (meaning run.now)
        (K.written sink.old) (K.written sink.new)
        (around (C.moment clock.old) (R.outside remote.old) (D.disk disk.old))
        (around (C.moment clock.new) (R.outside remote.new) (D.disk disk.new))
        lines.now (map epoch_of result.epochs.items) }
    ensures starved { result.status ≡ 8 → DoesNothing D.File.tells (K.written sink.old) (K.written sink.new)
        (around (C.moment clock.old) (R.outside remote.old) (D.disk disk.old))
        (around (C.moment clock.new) (R.outside remote.new) (D.disk disk.new))
        (map epoch_of result.epochs.items) ⊎ DoesSome D.File.tells R.Object.tells (meaning run.now)
        (K.written sink.old) (K.written sink.new)
        (around (C.moment clock.old) (R.outside remote.old) (D.disk disk.old))
        (around (C.moment clock.new) (R.outside remote.new) (D.disk disk.new))
        lines.now (map epoch_of result.epochs.items) }
    ensures rose { result.status ≡ 5 → Rose (K.faults sink.old) (K.faults sink.new) }
    ensures ends { result.status ≢ 0 → result.status ≢ 5 → result.status ≡ 8 }
{
    let session = match begin(alloc, run, lines.len()) {
        Ok(session) => session,
        Err(NoMemory) => return no_memory(alloc),
    };
    match Vec::with_capacity(alloc, 1) {
        Ok(epochs) => run_begun(
            alloc, run, session, epochs, sink, remote, disk, clock, lines, gate,
        ),
        Err(_) => no_memory(alloc),
    }
}

/// Nothing was kept, since memory was wanting.
pub fn no_memory<O: Object, F: CacheFile>(alloc: Global) -> Kept<O, F>
    ensures status { result.status ≡ 8 }
    ensures none { result.epochs.items ≡ [] }
{
    Kept {
        status: 8,
        epochs: Vec::new(alloc),
    }
}

/// A session with room for the records of so many calls, whose queue keeps to what the words ask for.
fn begin<O: Object, F: CacheFile>(
    alloc: Global,
    run: &RunWords,
    calls: usize,
) -> Result<OneSession<O, F>, NoMemory>
    requires small { run.now.write_back ≤ 2 ^ 40 }
    ensures new { (handed : List (Fingerprint × List ℕ))
        → IfOk result (λ session. Fits 1 (Knows F.tells O.tells handed) [] session) }
    ensures limit { IfOk result (λ session. session.limit ≡ history_limit) }
    ensures terms { IfOk result (λ session. session.terms ≡ terms_of (meaning run.now)) }
    ensures none { IfOk result (λ session. session.files ≡ []) }
    ensures untouched { IfOk result IsUntouched }
    ensures room { IfOk result (λ session. calls ≤ session.room) }
{
    let terms = QueueTerms {
        write_back: run.write_back,
        transfers: run.transfers,
    };
    let mut session = match OneSession::new(alloc, HISTORY_LIMIT, terms) {
        Ok(session) => session,
        Err(NoMemory) => return Err(NoMemory),
    };
    match session.reserve(calls) {
        Ok(()) => Ok(session),
        Err(NoMemory) => Err(NoMemory),
    }
}

/// Does the lines, and keeps the epoch.
fn run_begun<K: Sink, R: Remote, D: CacheDisk, C: Clock, G: Gate>(
    alloc: Global,
    run: &RunWords,
    session: OneSession<R::Object, D::File>,
    epochs: Vec<EpochLog<R::Object, D::File>>,
    sink: &mut K,
    remote: &mut R,
    disk: &mut D,
    clock: &mut C,
    lines: &[Line],
    gate: &G,
) -> Kept<R::Object, D::File>
    requires lends { Lends D.tells 0 (D.disk disk.old) }
    requires new { (handed : List (Fingerprint × List ℕ))
        → Fits 1 (Knows D.File.tells R.Object.tells handed) [] session }
    requires limit { session.limit ≡ history_limit }
    requires terms { session.terms ≡ terms_of (meaning run.now) }
    requires files { session.files ≡ [] }
    requires untouched { IsUntouched session }
    requires chunk { HasChunk run.now.plan.chunk }
    requires transfers { 1 ≤ run.now.transfers }
    requires can { CanDoAll lines.now }
    requires few { length lines.now ≤ 65536 }
    requires records { length lines.now ≤ session.room }
    requires none { epochs.items ≡ [] }
    requires room { vec_len epochs < vec_capacity epochs }
    ensures all { result.status ≡ 0 → DoesAll D.File.tells R.Object.tells (meaning run.now)
        (K.written sink.old) (K.written sink.new)
        (around (C.moment clock.old) (R.outside remote.old) (D.disk disk.old))
        (around (C.moment clock.new) (R.outside remote.new) (D.disk disk.new))
        lines.now (map epoch_of result.epochs.items) }
    ensures some { result.status ≢ 0 → DoesSome D.File.tells R.Object.tells (meaning run.now)
        (K.written sink.old) (K.written sink.new)
        (around (C.moment clock.old) (R.outside remote.old) (D.disk disk.old))
        (around (C.moment clock.new) (R.outside remote.new) (D.disk disk.new))
        lines.now (map epoch_of result.epochs.items) }
    ensures rose { result.status ≡ 5 → Rose (K.faults sink.old) (K.faults sink.new) }
    ensures ends { result.status ≢ 0 → result.status ≢ 5 → result.status ≡ 8 }
{
    let Ran { log, wrote } = run_epoch(alloc, run, session, sink, remote, disk, clock, lines, gate);
    let epochs = keep(epochs, log);
    match wrote {
        Ok(()) => Kept { status: 0, epochs },
        Err(Unwritten::Failed) => Kept { status: 5, epochs },
        Err(Unwritten::NoMemory) => Kept { status: 8, epochs },
    }
}

/// The epochs and one more, for which there is room.
fn keep<O: Object, F: CacheFile>(
    epochs: Vec<EpochLog<O, F>>,
    log: EpochLog<O, F>,
) -> Vec<EpochLog<O, F>>
    requires { vec_len epochs < vec_capacity epochs }
    ensures { result.items ≡ epochs.items ++ log ∷ [] }
{
    let mut epochs = epochs;
    epochs.push(log).unwrap();
    epochs
}
