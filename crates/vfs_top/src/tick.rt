ghost use Rattle.std.specs.Prelude.{◌≡◌, ◌≤◌, ◌<◌, ◌^◌, ◌-◌, ◌+◌, ◌++◌, false, true, if◌then◌else◌, length};
ghost use Rattle.vfs_names.specs.declared.who.Actor.TheVariants.{Main};
ghost use Rattle.vfs_outside.specs.Disk.{Disk};
ghost use Rattle.downloaders.specs.Rules.{HasChunk};
ghost use Rattle.item_upload.specs.Whole.{is_saved};
ghost use Rattle.run_words.specs.Words.{meaning};
ghost use Rattle.one_session.specs.Causes.{AreGiven, AreSaved};
ghost use Rattle.one_session.specs.Views.{given_all};
ghost use Rattle.vfs_top.specs.Around.{around};
ghost use Rattle.vfs_top.specs.Event.{main_at};
ghost use Rattle.vfs_top.specs.Going.{IsPast, SendsDue, TicksLine, now};
ghost use Rattle.vfs_top.specs.Phases.{terms_of};

use crate::phase::{Phase, maker_at};
use crate::write::{Unwritten, write_replies, write_ticked};
use item_upload::Ended;
use one_session::OneSession;
use run_words::RunWords;
use std::alloc::Global;
use vfs_names::{Actor, By, NoMemory, Refusal, Who};
use vfs_outside::{CacheFile, Clock, Gate, Point, Remote, Sink};

/// What came of the files that were due.
#[derive(Clone, Copy, Debug, PartialEq, Eq)]
pub struct Ticked {
    /// So many uploads saved their file.
    pub uploaded: u32,
    /// So many didn't.
    pub failed: u32,
    /// Memory was wanting for one of these.
    pub starved: bool,
    /// None is due any more. Where memory was wanting for the queue, or so many were uploaded that they can't be counted, the
    /// others were left.
    pub whole: bool,
}

impl Ticked {
    /// None was uploaded yet.
    fn none() -> Ticked
        ensures { result ≡ record { uploaded = 0; failed = 0; starved = false; whole = false } }
    {
        Ticked {
            uploaded: 0,
            failed: 0,
            starved: false,
            whole: false,
        }
    }

    /// One upload more can be counted.
    fn has_room(&self) -> bool
        ensures { result ≡ true → (self.now.uploaded < 2 ^ 32 - 1) × (self.now.failed < 2 ^ 32 - 1) }
    {
        self.uploaded < u32::MAX && self.failed < u32::MAX
    }

    /// The same with one upload more that ended so.
    fn with(self, ended: Ended) -> Ticked
        requires uploaded { self.uploaded < 2 ^ 32 - 1 }
        requires failed { self.failed < 2 ^ 32 - 1 }
        ensures uploaded { result.uploaded ≡ self.uploaded + (if is_saved ended then 1 else 0) }
        ensures failed { result.failed ≡ self.failed + (if is_saved ended then 0 else 1) }
        ensures whole { result.whole ≡ self.whole }
    {
        match ended {
            Ended::Saved(_) => Ticked {
                uploaded: self.uploaded + 1,
                ..self
            },
            Ended::Dropped(why) | Ended::Unbegun(why) => Ticked {
                failed: self.failed + 1,
                starved: self.starved || why == Refusal::NoMemory,
                ..self
            },
        }
    }
}

/// Who makes the entries of uploads, at a moment, in milliseconds.
fn main_at(phase: u32, moment: u64) -> By
    ensures { result ≡ main_at phase moment }
{
    By {
        who: Who {
            epoch: 0,
            phase,
            actor: Actor::Main,
        },
        pass: 0,
        tree: false,
        now: moment,
    }
}

/// Uploads the files that are due at the maker's moment, one after the other.
fn upload_due<R: Remote, F: CacheFile>(
    alloc: Global,
    run: &RunWords,
    session: &mut OneSession<R::Object, F>,
    remote: &mut R,
    by: By,
) -> Ticked
    requires actor { by.who.actor ≡ Main }
    requires pass { by.pass ≡ 0 }
    requires now { by.now ≤ 2 ^ 62 }
    requires chunk { HasChunk run.now.plan.chunk }
    requires transfers { 1 ≤ run.now.transfers }
    requires terms { session.old.terms ≡ terms_of (meaning run.now) }
    requires past { IsPast by session.old }
    requires given { AreGiven R.Object.tells (R.outside remote.old).handed
        (given_all session.old.items) }
    requires saved { AreSaved F.tells R.Object.tells (R.outside remote.old).handed
        session.old.files }
    ensures due { SendsDue F.tells R.Object.tells (meaning run.now) by session.old session.new
        (R.outside remote.old) (R.outside remote.new) result }
{
    let mut ticked = Ticked::none();
    while ticked.has_room() {
        match session.upload_next(alloc, remote, &run.plan, by) {
            Ok(Some(ended)) => ticked = ticked.with(ended),
            Ok(None) => {
                return Ticked {
                    whole: true,
                    ..ticked
                };
            }
            Err(NoMemory) => return ticked,
        }
    }
    ticked
}

/// Writes what the calls of a phase showed, has the files uploaded that are due at the moment that the clock tells then, and
/// writes how many uploads saved their file and how many didn't; the next phase begins. The uploads have a number of their
/// own, between those of the two phases. Where the sink fails before, none is uploaded.
pub(crate) fn tick<K: Sink, R: Remote, F: CacheFile, C: Clock, G: Gate>(
    alloc: Global,
    run: &RunWords,
    session: &mut OneSession<R::Object, F>,
    sink: &mut K,
    remote: &mut R,
    clock: &mut C,
    phase: &mut Phase,
    line: u32,
    gate: &G,
) -> Result<(), Unwritten>
    requires chunk { HasChunk run.now.plan.chunk }
    requires transfers { 1 ≤ run.now.transfers }
    requires few { phase.old.by.who.phase ≤ 131071 }
    requires before { phase.old.before ≤ length session.old.records }
    requires clock { phase.old.by.now ≤ C.moment clock.old }
    requires terms { session.old.terms ≡ terms_of (meaning run.now) }
    requires past { IsPast phase.old.by session.old }
    requires given { AreGiven R.Object.tells (R.outside remote.old).handed
        (given_all session.old.items) }
    requires saved { AreSaved F.tells R.Object.tells (R.outside remote.old).handed
        session.old.files }
    ensures ticks { (disk : Disk) → TicksLine F.tells R.Object.tells (meaning run.now) line phase.old phase.new
        (now session.old (K.written sink.old) (K.faults sink.old)
        (around (C.moment clock.old) (R.outside remote.old) disk))
        (now session.new (K.written sink.new) (K.faults sink.new)
        (around (C.moment clock.new) (R.outside remote.new) disk))
        result }
    ensures files { length session.new.files ≡ length session.old.files }
{
    let records = session.records();
    match write_replies(alloc, sink, &records[phase.before..]) {
        Ok(()) => {}
        Err(why) => return Err(why),
    }
    let before = records.len();
    let moment = clock.now();
    let by = main_at(phase.by.who.phase + 1, moment);
    gate.before(Point::QueueLock, by.who);
    let ticked = upload_due(alloc, run, session, remote, by);
    *phase = Phase {
        by: maker_at(by.who.phase + 1, moment),
        before,
    };
    if ticked.starved || !ticked.whole {
        return Err(Unwritten::NoMemory);
    }
    write_ticked(alloc, sink, line, ticked)
}
