ghost use Rattle.std.specs.Prelude.{◌≡◌, ◌<◌, ◌≤◌, ◌^◌, ◌+◌, ◌++◌, OnOk, drop, length, map};
ghost use Rattle.vfs_names.specs.declared.who.Actor.TheVariants.{Session};
ghost use Rattle.session_text.specs.Lines.{shown_text};
ghost use Rattle.session_text.specs.declared.shown.Shown.TheVariants.{Replied};
ghost use Rattle.downloaders.specs.Rules.{HasChunk};
ghost use Rattle.run_words.specs.Words.{meaning};
ghost use Rattle.one_session.specs.Causes.{AreGiven, AreSaved};
ghost use Rattle.one_session.specs.Slots.{Lends};
ghost use Rattle.one_session.specs.Views.{given_all};
ghost use Rattle.vfs_top.specs.Around.{around};
ghost use Rattle.vfs_top.specs.Event.{Moves, maker_at, pause_shown};
ghost use Rattle.vfs_top.specs.Going.{CanDo, DoesLine, IsPast, TicksLine, now};
ghost use Rattle.vfs_top.specs.Phases.{terms_of};
ghost use Rattle.vfs_top.specs.Transcript.{shown_texts};
ghost use Rattle.vfs_top.specs.Writing.{Writes};

use crate::tick::tick;
use crate::write::{Unwritten, write_paused};
use one_session::OneSession;
use run_words::RunWords;
use session_script::{Line, What};
use std::alloc::Global;
use vfs_names::{Actor, By, Who};
use vfs_outside::{CacheDisk, CacheFile, Clock, Gate, Object, Point, Remote, Sink};

/// The phase that is under way: who makes the entries of its calls, and how many calls were made before it.
#[derive(Clone, Copy, Debug)]
pub struct Phase {
    pub by: By,
    pub before: usize,
}

/// How a line ends a phase: just so, or by moving the clock by so many milliseconds.
#[derive(Clone, Copy, Debug, PartialEq, Eq)]
pub enum Pause {
    Join,
    Advance(u64),
}

/// The maker of what the first session does in a phase at a moment, in milliseconds.
pub(crate) fn maker_at(phase: u32, moment: u64) -> By
    ensures { result ≡ maker_at phase moment }
{
    By {
        who: Who {
            epoch: 0,
            phase,
            actor: Actor::Session(1),
        },
        pass: 0,
        tree: false,
        now: moment,
    }
}

/// The first phase, which begins now.
pub fn first_phase<C: Clock>(clock: &mut C) -> Phase
    ensures by { result.by ≡ maker_at 1 (C.moment clock.new) }
    ensures before { result.before ≡ 0 }
    ensures most { C.moment clock.new ≤ 2 ^ 62 }
    ensures later { C.moment clock.old ≤ C.moment clock.new }
{
    Phase {
        by: maker_at(1, clock.now()),
        before: 0,
    }
}

/// Does what a line asks for: makes its call, or ends the phase that is under way, moves the clock where it is to or has the
/// files uploaded that are due, and begins the next one. Where the sink fails none is begun.
pub fn do_line<K: Sink, R: Remote, D: CacheDisk, C: Clock, G: Gate>(
    alloc: Global,
    run: &RunWords,
    session: &mut OneSession<R::Object, D::File>,
    sink: &mut K,
    remote: &mut R,
    disk: &mut D,
    clock: &mut C,
    phase: &mut Phase,
    line: &Line,
    gate: &G,
) -> Result<(), Unwritten>
    requires room { 0 < session.old.room }
    requires can { CanDo line.now.line line.now.what }
    requires actor { phase.old.by.who.actor ≡ Session 1 }
    requires pass { phase.old.by.pass ≡ 0 }
    requires now { phase.old.by.now ≤ 2 ^ 62 }
    requires moment { phase.old.by.now ≤ C.moment clock.old }
    requires past { IsPast phase.old.by session.old }
    requires given { AreGiven R.Object.tells (R.outside remote.old).handed
        (given_all session.old.items) }
    requires saved { AreSaved D.File.tells R.Object.tells (R.outside remote.old).handed
        session.old.files }
    requires terms { session.old.terms ≡ terms_of (meaning run.now) }
    requires lends { Lends D.tells (length session.old.files) (D.disk disk.old) }
    requires chunk { HasChunk run.now.plan.chunk }
    requires transfers { 1 ≤ run.now.transfers }
    requires few { phase.old.by.who.phase ≤ 131071 }
    requires before { phase.old.before ≤ length session.old.records }
    requires clock { C.moment clock.old ≤ 2 ^ 62 }
    ensures does { DoesLine D.File.tells R.Object.tells (meaning run.now) line.now.line line.now.what phase.old phase.new
        (now session.old (K.written sink.old) (K.faults sink.old)
        (around (C.moment clock.old) (R.outside remote.old) (D.disk disk.old)))
        (now session.new (K.written sink.new) (K.faults sink.new)
        (around (C.moment clock.new) (R.outside remote.new) (D.disk disk.new)))
        result }
    ensures lends { Lends D.tells (length session.new.files) (D.disk disk.new) }
{
    match &line.what {
        What::Call(call) => {
            gate.before(Point::TreeLock, phase.by.who);
            session.serve(alloc, remote, disk, &run.plan, phase.by, call);
            Ok(())
        }
        What::Join => end_phase(alloc, session, sink, clock, phase, line.line, Pause::Join),
        What::Tick => tick(
            alloc, run, session, sink, remote, clock, phase, line.line, gate,
        ),
        What::Advance(ms) => {
            let pause = Pause::Advance(*ms);
            end_phase(alloc, session, sink, clock, phase, line.line, pause)
        }
        _ => unreachable!(),
    }
}

/// The moment at which the phase begins that follows such a line. The clock is moved first, where that is asked for.
fn next_moment<C: Clock>(clock: &mut C, pause: Pause) -> u64
    requires clock { C.moment clock.old ≤ 2 ^ 62 }
    ensures now { result ≡ C.moment clock.new }
    ensures moved { Moves pause (C.moment clock.old) (C.moment clock.new) }
    ensures most { C.moment clock.new ≤ 2 ^ 62 }
{
    match pause {
        Pause::Join => clock.now(),
        Pause::Advance(ms) => {
            clock.advance(ms);
            clock.now()
        }
    }
}

/// Writes what the calls of a phase showed, and what the line showed that ended it; the next phase begins at the moment that
/// the clock told before.
fn end_phase<K: Sink, C: Clock, O: Object, F: CacheFile>(
    alloc: Global,
    session: &OneSession<O, F>,
    sink: &mut K,
    clock: &mut C,
    phase: &mut Phase,
    line: u32,
    pause: Pause,
) -> Result<(), Unwritten>
    requires few { phase.old.by.who.phase ≤ 131071 }
    requires before { phase.old.before ≤ length session.now.records }
    requires clock { C.moment clock.old ≤ 2 ^ 62 }
    ensures text { Writes (K.written sink.old) (K.written sink.new) (K.faults sink.old) (K.faults sink.new)
        (shown_texts (map Replied (drop phase.old.before session.now.records))
        ++ shown_text (pause_shown line pause (C.moment clock.new))) result }
    ensures by { OnOk result (phase.new.by ≡ maker_at (phase.old.by.who.phase + 1) (C.moment clock.new)) }
    ensures before { OnOk result (phase.new.before ≡ length session.now.records) }
    ensures moved { Moves pause (C.moment clock.old) (C.moment clock.new) }
    ensures most { C.moment clock.new ≤ 2 ^ 62 }
{
    let records = session.records();
    let moment = next_moment(clock, pause);
    match write_paused(alloc, sink, &records[phase.before..], line, pause, moment) {
        Ok(()) => {
            *phase = Phase {
                by: maker_at(phase.by.who.phase + 1, moment),
                before: records.len(),
            };
            Ok(())
        }
        Err(why) => Err(why),
    }
}
