ghost use Rattle.std.specs.Prelude.{◌≡◌, ◌≤◌, ◌++◌, ℕ, List, [], length};
ghost use Rattle.vfs_names.specs.declared.fingerprint.Fingerprint.{Fingerprint};
ghost use Rattle.downloaders.specs.Rules.{HasChunk};
ghost use Rattle.run_words.specs.Words.{meaning};
ghost use Rattle.one_session.specs.Served.{Fits, Knows};
ghost use Rattle.one_session.specs.Slots.{Lends};
ghost use Rattle.vfs_top.specs.Around.{around};
ghost use Rattle.vfs_top.specs.Going.{CanDoAll, HasGone, IsUntouched, now};
ghost use Rattle.vfs_top.specs.Phases.{history_limit, terms_of};

use crate::phase::{do_line, first_phase};
use crate::write::{Unwritten, write_replies};
use one_session::OneSession;
use run_words::RunWords;
use session_script::Line;
use std::alloc::Global;
use vfs_outside::{CacheDisk, Clock, Gate, Remote, Sink};

/// Does the lines in their order, and writes what each phase showed at its end. Where that fails no further line is done.
pub fn do_lines<K: Sink, R: Remote, D: CacheDisk, C: Clock, G: Gate>(
    alloc: Global,
    run: &RunWords,
    session: &mut OneSession<R::Object, D::File>,
    sink: &mut K,
    remote: &mut R,
    disk: &mut D,
    clock: &mut C,
    lines: &[Line],
    gate: &G,
) -> Result<(), Unwritten>
    requires lends { Lends D.tells 0 (D.disk disk.old) }
    requires new { (handed : List (Fingerprint × List ℕ))
        → Fits 1 (Knows D.File.tells R.Object.tells handed) [] session.old }
    requires limit { session.old.limit ≡ history_limit }
    requires terms { session.old.terms ≡ terms_of (meaning run.now) }
    requires none { session.old.files ≡ [] }
    requires untouched { IsUntouched session.old }
    requires chunk { HasChunk run.now.plan.chunk }
    requires transfers { 1 ≤ run.now.transfers }
    requires can { CanDoAll lines.now }
    requires few { length lines.now ≤ 65536 }
    requires room { length lines.now ≤ session.old.room }
    ensures gone { HasGone D.File.tells R.Object.tells (meaning run.now) lines.now
        (now session.old (K.written sink.old) (K.faults sink.old)
        (around (C.moment clock.old) (R.outside remote.old) (D.disk disk.old)))
        (now session.new (K.written sink.new) (K.faults sink.new)
        (around (C.moment clock.new) (R.outside remote.new) (D.disk disk.new)))
        result }
    ensures lends { Lends D.tells (length session.new.files) (D.disk disk.new) }
{
    let mut phase = first_phase(clock);
    for line in lines {
        match do_line(
            alloc, run, session, sink, remote, disk, clock, &mut phase, line, gate,
        ) {
            Ok(()) => {}
            Err(why) => return Err(why),
        }
    }
    write_replies(alloc, sink, &session.records()[phase.before..])
}
