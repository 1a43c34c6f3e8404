ghost use Rattle.std.specs.Prelude.{◌≡◌};
ghost use Rattle.std.specs.Borrow.{sem};

use crate::logged::Logged;
use crate::view::View;
use atomic_table::Seat;
use std::snapshot::Snapshot;

/// The state, while a pass has it. It can't be dropped: give it back by `PassLock::unlock`.
pub struct Held<S: Logged> {
    pub(crate) state: S,
    pub(crate) place: Snapshot<Seat<Option<S>, View<S::Entry, S::Terms>>>,
}

impl<S: Logged> Held<S> {
    ghost use Rattle.pass_lock.specs.Passes.{held_state};
    ghost use Rattle.pass_lock.specs.Lent.{LendsState};

    /// The locked state.
    pub fn state(&mut self) -> &mut S
        ensures* writes_back { sem 𝓛 (LendsState S.row S.Entry.row S.Terms.row self.entry result) }
        ensures value { result.now ≡ held_state self.old }
    {
        &mut self.state
    }
}
