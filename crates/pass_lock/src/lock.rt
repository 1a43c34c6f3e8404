ghost use Rattle.std.specs.Prelude.{◌≡◌};

use crate::held::Held;
use crate::law::Law;
use crate::logged::Logged;
use crate::pass::{Pass, PassOf};
use crate::plays::{Raise, Release, Take};
use crate::view::View;
use atomic_table::{Refused, Seat, Table};
use std::alloc::{AllocFailed, Global};
use std::snapshot::Snapshot;
use std::sync::Wait;

/// A lock round a state, whose passes remember what they have seen.
///
/// Every call takes passes of this very lock, and all but `unlock` take them with no state out. Only
/// `new` takes memory. Nothing is claimed of when a thread gets the lock. A pass that is dropped takes
/// its numbers with it: then the lock can be dropped, but not closed.
#[derive(Drop)]
pub struct PassLock<S: Logged> {
    pub(crate) table: Table<Option<S>, View<S::Entry, S::Terms>, Snapshot<S>, Law, Global>,
    ghost sized: { (table.shared.table_id.words ≡ 2) × (table.shared.table_id.slots ≡ 1) },
}

/// There was no memory for a lock. The state comes back.
#[derive(Drop)]
pub struct NoLock<S> {
    pub state: S,
}

// A pass's place at the table.
pub(crate) type Place<S> = Seat<Option<S>, View<<S as Logged>::Entry, <S as Logged>::Terms>>;

// The word that is `FREE`, `TAKEN` or `AWAITED`.
const LOCKED: usize = 0;

// The word that has the number of entries.
const COUNT: usize = 1;

// The slot of the state.
const STATE: usize = 0;

const FREE: u64 = 0;

// A pass has the state, and no other waits for it: its release wakes nobody.
const TAKEN: u64 = 1;

// A pass has the state, and another may sleep on the word.
const AWAITED: u64 = 2;

impl<S: Logged + Drop> PassLock<S> {
    ghost use Rattle.std.specs.Prelude.{ℕ, ◌<◌, List, [], ◌∷◌, ◌++◌, Some, IfOk, IfErr};
    ghost use Rattle.pass_lock.specs.Lists.{Has, entries_of, GoesOn, BelongsTo, GrowsBy};
    ghost use Rattle.pass_lock.specs.Rule.{HasTaken};
    ghost use Rattle.pass_lock.specs.Passes.{lock_id, first_state, held_state, IsHeldBy, lock_of, number_of, numbers_of, seen_by, mine_of, made_by, KeepsMine, terms_of, IsFree, IsLocking, IsSamePass};

    /// A free lock round the state, and its first pass. At `Err` there was no memory for it.
    pub fn new(alloc: Global, state: S) -> Result<(PassLock<S>, Pass<S>), NoLock<S>>
        requires own { entries_of S.belongs 0 (S.entries state) ≡ S.entries state }
        requires alone { BelongsTo S.belongs (0 ∷ []) (S.entries state) }
        ensures lock { IfOk result (λ r. lock_of r.1 ≡ lock_id r.0) }
        ensures free { IfOk result (λ r. IsFree r.1) }
        ensures number { IfOk result (λ r. (number_of r.1 ≡ 0) × (numbers_of r.1 ≡ 0 ∷ [])) }
        ensures made { IfOk result (λ r. made_by r.1 ≡ 1) }
        ensures seen { IfOk result (λ r. seen_by r.1 ≡ S.entries state) }
        ensures mine { IfOk result (λ r. mine_of S.belongs r.1 0 ≡ S.entries state) }
        ensures terms { IfOk result (λ r. terms_of r.1 ≡ Some (S.terms state)) }
        ensures first { IfOk result (λ r. first_state r.0 ≡ state) }
        ensures back { IfErr result (λ e. e.state ≡ state) }
    {
        let words = [0, state.count()];
        let key = Snapshot::of(&state);
        let mut slots = Vec::new(alloc);
        if let Err(AllocFailed { value }) = slots.push(Some(state)) {
            return Err(NoLock {
                state: value.unwrap(),
            });
        }
        match Table::new(alloc, &words, slots, &key) {
            Ok((table, seat)) => {
                let lock = PassLock { table };
                let pass = PassOf {
                    seat,
                    number: 0,
                    made: 1,
                };
                Ok((lock, pass))
            }
            Err(Refused { mut slots }) => Err(NoLock {
                state: slots.pop().unwrap().unwrap(),
            }),
        }
    }

    /// Waits until the lock is free, asleep where another thread has it, and takes the state out.
    pub fn lock<R: Wait>(&self, rt: &R, pass: &mut Pass<S>) -> Held<S>
        requires own { lock_of pass.old ≡ lock_id self.now }
        requires free { IsFree pass.old }
        ensures pass { IsSamePass pass.old pass.new }
        ensures locking { IsLocking pass.new }
        ensures held { IsHeldBy result pass.new }
        ensures seen { seen_by pass.new ≡ S.entries (held_state result) }
        ensures list { GoesOn S.belongs (numbers_of pass.old) (seen_by pass.old) (seen_by pass.new) }
        ensures mine { KeepsMine S.belongs pass.old pass.new }
        ensures terms { terms_of pass.old ≡ Some (S.terms (held_state result)) }
    {
        self.take(rt, &mut pass.seat);
        let shared = &self.table.shared;
        let state = shared.exchange(&mut pass.seat, STATE, None).unwrap();
        let place = Snapshot::of(&pass.seat);
        Held { state, place }
    }

    // Takes the lock. Where another pass has it, marks that it is awaited, and sleeps.
    fn take<R: Wait>(&self, rt: &R, seat: &mut Place<S>)
        requires own { seat.old.table_id ≡ lock_id self.now }
        requires numbered { (n : ℕ) × Has seat.old.me.0.numbers n }
        ensures same { (seat.new.table_id ≡ seat.old.table_id) × (seat.new.id ≡ seat.old.id) }
        ensures took { HasTaken S.entries S.belongs S.terms seat.old.me seat.new.me }
    {
        let shared = &self.table.shared;
        if shared.compare_exchange::<Take>(seat, LOCKED, FREE, TAKEN) == FREE {
            return;
        }
        for _ in rt.forever() {
            if shared.swap::<Take>(seat, LOCKED, AWAITED) == FREE {
                return;
            }
            shared.park(rt, LOCKED, 2);
        }
        unreachable!()
    }

    /// Gives the state back, and wakes a thread that waits for it.
    pub fn unlock(&self, held: Held<S>, pass: &mut Pass<S>)
        requires own { lock_of pass.old ≡ lock_id self.now }
        requires locking { IsLocking pass.old }
        requires held { IsHeldBy held pass.old }
        requires terms { terms_of pass.old ≡ Some (S.terms (held_state held)) }
        requires grows { GrowsBy S.belongs (numbers_of pass.old) (seen_by pass.old) (S.entries (held_state held)) }
        ensures pass { IsSamePass pass.old pass.new }
        ensures free { IsFree pass.new }
        ensures seen { seen_by pass.new ≡ S.entries (held_state held) }
        ensures mine { (added : List S.Entry)
            × (seen_by pass.new ≡ seen_by pass.old ++ added)
            × ((n : ℕ) → mine_of S.belongs pass.new n
            ≡ mine_of S.belongs pass.old n ++ entries_of S.belongs n added) }
    {
        let Held { state, place: _ } = held;
        let shared = &self.table.shared;
        let count = state.count();
        drop(shared.exchange(&mut pass.seat, STATE, Some(state)));
        shared.store::<Raise>(&mut pass.seat, COUNT, count);
        if shared.swap::<Release>(&mut pass.seat, LOCKED, FREE) == AWAITED {
            shared.wake_one(LOCKED);
        }
    }

    /// The state, once one pass holds every number.
    pub fn close(self, pass: Pass<S>) -> S
        requires own { lock_of pass ≡ lock_id self }
        requires free { IsFree pass }
        requires first { Has (numbers_of pass) 0 }
        requires all { (n : ℕ) → n < made_by pass → Has (numbers_of pass) n }
        ensures list { GoesOn S.belongs (numbers_of pass) (seen_by pass) (S.entries result) }
        ensures mine { (n : ℕ) → entries_of S.belongs n (S.entries result) ≡ mine_of S.belongs pass n }
        ensures terms { terms_of pass ≡ Some (S.terms result) }
    {
        let PassLock { table } = self;
        let PassOf {
            seat,
            number: _,
            made: _,
        } = pass;
        let mut closed = table.close_with(seat);
        let state = closed.take(STATE).unwrap();
        closed.free();
        state
    }
}
