ghost use Rattle.std.specs.Prelude.{◌≡◌, [], ◌∷◌, take};
ghost use Rattle.pass_lock.specs.Slots.{out_with};

use crate::logged::Logged;
use crate::view::View;
use atomic_table::Seat;

/// What a thread has seen of a lock round an S, and the numbers that it holds.
/// It has no bound, so that a generic state of another lock can hold one.
#[derive(Drop)]
pub struct PassOf<S, E, T> {
    pub(crate) seat: Seat<Option<S>, View<E, T>>,
    pub(crate) number: u64,
    pub(crate) made: u64,
    ghost named: { take 1 seat.me.0.numbers ≡ number ∷ [] },
    ghost counted: { seat.me.0.made ≡ made },
    ghost settled: { (seat.me.0.told ≡ []) × (seat.me.0.told_numbers ≡ []) },
    ghost carries: { seat.me.1 ≡ out_with seat.me.0.holds },
}

/// A pass of a lock round an S.
pub type Pass<S> = PassOf<S, <S as Logged>::Entry, <S as Logged>::Terms>;

impl<S, E, T> PassOf<S, E, T> {
    ghost use Rattle.pass_lock.specs.Lists.{Has};
    ghost use Rattle.pass_lock.specs.Passes.{number_of, numbers_of};

    /// The number that is the pass's own, which is the first of those that it holds.
    pub fn number(&self) -> u64
        ensures number { result ≡ number_of self.now }
        ensures held { Has (numbers_of self.now) result }
        ensures first { take 1 (numbers_of self.now) ≡ result ∷ [] }
    {
        self.number
    }
}
