ghost use Rattle.std.specs.Prelude.{◌≡◌, ℕ, List, Bool, length};

/// A state that tells its list of entries, and to which numbers each of them belongs.
/// That the list only grows is asked of whoever unlocks.
pub trait Logged {
    type Entry;

    /// What of the state stands whenever the lock is free. No value of it need ever be made.
    type Terms;

    ghost entries: { Self → List Self.Entry };

    // Whether an entry belongs to a number.
    ghost belongs: { Self.Entry → ℕ → Bool };

    ghost terms: { Self → Self.Terms };

    /// How many entries there are.
    fn count(&self) -> u64
        ensures { result ≡ length (entries self.now) };
}
