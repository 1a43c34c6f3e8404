ghost use Rattle.std.specs.Prelude.{◌≡◌, ◌+◌, ◌^◌, ◌≤◌, ℕ, min};

/// Tells the moment, in milliseconds.
pub trait Clock {
    // No later answer is less.
    ghost moment: { Self → ℕ };

    /// The moment now: never less than the last answer, and at most 2^62.
    fn now(&mut self) -> u64
        ensures later { moment self.old ≤ result }
        ensures most { result ≤ 2 ^ 62 }
        ensures moment { moment self.new ≡ result };

    /// Moves the clock: later answers are at least `ms` above the last one, or are 2^62.
    fn advance(&mut self, ms: u64)
        ensures { min (moment self.old + ms) (2 ^ 62) ≤ moment self.new };
}

const LAST: u64 = 1 << 62;

/// A clock that starts at 0 and that `advance` alone moves.
#[derive(Clone, Copy, Debug)]
pub struct ScriptClock {
    now: u64,
    ghost small: { now ≤ 2 ^ 62 },
}

impl ScriptClock {
    pub fn new() -> ScriptClock {
        ScriptClock { now: 0 }
    }
}

impl Clock for ScriptClock {
    ghost moment = { λ c. c.now };

    fn now(&mut self) -> u64 {
        self.now
    }

    fn advance(&mut self, ms: u64) {
        self.now = self.now.saturating_add(ms).min(LAST);
    }
}

/// The system's clock, in milliseconds since 1970, and what it was advanced by. Where the system's clock goes back or
/// can't be read, the last answer is given again.
#[derive(Drop)]
pub struct StdClock<'a, C: std::time::Clock> {
    system: &'a C,
    advanced: u64,
    last: u64,
    ghost small: { last ≤ 2 ^ 62 },
}

impl<'a, C: std::time::Clock> StdClock<'a, C> {
    pub fn new(system: &'a C) -> StdClock<'a, C> {
        StdClock {
            system,
            advanced: 0,
            last: 0,
        }
    }

    /// The system's moment, or None where it can't be read.
    fn read(&self) -> Option<u64> {
        match self.system.since_1970() {
            Ok(since) => u64::try_from(since.as_millis()).ok(),
            Err(_) => None,
        }
    }
}

impl<C: std::time::Clock> Clock for StdClock<'_, C> {
    ghost moment = { λ c. c.last };

    fn now(&mut self) -> u64 {
        if let Some(read) = self.read() {
            let moment = read.saturating_add(self.advanced).min(LAST);
            self.last = self.last.max(moment);
        }
        self.last
    }

    fn advance(&mut self, ms: u64) {
        self.advanced = self.advanced.saturating_add(ms);
        self.last = self.last.saturating_add(ms).min(LAST);
    }
}
