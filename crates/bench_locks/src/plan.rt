// What the command line asks for.
ghost use Rattle.std.specs.Prelude.{◌≤◌};

/// The most threads that a run may have.
const MOST: usize = 64;

#[derive(Drop)]
pub enum Share {
    /// One lock for all threads.
    One,
    /// A lock for each thread.
    Each,
}

#[derive(Drop)]
pub struct Plan {
    pub threads: usize,
    /// How often each thread locks.
    pub times: u64,
    pub share: Share,
    /// Whether the times are printed.
    pub timed: bool,
    ghost few: { threads ≤ 64 },
}

impl Plan {
    pub fn read(words: &[String]) -> Option<Plan> {
        let [_, threads, times, share, rest @ ..] = words else {
            return None;
        };
        let threads: usize = threads.parse().ok()?;
        let times: u64 = times.parse().ok()?;
        let share = match share.as_str() {
            "one" => Share::One,
            "each" => Share::Each,
            _ => return None,
        };
        if threads > MOST {
            return None;
        }
        Some(Plan {
            threads,
            times,
            share,
            timed: rest.len() > 0,
        })
    }
}
