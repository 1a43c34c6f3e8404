ghost use Rattle.std.specs.Prelude.{◌≡◌, ◌≤◌};
ghost use Rattle.writeback_queue.specs.History.{delay};

/// The longest that a failed upload waits, in milliseconds.
const LONGEST: u64 = 60_000;

/// The shortest first wait of a failed upload, in milliseconds.
const SHORTEST: u64 = 1_000;

/// How long a file waits after its `fails`-th failure, in milliseconds: it doubles each time, up to a minute.
pub(crate) fn delay_after(write_back: u64, fails: u32) -> u64
    requires { 1 ≤ fails }
    ensures { result ≡ delay write_back fails }
{
    // 2^6 times the shortest wait is longer than the longest.
    let doublings = (fails - 1).min(6);
    write_back
        .max(SHORTEST)
        .saturating_mul(1 << doublings)
        .min(LONGEST)
}
