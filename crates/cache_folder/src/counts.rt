ghost use Rattle.std.specs.Prelude.{◌≡◌, ◌↔◌, ◌<◌, ◌≤◌, ◌+◌, ◌^◌, IsTrue};
ghost use Rattle.vfs_outside.specs.Slot.{IsCall};

use vfs_outside::DiskError;

/// How many calls are made on a file at most.
const MOST: u64 = (1 << 63) - 1;

/// How many calls were made on a file since it was handed out, and how many failed.
#[derive(Drop)]
pub struct Counts {
    calls: u64,
    faults: u64,
    ghost short: { calls < 2 ^ 63 },
}

impl Counts {
    ghost use Rattle.cache_folder.specs.Files.{told_by};

    pub fn new() -> Counts
        ensures calls { (told_by result).calls ≡ 0 }
        ensures faults { (told_by result).faults ≡ 0 }
    {
        Counts {
            calls: 0,
            faults: 0,
        }
    }

    pub fn faults(&self) -> u64
        ensures { result ≡ (told_by self.now).faults }
    {
        self.faults
    }

    /// No further call can be counted.
    pub fn is_full(&self) -> bool
        ensures { IsTrue result ↔ (2 ^ 63 ≤ (told_by self.now).calls + 1) }
    {
        self.calls >= MOST
    }

    /// Counts a call that was made, and a fault where it failed. Gives its outcome.
    pub fn count<T>(&mut self, outcome: Result<T, DiskError>) -> Result<T, DiskError>
        requires { (told_by self.old).calls + 1 < 2 ^ 63 }
        ensures call { IsCall (told_by self.old) (told_by self.new) result }
        ensures same { result ≡ outcome }
    {
        match outcome {
            Ok(x) => {
                self.calls += 1;
                Ok(x)
            }
            Err(DiskError::Failed) => {
                self.calls += 1;
                self.faults = self.faults.saturating_add(1);
                Err(DiskError::Failed)
            }
            Err(DiskError::NoMemory) => Err(DiskError::NoMemory),
        }
    }
}
