ghost use Rattle.std.specs.Prelude.{◌≡◌, IfOk};
ghost use Rattle.cleaner.specs.Choice.{choice, is_over, may_go};
ghost use Rattle.cleaner.specs.Sifted.{IsSifted};

use crate::turn::{Turn, fit, order};
use crate::{PinRule, PinTest};
use std::alloc::Global;
use vfs_names::{ItemId, NoMemory, VPath};

/// What the cleaner knows of a file that has metadata.
#[derive(Debug, Drop)]
pub struct CleanRow {
    pub item: ItemId,
    pub path: VPath,
    /// When the file was used last, in milliseconds.
    pub atime: u64,
    /// How many of its bytes the cache has.
    pub kept: u64,
    pub dirty: bool,
    pub is_open: bool,
}

impl CleanRow {
    /// The file was used last at least `age` ago.
    fn is_over(&self, now: u64, age: u64) -> bool
        ensures { result ≡ is_over now age self.now }
    {
        match now.checked_sub(self.atime) {
            Some(passed) => passed >= age,
            None => false,
        }
    }

    /// The file isn't dirty, open or pinned.
    fn may_go<T: PinTest>(&self, pins: &PinRule<T>) -> bool
        ensures { result ≡ may_go pins.now self.now }
    {
        !self.dirty && !self.is_open && !pins.pinned(&self.path)
    }
}

/// What one pass over the rows makes of them: those whose age is over, the turns of the others that may go, and the bytes
/// of all that stay.
#[derive(Drop)]
struct Sifted {
    chosen: Vec<ItemId>,
    turns: Vec<Turn>,
    bytes: u128,
}

fn sift<T: PinTest>(
    alloc: Global,
    rows: &[CleanRow],
    now: u64,
    age: u64,
    pins: &PinRule<T>,
) -> Result<Sifted, NoMemory>
    ensures { IfOk result (λ s. IsSifted pins.now now age rows.now s.chosen.items s.turns.items s.bytes) }
{
    let mut chosen = Vec::new(alloc);
    let mut turns = Vec::new(alloc);
    let mut bytes: u128 = 0;
    for row in rows {
        let may_go = row.may_go(pins);
        if may_go && row.is_over(now, age) {
            let Ok(()) = chosen.push(row.item) else {
                return Err(NoMemory);
            };
            continue;
        }
        bytes += u128::from(row.kept);
        if may_go {
            let turn = Turn {
                atime: row.atime,
                item: row.item,
                kept: row.kept,
            };
            let Ok(()) = turns.push(turn) else {
                return Err(NoMemory);
            };
        }
    }
    Ok(Sifted {
        chosen,
        turns,
        bytes,
    })
}

/// The files to evict of these, in the order in which they go: first those that were used last at least `age`
/// milliseconds before `now`, then, while the bytes of all that stay are above the quota, the one that was used last
/// longest ago. A dirty, open or pinned file stays. Sorts the rows once.
pub fn choose<T: PinTest>(
    alloc: Global,
    rows: &[CleanRow],
    now: u64,
    age: u64,
    quota: Option<u64>,
    pins: &PinRule<T>,
) -> Result<Vec<ItemId>, NoMemory>
    ensures { IfOk result (λ chosen. chosen.items ≡ choice pins.now now age quota rows.now) }
{
    let Ok(sifted) = sift(alloc, rows, now, age, pins) else {
        return Err(NoMemory);
    };
    let Sifted {
        mut chosen,
        mut turns,
        bytes,
    } = sifted;
    let Some(quota) = quota else {
        return Ok(chosen);
    };
    let Ok(()) = order(&mut turns) else {
        return Err(NoMemory);
    };
    let Ok(()) = fit(&mut chosen, &turns, quota, bytes) else {
        return Err(NoMemory);
    };
    Ok(chosen)
}
