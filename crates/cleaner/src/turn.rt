ghost use Rattle.std.specs.Prelude.{◌≡◌, ◌++◌, OnOk};
ghost use Rattle.cleaner.specs.Choice.{until_fits, in_order};

use vfs_names::{ItemId, NoMemory};

/// When a file goes that may go, and what that frees: the earlier access time first, ties by item.
#[derive(Clone, Copy, Debug, PartialEq, Eq, PartialOrd, Ord)]
pub(crate) struct Turn {
    pub atime: u64,
    pub item: ItemId,
    pub kept: u64,
}

/// Puts the turns in the order in which they go.
pub(crate) fn order(turns: &mut Vec<Turn>) -> Result<(), NoMemory>
    ensures { OnOk result (turns.new.items ≡ in_order turns.old.items) }
{
    match turns.sort() {
        Ok(()) => Ok(()),
        Err(_) => Err(NoMemory),
    }
}

/// Chooses the next one as long as more bytes than the quota stay.
pub(crate) fn fit(
    chosen: &mut Vec<ItemId>,
    turns: &[Turn],
    quota: u64,
    bytes: u128,
) -> Result<(), NoMemory>
    ensures { OnOk result (chosen.new.items ≡ chosen.old.items ++ until_fits quota bytes turns.now) }
{
    let mut left = bytes;
    for turn in turns {
        if left <= u128::from(quota) {
            break;
        }
        let Ok(()) = chosen.push(turn.item) else {
            return Err(NoMemory);
        };
        left = left.saturating_sub(u128::from(turn.kept));
    }
    Ok(())
}
