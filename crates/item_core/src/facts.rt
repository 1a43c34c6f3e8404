ghost use Rattle.std.specs.Prelude.{◌≡◌, ◌+◌, ◌<◌, ◌^◌};
ghost use Rattle.item_core.specs.Step.{EndFits, facts_after, moved};

use crate::FileKind;
use vfs_names::Fingerprint;

/// What follows from a history, counted along with it.
#[derive(Clone, Copy)]
pub(crate) struct Facts {
    pub version: u64,
    pub size: u64,
    pub base_end: u64,
    pub held: Option<Fingerprint>,
    pub kept: bool,
    pub dirty: bool,
    pub modified: bool,
    pub opens: u32,
    pub begun: u32,
}

impl Facts {
    /// Those of the empty history.
    pub(crate) const NONE: Facts = Facts {
        version: 0,
        size: 0,
        base_end: 0,
        held: None,
        kept: false,
        dirty: false,
        modified: false,
        opens: 0,
        begun: 0,
    };

    /// The facts after an entry of this kind.
    pub(crate) fn after(self, kind: &FileKind) -> Facts
        requires fits { EndFits kind.now }
        requires version { self.version + 1 < 2 ^ 64 }
        requires opens { self.opens + 1 < 2 ^ 32 }
        requires begun { self.begun + 1 < 2 ^ 32 }
        ensures { result ≡ facts_after kind.now self }
    {
        let opens = moved(kind.is_opened(), kind.is_closed(), self.opens);
        let begun = moved(kind.is_start(), kind.is_end(), self.begun);
        Facts {
            version: if kind.raises() {
                self.version + 1
            } else {
                self.version
            },
            size: kind.size_after(self.size),
            base_end: kind.base_end_after(self.size, self.base_end),
            held: kind.held_after(self.held),
            kept: kind.kept_after(self.kept),
            dirty: kind.dirty_after(self.dirty),
            modified: kind.modified_after(self.opens as usize, self.modified),
            opens,
            begun,
        }
    }
}

/// A count that some entries raise and others lower.
fn moved(more: bool, less: bool, count: u32) -> u32
    requires { count + 1 < 2 ^ 32 }
    ensures { result ≡ moved more less count }
{
    if more {
        count + 1
    } else if less {
        count.saturating_sub(1)
    } else {
        count
    }
}
