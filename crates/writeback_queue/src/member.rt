ghost use Rattle.std.specs.Prelude.{◌≡◌, ◌↔◌, IsTrue, false, All, IfNone, IfSome, find, position};
ghost use Rattle.writeback_queue.specs.History.{same};
ghost use Rattle.writeback_queue.specs.Members.{is_due, IsBefore, IsFirstDue};

use vfs_names::ItemId;

/// What is kept of a member of the queue.
#[derive(Clone, Copy, Debug, PartialEq, Eq)]
pub(crate) struct Member {
    pub item: ItemId,
    pub due: u64,
    pub fails: u32,
    pub uploading: bool,
}

impl Member {
    /// The member waits, and its moment has come.
    fn is_due(&self, now: u64) -> bool
        ensures { result ≡ is_due now self.now }
    {
        !self.uploading && self.due <= now
    }

    /// The member's turn is before the other's.
    fn is_before(&self, other: &Member) -> bool
        ensures { IsTrue result ↔ IsBefore self.now other.now }
    {
        self.due < other.due || self.due == other.due && self.item.0 < other.item.0
    }
}

/// What is kept of the item; None where it is no member.
pub(crate) fn member_of(members: &[Member], item: ItemId) -> Option<Member>
    ensures { result ≡ find (λ m. same m.item item) members.now }
{
    members.iter().copied().find(|m| m.item == item)
}

/// Where the item stands.
pub(crate) fn place_of(members: &[Member], item: ItemId) -> Option<usize>
    ensures { result ≡ position (λ m. same m.item item) members.now }
{
    members.iter().position(|m| m.item == item)
}

/// Where the member stands whose turn is first, of those that are due.
pub(crate) fn first_due(members: &[Member], now: u64) -> Option<usize>
    ensures none { IfNone result (All (λ m. is_due now m ≡ false) members.now) }
    ensures first { IfSome result (IsFirstDue now members.now) }
{
    let mut first: Option<usize> = None;
    for (at, member) in members.iter().enumerate() {
        if !member.is_due(now) {
            continue;
        }
        match first {
            Some(best) if !member.is_before(&members[best]) => {}
            _ => first = Some(at),
        }
    }
    first
}
