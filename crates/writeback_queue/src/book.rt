ghost use Rattle.std.specs.Prelude.{◌≡◌, ◌+◌, ◌-◌, ◌<◌, ◌≤◌, ◌^◌, ◌==◌, ◌↔◌, ◌⊎◌, ◌∷◌, ◌++◌, [], true, false, length, max, if◌then◌else◌, is_some, OnOk, OnErr, IsOk, IsNone, IfSome};
ghost use Rattle.writeback_queue.specs.declared.entry.QueueKind.TheVariants as kinds;
ghost use Rattle.writeback_queue.specs.History.{is_member, is_waiting, is_uploading, due_of, failures_of, members, uploads};
ghost use Rattle.writeback_queue.specs.Legal.{IsLegal, IsNext};
ghost use Rattle.writeback_queue.specs.Queue.{Queue, past_of, entry, removed_by, taken_by, freed, IsIdle, IsBusy};

use crate::delay::delay_after;
use crate::member::{Member, first_due, member_of, place_of};
use crate::{QueueEntry, QueueKind, QueueTerms};
use std::alloc::Global;
use std::marker::Model;
use vfs_names::{By, ItemId, NoMemory};

/// The queue: its history, and beside it what the history says of each member.
///
/// Every call that adds an entry takes its place from those that `reserve` made, so that it needs no memory. The book
/// keeps one place for each waiting member and two for each uploading one. A look-up goes through the members once.
#[derive(Debug, Drop)]
pub struct QueueBook {
    terms: QueueTerms,
    entries: Vec<QueueEntry>,
    members: Vec<Member>,
    uploading: u32,
    spare: u32,
}

impl Model for QueueBook {
    ghost use Rattle.std.specs.Prelude.{reverse, vec_len, vec_capacity};
    ghost use Rattle.writeback_queue.specs.Queue.{Queue};
    ghost use Rattle.writeback_queue.specs.Members.{Tells, HasRoom};

    ghost Value = { Queue };

    ghost view = { λ q. record { terms = q.terms; entries = q.entries.items; spare = q.spare } };

    ghost invariant = { λ q. Tells q.terms (reverse q.entries.items) q.members.items q.uploading
        × HasRoom (vec_len q.entries) (vec_len q.members) q.uploading q.spare
        (vec_capacity q.entries) (vec_capacity q.members) };
}

impl QueueBook {
    /// An empty queue: `write_back` in milliseconds, and at most `transfers` uploads at once. Takes no memory.
    pub fn new(alloc: Global, write_back: u64, transfers: u32) -> QueueBook
        ensures terms { result.terms ≡ record { write_back = write_back; transfers = transfers } }
        ensures entries { result.entries ≡ [] }
        ensures spare { result.spare ≡ 0 }
    {
        QueueBook {
            terms: QueueTerms {
                write_back,
                transfers,
            },
            entries: Vec::new(alloc),
            members: Vec::new(alloc),
            uploading: 0,
            spare: 0,
        }
    }

    /// What the queue keeps to.
    pub fn terms(&self) -> QueueTerms
        ensures { result ≡ self.now.terms }
    {
        self.terms
    }

    /// The item is a member and isn't being uploaded.
    pub fn waiting(&self, item: ItemId) -> bool
        ensures { result ≡ is_waiting (past_of self.now) item }
    {
        member_of(&self.members, item).is_some_and(|member| !member.uploading)
    }

    pub fn uploading(&self, item: ItemId) -> bool
        ensures { result ≡ is_uploading (past_of self.now) item }
    {
        member_of(&self.members, item).is_some_and(|member| member.uploading)
    }

    /// When the item is due, in milliseconds; None exactly where it is no member.
    pub fn due(&self, item: ItemId) -> Option<u64>
        ensures { result ≡ due_of self.now.terms.write_back (past_of self.now) item }
    {
        member_of(&self.members, item).map(|member| member.due)
    }

    /// How often the item failed since it was added; None exactly where it is no member.
    pub fn fails(&self, item: ItemId) -> Option<u32>
        ensures { result ≡ failures_of (past_of self.now) item }
    {
        member_of(&self.members, item).map(|member| member.fails)
    }

    /// How many places of the history are reserved and kept for no member.
    pub fn spare(&self) -> u32
        ensures { result ≡ self.now.spare }
    {
        self.spare
    }

    /// How many members there are.
    pub fn len(&self) -> u32
        ensures members { result ≡ length (members (past_of self.now)) }
        ensures legal { IsLegal self.now.terms (past_of self.now) }
    {
        self.members.len() as u32
    }

    pub fn is_empty(&self) -> bool
        ensures { result ≡ (length (members (past_of self.now)) == 0) }
    {
        self.members.is_empty()
    }

    /// The history, the oldest entry first. Takes no memory.
    pub fn into_entries(self) -> Vec<QueueEntry>
        ensures entries { result.items ≡ self.entries }
        ensures legal { IsLegal self.terms (past_of self) }
    {
        self.entries
    }

    /// Makes room: at least `n` places are spare afterwards. A history has fewer than 2^32 places.
    pub fn reserve(&mut self, n: u32) -> Result<(), NoMemory>
        ensures ok { OnOk result (self.new ≡ record self.old { spare = max self.old.spare n }) }
        ensures err { OnErr result (self.new ≡ self.old) }
        ensures succeeds { n ≤ self.old.spare → IsOk result }
    {
        if n <= self.spare {
            return Ok(());
        }
        let kept = self.members.len() + self.uploading as usize;
        let places = kept + n as usize;
        if u32::MAX as usize - self.entries.len() < places {
            return Err(NoMemory);
        }
        let Ok(()) = self.entries.reserve(places) else {
            return Err(NoMemory);
        };
        let Ok(()) = self.members.reserve(n as usize) else {
            return Err(NoMemory);
        };
        self.spare = n;
        Ok(())
    }

    /// The item waits from now on, with no failures; its maker is the pass of the item's book.
    pub fn add(&mut self, by: By, item: ItemId, due: u64)
        requires room { 2 ≤ self.old.spare }
        requires absent { is_member (past_of self.old) item ≡ false }
        requires pass { by.pass ≡ item.0 + 1 }
        ensures entries { self.new.entries ≡ self.old.entries ++ entry by (kinds.Add item due) }
        ensures spare { self.new.spare + 2 ≡ self.old.spare }
        ensures terms { self.new.terms ≡ self.old.terms }
        ensures legal { IsLegal self.new.terms (past_of self.new) }
    {
        let kind = QueueKind::Add { item, due };
        self.entries.push(QueueEntry { by, kind }).unwrap();
        let member = Member {
            item,
            due,
            fails: 0,
            uploading: false,
        };
        self.members.push(member).unwrap();
        self.spare -= 2;
    }

    /// The item is no member any more, also where it was being uploaded; its maker is the pass of the item's book. Where
    /// it was no member nothing is entered.
    pub fn remove(&mut self, by: By, item: ItemId)
        requires pass { by.pass ≡ item.0 + 1 }
        ensures entries { self.new.entries ≡ self.old.entries ++ removed_by by item (is_member (past_of self.old) item) }
        ensures gone { is_member (past_of self.new) item ≡ false }
        ensures spare { self.new.spare ≡ self.old.spare + freed (past_of self.old) item }
        ensures terms { self.new.terms ≡ self.old.terms }
        ensures legal { IsLegal self.new.terms (past_of self.new) }
    {
        let Some(place) = place_of(&self.members, item) else {
            return;
        };
        let kind = QueueKind::Remove { item };
        self.entries.push(QueueEntry { by, kind }).unwrap();
        let member = self.members.remove(place);
        let freed = u32::from(member.uploading);
        self.uploading -= freed;
        self.spare += freed;
    }

    /// The waiting item is due at another moment.
    pub fn set_due(&mut self, by: By, item: ItemId, due: u64)
        requires room { 1 ≤ self.old.spare }
        requires waits { is_waiting (past_of self.old) item ≡ true }
        ensures entries { self.new.entries ≡ self.old.entries ++ entry by (kinds.SetDue item due) }
        ensures spare { self.new.spare + 1 ≡ self.old.spare }
        ensures terms { self.new.terms ≡ self.old.terms }
        ensures legal { IsLegal self.new.terms (past_of self.new) }
    {
        let Some(place) = place_of(&self.members, item) else {
            unreachable!()
        };
        let kind = QueueKind::SetDue { item, due };
        self.entries.push(QueueEntry { by, kind }).unwrap();
        self.members[place].due = due;
        self.spare -= 1;
    }

    /// Begins the upload of the waiting member whose turn is first, where one is due and fewer than `transfers` are
    /// being uploaded.
    pub fn take(&mut self, by: By) -> Option<ItemId>
        requires room { 2 ≤ self.old.spare }
        ensures none { IsNone result ↔ (IsIdle self.old by.now ⊎ IsBusy self.old) }
        ensures next { IfSome result (IsNext self.old.terms.write_back (past_of self.old) by.now) }
        ensures entries { self.new.entries ≡ self.old.entries ++ taken_by by result }
        ensures spare { self.new.spare + (if is_some result then 2 else 0) ≡ self.old.spare }
        ensures terms { self.new.terms ≡ self.old.terms }
        ensures legal { IsLegal self.new.terms (past_of self.new) }
    {
        if self.uploading >= self.terms.transfers {
            return None;
        }
        let Some(place) = first_due(&self.members, by.now) else {
            return None;
        };
        let member = &mut self.members[place];
        member.uploading = true;
        let item = member.item;
        self.uploading += 1;
        self.spare -= 2;
        let kind = QueueKind::Take { item };
        self.entries.push(QueueEntry { by, kind }).unwrap();
        Some(item)
    }

    /// The item's upload failed: it waits again, until the moment and the delay of this failure are over.
    pub fn fail(&mut self, by: By, item: ItemId)
        requires now { by.now ≤ 2 ^ 62 }
        requires uploads { is_uploading (past_of self.old) item ≡ true }
        ensures entries { self.new.entries ≡ self.old.entries ++ entry by (kinds.Fail item) }
        ensures spare { self.new.spare ≡ self.old.spare }
        ensures terms { self.new.terms ≡ self.old.terms }
        ensures legal { IsLegal self.new.terms (past_of self.new) }
    {
        let Some(place) = place_of(&self.members, item) else {
            unreachable!()
        };
        let kind = QueueKind::Fail { item };
        self.entries.push(QueueEntry { by, kind }).unwrap();
        let member = &mut self.members[place];
        member.fails += 1;
        member.due = by.now + delay_after(self.terms.write_back, member.fails);
        member.uploading = false;
        self.uploading -= 1;
    }
}
