ghost use Rattle.std.specs.Prelude.{◌≡◌, ◌⊎◌, ◌<◌, ◌≤◌, ◌+◌, ◌↔◌, ◌∷◌, true, false, Some, IsSome, IsTrue, IfSome, IfOk, OnErr, IfErr};
ghost use Rattle.vfs_names.specs.declared.fingerprint.Fingerprint.{Fingerprint};
ghost use Rattle.item_core.specs.declared.entry.FileKind.TheVariants as kinds;
ghost use Rattle.item_core.specs.History.{base_end_of, held_by, is_kept};
ghost use Rattle.item_core.specs.Legal.{IsOther, holds};
ghost use Rattle.base_object.specs.Base.{held_by as held_in};
ghost use Rattle.sparse_item.specs.Answers.{Enters, IsFull};
ghost use Rattle.sparse_item.specs.Item.{IsAllHere, IsSupplied, backing, base_with, lost_base};
ghost use Rattle.sparse_item.specs.Sound.{is_begun};

use crate::ItemBook;
use base_object::BaseState;
use byte_ranges::Span;
use item_core::FileKind;
use std::snapshot::Snapshot;
use vfs_names::{By, Found, Refusal};
use vfs_outside::{CacheFile, Object};

impl<O: Object, F: CacheFile> ItemBook<O, F> {
    /// Gives the file an object. Where it agrees with the one that the file holds it is bound; else
    /// the file's base is lost, and the answer is false.
    pub fn bind(&mut self, by: By, object: O) -> Result<bool, Refusal>
        requires tree { by.tree ≡ true }
        requires kept { is_kept self.old.log.past ≡ true }
        requires base { IsSome (held_by self.old.log.past) }
        ensures agrees { IfOk result (λ bound. bound
            ≡ holds (held_by self.old.log.past) (O.print_of object)) }
        ensures yes { IfOk result (λ bound. IsTrue bound
            → Enters by (kinds.Bind (O.print_of object)) self.old self.new) }
        ensures bound { IfOk result (λ bound. IsTrue bound → self.new ≡ record self.old {
          log = self.new.log;
          pairs = (O.print_of object, O.bytes object) ∷ self.old.pairs;
          base = base_with O.print_of O.bytes O.faults O.changes O.asked object;
        }) }
        ensures no { IfOk result (λ bound. bound ≡ false → IfSome (held_by self.old.log.past)
            (λ held. self.new.base ≡ lost_base held (Found.Other (O.print_of object)) self.old.base)) }
        ensures lost { IfOk result (λ bound. bound ≡ false → self.new.log.past ≡ self.old.log.past) }
        ensures rest { IfOk result (λ bound. bound ≡ false → self.new
            ≡ record self.old { log = self.new.log; base = self.new.base }) }
        ensures err { OnErr result (self.new.log.past ≡ self.old.log.past) }
        ensures same { OnErr result (self.new ≡ record self.old { log = self.new.log }) }
        ensures full { (result ≡ Err Refusal.HistoryFull) ↔ IsFull self.old 1 }
        ensures causes { IfErr result (λ why. (why ≡ Refusal.HistoryFull)
            ⊎ (why ≡ Refusal.NoMemory)) }
        ensures limit { self.new.log.limit ≡ self.old.log.limit }
        ensures room { self.old.log.spare ≤ self.new.log.spare + 1 }
    {
        if let Err(why) = self.reserve(1) {
            return Err(why);
        }
        let Ok(()) = self.given.reserve(1) else {
            return Err(Refusal::NoMemory);
        };
        let print = object.print();
        let told = Snapshot::of(&object);
        if self.base.bind(object) {
            self.given.push_reserved(told);
            self.note(by, FileKind::Bind(print));
            Ok(true)
        } else {
            Ok(false)
        }
    }

    /// The object that the file holds can't be had, since this was found in its place. Takes no
    /// memory.
    pub fn lose(&mut self, found: Found)
        requires kept { is_kept self.old.log.past ≡ true }
        requires base { IsSome (held_by self.old.log.past) }
        requires other { IfSome (held_by self.old.log.past) (λ held. IsOther held found) }
        ensures lost { IfSome (held_by self.old.log.past) (λ held. self.new.base
            ≡ lost_base held found self.old.base) }
        ensures same { self.new ≡ record self.old { base = self.new.base } }
    {
        self.base.lose(found);
    }

    /// Which object stands behind the file; takes no memory.
    pub fn base_state(&self) -> BaseState
        ensures state { result ≡ self.now.base.state }
        ensures held { held_in self.now.base.state ≡ backing self.now.log.past }
        ensures supplied { is_begun self.now.log.past ≡ true → is_kept self.now.log.past ≡ true
            → IsSupplied self.now.base.state self.now.here (base_end_of self.now.log.past) }
    {
        self.base.state()
    }

    /// Whether no byte is absent that the object is to give; takes no memory.
    pub fn base_whole(&self) -> bool
        ensures { IsTrue result ↔ IsAllHere self.now.here (base_end_of self.now.log.past) }
    {
        let end = self.core.base_end();
        if end == 0 {
            return true;
        }
        match &self.meta {
            Some(meta) => meta.ranges.covers(Span { start: 0, end }),
            None => false,
        }
    }
}
