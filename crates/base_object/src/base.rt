ghost use Rattle.std.specs.Prelude.{◌≡◌, ◌⊎◌, ◌<◌, ◌≤◌, ◌↔◌, ℕ, List, None, Some, Ok, Err, false, if◌then◌else◌, IfErr, IfSome, IsSome};
ghost use Rattle.byte_ranges.specs.Ranges.{has};
ghost use Rattle.downloaders.specs.declared.Ask.{Ask};
ghost use Rattle.downloaders.specs.Crew.{IsTeam};
ghost use Rattle.downloaders.specs.Orders.{no_one};
ghost use Rattle.downloaders.specs.Rules.{AllHere, AreAsks, HasChunk};
ghost use Rattle.vfs_names.specs.Fingerprint.{agree};
ghost use Rattle.vfs_names.specs.declared.fingerprint.Fingerprint.{Fingerprint};
ghost use Rattle.vfs_names.specs.declared.refusal.Found.{Found};
ghost use Rattle.base_object.specs.Base.{IsBase, IsLaterOf, IsOther, IsReady, bytes_of, crew_after, facts_of, held_by, refusal_of, state_after, state_with};
ghost use Rattle.base_object.specs.Pulls.{IfBlock, IsBlock, IsPullCause, Loses, Pulls, progress_of};

use crate::downloads::Downloads;
use crate::{BaseState, Block};
use byte_ranges::{RangeSet, Span};
use downloaders::Plan;
use std::alloc::Global;
use std::marker::Model;
use vfs_names::{Fingerprint, Found, Refusal};
use vfs_outside::{Object, ObjectError};

/// The object behind a kept file, with its downloaders.
#[derive(Drop)]
pub struct BaseObject<O: Object> {
    state: BaseState,
    // the object that was bound last, where one was
    pub(crate) downloads: Option<Downloads<O>>,
}

impl<O: Object> Model for BaseObject<O> {
    ghost use Rattle.base_object.specs.Base.{Base, IsBase, crew_in, object_in};

    ghost Value = { Base };

    ghost view = { λ b. record {
      state = b.state;
      object = object_in b.downloads;
      crew = crew_in b.downloads;
    } };

    ghost invariant = { λ b. IsBase b.state (object_in b.downloads) (crew_in b.downloads) };
}

impl<O: Object> BaseObject<O> {
    /// The file holds no object; takes no memory.
    pub fn none() -> BaseObject<O>
        ensures state { result.state ≡ BaseState.Absent }
        ensures object { result.object ≡ None }
        ensures crew { result.crew ≡ no_one false }
    {
        BaseObject {
            state: BaseState::Absent,
            downloads: None,
        }
    }

    /// The file holds this object, which is there; takes no memory.
    pub fn of(object: O) -> BaseObject<O>
        ensures state { result.state ≡ BaseState.Bound (O.print_of object) }
        ensures object { result.object
            ≡ Some (facts_of O.print_of O.bytes O.faults O.changes O.asked object) }
        ensures crew { result.crew ≡ no_one false }
    {
        BaseObject {
            state: BaseState::Bound(object.print()),
            downloads: Some(Downloads::new(object)),
        }
    }

    /// The file holds an object of this fingerprint, which wasn't opened yet; takes no memory.
    pub fn unbound(print: Fingerprint) -> BaseObject<O>
        ensures state { result.state ≡ BaseState.Unbound print }
        ensures object { result.object ≡ None }
        ensures crew { result.crew ≡ no_one false }
    {
        BaseObject {
            state: BaseState::Unbound(print),
            downloads: None,
        }
    }

    /// Which state the base is in; takes no memory.
    pub fn state(&self) -> BaseState
        ensures state { result ≡ self.now.state }
        ensures facts { IsBase self.now.state self.now.object self.now.crew }
    {
        let _ = &self.downloads;
        self.state
    }

    /// The file gets this object, if it agrees with the one that it holds; else the base is lost.
    /// Takes no memory.
    pub fn bind(&mut self, object: O) -> bool
        requires { IsSome (held_by self.old.state) }
        ensures agrees { IfSome (held_by self.old.state) (λ held.
            result ≡ agree held (O.print_of object)) }
        ensures state { IfSome (held_by self.old.state) (λ held.
            self.new.state ≡ state_with held (O.print_of object)) }
        ensures object { self.new.object ≡ (if result
            then Some (facts_of O.print_of O.bytes O.faults O.changes O.asked object)
            else self.old.object) }
        ensures crew { self.new.crew ≡ no_one false }
    {
        let Some(held) = self.state.held() else {
            unreachable!()
        };
        let print = object.print();
        if held.agrees(&print) {
            self.state = BaseState::Bound(held);
            self.downloads = Some(Downloads::new(object));
            true
        } else {
            self.lose(Found::Other(print));
            false
        }
    }

    /// The object can't be had, since this was found in its place. Takes no memory.
    pub fn lose(&mut self, found: Found)
        requires held { IsSome (held_by self.old.state) }
        requires other { IfSome (held_by self.old.state) (λ held. IsOther held found) }
        ensures state { IfSome (held_by self.old.state) (λ held.
            self.new.state ≡ BaseState.Lost held found) }
        ensures object { self.new.object ≡ self.old.object }
        ensures crew { self.new.crew ≡ no_one false }
    {
        let Some(held) = self.state.held() else {
            unreachable!()
        };
        self.state = BaseState::Lost { held, found };
        if let Some(downloads) = &mut self.downloads {
            downloads.clear();
        }
    }

    /// Pulls the next block that the rules say, after the request before it; None where no byte
    /// of the span is missing. `present` are the bytes that are here, and `base_end` is where
    /// those end that the object is to give.
    ///
    /// It makes one or two calls on the object, and takes the memory of the block before them.
    pub fn pull(
        &mut self,
        alloc: Global,
        plan: &Plan,
        present: &RangeSet,
        span: Span,
        base_end: u64,
    ) -> Result<Option<Block>, Refusal>
        requires chunk { HasChunk plan.now.chunk }
        requires some { span.start < span.end }
        requires within { span.end ≤ base_end }
        requires size { IfSome (held_by self.old.state) (λ held. base_end ≤ held.size) }
        requires ready { IsReady self.old.state ⊎ AllHere (has present.now) span base_end }
        ensures none { (result ≡ Ok None) ↔ AllHere (has present.now) span base_end }

        // The rules make one list of asks, and it ends.
        ensures ends { (asks : List Ask) ×
            AreAsks plan.now span base_end (has present.now) self.old.crew asks }
        ensures asks { (asks : List Ask) →
            AreAsks plan.now span base_end (has present.now) self.old.crew asks →
            Pulls self.old.state asks (progress_of self.old) (progress_of self.new) result }
        ensures block { IfBlock result (λ block.
            IsBlock O.tells (bytes_of self.old.object) base_end block) }
        ensures object { IsLaterOf self.old.object self.new.object }
        ensures state { Loses result self.old.state self.new.state }
        ensures lost { (held : Fingerprint) (found : Found) →
            self.old.state ≡ BaseState.Lost held found →
            (result ≡ Ok None) ⊎ (result ≡ Err (Refusal.Stale held found)) }
        ensures causes { IfErr result (λ why. IsPullCause self.old self.new why) }
        ensures team { IsTeam self.old.crew }
    {
        match self.state {
            BaseState::Bound(held) => self.pull_bound(alloc, held, plan, present, span, base_end),
            BaseState::Lost { held, found } => {
                if present.covers(span) {
                    Ok(None)
                } else {
                    Err(Refusal::Stale { held, found })
                }
            }
            BaseState::Absent | BaseState::Unbound(_) => Ok(None),
        }
    }

    fn pull_bound(
        &mut self,
        alloc: Global,
        held: Fingerprint,
        plan: &Plan,
        present: &RangeSet,
        span: Span,
        base_end: u64,
    ) -> Result<Option<Block>, Refusal>
        requires bound { self.old.state ≡ BaseState.Bound held }
        requires chunk { HasChunk plan.now.chunk }
        requires some { span.start < span.end }
        requires within { span.end ≤ base_end }
        requires size { base_end ≤ held.size }
        ensures none { (result ≡ Ok None) ↔ AllHere (has present.now) span base_end }
        ensures asks { (asks : List Ask) →
            AreAsks plan.now span base_end (has present.now) self.old.crew asks →
            Pulls self.old.state asks (progress_of self.old) (progress_of self.new) result }
        ensures block { IfBlock result (λ block.
            IsBlock O.tells (bytes_of self.old.object) base_end block) }
        ensures object { IsLaterOf self.old.object self.new.object }
        ensures state { Loses result self.old.state self.new.state }
        ensures causes { IfErr result (λ why. IsPullCause self.old self.new why) }
        ensures team { IsTeam self.old.crew }
    {
        let Some(downloads) = &mut self.downloads else {
            unreachable!()
        };
        match downloads.pull(alloc, plan, present, span, base_end) {
            Ok(found) => Ok(found),
            Err(why) => Err(self.refuse(held, why)),
        }
    }

    /// What an error of the object says. Where another object was found, the base is lost.
    fn refuse(&mut self, held: Fingerprint, why: ObjectError) -> Refusal
        requires { self.old.state ≡ BaseState.Bound held }
        ensures why { result ≡ refusal_of held why }
        ensures state { self.new.state ≡ state_after held why }
        ensures object { self.new.object ≡ self.old.object }
        ensures crew { self.new.crew ≡ crew_after why self.old.crew }
    {
        match why {
            ObjectError::Changed => {
                self.lose(Found::Changed);
                Refusal::Stale {
                    held,
                    found: Found::Changed,
                }
            }
            ObjectError::Failed => Refusal::RemoteFault,
            ObjectError::NoMemory => Refusal::NoMemory,
        }
    }
}
