ghost use Rattle.std.specs.Prelude.{◌≡◌, ◌⊎◌, ◌<◌, ◌≤◌, ◌++◌, ℕ, List, [], ◌∷◌, Ok, Err, false, true, length, vec_len, vec_capacity, OnOk, OnErr, IfErr, IfSome};
ghost use Rattle.byte_ranges.specs.Ranges.{has};
ghost use Rattle.downloaders.specs.declared.Ask.{Ask};
ghost use Rattle.downloaders.specs.Orders.{here_in_the_end};
ghost use Rattle.downloaders.specs.Rules.{AllHere, AreAsks, HasChunk};
ghost use Rattle.base_object.specs.Base.{IsLaterOf, IsReady, bytes_of, held_by};
ghost use Rattle.base_object.specs.Pulls.{IsBlock, IsPullCause, Loses, here_with, progress_of};
ghost use Rattle.base_object.specs.PullsLeft.{pulls_left};
ghost use Rattle.base_object.specs.Reads.{AddsBlocks, Reads, ReadsNext};

use crate::{BaseObject, Block};
use byte_ranges::{RangeSet, Span};
use downloaders::Plan;
use std::alloc::Global;
use vfs_names::Refusal;
use vfs_outside::Object;

/// Keeps a block for which there is room. Those of its bytes are here then that lie below the
/// base end.
fn keep(
    present: &mut RangeSet,
    base_end: u64,
    blocks: &mut Vec<Block>,
    block: Block,
) -> Result<(), Refusal>
    requires room { vec_len blocks.old < vec_capacity blocks.old }
    requires some { 1 ≤ length block.bytes }
    requires below { block.pos < base_end }
    ensures ok { OnOk result (blocks.new.items ≡ blocks.old.items ++ block ∷ []) }
    ensures here { OnOk result ((p : ℕ) →
        has present.new p ≡ here_with block base_end (has present.old) p) }
    ensures err { OnErr result (present.new ≡ present.old) }
    ensures same { OnErr result (blocks.new.items ≡ blocks.old.items) }
    ensures memory { OnErr result (result ≡ Err Refusal.NoMemory) }
{
    let len = block.bytes.as_slice().len() as u64;
    let end = block.pos.saturating_add(len).min(base_end);
    match present.insert(Span {
        start: block.pos,
        end,
    }) {
        Ok(()) => {
            blocks.push_reserved(block);
            Ok(())
        }
        Err(_) => Err(Refusal::NoMemory),
    }
}

impl<O: Object> BaseObject<O> {
    /// Pulls until no byte of the span is missing. Each block goes to the end of `blocks`, and
    /// those of its bytes are here then that lie below the base end.
    pub fn read_through(
        &mut self,
        alloc: Global,
        plan: &Plan,
        present: &mut RangeSet,
        span: Span,
        base_end: u64,
        blocks: &mut Vec<Block>,
    ) -> Result<(), Refusal>
        requires chunk { HasChunk plan.now.chunk }
        requires some { span.start < span.end }
        requires within { span.end ≤ base_end }
        requires size { IfSome (held_by self.old.state) (λ held. base_end ≤ held.size) }
        requires ready { IsReady self.old.state ⊎ AllHere (has present.old) span base_end }
        ensures ok { OnOk result (AllHere (has present.new) span base_end) }
        ensures asks { (asks : List Ask) →
            AreAsks plan.now span base_end (has present.old) self.old.crew asks →
            Reads asks (progress_of self.old) (progress_of self.new) result }
        ensures here { (asks : List Ask) →
            AreAsks plan.now span base_end (has present.old) self.old.crew asks →
            OnOk result ((p : ℕ) →
            has present.new p ≡ here_in_the_end asks base_end (has present.old) p) }
        ensures blocks { AddsBlocks (IsBlock O.tells (bytes_of self.old.object) base_end)
            base_end (has present.old) (has present.new) blocks.old.items blocks.new.items }
        ensures object { IsLaterOf self.old.object self.new.object }
        ensures state { Loses result self.old.state self.new.state }
        ensures causes { IfErr result (λ why. IsPullCause self.old self.new why) }
    {
        loop {
            match self.read_next(alloc, plan, present, span, base_end, blocks) {
                Ok(true) => {}
                Ok(false) => return Ok(()),
                Err(why) => return Err(why),
            }
        }
    }

    /// Pulls one block, and tells whether there was one to pull.
    fn read_next(
        &mut self,
        alloc: Global,
        plan: &Plan,
        present: &mut RangeSet,
        span: Span,
        base_end: u64,
        blocks: &mut Vec<Block>,
    ) -> Result<bool, Refusal>
        requires chunk { HasChunk plan.now.chunk }
        requires some { span.start < span.end }
        requires within { span.end ≤ base_end }
        requires size { IfSome (held_by self.old.state) (λ held. base_end ≤ held.size) }
        requires ready { IsReady self.old.state ⊎ AllHere (has present.old) span base_end }
        ensures asks { (asks : List Ask) →
            AreAsks plan.now span base_end (has present.old) self.old.crew asks →
            ReadsNext plan.now span base_end asks (has present.old) (has present.new)
            (progress_of self.old) (progress_of self.new) result }
        ensures done { result ≡ Ok false → AllHere (has present.new) span base_end }
        ensures fewer { result ≡ Ok true →
            pulls_left (has present.new) span base_end self.new.crew
            < pulls_left (has present.old) span base_end self.old.crew }
        ensures blocks { AddsBlocks (IsBlock O.tells (bytes_of self.old.object) base_end)
            base_end (has present.old) (has present.new) blocks.old.items blocks.new.items }
        ensures object { IsLaterOf self.old.object self.new.object }
        ensures state { Loses result self.old.state self.new.state }
        ensures causes { IfErr result (λ why. IsPullCause self.old self.new why) }
    {
        let Ok(()) = blocks.reserve(1) else {
            return Err(Refusal::NoMemory);
        };
        match self.pull(alloc, plan, present, span, base_end) {
            Ok(found) => match found {
                Some(block) => match keep(present, base_end, blocks, block) {
                    Ok(()) => Ok(true),
                    Err(why) => Err(why),
                },
                None => Ok(false),
            },
            Err(why) => Err(why),
        }
    }
}
