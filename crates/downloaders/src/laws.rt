// Laws of the rules: each is the contract of a function that does nothing.
ghost use Rattle.std.specs.Prelude.{◌≡◌, ℕ, ◌+◌, ◌*◌, ◌^◌, ◌<◌, ◌≤◌, Bool, false, List, Some, length};
ghost use Rattle.std.specs.List.{All};
ghost use Rattle.byte_ranges.specs.Ranges.{has};
ghost use Rattle.downloaders.specs.declared.Ask.{Ask};
ghost use Rattle.downloaders.specs.Rules.{HasChunk, AllHere, AreAsks};
ghost use Rattle.downloaders.specs.Orders.{requests_in, here_in_the_end, StartAbsent, AreReads, last_end, Tiles, no_one, doubling};

use crate::{Crew, Plan};
use byte_ranges::{RangeSet, Span};

/// A law: the rules make one list of asks, which ends, and then all bytes of the span below the
/// base end are here.
pub fn law_asks_end(crew: &Crew, plan: &Plan, present: &RangeSet, span: Span, base_end: u64)
    requires { HasChunk plan.now.chunk }
    ensures ends { (asks : List Ask) ×
        AreAsks plan.now span base_end (has present.now) crew.now asks }
    ensures one { (a b : List Ask) →
        AreAsks plan.now span base_end (has present.now) crew.now a →
        AreAsks plan.now span base_end (has present.now) crew.now b → a ≡ b }
    ensures here { (asks : List Ask) →
        AreAsks plan.now span base_end (has present.now) crew.now asks →
        AllHere (here_in_the_end asks base_end (has present.now)) span base_end }
{
    let _crew = crew.is_direct();
}

/// A law: requests have a byte and end by the base end, and each starts at a byte that isn't here
/// when it is made.
pub fn law_requests(crew: &Crew, plan: &Plan, present: &RangeSet, span: Span, base_end: u64)
    requires { HasChunk plan.now.chunk }
    ensures within { (asks : List Ask) →
        AreAsks plan.now span base_end (has present.now) crew.now asks →
        All (λ r. (r.0 < r.1) × (r.1 ≤ base_end)) (requests_in asks) }
    ensures absent { (asks : List Ask) →
        AreAsks plan.now span base_end (has present.now) crew.now asks →
        StartAbsent base_end (has present.now) asks }
{
    let _crew = crew.is_direct();
}

/// A law: reads one after another, from an object's start to its end, make requests that cover it
/// once and without overlap.
pub fn law_in_order(plan: &Plan, size: u64)
    requires { HasChunk plan.now.chunk }
    ensures { (direct : Bool) (ends : List ℕ) (asks : List Ask) →
        AreReads plan.now size (λ p. false) (no_one direct) 0 ends asks →
        last_end 0 ends ≡ size → Tiles 0 size (requests_in asks) }
{
    let _of = (plan.chunk, size);
}

/// A law: where the limit is off, the number of requests of such reads grows with the logarithm
/// of the object's size over the chunk.
pub fn law_few_requests(chunk: u64, size: u64)
    requires some { 1 ≤ chunk }
    requires most { size ≤ 2 ^ 40 }
    ensures { (direct : Bool) (ends : List ℕ) (asks : List Ask) →
        AreReads (doubling chunk) size (λ p. false) (no_one direct) 0 ends asks →
        chunk * 2 ^ length (requests_in asks) < 2 * (size + chunk) }
{
    let _of = (chunk, size);
}
