ghost use Rattle.std.specs.Prelude.{◌≡◌, ℕ, ◌+◌, ◌<◌, ◌≤◌, ◌↔◌, not, ◌&&◌, ◌||◌, nat_lt, List, [], ◌∷◌, ◌++◌, length, take, drop, IfOk, OnOk, OnErr, IsTrue};
ghost use Rattle.std.specs.List.{All, AllAdjacentBelow};
ghost use Rattle.byte_ranges.specs.Ranges.{is_in, has, lacks, IsCanonical, Covers, IsFirstRunIn, total_length, count_below, IsBelow, kept};

use crate::Span;
use crate::search::{ending_below, first_gap, first_run, spans_from, starting_by};
use std::alloc::{AllocError, Global};
use std::marker::Model;

/// A set of bytes: contracts see its one list of spans that are sorted, disjoint and don't touch.
///
/// A look-up costs a binary search, and so does an `insert` at the end or into one span.
#[derive(Debug, Drop)]
pub struct RangeSet {
    spans: Vec<Span>,
}

impl Model for RangeSet {
    ghost use Rattle.std.specs.Prelude.{List};
    ghost use Rattle.byte_ranges.specs.declared.Span.{Span};
    ghost use Rattle.byte_ranges.specs.Ranges.{IsCanonical};

    ghost Value = { List Span };

    ghost view = { λ set. set.spans.items };

    ghost invariant = { λ set. IsCanonical set.spans.items };
}

impl RangeSet {
    /// The empty set. It takes no memory.
    pub fn new(alloc: Global) -> RangeSet
        ensures { result ≡ [] }
    {
        RangeSet {
            spans: Vec::new(alloc),
        }
    }

    /// The set of the bytes of these spans, whose list it keeps. `is_canonical` tests for it.
    pub fn from_spans(spans: Vec<Span>) -> RangeSet
        requires { IsCanonical spans.items }
        ensures { result ≡ spans.items }
    {
        RangeSet { spans }
    }

    /// An equal set.
    pub fn copy(&self) -> Result<RangeSet, AllocError>
        ensures { IfOk result (λ copy. copy ≡ self.now) }
    {
        let alloc = *self.spans.allocator();
        let spans = Vec::from_slice(alloc, &self.spans)?;
        Ok(RangeSet { spans })
    }

    /// The spans in order.
    pub fn spans(&self) -> &[Span]
        ensures list { result.now ≡ self.now }
        ensures canonical { IsCanonical self.now }
    {
        &self.spans
    }

    /// Adds the span's bytes.
    pub fn insert(&mut self, span: Span) -> Result<(), AllocError>
        requires { span.start < span.end }
        ensures union { OnOk result ((p : ℕ) → has self.new p ≡ (has self.old p || is_in span p)) }
        ensures err { OnErr result (self.new ≡ self.old) }
        ensures canonical { IsCanonical self.new }
    {
        let from = ending_below(&self.spans, span.start);
        let to = starting_by(&self.spans, span.end);
        if from < to {
            let start = span.start.min(self.spans[from].start);
            let end = span.end.max(self.spans[to - 1].end);
            replace(&mut self.spans, from, to, Span { start, end });
        } else {
            self.spans.insert(from, span)?;
        }
        Ok(())
    }

    /// Takes the span's bytes away.
    pub fn remove(&mut self, span: Span) -> Result<(), AllocError>
        requires { span.start < span.end }
        ensures difference { OnOk result ((p : ℕ) →
            has self.new p ≡ (has self.old p && not (is_in span p))) }
        ensures err { OnErr result (self.new ≡ self.old) }
        ensures canonical { IsCanonical self.new }
    {
        let from = ending_below(&self.spans, span.start + 1);
        let to = starting_by(&self.spans, span.end - 1);
        if to <= from {
            return Ok(());
        }
        let before = Span {
            start: self.spans[from].start,
            end: span.start,
        };
        let after = Span {
            start: span.end,
            end: self.spans[to - 1].end,
        };
        leave(&mut self.spans, from, to, before, after)
    }

    /// Takes all bytes from `n` on away.
    pub fn cut(&mut self, n: u64)
        ensures below { (p : ℕ) → has self.new p ≡ (has self.old p && nat_lt p n) }
        ensures canonical { IsCanonical self.new }
    {
        let Some(last) = n.checked_sub(1) else {
            self.spans.clear();
            return;
        };
        let kept = starting_by(&self.spans, last);
        self.spans.truncate(kept);
        if kept > 0 {
            let end = self.spans[kept - 1].end;
            self.spans[kept - 1].end = end.min(n);
        }
    }

    /// Whether all of the span's bytes are here.
    pub fn covers(&self, span: Span) -> bool
        requires { span.start < span.end }
        ensures { IsTrue result ↔ Covers self.now span }
    {
        self.first_missing(span).is_none()
    }

    /// The first of the span's longest runs of bytes that aren't here.
    pub fn first_missing(&self, span: Span) -> Option<Span>
        requires { span.start < span.end }
        ensures first { IsFirstRunIn (lacks self.now) span result }
    {
        first_gap(spans_from(&self.spans, span.start), span)
    }

    /// The first of the span's longest runs of bytes that are here.
    pub fn first_present(&self, span: Span) -> Option<Span>
        requires { span.start < span.end }
        ensures first { IsFirstRunIn (has self.now) span result }
    {
        first_run(spans_from(&self.spans, span.start), span)
    }

    /// How many bytes are here. It costs a walk over the spans.
    pub fn count(&self) -> u64
        ensures lengths { result ≡ total_length self.now }
        ensures bytes { (n : ℕ) → IsBelow n self.now → result ≡ count_below self.now n }
    {
        let mut count = 0;
        for span in &self.spans {
            count += span.end - span.start;
        }
        count
    }
}

// One span in the place of those from `from` on and before `to`.
fn replace(spans: &mut Vec<Span>, from: usize, to: usize, span: Span)
    requires some { from < to }
    requires within { to ≤ length spans.old.items }
    ensures { spans.new.items ≡ take from spans.old.items ++ span ∷ drop to spans.old.items }
{
    spans[from] = span;
    if from + 1 < to {
        spans.drain(from + 1..to);
    }
}

// Leaves these two, where they aren't empty, of the spans from `from` on and before `to`.
fn leave(
    spans: &mut Vec<Span>,
    from: usize,
    to: usize,
    before: Span,
    after: Span,
) -> Result<(), AllocError>
    requires some { from < to }
    requires within { to ≤ length spans.old.items }
    ensures ok { OnOk result (spans.new.items ≡
        take from spans.old.items ++ (kept before ++ (kept after ++ drop to spans.old.items))) }
    ensures err { OnErr result (spans.new.items ≡ spans.old.items) }
{
    match (before.start < before.end, after.start < after.end) {
        (true, true) if to - from == 1 => {
            spans.insert(to, after)?;
            spans[from] = before;
        }
        (true, true) => {
            replace(spans, from + 1, to, after);
            spans[from] = before;
        }
        (true, false) => replace(spans, from, to, before),
        (false, true) => replace(spans, from, to, after),
        (false, false) => {
            spans.drain(from..to);
        }
    }
    Ok(())
}

/// Whether the spans are sorted, disjoint, not touching and not empty.
pub fn is_canonical(spans: &[Span]) -> bool
    ensures { IsTrue result ↔ IsCanonical spans.now }
{
    none_empty(spans) && none_touching(spans)
}

fn none_empty(spans: &[Span]) -> bool
    ensures { IsTrue result ↔ All (λ span. span.start < span.end) spans.now }
{
    spans.iter().all(|span| span.start < span.end)
}

fn none_touching(spans: &[Span]) -> bool
    ensures { IsTrue result ↔
        AllAdjacentBelow (λ a b. a.end < b.start) spans.now (length spans.now) }
{
    spans.is_sorted_by(|a, b| a.end < b.start)
}

/// A law: two sets with the same bytes have the same list.
pub fn law_one_list(a: &RangeSet, b: &RangeSet)
    ensures { ((p : ℕ) → has a.now p ≡ has b.now p) → a.now ≡ b.now }
{
    let _ = &a.spans;
    let _ = &b.spans;
}
