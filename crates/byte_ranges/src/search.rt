// Binary searches in a list of spans.
ghost use Rattle.std.specs.Prelude.{◌≡◌, ℕ, ◌-◌, ◌^◌, ◌<◌, ◌≤◌, length, take, drop};
ghost use Rattle.std.specs.List.{All};
ghost use Rattle.byte_ranges.specs.Ranges.{has, lacks, IsCanonical, IsFirstRunIn};

use crate::Span;

// How many of the spans end below `n`.
pub(crate) fn ending_below(spans: &[Span], n: u64) -> usize
    requires { IsCanonical spans.now }
    ensures bound { result ≤ length spans.now }
    ensures front { All (λ span. span.end < n) (take result spans.now) }
    ensures back { All (λ span. n ≤ span.end) (drop result spans.now) }
{
    spans.partition_point(|span| span.end < n)
}

// How many of the spans start at `n` or below.
pub(crate) fn starting_by(spans: &[Span], n: u64) -> usize
    requires { IsCanonical spans.now }
    ensures bound { result ≤ length spans.now }
    ensures front { All (λ span. span.start ≤ n) (take result spans.now) }
    ensures back { All (λ span. n < span.start) (drop result spans.now) }
{
    spans.partition_point(|span| span.start <= n)
}

// The spans with a byte at `n` or later.
pub(crate) fn spans_from(spans: &[Span], n: u64) -> &[Span]
    requires canonical { IsCanonical spans.now }
    requires before_last { n < 2 ^ 64 - 1 }
    ensures canonical { IsCanonical result.now }
    ensures ends { All (λ span. n < span.end) result.now }
    ensures same { (p : ℕ) → n ≤ p → has result.now p ≡ has spans.now p }
{
    let at = ending_below(spans, n + 1);
    &spans[at..]
}

// The first run of the span's bytes that none of these spans has.
pub(crate) fn first_gap(spans: &[Span], span: Span) -> Option<Span>
    requires canonical { IsCanonical spans.now }
    requires ends { All (λ s. span.start < s.end) spans.now }
    requires some { span.start < span.end }
    ensures { IsFirstRunIn (lacks spans.now) span result }
{
    match spans {
        [] => Some(span),
        [here, ..] if span.start < here.start => Some(Span {
            start: span.start,
            end: here.start.min(span.end),
        }),
        [here, ..] if span.end <= here.end => None,
        [here] => Some(Span {
            start: here.end,
            end: span.end,
        }),
        [here, next, ..] => Some(Span {
            start: here.end,
            end: next.start.min(span.end),
        }),
    }
}

// The first run of the span's bytes that one of these spans has.
pub(crate) fn first_run(spans: &[Span], span: Span) -> Option<Span>
    requires canonical { IsCanonical spans.now }
    requires ends { All (λ s. span.start < s.end) spans.now }
    requires some { span.start < span.end }
    ensures { IsFirstRunIn (has spans.now) span result }
{
    match spans {
        [here, ..] if here.start < span.end => Some(Span {
            start: here.start.max(span.start),
            end: here.end.min(span.end),
        }),
        _ => None,
    }
}
