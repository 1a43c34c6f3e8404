// One reader for each field. Each asks that the fields before it are right.
ghost use Rattle.std.specs.Prelude.{◌≡◌, ℕ, ◌≤◌, List, Some, None, IfSome, IfNone, IfOk, IsTrue, ◌↔◌, option_map};
ghost use Rattle.std.specs.List.{All};
ghost use Rattle.serde_json.specs.View.{view, items_view};
ghost use Rattle.vfs_names.specs.declared.fingerprint.Fingerprint.{Fingerprint as ThePrint};
ghost use Rattle.item_meta.specs.InRange.{base_size as size_of_base, IsAllBase, ArePresent};
ghost use Rattle.item_meta.specs.Object.{value_at, number_in, IsPrintIn, span_in, all_spans};
ghost use Rattle.item_meta.specs.Rows.{IsPathRow, IsSizeRow, IsBaseRow, IsBaseEndRow, IsRangesRow, IsDirtyRow};
ghost use Rattle.item_meta.specs.Value.{IsRead};

use crate::object::{has_only, number_at, text_at, truth_at};
use crate::{Field, MetaError};
use byte_ranges::{RangeSet, Span, is_canonical};
use serde_json::Value;
use std::alloc::Global;
use vfs_names::{Fingerprint, NameError, NoMemory, VPath};

/// The largest size of a file, in bytes.
const MAX_SIZE: u64 = 1 << 40;

pub(crate) fn path_of(alloc: Global, value: &Value) -> Result<VPath, MetaError>
    ensures { IsRead Field.Path (IsPathRow (Some (view value.now))) result }
{
    let Some(text) = text_at(value, "path") else {
        return Err(MetaError::BadMeta(Field::Path));
    };
    if text.is_empty() {
        return Err(MetaError::BadMeta(Field::Path));
    }
    match VPath::parse(alloc, text) {
        Ok(path) => Ok(path),
        Err(NameError::BadName) => Err(MetaError::BadMeta(Field::Path)),
        Err(NameError::NoMemory) => Err(MetaError::NoMemory),
    }
}

pub(crate) fn size_of(value: &Value) -> Result<u64, MetaError>
    ensures { IsRead Field.Size (IsSizeRow (Some (view value.now))) result }
{
    let Some(size) = number_at(value, "size") else {
        return Err(MetaError::BadMeta(Field::Size));
    };
    if size > MAX_SIZE {
        return Err(MetaError::BadMeta(Field::Size));
    }
    Ok(size)
}

pub(crate) fn base_of(value: &Value) -> Result<Option<Fingerprint>, MetaError>
    ensures { IsRead Field.Base (IsBaseRow (Some (view value.now))) result }
{
    let Some(base) = value.get("base") else {
        return Err(MetaError::BadMeta(Field::Base));
    };
    if base.is_null() {
        return Ok(None);
    }
    let Some(print) = print_of(base) else {
        return Err(MetaError::BadMeta(Field::Base));
    };
    if print.size > MAX_SIZE {
        return Err(MetaError::BadMeta(Field::Base));
    }
    Ok(Some(print))
}

/// The fingerprint that the object tells, or None where it tells none.
fn print_of(base: &Value) -> Option<Fingerprint>
    ensures found { IfSome result (IsPrintIn (Some (view base.now))) }
    ensures none { IfNone result
        ((print : ThePrint) → ¬ IsPrintIn (Some (view base.now)) print) }
{
    if !has_only(base, &["mtime", "rev", "size"]) {
        return None;
    }
    let mtime = number_at(base, "mtime")?;
    let rev = number_at(base, "rev")?;
    let size = number_at(base, "size")?;
    Some(Fingerprint { size, mtime, rev })
}

pub(crate) fn base_end_of(
    value: &Value,
    size: u64,
    base: Option<Fingerprint>,
) -> Result<u64, MetaError>
    ensures { IsRead Field.BaseEnd (IsBaseEndRow (Some (view value.now)) size base) result }
{
    let Some(base_end) = number_at(value, "base_end") else {
        return Err(MetaError::BadMeta(Field::BaseEnd));
    };
    if base_end > size || base_end > base_size(base) {
        return Err(MetaError::BadMeta(Field::BaseEnd));
    }
    Ok(base_end)
}

fn base_size(base: Option<Fingerprint>) -> u64
    ensures { result ≡ size_of_base base }
{
    match base {
        Some(print) => print.size,
        None => 0,
    }
}

pub(crate) fn ranges_of(alloc: Global, value: &Value, size: u64) -> Result<RangeSet, MetaError>
    ensures { IsRead Field.Ranges (IsRangesRow (Some (view value.now)) size) result }
{
    let Some(ranges) = value.get("ranges") else {
        return Err(MetaError::BadMeta(Field::Ranges));
    };
    let Some(items) = ranges.as_array() else {
        return Err(MetaError::BadMeta(Field::Ranges));
    };
    let Ok(found) = spans_of(alloc, items) else {
        return Err(MetaError::NoMemory);
    };
    let Some(spans) = found else {
        return Err(MetaError::BadMeta(Field::Ranges));
    };
    if !are_present(&spans, size) {
        return Err(MetaError::BadMeta(Field::Ranges));
    }
    Ok(RangeSet::from_spans(spans))
}

/// The spans of the list, or None where an item is no span.
fn spans_of(alloc: Global, items: &[Value]) -> Result<Option<Vec<Span>>, NoMemory>
    ensures { IfOk result (λ found. option_map (λ spans. spans.items) found
        ≡ all_spans (items_view items.now)) }
{
    let mut spans = Vec::new(alloc);
    for item in items {
        let Some(span) = span_of(item) else {
            return Ok(None);
        };
        let Ok(()) = spans.push(span) else {
            return Err(NoMemory);
        };
    }
    Ok(Some(spans))
}

fn span_of(item: &Value) -> Option<Span>
    ensures { result ≡ span_in (view item.now) }
{
    if item.get(2usize).is_some() {
        return None;
    }
    let start = item.get(0usize).and_then(Value::as_u64)?;
    let end = item.get(1usize).and_then(Value::as_u64)?;
    Some(Span { start, end })
}

/// Whether the spans are sorted, don't touch and end by `size`.
fn are_present(spans: &[Span], size: u64) -> bool
    ensures { IsTrue result ↔ ArePresent size spans.now }
{
    is_canonical(spans) && end_by(spans, size)
}

/// Whether no span ends past `size`.
fn end_by(spans: &[Span], size: u64) -> bool
    ensures { IsTrue result ↔ All (λ span. span.end ≤ size) spans.now }
{
    spans.iter().all(|span| span.end <= size)
}

pub(crate) fn dirty_of(
    value: &Value,
    size: u64,
    base: Option<Fingerprint>,
    base_end: u64,
) -> Result<bool, MetaError>
    ensures { IsRead Field.Dirty (IsDirtyRow (Some (view value.now)) size base base_end) result }
{
    let Some(dirty) = truth_at(value, "dirty") else {
        return Err(MetaError::BadMeta(Field::Dirty));
    };
    if !dirty && !is_all_base(size, base, base_end) {
        return Err(MetaError::BadMeta(Field::Dirty));
    }
    Ok(dirty)
}

/// Whether the file is all of its base, and no more.
fn is_all_base(size: u64, base: Option<Fingerprint>, base_end: u64) -> bool
    ensures { IsTrue result ↔ IsAllBase size base base_end }
{
    match base {
        Some(print) => size == print.size && base_end == print.size,
        None => false,
    }
}

/// The moment at the key, in milliseconds.
pub(crate) fn moment_of(value: &Value, key: &str, field: Field) -> Result<u64, MetaError>
    ensures { IsRead field
        (λ n. number_in (value_at key.now (Some (view value.now))) ≡ Some n) result }
{
    number_at(value, key).ok_or(MetaError::BadMeta(field))
}
