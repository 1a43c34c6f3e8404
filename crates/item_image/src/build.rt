ghost use Rattle.std.specs.Prelude.{◌≡◌, ◌≢◌, ◌+◌, ◌<◌, ◌≤◌, ◌^◌, [], length, IfOk};
ghost use Rattle.item_meta.specs.InRange.{IsMeta};
ghost use Rattle.item_image.specs.Next.{IsCut, IsFetched, IsGrown, adopted_meta, fresh_meta, renamed_meta, settled_meta, uploaded_meta};

use byte_ranges::{RangeSet, Span};
use item_meta::{Intent, Meta};
use std::alloc::Global;
use vfs_names::{Blob, Fingerprint, NoMemory, VPath};

/// The metadata of a file that is made here. Takes no memory.
pub fn fresh(alloc: Global, path: VPath, now: u64) -> Meta
    requires file { path ≢ [] }
    ensures meta { result ≡ fresh_meta path now }
    ensures fits { IsMeta result }
{
    Meta {
        path,
        size: 0,
        base_end: 0,
        ranges: RangeSet::new(alloc),
        base: None,
        dirty: true,
        mtime: now,
        atime: now,
        intent: None,
    }
}

/// The metadata of a file that is an object, of which nothing is here. Takes no memory.
pub fn adopted(alloc: Global, path: VPath, print: Fingerprint, now: u64) -> Meta
    requires file { path ≢ [] }
    requires size { print.size ≤ 2 ^ 40 }
    ensures meta { result ≡ adopted_meta path print now }
    ensures fits { IsMeta result }
{
    Meta {
        path,
        size: print.size,
        base_end: print.size,
        ranges: RangeSet::new(alloc),
        base: Some(print),
        dirty: false,
        mtime: print.mtime,
        atime: now,
        intent: None,
    }
}

/// The same metadata, with nothing pending.
fn copied(alloc: Global, meta: &Meta) -> Result<Meta, NoMemory>
    requires old { IsMeta meta.now }
    ensures meta { IfOk result (λ new. new ≡ settled_meta meta.now) }
    ensures fits { IfOk result IsMeta }
{
    Ok(Meta {
        path: meta.path.copy(alloc)?,
        size: meta.size,
        base_end: meta.base_end,
        ranges: meta.ranges.copy()?,
        base: meta.base,
        dirty: meta.dirty,
        mtime: meta.mtime,
        atime: meta.atime,
        intent: None,
    })
}

/// The metadata after a write, whose bytes are an intent.
pub fn grown(alloc: Global, meta: &Meta, now: u64, pos: u64, bytes: Blob) -> Result<Meta, NoMemory>
    requires old { IsMeta meta.now }
    requires some { 0 < length bytes }
    requires most { length bytes ≤ 131072 }
    requires end { pos + length bytes ≤ 2 ^ 40 }
    ensures meta { IfOk result (λ new. IsGrown pos bytes now meta.now new) }
    ensures fits { IfOk result IsMeta }
{
    let end = pos + bytes.as_slice().len() as u64;
    let mut next = copied(alloc, meta)?;
    next.ranges.insert(Span { start: pos, end })?;
    next.size = meta.size.max(end);
    next.dirty = true;
    next.mtime = now;
    next.atime = now;
    next.intent = Some(Intent { pos, bytes });
    Ok(next)
}

/// The metadata after the size is set.
pub fn cut_to(alloc: Global, meta: &Meta, now: u64, size: u64) -> Result<Meta, NoMemory>
    requires old { IsMeta meta.now }
    requires end { size ≤ 2 ^ 40 }
    ensures meta { IfOk result (λ new. IsCut size now meta.now new) }
    ensures fits { IfOk result IsMeta }
{
    let mut next = copied(alloc, meta)?;
    next.ranges.cut(size);
    next.size = size;
    next.base_end = size.min(meta.base_end);
    next.dirty = true;
    next.mtime = now;
    next.atime = now;
    Ok(next)
}

/// The metadata with the span's bytes there as well.
pub fn fetched(alloc: Global, meta: &Meta, span: Span) -> Result<Meta, NoMemory>
    requires old { IsMeta meta.now }
    requires some { span.start < span.end }
    requires within { span.end ≤ meta.now.size }
    ensures meta { IfOk result (λ new. IsFetched span meta.now new) }
    ensures fits { IfOk result IsMeta }
{
    let mut next = copied(alloc, meta)?;
    next.ranges.insert(span)?;
    Ok(next)
}

/// The metadata of the file at another path.
pub fn renamed(alloc: Global, meta: &Meta, path: VPath) -> Result<Meta, NoMemory>
    requires old { IsMeta meta.now }
    requires file { path ≢ [] }
    ensures meta { IfOk result (λ new. new ≡ renamed_meta path meta.now) }
    ensures fits { IfOk result IsMeta }
{
    let mut next = copied(alloc, meta)?;
    next.path = path;
    Ok(next)
}

/// The metadata of a file that was uploaded as this object.
pub fn uploaded(alloc: Global, meta: &Meta, print: Fingerprint) -> Result<Meta, NoMemory>
    requires old { IsMeta meta.now }
    requires size { print.size ≡ meta.now.size }
    ensures meta { IfOk result (λ new. new ≡ uploaded_meta print meta.now) }
    ensures fits { IfOk result IsMeta }
{
    let mut next = copied(alloc, meta)?;
    next.base_end = meta.size;
    next.base = Some(print);
    next.dirty = false;
    Ok(next)
}

/// The write that was pending is done. Takes no memory.
pub fn without_intent(meta: &mut Meta)
    requires old { IsMeta meta.old }
    ensures meta { meta.new ≡ settled_meta meta.old }
    ensures fits { IsMeta meta.new }
{
    meta.intent = None;
}
