ghost use Rattle.std.specs.Prelude.{IfOk};
ghost use Rattle.item_meta.specs.InRange.{IsMeta};

use crate::{adopted, cut_to, fetched, fresh, grown, renamed, uploaded, without_intent};
use byte_ranges::Span;
use item_meta::{Meta, write_meta};
use std::alloc::Global;
use std::process::Abort;
use std::test::Fail;
use vfs_names::{Blob, Fingerprint, VPath};

#[derive(Clone, Copy)]
enum Step {
    Write(u64, &'static [u8]),
    Done,
    Cut(u64),
    Fetch(u64, u64),
    Move(&'static str),
    Upload(u64),
}

fn written(alloc: Global, meta: &Meta, now: u64, pos: u64, bytes: &[u8]) -> Result<Meta, Fail>
    requires { IsMeta meta.now }
    ensures { IfOk result IsMeta }
{
    if bytes.is_empty() || bytes.len() > 10 || pos > 10 {
        return Err(Fail::from("no such write"));
    }
    let bytes = Blob::from_slice(alloc, bytes)?;
    let next = grown(alloc, meta, now, pos, bytes)?;
    Ok(next)
}

fn here(alloc: Global, meta: &Meta, start: u64, end: u64) -> Result<Meta, Fail>
    requires { IsMeta meta.now }
    ensures { IfOk result IsMeta }
{
    if start >= end || end > meta.size {
        return Err(Fail::from("no such span"));
    }
    let next = fetched(alloc, meta, Span { start, end })?;
    Ok(next)
}

fn moved(alloc: Global, meta: &Meta, path: &str) -> Result<Meta, Fail>
    requires { IsMeta meta.now }
    ensures { IfOk result IsMeta }
{
    let path = VPath::parse(alloc, path)?;
    if path.is_root() {
        return Err(Fail::from("the root"));
    }
    let next = renamed(alloc, meta, path)?;
    Ok(next)
}

fn stored(alloc: Global, meta: &Meta, mtime: u64) -> Result<Meta, Fail>
    requires { IsMeta meta.now }
    ensures { IfOk result IsMeta }
{
    let print = Fingerprint {
        size: meta.size,
        mtime,
        rev: 1,
    };
    let next = uploaded(alloc, meta, print)?;
    Ok(next)
}

fn cut(alloc: Global, meta: &Meta, now: u64, size: u64) -> Result<Meta, Fail>
    requires { IsMeta meta.now }
    ensures { IfOk result IsMeta }
{
    if size > 100 {
        return Err(Fail::from("no such size"));
    }
    let next = cut_to(alloc, meta, now, size)?;
    Ok(next)
}

fn after(alloc: Global, mut meta: Meta, now: u64, step: Step) -> Result<Meta, Fail>
    requires { IsMeta meta }
    ensures { IfOk result IsMeta }
{
    match step {
        Step::Write(pos, bytes) => written(alloc, &meta, now, pos, bytes),
        Step::Done => {
            without_intent(&mut meta);
            Ok(meta)
        }
        Step::Cut(size) => cut(alloc, &meta, now, size),
        Step::Fetch(start, end) => here(alloc, &meta, start, end),
        Step::Move(path) => moved(alloc, &meta, path),
        Step::Upload(mtime) => stored(alloc, &meta, mtime),
    }
}

// Compares the text of the metadata after each step.
fn follow(
    rt: &impl Abort,
    alloc: Global,
    mut meta: Meta,
    table: &[(u64, Step, &str)],
) -> Result<(), Fail>
    requires { IsMeta meta }
{
    for (now, step, wanted) in table {
        meta = after(alloc, meta, *now, *step)?;
        let text = write_meta(alloc, &meta)?;
        assert_eq!(rt; text.as_slice(), wanted.as_bytes(), "{now}");
    }
    Ok(())
}

#[test]
fn a_file_is_made_written_cut_moved_and_uploaded(rt: HostRuntime) -> Result<(), Fail> {
    let path = VPath::parse(rt.alloc(), "a.txt")?;
    if path.is_root() {
        return Err(Fail::from("the root"));
    }
    let table = [
        (
            10,
            Step::Cut(0),
            r#"{"atime":10,"base":null,"base_end":0,"dirty":true,"intent":null,"mtime":10,"path":"a.txt","ranges":[],"size":0,"v":1}"#,
        ),
        (
            20,
            Step::Write(0, b"hello"),
            r#"{"atime":20,"base":null,"base_end":0,"dirty":true,"intent":{"bytes":"68656c6c6f","pos":0},"mtime":20,"path":"a.txt","ranges":[[0,5]],"size":5,"v":1}"#,
        ),
        (
            20,
            Step::Done,
            r#"{"atime":20,"base":null,"base_end":0,"dirty":true,"intent":null,"mtime":20,"path":"a.txt","ranges":[[0,5]],"size":5,"v":1}"#,
        ),
        (
            30,
            Step::Cut(2),
            r#"{"atime":30,"base":null,"base_end":0,"dirty":true,"intent":null,"mtime":30,"path":"a.txt","ranges":[[0,2]],"size":2,"v":1}"#,
        ),
        (
            40,
            Step::Write(6, b"x"),
            r#"{"atime":40,"base":null,"base_end":0,"dirty":true,"intent":{"bytes":"78","pos":6},"mtime":40,"path":"a.txt","ranges":[[0,2],[6,7]],"size":7,"v":1}"#,
        ),
        (
            50,
            Step::Fetch(2, 6),
            r#"{"atime":40,"base":null,"base_end":0,"dirty":true,"intent":null,"mtime":40,"path":"a.txt","ranges":[[0,7]],"size":7,"v":1}"#,
        ),
        (
            60,
            Step::Move("d/b"),
            r#"{"atime":40,"base":null,"base_end":0,"dirty":true,"intent":null,"mtime":40,"path":"d/b","ranges":[[0,7]],"size":7,"v":1}"#,
        ),
        (
            70,
            Step::Upload(65),
            r#"{"atime":40,"base":{"mtime":65,"rev":1,"size":7},"base_end":7,"dirty":false,"intent":null,"mtime":40,"path":"d/b","ranges":[[0,7]],"size":7,"v":1}"#,
        ),
    ];
    follow(&rt, rt.alloc(), fresh(rt.alloc(), path, 1), &table)
}

#[test]
fn an_object_is_taken_fetched_written_over_and_cut(rt: HostRuntime) -> Result<(), Fail> {
    let path = VPath::parse(rt.alloc(), "o")?;
    if path.is_root() {
        return Err(Fail::from("the root"));
    }
    let print = Fingerprint {
        size: 10,
        mtime: 7,
        rev: 1,
    };
    let table = [
        (
            10,
            Step::Done,
            r#"{"atime":5,"base":{"mtime":7,"rev":1,"size":10},"base_end":10,"dirty":false,"intent":null,"mtime":7,"path":"o","ranges":[],"size":10,"v":1}"#,
        ),
        (
            10,
            Step::Fetch(0, 4),
            r#"{"atime":5,"base":{"mtime":7,"rev":1,"size":10},"base_end":10,"dirty":false,"intent":null,"mtime":7,"path":"o","ranges":[[0,4]],"size":10,"v":1}"#,
        ),
        (
            20,
            Step::Write(3, b"XY"),
            r#"{"atime":20,"base":{"mtime":7,"rev":1,"size":10},"base_end":10,"dirty":true,"intent":{"bytes":"5859","pos":3},"mtime":20,"path":"o","ranges":[[0,5]],"size":10,"v":1}"#,
        ),
        (
            30,
            Step::Cut(4),
            r#"{"atime":30,"base":{"mtime":7,"rev":1,"size":10},"base_end":4,"dirty":true,"intent":null,"mtime":30,"path":"o","ranges":[[0,4]],"size":4,"v":1}"#,
        ),
        (
            40,
            Step::Cut(12),
            r#"{"atime":40,"base":{"mtime":7,"rev":1,"size":10},"base_end":4,"dirty":true,"intent":null,"mtime":40,"path":"o","ranges":[[0,4]],"size":12,"v":1}"#,
        ),
        (
            50,
            Step::Cut(0),
            r#"{"atime":50,"base":{"mtime":7,"rev":1,"size":10},"base_end":0,"dirty":true,"intent":null,"mtime":50,"path":"o","ranges":[],"size":0,"v":1}"#,
        ),
    ];
    follow(&rt, rt.alloc(), adopted(rt.alloc(), path, print, 5), &table)
}
