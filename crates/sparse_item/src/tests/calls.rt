//! The calls on a file, each with its conditions tested first: where one doesn't hold, the call
//! isn't made.
ghost use Rattle.std.specs.Prelude.{◌≡◌, ◌≢◌, ◌<◌, [], true, false, nat_lt, IfOk};
ghost use Rattle.item_core.specs.History.{base_end_of, held_by, is_kept, opens_by};
ghost use Rattle.item_core.specs.Legal.{holds};
ghost use Rattle.sparse_item.specs.Item.{IsSupplied};
ghost use Rattle.downloaders.specs.Rules.{HasChunk};

use crate::{BaseState, ItemBook};
use byte_ranges::Span;
use downloaders::Plan;
use item_core::plain::{is_kept, opens_by};
use std::alloc::Global;
use std::test::Fail;
use vfs_names::{Access, Actor, At, Blob, By, Found, Payload, Refusal, VPath, Who};
use vfs_outside::{CacheFile, Object};

/// What a call answers, or its refusal; or why it wasn't made.
pub type Answer = Result<Result<u64, Refusal>, Fail>;

pub fn by(tree: bool, now: u64) -> By
    ensures pass { result.pass ≡ 0 }
    ensures tree { result.tree ≡ tree }
{
    By {
        who: Who {
            epoch: 0,
            phase: 0,
            actor: Actor::Main,
        },
        pass: 0,
        tree,
        now,
    }
}

/// The path of a file.
pub fn path_of(alloc: Global, text: &str) -> Result<VPath, Fail>
    ensures { IfOk result (λ path. path ≢ []) }
{
    let path = VPath::parse(alloc, text)?;
    if path.is_root() {
        return Err(Fail::from("the root"));
    }
    Ok(path)
}

fn number(done: Result<(), Refusal>) -> Answer {
    match done {
        Ok(()) => Ok(Ok(0)),
        Err(why) => Ok(Err(why)),
    }
}

fn truth(done: Result<bool, Refusal>) -> Answer {
    match done {
        Ok(is) => Ok(Ok(u64::from(is))),
        Err(why) => Ok(Err(why)),
    }
}

fn is_here<O: Object, F: CacheFile>(book: &ItemBook<O, F>) -> bool
    ensures { result ≡ is_kept book.now.log.past }
{
    is_kept(book.entries())
}

fn is_open<O: Object, F: CacheFile>(book: &ItemBook<O, F>) -> bool
    ensures { result ≡ nat_lt 0 (opens_by 0 book.now.log.past) }
{
    opens_by(book.entries(), 0) > 0
}

/// Whether no byte is absent that can't be asked for, nor known to be lost.
fn is_supplied<O: Object, F: CacheFile>(book: &ItemBook<O, F>) -> bool
    ensures { result ≡ true → IsSupplied
        book.now.base.state book.now.here (base_end_of book.now.log.past) }
{
    match book.base_state() {
        BaseState::Bound(_) => true,
        BaseState::Lost { .. } => true,
        BaseState::Absent => book.base_whole(),
        BaseState::Unbound(_) => book.base_whole(),
    }
}

pub fn create<O: Object, F: CacheFile>(
    book: &mut ItemBook<O, F>,
    alloc: Global,
    path: &str,
) -> Answer {
    let path = path_of(alloc, path)?;
    let look = book.look();
    if look.dirty || look.opens > 0 {
        return Err(Fail::from("in use"));
    }
    number(book.create(by(true, 40), path))
}

/// Whether the file holds an object that agrees with this one.
fn agrees<O: Object, F: CacheFile>(book: &ItemBook<O, F>, object: &O) -> bool
    ensures { result ≡ holds (held_by book.now.log.past) (O.print_of object.now) }
{
    match book.held() {
        Some(held) => held.agrees(&object.print()),
        None => false,
    }
}

/// Takes the content of an object, where the file isn't kept or holds none that agrees with it.
pub fn adopt<O: Object, F: CacheFile>(book: &mut ItemBook<O, F>, path: VPath, object: O) -> Answer
    requires { path ≢ [] }
{
    let look = book.look();
    if look.dirty || look.opens > 0 {
        return Err(Fail::from("in use"));
    }
    if !is_here(book) {
        return number(book.adopt(by(true, 40), path, object));
    }
    if agrees(book, &object) {
        return Err(Fail::from("held"));
    }
    number(book.adopt(by(true, 40), path, object))
}

pub fn bind<O: Object, F: CacheFile>(book: &mut ItemBook<O, F>, object: O) -> Answer {
    if !is_here(book) || book.held().is_none() {
        return Err(Fail::from("no base"));
    }
    truth(book.bind(by(true, 40), object))
}

pub fn lose<O: Object, F: CacheFile>(book: &mut ItemBook<O, F>) -> Answer {
    if !is_here(book) || book.held().is_none() {
        return Err(Fail::from("no base"));
    }
    book.lose(Found::Missing);
    Ok(Ok(0))
}

pub fn open_handle<O: Object, F: CacheFile>(book: &mut ItemBook<O, F>) -> Answer {
    if !is_here(book) || !is_supplied(book) {
        return Err(Fail::from("not kept"));
    }
    number(book.open_handle(by(true, 41), Access::Both))
}

pub fn close<O: Object, F: CacheFile>(book: &mut ItemBook<O, F>) -> Answer {
    if !is_open(book) {
        return Err(Fail::from("not open"));
    }
    Ok(Ok(u64::from(book.close_handle(by(true, 43)))))
}

pub fn write<O: Object, F: CacheFile>(
    book: &mut ItemBook<O, F>,
    at: At,
    payload: Payload,
) -> Answer {
    if !is_open(book) {
        return Err(Fail::from("not open"));
    }
    match book.write(by(false, 42), at, payload) {
        Ok(n) => Ok(Ok(u64::from(n))),
        Err(why) => Ok(Err(why)),
    }
}

pub fn set_size<O: Object, F: CacheFile>(book: &mut ItemBook<O, F>, size: u64) -> Answer {
    if !is_here(book) || !is_open(book) {
        return Err(Fail::from("not open"));
    }
    number(book.set_size(by(false, 45), size))
}

pub fn stat<O: Object, F: CacheFile>(book: &mut ItemBook<O, F>) -> Answer {
    if !is_here(book) {
        return Err(Fail::from("not kept"));
    }
    Ok(book.stat(by(false, 46)))
}

pub fn evict<O: Object, F: CacheFile>(book: &mut ItemBook<O, F>) -> Answer {
    truth(book.evict(by(false, 44)))
}

pub fn rename<O: Object, F: CacheFile>(
    book: &mut ItemBook<O, F>,
    alloc: Global,
    path: &str,
) -> Answer {
    let path = path_of(alloc, path)?;
    if !is_here(book) || book.look().opens > 0 {
        return Err(Fail::from("open"));
    }
    number(book.rename_to(by(true, 47), path))
}

pub fn discard<O: Object, F: CacheFile>(book: &mut ItemBook<O, F>) -> Answer {
    if !is_here(book) || book.look().opens > 0 {
        return Err(Fail::from("open"));
    }
    number(book.discard(by(true, 48)))
}

pub fn read<O: Object, F: CacheFile>(
    book: &mut ItemBook<O, F>,
    plan: &Plan,
    pos: u64,
    len: u64,
) -> Result<Result<Blob, Refusal>, Fail>
    requires { HasChunk plan.now.chunk }
{
    if !is_open(book) {
        return Err(Fail::from("not open"));
    }
    Ok(book.read(plan, by(false, 49), pos, len))
}

pub fn fetch<O: Object, F: CacheFile>(
    book: &mut ItemBook<O, F>,
    plan: &Plan,
    start: u64,
    end: u64,
) -> Answer
    requires { HasChunk plan.now.chunk }
{
    if start >= end || !is_supplied(book) {
        return Err(Fail::from("no span"));
    }
    Ok(book.fetch(plan, Span { start, end }))
}
