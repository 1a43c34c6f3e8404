//! A file over a disk and a store in memory. Each call has its conditions tested first: where one
//! doesn't hold, the call isn't made.
ghost use Rattle.std.specs.Prelude.{◌≡◌, ◌≢◌, [], true, nat_lt, None, IfOk, OnOk};
ghost use Rattle.item_core.specs.History.{base_end_of, is_kept, opens_by};
ghost use Rattle.item_core.specs.Legal.{EndsUpload};
ghost use Rattle.item_upload.specs.Finishing.{IsStaged};
ghost use Rattle.sparse_item.specs.Item.{IsSupplied};
ghost use Rattle.sparse_item.specs.Uploading.{IsDroppable, IsOf, IsOpen};

use crate::{Ended, Finished, Step, block, finish, give_up, start, upload};
use cache_memory::{MemoryDisk, MemoryFile};
use downloaders::{Limit, Plan};
use item_core::Upload as Begun;
use item_core::plain::{is_kept, opens_by, upload_at};
use remote_memory::{MemoryObject, MemoryRemote};
use sparse_item::{BaseState, ItemBook, Upload};
use std::alloc::Global;
use std::test::Fail;
use vfs_names::{
    Access, Actor, At, Blob, By, Fingerprint, Found, ItemId, Payload, Refusal, SlotId, VPath, Who,
};
use vfs_outside::{CacheDisk, CacheFile, Object, Remote};

/// The size of a great object.
pub const OBJECT: u64 = 200_000;

const SLOT: u32 = 3;

type Book = ItemBook<MemoryObject, MemoryFile>;

/// A file that began as the object at its path.
#[derive(Drop)]
pub struct Bench {
    pub book: Book,
    pub remote: MemoryRemote,
}

fn by(tree: bool, now: u64) -> By
    ensures pass { result.pass ≡ 0 }
    ensures tree { result.tree ≡ tree }
{
    By {
        who: Who {
            epoch: 0,
            phase: 0,
            actor: Actor::Main,
        },
        pass: 0,
        tree,
        now,
    }
}

fn the_path(alloc: Global) -> Result<VPath, Fail>
    ensures { IfOk result (λ path. path ≢ []) }
{
    let path = VPath::parse(alloc, "a")?;
    if path.is_root() {
        return Err(Fail::from("the root"));
    }
    Ok(path)
}

/// A store with an object of so many bytes, each the place of the byte by 251.
fn store_with(alloc: Global, size: u64) -> Result<MemoryRemote, Fail> {
    let mut bytes = Vec::new(alloc);
    for place in 0..size {
        bytes.push((place % 251) as u8)?;
    }
    let mut remote = MemoryRemote::new(alloc);
    let _print = remote.put(the_path(alloc)?, Blob::from_vec(bytes), 7)?;
    Ok(remote)
}

/// A file with no entry yet, on a disk on which the calls of these numbers on it are to fail.
fn book_on(alloc: Global, fails: [u64; 2]) -> Result<Book, Fail> {
    let [first, second] = fails;
    let mut disk = MemoryDisk::new(alloc);
    disk.fail(SLOT, first)?;
    disk.fail(SLOT, second)?;
    let Ok(file) = disk.take(SLOT) else {
        return Err(Fail::from("no file"));
    };
    Ok(ItemBook::fresh(alloc, ItemId(2), SlotId(SLOT), file, 100))
}

/// Whether the file is kept.
fn is_here<O: Object, F: CacheFile>(book: &ItemBook<O, F>) -> bool
    ensures { result ≡ is_kept book.now.log.past }
{
    is_kept(book.entries())
}

/// Whether a handle of the test is open.
fn has_handle<O: Object, F: CacheFile>(book: &ItemBook<O, F>) -> bool
    ensures { result ≡ nat_lt 0 (opens_by 0 book.now.log.past) }
{
    opens_by(book.entries(), 0) > 0
}

/// Whether no byte is absent that can't be asked for, nor known to be lost.
fn is_supplied<O: Object, F: CacheFile>(book: &ItemBook<O, F>) -> bool
    ensures { result ≡ true → IsSupplied
        book.now.base.state book.now.here (base_end_of book.now.log.past) }
{
    match book.base_state() {
        BaseState::Bound(_) => true,
        BaseState::Lost { .. } => true,
        BaseState::Absent => book.base_whole(),
        BaseState::Unbound(_) => book.base_whole(),
    }
}

/// Whether the test began the upload in the file's history, and it hasn't ended.
fn is_open<O: Object, F: CacheFile>(book: &ItemBook<O, F>, upload: &Upload) -> bool
    ensures { result ≡ true → IsOpen book.now.log.past 0 upload.now }
{
    let begun = Begun {
        version: upload.version(),
        pass: 0,
    };
    upload_at(book.entries(), upload.start()) == Some(begun)
}

/// The same; it began in the file's history then.
fn stands<O: Object, F: CacheFile>(book: &ItemBook<O, F>, upload: &Upload) -> bool
    ensures open { result ≡ true → IsOpen book.now.log.past 0 upload.now }
    ensures begun { result ≡ true → IsOf book.now.log.past upload.now }
{
    is_open(book, upload)
}

/// Whether an upload of a file that holds this may be dropped so.
fn ends(held: Option<Fingerprint>, why: Refusal) -> bool
    ensures { result ≡ true → EndsUpload held why }
{
    match why {
        Refusal::NotFound => true,
        Refusal::RemoteFault => true,
        Refusal::DiskFault => true,
        Refusal::HistoryFull => true,
        Refusal::NoMemory => true,
        Refusal::Stale {
            held: told,
            found: Found::Changed,
        } => held == Some(told),
        _ => false,
    }
}

/// Whether the upload may be dropped.
fn may_drop<O: Object, F: CacheFile>(book: &ItemBook<O, F>, upload: &Upload) -> bool
    ensures { result ≡ true → IsDroppable book.now.log.past upload.now }
{
    if upload.version() != book.version() {
        return true;
    }
    if !book.look().dirty {
        return true;
    }
    match upload.why() {
        Some(why) => ends(book.held(), why),
        None => false,
    }
}

fn the_plan() -> Plan
    ensures { result.chunk ≡ None }
{
    Plan {
        chunk: None,
        limit: Limit::Off,
    }
}

/// Puts the content of a file of one block into an empty stage.
fn fill<R: Remote, F: CacheFile>(
    book: &mut ItemBook<R::Object, F>,
    remote: &mut R,
    upload: &mut Upload,
    mut stage: R::Stage,
) -> Result<Result<R::Stage, Refusal>, Fail>
    requires { R.stage_len stage ≡ 0 }
    ensures open { IfOk result (λ made. OnOk made (IsOpen book.new.log.past 0 upload.new)) }
    ensures staged { IfOk result (λ made. IfOk made (λ full. IsStaged F.tells R.tells
        R.Object.tells book.new (R.stage_len full) (R.staged full))) }
{
    let look = book.look();
    if !stands(book, upload) {
        return Err(Fail::from("no upload"));
    }
    if !look.dirty || look.size > 131_072 {
        return Err(Fail::from("not one block"));
    }
    match block(book, &the_plan(), upload, 0) {
        Ok(Step::Bytes(bytes)) => match upload.append(remote, &mut stage, bytes.as_slice()) {
            Ok(()) => Ok(Ok(stage)),
            Err(why) => Ok(Err(why)),
        },
        Ok(Step::Cancelled { .. }) => Err(Fail::from("cancelled")),
        Err(why) => Ok(Err(why)),
    }
}

/// Uploads a file of one block.
fn upload_small<R: Remote, F: CacheFile>(
    alloc: Global,
    book: &mut ItemBook<R::Object, F>,
    remote: &mut R,
    upload: &mut Upload,
) -> Result<Result<Finished, Refusal>, Fail> {
    match upload.stage(alloc, remote) {
        Ok(empty) => match fill(book, remote, upload, empty) {
            Ok(Ok(full)) => Ok(finish(alloc, book, remote, by(true, 46), upload, full)),
            Ok(Err(why)) => Ok(Err(why)),
            Err(fail) => Err(fail),
        },
        Err(why) => Ok(Err(why)),
    }
}

impl Bench {
    /// A file that is an object of so many bytes, on a disk on which these calls are to fail.
    pub fn new(alloc: Global, fails: [u64; 2], size: u64) -> Result<Bench, Fail> {
        Bench::of(alloc, fails, store_with(alloc, size)?)
    }

    /// A file that is an object whose first pull finds another one.
    pub fn changing(alloc: Global, size: u64) -> Result<Bench, Fail> {
        let mut remote = store_with(alloc, size)?;
        remote.change_at_pull(the_path(alloc)?, 1)?;
        Bench::of(alloc, [0, 0], remote)
    }

    /// A file that is an object whose pull of this number fails.
    pub fn failing(alloc: Global, size: u64, pull: u64) -> Result<Bench, Fail> {
        let mut remote = store_with(alloc, size)?;
        remote.fail_pull(the_path(alloc)?, pull)?;
        Bench::of(alloc, [0, 0], remote)
    }

    /// A file that was made here, of so many `a`, then `b` and then `c`.
    pub fn made(alloc: Global, fails: [u64; 2], sizes: [u64; 3]) -> Result<Bench, Fail> {
        let mut book = book_on(alloc, fails)?;
        let look = book.look();
        if look.dirty || look.opens > 0 {
            return Err(Fail::from("in use"));
        }
        book.create(by(true, 40), the_path(alloc)?)?;
        let remote = MemoryRemote::new(alloc);
        let mut bench = Bench { book, remote };
        bench.open_file()?;
        let [first, second, third] = sizes;
        bench.put(At::End, first, b'a')?;
        bench.put(At::End, second, b'b')?;
        bench.put(At::End, third, b'c')?;
        bench.close_file()?;
        Ok(bench)
    }

    fn of(alloc: Global, fails: [u64; 2], mut remote: MemoryRemote) -> Result<Bench, Fail> {
        let mut book = book_on(alloc, fails)?;
        let path = the_path(alloc)?;
        let Ok(object) = remote.open_object(alloc, &path) else {
            return Err(Fail::from("no object"));
        };
        let look = book.look();
        if is_here(&book) || look.dirty || look.opens > 0 {
            return Err(Fail::from("in use"));
        }
        book.adopt(by(true, 40), path, object)?;
        Ok(Bench { book, remote })
    }

    /// Opens the file.
    fn open_file(&mut self) -> Result<(), Fail> {
        if !is_here(&self.book) || !is_supplied(&self.book) {
            return Err(Fail::from("not kept"));
        }
        self.book.open_handle(by(true, 41), Access::Both)?;
        Ok(())
    }

    /// Writes a byte so many times to the open file.
    fn put(&mut self, at: At, len: u64, byte: u8) -> Result<(), Fail> {
        if !has_handle(&self.book) {
            return Err(Fail::from("not open"));
        }
        let payload = Payload::Fill { len, byte };
        let _count = self.book.write(by(false, 42), at, payload)?;
        Ok(())
    }

    /// Closes the file.
    fn close_file(&mut self) -> Result<(), Fail> {
        if !has_handle(&self.book) {
            return Err(Fail::from("not open"));
        }
        let _dirty = self.book.close_handle(by(true, 43));
        Ok(())
    }

    /// Opens the file, writes these bytes, which are all the same, and closes it.
    pub fn touch(&mut self, pos: u64, bytes: &'static [u8]) -> Result<(), Fail> {
        self.open_file()?;
        let byte = *bytes.first().unwrap_or(&0);
        self.put(At::Pos(pos), bytes.len() as u64, byte)?;
        self.close_file()
    }

    /// Asks for the file's size so many times.
    pub fn ask(&mut self, times: u32) -> Result<(), Fail> {
        for _ in 0..times {
            if !is_here(&self.book) {
                return Err(Fail::from("not kept"));
            }
            let _size = self.book.stat(by(false, 44))?;
        }
        Ok(())
    }

    pub fn discard(&mut self) -> Result<(), Fail> {
        if !is_here(&self.book) || self.book.look().opens > 0 {
            return Err(Fail::from("open"));
        }
        self.book.discard(by(true, 44))?;
        Ok(())
    }

    pub fn begin(&mut self) -> Result<Result<Upload, Refusal>, Fail> {
        if !self.book.owed() || !is_supplied(&self.book) {
            return Err(Fail::from("not owed"));
        }
        Ok(start(&mut self.book, by(true, 45)))
    }

    pub fn block(&mut self, upload: &mut Upload, pos: u64) -> Result<Result<Step, Refusal>, Fail> {
        if !stands(&self.book, upload) || !self.book.look().dirty {
            return Err(Fail::from("no upload"));
        }
        Ok(block(&mut self.book, &the_plan(), upload, pos))
    }

    /// Uploads a file of one block.
    pub fn upload_small(
        &mut self,
        alloc: Global,
        upload: &mut Upload,
    ) -> Result<Result<Finished, Refusal>, Fail> {
        upload_small(alloc, &mut self.book, &mut self.remote, upload)
    }

    pub fn end(&mut self, upload: Upload) -> Result<(), Fail> {
        if !stands(&self.book, &upload) || !may_drop(&self.book, &upload) {
            return Err(Fail::from("can't be dropped"));
        }
        give_up(&mut self.book, by(true, 47), upload);
        Ok(())
    }

    /// Uploads the file whole.
    pub fn upload(&mut self, alloc: Global) -> Result<Ended, Fail> {
        if !self.book.owed() || !is_supplied(&self.book) {
            return Err(Fail::from("not owed"));
        }
        Ok(upload(
            alloc,
            &mut self.book,
            &mut self.remote,
            &the_plan(),
            by(true, 48),
        ))
    }

    /// The bytes of the object at the file's path.
    pub fn stored(&self, alloc: Global) -> Result<Blob, Fail> {
        match self.remote.bytes_of(&the_path(alloc)?) {
            Some(bytes) => Ok(Blob::from_slice(alloc, bytes)?),
            None => Err(Fail::from("no object")),
        }
    }

    /// Whether the object at the file's path has these bytes; with None, whether none is there.
    pub fn has(&self, alloc: Global, bytes: Option<&[u8]>) -> Result<bool, Fail> {
        match self.remote.bytes_of(&the_path(alloc)?) {
            Some(found) => Ok(bytes == Some(found)),
            None => Ok(bytes.is_none()),
        }
    }
}
