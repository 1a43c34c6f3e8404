//! A file on a disk in memory, and what images of the disk have of it.
ghost use Rattle.std.specs.Prelude.{◌≡◌, ℕ, false, IfOk};
ghost use Rattle.cache_memory.specs.Disks.{disk_of};
ghost use Rattle.cache_memory.specs.Slots.{blank};

use crate::ItemBook;
use byte_ranges::Span;
use cache_memory::{MemoryDisk, MemoryFile};
use item_meta::{Meta, read_meta};
use std::alloc::Global;
use std::process::Abort;
use std::test::Fail;
use vfs_names::{Blob, ItemId, SlotId};
use vfs_outside::{CacheDisk, CacheFile, Object};

const SLOT: u32 = 3;

/// A file of a slot of a disk.
#[derive(Drop)]
pub struct Bench<O: Object> {
    pub disk: MemoryDisk,
    pub book: ItemBook<O, MemoryFile>,
}

/// A disk on which the calls of these numbers on the slot's file are to fail.
fn disk_with(alloc: Global, fails: [u64; 3]) -> Result<MemoryDisk, Fail>
    ensures out { IfOk result (λ disk. (slot : ℕ) → (disk_of disk).out slot ≡ false) }
    ensures blank { IfOk result (λ disk. (slot : ℕ) → (disk_of disk).shelf slot ≡ blank) }
{
    let [first, second, third] = fails;
    let mut disk = MemoryDisk::new(alloc);
    disk.fail(SLOT, first)?;
    disk.fail(SLOT, second)?;
    disk.fail(SLOT, third)?;
    Ok(disk)
}

impl<O: Object> Bench<O> {
    /// A file that is to have at most so many places, on a disk on which these calls are to fail.
    pub fn new(alloc: Global, fails: [u64; 3], limit: u32) -> Result<Bench<O>, Fail> {
        let mut disk = disk_with(alloc, fails)?;
        let Ok(file) = disk.take(SLOT) else {
            return Err(Fail::from("no file"));
        };
        let book = ItemBook::fresh(alloc, ItemId(2), SlotId(SLOT), file, limit);
        Ok(Bench { disk, book })
    }

    /// The disk, which has the slot's file again.
    pub fn ended(self) -> Result<MemoryDisk, Fail> {
        let mut disk = self.disk;
        if !disk.is_out(SLOT) {
            return Err(Fail::from("not out"));
        }
        disk.give_back(SLOT, self.book.into_parts().file);
        Ok(disk)
    }
}

/// The number of the last entry's call.
pub fn last_at<O: Object, F: CacheFile>(book: &ItemBook<O, F>) -> u64 {
    match book.entries().last() {
        Some(entry) => entry.at,
        None => 0,
    }
}

/// The slot's file as it was after so many calls on it.
fn file_after(disk: &MemoryDisk, calls: u64) -> Result<MemoryFile, Fail> {
    let mut image = disk.image(&[(SLOT, calls)])?;
    if image.is_out(SLOT) {
        return Err(Fail::from("out"));
    }
    Ok(image.take(SLOT)?)
}

/// The metadata's text after so many calls on the slot's file; empty where there is none.
pub fn text_after(disk: &MemoryDisk, alloc: Global, calls: u64) -> Result<Blob, Fail> {
    let mut file = file_after(disk, calls)?;
    match file.read_meta()? {
        Some(text) => Ok(text),
        None => Ok(Blob::new(alloc)),
    }
}

/// A path and bytes that a file had from so many calls on the slot's file on.
#[derive(Drop)]
pub struct State {
    pub at: u64,
    pub path: &'static str,
    pub bytes: Vec<u8>,
}

/// What an image has of a file.
#[derive(Drop)]
struct Image {
    meta: Meta,
    file: MemoryFile,
}

/// The image after so many calls on the slot's file, where it has metadata.
fn image_after(alloc: Global, disk: &MemoryDisk, calls: u64) -> Result<Option<Image>, Fail> {
    let mut file = file_after(disk, calls)?;
    let Some(text) = file.read_meta()? else {
        return Ok(None);
    };
    match read_meta(alloc, text.as_slice()) {
        Ok(meta) => Ok(Some(Image { meta, file })),
        Err(_) => Err(Fail::from("no metadata")),
    }
}

/// The byte at a place that a write has whose data may not be there.
fn intended(meta: &Meta, place: u64) -> Option<u8> {
    let Some(intent) = &meta.intent else {
        return None;
    };
    let Some(at) = place.checked_sub(intent.pos) else {
        return None;
    };
    intent.bytes.as_slice().get(at as usize).copied()
}

/// The byte at a place below 2^40 where the metadata say that the file has it.
fn stored(image: &mut Image, place: u64) -> Result<Option<u8>, Fail> {
    if place >= 1 << 40 {
        return Ok(None);
    }
    let span = Span {
        start: place,
        end: place + 1,
    };
    if !image.meta.ranges.covers(span) {
        return Ok(None);
    }
    let mut into = [0u8; 1];
    image.file.read_at(place, &mut into)?;
    Ok(Some(into[0]))
}

/// The byte at a place, as the image has it with an object's bytes.
fn byte_of(image: &mut Image, object: &[u8], place: u64) -> Result<Option<u8>, Fail> {
    if let Some(byte) = intended(&image.meta, place) {
        return Ok(Some(byte));
    }
    if let Some(byte) = stored(image, place)? {
        return Ok(Some(byte));
    }
    if place >= image.meta.base_end {
        return Ok(Some(0));
    }
    Ok(object.get(place as usize).copied())
}

fn has_path(meta: &Meta, path: &str) -> bool {
    meta.path.as_str() == path
}

/// Whether an image has this path and these bytes, with those of an object.
fn is_state(image: &mut Image, object: &[u8], state: &State) -> Result<bool, Fail> {
    if !has_path(&image.meta, state.path) || image.meta.size != state.bytes.len() as u64 {
        return Ok(false);
    }
    for (i, byte) in state.bytes.iter().enumerate() {
        if byte_of(image, object, i as u64)? != Some(*byte) {
            return Ok(false);
        }
    }
    Ok(true)
}

/// The last of the states that was made by so many calls.
fn made_by(states: &[State], calls: u64) -> Option<&State> {
    let mut made = None;
    for state in states {
        if state.at <= calls {
            made = Some(state);
        }
    }
    made
}

/// Whether the image after so many calls is the state that was made by then.
fn stands(
    alloc: Global,
    disk: &MemoryDisk,
    calls: u64,
    states: &[State],
    object: &[u8],
) -> Result<bool, Fail> {
    match image_after(alloc, disk, calls)? {
        Some(mut image) => match made_by(states, calls) {
            Some(state) => is_state(&mut image, object, state),
            None => Ok(false),
        },
        None => Ok(made_by(states, calls).is_none()),
    }
}

/// After each number of calls the image is the state that was made by then.
pub fn expect_images(
    rt: &impl Abort,
    alloc: Global,
    disk: &MemoryDisk,
    states: &[State],
    object: &[u8],
) -> Result<(), Fail> {
    for calls in 0..=disk.calls(SLOT) {
        let found = stands(alloc, disk, calls, states, object)?;
        assert!(rt; found, "image {calls}");
    }
    Ok(())
}
