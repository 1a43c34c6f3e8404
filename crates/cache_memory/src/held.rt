ghost use Rattle.std.specs.Prelude.{◌≡◌, ◌+◌, ◌++◌, ◌<◌, ◌≤◌, ◌^◌, [], ◌∷◌, None, All, IfOk, OnOk, OnErr, length, reverse, find};
ghost use Rattle.std.specs.Option.{option_copied};
ghost use Rattle.vfs_outside.specs.Image.{meta_in, meta_after};
ghost use Rattle.vfs_outside.specs.Slot.{Reads, handed_out, image, image_after, with_call};
ghost use Rattle.sparse_bytes.specs.Bytes.{HasBytes, byte_of, written};
ghost use Rattle.vfs_outside.specs.declared.file_call.FileCall.TheVariants.{Saved};
ghost use Rattle.cache_memory.specs.Stored.{HasData, end_of, sets_meta};

use sparse_bytes::SparseBytes;
use std::alloc::Global;
use vfs_names::{Blob, NoMemory, Payload};
use vfs_outside::FileCall;

/// What a slot holds: the calls on its files, in order, and the blocks of the data that they left.
#[derive(Drop)]
pub struct Held {
    // those before its file was last handed out
    pub(crate) before: Vec<FileCall>,
    // those since then
    pub(crate) since: Vec<FileCall>,
    blocks: SparseBytes,
    ghost has_data: { HasData blocks (reverse since.items ++ reverse before.items) },
    ghost small_before: { All (λ c. end_of c ≤ 2 ^ 40) before.items },
    ghost small_since: { All (λ c. end_of c ≤ 2 ^ 40) since.items },
}

/// Writes the bytes into the blocks, and hands them back. All stays as it was where memory is
/// wanting.
fn lay(blocks: &mut SparseBytes, pos: u64, bytes: Blob) -> Result<Blob, NoMemory>
    requires { pos + length bytes ≤ 2 ^ 40 }
    ensures bytes { IfOk result (λ same. same ≡ bytes) }
    ensures ok { let payload = Payload.Bytes bytes in
        OnOk result (HasBytes blocks.new (written (byte_of blocks.old) pos payload)) }
    ensures err { OnErr result (HasBytes blocks.new (byte_of blocks.old)) }
{
    let payload = Payload::Bytes(bytes);
    let Ok(()) = blocks.write(pos, &payload) else {
        return Err(NoMemory);
    };
    match payload {
        Payload::Bytes(bytes) => Ok(bytes),
        Payload::Fill { .. } => unreachable!(),
        Payload::Pattern { .. } => unreachable!(),
    }
}

/// Whether the call changes the metadata.
fn sets_meta(call: &FileCall) -> bool
    ensures { result ≡ sets_meta call.now }
{
    match call {
        FileCall::Quiet => false,
        FileCall::Saved(_) => true,
        FileCall::Wrote { .. } => false,
        FileCall::Cleared { .. } => true,
    }
}

/// The last of the calls that changes the metadata.
fn last_meta(calls: &[FileCall]) -> Option<&FileCall>
    ensures { option_copied result ≡ find sets_meta (reverse calls.now) }
{
    calls.iter().rev().find(|call| sets_meta(call))
}

/// The metadata after a call that changes it.
fn text_of(call: &FileCall) -> Option<&[u8]>
    ensures { option_copied result ≡ meta_after call.now None }
{
    match call {
        FileCall::Saved(text) => Some(text.as_slice()),
        FileCall::Quiet => None,
        FileCall::Wrote { .. } => None,
        FileCall::Cleared { .. } => None,
    }
}

impl Held {
    ghost use Rattle.cache_memory.specs.Helds.{told_of, with_calls};

    /// Nothing was done.
    pub fn new(alloc: Global) -> Held
        ensures { told_of result ≡ handed_out [] }
    {
        Held {
            before: Vec::new(alloc),
            since: Vec::new(alloc),
            blocks: SparseBytes::new(alloc),
        }
    }

    /// One more call.
    pub fn add(&mut self, alloc: Global, call: FileCall) -> Result<(), NoMemory>
        requires { end_of call ≤ 2 ^ 40 }
        ensures ok { OnOk result (told_of self.new ≡ with_call call (told_of self.old)) }
        ensures err { OnErr result (told_of self.new ≡ told_of self.old) }
    {
        let Ok(()) = self.since.reserve(1) else {
            return Err(NoMemory);
        };
        match call {
            FileCall::Quiet => self.since.push_reserved(FileCall::Quiet),
            FileCall::Saved(text) => self.since.push_reserved(FileCall::Saved(text)),
            FileCall::Wrote { pos, bytes } => {
                let Ok(bytes) = lay(&mut self.blocks, pos, bytes) else {
                    return Err(NoMemory);
                };
                self.since.push_reserved(FileCall::Wrote { pos, bytes });
            }
            FileCall::Cleared { keep: true } => {
                self.since.push_reserved(FileCall::Cleared { keep: true });
            }
            FileCall::Cleared { keep: false } => {
                self.blocks = SparseBytes::new(alloc);
                self.since.push_reserved(FileCall::Cleared { keep: false });
            }
        }
        Ok(())
    }

    /// How many calls there were since the file was handed out.
    pub fn calls(&self) -> u64
        ensures { result ≡ length (told_of self.now).since }
    {
        self.since.len() as u64
    }

    /// The metadata's text, found by going back over the calls since it was last changed.
    pub fn meta(&self) -> Option<&[u8]>
        ensures { option_copied result ≡ meta_in (image (told_of self.now)) }
    {
        match last_meta(self.since.as_slice()) {
            Some(call) => text_of(call),
            None => match last_meta(self.before.as_slice()) {
                Some(call) => text_of(call),
                None => None,
            },
        }
    }

    /// The bytes from `pos` on.
    pub fn read(&self, alloc: Global, pos: u64, into: &mut [u8]) -> Result<(), NoMemory>
        requires { pos + length into.old ≤ 2 ^ 40 }
        ensures { OnOk result (Reads (image (told_of self.now)) pos into.new) }
    {
        let Ok(bytes) = self.blocks.read(alloc, pos, into.len() as u64) else {
            return Err(NoMemory);
        };
        into.copy_from_slice(bytes.as_slice());
        Ok(())
    }

    /// All calls were before the file is handed out, as it will be now.
    pub fn hand_out(&mut self) -> Result<(), NoMemory>
        ensures ok { OnOk result (told_of self.new ≡ handed_out (image (told_of self.old))) }
        ensures err { OnErr result (told_of self.new ≡ told_of self.old) }
    {
        match self.before.append(&mut self.since) {
            Ok(()) => Ok(()),
            Err(_) => Err(NoMemory),
        }
    }

    /// All calls were before, and after them the metadata was set to this text.
    pub fn set_meta(&mut self, text: Blob) -> Result<(), NoMemory>
        ensures ok { OnOk result (
            told_of self.new ≡ handed_out (Saved text ∷ image (told_of self.old))) }
        ensures err { OnErr result (told_of self.new ≡ told_of self.old) }
    {
        let Some(more) = self.since.len().checked_add(1) else {
            return Err(NoMemory);
        };
        let Ok(()) = self.before.reserve(more) else {
            return Err(NoMemory);
        };
        let Ok(()) = self.before.append(&mut self.since) else {
            return Err(NoMemory);
        };
        self.before.push_reserved(FileCall::Saved(text));
        Ok(())
    }

    /// These calls were made too.
    fn replay(&mut self, alloc: Global, calls: &[FileCall]) -> Result<(), NoMemory>
        requires { All (λ c. end_of c ≤ 2 ^ 40) calls.now }
        ensures { OnOk result (told_of self.new ≡ with_calls calls.now (told_of self.old)) }
    {
        for call in calls {
            let Ok(copy) = call.copy(alloc) else {
                return Err(NoMemory);
            };
            match self.add(alloc, copy) {
                Ok(()) => {}
                Err(why) => return Err(why),
            }
        }
        Ok(())
    }

    /// What the slot held after the first `count` calls since the file was handed out.
    pub fn after(&self, alloc: Global, count: usize) -> Result<Held, NoMemory>
        ensures { IfOk result (λ held.
            told_of held ≡ handed_out (image_after (told_of self.now) count)) }
    {
        let mut held = Held::new(alloc);
        held.replay(alloc, self.before.as_slice())?;
        let count = count.min(self.since.len());
        held.replay(alloc, &self.since.as_slice()[..count])?;
        match held.hand_out() {
            Ok(()) => Ok(held),
            Err(why) => Err(why),
        }
    }
}
