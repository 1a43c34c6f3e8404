// One block of bytes, which may be shorter than a whole one: past its end stand zeros.
ghost use Rattle.std.specs.Prelude.{◌≡◌, ℕ, ◌+◌, ◌-◌, ◌%◌, ◌^◌, ◌<◌, ◌≤◌, ◌++◌, length, vec_len, slice_index, OnOk, OnErr};
ghost use Rattle.vfs_names.specs.Payload.{payload_len};
ghost use Rattle.sparse_bytes.specs.Bytes.{bytes_from};
ghost use Rattle.sparse_bytes.specs.Blocks.{HoldsPayload};

use vfs_names::{NoMemory, Payload};

// In bytes.
pub(crate) const SIZE: u64 = 4096;

// How many bytes from `at` on lie in one block and before `end`.
pub(crate) fn part_len(at: u64, end: u64) -> u64
    requires { at < end }
    ensures some { 0 < result }
    ensures one_block { at % 4096 + result ≤ 4096 }
    ensures inside { at + result ≤ end }
{
    (SIZE - at % SIZE).min(end - at)
}

// Makes the block at least `len` bytes long, by zeros; its capacity stays within one whole block's.
pub(crate) fn grow(block: &mut Vec<u8>, len: usize) -> Result<(), NoMemory>
    requires { len ≤ 4096 }
    ensures same { (i : ℕ) → slice_index block.new.items i ≡ slice_index block.old.items i }
    ensures grown { vec_len block.old ≤ vec_len block.new }
    ensures room { OnOk result (len ≤ vec_len block.new) }
{
    if len <= block.len() {
        return Ok(());
    }
    if len > SIZE as usize / 2 {
        block.reserve_exact(SIZE as usize - block.len())?;
    }
    block.resize(len, 0)?;
    Ok(())
}

// Writes the payload's bytes from `from` on over the whole part.
pub(crate) fn put(part: &mut [u8], payload: &Payload, from: u64)
    requires small { payload_len payload.now ≤ 2 ^ 63 }
    requires inside { from + length part.old ≤ payload_len payload.now }
    ensures { HoldsPayload part.new payload.now from }
{
    match payload {
        Payload::Bytes(blob) => {
            let start = from as usize;
            part.copy_from_slice(&blob.as_slice()[start..start + part.len()]);
        }
        Payload::Fill { byte, .. } => part.fill(*byte),
        Payload::Pattern { .. } => put_each(part, payload, from),
    }
}

fn put_each(part: &mut [u8], payload: &Payload, from: u64)
    requires small { payload_len payload.now ≤ 2 ^ 63 }
    requires inside { from + length part.old ≤ payload_len payload.now }
    ensures { HoldsPayload part.new payload.now from }
{
    for (i, byte) in part.iter_mut().enumerate() {
        *byte = payload.byte(from + i as u64);
    }
}

// Appends `n` bytes of the block from `start` on, with zeros past its end.
pub(crate) fn append(
    out: &mut Vec<u8>,
    block: &[u8],
    start: usize,
    n: usize,
) -> Result<(), NoMemory>
    requires { start + n ≤ 4096 }
    ensures { let more = bytes_from (slice_index block.now) start n in
        OnOk result (out.new.items ≡ out.old.items ++ more) }
{
    let low = start.min(block.len());
    let high = (start + n).min(block.len());
    out.extend_from_slice(&block[low..high])?;
    out.resize(out.len() + (n - (high - low)), 0)?;
    Ok(())
}
