ghost use Rattle.std.specs.Prelude.{◌≡◌, ℕ, ◌+◌, ◌-◌, ◌/◌, ◌%◌, ◌^◌, ◌<◌, ◌≤◌, length, IfOk, OnOk, OnErr};
ghost use Rattle.vfs_names.specs.Payload.{payload_len};
ghost use Rattle.sparse_bytes.specs.Bytes.{block_of, byte_of, HasBytes, bytes_from, written, cut_at};
ghost use Rattle.sparse_bytes.specs.Blocks.{written_between, HasRoom, IsGrown, SameLengths};

use crate::block;
use std::alloc::Global;
use std::collections::BTreeMap;
use vfs_names::{Blob, NoMemory, Payload};

/// Bytes at positions from 0 on. What was never written is 0 and takes no memory.
///
/// The bytes stand in blocks of 4,096, each grown only as far as it was written. A read or a write costs the bytes that
/// it moves, and a look-up for each block that it touches, in time logarithmic in the number of blocks in memory.
#[derive(Drop)]
pub struct SparseBytes {
    alloc: Global,
    blocks: BTreeMap<u64, Vec<u8>>,
}

impl SparseBytes {
    /// Every byte is 0; takes no memory.
    #[tactic(auto, unfolding(crate::specs::Bytes::byte_of))]
    pub fn new(alloc: Global) -> SparseBytes
        ensures { HasBytes result (λ p. 0) }
    {
        SparseBytes {
            alloc,
            blocks: BTreeMap::new(alloc),
        }
    }

    /// Writes the payload from `pos` on. Takes memory only for the blocks that it touches, and all of it before the first
    /// byte is written; an empty payload takes none.
    pub fn write(&mut self, pos: u64, payload: &Payload) -> Result<(), NoMemory>
        requires { pos + payload_len payload.now ≤ 2 ^ 63 }
        ensures ok { OnOk result (HasBytes self.new (written (byte_of self.old) pos payload.now)) }
        ensures err { OnErr result (HasBytes self.new (byte_of self.old)) }
    {
        let end = pos + payload.len();
        self.take_room(pos, end)?;
        self.put(pos, payload);
        Ok(())
    }

    /// The `len` bytes from `pos` on, written or not.
    pub fn read(&self, alloc: Global, pos: u64, len: u64) -> Result<Blob, NoMemory>
        requires { pos + len ≤ 2 ^ 63 }
        ensures { IfOk result (λ bytes. bytes ≡ bytes_from (byte_of self.now) pos len) }
    {
        let end = pos + len;
        let mut bytes = Vec::with_capacity(alloc, len as usize)?;
        let mut at = pos;
        while at < end {
            let n = block::part_len(at, end);
            let held = self.block(at / block::SIZE);
            block::append(&mut bytes, held, (at % block::SIZE) as usize, n as usize)?;
            at += n;
        }
        Ok(Blob::from_vec(bytes))
    }

    /// Every byte from `n` on is 0 from now on. Frees the blocks that lie there; takes no memory.
    pub fn cut(&mut self, n: u64)
        ensures { HasBytes self.new (cut_at (byte_of self.old) n) }
    {
        self.drop_blocks_from(n.div_ceil(block::SIZE));
        if let Some(block) = self.blocks.get_mut(&(n / block::SIZE)) {
            block.truncate((n % block::SIZE) as usize);
        }
    }

    // What the block of this number holds.
    fn block(&self, number: u64) -> &[u8]
        ensures { result.now ≡ block_of self.now number }
    {
        match self.blocks.get(&number) {
            Some(block) => block.as_slice(),
            None => &[],
        }
    }

    // Takes the memory for the positions from `pos` on and before `end`. No byte changes.
    fn take_room(&mut self, pos: u64, end: u64) -> Result<(), NoMemory>
        requires ordered { pos ≤ end }
        requires small { end ≤ 2 ^ 63 }
        ensures same { HasBytes self.new (byte_of self.old) }
        ensures room { OnOk result (HasRoom self.new pos end) }
    {
        let mut at = pos;
        while at < end {
            let n = block::part_len(at, end);
            self.take_block(at / block::SIZE, (at % block::SIZE + n) as usize)?;
            at += n;
        }
        Ok(())
    }

    // Makes the block of this number at least `len` bytes long, by zeros.
    #[tactic(auto, unfolding(crate::specs::Bytes::byte_of))]
    fn take_block(&mut self, number: u64, len: usize) -> Result<(), NoMemory>
        requires { len ≤ 4096 }
        ensures same { HasBytes self.new (byte_of self.old) }
        ensures grown { IsGrown self.old self.new }
        ensures room { OnOk result (len ≤ length (block_of self.new number)) }
    {
        if let Some(block) = self.blocks.get_mut(&number) {
            return block::grow(block, len);
        }
        let mut block = Vec::new(self.alloc);
        block::grow(&mut block, len)?;
        self.blocks.insert(number, block)?;
        Ok(())
    }

    // Writes the payload from `pos` on into blocks that are there.
    fn put(&mut self, pos: u64, payload: &Payload)
        requires small { pos + payload_len payload.now ≤ 2 ^ 63 }
        requires room { HasRoom self.old pos (pos + payload_len payload.now) }
        ensures { HasBytes self.new (written (byte_of self.old) pos payload.now) }
    {
        let end = pos + payload.len();
        let mut at = pos;
        while at < end {
            let n = block::part_len(at, end);
            self.put_part(at, n, payload, at - pos);
            at += n;
        }
    }

    // Writes `n` bytes of the payload, from `from` on, at `at`.
    fn put_part(&mut self, at: u64, n: u64, payload: &Payload, from: u64)
        requires one_block { at % 4096 + n ≤ 4096 }
        requires room { at % 4096 + n ≤ length (block_of self.old (at / 4096)) }
        requires start { from ≤ at }
        requires small { payload_len payload.now ≤ 2 ^ 63 }
        requires inside { from + n ≤ payload_len payload.now }
        ensures bytes { let start = at - from in
            HasBytes self.new (written_between (byte_of self.old) start payload.now at (at + n)) }
        ensures len { SameLengths self.old self.new }
    {
        let start = (at % block::SIZE) as usize;
        if let Some(block) = self.blocks.get_mut(&(at / block::SIZE)) {
            block::put(&mut block[start..start + n as usize], payload, from);
        }
    }

    // Drops the blocks of this number and above.
    fn drop_blocks_from(&mut self, number: u64)
        ensures below { (k : ℕ) → k < number → block_of self.new k ≡ block_of self.old k }
        ensures gone { (k : ℕ) → number ≤ k → length (block_of self.new k) ≡ 0 }
    {
        while let Some((last, _)) = self.blocks.last_key_value() {
            if *last < number {
                break;
            }
            let _ = self.blocks.pop_last();
        }
    }
}

#[cfg(test)]
mod tests;
