//! The bytes of a stored history, given its oldest entry first, each found by itself.
ghost use Rattle.std.specs.Prelude.{◌≡◌, ◌-◌, min, reverse, slice_index, IfOk};
ghost use Rattle.item_core.specs.Content.{base_byte, byte_after, byte_at, bytes_at};
ghost use Rattle.item_core.specs.History.{size_of};
ghost use Rattle.item_core.specs.Legal.{IsLegal};

use crate::plain::size_of;
use crate::{Entry, FileKind};
use std::alloc::Global;
use vfs_names::{Blob, Fingerprint, NoMemory};

/// Where the bytes come from that no entry carries.
pub trait Source {
    ghost use Rattle.item_core.specs.Content.{Known};

    ghost known: { Self → Known };

    /// The byte at `p` of the content that a fingerprint names; 0 past its end.
    fn content_byte(&self, print: Fingerprint, p: u64) -> u8
        ensures { result ≡ slice_index ((known self.now).content print) p };

    /// The byte at `p` that the cache had saved when the epoch began, if it had.
    fn saved_byte(&self, p: u64) -> Option<u8>
        ensures { result ≡ (known self.now).saved p };
}

fn byte_after<S: Source>(source: &S, kind: &FileKind, p: u64, byte: u8) -> u8
    ensures { result ≡ byte_after (S.known source.now) kind.now p byte }
{
    match kind {
        FileKind::Create => 0,
        FileKind::Recovered { base_end, base, .. } => match source.saved_byte(p) {
            Some(byte) => byte,
            None => base_byte(source, *base_end, *base, p),
        },
        FileKind::Adopt(print) => {
            if p < print.size {
                source.content_byte(*print, p)
            } else {
                0
            }
        }
        FileKind::Write { pos, payload } => {
            if *pos <= p && p - *pos < payload.len() {
                payload.byte(p - *pos)
            } else {
                byte
            }
        }
        FileKind::SetSize(n) => { if *n <= p { 0 } else { byte } }
        _ => byte,
    }
}

/// The byte that the base object gives.
fn base_byte<S: Source>(source: &S, base_end: u64, base: Option<Fingerprint>, p: u64) -> u8
    ensures { result ≡ base_byte (S.known source.now) base_end base p }
{
    match base {
        Some(base) if p < base_end => source.content_byte(base, p),
        _ => 0,
    }
}

/// The byte at `p`, for `p` below the size of a kept file.
pub fn byte_at<S: Source>(source: &S, entries: &[Entry], p: u64) -> u8
    ensures { result ≡ byte_at (S.known source.now) (reverse entries.now) p }
{
    let mut byte = 0;
    for entry in entries {
        byte = byte_after(source, &entry.kind, p, byte);
    }
    byte
}

#[tactic(auto, using(crate::proofs::Stored::bytes_more))]
/// The bytes that a read of `len` bytes at `pos` answers. Takes time in proportion to their number times the entries.
pub fn read_at<S: Source>(
    alloc: Global,
    source: &S,
    entries: &[Entry],
    pos: u64,
    len: u64,
) -> Result<Blob, NoMemory>
    requires { IsLegal (reverse entries.now) }
    ensures { let past = reverse entries.now in
        IfOk result (λ bytes. bytes ≡ bytes_at (S.known source.now) past pos (min len (size_of past - pos))) }
{
    let count = len.min(size_of(entries).saturating_sub(pos));
    let mut bytes = Vec::new(alloc);
    for i in 0..count {
        bytes.push(byte_at(source, entries, pos + i))?;
    }
    Ok(Blob::from_vec(bytes))
}
