ghost use Rattle.std.specs.Prelude.{◌≡◌, ◌+◌, ◌<◌, ◌≤◌, ◌^◌};
ghost use Rattle.item_core.specs.Effects.{size_after, base_end_after, held_after, kept_after, raises, dirty_after, is_opened, is_closed, is_start, is_end, places};
ghost use Rattle.item_core.specs.History.{upload_after};
ghost use Rattle.item_core.specs.Names.{atime_after};
ghost use Rattle.item_core.specs.Step.{EndFits, modified_after};

use crate::{FileKind, Upload};
use vfs_names::Fingerprint;

impl FileKind {
    /// The size after an entry of this kind, from the size before it.
    pub(crate) fn size_after(&self, size: u64) -> u64
        requires { EndFits self.now }
        ensures { result ≡ size_after self.now size }
    {
        match self {
            FileKind::Create => 0,
            FileKind::Recovered { size, .. } => *size,
            FileKind::Adopt(print) => print.size,
            FileKind::Write { pos, payload } => {
                if payload.is_empty() {
                    size
                } else {
                    size.max(*pos + payload.len())
                }
            }
            FileKind::SetSize(size) => *size,
            _ => size,
        }
    }

    /// The end of what the base object gives.
    pub(crate) fn base_end_after(&self, size: u64, base_end: u64) -> u64
        ensures { result ≡ base_end_after self.now size base_end }
    {
        match self {
            FileKind::Create => 0,
            FileKind::Recovered { base_end, .. } => *base_end,
            FileKind::Adopt(print) => print.size,
            FileKind::SetSize(n) => base_end.min(*n),
            FileKind::Uploaded { .. } => size,
            _ => base_end,
        }
    }

    /// The fingerprint of the object that the file holds.
    pub(crate) fn held_after(&self, held: Option<Fingerprint>) -> Option<Fingerprint>
        ensures { result ≡ held_after self.now held }
    {
        match self {
            FileKind::Create => None,
            FileKind::Recovered { base, .. } => *base,
            FileKind::Adopt(print) | FileKind::Uploaded { print, .. } => Some(*print),
            _ => held,
        }
    }

    pub(crate) fn kept_after(&self, kept: bool) -> bool
        ensures { result ≡ kept_after self.now kept }
    {
        match self {
            FileKind::Create | FileKind::Recovered { .. } | FileKind::Adopt(_) => true,
            FileKind::Evict | FileKind::Discard => false,
            _ => kept,
        }
    }

    /// A new version of the content begins.
    pub(crate) fn raises(&self) -> bool
        ensures { result ≡ raises self.now }
    {
        match self {
            FileKind::Create | FileKind::SetSize(_) => true,
            FileKind::Write { payload, .. } => !payload.is_empty(),
            _ => false,
        }
    }

    pub(crate) fn dirty_after(&self, dirty: bool) -> bool
        ensures { result ≡ dirty_after self.now dirty }
    {
        match self {
            FileKind::Recovered { dirty, .. } => *dirty,
            FileKind::Uploaded { .. } | FileKind::Discard | FileKind::Adopt(_) => false,
            _ => self.raises() || dirty,
        }
    }

    /// A version began since no handle was open, where `opens` were open before this entry.
    pub(crate) fn modified_after(&self, opens: usize, modified: bool) -> bool
        ensures { result ≡ modified_after self.now opens modified }
    {
        let rests = self.is_closed() && opens == 1;
        !rests && (self.raises() || modified)
    }

    pub(crate) fn is_opened(&self) -> bool
        ensures { result ≡ is_opened self.now }
    {
        matches!(self, FileKind::Opened(_))
    }

    pub(crate) fn is_closed(&self) -> bool
        ensures { result ≡ is_closed self.now }
    {
        matches!(self, FileKind::Closed)
    }

    /// An upload begins.
    pub(crate) fn is_start(&self) -> bool
        ensures { result ≡ is_start self.now }
    {
        matches!(self, FileKind::UploadStart(_))
    }

    /// An upload ends, saved or dropped.
    pub(crate) fn is_end(&self) -> bool
        ensures { result ≡ is_end self.now }
    {
        matches!(
            self,
            FileKind::Uploaded { .. } | FileKind::UploadDropped { .. }
        )
    }

    /// What an entry that a pass made at an index leaves of the upload that began at `start`.
    pub(crate) fn upload_after(
        &self,
        pass: u64,
        index: usize,
        start: u32,
        old: Option<Upload>,
    ) -> Option<Upload>
        ensures { result ≡ upload_after self.now pass index start old }
    {
        match self {
            FileKind::UploadStart(version) => {
                if index == start as usize {
                    Some(Upload {
                        version: *version,
                        pass,
                    })
                } else {
                    old
                }
            }
            FileKind::Uploaded { start: ended, .. }
            | FileKind::UploadDropped { start: ended, .. } => {
                if *ended == start { None } else { old }
            }
            _ => old,
        }
    }

    /// The moment of the last use after an entry of this kind that was made at `now`.
    pub(crate) fn atime_after(&self, now: u64, old: u64) -> u64
        ensures { result ≡ atime_after self.now now old }
    {
        match self {
            FileKind::Create
            | FileKind::Adopt(_)
            | FileKind::Opened(_)
            | FileKind::Read { .. }
            | FileKind::Write { .. }
            | FileKind::SetSize(_)
            | FileKind::Closed => now,
            _ => old,
        }
    }

    /// The free places that an entry of this kind takes: an open handle and a begun upload keep one for their end, which
    /// takes none then.
    pub fn places(&self) -> u32
        ensures { result ≡ places self.now }
    {
        match self {
            FileKind::Opened(_) | FileKind::UploadStart(_) => 2,
            FileKind::Closed | FileKind::Uploaded { .. } | FileKind::UploadDropped { .. } => 0,
            _ => 1,
        }
    }
}
