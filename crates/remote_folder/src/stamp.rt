ghost use Rattle.std.specs.Prelude.{◌≡◌, ◌≢◌, ◌≤◌, ◌+◌, ◌-◌, ◌^◌, min, IfNone, IfSome};
ghost use Rattle.std.specs.Fs.{IsFile, file_type, metadata_len};
ghost use Rattle.remote_folder.specs.Stamps.{millis};

use std::fs::Metadata;
use std::os::unix::fs::MetadataExt;
use vfs_names::Fingerprint;

/// A moment of a file: seconds since 1970, and nanoseconds from there on.
#[derive(Clone, Copy, Debug, PartialEq, Eq)]
struct Moment {
    secs: i64,
    nanos: i64,
}

impl Moment {
    /// Whole milliseconds since 1970; 0 for a moment before.
    fn millis(self) -> u64
        ensures { result ≡ millis self.secs self.nanos }
    {
        let Ok(secs) = u64::try_from(self.secs) else {
            return 0;
        };
        let Ok(nanos) = u64::try_from(self.nanos) else {
            return 0;
        };
        secs.saturating_mul(1000).saturating_add(nanos / 1_000_000)
    }
}

/// The modification time in milliseconds that a new file is to have in place of an old one, and None where its own will
/// do. So files of one size that follow each other have rising times, also within one tick of the system's clock.
pub fn time_in_place(old: Fingerprint, new: Fingerprint) -> Option<u64>
    ensures later { IfSome result (λ time. time ≡ min (old.mtime + 1) (2 ^ 64 - 1)) }
    ensures near { IfSome result (λ time. (new.size ≡ old.size) × (new.mtime ≤ old.mtime)) }
    ensures other { IfNone result (new.size ≡ old.size → new.mtime ≢ old.mtime) }
{
    if new.size != old.size || new.mtime > old.mtime || old.mtime - new.mtime > 1000 {
        return None;
    }
    Some(old.mtime.saturating_add(1))
}

/// What tells one plain file, as it was at some moment, from any other file and from itself after a change.
#[derive(Clone, Copy, Debug, PartialEq, Eq)]
pub struct Stamp {
    device: u64,
    inode: u64,
    size: u64,
    modified: Moment,
    changed: Moment,
}

impl Stamp {
    /// The stamp of a plain file; None for anything else.
    pub fn of(metadata: &Metadata) -> Option<Stamp>
        ensures file { IfSome result (λ stamp. IsFile (file_type metadata.now)) }
        ensures size { IfSome result (λ stamp. stamp.size ≡ metadata_len metadata.now) }
        ensures none { IfNone result (¬ (IsFile (file_type metadata.now))) }
    {
        if !metadata.is_file() {
            return None;
        }
        Some(Stamp {
            device: metadata.dev(),
            inode: metadata.ino(),
            size: metadata.len(),
            modified: Moment {
                secs: metadata.mtime(),
                nanos: metadata.mtime_nsec(),
            },
            changed: Moment {
                secs: metadata.ctime(),
                nanos: metadata.ctime_nsec(),
            },
        })
    }

    /// How many bytes the file has.
    pub fn size(&self) -> u64
        ensures { result ≡ self.now.size }
    {
        self.size
    }

    /// The fingerprint of the file, whose revision is 0.
    pub fn print(&self) -> Fingerprint
        ensures size { result.size ≡ self.now.size }
        ensures mtime { result.mtime ≡ millis self.now.modified.secs self.now.modified.nanos }
        ensures rev { result.rev ≡ 0 }
    {
        Fingerprint {
            size: self.size,
            mtime: self.modified.millis(),
            rev: 0,
        }
    }
}
