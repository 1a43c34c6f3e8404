ghost use Rattle.std.specs.Prelude.{◌≡◌, ◌⊎◌, ◌≤◌, false, ℕ, IfErr, OnOk};
ghost use Rattle.vfs_outside.specs.Causes.{Rose};
ghost use Rattle.vfs_outside.specs.Outside.{Outside};
ghost use Rattle.one_session.specs.Slots.{Lends};
ghost use Rattle.vfs_top.specs.Around.{IsEmpty, IsStill, around};
ghost use Rattle.vfs_top.specs.Ended.{StartCause};

use crate::stop::Stop;
use run_words::RunWords;
use vfs_outside::{CacheDisk, DiskError, Remote, RemoteError};

/// Makes the remote and the disk ready by the folders' names. The disk is to have no slot with metadata.
pub fn attach<R: Remote, D: CacheDisk>(
    run: &RunWords,
    remote: &mut R,
    disk: &mut D,
) -> Result<(), Stop>
    requires free { (slot : ℕ) → (D.disk disk.old).out slot ≡ false }
    ensures lends { OnOk result (Lends D.tells 0 (D.disk disk.new)) }
    ensures empty { OnOk result (D.File.tells → IsEmpty (D.disk disk.old)) }
    ensures causes { (moment : ℕ) → IfErr result (StartCause D.File.tells
        (around moment (R.outside remote.old) (D.disk disk.old))
        (around moment (R.outside remote.new) (D.disk disk.new))) }
    ensures still { IsStill D.File.tells (D.disk disk.old) (D.disk disk.new) }
    ensures disk { (D.disk disk.old).faults ≤ (D.disk disk.new).faults }
    ensures faults { (R.outside remote.old).faults ≤ (R.outside remote.new).faults }
    ensures changes { (R.outside remote.old).changes ≤ (R.outside remote.new).changes }
    ensures handed { (R.outside remote.new).handed ≡ (R.outside remote.old).handed }
{
    match attach_remote(remote, run.remote) {
        Ok(()) => attach_disk(disk, run.cache),
        Err(stop) => Err(stop),
    }
}

/// Makes the remote ready.
fn attach_remote<R: Remote>(remote: &mut R, name: &str) -> Result<(), Stop>
    ensures causes { IfErr result (λ stop. ((stop ≡ Stop.Remote)
        × Rose (R.outside remote.old).faults (R.outside remote.new).faults)
        ⊎ (stop ≡ Stop.NoMemory)) }
    ensures faults { (R.outside remote.old).faults ≤ (R.outside remote.new).faults }
    ensures changes { (R.outside remote.old).changes ≤ (R.outside remote.new).changes }
    ensures handed { (R.outside remote.new).handed ≡ (R.outside remote.old).handed }
{
    match remote.attach(name) {
        Ok(()) => Ok(()),
        Err(RemoteError::Failed) => Err(Stop::Remote),
        Err(RemoteError::NoMemory) => Err(Stop::NoMemory),
        Err(RemoteError::Missing) => unreachable!(),
        Err(RemoteError::Exists) => unreachable!(),
        Err(RemoteError::NotEmpty) => unreachable!(),
    }
}

/// Makes the disk ready, which is to have no slot with metadata.
fn attach_disk<D: CacheDisk>(disk: &mut D, name: &str) -> Result<(), Stop>
    requires free { (slot : ℕ) → (D.disk disk.old).out slot ≡ false }
    ensures lends { OnOk result (Lends D.tells 0 (D.disk disk.new)) }
    ensures empty { OnOk result (D.File.tells → IsEmpty (D.disk disk.old)) }
    ensures causes { (moment : ℕ) (old new : Outside) → IfErr result (StartCause D.File.tells
        (around moment old (D.disk disk.old)) (around moment new (D.disk disk.new))) }
    ensures still { IsStill D.File.tells (D.disk disk.old) (D.disk disk.new) }
    ensures disk { (D.disk disk.old).faults ≤ (D.disk disk.new).faults }
{
    match disk.attach(name) {
        Ok(()) => check_empty(disk),
        Err(DiskError::Failed) => Err(Stop::Disk),
        Err(DiskError::NoMemory) => Err(Stop::NoMemory),
    }
}

/// The disk has no slot with metadata.
fn check_empty<D: CacheDisk>(disk: &mut D) -> Result<(), Stop>
    requires free { (slot : ℕ) → (D.disk disk.old).out slot ≡ false }
    ensures lends { OnOk result (Lends D.tells 0 (D.disk disk.new)) }
    ensures empty { OnOk result (D.File.tells → IsEmpty (D.disk disk.old)) }
    ensures causes { (moment : ℕ) (old new : Outside) → IfErr result (StartCause D.File.tells
        (around moment old (D.disk disk.old)) (around moment new (D.disk disk.new))) }
    ensures still { IsStill D.File.tells (D.disk disk.old) (D.disk disk.new) }
    ensures disk { (D.disk disk.old).faults ≤ (D.disk disk.new).faults }
{
    match disk.slots() {
        Ok(slots) => {
            if slots.is_empty() {
                Ok(())
            } else {
                Err(Stop::Slots)
            }
        }
        Err(DiskError::Failed) => Err(Stop::Disk),
        Err(DiskError::NoMemory) => Err(Stop::NoMemory),
    }
}
