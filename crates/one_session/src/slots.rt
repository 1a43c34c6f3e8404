ghost use Rattle.std.specs.Prelude.{◌≡◌, ◌≢◌, ◌⊎◌, ◌≤◌, ◌+◌, ◌^◌, ◌<◌, [], None, IfOk, IfErr, OnErr, OnOk};
ghost use Rattle.vfs_outside.specs.Causes.{Rose};
ghost use Rattle.vfs_outside.specs.Image.{meta_in};
ghost use Rattle.one_session.specs.Books.{IsBegun, IsSameFile, OpensBook};
ghost use Rattle.one_session.specs.Slots.{IsUnused, Lends};
ghost use Rattle.one_session.specs.Start.{MayStart, front_of, given_by, named_by};

use crate::start::{Start, begin};
use sparse_item::{ItemBook, Parts};
use std::alloc::Global;
use vfs_names::{Access, By, ItemId, Refusal, SlotId, VPath};
use vfs_outside::{CacheDisk, CacheFile, DiskError, Object};

/// The places of a file that an open may need.
const FILE_PLACES: u32 = 4;

/// A file with no entry, in the slot of its number.
fn take_file<O: Object, D: CacheDisk>(
    alloc: Global,
    disk: &mut D,
    n: u32,
    limit: u32,
) -> Result<ItemBook<O, D::File>, Refusal>
    requires lends { Lends D.tells n (D.disk disk.old) }
    ensures unused { IfOk result (IsUnused D.File.tells n limit) }
    ensures taken { OnOk result (Lends D.tells (n + 1) (D.disk disk.new)) }
    ensures kept { OnErr result (Lends D.tells n (D.disk disk.new)) }
    ensures faults { (D.disk disk.old).faults ≤ (D.disk disk.new).faults }
    ensures causes { IfErr result (λ why. ((why ≡ Refusal.DiskFault)
        × Rose (D.disk disk.old).faults (D.disk disk.new).faults) ⊎ (why ≡ Refusal.NoMemory)) }
{
    match disk.take(n) {
        Ok(file) => Ok(ItemBook::fresh(alloc, ItemId(n), SlotId(n), file, limit)),
        Err(DiskError::Failed) => Err(Refusal::DiskFault),
        Err(DiskError::NoMemory) => Err(Refusal::NoMemory),
    }
}

/// Gives back the file of a slot that no entry was made of.
fn return_file<O: Object, D: CacheDisk>(disk: &mut D, n: u32, book: ItemBook<O, D::File>)
    requires lends { Lends D.tells (n + 1) (D.disk disk.old) }
    requires blank { D.File.tells → meta_in book.slot.told.first ≡ None }
    requires none { book.log.past ≡ [] }
    requires unnamed { book.names ≡ [] }
    requires ungiven { book.pairs ≡ [] }
    ensures lends { Lends D.tells n (D.disk disk.new) }
    ensures faults { (D.disk disk.old).faults ≤ (D.disk disk.new).faults }
    ensures rose { Rose 0 book.slot.faults
        → Rose (D.disk disk.old).faults (D.disk disk.new).faults }
{
    book.images();
    let Parts { file, .. } = book.into_parts();
    disk.give_back(n, file);
}

/// Makes room for the entries of a new file, begins it so, and opens it.
fn begin_file<O: Object, F: CacheFile>(
    file: &mut ItemBook<O, F>,
    by: By,
    path: VPath,
    start: Start<O>,
    access: Access,
) -> Result<(), Refusal>
    requires none { file.old.log.past ≡ [] }
    requires limit { 4 ≤ file.old.log.limit }
    requires file { path ≢ [] }
    requires may { MayStart O.print_of start [] }
    ensures did { OpensBook F.tells by access (front_of O.print_of start) (named_by path start)
        (given_by O.print_of O.bytes start) file.old file.new result }
{
    match file.reserve(FILE_PLACES) {
        Ok(()) => begin(file, by, path, start, access),
        Err(why) => Err(why),
    }
}

/// Takes the file of the next number from its slot, begins it so, and opens it. Where that is refused, the file is given
/// back with nothing said of it.
pub(crate) fn begin_next<O: Object, D: CacheDisk>(
    alloc: Global,
    disk: &mut D,
    n: u32,
    limit: u32,
    by: By,
    path: VPath,
    start: Start<O>,
    access: Access,
) -> Result<ItemBook<O, D::File>, Refusal>
    requires lends { Lends D.tells n (D.disk disk.old) }
    requires limit { 4 ≤ limit }
    requires file { path ≢ [] }
    requires may { MayStart O.print_of start [] }
    ensures begun { IfOk result (IsBegun D.File.tells n limit by access (front_of O.print_of start)
        (named_by path start) (given_by O.print_of O.bytes start)) }
    ensures taken { OnOk result (Lends D.tells (n + 1) (D.disk disk.new)) }
    ensures kept { OnErr result (Lends D.tells n (D.disk disk.new)) }
    ensures faults { (D.disk disk.old).faults ≤ (D.disk disk.new).faults }
    ensures causes { IfErr result (λ why. ((why ≡ Refusal.DiskFault)
        × Rose (D.disk disk.old).faults (D.disk disk.new).faults) ⊎ (why ≡ Refusal.NoMemory)) }
{
    let mut file = match take_file(alloc, disk, n, limit) {
        Ok(file) => file,
        Err(why) => return Err(why),
    };
    match begin_file(&mut file, by, path, start, access) {
        Ok(()) => Ok(file),
        Err(why) => {
            return_file(disk, n, file);
            Err(why)
        }
    }
}
