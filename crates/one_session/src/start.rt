ghost use Rattle.std.specs.Prelude.{◌≡◌, ◌≢◌, ◌⊎◌, ◌<◌, ◌≤◌, ◌+◌, ◌++◌, [], true, map, reverse, OnErr, OnOk, IfErr};
ghost use Rattle.vfs_outside.specs.Causes.{Rose};
ghost use Rattle.item_core.specs.History.{base_end_of, is_kept};
ghost use Rattle.item_core.specs.Log.{free};
ghost use Rattle.sparse_item.specs.Item.{IsSupplied};
ghost use Rattle.sparse_item.specs.Sound.{is_begun};
ghost use Rattle.one_session.specs.Books.{HasSame, IsSameFile, OpensBook};
ghost use Rattle.one_session.specs.Calls.{in_file};
ghost use Rattle.one_session.specs.Start.{MayStart, front_of, given_by, is_create, named_by, opened_kind};

use sparse_item::ItemBook;
use vfs_names::{Access, By, Fingerprint, ItemId, Refusal, VPath};
use vfs_outside::{CacheFile, Object, TreeKind};

/// How an open begins a file.
#[derive(Drop)]
pub(crate) enum Start<O: Object> {
    /// As it is.
    Kept,
    /// Anew.
    Create,
    /// With another hold of the object that it holds.
    Bind(O),
    /// With the content of an object.
    Adopt(O),
}

impl<O: Object> Start<O> {
    /// The file is made anew.
    pub(crate) fn creates(&self) -> bool
        ensures { result ≡ is_create self.now }
    {
        match self {
            Start::Create => true,
            Start::Kept => false,
            Start::Bind(_) => false,
            Start::Adopt(_) => false,
        }
    }
}

/// The tree's entry for an open.
pub(crate) fn opened_kind(
    created: bool,
    path: VPath,
    item: u32,
    print: Option<Fingerprint>,
) -> TreeKind
    ensures { result ≡ opened_kind created path item print }
{
    if created {
        return TreeKind::Created {
            path,
            item: ItemId(item),
        };
    }
    TreeKind::Opened {
        path,
        item: ItemId(item),
        print,
    }
}

/// Does what an open does to a file before it is opened.
fn start_file<O: Object, F: CacheFile>(
    file: &mut ItemBook<O, F>,
    by: By,
    path: VPath,
    start: Start<O>,
) -> Result<(), Refusal>
    requires room { 4 ≤ file.old.log.spare }
    requires places { 4 ≤ free file.old.log }
    requires file { path ≢ [] }
    requires may { MayStart O.print_of start file.old.log.past }
    requires begun { start ≡ Start.Kept → is_begun file.old.log.past ≡ true }
    ensures same { IsSameFile F.tells file.old file.new }
    ensures ok { OnOk result (file.new.log.past
        ≡ reverse (map (in_file by true file.new.slot.calls) (front_of O.print_of start))
        ++ file.old.log.past) }
    ensures kept { OnOk result (is_kept file.new.log.past ≡ true) }
    ensures supplied { OnOk result (IsSupplied file.new.base.state file.new.here
        (base_end_of file.new.log.past)) }
    ensures left { OnOk result (2 ≤ file.new.log.spare) }
    ensures names { OnOk result (file.new.names ≡ named_by path start ++ file.old.names) }
    ensures pairs { OnOk result (file.new.pairs
        ≡ given_by O.print_of O.bytes start ++ file.old.pairs) }
    ensures err { OnErr result (file.new.log.past ≡ file.old.log.past) }
    ensures some { OnErr result (front_of O.print_of start ≢ []) }
    ensures has_same { OnErr result (HasSame file.old file.new) }
    ensures causes { IfErr result (λ why. ((why ≡ Refusal.DiskFault)
        × Rose file.old.slot.faults file.new.slot.faults) ⊎ (why ≡ Refusal.NoMemory)) }
{
    let by = By { tree: true, ..by };
    match start {
        Start::Kept => {
            let _state = file.base_state();
            Ok(())
        }
        Start::Create => file.create(by, path),
        Start::Bind(object) => match file.bind(by, object) {
            Ok(_) => Ok(()),
            Err(why) => Err(why),
        },
        Start::Adopt(object) => file.adopt(by, path, object),
    }
}

/// Begins a file and opens it, for which room was made.
pub(crate) fn begin<O: Object, F: CacheFile>(
    file: &mut ItemBook<O, F>,
    by: By,
    path: VPath,
    start: Start<O>,
    access: Access,
) -> Result<(), Refusal>
    requires room { 4 ≤ file.old.log.spare }
    requires places { 4 ≤ free file.old.log }
    requires file { path ≢ [] }
    requires may { MayStart O.print_of start file.old.log.past }
    requires begun { start ≡ Start.Kept → is_begun file.old.log.past ≡ true }
    ensures did { OpensBook F.tells by access (front_of O.print_of start) (named_by path start)
        (given_by O.print_of O.bytes start) file.old file.new result }
{
    match start_file(file, by, path, start) {
        Ok(()) => {
            file.open_reserved(By { tree: true, ..by }, access);
            Ok(())
        }
        Err(why) => Err(why),
    }
}
