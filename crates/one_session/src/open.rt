ghost use Rattle.std.specs.Prelude.{◌≡◌, ◌⊎◌, ◌≤◌, ◌+◌, ◌++◌, List, [], ◌∷◌, false, Some, length, OnErr, IfOk, IfErr};
ghost use Rattle.vfs_names.specs.declared.refusal.Refusal.TheVariants as Refusal;
ghost use Rattle.vfs_outside.specs.Causes.{Rose};
ghost use Rattle.vfs_outside.specs.declared.tree.TreeEntry.{TreeEntry};
ghost use Rattle.vfs_outside.specs.declared.tree.TreeKind.TheVariants as trees;
ghost use Rattle.session_text.specs.declared.reply.Reply.TheVariants as reply;
ghost use Rattle.one_session.specs.Calls.{ListsOnce, in_tree, refused_open};
ghost use Rattle.one_session.specs.Looking.{listed_place};
ghost use Rattle.one_session.specs.Tree.{is_listed};

use crate::outcome::Outcome;
use crate::tree::Tree;
use session_text::Reply;
use shown_rows::ShownRows;
use std::alloc::Global;
use vfs_names::{By, NoMemory, Refusal, VPath, Verb};
use vfs_outside::{Remote, RemoteError, TreeEntry, TreeKind};

/// The copies of an open's path that its entries take, made before anything is done.
#[derive(Drop)]
pub(crate) struct Names {
    pub(crate) own: VPath,
    pub(crate) gone: VPath,
    pub(crate) file: VPath,
}

impl Names {
    pub(crate) fn of(alloc: Global, path: &VPath) -> Result<Names, NoMemory>
        ensures own { IfOk result (λ names. names.own ≡ path.now) }
        ensures gone { IfOk result (λ names. names.gone ≡ path.now) }
        ensures file { IfOk result (λ names. names.file ≡ path.now) }
    {
        let Ok(own) = path.copy(alloc) else {
            return Err(NoMemory);
        };
        let Ok(gone) = path.copy(alloc) else {
            return Err(NoMemory);
        };
        match path.copy(alloc) {
            Ok(file) => Ok(Names { own, gone, file }),
            Err(_) => Err(NoMemory),
        }
    }
}

/// Says in the tree that an open was refused; takes no memory.
pub(crate) fn refuse(tree: &mut Tree, by: By, path: VPath, why: Refusal) -> Outcome
    requires room { 1 ≤ tree.old.spare }
    ensures entries { tree.new.entries ≡ tree.old.entries ++ refused_open by path why ∷ [] }
    ensures limit { tree.new.limit ≡ tree.old.limit }
    ensures reply { result.reply ≡ reply.Refused why }
    ensures place { result.tree ≡ Some (length tree.old.entries) }
    ensures file { result.file ≡ None }
{
    let place = tree.len();
    let kind = TreeKind::Refused {
        verb: Verb::Open,
        path,
        why,
    };
    tree.push(TreeEntry { by, kind });
    Outcome::refused(why, place)
}

/// Says in the tree that the object at a path is gone, and that an open was refused for it; takes no memory.
pub(crate) fn lose(tree: &mut Tree, by: By, gone: VPath, own: VPath) -> Outcome
    requires room { 2 ≤ tree.old.spare }
    requires same { gone ≡ own }
    ensures entries { tree.new.entries ≡ tree.old.entries
        ++ in_tree by (trees.Gone own) ∷ refused_open by own Refusal.NotFound ∷ [] }
    ensures limit { tree.new.limit ≡ tree.old.limit }
    ensures reply { result.reply ≡ reply.Refused Refusal.NotFound }
    ensures place { result.tree ≡ Some (length tree.old.entries + 1) }
    ensures file { result.file ≡ None }
{
    let kind = TreeKind::Gone(gone);
    tree.push(TreeEntry { by, kind });
    refuse(tree, by, own, Refusal::NotFound)
}

/// Lists the root where it wasn't yet, and tells where the listing stands. Where that fails nothing is added.
pub(crate) fn refresh<R: Remote>(
    tree: &mut Tree,
    alloc: Global,
    remote: &mut R,
    by: By,
) -> Result<Option<u32>, Refusal>
    requires room { 1 ≤ tree.old.spare }
    ensures ok { IfOk result (λ place. (lists : List TreeEntry)
        × (tree.new.entries ≡ tree.old.entries ++ lists)
        × ListsOnce by tree.old.entries lists × (place ≡ listed_place tree.old.entries lists)) }
    ensures err { OnErr result (tree.new.entries ≡ tree.old.entries) }
    ensures unlisted { OnErr result (is_listed tree.old.entries ≡ false) }
    ensures spare { tree.old.spare ≤ tree.new.spare + 1 }
    ensures kept { OnErr result (tree.new.spare ≡ tree.old.spare) }
    ensures limit { tree.new.limit ≡ tree.old.limit }
    ensures faults { (R.outside remote.old).faults ≤ (R.outside remote.new).faults }
    ensures changes { (R.outside remote.old).changes ≤ (R.outside remote.new).changes }
    ensures handed { (R.outside remote.new).handed ≡ (R.outside remote.old).handed }
    ensures causes { IfErr result (λ why.
        ((why ≡ Refusal.NotFound) × Rose (R.outside remote.old).changes (R.outside remote.new).changes)
        ⊎ ((why ≡ Refusal.RemoteFault)
        × Rose (R.outside remote.old).faults (R.outside remote.new).faults)
        ⊎ (why ≡ Refusal.NoMemory)) }
{
    if tree.is_listed() {
        return Ok(None);
    }
    let root = VPath::root(alloc);
    match remote.list(alloc, &root) {
        Ok(listing) => match ShownRows::of(alloc, listing.rows()) {
            Ok(rows) => {
                let place = tree.len();
                tree.push_listing(by, root, listing, rows);
                Ok(Some(place))
            }
            Err(NoMemory) => Err(Refusal::NoMemory),
        },
        Err(RemoteError::Missing) => Err(Refusal::NotFound),
        Err(RemoteError::Failed) => Err(Refusal::RemoteFault),
        Err(RemoteError::NoMemory) => Err(Refusal::NoMemory),
        Err(RemoteError::Exists) => unreachable!(),
        Err(RemoteError::NotEmpty) => unreachable!(),
    }
}
