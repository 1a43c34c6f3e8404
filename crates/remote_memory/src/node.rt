ghost use Rattle.std.specs.Prelude.{◌≡◌, ◌≢◌, ◌<◌, ◌≤◌, [], IfOk, IfSome, IfNone, MatchBool, Some, filter, not, vec_len};
ghost use Rattle.std.specs.Option.{option_copied};
ghost use Rattle.std.specs.Vec.{vec_capacity};
ghost use Rattle.vfs_names.specs.Path.{same_text};
ghost use Rattle.vfs_outside.specs.Store.{CanPut, Dir, File, IsFile, SameStore, with};
ghost use Rattle.remote_memory.specs.declared.node.Node.{Node};
ghost use Rattle.remote_memory.specs.Nodes.{fingerprint_of, node_at, store_of, thing_of};

use std::alloc::Global;
use vfs_names::{Blob, Fingerprint, NoMemory, VPath};

/// An object's bytes, with what its fingerprint tells beside their number.
#[derive(Debug, Drop)]
pub struct Stored {
    pub mtime: u64,
    pub rev: u64,
    pub bytes: Blob,
}

impl Stored {
    pub fn print(&self) -> Fingerprint
        ensures { result ≡ fingerprint_of self.now }
    {
        Fingerprint {
            size: self.bytes.as_slice().len() as u64,
            mtime: self.mtime,
            rev: self.rev,
        }
    }

    pub fn copy(&self, alloc: Global) -> Result<Stored, NoMemory>
        ensures { IfOk result (λ object. object ≡ self.now) }
    {
        match Blob::from_slice(alloc, self.bytes.as_slice()) {
            Ok(bytes) => Ok(Stored {
                mtime: self.mtime,
                rev: self.rev,
                bytes,
            }),
            Err(why) => Err(why),
        }
    }
}

/// What stands at a path.
#[derive(Debug, Drop)]
pub enum Kept {
    Dir,
    File(Stored),
}

/// A path below the root, with what stands there.
#[derive(Debug, Drop)]
pub struct Node {
    pub path: VPath,
    pub kept: Kept,
}

/// The node that counts at a path.
pub fn node_at<'a>(nodes: &'a [Node], path: &VPath) -> Option<&'a Node>
    ensures { option_copied result ≡ node_at nodes.now path.now }
{
    nodes.iter().find(|node| node.path == *path)
}

/// The object that stands at a path.
pub fn object_at<'a>(nodes: &'a [Node], path: &VPath) -> Option<&'a Stored>
    ensures some { IfSome result (λ o. store_of nodes.now path.now ≡ Some (File (fingerprint_of o.now) o.now.bytes)) }
    ensures none { IfNone result (¬ (IsFile (store_of nodes.now path.now))) }
{
    if path.is_root() {
        return None;
    }
    match node_at(nodes, path) {
        Some(node) => match &node.kept {
            Kept::File(stored) => Some(stored),
            Kept::Dir => None,
        },
        None => None,
    }
}

/// Whether a directory stands at a path.
pub fn is_dir(nodes: &[Node], dir: &VPath) -> bool
    ensures { MatchBool result (store_of nodes.now dir.now ≡ Some Dir) (store_of nodes.now dir.now ≢ Some Dir) }
{
    if dir.is_root() {
        return true;
    }
    match node_at(nodes, dir) {
        Some(node) => match &node.kept {
            Kept::Dir => true,
            Kept::File(_) => false,
        },
        None => false,
    }
}

/// Whether an object can be put at the path: its parent is a directory, and none stands at the path itself.
pub fn can_put(alloc: Global, nodes: &[Node], path: &VPath) -> Result<bool, NoMemory>
    ensures { IfOk result (λ can. MatchBool can (CanPut path.now (store_of nodes.now)) (¬ (CanPut path.now (store_of nodes.now)))) }
{
    if is_dir(nodes, path) {
        return Ok(false);
    }
    let Ok(found) = path.parent(alloc) else {
        return Err(NoMemory);
    };
    let Some(parent) = found else {
        return Ok(false);
    };
    Ok(is_dir(nodes, &parent))
}

/// Takes the nodes of a path away.
fn take_path(nodes: &mut Vec<Node>, path: &VPath)
    ensures items { nodes.new.items ≡ filter (λ (n : Node). not (same_text path.now n.path)) nodes.old.items }
    ensures len { vec_len nodes.new ≤ vec_len nodes.old }
    ensures capacity { vec_capacity nodes.new ≡ vec_capacity nodes.old }
{
    nodes.retain(|node| *path != node.path);
}

/// The node stands at its path, in place of what stood there.
pub fn put_node(nodes: &mut Vec<Node>, node: Node)
    requires path { node.path ≢ [] }
    requires room { vec_len nodes.old < vec_capacity nodes.old }
    ensures { SameStore (store_of nodes.new.items) (with node.path (Some (thing_of node.kept)) (store_of nodes.old.items)) }
{
    take_path(nodes, &node.path);
    nodes.push_reserved(node);
}
