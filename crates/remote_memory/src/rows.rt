ghost use Rattle.std.specs.Prelude.{◌≡◌, ◌≢◌, ◌++◌, ◌∷◌, [], ℕ, List, Some, IfOk, IfSome, IfNone, OnOk};
ghost use Rattle.std.specs.Option.{option_copied};
ghost use Rattle.vfs_outside.specs.RowName.{IsRowName};
ghost use Rattle.vfs_outside.specs.Store.{child};
ghost use Rattle.vfs_outside.specs.Told.{ShowsAs, row_of};
ghost use Rattle.remote_memory.specs.Nodes.{AddsNode, ListsDir, thing_of};

use crate::below::rest_below;
use crate::node::{Kept, Node};
use std::alloc::Global;
use vfs_names::{Blob, Fingerprint, NoMemory, VPath};
use vfs_outside::{Kind, Row, Rows, is_row_name};

/// The text that gives the path as that of a name in the directory.
fn rest_in<'a>(dir: &[u8], path: &'a [u8]) -> Option<&'a [u8]>
    ensures some { IfSome result (λ rest. path.now ≡ child dir.now rest.now) }
    ensures none { IfNone result ((rest : List ℕ) → path.now ≢ child dir.now rest) }
{
    if dir.is_empty() {
        Some(path)
    } else {
        rest_below(dir, path)
    }
}

/// The name of the path in the directory.
fn name_in<'a>(dir: &[u8], path: &'a [u8]) -> Option<&'a [u8]>
    ensures some { IfSome result (λ name. (path.now ≡ child dir.now name.now) × IsRowName name.now) }
    ensures none { IfNone result ((name : List ℕ) → IsRowName name → path.now ≢ child dir.now name) }
{
    match rest_in(dir, path) {
        Some(rest) => { if is_row_name(rest) { Some(rest) } else { None } }
        None => None,
    }
}

fn row_at<'a>(rows: &'a [Row], name: &[u8]) -> Option<&'a Row>
    ensures { option_copied result ≡ row_of name.now rows.now }
{
    rows.iter().find(|row| row.name.as_slice() == name)
}

fn make_row(alloc: Global, name: &[u8], kept: &Kept) -> Result<Row, NoMemory>
    ensures name { IfOk result (λ row. row.name ≡ name.now) }
    ensures shows { IfOk result (λ row. ShowsAs (Some row) (Some (thing_of kept.now))) }
{
    let Ok(name) = Blob::from_slice(alloc, name) else {
        return Err(NoMemory);
    };
    match kept {
        Kept::Dir => Ok(Row {
            name,
            kind: Kind::Dir,
            print: Fingerprint {
                size: 0,
                mtime: 0,
                rev: 0,
            },
        }),
        Kept::File(stored) => Ok(Row {
            name,
            kind: Kind::File,
            print: stored.print(),
        }),
    }
}

fn push_row(rows: &mut Vec<Row>, row: Row) -> Result<(), NoMemory>
    ensures { OnOk result (rows.new.items ≡ rows.old.items ++ row ∷ []) }
{
    match rows.push(row) {
        Ok(()) => Ok(()),
        Err(_) => Err(NoMemory),
    }
}

/// One more node is looked at.
fn add_node(alloc: Global, rows: &mut Vec<Row>, dir: &VPath, node: &Node) -> Result<(), NoMemory>
    ensures { OnOk result (AddsNode dir.now node.now rows.old.items rows.new.items) }
{
    match name_in(dir.as_str().as_bytes(), node.path.as_str().as_bytes()) {
        Some(name) => match row_at(rows.as_slice(), name) {
            Some(_row) => Ok(()),
            None => {
                let Ok(row) = make_row(alloc, name, &node.kept) else {
                    return Err(NoMemory);
                };
                push_row(rows, row)
            }
        },
        None => Ok(()),
    }
}

/// The rows of a directory, in the order of the nodes.
pub fn rows_of(alloc: Global, nodes: &[Node], dir: &VPath) -> Result<Rows, NoMemory>
    ensures { IfOk result (λ rows. ListsDir dir.now nodes.now rows) }
{
    let mut rows = Vec::new(alloc);
    for node in nodes {
        match add_node(alloc, &mut rows, dir, node) {
            Ok(()) => {}
            Err(why) => return Err(why),
        }
    }
    Ok(Rows::from_vec(rows))
}
