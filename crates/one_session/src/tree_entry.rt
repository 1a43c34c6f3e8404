ghost use Rattle.std.specs.Prelude.{◌≡◌, ◌<◌, ◌≤◌, ◌+◌, ◌++◌, ◌^◌, ℕ, List, [], ◌∷◌, false, vec_len, vec_capacity};
ghost use Rattle.shown_rows.specs.Shown.{shown_in};
ghost use Rattle.one_session.specs.Tree.{is_stored, lists_root, shown_after};
ghost use Rattle.one_session.specs.TreeFacts.{handles_after};

use shown_rows::ShownRows;
use vfs_outside::{TreeEntry, TreeKind};

/// The open handles after an entry.
pub(crate) fn handles_after(kind: &TreeKind, handles: u32) -> u32
    requires { handles + 1 < 2 ^ 32 }
    ensures { result ≡ handles_after kind.now handles }
{
    match kind {
        TreeKind::Created { .. } | TreeKind::Opened { .. } => handles + 1,
        TreeKind::Closed { .. } => handles.saturating_sub(1),
        _ => handles,
    }
}

/// What the root shows after an entry that neither lists it nor stores an object; takes no memory.
pub(crate) fn reprint(rows: &mut ShownRows, kind: &TreeKind)
    requires unlisted { lists_root kind.now ≡ false }
    requires unstored { is_stored kind.now ≡ false }
    ensures { (path : List ℕ) → shown_in rows.new path
        ≡ shown_after kind.now path (shown_in rows.old path) }
{
    match kind {
        TreeKind::Gone(path) => rows.remove(path),
        TreeKind::Opened {
            path,
            print: Some(print),
            ..
        } => {
            if rows.get(path).is_some() {
                rows.set_print(path, *print);
            }
        }
        _ => {}
    }
}

/// Puts an entry at the end, for which room was made; takes no memory.
pub(crate) fn put_entry(entries: &mut Vec<TreeEntry>, entry: TreeEntry)
    requires { vec_len entries.old < vec_capacity entries.old }
    ensures items { entries.new.items ≡ entries.old.items ++ entry ∷ [] }
    ensures len { vec_len entries.new ≡ vec_len entries.old + 1 }
    ensures capacity { vec_capacity entries.old ≤ vec_capacity entries.new }
{
    entries.push(entry).unwrap();
}
