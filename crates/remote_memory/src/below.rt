ghost use Rattle.std.specs.Prelude.{◌≡◌, ◌≢◌, ◌++◌, ◌∷◌, ℕ, List, IfSome, IfNone};
ghost use Rattle.remote_memory.specs.Nodes.{is_below};

use vfs_names::VPath;

/// What stands in the path after the directory and a slash.
pub fn rest_below<'a>(dir: &[u8], path: &'a [u8]) -> Option<&'a [u8]>
    ensures some { IfSome result (λ rest. path.now ≡ dir.now ++ 47 ∷ rest.now) }
    ensures none { IfNone result ((rest : List ℕ) → path.now ≢ dir.now ++ 47 ∷ rest) }
{
    match (dir, path) {
        ([], [b'/', rest @ ..]) => Some(rest),
        ([a, dir @ ..], [b, path @ ..]) if a == b => rest_below(dir, path),
        _ => None,
    }
}

fn lies_below(dir: &[u8], path: &[u8]) -> bool
    ensures { result ≡ is_below dir.now path.now }
{
    match rest_below(dir, path) {
        Some(_rest) => true,
        None => false,
    }
}

/// Whether the path lies below the directory, which isn't the root.
pub fn is_below(dir: &VPath, path: &VPath) -> bool
    ensures { result ≡ is_below dir.now path.now }
{
    lies_below(dir.as_str().as_bytes(), path.as_str().as_bytes())
}
