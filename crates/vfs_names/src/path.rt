ghost use Rattle.std.specs.Prelude.{◌≡◌, ◌==◌, ◌↔◌, [], true, false, length, IfOk, IfSome, IfNone, IsNone};
ghost use Rattle.vfs_names.specs.Path.{is_name, is_path, names_of, IsParent, IsLastSlash, NoSlashFrom};
ghost use Rattle.std.specs.List.{list_all};
ghost use Rattle.std.specs.Str.{IsCharBoundary};

use crate::NoMemory;
use std::alloc::Global;
use std::marker::Model;

/// A path: UTF-8, at most 1,024 bytes, names joined by `/`. The root is the empty text. Contracts see its bytes.
#[derive(Debug, Drop)]
pub struct VPath {
    text: String,
}

impl Model for VPath {
    ghost use Rattle.std.specs.Prelude.{◌≡◌, true, ℕ, List, string_bytes};
    ghost use Rattle.vfs_names.specs.Path.{is_path};

    ghost Value = { List ℕ };

    ghost view = { λ p. string_bytes p.text };

    ghost invariant = { λ p. is_path (string_bytes p.text) ≡ true };
}

/// Why a text gives no path.
#[derive(Clone, Copy, Debug, PartialEq, Eq)]
pub enum NameError {
    /// The text isn't a path.
    BadName,
    NoMemory,
}

/// Whether the text can be a name of a path, where no `/` stands in it.
#[tactic(auto, unfolding(crate::specs::Path::is_name))]
pub fn is_name(name: &str) -> bool
    ensures { result ≡ is_name name.now }
{
    let bytes = name.as_bytes();
    !bytes.is_empty()
        && bytes != b".".as_slice()
        && bytes != b"..".as_slice()
        && !bytes.contains(&0)
        && !bytes.starts_with(b".vfs-stage-")
}

fn has_names(text: &str) -> bool
    ensures { result ≡ list_all is_name (names_of text.now) }
{
    match text.split_once('/') {
        None => is_name(text),
        Some((name, rest)) => is_name(name) && has_names(rest),
    }
}

fn is_path(text: &str) -> bool
    ensures { result ≡ is_path text.now }
{
    text.len() <= 1024 && (text.is_empty() || has_names(text))
}

/// Where the last slash of the text stands.
fn last_slash(text: &str) -> Option<usize>
    ensures found { IfSome result (λ i. IsLastSlash i text.now) }
    ensures boundary { IfSome result (λ i. IsCharBoundary text.now i) }
    ensures none { IfNone result (NoSlashFrom 0 text.now) }
{
    text.rfind('/')
}

impl VPath {
    /// The path that this text is.
    pub fn parse(alloc: Global, text: &str) -> Result<VPath, NameError>
        ensures ok { IfOk result (λ path. path ≡ text.now) }
        ensures bad { (result ≡ Err NameError.BadName) ↔ (is_path text.now ≡ false) }
    {
        if !is_path(text) {
            return Err(NameError::BadName);
        }
        match String::from_str(alloc, text) {
            Ok(text) => Ok(VPath { text }),
            Err(_) => Err(NameError::NoMemory),
        }
    }

    /// The root; takes no memory.
    pub fn root(alloc: Global) -> VPath
        ensures { result ≡ [] }
    {
        VPath {
            text: String::new(alloc),
        }
    }

    pub fn is_root(&self) -> bool
        ensures { result ≡ (length self.now == 0) }
    {
        self.text.is_empty()
    }

    /// The directory that the path lies in; None for the root.
    pub fn parent(&self, alloc: Global) -> Result<Option<VPath>, NoMemory>
        ensures root { IfOk result (λ found. IsNone found ↔ (self.now ≡ [])) }
        ensures parent { IfOk result (λ found. IfSome found (λ parent. IsParent parent self.now)) }
    {
        if self.text.is_empty() {
            return Ok(None);
        }
        match last_slash(self.text.as_str()) {
            None => Ok(Some(VPath::root(alloc))),
            Some(slash) => match String::from_str(alloc, &self.text[..slash]) {
                Ok(text) => Ok(Some(VPath { text })),
                Err(_) => Err(NoMemory),
            },
        }
    }

    pub fn copy(&self, alloc: Global) -> Result<VPath, NoMemory>
        ensures { IfOk result (λ path. path ≡ self.now) }
    {
        match String::from_str(alloc, self.text.as_str()) {
            Ok(text) => Ok(VPath { text }),
            Err(_) => Err(NoMemory),
        }
    }

    /// The text of the path.
    pub fn as_str(&self) -> &str
        ensures text { result.now ≡ self.now }
        ensures path { is_path self.now ≡ true }
    {
        self.text.as_str()
    }
}

impl PartialEq for VPath {
    ghost use Rattle.std.specs.Prelude.{nat_eq};
    ghost use lib.Pointwise.{pointwise};
    ghost use Rattle.std.proofs.Common.{rules};
    ghost use Rattle.std.specs.Cmp.Rules.{comparing};

    ghost eq = { λ x y. pointwise nat_eq x y };

    ghost laws = { Prim.search (comparing, rules) };

    fn eq(&self, other: &VPath) -> bool {
        self.text == other.text
    }
}

impl Eq for VPath {
    ghost use Rattle.std.proofs.Common.{rules};
    ghost use Rattle.std.specs.Cmp.Rules.{comparing};

    ghost laws = { Prim.search (comparing, rules) };
}
