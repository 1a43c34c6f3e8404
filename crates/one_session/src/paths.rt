ghost use Rattle.std.specs.Prelude.{◌≡◌, ◌++◌, ◌<◌, ◌≤◌, ◌+◌, [], ◌∷◌, None, IfSome, OnOk, length, string_bytes};
ghost use Rattle.std.specs.List.{position};
ghost use Rattle.vfs_names.specs.Path.{same_text};

use indexmap::IndexSet;
use std::alloc::Global;
use std::marker::Model;
use vfs_names::{NoMemory, VPath};

/// Paths, no two of them equal, found by their text and numbered in the order in which they came.
#[derive(Drop)]
pub(crate) struct Paths {
    set: IndexSet<String>,
}

impl Model for Paths {
    ghost use Rattle.std.specs.Prelude.{map, string_bytes};
    ghost use Rattle.indexmap.specs.IndexSet.{spare};
    ghost use Rattle.one_session.specs.Views.{Numbered};

    ghost Value = { Numbered };

    ghost view = { λ p. record { paths = map string_bytes p.set.keys; spare = spare p.set } };
}

impl Paths {
    pub(crate) fn new(alloc: Global) -> Paths
        ensures { result.paths ≡ [] }
    {
        Paths {
            set: IndexSet::new(alloc),
        }
    }

    /// Makes room for one more path.
    pub(crate) fn reserve(&mut self) -> Result<(), NoMemory>
        ensures ok { OnOk result (0 < self.new.spare) }
        ensures paths { self.new.paths ≡ self.old.paths }
    {
        match self.set.reserve(1) {
            Ok(()) => Ok(()),
            Err(_) => Err(NoMemory),
        }
    }

    /// The number of the path.
    pub(crate) fn find(&self, path: &VPath) -> Option<usize>
        ensures found { result ≡ position (same_text path.now) self.now.paths }
        ensures within { IfSome result (λ i. i < length self.now.paths) }
    {
        self.set.get_index_of(path.as_str())
    }

    /// Puts a path that isn't there at the end, for which room was made.
    pub(crate) fn push(&mut self, text: String)
        requires room { 0 < self.old.spare }
        requires absent { position (same_text (string_bytes text)) self.old.paths ≡ None }
        ensures { self.new.paths ≡ self.old.paths ++ string_bytes text ∷ [] }
    {
        let Ok(_) = self.set.insert(text) else {
            unreachable!();
        };
    }
}
