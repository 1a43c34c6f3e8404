//! A law on what a call does. It holds whatever was stored.
ghost use Rattle.std.specs.Prelude.{◌≡◌, ◌≤◌, ℕ, ◌++◌, List, [], ◌∷◌};
ghost use Rattle.std.specs.List.{AllByRecursion};
ghost use Rattle.vfs_names.specs.declared.fingerprint.Fingerprint.{Fingerprint};
ghost use Rattle.vfs_names.specs.declared.who.Actor.TheVariants.{Session};
ghost use Rattle.vfs_names.specs.declared.who.By.{By};
ghost use Rattle.vfs_outside.specs.declared.tree.TreeEntry.{TreeEntry};
ghost use Rattle.item_core.specs.declared.entry.Entry.{Entry};
ghost use Rattle.session_script.specs.declared.call.CallLine.{CallLine};
ghost use Rattle.session_text.specs.declared.reply.Record.{Record};
ghost use Rattle.one_session.specs.Did.{Did};
ghost use Rattle.one_session.specs.Served.{Knows, Serves};
ghost use Rattle.one_session.specs.State.{State, entries_in};

use vfs_outside::{CacheFile, Object};

/// A call that does what calls do, told by the state before it, leaves a state that matches all calls so far and it.
pub fn what_a_call_does_matches<O: Object, F: CacheFile>()
    ensures { (session : ℕ) (by : By) (line : CallLine) (done : Record) (s t : State)
        (more before : List (Fingerprint × List ℕ))
        → by.who.actor ≡ Session session → done.line ≡ line.line
        → t.records ≡ s.records ++ done ∷ []
        → AllByRecursion (λ (e : TreeEntry). e.by.who.phase ≤ by.who.phase) s.tree
        → ((item : ℕ) → AllByRecursion (λ (e : Entry). e.by.who.phase ≤ by.who.phase) (entries_in s.files item))
        → Did session (Knows F.tells O.tells (more ++ before)) by line.call done s t
        → Serves session F.tells O.tells before (more ++ before) by line done s t }
{}
