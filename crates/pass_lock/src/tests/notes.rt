// A lock round a list of notes, in two threads.
ghost use Rattle.std.specs.Prelude.{◌≡◌, ◌==◌, ℕ, ◌≤◌, true, [], ◌∷◌, ◌++◌, if◌then◌else◌, IfSome};
ghost use Rattle.pass_lock.specs.Lists.{entries_of};
ghost use Rattle.pass_lock.specs.Passes.{lock_id, number_of, mine_of, made_by, IsPassOf};

use crate::{Logged, Pass, PassLock};
use std::alloc::Global;
use std::sync::Wait;
use std::test::Fail;
use std::thread;
use std::thread::Threads;

#[derive(Clone, Copy, Debug, PartialEq, Eq)]
pub struct Note {
    pub by: u64,
    pub word: u64,
}

#[derive(Drop)]
pub struct Notes {
    pub notes: Vec<Note>,
}

impl Logged for Notes {
    type Entry = Note;

    type Terms = ();

    ghost entries = { λ s. s.notes.items };

    ghost belongs = { λ e n. e.by == n };

    ghost terms = { λ s. tt };

    fn count(&self) -> u64 {
        self.notes.len() as u64
    }
}

// Adds a note under the pass's own number, where there is memory.
pub fn add<R: Wait>(rt: &R, lock: &PassLock<Notes>, pass: &mut Pass<Notes>, word: u64) -> bool
    requires { IsPassOf (lock_id lock.now) (number_of pass.old) pass.old }
    ensures pass { IsPassOf (lock_id lock.now) (number_of pass.old) pass.new }
    ensures made { made_by pass.new ≡ made_by pass.old }
    ensures mine { mine_of (λ e n. e.by == n) pass.new (number_of pass.old)
        ≡ mine_of (λ e n. e.by == n) pass.old (number_of pass.old)
        ++ (if result then (record { by = number_of pass.old; word = word } ∷ []) else []) }
{
    let by = pass.number();
    let mut held = lock.lock(rt, pass);
    let done = held.state().notes.push(Note { by, word }).is_ok();
    lock.unlock(held, pass);
    done
}

// Adds two, and says whether there was memory for both.
fn add_two<R: Wait>(
    rt: &R,
    lock: &PassLock<Notes>,
    mut pass: Pass<Notes>,
    first: u64,
    second: u64,
) -> (Pass<Notes>, bool)
    requires { IsPassOf (lock_id lock.now) (number_of pass) pass }
    ensures pass { IsPassOf (lock_id lock.now) (number_of pass) result.0 }
    ensures made { made_by result.0 ≡ made_by pass }
    ensures mine { result.1 ≡ true → mine_of (λ e n. e.by == n) result.0 (number_of pass)
        ≡ mine_of (λ e n. e.by == n) pass (number_of pass)
        ++ (record { by = number_of pass; word = first }
        ∷ record { by = number_of pass; word = second } ∷ []) }
{
    let done = add(rt, lock, &mut pass, first) && add(rt, lock, &mut pass, second);
    (pass, done)
}

// Two threads add two notes each by passes of their own. One takes in the other, and the lock is closed.
fn four<R: Threads + Wait + Sync>(rt: &R, alloc: Global) -> Option<Notes>
    ensures first { IfSome result (λ l. entries_of (λ e n. e.by == n) 0 l.notes.items
        ≡ record { by = 0; word = 1 } ∷ record { by = 0; word = 2 } ∷ []) }
    ensures second { IfSome result (λ l. entries_of (λ e n. e.by == n) 1 l.notes.items
        ≡ record { by = 1; word = 3 } ∷ record { by = 1; word = 4 } ∷ []) }
    ensures others { IfSome result (λ l. (n : ℕ) → 2 ≤ n → entries_of (λ e n. e.by == n) n l.notes.items ≡ []) }
{
    let notes = Notes {
        notes: Vec::new(alloc),
    };
    let Ok((lock, mut one)) = PassLock::new(alloc, notes) else {
        return None;
    };
    let two = lock.split(&mut one);
    let shared = &lock;
    let ((mut one, first), (two, second)) = thread::join(
        rt,
        move || -> (Pass<Notes>, bool)
            requires pass { IsPassOf (lock_id shared.now) 0 one × (made_by one ≡ 2) }
            requires none { mine_of (λ e n. e.by == n) one 0 ≡ [] }
            ensures pass { IsPassOf (lock_id shared.entry.now) 0 result.0 × (made_by result.0 ≡ 2) }
            ensures mine { result.1 ≡ true → mine_of (λ e n. e.by == n) result.0 0
                ≡ record { by = 0; word = 1 } ∷ record { by = 0; word = 2 } ∷ [] }
        { add_two(rt, shared, one, 1, 2) },
        move || -> (Pass<Notes>, bool)
            requires pass { IsPassOf (lock_id shared.now) 1 two × (made_by two ≡ 0) }
            requires none { mine_of (λ e n. e.by == n) two 1 ≡ [] }
            ensures pass { IsPassOf (lock_id shared.entry.now) 1 result.0 × (made_by result.0 ≡ 0) }
            ensures mine { result.1 ≡ true → mine_of (λ e n. e.by == n) result.0 1
                ≡ record { by = 1; word = 3 } ∷ record { by = 1; word = 4 } ∷ [] }
        { add_two(rt, shared, two, 3, 4) },
    );
    if !first || !second {
        return None;
    }
    lock.absorb(&mut one, two);
    lock.audit(&mut one);
    Some(lock.close(one))
}

// The second pass adds a note, tells the first of it, is taken in and parted again, and adds another.
fn parted<R: Wait>(rt: &R, alloc: Global) -> Option<Notes>
    ensures { IfSome result (λ l. entries_of (λ e n. e.by == n) 1 l.notes.items
        ≡ record { by = 1; word = 5 } ∷ record { by = 1; word = 6 } ∷ []) }
{
    let notes = Notes {
        notes: Vec::new(alloc),
    };
    let Ok((lock, mut first)) = PassLock::new(alloc, notes) else {
        return None;
    };
    let mut second = lock.split(&mut first);
    if !add(rt, &lock, &mut second, 5) {
        return None;
    }
    lock.tell(&mut second, &mut first);
    lock.absorb(&mut first, second);
    let mut second = lock.part(&mut first, 1);
    if !add(rt, &lock, &mut second, 6) {
        return None;
    }
    lock.absorb(&mut first, second);
    Some(lock.close(first))
}

#[test]
fn a_pass_is_told_taken_in_and_parted(rt: HostRuntime) -> Result<(), Fail> {
    let notes = parted(&rt, rt.alloc()).ok_or("no memory")?.notes;
    let words = [Note { by: 1, word: 5 }, Note { by: 1, word: 6 }];
    assert_eq!(rt; notes.as_slice(), words.as_slice());
    Ok(())
}

#[test]
fn two_threads_lock_twice_each(rt: HostRuntime) -> Result<(), Fail> {
    let notes = four(&rt, rt.alloc()).ok_or("no memory")?.notes;
    assert_eq!(rt; notes.len(), 4);
    for (by, words) in [(0, [1, 2]), (1, [3, 4])] {
        let mut found = notes.iter().filter(|note| note.by == by);
        for word in words {
            assert_eq!(rt; found.next().copied(), Some(Note { by, word }));
        }
        assert_eq!(rt; found.next().copied(), None);
    }
    Ok(())
}
