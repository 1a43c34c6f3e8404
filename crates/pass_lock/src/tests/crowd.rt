// Many threads, each with passes of its own.
ghost use Rattle.std.specs.Prelude.{◌≡◌, ◌==◌, ℕ, ◌<◌, ◌≤◌, ◌+◌, ◌^◌, [], ◌∷◌, ◌++◌, All, IfSome};
ghost use Rattle.pass_lock.specs.Passes.{lock_id, lock_of, number_of, numbers_of, made_by, IsFree, IsPassOf};

use super::notes::{Notes, add};
use crate::{Pass, PassLock};
use std::alloc::Global;
use std::sync::Wait;
use std::test::Fail;
use std::thread;
use std::thread::Threads;

const THREADS: usize = 16;

const TIMES: u64 = 2_000;

// Locks many times, and adds a note each time.
fn add_many<R: Wait>(rt: &R, lock: &PassLock<Notes>, pass: &mut Pass<Notes>)
    requires { IsPassOf (lock_id lock.now) (number_of pass.old) pass.old }
    ensures { IsPassOf (lock_id lock.now) (number_of pass.old) pass.new }
{
    for word in 0..TIMES {
        add(rt, lock, pass, word);
    }
}

// As many passes of a lock as there are threads.
fn passes_of(
    alloc: Global,
    lock: &PassLock<Notes>,
    first: &mut Pass<Notes>,
) -> Option<Vec<Pass<Notes>>>
    requires pass { IsPassOf (lock_id lock.now) 0 first.old }
    requires made { made_by first.old ≡ 1 }
    ensures pass { IsPassOf (lock_id lock.now) 0 first.new }
    ensures passes { IfSome result (λ v. All (λ p. IsPassOf (lock_id lock.now) (number_of p) p) v.items) }
{
    let mut passes = Vec::new(alloc);
    for number in 0..THREADS {
        passes.push(lock.split(first)).ok()?;
    }
    Some(passes)
}

// All threads lock the one lock.
fn under_one<R: Threads + Wait + Sync>(rt: &R, alloc: Global) -> Option<Vec<u64>> {
    let empty = Notes {
        notes: Vec::new(alloc),
    };
    let Ok((lock, mut first)) = PassLock::new(alloc, empty) else {
        return None;
    };
    let mut passes = passes_of(alloc, &lock, &mut first)?;
    thread::for_each_mut(
        rt,
        passes.as_mut_slice(),
        THREADS,
        &|_, pass| add_many(rt, &lock, pass),
    );
    let mut held = lock.lock(rt, &mut first);
    let counts = counts_of(alloc, held.state());
    lock.unlock(held, &mut first);
    counts
}

// How many notes of each number stand in a row from 0 on.
fn counts_of(alloc: Global, notes: &Notes) -> Option<Vec<u64>> {
    let mut counts = vec![in alloc; 0u64; THREADS + 1].ok()?;
    for note in notes.notes.iter() {
        if let Some(count) = counts.get_mut(note.by as usize) {
            if *count == note.word && note.word < TIMES {
                *count += 1;
            }
        }
    }
    Some(counts)
}

#[test]
fn many_threads_lock_one_lock(rt: HostRuntime) -> Result<(), Fail> {
    let counts = under_one(&rt, rt.alloc()).ok_or("no memory")?;
    let (own, others) = counts.split_first().ok_or("no counts")?;
    assert_eq!(rt; *own, 0);
    assert!(rt; others.len() == THREADS && others.iter().all(|count| *count == TIMES));
    Ok(())
}

// A lock with a pass of its own.
#[derive(Drop)]
struct Own {
    lock: PassLock<Notes>,
    pass: Pass<Notes>,
    ghost fits: { lock_of pass ≡ lock_id lock },
    ghost free: { IsFree pass },
    ghost number: { number_of pass ≡ 0 },
    ghost numbers: { numbers_of pass ≡ 0 ∷ [] },
}

impl Own {
    fn new(alloc: Global) -> Option<Own> {
        let empty = Notes {
            notes: Vec::new(alloc),
        };
        let (lock, pass) = PassLock::new(alloc, empty).ok()?;
        Some(Own { lock, pass })
    }

    fn add_many<R: Wait>(&mut self, rt: &R) {
        add_many(rt, &self.lock, &mut self.pass);
    }

    fn count<R: Wait>(&mut self, rt: &R) -> u64 {
        let mut held = self.lock.lock(rt, &mut self.pass);
        let count = held.state().notes.len() as u64;
        self.lock.unlock(held, &mut self.pass);
        count
    }
}

#[test]
fn many_threads_lock_a_lock_each(rt: HostRuntime) -> Result<(), Fail> {
    let mut owns = Vec::new(rt.alloc());
    for _ in 0..THREADS {
        owns.push(Own::new(rt.alloc()).ok_or("no memory")?)?;
    }
    thread::for_each_mut(
        &rt,
        owns.as_mut_slice(),
        THREADS,
        &|_, own| own.add_many(&rt),
    );
    for own in owns.iter_mut() {
        assert_eq!(rt; own.count(&rt), TIMES);
    }
    Ok(())
}
