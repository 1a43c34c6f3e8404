// Threads that lock by passes.
ghost use Rattle.std.specs.Prelude.{◌≡◌, ◌+◌, ◌≤◌, ◌<◌, [], ◌∷◌, false, All, IfSome};
ghost use Rattle.pass_lock.specs.Passes.{lock_id, lock_of, number_of, numbers_of, made_by, IsFree, IsPassOf};

use crate::plan::Plan;
use pass_lock::{Logged, Pass, PassLock};
use std::alloc::Global;
use std::sync::Wait;
use std::thread;
use std::thread::Threads;

/// How often it was locked. It tells no entries, so that a lock alone is measured.
#[derive(Drop)]
pub struct Tally {
    locked: u64,
}

impl Logged for Tally {
    type Entry = ();

    type Terms = ();

    ghost entries = { λ s. [] };

    ghost belongs = { λ e n. false };

    ghost terms = { λ s. tt };

    fn count(&self) -> u64 {
        0
    }
}

fn lock_many<R: Wait>(rt: &R, lock: &PassLock<Tally>, pass: &mut Pass<Tally>, times: u64)
    requires { IsPassOf (lock_id lock.now) (number_of pass.old) pass.old }
    ensures pass { IsPassOf (lock_id lock.now) (number_of pass.old) pass.new }
    ensures made { made_by pass.new ≡ made_by pass.old }
{
    for _ in 0..times {
        let mut held = lock.lock(rt, pass);
        let tally = held.state();
        tally.locked = tally.locked.wrapping_add(1);
        lock.unlock(held, pass);
    }
}

fn locked_in<R: Wait>(rt: &R, lock: &PassLock<Tally>, pass: &mut Pass<Tally>) -> u64
    requires { IsPassOf (lock_id lock.now) (number_of pass.old) pass.old }
    ensures { IsPassOf (lock_id lock.now) (number_of pass.old) pass.new }
{
    let mut held = lock.lock(rt, pass);
    let locked = held.state().locked;
    lock.unlock(held, pass);
    locked
}

/// All threads lock one lock. It tells how often it was locked; `None` for want of memory.
pub fn under_one<R: Threads + Wait + Sync>(rt: &R, alloc: Global, plan: &Plan) -> Option<u64> {
    let (lock, mut first) = PassLock::new(alloc, Tally { locked: 0 }).ok()?;
    let mut passes = passes_of(alloc, &lock, &mut first, plan.threads)?;
    let threads = passes.len().max(1);
    let times = plan.times;
    thread::for_each_mut(
        rt,
        passes.as_mut_slice(),
        threads,
        &|_, pass| lock_many(rt, &lock, pass, times),
    );
    Some(locked_in(rt, &lock, &mut first))
}

// A pass of the lock for each thread.
fn passes_of(
    alloc: Global,
    lock: &PassLock<Tally>,
    first: &mut Pass<Tally>,
    threads: usize,
) -> Option<Vec<Pass<Tally>>>
    requires pass { IsPassOf (lock_id lock.now) 0 first.old }
    requires made { made_by first.old ≡ 1 }
    requires few { threads ≤ 64 }
    ensures pass { IsPassOf (lock_id lock.now) 0 first.new }
    ensures passes { IfSome result (λ v. All (λ p. IsPassOf (lock_id lock.now) (number_of p) p) v.items) }
{
    let mut passes = Vec::new(alloc);
    for number in 0..threads {
        passes.push(lock.split(first)).ok()?;
    }
    Some(passes)
}

// A lock with its first pass.
#[derive(Drop)]
struct Own {
    lock: PassLock<Tally>,
    pass: Pass<Tally>,
    ghost fits: { lock_of pass ≡ lock_id lock },
    ghost free: { IsFree pass },
    ghost number: { number_of pass ≡ 0 },
    ghost numbers: { numbers_of pass ≡ 0 ∷ [] },
    ghost made: { made_by pass ≡ 1 },
}

impl Own {
    fn new(alloc: Global) -> Option<Own> {
        let (lock, pass) = PassLock::new(alloc, Tally { locked: 0 }).ok()?;
        Some(Own { lock, pass })
    }

    fn lock_many<R: Wait>(&mut self, rt: &R, times: u64) {
        lock_many(rt, &self.lock, &mut self.pass, times);
    }

    // How often it was locked, once it is closed.
    fn into_locked(self) -> u64 {
        let Own { lock, pass } = self;
        lock.close(pass).locked
    }
}

/// Each thread locks a lock of its own. It tells how often all were locked; `None` for want of memory.
pub fn under_each<R: Threads + Wait + Sync>(rt: &R, alloc: Global, plan: &Plan) -> Option<u64> {
    let mut owns = Vec::new(alloc);
    for _ in 0..plan.threads {
        owns.push(Own::new(alloc)?).ok()?;
    }
    let threads = owns.len().max(1);
    let times = plan.times;
    thread::for_each_mut(
        rt,
        owns.as_mut_slice(),
        threads,
        &|_, own| own.lock_many(rt, times),
    );
    let mut locked = 0u64;
    for own in owns {
        locked = locked.wrapping_add(own.into_locked());
    }
    Some(locked)
}
