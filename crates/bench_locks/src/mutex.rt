// The same by std's `Mutex`.
use crate::plan::Plan;
use std::alloc::Global;
use std::sync::{Mutex, Wait};
use std::thread;
use std::thread::Threads;

fn lock_many<R: Wait>(rt: &R, mutex: &Mutex<u64>, times: u64) {
    for _ in 0..times {
        let mut guard = mutex.lock(rt);
        *guard = guard.wrapping_add(1);
    }
}

fn locked_in<R: Wait>(rt: &R, mutex: &Mutex<u64>) -> u64 {
    let guard = mutex.lock(rt);
    *guard
}

/// As `passes::under_one`.
pub fn under_one<R: Threads + Wait + Sync>(rt: &R, alloc: Global, plan: &Plan) -> Option<u64> {
    let mutex = Mutex::new(0u64);
    let mut done = vec![in alloc; 0u8; plan.threads].ok()?;
    let threads = done.len().max(1);
    let times = plan.times;
    thread::for_each_mut(
        rt,
        done.as_mut_slice(),
        threads,
        &|_, _| lock_many(rt, &mutex, times),
    );
    Some(locked_in(rt, &mutex))
}

/// As `passes::under_each`.
pub fn under_each<R: Threads + Wait + Sync>(rt: &R, alloc: Global, plan: &Plan) -> Option<u64> {
    let mut mutexes = Vec::new(alloc);
    for _ in 0..plan.threads {
        mutexes.push(Mutex::new(0u64)).ok()?;
    }
    let threads = mutexes.len().max(1);
    let times = plan.times;
    thread::for_each_mut(
        rt,
        mutexes.as_mut_slice(),
        threads,
        &|_, mutex| lock_many(rt, mutex, times),
    );
    let mut locked = 0u64;
    for mutex in mutexes.iter() {
        locked = locked.wrapping_add(locked_in(rt, mutex));
    }
    Some(locked)
}
