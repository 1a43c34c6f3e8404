//! How long threads take to lock: `PassLock` beside std's `Mutex`, each round a counter.
//!
//! The words are the number of threads, how often each locks, and `one` or `each`: one lock for all,
//! or a lock for each thread. With a fourth word it prints nanoseconds too.
#![tactic(auto)]

mod mutex;
mod passes;
mod plan;

use crate::plan::{Plan, Share};
use anyhow::{Context, bail};
use std::env;
use std::time::Instant;

fn main(rt: HostRuntime) -> anyhow::Result<()> {
    let mut words = Vec::new(rt.alloc());
    for word in env::args(&rt)? {
        words.push(word)?;
    }
    let Some(plan) = Plan::read(words.as_slice()) else {
        bail!("usage: bench_locks THREADS TIMES one|each [time]");
    };
    let start = Instant::now(&rt)?;
    let locked = match plan.share {
        Share::One => passes::under_one(&rt, rt.alloc(), &plan),
        Share::Each => passes::under_each(&rt, rt.alloc(), &plan),
    };
    let ours = start.elapsed(&rt)?;
    let locked = locked.context("no memory")?;
    let start = Instant::now(&rt)?;
    let locked_std = match plan.share {
        Share::One => mutex::under_one(&rt, rt.alloc(), &plan),
        Share::Each => mutex::under_each(&rt, rt.alloc(), &plan),
    };
    let theirs = start.elapsed(&rt)?;
    let locked_std = locked_std.context("no memory")?;
    println!(rt; "pass_lock locked {locked}, mutex locked {locked_std}")?;
    if plan.timed {
        println!(rt;
            "pass_lock {} ns, mutex {} ns",
            ours.as_nanos(),
            theirs.as_nanos()
        )?;
    }
    Ok(())
}
