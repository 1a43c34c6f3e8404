ghost use Rattle.std.specs.Prelude.{◌≡◌, ℕ, false, IfOk, OnOk};
ghost use Rattle.vfs_outside.specs.Disk.{SameOut};
ghost use Rattle.cache_memory.specs.Disks.{disk_of};

use super::cuts::expect_cuts;
use super::steps::{STEPS, Step, are_right, is_fault, run_steps};
use super::*;
use cache_memory::DiskCall;
use session_text::Record;

/// What fails.
#[derive(Clone, Copy, Debug)]
enum Fault {
    Nothing,
    /// The call of this number on each file of the slot.
    Call(u32, u64),
    /// The disk's call of this kind and number.
    Disk(DiskCall, u64),
}

fn plan_at(disk: &mut MemoryDisk, fault: Fault) -> Result<(), Fail>
    ensures { OnOk result (SameOut (disk_of disk.old) (disk_of disk.new)) }
{
    match fault {
        Fault::Nothing => {}
        Fault::Call(slot, nth) => disk.fail(slot, nth)?,
        Fault::Disk(call, nth) => disk.fail_disk(call, nth)?,
    }
    Ok(())
}

/// A disk with these faults.
fn disk_with(alloc: Global, faults: [Fault; 2]) -> Result<MemoryDisk, Fail>
    ensures { IfOk result (λ disk. (slot : ℕ) → (disk_of disk).out slot ≡ false) }
{
    let [first, second] = faults;
    let mut disk = MemoryDisk::new(alloc);
    plan_at(&mut disk, first)?;
    plan_at(&mut disk, second)?;
    Ok(disk)
}

/// A run of these steps over a disk with these faults.
fn run_faulty(
    alloc: Global,
    steps: &[Step],
    faults: [Fault; 2],
) -> Result<Ended<MemoryRemote, MemoryDisk>, Fail> {
    run_steps(alloc, steps, disk_with(alloc, faults)?)
}

/// The first call that the disk refused.
fn first_refused(records: &[Record]) -> Option<usize> {
    records.iter().position(|record| is_fault(&record.reply))
}

/// The steps, where that of this number is done three times, one after the other.
fn tried_again(alloc: Global, again: usize) -> Result<Vec<Step>, Fail> {
    let mut steps = Vec::new(alloc);
    for (number, step) in STEPS.iter().enumerate() {
        steps.push(*step)?;
        if number == again {
            steps.push(*step)?;
            steps.push(*step)?;
        }
    }
    Ok(steps)
}

/// The run is done, and each reply is right, where a call that is refused did nothing.
fn expect_run(
    rt: &(impl Abort + AllocGlobal),
    steps: &[Step],
    faults: [Fault; 2],
) -> Result<Ended<MemoryRemote, MemoryDisk>, Fail> {
    let ended = run_faulty(rt.alloc(), steps, faults)?;
    assert_eq!(rt; ended.status, 0, "{faults:?}");
    assert_eq!(rt; ended.epochs.len(), 1, "{faults:?}");
    for epoch in &ended.epochs {
        assert!(rt; are_right(steps, &epoch.records), "{faults:?}");
    }
    Ok(ended)
}

/// The call that is refused first.
fn refused_in(ended: &Ended<MemoryRemote, MemoryDisk>) -> Option<usize> {
    match ended.epochs.first() {
        Some(epoch) => first_refused(&epoch.records),
        None => None,
    }
}

/// The last time that the step was tried it was done, and nothing later is refused.
fn expect_done(
    rt: &(impl Abort + AllocGlobal),
    faults: [Fault; 2],
    again: usize,
) -> Result<(), Fail> {
    let steps = tried_again(rt.alloc(), again)?;
    let ended = expect_run(rt, &steps, faults)?;
    for epoch in &ended.epochs {
        let later = epoch.records.get(again.saturating_add(2)..).unwrap_or(&[]);
        assert_eq!(rt; first_refused(later), None, "{faults:?}");
    }
    Ok(())
}

/// The run goes on with these faults, and the call that is refused would be done if it were tried again.
fn expect_mended(
    rt: &(impl Abort + AllocGlobal),
    faults: [Fault; 2],
) -> Result<Ended<MemoryRemote, MemoryDisk>, Fail> {
    let ended = expect_run(rt, &STEPS, faults)?;
    if let Some(again) = refused_in(&ended) {
        expect_done(rt, faults, again)?;
    }
    Ok(ended)
}

/// The same where the call of this number on the file of a slot fails, and what stands in the slot after each of the
/// calls from the one before it on is a front of the history.
fn expect_slot(
    rt: &(impl Abort + AllocGlobal),
    slot: u32,
    nth: u64,
    second: Fault,
) -> Result<(), Fail> {
    let ended = expect_mended(rt, [Fault::Call(slot, nth), second])?;
    expect_cuts(rt, &ended, slot, nth.saturating_sub(1))
}

/// How many calls the steps make on the file of each slot.
const CALLS: [(u32, u64); 3] = [(0, 30), (1, 11), (2, 17)];

/// Each call on each file fails alone. Where it is the first one no file is made in the slot.
#[test]
fn each_call_of_a_slot_fails(rt: HostRuntime) -> Result<(), Fail> {
    for (slot, calls) in CALLS {
        let _ = expect_run(&rt, &STEPS, [Fault::Call(slot, 1), Fault::Nothing])?;
        for nth in 2..calls.saturating_add(1) {
            expect_slot(&rt, slot, nth, Fault::Nothing)?;
        }
    }
    Ok(())
}

/// Each call on each file fails with the one after it.
#[test]
fn two_calls_of_a_slot_fail(rt: HostRuntime) -> Result<(), Fail> {
    for (slot, calls) in CALLS {
        for nth in 2..calls.saturating_add(1) {
            expect_slot(&rt, slot, nth, Fault::Call(slot, nth.saturating_add(1)))?;
        }
    }
    Ok(())
}

/// A file can't be taken from its slot, once or twice in a row.
#[test]
fn each_take_fails(rt: HostRuntime) -> Result<(), Fail> {
    for nth in [1u64, 2, 3] {
        let again = Fault::Disk(DiskCall::Take, nth.saturating_add(1));
        for second in [Fault::Nothing, again] {
            let _ = expect_mended(&rt, [Fault::Disk(DiskCall::Take, nth), second])?;
        }
    }
    Ok(())
}

/// Where the disk can't be attached or looked at, no step is done.
#[test]
fn a_disk_that_is_not_ready_ends_the_run(rt: HostRuntime) -> Result<(), Fail> {
    for call in [DiskCall::Attach, DiskCall::Slots] {
        let fault = Fault::Disk(call, 1);
        let ended = run_faulty(rt.alloc(), &STEPS, [fault, Fault::Nothing])?;
        assert_eq!(rt; ended.status, 6);
        assert_eq!(rt; ended.epochs.len(), 0);
        let ended = run_faulty(rt.alloc(), &STEPS, [Fault::Disk(call, 2), Fault::Nothing])?;
        assert_eq!(rt; ended.status, 0);
    }
    Ok(())
}

/// The faults, the script, and what its run prints.
type Case = ([Fault; 2], &'static str, &'static str);

/// The save of a write, and that of a size, fail; the data of a write fails, and so does the next call, which settles it;
/// a file can't be taken.
const TOLD: [Case; 4] = [
    (
        [Fault::Call(0, 2), Fault::Nothing],
        "s1 open 0 a rw create\ns1 write 0 0 text:hello\ns1 write 0 0 text:hello\ns1 size 0 3\ns1 read 0 0 8\ns1 close 0\n",
        "start files 0 queued 0 damaged 0
1 ok [t1 f0:1]
2 E14 disk fault [f0:2]
3 ok 5 [f0:3]
4 ok [f0:4]
5 ok 3 68656c [f0:5]
6 ok [t2 f0:6]
tree
0 s1 0 listed / 1
1 s1 0 created a 0
2 s1 0 closed 0 dirty
file 0 a
0 s1 0 1 create
1 s1 0 1 opened rw
2 s1 0 2 refused write E14 disk fault
3 s1 0 3 write 0 hex:68656c6c6f
4 s1 0 5 size 3
5 s1 0 6 read 0 8
6 s1 0 6 closed
queue
0 5000 0
end 0
",
    ),
    (
        [Fault::Call(0, 4), Fault::Nothing],
        "s1 open 0 a rw create\ns1 write 0 0 text:hello\ns1 size 0 3\ns1 read 0 0 8\n",
        "start files 0 queued 0 damaged 0
1 ok [t1 f0:1]
2 ok 5 [f0:2]
3 E14 disk fault [f0:3]
4 ok 5 68656c6c6f [f0:4]
tree
0 s1 0 listed / 1
1 s1 0 created a 0
file 0 a
0 s1 0 1 create
1 s1 0 1 opened rw
2 s1 0 2 write 0 hex:68656c6c6f
3 s1 0 4 refused size E14 disk fault
4 s1 0 5 read 0 8
queue
end 0
",
    ),
    (
        [Fault::Call(0, 3), Fault::Call(0, 4)],
        "s1 open 0 a rw create\ns1 write 0 0 text:hello\ns1 read 0 0 8\ns1 read 0 0 8\ns1 size 0 2\n",
        "start files 0 queued 0 damaged 0
1 ok [t1 f0:1]
2 ok 5 [f0:2]
3 E14 disk fault [f0:3]
4 ok 5 68656c6c6f [f0:4]
5 ok [f0:5]
tree
0 s1 0 listed / 1
1 s1 0 created a 0
file 0 a
0 s1 0 1 create
1 s1 0 1 opened rw
2 s1 0 2 write 0 hex:68656c6c6f
3 s1 0 4 refused read E14 disk fault
4 s1 0 6 read 0 8
5 s1 0 7 size 2
queue
end 0
",
    ),
    (
        [Fault::Disk(DiskCall::Take, 1), Fault::Nothing],
        "s1 open 0 a rw create\ns1 open 0 a rw create\n",
        "start files 0 queued 0 damaged 0
1 E14 disk fault [t1]
2 ok [t2 f0:1]
tree
0 s1 0 listed / 1
1 s1 0 refused open a E14 disk fault
2 s1 0 created a 0
file 0 a
0 s1 0 1 create
1 s1 0 1 opened rw
queue
end 0
",
    ),
];

#[test]
fn a_call_that_the_disk_refuses_is_told(rt: HostRuntime) -> Result<(), Fail> {
    let alloc = rt.alloc();
    for (faults, script, transcript) in TOLD {
        let disk = disk_with(alloc, faults)?;
        let mut source = source_of(alloc, script.as_bytes(), &[])?;
        let remote = MemoryRemote::new(alloc);
        let seen = run_on(alloc, &ROW, &mut source, &[], remote, disk)?;
        expect_text(&rt, &seen, 0, transcript);
    }
    Ok(())
}
