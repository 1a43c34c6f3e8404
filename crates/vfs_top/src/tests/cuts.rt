use super::disk_image::stands;
use super::plain::Plain;
use super::steps::{STEPS, are_right, run_steps};
use super::*;
use one_session::FileLog;

/// What stands in a file's slot after each number of calls on it, from this one on, is the file by those of its entries
/// that took effect by then.
fn expect_fronts(
    rt: &(impl Abort + AllocGlobal),
    disk: &MemoryDisk,
    slot: u32,
    from: u64,
    log: &FileLog,
) -> Result<(), Fail> {
    let Some(name) = log.names.last() else {
        return Err(Fail::from("a file with no name"));
    };
    for calls in from..disk.calls(slot).saturating_add(1) {
        let plain = Plain::after(&log.entries, calls);
        let mut image = disk.image(&[(slot, calls)])?;
        let stands = stands(rt, &mut image, slot, name.as_str(), &plain)?;
        assert!(rt; stands, "slot {slot} after {calls} calls");
    }
    Ok(())
}

/// The same of the file of a slot of a run.
pub fn expect_cuts(
    rt: &(impl Abort + AllocGlobal),
    ended: &Ended<MemoryRemote, MemoryDisk>,
    slot: u32,
    from: u64,
) -> Result<(), Fail> {
    for epoch in &ended.epochs {
        let Some(log) = epoch.files.get(slot as usize) else {
            return Err(Fail::from("no such file"));
        };
        expect_fronts(rt, &ended.disk, slot, from, log)?;
    }
    Ok(())
}

/// The disk is cut off after each of its calls.
#[test]
fn each_image_is_a_front_of_the_history(rt: HostRuntime) -> Result<(), Fail> {
    let ended = run_steps(rt.alloc(), &STEPS, MemoryDisk::new(rt.alloc()))?;
    assert_eq!(rt; ended.status, 0);
    for epoch in &ended.epochs {
        assert!(rt; are_right(&STEPS, &epoch.records));
        assert_eq!(rt; epoch.files.len(), 3);
    }
    for (slot, calls) in [(0, 30), (1, 11), (2, 17)] {
        assert_eq!(rt; ended.disk.calls(slot), calls, "slot {slot}");
        expect_cuts(&rt, &ended, slot, 0)?;
    }
    Ok(())
}
