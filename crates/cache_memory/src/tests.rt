ghost use Rattle.std.specs.Prelude.{false};

use crate::*;
use std::alloc::Global;
use std::process::Abort;
use std::test::Fail;
use vfs_outside::{CacheDisk, CacheFile, DiskError};

#[derive(Clone, Copy)]
enum Step {
    Meta,
    Save(&'static str),
    // four bytes
    Read(u64),
    Write(u64, &'static str),
    Clear { keep: bool },
}

const LAST: u64 = (1 << 40) - 1;

const SLOT: u32 = 3;

// The calls on a slot's file, and what each gives; the numbers of those that fail are `FAILS`.
const STEPS: [(Step, Option<&str>); 19] = [
    (Step::Meta, Some("")),
    (Step::Save("lost"), None),
    (Step::Meta, Some("")),
    (Step::Save("one"), Some("")),
    (Step::Meta, None),
    (Step::Write(10, "abcd"), Some("")),
    (Step::Read(10), Some("abcd")),
    (Step::Write(12, "wxyz"), None),
    (Step::Read(10), Some("abwx")),
    (Step::Read(10), None),
    (Step::Clear { keep: false }, None),
    (Step::Meta, Some("one")),
    (Step::Clear { keep: true }, Some("")),
    (Step::Meta, Some("")),
    (Step::Read(10), Some("abwx")),
    (Step::Save("two"), Some("")),
    (Step::Write(LAST, "z"), Some("")),
    (Step::Read(LAST - 3), Some("\0\0\0z")),
    (Step::Clear { keep: false }, Some("")),
];

const FAILS: [u64; 5] = [2, 5, 8, 10, 11];

// What a step gives: a text, four bytes, or nothing.
fn act<F: CacheFile>(alloc: Global, file: &mut F, step: Step) -> Result<Vec<u8>, DiskError> {
    match step {
        Step::Meta => match file.read_meta()? {
            Some(text) => Ok(text.into_vec()),
            None => Ok(Vec::new(alloc)),
        },
        Step::Save(text) => {
            file.save_meta(text.as_bytes())?;
            Ok(Vec::new(alloc))
        }
        Step::Read(pos) => {
            let mut into = [0u8; 4];
            if pos > LAST - 3 {
                return Err(DiskError::NoMemory);
            }
            file.read_at(pos, &mut into)?;
            into.to_vec(alloc).map_err(|_| DiskError::NoMemory)
        }
        Step::Write(pos, text) => {
            if pos > LAST || text.len() as u64 > LAST + 1 - pos {
                return Err(DiskError::NoMemory);
            }
            file.write_at(pos, text.as_bytes())?;
            Ok(Vec::new(alloc))
        }
        Step::Clear { keep } => {
            file.clear(keep)?;
            Ok(Vec::new(alloc))
        }
    }
}

// The step gives this text, or fails where there is none.
fn expect<F: CacheFile>(
    rt: &(impl Abort + AllocGlobal),
    file: &mut F,
    step: Step,
    expected: Option<&str>,
) {
    match act(rt.alloc(), file, step) {
        Ok(bytes) => assert_eq!(rt;
            Some(bytes.as_slice()),
            expected.map(|text| text.as_bytes())
        ),
        Err(why) => {
            assert_eq!(rt; why, DiskError::Failed);
            assert_eq!(rt; expected, None);
        }
    }
}

// A disk whose slot's file was handed out once, for all the steps.
fn stepped(rt: &(impl Abort + AllocGlobal)) -> Result<MemoryDisk, Fail> {
    let mut disk = MemoryDisk::new(rt.alloc());
    for nth in FAILS {
        disk.fail(SLOT, nth)?;
    }
    assert!(rt; !disk.is_out(SLOT));
    let mut file = disk.take(SLOT)?;
    for (step, expected) in STEPS {
        expect(rt, &mut file, step, expected);
    }
    assert!(rt; disk.is_out(SLOT));
    disk.give_back(SLOT, file);
    Ok(disk)
}

#[test]
fn each_call_does_what_it_says_and_images_are_those_between(rt: HostRuntime) -> Result<(), Fail> {
    let disk = stepped(&rt)?;
    assert_eq!(rt; disk.calls(SLOT), STEPS.len() as u64);
    let table = [
        (0, "", None),
        (3, "", None),
        (4, "one", None),
        (6, "one", Some("abcd")),
        (7, "one", Some("abcd")),
        (8, "one", Some("abwx")),
        (11, "one", Some("abwx")),
        (13, "", Some("abwx")),
        (16, "two", Some("abwx")),
        (18, "two", Some("abwx")),
        (19, "", None),
        (99, "", None),
    ];
    for (cut, text, bytes) in table {
        let mut image = disk.image(&[(SLOT, cut), (SLOT, 0)])?;
        assert_eq!(rt; image.calls(SLOT), 0);
        assert!(rt; !image.is_out(SLOT));
        let mut file = image.take(SLOT)?;
        expect(&rt, &mut file, Step::Meta, Some(text));
        if bytes.is_some() {
            expect(&rt, &mut file, Step::Read(10), bytes);
        }
    }
    Ok(())
}

#[test]
fn planned_calls_of_the_disk_fail(rt: HostRuntime) -> Result<(), Fail> {
    let mut disk = MemoryDisk::new(rt.alloc());
    disk.fail_disk(DiskCall::Attach, 1)?;
    disk.fail_disk(DiskCall::Slots, 2)?;
    disk.fail_disk(DiskCall::Take, 1)?;
    for expected in [Err(DiskError::Failed), Ok(())] {
        assert_eq!(rt; disk.attach("c"), expected);
        assert!(rt; !disk.is_out(7));
        let taken = disk.take(7);
        assert_eq!(rt; taken.is_ok(), expected.is_ok());
    }
    for slot in [9, 0, 4] {
        disk.set_meta(slot, b"m".to_vec(rt.alloc())?)?;
    }
    assert!(rt; disk.is_out(7));
    let expected: [Option<&[u32]>; 3] = [Some(&[0, 4, 9]), None, Some(&[0, 4, 9])];
    for listed in expected {
        let slots = disk.slots().ok();
        assert_eq!(rt; slots.as_deref(), listed);
    }
    Ok(())
}

#[test]
fn a_slot_that_no_cut_names_is_as_it_is_now(rt: HostRuntime) -> Result<(), Fail> {
    let mut disk = stepped(&rt)?;
    disk.set_meta(8, b"eight".to_vec(rt.alloc())?)?;
    disk.set_meta(SLOT, b"set".to_vec(rt.alloc())?)?;
    assert_eq!(rt; disk.calls(SLOT), 0);
    let mut image = disk.image(&[(8, 0)])?;
    for (slot, text) in [(8, "eight"), (SLOT, "set"), (5, "")] {
        assert!(rt; !image.is_out(slot));
        let mut file = image.take(slot)?;
        expect(&rt, &mut file, Step::Meta, Some(text));
    }
    Ok(())
}
