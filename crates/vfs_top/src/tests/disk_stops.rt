ghost use Rattle.std.specs.Prelude.{◌≡◌, ℕ, false, IfOk, OnOk};
ghost use Rattle.vfs_outside.specs.Disk.{SameOut};
ghost use Rattle.cache_memory.specs.Disks.{disk_of};

use super::*;
use cache_memory::DiskCall;

/// What is so of the disk before a run.
#[derive(Clone, Copy, Debug)]
enum Plan {
    Nothing,
    Fails(DiskCall),
    /// The slot has metadata of this text.
    HasMeta(u32, &'static [u8]),
}

/// What is so before a run, its script, and how it ends.
#[derive(Clone, Copy)]
struct Case {
    remote_fails: bool,
    plans: [Plan; 2],
    script: &'static str,
    status: u8,
    text: &'static str,
}

fn plan_at(alloc: Global, disk: &mut MemoryDisk, plan: Plan) -> Result<(), Fail>
    ensures { OnOk result (SameOut (disk_of disk.old) (disk_of disk.new)) }
{
    match plan {
        Plan::Nothing => {}
        Plan::Fails(call) => disk.fail_disk(call, 1)?,
        Plan::HasMeta(slot, text) => disk.set_meta(slot, text.to_vec(alloc)?)?,
    }
    Ok(())
}

/// A disk of which this is so.
fn disk_with(alloc: Global, plans: [Plan; 2]) -> Result<MemoryDisk, Fail>
    ensures { IfOk result (λ disk. (slot : ℕ) → (disk_of disk).out slot ≡ false) }
{
    let [first, second] = plans;
    let mut disk = MemoryDisk::new(alloc);
    plan_at(alloc, &mut disk, first)?;
    plan_at(alloc, &mut disk, second)?;
    Ok(disk)
}

/// A store that can be attached, or can't.
fn store(alloc: Global, fails: bool) -> Result<MemoryRemote, Fail> {
    let mut remote = MemoryRemote::new(alloc);
    if fails {
        remote.fail(RemoteCall::Attach, 1)?;
    }
    Ok(remote)
}

const DISK_FAULT: &str = "disk fault\nend 6\n";

const SLOTS: &str = "limit slots 0\nend 7\n";

/// The script is read first, the remote is attached next, and then the disk; none of the script's calls is run.
const CASES: [Case; 10] = [
    Case {
        remote_fails: false,
        plans: [Plan::Fails(DiskCall::Attach), Plan::Nothing],
        script: OPEN,
        status: 6,
        text: DISK_FAULT,
    },
    Case {
        remote_fails: false,
        plans: [Plan::Fails(DiskCall::Attach), Plan::Nothing],
        script: "",
        status: 6,
        text: DISK_FAULT,
    },
    Case {
        remote_fails: false,
        plans: [Plan::Fails(DiskCall::Slots), Plan::Nothing],
        script: OPEN,
        status: 6,
        text: DISK_FAULT,
    },
    Case {
        remote_fails: false,
        plans: [Plan::Fails(DiskCall::Slots), Plan::HasMeta(0, b"x")],
        script: OPEN,
        status: 6,
        text: DISK_FAULT,
    },
    Case {
        remote_fails: false,
        plans: [Plan::HasMeta(0, b"x"), Plan::Nothing],
        script: OPEN,
        status: 7,
        text: SLOTS,
    },
    Case {
        remote_fails: false,
        plans: [Plan::HasMeta(4_294_967_295, b""), Plan::Nothing],
        script: "",
        status: 7,
        text: SLOTS,
    },
    Case {
        remote_fails: false,
        plans: [Plan::HasMeta(3, b"{}"), Plan::HasMeta(7, b"{}")],
        script: "join\n",
        status: 7,
        text: SLOTS,
    },
    Case {
        remote_fails: true,
        plans: [Plan::Fails(DiskCall::Attach), Plan::Nothing],
        script: OPEN,
        status: 6,
        text: "remote fault\nend 6\n",
    },
    Case {
        remote_fails: true,
        plans: [Plan::HasMeta(0, b"x"), Plan::Nothing],
        script: OPEN,
        status: 6,
        text: "remote fault\nend 6\n",
    },
    Case {
        remote_fails: false,
        plans: [Plan::Fails(DiskCall::Attach), Plan::HasMeta(0, b"x")],
        script: "s1 jump\n",
        status: 3,
        text: "script line 1: verb\nend 3\n",
    },
];

#[test]
fn a_disk_that_cannot_be_used_is_told(rt: HostRuntime) -> Result<(), Fail> {
    let alloc = rt.alloc();
    for case in CASES {
        let remote = store(alloc, case.remote_fails)?;
        let disk = disk_with(alloc, case.plans)?;
        let mut source = source_of(alloc, case.script.as_bytes(), &[])?;
        let seen = run_on(alloc, &ROW, &mut source, &[], remote, disk)?;
        expect_text(&rt, &seen, case.status, case.text);
        assert_eq!(rt; seen.records.len(), 0);
    }
    Ok(())
}
