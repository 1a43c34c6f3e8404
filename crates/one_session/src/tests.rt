ghost use Rattle.std.specs.Prelude.{◌≡◌, true};
ghost use Rattle.cache_memory.specs.Disks.{disk_of};
ghost use Rattle.one_session.specs.Served.{IsServable};
ghost use Rattle.one_session.specs.Slots.{Lends};

use crate::*;
use cache_memory::{DiskCall, MemoryDisk, MemoryFile};
use downloaders::{Limit, Plan};
use remote_memory::{MemoryObject, MemoryRemote};
use session_script::{Call, CallLine, Line, What, read_script};
use session_text::{print_file, print_reply};
use std::alloc::Global;
use std::test::Fail;
use vfs_names::{Access, Actor, Blob, By, How, ItemId, Payload, VPath, Who};
use writeback_queue::QueueTerms;

const BY: By = By {
    who: Who {
        epoch: 0,
        phase: 1,
        actor: Actor::Session(1),
    },
    pass: 0,
    tree: false,
    now: 7,
};

const HOW: How = How {
    access: Access::Both,
    create: true,
    excl: false,
    trunc: false,
    append: false,
};

const TERMS: QueueTerms = QueueTerms {
    write_back: 5000,
    transfers: 4,
};

const PLAN: Plan = Plan {
    chunk: Some(4),
    limit: Limit::Off,
};

fn is_servable(call: &Call) -> bool
    ensures { result ≡ true → IsServable call.now }
{
    match call {
        Call::Open { path, how, .. } => !path.is_root() && how.access != Access::Write,
        Call::Read { .. } => true,
        Call::Write { .. } => true,
        Call::Size { .. } => true,
        Call::Close { .. } => true,
        _ => false,
    }
}

/// Serves these calls, and prints what was recorded of them and the histories of the files.
fn serve(
    alloc: Global,
    remote: MemoryRemote,
    disk: MemoryDisk,
    limit: u32,
    lines: &[Line],
) -> Result<Blob, Fail>
    requires lends { Lends (Unit {0}) 0 (disk_of disk) }
{
    let mut remote = remote;
    let mut disk = disk;
    let mut session = OneSession::new(alloc, limit, TERMS)?;
    for line in lines {
        let What::Call(call) = &line.what else {
            return Err(Fail::new("no call"));
        };
        if call.session != 1 || !is_servable(&call.call) {
            return Err(Fail::new("a call that isn't served"));
        }
        session.reserve(1)?;
        session.serve(alloc, &mut remote, &mut disk, &PLAN, BY, call);
    }
    let mut out = Blob::new(alloc);
    for record in session.records() {
        print_reply(&mut out, record)?;
    }
    for file in &session.into_log(&mut disk).files {
        print_file(&mut out, ItemId(0), None, file.entries.as_slice())?;
    }
    Ok(out)
}

/// The same of the calls of a script.
fn run(
    alloc: Global,
    remote: MemoryRemote,
    disk: MemoryDisk,
    limit: u32,
    text: &[u8],
) -> Result<Blob, Fail>
    requires lends { Lends (Unit {0}) 0 (disk_of disk) }
{
    if text.len() > 1000 {
        return Err(Fail::new("a long script"));
    }
    match read_script(alloc, text) {
        Ok(script) => serve(alloc, remote, disk, limit, script.lines()),
        Err(_) => Err(Fail::new("no script")),
    }
}

fn is(found: &Blob, text: &str) -> Result<(), Fail> {
    if found.as_slice() == text.as_bytes() {
        return Ok(());
    }
    Err(Fail::new(std::str::from_utf8(found.as_slice())?))
}

#[test]
fn a_file_is_made_written_read_and_closed(rt: HostRuntime) -> Result<(), Fail> {
    let alloc = rt.alloc();
    what_a_call_does_matches::<MemoryObject, MemoryFile>();
    let found = run(
        alloc,
        MemoryRemote::new(alloc),
        MemoryDisk::new(alloc),
        100,
        b"s1 open 0 a.txt rw create\ns1 write 0 0 text:hello\ns1 read 0 0 8\ns1 close 0\n",
    )?;
    is(
        &found,
        "1 ok [t1 f0:1]\n2 ok 5 [f0:2]\n3 ok 5 68656c6c6f [f0:3]\n4 ok [t2 f0:4]\nfile 0 -\n\
0 s1 7 1 create\n1 s1 7 1 opened rw\n2 s1 7 2 write 0 hex:68656c6c6f\n\
3 s1 7 4 read 0 8\n4 s1 7 4 closed\n",
    )
}

/// With five places for each history a file has room for two reads beside its close.
#[test]
fn a_full_history_refuses_a_read_and_not_a_close(rt: HostRuntime) -> Result<(), Fail> {
    let alloc = rt.alloc();
    let found = run(
        alloc,
        MemoryRemote::new(alloc),
        MemoryDisk::new(alloc),
        5,
        b"s1 open 3 a rw create\ns1 read 3 0 9\ns1 read 3 0 9\ns1 read 3 0 9\ns1 close 3\n",
    )?;
    is(
        &found,
        "1 ok [t1 f0:1]\n2 ok 0 [f0:2]\n3 ok 0 [f0:3]\n4 E16 history full\n5 ok [t2 f0:4]\n\
file 0 -\n0 s1 7 1 create\n1 s1 7 1 opened rw\n2 s1 7 1 read 0 9\n3 s1 7 1 read 0 9\n\
4 s1 7 1 closed\n",
    )
}

#[test]
fn a_write_that_the_disk_fails_is_refused_and_works_again(rt: HostRuntime) -> Result<(), Fail> {
    let alloc = rt.alloc();
    let mut disk = MemoryDisk::new(alloc);
    disk.fail(0, 2)?;
    let found = run(
        alloc,
        MemoryRemote::new(alloc),
        disk,
        100,
        b"s1 open 0 a rw create\ns1 write 0 0 text:hi\ns1 write 0 0 text:hi\ns1 read 0 0 8\n",
    )?;
    is(
        &found,
        "1 ok [t1 f0:1]\n2 E14 disk fault [f0:2]\n3 ok 2 [f0:3]\n4 ok 2 6869 [f0:4]\nfile 0 -\n\
0 s1 7 1 create\n1 s1 7 1 opened rw\n2 s1 7 2 refused write E14 disk fault\n\
3 s1 7 3 write 0 hex:6869\n4 s1 7 5 read 0 8\n",
    )
}

#[test]
fn an_open_that_the_disk_fails_is_refused_and_works_again(rt: HostRuntime) -> Result<(), Fail> {
    let alloc = rt.alloc();
    let mut disk = MemoryDisk::new(alloc);
    disk.fail_disk(DiskCall::Take, 1)?;
    let found = run(
        alloc,
        MemoryRemote::new(alloc),
        disk,
        100,
        b"s1 open 0 a rw create\ns1 open 0 a rw create\n",
    )?;
    is(
        &found,
        "1 E14 disk fault [t1]\n2 ok [t2 f0:1]\nfile 0 -\n0 s1 7 1 create\n1 s1 7 1 opened rw\n",
    )
}

fn asks(line: u32, call: Call) -> Line {
    let call = CallLine {
        line,
        session: 1,
        call,
    };
    Line {
        line,
        what: What::Call(call),
    }
}

#[test]
fn a_size_cuts_and_grows_with_zeros(rt: HostRuntime) -> Result<(), Fail> {
    let alloc = rt.alloc();
    let path = VPath::parse(alloc, "a")?;
    let payload = Payload::Fill { byte: 90, len: 5 };
    let lines = [
        asks(
            1,
            Call::Open {
                h: 0,
                path,
                how: HOW,
            },
        ),
        asks(
            2,
            Call::Write {
                h: 0,
                pos: 0,
                payload,
            },
        ),
        asks(3, Call::Size { h: 0, size: 2 }),
        asks(4, Call::Size { h: 0, size: 4 }),
        asks(
            5,
            Call::Read {
                h: 0,
                pos: 0,
                len: 9,
            },
        ),
    ];
    let found = serve(
        alloc,
        MemoryRemote::new(alloc),
        MemoryDisk::new(alloc),
        100,
        &lines,
    )?;
    is(
        &found,
        "1 ok [t1 f0:1]\n2 ok 5 [f0:2]\n3 ok [f0:3]\n4 ok [f0:4]\n5 ok 4 5a5a0000 [f0:5]\nfile 0 -\n\
0 s1 7 1 create\n1 s1 7 1 opened rw\n2 s1 7 2 write 0 fill:90:5\n\
3 s1 7 4 size 2\n4 s1 7 5 size 4\n5 s1 7 6 read 0 9\n",
    )
}

/// The object is read in requests of four bytes, and its bytes are kept.
#[test]
fn an_object_is_read(rt: HostRuntime) -> Result<(), Fail> {
    let alloc = rt.alloc();
    let mut remote = MemoryRemote::new(alloc);
    let bytes = Blob::from_slice(alloc, b"hello")?;
    remote.put(VPath::parse(alloc, "a")?, bytes, 9)?;
    let found = run(
        alloc,
        remote,
        MemoryDisk::new(alloc),
        100,
        b"s1 open 0 a r\ns1 read 0 1 2\ns1 read 0 0 9\ns1 write 0 0 text:x\n",
    )?;
    is(
        &found,
        "1 ok [t1 f0:1]\n2 ok 2 656c [f0:2]\n3 ok 5 68656c6c6f [f0:3]\n4 E8 not writable\nfile 0 -\n\
0 s1 7 1 adopt 5.9.1\n1 s1 7 1 opened r\n2 s1 7 4 read 1 2\n3 s1 7 7 read 0 9\n",
    )
}
