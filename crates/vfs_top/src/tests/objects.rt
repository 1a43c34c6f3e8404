use super::*;
use remote_memory::Change;
use vfs_names::Blob;

/// What is planned of the object `a`. The store's calls count from 1: the attach, the listing of the root, and then each
/// opening of an object; an object's pulls count from its opening.
#[derive(Clone, Copy, Debug)]
enum Plan {
    Fails(RemoteCall, u64),
    FailsPull(u64),
    ChangesAtPull(u64),
    PutBefore(u64, &'static [u8], u64),
    DeletedBefore(u64),
}

/// A script over the object `a` with these plans, and what the run prints.
#[derive(Clone, Copy)]
struct Case {
    plans: &'static [Plan],
    script: &'static str,
    transcript: &'static str,
}

fn put_at(
    remote: &mut MemoryRemote,
    alloc: Global,
    path: &str,
    bytes: &[u8],
    mtime: u64,
) -> Result<(), Fail> {
    let path = VPath::parse(alloc, path)?;
    if path.is_root() {
        return Err(Fail::from("the root"));
    }
    let _ = remote.put(path, Blob::from_slice(alloc, bytes)?, mtime)?;
    Ok(())
}

fn plan_at(remote: &mut MemoryRemote, alloc: Global, plan: Plan) -> Result<(), Fail> {
    let path = VPath::parse(alloc, "a")?;
    if path.is_root() {
        return Err(Fail::from("the root"));
    }
    match plan {
        Plan::Fails(call, nth) => remote.fail(call, nth)?,
        Plan::FailsPull(nth) => remote.fail_pull(path, nth)?,
        Plan::ChangesAtPull(nth) => remote.change_at_pull(path, nth)?,
        Plan::PutBefore(call, bytes, mtime) => {
            let bytes = Blob::from_slice(alloc, bytes)?;
            remote.outside(call, Change::Put(path, bytes, mtime))?;
        }
        Plan::DeletedBefore(call) => remote.outside(call, Change::Delete(path))?,
    }
    Ok(())
}

/// The object `a` of `abc` with modification time 0, and these plans of it.
fn store(alloc: Global, plans: &[Plan]) -> Result<MemoryRemote, Fail> {
    let mut remote = MemoryRemote::new(alloc);
    put_at(&mut remote, alloc, "a", b"abc", 0)?;
    for plan in plans {
        plan_at(&mut remote, alloc, *plan)?;
    }
    Ok(remote)
}

/// Each run by these words prints just this.
fn expect_cases(
    rt: &(impl Abort + AllocGlobal),
    words: &[&str],
    cases: &[Case],
) -> Result<(), Fail> {
    for case in cases {
        let mut source = source_of(rt.alloc(), case.script.as_bytes(), &[])?;
        let remote = store(rt.alloc(), case.plans)?;
        let seen = run_over(rt.alloc(), words, &mut source, &[], remote)?;
        expect_text(rt, &seen, 0, case.transcript);
    }
    Ok(())
}

/// An object is read through; what isn't shown, and a write through a handle that reads, are refused; what was written
/// stands over the object's bytes.
const READ: [Case; 4] = [
    Case {
        plans: &[],
        script: "s1 open 0 a r\ns1 read 0 1 8\ns1 close 0\n",
        transcript: "start files 0 queued 0 damaged 0
1 ok [t1 f0:1]
2 ok 2 6263 [f0:2]
3 ok [t2 f0:3]
tree
0 s1 0 listed / 1 f:a:3.0.1
1 s1 0 opened a 0 3.0.1
2 s1 0 closed 0 clean
file 0 a
0 s1 0 1 adopt 3.0.1
1 s1 0 1 opened r
2 s1 0 4 read 1 8
3 s1 0 4 closed
queue
end 0
",
    },
    Case {
        plans: &[],
        script: "s1 open 0 a r\ns1 write 0 0 text:x\ns1 open 1 x r\ns1 open 1 x rw\ns1 open 1 x rw create\ns1 read 0 0 131072\ns1 read 1 0 1\ns1 close 0\ns1 close 1\n",
        transcript: "start files 0 queued 0 damaged 0
1 ok [t1 f0:1]
2 E8 not writable
3 E1 not found [t2]
4 E1 not found [t3]
5 ok [t4 f1:1]
6 ok 3 616263 [f0:2]
7 ok 0 [f1:2]
8 ok [t5 f0:3]
9 ok [t6 f1:3]
tree
0 s1 0 listed / 1 f:a:3.0.1
1 s1 0 opened a 0 3.0.1
2 s1 0 refused open x E1 not found
3 s1 0 refused open x E1 not found
4 s1 0 created x 1
5 s1 0 closed 0 clean
6 s1 0 closed 1 dirty
file 0 a
0 s1 0 1 adopt 3.0.1
1 s1 0 1 opened r
2 s1 0 4 read 0 131072
3 s1 0 4 closed
file 1 x
0 s1 0 1 create
1 s1 0 1 opened rw
2 s1 0 1 read 0 1
3 s1 0 1 closed
queue
1 5000 0
end 0
",
    },
    Case {
        plans: &[],
        script: "s1 open 0 a rw create\ns1 write 0 1 text:XY\ns1 read 0 0 8\ns1 write 0 5 text:Z\ns1 read 0 0 8\ns1 close 0\ns1 open 0 a r\ns1 read 0 0 2\n",
        transcript: "start files 0 queued 0 damaged 0
1 ok [t1 f0:1]
2 ok 2 [f0:2]
3 ok 3 615859 [f0:3]
4 ok 1 [f0:4]
5 ok 6 61585900005a [f0:5]
6 ok [t2 f0:6]
7 ok [t3 f0:7]
8 ok 2 6158 [f0:8]
tree
0 s1 0 listed / 1 f:a:3.0.1
1 s1 0 opened a 0 3.0.1
2 s1 0 closed 0 dirty
3 s1 0 opened a 0 3.0.1
file 0 a
0 s1 0 1 adopt 3.0.1
1 s1 0 1 opened rw
2 s1 0 2 write 1 hex:5859
3 s1 0 6 read 0 8
4 s1 0 7 write 5 hex:5a
5 s1 0 10 read 0 8
6 s1 0 10 closed
7 s1 0 10 opened r
8 s1 0 11 read 0 2
queue
0 5000 0
end 0
",
    },
    Case {
        plans: &[],
        script: "s1 open 0 a r\ns1 open 1 a rw\ns1 write 1 0 text:X\ns1 read 0 0 3\ns1 close 0\ns1 close 1\n",
        transcript: "start files 0 queued 0 damaged 0
1 ok [t1 f0:1]
2 ok [t2 f0:2]
3 ok 1 [f0:3]
4 ok 3 586263 [f0:4]
5 ok [t3 f0:5]
6 ok [t4 f0:6]
tree
0 s1 0 listed / 1 f:a:3.0.1
1 s1 0 opened a 0 3.0.1
2 s1 0 opened a 0 3.0.1
3 s1 0 closed 0 dirty
4 s1 0 closed 0 dirty
file 0 a
0 s1 0 1 adopt 3.0.1
1 s1 0 1 opened r
2 s1 0 1 opened rw
3 s1 0 2 write 0 hex:58
4 s1 0 6 read 0 3
5 s1 0 6 closed
6 s1 0 6 closed
queue
0 5000 0
end 0
",
    },
];

#[test]
fn objects_are_read_through(rt: HostRuntime) -> Result<(), Fail> {
    expect_cases(&rt, &ROW, &READ)
}

/// Others put or delete the object between the listing and the opening, or the opening fails.
const OPENED: [Case; 3] = [
    Case {
        plans: &[Plan::PutBefore(3, b"other", 9)],
        script: "s1 open 0 a r\ns1 read 0 0 8\ns1 close 0\ns1 open 1 a r\ns1 read 1 3 8\n",
        transcript: "start files 0 queued 0 damaged 0
1 ok [t1 f0:1]
2 ok 5 6f74686572 [f0:2]
3 ok [t2 f0:3]
4 ok [t3 f0:4]
5 ok 2 6572 [f0:5]
tree
0 s1 0 listed / 1 f:a:3.0.1
1 s1 0 opened a 0 5.9.2
2 s1 0 closed 0 clean
3 s1 0 opened a 0 5.9.2
file 0 a
0 s1 0 1 adopt 5.9.2
1 s1 0 1 opened r
2 s1 0 4 read 0 8
3 s1 0 4 closed
4 s1 0 4 opened r
5 s1 0 5 read 3 8
queue
end 0
",
    },
    Case {
        plans: &[Plan::DeletedBefore(3)],
        script: "s1 open 0 a r\ns1 open 0 a r\ns1 open 0 a rw create\ns1 read 0 0 8\n",
        transcript: "start files 0 queued 0 damaged 0
1 E1 not found [t2]
2 E1 not found [t3]
3 ok [t4 f0:1]
4 ok 0 [f0:2]
tree
0 s1 0 listed / 1 f:a:3.0.1
1 s1 0 gone a
2 s1 0 refused open a E1 not found
3 s1 0 refused open a E1 not found
4 s1 0 created a 0
file 0 a
0 s1 0 1 create
1 s1 0 1 opened rw
2 s1 0 1 read 0 8
queue
end 0
",
    },
    Case {
        plans: &[Plan::Fails(RemoteCall::OpenObject, 1)],
        script: "s1 open 0 a rw create\ns1 open 0 a rw create\ns1 read 0 0 8\n",
        transcript: "start files 0 queued 0 damaged 0
1 E13 remote fault [t1]
2 ok [t2 f0:1]
3 ok 3 616263 [f0:2]
tree
0 s1 0 listed / 1 f:a:3.0.1
1 s1 0 refused open a E13 remote fault
2 s1 0 opened a 0 3.0.1
file 0 a
0 s1 0 1 adopt 3.0.1
1 s1 0 1 opened rw
2 s1 0 4 read 0 8
queue
end 0
",
    },
];

#[test]
fn an_opening_meets_what_stands_in_the_store(rt: HostRuntime) -> Result<(), Fail> {
    expect_cases(&rt, &ROW, &OPENED)
}

/// A pull that fails is tried again by the next read; an object that changed is stale until the file is opened again, and
/// what was got of it stays. The object's first two bytes are got by one pull, and the third by another.
const PULLED: [Case; 2] = [
    Case {
        plans: &[Plan::FailsPull(1)],
        script: "s1 open 0 a r\ns1 read 0 0 8\ns1 read 0 0 8\ns1 close 0\n",
        transcript: "start files 0 queued 0 damaged 0
1 ok [t1 f0:1]
2 E13 remote fault [f0:2]
3 ok 3 616263 [f0:3]
4 ok [t2 f0:4]
tree
0 s1 0 listed / 1 f:a:3.0.1
1 s1 0 opened a 0 3.0.1
2 s1 0 closed 0 clean
file 0 a
0 s1 0 1 adopt 3.0.1
1 s1 0 1 opened r
2 s1 0 1 refused read E13 remote fault
3 s1 0 6 read 0 8
4 s1 0 6 closed
queue
end 0
",
    },
    Case {
        plans: &[Plan::ChangesAtPull(2)],
        script: "s1 open 0 a r\ns1 read 0 0 1\ns1 read 0 0 8\ns1 read 0 1 8\ns1 read 0 1 1\ns1 close 0\ns1 open 0 a r\ns1 read 0 2 1\ns1 close 0\n",
        transcript: "start files 0 queued 0 damaged 0
1 ok [t1 f0:1]
2 ok 1 61 [f0:2]
3 E15 stale 3.0.1 changed [f0:3]
4 E15 stale 3.0.1 changed [f0:4]
5 ok 1 62 [f0:5]
6 ok [t2 f0:6]
7 ok [t3 f0:8]
8 ok 1 63 [f0:9]
9 ok [t4 f0:10]
tree
0 s1 0 listed / 1 f:a:3.0.1
1 s1 0 opened a 0 3.0.1
2 s1 0 closed 0 clean
3 s1 0 opened a 0 3.0.1
4 s1 0 closed 0 clean
file 0 a
0 s1 0 1 adopt 3.0.1
1 s1 0 1 opened r
2 s1 0 4 read 0 1
3 s1 0 4 refused read E15 stale 3.0.1 changed
4 s1 0 4 refused read E15 stale 3.0.1 changed
5 s1 0 5 read 1 1
6 s1 0 5 closed
7 s1 0 5 bind 3.0.1
8 s1 0 5 opened r
9 s1 0 8 read 2 1
10 s1 0 8 closed
queue
end 0
",
    },
];

#[test]
fn a_pull_that_fails_and_a_changed_object_are_told(rt: HostRuntime) -> Result<(), Fail> {
    expect_cases(&rt, &PARTS, &PULLED)
}

/// A file whose object changed takes another one at its next opening, or is made anew where the object is gone.
const OPENED_AGAIN: [Case; 2] = [
    Case {
        plans: &[Plan::ChangesAtPull(2), Plan::PutBefore(4, b"xy", 9)],
        script: "s1 open 0 a r\ns1 read 0 0 1\ns1 read 0 0 8\ns1 close 0\ns1 open 0 a r\ns1 read 0 0 8\ns1 close 0\n",
        transcript: "start files 0 queued 0 damaged 0
1 ok [t1 f0:1]
2 ok 1 61 [f0:2]
3 E15 stale 3.0.1 changed [f0:3]
4 ok [t2 f0:4]
5 ok [t3 f0:6]
6 ok 2 7879 [f0:7]
7 ok [t4 f0:8]
tree
0 s1 0 listed / 1 f:a:3.0.1
1 s1 0 opened a 0 3.0.1
2 s1 0 closed 0 clean
3 s1 0 opened a 0 2.9.2
4 s1 0 closed 0 clean
file 0 a
0 s1 0 1 adopt 3.0.1
1 s1 0 1 opened r
2 s1 0 4 read 0 1
3 s1 0 4 refused read E15 stale 3.0.1 changed
4 s1 0 4 closed
5 s1 0 5 adopt 2.9.2
6 s1 0 5 opened r
7 s1 0 8 read 0 8
8 s1 0 8 closed
queue
end 0
",
    },
    Case {
        plans: &[Plan::ChangesAtPull(1), Plan::DeletedBefore(4)],
        script: "s1 open 0 a r\ns1 read 0 0 8\ns1 close 0\ns1 open 0 a r\ns1 open 0 a rw create\ns1 write 0 0 text:new\ns1 read 0 0 8\ns1 close 0\n",
        transcript: "start files 0 queued 0 damaged 0
1 ok [t1 f0:1]
2 E15 stale 3.0.1 changed [f0:2]
3 ok [t2 f0:3]
4 E1 not found [t4]
5 ok [t5 f0:5]
6 ok 3 [f0:6]
7 ok 3 6e6577 [f0:7]
8 ok [t6 f0:8]
tree
0 s1 0 listed / 1 f:a:3.0.1
1 s1 0 opened a 0 3.0.1
2 s1 0 closed 0 clean
3 s1 0 gone a
4 s1 0 refused open a E1 not found
5 s1 0 created a 0
6 s1 0 closed 0 dirty
file 0 a
0 s1 0 1 adopt 3.0.1
1 s1 0 1 opened r
2 s1 0 1 refused read E15 stale 3.0.1 changed
3 s1 0 1 closed
4 s1 0 2 create
5 s1 0 2 opened rw
6 s1 0 3 write 0 hex:6e6577
7 s1 0 5 read 0 8
8 s1 0 5 closed
queue
0 5000 0
end 0
",
    },
];

#[test]
fn a_file_takes_what_its_next_opening_finds(rt: HostRuntime) -> Result<(), Fail> {
    expect_cases(&rt, &PARTS, &OPENED_AGAIN)
}

#[test]
fn a_directory_is_refused(rt: HostRuntime) -> Result<(), Fail> {
    let script = "s1 open 0 d r\ns1 open 0 d rw create\ns1 open 0 a r\n";
    let mut source = source_of(rt.alloc(), script.as_bytes(), &[])?;
    let mut remote = store(rt.alloc(), &[])?;
    put_at(&mut remote, rt.alloc(), "d/e", b"e", 5)?;
    let seen = run_over(rt.alloc(), &ROW, &mut source, &[], remote)?;
    let transcript = "start files 0 queued 0 damaged 0
1 E3 is a directory [t1]
2 E3 is a directory [t2]
3 ok [t3 f0:1]
tree
0 s1 0 listed / 1 f:a:3.0.1 d:d
1 s1 0 refused open d E3 is a directory
2 s1 0 refused open d E3 is a directory
3 s1 0 opened a 0 3.0.1
file 0 a
0 s1 0 1 adopt 3.0.1
1 s1 0 1 opened r
queue
end 0
";
    expect_text(&rt, &seen, 0, transcript);
    Ok(())
}

/// The script is read first, and none of its calls is run.
#[test]
fn a_remote_that_cannot_be_attached_is_told(rt: HostRuntime) -> Result<(), Fail> {
    let table = [
        ("s1 open 0 a r\n", 6, "remote fault\nend 6\n"),
        ("", 6, "remote fault\nend 6\n"),
        ("s1 jump\n", 3, "script line 1: verb\nend 3\n"),
    ];
    for (script, status, text) in table {
        let mut source = source_of(rt.alloc(), script.as_bytes(), &[])?;
        let remote = store(rt.alloc(), &[Plan::Fails(RemoteCall::Attach, 1)])?;
        let seen = run_over(rt.alloc(), &ROW, &mut source, &[], remote)?;
        expect_text(&rt, &seen, status, text);
        assert_eq!(rt; seen.records.len(), 0);
    }
    Ok(())
}
