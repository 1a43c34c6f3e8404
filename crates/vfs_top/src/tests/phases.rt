ghost use Rattle.std.specs.Prelude.{◌≤◌, ◌^◌};

use super::*;
use vfs_outside::Clock;

/// A clock that each look at it moves on by 100 milliseconds; it begins at 0.
#[derive(Clone, Copy, Debug)]
struct SteppedClock {
    now: u64,
    ghost small: { now ≤ 2 ^ 62 },
}

impl Clock for SteppedClock {
    ghost moment = { λ c. c.now };

    fn now(&mut self) -> u64 {
        self.advance(100);
        self.now
    }

    fn advance(&mut self, ms: u64) {
        self.now = self.now.saturating_add(ms).min(1 << 62);
    }
}

/// A script, and the transcript that its run prints.
type Case = (&'static str, &'static str);

const CASES: [Case; 6] = [
    (
        "s1 open 0 a rw create\njoin\ns1 write 0 0 text:hi\ns1 read 0 0 2\njoin\ns1 close 0\n",
        "start files 0 queued 0 damaged 0\n1 ok [t1 f0:1]\n2 join\n3 ok 2 [f0:2]\n4 ok 2 6869 [f0:3]\n5 join\n6 ok [t2 f0:4]\ntree\n0 s1 0 listed / 1\n1 s1 0 created a 0\n2 s1 0 closed 0 dirty\nfile 0 a\n0 s1 0 1 create\n1 s1 0 1 opened rw\n2 s1 0 2 write 0 hex:6869\n3 s1 0 4 read 0 2\n4 s1 0 4 closed\nqueue\n0 5000 0\nend 0\n",
    ),
    (
        "join\n",
        "start files 0 queued 0 damaged 0\n1 join\ntree\nqueue\nend 0\n",
    ),
    (
        "# Nothing is done.\njoin\n\njoin\r\njoin",
        "start files 0 queued 0 damaged 0\n2 join\n4 join\n5 join\ntree\nqueue\nend 0\n",
    ),
    (
        "join\ns1 close 0\n",
        "start files 0 queued 0 damaged 0\n1 join\n2 E6 bad handle\ntree\nqueue\nend 0\n",
    ),
    (
        "s1 close 0\njoin\n",
        "start files 0 queued 0 damaged 0\n1 E6 bad handle\n2 join\ntree\nqueue\nend 0\n",
    ),
    (
        "s1 close 0\njoin\njoin\n# A phase goes on.\ns1 close 1\n\ns1 close 2\n",
        "start files 0 queued 0 damaged 0\n1 E6 bad handle\n2 join\n3 join\n5 E6 bad handle\n7 E6 bad handle\ntree\nqueue\nend 0\n",
    ),
];

#[test]
fn replies_are_printed_phase_by_phase(rt: HostRuntime) -> Result<(), Fail> {
    for (script, transcript) in CASES {
        let source = source_of(rt.alloc(), script.as_bytes(), &[])?;
        let seen = run_words(rt.alloc(), &ROW, source, &[])?;
        expect_text(&rt, &seen, 0, transcript);
    }
    Ok(())
}

/// Runs a script by a clock that moves on with each phase.
fn run_stepped(alloc: Global, script: &str, sink_fails: &[u64]) -> Result<Seen, Fail> {
    let words = words_of(alloc, &ROW)?;
    let mut source = source_of(alloc, script.as_bytes(), &[])?;
    let mut sink = MemorySink::new(alloc, sink_fails.to_vec(alloc)?);
    let mut clock = SteppedClock { now: 0 };
    let ended = run(
        alloc,
        &words,
        &mut source,
        &mut sink,
        MemoryRemote::new(alloc),
        MemoryDisk::new(alloc),
        &mut clock,
        &OpenGate,
    );
    let mut records = Vec::new(alloc);
    for epoch in &ended.epochs {
        records.push(epoch.records.len())?;
    }
    Ok(Seen {
        status: ended.status,
        sink,
        records,
    })
}

#[test]
fn a_phase_has_the_moment_at_which_it_began(rt: HostRuntime) -> Result<(), Fail> {
    let script =
        "s1 open 0 a rw create\ns1 write 0 0 text:hi\njoin\njoin\ns1 read 0 0 2\ns1 close 0\n";
    let transcript =
        "start files 0 queued 0 damaged 0\n1 ok [t1 f0:1]\n2 ok 2 [f0:2]\n3 join\n4 join\n5 ok 2 6869 [f0:3]\n6 ok [t2 f0:4]\ntree\n0 s1 100 listed / 1\n1 s1 100 created a 0\n2 s1 300 closed 0 dirty\nfile 0 a\n0 s1 100 1 create\n1 s1 100 1 opened rw\n2 s1 100 2 write 0 hex:6869\n3 s1 300 4 read 0 2\n4 s1 300 4 closed\nqueue\n0 5300 0\nend 0\n";
    let seen = run_stepped(rt.alloc(), script, &[])?;
    expect_text(&rt, &seen, 0, transcript);
    Ok(())
}

#[test]
fn no_phase_is_begun_after_the_sink_failed(rt: HostRuntime) -> Result<(), Fail> {
    let script =
        "s1 open 0 a rw create\ns1 write 0 0 text:hi\njoin\ns1 read 0 0 2\njoin\ns1 close 0\n";
    let first = "start files 0 queued 0 damaged 0\n1 ok [t1 f0:1]\n2 ok 2 [f0:2]\n3 join\n";
    let second =
        "start files 0 queued 0 damaged 0\n1 ok [t1 f0:1]\n2 ok 2 [f0:2]\n3 join\n4 ok 2 6869 [f0:3]\n5 join\n";
    let all =
        "start files 0 queued 0 damaged 0\n1 ok [t1 f0:1]\n2 ok 2 [f0:2]\n3 join\n4 ok 2 6869 [f0:3]\n5 join\n6 ok [t2 f0:4]\n";
    let table = [
        (1, "", 0),
        (2, START, 2),
        (3, first, 3),
        (4, second, 4),
        (5, all, 4),
    ];
    for (fails, written, records) in table {
        let seen = run_stepped(rt.alloc(), script, &[fails])?;
        expect_text(&rt, &seen, 5, written);
        assert_eq!(rt; seen.records.as_slice(), [records].as_slice());
    }
    Ok(())
}
