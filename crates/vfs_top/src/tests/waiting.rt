use super::*;

/// A script, and the transcript that its run prints.
type Case = (&'static str, &'static str);

/// Lines that move the clock, and where the files stand in the queue then.
const CASES: [Case; 6] = [
    (
        "s1 open 0 a rw create\nadvance 7\ns1 write 0 0 text:hi\nadvance 4993\ns1 close 0\n",
        "start files 0 queued 0 damaged 0\n1 ok [t1 f0:1]\n2 advance 7\n3 ok 2 [f0:2]\n4 advance 5000\n5 ok [t2 f0:3]\ntree\n0 s1 0 listed / 1\n1 s1 0 created a 0\n2 s1 5000 closed 0 dirty\nfile 0 a\n0 s1 0 1 create\n1 s1 0 1 opened rw\n2 s1 7 2 write 0 hex:6869\n3 s1 5000 3 closed\nqueue\n0 10000 0\nend 0\n",
    ),
    (
        "advance 0\nadvance 1099511627776\njoin\nadvance 1\n",
        "start files 0 queued 0 damaged 0\n1 advance 0\n2 advance 1099511627776\n3 join\n4 advance 1099511627777\ntree\nqueue\nend 0\n",
    ),
    // A handle that is closed while a changed file waits puts its moment off, a handle that stays open doesn't.
    (
        "s1 open 0 a rw create\ns1 close 0\nadvance 1000\ns1 open 0 a r\ns1 open 1 a r\ns1 close 0\nadvance 500\ns1 close 1\n",
        "start files 0 queued 0 damaged 0\n1 ok [t1 f0:1]\n2 ok [t2 f0:2]\n3 advance 1000\n4 ok [t3 f0:3]\n5 ok [t4 f0:4]\n6 ok [t5 f0:5]\n7 advance 1500\n8 ok [t6 f0:6]\ntree\n0 s1 0 listed / 1\n1 s1 0 created a 0\n2 s1 0 closed 0 dirty\n3 s1 1000 opened a 0 -\n4 s1 1000 opened a 0 -\n5 s1 1000 closed 0 dirty\n6 s1 1500 closed 0 dirty\nfile 0 a\n0 s1 0 1 create\n1 s1 0 1 opened rw\n2 s1 0 1 closed\n3 s1 1000 1 opened r\n4 s1 1000 1 opened r\n5 s1 1000 1 closed\n6 s1 1500 1 closed\nqueue\n0 6500 0\nend 0\n",
    ),
    // A write and a change of size take a file out of the queue; an empty write doesn't.
    (
        "s1 open 0 a rw create\ns1 close 0\ns1 open 0 b rw create\ns1 close 0\ns1 open 0 c rw create\ns1 close 0\nadvance 10\ns1 open 0 a rw\ns1 open 1 b rw\ns1 open 2 c rw\ns1 write 0 0 text:x\ns1 size 1 2\ns1 write 2 0 text:\n",
        "start files 0 queued 0 damaged 0\n1 ok [t1 f0:1]\n2 ok [t2 f0:2]\n3 ok [t3 f1:1]\n4 ok [t4 f1:2]\n5 ok [t5 f2:1]\n6 ok [t6 f2:2]\n7 advance 10\n8 ok [t7 f0:3]\n9 ok [t8 f1:3]\n10 ok [t9 f2:3]\n11 ok 1 [f0:4]\n12 ok [f1:4]\n13 ok 0 [f2:4]\ntree\n0 s1 0 listed / 1\n1 s1 0 created a 0\n2 s1 0 closed 0 dirty\n3 s1 0 created b 1\n4 s1 0 closed 1 dirty\n5 s1 0 created c 2\n6 s1 0 closed 2 dirty\n7 s1 10 opened a 0 -\n8 s1 10 opened b 1 -\n9 s1 10 opened c 2 -\nfile 0 a\n0 s1 0 1 create\n1 s1 0 1 opened rw\n2 s1 0 1 closed\n3 s1 10 1 opened rw\n4 s1 10 2 write 0 hex:78\nfile 1 b\n0 s1 0 1 create\n1 s1 0 1 opened rw\n2 s1 0 1 closed\n3 s1 10 1 opened rw\n4 s1 10 2 size 2\nfile 2 c\n0 s1 0 1 create\n1 s1 0 1 opened rw\n2 s1 0 1 closed\n3 s1 10 1 opened rw\n4 s1 10 1 write 0 hex:\nqueue\n2 5000 0\nend 0\n",
    ),
    // The rows go by the files' numbers, not by when they came.
    (
        "s1 open 0 a rw create\ns1 open 1 b rw create\ns1 close 1\nadvance 1\ns1 close 0\n",
        "start files 0 queued 0 damaged 0\n1 ok [t1 f0:1]\n2 ok [t2 f1:1]\n3 ok [t3 f1:2]\n4 advance 1\n5 ok [t4 f0:2]\ntree\n0 s1 0 listed / 1\n1 s1 0 created a 0\n2 s1 0 created b 1\n3 s1 0 closed 1 dirty\n4 s1 1 closed 0 dirty\nfile 0 a\n0 s1 0 1 create\n1 s1 0 1 opened rw\n2 s1 1 1 closed\nfile 1 b\n0 s1 0 1 create\n1 s1 0 1 opened rw\n2 s1 0 1 closed\nqueue\n0 5001 0\n1 5000 0\nend 0\n",
    ),
    ("advance 1\nadvance\n", "script line 2: words\nend 3\n"),
];

#[test]
fn the_clock_is_moved_and_files_wait(rt: HostRuntime) -> Result<(), Fail> {
    for (script, transcript) in CASES {
        let source = source_of(rt.alloc(), script.as_bytes(), &[])?;
        let seen = run_words(rt.alloc(), &ROW, source, &[])?;
        let status = if transcript.ends_with("end 0\n") {
            0
        } else {
            3
        };
        expect_text(&rt, &seen, status, transcript);
    }
    Ok(())
}

const MADE: &str = "s1 open 0 a rw create\nadvance 3\ns1 close 0\n";

#[test]
fn a_file_waits_as_long_as_the_words_say(rt: HostRuntime) -> Result<(), Fail> {
    let alloc = rt.alloc();
    for (time, row) in [
        ("0s", "0 3 0"),
        ("1500ms", "0 1503 0"),
        ("1h", "0 3600003 0"),
    ] {
        let mut words = Vec::new(alloc);
        for word in ROW {
            words.push(word)?;
        }
        words.push("--vfs-write-back")?;
        words.push(time)?;
        let source = source_of(alloc, MADE.as_bytes(), &[])?;
        let seen = run_words(alloc, &words, source, &[])?;
        assert_eq!(rt; seen.status, 0, "{time}");
        let text = std::str::from_utf8(seen.sink.written())?;
        assert!(rt; text.contains(row), "{time}");
    }
    Ok(())
}
