use crate::fault::Fault;
use crate::line::read_line;
use crate::*;
use std::alloc::Global;
use std::process::Abort;
use std::test::Fail;
use vfs_names::{Access, Blob, How, Payload, VPath};

/// Each row is `good` or the reason that a line is refused for, and the line.
fn check_rows(rt: &impl Abort, alloc: Global, rows: &str) {
    for row in rows.lines() {
        if let Some((expected, line)) = row.split_once(' ') {
            let found = match read_line(alloc, 1, line.as_bytes()) {
                Ok(_) => "good",
                Err(Fault::Bad(why)) => why.text(),
                Err(Fault::NoMemory) => "no memory",
            };
            assert_eq!(rt; found, expected, "{line}");
        }
    }
}

#[test]
fn opens_are_read_or_refused(rt: HostRuntime) {
    let rows = "\
good s1 open 0 a r
good s1 open 0 a w
good s1 open 0 a rw
good s16 open 255 a/b/c rw create
good s1 open 0 a w create excl
good s1 open 0 a rw create excl trunc append
good s1 open 0 a rw trunc
good s1 open 0 a w append
good s1 open 0 a rw trunc append
good s1 open 0 a%20b%25%2C%7F r
good s1 open 0 \u{e9} r
words s1 open
words s1 open 0
words s1 open 0 a
handle s1 open 256 a r
handle s1 open 00 a r
handle s1 open +1 a r
handle s1 open x x x
path s1 open 0 / r
path s1 open 0 /a r
path s1 open 0 a//b r
path s1 open 0 .. r
path s1 open 0 a, r
path s1 open 0 a%2c r
path s1 open 0 a%41 r
path s1 open 0 a% r
path s1 open 0 a%2 r
path s1 open 0 %00 r
path s1 open 0 .vfs-stage-1 x
access s1 open 0 a x
access s1 open 0 a R
access s1 open 0 a wr create
flag s1 open 0 a r create
flag s1 open 0 a r trunc
flag s1 open 0 a w excl
flag s1 open 0 a w excl create
flag s1 open 0 a w trunc create
flag s1 open 0 a w append trunc
flag s1 open 0 a w create create
flag s1 open 0 a w creat
flag s1 open 0 a w create more
flag s1 open 0 a r more";
    check_rows(&rt, rt.alloc(), rows);
}

#[test]
fn reads_and_writes_are_read_or_refused(rt: HostRuntime) {
    let rows = "\
good s1 read 0 0 0
good s1 read 255 18446744073709551615 131073
words s1 read
words s1 read 0 0
words s1 read 0 0 0 0
handle s1 read a b c
handle s1 read -1 0 0
number s1 read 0 18446744073709551616 0
number s1 read 0 01 0
number s1 read 0 0 x
number s1 read 0 0 1x more
good s1 write 0 0 text:
good s1 write 0 0 text:hello
good s1 write 0 0 text:a%0Ab%2Cc
good s1 write 0 0 hex:
good s1 write 0 0 hex:00ff
good s1 write 0 0 fill:0:0
good s1 write 0 0 fill:255:18446744073709551615
good s1 write 0 0 pat:250:4096
words s1 write 0
words s1 write 0 0
words s1 write 0 0 text:a b
handle s1 write 999 0 text:a
number s1 write 0 x text:a
payload s1 write 0 0 hello
payload s1 write 0 0 text
payload s1 write 0 0 Text:a
payload s1 write 0 0 text:a,b
payload s1 write 0 0 text:%0a
payload s1 write 0 0 text:%61
payload s1 write 0 0 hex:0
payload s1 write 0 0 hex:0G
payload s1 write 0 0 hex:FF
payload s1 write 0 0 fill:256:1
payload s1 write 0 0 fill:1
payload s1 write 0 0 fill:1:
payload s1 write 0 0 fill:1:2:3
payload s1 write 0 0 fill:01:2
payload s1 write 0 0 pat:251:1
payload s1 write 0 0 pat:1:18446744073709551616
good s1 size 0 1099511627777
words s1 size 0
words s1 size 0 1 2
handle s1 size 256 1
number s1 size 0 1k
good s1 close 7
words s1 close
words s1 close 0 0
handle s1 close 256";
    check_rows(&rt, rt.alloc(), rows);
}

#[test]
fn calls_on_names_are_read_or_refused(rt: HostRuntime) {
    let rows = "\
good s1 stat /
good s2 stat a/b
words s1 stat
words s1 stat a b
path s1 stat //
path s1 stat a/
good s1 list /
good s1 list d
words s1 list
words s1 list d d
path s1 list ,
good s1 mkdir d
words s1 mkdir
words s1 mkdir d e
path s1 mkdir /
path s1 mkdir d/.
good s1 rmdir d
words s1 rmdir
words s1 rmdir d e
path s1 rmdir /
good s1 unlink a
words s1 unlink
words s1 unlink a b
path s1 unlink /
good s1 rename a b
good s1 rename a a
words s1 rename a
words s1 rename a b c
path s1 rename / b
path s1 rename a /
path s1 rename a% /";
    check_rows(&rt, rt.alloc(), rows);
}

#[test]
fn other_lines_are_read_or_refused(rt: HostRuntime) {
    let rows = "\
good advance 0
good advance 1099511627776
words advance
words advance 1 2
number advance 1099511627777
number advance x
number advance x y
good tick
words tick 1
good clean
words clean all
good poll
words poll now
good join
words join s1
good restart
words restart 1
session s0 read 0 0 0
session s17 read 0 0 0
session s01 read 0 0 0
session s1x read 0 0 0
session s99999999999999999999 close 0
verb s close 0
verb sx close 0
verb S1 close 0
verb open 0 a r
verb Tick
verb tick1
verb -
verb s1 jump
verb s1 tick
verb s1 Open 0 a r
words s1
words s1  close 0
words  s1 close 0
words s1 close 0 
words tick\u{20}";
    check_rows(&rt, rt.alloc(), rows);
}

fn what_of(alloc: Global, line: &str) -> Result<What, Fail> {
    match read_line(alloc, 7, line.as_bytes()) {
        Ok(asked) => Ok(asked),
        Err(_) => Err(Fail::from("refused")),
    }
}

fn call_of(alloc: Global, line: &str) -> Result<Call, Fail> {
    match what_of(alloc, line)? {
        What::Call(line) => Ok(line.call),
        _ => Err(Fail::from("no call")),
    }
}

#[test]
fn calls_have_the_values_of_their_words(rt: HostRuntime) -> Result<(), Fail> {
    let alloc = rt.alloc();
    let how = How {
        access: Access::Both,
        create: true,
        excl: false,
        trunc: true,
        append: false,
    };
    let path = VPath::parse(alloc, "a b")?;
    assert!(rt;
        call_of(alloc, "s1 open 3 a%20b rw create trunc")? == Call::Open { h: 3, path, how }
    );
    assert!(rt;
        call_of(alloc, "s1 read 3 5 8")?
            == Call::Read {
                h: 3,
                pos: 5,
                len: 8
            }
    );
    assert!(rt; call_of(alloc, "s1 size 3 5")? == Call::Size { h: 3, size: 5 });
    assert!(rt; call_of(alloc, "s1 close 3")? == Call::Close { h: 3 });
    let (from, to) = (VPath::parse(alloc, "a")?, VPath::parse(alloc, "d/b")?);
    assert!(rt; call_of(alloc, "s1 rename a d/b")? == Call::Rename { from, to });
    assert!(rt;
        call_of(alloc, "s1 stat /")?
            == Call::Stat {
                path: VPath::root(alloc)
            }
    );
    let call = Call::Close { h: 0 };
    let line = CallLine {
        line: 7,
        session: 16,
        call,
    };
    assert!(rt; what_of(alloc, "s16 close 0")? == What::Call(line));
    assert!(rt; what_of(alloc, "advance 5000")? == What::Advance(5000));
    assert!(rt; what_of(alloc, "tick")? == What::Tick);
    Ok(())
}

#[test]
fn payloads_have_the_values_of_their_words(rt: HostRuntime) -> Result<(), Fail> {
    let alloc = rt.alloc();
    let table = [
        (
            "s1 write 1 2 text:a%0Ab",
            Payload::Bytes(Blob::from_slice(alloc, b"a\nb")?),
        ),
        (
            "s1 write 1 2 hex:00ff",
            Payload::Bytes(Blob::from_slice(alloc, b"\x00\xff")?),
        ),
        ("s1 write 1 2 fill:90:5", Payload::Fill { byte: 90, len: 5 }),
        (
            "s1 write 1 2 pat:7:4096",
            Payload::Pattern { seed: 7, len: 4096 },
        ),
    ];
    for (line, payload) in table {
        assert!(rt;
            call_of(alloc, line)?
                == Call::Write {
                    h: 1,
                    pos: 2,
                    payload
                },
            "{line}"
        );
    }
    Ok(())
}

/// The number and the reason of the line that the script is refused for, or 0 and the number of
/// lines read.
fn outcome(alloc: Global, text: &[u8]) -> Result<(u32, &'static str, usize), Fail> {
    if text.len() > 1000 {
        return Err(Fail::from("too long"));
    }
    match read_script(alloc, text) {
        Ok(script) => Ok((0, "good", script.lines().len())),
        Err(ScriptError::Refused { line, why }) => Ok((line, why.text(), 0)),
        Err(ScriptError::NoMemory) => Err(Fail::from("no memory")),
    }
}

#[test]
fn scripts_are_read_to_the_first_refused_line(rt: HostRuntime) -> Result<(), Fail> {
    let table = [
        (b"".as_slice(), (0, "good", 0)),
        (b"\n\n".as_slice(), (0, "good", 0)),
        (b"# \xff  \r\n\r\n#".as_slice(), (0, "good", 0)),
        (
            b"s1 open 0 a.txt rw create\r\ns1 write 0 0 text:hello\n\ns1 read 0 0 8\ns1 close 0".as_slice(),
            (0, "good", 4),
        ),
        (b"s1 close 0\n\ns1 jump\n".as_slice(), (3, "verb", 0)),
        (b"s1 close 0\r".as_slice(), (1, "handle", 0)),
        (b"s1 close 0\r\r\n".as_slice(), (1, "handle", 0)),
        (b"\xff\n".as_slice(), (1, "utf8", 0)),
        (b"poll\ns1 jump\n".as_slice(), (1, "unbuilt", 0)),
        (b"s1 jump\npoll\n".as_slice(), (1, "verb", 0)),
        (b"s1 open 0 d/a rw create".as_slice(), (1, "unbuilt", 0)),
        (b"s1 open 0 a rw create trunc".as_slice(), (1, "unbuilt", 0)),
        (b"s1 open 0 a w".as_slice(), (1, "unbuilt", 0)),
        (b"s2 close 0".as_slice(), (1, "unbuilt", 0)),
        (b"s1 stat /".as_slice(), (1, "unbuilt", 0)),
        (b"s1 stat a".as_slice(), (1, "unbuilt", 0)),
        (b"s2 write 0 0 text:".as_slice(), (1, "unbuilt", 0)),
        (b"restart".as_slice(), (1, "unbuilt", 0)),
        (b"join\njoin 1\n".as_slice(), (2, "words", 0)),
        (
            b"join\ns1 write 0 0 text:h\ns1 write 0 0 hex:68\njoin\ns1 write 0 0 fill:104:1\ns1 write 0 0 pat:104:1".as_slice(),
            (0, "good", 6),
        ),
    ];
    for (text, expected) in table {
        assert!(rt; outcome(rt.alloc(), text)? == expected);
    }
    Ok(())
}

/// So many times this line.
fn repeated(alloc: Global, line: &[u8], times: usize) -> Result<Vec<u8>, Fail> {
    let mut text = Vec::new(alloc);
    for _ in 0..times {
        text.extend_from_slice(line)?;
    }
    Ok(text)
}

#[test]
fn limits_are_checked(rt: HostRuntime) -> Result<(), Fail> {
    let alloc = rt.alloc();
    let long = repeated(alloc, b"################", 1_048_576)?;
    assert!(rt; check_size(&long) == Ok(()));
    assert!(rt; check_lines(&long) == Ok(()));
    let longer = repeated(alloc, b"#", 16_777_217)?;
    assert!(rt; check_size(&longer) == Err(Limit::Script));
    let empty = repeated(alloc, b"\n", 65_536)?;
    assert!(rt; check_lines(&empty) == Ok(()));
    let more = repeated(alloc, b"\n", 65_537)?;
    assert!(rt; check_lines(&more) == Err(Limit::Lines));
    for (reads, expected) in [(512, Ok(())), (513, Err(Limit::Reads))] {
        let text = repeated(alloc, b"s1 read 0 0 200000\n", reads)?;
        assert!(rt; text.len() < 20_000);
        let script = read_script(alloc, &text)?;
        assert!(rt; check_reads(&script) == expected);
    }
    assert_eq!(rt; Limit::Script.text(), "script");
    assert_eq!(rt; Limit::Script.most(), 16_777_216);
    Ok(())
}
