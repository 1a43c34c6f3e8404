ghost use Rattle.std.specs.Prelude.{◌≡◌, ℕ, false};
ghost use Rattle.cache_memory.specs.Disks.{disk_of};

use crate::*;
use cache_memory::MemoryDisk;
use remote_memory::{MemoryRemote, RemoteCall};
use std::alloc::Global;
use std::process::Abort;
use std::test::Fail;
use vfs_names::{Blob, VPath};
use vfs_outside::{MemorySink, MemorySource, OpenGate, Remote, ScriptClock};

mod cached;
mod cuts;
mod disk_faults;
mod disk_image;
mod disk_stops;
mod folder;
mod moved;
mod objects;
mod odd_remote;
mod phases;
mod plain;
mod replaced;
mod shared_folder;
mod steps;
mod ticks;
mod uploaded;
mod waiting;

use odd_remote::OddRemote;

const ROW: [&str; 9] = [
    "run",
    "--remote",
    "r",
    "--cache",
    "c",
    "--vfs-cache-mode",
    "full",
    "--worker-turns",
    "0",
];

/// The same, with requests of two bytes at first.
const PARTS: [&str; 11] = [
    "run",
    "--remote",
    "r",
    "--cache",
    "c",
    "--vfs-cache-mode",
    "full",
    "--worker-turns",
    "0",
    "--vfs-read-chunk-size",
    "2B",
];

const USAGE: &str = "usage: vfs run --remote DIR --cache DIR [options]\nend 2\n";

const START: &str = "start files 0 queued 0 damaged 0\n";

const OPEN: &str = "s1 open 0 a rw create\n";

/// What a run showed: its status, the bytes that its sink holds, and of each epoch the number of records.
#[derive(Drop)]
struct Seen {
    status: u8,
    sink: MemorySink,
    records: Vec<usize>,
}

fn words_of(alloc: Global, words: &[&str]) -> Result<Vec<String>, Fail> {
    let mut all = Vec::new(alloc);
    for word in words {
        all.push(String::from_str(alloc, word)?)?;
    }
    Ok(all)
}

fn run_words(
    alloc: Global,
    words: &[&str],
    mut source: MemorySource,
    sink_fails: &[u64],
) -> Result<Seen, Fail> {
    run_over(
        alloc,
        words,
        &mut source,
        sink_fails,
        MemoryRemote::new(alloc),
    )
}

fn run_over<R: Remote>(
    alloc: Global,
    words: &[&str],
    source: &mut MemorySource,
    sink_fails: &[u64],
    remote: R,
) -> Result<Seen, Fail> {
    let disk = MemoryDisk::new(alloc);
    run_on(alloc, words, source, sink_fails, remote, disk)
}

fn run_on<R: Remote>(
    alloc: Global,
    words: &[&str],
    source: &mut MemorySource,
    sink_fails: &[u64],
    remote: R,
    disk: MemoryDisk,
) -> Result<Seen, Fail>
    requires { (slot : ℕ) → (disk_of disk).out slot ≡ false }
{
    let words = words_of(alloc, words)?;
    let mut sink = MemorySink::new(alloc, sink_fails.to_vec(alloc)?);
    let mut clock = ScriptClock::new();
    let ended = run(
        alloc, &words, source, &mut sink, remote, disk, &mut clock, &OpenGate,
    );
    let mut records = Vec::new(alloc);
    for epoch in &ended.epochs {
        records.push(epoch.records.len())?;
    }
    Ok(Seen {
        status: ended.status,
        sink,
        records,
    })
}

fn source_of(alloc: Global, text: &[u8], fails: &[u64]) -> Result<MemorySource, Fail> {
    Ok(MemorySource::new(text.to_vec(alloc)?, fails.to_vec(alloc)?))
}

/// The run wrote just this, and ended so.
fn expect_text(rt: &impl Abort, seen: &Seen, status: u8, text: &str) {
    assert_eq!(rt; seen.status, status, "{text}");
    assert_eq!(rt; seen.sink.written(), text.as_bytes(), "{text}");
}

/// The run wrote its start and these replies before its end block.
fn expect_replies(rt: &impl Abort, seen: &Seen, replies: &str) {
    assert_eq!(rt; seen.status, 0, "{replies}");
    let Some(shown) = seen.sink.written().strip_prefix(START.as_bytes()) else {
        panic!(rt; "no start");
    };
    let Some(rest) = shown.strip_prefix(replies.as_bytes()) else {
        panic!(rt; "not {replies}");
    };
    assert!(rt; rest.starts_with(b"tree\n"), "{replies}");
}

/// The scripts and transcripts of the folder `demo` at the repository's top, each with its status and its calls.
#[test]
fn demos_are_printed(rt: HostRuntime) -> Result<(), Fail> {
    let table = [
        (
            "s1 open 0 a.txt rw create\ns1 write 0 0 text:hello\ns1 read 0 0 8\ns1 close 0\n",
            "start files 0 queued 0 damaged 0\n1 ok [t1 f0:1]\n2 ok 5 [f0:2]\n3 ok 5 68656c6c6f [f0:3]\n4 ok [t2 f0:4]\ntree\n0 s1 0 listed / 1\n1 s1 0 created a.txt 0\n2 s1 0 closed 0 dirty\nfile 0 a.txt\n0 s1 0 1 create\n1 s1 0 1 opened rw\n2 s1 0 2 write 0 hex:68656c6c6f\n3 s1 0 4 read 0 8\n4 s1 0 4 closed\nqueue\n0 5000 0\nend 0\n",
            0,
            4,
        ),
        (
            "# What lies before the first write reads as zeros, and a handle that was closed does nothing more.\ns1 open 7 notes.txt rw create\ns1 write 7 4 text:end\ns1 read 7 0 16\ns1 read 7 0 131073\ns1 close 7\ns1 read 7 0 1\n",
            "start files 0 queued 0 damaged 0\n2 ok [t1 f0:1]\n3 ok 3 [f0:2]\n4 ok 7 00000000656e64 [f0:3]\n5 E12 too big\n6 ok [t2 f0:4]\n7 E6 bad handle\ntree\n0 s1 0 listed / 1\n1 s1 0 created notes.txt 0\n2 s1 0 closed 0 dirty\nfile 0 notes.txt\n0 s1 0 1 create\n1 s1 0 1 opened rw\n2 s1 0 2 write 4 hex:656e64\n3 s1 0 4 read 0 16\n4 s1 0 4 closed\nqueue\n0 5000 0\nend 0\n",
            0,
            6,
        ),
        (
            "s1 open 0 a rw create\ns1 write 0 0 text:hello\ns1 size 0 2\ns1 size 0 8\ns1 read 0 0 16\ns1 write 0 9 text:\ns1 close 0\n",
            "start files 0 queued 0 damaged 0\n1 ok [t1 f0:1]\n2 ok 5 [f0:2]\n3 ok [f0:3]\n4 ok [f0:4]\n5 ok 8 6865000000000000 [f0:5]\n6 ok 0 [f0:6]\n7 ok [t2 f0:7]\ntree\n0 s1 0 listed / 1\n1 s1 0 created a 0\n2 s1 0 closed 0 dirty\nfile 0 a\n0 s1 0 1 create\n1 s1 0 1 opened rw\n2 s1 0 2 write 0 hex:68656c6c6f\n3 s1 0 4 size 2\n4 s1 0 5 size 8\n5 s1 0 6 read 0 16\n6 s1 0 6 write 9 hex:\n7 s1 0 6 closed\nqueue\n0 5000 0\nend 0\n",
            0,
            7,
        ),
        (
            "s1 open 0 a.txt rw create\ns1 write 0 0 text:hello\ns1 reed 0 0 8\ns1 close 0\n",
            "script line 3: verb\nend 3\n",
            3,
            0,
        ),
    ];
    for (script, transcript, status, calls) in table {
        let source = source_of(rt.alloc(), script.as_bytes(), &[])?;
        let seen = run_words(rt.alloc(), &ROW, source, &[])?;
        expect_text(&rt, &seen, status, transcript);
        let records: usize = seen
            .records
            .iter()
            .fold(0, |sum, count| sum.saturating_add(*count));
        assert_eq!(rt; records, calls);
    }
    Ok(())
}

#[test]
fn an_empty_script_prints_four_lines(rt: HostRuntime) -> Result<(), Fail> {
    let transcript = "start files 0 queued 0 damaged 0\ntree\nqueue\nend 0\n";
    for text in ["", "\n", "# a comment \u{7}\r\n\n"] {
        let source = source_of(rt.alloc(), text.as_bytes(), &[])?;
        let seen = run_words(rt.alloc(), &ROW, source, &[])?;
        expect_text(&rt, &seen, 0, transcript);
    }
    Ok(())
}

#[test]
fn calls_are_answered(rt: HostRuntime) -> Result<(), Fail> {
    let table = [
        (
            "s1 read 0 0 131072\ns1 read 0 0 131073\n",
            "2 ok 0 [f0:2]\n3 E12 too big\n",
        ),
        (
            "s1 write 0 0 text:hello\ns1 read 0 3 8\ns1 read 0 5 1\r\n\n#\ns1 read 0 1 3",
            "2 ok 5 [f0:2]\n3 ok 2 6c6f [f0:3]\n4 ok 0 [f0:4]\n7 ok 3 656c6c [f0:5]\n",
        ),
        (
            "s1 write 0 3 text:x\ns1 read 0 0 8\ns1 write 0 2 text:%20y\ns1 read 0 0 8\n",
            "2 ok 1 [f0:2]\n3 ok 4 00000078 [f0:3]\n4 ok 2 [f0:4]\n5 ok 4 00002079 [f0:5]\n",
        ),
        (
            "s1 write 0 1099511627775 text:x\ns1 write 0 1099511627776 text:x\ns1 write 0 1099511627775 text:xy\ns1 read 0 1099511627774 9\n",
            "2 ok 1 [f0:2]\n3 E12 too big\n4 E12 too big\n5 ok 2 0078 [f0:3]\n",
        ),
        (
            "s1 open 0 b rw create\ns1 open 255 a rw create\ns1 close 0\ns1 read 0 0 1\ns1 write 0 0 text:\ns1 close 0\ns1 close 255\n",
            "2 E6 bad handle\n3 ok [t2 f0:2]\n4 ok [t3 f0:3]\n5 E6 bad handle\n6 E6 bad handle\n7 E6 bad handle\n8 ok [t4 f0:4]\n",
        ),
        (
            "s1 write 0 0 pat:250:3\ns1 read 0 0 3\ns1 write 0 1 hex:00ff\ns1 write 0 3 fill:7:2\ns1 write 0 9 hex:\ns1 read 0 0 9\n",
            "2 ok 3 [f0:2]\n3 ok 3 fa060d [f0:3]\n4 ok 2 [f0:4]\n5 ok 2 [f0:5]\n6 ok 0 [f0:6]\n7 ok 5 fa00ff0707 [f0:7]\n",
        ),
        (
            "s1 write 0 1 fill:65:131072\ns1 write 0 0 fill:65:131073\ns1 write 0 0 pat:0:18446744073709551615\ns1 read 0 131070 9\n",
            "2 ok 131072 [f0:2]\n3 E12 too big\n4 E12 too big\n5 ok 3 414141 [f0:3]\n",
        ),
        (
            "s1 write 0 0 text:hello\ns1 size 0 2\ns1 read 0 0 8\ns1 size 0 4\ns1 read 0 0 8\ns1 size 0 1099511627776\ns1 size 0 1099511627777\ns1 read 0 1099511627775 9\n",
            "2 ok 5 [f0:2]\n3 ok [f0:3]\n4 ok 2 6865 [f0:4]\n5 ok [f0:5]\n6 ok 4 68650000 [f0:6]\n7 ok [f0:7]\n8 E12 too big\n9 ok 1 00 [f0:8]\n",
        ),
        (
            "s1 size 1 0\ns1 close 0\ns1 size 0 0\ns1 open 0 a r\ns1 size 0 0\ns1 size 0 1099511627777\n",
            "2 E6 bad handle\n3 ok [t2 f0:2]\n4 E6 bad handle\n5 ok [t3 f0:3]\n6 E8 not writable\n7 E8 not writable\n",
        ),
        (
            "s1 open 1 b rw create\ns1 write 1 0 text:q\ns1 read 0 0 1\ns1 read 1 0 1\n",
            "2 ok [t2 f1:1]\n3 ok 1 [f1:2]\n4 ok 0 [f0:2]\n5 ok 1 71 [f1:3]\n",
        ),
    ];
    for (script, replies) in table {
        let text = format!(in rt.alloc(); "{OPEN}{script}")?;
        let expected = format!(in rt.alloc(); "1 ok [t1 f0:1]\n{replies}")?;
        let source = source_of(rt.alloc(), text.as_bytes(), &[])?;
        let seen = run_words(rt.alloc(), &ROW, source, &[])?;
        expect_replies(&rt, &seen, expected.as_str());
    }
    Ok(())
}

#[test]
fn other_words_are_refused(rt: HostRuntime) -> Result<(), Fail> {
    let long = [b'd'; 1025];
    let long = std::str::from_utf8(&long)?;
    let table = [
        (0, "work"),
        (1, "--remot"),
        (2, ""),
        (2, "-r"),
        (2, "a\0b"),
        (2, long),
        (3, "--remote"),
        (4, "--remote"),
        (5, "--vfs-cache-mode=full"),
        (6, "writes"),
        (7, "--transfers"),
        (8, "00"),
    ];
    for (place, word) in table {
        let mut words = ROW;
        assert!(rt; place < 9);
        words[place] = word;
        let source = source_of(rt.alloc(), b"", &[1])?;
        let seen = run_words(rt.alloc(), &words, source, &[])?;
        expect_text(&rt, &seen, 2, USAGE);
    }
    for count in 0..9 {
        let source = source_of(rt.alloc(), b"", &[])?;
        let seen = run_words(rt.alloc(), &ROW[..count], source, &[])?;
        expect_text(&rt, &seen, 2, USAGE);
    }
    let mut more = [""; 10];
    more[..9].copy_from_slice(&ROW);
    let source = source_of(rt.alloc(), b"", &[])?;
    let seen = run_words(rt.alloc(), &more, source, &[])?;
    expect_text(&rt, &seen, 2, USAGE);
    Ok(())
}

#[test]
fn words_stand_in_any_order(rt: HostRuntime) -> Result<(), Fail> {
    let table: [&[&str]; 3] = [
        &[
            "run",
            "--worker-turns=0",
            "--vfs-cache-mode=full",
            "--cache=c",
            "--remote=r",
        ],
        &[
            "run",
            "--vfs-read-chunk-size",
            "off",
            "--cache",
            "c",
            "--worker-turns",
            "0",
            "--remote=r",
            "--vfs-cache-mode",
            "full",
        ],
        &PARTS,
    ];
    for words in table {
        let source = source_of(rt.alloc(), OPEN.as_bytes(), &[])?;
        let seen = run_words(rt.alloc(), words, source, &[])?;
        expect_replies(&rt, &seen, "1 ok [t1 f0:1]\n");
    }
    Ok(())
}

#[test]
fn the_longest_name_of_a_folder_is_taken(rt: HostRuntime) -> Result<(), Fail> {
    let long = [b'd'; 1024];
    let mut words = ROW;
    words[4] = std::str::from_utf8(&long)?;
    let source = source_of(rt.alloc(), b"", &[])?;
    let seen = run_words(rt.alloc(), &words, source, &[])?;
    assert_eq!(rt; seen.status, 0);
    Ok(())
}

#[test]
fn the_first_bad_line_is_told(rt: HostRuntime) -> Result<(), Fail> {
    let table: [(&[u8], &str); 18] = [
        (b"\xff\n", "1: utf8"),
        (b"s1 close 0\r", "1: handle"),
        (b"s1 close 0\r\r\n", "1: handle"),
        (b"s1\rclose 0\n", "1: session"),
        (b"#\xff\r\ns1 open 0 a\0b rw create", "2: path"),
        (b"s1 open 0 . rw create", "1: path"),
        (b"s1 open 0 .. rw create", "1: path"),
        (b"s1 open 0 .vfs-stage-1 rw create", "1: path"),
        (b"s1 open 0 d/a rw create", "1: unbuilt"),
        (b"s1 read 00 0 1", "1: handle"),
        (b"s1 read 0 01 1", "1: number"),
        (b"s1 read 0 18446744073709551616 1", "1: number"),
        (b"s1 read 0 0 99999999999999999999\n", "1: number"),
        (b"s1 close 0\n\ns1 jump\ns1 hop\n", "3: verb"),
        (b"s1  close 0", "1: words"),
        (b"s17 close 0", "1: session"),
        (b"clean", "1: unbuilt"),
        (b"join\nrestart\n", "2: unbuilt"),
    ];
    for (script, told) in table {
        let expected = format!(in rt.alloc(); "script line {told}\nend 3\n")?;
        let source = source_of(rt.alloc(), script, &[])?;
        let seen = run_words(rt.alloc(), &ROW, source, &[])?;
        expect_text(&rt, &seen, 3, expected.as_str());
        assert_eq!(rt; seen.records.len(), 0);
    }
    Ok(())
}

fn repeated(alloc: Global, line: &[u8], times: usize) -> Result<MemorySource, Fail> {
    let mut text = Vec::new(alloc);
    for _ in 0..times {
        text.extend_from_slice(line)?;
    }
    Ok(MemorySource::new(text, Vec::new(alloc)))
}

#[test]
fn scripts_above_a_limit_are_refused(rt: HostRuntime) -> Result<(), Fail> {
    let table: [(&[u8], usize, &str); 3] = [
        (b"# 17 MiB of sixteen\n", 891_290, "limit script 16777216"),
        (b"\n", 65_537, "limit lines 65536"),
        (b"s1 read 0 0 131072\n", 513, "limit reads 67108864"),
    ];
    for (line, times, told) in table {
        let expected = format!(in rt.alloc(); "{told}\nend 7\n")?;
        let source = repeated(rt.alloc(), line, times)?;
        let seen = run_words(rt.alloc(), &ROW, source, &[])?;
        expect_text(&rt, &seen, 7, expected.as_str());
    }
    Ok(())
}

#[test]
fn a_source_that_fails_is_told(rt: HostRuntime) -> Result<(), Fail> {
    for fails in [1, 2] {
        let source = source_of(rt.alloc(), b"s1 jump\n", &[fails])?;
        let seen = run_words(rt.alloc(), &ROW, source, &[])?;
        expect_text(&rt, &seen, 4, "source fault\nend 4\n");
    }
    Ok(())
}

#[test]
fn a_sink_that_fails_keeps_what_was_done(rt: HostRuntime) -> Result<(), Fail> {
    let table = [
        (1, "", 0),
        (2, START, 1),
        (3, "start files 0 queued 0 damaged 0\n1 ok [t1 f0:1]\n", 1),
    ];
    for (fails, written, records) in table {
        let source = source_of(rt.alloc(), OPEN.as_bytes(), &[])?;
        let seen = run_words(rt.alloc(), &ROW, source, &[fails])?;
        expect_text(&rt, &seen, 5, written);
        assert_eq!(rt; seen.records.as_slice(), [records].as_slice());
    }
    let source = source_of(rt.alloc(), b"s1 jump\n", &[])?;
    let seen = run_words(rt.alloc(), &ROW, source, &[1])?;
    expect_text(&rt, &seen, 5, "");
    Ok(())
}

#[test]
fn a_root_that_cannot_be_listed_is_told(rt: HostRuntime) -> Result<(), Fail> {
    let script = "s1 open 0 a rw create\ns1 open 0 a rw create\ns1 open 1 b rw create\n";
    let mut remote = MemoryRemote::new(rt.alloc());
    remote.fail(RemoteCall::List, 1)?;
    let mut source = source_of(rt.alloc(), script.as_bytes(), &[])?;
    let seen = run_over(rt.alloc(), &ROW, &mut source, &[], remote)?;
    expect_replies(
        &rt,
        &seen,
        "1 E13 remote fault [t0]\n2 ok [t2 f0:1]\n3 ok [t3 f1:1]\n",
    );
    Ok(())
}

#[test]
fn a_root_that_is_missing_and_an_object_that_is_gone_are_told(rt: HostRuntime) -> Result<(), Fail> {
    let script = "s1 open 0 shown r\ns1 open 0 shown rw create\n";
    let mut source = source_of(rt.alloc(), script.as_bytes(), &[])?;
    let seen = run_over(rt.alloc(), &ROW, &mut source, &[], OddRemote::new(false))?;
    expect_replies(&rt, &seen, "1 E1 not found [t2]\n2 ok [t3 f0:1]\n");
    let mut source = source_of(rt.alloc(), script.as_bytes(), &[])?;
    let seen = run_over(rt.alloc(), &ROW, &mut source, &[], OddRemote::new(true))?;
    expect_replies(&rt, &seen, "1 E1 not found [t0]\n2 E1 not found [t1]\n");
    Ok(())
}
