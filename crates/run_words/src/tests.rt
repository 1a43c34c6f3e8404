use crate::{NotWords, read_words};
use downloaders::{Limit, Plan};
use std::alloc::Global;
use std::process::Abort;
use std::test::Fail;

/// What each row of these tests needs besides its own words.
const NEEDED: &str = "run --remote r --cache c --vfs-cache-mode full --worker-turns 0";

const MIB: u64 = 1 << 20;

/// The words of a line, between single spaces.
fn words_of(alloc: Global, line: &str) -> Result<Vec<String>, Fail> {
    let mut words = Vec::new(alloc);
    for word in line.split(' ') {
        words.push(String::from_str(alloc, word)?)?;
    }
    Ok(words)
}

/// Whether the words of a line are in the language.
fn is_read(alloc: Global, line: &str) -> Result<bool, Fail> {
    let words = words_of(alloc, line)?;
    Ok(read_words(&words) != Err(NotWords))
}

/// The plan that the needed words and this one, which is an option with its value, ask for.
fn plan_of(alloc: Global, word: &str) -> Result<Option<Plan>, Fail> {
    let mut words = words_of(alloc, NEEDED)?;
    words.push(String::from_str(alloc, word)?)?;
    match read_words(&words) {
        Ok(run) => Ok(Some(run.plan)),
        Err(NotWords) => Ok(None),
    }
}

#[test]
fn options_stand_in_any_order_and_both_spellings(rt: HostRuntime) -> Result<(), Fail> {
    let table = [
        (
            "run --remote r --cache c --vfs-cache-mode full --worker-turns 0",
            ("r", "c", Some(128 * MIB), Limit::Off),
        ),
        (
            "run --worker-turns=0 --vfs-cache-mode=full --cache=c --remote=r",
            ("r", "c", Some(128 * MIB), Limit::Off),
        ),
        (
            "run --vfs-read-chunk-size 1Mi --worker-turns 0 --remote=a/b --vfs-cache-mode full \
             --vfs-read-chunk-size-limit=4M --cache /c",
            ("a/b", "/c", Some(MIB), Limit::Most(4 * MIB)),
        ),
        (
            "run --vfs-read-chunk-size-limit 0 --cache c --remote r --vfs-read-chunk-size=off \
             --vfs-cache-mode full --worker-turns 0",
            ("r", "c", None, Limit::Same),
        ),
        (
            "run --remote=a=b --cache full --vfs-cache-mode full --worker-turns 0",
            ("a=b", "full", Some(128 * MIB), Limit::Off),
        ),
        (
            "run --remote a=b --cache ==c --vfs-cache-mode full --worker-turns 0",
            ("a=b", "==c", Some(128 * MIB), Limit::Off),
        ),
        (
            "run --remote \u{e9} --cache=\u{20ac} --vfs-cache-mode full --worker-turns 0",
            ("\u{e9}", "\u{20ac}", Some(128 * MIB), Limit::Off),
        ),
        (
            "run --remote run --cache r --vfs-cache-mode full --worker-turns 0",
            ("run", "r", Some(128 * MIB), Limit::Off),
        ),
    ];
    for (line, expected) in table {
        let words = words_of(rt.alloc(), line)?;
        let found = match read_words(&words) {
            Ok(run) => (run.remote, run.cache, run.plan.chunk, run.plan.limit),
            Err(NotWords) => ("", "", None, Limit::Off),
        };
        assert!(rt; found == expected, "{line}");
    }
    Ok(())
}

#[test]
fn words_outside_the_language_are_refused(rt: HostRuntime) -> Result<(), Fail> {
    let rest = "--vfs-cache-mode full --worker-turns 0";
    let rows = "\
work --remote r --cache c

Run --remote r --cache c
--remote r --cache c
run
run --remote r
run --cache c
run --cache c --cache c
run --remote r --remote r --cache c
run --remote r --cache c --remote r
run --remote r --cache c --remote=r
run --remote=r --cache c --remote r
run --remote=r --remote=r --cache c
run --remote r --cache c run
run --remote r --cache c x
run x --remote r --cache c
run --remote r --cache c --
run -- --remote r --cache c
run --remote r --cache c --help
run --remote r --cache c -h
run --remote r --cache c --read-ahead 1M
run --remote r --cache c --transfer 4
run --remote r --cache c --write-back 5s
run --remote r --cache c --vfs-write-bac 5s
run --remote r --cache c --count 1
run --remot r --cache c
run --remotes r --cache c
run -r r --cache c
run -remote r --cache c
run --Remote r --cache c
run --remote  --cache c
run --remote --cache c
run --remote= --cache c
run --remote -x --cache c
run --remote=-x --cache c
run --remote r --cache -
run --remote r --cache=--vfs-cache-mode
run --remote =r --cache
run --=r --remote r --cache c
run =r --remote r --cache c
run --remote r\0 --cache c
run --remote r --cache=\0";
    for row in rows.split('\n') {
        let alloc = rt.alloc();
        let line = format!(in alloc; "{row} {rest}")?;
        assert!(rt; !is_read(alloc, &line)?, "{row}");
    }
    Ok(())
}

#[test]
fn modes_and_turns_have_one_value_so_far(rt: HostRuntime) -> Result<(), Fail> {
    let rows = "\
good --vfs-cache-mode full --worker-turns 0
good --worker-turns=0 --vfs-cache-mode=full
bad --vfs-cache-mode full
bad --worker-turns 0
bad --vfs-cache-mode off --worker-turns 0
bad --vfs-cache-mode=writes --worker-turns 0
bad --vfs-cache-mode Full --worker-turns 0
bad --vfs-cache-mode= --worker-turns 0
bad --vfs-cache-mode full --worker-turns 1
bad --vfs-cache-mode full --worker-turns=00
bad --vfs-cache-mode full --worker-turns
bad --vfs-cache-mode full --worker-turns=
bad --worker-turns 0 --vfs-cache-mode
bad --vfs-cache-mode full --worker-turns 0 --vfs-cache-mode full
bad --vfs-cache-mode full --worker-turns 0 --worker-turns=0
bad --vfs-cache-mode full --worker-turns 0 --vfs-read-chunk-size
bad --vfs-cache-mode full --worker-turns 0 --vfs-read-chunk-size 1M --vfs-read-chunk-size=1M
bad --vfs-read-chunk-size-limit 0 --vfs-cache-mode=full --vfs-read-chunk-size-limit 0
bad --vfs-read-chunk-size-limit 0 --vfs-cache-mode=full --worker-turns=0 --vfs-read-chunk
good --transfers 2 --vfs-cache-mode full --worker-turns 0 --vfs-write-back 1s
bad --vfs-cache-mode full --worker-turns 0 --transfers
bad --vfs-cache-mode full --worker-turns 0 --vfs-write-back
bad --transfers 2 --vfs-cache-mode full --worker-turns 0 --transfers=2
bad --vfs-write-back=1s --vfs-cache-mode full --worker-turns 0 --vfs-write-back 1s";
    let alloc = rt.alloc();
    for row in rows.lines() {
        if let Some((expected, options)) = row.split_once(' ') {
            let line = format!(in alloc; "run --remote r --cache c {options}")?;
            assert!(rt; is_read(alloc, &line)? == (expected == "good"), "{row}");
        }
    }
    Ok(())
}

/// The chunk sizes and the limits that a value asks for as either, or None where it is refused.
fn check_size(
    rt: &impl Abort,
    alloc: Global,
    value: &str,
    expected: Option<(Option<u64>, Limit)>,
) -> Result<(), Fail> {
    let as_chunk = format!(in alloc; "--vfs-read-chunk-size={value}")?;
    let as_limit = format!(in alloc; "--vfs-read-chunk-size-limit={value}")?;
    let chunk = plan_of(alloc, &as_chunk)?;
    let limit = plan_of(alloc, &as_limit)?;
    match expected {
        Some((size, most)) => {
            assert!(rt;
                chunk
                    == Some(Plan {
                        chunk: size,
                        limit: Limit::Off
                    }),
                "{value}"
            );
            let chunk = Some(128 * MIB);
            assert!(rt; limit == Some(Plan { chunk, limit: most }), "{value}");
        }
        None => {
            assert!(rt; chunk.is_none(), "{value}");
            assert!(rt; limit.is_none(), "{value}");
        }
    }
    Ok(())
}

#[test]
fn sizes_are_numbers_with_units(rt: HostRuntime) -> Result<(), Fail> {
    let table: [(&str, u64); 17] = [
        ("1B", 1),
        ("9B", 9),
        ("1023B", 1023),
        ("1K", 1024),
        ("1Ki", 1024),
        ("100K", 102_400),
        ("1M", 1_048_576),
        ("10Mi", 10_485_760),
        ("1G", 1_073_741_824),
        ("3Gi", 3_221_225_472),
        ("1T", 1_099_511_627_776),
        ("1Ti", 1_099_511_627_776),
        ("1024G", 1_099_511_627_776),
        ("1048576Mi", 1_099_511_627_776),
        ("1073741824K", 1_099_511_627_776),
        ("1099511627776B", 1_099_511_627_776),
        ("1099511627775B", 1_099_511_627_775),
    ];
    for (value, size) in table {
        check_size(
            &rt,
            rt.alloc(),
            value,
            Some((Some(size), Limit::Most(size))),
        )?;
    }
    for value in ["0", "0B", "0K", "0Ki", "0M", "0Gi", "0T", "0Ti"] {
        check_size(&rt, rt.alloc(), value, Some((None, Limit::Same)))?;
    }
    check_size(&rt, rt.alloc(), "off", Some((None, Limit::Off)))
}

#[test]
fn other_sizes_are_refused(rt: HostRuntime) -> Result<(), Fail> {
    let values = "\
1

128
00
01B
00B
01
B
K
Ti
+1B
-1B
1.5M
1 M
1k
1ki
1m
1mi
1g
1t
1b
1KI
1KB
1KiB
1Kib
1BB
1P
1i
1M1
1M1K
x1M
0x1M
1,000B
Off
OFF
of
offf
off\u{20}
o
1099511627777B
1073741825K
1048577Mi
1025G
2T
2Ti
1024T
16777216T
18446744073709551615B
18446744073709551616B
18446744073709551617B
18446744073709551617T
36893488147419103232K
100000000000000000000000000000000000000000000000000000000000000000000000000B
100000000000000000000000000000000000000000000000000000000000000000000000000
999999999999999999999999999999999999999999999999999999999999999999999999999Ti";
    for value in values.split('\n') {
        check_size(&rt, rt.alloc(), value, None)?;
    }
    Ok(())
}

/// The write-back time and the transfers that the needed words and these options ask for.
fn terms_of(alloc: Global, options: &str) -> Result<Option<(u64, u32)>, Fail> {
    let line = format!(in alloc; "{NEEDED}{options}")?;
    let words = words_of(alloc, &line)?;
    match read_words(&words) {
        Ok(run) => Ok(Some((run.write_back, run.transfers))),
        Err(NotWords) => Ok(None),
    }
}

#[test]
fn terms_are_given_or_have_defaults(rt: HostRuntime) -> Result<(), Fail> {
    let table = [
        ("", (5000, 4)),
        (" --transfers 16", (5000, 16)),
        (" --vfs-write-back 1m", (60_000, 4)),
        (" --transfers=1 --vfs-write-back=0s", (0, 1)),
        (" --vfs-write-back 90s --transfers 8", (90_000, 8)),
    ];
    for (options, expected) in table {
        assert!(rt;
            terms_of(rt.alloc(), options)? == Some(expected),
            "{options}"
        );
    }
    Ok(())
}

#[test]
fn times_are_numbers_with_units(rt: HostRuntime) -> Result<(), Fail> {
    let alloc = rt.alloc();
    let table: [(&str, u64); 25] = [
        ("0h", 0),
        ("0m", 0),
        ("0s", 0),
        ("0ms", 0),
        ("0h0m0s0ms", 0),
        ("1h", 3_600_000),
        ("1m", 60_000),
        ("1s", 1000),
        ("1ms", 1),
        ("10ms", 10),
        ("90s", 90_000),
        ("1h2m", 3_720_000),
        ("1h1s", 3_601_000),
        ("1h1ms", 3_600_001),
        ("1m1s", 61_000),
        ("1m1ms", 60_001),
        ("1s500ms", 1500),
        ("1h2m3s4ms", 3_723_004),
        ("305419h", 1_099_508_400_000),
        ("18325193m", 1_099_511_580_000),
        ("1099511627s", 1_099_511_627_000),
        ("999999999999ms", 999_999_999_999),
        ("1s999999999999ms", 1_000_000_000_999),
        ("1099511627s776ms", 1_099_511_627_776),
        ("305419h53m47s776ms", 1_099_511_627_776),
    ];
    for (value, millis) in table {
        let option = format!(in alloc; " --vfs-write-back={value}")?;
        assert!(rt; terms_of(alloc, &option)? == Some((millis, 4)), "{value}");
    }
    Ok(())
}

#[test]
fn other_times_are_refused(rt: HostRuntime) -> Result<(), Fail> {
    let values = "\
5

0
s
h
m
ms
1m1h
1s1h
1s1m
1ms1h
1ms1m
1ms1s
1h1h
1m1m
1s1s
1ms1ms
1m2s3m
01s
00s
1h01m
1h00ms
1s5
1h2m3
1h2
1 s
1h 2m
\u{20}1s
1s\u{20}
1.5s
1,000s
-1s
+1s
1h-1m
1h+1m
0x1s
1M
1H
1S
1Ms
1mS
1MS
1d
1w
1us
1ns
1sec
1hm
1sms
1mms
1mss
1msm
1ss
hm1s
x1s
off
1099511627s777ms
305419h53m47s777ms
1099511628s
18325194m
305420h
1000000000000ms
1099511627776ms
1000000000000h
0h1000000000000ms
999999999999h
999999999999h999999999999m999999999999s999999999999ms
5124095576h
18446744073709551616ms
18446744073709551617ms
0000000000001s
100000000000000000000000000000000000000000000000000000000000000000000000000s";
    let alloc = rt.alloc();
    for value in values.split('\n') {
        let option = format!(in alloc; " --vfs-write-back={value}")?;
        assert!(rt; terms_of(alloc, &option)?.is_none(), "{value}");
    }
    Ok(())
}

#[test]
fn transfers_are_one_to_16(rt: HostRuntime) -> Result<(), Fail> {
    let alloc = rt.alloc();
    for count in 0..20u32 {
        let option = format!(in alloc; " --transfers={count}")?;
        let expected = if count >= 1 && count <= 16 {
            Some((5000, count))
        } else {
            None
        };
        assert!(rt; terms_of(alloc, &option)? == expected, "{count}");
    }
    let values = "\

01
016
+4
-4
4.0
\u{20}4
4\u{20}
4s
four
off
0x4
100
4294967297
18446744073709551617";
    for value in values.split('\n') {
        let option = format!(in alloc; " --transfers={value}")?;
        assert!(rt; terms_of(alloc, &option)?.is_none(), "{value}");
    }
    Ok(())
}

/// Whether a folder of so many bytes is read, as each folder and in each spelling.
fn reads_folders(alloc: Global, len: usize) -> Result<[bool; 3], Fail> {
    let mut folder = String::new(alloc);
    for _ in 0..len {
        folder.push_str("f")?;
    }
    let rest = "--vfs-cache-mode full --worker-turns 0";
    let first = format!(in alloc; "run --remote {folder} --cache c {rest}")?;
    let joined = format!(in alloc; "run --remote={folder} --cache c {rest}")?;
    let second = format!(in alloc; "run --remote r --cache {folder} {rest}")?;
    Ok([
        is_read(alloc, &first)?,
        is_read(alloc, &joined)?,
        is_read(alloc, &second)?,
    ])
}

#[test]
fn folders_have_one_to_1024_bytes(rt: HostRuntime) -> Result<(), Fail> {
    let alloc = rt.alloc();
    assert!(rt; reads_folders(alloc, 0)? == [false; 3]);
    assert!(rt; reads_folders(alloc, 1)? == [true; 3]);
    assert!(rt; reads_folders(alloc, 1024)? == [true; 3]);
    assert!(rt; reads_folders(alloc, 1025)? == [false; 3]);
    Ok(())
}

#[test]
fn a_million_words_are_refused(rt: HostRuntime) -> Result<(), Fail> {
    let alloc = rt.alloc();
    let mut words = words_of(alloc, NEEDED)?;
    for _ in 0..1_000_000 {
        words.push(String::from_str(alloc, "--cache=c")?)?;
    }
    assert!(rt; read_words(&words) == Err(NotWords));
    let none: [String; 0] = [];
    assert!(rt; read_words(&none) == Err(NotWords));
    Ok(())
}
