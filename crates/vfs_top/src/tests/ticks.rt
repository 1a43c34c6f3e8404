use super::*;

/// What a run left: what it wrote, and the object at the path of the first file.
#[derive(Drop)]
struct Left {
    status: u8,
    text: String,
    object: Option<Vec<u8>>,
}

/// Runs a script over a store, and looks at an object of it then.
fn run_on_store(
    alloc: Global,
    script: &str,
    remote: MemoryRemote,
    name: &str,
) -> Result<Left, Fail> {
    let words = words_of(alloc, &ROW)?;
    let mut source = source_of(alloc, script.as_bytes(), &[])?;
    let mut sink = MemorySink::new(alloc, Vec::new(alloc));
    let mut clock = ScriptClock::new();
    let ended = run(
        alloc,
        &words,
        &mut source,
        &mut sink,
        remote,
        MemoryDisk::new(alloc),
        &mut clock,
        &OpenGate,
    );
    let path = VPath::parse(alloc, name)?;
    let object = match ended.remote.bytes_of(&path) {
        Some(bytes) => Some(bytes.to_vec(alloc)?),
        None => None,
    };
    let text = String::from_str(alloc, std::str::from_utf8(sink.written())?)?;
    Ok(Left {
        status: ended.status,
        text,
        object,
    })
}

const HELLO: &str =
    "s1 open 0 a.txt rw create\ns1 write 0 0 text:hello\ns1 read 0 0 8\ns1 close 0\n";

#[test]
fn a_file_that_is_due_is_uploaded(rt: HostRuntime) -> Result<(), Fail> {
    let alloc = rt.alloc();
    let mut script = String::from_str(alloc, HELLO)?;
    script.push_str("advance 4999\ntick\nadvance 1\ntick\n")?;
    let left = run_on_store(alloc, &script, MemoryRemote::new(alloc), "a.txt")?;
    assert_eq!(rt; left.status, 0);
    assert_eq!(rt;
        left.text.as_str(),
        "start files 0 queued 0 damaged 0\n1 ok [t1 f0:1]\n2 ok 5 [f0:2]\n3 ok 5 68656c6c6f [f0:3]\n4 ok [t2 f0:4]\n5 advance 4999\n6 tick uploaded 0 failed 0\n7 advance 5000\n8 tick uploaded 1 failed 0\ntree\n0 s1 0 listed / 1\n1 s1 0 created a.txt 0\n2 s1 0 closed 0 dirty\n3 m 5000 stored a.txt 5.0.1\nfile 0 a.txt\n0 s1 0 1 create\n1 s1 0 1 opened rw\n2 s1 0 2 write 0 hex:68656c6c6f\n3 s1 0 4 read 0 8\n4 s1 0 4 closed\n5 m 5000 4 upload_start 2\n6 m 5000 6 uploaded 5 5.0.1\nqueue\nend 0\n"
    );
    assert!(rt;
        left.object
            .as_ref()
            .is_some_and(|bytes| bytes.as_slice() == b"hello".as_slice())
    );
    Ok(())
}

#[test]
fn a_failed_upload_waits_longer_each_time(rt: HostRuntime) -> Result<(), Fail> {
    let alloc = rt.alloc();
    let steps = [
        ("", "0 5000 0", false),
        ("advance 5000\ntick\n", "0 10000 1", false),
        ("advance 4999\ntick\nadvance 1\ntick\n", "0 20000 2", false),
        ("advance 10000\ntick\n", "0 40000 3", false),
        ("advance 20000\ntick\n", "0 80000 4", false),
        ("advance 40000\ntick\n", "0 140000 5", false),
        ("advance 60000\ntick\n", "", true),
    ];
    let mut script = String::from_str(alloc, HELLO)?;
    for (lines, row, is_there) in steps {
        script.push_str(lines)?;
        let mut remote = MemoryRemote::new(alloc);
        for nth in 1..6 {
            remote.fail(RemoteCall::Commit, nth)?;
        }
        let left = run_on_store(alloc, &script, remote, "a.txt")?;
        assert_eq!(rt; left.status, 0, "{row}");
        let mut end = String::from_str(alloc, "queue\n")?;
        end.push_str(row)?;
        if !row.is_empty() {
            end.push_str("\n")?;
        }
        end.push_str("end 0\n")?;
        assert!(rt; left.text.ends_with(end.as_str()), "{}", left.text);
        assert_eq!(rt; left.object.is_some(), is_there, "{row}");
    }
    Ok(())
}

#[test]
fn an_upload_goes_in_the_place_of_an_object(rt: HostRuntime) -> Result<(), Fail> {
    let alloc = rt.alloc();
    let mut remote = MemoryRemote::new(alloc);
    let bytes = Blob::from_slice(alloc, b"abcdefgh")?;
    remote.put(VPath::parse(alloc, "big")?, bytes, 9)?;
    let script =
        "s1 open 0 big rw\ns1 write 0 2 text:XY\ns1 size 0 10\ns1 close 0\nadvance 5000\ntick\ns1 open 0 big r\ns1 read 0 0 20\ns1 close 0\ntick\n";
    let left = run_on_store(alloc, script, remote, "big")?;
    assert_eq!(rt; left.status, 0);
    assert!(rt;
        left.text.contains(
            "6 tick uploaded 1 failed 0\n7 ok [t4 f0:8]\n8 ok 10 61625859656667680000 [f0:9]\n"
        ),
        "{}",
        left.text
    );
    assert!(rt;
        left.text.contains("10 tick uploaded 0 failed 0\n"),
        "{}",
        left.text
    );
    assert!(rt; left.text.ends_with("queue\nend 0\n"), "{}", left.text);
    assert!(rt;
        left.object
            .as_ref()
            .is_some_and(|found| found.as_slice() == b"abXYefgh\0\0".as_slice())
    );
    Ok(())
}

/// Neither the moment of the close nor that of the upload.
#[test]
fn an_object_has_the_time_of_the_last_change(rt: HostRuntime) -> Result<(), Fail> {
    let alloc = rt.alloc();
    let script =
        "s1 open 0 a.txt rw create\ns1 write 0 0 text:x\nadvance 7\ns1 write 0 1 text:y\nadvance 2\ns1 close 0\nadvance 5000\ntick\n";
    let left = run_on_store(alloc, script, MemoryRemote::new(alloc), "a.txt")?;
    assert_eq!(rt; left.status, 0);
    assert!(rt;
        left.text.contains("\n3 m 5009 stored a.txt 2.7.1\n"),
        "{}",
        left.text
    );
    Ok(())
}
