use crate::*;
use std::alloc::Global;
use std::test::Fail;

fn parses(alloc: Global, text: &str) -> Result<bool, Fail> {
    match VPath::parse(alloc, text) {
        Ok(_) => Ok(true),
        Err(NameError::BadName) => Ok(false),
        Err(NameError::NoMemory) => Err(Fail::from("no memory")),
    }
}

#[test]
fn texts_are_paths_or_not(rt: HostRuntime) -> Result<(), Fail> {
    let long = [b'a'; 1025];
    let long = std::str::from_utf8(&long)?;
    let table = [
        ("", true),
        ("a", true),
        ("a/b", true),
        (".a/..b/c.", true),
        ("\u{e9}", true),
        (&long[..1024], true),
        (long, false),
        ("/", false),
        ("/a", false),
        ("a/", false),
        ("a//b", false),
        (".", false),
        ("a/..", false),
        ("a\0b", false),
        (".vfs-stage-1", false),
        ("d/.vfs-stage-", false),
    ];
    for (text, good) in table {
        assert_eq!(rt; parses(rt.alloc(), text)?, good, "{text}");
    }
    Ok(())
}

#[test]
fn parents_stand_before_the_last_slash(rt: HostRuntime) -> Result<(), Fail> {
    let table = [("a/b/c", "a/b"), ("a/b", "a"), ("a", "")];
    for (text, parent) in table {
        let path = VPath::parse(rt.alloc(), text)?;
        let found = path.parent(rt.alloc())?.ok_or("no parent")?;
        assert_eq!(rt; found.as_str(), parent);
        assert!(rt; path.copy(rt.alloc())? == path);
    }
    let root = VPath::root(rt.alloc());
    assert!(rt; root.is_root());
    assert!(rt; root.parent(rt.alloc())?.is_none());
    Ok(())
}

#[test]
fn payloads_have_their_bytes(rt: HostRuntime) -> Result<(), Fail> {
    let bytes = Payload::Bytes(Blob::from_slice(rt.alloc(), b"hello")?);
    assert_eq!(rt; bytes.len(), 5);
    let fill = Payload::Fill { byte: 90, len: 3 };
    let pattern = Payload::Pattern { seed: 250, len: 3 };
    let table = [
        (&bytes, 104, 101, 108),
        (&fill, 90, 90, 90),
        (&pattern, 0xfa, 0x06, 0x0d),
    ];
    for (payload, first, second, third) in table {
        assert!(rt; !payload.is_empty());
        if payload.len() >= 3 {
            assert_eq!(rt; payload.byte(0), first);
            assert_eq!(rt; payload.byte(1), second);
            assert_eq!(rt; payload.byte(2), third);
        }
    }
    Ok(())
}

#[test]
fn fingerprints_agree_and_print(rt: HostRuntime) -> Result<(), Fail> {
    let print = Fingerprint {
        size: 3,
        mtime: 0,
        rev: 1,
    };
    assert!(rt; print.agrees(&print));
    assert!(rt;
        !print.agrees(&Fingerprint {
            size: 3,
            mtime: 9,
            rev: 1
        })
    );
    assert_eq!(rt; print.text(rt.alloc())?.as_slice(), b"3.0.1".as_slice());
    Ok(())
}
