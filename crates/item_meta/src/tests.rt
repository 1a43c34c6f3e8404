use crate::{Field, Intent, Meta, MetaError, read_meta, write_meta};
use byte_ranges::{RangeSet, Span};
use std::alloc::Global;
use std::process::Abort;
use std::test::Fail;
use vfs_names::{Blob, VPath};

const EXAMPLE: &str =
    r#"{"atime":0,"base":null,"base_end":0,"dirty":true,"intent":{"bytes":"68656c6c6f","pos":0},"mtime":0,"path":"a.txt","ranges":[[0,5]],"size":5,"v":1}"#;

// A file that is its base, with characters in its path that are escaped.
const CLEAN: &str =
    r#"{"atime":18446744073709551615,"base":{"mtime":7,"rev":3,"size":9},"base_end":9,"dirty":false,"intent":null,"mtime":7,"path":"d/\"\\\n\u0001é","ranges":[[0,2],[4,9]],"size":9,"v":1}"#;

// The field that a reading tells, or None where it gave metadata.
fn told(alloc: Global, text: &[u8]) -> Result<Option<Field>, Fail> {
    match read_meta(alloc, text) {
        Ok(_) => Ok(None),
        Err(MetaError::BadMeta(field)) => Ok(Some(field)),
        Err(MetaError::NoMemory) => Err(Fail::from("no memory")),
    }
}

// Reads the text with a part of it replaced.
fn compare(
    rt: &impl Abort,
    alloc: Global,
    text: &str,
    row: (&str, &str, Option<Field>),
) -> Result<(), Fail> {
    let (old, new, wanted) = row;
    let Some((front, back)) = text.split_once(old) else {
        return Err(Fail::from("no such part"));
    };
    let mut changed = String::from_str(alloc, front)?;
    changed.push_str(new)?;
    changed.push_str(back)?;
    assert_eq!(rt; told(alloc, changed.as_bytes())?, wanted, "{new}");
    Ok(())
}

#[test]
fn the_example_is_read_and_written_back(rt: HostRuntime) -> Result<(), Fail> {
    let mut ranges = RangeSet::new(rt.alloc());
    ranges.insert(Span { start: 0, end: 5 })?;
    let meta = Meta {
        path: VPath::parse(rt.alloc(), "a.txt")?,
        size: 5,
        base_end: 0,
        ranges,
        base: None,
        dirty: true,
        mtime: 0,
        atime: 0,
        intent: Some(Intent {
            pos: 0,
            bytes: Blob::from_slice(rt.alloc(), b"hello")?,
        }),
    };
    let text = write_meta(rt.alloc(), &meta)?;
    assert_eq!(rt; text.as_slice(), EXAMPLE.as_bytes());
    for text in [EXAMPLE, CLEAN] {
        let meta = read_meta(rt.alloc(), text.as_bytes())?;
        let again = write_meta(rt.alloc(), &meta)?;
        assert_eq!(rt; again.as_slice(), text.as_bytes());
    }
    Ok(())
}

#[test]
fn whole_texts(rt: HostRuntime) -> Result<(), Fail> {
    let table = [
        (b"".as_slice(), Field::Shape),
        (b"\xff".as_slice(), Field::Shape),
        (b"{\"v\":1".as_slice(), Field::Shape),
        (b"[1]".as_slice(), Field::Shape),
        (b"{\"v\":1} 2".as_slice(), Field::Shape),
        (b"{\"w\":1}".as_slice(), Field::Extra),
        (b"{}".as_slice(), Field::V),
        (b"{\"v\":1}".as_slice(), Field::Path),
        (b" {\"path\":\"a\",\"v\":1}".as_slice(), Field::Size),
    ];
    for (text, wanted) in table {
        assert_eq!(rt; told(rt.alloc(), text)?, Some(wanted), "{wanted}");
    }
    Ok(())
}

#[test]
fn keys_version_path_and_size(rt: HostRuntime) -> Result<(), Fail> {
    let table = [
        ("\"v\":1", "\"v\":1,\"w\":0", Some(Field::Extra)),
        (",\"v\":1", "", Some(Field::V)),
        ("\"v\":1", "\"v\":2", Some(Field::V)),
        ("\"v\":1", "\"v\":1.0", Some(Field::V)),
        ("\"path\":\"a.txt\",", "", Some(Field::Path)),
        ("\"a.txt\"", "7", Some(Field::Path)),
        ("\"a.txt\"", "\"\"", Some(Field::Path)),
        ("\"a.txt\"", "\"a//b\"", Some(Field::Path)),
        ("\"size\":5,", "", Some(Field::Size)),
        ("\"size\":5", "\"size\":\"5\"", Some(Field::Size)),
        ("\"size\":5", "\"size\":-5", Some(Field::Size)),
        ("\"size\":5", "\"size\":1099511627777", Some(Field::Size)),
        ("\"size\":5", "\"size\":1099511627776", None),
    ];
    for row in table {
        compare(&rt, rt.alloc(), EXAMPLE, row)?;
    }
    Ok(())
}

#[test]
fn bases_and_their_ends(rt: HostRuntime) -> Result<(), Fail> {
    let table = [
        (
            "\"base\":{\"mtime\":7,\"rev\":3,\"size\":9},",
            "",
            Field::Base,
        ),
        ("{\"mtime\":7,\"rev\":3,\"size\":9}", "[]", Field::Base),
        ("\"rev\":3,", "", Field::Base),
        ("\"rev\":3", "\"rev\":null", Field::Base),
        ("\"rev\":3", "\"raw\":0,\"rev\":3", Field::Base),
        ("\"size\":9}", "\"size\":1099511627777}", Field::Base),
        ("\"base_end\":9,", "", Field::BaseEnd),
        ("\"base_end\":9", "\"base_end\":true", Field::BaseEnd),
        ("\"base_end\":9", "\"base_end\":10", Field::BaseEnd),
        ("\"size\":9}", "\"size\":8}", Field::BaseEnd),
        ("\"size\":9,", "\"size\":8,", Field::BaseEnd),
        ("{\"mtime\":7,\"rev\":3,\"size\":9}", "null", Field::BaseEnd),
    ];
    for (old, new, wanted) in table {
        compare(&rt, rt.alloc(), CLEAN, (old, new, Some(wanted)))?;
    }
    Ok(())
}

#[test]
fn ranges_of_bytes(rt: HostRuntime) -> Result<(), Fail> {
    let table = [
        ("\"ranges\":[[0,5]],", "", Some(Field::Ranges)),
        ("[[0,5]]", "null", Some(Field::Ranges)),
        ("[[0,5]]", "[0,5]", Some(Field::Ranges)),
        ("[[0,5]]", "[[0,5,6]]", Some(Field::Ranges)),
        ("[[0,5]]", "[[0]]", Some(Field::Ranges)),
        ("[[0,5]]", "[[0,\"5\"]]", Some(Field::Ranges)),
        ("[[0,5]]", "[[0,5],[5,5]]", Some(Field::Ranges)),
        ("[[0,5]]", "[[0,2],[2,5]]", Some(Field::Ranges)),
        ("[[0,5]]", "[[0,3],[2,5]]", Some(Field::Ranges)),
        ("[[0,5]]", "[[3,5],[0,2]]", Some(Field::Ranges)),
        ("[[0,5]]", "[[0,6]]", Some(Field::Ranges)),
        ("[[0,5]]", "[[0,2],[3,5]]", Some(Field::Intent)),
    ];
    for row in table {
        compare(&rt, rt.alloc(), EXAMPLE, row)?;
    }
    Ok(())
}

#[test]
fn marks_and_intents(rt: HostRuntime) -> Result<(), Fail> {
    let table = [
        ("\"dirty\":true,", "", Some(Field::Dirty)),
        ("\"dirty\":true", "\"dirty\":1", Some(Field::Dirty)),
        ("\"dirty\":true", "\"dirty\":false", Some(Field::Dirty)),
        (
            "\"intent\":{\"bytes\":\"68656c6c6f\",\"pos\":0},",
            "",
            Some(Field::Intent),
        ),
        (
            "{\"bytes\":\"68656c6c6f\",\"pos\":0}",
            "0",
            Some(Field::Intent),
        ),
        ("{\"bytes\":\"68656c6c6f\",\"pos\":0}", "null", None),
        ("\"pos\":0", "\"pos\":0,\"to\":5", Some(Field::Intent)),
        ("\"68656c6c6f\"", "\"\"", Some(Field::Intent)),
        ("\"68656c6c6f\"", "\"6\"", Some(Field::Intent)),
        ("\"68656c6c6f\"", "\"6g\"", Some(Field::Intent)),
        ("\"68656c6c6f\"", "\"68656C6C6F\"", Some(Field::Intent)),
        ("\"pos\":0", "\"pos\":1", Some(Field::Intent)),
        ("[[0,5]]", "[[0,4]]", Some(Field::Intent)),
    ];
    for row in table {
        compare(&rt, rt.alloc(), EXAMPLE, row)?;
    }
    let clean = [
        ("\"size\":9,\"v\"", "\"size\":10,\"v\"", Some(Field::Dirty)),
        ("\"base_end\":9", "\"base_end\":8", Some(Field::Dirty)),
        (
            "\"intent\":null",
            "\"intent\":{\"bytes\":\"00\",\"pos\":0}",
            Some(Field::Intent),
        ),
    ];
    for row in clean {
        compare(&rt, rt.alloc(), CLEAN, row)?;
    }
    Ok(())
}

#[test]
fn moments_and_spellings(rt: HostRuntime) -> Result<(), Fail> {
    let table = [
        ("\"mtime\":0,", "", Some(Field::Mtime)),
        (
            "\"mtime\":0",
            "\"mtime\":18446744073709551616",
            Some(Field::Mtime),
        ),
        ("\"mtime\":0", "\"mtime\":-0", Some(Field::Mtime)),
        ("\"atime\":0,", "", Some(Field::Atime)),
        ("\"atime\":0", "\"atime\":null", Some(Field::Atime)),
        ("{\"atime\":0", "{ \"atime\":0", Some(Field::Spelling)),
        ("\"v\":1}", "\"v\":1}\n", Some(Field::Spelling)),
        (
            "{\"atime\":0,\"base\":null,",
            "{\"base\":null,\"atime\":0,",
            Some(Field::Spelling),
        ),
        ("\"v\":1", "\"v\":1,\"v\":1", Some(Field::Spelling)),
        ("\"v\":1", "\"v\":2,\"v\":1", Some(Field::Spelling)),
        ("a.txt", "\\u0061.txt", Some(Field::Spelling)),
        ("a.txt", "b.txt", None),
    ];
    for row in table {
        compare(&rt, rt.alloc(), EXAMPLE, row)?;
    }
    assert_eq!(rt; Field::BaseEnd.text(), "base_end");
    Ok(())
}

#[test]
fn the_longest_intent(rt: HostRuntime) -> Result<(), Fail> {
    for (len, wanted) in [(131_072u32, None), (131_073, Some(Field::Intent))] {
        let mut digits = String::new(rt.alloc());
        for _ in 0..len {
            digits.push_str("00")?;
        }
        let text = format!(in rt.alloc();
            "{{\"atime\":0,\"base\":null,\"base_end\":0,\"dirty\":true,\"intent\":{{\"bytes\":\"{digits}\",\"pos\":0}},\"mtime\":0,\"path\":\"a\",\"ranges\":[[0,{len}]],\"size\":{len},\"v\":1}}"
        )?;
        assert_eq!(rt; told(rt.alloc(), text.as_bytes())?, wanted, "{len}");
    }
    Ok(())
}
