//! Uploads from their start to their end: what stands at the file's path, and what its entries say.
use super::bench::{Bench, OBJECT};
use crate::Ended;
use item_core::{Dropped, FileKind};
use remote_memory::RemoteCall;
use std::alloc::Global;
use std::test::Fail;
use vfs_names::{Found, Refusal};

/// The most bytes of a block.
const BLOCK: u64 = 131_072;

/// A file of three blocks.
const THREE: [u64; 3] = [BLOCK, BLOCK, 37_856];

/// The content of a file that is an object of so many bytes, to which a byte was written past a gap,
/// and that object.
#[derive(Drop)]
struct Gap {
    object: Vec<u8>,
    content: Vec<u8>,
}

impl Gap {
    fn new(alloc: Global, size: u64, at: u64) -> Result<Gap, Fail> {
        let mut object = Vec::new(alloc);
        let mut content = Vec::new(alloc);
        for place in 0..size {
            object.push((place % 251) as u8)?;
            content.push((place % 251) as u8)?;
        }
        for _ in size..at {
            content.push(0)?;
        }
        content.push(b'!')?;
        Ok(Gap { object, content })
    }
}

/// So many `a`, then `b` and then `c`.
fn letters(alloc: Global, sizes: [u64; 3]) -> Result<Vec<u8>, Fail> {
    let [first, second, third] = sizes;
    let mut bytes = Vec::new(alloc);
    for (len, letter) in [(first, b'a'), (second, b'b'), (third, b'c')] {
        for _ in 0..len {
            bytes.push(letter)?;
        }
    }
    Ok(bytes)
}

/// Whether the last two entries are the start of an upload of the present version, at this index,
/// and its end as `ended` says it.
fn tells(bench: &Bench, start: u32, ended: Ended) -> bool {
    let end = match ended {
        Ended::Saved(print) => FileKind::Uploaded { start, print },
        Ended::Dropped(why) => FileKind::UploadDropped {
            start,
            why: Dropped::Refused(why),
        },
        Ended::Unbegun(_) => return bench.book.len() == start,
    };
    match bench.book.entries() {
        [.., begun, last] => {
            begun.kind == FileKind::UploadStart(bench.book.version()) && last.kind == end
        }
        _ => false,
    }
}

/// Uploads a file, whose object was the old one and whose content is this one. Each upload leaves the
/// one or the other at the path, whole, and the file's entries as they are to be.
fn uploads(
    bench: &mut Bench,
    alloc: Global,
    old: Option<&[u8]>,
    content: &[u8],
) -> Result<Ended, Fail> {
    let start = bench.book.len();
    let ended = bench.upload(alloc)?;
    if !tells(bench, start, ended) {
        return Err(Fail::from("other entries"));
    }
    let look = bench.book.look();
    let sound = match ended {
        Ended::Saved(_) => {
            !look.dirty && look.kept == look.size && bench.has(alloc, Some(content))?
        }
        Ended::Dropped(_) => {
            bench.book.owed() && (bench.has(alloc, old)? || bench.has(alloc, Some(content))?)
        }
        Ended::Unbegun(_) => bench.book.owed() && bench.has(alloc, old)?,
    };
    if !sound {
        return Err(Fail::from("neither the old object nor the content"));
    }
    Ok(ended)
}

/// Uploads a file as before, and where the upload is dropped once more, which saves it. For what the
/// first one was dropped.
fn uploads_again(
    bench: &mut Bench,
    alloc: Global,
    old: Option<&[u8]>,
    content: &[u8],
) -> Result<Option<Refusal>, Fail> {
    match uploads(bench, alloc, old, content)? {
        Ended::Saved(_) => Ok(None),
        Ended::Dropped(why) => match uploads(bench, alloc, old, content)? {
            Ended::Saved(_) => Ok(Some(why)),
            _ => Err(Fail::from("not saved by the second upload")),
        },
        Ended::Unbegun(_) => Err(Fail::from("not begun")),
    }
}

#[test]
fn a_file_of_any_size_is_uploaded_whole(rt: HostRuntime) -> Result<(), Fail> {
    for sizes in [[0, 0, 0], [1, 0, 0], [BLOCK, 0, 0], [BLOCK, 1, 0], THREE] {
        let mut bench = Bench::made(rt.alloc(), [0, 0], sizes)?;
        let content = letters(rt.alloc(), sizes)?;
        let why = uploads_again(&mut bench, rt.alloc(), None, content.as_slice())?;
        assert_eq!(rt; why, None);
        assert!(rt; !bench.book.owed());
    }
    Ok(())
}

#[test]
fn an_object_with_a_gap_behind_it_is_uploaded_whole(rt: HostRuntime) -> Result<(), Fail> {
    for (size, at) in [(3, 9), (OBJECT, 290_000), (BLOCK, BLOCK)] {
        let gap = Gap::new(rt.alloc(), size, at)?;
        let mut bench = Bench::new(rt.alloc(), [0, 0], size)?;
        bench.touch(at, b"!")?;
        let old = Some(gap.object.as_slice());
        let why = uploads_again(&mut bench, rt.alloc(), old, gap.content.as_slice())?;
        assert_eq!(rt; why, None);
    }
    Ok(())
}

#[test]
fn a_call_that_the_store_refuses_drops_the_upload(rt: HostRuntime) -> Result<(), Fail> {
    let content = letters(rt.alloc(), THREE)?;
    for (call, nth) in [
        (RemoteCall::Stage, 1),
        (RemoteCall::Append, 1),
        (RemoteCall::Append, 2),
        (RemoteCall::Append, 3),
        (RemoteCall::Commit, 1),
    ] {
        let mut bench = Bench::made(rt.alloc(), [0, 0], THREE)?;
        bench.remote.fail(call, nth)?;
        let why = uploads_again(&mut bench, rt.alloc(), None, content.as_slice())?;
        assert_eq!(rt; why, Some(Refusal::RemoteFault));
    }
    Ok(())
}

#[test]
fn a_pull_that_fails_drops_the_upload(rt: HostRuntime) -> Result<(), Fail> {
    let gap = Gap::new(rt.alloc(), OBJECT, 290_000)?;
    for pull in [1, 2] {
        let mut bench = Bench::failing(rt.alloc(), OBJECT, pull)?;
        bench.touch(290_000, b"!")?;
        let old = Some(gap.object.as_slice());
        let why = uploads_again(&mut bench, rt.alloc(), old, gap.content.as_slice())?;
        assert_eq!(rt; why, Some(Refusal::RemoteFault));
    }
    Ok(())
}

#[test]
fn an_object_that_changed_drops_the_upload(rt: HostRuntime) -> Result<(), Fail> {
    let gap = Gap::new(rt.alloc(), 3, 9)?;
    let mut bench = Bench::changing(rt.alloc(), 3)?;
    bench.touch(9, b"!")?;
    let Some(held) = bench.book.held() else {
        return Err(Fail::from("no base"));
    };
    let stale = Refusal::Stale {
        held,
        found: Found::Changed,
    };
    let old = Some(gap.object.as_slice());
    let ended = uploads(&mut bench, rt.alloc(), old, gap.content.as_slice())?;
    assert_eq!(rt; ended, Ended::Dropped(stale));
    assert!(rt; bench.has(rt.alloc(), old)?);
    Ok(())
}

#[test]
fn a_disk_call_that_fails_drops_the_upload(rt: HostRuntime) -> Result<(), Fail> {
    let gap = Gap::new(rt.alloc(), 3, 9)?;
    let old = Some(gap.object.as_slice());
    // an adopt saves, a write saves and writes; a block is written and saved, and so are zeros; it is
    // read, and then the upload is saved
    for failing in 4..=9 {
        let mut bench = Bench::new(rt.alloc(), [failing, 0], 3)?;
        bench.touch(9, b"!")?;
        let why = uploads_again(&mut bench, rt.alloc(), old, gap.content.as_slice())?;
        assert_eq!(rt; why, Some(Refusal::DiskFault));
    }
    let mut bench = Bench::new(rt.alloc(), [10, 0], 3)?;
    bench.touch(9, b"!")?;
    let why = uploads_again(&mut bench, rt.alloc(), old, gap.content.as_slice())?;
    assert_eq!(rt; why, None);
    Ok(())
}

#[test]
fn a_disk_call_that_fails_after_a_pending_write(rt: HostRuntime) -> Result<(), Fail> {
    let gap = Gap::new(rt.alloc(), 3, 9)?;
    let old = Some(gap.object.as_slice());
    // the data of the write fails, so that the upload writes it first
    for failing in 4..=10 {
        let mut bench = Bench::new(rt.alloc(), [3, failing], 3)?;
        bench.touch(9, b"!")?;
        let why = uploads_again(&mut bench, rt.alloc(), old, gap.content.as_slice())?;
        assert_eq!(rt; why, Some(Refusal::DiskFault));
    }
    Ok(())
}

#[test]
fn a_read_or_the_save_of_three_blocks_that_fails(rt: HostRuntime) -> Result<(), Fail> {
    let content = letters(rt.alloc(), THREE)?;
    // a create saves, and each of three writes saves and writes; then three reads and a save
    for failing in 8..=11 {
        let mut bench = Bench::made(rt.alloc(), [failing, 0], THREE)?;
        let why = uploads_again(&mut bench, rt.alloc(), None, content.as_slice())?;
        assert_eq!(rt; why, Some(Refusal::DiskFault));
    }
    Ok(())
}

#[test]
fn an_upload_wants_two_places_in_the_history(rt: HostRuntime) -> Result<(), Fail> {
    // of 100 places an adopt, an open, a write and a close take four
    for (asked, wanted) in [(95, Some(Refusal::HistoryFull)), (94, None)] {
        let gap = Gap::new(rt.alloc(), 3, 9)?;
        let mut bench = Bench::new(rt.alloc(), [0, 0], 3)?;
        bench.touch(9, b"!")?;
        bench.ask(asked)?;
        let old = Some(gap.object.as_slice());
        let why = match uploads(&mut bench, rt.alloc(), old, gap.content.as_slice())? {
            Ended::Saved(_) => None,
            Ended::Dropped(why) => Some(why),
            Ended::Unbegun(why) => Some(why),
        };
        assert_eq!(rt; why, wanted);
    }
    Ok(())
}
