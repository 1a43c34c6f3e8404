mod bench;
mod whole;

use crate::{Finished, Step};
use bench::{Bench, OBJECT};
use item_core::{Dropped, FileKind};
use remote_memory::RemoteCall;
use sparse_item::Upload;
use std::alloc::Global;
use std::test::Fail;
use vfs_names::{Found, Refusal};

/// The bytes of a file that is an object of three bytes, with one written past a gap.
const ACROSS_A_GAP: [u8; 10] = [0, 1, 2, 0, 0, 0, 0, 0, 0, b'!'];

/// How the last entry says that an upload ended.
fn last_dropped(bench: &Bench) -> Option<Dropped> {
    match bench.book.entries().last() {
        Some(entry) => match &entry.kind {
            FileKind::UploadDropped { why, .. } => Some(*why),
            _ => None,
        },
        None => None,
    }
}

fn begun(bench: &mut Bench) -> Result<Upload, Fail> {
    match bench.begin() {
        Ok(Ok(upload)) => Ok(upload),
        Ok(Err(_)) => Err(Fail::from("refused")),
        Err(fail) => Err(fail),
    }
}

/// The bytes of the great object from a place to another, where one is written over.
fn part(alloc: Global, from: u64, to: u64) -> Result<Vec<u8>, Fail> {
    let mut bytes = Vec::new(alloc);
    for place in from..to {
        let byte = if place == 150_000 {
            b'!'
        } else {
            (place % 251) as u8
        };
        bytes.push(byte)?;
    }
    Ok(bytes)
}

/// Whether a block is answered with these bytes.
fn gives(bench: &mut Bench, upload: &mut Upload, pos: u64, bytes: &[u8]) -> Result<bool, Fail> {
    match bench.block(upload, pos) {
        Ok(Ok(Step::Bytes(found))) => Ok(found.as_slice() == bytes),
        Ok(_) => Ok(false),
        Err(fail) => Err(fail),
    }
}

/// Both versions, where a block is answered with them.
fn cancelled(bench: &mut Bench, upload: &mut Upload, pos: u64) -> Result<Option<(u64, u64)>, Fail> {
    match bench.block(upload, pos) {
        Ok(Ok(Step::Cancelled { was, now })) => Ok(Some((was, now))),
        Ok(_) => Ok(None),
        Err(fail) => Err(fail),
    }
}

/// For what the block at 0 is refused, which the upload keeps.
fn refused_block(bench: &mut Bench, upload: &mut Upload) -> Result<Option<Refusal>, Fail> {
    match bench.block(upload, 0) {
        Ok(Err(why)) => Ok(if upload.why() == Some(why) {
            Some(why)
        } else {
            None
        }),
        Ok(Ok(_)) => Ok(None),
        Err(fail) => Err(fail),
    }
}

/// Uploads a file of one block; for what that is refused, or None where it is done.
fn refused_upload(
    bench: &mut Bench,
    alloc: Global,
    upload: &mut Upload,
) -> Result<Option<Refusal>, Fail> {
    match bench.upload_small(alloc, upload) {
        Ok(Ok(Finished::Done(_))) => Ok(None),
        Ok(Ok(Finished::Cancelled { .. })) => Err(Fail::from("cancelled")),
        Ok(Err(why)) => Ok(Some(why)),
        Err(fail) => Err(fail),
    }
}

/// A file that a write changed at one place.
fn touched(alloc: Global, fails: [u64; 2], size: u64, pos: u64) -> Result<Bench, Fail> {
    let mut bench = Bench::new(alloc, fails, size)?;
    bench.touch(pos, b"!")?;
    Ok(bench)
}

/// An upload of the great object, between whose blocks the file is written to.
fn write_between(bench: &mut Bench, alloc: Global) -> Result<Option<(u64, u64)>, Fail> {
    let mut upload = begun(bench)?;
    let first = part(alloc, 0, 131_072)?;
    if !gives(bench, &mut upload, 0, first.as_slice())? {
        return Err(Fail::from("other bytes"));
    }
    bench.touch(3, b"?")?;
    let both = cancelled(bench, &mut upload, 131_072)?;
    bench.end(upload)?;
    Ok(both)
}

#[test]
fn an_upload_is_cancelled_by_a_write(rt: HostRuntime) -> Result<(), Fail> {
    let mut bench = touched(rt.alloc(), [0, 0], OBJECT, 150_000)?;
    let both = write_between(&mut bench, rt.alloc())?;
    assert_eq!(rt; both, Some((1, 2)));
    assert_eq!(rt;
        last_dropped(&bench),
        Some(Dropped::Cancelled { was: 1, now: 2 })
    );
    assert!(rt; bench.book.owed());
    Ok(())
}

#[test]
fn an_upload_tells_what_it_noted(rt: HostRuntime) -> Result<(), Fail> {
    let mut bench = touched(rt.alloc(), [0, 0], OBJECT, 150_000)?;
    let upload = begun(&mut bench)?;
    assert_eq!(rt;
        (upload.version(), upload.size(), upload.start()),
        (1, OBJECT, 4)
    );
    assert_eq!(rt; (upload.item(), upload.why()), (bench.book.id(), None));
    Ok(())
}

#[test]
fn the_last_block_is_shorter(rt: HostRuntime) -> Result<(), Fail> {
    let mut bench = touched(rt.alloc(), [0, 0], OBJECT, 150_000)?;
    let mut upload = begun(&mut bench)?;
    let last = part(rt.alloc(), 131_072, OBJECT)?;
    assert!(rt; gives(&mut bench, &mut upload, 131_072, last.as_slice())?);
    assert!(rt; gives(&mut bench, &mut upload, OBJECT, b"")?);
    Ok(())
}

#[test]
fn a_gap_becomes_zeros_and_the_content_an_object(rt: HostRuntime) -> Result<(), Fail> {
    let mut bench = touched(rt.alloc(), [0, 0], 3, 9)?;
    let mut upload = begun(&mut bench)?;
    assert_eq!(rt; refused_upload(&mut bench, rt.alloc(), &mut upload)?, None);
    assert_eq!(rt;
        bench.stored(rt.alloc())?.as_slice(),
        ACROSS_A_GAP.as_slice()
    );
    let look = bench.book.look();
    assert_eq!(rt; (look.dirty, look.version, look.kept), (false, 1, 10));
    Ok(())
}

/// How an upload ends whose store refuses its first call of this kind.
fn refused_by(bench: &mut Bench, alloc: Global, call: RemoteCall) -> Result<bool, Fail> {
    bench.remote.fail(call, 1)?;
    let mut upload = begun(bench)?;
    let why = refused_upload(bench, alloc, &mut upload)?;
    let kept = upload.why() == why && why == Some(Refusal::RemoteFault);
    bench.end(upload)?;
    Ok(kept && last_dropped(bench) == Some(Dropped::Refused(Refusal::RemoteFault)))
}

#[test]
fn an_upload_that_the_store_refuses_changes_nothing(rt: HostRuntime) -> Result<(), Fail> {
    for call in [RemoteCall::Stage, RemoteCall::Append, RemoteCall::Commit] {
        let mut bench = touched(rt.alloc(), [0, 0], 3, 0)?;
        assert!(rt; refused_by(&mut bench, rt.alloc(), call)?);
        assert_eq!(rt;
            bench.stored(rt.alloc())?.as_slice(),
            b"\x00\x01\x02".as_slice()
        );
        assert!(rt; bench.book.owed());
    }
    Ok(())
}

/// How an upload ends whose last save fails.
fn unsaved(bench: &mut Bench, alloc: Global) -> Result<Option<Refusal>, Fail> {
    let mut upload = begun(bench)?;
    let why = refused_upload(bench, alloc, &mut upload)?;
    if !bench.book.look().dirty || bench.book.len() != 5 {
        return Err(Fail::from("not as before"));
    }
    bench.end(upload)?;
    Ok(why)
}

#[test]
fn a_failed_save_leaves_the_file_changed(rt: HostRuntime) -> Result<(), Fail> {
    // an adopt saves, a write saves and writes, a block pulls one write and one save, and a read
    let mut bench = touched(rt.alloc(), [7, 0], 3, 0)?;
    assert_eq!(rt; unsaved(&mut bench, rt.alloc())?, Some(Refusal::DiskFault));
    assert_eq!(rt;
        last_dropped(&bench),
        Some(Dropped::Refused(Refusal::DiskFault))
    );
    assert_eq!(rt;
        bench.stored(rt.alloc())?.as_slice(),
        b"!\x01\x02".as_slice()
    );
    let mut again = begun(&mut bench)?;
    assert_eq!(rt; refused_upload(&mut bench, rt.alloc(), &mut again)?, None);
    assert!(rt; !bench.book.look().dirty);
    Ok(())
}

#[test]
fn zeros_that_cannot_be_written_refuse_a_block(rt: HostRuntime) -> Result<(), Fail> {
    // an adopt saves, a write saves and writes, a pulled block is written and saved; then the zeros
    for failing in [6, 7] {
        let mut bench = touched(rt.alloc(), [failing, 0], 3, 9)?;
        let mut upload = begun(&mut bench)?;
        assert_eq!(rt;
            refused_block(&mut bench, &mut upload)?,
            Some(Refusal::DiskFault)
        );
        assert_eq!(rt; bench.book.look().kept, 4);
        assert!(rt; gives(&mut bench, &mut upload, 0, ACROSS_A_GAP.as_slice())?);
    }
    Ok(())
}

/// How an upload ends whose first block is refused.
fn refused_at_once(bench: &mut Bench) -> Result<Option<Refusal>, Fail> {
    let mut upload = begun(bench)?;
    let why = refused_block(bench, &mut upload)?;
    bench.end(upload)?;
    Ok(why)
}

#[test]
fn an_object_that_changed_refuses_a_block(rt: HostRuntime) -> Result<(), Fail> {
    let mut bench = Bench::changing(rt.alloc(), 3)?;
    bench.touch(0, b"!")?;
    let why = refused_at_once(&mut bench)?;
    let Some(held) = bench.book.held() else {
        return Err(Fail::from("no base"));
    };
    let stale = Refusal::Stale {
        held,
        found: Found::Changed,
    };
    assert_eq!(rt; why, Some(stale));
    assert_eq!(rt; last_dropped(&bench), Some(Dropped::Refused(stale)));
    Ok(())
}

#[test]
fn a_discarded_file_ends_its_upload(rt: HostRuntime) -> Result<(), Fail> {
    let mut bench = touched(rt.alloc(), [0, 0], 3, 0)?;
    let mut upload = begun(&mut bench)?;
    upload.note(Refusal::HistoryFull);
    bench.discard()?;
    bench.end(upload)?;
    assert_eq!(rt;
        last_dropped(&bench),
        Some(Dropped::Refused(Refusal::NotFound))
    );
    Ok(())
}
