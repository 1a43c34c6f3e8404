ghost use Rattle.std.specs.Prelude.{◌≡◌, ℕ, false};

use super::folder::{LONGEST, hex_of, push_read, size_of};
use super::*;
use cache_folder::FolderDisk;
use std::fs;
use std::io::ErrorKind;
use std::ops::Range;
use vfs_outside::{CacheDisk, CacheFile};

/// How many bytes of a pattern there are before it comes again.
const CYCLE: usize = 251;

/// How a run over a cache folder ended, and the bytes that it wrote.
#[derive(Drop)]
struct Written {
    status: u8,
    sink: MemorySink,
}

/// Runs a script over an empty store, with the cache in a folder of this name.
fn run_cached(rt: &HostRuntime, cache: &str, script: &str) -> Result<Written, Fail> {
    let alloc = rt.alloc();
    let mut row = ROW;
    row[4] = cache;
    let words = words_of(alloc, &row)?;
    let mut source = source_of(alloc, script.as_bytes(), &[])?;
    let mut sink = MemorySink::new(alloc, Vec::new(alloc));
    let mut clock = ScriptClock::new();
    let ended = run(
        alloc,
        &words,
        &mut source,
        &mut sink,
        MemoryRemote::new(alloc),
        FolderDisk::new(alloc, *rt),
        &mut clock,
        &OpenGate,
    );
    let status = ended.status;
    Ok(Written { status, sink })
}

/// The lengths of a file's two writes.
fn lengths(n: usize) -> [usize; 2] {
    let first = size_of(n).min(LONGEST);
    [first, size_of(n).saturating_sub(first)]
}

/// The seed of a file's write, one of two.
fn seed(n: usize, write: usize) -> usize {
    n.saturating_mul(2).saturating_add(write) % CYCLE
}

/// Makes each of these files with two writes, reads it in two reads, and closes it.
fn script_of(alloc: Global, files: Range<usize>) -> Result<String, Fail> {
    let mut script = String::new(alloc);
    for n in files {
        let [head, tail] = lengths(n);
        let (one, two) = (seed(n, 0), seed(n, 1));
        let writes = format!(in alloc;
            "s1 write 0 0 pat:{one}:{head}\ns1 write 0 {head} pat:{two}:{tail}\n"
        )?;
        let reads = format!(in alloc;
            "s1 read 0 0 {LONGEST}\ns1 read 0 {LONGEST} {LONGEST}\ns1 close 0\n"
        )?;
        let lines = format!(in alloc; "s1 open 0 f{n} rw create\n{writes}{reads}")?;
        script.push_str(lines.as_str())?;
    }
    Ok(script)
}

/// The first bytes of a pattern, which come again and again.
fn cycle(alloc: Global, seed: usize) -> Result<Vec<u8>, Fail> {
    let mut bytes = Vec::with_capacity(alloc, CYCLE)?;
    for i in 0..CYCLE {
        bytes.push((i.saturating_mul(7).saturating_add(seed) % CYCLE) as u8)?;
    }
    Ok(bytes)
}

/// Puts the bytes that a write of this pattern writes behind the others.
fn push_pattern(bytes: &mut Vec<u8>, cycle: &[u8], length: usize) -> Result<(), Fail> {
    for _ in 0..length / CYCLE {
        bytes.extend_from_slice(cycle)?;
    }
    bytes.extend_from_slice(cycle.get(..length % CYCLE).unwrap_or(&[]))?;
    Ok(())
}

/// The bytes of a file.
fn content(alloc: Global, n: usize) -> Result<Vec<u8>, Fail> {
    let mut bytes = Vec::with_capacity(alloc, size_of(n))?;
    for (write, length) in lengths(n).into_iter().enumerate() {
        push_pattern(&mut bytes, &cycle(alloc, seed(n, write))?, length)?;
    }
    Ok(bytes)
}

fn push_text(text: &mut Vec<u8>, more: &String) -> Result<(), Fail> {
    text.extend_from_slice(more.as_bytes())?;
    Ok(())
}

/// The replies of the open and the writes of the file that the run makes as number `item`.
fn push_writes(alloc: Global, text: &mut Vec<u8>, item: usize, n: usize) -> Result<(), Fail> {
    let line = item.saturating_mul(6).saturating_add(1);
    let tree = item.saturating_mul(2).saturating_add(1);
    push_text(text, &format!(in alloc; "{line} ok [t{tree} f{item}:1]\n")?)?;
    let [head, tail] = lengths(n);
    let line = line.saturating_add(1);
    push_text(text, &format!(in alloc; "{line} ok {head} [f{item}:2]\n")?)?;
    let line = line.saturating_add(1);
    push_text(text, &format!(in alloc; "{line} ok {tail} [f{item}:3]\n")?)
}

/// The replies of its reads and its close, where its bytes in hexadecimal digits are these.
fn push_reads(alloc: Global, text: &mut Vec<u8>, item: usize, digits: &[u8]) -> Result<(), Fail> {
    let line = item.saturating_mul(6).saturating_add(4);
    let tree = item.saturating_mul(2).saturating_add(2);
    let middle = digits.len().min(2 * LONGEST);
    let head = digits.get(..middle).unwrap_or(&[]);
    let tail = digits.get(middle..).unwrap_or(&[]);
    let place = format!(in alloc; "f{item}:4")?;
    push_read(alloc, text, line, head, place.as_str())?;
    let place = format!(in alloc; "f{item}:5")?;
    push_read(alloc, text, line.saturating_add(1), tail, place.as_str())?;
    let line = line.saturating_add(2);
    push_text(text, &format!(in alloc; "{line} ok [t{tree} f{item}:6]\n")?)
}

/// The replies of a run on these files.
fn replies(alloc: Global, files: Range<usize>) -> Result<Vec<u8>, Fail> {
    let mut text = START.as_bytes().to_vec(alloc)?;
    for (item, n) in files.enumerate() {
        let digits = hex_of(alloc, &content(alloc, n)?)?;
        push_writes(alloc, &mut text, item, n)?;
        push_reads(alloc, &mut text, item, &digits)?;
    }
    text.extend_from_slice(b"tree\n")?;
    Ok(text)
}

/// The data of a slot of a cache folder, none where there is no file of it.
fn data_of(rt: &HostRuntime, cache: &str, slot: usize) -> Result<Vec<u8>, Fail> {
    let name = format!(in rt.alloc(); "{cache}/{slot}.data")?;
    match fs::read(rt, name.as_str()) {
        Ok(bytes) => Ok(bytes),
        Err(error) if error.kind() == ErrorKind::NotFound => Ok(Vec::new(rt.alloc())),
        Err(error) => Err(error.into()),
    }
}

/// The slots of a cache folder hold these files.
fn are_stored(rt: &HostRuntime, cache: &str, files: Range<usize>) -> Result<bool, Fail> {
    for (slot, n) in files.enumerate() {
        let bytes = content(rt.alloc(), n)?;
        if data_of(rt, cache, slot)?.as_slice() != bytes.as_slice() {
            return Ok(false);
        }
    }
    Ok(true)
}

/// Files are made through the program in a new cache folder: whether each byte of the replies is right, and each byte
/// that stands in the folder.
fn are_kept(rt: &HostRuntime, cache: &str, files: Range<usize>) -> Result<bool, Fail> {
    let _ = fs::remove_dir_all(rt, cache);
    let script = script_of(rt.alloc(), files.clone()?)?;
    let seen = run_cached(rt, cache, script.as_str())?;
    let replies = replies(rt.alloc(), files.clone()?)?;
    let are_told = seen.status == 0 && seen.sink.written().starts_with(replies.as_slice());
    let are_stored = are_stored(rt, cache, files)?;
    fs::remove_dir_all(rt, cache)?;
    Ok(are_told && are_stored)
}

#[test]
fn small_files_of_a_cache_folder_are_kept_whole(rt: HostRuntime) -> Result<(), Fail> {
    for files in [0..50, 50..100, 100..150, 150..200] {
        let first = files.start;
        assert!(rt;
            are_kept(&rt, "vfs_top_cache_small", files)?,
            "from {first}"
        );
    }
    Ok(())
}

#[test]
fn files_of_a_cache_folder_are_kept_whole(rt: HostRuntime) -> Result<(), Fail> {
    assert!(rt; are_kept(&rt, "vfs_top_cache_middle", 200..250)?);
    Ok(())
}

#[test]
fn larger_files_of_a_cache_folder_are_kept_whole(rt: HostRuntime) -> Result<(), Fail> {
    assert!(rt; are_kept(&rt, "vfs_top_cache_larger", 250..277)?);
    Ok(())
}

#[test]
fn the_largest_files_of_a_cache_folder_are_kept_whole(rt: HostRuntime) -> Result<(), Fail> {
    assert!(rt; are_kept(&rt, "vfs_top_cache_largest", 277..300)?);
    Ok(())
}

const WRITE: &str = "s1 open 0 a.txt rw create\ns1 write 0 0 text:hello\n";

/// What a write saves, the write itself pending: its data may not be there yet.
const SAVED: &str =
    "{\"atime\":0,\"base\":null,\"base_end\":0,\"dirty\":true,\"intent\":{\"bytes\":\"68656c6c6f\",\"pos\":0},\"mtime\":0,\"path\":\"a.txt\",\"ranges\":[[0,5]],\"size\":5,\"v\":1}";

#[test]
fn a_write_saves_this_text(rt: HostRuntime) -> Result<(), Fail> {
    let cache = "vfs_top_cache_saved";
    let _ = fs::remove_dir_all(&rt, cache);
    let seen = run_cached(&rt, cache, WRITE)?;
    assert_eq!(rt; seen.status, 0);
    let saved = fs::read(&rt, "vfs_top_cache_saved/0.meta")?;
    assert_eq!(rt; saved.as_slice(), SAVED.as_bytes());
    fs::remove_dir_all(&rt, cache)?;
    Ok(())
}

/// A folder that another program holds is refused, and the other one goes on.
#[test]
fn a_second_program_is_refused(rt: HostRuntime) -> Result<(), Fail> {
    let cache = "vfs_top_cache_held";
    let _ = fs::remove_dir_all(&rt, cache);
    let mut first = FolderDisk::new(rt.alloc(), rt);
    first.attach(cache)?;
    let seen = run_cached(&rt, cache, WRITE)?;
    assert_eq!(rt; seen.status, 6);
    assert_eq!(rt; seen.sink.written(), b"disk fault\nend 6\n".as_slice());
    if first.is_out(0) {
        return Err(Fail::new("the slot's file is out"));
    }
    let mut file = first.take(0)?;
    file.save_meta(SAVED.as_bytes())?;
    file.write_at(0, b"hello")?;
    assert_eq!(rt; data_of(&rt, cache, 0)?.as_slice(), b"hello".as_slice());
    fs::remove_dir_all(&rt, cache)?;
    Ok(())
}
