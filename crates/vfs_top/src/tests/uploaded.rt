use super::folder::{LONGEST, run_remote};
use super::*;
use remote_folder::FolderRemote;
use std::fs;

/// The files of one run, of which there are two.
const PART: usize = 500;

const LARGEST: usize = 300_000;

/// Of so many files one is large.
const ROUND: usize = 40;

/// The number of the last large file, where they are counted from 0.
const LAST_LARGE: usize = 24;

/// The file of each part that is changed once all were uploaded.
const CHANGED: usize = 250;

/// The number of bytes of a file: the large ones grow from 0 to the largest, and the others by 3 bytes.
fn size_of(n: usize) -> usize {
    if n.is_multiple_of(ROUND) {
        (n / ROUND).saturating_mul(LARGEST) / LAST_LARGE
    } else {
        n.saturating_mul(3)
    }
}

/// The seed of the pattern that a file's bytes are from a place on.
fn seed_of(n: usize, pos: usize) -> usize {
    n.saturating_add(pos.saturating_mul(7)) % 251
}

/// Writes the part of a file at a place that one payload has.
fn push_write(alloc: Global, script: &mut String, n: usize, pos: usize) -> Result<(), Fail> {
    let len = size_of(n).saturating_sub(pos).min(LONGEST);
    if len > 0 {
        let seed = seed_of(n, pos);
        let line = format!(in alloc; "s1 write 0 {pos} pat:{seed}:{len}\n")?;
        script.push_str(line.as_str())?;
    }
    Ok(())
}

/// Makes, writes and closes each of these files, and has all uploaded.
fn script_of(alloc: Global, first: usize) -> Result<String, Fail> {
    let mut script = String::new(alloc);
    for n in first..first.saturating_add(PART) {
        let open = format!(in alloc; "s1 open 0 f{n} rw create\n")?;
        script.push_str(open.as_str())?;
        for pos in [0, LONGEST, 2 * LONGEST] {
            push_write(alloc, &mut script, n, pos)?;
        }
        script.push_str("s1 close 0\n")?;
    }
    script.push_str("advance 5000\ntick\ntick\n")?;
    Ok(script)
}

/// The folder has the file, with the bytes of its pattern, in place of the first of which stand others where it was changed.
fn is_uploaded(rt: &HostRuntime, folder: &str, n: usize, changed: &[u8]) -> Result<bool, Fail> {
    let name = format!(in rt.alloc(); "{folder}/f{n}")?;
    let bytes = fs::read(rt, name.as_str())?;
    let rest = bytes.get(changed.len()..).unwrap_or(&[]);
    let are_written = rest.iter().enumerate().all(|(i, byte)| seed_of(
        n,
        i.saturating_add(changed.len()),
    ) == *byte as usize);
    Ok(bytes.len() == size_of(n) && bytes.starts_with(changed) && are_written)
}

/// The folder has these files as they were written, but for the one that was changed, and nothing else.
fn are_uploaded(
    rt: &HostRuntime,
    folder: &str,
    first: usize,
    changed: &[u8],
) -> Result<bool, Fail> {
    for n in first..first.saturating_add(PART) {
        let at_front = if n % PART == CHANGED { changed } else { &[] };
        if !is_uploaded(rt, folder, n, at_front)? {
            return Ok(false);
        }
    }
    Ok(fs::read_dir(rt, folder)?.count() == PART)
}

/// A script that is done over the folder shows this.
fn shows(rt: &HostRuntime, folder: &str, script: &str, text: &str) -> Result<bool, Fail> {
    let remote = FolderRemote::new(rt.alloc(), *rt);
    let seen = run_remote(rt, folder, "128M", script, remote)?;
    Ok(seen.status == 0 && std::str::from_utf8(seen.sink.written())?.contains(text))
}

/// Uploads these files, changes one, and uploads it again.
fn is_part_uploaded(rt: &HostRuntime, folder: &str, first: usize) -> Result<bool, Fail> {
    let alloc = rt.alloc();
    let _ = fs::remove_dir_all(rt, folder);
    let script = script_of(alloc, first)?;
    if !shows(rt, folder, script.as_str(), " tick uploaded 500 failed 0\n")?
        || !are_uploaded(rt, folder, first, &[])?
    {
        return Ok(false);
    }
    let n = first.saturating_add(CHANGED);
    let again = format!(in alloc;
        "s1 open 0 f{n} rw\ns1 write 0 0 text:changed\ns1 close 0\nadvance 5000\ntick\n"
    )?;
    let is_uploaded = shows(rt, folder, again.as_str(), "\n5 tick uploaded 1 failed 0\n")?
        && are_uploaded(rt, folder, first, b"changed")?;
    fs::remove_dir_all(rt, folder)?;
    Ok(is_uploaded)
}

#[test]
fn five_hundred_files_are_uploaded_to_a_folder(rt: HostRuntime) -> Result<(), Fail> {
    assert!(rt; is_part_uploaded(&rt, "vfs_top_uploaded", 0)?);
    Ok(())
}

#[test]
fn five_hundred_larger_files_are_uploaded_to_a_folder(rt: HostRuntime) -> Result<(), Fail> {
    assert!(rt; is_part_uploaded(&rt, "vfs_top_larger", PART)?);
    Ok(())
}
