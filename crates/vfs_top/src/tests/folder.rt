use super::*;
use remote_folder::FolderRemote;
use std::io::ErrorKind;
use std::os::unix::fs::symlink;
use std::time::{Duration, UNIX_EPOCH};
use std::{fs, io};

const FILES: usize = 300;

const LARGEST: usize = 200_000;

/// The cube of the last file's number, 299.
const LAST_CUBE: usize = 26_730_899;

/// The files of one run, which prints their bytes in hexadecimal digits, some megabytes.
const PART: usize = 50;

pub const LONGEST: usize = 131_072;

/// Writes a file anew, with its modification time in milliseconds.
pub fn put(rt: &HostRuntime, name: &str, bytes: &[u8], mtime: u64) -> io::Result<()> {
    fs::write(rt, name, bytes)?;
    let file = fs::OpenOptions::new().write(true).open(rt, name)?;
    let Some(time) = UNIX_EPOCH.checked_add(Duration::from_millis(mtime)) else {
        return Err(ErrorKind::InvalidInput.into());
    };
    file.set_modified(time)
}

/// Runs a script over a folder.
fn run_folder(rt: &HostRuntime, folder: &str, script: &str) -> Result<Seen, Fail> {
    let remote = FolderRemote::new(rt.alloc(), *rt);
    run_remote(rt, folder, "128M", script, remote)
}

/// Runs a script over a store of this name, with requests of this size at first.
pub fn run_remote<'a, R: Remote>(
    rt: &HostRuntime,
    name: &'a str,
    chunk: &'a str,
    script: &str,
    remote: R,
) -> Result<Seen, Fail> {
    let alloc = rt.alloc();
    let mut words = PARTS;
    words[2] = name;
    words[10] = chunk;
    let mut source = source_of(alloc, script.as_bytes(), &[])?;
    run_over(alloc, &words, &mut source, &[], remote)
}

/// The bytes of which each file is a part.
fn pattern(alloc: Global) -> Result<Vec<u8>, Fail> {
    let mut bytes = Vec::with_capacity(alloc, LARGEST + FILES)?;
    for i in 0..LARGEST + FILES {
        bytes.push((i.saturating_mul(7).saturating_add(i / 256) % 251) as u8)?;
    }
    Ok(bytes)
}

/// The number of bytes of a file: from 0 to the largest, growing with the cube of the file's number.
pub fn size_of(n: usize) -> usize {
    let cube = n.saturating_mul(n).saturating_mul(n);
    cube.saturating_mul(LARGEST) / LAST_CUBE
}

/// What a pattern with so many bytes a place has for a file: file `n` begins at place `n`.
fn part_of(pattern: &[u8], n: usize, width: usize) -> &[u8] {
    let end = n.saturating_add(size_of(n));
    pattern
        .get(n.saturating_mul(width)..end.saturating_mul(width))
        .unwrap_or(&[])
}

/// Opens each of these files, reads it to its end in two reads, and closes it.
fn script_of(alloc: Global, first: usize) -> Result<String, Fail> {
    let mut script = String::new(alloc);
    for n in first..first.saturating_add(PART) {
        let lines = format!(in alloc;
            "s1 open 0 f{n} r\ns1 read 0 0 {LONGEST}\ns1 read 0 {LONGEST} {LONGEST}\ns1 close 0\n"
        )?;
        script.push_str(lines.as_str())?;
    }
    Ok(script)
}

fn digit_of(value: u8) -> u8 {
    let digit = b"0123456789abcdef".get(value as usize);
    *digit.unwrap_or(&b'?')
}

/// These bytes in hexadecimal digits.
pub fn hex_of(alloc: Global, bytes: &[u8]) -> Result<Vec<u8>, Fail> {
    let mut text = Vec::with_capacity(alloc, bytes.len().saturating_mul(2))?;
    for byte in bytes {
        text.push(digit_of(*byte / 16))?;
        text.push(digit_of(*byte % 16))?;
    }
    Ok(text)
}

/// The reply of a read at this line, of bytes that are given in hexadecimal digits.
pub fn push_read(
    alloc: Global,
    text: &mut Vec<u8>,
    line: usize,
    digits: &[u8],
    place: &str,
) -> Result<(), Fail> {
    let count = digits.len() / 2;
    text.extend_from_slice(format!(in alloc; "{line} ok {count}")?.as_bytes())?;
    if count > 0 {
        text.push(b' ')?;
    }
    text.extend_from_slice(digits)?;
    text.extend_from_slice(format!(in alloc; " [{place}]\n")?.as_bytes())?;
    Ok(())
}

/// The replies of the four calls on the file that the run opens as number `item`.
fn push_replies(alloc: Global, text: &mut Vec<u8>, item: usize, digits: &[u8]) -> Result<(), Fail> {
    let line = item.saturating_mul(4).saturating_add(1);
    let tree = item.saturating_mul(2).saturating_add(1);
    let middle = digits.len().min(2 * LONGEST);
    let first = digits.get(..middle).unwrap_or(&[]);
    let second = digits.get(middle..).unwrap_or(&[]);
    let opened = format!(in alloc; "{line} ok [t{tree} f{item}:1]\n")?;
    text.extend_from_slice(opened.as_bytes())?;
    let place = format!(in alloc; "f{item}:2")?;
    push_read(alloc, text, line.saturating_add(1), first, place.as_str())?;
    let place = format!(in alloc; "f{item}:3")?;
    push_read(alloc, text, line.saturating_add(2), second, place.as_str())?;
    let (line, tree) = (line.saturating_add(3), tree.saturating_add(1));
    let closed = format!(in alloc; "{line} ok [t{tree} f{item}:4]\n")?;
    text.extend_from_slice(closed.as_bytes())?;
    Ok(())
}

/// One run reads these files whole; each byte of the replies is compared.
fn read_part(rt: &HostRuntime, folder: &str, digits: &[u8], first: usize) -> Result<bool, Fail> {
    let alloc = rt.alloc();
    let script = script_of(alloc, first)?;
    let seen = run_folder(rt, folder, script.as_str())?;
    let mut text = START.as_bytes().to_vec(alloc)?;
    for item in 0..PART {
        let part = part_of(digits, first.saturating_add(item), 2);
        push_replies(alloc, &mut text, item, part)?;
    }
    text.extend_from_slice(b"tree\n")?;
    Ok(seen.status == 0 && seen.sink.written().starts_with(text.as_slice()))
}

/// A part of the files is made in a folder of this name, and is read whole.
fn is_part_read(rt: &HostRuntime, folder: &str, first: usize) -> Result<bool, Fail> {
    let _ = fs::remove_dir_all(rt, folder);
    fs::create_dir_all(rt, folder)?;
    let pattern = pattern(rt.alloc())?;
    for n in first..first.saturating_add(PART) {
        let name = format!(in rt.alloc(); "{folder}/f{n}")?;
        fs::write(rt, name.as_str(), part_of(&pattern, n, 1))?;
    }
    let digits = hex_of(rt.alloc(), &pattern)?;
    let is_read = read_part(rt, folder, &digits, first)?;
    fs::remove_dir_all(rt, folder)?;
    Ok(is_read)
}

#[test]
fn small_files_of_a_folder_are_read_whole(rt: HostRuntime) -> Result<(), Fail> {
    for first in [0, 50, 100, 150] {
        assert!(rt; is_part_read(&rt, "vfs_top_small", first)?, "from {first}");
    }
    Ok(())
}

#[test]
fn files_of_a_folder_are_read_whole(rt: HostRuntime) -> Result<(), Fail> {
    assert!(rt; is_part_read(&rt, "vfs_top_middle", 200)?);
    Ok(())
}

#[test]
fn large_files_of_a_folder_are_read_whole(rt: HostRuntime) -> Result<(), Fail> {
    assert!(rt; is_part_read(&rt, "vfs_top_large", 250)?);
    Ok(())
}

const LOOK: &str = "s1 open 0 a r
s1 read 0 0 64
s1 open 1 link r
s1 open 1 d r
s1 open 1 x r
";

const FIRST: &str = "start files 0 queued 0 damaged 0
1 ok [t1 f0:1]
2 ok 5 6669727374 [f0:2]
3 E1 not found [t2]
4 E3 is a directory [t3]
5 ok [t4 f1:1]
tree
0 s1 0 listed / 1 f:a:5.1000.0 d:d f:x:0.2000.0
1 s1 0 opened a 0 5.1000.0
2 s1 0 refused open link E1 not found
3 s1 0 refused open d E3 is a directory
4 s1 0 opened x 1 0.2000.0
file 0 a
0 s1 0 1 adopt 5.1000.0
1 s1 0 1 opened r
2 s1 0 4 read 0 64
file 1 x
0 s1 0 1 adopt 0.2000.0
1 s1 0 1 opened r
queue
end 0
";

const SECOND: &str = "start files 0 queued 0 damaged 0
1 ok [t1 f0:1]
2 ok 6 7365636f6e64 [f0:2]
3 E1 not found [t2]
4 E3 is a directory [t3]
5 E1 not found [t4]
tree
0 s1 0 listed / 1 f:a:6.3000.0 d:d
1 s1 0 opened a 0 6.3000.0
2 s1 0 refused open link E1 not found
3 s1 0 refused open d E3 is a directory
4 s1 0 refused open x E1 not found
file 0 a
0 s1 0 1 adopt 6.3000.0
1 s1 0 1 opened r
2 s1 0 4 read 0 64
queue
end 0
";

/// A link out of the folder, a directory, a file of a stage, and files that are replaced or removed between two runs.
#[test]
fn a_folder_shows_its_own_files_alone(rt: HostRuntime) -> Result<(), Fail> {
    let _ = fs::remove_dir_all(&rt, "vfs_top_shown");
    fs::create_dir_all(&rt, "vfs_top_shown/d")?;
    put(&rt, "vfs_top_out", b"secret", 1)?;
    symlink(&rt, "../vfs_top_out", "vfs_top_shown/link")?;
    put(&rt, "vfs_top_shown/.vfs-stage-1", b"stage", 1)?;
    put(&rt, "vfs_top_shown/a", b"first", 1000)?;
    put(&rt, "vfs_top_shown/x", b"", 2000)?;
    let seen = run_folder(&rt, "vfs_top_shown", LOOK)?;
    expect_text(&rt, &seen, 0, FIRST);
    put(&rt, "vfs_top_other", b"second", 3000)?;
    fs::rename(&rt, "vfs_top_other", "vfs_top_shown/a")?;
    fs::remove_file(&rt, "vfs_top_shown/x")?;
    let seen = run_folder(&rt, "vfs_top_shown", LOOK)?;
    expect_text(&rt, &seen, 0, SECOND);
    fs::remove_dir_all(&rt, "vfs_top_shown")?;
    fs::remove_file(&rt, "vfs_top_out")?;
    Ok(())
}

/// The folder is made where it isn't there; below a file it can't be.
#[test]
fn a_folder_is_made_or_told(rt: HostRuntime) -> Result<(), Fail> {
    let _ = fs::remove_dir_all(&rt, "vfs_top_made");
    let seen = run_folder(&rt, "vfs_top_made/below", OPEN)?;
    expect_replies(&rt, &seen, "1 ok [t1 f0:1]\n");
    assert!(rt; fs::metadata(&rt, "vfs_top_made/below")?.is_dir());
    fs::write(&rt, "vfs_top_made/file", b"".as_slice())?;
    let seen = run_folder(&rt, "vfs_top_made/file/below", OPEN)?;
    expect_text(&rt, &seen, 6, "remote fault\nend 6\n");
    fs::remove_dir_all(&rt, "vfs_top_made")?;
    Ok(())
}
