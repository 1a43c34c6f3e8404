//! Builds a script of so many bytes, of lines of all kinds or of the shortest alone, reads it so many times, and prints
//! how many of its lines do something.
#![tactic(auto)]

use anyhow::Result;
use session_script::read_script;
use std::alloc::{AllocError, Global};
use std::env;

/// A script of at least so many bytes: short calls, comments, empty lines and long writes.
fn script_of(alloc: Global, bytes: usize) -> std::result::Result<Vec<u8>, AllocError> {
    let mut text = Vec::with_capacity(alloc, bytes)?;
    text.extend_from_slice(b"s1 open 0 a.txt rw create\n")?;
    for _ in 0..bytes / 450 {
        text.extend_from_slice(b"s1 write 0 18446744073709551615 text:")?;
        for _ in 0..20 {
            text.extend_from_slice(b"escaped%20text%2C")?;
        }
        text.extend_from_slice(b"\ns1 read 0 0 131072\n# a comment\n\ns1 close 0\n")?;
    }
    Ok(text)
}

/// A script of so many bytes of the shortest lines.
fn short_script_of(alloc: Global, bytes: usize) -> std::result::Result<Vec<u8>, AllocError> {
    let mut text = Vec::with_capacity(alloc, bytes)?;
    for _ in 0..bytes / 11 {
        text.extend_from_slice(b"s1 close 0\n")?;
    }
    Ok(text)
}

/// How many lines of the script do something; 0 where it is refused.
fn lines_read(alloc: Global, text: &[u8]) -> usize {
    if text.len() > 1 << 30 {
        return 0;
    }
    match read_script(alloc, text) {
        Ok(script) => script.lines().len(),
        Err(_) => 0,
    }
}

fn main(rt: HostRuntime) -> Result<()> {
    let mut words = env::args(&rt)?.skip(1);
    let (Some(bytes), Some(times)) = (words.next(), words.next()) else {
        println!(rt; "bench_script BYTES TIMES [short]")?;
        return Ok(());
    };
    let (bytes, times): (usize, usize) = (bytes.parse()?, times.parse()?);
    let text = if words.next().is_some() {
        short_script_of(rt.alloc(), bytes)?
    } else {
        script_of(rt.alloc(), bytes)?
    };
    println!(rt; "bytes {}", text.len())?;
    for _ in 0..times {
        println!(rt; "lines {}", lines_read(rt.alloc(), &text))?;
    }
    Ok(())
}
