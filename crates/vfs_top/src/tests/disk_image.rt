use super::plain::{Plain, SPAN};
use super::*;
use vfs_names::Fingerprint;
use vfs_outside::{CacheDisk, CacheFile};

/// The keys behind the first, `atime`, as they stand before their values.
const KEYS: [&str; 9] = [
    ",\"base\":",
    ",\"base_end\":",
    ",\"dirty\":",
    ",\"intent\":",
    ",\"mtime\":",
    ",\"path\":",
    ",\"ranges\":",
    ",\"size\":",
    ",\"v\":",
];

/// The values of metadata, by the places of the keys in their text.
fn values_of(alloc: Global, text: &str) -> Result<Vec<String>, Fail> {
    let mut values = Vec::new(alloc);
    let mut rest = text;
    for key in KEYS {
        let Some((value, later)) = rest.split_once(key) else {
            return Ok(values);
        };
        values.push(String::from_str(alloc, value)?)?;
        rest = later;
    }
    values.push(String::from_str(alloc, rest)?)?;
    Ok(values)
}

/// The values that the file's metadata are to have, in the same order. Nothing is said of the time of the last use, the
/// intent and the ranges.
fn wanted_of(alloc: Global, name: &str, plain: &Plain) -> Result<[String; 10], Fail> {
    let size = plain.content.size;
    Ok([
        String::new(alloc),
        base_of(alloc, plain.held)?,
        format!(in alloc; "{}", plain.base_end)?,
        format!(in alloc; "{}", plain.dirty)?,
        String::new(alloc),
        format!(in alloc; "{}", plain.mtime)?,
        format!(in alloc; "\"{name}\"")?,
        String::new(alloc),
        format!(in alloc; "{size}")?,
        String::from_str(alloc, "1}")?,
    ])
}

fn base_of(alloc: Global, held: Option<Fingerprint>) -> Result<String, Fail> {
    let Some(print) = held else {
        return Ok(String::from_str(alloc, "null")?);
    };
    let (mtime, rev, size) = (print.mtime, print.rev, print.size);
    Ok(format!(in alloc; "{{\"mtime\":{mtime},\"rev\":{rev},\"size\":{size}}}")?)
}

/// The value of a decimal or hexadecimal digit.
fn digit_of(byte: u8) -> Option<u8> {
    let digits = b"0123456789abcdef";
    match digits.iter().position(|digit| *digit == byte) {
        Some(value) => Some(value as u8),
        None => None,
    }
}

/// The decimal numbers of a text, in their order.
fn numbers_of(alloc: Global, text: &str) -> Result<Vec<u64>, Fail> {
    let mut numbers = Vec::new(alloc);
    let mut under_way = None;
    for byte in text.as_bytes() {
        match (digit_of(*byte), under_way) {
            (Some(digit), before) => {
                let before: u64 = before.unwrap_or(0);
                under_way = Some(before.saturating_mul(10).saturating_add(digit as u64));
            }
            (None, Some(number)) => {
                numbers.push(number)?;
                under_way = None;
            }
            (None, None) => {}
        }
    }
    Ok(numbers)
}

/// Which bytes are here by the ranges of metadata.
fn here_of(alloc: Global, ranges: &str) -> Result<[bool; SPAN], Fail> {
    let mut here = [false; SPAN];
    let numbers = numbers_of(alloc, ranges)?;
    let mut start = None;
    for number in &numbers {
        match start {
            None => start = Some(*number),
            Some(from) => {
                mark(&mut here, from, *number);
                start = None;
            }
        }
    }
    Ok(here)
}

fn mark(here: &mut [bool; SPAN], from: u64, to: u64) {
    for pos in 0..SPAN {
        if from <= pos as u64 && (pos as u64) < to {
            here[pos] = true;
        }
    }
}

/// Lays the bytes of a write that is pending over those of the data.
fn lay(alloc: Global, intent: &str, stored: &mut [u8; SPAN]) -> Result<(), Fail> {
    let Some((digits, rest)) = intent.split_once("\",\"pos\":") else {
        return Ok(());
    };
    let Some((_, digits)) = digits.split_once("{\"bytes\":\"") else {
        return Err(Fail::from("intent"));
    };
    let Some(pos) = numbers_of(alloc, rest)?.first().copied() else {
        return Err(Fail::from("intent"));
    };
    let mut high = None;
    let mut at = pos;
    for byte in digits.as_bytes() {
        let digit = digit_of(*byte).unwrap_or(0);
        match high {
            None => high = Some(digit),
            Some(before) => {
                put(stored, at, before.saturating_mul(16).saturating_add(digit));
                at = at.saturating_add(1);
                high = None;
            }
        }
    }
    Ok(())
}

fn put(stored: &mut [u8; SPAN], at: u64, byte: u8) {
    if at < SPAN as u64 {
        stored[at as usize] = byte;
    }
}

/// Each byte that is here is the file's, and so is what stands for each other.
fn are_bytes(plain: &Plain, here: &[bool; SPAN], stored: &[u8; SPAN]) -> bool {
    let mut right = true;
    for pos in 0..SPAN {
        let byte = if here[pos] {
            stored[pos]
        } else {
            plain.absent(pos)
        };
        right = right && byte == plain.content.bytes[pos];
    }
    right
}

/// No byte is here from the size on.
fn are_within(plain: &Plain, here: &[bool; SPAN]) -> bool {
    let mut right = true;
    for pos in 0..SPAN {
        right = right && (!here[pos] || (pos as u64) < plain.content.size);
    }
    right
}

/// The value at a place of metadata, which counts from 0.
fn value_at(values: &[String], place: usize) -> &str {
    match values.get(place) {
        Some(value) => value.as_str(),
        None => "",
    }
}

/// The metadata are those of the file but for the time of the last use, the intent and the ranges.
fn are_values(values: &[String], wanted: &[String]) -> bool {
    let mut right = values.len() == wanted.len();
    for (value, wanted) in values.iter().zip(wanted) {
        right = right && (wanted.is_empty() || value == wanted);
    }
    right
}

/// The text of metadata and the data are those of the file.
fn tells(
    alloc: Global,
    name: &str,
    plain: &Plain,
    text: &str,
    stored: &mut [u8; SPAN],
) -> Result<bool, Fail> {
    let values = values_of(alloc, text)?;
    let wanted = wanted_of(alloc, name, plain)?;
    let here = here_of(alloc, value_at(&values, 7))?;
    lay(alloc, value_at(&values, 4), stored)?;
    Ok(are_values(&values, &wanted) && are_within(plain, &here) && are_bytes(plain, &here, stored))
}

/// What stands in a slot is the file, or nothing where it isn't kept.
pub fn stands(
    rt: &(impl Abort + AllocGlobal),
    disk: &mut MemoryDisk,
    slot: u32,
    name: &str,
    plain: &Plain,
) -> Result<bool, Fail> {
    assert!(rt; !disk.is_out(slot));
    let mut file = disk.take(slot)?;
    let Some(text) = file.read_meta()? else {
        return Ok(!plain.kept);
    };
    let mut stored = [0; SPAN];
    file.read_at(0, &mut stored)?;
    let text = std::str::from_utf8(text.as_slice())?;
    Ok(plain.kept && tells(rt.alloc(), name, plain, text, &mut stored)?)
}
