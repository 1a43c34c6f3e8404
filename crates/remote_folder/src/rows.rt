ghost use Rattle.std.specs.Prelude.{◌≡◌, IfOk, map};
ghost use Rattle.vfs_outside.specs.Outside.{HasNames};
ghost use Rattle.remote_folder.specs.declared.named.NamedRow.{NamedRow};
ghost use Rattle.remote_folder.specs.Rows.{IsAscending, IsOrdered, IsSortedOnce};

use crate::named::{NamedRow, named_row};
use crate::place::Place;
use crate::trouble::Trouble;
use std::alloc::{AllocError, Global};
use std::fs::{DirEntry, Files};
use std::io::ErrorKind;
use std::{fs, io};
use vfs_names::NoMemory;
use vfs_outside::{Row, Rows};

/// The length in bytes of the longest path.
const LONGEST: usize = 1024;

/// The row of an entry whose name has at most `longest` bytes. None where it has none, or is gone meanwhile.
fn row_of<R: Files>(
    alloc: Global,
    entry: &DirEntry<R>,
    longest: usize,
) -> Result<Option<NamedRow>, Trouble> {
    let name = entry.file_name();
    if name.len() > longest {
        return Ok(None);
    }
    match entry.metadata() {
        Ok(metadata) => Ok(named_row(alloc, name, &metadata)?),
        Err(error) => match Trouble::from(error) {
            Trouble::Gone => Ok(None),
            Trouble::Failed => Err(Trouble::Failed),
            Trouble::NoMemory => Err(Trouble::NoMemory),
        },
    }
}

/// Whether this is what reading a directory answers for a name that isn't UTF-8; it then goes on to the next name.
pub fn is_other_name(error: &io::Error) -> bool {
    error.kind() == ErrorKind::InvalidFilename && error.raw_os_error().is_none()
}

fn bare(alloc: Global, found: Vec<NamedRow>) -> Result<Vec<Row>, AllocError>
    ensures { IfOk result (λ rows. rows.items ≡ map (λ (named : NamedRow). named.row) found.items) }
{
    found.into_iter().map(|named| named.row).collect(alloc)
}

/// Sorts the rows by the bytes of their names, and leaves one of each name.
fn sort_once(found: &mut Vec<NamedRow>)
    ensures { IsSortedOnce found.old.items found.new.items }
{
    found.sort_unstable();
    found.dedup();
}

/// The rows in the order of their names, one of each name.
fn in_order(alloc: Global, mut found: Vec<NamedRow>) -> Result<Rows, NoMemory>
    ensures names { IfOk result (λ rows. HasNames rows) }
    ensures ascending { IfOk result (λ rows. IsAscending rows) }
    ensures ordered { IfOk result (λ rows. IsOrdered found.items rows) }
{
    sort_once(&mut found);
    match bare(alloc, found) {
        Ok(rows) => Ok(Rows::from_vec(rows)),
        Err(_) => Err(NoMemory),
    }
}

/// The rows of the directory at a place, whose path has so many bytes with the slash after it.
pub fn rows_at<R: Files + Clone + Drop>(
    alloc: Global,
    files: &R,
    place: &Place,
) -> Result<Rows, Trouble>
    ensures names { IfOk result (λ rows. HasNames rows) }
    ensures ascending { IfOk result (λ rows. IsAscending rows) }
{
    if !place.look(files)?.is_dir() {
        return Err(Trouble::Gone);
    }
    let longest = LONGEST.saturating_sub(place.path_len());
    let reader = (files.clone()?, alloc);
    let mut found = Vec::new(alloc);
    for entry in fs::read_dir(&reader, place.name())? {
        match entry {
            Ok(entry) => {
                if let Some(row) = row_of(alloc, &entry, longest)? {
                    let Ok(()) = found.push(row) else {
                        return Err(Trouble::NoMemory);
                    };
                }
            }
            Err(error) => {
                if !is_other_name(&error) {
                    return Err(Trouble::from(error));
                }
            }
        }
    }
    Ok(in_order(alloc, found)?)
}
