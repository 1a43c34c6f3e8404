ghost use Rattle.std.specs.Prelude.{◌≡◌, ◌↔◌, IsTrue};
ghost use Rattle.vfs_outside.specs.RowName.{IsRowName};

use std::marker::Model;
use std::str::from_utf8;
use vfs_names::{Blob, Fingerprint, is_name};

/// What a row of a directory names.
#[derive(Clone, Copy, Debug, PartialEq, Eq)]
pub enum Kind {
    Dir,
    File,
}

/// Whether these bytes can be a row's name: one name of a path, in UTF-8.
pub fn is_row_name(bytes: &[u8]) -> bool
    ensures { IsTrue result ↔ IsRowName bytes.now }
{
    match from_utf8(bytes) {
        Ok(text) => is_name(text) && !bytes.contains(&b'/'),
        Err(_) => false,
    }
}

/// One row of a listing. The fingerprint of a directory is all zeros.
#[derive(Debug, Drop)]
pub struct Row {
    pub name: Blob,
    pub kind: Kind,
    pub print: Fingerprint,
}

/// The rows of a listing, in the remote's order. Contracts see the list.
#[derive(Debug, Drop)]
pub struct Rows {
    rows: Vec<Row>,
}

impl Model for Rows {
    ghost use Rattle.std.specs.Prelude.{List};
    ghost use Rattle.vfs_outside.specs.declared.listing.Row.{Row};

    ghost Value = { List Row };

    ghost view = { λ r. r.rows.items };
}

impl Rows {
    /// These rows; takes no memory.
    pub fn from_vec(rows: Vec<Row>) -> Rows
        ensures { result ≡ rows.items }
    {
        Rows { rows }
    }

    pub fn as_slice(&self) -> &[Row]
        ensures { result.now ≡ self.now }
    {
        self.rows.as_slice()
    }
}

/// What a remote answered of a directory. Each listing of a remote has a greater number than those before it.
#[derive(Debug, Drop)]
pub struct Listing {
    pub number: u64,
    pub rows: Rows,
}

impl Listing {
    pub fn rows(&self) -> &[Row]
        ensures { result.now ≡ self.now.rows }
    {
        self.rows.as_slice()
    }
}

/// A name that a directory shows.
#[derive(Debug, Drop)]
pub struct NameRow {
    pub kind: Kind,
    pub name: Blob,
}

/// The names that a directory shows. Contracts see the list.
#[derive(Debug, Drop)]
pub struct Names {
    rows: Vec<NameRow>,
}

impl Model for Names {
    ghost use Rattle.std.specs.Prelude.{List};
    ghost use Rattle.vfs_outside.specs.declared.listing.NameRow.{NameRow};

    ghost Value = { List NameRow };

    ghost view = { λ n. n.rows.items };
}

impl Names {
    /// These names; takes no memory.
    pub fn from_vec(rows: Vec<NameRow>) -> Names
        ensures { result ≡ rows.items }
    {
        Names { rows }
    }

    pub fn rows(&self) -> &[NameRow]
        ensures { result.now ≡ self.now }
    {
        self.rows.as_slice()
    }
}
