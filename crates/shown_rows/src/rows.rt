ghost use Rattle.std.specs.Prelude.{◌≡◌, ◌≢◌, ℕ, ◌<◌, List, None, Some, if◌then◌else◌, IfOk, OnOk, string_bytes};
ghost use Rattle.std.specs.Str.{IsUtf8};
ghost use Rattle.vfs_names.specs.Path.{same_text};
ghost use Rattle.vfs_outside.specs.Outside.{HasNames};
ghost use Rattle.vfs_outside.specs.RowName.{IsRowName};
ghost use Rattle.shown_rows.specs.Shown.{room_in, shown_by, shown_in, shown_of};

use indexmap::IndexMap;
use std::alloc::Global;
use std::str::from_utf8;
use vfs_names::{Blob, Fingerprint, NoMemory, VPath};
use vfs_outside::{Kind, Row};

/// What a directory shows at a name: a directory, or an object with its fingerprint.
#[derive(Clone, Copy, Debug, PartialEq, Eq)]
pub enum Shown {
    Dir,
    Object(Fingerprint),
}

impl Shown {
    fn of(row: &Row) -> Shown
        ensures { result ≡ shown_of row.now }
    {
        match row.kind {
            Kind::Dir => Shown::Dir,
            Kind::File => Shown::Object(row.print),
        }
    }
}

/// The text of a row's name.
fn text_of(alloc: Global, name: &Blob) -> Result<String, NoMemory>
    requires { IsUtf8 name.now }
    ensures { IfOk result (λ text. string_bytes text ≡ name.now) }
{
    let Ok(text) = from_utf8(name.as_slice()) else {
        unreachable!();
    };
    match String::from_str(alloc, text) {
        Ok(text) => Ok(text),
        Err(_) => Err(NoMemory),
    }
}

/// What a directory shows, found by name in constant time.
#[derive(Drop)]
pub struct ShownRows {
    map: IndexMap<String, Shown>,
}

impl ShownRows {
    /// Shows nothing; takes no memory.
    pub fn new(alloc: Global) -> ShownRows
        ensures { (name : List ℕ) → shown_in result name ≡ None }
    {
        ShownRows {
            map: IndexMap::new(alloc),
        }
    }

    /// What these rows show. Takes time in proportion to them.
    pub fn of(alloc: Global, rows: &[Row]) -> Result<ShownRows, NoMemory>
        requires { HasNames rows.now }
        ensures { IfOk result (λ r. (name : List ℕ) → shown_in r name ≡ shown_by rows.now name) }
    {
        let mut shown = ShownRows::new(alloc);
        for row in rows {
            shown.put(alloc, row)?;
        }
        Ok(shown)
    }

    /// The row's name shows what the row says.
    pub(crate) fn put(&mut self, alloc: Global, row: &Row) -> Result<(), NoMemory>
        requires { IsRowName row.now.name }
        ensures { OnOk result ((name : List ℕ) → shown_in self.new name
            ≡ (if same_text row.now.name name then Some (shown_of row.now) else shown_in self.old name)) }
    {
        let text = text_of(alloc, &row.name)?;
        let Ok(_) = self.map.insert(text, Shown::of(row)) else {
            return Err(NoMemory);
        };
        Ok(())
    }

    /// What stands at the name; None where nothing is shown.
    pub fn get(&self, path: &VPath) -> Option<Shown>
        ensures { result ≡ shown_in self.now path.now }
    {
        self.map.get(path.as_str()).copied()
    }

    /// The name is no longer shown; takes no memory.
    pub fn remove(&mut self, path: &VPath)
        ensures { (name : List ℕ) → shown_in self.new name
            ≡ (if same_text path.now name then None else shown_in self.old name) }
    {
        let _ = self.map.swap_remove(path.as_str());
    }

    /// The object at the name has this fingerprint; takes no memory.
    pub fn set_print(&mut self, path: &VPath, print: Fingerprint)
        requires { shown_in self.old path.now ≢ None }
        ensures { (name : List ℕ) → shown_in self.new name
            ≡ (if same_text path.now name then Some (Shown.Object print) else shown_in self.old name) }
    {
        let Some(shown) = self.map.get_mut(path.as_str()) else {
            unreachable!();
        };
        *shown = Shown::Object(print);
    }

    /// Makes room for one more name.
    pub fn reserve(&mut self) -> Result<(), NoMemory>
        ensures ok { OnOk result (0 < room_in self.new) }
        ensures shown { (name : List ℕ) → shown_in self.new name ≡ shown_in self.old name }
    {
        match self.map.reserve(1) {
            Ok(()) => Ok(()),
            Err(_) => Err(NoMemory),
        }
    }

    /// The name shows an object with this fingerprint, whatever it showed; takes no memory.
    pub fn put_object(&mut self, name: String, print: Fingerprint)
        requires room { 0 < room_in self.old }
        ensures { (name' : List ℕ) → shown_in self.new name'
            ≡ (if same_text (string_bytes name) name' then Some (Shown.Object print)
            else shown_in self.old name') }
    {
        let Ok(_) = self.map.insert(name, Shown::Object(print)) else {
            unreachable!();
        };
    }
}
