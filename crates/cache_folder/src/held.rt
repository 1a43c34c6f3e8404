ghost use Rattle.std.specs.Prelude.{◌≡◌, ◌↔◌, ◌≤◌, ℕ, Contains, IfOk, IfSome, OnOk, length, string_bytes};
ghost use Rattle.std.specs.Fs.{dir_entry_name};
ghost use Rattle.std.specs.List.Sorted.{IsStrictlyIncreasing};
ghost use Rattle.cache_folder.specs.Names.{name_of};
ghost use Rattle.cache_folder.specs.declared.names.Part.TheVariants.{Meta};

use crate::names::{lock_path, slot_of_name};
use crate::plain::open_to_write;
use std::alloc::Global;
use std::fs::{DirEntry, File, Files};
use std::io::ErrorKind;
use std::{fs, io};

/// The length in bytes of the longest name of a folder: with a file's name after it, it is still shorter than the 4,096
/// bytes that the system takes.
const LONGEST: usize = 3000;

/// A folder that nobody else holds as long as this value lives. The system frees it when the process is gone.
#[derive(Drop)]
pub struct HeldFolder {
    name: String,
    // where it is closed, its lock is freed
    lock: File,
}

/// Whether this is what reading a directory answers for a name that isn't UTF-8; it then goes on to the next name.
fn is_other_name(error: &io::Error) -> bool {
    error.kind() == ErrorKind::InvalidFilename && error.raw_os_error().is_none()
}

/// Makes the folder where it isn't there, and reads from it.
fn make_ready<R: Files + Clone + Drop>(alloc: Global, files: &R, name: &str) -> io::Result<()> {
    fs::create_dir_all(files, name)?;
    let reader = (files.clone()?, alloc);
    match fs::read_dir(&reader, name)?.next() {
        Some(Err(error)) if !is_other_name(&error) => Err(error),
        _ => Ok(()),
    }
}

/// The slot whose metadata the entry is; None of any other file, and of what is no plain file or gone meanwhile.
fn slot_of<R: Files>(entry: &DirEntry<R>) -> io::Result<Option<u32>>
    ensures { IfOk result (λ found. IfSome found (λ slot. dir_entry_name entry.now ≡ name_of slot Meta)) }
{
    let Some(slot) = slot_of_name(entry.file_name()) else {
        return Ok(None);
    };
    match entry.metadata() {
        Ok(metadata) => Ok(metadata.is_file().then_some(slot)),
        Err(error) if error.kind() == ErrorKind::NotFound => Ok(None),
        Err(error) => Err(error),
    }
}

/// Puts the slots in order, each once.
fn sort_once(slots: &mut Vec<u32>)
    ensures rising { IsStrictlyIncreasing slots.new.items }
    ensures same { (s : ℕ) → Contains slots.new.items s ↔ Contains slots.old.items s }
{
    slots.sort_unstable();
    slots.dedup();
}

impl HeldFolder {
    /// Makes the folder where it isn't there, and takes its lock. Fails where somebody holds it.
    pub fn hold<R: Files<File = File> + Clone + Drop>(
        alloc: Global,
        files: &R,
        name: &str,
    ) -> io::Result<HeldFolder>
        ensures name { IfOk result (λ held. string_bytes held.name ≡ name.now) }
        ensures short { OnOk result (length name.now ≤ 3000) }
    {
        if name.len() > LONGEST {
            return Err(ErrorKind::InvalidFilename.into());
        }
        let path = lock_path(alloc, name)?;
        let folder = String::from_str(alloc, name)?;
        make_ready(alloc, files, name)?;
        let lock = open_to_write(files, path.as_str())?;
        lock.try_lock()?;
        Ok(HeldFolder { name: folder, lock })
    }

    pub fn name(&self) -> &str
        ensures { result.now ≡ string_bytes self.now.name }
    {
        self.name.as_str()
    }

    /// The slots that have metadata, rising.
    pub fn slots<R: Files + Clone + Drop>(&self, alloc: Global, files: &R) -> io::Result<Vec<u32>>
        ensures { IfOk result (λ slots. IsStrictlyIncreasing slots.items) }
    {
        let mut slots = Vec::new(alloc);
        let reader = (files.clone()?, alloc);
        for entry in fs::read_dir(&reader, self.name())? {
            match entry {
                Ok(entry) => {
                    if let Some(slot) = slot_of(&entry)? {
                        slots.push(slot)?;
                    }
                }
                Err(error) => {
                    if !is_other_name(&error) {
                        return Err(error);
                    }
                }
            }
        }
        sort_once(&mut slots);
        Ok(slots)
    }
}
