ghost use Rattle.std.specs.Prelude.{◌≡◌, ◌≢◌, ◌+◌, ◌-◌, ◌^◌, [], ◌∷◌, min, IfOk, IfSome, IsSome, OnErr, OnOk, None, length, string_bytes};
ghost use Rattle.vfs_outside.specs.Outside.{HasNames, IsCall, IsNumbered, MayBeMissing, MayFail, StaysAlone, nothing};
ghost use Rattle.remote_folder.specs.Rows.{IsAscending};
ghost use Rattle.remote_folder.specs.Folder.{attached_to, outside_of};

use crate::held::{make_file, remove_all_left};
use crate::object::FolderObject;
use crate::place::Place;
use crate::rows::{is_other_name, rows_at};
use crate::stage::FolderStage;
use crate::stamp::Stamp;
use crate::told::Told;
use crate::trouble::Trouble;
use std::alloc::Global;
use std::fs;
use std::fs::{File, Files};
use vfs_names::{Fingerprint, VPath};
use vfs_outside::{Listing, Object, Remote, RemoteError, Rows};

/// The length in bytes of the longest name of a folder: with a path's 1,024 bytes after it, it is still shorter than the
/// 4,096 bytes that the system takes.
const LONGEST_FOLDER: usize = 3000;

/// The objects of a folder: its files are the objects, its directories the directories.
#[derive(Drop)]
pub struct FolderRemote<R: Files> {
    alloc: Global,
    files: R,
    folder: Option<String>,
    // the least number that the next stage's file may have
    next_stage: u64,
    told: Told,
}

/// Makes the folder where it isn't there, and reads from it. Gives its name.
fn ready<R: Files + Clone + Drop>(alloc: Global, files: &R, name: &str) -> Result<String, Trouble>
    ensures { IfOk result (λ folder. string_bytes folder ≡ name.now) }
{
    if name.len() > LONGEST_FOLDER {
        return Err(Trouble::Failed);
    }
    let folder = String::from_str(alloc, name)?;
    fs::create_dir_all(files, name)?;
    let reader = (files.clone()?, alloc);
    match fs::read_dir(&reader, name)?.next() {
        Some(Err(error)) if !is_other_name(&error) => Err(Trouble::from(error)),
        _ => Ok(folder),
    }
}

impl<R: Files<File = File> + Clone + Drop> FolderRemote<R> {
    /// A store that has no folder yet: each call but `attach` answers Failed. Makes no call on `files`.
    pub fn new(alloc: Global, files: R) -> FolderRemote<R>
        ensures handed { (outside_of result).handed ≡ [] }
        ensures counts { ((outside_of result).faults ≡ 0) × ((outside_of result).changes ≡ 0) }
        ensures lists { (outside_of result).lists ≡ 0 }
        ensures folder { attached_to result ≡ None }
    {
        FolderRemote {
            alloc,
            files,
            folder: None,
            next_stage: 0,
            told: Told::new(alloc),
        }
    }

    /// The rows of a directory.
    fn rows(&self, alloc: Global, dir: &VPath) -> Result<Rows, Trouble>
        ensures names { IfOk result (λ rows. HasNames rows) }
        ensures ascending { IfOk result (λ rows. IsAscending rows) }
        ensures unattached { attached_to self.now ≡ None → result ≡ Err Trouble.Failed }
    {
        let Some(folder) = &self.folder else {
            return Err(Trouble::Failed);
        };
        let place = Place::new(alloc, folder.as_str(), dir)?;
        rows_at(alloc, &self.files, &place)
    }

    /// The object at a path.
    fn object(&self, alloc: Global, path: &VPath) -> Result<FolderObject<R>, Trouble>
        ensures path { IfOk result (λ o. o.path ≡ path.now) }
        ensures asked { IfOk result (λ o. o.asked.items ≡ []) }
        ensures counts { IfOk result (λ o. (o.faults ≡ 0) × (o.changes ≡ 0)) }
        ensures root { IfSome (attached_to self.now) (λ folder. path.now ≡ [] → result ≡ Err Trouble.Gone) }
        ensures unattached { attached_to self.now ≡ None → result ≡ Err Trouble.Failed }
    {
        let Some(folder) = &self.folder else {
            return Err(Trouble::Failed);
        };
        if path.is_root() {
            return Err(Trouble::Gone);
        }
        let place = Place::new(alloc, folder.as_str(), path)?;
        let Some(stamp) = Stamp::of(&place.look(&self.files)?) else {
            return Err(Trouble::Gone);
        };
        let path = path.copy(alloc)?;
        let files = self.files.clone()?;
        Ok(FolderObject::new(alloc, files, path, place, stamp))
    }

    /// A stage with no bytes.
    fn new_stage(&mut self, alloc: Global) -> Result<FolderStage<R>, Trouble>
        ensures rest { self.new ≡ record self.old { next_stage = self.new.next_stage } }
        ensures empty { IfOk result (λ s. s.len ≡ 0) }
        ensures unattached { attached_to self.old ≡ None → result ≡ Err Trouble.Failed }
    {
        let Some(folder) = &self.folder else {
            return Err(Trouble::Failed);
        };
        let files = self.files.clone()?;
        let held = make_file(alloc, &self.files, folder.as_str(), self.next_stage)?;
        self.next_stage = held.number.saturating_add(1);
        Ok(FolderStage::new(files, held))
    }

    /// Puts a stage's file at a path. Gives its fingerprint.
    fn put(
        &self,
        alloc: Global,
        stage: FolderStage<R>,
        path: &VPath,
    ) -> Result<Fingerprint, Trouble>
        ensures size { IfOk result (λ print. print.size ≡ stage.len) }
        ensures rev { IfOk result (λ print. print.rev ≡ 0) }
        ensures unattached { attached_to self.now ≡ None → result ≡ Err Trouble.Failed }
    {
        let Some(folder) = &self.folder else {
            return Err(Trouble::Failed);
        };
        let place = Place::new(alloc, folder.as_str(), path)?;
        stage.put_at(&place)
    }
}

impl<R: Files<File = File> + Clone + Drop> Remote for FolderRemote<R> {
    type Object = FolderObject<R>;

    type Stage = FolderStage<R>;

    ghost tells = { ⊥ };

    ghost outside = { λ r. outside_of r };

    ghost staged = { λ s. [] };

    ghost stage_len = { λ s. s.len };

    ghost told_objects = { λ t. absurd t };

    ghost told_by_objects = { λ t. absurd t };

    ghost told_stages = { λ t. absurd t };

    /// The folder is made where it isn't there, with those above it, and must be a directory that can be read. Where it
    /// isn't, the folder that was attached before stays so. Objects stay those of the folder in which they were opened.
    /// The files of stages that nobody holds are removed from it, as those of a process that was killed.
    fn attach(&mut self, name: &str) -> Result<(), RemoteError>
        ensures call { IsCall MayFail nothing (outside_of self.old) (outside_of self.new) result }
        ensures lists { (outside_of self.new).lists ≡ (outside_of self.old).lists }
        ensures alone { StaysAlone (outside_of self.old) (outside_of self.new) }
        ensures folder { OnOk result (attached_to self.new ≡ Some name.now) }
        ensures kept { OnErr result (attached_to self.new ≡ attached_to self.old) }
    {
        match ready(self.alloc, &self.files, name) {
            Ok(folder) => {
                let _swept = remove_all_left(self.alloc, &self.files, name);
                self.folder = Some(folder);
                Ok(())
            }
            Err(trouble) => Err(self.told.fail(trouble)),
        }
    }

    /// The rows stand in the order of the bytes of their names.
    fn list(&mut self, alloc: Global, dir: &VPath) -> Result<Listing, RemoteError>
        ensures call { IsCall MayBeMissing nothing (outside_of self.old) (outside_of self.new) result }
        ensures number { IsNumbered (outside_of self.old) (outside_of self.new) result }
        ensures counted { (outside_of self.new).lists ≡ min ((outside_of self.old).lists + 1) (2 ^ 64 - 1) }
        ensures ascending { IfOk result (λ listing. IsAscending listing.rows) }
        ensures unattached { attached_to self.old ≡ None → result ≡ Err RemoteError.Failed }
        ensures folder { attached_to self.new ≡ attached_to self.old }
    {
        let Some(number) = self.told.lists.checked_add(1) else {
            return Err(self.told.refuse(Trouble::Failed));
        };
        self.told.lists = number;
        match self.rows(alloc, dir) {
            Ok(rows) => Ok(Listing { number, rows }),
            Err(trouble) => Err(self.told.refuse(trouble)),
        }
    }

    /// Missing for anything but a plain file of the folder, and where a name on the way to it is a link or no directory.
    fn open_object(&mut self, alloc: Global, path: &VPath) -> Result<FolderObject<R>, RemoteError> {
        match self.object(alloc, path) {
            Ok(object) => match self.told.hand_out(object.print()) {
                Ok(()) => Ok(object),
                Err(_) => Err(RemoteError::NoMemory),
            },
            Err(trouble) => Err(self.told.refuse(trouble)),
        }
    }

    /// The stage's bytes stand in a new file of the folder.
    fn stage(&mut self, alloc: Global) -> Result<FolderStage<R>, RemoteError>
        ensures call { IsCall MayFail nothing (outside_of self.old) (outside_of self.new) result }
        ensures lists { (outside_of self.new).lists ≡ (outside_of self.old).lists }
        ensures alone { StaysAlone (outside_of self.old) (outside_of self.new) }
        ensures empty { IfOk result (λ s. s.len ≡ 0) }
        ensures unattached { attached_to self.old ≡ None → result ≡ Err RemoteError.Failed }
        ensures folder { attached_to self.new ≡ attached_to self.old }
    {
        match self.new_stage(alloc) {
            Ok(stage) => Ok(stage),
            Err(trouble) => Err(self.told.fail(trouble)),
        }
    }

    fn append(&mut self, stage: &mut FolderStage<R>, bytes: &[u8]) -> Result<(), RemoteError>
        ensures call { IsCall MayFail nothing (outside_of self.old) (outside_of self.new) result }
        ensures lists { (outside_of self.new).lists ≡ (outside_of self.old).lists }
        ensures alone { StaysAlone (outside_of self.old) (outside_of self.new) }
        ensures longer { OnOk result (stage.new.len ≡ stage.old.len + length bytes.now) }
        ensures folder { attached_to self.new ≡ attached_to self.old }
    {
        match stage.append(bytes) {
            Ok(()) => Ok(()),
            Err(trouble) => Err(self.told.fail(trouble)),
        }
    }

    /// Renames the stage's file. Its modification time is the system's, and not the one that is given; where that isn't
    /// later than the time of a file of the same size that stood at the path, it is one millisecond later than that.
    /// Missing also where a name on the way to the path is a link, and where anything but a plain file stands there.
    fn commit(
        &mut self,
        alloc: Global,
        stage: FolderStage<R>,
        path: &VPath,
        _mtime: u64,
    ) -> Result<Fingerprint, RemoteError>
        requires { path.now ≢ [] }
        ensures call { IsCall MayBeMissing (λ print. (print, []) ∷ [])
            (outside_of self.old) (outside_of self.new) result }
        ensures lists { (outside_of self.new).lists ≡ (outside_of self.old).lists }
        ensures size { IfOk result (λ print. print.size ≡ stage.len) }
        ensures rev { IfOk result (λ print. print.rev ≡ 0) }
        ensures unattached { OnOk result (IsSome (attached_to self.old)) }
        ensures folder { attached_to self.new ≡ attached_to self.old }
    {
        let Ok(()) = self.told.make_room() else {
            return Err(RemoteError::NoMemory);
        };
        match self.put(alloc, stage, path) {
            Ok(print) => {
                self.told.hand_out_in_room(print);
                Ok(print)
            }
            Err(trouble) => Err(self.told.refuse(trouble)),
        }
    }
}
