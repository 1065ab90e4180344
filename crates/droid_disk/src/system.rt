//! The file system of this machine, by its calls.
//!
//! Proved is what [`Disk`] asks for: that metadata are such as the machine gave, that no more bytes come than are asked
//! for, and that the process is back in its own folder. Which names, metadata and bytes the machine gives is tested, in
//! `tests/program/folders`, by `folder_calls.py` (each call fails), `profile_states.py` and `profile_exchanged.py`
//! (what changes meanwhile) and `working_folder.py`; functions that only pass that on have no contract.

ghost use Rattle.std.specs.Prelude.{◌≡◌, ◌≢◌, ◌++◌, ◌∷◌, [], IfErr, IfOk, IfSome, IsSomeAnd, IsTrue};
ghost use Rattle.std.specs.Fs.{file_type};
ghost use Rattle.std.specs.Str.{bytes_eq};
ghost use Rattle.droid_tree.specs.declared.fault.TreeFault.TheVariants.{Changed};
ghost use Rattle.droid_disk.specs.declared.start_folder.Stand.TheVariants.{Inside};
ghost use Rattle.droid_disk.specs.Machine.{IsMetadataOf, IsKindOf, IsOfSome, MaySay};

use crate::disk::{Disk, FileMetadata};
use crate::entries::put_path;
use crate::file_bytes::add_bytes;
use crate::names::read_names;
use crate::open_folder::OpenFolder;
use crate::start_folder::{Stand, StartFolder, enter, go_back_to};
use droid_frame::{Blob, Text};
use droid_tree::{EntryKind, TreeFault};
use std::alloc::{AllocError, Global};
use std::env::Env;
use std::fs;
use std::fs::{File, Files, Metadata, OpenFile};
use std::os::unix::fs::MetadataExt;

/// The file system of this machine. The folder that was listed last stays open, and what lies in it is reached through
/// it where the machine has `/proc`. While its entries are looked at, it is the process's working folder.
pub struct System<'a, R> {
    pub(crate) runtime: &'a R,
    listed: Option<OpenFolder>,
    /// The name of this process below `/proc`, once it is known.
    process: Option<Text>,
    /// The folder in which the process was started, if the process can go back there.
    start: Option<StartFolder>,
    stand: Stand,
}

// Written by hand, so that the crates above do not prove again how each part is dropped.
impl<R> Drop for System<'_, R> {
    fn drop(self) {
        let System {
            runtime: _runtime,
            listed: _listed,
            process: _process,
            start: _start,
            stand: _stand,
        } = self;
    }
}

/// An open file of this machine.
pub struct Opened {
    pub(crate) file: File,
    path: Text,
    pub(crate) metadata: FileMetadata,
}

// Written by hand, so that the crates above do not prove again how each part is dropped.
impl Drop for Opened {
    fn drop(self) {
        let Opened {
            file: _file,
            path: _path,
            metadata: _metadata,
        } = self;
    }
}

impl<'a, R: Files<File = File>> System<'a, R> {
    /// Returns the file system that this runtime reaches. No folder was listed yet, and the process is where it was
    /// started.
    pub fn new(runtime: &'a R) -> System<'a, R> {
        System {
            runtime,
            listed: None,
            process: None,
            start: None,
            stand: Stand::Start,
        }
    }

    /// Returns the path of something through the folder that was listed last, if it lies in it and there is memory for
    /// the path. Otherwise `None`: it is then reached by its own path.
    fn place(&self, path: &str) -> Option<Text> {
        match &self.listed {
            Some(folder) => folder.place(path),
            None => None,
        }
    }

    /// Returns the name of something in the listed folder, if that is the process's working folder: it is reached by
    /// the name alone. For `StayingSystem`.
    pub(crate) fn name_inside<'p>(&self, path: &'p str) -> Option<&'p str> {
        match &self.listed {
            Some(folder) if self.stand == Stand::Inside => folder.name_in(path),
            _ => None,
        }
    }

    /// Returns whether the process's working folder is the listed folder, opened by this path, which has no `/` at its
    /// end. Only true promises something: false costs time.
    fn is_in(&self, path: &str) -> bool
        ensures inside { IsTrue result → self.now.stand ≡ Stand.Inside }
        ensures its { IsTrue result → IsSomeAnd self.now.listed (λ folder. folder.path ≡ path.now ++ 47 ∷ []) }
    {
        match &self.listed {
            Some(folder) => self.stand == Stand::Inside && folder.is_at(path),
            None => false,
        }
    }

    /// Returns whether the folder at this path can be opened for listing, through the listed folder if it lies in it.
    fn can_list(&self, path: &str) -> bool {
        match self.place(path) {
            Some(place) => can_list_at(self.runtime, place.as_str()),
            None => can_list_at(self.runtime, path),
        }
    }
}

impl<R: Files<File = File> + Env> System<'_, R> {
    /// Makes the folder in which the process was started its working folder again. Returns whether it is: once that
    /// failed, it stays so, and callers report what they were asked for as unreadable.
    pub(crate) fn go_back(&mut self) -> bool
        ensures left { self.new.stand ≢ Stand.Inside }
        ensures kept { self.new.runtime ≡ self.old.runtime }
    {
        match self.stand {
            Stand::Start => true,
            Stand::Lost => false,
            Stand::Inside => {
                self.stand = go_back_to(self.runtime, &self.start);
                self.stand == Stand::Start
            }
        }
    }

    /// Finds out what this process is called below `/proc`, and opens the folder in which it was started: at the first
    /// listing, or at a later one if `/proc` can't be read before. What is not known costs time, or leaves the process
    /// where it is.
    fn begin(&mut self, alloc: Global)
        ensures kept { self.new.runtime ≡ self.old.runtime }
    {
        if self.process.is_some() {
            return;
        }
        self.process = own_process(self.runtime, alloc);
        if let Some(process) = &self.process {
            self.start = StartFolder::open(self.runtime, alloc, process.as_str());
        }
    }
}

// What asks the machine first goes back to the folder of the start, but for `look_in` in the listed folder. Where it
// can't go back, it fails with `Unreadable`, or returns `None`. `Disk` says the rest.
impl<R: Files<File = File> + Env> Disk for System<'_, R> {
    type File = Opened;

    ghost says = { λ old said new. (new.runtime ≡ old.runtime) × MaySay said };

    ghost is_inside = { λ system. system.stand ≡ Inside };

    ghost path_of = { λ opened. opened.path };

    ghost metadata_of = { λ opened. opened.metadata };

    fn names(&mut self, alloc: Global, path: &str) -> Result<Vec<Blob>, TreeFault> {
        // A path that does not begin with `/` leads from the folder in which the process was started.
        if !self.go_back() {
            return Err(TreeFault::Unreadable);
        }
        self.listed = None;
        self.begin(alloc);
        let process = name_of(&self.process);
        let Some((folder, names)) = names_through(self.runtime, alloc, process, path) else {
            return names_at(self.runtime, alloc, path);
        };
        // In the folder, `look_in` asks for an entry by its name alone: for speed, no clause needs it.
        if !names.is_empty() {
            self.stand = enter(self.runtime, &self.start, &folder);
        }
        self.listed = Some(folder);
        Ok(names)
    }

    fn look_in(
        &mut self,
        folder: &str,
        name: &str,
        place: &mut String,
    ) -> Result<Option<FileMetadata>, AllocError> {
        if self.is_in(folder) {
            return Ok(look_at(self.runtime, name));
        }
        put_path(place, folder, name)?;
        Ok(self.look(place.as_str()))
    }

    fn leave(&mut self) {
        let _ = self.go_back();
    }

    fn see_folder(&mut self, path: &str) -> Result<(), TreeFault> {
        if self.go_back() && self.can_list(path) {
            Ok(())
        } else {
            Err(TreeFault::Unreadable)
        }
    }

    fn look(&mut self, path: &str) -> Option<FileMetadata> {
        if !self.go_back() {
            return None;
        }
        match self.place(path) {
            Some(place) => look_at(self.runtime, place.as_str()),
            None => look_at(self.runtime, path),
        }
    }

    fn open(&mut self, path: Text) -> Result<Opened, TreeFault> {
        if !self.go_back() {
            return Err(TreeFault::Unreadable);
        }
        match self.place(path.as_str()) {
            Some(place) => with_metadata(file_by(self.runtime, place.as_str())?, path),
            None => with_metadata(file_by(self.runtime, path.as_str())?, path),
        }
    }

    fn metadata(file: &Opened) -> FileMetadata {
        file.metadata
    }

    fn is_at(file: &Opened, top: &str, path: &str) -> bool {
        was_opened_by(file, top, path)
    }

    fn read_at(
        &mut self,
        file: &Opened,
        from: u64,
        wanted: u32,
        bytes: &mut Vec<u8>,
    ) -> Result<(), TreeFault> {
        if !self.go_back() {
            return Err(TreeFault::Unreadable);
        }
        add_bytes(&file.file, file.metadata.len, from, wanted, bytes)
    }

    fn look_again(&mut self, file: &Opened) -> Option<FileMetadata> {
        if !self.go_back() {
            return None;
        }
        metadata_now(&file.file)
    }
}

/// Returns the name of this process below `/proc`: the number that the link `/proc/self` has. A path by the number
/// costs the system less than one by the link, which it would follow each time. `None` if the link can't be read.
fn own_process<R: Files>(rt: &R, alloc: Global) -> Option<Text> {
    match rt.read_link(alloc, "/proc/self") {
        Ok(number) => Some(Text::from(number.into_string())),
        Err(_) => None,
    }
}

/// Returns the name of this process below `/proc`, as far as it is known: otherwise `self`, which is the link to it.
fn name_of(process: &Option<Text>) -> &str {
    match process {
        Some(number) => number.as_str(),
        None => "self",
    }
}

/// Opens the folder at `path`, and returns it with the names that are read through it. Returns `None` if the folder
/// can't be read so, as where the machine has no `/proc`, or for want of memory: it is then read by its path. `process`
/// is the name of this process below `/proc`.
fn names_through<R: Files<File = File>>(
    rt: &R,
    alloc: Global,
    process: &str,
    path: &str,
) -> Option<(OpenFolder, Vec<Blob>)> {
    let Some(folder) = OpenFolder::open(rt, alloc, process, path) else {
        return None;
    };
    match names_at(rt, alloc, folder.through()) {
        Ok(names) => Some((folder, names)),
        Err(_) => None,
    }
}

/// Returns the names in the folder at this path, in the order of the machine. Fails with `Unreadable` if it can't be
/// opened or read.
fn names_at<R: Files>(rt: &R, alloc: Global, path: &str) -> Result<Vec<Blob>, TreeFault> {
    match rt.open_dir(path) {
        Ok(dir) => read_names(alloc, dir),
        Err(_) => Err(TreeFault::Unreadable),
    }
}

/// Opens the folder at this path for listing, and closes it again. Returns whether it could be opened: a link to a
/// folder is not, unless the path ends in `/`.
fn can_list_at<R: Files>(rt: &R, path: &str) -> bool {
    match look_at(rt, path) {
        Some(there) => there.kind == EntryKind::Folder && rt.open_dir(path).is_ok(),
        None => false,
    }
}

/// Returns the metadata of this path, or `None` if they can't be read. Does not follow a link at its end.
pub(crate) fn look_at<R: Files>(rt: &R, path: &str) -> Option<FileMetadata>
    ensures { IfSome result IsOfSome }
{
    match fs::symlink_metadata(rt, path) {
        Ok(metadata) => Some(metadata_from(&metadata)),
        Err(_) => None,
    }
}

/// Opens the file at this place for reading. Fails with `Unreadable`.
pub(crate) fn file_by<R: Files<File = File>>(rt: &R, place: &str) -> Result<File, TreeFault>
    ensures { IfErr result (λ fault. fault ≢ Changed) }
{
    match fs::open(rt, place) {
        Ok(file) => Ok(file),
        Err(_) => Err(TreeFault::Unreadable),
    }
}

/// Returns whether the file was opened by the path that `top` and `path` make together.
#[tactic(auto, using(crate::proofs::Paths::strips_decides, crate::proofs::Paths::begins_with_none))]
pub(crate) fn was_opened_by(file: &Opened, top: &str, path: &str) -> bool
    ensures { result ≡ bytes_eq file.now.path (top.now ++ path.now) }
{
    match file.path.as_str().strip_prefix(top) {
        Some(rest) => rest == path,
        None => false,
    }
}

/// Returns the metadata that an open file has now, or `None` if they can't be read.
pub(crate) fn metadata_now(file: &File) -> Option<FileMetadata>
    ensures { IfSome result IsOfSome }
{
    match file.metadata() {
        Ok(metadata) => Some(metadata_from(&metadata)),
        Err(_) => None,
    }
}

/// Returns the open file with its metadata of this moment and the path by which it was opened. Fails with `Unreadable`
/// if they can't be read.
pub(crate) fn with_metadata(file: File, path: Text) -> Result<Opened, TreeFault>
    ensures path { IfOk result (λ opened. opened.path ≡ path) }
    ensures found { IfOk result (λ opened. IsOfSome opened.metadata) }
    ensures known { IfErr result (λ fault. fault ≢ Changed) }
{
    match metadata_now(&file) {
        Some(metadata) => Ok(Opened {
            file,
            path,
            metadata,
        }),
        None => Err(TreeFault::Unreadable),
    }
}

/// Copies the metadata that a tree needs. The clause holds type and length; the times, the device and the number are
/// only tested.
fn metadata_from(metadata: &Metadata) -> FileMetadata
    ensures { IsMetadataOf metadata.now result }
{
    FileMetadata {
        kind: kind_by(metadata),
        modified: metadata.mtime(),
        modified_nanos: nanos_from(metadata.mtime_nsec()),
        changed: metadata.ctime(),
        changed_nanos: nanos_from(metadata.ctime_nsec()),
        len: metadata.len(),
        device: metadata.dev(),
        inode: metadata.ino(),
    }
}

/// Returns the nanoseconds of a second, which are below 1,000,000,000. A number that is negative or too large becomes
/// one that no machine gives.
fn nanos_from(nanos: i64) -> u32 {
    match u32::try_from(nanos) {
        Ok(nanos) => nanos,
        Err(_) => u32::MAX,
    }
}

/// Returns the type of the entry with these metadata: `Other` for what is no folder, regular file or link.
fn kind_by(metadata: &Metadata) -> EntryKind
    ensures { IsKindOf (file_type metadata.now) result }
{
    if metadata.is_dir() {
        return EntryKind::Folder;
    }
    if metadata.is_file() {
        return EntryKind::File;
    }
    if metadata.is_symlink() {
        return EntryKind::Link;
    }
    EntryKind::Other
}
