//! The files of this machine: what is identified, in which order, and what is printed of it.
//!
//! Clauses hold that something is printed or reported of all that is named, and of each entry of a folder. Which path
//! is opened, the order of the folders, and the flags (`first`, `unread`, `unidentified`) are held by
//! `tests/program/identify`: `names.py`, `changing.py` and `sf_shape.py`. After an error nothing is promised: the
//! command ends.

ghost use Rattle.std.specs.Prelude.{◌≡◌, ◌≤◌, OnOk, true};
ghost use Rattle.droid_tree.specs.Observation.{GoesOver};
ghost use Rattle.droid_cmd_identify.specs.Telling.{Says, SaysOf, SaysOfEntry};

use crate::ends::FileEnds;
use crate::file::{FileOptions, TreeFile};
use crate::forms::sf_document::SfHead;
use crate::name_reader::NameReader;
use crate::named::Taker;
use crate::printer::Printer;
use crate::reasons::{EMPTY_NAME, FOLDER, MISSING, NO_INPUT, NO_LIST, TOO_LONG, reason};
use crate::run_fault::RunFault;
use crate::stream_identity::{StreamIdentity, identify_stream};
use crate::telling::{Outcome, Telling, Told, tell_file, tell_identity, tell_unread};
use crate::texts::{head_text, tail_text};
use crate::why_text::why_text;
use droid_arguments::IdentifyOptions;
use droid_disk::{Disk, FileMetadata, Folder, StayingSystem};
use droid_frame::{Blob, InputFault, Noted, Retries, RunningHash, SteadyRead, Text};
use droid_pronom::Registry;
use droid_terminal::name_of;
use droid_tree::{
    EntryKind, FolderEntry, Listing, Skipped, name_of as entry_name, path_below, read_folder,
};
use std::alloc::{AllocError, Global};
use std::collections::VecDeque;
use std::env::Env;
use std::fs::{File, Files};
use std::time::{Clock, SystemTime, UNIX_EPOCH};
use std::{fs, io};

/// The most bytes that a path may have. The reason `TOO_LONG` has this number, and `KEPT` of `name_reader.rt` is one
/// more: no clause ties them, and `test_names_of_4095_bytes` of `tests/program/identify/names.py` holds this one.
const PATH_LIMIT: usize = 4_095;

/// How many bytes at each end of a file are searched at most. `identify_entry` requires no more, and so does `doubt_of`
/// of `droid_identity`, for which `window` of `why_text.rt` has this number too.
const MOST_SCANNED: u32 = 65_536;

/// A folder whose files are identified.
#[derive(Drop)]
struct Place {
    /// Its path.
    real: Text,
    /// Its path as it is printed, if that is another one: where a link was named.
    shown: Option<Text>,
}

impl Place {
    /// Returns its path as it is printed.
    fn shown(&self) -> &str {
        match &self.shown {
            Some(shown) => shown.as_str(),
            None => self.real.as_str(),
        }
    }

    /// Returns the place of the folder of this name in this one.
    fn below(&self, alloc: Global, name: &str) -> Result<Place, AllocError> {
        let shown = match &self.shown {
            Some(shown) => Some(path_below(alloc, shown.as_str(), name)?),
            None => None,
        };
        Ok(Place {
            real: path_below(alloc, self.real.as_str(), name)?,
            shown,
        })
    }
}

/// The files of this machine, and what was printed of them so far. `P` is where it is printed.
#[derive(Drop)]
pub(crate) struct Machine<'a, R: Files<File = File> + Env, P: Printer + Drop> {
    rt: &'a R,
    registry: &'a Registry,
    options: IdentifyOptions<'a>,
    /// The place of the format of which is said why a file does not have it.
    why: Option<u32>,
    tree: Folder<StayingSystem<'a, R>>,
    ends: FileEnds,
    pub(crate) output: P,
    /// Whether no file was printed so far.
    first: bool,
    /// Whether something could not be read.
    pub(crate) unread: bool,
    /// Whether a file has no format.
    pub(crate) unidentified: bool,
}

impl<'a, R, P> Machine<'a, R, P>
where
    R: Files<File = File> + Env + Clock + Input + AllocGlobal,
    P: Printer + Drop,
{
    /// Returns a machine that has looked at nothing. `why` is the place of the format that `--why` asks about.
    pub(crate) fn new(
        rt: &'a R,
        registry: &'a Registry,
        options: IdentifyOptions<'a>,
        why: Option<u32>,
        output: P,
    ) -> Result<Machine<'a, R, P>, AllocError> {
        let alloc = rt.alloc();
        Ok(Machine {
            rt,
            registry,
            options,
            why,
            tree: Folder::new(alloc, StayingSystem::new(rt), "")?,
            ends: FileEnds::new(alloc),
            output,
            first: true,
            unread: false,
            unidentified: false,
        })
    }

    /// Prints what stands before the first file.
    pub(crate) fn begin(&mut self, head: SfHead<'_>) -> Result<(), RunFault> {
        let text = head_text(self.rt.alloc(), self.options.form, head)?;
        self.output.print(text.as_slice())
    }

    /// Prints what stands after the last file.
    pub(crate) fn end(&mut self) -> Result<(), RunFault> {
        self.output.print(tail_text(self.options.form).as_bytes())
    }

    /// Identifies what a word of the command line names, and writes what is kept: so each word is answered at once.
    pub(crate) fn identify_named(&mut self, path: &str) -> Result<(), RunFault>
        ensures { OnOk result (SaysOf P.prints P.reports P.writes self.old.options.recursive self.old.output
            self.new.output) }
    {
        self.identify_what(path)?;
        self.output.flush()?;
        Ok(())
    }

    /// Identifies standard input, which is named `-`, or what is at a path, where a link is followed.
    fn identify_what(&mut self, path: &str) -> Result<(), RunFault>
        ensures { OnOk result (SaysOf P.prints P.reports P.writes self.old.options.recursive self.old.output
            self.new.output) }
    {
        if path == "-" {
            self.identify_input()?;
            return Ok(());
        }
        self.identify_path(path, true)?;
        Ok(())
    }

    /// Identifies the files whose names a list has: the file of this path, or standard input, which is named `-`. A
    /// list that can't be opened is reported.
    pub(crate) fn identify_list(&mut self, list: &str) -> Result<(), RunFault> {
        if list == "-" {
            let mut input = Noted::new(self.rt.reader());
            return self.identify_names(list, &mut input);
        }
        match fs::open(self.rt, list) {
            Ok(file) => self.identify_names(list, &mut Noted::new(file)),
            Err(_) => self.note_unread(list.as_bytes(), NO_LIST),
        }
    }

    /// Identifies the files whose names a reader returns, and writes what is kept behind each of them, since the reader
    /// may wait for the answer. Where the list can't be read on, that is reported under its name, `list`.
    fn identify_names<S: SteadyRead>(
        &mut self,
        list: &str,
        reader: &mut S,
    ) -> Result<(), RunFault> {
        let end = if self.options.zero { 0 } else { b'\n' };
        let mut names = NameReader::new(end);
        let mut retries = Retries::new();
        let mut name = Vec::new(self.rt.alloc());
        for _ in 0..u64::MAX {
            match names.next_name(reader, &mut retries, &mut name) {
                Ok(true) => {
                    self.identify_listed(name.as_slice())?;
                    self.output.flush()?;
                }
                Ok(false) => return Ok(()),
                Err(InputFault::Memory) => return Err(RunFault::Memory),
                Err(InputFault::Read) | Err(InputFault::TooLong) => {
                    return self.note_unread(list.as_bytes(), NO_LIST);
                }
            }
        }
        Ok(())
    }

    /// Identifies the file that a list names by these bytes. Reports a name that is too long or is no UTF-8.
    fn identify_listed(&mut self, name: &[u8]) -> Result<(), RunFault>
        ensures { OnOk result (SaysOf P.prints P.reports P.writes self.old.options.recursive self.old.output
            self.new.output) }
    {
        if name.len() > PATH_LIMIT {
            return self.note_unread(name, TOO_LONG);
        }
        match std::str::from_utf8(name) {
            Ok(path) => self.identify_path(path, false),
            Err(_) => self.note_unread(name, reason(Skipped::Name)),
        }
    }

    /// Identifies what is at a path. A link is followed if `follows`: so it is on the command line, and not in a list.
    /// Reports an empty path, one that is too long, and one where nothing can be looked at.
    pub(crate) fn identify_path(&mut self, path: &str, follows: bool) -> Result<(), RunFault>
        ensures { OnOk result (SaysOf P.prints P.reports P.writes self.old.options.recursive self.old.output
            self.new.output) }
    {
        if path.is_empty() {
            return self.note_unread(path.as_bytes(), EMPTY_NAME);
        }
        if path.len() > PATH_LIMIT {
            return self.note_unread(path.as_bytes(), TOO_LONG);
        }
        match self.tree.disk.look(path) {
            // A path that ends in a slash leads through a link.
            Some(found) if follows && (found.kind == EntryKind::Link || path.ends_with('/')) => {
                self.identify_target(path)
            }
            Some(found) => self.identify_at(path, path, found),
            None => self.note_unread(path.as_bytes(), MISSING),
        }
    }

    /// Identifies what a path leads to where all its links are followed, and prints it as one of the path that was
    /// named. Reports a path that leads nowhere.
    fn identify_target(&mut self, path: &str) -> Result<(), RunFault>
        ensures { OnOk result (SaysOf P.prints P.reports P.writes self.old.options.recursive self.old.output
            self.new.output) }
    {
        let real = match fs::canonicalize(self.rt, path) {
            Ok(real) => real.into_string(),
            Err(error) if error.kind() == io::ErrorKind::OutOfMemory => {
                return Err(RunFault::Memory);
            }
            Err(_) => return self.note_unread(path.as_bytes(), MISSING),
        };
        match self.tree.disk.look(real.as_str()) {
            Some(found) => self.identify_at(real.as_str(), path, found),
            None => self.note_unread(path.as_bytes(), MISSING),
        }
    }

    /// Identifies what was found at the path `real`, and prints it as one of the path `shown`. Reports what is no file,
    /// and a folder whose files are not asked for.
    fn identify_at(&mut self, real: &str, shown: &str, found: FileMetadata) -> Result<(), RunFault>
        ensures { OnOk result (SaysOf P.prints P.reports P.writes self.old.options.recursive self.old.output
            self.new.output) }
    {
        match found.kind {
            EntryKind::File => {
                let entry = listed(self.rt.alloc(), found)?;
                self.identify_one(real, shown, name_of(shown), &entry)?;
                Ok(())
            }
            EntryKind::Folder if self.options.recursive => {
                self.identify_folder(real, shown)?;
                Ok(())
            }
            EntryKind::Folder => self.note_unread(shown.as_bytes(), FOLDER),
            EntryKind::Link => self.note_unread(shown.as_bytes(), reason(Skipped::Link)),
            EntryKind::Other => self.note_unread(shown.as_bytes(), reason(Skipped::Kind)),
            EntryKind::TooLong => self.note_unread(shown.as_bytes(), TOO_LONG),
        }
    }

    /// Identifies all files in a folder, folder by folder, those nearest to the top first, and in each by the bytes of
    /// their names. Writes what is kept behind each folder. At the end goes back to the folder that the program was
    /// started in, from which relative paths go.
    fn identify_folder(&mut self, real: &str, shown: &str) -> Result<(), RunFault> {
        let alloc = self.rt.alloc();
        let mut pending = VecDeque::new(alloc);
        add_place(&mut pending, top_place(alloc, real, shown)?)?;
        for _ in 0..u64::MAX {
            let Some(folder) = pending.pop_front() else {
                self.tree.disk.go_home();
                return Ok(());
            };
            self.identify_entries(&folder, &mut pending)?;
            self.output.flush()?;
        }
        Err(RunFault::Memory)
    }

    /// Identifies the files of a folder, and appends its folders to `pending`. Reports a folder that can't be listed,
    /// and each entry that has the name of one that was listed too.
    fn identify_entries(
        &mut self,
        folder: &Place,
        pending: &mut VecDeque<Place>,
    ) -> Result<(), RunFault> {
        match read_folder(self.rt.alloc(), &mut self.tree, folder.real.as_str())? {
            Ok(Listing { entries, repeated }) => {
                for entry in &repeated {
                    self.note_unread_entry(folder, &entry.name, reason(Skipped::SameName))?;
                }
                self.identify_each_of(folder, entries.as_slice(), pending)
            }
            Err(why) => self.note_unread(folder.shown().as_bytes(), reason(why)),
        }
    }

    /// Identifies each of these entries of a folder, once and in order, and appends its folders to `pending`.
    fn identify_each_of(
        &mut self,
        folder: &Place,
        entries: &[FolderEntry],
        pending: &mut VecDeque<Place>,
    ) -> Result<(), RunFault>
        // Of each entry that is no folder something is said.
        ensures { OnOk result (GoesOver (λ old entry new. SaysOfEntry P.prints P.reports P.writes entry.kind old new)
            self.old.output entries.now self.new.output) }
    {
        for entry in entries {
            self.identify_entry_of(folder, entry, pending)?;
        }
        Ok(())
    }

    /// Identifies an entry of a folder, or appends it to `pending` if it is a folder. Reports what is no file; a link
    /// is reported too, and does not count as unread, since no link in a folder is followed.
    fn identify_entry_of(
        &mut self,
        folder: &Place,
        entry: &FolderEntry,
        pending: &mut VecDeque<Place>,
    ) -> Result<(), RunFault>
        ensures { OnOk result (SaysOfEntry P.prints P.reports P.writes entry.now.kind self.old.output self.new.output) }
    {
        let alloc = self.rt.alloc();
        let Some(name) = entry_name(entry) else {
            return self.note_unread_entry(folder, &entry.name, reason(Skipped::Name));
        };
        match entry.kind {
            EntryKind::File => {
                let place = folder.below(alloc, name)?;
                self.identify_one(place.real.as_str(), place.shown(), name, entry)
            }
            EntryKind::Folder => {
                add_place(pending, folder.below(alloc, name)?)?;
                Ok(())
            }
            EntryKind::Link => self.report_entry(folder, &entry.name, reason(Skipped::Link)),
            EntryKind::Other => self.note_unread_entry(folder, &entry.name, reason(Skipped::Kind)),
            EntryKind::TooLong => self.note_unread_entry(folder, &entry.name, TOO_LONG),
        }
    }

    /// Identifies the file at the path `real`, and prints it as one of the path `shown`. `name` is what its extension
    /// is taken from.
    fn identify_one(
        &mut self,
        real: &str,
        shown: &str,
        name: &str,
        entry: &FolderEntry,
    ) -> Result<(), RunFault>
        ensures { OnOk result (Says P.prints P.reports P.writes self.old.output true self.new.output) }
    {
        let file = TreeFile {
            name,
            path: real,
            shown,
            listed: entry,
        };
        let telling = self.telling();
        let outcome = tell_file(
            self.rt.alloc(),
            &mut self.tree,
            &mut self.output,
            self.registry,
            telling,
            file,
            &mut self.ends,
        )?;
        self.note(shown, outcome)?;
        Ok(())
    }

    /// Returns how the next file is identified and printed, by the options of the command. The clause holds the limit
    /// alone; `forms.py` and `sf_shape.py` of `tests/program/identify` hold the others.
    fn telling(&self) -> Telling
        ensures { result.options.limit ≤ 65536 }
    {
        Telling {
            options: FileOptions {
                limit: self.options.limit.min(MOST_SCANNED),
                match_all: self.options.match_all,
            },
            hash: self.options.hash,
            form: self.options.form,
            first: self.first,
        }
    }

    /// Notes what came of a file, for the exit status and the comma before the next file. Of one that was read, prints
    /// why it does not have the format that `--why` asks about, or what shows it.
    fn note(&mut self, shown: &str, outcome: Outcome) -> Result<(), RunFault>
        ensures { OnOk result ((before : P) → Says P.prints P.reports P.writes before true self.old.output
            → Says P.prints P.reports P.writes before true self.new.output) }
    {
        match outcome {
            Outcome::Known => {}
            Outcome::Unknown => self.unidentified = true,
            Outcome::Unread { printed } => {
                self.unread = true;
                self.first = self.first && !printed;
                return Ok(());
            }
        }
        self.first = false;
        match self.why {
            Some(place) => {
                self.show_why(shown, place)?;
                Ok(())
            }
            None => Ok(()),
        }
    }

    /// Identifies the bytes of standard input, and prints them as a file of the name that `--name` gives, or `-`,
    /// changed at this moment. At least one byte of each end is searched.
    fn identify_input(&mut self) -> Result<(), RunFault>
        ensures { OnOk result (Says P.prints P.reports P.writes self.old.output true self.new.output) }
    {
        let alloc = self.rt.alloc();
        let shown = self.options.name.unwrap_or("-");
        let name = name_of(self.options.name.unwrap_or(""));
        let telling = self.telling();
        let options = FileOptions {
            limit: telling.options.limit.max(1),
            match_all: telling.options.match_all,
        };
        let mut running = RunningHash::of(self.options.hash);
        let mut input = Noted::new(self.rt.reader());
        let read = identify_stream(
            alloc,
            self.registry,
            options,
            name,
            &mut input,
            &mut running,
            &mut self.ends,
        );
        let StreamIdentity { size, identity } = match read {
            Ok(said) => said,
            Err(InputFault::Memory) => return Err(RunFault::Memory),
            Err(InputFault::Read) | Err(InputFault::TooLong) => {
                return self.note_unread(shown.as_bytes(), NO_INPUT);
            }
        };
        let told = Told {
            shown,
            name,
            size,
            modified: seconds_now(self.rt),
            hash: running.finish(),
        };
        let outcome = tell_identity(
            alloc,
            &mut self.output,
            self.registry,
            telling,
            told,
            &identity,
        )?;
        self.note(shown, outcome)?;
        Ok(())
    }

    /// Prints why the file that was read last, which is printed under the path `shown`, does not have the format at
    /// this place of the registry, or what shows it.
    fn show_why(&mut self, shown: &str, place: u32) -> Result<(), RunFault>
        ensures { OnOk result ((before : P) → Says P.prints P.reports P.writes before true self.old.output
            → Says P.prints P.reports P.writes before true self.new.output) }
    {
        let text = why_text(self.rt.alloc(), self.registry, &self.ends, shown, place)?;
        self.output.print(text.as_bytes())?;
        Ok(())
    }

    /// Reports why what is at a path could not be identified, and notes it for the exit status.
    pub(crate) fn note_unread(&mut self, path: &[u8], why: &str) -> Result<(), RunFault>
        ensures { OnOk result (Says P.prints P.reports P.writes self.old.output true self.new.output) }
    {
        let alloc = self.rt.alloc();
        let (form, first) = (self.options.form, self.first);
        let printed = tell_unread(alloc, &mut self.output, form, first, path, why)?;
        self.unread = true;
        self.first = first && !printed;
        Ok(())
    }

    /// Reports why the entry of this name of a folder could not be identified, and notes it for the exit status.
    fn note_unread_entry(&mut self, folder: &Place, name: &Blob, why: &str) -> Result<(), RunFault>
        ensures { OnOk result (Says P.prints P.reports P.writes self.old.output true self.new.output) }
    {
        let path = bytes_below(self.rt.alloc(), folder.shown(), name)?;
        self.note_unread(path.as_slice(), why)
    }

    /// Reports why the entry of this name of a folder is not identified, and notes nothing: the exit status is that of
    /// the others.
    fn report_entry(&mut self, folder: &Place, name: &Blob, why: &str) -> Result<(), RunFault>
        ensures { OnOk result (Says P.prints P.reports P.writes self.old.output true self.new.output) }
    {
        let path = bytes_below(self.rt.alloc(), folder.shown(), name)?;
        self.output.report(path.as_slice(), why)?;
        Ok(())
    }
}

impl<R, P> Taker for Machine<'_, R, P>
where
    R: Files<File = File> + Env + Clock + Input + AllocGlobal,
    P: Printer + Drop,
{
    // Something is said of what is named, unless it is a folder whose files are asked for.
    ghost takes = { λ old name new. SaysOf P.prints P.reports P.writes old.options.recursive old.output new.output };

    /// Takes a word of the command line.
    fn take(&mut self, name: &str) -> Result<(), RunFault> {
        self.identify_named(name)
    }
}

/// Returns the place of the folder at the path `real`, which is printed as one of the path `shown`. Slashes at the ends
/// are dropped, since each path below gets its own.
fn top_place(alloc: Global, real: &str, shown: &str) -> Result<Place, AllocError> {
    let other = if real == shown {
        None
    } else {
        Some(Text::copy_of(alloc, shown.trim_end_matches('/'))?)
    };
    Ok(Place {
        real: Text::copy_of(alloc, real.trim_end_matches('/'))?,
        shown: other,
    })
}

/// Appends a folder to those whose files are still to be identified, behind the others.
fn add_place(pending: &mut VecDeque<Place>, place: Place) -> Result<(), AllocError> {
    pending.push_back(place)?;
    Ok(())
}

/// Returns the entry that a folder would list for a file that was found by its path. Its name is empty: nobody reads
/// it.
fn listed(alloc: Global, found: FileMetadata) -> Result<FolderEntry, AllocError> {
    Ok(FolderEntry {
        name: Blob::copy_of(alloc, &[])?,
        kind: found.kind,
        modified: found.modified,
        modified_nanos: found.modified_nanos,
        changed: found.changed,
        changed_nanos: found.changed_nanos,
        len: found.len,
        device: found.device,
        inode: found.inode,
    })
}

/// Returns the bytes of the path of an entry in a folder. The name may be no UTF-8.
fn bytes_below(alloc: Global, folder: &str, name: &Blob) -> Result<Vec<u8>, AllocError> {
    let mut path = Vec::new(alloc);
    path.extend_from_slice(folder.as_bytes())?;
    path.push(b'/')?;
    path.extend_from_slice(name.as_slice())?;
    Ok(path)
}

/// Returns what the clock shows, in seconds since 1970-01-01T00:00:00 UTC. Returns 0 if it shows nothing or a moment
/// before that.
pub(crate) fn seconds_now<R: Clock>(rt: &R) -> i64 {
    let Ok(now) = SystemTime::now(rt) else {
        return 0;
    };
    match now.duration_since(UNIX_EPOCH) {
        Ok(since) => i64::try_from(since.as_secs()).unwrap_or(i64::MAX),
        Err(_) => 0,
    }
}
