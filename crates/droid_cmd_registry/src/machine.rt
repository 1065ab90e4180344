//! The `Places` of this machine: its files, standard output and standard error. Proved is that no file of more than
//! 67,108,864 bytes is read. What is done to which file has no contract: `tests/program/signatures`
//! (`registry_command.py`), `tests/program/folders/output_calls.py` (each call that fails) and
//! `tests/memory/commands_refused.py` (each allocation) test it. Nothing tests two paths of one file by a link.

ghost use Rattle.std.specs.Prelude.{◌≤◌, length, IfOk};
ghost use Rattle.droid_cmd_registry.specs.Machines.{MayDo};

use crate::registry_places::{Part, Places, Unput, Unread};
use droid_disk::{Output, OutputFault};
use droid_frame::{InputFault, Noted, WriteState, read_to_end, write_all};
use std::alloc::Global;
use std::fs::{File, Files, OpenFile};
use std::io::ErrorKind;
use std::os::unix::fs::MetadataExt;
use std::{fs, io};

/// The most bytes of a signature file. `MayDo` and the clause of `file_bytes` have the same number: the prover refuses
/// a greater one here, and `TOO_LONG` of `registry_command.py` any other. The sentence of `LONG_SIGNATURE_FILE` in
/// `droid_terminal` and the help (`conversion_help.rt` of `droid_arguments`) have it too, which nothing but this line
/// ties.
const BYTES_LIMIT: usize = 67_108_864;

/// The files of this machine, standard output and standard error.
#[derive(Drop)]
pub(crate) struct Machine<'a, R> {
    pub rt: &'a R,
    /// The path of the signature file.
    pub file: &'a str,
    /// The path of the registry. Without one it goes to standard output.
    pub output: Option<&'a str>,
}

// The trait says what each call does. The note has no place where the registry goes to standard output.
impl<R: Files<File = File> + Print + Eprint + AllocGlobal> Places for Machine<'_, R> {
    ghost does = { λ old act new. MayDo act };

    fn read_file(&mut self, alloc: Global) -> Result<Vec<u8>, Unread> {
        file_bytes(self.rt, alloc, self.file)
    }

    fn put(&mut self, part: Part, bytes: &[u8]) -> Result<(), Unput> {
        match (part, self.output) {
            (Part::Registry, None) => put_on_output(self.rt, bytes),
            (Part::Registry, Some(path)) => put_file(self.rt, self.file, path, bytes),
            (Part::Note, None) => Ok(()),
            (Part::Note, Some(path)) => put_beside(self.rt, self.file, path, bytes),
        }
    }

    fn report(&mut self, text: &str) {
        let _ = eprint!(self.rt; "{text}");
    }
}

/// Reads all bytes of the file at this path, or says why not. A folder is refused as one that could not be opened.
fn file_bytes<R: Files<File = File>>(rt: &R, alloc: Global, path: &str) -> Result<Vec<u8>, Unread>
    ensures { IfOk result (λ bytes. length bytes.items ≤ 67108864) }
{
    let file = match open_file(rt, path) {
        Ok(file) => file,
        Err(kind) => return Err(Unread::Unopened(kind)),
    };
    match read_to_end(alloc, &mut Noted::new(file), BYTES_LIMIT) {
        Ok(bytes) => Ok(bytes),
        Err(InputFault::TooLong) => Err(Unread::TooLong),
        Err(InputFault::Memory) => Err(Unread::Memory),
        Err(InputFault::Read) => Err(Unread::Failed),
    }
}

/// Opens a file to read. The error says why it could not be opened, or that it is a folder. If it can't be looked at,
/// it is taken for no folder.
fn open_file<R: Files<File = File>>(rt: &R, path: &str) -> Result<File, ErrorKind> {
    let file = match fs::open(rt, path) {
        Ok(file) => file,
        Err(error) => return Err(error.kind()),
    };
    if let Ok(metadata) = file.metadata()
        && metadata.is_dir()
    {
        return Err(ErrorKind::IsADirectory);
    }
    Ok(file)
}

/// Writes these bytes, a registry, to standard output. What was written before a fault stays there.
fn put_on_output<R: Print>(rt: &R, bytes: &[u8]) -> Result<(), Unput> {
    match write_all(
        &mut Noted::new(io::writer(rt)),
        bytes,
        &mut WriteState::new(),
    ) {
        Ok(()) => Ok(()),
        Err(_) => Err(Unput::Unwritten),
    }
}

/// Writes the note to the file beside the registry at this path: `path`.txt. `file` is the signature file. Fails as
/// [`put_file`], or if memory for that path runs out.
fn put_beside<R: Files<File = File> + AllocGlobal>(
    rt: &R,
    file: &str,
    path: &str,
    bytes: &[u8],
) -> Result<(), Unput> {
    match format!(in rt.alloc(); "{path}.txt") {
        Ok(beside) => put_file(rt, file, beside.as_str(), bytes),
        Err(_) => Err(Unput::Memory),
    }
}

/// Writes these bytes to the file at `path`, which is put in its place once it is complete; until then and after a
/// fault an older file stays. One fault comes later: if the folder can't be synced, that is `Refused`, and the new file
/// stays. It may not be the signature file, whose path `file` is: that is `SameFile`.
///
/// `begin` creates the file before the first write: a registry without formats has no bytes, so nothing else would. No
/// test has such a one in a file.
fn put_file<R: Files<File = File> + AllocGlobal>(
    rt: &R,
    file: &str,
    path: &str,
    bytes: &[u8],
) -> Result<(), Unput> {
    if is_same_file(rt, file, path) {
        return Err(Unput::SameFile);
    }
    let mut output = match Output::create(rt.alloc(), rt, path) {
        Ok(output) => output,
        Err(fault) => return Err(unput(fault)),
    };
    if let Err(fault) = output.begin() {
        return Err(unput(fault));
    }
    if write_all(&mut output, bytes, &mut WriteState::new()).is_err() {
        output.give_up();
        return Err(Unput::Unwritten);
    }
    match output.complete() {
        Ok(()) => Ok(()),
        Err(fault) => Err(unput(fault)),
    }
}

/// Turns a fault of an output file into the reason why a part was not put.
fn unput(fault: OutputFault) -> Unput {
    match fault {
        OutputFault::Memory => Unput::Memory,
        OutputFault::Refused => Unput::Refused,
    }
}

/// Returns whether two paths lead to the same file, links followed: not so if one leads to none or can't be looked at.
fn is_same_file<R: Files>(rt: &R, first: &str, second: &str) -> bool {
    match (identity_of(rt, first), identity_of(rt, second)) {
        (Some(one), Some(other)) => one == other,
        _ => false,
    }
}

/// Returns the device of a file and its number there: `None` if nothing is at the path or it can't be looked at.
fn identity_of<R: Files>(rt: &R, path: &str) -> Option<(u64, u64)> {
    match fs::metadata(rt, path) {
        Ok(found) => Some((found.dev(), found.ino())),
        Err(_) => None,
    }
}
