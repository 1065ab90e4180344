//! Identifies a file, and prints what it is, or reports why it is not identified.

ghost use Rattle.std.specs.Prelude.{◌≡◌, ◌≤◌, IfOk, IfSome, MatchResult, OnOk};
ghost use Rattle.droid_cmd_identify.specs.FileTexts.{file_text};
ghost use Rattle.droid_cmd_identify.specs.FilesHashed.{StopsHashing};
ghost use Rattle.droid_cmd_identify.specs.Telling.{HasFormats, Hashes, TellsFile, TellsIdentity, TellsRead};
ghost use Rattle.droid_cmd_identify.specs.Telling.{TellsUnread, TellsUnreadFile};

use crate::ends::FileEnds;
use crate::file::{FileOptions, TreeFile, identify_entry};
use crate::file_hash::hash_entry;
use crate::forms::shown_file::{ShownFile, ShownHash};
use crate::forms::shown_format::ShownFormat;
use crate::moment::shown_moment;
use crate::printer::Printer;
use crate::reasons::reason;
use crate::run_fault::RunFault;
use crate::showing::shown_formats;
use crate::texts::{file_text, unread_text};
use droid_arguments::IdentifyForm;
use droid_export::HashText;
use droid_frame::{HashKind, HashValue};
use droid_identity::Identity;
use droid_pronom::Registry;
use droid_tree::{Skipped, Tree, WalkFault};
use std::alloc::Global;

/// How a file is identified and printed.
#[derive(Clone, Copy)]
pub struct Telling {
    /// How it is identified.
    pub options: FileOptions,
    /// Which hash of its bytes is printed.
    pub hash: HashKind,
    /// The form in which it is printed.
    pub form: IdentifyForm,
    /// Whether it is the first one that is printed.
    pub first: bool,
}

/// A file that was identified, as it is printed.
#[derive(Clone, Copy)]
pub struct Told<'a> {
    /// Its path.
    pub shown: &'a str,
    /// The name that its extension is taken from.
    pub name: &'a str,
    /// Its size in bytes.
    pub size: u64,
    /// When its bytes were last changed, in seconds since 1970-01-01T00:00:00 UTC.
    pub modified: i64,
    /// Its hash, if one is printed.
    pub hash: HashValue,
}

/// What came of a file.
#[derive(Clone, Copy)]
pub enum Outcome {
    /// It was identified, and has a format.
    Known,
    /// It was identified, and has none.
    Unknown,
    /// It could not be read, which was reported. `printed` says whether something was printed of it too.
    Unread { printed: bool },
}

/// Reads the ends of a file of a tree, and prints what the file is: of the bytes that were read, and once. A file that
/// can't be read, or is not as it was listed, is reported instead. `ends` has the file's ends afterwards.
pub fn tell_file<T: Tree, P: Printer>(
    alloc: Global,
    tree: &mut T,
    printer: &mut P,
    registry: &Registry,
    telling: Telling,
    file: TreeFile<'_>,
    ends: &mut FileEnds,
) -> Result<Outcome, RunFault>
    requires { telling.options.limit ≤ 65536 }
    ensures { IfOk result (λ outcome. TellsFile T.observes P.prints P.reports registry.now telling file.entry outcome
        tree.old tree.new printer.old printer.new) }
{
    let read = identify_entry(alloc, tree, registry, telling.options, file, ends)?;
    match read {
        Ok(identity) => tell_read(alloc, tree, printer, registry, telling, file, &identity),
        Err(why) => tell_unread_file(alloc, printer, telling, file, why),
    }
}

/// Computes the hash of a file that was identified, if one is printed, and prints what the file is. A file that can't
/// be read to its end for the hash is reported instead.
fn tell_read<T: Tree, P: Printer>(
    alloc: Global,
    tree: &mut T,
    printer: &mut P,
    registry: &Registry,
    telling: Telling,
    file: TreeFile<'_>,
    identity: &Identity,
) -> Result<Outcome, RunFault>
    ensures { IfOk result (λ outcome. TellsRead T.observes P.prints P.reports registry.now telling file.entry
        identity.now outcome tree.old tree.new printer.old printer.new) }
{
    match hash_of(alloc, tree, file, telling.hash)? {
        Ok(hash) => {
            let told = Told {
                shown: file.shown,
                name: file.name,
                size: file.listed.len,
                modified: file.listed.modified,
                hash,
            };
            tell_identity(alloc, printer, registry, telling, told, identity)
        }
        Err(why) => tell_unread_file(alloc, printer, telling, file, why),
    }
}

/// Reads a file to its end and returns its hash. Where none is printed, reads nothing and returns `Nothing`.
fn hash_of<T: Tree>(
    alloc: Global,
    tree: &mut T,
    file: TreeFile<'_>,
    kind: HashKind,
) -> Result<Result<HashValue, Skipped>, WalkFault>
    ensures { IfOk result (λ read. MatchResult read
        (λ value. Hashes T.observes file.entry.path.now file.entry.listed.now kind value tree.old tree.new)
        (λ why. StopsHashing T.observes file.entry.path.now file.entry.listed.now why tree.old tree.new)) }
{
    match kind {
        HashKind::Nothing => Ok(Ok(HashValue::Nothing)),
        HashKind::Md5 | HashKind::Sha256 => hash_entry(alloc, tree, file.path, file.listed, kind),
    }
}

/// Prints what a file or standard input is, and returns whether it has a format: `Known` or `Unknown`. `identity` is
/// what the registry says of its bytes.
pub fn tell_identity<P: Printer>(
    alloc: Global,
    printer: &mut P,
    registry: &Registry,
    telling: Telling,
    told: Told<'_>,
    identity: &Identity,
) -> Result<Outcome, RunFault>
    ensures { IfOk result (λ outcome. TellsIdentity P.prints registry.now telling told.entry.shown.now
        told.entry.name.now told.entry.size told.entry.modified told.entry.hash identity.now outcome printer.old
        printer.new) }
{
    let formats = shown_formats(alloc, registry, told.name, identity)?;
    let modified = shown_moment(alloc, telling.form, told.modified)?;
    let digits = HashText::of(&told.hash);
    let shown = formats.as_slice();
    let outcome = outcome_of(shown);
    let file = ShownFile {
        path: told.shown,
        size: told.size,
        modified: modified.as_str(),
        method: identity.found.method,
        mismatch: identity.found.mismatch,
        text: identity.text,
        hash: shown_hash(telling.hash, &digits),
        formats: shown,
    };
    print_file(alloc, printer, telling, file)?;
    Ok(outcome)
}

/// Returns `Unknown` if the file has no format, and `Known` if it has one or more.
fn outcome_of(formats: &[ShownFormat<'_>]) -> Outcome
    ensures { HasFormats result formats.now }
{
    if formats.is_empty() {
        Outcome::Unknown
    } else {
        Outcome::Known
    }
}

/// Prints what is said of a file, in one text.
fn print_file<P: Printer>(
    alloc: Global,
    printer: &mut P,
    telling: Telling,
    file: ShownFile<'_>,
) -> Result<(), RunFault>
    ensures { OnOk result (P.prints printer.old (file_text telling.form telling.first file.entry) printer.new) }
{
    let text = file_text(alloc, telling.form, telling.first, file)?;
    printer.print(text.as_slice())
}

/// Returns a hash as it is printed. Returns `None` where none is asked for; digits are always UTF-8.
fn shown_hash<'a>(kind: HashKind, digits: &'a HashText) -> Option<ShownHash<'a>>
    ensures { IfSome result (λ hash. (hash.kind ≡ kind) × (hash.digits.now ≡ digits.now)) }
{
    match std::str::from_utf8(digits.as_slice()) {
        Ok(digits) if kind != HashKind::Nothing => Some(ShownHash { kind, digits }),
        _ => None,
    }
}

/// Reports a file that can't be read, or is not as it was listed, and returns `Unread`.
fn tell_unread_file<P: Printer>(
    alloc: Global,
    printer: &mut P,
    telling: Telling,
    file: TreeFile<'_>,
    why: Skipped,
) -> Result<Outcome, RunFault>
    ensures { IfOk result (λ outcome. TellsUnreadFile P.prints P.reports telling file.entry.shown.now why outcome
        printer.old printer.new) }
{
    let path = file.shown.as_bytes();
    let printed = tell_unread(
        alloc,
        printer,
        telling.form,
        telling.first,
        path,
        reason(why),
    )?;
    Ok(Outcome::Unread { printed })
}

/// Reports why something is not identified, and prints that too in the form that has a place for it: the document that
/// is shaped as Siegfried's, which can name no path that is invalid UTF-8. Returns whether something was printed: then
/// the next file is not the first. `first` says whether no file was printed so far.
pub fn tell_unread<P: Printer>(
    alloc: Global,
    printer: &mut P,
    form: IdentifyForm,
    first: bool,
    path: &[u8],
    why: &str,
) -> Result<bool, RunFault>
    ensures { IfOk result (λ printed. TellsUnread P.prints P.reports form first path.now why.now printed printer.old
        printer.new) }
{
    printer.report(path, why)?;
    let Ok(path) = std::str::from_utf8(path) else {
        return Ok(false);
    };
    let text = unread_text(alloc, form, first, path, why)?;
    if text.is_empty() {
        return Ok(false);
    }
    printer.print(text.as_bytes())?;
    Ok(true)
}
