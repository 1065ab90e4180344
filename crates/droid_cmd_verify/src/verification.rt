//! The comparison of any tree with a list, and its report to any writer: what is proved of the command.

ghost use Rattle.std.specs.Prelude.{◌≡◌, ◌≤◌, ℕ};
ghost use Rattle.droid_frame.specs.Seen.{Counts};
ghost use Rattle.droid_cmd_verify.specs.Outcomes.{ReportsUnwritten};
ghost use Rattle.droid_cmd_verify.specs.Verifications.{Finishes, ListsTree, ReadsTree, VerifiesAs, VerifiesListing};
ghost use Rattle.droid_cmd_verify.specs.Verifications.{VerifiesTree, without_report};

use crate::item_keeper::ItemKeeper;
use crate::listing_check::check_listing;
use crate::lists::ComparedList;
use crate::measure::{Measure, by_moments};
use crate::noted_files::NotedFiles;
use crate::outcome::{outcome_of, write_outcome};
use crate::summary::Summary;
use crate::tree_check::{Checked, check_tree};
use crate::verify_ending::VerifyEnding;
use crate::verify_walk::walk_options;
use droid_arguments::VerifyOptions;
use droid_export::FormatRow;
use droid_frame::SteadyWrite;
use droid_lists::FileFormats;
use droid_profile::{Options, Profiler};
use droid_pronom::Registry;
use droid_terminal::{Recorder, SkippedEntry};
use droid_tree::{Tree, Watcher};
use std::alloc::Global;

/// Removes the line of progress, before something else is printed.
pub trait ClearLine {
    /// Removes it. Without a contract, as all that is printed to standard error; so no clause holds that it is called.
    fn clear_line(&self);
}

/// How a comparison ended.
#[derive(Drop)]
pub struct Verified {
    /// The ending.
    pub ending: VerifyEnding,
    /// The summary, if there is a report.
    pub summary: Option<Summary>,
}

/// Compares a tree with a list as the options and the list say, and writes what differs: by the hashes or sizes of its
/// files, or by their sizes and moments, without reading one.
pub fn verify_as<T: Tree + Drop, W: Watcher + ClearLine + Drop, O: SteadyWrite>(
    alloc: Global,
    tree: T,
    watcher: W,
    output: &mut O,
    registry: &Registry,
    options: VerifyOptions<'_>,
    lists: ComparedList,
) -> Verified
    // The tree is listed if moments are compared, and otherwise read; it is searched as the options say.
    ensures verified { VerifiesAs T.observes W.hears O.contents registry.now options.entry lists tree watcher output.old
        output.new result }
    ensures stopped { (start : ℕ) → Counts start (O.seen output.old) 0
        → ReportsUnwritten start (O.seen output.new) (O.room output.new) result.ending }
{
    let walk = walk_options(lists.rows.is_some(), options.limit, options.match_all);
    if by_moments(lists.how) {
        list_files(alloc, tree, watcher, output, registry, walk, lists)
    } else {
        read_files(alloc, tree, watcher, output, registry, walk, lists)
    }
}

/// Makes what a walk that reads files needs, and compares the tree by their hashes or sizes. The recipient is only to
/// be there: `check_tree` puts its own in its place.
fn read_files<T: Tree + Drop, W: Watcher + ClearLine + Drop, O: SteadyWrite>(
    alloc: Global,
    tree: T,
    watcher: W,
    output: &mut O,
    registry: &Registry,
    options: Options,
    lists: ComparedList,
) -> Verified
    requires { options.scan_limit ≤ 65536 }
    ensures verified { ReadsTree T.observes W.hears O.contents registry.now options lists tree watcher output.old
        output.new result }
    ensures stopped { (start : ℕ) → Counts start (O.seen output.old) 0
        → ReportsUnwritten start (O.seen output.new) (O.room output.new) result.ending }
{
    let watcher = Recorder::new(alloc, watcher);
    let recipient = ItemKeeper::new(alloc, false, false);
    let mut profiler = Profiler {
        alloc,
        tree,
        watcher,
        recipient,
    };
    verify_tree(&mut profiler, output, registry, options, lists)
}

/// Makes what a walk that only lists files needs, and compares the tree by their sizes and moments. The recipient is
/// only to be there: `check_listing` puts its own in its place.
fn list_files<T: Tree + Drop, W: Watcher + ClearLine + Drop, O: SteadyWrite>(
    alloc: Global,
    tree: T,
    watcher: W,
    output: &mut O,
    registry: &Registry,
    options: Options,
    lists: ComparedList,
) -> Verified
    requires { options.scan_limit ≤ 65536 }
    ensures verified { ListsTree T.observes W.hears O.contents registry.now options lists tree watcher output.old
        output.new result }
    ensures stopped { (start : ℕ) → Counts start (O.seen output.old) 0
        → ReportsUnwritten start (O.seen output.new) (O.room output.new) result.ending }
{
    let files = Vec::new(alloc);
    let tree = NotedFiles { tree, files };
    let watcher = Recorder::new(alloc, watcher);
    let recipient = ItemKeeper::new(alloc, false, false);
    let mut profiler = Profiler {
        alloc,
        tree,
        watcher,
        recipient,
    };
    verify_listing(&mut profiler, output, registry, options, lists)
}

/// Reads a tree, compares it with a list, and writes what differs. Formats are compared if the list has rows for that.
/// The line of progress is removed after the walk, before anything is written.
pub fn verify_tree<T: Tree, W: Watcher + ClearLine, O: SteadyWrite>(
    profiler: &mut Profiler<T, Recorder<W>, ItemKeeper>,
    output: &mut O,
    registry: &Registry,
    options: Options,
    lists: ComparedList,
) -> Verified
    requires { options.scan_limit ≤ 65536 }
    // The report has exactly what differs between the list and the tree as it was read, and was written, or its writer
    // stopped; or there is no report, and the ending says why.
    ensures verified { VerifiesTree T.observes W.hears O.contents registry.now options lists profiler.old profiler.new
        output.old output.new result }
    ensures stopped { (start : ℕ) → Counts start (O.seen output.old) 0
        → ReportsUnwritten start (O.seen output.new) (O.room output.new) result.ending }
{
    let alloc = profiler.alloc;
    let ComparedList { listed, rows, how } = lists;
    match check_tree(profiler, registry, options, listed, rows.is_some()) {
        Ok(checked) => {
            profiler.watcher.watcher.clear_line();
            let formats = profiler.recipient.formats.as_slice();
            let unreadable = profiler.watcher.skipped.as_slice();
            finish(alloc, output, how, &rows, formats, &checked, unreadable)
        }
        Err(fault) => {
            profiler.watcher.watcher.clear_line();
            without_report(VerifyEnding::unchecked(fault))
        }
    }
}

/// Lists a tree, compares the sizes and moments of its files with a list, and writes what differs, as `verify_tree`.
pub fn verify_listing<T: Tree, W: Watcher + ClearLine, O: SteadyWrite>(
    profiler: &mut Profiler<NotedFiles<T>, Recorder<W>, ItemKeeper>,
    output: &mut O,
    registry: &Registry,
    options: Options,
    lists: ComparedList,
) -> Verified
    requires { options.scan_limit ≤ 65536 }
    // The same of the tree as it was listed. No formats are compared.
    ensures verified { VerifiesListing T.observes W.hears O.contents registry.now options lists profiler.old
        profiler.new output.old output.new result }
    ensures stopped { (start : ℕ) → Counts start (O.seen output.old) 0
        → ReportsUnwritten start (O.seen output.new) (O.room output.new) result.ending }
{
    let alloc = profiler.alloc;
    let ComparedList { listed, how, .. } = lists;
    match check_listing(profiler, registry, options, listed) {
        Ok(checked) => {
            profiler.watcher.watcher.clear_line();
            let none: Option<Vec<FormatRow>> = None;
            let formats = profiler.recipient.formats.as_slice();
            let unreadable = profiler.watcher.skipped.as_slice();
            finish(alloc, output, how, &none, formats, &checked, unreadable)
        }
        Err(fault) => {
            profiler.watcher.watcher.clear_line();
            without_report(VerifyEnding::unchecked(fault))
        }
    }
}

/// Makes the report of a comparison, and writes it: of the formats too, if the list has `rows`. `formats` are those
/// that were found. If there is no memory for the report, nothing is written.
fn finish<O: SteadyWrite>(
    alloc: Global,
    output: &mut O,
    how: Measure,
    rows: &Option<Vec<FormatRow>>,
    formats: &[FileFormats],
    checked: &Checked,
    unreadable: &[SkippedEntry],
) -> Verified
    ensures finished { Finishes O.contents how rows.now formats.now checked.now unreadable.now output.old output.new
        result }
    ensures stopped { (start : ℕ) → Counts start (O.seen output.old) 0
        → ReportsUnwritten start (O.seen output.new) (O.room output.new) result.ending }
{
    match outcome_of(alloc, how, rows, formats, checked, unreadable) {
        Ok(outcome) => {
            let ending = write_outcome(output, &outcome);
            Verified {
                ending,
                summary: Some(outcome.summary),
            }
        }
        Err(_) => without_report(VerifyEnding::NoMemory),
    }
}

/// Returns what the command ends with where there is no report: this ending, and no summary.
fn without_report(ending: VerifyEnding) -> Verified
    ensures { result ≡ without_report ending }
{
    Verified {
        ending,
        summary: None,
    }
}
