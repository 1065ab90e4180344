//! Compares a tree with a list by the sizes and moments of its files, which are listed and not read. The comparison by
//! their bytes is in `tree_check.rt`.

ghost use Rattle.std.specs.Prelude.{◌≡◌, ◌≤◌, ◌++◌, IfErr, IfOk};
ghost use Rattle.droid_cmd_verify.specs.CheckedTrees.{Compares, IsAfterWalk, options_for};
ghost use Rattle.droid_cmd_verify.specs.ListedTrees.{ChecksListing, EndsListing};
ghost use Rattle.droid_lists.specs.ListForms.{names_files_alone};
ghost use Rattle.droid_frame.specs.declared.hash_kind.HashKind.TheVariants.{Nothing};

use crate::item_keeper::ItemKeeper;
use crate::noted_files::NotedFiles;
use crate::tree_check::{CheckFault, Checked, compare_found, fault_of, options_for, take_items};
use droid_fixity::Inventory;
use droid_frame::{HashKind, Item};
use droid_lists::Listed;
use droid_profile::{Options, Profiler, profile};
use droid_pronom::Registry;
use droid_terminal::Recorder;
use droid_tree::{Tree, Watcher};
use std::alloc::{AllocError, Global};

/// Lists a tree as its profile is made, without reading a file, and compares what is known of its files then with a
/// list. Afterwards the recorder has what is unreadable: all that was skipped, symbolic links and repeated names aside.
/// Whatever recipient the profiler has is replaced. Fails as `check_tree` does.
pub fn check_listing<T: Tree, W: Watcher>(
    profiler: &mut Profiler<NotedFiles<T>, Recorder<W>, ItemKeeper>,
    registry: &Registry,
    options: Options,
    listed: Listed,
) -> Result<Checked, CheckFault>
    requires { options.scan_limit ≤ 65536 }
    // The report has exactly the differences between the list and the tree as it was listed. No file has a hash.
    ensures checked { IfOk result (λ checked.
        ChecksListing T.observes W.hears registry.now (options_for options Nothing) (names_files_alone listed.form)
        listed.items checked profiler.old profiler.new) }
    // The walk ended as that of a profile does; or it did not, and there was a path twice, or memory ran out.
    ensures ended { IfErr result (λ fault.
        EndsListing T.observes W.hears registry.now (options_for options Nothing) (names_files_alone listed.form) fault
        profiler.old profiler.new) }
{
    let alloc = profiler.alloc;
    let files_only = listed.form.names_files_alone();
    let keeper = ItemKeeper::new(alloc, files_only, false);
    profiler.recipient = keeper;
    let options = options_for(options, HashKind::Nothing);
    match profile(profiler, registry, options) {
        Ok(_) => {
            let folders = take_items(alloc, &mut profiler.recipient.items);
            let files = take_items(alloc, &mut profiler.tree.files);
            match compare_listed(alloc, &mut profiler.watcher, listed.items, files, folders) {
                Ok(checked) => Ok(checked),
                Err(fault) => Err(fault),
            }
        }
        Err(fault) => Err(fault_of(fault)),
    }
}

/// Compares the items of a list with the files that were noted and the folders that the walk found. The recorder then
/// keeps what is unreadable. Fails with `Memory`, or with `Twice` if a path was found twice.
fn compare_listed<W>(
    alloc: Global,
    recorder: &mut Recorder<W>,
    listed: Inventory,
    files: Vec<Item>,
    folders: Vec<Item>,
) -> Result<Checked, CheckFault>
    ensures compared { IfOk result (λ checked.
        Compares listed (files.items ++ folders.items) checked recorder.old recorder.new) }
    ensures ended { IfErr result (λ fault. IsAfterWalk fault (files.items ++ folders.items)) }
    ensures watched { recorder.new.watcher ≡ recorder.old.watcher }
{
    // The folders are few beside their files, so that less is moved.
    let items = joined(files, folders)?;
    match compare_found(alloc, recorder, listed, items) {
        Ok(checked) => Ok(checked),
        Err(fault) => Err(fault),
    }
}

/// Returns the items of both lists, those of the first before. Fails only if memory runs out.
fn joined(first: Vec<Item>, second: Vec<Item>) -> Result<Vec<Item>, AllocError>
    ensures { IfOk result (λ items. items.items ≡ first.items ++ second.items) }
{
    let mut items = first;
    let mut more = second;
    items.append(&mut more)?;
    Ok(items)
}
