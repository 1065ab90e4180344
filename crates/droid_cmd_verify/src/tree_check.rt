//! Compares a tree with a list by what is read of its files, and finds what differs. `listing_check.rt` ends with the
//! same `compare_found`.

ghost use Rattle.std.specs.Prelude.{◌≡◌, ◌≤◌, IfErr, IfOk};
ghost use Rattle.droid_cmd_verify.specs.CheckedTrees.{ChecksTree, Compares, EndsCheck, IsAfterWalk, fault_of};
ghost use Rattle.droid_cmd_verify.specs.CheckedTrees.{is_unreadable, options_for, readable_in, unreadable_in};
ghost use Rattle.droid_fixity.specs.FilePairs.{AreFilePairs};
ghost use Rattle.droid_lists.specs.ListForms.{names_files_alone};
ghost use Rattle.droid_fixity.specs.Reports.{IsReport};
ghost use Rattle.droid_lists.specs.Listings.{IsInventory};

use crate::item_keeper::ItemKeeper;
use crate::readable_items::{keep_readable, readable_of};
use droid_fixity::{Difference, FilePair, Inventory, SamePath, compare, file_pairs};
use droid_frame::{HashKind, Item};
use droid_lists::Listed;
use droid_profile::{Options, ProfileFault, Profiler, profile};
use droid_pronom::Registry;
use droid_terminal::{Recorder, SkippedEntry};
use droid_tree::{Skipped, Tree, Watcher};
use std::alloc::{AllocError, Global};
use std::mem;

/// A tree beside a list.
#[derive(Drop)]
pub struct Checked {
    /// All differences, in order of path. They name items by their places in `listed` and `found`.
    pub differences: Vec<Difference>,
    /// The files that both have under one path, in order of path.
    pub files: Vec<FilePair>,
    /// The items of the list that could be read.
    pub listed: Inventory,
    /// The items of the tree that could be read: a folder that was found may not be listed later.
    pub found: Inventory,
}

/// Why a tree could not be compared with a list.
#[derive(Drop)]
pub enum CheckFault {
    /// Out of memory.
    Memory,
    /// There are more than 4,294,967,295 folders and files: `Numbers` of the walk (`droid_profile`).
    Numbers,
    /// A path was found twice.
    Twice(SamePath),
}

// The `ghost` line of `from` is its contract.
impl From<AllocError> for CheckFault {
    ghost use Rattle.droid_cmd_verify.specs.declared.tree_check.CheckFault.TheVariants.{Memory};

    ghost from_gives = { λ _ fault. fault ≡ Memory };

    fn from(_error: AllocError) -> CheckFault {
        CheckFault::Memory
    }
}

/// Reads a tree as its profile is made, and compares it with a list. Each file gets a hash of the list's kind, whatever
/// the options say. Afterwards the recorder has what is unreadable: all that was skipped, symbolic links and repeated
/// names aside. With `identify` the recipient has the formats of the files. Whatever recipient the profiler has is
/// replaced. Fails as the walk does (`fault_of`), or as `compare_found`.
pub fn check_tree<T: Tree, W: Watcher>(
    profiler: &mut Profiler<T, Recorder<W>, ItemKeeper>,
    registry: &Registry,
    options: Options,
    listed: Listed,
    identify: bool,
) -> Result<Checked, CheckFault>
    requires { options.scan_limit ≤ 65536 }
    // The report has exactly the differences between the list and the tree as it was read.
    ensures checked { IfOk result (λ checked.
        ChecksTree T.observes W.hears registry.now (options_for options listed.hash) (names_files_alone listed.form)
        identify listed.items checked profiler.old profiler.new) }
    // The walk ended as that of a profile does; or it did not, and there was a path twice, or memory ran out.
    ensures ended { IfErr result (λ fault.
        EndsCheck T.observes W.hears registry.now (options_for options listed.hash) (names_files_alone listed.form)
        identify fault profiler.old profiler.new) }
{
    let alloc = profiler.alloc;
    let files_only = listed.form.names_files_alone();
    let keeper = ItemKeeper::new(alloc, files_only, identify);
    profiler.recipient = keeper;
    let options = options_for(options, listed.hash);
    match profile(profiler, registry, options) {
        Ok(_) => {
            let items = take_items(alloc, &mut profiler.recipient.items);
            match compare_found(alloc, &mut profiler.watcher, listed.items, items) {
                Ok(checked) => Ok(checked),
                Err(fault) => Err(fault),
            }
        }
        Err(fault) => Err(fault_of(fault)),
    }
}

/// Takes the items out of where they were kept, which stays without any.
pub(crate) fn take_items(alloc: Global, items: &mut Vec<Item>) -> Vec<Item>
    ensures { result.items ≡ items.old.items }
{
    mem::replace(items, Vec::new(alloc))
}

/// Returns the options with this kind of hash, which is that of the list.
pub(crate) fn options_for(options: Options, hash: HashKind) -> Options
    ensures { result ≡ options_for options hash }
{
    Options {
        scan_limit: options.scan_limit,
        match_all: options.match_all,
        hash,
    }
}

/// Turns a fault of the walk into one of the comparison. The recipient keeps items, so it fails only without memory.
pub(crate) fn fault_of(fault: ProfileFault) -> CheckFault
    ensures { result ≡ fault_of fault }
{
    match fault {
        ProfileFault::Memory => CheckFault::Memory,
        ProfileFault::Numbers => CheckFault::Numbers,
        ProfileFault::Recipient(_) => CheckFault::Memory,
    }
}

/// Compares the items of a list with those that were found. The recorder then keeps what is unreadable. Fails with
/// `Memory` if that ran out, here or when an entry was skipped, or with `Twice` if a path was found twice; what the
/// recorder has then is not promised.
pub(crate) fn compare_found<W>(
    alloc: Global,
    recorder: &mut Recorder<W>,
    listed: Inventory,
    items: Vec<Item>,
) -> Result<Checked, CheckFault>
    ensures compared { IfOk result (λ checked. Compares listed items.items checked recorder.old recorder.new) }
    ensures ended { IfErr result (λ fault. IsAfterWalk fault items.items) }
    ensures watched { recorder.new.watcher ≡ recorder.old.watcher }
{
    if !recorder.has_all {
        return Err(CheckFault::Memory);
    }
    keep_unreadable(&mut recorder.skipped);
    match compare_readable(alloc, recorder.skipped.as_slice(), listed, items) {
        Ok(checked) => Ok(checked),
        Err(fault) => Err(fault),
    }
}

/// Removes the symbolic links from what was skipped, and the entries with the name of one before them.
fn keep_unreadable(skipped: &mut Vec<SkippedEntry>)
    ensures { skipped.new.items ≡ unreadable_in skipped.old.items }
{
    skipped.retain(|entry| is_unreadable(entry.why));
}

/// Returns whether a skipped entry counts as unreadable: links and repeated names do not.
fn is_unreadable(why: Skipped) -> bool
    ensures { result ≡ is_unreadable why }
{
    match why {
        Skipped::Link => false,
        Skipped::SameName => false,
        Skipped::Kind
        | Skipped::Name
        | Skipped::Refused(_)
        | Skipped::Unreadable
        | Skipped::Changed
        | Skipped::OtherHash => true,
    }
}

/// Compares the items of a list that could be read with those that were found. What is unreadable is on neither side.
/// Fails with `Memory`, or with `Twice` if a path was found twice, which is looked for after what is unreadable was
/// left out.
fn compare_readable(
    alloc: Global,
    unreadable: &[SkippedEntry],
    listed: Inventory,
    items: Vec<Item>,
) -> Result<Checked, CheckFault>
    ensures listed { IfOk result (λ checked. IsInventory (readable_in unreadable.now listed) checked.listed) }
    ensures found { IfOk result (λ checked. IsInventory (readable_in unreadable.now items.items) checked.found) }
    ensures report { IfOk result (λ checked. IsReport checked.listed checked.found checked.differences.items) }
    ensures files { IfOk result (λ checked. AreFilePairs checked.listed checked.found checked.files.items) }
    ensures ended { IfErr result (λ fault. IsAfterWalk fault items.items) }
{
    let mut items = items;
    keep_readable(alloc, unreadable, &mut items)?;
    let found = match Inventory::of(items) {
        Ok(found) => found,
        Err(same) => return Err(CheckFault::Twice(same)),
    };
    // The prover learns from this call that the paths are in order.
    let _items = found.as_slice();
    let listed = readable_of(alloc, unreadable, listed)?;
    let differences = compare(alloc, &listed, &found)?;
    let files = file_pairs(alloc, &listed, &found)?;
    Ok(Checked {
        differences,
        files,
        listed,
        found,
    })
}
