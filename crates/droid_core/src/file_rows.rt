//! The look-up of the file that a request names: its rows and its assembly.

ghost use Rattle.std.specs.Prelude.{◌≡◌, ◌<◌, length, false, Ok, Some, None, MatchBool, ⊤, IsSome, IfOk, IfErr, OnOk};
ghost use Rattle.std.specs.Prelude.{OnErr, option_map};
ghost use Rattle.std.specs.List.{slice_get};
ghost use Rattle.droid_core.specs.FileLookUps.{FindsFile, FindsUnfinished, node_in};
ghost use Rattle.droid_core_spec.specs.Setting.{Setting};
ghost use Rattle.droid_core_spec.specs.MemoryFaults.{is_out_of_memory_of};
ghost use Rattle.droid_core_spec.specs.World.{World};
ghost use Rattle.droid_core.specs.Assemblies.{HasAssemblies};
ghost use Rattle.droid_core.specs.Rows.{KeepsWorld};
ghost use Rattle.droid_store.specs.Changes.{IsOpen};
ghost use Rattle.droid_store.specs.Rows.{is_unfinished, profile_at};
ghost use Rattle.droid_store.specs.declared.rows.NodeState.TheVariants.{Unfinished};
ghost use Rattle.droid_core.specs.Files.{At, open_at};

use crate::look_ups::profile_of;
use crate::unfinished::files::UnfinishedFiles;
use droid_frame::Refusal;
use droid_store::{NodeRow, NodeState, ProfileRow, Store, StoreFault};

/// A file's row, and that of its profile.
#[derive(Drop)]
pub struct FileRow {
    /// The profile.
    pub profile: ProfileRow,
    /// The file.
    pub node: NodeRow,
}

impl FileRow {
    /// Returns whether the file is unfinished: pieces of it may still come. A `FileRow` that [`file_of`] made is never
    /// of a folder.
    pub fn is_unfinished(&self) -> bool
        ensures { result ≡ is_unfinished self.now.node.state }
    {
        let state = self.node.state;
        match state {
            NodeState::Folder => false,
            NodeState::Unfinished => true,
            NodeState::Finished => false,
        }
    }
}

/// An unfinished file: its rows, and the place of its assembly.
#[derive(Drop)]
pub struct UnfinishedRow {
    /// The rows of the file and of its profile.
    pub row: FileRow,
    /// The place of its assembly, counted from 0.
    pub place: usize,
}

/// Looks up the unfinished file of this number in this profile: its rows, and the place of its assembly. Refuses with
/// NoSuchProfile, NoSuchNode, NotAFile or AlreadyFinished, in this order, or with Memory. Between two requests no piece
/// of it is pending.
pub fn unfinished_file(
    store: &mut Store,
    files: &UnfinishedFiles,
    profile: u32,
    file: u32,
) -> Result<UnfinishedRow, Refusal>
    ensures same { store.new ≡ store.old }
    ensures open { OnOk result (IsOpen profile file store.old) }
    ensures hash { IfOk result (λ found.
        option_map (λ p. p.hash) (profile_at profile store.old) ≡ Some found.row.profile.hash) }
    ensures within { IfOk result (λ found. found.place < length files.now.files) }
    ensures none_pending { IfOk result (λ found. At files.now found.place (λ file. file.pending ≡ None)) }
    ensures found { (setting : Setting) (world : World) → KeepsWorld setting world store.old
        → HasAssemblies world files.now
        → FindsUnfinished world files.now profile file result }
{
    let row = file_of(store, profile, file)?;
    if !row.is_unfinished() {
        return Err(Refusal::AlreadyFinished);
    }
    let place = place_of_file(files, profile, file)?;
    none_is_pending(files, place)?;
    Ok(UnfinishedRow { row, place })
}

/// Looks up the file with this number in this profile. Refuses with NoSuchProfile, NoSuchNode or NotAFile, in this
/// order, or with Memory.
pub fn file_of(store: &mut Store, profile: u32, file: u32) -> Result<FileRow, Refusal>
    ensures same { store.new ≡ store.old }
    ensures open { IfOk result (λ row. row.node.state ≡ Unfinished → IsOpen profile file store.old) }
    ensures hash { IfOk result (λ row.
        option_map (λ p. p.hash) (profile_at profile store.old) ≡ Some row.profile.hash) }
    ensures found { (setting : Setting) (world : World) → KeepsWorld setting world store.old
        → FindsFile world profile file result }
{
    let row = profile_of(store.profile(profile))?;
    let node = node_of(store.node(profile, file))?;
    let state = node.state;
    match state {
        NodeState::Folder => Err(Refusal::NotAFile),
        NodeState::Unfinished => Ok(FileRow { profile: row, node }),
        NodeState::Finished => Ok(FileRow { profile: row, node }),
    }
}

/// Returns the node from what the store's look-up returned, or NoSuchNode if it is not there or was abandoned. The
/// store fails only if memory runs out, which becomes the refusal Memory.
pub fn node_of(found: Result<Option<NodeRow>, StoreFault>) -> Result<NodeRow, Refusal>
    requires memory { IfErr found (λ fault. fault ≡ StoreFault.Memory) }
    ensures reported { result ≡ node_in found }
    ensures found { IfOk result (λ row. found ≡ Ok (Some row)) }
    ensures none { IfErr result (λ refusal.
        MatchBool (is_out_of_memory_of refusal) ⊤ ((refusal ≡ Refusal.NoSuchNode) × (found ≡ Ok None))) }
{
    match found? {
        Some(row) => Ok(row),
        None => Err(Refusal::NoSuchNode),
    }
}

/// Returns the place of an unfinished file's assembly in the list of assemblies, counted from 0. It cannot happen that
/// an unfinished file has none; the code would answer Store.
pub fn place_of_file(files: &UnfinishedFiles, profile: u32, file: u32) -> Result<usize, Refusal>
    ensures place { IfOk result (λ place. slice_get files.now.files place ≡ open_at profile file files.now.files) }
    ensures within { IfOk result (λ place. place < length files.now.files) }
    ensures none { OnErr result (open_at profile file files.now.files ≡ None) }
    ensures failure { IfErr result (λ refusal. refusal ≡ Refusal.Store) }
{
    match files.place_of(profile, file) {
        Some(place) => Ok(place),
        None => Err(Refusal::Store),
    }
}

/// Checks that no piece of the file at this place is pending, as the prover needs it. It cannot happen that one is,
/// between two requests; the code would answer Store.
fn none_is_pending(files: &UnfinishedFiles, place: usize) -> Result<(), Refusal>
    requires { place < length files.now.files }
    ensures none_pending { OnOk result (At files.now place (λ file. file.pending ≡ None)) }
    ensures pending { OnErr result (At files.now place (λ file. IsSome file.pending)) }
    ensures failure { IfErr result (λ refusal. refusal ≡ Refusal.Store) }
{
    if files.has_pending(place) {
        return Err(Refusal::Store);
    }
    Ok(())
}
