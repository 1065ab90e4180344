//! The look-up of a new node's place, and of the room that its profile has for one more. AddFolder and AddFile begin
//! with it.

ghost use Rattle.std.specs.Prelude.{◌≡◌, ◌≢◌, Some, None, IfOk, IfErr, OnOk};
ghost use Rattle.droid_core_spec.specs.Setting.{Setting};
ghost use Rattle.droid_core_spec.specs.World.{Profile, World, numbered};
ghost use Rattle.droid_core.specs.Rows.{AreShort, KeepsWorld};
ghost use Rattle.droid_core.specs.Sound.{IsSoundWorld};
ghost use Rattle.droid_core.specs.Places.{FindsFolder, FindsPlace, taken_in};
ghost use Rattle.droid_store.specs.Rows.{child_at};

use crate::checks::paths::{is_too_deep_below, new_path};
use crate::checks::room::Room;
use crate::file_rows::node_of;
use crate::holdings::Holdings;
use droid_core_spec::is_bad_name;
use droid_frame::{Refusal, Text};
use droid_store::{NodeRow, NodeState, ProfileRow, Store, StoreFault};
use std::alloc::Global;

/// Returns the path of a new node of this folder (0 is the top), or the first refusal of its place and its name, in
/// this order: NoSuchNode, NotAFolder, BadName, PathTooLong, NameTaken. Memory may come at any of them.
pub fn path_of_new(
    alloc: Global,
    store: &mut Store,
    profile: u32,
    parent: u32,
    name: &str,
) -> Result<Text, Refusal>
    ensures same { store.new ≡ store.old }
    ensures free { OnOk result (child_at profile parent name.now store.old ≡ None) }
    ensures short { IfOk result (λ path. AreShort name.now path) }
    ensures found { (setting : Setting) (world : World) (its : Profile) → KeepsWorld setting world store.old
        → IsSoundWorld world
        → numbered world.profiles profile ≡ Some its → FindsPlace its parent name.now result }
{
    let folder = folder_path(alloc, store, profile, parent)?;
    if is_bad_name(name) {
        return Err(Refusal::BadName);
    }
    if is_too_deep_below(folder.as_str(), name) {
        return Err(Refusal::PathTooLong);
    }
    if is_taken(store.child(profile, parent, name))? {
        return Err(Refusal::NameTaken);
    }
    Ok(new_path(alloc, folder.as_str(), name)?)
}

/// Returns the path of the folder with this number; that of the top, number 0, is empty. Refuses with NoSuchNode or
/// NotAFolder, in this order, or with Memory.
fn folder_path(alloc: Global, store: &mut Store, profile: u32, parent: u32) -> Result<Text, Refusal>
    ensures same { store.new ≡ store.old }
    ensures found { (setting : Setting) (world : World) (its : Profile) → KeepsWorld setting world store.old
        → numbered world.profiles profile ≡ Some its → FindsFolder its parent result }
{
    if parent == 0 {
        return Ok(Text::from(String::new(alloc)));
    }
    let row = node_of(store.node(profile, parent))?;
    path_of(row)
}

/// Returns the path in this row of a node, or NotAFolder if the node is a file.
fn path_of(row: NodeRow) -> Result<Text, Refusal>
    ensures folder { IfOk result (λ path. (row.state ≡ NodeState.Folder) × (path ≡ row.item.path)) }
    ensures file { IfErr result (λ refusal. (row.state ≢ NodeState.Folder) × (refusal ≡ Refusal.NotAFolder)) }
{
    match row.state {
        NodeState::Folder => Ok(row.item.path),
        NodeState::Unfinished => Err(Refusal::NotAFolder),
        NodeState::Finished => Err(Refusal::NotAFolder),
    }
}

/// Returns, of what the store's look-up of a name in a folder returned, whether a node has that name. The store fails
/// only if memory runs out, which becomes the refusal Memory.
fn is_taken(found: Result<Option<u32>, StoreFault>) -> Result<bool, Refusal>
    requires memory { IfErr found (λ fault. fault ≡ StoreFault.Memory) }
    ensures reported { result ≡ taken_in found }
    ensures memory { IfErr result (λ refusal. refusal ≡ Refusal.Memory) }
{
    Ok(found?.is_some())
}

/// Returns the number of nodes that a profile has had, those that were abandoned included, and its limit.
pub fn node_room(holdings: &Holdings, profile: ProfileRow) -> Room
    ensures count { result.count ≡ profile.nodes }
    ensures limit { result.limit ≡ holdings.now.limits.nodes }
{
    Room {
        count: u64::from(profile.nodes),
        limit: holdings.limits.nodes,
    }
}
