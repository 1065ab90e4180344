//! A folder of a file system, as a tree, and the paths by which what is in it is reached.

ghost use Rattle.std.specs.Prelude.{◌≡◌, ◌++◌, [], IfErr, IfOk};
ghost use Rattle.droid_tree.specs.declared.fault.TreeFault.TheVariants.{Memory};
ghost use Rattle.droid_disk.specs.FolderObservation.{ObservesBelow, folder_path};
ghost use Rattle.droid_disk.specs.Tops.{IsWithoutSlashes};

use crate::disk::Disk;
use crate::entries::list;
use crate::file_reads::{place_for, read_on};
use crate::open_files::{OPEN_FILES, close, close_ended};
use droid_frame::Text;
use droid_tree::{FolderEntry, Tree, TreeFault};
use std::alloc::{AllocError, Global};

/// A folder with everything below it. Up to eight files stay open while they are read.
#[derive(Drop)]
pub struct Folder<D: Disk + Drop> {
    /// The file system.
    pub disk: D,
    /// The path of the folder, without a `/` at its end.
    pub top: Text,
    /// The files that were begun and have not ended, in the order in which they were opened.
    pub open: Vec<D::File>,
}

impl<D: Disk + Drop> Folder<D> {
    /// Makes a tree of the folder at this path, which may end in `/`. Asks the file system nothing, and fails only if
    /// out of memory. Takes the room for all open files here; no clause needs that.
    pub fn new(alloc: Global, disk: D, path: &str) -> Result<Folder<D>, AllocError>
        ensures disk { IfOk result (λ folder. folder.disk ≡ disk) }
        ensures top { IfOk result (λ folder. IsWithoutSlashes path.now folder.top) }
        ensures open { IfOk result (λ folder. folder.open.items ≡ []) }
    {
        let top = without_slashes(path);
        Ok(Folder {
            disk,
            top: Text::copy_of(alloc, top)?,
            open: Vec::with_capacity(alloc, OPEN_FILES)?,
        })
    }
}

// `Tree` says what each returns. A file is closed when a read shows its end, or fails.
impl<D: Disk + Drop> Tree for Folder<D> {
    ghost observes = { λ old observed new.
        ObservesBelow D.says D.path_of D.metadata_of old.top old.open.items old.disk observed new.open.items new.disk
        × (new.top ≡ old.top) × (D.is_inside new.disk → ⊥) };

    fn entries(&mut self, alloc: Global, path: &str) -> Result<Vec<FolderEntry>, TreeFault> {
        let top = self.top.as_str();
        let place = kept(folder_at(alloc, top, path))?;
        let folder = kept(place_of(alloc, top, path))?;
        list(alloc, &mut self.disk, place.as_str(), folder.as_str())
    }

    fn see_folder(&mut self, alloc: Global, path: &str) -> Result<(), TreeFault> {
        let place = kept(folder_at(alloc, self.top.as_str(), path))?;
        self.disk.see_folder(place.as_str())
    }

    fn read(
        &mut self,
        path: &str,
        entry: &FolderEntry,
        from: u64,
        wanted: u32,
        bytes: &mut Vec<u8>,
    ) -> Result<(), TreeFault> {
        let top = self.top.as_str();
        let place = place_for(&mut self.disk, &mut self.open, top, path, entry, from)?;
        let file = &self.open.as_slice()[place];
        match read_on(&mut self.disk, file, entry, from, wanted, bytes) {
            Ok(ended) => {
                close_ended::<D>(&mut self.open, top, path, ended);
                Ok(())
            }
            Err(fault) => {
                close::<D>(&mut self.open, top, path);
                Err(fault)
            }
        }
    }
}

/// Returns the path without the slashes at its end: of `/` nothing is left.
fn without_slashes(path: &str) -> &str
    ensures { IsWithoutSlashes path.now result.now }
{
    path.trim_end_matches('/')
}

/// Returns the path that `place_of` or `folder_at` made, or the fault `Memory` of a tree if there was no memory for it.
pub(crate) fn kept(path: Result<Text, AllocError>) -> Result<Text, TreeFault>
    ensures same { IfOk result (λ text. path ≡ Ok text) }
    ensures memory { IfErr result (λ fault. fault ≡ Memory) }
{
    match path {
        Ok(path) => Ok(path),
        Err(_) => Err(TreeFault::Memory),
    }
}

/// Returns both texts joined: the path of something below the top. `path` is empty or begins with `/`, where a tree
/// gives it. Fails only if memory runs out, as `folder_at`.
pub(crate) fn place_of(alloc: Global, top: &str, path: &str) -> Result<Text, AllocError>
    ensures { IfOk result (λ text. text ≡ top.now ++ path.now) }
{
    let room = top.len().saturating_add(path.len());
    let mut place = String::with_capacity(alloc, room)?;
    place.push_str(top)?;
    place.push_str(path)?;
    Ok(Text::from(place))
}

/// Returns the path by which a folder is listed: `top` and `path` joined. That of the top, whose `path` is empty, ends
/// in `/`, so that the top may be a link.
fn folder_at(alloc: Global, top: &str, path: &str) -> Result<Text, AllocError>
    ensures { IfOk result (λ text. text ≡ folder_path top.now path.now) }
{
    if path.is_empty() {
        return place_of(alloc, top, "/");
    }
    place_of(alloc, top, path)
}
