//! Submits a whole tree, folder by folder.

ghost use Rattle.std.specs.Prelude.{IfErr, IfOk};
ghost use Rattle.droid_upload.specs.Submissions.{AreOfFront, SubmitsTree};
ghost use Rattle.droid_upload.specs.Deeds.{Does};
ghost use Rattle.droid_upload.specs.Fronts.{EndsEarly};

use crate::client::Client;
use crate::findings::Found;
use crate::folder_visit::{both, visit_folder};
use crate::node::Node;
use crate::submission_fault::SubmissionFault;
use crate::upload::{Destination, Upload};
use crate::upload_requests::create_profile;
use droid_frame::HashKind;
use droid_tree::{TURNS, Tree, Watcher, only_the_top};

/// How a tree is submitted.
#[derive(Clone, Copy)]
pub struct Options {
    /// How many bytes at each end of a file the service scans: 1 to 65,536.
    pub scan_limit: u32,
    /// Whether the service also identifies by extension a format that has signatures.
    pub match_all: bool,
    /// Which hash the service computes of each file.
    pub hash: HashKind,
    /// How many bytes each piece of a file has, except the last: 1 to 4,194,304.
    pub piece_size: u32,
    /// Whether files that are finished there are read again, and their hashes compared.
    pub check: bool,
}

/// The result of a submission.
#[derive(Drop)]
pub struct Submitted {
    /// The number of the profile.
    pub profile: u32,
    /// Whether nothing was skipped and no file differs.
    pub whole: bool,
    /// The folders and files of the tree that are in the profile, in the order in which they were submitted.
    pub nodes: Vec<Node>,
}

/// Creates a profile and submits everything in the tree to it. Folders come before what they contain, and the entries
/// of one folder in the order of their names' bytes. The watcher is informed of each entry that is skipped. Fails with
/// `Folders` if the tree has more folders than a profile can have.
pub fn submit_tree<T: Tree, C: Client, W: Watcher>(
    upload: &mut Upload<T, C, W>,
    options: Options,
) -> Result<Submitted, SubmissionFault>
    // What was read, requested and reported is, in order, exactly that of the tree as it was listed. The nodes are
    // those that are in the profile now.
    ensures submitted { IfOk result (λ submitted.
        SubmitsTree (Does T.observes C.calls W.hears) options submitted upload.old upload.new) }
    // After an error it is the front of such a list, and its last call explains the fault.
    ensures ended { IfErr result (λ fault.
        EndsEarly (Does T.observes C.calls W.hears) (AreOfFront options) fault upload.old upload.new) }
{
    let profile = create_profile(upload, options.scan_limit, options.match_all, options.hash)?;
    let pending = only_the_top(upload.alloc)?;
    let mut found = Found {
        pending,
        nodes: Vec::new(upload.alloc),
    };
    let mut whole = true;
    for _ in 0..TURNS {
        let Some(folder) = found.pending.pop_front() else {
            let Found { nodes, .. } = found;
            return Ok(Submitted {
                profile,
                whole,
                nodes,
            });
        };
        let into = Destination {
            profile,
            folder: folder.number,
            piece_size: options.piece_size,
            hash: options.hash,
            check: options.check,
        };
        let taken = visit_folder(upload, into, &folder, &mut found)?;
        whole = both(whole, taken);
    }
    Err(SubmissionFault::Folders)
}
