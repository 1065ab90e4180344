//! What the watcher is informed of a file that is sent: which bytes the service had or got, and how the file ended.

ghost use Rattle.std.specs.Prelude.{◌≡◌};
ghost use Rattle.droid_tree.specs.Heard.{Held, Left, TookBytes};
ghost use Rattle.droid_upload.specs.Deeds.{Does, Informed};
ghost use Rattle.droid_upload.specs.FileOutcomes.{has_other_hash, heard_of_end, same_hash, uploaded_of_end};

use crate::client::Client;
use crate::upload::{Upload, Uploaded, UploadedFile};
use droid_frame::{HashValue, Reply};
use droid_hash::finding_of;
use droid_tree::{Skipped, Tree, Watcher};

/// Reports that the file at `path` was skipped, or differs, and why. Its path is text.
pub(crate) fn report_skipped<T: Tree, C: Client, W: Watcher>(
    upload: &mut Upload<T, C, W>,
    path: &str,
    why: Skipped,
)
    ensures { Does T.observes C.calls W.hears upload.old (Informed (Left path.now why)) upload.new }
{
    upload.watcher.skipped(path.as_bytes(), why);
}

/// Reports how many bytes of a file, its first ones, are not sent, since the service has them.
pub(crate) fn report_held<T: Tree, C: Client, W: Watcher>(
    upload: &mut Upload<T, C, W>,
    path: &str,
    count: u64,
)
    ensures { Does T.observes C.calls W.hears upload.old (Informed (Held path.now count)) upload.new }
{
    upload.watcher.held(path, count);
}

/// Reports that a piece of `count` bytes was sent.
pub(crate) fn report_bytes<T: Tree, C: Client, W: Watcher>(
    upload: &mut Upload<T, C, W>,
    path: &str,
    count: u32,
)
    ensures { Does T.observes C.calls W.hears upload.old (Informed (TookBytes path.now count)) upload.new }
{
    upload.watcher.took_bytes(path, count);
}

/// Reports a file that the reply `found` finished: that it was taken, or that it has another hash than `read`, that of
/// the bytes that were read. `is_read` says whether all of it was read in this run. Returns the outcome of the file.
pub(crate) fn report_end<T: Tree, C: Client, W: Watcher>(
    upload: &mut Upload<T, C, W>,
    path: &str,
    number: u32,
    is_read: bool,
    read: HashValue,
    found: &Reply,
) -> Uploaded
    ensures informed { Does T.observes C.calls W.hears upload.old (Informed (heard_of_end path.now read found.now))
        upload.new }
    ensures uploaded { result ≡ uploaded_of_end number is_read read found.now }
{
    let file = UploadedFile {
        number,
        found: finding_of(found),
        is_read,
    };
    if has_other_hash(read, found) {
        report_skipped(upload, path, Skipped::OtherHash);
        return Uploaded::Differs(file);
    }
    upload.watcher.took_file(path, found);
    Uploaded::Taken(file)
}

/// Returns whether the reply `found` has another hash than `read`. Without a hash of what was read nothing is compared,
/// and no other reply than Finished has one.
fn has_other_hash(read: HashValue, found: &Reply) -> bool
    ensures { result ≡ has_other_hash read found.now }
{
    match found {
        Reply::Finished { hash, .. } => read.kind().number() != 0 && !same_hash(read, *hash),
        _ => false,
    }
}

/// Returns whether two hashes are of one kind and have the same bytes.
fn same_hash(one: HashValue, other: HashValue) -> bool
    ensures { result ≡ same_hash one other }
{
    one.kind().number() == other.kind().number() && one.as_slice() == other.as_slice()
}
