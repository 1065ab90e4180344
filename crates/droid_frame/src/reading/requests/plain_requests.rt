//! Readers of the requests that have no list: all but Export. Each returns `None` where the whole body does not spell a
//! request of the kind.

ghost use Rattle.std.specs.Prelude.{◌≡◌, ◌≤◌, drop, length, vec_len};
ghost use Rattle.droid_frame.specs.Reading.{text_at};
ghost use Rattle.droid_frame.specs.RequestValues.{create_profile_value, add_folder_value, add_file_value, piece_value};
ghost use Rattle.droid_frame.specs.RequestValues.{file_value, plain_value};

use super::node_head::node_head_at;
use crate::blob::Blob;
use crate::reading::fields::hashes::carried_kind_at;
use crate::reading::fields::{bool_at, bytes_after, text_of, u32_at, u64_at};
use crate::request::Request;
use crate::text::Text;

/// Reads a request that has no list, in version 1 or 2. `None` if the kind is 8 or unknown, or the body is not valid
/// for it. A name and a piece's bytes stay in the body's own buffer. Allocates nothing.
#[tactic(auto, unfolding(crate::specs::RequestValues::plain_value, crate::specs::RequestValues::finish_value, crate::specs::RequestValues::abandon_value, crate::specs::RequestValues::status_value))]
pub(crate) fn plain_value(version: u8, kind: u8, body: Blob) -> Option<Request>
    ensures { result ≡ plain_value version kind body }
{
    let bytes = body.as_slice();
    match kind {
        1 => create_profile(version, bytes),
        2 => add_folder(body),
        3 => add_file(body),
        4 => piece(body),
        5 => {
            let (profile, file) = profile_and_file(bytes)?;
            Some(Request::Finish { profile, file })
        }
        6 => {
            let (profile, file) = profile_and_file(bytes)?;
            Some(Request::Abandon { profile, file })
        }
        7 => {
            let (profile, file) = profile_and_file(bytes)?;
            Some(Request::Status { profile, file })
        }
        _ => None,
    }
}

/// Reads the body of a CreateProfile: scan limit (four bytes), match_all (one), and in version 2 the hash's kind (one).
/// Whether the scan limit is in its range, the service judges.
#[tactic(auto, unfolding(crate::specs::RequestValues::create_profile_value, crate::specs::Reading::whole))]
fn create_profile(version: u8, body: &[u8]) -> Option<Request>
    ensures { result ≡ create_profile_value version body.now }
{
    let (scan_limit, rest) = u32_at(body)?;
    let (match_all, rest) = bool_at(rest)?;
    let (hash, rest) = carried_kind_at(version, rest)?;
    if !rest.is_empty() {
        return None;
    }
    Some(Request::CreateProfile {
        scan_limit,
        match_all,
        hash,
    })
}

/// Reads the body of an AddFolder: profile, parent, modification time, and the name to the end, which it moves and does
/// not copy. `None` if the name is not UTF-8; whether it is a good name, the service judges.
#[tactic(auto, unfolding(crate::specs::RequestValues::add_folder_value))]
fn add_folder(body: Blob) -> Option<Request>
    ensures { result ≡ add_folder_value body }
{
    let (head, rest) = node_head_at(body.as_slice())?;
    let used = body.len() - rest.len();
    let name = text_after(body, used)?;
    Some(Request::AddFolder {
        profile: head.profile,
        parent: head.parent,
        modified: head.modified,
        name,
    })
}

/// Reads the body of an AddFile: as an AddFolder, with size (eight bytes) and piece size (four) before the name, which
/// it moves and does not copy.
#[tactic(auto, unfolding(crate::specs::RequestValues::add_file_value))]
fn add_file(body: Blob) -> Option<Request>
    ensures { result ≡ add_file_value body }
{
    let (head, rest) = node_head_at(body.as_slice())?;
    let (size, rest) = u64_at(rest)?;
    let (piece_size, rest) = u32_at(rest)?;
    let used = body.len() - rest.len();
    let name = text_after(body, used)?;
    Some(Request::AddFile {
        profile: head.profile,
        parent: head.parent,
        modified: head.modified,
        size,
        piece_size,
        name,
    })
}

/// Reads the body of a Piece: profile, file and index, four bytes each, and the piece's bytes to the end, which it
/// moves and does not copy.
#[tactic(auto, unfolding(crate::specs::RequestValues::piece_value))]
fn piece(body: Blob) -> Option<Request>
    ensures { result ≡ piece_value body }
{
    let (profile, rest) = u32_at(body.as_slice())?;
    let (file, rest) = u32_at(rest)?;
    let (index, rest) = u32_at(rest)?;
    let used = body.len() - rest.len();
    let bytes = bytes_after(body, used);
    Some(Request::Piece {
        profile,
        file,
        index,
        bytes,
    })
}

/// Reads the numbers of a profile and a file, four bytes each, if the body has nothing else: the body of a Finish, an
/// Abandon or a Status.
#[tactic(auto, unfolding(crate::specs::RequestValues::file_value, crate::specs::Reading::whole))]
fn profile_and_file(body: &[u8]) -> Option<(u32, u32)>
    ensures { result ≡ file_value body.now }
{
    let (profile, rest) = u32_at(body)?;
    let (file, after) = u32_at(rest)?;
    if !after.is_empty() {
        return None;
    }
    Some((profile, file))
}

/// Returns the text from this index to the end, in the body's own buffer, or `None` if it is not UTF-8.
fn text_after(body: Blob, place: usize) -> Option<Text>
    requires { place ≤ length body }
    ensures { result ≡ text_at (drop place body) }
{
    let bytes = bytes_after(body, place);
    text_of(bytes.into_vec())
}
