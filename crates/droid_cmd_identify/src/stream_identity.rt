//! Says what the bytes of a stream are.

ghost use Rattle.std.specs.Prelude.{◌≡◌, ◌≤◌, ◌++◌, ℕ, List, IfOk, IfSome, length};
ghost use Rattle.droid_frame.specs.RunningHashes.{HoldsAll, running_kind};
ghost use Rattle.droid_identity.specs.Identities.{IsIdentity};

use crate::ends::FileEnds;
use crate::file::FileOptions;
use crate::stream_ends::read_stream;
use droid_frame::{InputFault, RunningHash, SteadyRead};
use droid_identity::{Identity, identify_file};
use droid_pronom::Registry;
use std::alloc::Global;

/// What is said of the bytes of a stream.
#[derive(Drop)]
pub struct StreamIdentity {
    /// How many bytes it has.
    pub size: u64,
    /// Its formats, and why it has each of them.
    pub identity: Identity,
}

/// Reads a stream to its end, and says what its bytes are if they have this name. `ends` has its first and last bytes
/// afterwards, and `running` the hash of all. Its memory does not grow with the stream.
pub fn identify_stream<R: SteadyRead>(
    alloc: Global,
    registry: &Registry,
    options: FileOptions,
    name: &str,
    reader: &mut R,
    running: &mut RunningHash,
    ends: &mut FileEnds,
) -> Result<StreamIdentity, InputFault>
    requires some { 1 ≤ options.limit }
    requires few { options.limit ≤ 65536 }
    ensures its { IfOk result (λ said. IfSome (R.remaining reader.old) (λ bytes. (length bytes ≡ said.size)
        × IsIdentity registry.now name.now bytes options.limit options.match_all said.identity)) }
    ensures hash { IfOk result (λ _. IfSome (R.remaining reader.old) (λ bytes.
        (before : List ℕ) → HoldsAll running.old before → HoldsAll running.new (before ++ bytes))) }
    ensures kind { running_kind running.new ≡ running_kind running.old }
{
    let size = read_stream(reader, options.limit, running, ends)?;
    let identity = identify_file(
        alloc,
        registry,
        name,
        ends.first(),
        ends.last(),
        size,
        options.match_all,
    )?;
    Ok(StreamIdentity { size, identity })
}
