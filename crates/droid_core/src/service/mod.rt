//! The service: what it keeps, and the calls of its users.

ghost use Rattle.std.specs.Prelude.{◌≡◌, ◌≢◌, ◌≤◌, ℕ, [], None, Some, false, IfOk, IfErr, IfSome, IsSome, IsTrue};
ghost use Rattle.std.specs.Prelude.{OnErr, vec_len};
ghost use Rattle.std.specs.List.{AllByRecursion};
ghost use Rattle.std.specs.NonZero.{non_zero_usize_get};
ghost use Rattle.droid_core.specs.Cached.{KeepsText, cache_size_of, cached_in, caches};
ghost use Rattle.droid_core.specs.Handled.{is_added};
ghost use Rattle.droid_core.specs.KeptBytes.{IsAtMost, kept_bytes_of, most_bytes_of, piece_size_of};
ghost use Rattle.droid_core.specs.Running.{Runs};
ghost use Rattle.droid_core.specs.Standing.{Stand, StandsFor, limits_of, registry_of};
ghost use Rattle.droid_core.specs.KeptTexts.{is_followed};
ghost use Rattle.droid_core.specs.HoldingsStanding.{limits_given};
ghost use Rattle.droid_frame.specs.Fields.{IsBytes};
ghost use Rattle.droid_frame.specs.Frames.{mark_of};
ghost use Rattle.droid_frame.specs.Replies.{HasReplySpelling};
ghost use Rattle.droid_frame.specs.Versions.{is_version};
ghost use Rattle.droid_frame.specs.declared.filter.Filter.{Filter};
ghost use Rattle.droid_frame.specs.declared.refusal.Refusal.TheVariants as refusals;
ghost use Rattle.droid_frame.specs.declared.reply.Reply.TheVariants.{Refused};
ghost use Rattle.droid_frame.specs.declared.request.Request.TheVariants as requests;
ghost use Rattle.droid_core_spec.specs.Histories.{History, Handles, command, kept, world_of};
ghost use Rattle.droid_core.specs.Identified.{IsOf};
ghost use Rattle.droid_core_spec.specs.Setting.{Setting};

use crate::holdings::Holdings;
use crate::limits::Limits;
use crate::queries::kept_text::KeptText;
use crate::stamps::Stamp;
use crate::unfinished::files::UnfinishedFiles;
pub use answers::Outcome;
use answers::answer;
use droid_frame::{BodyFault, Frame, Refusal, Reply, mark, request_of};
use droid_pronom::Registry;
use droid_store::{Store, StoreFault};
use recent::RecentReplies;
use std::alloc::{AllocError, Global};
use std::num::NonZeroUsize;

mod answers;
mod recent;

/// How many replies a service caches, if nothing else is said. `ensures cache` of [`Service::new`] has the same number,
/// and the prover ties them; no reply depends on it. The number stands in `CACHED` of `droid_cmd_serve`
/// (`journal.rt`), in `tests/program/repeats.py` and `journal/journal_files.py`, and in docs/PROMISES too; nothing ties
/// those.
const CACHED: usize = 256;

/// The submission service: it judges requests, carries out the accepted ones, and keeps their replies for good. It
/// caches the replies that were used last, so that a request which comes again soon needs no look-up in the database.
/// It also keeps the text of the last export, for the parts that follow.
pub struct Service {
    holdings: Holdings,
    recent: RecentReplies,
    last: Option<KeptText>,
}

// Frees its three fields, as a derived `Drop` would. Written by hand, so that the crates above do not prove again how
// each part is dropped. No clause says more.
impl Drop for Service {
    fn drop(self) {
        let Service {
            holdings: _parts,
            recent: _recent,
            last: _last,
        } = self;
    }
}

impl Service {
    /// Creates an empty service, which identifies files by this registry and caches up to 256 replies. Fails only if
    /// there is no memory.
    pub fn new(alloc: Global, registry: Registry, limits: Limits) -> Result<Service, StoreFault>
        requires profiles { limits.profiles ≤ 64 }
        requires nodes { limits.nodes ≤ 100000 }
        requires unfinished { limits.unfinished ≤ 64 }
        ensures empty { IfOk result (λ service.
            (setting : Setting) → setting.limits ≡ limits_given limits → IsOf registry setting
            → StandsFor setting service []) }
        ensures memory { IfErr result (λ fault. fault ≡ StoreFault.Memory) }
        ensures limits { IfOk result (λ service. limits_of service ≡ limits_given limits) }
        ensures registry { IfOk result (λ service. registry_of service ≡ registry) }
        ensures cache { IfOk result (λ service. cache_size_of service ≡ 256) }
    {
        let places = NonZeroUsize::new(CACHED).unwrap();
        Service::with_cache(alloc, registry, limits, places)
    }

    /// Creates an empty service that caches up to `places` replies. The size of the cache changes no reply. Fails only
    /// if there is no memory, which the places take too.
    pub fn with_cache(
        alloc: Global,
        registry: Registry,
        limits: Limits,
        places: NonZeroUsize,
    ) -> Result<Service, StoreFault>
        requires profiles { limits.profiles ≤ 64 }
        requires nodes { limits.nodes ≤ 100000 }
        requires unfinished { limits.unfinished ≤ 64 }
        ensures empty { IfOk result (λ service.
            (setting : Setting) → setting.limits ≡ limits_given limits → IsOf registry setting
            → StandsFor setting service []) }
        ensures memory { IfErr result (λ fault. fault ≡ StoreFault.Memory) }
        ensures limits { IfOk result (λ service. limits_of service ≡ limits_given limits) }
        ensures registry { IfOk result (λ service. registry_of service ≡ registry) }
        ensures cache { IfOk result (λ service. cache_size_of service ≡ non_zero_usize_get places) }
    {
        let holdings = Holdings {
            alloc,
            limits,
            registry,
            store: Store::in_memory(alloc)?,
            files: UnfinishedFiles::new(alloc, limits.unfinished)?,
        };
        Ok(Service::of(holdings, places)?)
    }

    /// Makes a service from holdings, which caches up to `places` replies. It stands for each history that the holdings
    /// stand for. Fails only if there is no memory.
    pub fn of(holdings: Holdings, places: NonZeroUsize) -> Result<Service, AllocError>
        ensures stands { IfOk result (λ service.
            (setting : Setting) (history : History) → Stand setting holdings history
            → StandsFor setting service history) }
        ensures limits { IfOk result (λ service. limits_of service ≡ limits_given holdings.limits) }
        ensures registry { IfOk result (λ service. registry_of service ≡ holdings.registry) }
        ensures cache { IfOk result (λ service. cache_size_of service ≡ non_zero_usize_get places) }
    {
        let recent = RecentReplies::new(holdings.alloc, places)?;
        Ok(Service {
            holdings,
            recent,
            last: None,
        })
    }

    /// Handles one request and returns its one reply, which has a spelling in the request's version. A frame of another
    /// version than 1 and 2 is malformed. If memory runs out, the reply says so and nothing has changed. No reply says
    /// that the database refused for another cause than memory.
    pub fn handle(&mut self, frame: Frame) -> Reply
        ensures handles { (setting : Setting) (history : History) → StandsFor setting self.old history →
            Handles setting history frame result (StandsFor setting self.new) }
        ensures no_store { (setting : Setting) (history : History) → StandsFor setting self.old history
            → result ≢ Refused refusals.Store }
        ensures spelled { HasReplySpelling frame.version result }
        ensures other_version { is_version frame.version ≡ false → result ≡ Refused refusals.Malformed }
        ensures limits { limits_of self.new ≡ limits_of self.old }
        ensures registry { registry_of self.new ≡ registry_of self.old }
        ensures cache { cache_size_of self.new ≡ cache_size_of self.old }

        // The part that follows needs no new export: the text is kept if this part leaves something of it unread.
        ensures text { (setting : Setting) (history : History) (profile from max : ℕ) (filter : Filter)
            → StandsFor setting self.old history
            → command frame ≡ Some (requests.Export profile from max filter)
            → kept history frame.client frame.number ≡ None
            → IsTrue (is_followed from max result) → KeepsText profile filter self.new }
    {
        let mark = mark(frame.kind, frame.body.as_slice());
        let handled = self.handle_marked(frame, mark);
        handled.reply
    }

    /// Handles a request whose mark is known, as [`Service::handle`] does, and also returns whether it is a new command
    /// that was accepted.
    pub fn handle_marked(&mut self, frame: Frame, mark: [u8; 16]) -> Outcome
        requires mark { mark ≡ mark_of frame.kind frame.body }
        requires bytes { IsBytes frame.body }
        ensures handles { (setting : Setting) (history : History) → StandsFor setting self.old history →
            Handles setting history frame result.reply (StandsFor setting self.new) }
        ensures no_store { (setting : Setting) (history : History) → StandsFor setting self.old history
            → result.reply ≢ Refused refusals.Store }
        ensures spelled { HasReplySpelling frame.version result.reply }
        ensures other_version { is_version frame.version ≡ false → result.reply ≡ Refused refusals.Malformed }
        ensures limits { limits_of self.new ≡ limits_of self.old }
        ensures registry { registry_of self.new ≡ registry_of self.old }
        ensures cache { cache_size_of self.new ≡ cache_size_of self.old }

        // Nothing else adds an entry to the history: no repeat does, no query, and no refusal.
        ensures is_new { (setting : Setting) (history : History) → StandsFor setting self.old history
            → result.is_new ≡ is_added setting history frame result.reply }

        // The part that follows needs no new export: the text is kept if this part leaves something of it unread.
        ensures text { (setting : Setting) (history : History) (profile from max : ℕ) (filter : Filter)
            → StandsFor setting self.old history
            → command frame ≡ Some (requests.Export profile from max filter)
            → kept history frame.client frame.number ≡ None
            → IsTrue (is_followed from max result.reply) → KeepsText profile filter self.new }
    {
        let stamp = Stamp {
            client: frame.client,
            number: frame.number,
            version: frame.version,
            mark,
        };
        match request_of(self.holdings.alloc, frame) {
            Ok(request) => answer(self, stamp, request),
            Err(BodyFault::Malformed) => Outcome {
                reply: Reply::Refused(Refusal::Malformed),
                is_new: false,
            },
            Err(BodyFault::Memory) => Outcome {
                reply: Reply::Refused(Refusal::Memory),
                is_new: false,
            },
        }
    }

    /// Handles requests in order and returns a reply for each. Fails only if there is no memory for the list of
    /// replies, before the first request is handled.
    pub fn run(&mut self, frames: Vec<Frame>) -> Result<Vec<Reply>, AllocError>
        ensures runs { IfOk result (λ replies.
            (setting : Setting) (history : History) → StandsFor setting self.old history
            → Runs setting history frames.items replies.items self.new) }
        ensures no_store { IfOk result (λ replies.
            (setting : Setting) (history : History) → StandsFor setting self.old history
            → AllByRecursion (λ reply. reply ≢ Refused refusals.Store) replies.items) }
        ensures count { IfOk result (λ replies. vec_len replies ≡ vec_len frames) }
        ensures unchanged { OnErr result (self.new ≡ self.old) }
        ensures limits { limits_of self.new ≡ limits_of self.old }
        ensures registry { registry_of self.new ≡ registry_of self.old }
        ensures cache { cache_size_of self.new ≡ cache_size_of self.old }
    {
        let mut replies = Vec::with_capacity(self.holdings.alloc, frames.len())?;
        for frame in frames {
            let reply = self.handle(frame);
            replies.push(reply).unwrap();
        }
        Ok(replies)
    }

    /// Returns how many bytes of content are kept of the file with this number in this profile, or `None` if it is not
    /// an unfinished file. They are at most 67,239,936 (two windows of 65,536, and 16 pieces of 4 MiB), and at most
    /// 16,908,288 (two windows, and 16 pieces of 1 MiB) if version 1 allows pieces of the file's size. The clauses of
    /// droid_assembly have the same numbers, from which the prover takes these; docs/SERVICE and docs/PROMISES have
    /// them too.
    pub fn kept_bytes(&self, profile: u32, file: u32) -> Option<u64>
        ensures kept { (setting : Setting) (history : History) → StandsFor setting self.now history
            → result ≡ kept_bytes_of (world_of setting history) profile file }
        ensures bound { (setting : Setting) (history : History) → StandsFor setting self.now history
            → IsAtMost result (most_bytes_of (world_of setting history) profile file) }
        ensures most { IfSome result (λ bytes. bytes ≤ 67239936) }
        ensures of_version_1 { (setting : Setting) (history : History) → StandsFor setting self.now history
            → IfSome (piece_size_of (world_of setting history) profile file) (λ bytes. bytes ≤ 1048576)
            → IfSome result (λ bytes. bytes ≤ 16908288) }
    {
        let place = self.holdings.files.place_of(profile, file)?;
        Some(self.holdings.files.kept_bytes(place))
    }

    /// Returns how many replies are cached, at most as many as the cache has places. No reply shows that: tests and
    /// clauses ask here.
    pub fn cached(&self) -> usize
        ensures count { result ≡ cached_in self.now }
        ensures bound { result ≤ cache_size_of self.now }
    {
        self.recent.len()
    }

    /// Returns whether the reply to the request of this client under this number is cached. Only kept replies are.
    pub fn is_cached(&self, client: u32, number: u64) -> bool
        ensures its { result ≡ caches self.now client number }
        ensures kept { (setting : Setting) (history : History) → StandsFor setting self.now history → IsTrue result
            → IsSome (kept history client number) }
    {
        self.recent.contains(client, number)
    }
}
