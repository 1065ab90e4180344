//! One call for each kind of accepted command. Each makes its change and keeps the reply `entry`, both or neither. It
//! fails only if memory runs out, as long as its rows are small enough (`FitsARow`).

ghost use Rattle.std.specs.Prelude.{◌≡◌, ◌+◌, ◌<◌, ◌^◌, None, Some, length, OnOk, OnErr, IfErr};
ghost use Rattle.std.specs.List.{AllByRecursion};
ghost use Rattle.droid_store.specs.Changes.{IsNext, IsOfKind, IsOpen, IsWord, new_folder, new_file, finished};
ghost use Rattle.droid_store.specs.Changes.{with_finished, with_node, with_profile, with_reply, without_node};
ghost use Rattle.droid_store.specs.CommandChanges.{changed, IsInTurn, IsWritable, WritesARow};
ghost use Rattle.droid_store.specs.Rows.{Node, child_at, node_at, reply_for, counts_of};
ghost use Rattle.droid_store.specs.Sizes.{entry_size, node_size, FitsARow};
ghost use Rattle.droid_store.specs.declared.fault.StoreFault.TheVariants.{Memory};

use crate::change::{Change, FindingColumns, NewNode};
use crate::counters::{one_less_unfinished, one_more_profile, one_more_reply, one_more_unfinished};
use crate::fault::StoreFault;
use crate::hashes::has_its_length;
use crate::identifiers::join;
use crate::rows::{Counts, Entry, NodeState};
use crate::store::Store;
use crate::transaction::write;
use droid_frame::{HashKind, HashValue, Method, Texts};

impl Store {
    /// Adds the profile with the next number. `scan_limit` is how many bytes at both ends of a file are searched,
    /// `match_all` whether extensions also match formats with a signature, and `hash` the hash of its files.
    pub fn commit_profile(
        &mut self,
        entry: &Entry,
        profile: u32,
        scan_limit: u32,
        match_all: bool,
        hash: HashKind,
    ) -> Result<(), StoreFault>
        requires new { reply_for entry.now.client entry.now.number self.old ≡ None }
        requires small { entry.now.number < 2 ^ 63 }
        requires next { profile ≡ length self.old.profiles + 1 }
        ensures ok { OnOk result (self.new ≡ with_reply entry.now (with_profile scan_limit match_all hash self.old)) }
        ensures err { OnErr result (self.new ≡ self.old) }
        ensures memory { FitsARow (entry_size entry.now) → IfErr result (λ fault. fault ≡ Memory) }
    {
        let counts = one_more_profile(self.counts)?;
        let change = Change::Profile {
            profile,
            scan_limit,
            match_all,
            hash,
        };
        self.commit(entry, &change, counts)
    }

    /// Adds a folder under the profile's next number. `parent` is 0 at the top, `modified` is in seconds since 1970,
    /// and `path` is `/` and the names from the top, joined by `/`.
    pub fn commit_folder(
        &mut self,
        entry: &Entry,
        profile: u32,
        id: u32,
        parent: u32,
        modified: i64,
        name: &str,
        path: &str,
    ) -> Result<(), StoreFault>
        requires new { reply_for entry.now.client entry.now.number self.old ≡ None }
        requires small { entry.now.number < 2 ^ 63 }
        requires next { IsNext profile id self.old }
        requires free { child_at profile parent name.now self.old ≡ None }
        ensures ok { OnOk result
            (self.new
            ≡ with_reply entry.now (with_node (new_folder profile id parent modified name.now path.now) self.old)) }
        ensures err { OnErr result (self.new ≡ self.old) }
        ensures memory { FitsARow (entry_size entry.now)
            → FitsARow (node_size (new_folder profile id parent modified name.now path.now))
            → IfErr result (λ fault. fault ≡ Memory) }
    {
        let counts = self.counts;
        let node = NewNode {
            profile,
            id,
            parent,
            state: NodeState::Folder,
            size: 0,
            piece_size: 0,
            name,
            path,
        };
        self.commit(entry, &Change::Node { node, modified }, counts)
    }

    /// Adds an unfinished file under the profile's next number. `size` and `piece_size` are in bytes; for `parent`,
    /// `modified` and `path` see [`Store::commit_folder`].
    pub fn commit_file(
        &mut self,
        entry: &Entry,
        profile: u32,
        id: u32,
        parent: u32,
        modified: i64,
        size: u64,
        piece_size: u32,
        name: &str,
        path: &str,
    ) -> Result<(), StoreFault>
        requires new { reply_for entry.now.client entry.now.number self.old ≡ None }
        requires small { entry.now.number < 2 ^ 63 }
        requires size { size < 2 ^ 63 }
        requires next { IsNext profile id self.old }
        requires free { child_at profile parent name.now self.old ≡ None }
        ensures ok { OnOk result
            (self.new
            ≡ with_reply entry.now
            (with_node (new_file profile id parent modified size piece_size name.now path.now) self.old)) }
        ensures err { OnErr result (self.new ≡ self.old) }
        ensures memory { FitsARow (entry_size entry.now)
            → FitsARow (node_size (new_file profile id parent modified size piece_size name.now path.now))
            → IfErr result (λ fault. fault ≡ Memory) }
    {
        let counts = one_more_unfinished(self.counts)?;
        let node = NewNode {
            profile,
            id,
            parent,
            state: NodeState::Unfinished,
            size,
            piece_size,
            name,
            path,
        };
        self.commit(entry, &Change::Node { node, modified }, counts)
    }

    /// Keeps the reply to a piece. The store does not hold the bytes of pieces.
    pub fn commit_piece(&mut self, entry: &Entry) -> Result<(), StoreFault>
        requires new { reply_for entry.now.client entry.now.number self.old ≡ None }
        requires small { entry.now.number < 2 ^ 63 }
        ensures ok { OnOk result (self.new ≡ with_reply entry.now self.old) }
        ensures err { OnErr result (self.new ≡ self.old) }
        ensures memory { FitsARow (entry_size entry.now) → IfErr result (λ fault. fault ≡ Memory) }
    {
        let counts = self.counts;
        self.commit(entry, &Change::Reply, counts)
    }

    /// Finishes an unfinished file with what was found in it. The hash is of the kind of its profile, and no identifier
    /// is empty or has a space.
    pub fn commit_finish(
        &mut self,
        entry: &Entry,
        profile: u32,
        file: u32,
        method: Method,
        mismatch: bool,
        hash: HashValue,
        puids: &Texts,
    ) -> Result<(), StoreFault>
        requires new { reply_for entry.now.client entry.now.number self.old ≡ None }
        requires small { entry.now.number < 2 ^ 63 }
        requires file { IsOpen profile file self.old }
        requires kind { IsOfKind profile hash self.old }
        requires puids { AllByRecursion IsWord puids.now }
        ensures ok { OnOk result
            (self.new ≡ with_reply entry.now (with_finished profile file method mismatch hash puids.now self.old)) }
        ensures err { OnErr result (self.new ≡ self.old) }
        ensures memory { FitsARow (entry_size entry.now)
            → ((n : Node) → node_at profile file self.old ≡ Some n
            → FitsARow (node_size (finished method mismatch hash puids.now n)))
            → IfErr result (λ fault. fault ≡ Memory) }
    {
        let counts = one_less_unfinished(self.counts);
        let formats = join(self.alloc, puids)?;
        has_its_length(hash);
        let findings = FindingColumns {
            method,
            mismatch,
            hash,
            formats: formats.as_str(),
        };
        let change = Change::Finish {
            profile,
            file,
            findings,
        };
        self.commit(entry, &change, counts)
    }

    /// Deletes an unfinished file. Its profile still counts it, so its number is not used again.
    pub fn commit_abandon(
        &mut self,
        entry: &Entry,
        profile: u32,
        file: u32,
    ) -> Result<(), StoreFault>
        requires new { reply_for entry.now.client entry.now.number self.old ≡ None }
        requires small { entry.now.number < 2 ^ 63 }
        requires file { IsOpen profile file self.old }
        ensures ok { OnOk result (self.new ≡ with_reply entry.now (without_node profile file self.old)) }
        ensures err { OnErr result (self.new ≡ self.old) }
        ensures memory { FitsARow (entry_size entry.now) → IfErr result (λ fault. fault ≡ Memory) }
    {
        let counts = one_less_unfinished(self.counts);
        self.commit(entry, &Change::Abandon { profile, file }, counts)
    }

    /// Makes the change and keeps the reply: what all commands share. `counts` is the number of rows after the change,
    /// without the reply.
    fn commit(
        &mut self,
        entry: &Entry,
        change: &Change<'_>,
        counts: Counts,
    ) -> Result<(), StoreFault>
        requires new { reply_for entry.now.client entry.now.number self.old ≡ None }
        requires small { entry.now.number < 2 ^ 63 }
        requires writable { IsWritable change.now }
        requires turn { IsInTurn change.now self.old }
        requires counts { counts ≡ counts_of (changed change.now self.old) }
        ensures ok { OnOk result (self.new ≡ with_reply entry.now (changed change.now self.old)) }
        ensures err { OnErr result (self.new ≡ self.old) }
        ensures memory { FitsARow (entry_size entry.now) → WritesARow change.now self.old
            → IfErr result (λ fault. fault ≡ Memory) }
    {
        let counts = one_more_reply(counts)?;
        write(&mut self.conn, entry, change)?;
        self.counts = counts;
        Ok(())
    }
}
