//! Counts what a walk did, in numbers. The formats are counted in `totals.rt`.

ghost use Rattle.std.specs.Prelude.{◌≡◌};
ghost use Rattle.droid_terminal.specs.WalkCounts.{after_bytes, after_found, after_held, after_skipped, after_method};
ghost use Rattle.droid_terminal.specs.WalkCounts.{after_mismatch, after_taken, done_in, is_link};

use crate::estimate::Amount;
use droid_frame::{Method, Reply};
use droid_tree::Skipped;

/// The counts of a walk. A count that reaches the greatest number of 64 bits stays there.
#[derive(Clone, Copy)]
pub(crate) struct Counts {
    /// Folders and files in the profile.
    pub taken: u64,
    /// Skipped entries, with symbolic links.
    pub skipped: u64,
    /// Symbolic links.
    pub links: u64,
    /// Bytes read from files.
    pub bytes: u64,
    /// Bytes not read, since the service already held them.
    pub held: u64,
    /// Files identified by signature.
    pub by_signature: u64,
    /// Files identified by extension.
    pub by_extension: u64,
    /// Files not identified.
    pub unidentified: u64,
    /// Files whose extension does not belong to their format.
    pub mismatches: u64,
}

impl Counts {
    /// Returns counts that are all zero, as before a walk.
    pub fn none() -> Counts
        ensures { result
            ≡ record {
              taken = 0;
              skipped = 0;
              links = 0;
              bytes = 0;
              held = 0;
              by_signature = 0;
              by_extension = 0;
              unidentified = 0;
              mismatches = 0;
            } }
    {
        Counts {
            taken: 0,
            skipped: 0,
            links: 0,
            bytes: 0,
            held: 0,
            by_signature: 0,
            by_extension: 0,
            unidentified: 0,
            mismatches: 0,
        }
    }

    /// Returns how much is done, for the line of progress: skipped entries, and bytes that the service already held,
    /// are done too.
    pub fn done(self) -> Amount
        ensures { result ≡ done_in self }
    {
        Amount {
            entries: self.taken.saturating_add(self.skipped),
            bytes: self.bytes.saturating_add(self.held),
        }
    }

    /// Counts a folder or a file that is in the profile.
    pub fn count_taken(&mut self)
        ensures { self.new ≡ after_taken self.old }
    {
        self.taken = self.taken.saturating_add(1);
    }

    /// Counts an entry that was skipped for this reason. A symbolic link counts in `links` as well.
    pub fn count_skipped(&mut self, why: Skipped)
        ensures { self.new ≡ after_skipped why self.old }
    {
        self.skipped = self.skipped.saturating_add(1);
        if is_link(why) {
            self.links = self.links.saturating_add(1);
        }
    }

    /// Counts `count` bytes that were read from a file.
    pub fn count_bytes(&mut self, count: u32)
        ensures { self.new ≡ after_bytes count self.old }
    {
        self.bytes = self.bytes.saturating_add(u64::from(count));
    }

    /// Counts `count` bytes of a file that were not read, since the service already held them.
    pub fn count_held(&mut self, count: u64)
        ensures { self.new ≡ after_held count self.old }
    {
        self.held = self.held.saturating_add(count);
    }

    /// Counts how a file was identified and whether its extension contradicts that, by the reply that finished it. Any
    /// other reply than `Finished` changes nothing.
    pub fn count_found(&mut self, found: &Reply)
        ensures { self.new ≡ after_found found.now self.old }
    {
        if let Reply::Finished {
            method,
            mismatch,
            ..
        } = found
        {
            self.count_method(*method);
            self.count_mismatch(*mismatch);
        }
    }

    /// Counts one file in the number that belongs to this method.
    fn count_method(&mut self, method: Method)
        ensures { self.new ≡ after_method method self.old }
    {
        match method {
            Method::Signature => self.by_signature = self.by_signature.saturating_add(1),
            Method::Extension => self.by_extension = self.by_extension.saturating_add(1),
            Method::Unidentified => self.unidentified = self.unidentified.saturating_add(1),
        }
    }

    /// Counts a file if its extension contradicts its formats, as `mismatch` says.
    fn count_mismatch(&mut self, mismatch: bool)
        ensures { self.new ≡ after_mismatch mismatch self.old }
    {
        if mismatch {
            self.mismatches = self.mismatches.saturating_add(1);
        }
    }
}

/// Returns whether an entry was skipped because it is a symbolic link.
fn is_link(why: Skipped) -> bool
    ensures { result ≡ is_link why }
{
    match why {
        Skipped::Link => true,
        Skipped::Kind
        | Skipped::Name
        | Skipped::SameName
        | Skipped::Refused(_)
        | Skipped::Unreadable
        | Skipped::Changed
        | Skipped::OtherHash => false,
    }
}
