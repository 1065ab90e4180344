//! What takes the records of a file in order: a `Rewriter`, which writes the smaller journal, or a `Weight`, which adds
//! up the bytes of pieces.

ghost use Rattle.std.specs.Prelude.{◌≡◌, ◌+◌, ◌≤◌, ◌++◌, ◌∷◌, [], Bool, List, length, IfErr, OnOk};
ghost use Rattle.droid_journal.specs.Records.{Record, checksum, made};

use crate::rewrite_fault::RewriteFault;

/// Takes the records of a file in order.
pub(crate) trait Taker {
    ghost use Rattle.droid_compaction.specs.Faults.{IsOfTaking};

    /// What the result depends on beside the records.
    ghost Setting: { Type 0 };

    /// It took these records, in order.
    ghost took: { Setting → Self → List Record → Type 0 };

    /// Takes the next record, whose request has this checksum. Fails with Memory or Write; after that nothing is
    /// promised of `self`. In clauses 18 is the header of a frame, 41 `AROUND` of `rewriter.rt`, and 8388608 the most
    /// bytes of a record (`LIMIT` of `skim.rt`), as `Fits` has them.
    fn take(&mut self, request: &[u8], sum: [u8; 16], reply: &[u8]) -> Result<(), RewriteFault>
        requires header { 18 ≤ length request.now }
        requires size { length request.now + length reply.now + 41 ≤ 8388608 }
        requires sum { sum ≡ checksum request.now }
        ensures took { (setting : Setting) (before : List Record) (first : Bool) → took setting self.old before
            → OnOk result (took setting self.new (before ++ made first request.now reply.now ∷ [])) }
        ensures fault { IfErr result IsOfTaking };
}
