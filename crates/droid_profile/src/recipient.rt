//! The trait for taking the records of a profile.

ghost use Rattle.std.specs.Prelude.{IfErr, IsTrue, OnOk};
ghost use Rattle.droid_core_spec.specs.Conditions.{is_moment};
ghost use Rattle.droid_frame.specs.declared.record.Record.{Record};
ghost use Rattle.droid_profile.specs.declared.recipient.RecipientFault.{RecipientFault};

use droid_frame::{Record, WriteFault};

/// Why a recipient could not take a record.
#[derive(Clone, Copy)]
pub enum RecipientFault {
    /// Out of memory.
    Memory,
    /// What is made of the records could not be written.
    Write(WriteFault),
}

/// Takes the records of a profile, one after the other.
pub trait Recipient {
    /// Relates the state before a record was taken, the record, and the state after it.
    ghost takes: { Self → Record → Self → Type 0 };

    /// Relates the state before a record that could not be taken, the record, the reason, and the state after it. The
    /// record may have been taken in part.
    ghost fails: { Self → Record → RecipientFault → Self → Type 0 };

    /// Takes the next record. It was modified from 0001-01-01T00:00:00 to 9999-12-31T23:59:59.
    fn take(&mut self, next: &Record) -> Result<(), RecipientFault>
        requires { IsTrue (is_moment next.now.modified) }
        ensures taken { OnOk result (takes self.old next.now self.new) }
        ensures failed { IfErr result (λ fault. fails self.old next.now fault self.new) };
}
