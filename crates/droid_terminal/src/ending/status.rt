//! The exit statuses of faults.

ghost use Rattle.std.specs.Prelude.{◌≡◌};
ghost use Rattle.droid_terminal.specs.Endings.{number_of};

/// The exit status of a fault. None is 0 or 5.
#[derive(Clone, Copy)]
pub enum Status {
    /// 3: what is to be read cannot be read, or is none.
    Unread,
    /// 4: something failed on the way.
    Failed,
    /// 6: no service could be made.
    Unmade,
}

impl Status {
    /// Returns the number with which the program exits. `number_of` has the numbers too, which the prover compares, and
    /// so have the helps of `droid_arguments` and the tests.
    pub(crate) fn number(self) -> u8
        ensures { result ≡ number_of self }
    {
        match self {
            Status::Unread => 3,
            Status::Failed => 4,
            Status::Unmade => 6,
        }
    }
}
