//! The count of handled lines, and of the bad ones among them.

ghost use Rattle.std.specs.Prelude.{◌≡◌, ◌+◌, ◌<◌, ◌≤◌, ◌^◌};
ghost use Rattle.droid_lines.specs.Tallies.{with_one_more};

/// Counts the handled lines, and the bad ones among them.
#[derive(Clone, Copy, PartialEq, Eq)]
pub struct Tally {
    /// All lines, the bad ones among them.
    pub lines: u64,
    /// The lines that hold no request.
    pub bad: u64,
}

impl Tally {
    /// Counts one more line, as a bad one too if it is bad.
    pub fn count(&mut self, is_bad: bool)
        requires { (self.old.bad ≤ self.old.lines) × (self.old.lines + 1 < 2 ^ 64) }
        ensures { self.new ≡ with_one_more is_bad self.old }
    {
        self.lines += 1;
        if is_bad {
            self.bad += 1;
        }
    }
}
