//! Where `identify` prints and reports.

ghost use Rattle.std.specs.Prelude.{ℕ, List, OnOk};

use crate::run_fault::RunFault;

/// Prints on standard output, and reports on standard error.
pub trait Printer {
    /// Relates the state before a text is printed, the text, and the state after it.
    ghost prints: { Self → List ℕ → Self → Type 0 };

    /// Relates the state before something is reported, its path, why it is not identified, and the state after it.
    ghost reports: { Self → List ℕ → List ℕ → Self → Type 0 };

    /// Relates the states before and after what is kept is written.
    ghost writes: { Self → Self → Type 0 };

    /// Prints a text, which may be kept to be written later.
    fn print(&mut self, text: &[u8]) -> Result<(), RunFault>
        ensures { OnOk result (prints self.old text.now self.new) };

    /// Reports why something is not identified. Its path may be invalid UTF-8. What is kept is written first.
    fn report(&mut self, path: &[u8], why: &str) -> Result<(), RunFault>
        ensures { OnOk result (reports self.old path.now why.now self.new) };

    /// Writes what is kept.
    fn flush(&mut self) -> Result<(), RunFault>
        ensures { OnOk result (writes self.old self.new) };
}
