//! What is named on the command line, one after the other.

ghost use Rattle.std.specs.Prelude.{ℕ, List, OnOk};
ghost use Rattle.droid_tree.specs.Observation.{GoesOver};

use crate::run_fault::RunFault;

/// Takes what is named on the command line.
pub trait Taker {
    /// Relates the state before a name is taken, the name, and the state after it.
    ghost takes: { Self → List ℕ → Self → Type 0 };

    /// Takes a name.
    fn take(&mut self, name: &str) -> Result<(), RunFault>
        ensures { OnOk result (takes self.old name.now self.new) };
}

/// Takes each of the names, once and in order.
pub fn take_each<T: Taker>(taker: &mut T, names: &[&str]) -> Result<(), RunFault>
    ensures { OnOk result (GoesOver (λ old name new. T.takes old name.now new) taker.old names.now taker.new) }
{
    for place in 0..names.len() {
        taker.take(names[place])?;
    }
    Ok(())
}
