//! Watchers that also hear, before a walk begins, how much there is: the progress goes by it.

ghost use Rattle.droid_tree.specs.declared.tree_size.Counted.{Counted};
ghost use Rattle.droid_terminal.specs.Reporters.{ReporterExpects};

use droid_terminal::Reporter;
use droid_tree::{Counted, Watcher};
use std::time::Clock;

/// A watcher that hears before a walk how much there is.
pub trait Audience: Watcher {
    /// The relation between the states before and after it heard so.
    ghost expects: { Self → Counted → Self → Type 0 } = { λ old counted new. Unit {0} };

    /// Takes how many folders, files and bytes there are.
    fn hear_count(&mut self, counted: Counted)
        ensures { expects self.old counted self.new };
}

impl<R: Eprint + Clock> Audience for Reporter<'_, R> {
    ghost expects = { λ old counted new. ReporterExpects old counted new };

    /// Sets the size of the tree, by which the reporter estimates what is left.
    fn hear_count(&mut self, counted: Counted) {
        self.expect(counted);
    }
}
