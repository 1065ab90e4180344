//! The names of classes in the tables by year, size and depth.

ghost use Rattle.std.specs.Prelude.{◌≡◌, Some};
ghost use Rattle.droid_report.specs.ShownClasses.{class_name, power_of_four, unit_of};

use crate::classes::By;
use crate::texts;
use std::fmt;
use std::fmt::{Display, Formatter, Write};

/// The name of a class.
#[derive(Clone, Copy)]
pub(crate) struct ClassName {
    /// By what files are counted.
    pub by: By,
    /// The class.
    pub class: usize,
}

impl Display for ClassName {
    ghost output = { λ it. Some (class_name it.by it.class) };

    /// Writes the year; of a size class its least size, which is 4 to the power of the class less one, in bytes, KiB
    /// and so on (five powers of four for each unit); or the number of slashes. 64 is the last class of depths, as in
    /// `last_class` of `classes.rt`: the prover does not tie the two.
    #[tactic(auto, unfolding(crate::specs::ShownClasses::class_name))]
    fn fmt<W: Write>(&self, f: &mut Formatter<W>) -> fmt::Result {
        let class = self.class;
        match self.by {
            By::Year => write!(f, "{class}"),
            By::Size => {
                if class == 0 {
                    return f.write_str(texts::NO_BYTES);
                }
                let lower = class - 1;
                write!(
                    f,
                    "{}{} {}",
                    texts::FROM,
                    power_of_four(lower % 5),
                    unit_of(lower / 5)
                )
            }
            By::Depth => {
                if class == 64 {
                    return f.write_str(texts::MOST_SLASHES);
                }
                write!(f, "{class}")
            }
        }
    }
}

/// Returns 4 to the power of `n`, which is 0 to 4: a class's least size in its unit. A greater `n` counts as 4.
fn power_of_four(n: usize) -> u64
    ensures { result ≡ power_of_four n }
{
    if n == 0 {
        1
    } else if n == 1 {
        4
    } else if n == 2 {
        16
    } else if n == 3 {
        64
    } else {
        256
    }
}

/// Returns the name of a unit of sizes: 0 is bytes, and each next one has 1,024 of the one before. 6 and more is EiB.
fn unit_of(n: usize) -> &'static str
    ensures { result.now ≡ unit_of n }
{
    if n == 0 {
        texts::BYTES
    } else if n == 1 {
        texts::KIB
    } else if n == 2 {
        texts::MIB
    } else if n == 3 {
        texts::GIB
    } else if n == 4 {
        texts::TIB
    } else if n == 5 {
        texts::PIB
    } else {
        texts::EIB
    }
}
