//! Laws of documents. Each law is the contract of a function that does nothing.

ghost use Rattle.std.specs.Prelude.{◌≡◌, ℕ, List};
ghost use Rattle.droid_xml.specs.Documents.{HasProblem, IsDocument};
ghost use Rattle.droid_xml.specs.Pieces.{Part};
ghost use Rattle.droid_xml.specs.declared.problem.Problem.{Problem};

/// A text has the pieces of one document at most.
pub fn one_document()
    ensures { (text : List ℕ) (parts others : List Part) → IsDocument text parts → IsDocument text others
        → parts ≡ others }
{}

/// A document has no problem.
pub fn no_problem()
    ensures { (text : List ℕ) (parts : List Part) (problem : Problem) (line : ℕ) → IsDocument text parts
        → HasProblem text problem line → ⊥ }
{}
