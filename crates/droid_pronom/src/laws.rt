//! Laws of identification. Each is the contract of a function that does nothing.

ghost use Rattle.std.specs.Prelude.{◌≡◌, ℕ, Bool, List};
ghost use Rattle.droid_pronom.specs.Finding.{found_in};
ghost use Rattle.droid_pronom.specs.Found.{IsFound};
ghost use Rattle.droid_pronom.specs.Registry.{Contents};
ghost use Rattle.droid_pronom.specs.declared.identification.Found.{Found};

/// States that identification has at most one result: for the same registry, name, file, scan limit and mode, the
/// method, the mismatch and the formats in their order are the same.
pub fn finds_one_answer()
    ensures { (registry : Contents) (name file : List ℕ) (scan_limit : ℕ) (match_all : Bool) (one other : Found)
        → IsFound registry name file scan_limit match_all one → IsFound registry name file scan_limit match_all other
        → one ≡ other }
{}

/// States that identification always has a result, which `found_in` computes.
pub fn an_answer_is_found()
    ensures { (registry : Contents) (name file : List ℕ) (scan_limit : ℕ) (match_all : Bool)
        → IsFound registry name file scan_limit match_all (found_in registry name file scan_limit match_all) }
{}
