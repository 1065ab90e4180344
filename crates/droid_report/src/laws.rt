//! Laws of reports. Each law is the contract of a function that does nothing.

ghost use Rattle.std.specs.Prelude.{◌↔◌, ◌<◌, ◌^◌, IsTrue};
ghost use Rattle.droid_report.specs.Groups.{IsContentOf, has_key, key_of};
ghost use Rattle.droid_report.specs.Rows.{Line};
ghost use Rattle.droid_report.specs.declared.keys.Alike.TheVariants as alike;

/// States what a group of equal files is: two rows have one key, which is not empty, exactly if both are the first of a
/// file that has a hash, and the files have the same hash and the same size.
pub fn equal_files_have_one_hash_and_size()
    ensures { (one other : Line) → one.facts.size < 2 ^ 64 → other.facts.size < 2 ^ 64 →
        (IsTrue (has_key alike.Content (key_of alike.Content one) other) ↔ IsContentOf one other) }
{}
