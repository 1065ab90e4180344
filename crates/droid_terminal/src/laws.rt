//! Laws of what is printed. Each stands on an empty function and is proved with it.

ghost use Rattle.std.specs.Prelude.{◌≡◌};
ghost use Rattle.droid_terminal.specs.Endings.{Told, Whole, status_of};
ghost use Rattle.droid_terminal.specs.Rhythms.{TenLinesASecond};

/// At most ten lines of progress are printed within any second, however often one is due.
pub fn ten_lines_a_second()
    ensures { TenLinesASecond }
{}

/// A command's status is 0 only where all is done: no fault has it, whatever its row is.
pub fn only_all_done_has_status_0()
    ensures { (it : Told) → status_of it ≡ 0 → it ≡ Whole }
{}
