//! Laws of what a profile writes. Each is the contract of a function that does nothing.

ghost use Rattle.std.specs.Prelude.{◌≡◌, ℕ, List, [], None, Some, true, Vec};
ghost use Rattle.std.specs.List.{flat_map};
ghost use Rattle.std.specs.declared.alloc.Global.{Global};
ghost use Rattle.droid_frame.specs.declared.io.recorded_stream.Noted.{Noted};
ghost use Rattle.droid_tree.specs.Heard.{Heard};
ghost use Rattle.droid_profile.specs.declared.csv_recipient.CsvRecipient.{CsvRecipient};
ghost use Rattle.droid_profile.specs.declared.profiler.Profiler.{Profiler};
ghost use Rattle.droid_profile.specs.declared.options.Options.{Options};
ghost use Rattle.droid_cmd_profile.specs.Kept.{kept_contents};
ghost use Rattle.droid_cmd_profile.specs.declared.kept_output.Keeping.{Keeping};
ghost use Rattle.droid_terminal.specs.SkippedTexts.{header, skipped_csv, skipped_in};
ghost use Rattle.droid_cmd_profile.specs.SkippedFiles.{GoesOn, HasText, lines_of};
ghost use Rattle.droid_cmd_profile.specs.ProfileEndings.{is_written};
ghost use Rattle.droid_cmd_profile.specs.ProfiledFolders.{KeepsTree, ProfilesFolder};
ghost use Rattle.droid_cmd_profile.specs.declared.profile_ending.ProfileEnding.{ProfileEnding};
ghost use Rattle.droid_cmd_profile.specs.declared.skipped_file.SkippedFile.{SkippedFile};
ghost use Rattle.droid_cmd_profile.specs.declared.skipped_writer.SkippedWriter.{SkippedWriter};

use droid_frame::SteadyWrite;
use droid_tree::{Tree, Watcher};
use std::io::Write;

/// States that a file to which first the header and then the lines of what was reported were written has the CSV of all
/// skipped entries that were reported, in order.
pub fn the_lines_are_the_csv<S: SteadyWrite>()
    ensures { (heard : List Heard) (old begun new : SkippedFile S) → GoesOn S.contents S.seen S.room old begun header
        → HasText S.contents S.seen S.room begun new (lines_of heard)
        → HasText S.contents S.seen S.room old new (skipped_csv (flat_map skipped_in heard)) }
{}

/// States that of a tree that was profiled to a writer that keeps everything, the text that is kept is the CSV of the
/// tree's records. The page is made of this text.
pub fn the_kept_text_is_the_csv<T: Tree, W: Watcher, S: SteadyWrite, O: Write, M: SteadyWrite>()
    ensures { (options : Options) (ending : ProfileEnding)
        (old new : Profiler T (SkippedWriter W S) (CsvRecipient (Noted (Keeping O)) M)) (begun kept : Vec ℕ Global)
        → ProfilesFolder T.observes W.hears S.contents S.seen S.room (λ writer. kept_contents O.contents writer.stream)
        (λ writer. writer.seen) (λ writer. None) M.contents M.seen M.room options ending old new
        → is_written ending ≡ true → old.recipient.csv.stream.text ≡ Some begun → begun.items ≡ []
        → new.recipient.csv.stream.text ≡ Some kept
        → KeepsTree T.observes W.hears S.contents S.seen S.room (λ writer. kept_contents O.contents writer.stream)
        (λ writer. writer.seen) (λ writer. None) M.contents M.seen M.room options old new kept.items }
{}
