//! Laws of uploads. Each is the contract of a function that does nothing.

ghost use Rattle.std.specs.Prelude.{◌≡◌, ℕ, List, true, false};
ghost use Rattle.std.specs.List.{list_any};
ghost use Rattle.droid_frame.specs.declared.reply.Reply.{Reply};
ghost use Rattle.droid_tree.specs.declared.folder_entry.FolderEntry.{FolderEntry};
ghost use Rattle.droid_upload.specs.Checks.{WasRead, is_sending};
ghost use Rattle.droid_upload.specs.Faults.{is_countable};
ghost use Rattle.droid_upload.specs.FileOutcomes.{FileOutcome, Holding, MayComeOfFile, MayHold, holding_deeds};
ghost use Rattle.droid_upload.specs.FileOutcomes.{uploaded_of};
ghost use Rattle.droid_upload.specs.declared.upload.Destination.{Destination};
ghost use Rattle.droid_upload.specs.declared.upload.Uploaded.TheVariants.{Taken};
ghost use Rattle.droid_upload.specs.declared.upload.UploadedFile.{UploadedFile};

/// Where finished files are checked, each file that is taken was read in this run.
pub fn a_checked_file_was_read()
    ensures { (into : Destination) (entry : FolderEntry) (outcome : FileOutcome) (file : UploadedFile)
        → MayComeOfFile into entry outcome → into.check ≡ true
        → uploaded_of into entry outcome ≡ Taken file → WasRead into.hash entry.len file }
{}

/// Nothing of a file that was finished before is sent.
pub fn a_finished_file_is_not_sent()
    ensures { (into : Destination) (path : List ℕ) (entry : FolderEntry) (number : ℕ) (found : Reply)
        (holding : Holding)
        → is_countable into.piece_size entry.len ≡ true → MayHold into entry holding
        → list_any is_sending (holding_deeds into path entry number found holding) ≡ false }
{}
