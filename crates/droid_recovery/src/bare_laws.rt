//! Laws of bare worlds, in which some files have no bytes: what judging a request comes to there. Each is the contract
//! of a function that does nothing, and is proved with it.

ghost use Rattle.std.specs.Prelude.{◌≡◌, ◌++◌, ◌∷◌, ℕ, List, true, false};
ghost use Rattle.droid_recovery.specs.BareFiles.{FinishesBare};
ghost use Rattle.droid_recovery.specs.BareWorlds.{Bare, HaveEnded, bare_verdict, bare_world, needs_bytes};
ghost use Rattle.droid_recovery.specs.Ending.{Ends, IsEnded};
ghost use Rattle.droid_core_spec.specs.Histories.{Entry, History, IsLegal, world_of};
ghost use Rattle.droid_core_spec.specs.Judging.{Accepted, judge};
ghost use Rattle.droid_core_spec.specs.Setting.{Setting};
ghost use Rattle.droid_core_spec.specs.Verdicts.{is_command};
ghost use Rattle.droid_core_spec.specs.World.{World, empty_world, world_with};
ghost use Rattle.droid_frame.specs.declared.reply.Reply.{Reply};
ghost use Rattle.droid_frame.specs.declared.request.Request.{Request};
ghost use Rattle.droid_frame.specs.declared.request.Request.TheVariants.{Finish, Piece};

/// A command that needs no bytes of a bare file gets the same verdict without these bytes, and the world after it is
/// the one without them.
pub fn a_command_is_judged_without_the_bytes()
    ensures { (setting : Setting) (bare : Bare) (world : World) (version : ℕ) (request : Request)
        → is_command request ≡ true → needs_bytes bare request ≡ false
        → judge setting (bare_world bare world) version request
        ≡ bare_verdict bare (judge setting world version request) }
{}

/// An accepted piece of a bare file changes nothing in the world without the bytes, but the number of accepted
/// commands.
pub fn a_bare_piece_is_only_counted()
    ensures { (setting : Setting) (bare : Bare) (world after : World) (version profile file index : ℕ) (bytes : List ℕ)
        (reply : Reply)
        → bare profile file ≡ true
        → judge setting world version (Piece profile file index bytes) ≡ Accepted reply after
        → bare_world bare after ≡ world_with (bare_world bare world) (bare_world bare world).profiles }
{}

/// An accepted Finish of a bare file puts the finished file, with all its bytes, in the place of the one without them;
/// and its reply is what was found.
pub fn a_bare_file_is_finished_by_its_finding()
    ensures { (setting : Setting) (bare : Bare) (world after : World) (version profile file : ℕ) (reply : Reply)
        → bare profile file ≡ true
        → judge setting world version (Finish profile file) ≡ Accepted reply after
        → FinishesBare setting bare world profile file reply after }
{}

/// Once each bare file has ended, the world without the bytes is the world.
pub fn ended_files_need_no_bytes()
    ensures ended { (bare : Bare) (world : World) → HaveEnded bare world → bare_world bare world ≡ world }
    ensures empty { (bare : Bare) → bare_world bare empty_world ≡ empty_world }
{}

/// A file that was finished or abandoned in a legal history has ended in its world.
pub fn an_ended_file_stays_so()
    ensures ended { (setting : Setting) (before later : History) (entry : Entry) (profile file : ℕ)
        → IsLegal setting (before ++ entry ∷ later) → Ends entry profile file
        → IsEnded (world_of setting (before ++ entry ∷ later)) profile file }
    ensures all { (bare : Bare) (world : World)
        → ((profile file : ℕ) → bare profile file ≡ true → IsEnded world profile file) → HaveEnded bare world }
{}
