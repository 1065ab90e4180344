//! Laws of histories: what the definitions of `specs/` come to. Each is the contract of a function that does nothing,
//! and is proved with it. Where a definition changes so that a law fails, the prover refuses the law.

ghost use Rattle.std.specs.Prelude.{◌≡◌, ◌≢◌, ◌+◌, ◌↔◌, ℕ, true, false, List, [], length, None, Some, IsSome};
ghost use Rattle.std.specs.List.{AllByRecursion, Contains};
ghost use Rattle.droid_frame.specs.Bodies.{request_kind};
ghost use Rattle.droid_frame.specs.Fields.{IsBytes};
ghost use Rattle.droid_frame.specs.ReplyFrames.{reply_frame};
ghost use Rattle.droid_frame.specs.Versions.{is_version};
ghost use Rattle.droid_frame.specs.declared.filter.Filter.{Filter};
ghost use Rattle.droid_frame.specs.declared.frame.Frame.{Frame};
ghost use Rattle.droid_frame.specs.declared.record.Record.{Record};
ghost use Rattle.droid_frame.specs.declared.refusal.Refusal.{Refusal};
ghost use Rattle.droid_frame.specs.declared.refusal.Refusal.TheVariants.{BadOption, Malformed, NumberReused, Store};
ghost use Rattle.droid_frame.specs.declared.reply.Reply.{Reply};
ghost use Rattle.droid_frame.specs.declared.reply.Reply.TheVariants.{Part, Refused};
ghost use Rattle.droid_frame.specs.declared.request.Request.{Request};
ghost use Rattle.droid_frame.specs.declared.request.Request.TheVariants.{Export, Finish};
ghost use Rattle.droid_core_spec.specs.BeforeVersion2 as before;
ghost use Rattle.droid_core_spec.specs.FirstVersion.{IsOfVersion1, IsWorldOfVersion1};
ghost use Rattle.droid_core_spec.specs.Histories.{Entry, History, IsLegal, Asks, AsksNothing, HasReply, command, kept};
ghost use Rattle.droid_core_spec.specs.Histories.{world_of, is_request_of, answer, answers, next, history_from};
ghost use Rattle.droid_core_spec.specs.Judging.{Answered, Refuses, judge};
ghost use Rattle.droid_core_spec.specs.Records.{records, IsRecordIn};
ghost use Rattle.droid_core_spec.specs.Setting.{Setting};
ghost use Rattle.droid_core_spec.specs.Verdicts.{is_command, MayCome};
ghost use Rattle.droid_frame.specs.Replies.{is_refused};
ghost use Rattle.droid_core_spec.specs.MemoryFaults.{is_out_of_memory};
ghost use Rattle.droid_core_spec.specs.Whole.{FinishedAreWhole};
ghost use Rattle.droid_core_spec.specs.World.{Profile, World};
ghost use Rattle.droid_core_spec.specs.Written.{reply_frames};

/// A frame asks a request exactly if its number is below 2^63 and its version, kind and body spell that request. It
/// asks nothing exactly if there is no such request.
pub fn a_frame_asks_what_it_spells()
    ensures something { (frame : Frame) (request : Request) → IsBytes frame.body
        → (command frame ≡ Some request) ↔ Asks frame request }
    ensures nothing { (frame : Frame) → IsBytes frame.body → (command frame ≡ None) ↔ AsksNothing frame }
{}

/// A command is accepted or refused, and a query is answered or refused. Neither reply is then a refusal, an accepted
/// command is counted, and judging has reasons of its own alone: it never refuses as Malformed, for a number that was
/// used before, for memory or for the database.
pub fn judging_goes_by_kind()
    ensures { (setting : Setting) (world : World) (version : ℕ) (request : Request)
        → MayCome world request (judge setting world version request) }
{}

/// Only AddFile and Finish are judged by the version in which they were sent. The verdict on every other request is the
/// same in both versions.
pub fn judging_goes_by_version_in_two_kinds()
    ensures { (setting : Setting) (world : World) (one other : ℕ) (request : Request) → request_kind request ≢ 3
        → request_kind request ≢ 5
        → judge setting world one request ≡ judge setting world other request }
{}

/// A frame of another version than 1 and 2 asks nothing. It is answered Malformed, whatever replies are kept.
pub fn other_versions_ask_nothing()
    ensures asks { (frame : Frame) → is_version frame.version ≡ false → command frame ≡ None }
    ensures answer { (setting : Setting) (history : History) (frame : Frame) → is_version frame.version ≡ false
        → answer setting history frame ≡ Refused Malformed }
{}

/// After any list of frames of version 1, each profile has MD5 as its hash and no file has pieces larger than those of
/// version 1. So no Finish of version 1 is refused because of its profile's hash.
pub fn version_1_stands_alone()
    ensures world { (setting : Setting) (frames : List Frame) → AllByRecursion IsOfVersion1 frames
        → IsWorldOfVersion1 (world_of setting (history_from setting [] frames)) }
    ensures finish { (setting : Setting) (world : World) (profile file : ℕ) → IsWorldOfVersion1 world
        → judge setting world 1 (Finish profile file) ≢ Refuses BadOption }
{}

/// A fresh service that gets frames of version 1 alone gives the replies that it gave before there was a version 2, and
/// their frames have the same bytes. `before` is the service of that time: `specs/BeforeVersion2.antt` defines it
/// without a version and without a choice of hash.
pub fn version_1_is_as_before()
    // A frame asked a request exactly if its number is below 2^63 and its kind and body spelled that request.
    ensures requests { (frame : Frame) (request : Request) → IsOfVersion1 frame
        → (before.command frame ≡ Some request) ↔ before.Asks frame request }
    ensures replies { (setting : Setting) (frames : List Frame) → AllByRecursion IsOfVersion1 frames
        → answers setting [] frames ≡ before.answers setting [] frames }
    // The accepted requests are the same ones, and so are the world that they make and the reply to one frame more.
    ensures history { (setting : Setting) (frames : List Frame) → AllByRecursion IsOfVersion1 frames
        → history_from setting [] frames ≡ before.history_from setting [] frames }
    ensures world { (setting : Setting) (frames : List Frame) → AllByRecursion IsOfVersion1 frames
        → world_of setting (history_from setting [] frames)
        ≡ before.world_of setting (before.history_from setting [] frames) }
    ensures reply { (setting : Setting) (frames : List Frame) (frame : Frame) → AllByRecursion IsOfVersion1 frames
        → IsOfVersion1 frame
        → answer setting (history_from setting [] frames) frame
        ≡ before.answer setting (before.history_from setting [] frames) frame }
    // Every reply has the same bytes, also one that says that memory ran out. So the bytes written for a list of frames
    // are the same.
    ensures bytes { (client number : ℕ) (reply : Reply)
        → reply_frame 1 client number reply ≡ before.reply_frame client number reply }
    ensures written { (setting : Setting) (frames : List Frame) → AllByRecursion IsOfVersion1 frames
        → reply_frames frames (answers setting [] frames)
        ≡ before.reply_frames frames (before.answers setting [] frames) }
{}

/// After a legal history no answer says that memory ran out, and none says that the database refused.
pub fn answers_are_no_memory_faults()
    ensures memory { (setting : Setting) (history : History) (frame : Frame) → IsLegal setting history
        → is_out_of_memory (answer setting history frame) ≡ false }
    ensures store { (setting : Setting) (history : History) (frame : Frame) → IsLegal setting history
        → answer setting history frame ≢ Refused Store }
{}

/// A request that is refused leaves the history as it is.
pub fn a_refusal_changes_nothing()
    ensures { (setting : Setting) (history : History) (frame : Frame) (refusal : Refusal)
        → answer setting history frame ≡ Refused refusal → next setting history frame ≡ history }
{}

/// A query leaves the history as it is.
pub fn a_query_changes_nothing()
    ensures { (setting : Setting) (history : History) (frame : Frame) (request : Request) → command frame ≡ Some request
        → is_command request ≡ false → next setting history frame ≡ history }
{}

/// An accepted command gets the same reply for ever, whatever is asked after it.
pub fn an_accepted_reply_stays()
    // The answer to a command that is not refused becomes the reply of the next history.
    ensures kept { (setting : Setting) (history : History) (frame : Frame) (request : Request)
        → command frame ≡ Some request → is_command request ≡ true
        → is_refused (answer setting history frame) ≡ false
        → HasReply (next setting history frame) frame (answer setting history frame) }
    // A reply of a history is the answer after it, and after any further list of requests.
    ensures same { (setting : Setting) (history : History) (frame : Frame) (reply : Reply) (frames : List Frame)
        → HasReply history frame reply → IsSome (command frame)
        → answer setting (history_from setting history frames) frame ≡ reply }
    // So a command that is not refused gets the same answer ever after.
    ensures accepted { (setting : Setting) (history : History) (frame : Frame) (request : Request) (frames : List Frame)
        → command frame ≡ Some request → is_command request ≡ true
        → is_refused (answer setting history frame) ≡ false
        → answer setting (history_from setting (next setting history frame) frames) frame
        ≡ answer setting history frame }
    // If a legal history has an entry of this client, number, version, kind and body, its reply is the answer.
    ensures again { (setting : Setting) (history : History) (frame : Frame) (entry : Entry) (frames : List Frame)
        → IsLegal setting history → kept history frame.client frame.number ≡ Some entry
        → frame.version ≡ entry.frame.version → frame.kind ≡ entry.frame.kind → frame.body ≡ entry.frame.body
        → answer setting (history_from setting history frames) frame ≡ entry.reply }
    // Another request under a kept number is answered NumberReused, also if it has the same bytes in the other version.
    // A frame that asks nothing is answered Malformed.
    ensures other { (setting : Setting) (history : History) (frame : Frame) (entry : Entry) (frames : List Frame)
        → kept history frame.client frame.number ≡ Some entry → IsSome (command frame)
        → is_request_of entry frame ≡ false
        → answer setting (history_from setting history frames) frame ≡ Refused NumberReused }
    ensures malformed { (setting : Setting) (history : History) (frame : Frame) → command frame ≡ None
        → answer setting history frame ≡ Refused Malformed }
{}

/// The `as_of` of an export's part is the number of accepted commands: the length of the history.
pub fn an_export_is_as_of_the_history()
    ensures accepted { (setting : Setting) (history : History) → IsLegal setting history
        → (world_of setting history).accepted ≡ length history }
    ensures part { (setting : Setting) (history : History) (version profile from max as_of total : ℕ) (filter : Filter)
        (bytes : List ℕ)
        → IsLegal setting history
        → judge setting (world_of setting history) version (Export profile from max filter)
        ≡ Answered (Part as_of total bytes)
        → as_of ≡ length history }
{}

/// In the world of any history, all pieces of a finished file were taken, each once. So the progress that is reported
/// of it, twice the number of its pieces, is that of the pieces taken. Their bytes are as many as its size says.
pub fn a_finished_file_is_whole()
    ensures { (setting : Setting) (history : History) → FinishedAreWhole (world_of setting history) }
{}

/// A profile has exactly one record for each folder and each finished file, and no others.
pub fn records_are_of_nodes()
    ensures { (setting : Setting) (profile : Profile) (shown : Record)
        → Contains (records setting profile) shown ↔ IsRecordIn setting profile shown }
{}
