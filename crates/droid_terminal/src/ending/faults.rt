//! The table of faults: by which name, with which status and with which sentence a command ends.
//! `specs/FaultTable.antt` has the rows too, for the clauses of the commands. A number in a sentence is a limit that
//! another crate has: no clause ties them.

use crate::ending::row::Row;
use crate::ending::status::Status;

/// Makes a row of a status, a name and a sentence, in which `..` stands for what it names.
macro_rules! fault_row {
    ($status:ident $name:literal $text:tt) => {
        fault_row!($status $name $text .. "")
    };
    ($status:ident $name:literal $text:tt ..) => {
        fault_row!($status $name $text .. "")
    };
    ($status:ident $name:literal $text:tt .. $rest:tt) => {
        Row {
            status: Status::$status,
            name: $name,
            text: $text,
            rest: $rest,
        }
    };
}

const NO_MEMORY: &str =
    "out of memory: close other programs, or allow this one more, and try again";

const LOST: &str = "the service no longer has what was sent: run the same command again";

const LOST_PIECES: &str =
    "the service no longer has pieces that it took, so it was restarted: run the same command again";

const MUST_TAKE: &str =
    "the service refused a request that it must take: this is a mistake in droid_desk or in the service";

const NO_REPLY: &str = "the reply could not be read: send the same lines again to resume";

const STRANGE: &str = "what came is not the reply: is droid_desk serve listening there?";

// Faults of several commands.

/// Memory ran out.
pub const MEMORY: Row = fault_row!(Failed "Memory" NO_MEMORY);
/// Not all could be written.
pub const UNWRITTEN: Row =
    fault_row!(Failed "Write" "could not be written: is the disk full, or its reader gone?");
/// Two files that are written have one path.
pub const SAME_OUTPUT: Row =
    fault_row!(Failed "Output" "another FILE has this path: choose another place");
/// A folder cannot be listed, for the system's reason.
pub const FOLDER_UNLISTED: Row = fault_row!(Failed "Folder" "cannot be listed: " ..);
/// A folder could not be listed, and now it can.
pub const FOLDER_UNLISTED_ONCE: Row = fault_row!(Failed "Folder" "could not be listed: try again");
/// Something else is in the place of a folder.
pub const NOT_A_FOLDER: Row =
    fault_row!(Failed "Folder" "not a folder: name the folder that has the files");
/// A folder is not there.
pub const NO_FOLDER: Row = fault_row!(Failed "Folder" "no such folder: check the path");
/// A folder cannot be looked at, for the system's reason.
pub const FOLDER_UNSEEN: Row = fault_row!(Failed "Folder" "" ..);
/// An output has an empty name.
pub const OUTPUT_UNNAMED: Row =
    fault_row!(Failed "Output" "the name of an output file is empty: name a file");
/// Something else is in the place of an output.
pub const OUTPUT_IS_NO_FILE: Row =
    fault_row!(Failed "Output" "something else than a file has this name: choose another");
/// The folder of an output is not there.
pub const OUTPUT_WITHOUT_FOLDER: Row =
    fault_row!(Failed "Output" "cannot be created: its folder does not exist: create it first");
/// A file is in the place of that folder.
pub const OUTPUT_BELOW_A_FILE: Row = fault_row!(Failed "Output"
    "cannot be created: a file stands in the place of its folder: choose another");
/// That folder may not be looked into.
pub const OUTPUT_DENIED: Row =
    fault_row!(Failed "Output" "cannot be created: permission denied: choose another folder");
/// That folder cannot be looked at, for another reason.
pub const OUTPUT_FOLDER_UNUSABLE: Row =
    fault_row!(Failed "Output" "cannot be created: its folder cannot be used: choose another");
/// An output cannot be created, though its folder is there.
pub const OUTPUT_REFUSED: Row = fault_row!(Failed "Output"
    "cannot be created: is its folder yours to write, and the disk not full?");
/// There are too many folders and files.
pub const TOO_MANY: Row = fault_row!(Failed "Numbers" "too large: take its subfolders one by one");
/// No page can be made of the CSV that the command itself made.
pub const OWN_CSV_REFUSED: Row = fault_row!(Failed "Profile"
    "no page can be made of it: this is a mistake in droid_desk");
/// A list, or the CSV for a page, is no profile's CSV.
pub const LIST_OTHER: Row = fault_row!(Unread "List"
    "does not begin with the column names of a profile: name a CSV of `profile` or of an export");
/// A profile's CSV lacks a column that is needed, which is named.
pub const LIST_LACKS: Row = fault_row!(Unread "List" "there is no column " ..);
/// A record, which is named, has another number of fields.
pub const LIST_FIELDS: Row =
    fault_row!(Unread "List" "record " .. " does not have a field for each column");
/// A field is wrong: the record and the column are named.
pub const LIST_WRONG: Row = fault_row!(Unread "List" "record " .. " is wrong");
/// A record contradicts another: it and the column are named.
pub const LIST_CONTRADICTS: Row =
    fault_row!(Unread "List" "record " .. " contradicts another record");
/// A list has a path twice, which is named.
pub const LIST_TWICE: Row = fault_row!(Unread "List" "has a path twice: " ..);
/// A read failed.
pub const READING_FAILED: Row =
    fault_row!(Unread "Read" "reading failed: try again with a copy of the file");

// Faults of report.

/// The CSV for a page is not there.
pub const PROFILE_MISSING: Row = fault_row!(Unread "Profile" "no such file: check the path");
/// The CSV for a page could not be read, for the system's reason.
pub const PROFILE_UNREAD: Row = fault_row!(Unread "Profile" "" ..);
/// The page would replace its CSV.
pub const CSV_ITSELF: Row =
    fault_row!(Failed "Output" "this is the CSV itself: choose another place");

// Faults of registry.

/// A file to read is not there.
pub const UNOPENED_MISSING: Row = fault_row!(Unread "Read" "no such file: check the path");
/// A folder is in the place of the signature file.
pub const UNOPENED_FOLDER: Row =
    fault_row!(Unread "Read" "a folder: name the signature file in it");
/// A file could not be opened, for the system's reason.
pub const UNOPENED: Row = fault_row!(Unread "Read" "" ..);
/// The signature file is too long.
pub const LONG_SIGNATURE_FILE: Row =
    fault_row!(Unread "TooLong" "more than 67,108,864 bytes: is it a signature file?");
/// A signature file is no XML from this line on. The next four name the line too.
pub const NOT_WELL_FORMED: Row =
    fault_row!(Unread "NotWellFormed" "line " .. ": not XML: is it a signature file, and whole?");
/// It has a document type declaration.
pub const DOCTYPE: Row = fault_row!(Unread "Doctype"
    "line " .. ": a document type declaration, which no signature file has");
/// Its elements are too deep.
pub const TOO_DEEP: Row = fault_row!(Unread "TooDeep"
    "line " .. ": more than 16 elements inside one another: is it a signature file?");
/// An element has too many attributes.
pub const TOO_MANY_ATTRIBUTES: Row = fault_row!(Unread "TooManyAttributes"
    "line " .. ": an element with more than 64 attributes: is it a signature file?");
/// It is in another encoding.
pub const ENCODING: Row = fault_row!(Unread "Encoding"
    "line " .. ": an encoding other than UTF-8: save the file as UTF-8");
/// Its root is another.
pub const OTHER_ROOT: Row = fault_row!(Unread "NotASignatureFile"
    "the outermost element is not FFSignatureFile: is it a signature file?");
/// A number in it is missing or wrong.
pub const WRONG_NUMBER: Row = fault_row!(Unread "NotASignatureFile"
    "an ID, a Position or an offset is missing or is not a number");
/// A subsequence in it has no sequence, or several.
pub const WRONG_SEQUENCE: Row =
    fault_row!(Unread "NotASignatureFile" "a SubSequence has no Sequence or several");
/// The registry would be too long.
pub const LONG_REGISTRY: Row =
    fault_row!(Unread "LongRegistry" "the registry would have more than 16,777,216 bytes");
/// An output would replace the signature file.
pub const SIGNATURE_FILE_ITSELF: Row =
    fault_row!(Failed "Output" "this is the signature file itself: choose another place");
/// The registry or the note could not be created.
pub const REGISTRY_REFUSED: Row = fault_row!(Failed "Output"
    "cannot be created: is its folder there and yours to write, and the disk not full?");

// Faults of identify.

/// The registry does not have the format of which is asked why a file does not have it.
pub const NO_SUCH_FORMAT: Row = fault_row!(Unread "Format"
    "the registry has no such format: check the PUID, or name another registry");

// Faults of verify.

/// A list is not there.
pub const LIST_MISSING: Row =
    fault_row!(Unread "Open" "no such file: check the path after --against");
/// A list could not be opened or read, for the system's reason.
pub const LIST_UNOPENED: Row = fault_row!(Unread "Open" "" ..);
/// A list of checksums names no file.
pub const LIST_OF_NOTHING: Row =
    fault_row!(Unread "List" "it names no file: name the CSV of a profile, or a list of checksums");
/// A line is malformed. It is named, as for the next two.
pub const LIST_LINE: Row = fault_row!(Unread "List"
    "line " .. " is malformed: name the CSV of a profile, or a list of checksums");
/// A line names no file below the folder.
pub const LIST_OUTSIDE: Row = fault_row!(Unread "List"
    "line " .. " names no file below the folder: name the CSV of a profile, or a list of checksums");
/// A line has another kind of digest.
pub const LIST_DIGEST: Row = fault_row!(Unread "List"
    "line " ..
    " has a digest of another kind than the lines before it: name the CSV of a profile, or a list of checksums");
/// A list has hashes, and sizes alone are to be compared.
pub const HAS_HASHES: Row =
    fault_row!(Unread "Hashes" "has hashes: leave out --sizes-only, and they are compared");
/// A list has no formats, and they are to be compared.
pub const NO_FORMATS: Row = fault_row!(Unread "Formats"
    "a list of checksums has no formats: name the CSV of a profile, or leave out --identify");
/// A folder lists a name twice.
pub const LISTED_TWICE: Row =
    fault_row!(Failed "Twice" "a name is listed twice: did it change meanwhile? Try again");

// Faults of submit.

/// An output lies in the folder that is submitted.
pub const LIES_IN_THE_FOLDER: Row = fault_row!(Failed "Output"
    "lies in the folder that is submitted, and would change it: choose another place");
/// Not all of an output could be written.
pub const OUTPUT_UNWRITTEN: Row =
    fault_row!(Failed "Write" "could not be written: is the disk full?");
/// Nobody listens on the port.
pub const NOBODY_LISTENS: Row = fault_row!(Failed "Socket" ", or wait longer by --wait");
/// The port cannot be connected to, for the system's reason.
pub const UNCONNECTED: Row = fault_row!(Failed "Socket" "cannot be connected to: " ..);
/// The walk that counts the folder made a mistake.
pub const WALK_MISTAKE: Row = fault_row!(Failed "Reply" "this is a mistake in droid_desk");
/// New folders appeared during a walk.
pub const NEW_FOLDERS: Row = fault_row!(Failed "Folders"
    "new folders appeared while it was read: run the same command again");
/// There are too many folders and files to submit.
pub const ENTRIES: Row = fault_row!(Failed "Entries: there are more than 100,000 folders and files"
    "more than 100,000 folders and files: submit its subfolders one by one");
/// The files have too many bytes to count.
pub const BYTES: Row = fault_row!(Failed "Bytes"
    "the total size of its files is too large a number: submit its subfolders one by one");
/// A request would be too long.
pub const LONG_REQUEST: Row =
    fault_row!(Failed "TooLong" "a request is too long: this is a mistake in droid_desk");
/// A reply does not fit its request.
pub const STRANGE_REPLY: Row = fault_row!(Failed "Reply"
    "a reply came that does not fit its request: this is a mistake in droid_desk or in the service");
/// Memory ran out, here or in the service.
pub const MEMORY_SOMEWHERE: Row = fault_row!(Failed "Memory"
    "out of memory, here or in the service: run the same command again to resume");
/// The connection broke for longer than these seconds.
pub const BROKEN: Row = fault_row!(Failed "Broken"
    "the connection broke and could not be made again within " .. " seconds: run the same command again to resume");
/// Something else than a service listens on the port.
pub const STRANGER: Row = fault_row!(Failed "Stranger"
    "what came is not a reply to the request: is droid_desk serve listening there?");
/// The service was restarted.
pub const RESTARTED: Row = fault_row!(Failed "Restarted"
    "the service has lost what was sent, so it was restarted: run the same command again, it starts anew");
/// No place for an unfinished file came free within these seconds.
pub const BUSY: Row = fault_row!(Failed "Busy"
    "64 files are unfinished there, and no place came free within " ..
    " seconds: finish or abandon some, or wait longer by --wait");
/// The submission was begun with other options, which are named.
pub const OTHER_OPTIONS: Row = fault_row!(Failed "Options"
    "this submission was begun " .. ": give the same, or another --name");
/// The CSV has so many bytes, which are too many.
pub const LONG_EXPORT: Row = fault_row!(Failed "TooLong"
    "the profile's CSV has " .. " bytes, more than the 1073741824 that submit reads: submit its subfolders one by one");
/// Others used the service while the CSV was read.
pub const DISTURBED: Row = fault_row!(Failed "Disturbed"
    "other clients sent requests between the parts of the CSV, a hundred times: run the same command again later");
/// The CSV is no profile's: the record and the column are named.
pub const WRONG_EXPORT: Row = fault_row!(Failed "Reply"
    "the CSV that came is not that of a profile: record " .. ": this is a mistake in droid_desk or in the service");
/// The service has as many profiles as it takes.
pub const FULL_SERVICE: Row = fault_row!(Failed "Profiles"
    "the service has 64 profiles and takes no more: start another service on another port");
/// The number of a request was used for another one.
pub const NUMBER_REUSED: Row = fault_row!(Failed "NumberReused"
    "this client has used the number of a request for another one: give another --client");
/// The service no longer has the profile.
pub const NO_SUCH_PROFILE: Row = fault_row!(Failed "NoSuchProfile" LOST);
/// It no longer has a folder or file of it.
pub const NO_SUCH_NODE: Row = fault_row!(Failed "NoSuchNode" LOST);
/// It has something else in the place of a folder.
pub const NOT_A_FOLDER_THERE: Row = fault_row!(Failed "NotAFolder" LOST);
/// It has something else in the place of a file.
pub const NOT_A_FILE_THERE: Row = fault_row!(Failed "NotAFile" LOST);
/// A file lacks pieces in the service.
pub const INCOMPLETE: Row = fault_row!(Failed "Incomplete" LOST_PIECES);
/// A piece is too far ahead of those in the service.
pub const TOO_FAR_AHEAD: Row = fault_row!(Failed "TooFarAhead" LOST_PIECES);
/// The service's store failed.
pub const STORE_FAILED: Row = fault_row!(Failed "Store"
    "the service's store failed: run the same command again, or start the service anew");
/// The service is out of memory.
pub const SERVICE_MEMORY: Row = fault_row!(Failed "Memory"
    "the service is out of memory: run the same command again to resume");
/// The service took a request for a malformed one. No refusal of the next ten can come of a right one either.
pub const MALFORMED: Row = fault_row!(Failed "Malformed" MUST_TAKE);
/// A name that it does not take.
pub const BAD_NAME: Row = fault_row!(Failed "BadName" MUST_TAKE);
/// A path that is too long for it.
pub const PATH_TOO_LONG: Row = fault_row!(Failed "PathTooLong" MUST_TAKE);
/// A name that its folder has.
pub const NAME_TAKEN: Row = fault_row!(Failed "NameTaken" MUST_TAKE);
/// Options that it does not take.
pub const BAD_OPTION: Row = fault_row!(Failed "BadOption" MUST_TAKE);
/// A file that is too large for it.
pub const TOO_LARGE: Row = fault_row!(Failed "TooLarge" MUST_TAKE);
/// A file that is finished.
pub const ALREADY_FINISHED: Row = fault_row!(Failed "AlreadyFinished" MUST_TAKE);
/// A piece that is none of its file.
pub const BAD_PIECE: Row = fault_row!(Failed "BadPiece" MUST_TAKE);
/// A piece that it has with other bytes.
pub const PIECE_HELD: Row = fault_row!(Failed "PieceHeld" MUST_TAKE);
/// More folders and files than it takes.
pub const NODES: Row = fault_row!(Failed "Nodes" MUST_TAKE);
/// More unfinished files than it takes.
pub const UNFINISHED: Row = fault_row!(Failed "Busy" MUST_TAKE);

// Faults of script, run, serve, send and compact.

/// A registry file has too many bytes.
pub const REGISTRY_LONG: Row =
    fault_row!(Unread "TooLong" "more than 16,777,216 bytes: is it a registry file?");
/// Memory ran out for a registry.
pub const REGISTRY_MEMORY: Row = fault_row!(Unread "Memory" NO_MEMORY);
/// A registry file is not there.
pub const REGISTRY_MISSING: Row =
    fault_row!(Unread "Read" "no such file: check the path after --registry");
/// A registry file may not be read.
pub const REGISTRY_DENIED: Row =
    fault_row!(Unread "Read" "permission denied: make the file readable");
/// A folder is in the place of a registry file.
pub const REGISTRY_IS_A_FOLDER: Row =
    fault_row!(Unread "Read" "a folder: name the registry file in it");
/// A registry file could not be opened, for the system's reason.
pub const REGISTRY_UNOPENED: Row = fault_row!(Unread "Read" "" ..);
/// A field of this record is not UTF-8. The next five name the record too.
pub const NOT_UTF8: Row =
    fault_row!(Unread "NotUtf8" "record " .. ": a field is not UTF-8 text: save the file as UTF-8");
/// It is no record of a registry.
pub const BAD_RECORD: Row = fault_row!(Unread "BadRecord"
    "record " .. ": expected six fields, the first of them F, E, S, B or P: is it a registry file?");
/// Its pattern is none.
pub const BAD_PATTERN: Row = fault_row!(Unread "BadPattern"
    "record " .. ": the last field is not a pattern: expected one as 25504446");
/// It names a format that no record above it has.
pub const UNKNOWN_PUID: Row = fault_row!(Unread "UnknownPuid"
    "record " .. ": expected an identifier that an F record above gives");
/// It has the identifier of a format above.
pub const DUPLICATE_PUID: Row = fault_row!(Unread "DuplicatePuid"
    "record " .. ": an F record above has this identifier: each may stand once");
/// A registry has no place for it.
pub const TOO_MANY_OF_A_KIND: Row = fault_row!(Unread "TooMany"
    "record " .. ": one more of its kind than a registry may have: shorten it");
/// Memory ran out for the service.
pub const SERVICE_WITHOUT_MEMORY: Row = fault_row!(Unmade "Memory" NO_MEMORY);
/// The database refused its tables.
pub const SERVICE_REFUSED: Row =
    fault_row!(Unmade "Store" "the database refused its tables: this is a mistake in droid_desk");
/// Standard input has too many bytes.
pub const INPUT_TOO_LONG: Row = fault_row!(Failed "TooLong"
    "standard input has more than 67,108,864 bytes: use serve and send");
/// Standard input could not be read.
pub const INPUT_UNREAD: Row = fault_row!(Failed "Read" "standard input could not be read");
/// Standard output could not be written.
pub const OUTPUT_STOPPED: Row = fault_row!(Failed "Write"
    "standard output could not be written: is the disk full, or its reader gone?");
/// Standard input ends within a frame.
pub const FRAME_TRUNCATED: Row =
    fault_row!(Failed "Truncated" "standard input ends inside a frame");
/// A frame has another version.
pub const FRAME_VERSION: Row = fault_row!(Failed "BadVersion"
    "a frame begins with another byte than 1 or 2: is standard input a stream of frames?");
/// A frame is too long.
pub const FRAME_TOO_LONG: Row = fault_row!(Failed "TooLong"
    "the body of a frame is longer than its version allows: send smaller pieces");
/// No number for a request is left.
pub const SENT_NUMBERS: Row =
    fault_row!(Failed "NumbersUsedUp" "no number is left: use another --client");
/// A request could not be sent.
pub const SENT_BROKEN: Row =
    fault_row!(Failed "Write" "the connection broke: send the same lines again to resume");
/// The service closed the connection.
pub const SENT_CLOSED: Row = fault_row!(Failed "Closed"
    "the service closed the connection: start it again with more --connections, if it has ended");
/// A reply ends within its frame.
pub const REPLY_TRUNCATED: Row = fault_row!(Failed "Truncated" NO_REPLY);
/// A reply has another version.
pub const REPLY_VERSION: Row = fault_row!(Failed "BadVersion" NO_REPLY);
/// A reply is too long.
pub const REPLY_TOO_LONG: Row = fault_row!(Failed "TooLong" NO_REPLY);
/// Memory ran out for a reply.
pub const REPLY_MEMORY: Row = fault_row!(Failed "Memory" NO_REPLY);
/// A reply could not be read.
pub const REPLY_UNREAD: Row = fault_row!(Failed "Read" NO_REPLY);
/// What came is no reply.
pub const SENT_MALFORMED: Row = fault_row!(Failed "Malformed" STRANGE);
/// What came is no reply to the request.
pub const SENT_STRANGER: Row = fault_row!(Failed "Stranger" STRANGE);
/// What came is a reply that came before.
pub const SENT_REPEATED: Row = fault_row!(Failed "Repeated" STRANGE);
/// Another program listens on the port, which is named.
pub const PORT_IN_USE: Row = fault_row!(Failed "Socket"
    "port " .. " is in use: choose another, or stop the program that listens on it");
/// Nobody listens on the port.
pub const PORT_UNHEARD: Row = fault_row!(Failed "Socket" "");
/// The port may not be listened on.
pub const PORT_DENIED: Row =
    fault_row!(Failed "Socket" "permission denied: choose a port above 1023");
/// The port could not be used, for the system's reason.
pub const PORT_UNUSABLE: Row = fault_row!(Failed "Socket" "" ..);
/// No connection could be accepted.
pub const PORT_STOPPED: Row =
    fault_row!(Failed "Socket" "no connection could be accepted: start the service again");
/// Another process has the journal open.
pub const JOURNAL_IN_USE: Row =
    fault_row!(Failed "Journal in use" "another droid_desk has this journal open: stop it first");
/// Something else is in the place of a journal.
pub const JOURNAL_NO_FILE: Row = fault_row!(Failed "Journal"
    "this is a folder, a link or a device: name a file, or a path where nothing is yet");
/// A journal could not be opened, for the system's reason.
pub const JOURNAL_UNOPENED: Row = fault_row!(Failed "Journal"
    "could not be opened (" .. "): check the path, and whether you may write in its folder");
/// A journal begins with another header.
pub const JOURNAL_OTHER: Row = fault_row!(Unread "Journal"
    "not a journal of this registry and this version of droid_desk, or damaged at its beginning: " ..
    "name the registry of its first start, restore a copy, or name a new file");
/// A record, which is named, has another reply.
pub const JOURNAL_REPLY: Row = fault_row!(Unread "Journal"
    "the reply in record " .. " is not the one that its request gets: restore a copy of the file");
/// A journal is damaged behind this record.
pub const JOURNAL_DAMAGED: Row =
    fault_row!(Unread "Journal" "damaged after record " .. ": restore a copy of the file");
/// Memory ran out for a journal.
pub const JOURNAL_MEMORY: Row = fault_row!(Failed "Memory"
    "out of memory: close other programs, or allow this one more, and start again");
/// A journal could not be read.
pub const JOURNAL_UNREAD: Row = fault_row!(Failed "Journal" "could not be read: check the disk");
/// A journal could not be written.
pub const JOURNAL_UNWRITTEN: Row = fault_row!(Failed "Journal"
    "could not be written, so nothing more is answered: is the disk full? Make room, and start again");
/// The smaller journal could not be made, for the system's reason.
pub const JOURNAL_NOT_SMALLER: Row = fault_row!(Failed "Journal" "" .. " is as it was");
/// The smaller journal could not be written.
pub const SMALLER_UNWRITTEN: Row =
    fault_row!(Failed "Journal" "could not be written: is the disk full? " .. " is as it was");
/// The smaller journal may not have got its name.
pub const NOT_EXCHANGED: Row = fault_row!(Failed "Journal"
    "has all its records, but the smaller journal could not be synced or renamed: try again");
