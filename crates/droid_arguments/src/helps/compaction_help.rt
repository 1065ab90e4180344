//! Help texts of `compact`.

pub const COMPACT_ABOUT: &str =
    "Make a journal smaller: remove the bytes of finished and abandoned files";

pub const JOURNAL_FILE_HELP: &str = "The journal of `serve --journal` or `run --journal`";

pub const COMPACT_QUIET_HELP: &str = "Do not print how large the journal was and is";

pub const COMPACT_HELP: &str = "\
A service that is started with the smaller journal answers every request as it would with the larger
one. The smaller one is written to FILE.new, and gets the name of FILE once it is complete and on the
disk: a crash at any moment leaves one or the other. If FILE.new is there already, it is removed. No
service may be using FILE. Name the registry that FILE was first started with. The disk needs room for
both files.

Standard error has the number of records and of bytes before and after.

`serve` does the same when it starts, if the journal has over 64 MiB and more than half of that is
pieces of finished or abandoned files.

Exit status:

  0  FILE is as small as it can be
  2  the command line is wrong
  3  the registry file could not be opened or read, or is not a registry; or the journal is damaged,
     is not a journal, or was made with another registry or version of droid_desk (Journal at N)
  4  FILE or FILE.new could not be opened, read, written or renamed (Journal); another process has it
     open (Journal in use); or memory ran out (Memory). FILE has all its records
  6  there was no memory to start: for the command line or the service

If several apply: the first of 2, 3, 6, 4. With 3, 4 and 6 standard error says what happened and
what to do.

Example:

  droid_desk compact ingest.journal --everyday";
