//! Help texts of `profile`, and of the options that `submit` shares with it.

pub const PROFILE_ABOUT: &str =
    "Identify every file below a folder of this machine, and write a CSV of the folders and files";

pub const FOLDER_HELP: &str = "The folder to profile: everything inside it; it has no row itself";

pub const OWN_REGISTRY_HELP: &str =
    "Identify files by this registry file (default: the built-in registry of everyday formats)";

pub const MATCH_ALL_HELP: &str =
    "If no signature matches, try all formats' extensions (default: only those of formats without signatures)";

pub const HASH_HELP: &str = "Hash of each file: md5 (default), sha256 or none";

pub const OUTPUT_HELP: &str =
    "Write the CSV to this file, never an incomplete one (default: standard output)";

pub const MANIFEST_HELP: &str =
    "Write the files' checksums to this file, for `md5sum -c` or `sha256sum -c`, never an incomplete list";

pub const PROFILE_SKIPPED_HELP: &str =
    "Write what was skipped to this file, as a CSV of paths and reasons, never an incomplete one";

pub const PAGE_HELP: &str =
    "Also write a page with the profile's numbers to this file, never an incomplete one";

pub const QUIET_HELP: &str = "Print neither progress nor the summary";

pub const PROFILE_HELP: &str = "\
The CSV has a header, a row for each folder, and a row for each file, or one for each format if a
file has several. FILE_PATH is the path below DIR and begins with `/`; PARENT_ID is the ID of the
parent folder, or empty at the top; METHOD is Signature, Extension or empty; and LAST_MODIFIED is in
UTC. A folder comes before its contents, which are sorted by the bytes of their names. Rows are
written while DIR is read.

The file of --manifest has a line for each file of the CSV: its checksum, and its path below DIR.
Check it by `md5sum -c FILE` or, after --hash sha256, by `sha256sum -c FILE`, both run in DIR.

PAGE is the page that `droid_desk report` makes of the CSV. It is written last, and until then the
CSV is also kept in memory. Below, FILE means PAGE too.

Symbolic links below DIR are never followed, and are no part of a profile. What can't be profiled has
no row: sockets and devices; names that are not UTF-8 or that a profile can't have; a name that a
folder lists twice; folders that can't be listed, with everything in them; files that can't be opened
or read; files that change (also by a rename or by their rights) or are replaced between the listing
of their folder and the end of their reading; and what lies so deep that its path, with DIR, has more
than 4,095 bytes. Each of these and each link is printed on standard error with its path and the
reason, and written to the file of --skipped. Paths that are not UTF-8 or have control characters are
printed with escapes.

Standard error also has the registry with its MD5, and the progress: every ten seconds, or on a
terminal in one line that is updated. The summary at the end counts the files identified by
signature, by extension and not at all, mismatches, the ten most frequent formats, what was skipped
and how many links are among that, bytes and seconds.

At the end each FILE is complete, or as it was before. No two may have the same path. FILE may be
inside DIR: its old version is listed, the new one isn't. To write the CSV into DIR itself use
--output, not `>`: what the shell makes there is a file like all others, and is listed, perhaps empty,
or skipped as changed. FILE.N.unfinished beside a FILE is what an ended run left: the next run with
this FILE removes it, unless a run still writes it.

Exit status:

  0  everything in the folder is in the CSV, but for symbolic links
  2  the command line is wrong
  3  the registry file could not be opened or read, or is not a registry
  4  DIR is no folder, or can't be listed (Folder); the CSV or a FILE could not be written (Write); a
     FILE could not be created or replaced (Output); there are more than 4,294,967,295 folders and
     files (Numbers); or memory ran out (Memory). Standard output ends with a whole row, if it could
     be written
  5  the CSV is written, but something other than symbolic links was skipped
  6  there was no memory for the command line

If several apply: the first of 2, 3, 6, 4, 5. With 3, 4 and 6 standard error says what happened
and what to do.

Example:

  droid_desk profile --output deposit.csv --manifest deposit.md5 deposit";
