//! Help texts of `verify`.

pub const VERIFY_ABOUT: &str =
    "Compare a folder of this machine with a list of its files, and write what differs as a CSV";

pub const VERIFY_FOLDER_HELP: &str = "The folder to compare: everything inside it";

pub const AGAINST_HELP: &str =
    "Compare with this file: the CSV of `profile` or of `submit --export`, or a list of checksums";

pub const QUICK_HELP: &str = "Compare only sizes and modification times, and read no file";

pub const SIZES_ONLY_HELP: &str =
    "Compare the sizes of files where FILE has no hash at all: their bytes are compared with nothing";

pub const IDENTIFY_HELP: &str =
    "Identify each file too, and compare its formats with those of FILE; not together with --quick";

pub const OWN_EVERYDAY_HELP: &str =
    "Identify files by the built-in registry of everyday formats, as without --registry";

pub const VERIFY_HELP: &str = "\
FILE is the CSV of `profile` or of `submit --export`, with any of the three hash columns, or a list as
`md5sum` and `sha256sum` write it, also with --tag, with paths below DIR. If DIR is a bag (it has a
bagit.txt) and the first line of FILE names a file below `data`, FILE is the bag's manifest, and the
folder `data` of DIR is compared. The first line of FILE shows which of these it is. All of FILE is read
before DIR.

Standard output gets a CSV: a header, and a row for each difference and for each file that could not be
compared, in the order of the paths.

  changed     the file has another hash or size, or is a folder on one side and a file on the other
  missing     DIR does not have the path
  new         FILE does not have the path
  moved       exactly one missing and one new file have this hash and size
  format      the file has other formats than FILE says; only with --identify
  unreadable  something could not be opened or read, changed (also by a rename or by its rights)
              between the listing of its folder and the end of its reading, lies so deep that its
              path, with DIR, has more than 4,095 bytes, or can't be in a profile (its name is not
              UTF-8, say). What FILE lists below an unreadable folder is not
              reported as missing
  unchecked   FILE or DIR has no hash of the file: what is known agrees, but its bytes were not compared

`path` is the path below DIR and begins with `/`; `size`, `hash` and `formats` are those of FILE,
`found_path`, `found_size`, `found_hash` and `found_formats` those of DIR, and `reason` says why
something is unreadable or unchecked. Only rows of `format` have formats: identifiers (PUIDs), separated
by spaces. A file counts as compared only by its hash. A list without hashes is compared with
--sizes-only or --quick; else each file is `unchecked`. A list of checksums has no folders, sizes or
formats: folders are then not compared, --quick compares only the names of files, and --identify needs
a CSV.

Symbolic links below DIR are never followed, and count as if they were not there. Standard error has
what was skipped, the progress, and a summary at the end: how many files and bytes were compared, and
how many differences of each kind there are.

Exit status:

  0  nothing differs, and each file was compared: by its hash, or as --quick or --sizes-only says
  2  the command line is wrong
  3  FILE could not be opened or read (Open); is neither a profile nor a list of checksums, contradicts
     itself or names no file (List); has hashes beside --sizes-only (Hashes); or has no formats to
     compare (Formats); the registry file could not be opened or read, or is not a registry
  4  DIR is no folder, or can't be listed (Folder); the CSV could not be written (Write); there are
     more than 4,294,967,295 folders and files (Numbers); a path was found twice (Twice); or memory
     ran out (Memory)
  5  something differs, could not be read, or was not compared
  6  there was no memory for the command line

If several apply: the first of 2, 6, 3 for the registry, 4 for DIR, 3, 4, 5. With 3, 4 and 6 standard
error says what happened and what to do.

Example:

  droid_desk profile --output deposit.csv deposit
  droid_desk verify deposit --against deposit.csv";
