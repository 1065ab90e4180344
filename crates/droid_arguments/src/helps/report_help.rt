//! Help texts of `report`.

pub const REPORT_ABOUT: &str =
    "Make a page with the numbers of a profile: one HTML file for a browser";

pub const PROFILE_FILE_HELP: &str = "The CSV of `profile` or of `submit --export`";

pub const TITLE_HELP: &str = "The page's title (default: the file's name)";

pub const PAGE_OUTPUT_HELP: &str =
    "Write the page to this file, never an incomplete one (default: standard output)";

pub const REPORT_HELP: &str = "\
The page says how many folders, files, bytes and formats there are, how the files were identified, and
how old and how large they are. It lists files without a format, with several formats or with an
unexpected extension, and equal files (the same hash and size). It has no script and loads nothing.

Exit status:

  0  the page is written
  2  the command line is wrong
  3  PROFILE could not be opened or read, or is not the CSV of a profile (Profile)
  4  the page could not be written (Write); PAGE could not be created or replaced, or is PROFILE itself
     (Output); or memory ran out (Memory). PAGE is as it was before
  6  there was no memory for the command line

With 3 and 4 standard error says what happened and what to do.

Example:

  droid_desk profile --output deposit.csv deposit
  droid_desk report --output deposit.html deposit.csv";
