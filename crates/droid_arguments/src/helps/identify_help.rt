//! Help texts of `identify`.

pub const IDENTIFY_ABOUT: &str =
    "Say what files are, and why: their formats, and the bytes that show them";

pub const FILES_HELP: &str =
    "The files to identify; `-` is standard input, and a folder needs --recursive";

pub const RECURSIVE_HELP: &str = "Identify all files in the named folders too";

pub const FILES_FROM_HELP: &str =
    "Also identify the files whose names this file lists, one on a line; `-` is standard input";

pub const NULL_HELP: &str =
    "A zero byte ends each name of LIST, as `find -print0` writes it, and not a line feed";

pub const IDENTIFY_NAME_HELP: &str = "The name of the file whose bytes come from standard input";

pub const PUID_HELP: &str = "Print the PUIDs alone, one on a line";

pub const CSV_HELP: &str = "Print a CSV: a header, and a row for each format of each file";

pub const JSON_HELP: &str = "Print an object of JSON on a line for each file";

pub const JSON_SF_HELP: &str =
    "Print one document of JSON in the shape that `sf -json` of Siegfried writes";

pub const WHY_HELP: &str =
    "Also print why a file does not have this format, or what shows it: each of its signatures";

pub const IDENTIFY_HASH_HELP: &str =
    "Also read each file to its end, and print its hash: md5, sha256 or none (default)";

pub const IDENTIFY_HELP: &str = "\
Only the first and the last bytes of each file are read, unless --hash asks for more. A line is
printed for each format of a file:

  PATH: PUID NAME VERSION (MIME), BASIS

BASIS is where the byte sequences of the signature match, in their order: of the matches of each the
one with the least offset, and of these the shortest. `bytes 0 to 7` counts from the beginning of the
file, `the last 6` and `6 before the last 10` from its end. `extension EXT` means that no signature
matches. If the format lists other extensions than the file has, a warning follows. A file without a
format is `unidentified`, and if it is plain text, `unidentified, text, ` and ASCII, UTF-8 or UTF-16:
text has no control characters but tab, line feed, form feed and carriage return in the bytes that are
read, and UTF-16 needs a mark at its beginning.

The formats and the warning are those of the rows that `profile` writes.

--csv prints the columns PATH, SIZE, METHOD, MISMATCH, PUID, MIME_TYPE, FORMAT_NAME, FORMAT_VERSION,
BASIS and HASH. --json prints path, size, method, mismatch, text, the hash if one is asked for, and
formats, each with its basis: the extension, or the signature's number in the registry, counted from 0,
and its matches. In the document of --json-sf a file that could not be read has the reason in `errors`.

--why prints, after the lines of a file, a line for each signature of PUID with the match of each of
its byte sequences, or `no match`, and a line for each format that was found in its place by priority.

Names on the command line may be links to files, and what they lead to is identified. Links in a folder
or in LIST are not followed. Sockets, devices and pipes are never opened. Names have to be UTF-8, and
paths at most 4,095 bytes. What can't be identified is printed on standard error with its path and the
reason, and the others are done. Paths with control characters are printed with escapes, but in JSON
and CSV.

Exit status:

  0  all files were looked at
  1  with --puid: all files were looked at, and one has no format
  2  the command line is wrong
  3  the registry file could not be opened or read, or is not a registry, or has no format PUID
  4  the output could not be written (Write), or memory ran out (Memory). Standard output ends with a
     whole line, if it could be written
  5  something could not be read, or is a folder without --recursive
  6  there was no memory for the command line

If several apply: the first of 2, 3, 6, 4, 5, 1. With 3, 4 and 6 standard error says what happened
and what to do.

Example:

  droid_desk identify letter.pdf";
