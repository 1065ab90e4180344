//! Help texts of `registry`.

pub const CONVERSION_ABOUT: &str =
    "Make a registry file, for --registry, from PRONOM's signature file";

pub const SIGNATURE_FILE_HELP: &str =
    "PRONOM's signature file, as DROID uses it: DROID_SignatureFile_V120.xml, say";

pub const REGISTRY_OUTPUT_HELP: &str =
    "Write the registry to this file, never an incomplete one (default: standard output)";

pub const CONVERSION_QUIET_HELP: &str =
    "Print only counts of what was taken and left out, without a line for each thing";

pub const CONVERSION_HELP: &str = "\
The National Archives publishes PRONOM's signature file a few times a year. The registry has its
formats with their names, versions, media types, extensions and priorities, and identifies files by
its signatures. A signature is taken whole or not at all.

Standard error has the version and the date of FILE; how many formats, signatures, extensions and
priorities were taken; how much was left out, and a line that says why for each thing; and the MD5 of
the registry. With --output, OUT.txt gets a line with the version, the date and the MD5.

Exit status:

  0  the registry has everything that FILE has
  2  the command line is wrong
  3  FILE could not be opened or read (Read), or has more than 67,108,864 bytes (TooLong); it is not
     XML (NotWellFormed), has a document type (Doctype), more than 16 elements inside one another
     (TooDeep) or more than 64 attributes in one (TooManyAttributes), or is not in UTF-8 (Encoding); it
     is not a signature file (NotASignatureFile); or the registry would have more than 16,777,216
     bytes (LongRegistry)
  4  the registry or OUT.txt could not be written (Write), or could not be created or replaced, or
     would be FILE itself (Output); or memory ran out (Memory). OUT is complete, or as it was before
  5  the registry is written, but something in FILE was left out or has an unknown name
  6  there was no memory for the command line

With 3, 4 and 6 standard error says what happened and what to do.

Example:

  droid_desk registry --output pronom.csv DROID_SignatureFile_V120.xml
  droid_desk profile --registry pronom.csv --output deposit.csv deposit";
