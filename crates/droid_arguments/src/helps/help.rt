//! Help texts of the program and of `script`.

pub const ABOUT: &str =
    "Identifies the formats of files and writes them as a DROID profile: a CSV with a row for each \
folder and file. It profiles a folder of this machine, or runs a service to which clients send \
files in pieces, over connections that may break.";

pub const HELP: &str = "\
`droid_desk COMMAND --help` explains a command and its exit statuses, and ends with an example.
`droid_desk script --help` also lists all requests, replies and refusals.

Example:

  droid_desk profile --output deposit.csv deposit";

pub const SCRIPT_ABOUT: &str =
    "Read requests as lines from standard input, and write a reply line for each";

pub const EVERYDAY_HELP: &str =
    "Identify files by the built-in registry of everyday formats; not together with --registry";

pub const REGISTRY_HELP: &str =
    "Identify files by this registry file (default: a sample of four invented formats, for trying)";

pub const SCRIPT_HELP: &str = "\
Each line is one request to a service that starts empty:

  CLIENT NUMBER create LIMIT ALL
      make a profile: LIMIT bytes at each end of a file are searched (1 to 65536); if no
      signature matches, ALL 1 tries all formats' extensions, and ALL 0 only those of formats
      without signatures; its files get MD5 hashes
  v2 CLIENT NUMBER create LIMIT ALL HASH
      make a profile whose files get the hash HASH: none, md5 or sha256
  CLIENT NUMBER folder PROFILE PARENT MODIFIED NAME
      add a folder to a profile: PARENT is the number of its parent folder, or 0 at the top,
      MODIFIED is in seconds since 1970-01-01T00:00:00 in UTC, and NAME is the rest of the
      line
  CLIENT NUMBER file PROFILE PARENT MODIFIED SIZE PIECESIZE NAME
      add a file of SIZE bytes, which comes in pieces of PIECESIZE bytes (1 to 1048576,
      after `v2 ` 1 to 4194304); the last piece has the rest, and an empty file has no piece
  CLIENT NUMBER piece PROFILE FILE INDEX HEX
      send a piece of a file: INDEX counts from 0, and HEX is its bytes, two hexadecimal
      digits for each, or - for no bytes; pieces may come in any order, each less than
      16 places past the first missing one
  CLIENT NUMBER finish PROFILE FILE
      finish a file that has every piece: it is identified, and its hash is reported; without
      `v2 ` this works in MD5 profiles only, and other profiles refuse it (10)
  CLIENT NUMBER abandon PROFILE FILE
      give up an unfinished file; its number is not used again
  CLIENT NUMBER status PROFILE FILE
      ask how many pieces of a file have arrived
  CLIENT NUMBER export PROFILE FROM MAX
  CLIENT NUMBER export PROFILE FROM MAX JOIN CRITERION ..
      ask for a part of the CSV text of the profile's folders and finished files: at most
      MAX bytes (1 to 1048576) from byte FROM on; JOIN is `all` or `any`: only rows that
      meet all, or any, of the criteria are shown; without criteria all rows are

Criteria: method=Signature, method=Extension, method=none, puid=A,B, ext=A,B,
mismatch=true, mismatch=false, atleast=SIZE, atmost=SIZE, type=File, type=Folder.

Every line may begin with `v2 `: its request is then sent in version 2, and otherwise in
version 1. The same request in the other version is another request, and needs its own NUMBER.

One space separates two words, and a line ends in a line feed alone. CLIENT is your ID, and
NUMBER your own number for the request. The replies come once the input has ended:

  made PROFILE                           a profile was made
  node ID                                a folder or a file was added
  taken HELD                             a piece was taken; HELD pieces are held now
  finished METHOD MISMATCH HASH PUIDS    a file was finished; METHOD is Signature,
                                         Extension or none; MISMATCH is true if its
                                         formats list only other extensions; HASH has
                                         the digits of its hash; - means no hash or PUID
  abandoned                              a file was given up
  progress HELD MISSING                  pieces held, and the first missing one; for a
                                         whole file both are its number of pieces
  part AS_OF TOTAL LENGTH                LENGTH bytes of the export follow, of TOTAL;
                                         AS_OF counts the accepted requests so far
  refused NUMBER                         the request was refused, and changed nothing
  bad line                               the line is not a request

The numbers of refusals:

   1 Malformed       2 NumberReused    3 NoSuchProfile    4 NoSuchNode
   5 NotAFolder      6 NotAFile        7 BadName          8 PathTooLong
   9 NameTaken      10 BadOption      11 TooLarge        12 AlreadyFinished
  13 BadPiece       14 PieceHeld      15 TooFarAhead     16 Incomplete
  17 LimitReached   18 Memory         19 Store

15 and 16 also print the first missing index, 17 which limit: profiles, nodes or unfinished.

Exit status:

  0  every line was a request
  2  the command line is wrong
  3  the registry file could not be opened or read, or is not a registry
  4  the input could not be read or is too long, a reply could not be written,
     or memory ran out
  5  some line was bad
  6  there was no memory to start: for the command line or the service

If several apply: the first of 2, 3, 6, 4, 5. With 3, 4 and 6 standard error says what happened
and what to do.

Example: the lines on the left print those on the right

  1 1 create 65536 0             made 1
  1 2 folder 1 0 0 in            node 1
  1 2 folder 1 0 0 in            node 1
  1 2 folder 1 0 0 out           refused 2
  1 3 file 1 1 0 3 2 a.txt       node 2
  1 4 piece 1 2 1 63             taken 1
  1 5 piece 1 2 0 6162           taken 2
  1 6 finish 1 2                 finished Extension false 900150983cd24fb0d6963f7d28e17f72 dev/4";
