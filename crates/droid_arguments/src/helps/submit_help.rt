//! Help texts of `submit`.

pub const SUBMIT_ABOUT: &str =
    "Submit every file below a folder of this machine to a running service, over a connection that may break";

pub const SUBMIT_FOLDER_HELP: &str =
    "The folder to submit: everything inside it, not the folder itself";

pub const SUBMIT_PORT_HELP: &str =
    "Connect to this port of 127.0.0.1, where `serve` listens (1 to 65535)";

pub const SUBMIT_CLIENT_HELP: &str =
    "Your ID: the same each time that you submit this folder (0 to 4294967295)";

pub const NAME_HELP: &str =
    "Name of the submission: the same each time (default: the absolute path of DIR)";

pub const WAIT_HELP: &str =
    "Try to connect or to reconnect for this many seconds (0 to 86400, default 60)";

pub const TIMEOUT_HELP: &str =
    "Reconnect if a reply takes longer than this many seconds (1 to 86400, default 60)";

pub const PIECE_SIZE_HELP: &str =
    "Send files in pieces of this many bytes (1 to 4194304, default 262144)";

pub const CHECK_HELP: &str =
    "Read also the files that an earlier run finished, and compare their hashes (not with --hash none)";

pub const EXPORT_HELP: &str =
    "At the end write the profile's CSV to this file, never an incomplete one";

pub const SKIPPED_HELP: &str =
    "At the end write what was skipped to this file, as a CSV of paths and reasons, never an incomplete one";

pub const SUBMIT_PAGE_HELP: &str =
    "At the end write a page with the profile's numbers to this file, never an incomplete one";

pub const SUBMIT_HELP: &str = "\
The folder becomes one profile of the service. You can give the same command again after any
interruption, and over a folder in any state: what is in the profile is not sent again, finished
files are not even read, and what was skipped is tried again. This works because the number of each
request is made from what the request asks and from the submission's name.

So a file whose bytes changed while its size and its second of modification stayed is not noticed.
The summary counts the files that were not read (`files not read again`); --check reads them and
compares their hashes, and sends nothing of them. With --hash none no bytes are ever compared.

The profile has a row for each folder and file as it was submitted, not the bytes of files. A folder
or file that has changed since then is skipped, a folder with everything inside it; a folder also
changes when an entry is added to it or removed from it. Another --name makes another profile, of the
folder as it is now. With another --piece-size than before, all files in the profile count as
changed. A file that changes (also by a rename or by its rights) or is replaced between the listing
of its folder and the end of its reading is skipped, and so is what lies so deep that its path, with
DIR, has more than 4,095 bytes.

Two submissions of one client need two names. Use the client for submissions only: `send` would take
numbers that `submit` needs.

If nobody listens yet, or the connection breaks, the client tries to connect for --wait seconds. It
pauses between tries, for 0.05 to 2 seconds, longer each time. On each new connection it first checks
that the service still has the profile. It sends up to sixteen requests ahead of their replies.

At the end the client reads the profile's CSV, even without --export, and compares it with the
folder. Standard output has the profile's number. Standard error has what was skipped, what differs,
what is in the profile and not in the folder, and the progress, as `profile` prints it. PAGE is the
page that `droid_desk report` makes of the CSV. At the end each FILE and PAGE is complete, or as it
was before. No two may have the same path, and none may lie inside DIR.

Exit status:

  0  the service's profile has exactly the folders and files of DIR, each with its size and its
     modification time, and with the hash of the bytes that this run read; --check reads all
  2  the command line is wrong
  4  the command ended early, by one of these faults:
       Folder     DIR is no folder, or can't be listed
       Socket     nobody listened on the port within --wait
       Broken     the connection broke, and could not be made again within --wait
       Stranger   a frame came that does not reply to the request
       Reply      a reply came that does not fit the request, or a CSV that no profile has: the record
                  and the column are named
       TooLong    the profile's CSV has more than 1,073,741,824 bytes
       Restarted  the service lost what it had: run the command again, and it starts anew
       Busy       64 files of other submissions are unfinished, and no place came free within --wait
       Options    the submission had another --hash, --limit or --match-all: the message names it
       Profiles   the service has 64 profiles, and takes no more
       Entries    DIR has more than 100,000 folders and files; nothing was sent
       Bytes      the total size of the files is too large a number; nothing was sent
       Folders    new folders appeared meanwhile: run the command again
       Disturbed  other requests came between the parts of the CSV, a hundred times
       Write      a FILE or PAGE could not be written
       Output     a FILE or PAGE lies inside DIR, has the path of another one, or could not be created
                  or replaced
       Memory     memory ran out, here or in the service
     or by another refusal of a request, such as NoSuchProfile, NoSuchNode, NotAFolder, NumberReused,
     Store or Malformed; `droid_desk script --help` lists all refusals
  5  something was skipped, differs, or is in the profile and not in the folder
  6  there was no memory for the command line

If several apply: the first of 2, 6, 4, 5. With 4 and 6 standard error says what happened and what
to do.

Example:

  droid_desk serve --port 4711 --everyday --connections 100 &
  droid_desk submit --port 4711 --client 1 --export deposit.csv deposit";
