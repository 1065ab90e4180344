//! Help texts of `run`, `serve` and `send`.

pub const RUN_ABOUT: &str =
    "Read request frames from standard input, and write a reply frame for each to standard output";

pub const JOURNAL_HELP: &str =
    "Append each accepted request to this file, and start with the requests in it (default: start empty)";

pub const RUN_HELP: &str = "\
Each frame is one request to a service that starts empty, or with what --journal has. Numbers are
big-endian:

  version 1 or 2, 1 byte | kind, 1 byte | client, 4 bytes | number, 8 bytes |
  length of the body, 4 bytes, at most 1048640 in version 1 and 4194368 in version 2 | body

Version 2 names the hash of a profile's files, and has larger pieces. A reply frame has the version,
client and number of its request. Up to 16 of the frames that have come are handled before their
replies are written. A frame whose body is not a request is answered `Malformed`, and the stream goes
on. After 1,000,000 frames no more are read.

With --journal each accepted request is appended to the journal with its reply, and the reply is sent
only once both are on the disk. So nothing that was answered is lost if the service is killed: start
it again with the journal and the registry. If there is no such file, it is created. A crash may leave
a part of a record at the end: this part is moved to FILE.torn, and standard error says so. Only one
process at a time can use a journal.

Exit status:

  0  the input ended between frames, or 1,000,000 frames were answered
  2  the command line is wrong
  3  the registry file could not be opened or read, or is not a registry; or the journal is damaged,
     is not a journal, or was made with another registry or version of droid_desk (Journal at N)
  4  a frame could not be read, or a reply not be written: Truncated, BadVersion, TooLong, Memory,
     Read or Write; the journal could not be opened, read or written (Journal); or another process has
     it open (Journal in use). All frames before were answered
  6  there was no memory to start: for the command line or the service

If several apply: the first of 2, 3, 6, 4. With 3, 4 and 6 standard error says what happened and
what to do.

Example:

  droid_desk run --everyday <requests >replies";

pub const SERVE_ABOUT: &str =
    "Answer request frames on connections to a port of 127.0.0.1, one after the other or many at once";

pub const SERVE_PORT_HELP: &str = "Listen on this port of 127.0.0.1 (1 to 65535)";

pub const CONNECTIONS_HELP: &str = "Exit after this many connections (1 to 1000, default 1)";

pub const AT_ONCE_HELP: &str =
    "Serve up to this many connections at once, in turns (1 to 64, default 1)";

pub const IDLE_HELP: &str = "\
Close a connection that neither sends nor takes anything for this many seconds (1 to 3600, default 60 with --at-once, \
else never)";

pub const FOREVER_HELP: &str = "Never exit; not together with --connections";

pub const VERBOSE_HELP: &str =
    "Print a line to standard error for each connection that ended, and one a minute";

pub const SERVE_HELP: &str = "\
The service prints `listening P` to standard output once it listens. It answers each connection as
`droid_desk run` answers its input, up to 1,000,000 frames. Later connections find what earlier ones
have sent. When the service ends, all is lost, unless it has a journal: `droid_desk run --help`
explains it. A large journal may be made smaller at the start: `droid_desk compact --help`. Failed
connections don't stop it: a client that lost its connection sends its requests again under the same
numbers.

Without --at-once one connection is served after the other, and a silent client keeps all others
waiting. With --at-once it delays none: the requests of all are handled one after another, up to 16 of
one before the next one's turn, and a further client waits until one leaves. Replies come in order on
each connection. It is closed when its frames end, at a faulty frame, when it fails, or when it was
idle for too long.

Exit status:

  0  all connections were served, even if some broke
  2  the command line is wrong
  3  the registry file could not be opened or read, or is not a registry; or the journal is damaged,
     is not a journal, or was made with another registry or version of droid_desk (Journal at N)
  4  the port is not free, or waiting for connections failed (Socket); `listening P` could not be
     written (Write); the journal could not be opened, read or written (Journal); or another process
     has it open (Journal in use)
  6  there was no memory to start: for the command line or the service

If several apply: the first of 2, 3, 6, 4. With 3, 4 and 6 standard error says what happened and
what to do.

Example:

  droid_desk serve --port 4711 --everyday --journal ingest.journal --connections 100";

pub const SEND_ABOUT: &str =
    "Send requests as lines from standard input to a running service, and write a reply line for each";

pub const SEND_PORT_HELP: &str =
    "Connect to this port of 127.0.0.1, where `serve` listens (1 to 65535)";

pub const CLIENT_HELP: &str =
    "Your ID: the same to send the same lines again, another one for other lines (0 to 4294967295)";

pub const FIRST_HELP: &str = "Number of the first request (0 to 9223372036854775807, default 1)";

pub const SEND_HELP: &str = "\
The lines and the replies are those of `droid_desk script --help`, but a line leaves out CLIENT and
NUMBER. Each request is sent under the next number, once the one before was answered; a bad line takes
no number. The same lines sent again are the same requests: each gets its first reply again, and is
done once.

Exit status:

  0  every line was a request, and every reply was printed, refusals too
  2  the command line is wrong
  4  could not connect (Socket); the service closed the connection where a reply was due (Closed), or
     sent something else (Stranger, Repeated, Malformed); the numbers are used up
     (NumbersUsedUp); memory ran out (Memory); or a stream failed (Truncated, BadVersion, TooLong,
     Read, Write)
  5  some line was bad
  6  there was no memory for the command line

If several apply: the first of 2, 6, 4, 5. With 4 and 6 standard error says what happened and what
to do.

Example:

  echo 'create 65536 0' | droid_desk send --port 4711 --client 1";
