//! The options of `serve` that say how connections are served. The command is declared in `arguments.rt`.

ghost use Rattle.std.specs.Prelude.{◌≡◌, None, option_map, true};
ghost use Rattle.clap.specs.Words.{found_of, rows_of};
ghost use Rattle.droid_arguments.specs.Asking.{IsCount, IsIdleLimit, IsServing};
ghost use Rattle.droid_arguments.specs.Values.{Reads};

use crate::value::flag_of;
use clap::ArgMatches;

// The names of the options.
pub(crate) const CONNECTIONS: &str = "connections";

pub(crate) const AT_ONCE: &str = "at-once";

pub(crate) const IDLE: &str = "idle";

pub(crate) const FOREVER: &str = "forever";

pub(crate) const VERBOSE: &str = "verbose";

/// How many connections `serve` serves by default. `IsCount` has the same number, and the help in words.
const DEFAULT_CONNECTIONS: u32 = 1;

/// How many it serves at once by default. `IsServing` has the same number, and the help in words.
const DEFAULT_SEATS: u32 = 1;

/// With `--at-once` an idle connection is closed after this many seconds by default. `IsIdleLimit` has the same number,
/// and the help in words.
const DEFAULT_IDLE: u32 = 60;

/// How `serve` serves connections.
#[derive(Clone, Copy)]
pub struct ServeOptions {
    /// The most connections that are open at once.
    pub seats: u32,
    /// How many connections are served. `None`: no limit.
    pub connections: Option<u32>,
    /// A connection is closed after this many seconds without a byte in either direction. `None`: no limit.
    pub idle: Option<u32>,
    /// Print a line for each connection that ended, and one a minute.
    pub verbose: bool,
}

/// Reads how `serve` serves connections. `None` if both `--forever` and `--connections` are given.
pub(crate) fn serve_options(serve: &ArgMatches<'_>) -> Option<ServeOptions>
    ensures { Reads result (IsServing (rows_of (found_of serve.now))) }
{
    let seats = serve.get_one(AT_ONCE).unwrap_or(DEFAULT_SEATS);
    let connections = count_of(serve)?;
    let idle = idle_of(serve);
    let verbose = flag_of(serve, VERBOSE);
    Some(ServeOptions {
        seats,
        connections,
        idle,
        verbose,
    })
}

/// Reads how many connections are served: `Some(None)` without end, by `--forever`. `None` if both `--forever` and
/// `--connections` are given.
fn count_of(serve: &ArgMatches<'_>) -> Option<Option<u32>>
    ensures { Reads result (IsCount (rows_of (found_of serve.now))) }
{
    let forever = flag_of(serve, FOREVER);
    if forever {
        return match serve.get_str(CONNECTIONS) {
            None => Some(None),
            Some(_) => None,
        };
    }
    let connections = serve.get_one(CONNECTIONS).unwrap_or(DEFAULT_CONNECTIONS);
    Some(Some(connections))
}

/// Reads after how many seconds an idle connection is closed. `None`: never, since neither `--idle` nor `--at-once` is
/// given.
fn idle_of(serve: &ArgMatches<'_>) -> Option<u32>
    ensures { IsIdleLimit (rows_of (found_of serve.now)) result }
{
    let seats = serve.get_str(AT_ONCE);
    let asked = serve.get_str(IDLE);
    if neither(seats, asked) {
        return None;
    }
    let idle = serve.get_one(IDLE).unwrap_or(DEFAULT_IDLE);
    Some(idle)
}

/// Returns whether neither text is there: for `idle_of`, neither `--at-once` nor `--idle` is given.
fn neither(one: Option<&str>, other: Option<&str>) -> bool
    ensures one { result ≡ true → option_map (λ text. text.now) one.entry ≡ None }
    ensures other { result ≡ true → option_map (λ text. text.now) other.entry ≡ None }
    ensures none { option_map (λ text. text.now) one.entry ≡ None
        → option_map (λ text. text.now) other.entry ≡ None → result ≡ true }
{
    match (one, other) {
        (None, None) => true,
        (Some(_), _) => false,
        (None, Some(_)) => false,
    }
}
