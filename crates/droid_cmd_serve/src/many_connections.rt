//! `serve` by a service that keeps everything in memory, and what its options become: rules and verbosity.

ghost use Rattle.std.specs.Prelude.{◌≡◌, true, false};
ghost use Rattle.droid_cmd_serve.specs.Fresh.{IsMade};
ghost use Rattle.droid_cmd_serve.specs.Many.{EndsServing, ManyEndsAs, idle_named, many_ending_of, rules_named};
ghost use Rattle.droid_core.specs.Standing.{limits_of, registry_of};

use crate::command_end::Ended;
use crate::commands::note_sample;
use crate::exit::Ending;
use crate::registry::service_for;
use droid_arguments::{RegistrySource, ServeOptions};
use droid_core::Service;
use droid_frame::FrameFault;
use droid_sockets::{Sockets, Verbosity};
use droid_turns::{Connections, Rules, Served};
use droid_wire::{ServeFault, ServiceHandler, serve_many};
use std::alloc::Global;
use std::fs::Files;
use std::net::Net;
use std::time::Clock;

/// How many milliseconds a second has: `idle_named` of `specs/Many.antt` has the same.
const SECOND: u64 = 1_000;

/// Serves connections to a port over one new service, which keeps everything in memory.
pub(crate) fn serve_in_memory<'a, R>(
    rt: &R,
    source: RegistrySource<'a>,
    port: u16,
    options: ServeOptions,
) -> Ended<'a>
where
    R: Files + Print + Eprint + AllocGlobal + Clock + Net,
    ensures { ManyEndsAs (rules_named options) result.ending result.cause }
{
    note_sample(rt, source);
    match service_for(rt, source) {
        Ok(service) => serve_port(rt, service, port, rules_of(options), verbosity_of(options)),
        Err(ended) => ended,
    }
}

/// Listens on a port, prints `listening`, which tells a script that it can connect, and serves connections in turns by
/// this service. Without a journal there are no syncs to share.
fn serve_port<'a, R>(
    rt: &R,
    service: Service,
    port: u16,
    rules: Rules,
    verbosity: Verbosity,
) -> Ended<'a>
where
    R: Print + Eprint + AllocGlobal + Clock + Net,
    ensures { IsMade service → ManyEndsAs rules result.ending result.cause }
{
    let mut sockets = match Sockets::bind(rt, rt.alloc(), port, rules.seats, verbosity) {
        Ok(sockets) => sockets,
        Err(error) => return Ended::unconnected(port, error.kind()),
    };
    if println!(rt; "listening {port}").is_err() {
        return Ended::at(Ending::Stream(ServeFault::Write { written: 0 }), port);
    }
    let mut handler = ServiceHandler { service };
    let ending = serve_connections(rt.alloc(), &mut sockets, &mut handler, rules);
    Ended::at(ending, port)
}

/// Returns how much is printed on standard error about connections, by --verbose. The journal's `serve` asks it too.
pub(crate) fn verbosity_of(options: ServeOptions) -> Verbosity
    ensures verbose { options.verbose ≡ true → result ≡ Verbosity.Verbose }
    ensures quiet { options.verbose ≡ false → result ≡ Verbosity.Quiet }
{
    if options.verbose {
        Verbosity::Verbose
    } else {
        Verbosity::Quiet
    }
}

/// Serves connections in turns, by these rules, and returns how the program ends.
pub fn serve_connections<C: Connections>(
    alloc: Global,
    connections: &mut C,
    handler: &mut ServiceHandler,
    rules: Rules,
) -> Ending
    // One service handles the frames of all connections, one after another. Each connection gets the replies to its own
    // frames, in order, and none delays another.
    ensures ends { EndsServing C.does rules connections.old connections.new handler.old.service handler.new.service
        result }
    ensures limits { limits_of handler.new.service ≡ limits_of handler.old.service }
    ensures registry { registry_of handler.new.service ≡ registry_of handler.old.service }
{
    let served = serve_many(alloc, connections, handler, rules);
    end_of(served)
}

/// Returns the rules that the options name: how many connections at once and in all, and how long one may be idle. The
/// options have the defaults already.
pub(crate) fn rules_of(options: ServeOptions) -> Rules
    ensures { result ≡ rules_named options }
{
    let total = match options.connections {
        Some(count) => Some(u64::from(count)),
        None => None,
    };
    Rules {
        seats: options.seats as usize,
        total,
        idle: idle_of(options.idle),
    }
}

/// Returns an idle limit in milliseconds. Without one it is 2^64 - 1, which no connection reaches.
fn idle_of(seconds: Option<u32>) -> u64
    ensures { result ≡ idle_named seconds }
{
    match seconds {
        Some(seconds) => u64::from(seconds) * SECOND,
        None => u64::MAX,
    }
}

/// Maps the end of serving, without a journal, to the end of the program.
fn end_of(served: Served) -> Ending
    ensures { result ≡ many_ending_of served }
{
    match served {
        Served::All => Ending::Done,
        Served::Stopped => Ending::Socket,
        // This never happens to a service that keeps everything in memory.
        Served::Unsettled => Ending::Socket,
        Served::Memory => Ending::Stream(ServeFault::Frame(FrameFault::Memory)),
    }
}
