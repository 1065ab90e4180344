//! The commands of a service, over files, standard streams and ports of this machine: each chooses the registry, and a
//! service with a journal or without. `run` and `serve` are proved to end as their calls say. What has no contract
//! joins proved calls to the machine, and is tested: `script` by `cases.sh` and `registry.sh` of `tests/program`, the
//! others by `run_command.py`, `serve_command.py` and `send_faults.py` of `tests/program/wire`.

ghost use Rattle.std.specs.Prelude.{◌<◌, ◌^◌};
ghost use Rattle.droid_cmd_serve.specs.JournalEndings.{IsAnsweringEnd, ServingEndsAs};
ghost use Rattle.droid_cmd_serve.specs.Many.{rules_named};

use crate::client::send_lines;
use crate::command_end::Ended;
use crate::exit::Ending;
use crate::journal_commands::{run_journal_command, serve_journal_command};
use crate::many_connections::serve_in_memory;
use crate::registry::{note_formats, open_registry, service_for};
use crate::scripts::{script_by_registry, script_by_sample};
use crate::stream::answer_stream;
use droid_arguments::{RegistrySource, ServeOptions};
use droid_core::Service;
use droid_frame::{NUMBER_LIMIT, Noted};
use droid_lines::SendFault;
use droid_pronom::common_registry;
use droid_turns::Pipe;
use droid_wire::ServiceHandler;
use std::fs::{File, Files};
use std::io;
use std::io::BufReader;
use std::net::{Ipv4Addr, Net, TcpListener, TcpStream};
use std::time::Clock;

/// Runs a script from standard input to standard output, over a new service with this registry. That the sample is used
/// is not noted, unlike by `run`, `serve` and `compact`.
pub fn script_command<'a, R: Files + Input + Print + Eprint + AllocGlobal>(
    rt: &R,
    source: RegistrySource<'a>,
) -> Ended<'a> {
    let mut input = Noted::new(rt.reader());
    let mut output = Noted::new(io::writer(rt));
    let ending = match source {
        RegistrySource::Sample => script_by_sample(rt.alloc(), &mut input, &mut output),
        RegistrySource::Everyday => script_by_registry(
            rt.alloc(),
            &mut common_registry(),
            &mut None,
            &mut input,
            &mut output,
        ),
        RegistrySource::File(path) => return script_by_file(rt, path),
    };
    Ended::over(ending, source)
}

/// Runs the script of standard input over the registry in the file at a path. Notes on standard error if it has no
/// formats.
fn script_by_file<'a, R: Files + Input + Print + Eprint + AllocGlobal>(
    rt: &R,
    path: &'a str,
) -> Ended<'a> {
    let source = RegistrySource::File(path);
    let file = match open_registry(rt, path) {
        Ok(file) => file,
        Err(cause) => return Ended::unopened(source, cause),
    };
    let mut formats = None;
    let ending = script_by_registry(
        rt.alloc(),
        &mut Noted::new(file),
        &mut formats,
        &mut Noted::new(rt.reader()),
        &mut Noted::new(io::writer(rt)),
    );
    note_formats(rt, path, formats);
    Ended::over(ending, source)
}

/// Answers the frames of standard input on standard output, by a new service, or by one with the journal at a path.
pub fn run_command<'a, R>(
    rt: &'a R,
    source: RegistrySource<'a>,
    journal: Option<&'a str>,
) -> Ended<'a>
where
    R: Files<File = File> + Input + Print + Eprint + AllocGlobal,
    ensures { IsAnsweringEnd result.ending }
{
    match journal {
        Some(path) => run_journal_command(rt, source, path),
        None => run_in_memory(rt, source),
    }
}

/// Answers the frames of standard input by a new service, which keeps everything in memory.
fn run_in_memory<'a, R>(rt: &R, source: RegistrySource<'a>) -> Ended<'a>
where
    R: Files + Input + Print + Eprint + AllocGlobal,
    ensures { IsAnsweringEnd result.ending }
{
    note_sample(rt, source);
    match service_for(rt, source) {
        Ok(service) => Ended::over(answer_input(rt, service), source),
        Err(ended) => ended,
    }
}

/// Answers the frames of standard input on standard output by this service, and returns how the program ends.
fn answer_input<R: Input + Print + AllocGlobal>(rt: &R, service: Service) -> Ending
    ensures { IsAnsweringEnd result }
{
    let mut handler = ServiceHandler { service };
    let mut pipe = Pipe::new(Noted::new(rt.reader()), Noted::new(io::writer(rt)));
    answer_stream(rt.alloc(), &mut handler, &mut pipe)
}

/// Serves connections to a port, as the options say, by a new service, or by one with the journal at a path.
pub fn serve_command<'a, R>(
    rt: &'a R,
    source: RegistrySource<'a>,
    port: u16,
    options: ServeOptions,
    journal: Option<&'a str>,
) -> Ended<'a>
where
    R: Files<File = File> + Print + Eprint + AllocGlobal + Clock + Net,
    ensures { ServingEndsAs journal.entry (rules_named options) result.ending result.cause }
{
    match journal {
        Some(path) => serve_journal_command(rt, source, port, options, path),
        None => serve_in_memory(rt, source, port, options),
    }
}

/// Notes on standard error that the sample registry is used, if it is. A note that cannot be printed changes nothing.
/// `test_the_sample_is_noted` of `run_command.py` tests it.
pub(crate) fn note_sample<R: Eprint>(rt: &R, source: RegistrySource<'_>) {
    if let RegistrySource::Sample = source {
        let _ = eprintln!(rt;
            "registry: the sample of four invented formats, for trying: use --everyday or --registry FILE for real ones"
        );
    }
}

/// Sends the requests of the lines of standard input to a port of this machine, as this client, under numbers from
/// `first` on. If that is no number of a request, it does not connect, and ends as where the numbers are used up
/// (`test_numbers_used_up` of `send_faults.py`). `test_no_listener` there tests a port that nobody listens on.
pub fn send_command<'a, R>(rt: &R, port: u16, client: u32, first: u64) -> Ended<'a>
where
    R: Input + Print + AllocGlobal + Net<Listener = TcpListener, Stream = TcpStream>,
{
    if first >= NUMBER_LIMIT {
        return Ended::at(Ending::Send(SendFault::NumbersUsedUp), port);
    }
    match TcpStream::connect(rt, (Ipv4Addr::LOCALHOST, port)) {
        Ok(stream) => Ended::at(send_over(rt, &stream, client, first), port),
        Err(error) => Ended::unconnected(port, error.kind()),
    }
}

/// Sends the lines of standard input over a connection, and prints the replies: all that `send_lines` promises, over
/// these streams. Also ends by `Memory` if there is none for the buffer of the replies. `2 ^ 63` is `NUMBER_LIMIT`.
fn send_over<R: Input + Print + AllocGlobal>(
    rt: &R,
    stream: &TcpStream,
    client: u32,
    first: u64,
) -> Ending
    requires { first < 2 ^ 63 }
{
    // A request's frame is two writes, and the client waits for the reply: the system should not delay the second
    // write. For speed: a failure is ignored, and no test holds it.
    let _ = stream.set_nodelay(true);
    let Ok(replies) = BufReader::new(rt.alloc(), stream) else {
        return Ending::Send(SendFault::Memory);
    };
    send_lines(
        rt.alloc(),
        client,
        first,
        &mut Noted::new(rt.reader()),
        &mut Noted::new(replies),
        &mut Noted::new(stream),
        &mut Noted::new(io::writer(rt)),
    )
}
