//! What the options of `submit` become: settings of the walk and of the connection, the name, the client.

ghost use Rattle.std.specs.Prelude.{◌≡◌, IfOk, option_map};
ghost use Rattle.droid_remote.specs.SenderCalls.{IsFresh};
ghost use Rattle.droid_cmd_submit.specs.SubmitSettings.{connection_of, name_of, walk_options};

use crate::loopback::LoopbackSettings;
use droid_arguments::{Destination, SubmitOptions};
use droid_frame::Text;
use droid_remote::{Connection, Sender};
use droid_terminal::Verbosity;
use droid_upload::Options;
use std::alloc::{AllocError, Global};

/// Returns how the tree is submitted: the options that reach its requests, and whether finished files are read again.
pub(crate) fn walk_options(options: SubmitOptions<'_>) -> Options
    ensures { result ≡ walk_options options.entry }
{
    Options {
        scan_limit: options.limit,
        match_all: options.match_all,
        hash: options.hash,
        piece_size: options.piece_size,
        check: options.check,
    }
}

/// Returns where to connect to, how many seconds to wait, and whether waiting is printed.
pub(crate) fn connection_of(to: Destination, verbosity: Verbosity) -> LoopbackSettings
    ensures { result ≡ connection_of to verbosity }
{
    LoopbackSettings {
        port: to.port,
        wait: to.wait,
        timeout: to.timeout,
        verbosity,
    }
}

/// Copies the name of the submission. `absolute` is the folder's absolute path. Fails only if memory runs out.
pub(crate) fn submission_name(
    alloc: Global,
    options: SubmitOptions<'_>,
    absolute: &str,
) -> Result<Text, AllocError>
    ensures { IfOk result (λ name. name ≡ name_of (option_map (λ text. text.now) options.entry.name) absolute.now) }
{
    Text::copy_of(alloc, name_of(options.name, absolute))
}

/// Returns the name of a submission: the one that was given, or else the folder's absolute path.
fn name_of<'a>(name: Option<&'a str>, absolute: &'a str) -> &'a str
    ensures { result.now ≡ name_of (option_map (λ text. text.now) name.entry) absolute.entry.now }
{
    match name {
        Some(name) => name,
        None => absolute,
    }
}

/// Makes the client of a submission of this name, by the number that `--client` gives. It connects with its first
/// request.
pub(crate) fn sender_of<C: Connection>(
    alloc: Global,
    connection: C,
    options: SubmitOptions<'_>,
    name: Text,
) -> Sender<C>
    ensures client { result.client ≡ options.entry.to.client }
    ensures name { result.name ≡ name }
    ensures connection { result.in_flight.connection ≡ connection }
    ensures fresh { IsFresh result }
{
    Sender::new(alloc, connection, options.to.client, name)
}
