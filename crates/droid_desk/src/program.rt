//! Reads the command line, runs the command that it asks for, and returns the exit status.
//!
//! Nothing here has a contract: each command and each ending has its own. That the right command is called, with its
//! own options, ending and status, `tests/program` holds, which runs the program: `folders/profile_*.py` and
//! `folders/verify_*.py`, `submissions/submit_*.py`, `identify/names.py` and `forms.py`, `report/check_report.py`,
//! `signatures/registry_command.py`, `cases.sh` (`script`, the helps, and words that are no command), `run_command.py`,
//! `serve_command.py` and `send_faults.py` of `wire`, and `journal/journal_compact.py`.

use droid_arguments::{
    Asked, IdentifyOptions, NoCommand, ProfileOptions, RegistryOptions, RegistrySource,
    ReportOptions, SubmitOptions, VerifyOptions, named_files, unread_words, what_is_asked,
};
use droid_cmd_identify::{IdentifyEnding, IdentifyRegistry, identify_command};
use droid_cmd_profile::{NamedRegistry, profile_folder, report_profile};
use droid_cmd_registry::registry_command;
use droid_cmd_serve::{
    Ended, compact_command, no_registry, note_formats, registry_bytes, run_command, script_command,
    send_command, serve_command,
};
use droid_cmd_submit::submit_folder;
use droid_cmd_verify::verify_folder;
use droid_terminal::Ending;
use std::process::ExitCode;
use std::{env, io};

/// Runs the program, and returns its exit status. `on_terminal` says whether standard error is a terminal: the commands
/// over folders print their progress by it, as one line that is replaced or as a line now and then.
pub fn run(rt: &HostRuntime, on_terminal: bool) -> ExitCode {
    let words = match words(rt) {
        Ok(words) => words,
        Err(error) => return end_without(rt, &unread_words(&error)),
    };
    match what_is_asked(rt.alloc(), words.as_slice()) {
        Ok(asked) => fulfil(rt, words.as_slice(), asked, on_terminal),
        Err(why) => end_without(rt, &why),
    }
}

/// Returns the words of the command line, the program's own name first. Fails if one is not UTF-8 (the case
/// `word_no_text`), or memory runs out.
fn words(rt: &HostRuntime) -> io::Result<Vec<String>> {
    let words = env::args(rt)?.collect(rt.alloc())?;
    Ok(words)
}

/// Runs the command that is asked for, prints how it ended, and returns the status. Only `identify` also needs the
/// `words`: they name its files.
fn fulfil(rt: &HostRuntime, words: &[String], asked: Asked<'_>, on_terminal: bool) -> ExitCode {
    match asked {
        Asked::Profile(options) => profile(rt, options, on_terminal),
        Asked::Submit(options) => submit(rt, options, on_terminal),
        Asked::Verify(options) => verify(rt, options, on_terminal),
        Asked::Report(options) => report(rt, options),
        Asked::Registry(options) => registry(rt, options),
        Asked::Identify(options) => identify(rt, words, options),
        Asked::Script { registry } => end(rt, &script_command(rt, registry)),
        Asked::Run { registry, journal } => end(rt, &run_command(rt, registry, journal)),
        Asked::Serve {
            registry,
            journal,
            port,
            options,
        } => end(rt, &serve_command(rt, registry, port, options, journal)),
        Asked::Send {
            port,
            client,
            first,
        } => end(rt, &send_command(rt, port, client, first)),
        Asked::Compact {
            registry,
            file,
            quiet,
        } => end(rt, &compact_command(rt, registry, file, quiet)),
    }
}

/// Runs `profile` by the registry that is named, if it can be read; otherwise the command ends by the registry's fault,
/// before the folder is looked at (`test_registry_first` of `profile_arguments.py`).
fn profile(rt: &HostRuntime, options: ProfileOptions<'_>, on_terminal: bool) -> ExitCode {
    match named_registry(rt, options.registry) {
        Ok(registry) => {
            let ending = profile_folder(rt, &registry, options, on_terminal);
            end_by(rt, ending.told(rt, options))
        }
        Err(ended) => end(rt, &ended),
    }
}

/// Reads the registry of the file at a path, or else the built-in one of everyday formats, and keeps its name for what
/// is printed. Notes on standard error if a file has no formats. The error is how the command ends without it.
fn named_registry<'a>(
    rt: &HostRuntime,
    path: Option<&'a str>,
) -> Result<NamedRegistry<'a>, Ended<'a>> {
    let source = match path {
        Some(path) => RegistrySource::File(path),
        None => RegistrySource::Everyday,
    };
    let bytes = registry_bytes(rt, source)?;
    match NamedRegistry::parse(rt.alloc(), path, bytes.as_slice()) {
        Ok(named) => {
            if let Some(path) = path {
                note_formats(rt, path, Some(named.registry.len()));
            }
            Ok(named)
        }
        Err(fault) => Err(no_registry(source, fault)),
    }
}

/// Runs `identify` over the files that the words name, unless memory runs out for their list or the registry cannot be
/// read. The status is its own: it may be 1, which no other command has. Only a fault of `--why` names a PUID, so
/// without that option the empty text is never printed.
fn identify(rt: &HostRuntime, words: &[String], options: IdentifyOptions<'_>) -> ExitCode {
    let files = match named_files(rt.alloc(), words) {
        Ok(files) => files,
        Err(why) => return end_without(rt, &why),
    };
    match named_registry(rt, options.registry) {
        Ok(registry) => {
            let ending = identify_by(rt, &registry, options, files.as_slice());
            let _ = ending.told(options.why.unwrap_or("")).print(rt);
            ExitCode::from(ending.status())
        }
        Err(ended) => end(rt, &ended),
    }
}

/// Runs `identify` over these files by this registry. The name of the registry is printed with the answer, so it is
/// made a text first: without memory for that the command ends by `Memory`.
fn identify_by(
    rt: &HostRuntime,
    registry: &NamedRegistry<'_>,
    options: IdentifyOptions<'_>,
    files: &[&str],
) -> IdentifyEnding {
    let Ok(details) = format!(in rt.alloc(); "{}", registry.name) else {
        return IdentifyEnding::Memory;
    };
    let named = IdentifyRegistry {
        registry: &registry.registry,
        path: options.registry,
        details: details.as_str(),
    };
    identify_command(rt, named, options, files)
}

/// Runs `verify`: compares a folder with a list. A registry is read only if formats are compared: with --identify, and
/// without --quick, which reads no file.
fn verify(rt: &HostRuntime, options: VerifyOptions<'_>, on_terminal: bool) -> ExitCode {
    if !options.identify || options.quick {
        return verify_by(rt, None, options, on_terminal);
    }
    match named_registry(rt, options.registry) {
        Ok(registry) => verify_by(rt, Some(&registry), options, on_terminal),
        Err(ended) => end(rt, &ended),
    }
}

/// Runs `verify` with the registry that formats are compared by, or `None` if they are not, and ends by how it ended.
fn verify_by(
    rt: &HostRuntime,
    registry: Option<&NamedRegistry<'_>>,
    options: VerifyOptions<'_>,
    on_terminal: bool,
) -> ExitCode {
    let ending = verify_folder(rt, registry, options, on_terminal);
    end_by(rt, ending.told(rt, options.against, options.folder))
}

/// Runs `submit`, and ends by how it ended. It needs no registry: the service has one.
fn submit(rt: &HostRuntime, options: SubmitOptions<'_>, on_terminal: bool) -> ExitCode {
    let ending = submit_folder(rt, options, on_terminal);
    end_by(rt, ending.told(rt, options))
}

/// Runs `report`, which makes a page of a CSV, and ends by how it ended.
fn report(rt: &HostRuntime, options: ReportOptions<'_>) -> ExitCode {
    let ending = report_profile(rt, options.profile, options.title, options.output);
    end_by(rt, ending.told(rt, options.profile, options.output))
}

/// Runs `registry`, which makes a registry of a signature file, and ends by how it ended.
fn registry(rt: &HostRuntime, options: RegistryOptions<'_>) -> ExitCode {
    let ending = registry_command(rt, options.file, options.output, options.quiet);
    end_by(rt, ending.told(options.file, options.output))
}

/// Prints how a command of a service ended, or why a registry could not be read, and returns the status.
fn end(rt: &HostRuntime, ended: &Ended<'_>) -> ExitCode {
    end_by(rt, ended.told())
}

/// Prints the fault of an ending on standard error, if it is one, and returns its status. What cannot be printed
/// changes no status.
fn end_by(rt: &HostRuntime, ending: Ending<'_>) -> ExitCode {
    let _ = ending.print(rt);
    ExitCode::from(ending.status())
}

/// Prints why no command was run, which may be a help or the version, and returns the status.
fn end_without(rt: &HostRuntime, why: &NoCommand) -> ExitCode {
    let _ = why.print(rt);
    ExitCode::from(why.status())
}
