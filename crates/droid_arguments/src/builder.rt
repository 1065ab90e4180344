//! Makes a command, option by option, and remembers if memory ran out. `App` is the kit's view of a command.

ghost use Rattle.std.specs.Prelude.{◌≡◌, false};
ghost use Rattle.clap.specs.Words.{App, Rule, new_app, rule_of, with_rule, with_subcommand};
ghost use Rattle.droid_arguments.specs.Made.{Makes};

use clap::{Arg, Command};
use std::alloc::{AllocError, Global};

/// A command that is being made. It is an error after memory ran out.
#[derive(Drop)]
pub struct Builder<'a> {
    /// The command so far.
    pub made: Result<Command<'a>, AllocError>,
}

impl<'a> Builder<'a> {
    /// Begins a command with this name, `about` as its summary and `help` as the explanation at the end of its help.
    /// The clause leaves the texts open: `tests/program/cases` compares them.
    pub fn new(alloc: Global, name: &'a str, about: &'a str, help: &'a str) -> Builder<'a>
        ensures { Makes (new_app name.entry.now) result.made }
    {
        let command = Command::new(alloc, name).about(about).after_help(help);
        Builder { made: Ok(command) }
    }

    /// Adds an option or a positional argument behind those that are there, as a rule of this command alone.
    pub fn option(self, option: Arg<'a>) -> Builder<'a>
        ensures { (app : App) (rule : Rule) → Makes app self.entry.made → rule_of option.entry ≡ rule
            → option.entry.global ≡ false
            → Makes (with_rule app rule) result.made }
    {
        let made = add_option(self.made, option);
        Builder { made }
    }

    /// Adds a command below the program, or notes that there was no memory for it.
    pub fn command(self, below: Result<Command<'a>, AllocError>) -> Builder<'a>
        ensures { (app : App) (low : App) → Makes app self.entry.made → Makes low below.entry
            → Makes (with_subcommand app low.top) result.made }
    {
        let made = add_command(self.made, below);
        Builder { made }
    }
}

/// Adds an option to a command, if there was memory for the command. Fails if there was none, or is none now.
/// `with_rule` is the kit's: the command with one more rule.
fn add_option<'a>(
    command: Result<Command<'a>, AllocError>,
    option: Arg<'a>,
) -> Result<Command<'a>, AllocError>
    ensures { (app : App) (rule : Rule) → Makes app command.entry → rule_of option.entry ≡ rule
        → option.entry.global ≡ false
        → Makes (with_rule app rule) result }
{
    match command {
        Ok(command) => command.arg(option),
        Err(error) => Err(error),
    }
}

/// Adds a command to the program, if there was memory for both. Fails if there was none, or is none now.
fn add_command<'a>(
    command: Result<Command<'a>, AllocError>,
    below: Result<Command<'a>, AllocError>,
) -> Result<Command<'a>, AllocError>
    ensures { (app : App) (low : App) → Makes app command.entry → Makes low below.entry
        → Makes (with_subcommand app low.top) result }
{
    match (command, below) {
        (Ok(command), Ok(below)) => command.subcommand(below),
        (Err(error), _) => Err(error),
        (Ok(_), Err(error)) => Err(error),
    }
}
