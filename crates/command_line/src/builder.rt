//! Building the command that reads the words.
ghost use Rattle.std.specs.Prelude.{◌≡◌, IfOk, []};
ghost use Rattle.clap.specs.Words.{app_of, rule_of, with_rule};
ghost use Rattle.command_line.specs.Language.{bare_command, flag, positional_words, program_command, value_option};

use clap::{Arg, ArgAction, Command};
use std::alloc::{AllocError, Global};

/// The command with one more option that takes a value.
fn with_option<'a>(
    alloc: Global,
    command: Command<'a>,
    name: &'a str,
) -> Result<Command<'a>, AllocError>
    ensures { IfOk result (λ new. app_of new ≡ with_rule (app_of command.entry) (value_option name.entry.now)) }
{
    command.arg(Arg::new(alloc, name).long(name))
}

/// The command with one more flag.
fn with_flag<'a>(
    alloc: Global,
    command: Command<'a>,
    name: &'a str,
) -> Result<Command<'a>, AllocError>
    ensures { IfOk result (λ new. app_of new ≡ with_rule (app_of command.entry) (flag name.entry.now)) }
{
    command.arg(Arg::new(alloc, name).long(name).action(ArgAction::SetTrue))
}

/// The command with the words that are no options.
fn with_words<'a>(
    alloc: Global,
    command: Command<'a>,
    name: &'a str,
) -> Result<Command<'a>, AllocError>
    ensures { IfOk result (λ new. app_of new ≡ with_rule (app_of command.entry) (positional_words name.entry.now)) }
{
    command.arg(Arg::new(alloc, name).action(ArgAction::Append))
}

/// A command without help and version.
fn bare<'a>(alloc: Global, name: &'a str) -> Command<'a>
    ensures { app_of result ≡ bare_command name.entry.now [] }
{
    Command::new(alloc, name)
        .no_binary_name(true)
        .disable_help_flag(true)
        .disable_version_flag(true)
}

/// The command that reads the program's words.
pub(crate) fn program<'a>(alloc: Global) -> Result<Command<'a>, AllocError>
    ensures { IfOk result (λ command. app_of command ≡ program_command) }
{
    let command = bare(alloc, "pta");
    let command = with_option(alloc, command, "workers")?;
    let command = with_option(alloc, command, "ask")?;
    let command = with_flag(alloc, command, "json")?;
    let command = with_option(alloc, command, "gen")?;
    let command = with_option(alloc, command, "run")?;
    let command = with_flag(alloc, command, "desk")?;
    let command = with_flag(alloc, command, "effects")?;
    let command = with_flag(alloc, command, "stops")?;
    let command = with_option(alloc, command, "entry")?;
    with_words(alloc, command, "unit")
}
