// The commands of the programs, built for clap.

ghost use Rattle.std.specs.Prelude.{◌≡◌, IfOk, false, map};
ghost use Rattle.clap.specs.Words.{app_of, rule_of, with_subcommand};
ghost use Rattle.hsp_cli_orders.specs.Commands.{hsplan_app, stream_app, with_rules};
ghost use Rattle.hsp_cli_orders.specs.Tables.{app_for, has_globals_of, rule_for, with_subcommands};

use crate::tables::{Argument, COMMANDS, STREAM_COMMANDS, Subcommand};
use clap::{Arg, Command};
use std::alloc::{AllocError, Global};

// The argument as `clap` takes it.
fn arg_of<'a>(alloc: Global, argument: Argument<'a>) -> Arg<'a>
    ensures rule { rule_of result ≡ rule_for argument.entry }
    ensures local { result.global ≡ false }
{
    match argument {
        Argument::Optional(name) => Arg::new(alloc, name).long(name),
        Argument::Needed(name) => Arg::new(alloc, name).long(name).required(true),
        Argument::Word(name) => Arg::new(alloc, name).required(true),
    }
}

// The command with these arguments added.
fn with_arguments<'a>(
    alloc: Global,
    mut command: Command<'a>,
    arguments: &[Argument<'a>],
) -> Result<Command<'a>, AllocError>
    requires { has_globals_of command ≡ false }
    ensures app { IfOk result
        (λ c. app_of c ≡ with_rules (app_of command.entry) (map rule_for arguments.now)) }
    ensures local { IfOk result (λ c. has_globals_of c ≡ false) }
{
    for argument in arguments {
        command = command.arg(arg_of(alloc, *argument))?;
    }
    Ok(command)
}

// A subcommand with its arguments.
fn command_of<'a>(alloc: Global, subcommand: Subcommand<'a>) -> Result<Command<'a>, AllocError>
    ensures app { IfOk result (λ c. app_of c ≡ app_for subcommand.entry) }
    ensures local { IfOk result (λ c. has_globals_of c ≡ false) }
{
    let command = Command::new(alloc, subcommand.name);
    let command = with_arguments(alloc, command, subcommand.inputs)?;
    with_arguments(alloc, command, subcommand.others)
}

// The command with a further subcommand.
fn with_subcommand<'a>(
    alloc: Global,
    command: Command<'a>,
    subcommand: Subcommand<'a>,
) -> Result<Command<'a>, AllocError>
    ensures { IfOk result
        (λ c. app_of c ≡ with_subcommand (app_of command.entry) (app_for subcommand.entry).top) }
{
    command.subcommand(command_of(alloc, subcommand)?)
}

// The command with further subcommands.
fn with_subcommands<'a>(
    alloc: Global,
    mut command: Command<'a>,
    subcommands: &[Subcommand<'a>],
) -> Result<Command<'a>, AllocError>
    ensures { IfOk result
        (λ c. app_of c ≡ with_subcommands (app_of command.entry) subcommands.now) }
{
    for subcommand in subcommands {
        command = with_subcommand(alloc, command, *subcommand)?;
    }
    Ok(command)
}

/// All commands of `hsplan`, for words that don't begin with its name.
///
/// # Errors
///
/// An `AllocError` where memory runs out.
pub fn hsplan_command<'a>(alloc: Global) -> Result<Command<'a>, AllocError>
    ensures { IfOk result (λ c. app_of c ≡ hsplan_app) }
{
    let command = Command::new(alloc, "hsplan").no_binary_name(true);
    with_subcommands(alloc, command, &COMMANDS)
}

/// All commands of `hsplan-stream`, for words that don't begin with its name.
///
/// # Errors
///
/// An `AllocError` where memory runs out.
pub fn stream_command<'a>(alloc: Global) -> Result<Command<'a>, AllocError>
    ensures { IfOk result (λ c. app_of c ≡ stream_app) }
{
    let command = Command::new(alloc, "hsplan-stream").no_binary_name(true);
    with_subcommands(alloc, command, &STREAM_COMMANDS)
}
