// The words of a command, read with clap.
ghost use Rattle.std.specs.Prelude.{◌≡◌, IfOk, map, drop, true, false};
ghost use Rattle.std.specs.String.{string_bytes};
ghost use Rattle.sil_base.specs.Names.{texts_of};
ghost use Rattle.clap.specs.Simple.{app_of};
ghost use Rattle.clap.specs.Walk.{rule_of};
ghost use Rattle.command_words.specs.ClapCommands.{app_with, argument_names, clap_takes, command_name, required_argument};
ghost use Rattle.command_words.specs.CommandOrders.{are_arguments};

use crate::names::CommandName;
use clap::error::ErrorKind;
use clap::{Arg, Command};
use std::alloc::{AllocError, Global};

/// An argument that is required, and read by its place.
fn required<'a>(alloc: Global, name: &'a str) -> Arg<'a>
    ensures rule { rule_of result ≡ required_argument name.entry.now }
    ensures local { result.global ≡ false }
{
    Arg::new(alloc, name).required(true)
}

/// A simple command of this name, with these arguments.
fn simple_command<'a>(
    alloc: Global,
    name: &'a str,
    arguments: &[&'a str],
) -> Result<Command<'a>, AllocError>
    ensures { IfOk result (λ command. app_of command ≡ app_with name.entry.now (texts_of arguments.now)) }
{
    let mut command = Command::new(alloc, name);
    for argument in arguments {
        command = command.arg(required(alloc, argument))?;
    }
    Ok(command)
}

/// Whether clap takes words as those of a command.
pub fn takes(alloc: Global, name: CommandName, words: &[String]) -> Result<bool, AllocError>
    requires { are_arguments name (drop 1 (map string_bytes words.now)) ≡ true }
    ensures { IfOk result (λ taken. taken ≡ clap_takes name (map string_bytes words.now)) }
{
    let command = simple_command(alloc, name.word(), name.arguments())?;
    match command.try_get_matches_from(words) {
        Ok(_) => Ok(true),
        Err(error) => match error.kind() {
            ErrorKind::OutOfMemory => Err(AllocError),
            _ => Ok(false),
        },
    }
}
