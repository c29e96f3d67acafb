// The words of a command.
ghost use Rattle.std.specs.Prelude.{◌≡◌, IfOk, map};
ghost use Rattle.std.specs.List.{list_all};
ghost use Rattle.std.specs.Option.{option_map};
ghost use Rattle.std.specs.String.{string_bytes};
ghost use Rattle.command_words.specs.ClapCommands.{argument_names};
ghost use Rattle.command_words.specs.CommandOrders.{are_arguments, command_of, is_argument};
ghost use Rattle.command_words.specs.HeldCommands.{order_by};

use crate::arguments::command_with;
use crate::names::CommandName;
use crate::orders::Command;
use crate::parsing::takes;
use std::alloc::{AllocError, Global};

/// Whether a word can stand as an argument: it is not empty and doesn't begin with a minus sign.
fn is_argument_word(word: &str) -> bool
    ensures { result ≡ is_argument word.now }
{
    match word.as_bytes() {
        [] => false,
        [first, ..] => *first != b'-',
    }
}

fn are_argument_words(words: &[String]) -> bool
    ensures { result ≡ list_all is_argument (map string_bytes words.now) }
{
    words.iter().all(|word| is_argument_word(word.as_str()))
}

/// Whether words can stand as the arguments of a command.
fn can_follow(name: CommandName, arguments: &[String]) -> bool
    ensures { result ≡ are_arguments name (map string_bytes arguments.now) }
{
    arguments.len() == name.arguments().len() && are_argument_words(arguments)
}

/// The command that words give, if they are accepted.
#[tactic(auto, unfolding(crate::specs::CommandOrders::command_of))]
pub fn read_command<'w>(
    alloc: Global,
    words: &'w [String],
) -> Result<Option<Command<'w>>, AllocError>
    ensures { IfOk result (λ r. option_map order_by r ≡ command_of (map string_bytes words.now)) }
{
    let Some((first, arguments)) = words.split_first() else {
        return Ok(None);
    };
    let Some(name) = CommandName::of_word(first.as_str()) else {
        return Ok(None);
    };
    if can_follow(name, arguments) && takes(alloc, name, words)? {
        Ok(command_with(name, arguments))
    } else {
        Ok(None)
    }
}
