// The arguments of each command.
ghost use Rattle.std.specs.Prelude.{◌≡◌, ◌≤◌, IfSome, map};
ghost use Rattle.std.specs.Option.{option_map};
ghost use Rattle.std.specs.String.{string_bytes};
ghost use Rattle.command_words.specs.CommandOrders.{check_of, demo_cards_of, demo_of, go_of, install_of, list_of, order_of, run_of, seed_of, sim_of, source_names, steps_of, trace_of};
ghost use Rattle.command_words.specs.HeldCommands.{names_by, order_by};

use crate::names::CommandName;
use crate::numbers::number;
use crate::orders::{Command, DemoNumbers, MAX_DEMO_CARDS, MAX_SEED, SourceFiles, Steps};
use sil_base::MAX_STEPS;

/// A number of steps.
fn steps_in(word: &str) -> Option<Steps>
    ensures { option_map (λ s. s.most) result ≡ steps_of word.now }
{
    let most = number(word, 13, 0, MAX_STEPS)?;
    Some(Steps { most })
}

/// How many cards a demo makes.
fn cards_in(word: &str) -> Option<u32>
    ensures value { result ≡ demo_cards_of word.now }
    ensures least { IfSome result (λ n. 1 ≤ n) }
    ensures most { IfSome result (λ n. n ≤ MAX_DEMO_CARDS) }
{
    let cards = number(word, 13, 1, u64::from(MAX_DEMO_CARDS))?;
    Some(cards as u32)
}

/// Where a demo's numbers begin.
fn seed_in(word: &str) -> Option<u32>
    ensures value { result ≡ seed_of word.now }
    ensures most { IfSome result (λ n. n ≤ MAX_SEED) }
{
    let seed = number(word, 10, 0, u64::from(MAX_SEED))?;
    Some(seed as u32)
}

fn files<'w>(source: &'w str, tables: &'w str, params: &'w str) -> SourceFiles<'w>
    ensures { names_by result ≡ source_names source.entry.now tables.entry.now params.entry.now }
{
    SourceFiles {
        source,
        tables,
        params,
    }
}

fn check<'w>(arguments: &'w [String]) -> Option<Command<'w>>
    ensures { option_map order_by result ≡ check_of (map string_bytes arguments.now) }
{
    let [source, tables, params] = arguments else {
        return None;
    };
    let names = files(source.as_str(), tables.as_str(), params.as_str());
    Some(Command::Check { names })
}

fn install<'w>(arguments: &'w [String]) -> Option<Command<'w>>
    ensures { option_map order_by result ≡ install_of (map string_bytes arguments.now) }
{
    let [source, tables, params, image] = arguments else {
        return None;
    };
    let names = files(source.as_str(), tables.as_str(), params.as_str());
    Some(Command::Install {
        names,
        image: image.as_str(),
    })
}

fn run<'w>(arguments: &'w [String]) -> Option<Command<'w>>
    ensures { option_map order_by result ≡ run_of (map string_bytes arguments.now) }
{
    let [image, steps] = arguments else {
        return None;
    };
    let steps = steps_in(steps.as_str())?;
    Some(Command::Run {
        image: image.as_str(),
        steps,
    })
}

fn trace<'w>(arguments: &'w [String]) -> Option<Command<'w>>
    ensures { option_map order_by result ≡ trace_of (map string_bytes arguments.now) }
{
    let [image, steps] = arguments else {
        return None;
    };
    let steps = steps_in(steps.as_str())?;
    Some(Command::Trace {
        image: image.as_str(),
        steps,
    })
}

fn sim<'w>(arguments: &'w [String]) -> Option<Command<'w>>
    ensures { option_map order_by result ≡ sim_of (map string_bytes arguments.now) }
{
    let [source, tables, params, steps] = arguments else {
        return None;
    };
    let names = files(source.as_str(), tables.as_str(), params.as_str());
    let steps = steps_in(steps.as_str())?;
    Some(Command::Sim { names, steps })
}

fn list<'w>(arguments: &'w [String]) -> Option<Command<'w>>
    ensures { option_map order_by result ≡ list_of (map string_bytes arguments.now) }
{
    let [image] = arguments else {
        return None;
    };
    Some(Command::List {
        image: image.as_str(),
    })
}

fn go<'w>(arguments: &'w [String]) -> Option<Command<'w>>
    ensures { option_map order_by result ≡ go_of (map string_bytes arguments.now) }
{
    let [source, tables, params, image, steps] = arguments else {
        return None;
    };
    let names = files(source.as_str(), tables.as_str(), params.as_str());
    let steps = steps_in(steps.as_str())?;
    Some(Command::Go {
        names,
        image: image.as_str(),
        steps,
    })
}

fn demo<'w>(arguments: &'w [String]) -> Option<Command<'w>>
    ensures { option_map order_by result ≡ demo_of (map string_bytes arguments.now) }
{
    let [cards, seed] = arguments else {
        return None;
    };
    let cards = cards_in(cards.as_str())?;
    let seed = seed_in(seed.as_str())?;
    Some(Command::Demo {
        numbers: DemoNumbers { cards, seed },
    })
}

/// The command of this name with these arguments, where they are as many as it has and its numbers are
/// within bounds.
pub fn command_with<'w>(name: CommandName, arguments: &'w [String]) -> Option<Command<'w>>
    ensures { option_map order_by result ≡ order_of name (map string_bytes arguments.now) }
{
    match name {
        CommandName::Check => check(arguments),
        CommandName::Install => install(arguments),
        CommandName::Run => run(arguments),
        CommandName::Trace => trace(arguments),
        CommandName::Sim => sim(arguments),
        CommandName::List => list(arguments),
        CommandName::Go => go(arguments),
        CommandName::Demo => demo(arguments),
    }
}
