// Words, and the commands that they give.
use command_words::{Command, MAX_DEMO_CARDS, MAX_SEED, read_command};
use sil_base::MAX_STEPS;
use std::alloc::{AllocError, Global};
use std::test::Fail;

/// Words with a blank between any two, and the command that they give, where they are accepted.
static ROWS: [(&str, &str); 46] = [
    ("", "None"),
    (
        "check S T P",
        "Some(Check { names: SourceFiles { source: \"S\", tables: \"T\", params: \"P\" } })",
    ),
    (
        "install S T P I",
        "Some(Install { names: SourceFiles { source: \"S\", tables: \"T\", params: \"P\" }, image: \"I\" })",
    ),
    (
        "run A 5",
        "Some(Run { image: \"A\", steps: Steps { most: 5 } })",
    ),
    (
        "trace A 0",
        "Some(Trace { image: \"A\", steps: Steps { most: 0 } })",
    ),
    (
        "sim S T P 0000000000012",
        "Some(Sim { names: SourceFiles { source: \"S\", tables: \"T\", params: \"P\" }, steps: Steps { most: 12 } })",
    ),
    ("list A", "Some(List { image: \"A\" })"),
    (
        "go S T P I 7",
        "Some(Go { names: SourceFiles { source: \"S\", tables: \"T\", params: \"P\" }, image: \"I\", steps: Steps { most: 7 } })",
    ),
    (
        "demo 6 0",
        "Some(Demo { numbers: DemoNumbers { cards: 6, seed: 0 } })",
    ),
    (
        "run A 1099511627776",
        "Some(Run { image: \"A\", steps: Steps { most: 1099511627776 } })",
    ),
    ("run A 1099511627777", "None"),
    ("run A 9999999999999", "None"),
    ("run A 00000000000005", "None"),
    ("run A 5x", "None"),
    ("run A +5", "None"),
    ("trace A 1099511627777", "None"),
    ("sim S T P 1099511627777", "None"),
    ("go S T P I 1099511627777", "None"),
    (
        "demo 16000 1",
        "Some(Demo { numbers: DemoNumbers { cards: 16000, seed: 1 } })",
    ),
    ("demo 16001 1", "None"),
    ("demo 0 1", "None"),
    (
        "demo 0000000000006 0000000001",
        "Some(Demo { numbers: DemoNumbers { cards: 6, seed: 1 } })",
    ),
    ("demo 00000000000006 1", "None"),
    ("demo 6 00000000001", "None"),
    (
        "demo 1 2147483647",
        "Some(Demo { numbers: DemoNumbers { cards: 1, seed: 2147483647 } })",
    ),
    ("demo 1 2147483648", "None"),
    ("demo 1 9999999999", "None"),
    ("list -x", "None"),
    ("list -", "None"),
    ("list --", "None"),
    ("list --help", "None"),
    ("list x-", "Some(List { image: \"x-\" })"),
    ("list help", "Some(List { image: \"help\" })"),
    ("list ", "None"),
    ("check S  P", "None"),
    ("run A -5", "None"),
    ("run -- A 5", "None"),
    ("check S T", "None"),
    ("check S T P I", "None"),
    ("install S T P", "None"),
    ("list", "None"),
    ("run A", "None"),
    ("run A 5 6", "None"),
    ("help", "None"),
    ("--help", "None"),
    ("Run A 5", "None"),
];

fn split(alloc: Global, line: &str) -> Result<Vec<String>, AllocError> {
    let mut words = Vec::new(alloc);
    for word in line.split(' ') {
        words.push(String::from_str(alloc, word)?)?;
    }
    Ok(words)
}

#[test]
fn words_give_commands(rt: HostRuntime) -> Result<(), Fail> {
    let alloc = rt.alloc();
    for &(line, expected) in &ROWS {
        let words = split(alloc, line)?;
        let command = read_command(alloc, words.as_slice())?;
        let said = format!(in alloc; "{command:?}")?;
        assert!(rt; said.as_str() == expected, "{line}");
    }
    Ok(())
}

#[test]
fn no_words_give_no_command(rt: HostRuntime) -> Result<(), Fail> {
    assert!(rt; read_command(rt.alloc(), &[])?.is_none());
    Ok(())
}

/// The numbers of a command, which its type bounds.
fn numbers(command: &Command<'_>) -> (u64, u32) {
    match command {
        Command::Run { steps, .. } | Command::Trace { steps, .. } => {
            prove!(steps.most <= MAX_STEPS);
            (steps.most, 0)
        }
        Command::Demo { numbers } => {
            prove!(1 <= numbers.cards && numbers.cards <= MAX_DEMO_CARDS);
            prove!(numbers.seed <= MAX_SEED);
            (u64::from(numbers.cards), numbers.seed)
        }
        _ => (0, 0),
    }
}

#[test]
fn numbers_keep_their_bounds(rt: HostRuntime) -> Result<(), Fail> {
    let words = split(rt.alloc(), "demo 6 2")?;
    let command = read_command(rt.alloc(), words.as_slice())?.ok_or("no command")?;
    assert!(rt; numbers(&command) == (6, 2));
    Ok(())
}
