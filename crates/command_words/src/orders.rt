// What a command is told to do.
ghost use Rattle.std.specs.Prelude.{◌≤◌};
ghost use Rattle.sil_base.specs.declared.limits.TheConstants.{MAX_STEPS};
ghost use Rattle.command_words.specs.declared.orders.TheConstants.{MAX_DEMO_CARDS, MAX_SEED};

/// The most cards that a demo makes before its last eight.
pub const MAX_DEMO_CARDS: u32 = 16_000;
/// The largest seed of a demo.
pub const MAX_SEED: u32 = (1 << 31) - 1;

/// The names of the files of a source.
#[derive(Clone, Copy, Debug, Drop)]
pub struct SourceFiles<'w> {
    pub source: &'w str,
    pub tables: &'w str,
    pub params: &'w str,
}

/// The most steps that a run may take.
#[derive(Clone, Copy, Debug, Drop)]
pub struct Steps {
    pub most: u64,
    ghost few: { most ≤ MAX_STEPS },
}

/// How many cards a demo makes, and where its numbers begin.
#[derive(Clone, Copy, Debug, Drop)]
pub struct DemoNumbers {
    pub cards: u32,
    pub seed: u32,
    ghost some_cards: { 1 ≤ cards },
    ghost few_cards: { cards ≤ MAX_DEMO_CARDS },
    ghost small_seed: { seed ≤ MAX_SEED },
}

/// A command with its arguments.
#[derive(Debug, Drop)]
pub enum Command<'w> {
    Check {
        names: SourceFiles<'w>,
    },
    Install {
        names: SourceFiles<'w>,
        image: &'w str,
    },
    Run {
        image: &'w str,
        steps: Steps,
    },
    Trace {
        image: &'w str,
        steps: Steps,
    },
    Sim {
        names: SourceFiles<'w>,
        steps: Steps,
    },
    List {
        image: &'w str,
    },
    Go {
        names: SourceFiles<'w>,
        image: &'w str,
        steps: Steps,
    },
    Demo {
        numbers: DemoNumbers,
    },
}
