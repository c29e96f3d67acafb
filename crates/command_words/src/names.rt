// The names of the commands, and the arguments of each.
ghost use Rattle.std.specs.Prelude.{◌≡◌, map};
ghost use Rattle.sil_base.specs.Names.{texts_of};
ghost use Rattle.command_words.specs.ClapCommands.{argument_names, command_name, command_names, named};

/// A command, by its name.
#[derive(Clone, Copy, Debug, Drop, PartialEq, Eq)]
pub enum CommandName {
    Check,
    Install,
    Run,
    Trace,
    Sim,
    List,
    Go,
    Demo,
}

static COMMAND_NAMES: [CommandName; 8] = [
    CommandName::Check,
    CommandName::Install,
    CommandName::Run,
    CommandName::Trace,
    CommandName::Sim,
    CommandName::List,
    CommandName::Go,
    CommandName::Demo,
];

impl CommandName {
    /// The word of this name.
    pub fn word(self) -> &'static str
        ensures { result.now ≡ command_name self }
    {
        match self {
            CommandName::Check => "check",
            CommandName::Install => "install",
            CommandName::Run => "run",
            CommandName::Trace => "trace",
            CommandName::Sim => "sim",
            CommandName::List => "list",
            CommandName::Go => "go",
            CommandName::Demo => "demo",
        }
    }

    /// The command that a word names.
    pub fn of_word(word: &str) -> Option<CommandName>
        ensures { result ≡ named word.now }
    {
        COMMAND_NAMES
            .iter()
            .copied()
            .find(|name| word == name.word())
    }

    /// Its arguments, in their places.
    pub fn arguments(self) -> &'static [&'static str]
        ensures { texts_of result.now ≡ argument_names self }
    {
        match self {
            CommandName::Check => &["SRC", "TABLES", "PARAMS"],
            CommandName::Install => &["SRC", "TABLES", "PARAMS", "IMAGE"],
            CommandName::Run | CommandName::Trace => &["IMAGE", "N"],
            CommandName::Sim => &["SRC", "TABLES", "PARAMS", "N"],
            CommandName::List => &["IMAGE"],
            CommandName::Go => &["SRC", "TABLES", "PARAMS", "IMAGE", "N"],
            CommandName::Demo => &["N", "SEED"],
        }
    }
}
