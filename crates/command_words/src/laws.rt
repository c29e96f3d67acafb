// What clap adds to the rule on words.
ghost use Rattle.std.specs.Prelude.{◌≡◌, ℕ, List};
ghost use Rattle.command_words.specs.CommandOrders.{command_of, plain_command_of};

/// Clap takes all words of a command that are as many as its arguments, none of them empty or beginning with a
/// minus sign.
pub fn law_of_words()
    ensures { (words : List (List ℕ)) → command_of words ≡ plain_command_of words }
{}
