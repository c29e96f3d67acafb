// Words of syntax tables.
ghost use Rattle.std.specs.Prelude.{◌≡◌, ◌+◌, ◌*◌, pos};
ghost use Rattle.sil_micro.specs.TableWords.{action_number};

use sil_model::Action;

/// The number of the first word of a table.
pub(crate) fn first_word(t: u16) -> i64
    ensures { result ≡ pos (512 * t) }
{
    512 * i64::from(t)
}

/// The number of the word behind those of a table.
pub(crate) fn past_words(t: u16) -> i64
    ensures { result ≡ pos (512 * t + 512) }
{
    512 * i64::from(t) + 512
}

/// The number of an action.
pub(crate) fn action_number(action: Action) -> i64
    ensures { result ≡ pos (action_number action) }
{
    match action {
        Action::Contin => 0,
        Action::Goto(_) => 1,
        Action::Stop => 2,
        Action::Stopsh => 3,
        Action::Error => 4,
    }
}
