// Numbers among the words.
ghost use Rattle.std.specs.Prelude.{◌≡◌, ◌≤◌, IfSome, option_map};
ghost use Rattle.command_words.specs.CommandOrders.{number_within};

use sil_base::{digits_value, is_number};

/// The number that a word of at most so many digits stands for, where it lies within bounds.
#[tactic(auto, unfolding(crate::specs::CommandOrders::number_within))]
pub fn number(word: &str, digits: usize, least: u64, most: u64) -> Option<u64>
    ensures value { result ≡ number_within digits least most word.now }
    ensures least { IfSome result (λ n. least ≤ n) }
    ensures most { IfSome result (λ n. n ≤ most) }
{
    let bytes = word.as_bytes();
    if !is_number(bytes) || bytes.len() > digits {
        return None;
    }
    let value = digits_value(bytes)?;
    if least <= value && value <= most {
        Some(value)
    } else {
        None
    }
}
