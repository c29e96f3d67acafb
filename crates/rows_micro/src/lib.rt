// Worked rows of micro operations and their code.
#![tactic(auto)]

mod codes;
#[cfg(test)]
mod growth;
mod operations;

pub use codes::{
    begun_twice_is_not_whole, jump_past_the_end_is_not_whole, two_statements_are_whole,
};
pub use operations::{
    division_at_its_edges, flags_past_their_limit, records_are_read, words_past_their_areas,
};
