//! The sequential program that a machine runs: its definitions, from bytes and words to the sequential run
//! and bursts, and their laws.
#![tactic(auto)]

mod ask;
mod end;
mod laws;

pub use ask::Ask;
pub use end::{End, Ending};
pub use laws::{
    bytes_of_a_word, due_is_entry, ended_task_stays, every_task_ends, one_burst, one_turn_more,
    same_part, same_plain_part, sequence_on_words, turns_on_words, words_are_counted,
};
