//! What a line of assembly is made of: spaces and comments, names, marks, numbers, characters and registers.
#![tactic(auto)]

mod characters;
mod names;
mod tokens;
mod unread;

pub use characters::{
    Radix, TEXT_END, digit, escape, is_over, number_of, opens, skip_mark, skip_spaces, split_name,
    value_of,
};
pub use names::{Name, Named, REGISTERS, is_word, letters_of, number_named, register};
pub use tokens::{read_base, read_first_register, read_mark, read_number, read_register};
pub use unread::{Read, Unread, Wanted, stopped_at, stopped_at_name};
