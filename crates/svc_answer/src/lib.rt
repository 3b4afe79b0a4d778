//! What a request comes to: the definitions of what it prints, saves and answers, and what all subcommands share in
//! that: files that are loaded and saved, texts and summaries that are printed.
#![tactic(auto)]

pub mod front;
pub mod load;
pub mod output;
pub mod summary;
