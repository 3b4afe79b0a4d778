//! The plain machine: counts of commits, events and turns, from which all else follows by running the program again.
//! What it says of the whole machine, when an event is refused, what is answered, and the headline. Each function is a
//! law: its contract is the statement, and its body is empty.
#![tactic(auto)]

mod events;
mod guides;
mod lists;
mod machine;
mod reply;
mod rows;

pub use events::{
    accepted_event, asked_word_is_wanted, commit_tells_the_end, cut_is_blamed,
    empty_burst_has_no_turn, event_keeps, logs_follow, tasks_are_counted,
};
pub use guides::{guess_is_entry, guess_is_guided, guide_steps};
pub use lists::{
    headline, list_keeps, opening_is_reached, reached_is_sequential, supplier_holds, tasks_are_few,
    whole_machine_anew,
};
pub use machine::{machine_steps, task_anew};
pub use reply::{Cause, Cut, Reply, What};
pub use rows::first_assignment;
pub use svc_base::Served;
