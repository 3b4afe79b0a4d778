//! What the tasks of a program need of one another, told from a walk over the turns of its sequential run.
#![tactic(auto)]

mod links;
mod needs;
mod pairs;
mod run;
mod task;
mod text;
mod tracker;
mod turn;
mod word;

pub use needs::{TaskNeeds, Totals};
pub use pairs::{PairForm, write_pairs};
pub use run::{MAX_TASKS, Needs, find_needs};
pub use text::{write_task_needs, write_totals, write_word_needs};
pub use word::Word;
