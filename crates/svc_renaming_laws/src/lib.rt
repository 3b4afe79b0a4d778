//! Units are alike: renaming them changes nothing but their names.
#![tactic(auto)]

mod closed;
mod histories;
mod lines;
mod renamings;
mod sights;
mod standings;

pub use closed::closed_up_to_names_law;
pub use histories::history_law;
pub use lines::line_law;
pub use renamings::renaming_law;
pub use sights::sight_law;
pub use standings::standing_law;
