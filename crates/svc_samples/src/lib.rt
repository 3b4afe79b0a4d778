//! What tests and cases use: sample images, and ten events of one of them, as values and as texts.
#![tactic(auto)]

mod entries;
mod events;
mod images;
mod texts;

pub use entries::{SIX_ENTRIES, TEN_ENTRIES};
pub use events::{Line, TEN};
pub use images::{P, P2, R};
pub use texts::{SCRIPT, SUMMARY, TRACE};
