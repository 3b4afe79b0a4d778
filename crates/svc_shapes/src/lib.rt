//! The shapes of a picture, as elements of SVG: each function adds one to a text.
#![tactic(auto)]

mod around;
mod joined;
mod kinds;
mod shapes;
pub mod sheet;

pub use around::{
    arrow_heads, axis_words, bar_words, bold_sample, border, closing, commit_sample, fate_sample,
    hatching, headline, lane, mark_sample, opening, paper_text, parts_close, parts_open,
    thin_sample, tick,
};
pub use joined::{group_close, group_open, joined_title, joined_words, plain_box, plain_line};
pub use kinds::{cross, diamond, kind_close, kind_open, letter_above, letter_within, ring, square};
pub use shapes::{
    bar_box, bold_arrow, box_fate, box_title, close, commit_line, label, label_close, label_open,
    mark_at, rim_close, rim_open, thin_arrow, title_open,
};
pub use sheet::Point;
