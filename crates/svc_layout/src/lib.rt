//! What the lines of a program say, and where that stands in the image that they make.
#![tactic(auto)]

mod refusal;
mod section;
mod source;
mod statement;
mod steps;

pub use refusal::Refusal;
pub use section::{Section, Spot, Width};
pub use source::{Binding, Linkage, Local, Strength};
pub use statement::{Ending, Next, Statement};
pub use steps::Steps;
