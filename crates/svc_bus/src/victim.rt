//! The tasks that a write squashes.

use svc_base::TaskNo;

/// The tasks that a write squashed because the first of them had read the word too early.
#[derive(Clone, Copy, Debug, PartialEq, Eq)]
pub struct Victim {
    /// The first of them.
    pub first: TaskNo,
    /// How many they are: all tasks that were active from the first on.
    pub tasks: u32,
}
