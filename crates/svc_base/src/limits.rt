// The limits of tasks that no configuration sets.

/// The most turns in a burst, including an asked one.
pub const MAX_BURST_TURNS: u32 = 63;

/// The most words that one task can output.
pub const MAX_TASK_OUTPUT: usize = 64;
