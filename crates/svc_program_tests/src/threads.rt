// Units on real threads, and the board. These tests end by themselves, and pass whatever the schedule. Expected values
// are worked out by hand.

mod boards;
mod full_sets;
mod gates;
mod given;
mod outcomes;
mod stalls;
mod torn;
