//! Tests of the machine and of what it stands on, from configurations and images to its schedules, by their public
//! calls.

#![tactic(auto)]

#[cfg(test)]
mod base;
#[cfg(test)]
mod bursts;
#[cfg(test)]
mod bus;
#[cfg(test)]
mod cache;
#[cfg(test)]
mod history;
#[cfg(test)]
mod images;
#[cfg(test)]
mod line;
#[cfg(test)]
mod machine;
#[cfg(test)]
mod schedule;
#[cfg(test)]
mod script;
#[cfg(test)]
mod words;
