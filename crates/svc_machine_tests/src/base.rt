//! Configurations, and the numbers of errors and refusals.

use svc_base::{Config, ConfigError, OpenError, Refusal, WordAddr};

// The error of a configuration, or none.
fn error_of(units: u32, sets: u32, ways: u32, events: u32, turns: u32) -> Option<ConfigError> {
    Config::new(units, sets, ways, events, turns).err()
}

#[test]
fn configurations_in_range_are_made(rt: HostRuntime) {
    let errors = [
        error_of(1, 16, 2, 1_000_000, 1_000_000),
        error_of(1, 1, 1, 1, 1),
        error_of(16, 1, 1, 1, 1),
        error_of(1, 256, 4, 1_000_000, 10_000_000),
    ];
    assert!(rt; errors == [None; 4]);
}

#[test]
fn the_first_number_out_of_range_is_named(rt: HostRuntime) {
    let errors = [
        error_of(1, 16, 2, 1_000_001, 1),
        error_of(1, 3, 2, 1, 1),
        error_of(0, 3, 2, 1, 1),
        error_of(17, 16, 2, 1, 1),
        error_of(1, 512, 2, 1, 1),
        error_of(1, 0, 0, 1, 1),
        error_of(1, 16, 0, 0, 1),
        error_of(1, 16, 5, 0, 1),
        error_of(1, 16, 2, 0, 0),
        error_of(1, 16, 2, 1, 0),
        error_of(1, 16, 2, 1, 10_000_001),
    ];
    let wanted = [
        Some(ConfigError::Events),
        Some(ConfigError::Sets),
        Some(ConfigError::Units),
        Some(ConfigError::Units),
        Some(ConfigError::Sets),
        Some(ConfigError::Sets),
        Some(ConfigError::Ways),
        Some(ConfigError::Ways),
        Some(ConfigError::Events),
        Some(ConfigError::Turns),
        Some(ConfigError::Turns),
    ];
    assert!(rt; errors == wanted);
}

#[test]
fn a_configuration_keeps_its_numbers(rt: HostRuntime) {
    let config = Config::new(1, 64, 3, 500, 7).expect(&rt, "in range");
    let numbers = [
        config.units,
        config.sets,
        config.ways,
        config.events,
        config.turns,
    ];
    assert!(rt; numbers == [1, 64, 3, 500, 7]);
}

#[test]
fn errors_have_their_numbers(rt: HostRuntime) {
    assert_eq!(rt; OpenError::Memory.number(), 1);
    assert_eq!(rt; ConfigError::Units.number(), 1);
    assert_eq!(rt; ConfigError::Turns.number(), 5);
}

// The refusals, in the order in which one takes precedence over another.
const REFUSALS: [Refusal; 17] = [
    Refusal::NoSuchUnit,
    Refusal::Busy,
    Refusal::Idle,
    Refusal::Stale,
    Refusal::ForeignText,
    Refusal::NotEntry,
    Refusal::Stopped,
    Refusal::Done,
    Refusal::SetFull(WordAddr(3)),
    Refusal::NotResident,
    Refusal::Pinned,
    Refusal::HeadNotDone,
    Refusal::NoTask,
    Refusal::IsHead,
    Refusal::HistoryFull,
    Refusal::EpochsSpent,
    Refusal::EmptyBurst,
];

#[test]
fn refusals_have_their_numbers(rt: HostRuntime) {
    for (refusal, number) in REFUSALS.iter().zip(1..=17u8) {
        assert_eq!(rt; refusal.number(), number);
    }
}
