// The numbers of a run, and their ranges.

ghost use Rattle.std.specs.Prelude.{◌≡◌, ◌≤◌, IsTrue, None, Some, IfOk, MatchResult};
ghost use Rattle.std.specs.Int.{is_power_of_two};
ghost use Rattle.svc_base.specs.declared.config.TheConstants.{MAX_EVENTS, MAX_SETS, MAX_TURNS, MAX_UNITS, MAX_WAYS};
ghost use Rattle.svc_base.specs.Limits.{config_fault, error_number};

use thiserror::Error;

/// The greatest number of units of a configuration.
pub const MAX_UNITS: u32 = 16;

/// The greatest number of sets of a cache.
pub const MAX_SETS: u32 = 256;

/// The greatest number of ways of a cache.
pub const MAX_WAYS: u32 = 4;

/// The greatest event limit.
pub const MAX_EVENTS: u32 = 1_000_000;

/// The greatest number of turns of a unit thread's loop.
pub const MAX_TURNS: u32 = 10_000_000;

/// The numbers of a run. The type guarantees that each is in its range.
#[derive(Clone, Copy, Debug, PartialEq, Eq)]
pub struct Config {
    /// How many units there are.
    pub units: u32,
    /// How many sets each unit's cache has, a power of two.
    pub sets: u32,
    /// How many lines a set holds.
    pub ways: u32,
    /// The largest number of events that are accepted.
    pub events: u32,
    /// The largest number of turns that each unit thread's loop takes.
    pub turns: u32,
    pub ghost some_units: { 1 ≤ units },
    pub ghost few_units: { units ≤ MAX_UNITS },
    pub ghost some_sets: { 1 ≤ sets },
    pub ghost few_sets: { sets ≤ MAX_SETS },
    pub ghost even_sets: { IsTrue (is_power_of_two sets) },
    pub ghost some_ways: { 1 ≤ ways },
    pub ghost few_ways: { ways ≤ MAX_WAYS },
    pub ghost some_events: { 1 ≤ events },
    pub ghost few_events: { events ≤ MAX_EVENTS },
    pub ghost some_turns: { 1 ≤ turns },
    pub ghost few_turns: { turns ≤ MAX_TURNS },
}

/// Which number of a configuration is out of its range.
#[derive(Clone, Copy, Debug, PartialEq, Eq, Error)]
pub enum ConfigError {
    /// The units are not 1 to [`MAX_UNITS`].
    #[error("the units are not 1 to 16")]
    Units,
    /// The sets are not a power of two from 1 to [`MAX_SETS`].
    #[error("the sets are not a power of two from 1 to 256")]
    Sets,
    /// The ways are not 1 to [`MAX_WAYS`].
    #[error("the ways are not 1 to 4")]
    Ways,
    /// The event limit is not 1 to [`MAX_EVENTS`].
    #[error("the event limit is not 1 to 1000000")]
    Events,
    /// The turns are not 1 to [`MAX_TURNS`].
    #[error("the turns are not 1 to 10000000")]
    Turns,
}

impl Config {
    /// The configuration of these numbers.
    ///
    /// Errors: the first number that is out of its range, in the order of the arguments.
    #[tactic(auto, unfolding(crate::specs::Limits::config_fault))]
    pub fn new(
        units: u32,
        sets: u32,
        ways: u32,
        events: u32,
        turns: u32,
    ) -> Result<Config, ConfigError>
        ensures accepted { MatchResult result
            (λ c. config_fault units sets ways events turns ≡ None)
            (λ e. config_fault units sets ways events turns ≡ Some e) }
        ensures units { IfOk result (λ c. c.units ≡ units) }
        ensures sets { IfOk result (λ c. c.sets ≡ sets) }
        ensures ways { IfOk result (λ c. c.ways ≡ ways) }
        ensures events { IfOk result (λ c. c.events ≡ events) }
        ensures turns { IfOk result (λ c. c.turns ≡ turns) }
    {
        if units < 1 || units > MAX_UNITS {
            return Err(ConfigError::Units);
        }
        if sets < 1 || sets > MAX_SETS || !sets.is_power_of_two() {
            return Err(ConfigError::Sets);
        }
        if ways < 1 || ways > MAX_WAYS {
            return Err(ConfigError::Ways);
        }
        if events < 1 || events > MAX_EVENTS {
            return Err(ConfigError::Events);
        }
        if turns < 1 || turns > MAX_TURNS {
            return Err(ConfigError::Turns);
        }
        Ok(Config {
            units,
            sets,
            ways,
            events,
            turns,
        })
    }
}

impl ConfigError {
    /// The number by which the program reports this error.
    pub fn number(self) -> u8
        ensures { result ≡ error_number self }
    {
        match self {
            ConfigError::Units => 1,
            ConfigError::Sets => 2,
            ConfigError::Ways => 3,
            ConfigError::Events => 4,
            ConfigError::Turns => 5,
        }
    }
}
