// A port that tells its threads something other than what it records.

use crate::threads::gates::Open;
use crate::threads::given::{config, one_task, opened};
use std::alloc::Global;
use std::process::Abort;
use std::sync::Wait;
use std::test::*;
use std::thread::Threads;
use svc_base::{Refusal, UnitId};
use svc_history::{Event, Glance, Recorder, Slip};
use svc_threads::{Board, Port, RunError, Shared, SharedBus, run_over};

// What becomes of the slips of these indexes on their way to the thread.
#[derive(Clone, Copy)]
enum Damage {
    Nothing,
    Lost(usize),
    Changed(usize),
    Exchanged(usize, usize),
}

/// A bus whose slips are damaged.
#[derive(Drop)]
struct Damaged {
    bus: SharedBus,
    damage: Damage,
}

impl Port for Damaged {
    ghost board_of = { λ d. d.bus };

    fn lease<R: Wait>(&self, rt: &R, unit: UnitId) -> Result<Glance, Refusal> {
        self.bus.lease(rt, unit)
    }

    fn apply<R: Wait>(&self, rt: &R, event: Event<'_>) -> Result<Slip, Refusal> {
        let Slip { index, entry } = Port::apply(&self.bus, rt, event)?;
        let index = match self.damage {
            Damage::Lost(lost) if lost == index => return Err(Refusal::Stale),
            Damage::Changed(changed) if changed == index => 1_000,
            Damage::Exchanged(one, other) if one == index => other,
            Damage::Exchanged(one, other) if other == index => one,
            _ => index,
        };
        Ok(Slip { index, entry })
    }

    fn board(&self) -> &Board {
        self.bus.board()
    }
}

impl Shared for Damaged {
    fn into_recorder(self) -> Recorder {
        let Damaged { bus, .. } = self;
        bus.into_recorder()
    }
}

// The fault with which a run on one unit over such a bus ends.
fn fault<R: Threads + Wait + Abort + Sync>(
    rt: &R,
    alloc: Global,
    damage: Damage,
) -> Option<RunError> {
    let config = config(rt, 1, 16, 100, 50);
    let (bus, pass) = opened(rt, alloc, one_task(rt, alloc), config);
    let image = one_task(rt, alloc);
    let port = Damaged { bus, damage };
    run_over(rt, alloc, port, pass, &image, config, &Open).err()
}

// The run has six events: the assignment, four submits and the commit.
#[test]
fn a_damaged_slip_tears_the_run(rt: HostRuntime) {
    assert_eq!(rt; fault(&rt, rt.alloc(), Damage::Nothing), None);
    assert_eq!(rt; fault(&rt, rt.alloc(), Damage::Lost(6)), None);
    let torn = Some(RunError::Torn);
    for index in 0..6 {
        assert_eq!(rt; fault(&rt, rt.alloc(), Damage::Lost(index)), torn);
        assert_eq!(rt; fault(&rt, rt.alloc(), Damage::Changed(index)), torn);
        let other = (index + 1) % 6;
        assert_eq!(rt;
            fault(&rt, rt.alloc(), Damage::Exchanged(index, other)),
            torn
        );
    }
}
