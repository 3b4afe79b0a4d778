// Units whose cache has no room.

use crate::threads::gates::Open;
use crate::threads::given::{Left, count, image_of, put, run, two_tasks};
use std::alloc::Global;
use std::process::Abort;
use std::sync::Wait;
use std::sync::atomic::{AtomicU64, Ordering};
use std::test::*;
use std::thread::Threads;
use svc_base::{Config, Refusal, UnitId, WordAddr};
use svc_core::{Core, Lease};
use svc_core_laws::Ending;
use svc_history::{Event, Glance, Kind, Slip};
use svc_image::{Image, samples};
use svc_threads::{Board, Port, run_unit};

// The sample of one task, which loads the next word.
fn two_words(rt: &impl Abort, alloc: Global) -> Image {
    let mut bytes = samples::P1;
    put(&mut bytes, 168, 0x0042_A503);
    image_of(rt, alloc, &bytes)
}

// What the run of one unit whose cache has one place leaves, after this many turns.
fn run_small<R: Threads + Wait + Abort + Sync>(rt: &R, alloc: Global, turns: u32) -> Left {
    let config = Config::new(1, 1, 1, 100, turns).expect(rt, "a configuration");
    run(rt, alloc, &two_words(rt, alloc), config, &Open)
}

// One place in the cache, and two words: between the store and the load one line is replaced, in the turn of the load
// that was refused. With the assignment, four submits, the refused load and the commit that makes seven turns.
#[test]
fn a_line_is_replaced_in_the_same_turn(rt: HostRuntime) {
    for (turns, entries, ending) in [(7, 7, Ending::Exit(0)), (6, 6, Ending::Open(0))] {
        let left = run_small(&rt, rt.alloc(), turns);
        assert_eq!(rt; left.entries, entries, "{turns} turns");
        assert_eq!(rt; left.ending, ending, "{turns} turns");
        assert_eq!(rt; left.third, Some(Kind::Replace), "{turns} turns");
    }
}

/// A bus on which a unit's cache is full of pinned lines.
#[derive(Drop)]
struct Pinned {
    board: Board,
    core: Core,
    leases: AtomicU64,
    submits: AtomicU64,
    replaces: AtomicU64,
}

impl Port for Pinned {
    ghost board_of = { λ p. p.board };

    fn lease<R: Wait>(&self, _rt: &R, unit: UnitId) -> Result<Glance, Refusal> {
        self.leases.fetch_add(1, Ordering::SeqCst);
        Ok(Glance {
            ended: false,
            lease: Some(Lease::new(unit, 0, self.core)),
            is_head: false,
            guess: None,
        })
    }

    fn apply<R: Wait>(&self, _rt: &R, event: Event<'_>) -> Result<Slip, Refusal> {
        match event {
            Event::Submit { .. } => {
                self.submits.fetch_add(1, Ordering::SeqCst);
                Err(Refusal::SetFull(WordAddr(1)))
            }
            Event::Replace {
                addr: WordAddr(1),
                ..
            } => {
                self.replaces.fetch_add(1, Ordering::SeqCst);
                Err(Refusal::Pinned)
            }
            _ => Err(Refusal::Idle),
        }
    }

    fn board(&self) -> &Board {
        &self.board
    }
}

// How many slips the unit's thread brings back after 50 turns, and how often it asked for a lease, a submit and a
// replacement.
fn calls<R: Wait + Abort>(rt: &R, alloc: Global) -> (Option<usize>, [u64; 3]) {
    let image = two_tasks(rt, alloc);
    let (board, pass) = Board::open(alloc).expect(rt, "a board");
    let port = Pinned {
        board,
        core: Core::start(&image, image.start()),
        leases: AtomicU64::new(0),
        submits: AtomicU64::new(0),
        replaces: AtomicU64::new(0),
    };
    let slips = count(run_unit(rt, alloc, &port, UnitId(0), pass, &image, 50, &Open));
    let asked = [
        port.leases.load(Ordering::SeqCst),
        port.submits.load(Ordering::SeqCst),
        port.replaces.load(Ordering::SeqCst),
    ];
    (slips, asked)
}

#[test]
fn a_unit_whose_lines_are_pinned_keeps_off_the_lock(rt: HostRuntime) {
    let (slips, asked) = calls(&rt, rt.alloc());
    assert_eq!(rt; slips, Some(0));
    assert_eq!(rt; asked, [1, 1, 1]);
}
