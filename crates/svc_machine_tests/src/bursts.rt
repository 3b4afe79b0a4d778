// Where bursts stop, and what they keep.

use byteorder::{ByteOrder, LittleEndian};
use std::alloc::Global;
use std::process::Abort;
use svc_base::UnitId;
use svc_core::{Ask, Burst, Core, End, Lease, MAX_BURST_TURNS};
use svc_image::{DATA_START, Image};
use svc_rv32i::StoreKind;
use svc_samples::P;

// Changes of the sample's text: none; JAL x0, 0 or ADDI x0, x0, 0 in place of the store; EBREAK in place of the second
// word.
const NONE: &[(usize, u32)] = &[];

const SPINS: &[(usize, u32)] = &[(2, 0x0000006F)];

const LEADS_ON: &[(usize, u32)] = &[(2, 0x00000013)];

const BREAKS: &[(usize, u32)] = &[(1, 0x00100073)];

// How many turns are done, how many looks were taken, whether something is asked, and the end.
type Shape = (u32, usize, bool, Option<End>);

fn shape(burst: &Burst) -> Shape {
    let asks = !burst.ask().is_nothing();
    (burst.local(), burst.looks().len(), asks, burst.end().done())
}

// The sample of two tasks, the first beginning here, with these changes of its text.
fn sample(rt: &impl Abort, alloc: Global, start: u32, changes: &[(usize, u32)]) -> Image {
    let mut bytes = P;
    LittleEndian::write_u32(&mut bytes[20..], start);
    for (at, word) in changes {
        if *at < 9 {
            LittleEndian::write_u32(&mut bytes[156 + 4 * *at..], *word);
        }
    }
    Image::read(alloc, &bytes).expect(rt, "an image")
}

// The core of the task that is first.
fn core_of(image: &Image) -> Core {
    Core::start(image, image.start())
}

fn advance(image: &Image, core: Core, max: u32) -> Burst {
    Lease::new(UnitId(1), 7, core).advance(image, max)
}

// The first burst of an image, of at most this many turns.
fn burst_of(image: &Image, max: u32) -> Burst {
    advance(image, core_of(image), max)
}

// The first burst: its unit, where it ends after how many turns, and what it asks.
fn first_burst(rt: &impl Abort, alloc: Global) -> (UnitId, u64, u32, u32, Ask) {
    let burst = burst_of(&sample(rt, alloc, 0, NONE), MAX_BURST_TURNS);
    let end = burst.end();
    (
        burst.unit(),
        burst.epoch(),
        end.pc(),
        end.count(),
        burst.ask(),
    )
}

// The shapes of the first bursts of at most 63, 3, 2 and 0 turns, since the asked turn counts against the most, and of
// the one at 12: the first place is an entry, and isn't tested for one.
fn shapes_to_an_ask(rt: &impl Abort, alloc: Global) -> [Shape; 5] {
    let first = sample(rt, alloc, 0, NONE);
    let second = sample(rt, alloc, 12, NONE);
    [
        shape(&burst_of(&first, MAX_BURST_TURNS)),
        shape(&burst_of(&first, 3)),
        shape(&burst_of(&first, 2)),
        shape(&burst_of(&first, 0)),
        shape(&burst_of(&second, MAX_BURST_TURNS)),
    ]
}

#[test]
fn an_ask_stops(rt: HostRuntime) {
    let store = Ask::Store {
        kind: StoreKind::Word,
        addr: DATA_START,
        value: 5,
    };
    assert_eq!(rt; first_burst(&rt, rt.alloc()), (UnitId(1), 7, 8, 2, store));
    let shapes = [
        (2, 3, true, None),
        (2, 3, true, None),
        (2, 3, false, None),
        (0, 1, false, None),
        (1, 2, true, None),
    ];
    assert_eq!(rt; shapes_to_an_ask(&rt, rt.alloc()), shapes);
}

// The shapes of the first burst and of one from its end, of at most this many turns.
fn shapes_of(image: &Image, max: u32) -> [Shape; 2] {
    let first = burst_of(image, max);
    let second = advance(image, *first.end(), max);
    [shape(&first), shape(&second)]
}

// Those of a burst to the entry at 12, and of one to a trap.
fn shapes_to_an_end(rt: &impl Abort, alloc: Global) -> [[Shape; 2]; 2] {
    let leads_on = sample(rt, alloc, 0, LEADS_ON);
    let breaks = sample(rt, alloc, 0, BREAKS);
    [
        shapes_of(&leads_on, MAX_BURST_TURNS),
        shapes_of(&breaks, MAX_BURST_TURNS),
    ]
}

#[test]
fn an_end_stops(rt: HostRuntime) {
    let next = Some(End::Next(12));
    let trap = Some(End::Trap(8));
    let shapes = [
        [(3, 4, false, next), (0, 0, false, next)],
        [(2, 2, false, trap), (0, 0, false, trap)],
    ];
    assert_eq!(rt; shapes_to_an_end(&rt, rt.alloc()), shapes);
}

#[test]
fn a_burst_has_63_turns(rt: HostRuntime) {
    let image = sample(&rt, rt.alloc(), 0, SPINS);
    let shapes = shapes_of(&image, 1000);
    let wanted = [(63, 64, false, None), (38, 38, false, Some(End::Trap(1)))];
    assert_eq!(rt; shapes, wanted);
}

// Whether the sample's first burst of a task that begins here is of the sample with these changes.
fn is_of(rt: &impl Abort, alloc: Global, start: u32, changes: &[(usize, u32)]) -> bool {
    let burst = burst_of(&sample(rt, alloc, start, NONE), MAX_BURST_TURNS);
    burst.is_of(&sample(rt, alloc, 0, changes))
}

// A burst is of its image, and not of one with another second word; if it didn't look there, it is.
#[test]
fn a_burst_is_of_its_image(rt: HostRuntime) {
    let other = [(1, 0x00600093)];
    let found = [
        is_of(&rt, rt.alloc(), 0, NONE),
        is_of(&rt, rt.alloc(), 0, &other),
        is_of(&rt, rt.alloc(), 12, &other),
    ];
    assert_eq!(rt; found, [true, false, true]);
}

// The shape and the owner of a burst made in the place of a longer one of another image, and whether it is of its image
// and begins with the core of its lease.
fn refilled(rt: &impl Abort, alloc: Global) -> (Shape, UnitId, u64, bool, bool) {
    let mut burst = burst_of(&sample(rt, alloc, 0, SPINS), MAX_BURST_TURNS);
    let image = sample(rt, alloc, 12, NONE);
    let lease = Lease::new(UnitId(2), 8, core_of(&image));
    burst.refill(&lease, &image, MAX_BURST_TURNS);
    let same_start = burst.start().is_same(&lease.core);
    (
        shape(&burst),
        burst.unit(),
        burst.epoch(),
        burst.is_of(&image),
        same_start,
    )
}

#[test]
fn a_burst_is_made_in_the_place_of_another(rt: HostRuntime) {
    let wanted = ((1, 2, true, None), UnitId(2), 8, true, true);
    assert_eq!(rt; refilled(&rt, rt.alloc()), wanted);
}
