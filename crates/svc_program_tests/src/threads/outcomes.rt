// Outcomes, and lists of slips that are not the units'.

use crate::threads::given::{config, one_task, opened, take, two_tasks};
use std::alloc::Global;
use std::process::Abort;
use std::sync::Wait;
use std::test::*;
use svc_base::Config;
use svc_history::{Recorder, Slip};
use svc_image::Image;
use svc_samples::TEN;
use svc_threads::{RunError, SharedBus, reconcile};

// The slips of the script with the violation; each of its steps is accepted.
fn slips_of<R: Wait + Abort>(rt: &R, alloc: Global, bus: &SharedBus) -> [Slip; 10] {
    let image = two_tasks(rt, alloc);
    TEN.map(|line| take(rt, bus, &image, line).expect(rt, "an accepted event"))
}

// The recorder that the script leaves, and its slips.
fn played<R: Wait + Abort>(rt: &R, alloc: Global) -> (Recorder, [Slip; 10]) {
    let config = config(rt, 4, 16, 100_000, 1_000_000);
    let (bus, _pass) = opened(rt, alloc, two_tasks(rt, alloc), config);
    let slips = slips_of(rt, alloc, &bus);
    (bus.into_recorder(), slips)
}

// The slips of these indexes.
fn list_of(rt: &impl Abort, alloc: Global, slips: &[Slip], indexes: &[usize]) -> Vec<Slip> {
    let mut list = Vec::new(alloc);
    for index in indexes {
        let slip = *slips.get(*index).expect(rt, "a slip");
        list.push(slip).expect(rt, "memory");
    }
    list
}

// The slips of the indexes that each list names.
fn brought(rt: &impl Abort, alloc: Global, slips: &[Slip], lists: &[&[usize]]) -> Vec<Vec<Slip>> {
    let mut all = Vec::new(alloc);
    for indexes in lists {
        all.push(list_of(rt, alloc, slips, indexes))
            .expect(rt, "memory");
    }
    all
}

// The fault that reconciling finds for this image and configuration, if the units' threads bring back these slips of
// the script.
fn reconciled<R: Wait + Abort>(
    rt: &R,
    alloc: Global,
    image: &Image,
    given: Config,
    lists: &[&[usize]],
) -> Option<RunError> {
    let (recorder, slips) = played(rt, alloc);
    let lists = brought(rt, alloc, &slips, lists);
    reconcile(image, given, recorder, lists).err()
}

// The same for the sample of two tasks, and the script's configuration.
fn own<R: Wait + Abort>(rt: &R, alloc: Global, lists: &[&[usize]]) -> Option<RunError> {
    let given = config(rt, 4, 16, 100_000, 1_000_000);
    reconciled(rt, alloc, &two_tasks(rt, alloc), given, lists)
}

// The indexes of unit 1's entries.
const SECOND: &[usize] = &[1, 2, 5, 6, 7, 8, 9];

#[test]
fn slips_are_the_history(rt: HostRuntime) {
    let answer = own(&rt, rt.alloc(), &[&[0, 3, 4], SECOND, &[], &[]]);
    assert_eq!(rt; answer, None);
    let torn = Some(RunError::Torn);
    let answer = own(&rt, rt.alloc(), &[&[0, 4], SECOND, &[], &[]]);
    assert_eq!(rt; answer, torn);
    let answer = own(&rt, rt.alloc(), &[&[3, 0, 4], SECOND, &[], &[]]);
    assert_eq!(rt; answer, torn);
    let answer = own(&rt, rt.alloc(), &[&[0, 3, 4], SECOND, &[]]);
    assert_eq!(rt; answer, torn);
}

// The lists of three units.
const THREE: &[&[usize]] = &[&[0, 3, 4], SECOND, &[]];

fn for_one_task<R: Wait + Abort>(rt: &R, alloc: Global) -> Option<RunError> {
    let given = config(rt, 4, 16, 100_000, 1_000_000);
    reconciled(rt, alloc, &one_task(rt, alloc), given, THREE)
}

fn for_few_sets<R: Wait + Abort>(rt: &R, alloc: Global) -> Option<RunError> {
    let given = config(rt, 4, 8, 100_000, 1_000_000);
    reconciled(rt, alloc, &two_tasks(rt, alloc), given, THREE)
}

#[test]
fn a_foreign_recorder_is_told_first(rt: HostRuntime) {
    let foreign = Some(RunError::ForeignImage);
    assert_eq!(rt; for_one_task(&rt, rt.alloc()), foreign);
    assert_eq!(rt; for_few_sets(&rt, rt.alloc()), foreign);
}

#[test]
fn errors_have_their_numbers(rt: HostRuntime) {
    assert_eq!(rt; RunError::Memory.number(), 1);
    assert_eq!(rt; RunError::NotStarted.number(), 2);
    assert_eq!(rt; RunError::ForeignImage.number(), 3);
    assert_eq!(rt; RunError::Torn.number(), 4);
}
