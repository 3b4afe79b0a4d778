//! A cache: which lines it holds, which one leaves, and how many places a step searches.

ghost use Rattle.std.specs.Prelude.{◌≡◌, ◌≤◌, true};
ghost use Rattle.svc_base.specs.declared.config.TheConstants.{MAX_SETS, MAX_WAYS};
ghost use Rattle.svc_line.specs.Bits.{bits_of};

use std::alloc::Global;
use std::process::Abort;
use svc_base::WordAddr;
use svc_cache::{Cache, Probes, SetFull};
use svc_line::{Line, LineBits};

// An active line with this value.
fn line(value: u32) -> Line
    ensures { (bits_of result.bits).valid ≡ true }
{
    Line {
        value,
        bits: LineBits::on_load(true, false),
        next: None,
    }
}

// What is done to a cache.
#[derive(Clone, Copy)]
enum Step {
    Fill(u32, u32),
    Drop(u32),
    Lookup(u32),
    Full(u32),
    Commit,
    Squash,
}

// What a step answers.
#[derive(Clone, Copy, Debug, PartialEq, Eq)]
enum Answer {
    Done,
    Filled(Result<(), SetFull>),
    Found(Option<Line>),
    Named(Option<WordAddr>),
}

// A cache, known to have few ways, so that the probes of a step can be counted.
#[derive(Drop)]
struct Tested {
    cache: Cache,
    ghost few_ways: { cache.ways ≤ MAX_WAYS },
}

impl Tested {
    fn open(rt: &impl Abort, alloc: Global, sets: u32, ways: u32) -> Tested
        requires few_sets { sets ≤ MAX_SETS }
        requires some_ways { 1 ≤ ways }
        requires few_ways { ways ≤ MAX_WAYS }
    {
        assert!(rt; sets.is_power_of_two());
        let cache = Cache::open(alloc, sets, ways).expect(rt, "a cache");
        Tested { cache }
    }

    // The step's answer, and the probes that it took.
    fn perform(&mut self, step: Step) -> (Answer, Probes) {
        let mut probes = Probes::new();
        let answer = match step {
            Step::Fill(word, value) => {
                Answer::Filled(self.cache.fill(WordAddr(word), line(value), &mut probes))
            }
            Step::Drop(word) => {
                self.cache.drop_line(WordAddr(word), &mut probes);
                Answer::Done
            }
            Step::Lookup(word) => Answer::Found(self.cache.lookup(WordAddr(word), &mut probes)),
            Step::Full(word) => Answer::Named(self.cache.full(WordAddr(word), &mut probes)),
            Step::Commit => {
                self.cache.for_commit();
                Answer::Done
            }
            Step::Squash => {
                self.cache.for_squash();
                Answer::Done
            }
        };
        (answer, probes)
    }
}

const FULL: Answer = Answer::Filled(Err(SetFull(WordAddr(0))));

const FILLED: Answer = Answer::Filled(Ok(()));

// How often a step searches a set.
fn searches(step: Step) -> u32 {
    match step {
        Step::Commit | Step::Squash => 0,
        _ => 1,
    }
}

// Each step in turn has this answer, by one search of at most four places; a commit and a squash need none.
fn follow(rt: &impl Abort, cache: &mut Tested, steps: &[(Step, Answer)]) {
    for (number, (step, expected)) in steps.iter().enumerate() {
        let (answer, probes) = cache.perform(*step);
        assert_eq!(rt; answer, *expected, "at step {number}");
        assert_eq!(rt; probes.searches, searches(*step), "at step {number}");
        assert!(rt; probes.places <= 4);
    }
}

#[test]
fn a_set_of_one_way_holds_one_line(rt: HostRuntime) {
    let mut cache = Tested::open(&rt, rt.alloc(), 2, 1);
    let steps = [
        (Step::Fill(0, 10), FILLED),
        (Step::Fill(2, 12), FULL),
        (Step::Fill(1, 11), FILLED),
        (Step::Fill(0, 20), FILLED),
        (Step::Lookup(0), Answer::Found(Some(line(20)))),
        (Step::Drop(0), Answer::Done),
        (Step::Fill(2, 12), FILLED),
        (Step::Lookup(0), Answer::Found(None)),
    ];
    follow(&rt, &mut cache, &steps);
}

#[test]
fn a_set_of_four_ways_holds_four_lines(rt: HostRuntime) {
    let mut cache = Tested::open(&rt, rt.alloc(), 256, 4);
    let steps = [
        (Step::Fill(0, 1), FILLED),
        (Step::Fill(256, 2), FILLED),
        (Step::Fill(512, 3), FILLED),
        (Step::Fill(768, 4), FILLED),
        (Step::Full(1024), Answer::Named(Some(WordAddr(0)))),
        (Step::Full(512), Answer::Named(None)),
        (Step::Fill(1024, 5), FULL),
        (Step::Drop(512), Answer::Done),
        (Step::Fill(1024, 5), FILLED),
        (Step::Lookup(512), Answer::Found(None)),
        (Step::Lookup(768), Answer::Found(Some(line(4)))),
    ];
    follow(&rt, &mut cache, &steps);
}

// Two ways: a commit and a squash keep the committed line, which leaves before an active one.
#[test]
fn a_committed_line_stays_until_it_leaves(rt: HostRuntime) {
    let committed = Line {
        bits: LineBits::on_load(true, false).on_commit(),
        ..line(20)
    };
    let mut cache = Tested::open(&rt, rt.alloc(), 2, 2);
    let steps = [
        (Step::Fill(2, 20), FILLED),
        (Step::Commit, Answer::Done),
        (Step::Fill(0, 10), FILLED),
        (Step::Full(4), Answer::Named(Some(WordAddr(2)))),
        (Step::Squash, Answer::Done),
        (Step::Lookup(0), Answer::Found(None)),
        (Step::Lookup(2), Answer::Found(Some(committed))),
        (Step::Full(4), Answer::Named(None)),
    ];
    follow(&rt, &mut cache, &steps);
}
