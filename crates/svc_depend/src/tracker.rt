// What the tasks need, as a walk over the turns of the sequential run finds it.

ghost use Rattle.std.specs.Prelude.{◌≡◌, ◌≤◌, ◌<◌, ◌^◌, ◌+◌, ◌*◌, ◌-◌, ℕ, List, IfOk, IfSome, length};
ghost use Rattle.svc_core_laws.specs.State.{State};
ghost use Rattle.svc_core_laws.specs.Program.{Action, Memory, Program, Want, act, exposed_words, no_reads, no_words};
ghost use Rattle.svc_core_laws.specs.Program.{task_log};
ghost use Rattle.svc_core_laws.specs.Program.{wrote};
ghost use Rattle.svc_depend_laws.specs.Chain.{Clock, Times, tick, times_before, word_read, word_written};
ghost use Rattle.svc_depend.specs.Tracking.{HasFollowed, HasRead, HasReadIf, HasWritten, HasWrittenIf, IsBelow};
ghost use Rattle.svc_depend.specs.Tracking.{IsTracked, with_turn, told_of};

use crate::needs::TaskNeeds;
use crate::turn::Touch;
use crate::word::{Word, lesser};
use std::alloc::{AllocError, Global};

/// What the tasks so far need, and the one that runs.
#[derive(Drop)]
pub(crate) struct Tracker {
    /// The words.
    pub(crate) words: Vec<Word>,
    /// The number of the task that runs.
    pub(crate) task: u32,
    /// The turns of all tasks.
    pub(crate) turns: u64,
    /// The words that the task needs.
    pub(crate) needs: u64,
    /// Those of them that come from no task.
    pub(crate) memory: u64,
    /// The words that it wrote.
    pub(crate) stores: u64,
    /// The least distance to a task from which it needs a word.
    pub(crate) nearest: Option<u32>,
    /// The time of its last turn.
    pub(crate) time: u64,
}

impl Tracker {
    /// Of so many words, before the first task.
    pub(crate) fn new(alloc: Global, words: usize) -> Result<Tracker, AllocError>
        ensures task { IfOk result (λ t. t.task ≡ 0) }
        ensures turns { IfOk result (λ t. t.turns ≡ 0) }
        ensures size { IfOk result (λ t. length t.words.items ≡ words) }
        ensures below { IfOk result (IsBelow 0) }
        ensures tracked { IfOk result
            (λ t. (p : Program State) → IsTracked p no_reads no_words (times_before p 0) 0 t) }
    {
        let words = vec![in alloc; Word::untouched(); words]?;
        Ok(Tracker {
            words,
            task: 0,
            turns: 0,
            needs: 0,
            memory: 0,
            stores: 0,
            nearest: None,
            time: 0,
        })
    }

    /// What the task that runs needs, which began at this entry after so many turns of all tasks.
    pub(crate) fn task_needs(&self, entry: u32, before: u64) -> TaskNeeds
        requires { before ≤ self.now.turns }
        ensures { result ≡ told_of entry before self.now }
    {
        TaskNeeds {
            task: self.task,
            entry,
            turns: self.turns - before,
            needs: self.needs,
            memory: self.memory,
            nearest: self.nearest,
            stores: self.stores,
            chain: self.time,
        }
    }

    /// The task that runs has ended, and the next one begins.
    pub(crate) fn next_task(&mut self)
        requires early { self.old.task < 2 ^ 31 }
        requires below { IsBelow (3 * self.old.turns) self.old }
        ensures task { self.new.task ≡ self.old.task + 1 }
        ensures turns { self.new.turns ≡ self.old.turns }
        ensures size { length self.new.words.items ≡ length self.old.words.items }
        ensures below { IsBelow (3 * self.new.turns) self.new }
        ensures tracked { (p : Program State) → (times : Times) → (now : ℕ)
            → IsTracked p (exposed_words (task_log p self.old.task)) (wrote (task_log p self.old.task)) times now
            self.old
            → IsTracked p no_reads no_words times 0 self.new }
    {
        self.task += 1;
        self.needs = 0;
        self.memory = 0;
        self.stores = 0;
        self.nearest = None;
        self.time = 0;
    }

    // The task that runs reads this word: the time of the store that the read waits for.
    fn read(&mut self, word: u32) -> u64
        requires inside { word < length self.old.words.items }
        requires early { self.old.task < 2 ^ 31 }
        requires few { self.old.turns < 2 ^ 60 }
        requires below { IsBelow (3 * self.old.turns) self.old }
        ensures read { HasRead word self.old self.new result }
        ensures below { IsBelow (3 * self.old.turns + 1) self.new }
        ensures ready { result ≤ 3 * self.old.turns }
    {
        let at = word as usize;
        let read = self.words[at].read_by(self.task);
        self.words[at] = read.word;
        self.needs += read.needs;
        self.memory += read.memory;
        self.nearest = lesser(read.distance, self.nearest);
        read.ready
    }

    // The task that runs writes this word.
    fn write(&mut self, word: u32)
        requires inside { word < length self.old.words.items }
        requires early { self.old.task < 2 ^ 31 }
        requires few { self.old.turns < 2 ^ 60 }
        requires below { IsBelow (3 * self.old.turns - 1) self.old }
        requires begun { 0 < self.old.turns }
        ensures written { HasWritten word self.old self.new }
        ensures below { IsBelow (3 * self.old.turns) self.new }
    {
        let at = word as usize;
        let written = self.words[at].written_by(self.task, self.time);
        self.words[at] = written.word;
        self.stores += written.stores;
    }

    // It reads this word, if there is one.
    fn read_if(&mut self, word: Option<u32>) -> u64
        requires inside { IfSome word (λ w. w < length self.old.words.items) }
        requires early { self.old.task < 2 ^ 31 }
        requires few { self.old.turns < 2 ^ 60 }
        requires below { IsBelow (3 * self.old.turns) self.old }
        ensures read { HasReadIf word self.old self.new result }
        ensures below { IsBelow (3 * self.old.turns + 1) self.new }
        ensures ready { result ≤ 3 * self.old.turns }
    {
        match word {
            Some(word) => self.read(word),
            None => 0,
        }
    }

    // It writes this word, if there is one.
    fn write_if(&mut self, word: Option<u32>)
        requires inside { IfSome word (λ w. w < length self.old.words.items) }
        requires early { self.old.task < 2 ^ 31 }
        requires few { self.old.turns < 2 ^ 60 }
        requires below { IsBelow (3 * self.old.turns - 1) self.old }
        requires begun { 0 < self.old.turns }
        ensures written { HasWrittenIf word self.old self.new }
        ensures below { IsBelow (3 * self.old.turns) self.new }
    {
        if let Some(word) = word {
            self.write(word);
        }
    }

    // One turn more, after this time.
    fn tick(&mut self, ready: u64)
        requires few { self.old.turns < 2 ^ 59 }
        requires below { IsBelow (3 * self.old.turns + 1) self.old }
        requires ready { ready ≤ 3 * self.old.turns }
        ensures turn { self.new ≡ with_turn ready self.old }
        ensures below { IsBelow (3 * self.old.turns + 2) self.new }
    {
        self.turns += 1;
        self.time = self.time.max(ready) + 1;
    }

    /// The task that runs takes a turn that touches these words.
    pub(crate) fn follow(&mut self, touch: Touch)
        requires reads { IfSome touch.reads (λ w. w < length self.old.words.items) }
        requires writes { IfSome touch.writes (λ w. w < length self.old.words.items) }
        requires early { self.old.task < 2 ^ 31 }
        requires few { self.old.turns < 2 ^ 59 }
        requires below { IsBelow (3 * self.old.turns) self.old }
        ensures followed { HasFollowed self.old self.new }
        ensures below { IsBelow (3 * self.new.turns) self.new }
        ensures tracked { (p : Program State) → (w : Want State) → (m : Memory) → (log : List Action) → (clock : Clock)
            → touch.reads ≡ word_read w → touch.writes ≡ word_written w
            → IsTracked p (exposed_words log) (wrote log) clock.stores clock.now self.old
            → IsTracked p (exposed_words (act w m log).log) (wrote (act w m log).log) (tick w log clock).stores
            (tick w log clock).now self.new }
    {
        let ready = self.read_if(touch.reads);
        self.tick(ready);
        self.write_if(touch.writes);
    }
}
