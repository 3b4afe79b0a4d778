// What tasks need, in numbers: of one, and of many together.

ghost use Rattle.std.specs.Prelude.{◌≡◌, ◌≤◌, ◌<◌, ◌^◌, ◌*◌, suc};
ghost use Rattle.svc_depend.specs.Told.{AreFew, IsFew, added, nothing_yet};

use crate::word::lesser;

/// What a task needs.
#[derive(Clone, Copy)]
pub struct TaskNeeds {
    /// Its number.
    pub task: u32,
    /// The byte address where it begins.
    pub entry: u32,
    /// Its turns.
    pub turns: u64,
    /// The words that it needs.
    pub needs: u64,
    /// Those of them that come from no task.
    pub memory: u64,
    /// The least distance to a task from which one of them comes.
    pub nearest: Option<u32>,
    /// The words that it writes.
    pub stores: u64,
    /// The time of its last turn.
    pub chain: u64,
}

/// What tasks need together.
#[derive(Clone, Copy)]
pub struct Totals {
    /// Their turns.
    pub turns: u64,
    /// Pairs of a task and a word that it needs.
    pub needs: u64,
    /// Those of them whose word comes from no task.
    pub memory: u64,
    /// The least distance from a task to one whose word it needs.
    pub nearest: Option<u32>,
    /// The greatest time of a turn.
    pub chain: u64,
}

impl Totals {
    /// Those of no task.
    pub(crate) fn none() -> Totals
        ensures { result ≡ nothing_yet }
    {
        Totals {
            turns: 0,
            needs: 0,
            memory: 0,
            nearest: None,
            chain: 0,
        }
    }

    /// These, and a task more.
    pub(crate) fn with(self, task: &TaskNeeds) -> Totals
        requires few { AreFew self }
        requires task { IsFew task.now }
        ensures { result ≡ added task.now self }
    {
        Totals {
            turns: self.turns + task.turns,
            needs: self.needs + task.needs,
            memory: self.memory + task.memory,
            nearest: lesser(task.nearest, self.nearest),
            chain: task.chain.max(self.chain),
        }
    }
}
