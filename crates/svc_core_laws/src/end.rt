// How tasks and runs end.

ghost use Rattle.std.specs.Prelude.{◌≡◌, Some};
ghost use Rattle.svc_core_laws.specs.Program.{due_after, stopped_after};
ghost use Rattle.svc_core_laws.specs.Sequence.{ending_of, goes_on_at};

/// How a task ended.
#[derive(Clone, Copy, Debug, PartialEq, Eq)]
pub enum End {
    /// The task reached the entry at this byte address, where the next task begins.
    Next(u32),
    /// The program exited with this code.
    Exit(u32),
    /// A turn trapped. The numbers are 1 to 10: the limit of turns, a fetch outside the text, an illegal word, a target
    /// that isn't a multiple of 4, a load or store that isn't aligned, one outside the data, an unknown environment
    /// call, a breakpoint, a 65th output word, a store to a read-only word.
    Trap(u8),
}

impl End {
    /// The entry of the next task, if the task ended by handing on.
    pub fn next(self) -> Option<u32>
        ensures { result ≡ due_after (Some self) }
    {
        match self {
            End::Next(entry) => Some(entry),
            End::Exit(_) => None,
            End::Trap(_) => None,
        }
    }

    /// The end, if it stops the run.
    pub fn stop(self) -> Option<End>
        ensures { result ≡ stopped_after (Some self) }
    {
        match self {
            End::Next(_) => None,
            End::Exit(_) => Some(self),
            End::Trap(_) => Some(self),
        }
    }
}

/// How a run ended, or why it goes no further.
#[derive(Clone, Copy, Debug, PartialEq, Eq)]
pub enum Ending {
    /// The program exited with this code.
    Exit(u32),
    /// The last task trapped with this number.
    Trap(u8),
    /// No further event is accepted; the task at this entry would be next.
    Full(u32),
    /// The task at this entry is next.
    Open(u32),
}

impl Ending {
    /// The ending of a run, given the end that stopped it, if any, and the entry that is due.
    pub fn of(full: bool, stopped: Option<End>, due: Option<u32>) -> Ending
        ensures { result ≡ ending_of full stopped due }
    {
        match stopped {
            Some(End::Exit(code)) => Ending::Exit(code),
            Some(End::Trap(number)) => Ending::Trap(number),
            Some(End::Next(entry)) => Ending::going_on(full, entry),
            None => Ending::going_on(full, due.unwrap_or(0)),
        }
    }

    fn going_on(full: bool, entry: u32) -> Ending
        ensures { result ≡ goes_on_at full entry }
    {
        if full {
            Ending::Full(entry)
        } else {
            Ending::Open(entry)
        }
    }
}
