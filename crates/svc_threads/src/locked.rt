// What is under the bus lock.

ghost use Rattle.std.specs.Prelude.{◌≡◌, true};
ghost use Rattle.std.specs.Arc.{arc_value};
ghost use Rattle.svc_machine.specs.Events.{event_of};
ghost use Rattle.svc_history_laws.specs.Board.{assigns, board, commits};
ghost use Rattle.svc_history.specs.Applying.{IsApplied};
ghost use Rattle.svc_threads.specs.Boards.{knower, InOrder};
ghost use Rattle.svc_threads.specs.Counts.{row_of_entries, with_entry, IsSmall};

use crate::board::{Board, BoardPass, BoardRow};
use std::marker::Model;
use std::sync::{Arc, Wait};
use svc_base::Refusal;
use svc_history::{Entry, Event, Kind, Recorder, Slip};

/// A recorder with the numbers of its history, and a board that shows them. The type guarantees that they are those
/// numbers, and that the pass is the one that publishes on that board and knows them.
#[derive(Drop)]
pub(crate) struct Locked {
    recorder: Recorder,
    counts: BoardRow,
    publisher: BoardPass,
    board: Arc<Board>,
}

impl Model for Locked {
    ghost use Rattle.std.specs.Prelude.{◌≡◌, true};
    ghost use Rattle.std.specs.Arc.{arc_value};
    ghost use Rattle.svc_history.specs.Recorded.{Recorded};
    ghost use Rattle.svc_threads.specs.Boards.{knower};
    ghost use Rattle.svc_threads.specs.Counts.{row_of_entries};

    ghost Value = { Recorded };

    ghost view = { λ l. l.recorder };

    ghost invariant = { λ l.
        (l.counts ≡ row_of_entries l.recorder.entries)
        × (l.publisher ≡ knower (arc_value l.board) true l.counts) };
}

impl Locked {
    // Puts a recorder beside a board that already shows its numbers.
    pub(crate) fn new(
        recorder: Recorder,
        board: Arc<Board>,
        counts: BoardRow,
        publisher: BoardPass,
    ) -> Locked
        requires counts { counts ≡ row_of_entries recorder.entries }
        requires publisher { publisher ≡ knower (arc_value board) true counts }
        ensures { result ≡ recorder }
    {
        Locked {
            recorder,
            counts,
            publisher,
            board,
        }
    }

    // One event, as the recorder takes it. If it is accepted the board shows the new numbers.
    pub(crate) fn apply<R: Wait>(&mut self, rt: &R, event: Event<'_>) -> Result<Slip, Refusal>
        ensures { IsApplied self.old self.new (event_of event.entry) result }
    {
        let counts = self.counts;
        let slip = self.recorder.apply(event)?;
        let row = with_entry(counts, &slip.entry);
        self.counts = row;
        self.board.publish(rt, &mut self.publisher, row);
        Ok(slip)
    }

    // The recorder, lent.
    pub(crate) fn recorder(&self) -> &Recorder
        ensures { result.now ≡ self.now }
    {
        &self.recorder
    }

    // The recorder.
    pub(crate) fn into_recorder(self) -> Recorder
        ensures { result ≡ self }
    {
        let Locked {
            recorder,
            counts: _,
            publisher: _,
            board: _,
        } = self;
        recorder
    }
}

// Whether an entry is an assignment's, as a number.
fn assigns(kind: Kind) -> u64
    ensures { result ≡ assigns kind }
{
    match kind {
        Kind::Assign => 1,
        _ => 0,
    }
}

// Whether an entry is a commit's, as a number.
fn commits(kind: Kind) -> u64
    ensures { result ≡ commits kind }
{
    match kind {
        Kind::Commit => 1,
        _ => 0,
    }
}

// The numbers with one more entry.
fn with_entry(counts: BoardRow, entry: &Entry) -> BoardRow
    requires { IsSmall (with_entry counts entry.now) }
    ensures { result ≡ with_entry counts entry.now }
{
    BoardRow {
        events: counts.events + 1,
        assigned: counts.assigned + assigns(entry.kind),
        committed: counts.committed + commits(entry.kind),
        squashed: counts.squashed + u64::from(entry.squashed.unwrap_or(0)),
    }
}

// The numbers of a recorder's history.
pub(crate) fn counts_of(recorder: &Recorder) -> BoardRow
    ensures numbers { result ≡ row_of_entries recorder.now.entries }
    ensures order { InOrder result }
{
    let mut counts = BoardRow {
        events: 0,
        assigned: 0,
        committed: 0,
        squashed: 0,
    };
    for entry in recorder.entries() {
        counts = with_entry(counts, entry);
    }
    counts
}
