// One recorder for all units, under its lock.

ghost use Rattle.std.specs.Prelude.{◌≡◌, true, false, IfOk, IfErr};
ghost use Rattle.std.specs.Arc.{arc_value};
ghost use Rattle.svc_base.specs.declared.refusal.Refusal.TheVariants as refusal;
ghost use Rattle.svc_machine.specs.Events.{event_of};
ghost use Rattle.svc_history.specs.Glances.{IsGlance};
ghost use Rattle.svc_history.specs.Recorded.{Recorded, IsLegal};
ghost use Rattle.svc_threads.specs.Boards.{InOrder, knower};
ghost use Rattle.svc_threads.specs.Counts.{row_of_entries};
ghost use Rattle.svc_threads.specs.Ports.{IsAppliedToSome, IsGlanceOfSome, LeasesTo};

use crate::board::{Board, BoardPass, BoardRow};
use crate::locked::{Locked, counts_of};
use crate::port::Port;
use std::alloc::Global;
use std::marker::Model;
use std::sync::{Arc, Mutex, Wait};
use svc_base::{OpenError, Refusal, UnitId};
use svc_history::{Event, Glance, Recorder, Slip};

/// One recorder under one lock, for all units, and the board that shows the numbers of its history.
#[derive(Drop)]
pub struct SharedBus {
    lock: Mutex<Locked>,
    board: Arc<Board>,
}

impl Model for SharedBus {
    ghost use Rattle.std.specs.Arc.{arc_value};
    ghost use Rattle.atomic_table.specs.Seated.{TableId, table_id_coded};

    ghost Value = { TableId };

    ghost coded = { table_id_coded };

    ghost view = { λ b. arc_value b.board };
}

// A board with two passes: one that publishes and one that reads.
#[derive(Drop)]
struct TwiceHeld {
    board: Arc<Board>,
    theirs: Arc<Board>,
    publisher: BoardPass,
    reader: BoardPass,
}

// A board that shows these numbers, which both passes know.
fn open_board<R: Wait>(rt: &R, alloc: Global, counts: BoardRow) -> Result<TwiceHeld, OpenError>
    requires { InOrder counts }
    ensures same { IfOk result (λ held. arc_value held.theirs ≡ arc_value held.board) }
    ensures publisher { IfOk result (λ held. held.publisher ≡ knower (arc_value held.board) true counts) }
    ensures reader { IfOk result (λ held. held.reader ≡ knower (arc_value held.board) false counts) }
{
    let Ok((board, mut publisher)) = Board::open(alloc) else {
        return Err(OpenError::Memory);
    };
    board.publish(rt, &mut publisher, counts);
    let reader = board.split(&mut publisher);
    let Ok(board) = Arc::new(alloc, board) else {
        return Err(OpenError::Memory);
    };
    let Ok(theirs) = Arc::try_clone(&board) else {
        return Err(OpenError::Memory);
    };
    Ok(TwiceHeld {
        board,
        theirs,
        publisher,
        reader,
    })
}

impl SharedBus {
    /// Shares a recorder. The board shows its numbers, and the pass, which reads this board, knows them.
    ///
    /// Errors: [`OpenError::Memory`]; the recorder is dropped then.
    pub fn open<R: Wait>(
        rt: &R,
        alloc: Global,
        recorder: Recorder,
    ) -> Result<(SharedBus, BoardPass), OpenError>
        ensures { IfOk result (λ r. r.1 ≡ knower r.0 false (row_of_entries recorder.entries)) }
    {
        let counts = counts_of(&recorder);
        let TwiceHeld {
            board,
            theirs,
            publisher,
            reader,
        } = open_board(rt, alloc, counts)?;
        let lock = Mutex::new(Locked::new(recorder, theirs, counts, publisher));
        Ok((SharedBus { lock, board }, reader))
    }

    /// The board that shows the numbers of the history.
    pub fn board(&self) -> &Board
        ensures { result.now ≡ self.now }
    {
        &self.board
    }

    /// What the unit's thread needs to know for its next event: the recorder's glance, under the lock.
    ///
    /// Errors: [`Refusal::NoSuchUnit`].
    pub fn lease<R: Wait>(&self, rt: &R, unit: UnitId) -> Result<Glance, Refusal>
        ensures glance { IfOk result (λ glance. IsGlanceOfSome unit glance) }
        ensures own { IfOk result (LeasesTo unit) }
        ensures refused { IfErr result (λ e. e ≡ refusal.NoSuchUnit) }
    {
        self.lock.lock(rt).recorder().glance(unit)
    }

    /// One event, as the recorder takes it, under the lock. After an accepted event the board shows the new numbers; a
    /// refused one leaves it alone.
    ///
    /// Errors: the first refusal that applies; then nothing has changed.
    pub fn apply<R: Wait>(&self, rt: &R, event: Event<'_>) -> Result<Slip, Refusal>
        ensures { IsAppliedToSome (event_of event.entry) result }
    {
        self.lock.lock(rt).apply(rt, event)
    }

    /// The recorder, once no thread shares it any more.
    pub fn into_recorder(self) -> Recorder {
        let SharedBus { lock, .. } = self;
        lock.into_inner().into_recorder()
    }
}

impl Port for SharedBus {
    ghost board_of = { λ b. b };

    fn lease<R: Wait>(&self, rt: &R, unit: UnitId) -> Result<Glance, Refusal> {
        SharedBus::lease(self, rt, unit)
    }

    fn apply<R: Wait>(&self, rt: &R, event: Event<'_>) -> Result<Slip, Refusal> {
        SharedBus::apply(self, rt, event)
    }

    fn board(&self) -> &Board {
        SharedBus::board(self)
    }
}
