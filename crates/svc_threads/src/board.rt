// Four numbers that one pass publishes and every pass reads, as a whole.

ghost use Rattle.std.specs.Prelude.{◌≡◌, true, false, IfOk};
ghost use Rattle.crossbeam_utils.specs.Seq.{cell_view};
ghost use Rattle.svc_threads.specs.Boards.{knower, InOrder, AtMost, zeros};

use atomic_table::Split;
use crossbeam_utils::atomic::Words;
use crossbeam_utils::atomic::seq_cell::{Pass, RuledSeqCell};
use crossbeam_utils::rule::{Outcome, Protocol};
use std::alloc::{AllocError, Global};
use std::marker::Model;
use std::sync::Wait;

/// The numbers that a board shows.
#[derive(Clone, Copy, Debug, PartialEq, Eq)]
pub struct BoardRow {
    /// How many events were accepted.
    pub events: u64,
    /// How many tasks were assigned.
    pub assigned: u64,
    /// How many tasks were committed.
    pub committed: u64,
    /// How many tasks were squashed.
    pub squashed: u64,
}

impl Words<4> for BoardRow {
    ghost use Rattle.std.specs.Prelude.{◌∷◌, []};

    ghost words = { λ r. r.events ∷ r.assigned ∷ r.committed ∷ r.squashed ∷ [] };

    fn to_words(self) -> [u64; 4] {
        [self.events, self.assigned, self.committed, self.squashed]
    }

    fn from_words(bits: &[u64; 4]) -> BoardRow {
        BoardRow {
            events: bits[0],
            assigned: bits[1],
            committed: bits[2],
            squashed: bits[3],
        }
    }
}

/// What a pass knows. It exists only in contracts.
pub struct View {
    /// Whether the pass publishes.
    pub publishes: bool,
    /// The last row that it published or read.
    pub row: BoardRow,
}

// The rule of the board.
struct Rises;

impl Protocol<BoardRow, View> for Rises {
    ghost use Rattle.std.specs.Prelude.{true};
    ghost use Rattle.svc_threads.specs.Boards.{Ruled, view_of, zeros};

    ghost holds = { Ruled };

    ghost first = { view_of true zeros };
}

struct Publishes;

impl Outcome<BoardRow, View> for Publishes {
    ghost use Rattle.svc_threads.specs.Boards.{Published};

    ghost then = { Published };
}

struct Reads;

impl Outcome<BoardRow, View> for Reads {
    ghost use Rattle.svc_threads.specs.Boards.{HasRead};

    ghost then = { HasRead };
}

struct ForReader;

impl Split<View> for ForReader {
    ghost use Rattle.svc_threads.specs.Boards.{reader};

    ghost left = { λ v. v };

    ghost right = { reader };
}

/// A board. A write and a read are one step each, and its numbers never fall.
#[derive(Drop)]
pub struct Board {
    cell: RuledSeqCell<BoardRow, View, Rises, 4>,
}

impl Model for Board {
    ghost use Rattle.atomic_table.specs.Seated.{TableId, table_id_coded};

    ghost Value = { TableId };

    ghost coded = { table_id_coded };

    ghost view = { λ b. b.cell.table.shared.table_id };
}

/// Permission to read one board; one pass per board may also publish on it. It knows the last row
/// that it published or read.
#[derive(Drop)]
pub struct BoardPass {
    pass: Pass<BoardRow, View>,
}

impl Model for BoardPass {
    ghost use Rattle.svc_threads.specs.Boards.{Knower, knower};
    ghost use Rattle.crossbeam_utils.specs.Seq.{cell_view};

    ghost Value = { Knower };

    ghost view = { λ p. knower p.pass.table_id (cell_view p.pass).publishes (cell_view p.pass).row };
}

impl Board {
    /// A board that shows zeros, with the pass that publishes.
    ///
    /// Errors: the allocator refused memory.
    pub fn open(alloc: Global) -> Result<(Board, BoardPass), AllocError>
        ensures { IfOk result (λ r. r.1 ≡ knower r.0 true zeros) }
    {
        let zeros = BoardRow {
            events: 0,
            assigned: 0,
            committed: 0,
            squashed: 0,
        };
        let (cell, pass) = RuledSeqCell::ruled(alloc, zeros)?;
        Ok((Board { cell }, BoardPass { pass }))
    }

    /// Shows a new row, in one step. The pass must be the one that publishes on this board, and no number of the row
    /// may be below those that it knows.
    pub fn publish<R: Wait>(&self, rt: &R, pass: &mut BoardPass, row: BoardRow)
        requires board { pass.old.board ≡ self.now }
        requires publisher { pass.old.publishes ≡ true }
        requires order { InOrder row }
        requires grows { AtMost pass.old.row row }
        ensures { pass.new ≡ knower pass.old.board true row }
    {
        self.cell.swap_as::<Publishes, R>(rt, &mut pass.pass, row);
    }

    /// The row on the board, whole, read in one step by a pass of this board. No number of it is below those that the
    /// pass knew.
    pub fn read<R: Wait>(&self, rt: &R, pass: &mut BoardPass) -> BoardRow
        requires board { pass.old.board ≡ self.now }
        ensures order { InOrder result }
        ensures grows { AtMost pass.old.row result }
        ensures pass { pass.new ≡ knower pass.old.board pass.old.publishes result }
    {
        self.cell.load_as::<Reads, R>(rt, &mut pass.pass)
    }

    /// A reader's pass of this board, which knows the same row.
    pub fn split(&self, pass: &mut BoardPass) -> BoardPass
        requires board { pass.old.board ≡ self.now }
        ensures same { pass.new ≡ pass.old }
        ensures reader { result ≡ knower pass.old.board false pass.old.row }
    {
        BoardPass {
            pass: self.cell.split_pass::<ForReader>(&mut pass.pass),
        }
    }
}
