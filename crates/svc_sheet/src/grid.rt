// The grid of a picture of many entries.

use crate::frame::Frame;
use svc_marks::Bar;
use svc_shapes::sheet::{LEFT, WIDTH};

impl Frame<'_> {
    ghost use Rattle.std.specs.Prelude.{◌≡◌, ◌≤◌, ◌<◌, ◌+◌, ◌^◌};
    ghost use Rattle.svc_shapes.specs.declared.sheet.TheConstants.{BOTTOM, HEIGHT, LEFT, RIGHT};
    ghost use Rattle.svc_sheet.specs.Grid.{cell, column, column_x, columns, is_joined, is_short, place_column_x, row_y};
    ghost use Rattle.svc_sheet.specs.Grid.{stripe_y};

    /// Whether so many entries are shown that things are joined.
    #[tactic(auto, unfolding(crate::specs::Grid::is_joined))]
    pub fn is_joined(&self) -> bool
        ensures { result ≡ is_joined self.now.sheet }
    {
        self.shown() >= 1000
    }

    // How many columns there are.
    #[tactic(auto, unfolding(crate::specs::Grid::columns))]
    fn columns(&self) -> u64
        ensures value { result ≡ columns self.now.sheet }
        ensures some { 0 < result }
        ensures few { result ≤ 149 }
    {
        (360 / u64::from(self.sheet.units)).min(149).max(1)
    }

    // The column of an entry.
    #[tactic(auto, unfolding(crate::specs::Grid::column))]
    fn column(&self, place: u64) -> u64
        ensures value { result ≡ column self.now.sheet place }
        ensures few { result < 2 ^ 32 }
    {
        let window = &self.sheet.window;
        let before = place.min(window.to).saturating_sub(window.from);
        before * self.columns() / self.shown()
    }

    /// The number of a cell.
    #[tactic(auto, unfolding(crate::specs::Grid::cell))]
    pub fn cell(&self, lane: u8, place: u64) -> u64
        ensures value { result ≡ cell self.now.sheet lane place }
        ensures few { result < 512 }
    {
        (u64::from(lane) * self.columns() + self.column(place)).min(511)
    }

    /// The middle of an entry's column.
    #[tactic(auto, unfolding(crate::specs::Grid::column_x))]
    pub fn column_x(&self, place: u64) -> u64
        ensures value { result ≡ column_x self.now.sheet place }
        ensures inside { result ≤ RIGHT }
    {
        let middle = (2 * self.column(place) + 1) * WIDTH / (2 * self.columns());
        LEFT + middle.min(WIDTH)
    }

    /// The middle of a place's column: the left edge if it comes before what is shown.
    pub fn place_column_x(&self, place: Option<u64>) -> u64
        ensures value { result ≡ place_column_x self.now.sheet place }
        ensures inside { result ≤ RIGHT }
    {
        match place {
            Some(place) => self.column_x(place),
            None => LEFT,
        }
    }

    /// The middle of the nth of a lane's four rows of marks.
    #[tactic(auto, unfolding(crate::specs::Grid::row_y))]
    pub fn row_y(&self, lane: u8, row: u8) -> u64
        ensures value { result ≡ row_y self.now.sheet lane row }
        ensures small { result < 2 ^ 32 }
    {
        self.bar_top(lane) + self.bar_height() * (2 * u64::from(row) + 1) / 8
    }

    /// The top of the nth of four stripes of bars.
    #[tactic(auto, unfolding(crate::specs::Grid::stripe_y))]
    pub fn stripe_y(&self, lane: u8, row: u8) -> u64
        ensures { result ≡ stripe_y self.now.sheet lane row }
    {
        self.bar_top(lane) + self.bar_height() * u64::from(row) / 4
    }

    /// Whether a bar lies in one cell.
    #[tactic(auto, unfolding(crate::specs::Grid::is_short))]
    pub fn is_short(&self, bar: &Bar) -> bool
        ensures { result ≡ is_short self.now.sheet bar.now }
    {
        self.column(bar.start) == self.column(bar.end)
    }
}
