// Where things stand in a picture, in its units of length.

ghost use Rattle.std.specs.Prelude.{◌+◌, ◌≤◌, ◌<◌, ◌/◌};
ghost use Rattle.svc_base.specs.declared.config.TheConstants.{MAX_EVENTS};

use crate::sheet::Sheet;
use svc_base::UnitId;
use svc_marks::{Bar, Mark};
use svc_shapes::Point;
use svc_shapes::sheet::{BOTTOM, HEIGHT, LEFT, RIGHT, TOP, WIDTH};

/// A sheet on which things can be placed.
#[derive(Clone, Copy)]
pub struct Frame<'a> {
    pub sheet: Sheet<'a>,
    pub ghost ordered: { sheet.window.from ≤ sheet.window.to },
    pub ghost few: { sheet.window.to ≤ MAX_EVENTS },
    pub ghost some_units: { 0 < sheet.units },
}

impl Frame<'_> {
    ghost use Rattle.std.specs.Prelude.{◌≡◌};
    ghost use Rattle.svc_shapes.specs.declared.sheet.TheConstants.{BOTTOM, HEIGHT, LEFT, RIGHT, TOP};
    ghost use Rattle.svc_sheet.specs.Frame.{bar_height, bar_left, bar_right, bar_top, bar_width, bottom, end_x, end_y};
    ghost use Rattle.svc_sheet.specs.Frame.{height, is_wide, lane_height, lane_top, mark_x, mark_y, place_x, place_y};
    ghost use Rattle.svc_sheet.specs.Frame.{radius, shown, slot, x_of};

    /// How many entries are shown; 1 if there are none.
    #[tactic(auto, unfolding(crate::specs::Frame::shown))]
    pub fn shown(&self) -> u64
        ensures value { result ≡ shown self.now.sheet }
        ensures some { 0 < result }
        ensures few { result ≤ MAX_EVENTS }
    {
        (self.sheet.window.to - self.sheet.window.from).max(1)
    }

    /// How wide an entry is.
    #[tactic(auto, unfolding(crate::specs::Frame::slot))]
    pub(crate) fn slot(&self) -> u64
        ensures { result ≡ slot self.now.sheet }
    {
        WIDTH / self.shown()
    }

    /// The middle of an entry; an edge if it isn't shown.
    #[tactic(auto, unfolding(crate::specs::Frame::x_of))]
    pub fn x(&self, place: u64) -> u64
        ensures value { result ≡ x_of self.now.sheet place }
        ensures left { LEFT ≤ result }
        ensures right { result ≤ RIGHT }
    {
        let window = &self.sheet.window;
        let before = place.min(window.to).saturating_sub(window.from);
        LEFT + ((2 * before + 1) * WIDTH / (2 * self.shown())).min(WIDTH)
    }

    /// How high the lanes are together.
    #[tactic(auto, unfolding(crate::specs::Frame::height))]
    pub fn height(&self) -> u64
        ensures value { result ≡ height self.now.sheet }
        ensures small { result ≤ HEIGHT }
    {
        if self.sheet.style.is_compact {
            HEIGHT / 3
        } else {
            HEIGHT
        }
    }

    /// Where they end.
    #[tactic(auto, unfolding(crate::specs::Frame::bottom))]
    pub fn bottom(&self) -> u32
        ensures value { result ≡ bottom self.now.sheet }
        ensures small { result ≤ BOTTOM }
    {
        (TOP + self.height()) as u32
    }

    // How high a lane is.
    #[tactic(auto, unfolding(crate::specs::Frame::lane_height))]
    fn lane_height(&self) -> u64
        ensures value { result ≡ lane_height self.now.sheet }
        ensures small { result ≤ HEIGHT }
    {
        self.height() / u64::from(self.sheet.units)
    }

    /// Where a lane begins.
    #[tactic(auto, unfolding(crate::specs::Frame::lane_top))]
    pub fn lane_top(&self, lane: u8) -> u64
        ensures value { result ≡ lane_top self.now.sheet lane }
        ensures top { TOP ≤ result }
        ensures bottom { result ≤ BOTTOM }
    {
        let height = self.height();
        TOP + (u64::from(lane) * height / u64::from(self.sheet.units)).min(height)
    }

    /// How high a bar is.
    #[tactic(auto, unfolding(crate::specs::Frame::bar_height))]
    pub fn bar_height(&self) -> u64
        ensures value { result ≡ bar_height self.now.sheet }
        ensures fits { result ≤ lane_height self.now.sheet }
        ensures small { result ≤ 130 }
    {
        (self.lane_height() * 4 / 5).min(130)
    }

    /// Where a lane's bars begin, from the top.
    #[tactic(auto, unfolding(crate::specs::Frame::bar_top))]
    pub fn bar_top(&self, lane: u8) -> u64
        ensures value { result ≡ bar_top self.now.sheet lane }
        ensures top { TOP ≤ result }
        ensures bottom { result ≤ BOTTOM + HEIGHT }
    {
        self.lane_top(lane) + (self.lane_height() - self.bar_height()) / 2
    }

    /// Half the size of a mark.
    #[tactic(auto, unfolding(crate::specs::Frame::radius))]
    pub fn radius(&self) -> u32
        ensures value { result ≡ radius self.now.sheet }
        ensures small { result ≤ 10 }
    {
        (self.slot() / 3).max(4).min(10).min(self.bar_height() / 4) as u32
    }

    /// Whether a mark has room for its value beside it.
    #[tactic(auto, unfolding(crate::specs::Frame::is_wide))]
    pub(crate) fn is_wide(&self) -> bool
        ensures { result ≡ is_wide self.now.sheet }
    {
        self.slot() >= 100 && self.bar_height() >= 60
    }

    /// Where a bar begins, from the left.
    #[tactic(auto, unfolding(crate::specs::Frame::bar_left))]
    pub(crate) fn bar_left(&self, bar: &Bar) -> u64
        ensures value { result ≡ bar_left self.now.sheet bar.now }
        ensures inside { result ≤ RIGHT }
    {
        if bar.task.first < self.sheet.window.from {
            LEFT
        } else {
            self.x(bar.start)
        }
    }

    // Where it ends.
    #[tactic(auto, unfolding(crate::specs::Frame::bar_right))]
    fn bar_right(&self, bar: &Bar) -> u64
        ensures value { result ≡ bar_right self.now.sheet bar.now }
        ensures inside { result ≤ RIGHT }
    {
        if bar.end >= self.sheet.window.to {
            RIGHT
        } else {
            self.x(bar.end)
        }
    }

    /// How wide a bar is.
    #[tactic(auto, unfolding(crate::specs::Frame::bar_width))]
    pub(crate) fn bar_width(&self, bar: &Bar) -> u64
        ensures value { result ≡ bar_width self.now.sheet bar.now }
        ensures inside { result ≤ RIGHT }
    {
        self.bar_right(bar)
            .saturating_sub(self.bar_left(bar))
            .max(2)
    }

    /// The middle of an entry's mark.
    pub(crate) fn at(&self, mark: &Mark) -> Point
        ensures x { result.x ≡ mark_x self.now.sheet mark.now }
        ensures y { result.y ≡ mark_y self.now.sheet mark.now }
    {
        self.point(mark.entry.unit, Some(mark.place))
    }

    /// The other end of a mark's arrow; the mark itself if there is none.
    pub(crate) fn other_end(&self, mark: &Mark) -> Point
        ensures x { result.x ≡ end_x self.now.sheet mark.now mark.now.other }
        ensures y { result.y ≡ end_y self.now.sheet mark.now mark.now.other }
    {
        match mark.other {
            Some(spot) => self.point(spot.lane, spot.place),
            None => self.at(mark),
        }
    }

    // Where a place stands, from the left: at the edge if it comes before what is shown.
    fn place_x(&self, place: Option<u64>) -> u64
        ensures value { result ≡ place_x self.now.sheet place }
        ensures left { LEFT ≤ result }
        ensures right { result ≤ RIGHT }
    {
        match place {
            Some(place) => self.x(place),
            None => LEFT,
        }
    }

    // The middle of a place.
    #[tactic(auto, unfolding(crate::specs::Frame::place_y))]
    fn point(&self, lane: UnitId, place: Option<u64>) -> Point
        ensures x { result.x ≡ place_x self.now.sheet place }
        ensures y { result.y ≡ place_y self.now.sheet lane.0 }
    {
        let x = self.place_x(place);
        let y = self.bar_top(lane.0) + self.bar_height() * 18 / 25;
        Point {
            x: x as u32,
            y: y as u32,
        }
    }
}
