// Where the entries and the lanes of a picture stand, in its units of length.

/// Where the entries begin, from the left.
pub const LEFT: u64 = 90;

/// How wide the entries are.
pub const WIDTH: u64 = 1_490;

/// Where they end.
pub const RIGHT: u64 = 1_580;

/// Where the lanes begin, from the top.
pub const TOP: u64 = 118;

/// How high they are together.
pub const HEIGHT: u64 = 720;

/// Where they end.
pub const BOTTOM: u64 = 838;

/// A place of a picture, from its upper left corner.
#[derive(Clone, Copy)]
pub struct Point {
    /// How far it is to the right.
    pub x: u32,
    /// How far it is down.
    pub y: u32,
}
