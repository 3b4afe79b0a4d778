// What a picture shows, and how.

use svc_marks::Window;
use svc_names::Names;

/// Beside which marks of loads, stores and output words their values stand.
#[derive(Clone, Copy)]
pub enum Values {
    /// Where there is room.
    WithRoom,
    /// Beside all of them.
    All,
    /// Nowhere.
    Nowhere,
}

/// How a picture is drawn.
#[derive(Clone, Copy)]
pub struct Style {
    /// Where values stand.
    pub values: Values,
    /// Whether its lanes are a third as high, and nothing has words.
    pub is_compact: bool,
}

/// What a picture shows: these entries, with a lane for each of these units.
#[derive(Clone, Copy)]
pub struct Sheet<'a> {
    /// The entries.
    pub window: Window,
    /// How many units there are.
    pub units: u8,
    /// How they are drawn.
    pub style: Style,
    /// The names by which addresses and words are told, too.
    pub names: Option<&'a Names>,
    /// The address of the instruction at which each entry of the history asks, if it does.
    pub addresses: &'a [Option<u32>],
}
