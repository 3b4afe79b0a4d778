// What a show may tell beside its own rows.

use svc_span::Span;

/// What a show tells beside the rows of every show.
#[derive(Clone, Copy)]
pub struct Extras {
    /// Where each active task stands, its registers, and the lines of each word in the order of their versions.
    pub detail: bool,
    /// What may come next.
    pub moves: bool,
    /// The memory of these words too, whether or not they are held.
    pub memory: Option<Span>,
}
