// What fetching answers.

/// What an image has at a byte address of its text.
#[derive(Clone, Copy, Debug, Default, PartialEq, Eq)]
pub struct Fetched {
    /// The byte address.
    pub pc: u32,
    /// The word there, or `None` outside the text and where the address isn't a multiple of 4.
    pub word: Option<u32>,
    /// Whether a task may begin there.
    pub entry: bool,
}
