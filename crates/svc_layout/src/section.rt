// Sections of a program, places in them, and how wide numbers are.

/// A section of a program. Those of data stand one behind the other in the image, in this order.
#[derive(Clone, Copy)]
pub enum Section {
    /// Instructions, from the address 0 on.
    Text,
    /// `.rodata`: the first of the data.
    Rodata,
    /// `.data`.
    Data,
    /// `.bss`: the last of the data.
    Bss,
}

/// What a name stands for: a number of bytes from the beginning of a section. A plain number counts from the text's.
#[derive(Clone, Copy)]
pub struct Spot {
    /// The section.
    pub section: Section,
    /// How many bytes behind its beginning.
    pub offset: u32,
}

/// How many bytes a number takes.
#[derive(Clone, Copy)]
pub enum Width {
    /// One.
    Byte,
    /// Two, the lowest first.
    Half,
    /// Four, the lowest first.
    Word,
}
