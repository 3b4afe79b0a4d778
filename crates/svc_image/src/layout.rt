// Where the fields of an image file are, their limits, and where a program finds the data.

/// The bytes with which every image file begins.
pub const MAGIC: [u8; 4] = *b"SVCI";

/// The most entries of an image.
pub const MOST_ENTRIES: u32 = 1024;
/// The most text words, the most data words, and the largest limit of turns.
pub const MOST_WORDS: u32 = 65_536;
/// The most bytes of an image file, which is one of version 2: the header with the registers, the entries, as many
/// limits, the text and the data.
pub const MOST_BYTES: u32 = 148 + 4 * (2 * MOST_ENTRIES + 2 * MOST_WORDS);

/// The byte address of the first data word; the first text word stands at 0.
pub const DATA_START: u32 = 0x0010_0000;

/// The offset of the version, in bytes, as are the offsets below.
pub const VERSION_PLACE: usize = 4;

/// The offset of the number of entries.
pub const ENTRY_COUNT_PLACE: usize = 6;

/// The offset of the number of text words.
pub const TEXT_COUNT_PLACE: usize = 8;

/// The offset of the number of data words.
pub const DATA_COUNT_PLACE: usize = 12;

/// The offset of the number that depends on the version: in version 1 the limit of every task, in version 2 the number
/// of read-only words.
pub const OWN_PLACE: usize = 16;

/// The offset of the first task's entry.
pub const START_PLACE: usize = 20;

/// The offset of the values of x1 to x31.
pub const REGISTERS_PLACE: usize = 24;

/// The offset of the entries.
pub const ENTRIES_PLACE: usize = 148;
