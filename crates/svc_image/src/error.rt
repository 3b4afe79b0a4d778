// Why bytes are not an image.

ghost use Rattle.std.specs.Prelude.{◌≡◌};
ghost use Rattle.svc_image.specs.Faults.{fault_number};
ghost use Rattle.svc_image.specs.declared.error.ImageError.TheVariants.{Memory};

use std::alloc::AllocError;
use thiserror::Error;

/// Why bytes are not an image, or no image could be made. The first eight are faults of the bytes, in the
/// order in which a file is checked; the last says that memory ran out.
#[derive(Clone, Copy, Debug, PartialEq, Eq, Error)]
pub enum ImageError {
    /// The bytes end before a field is whole.
    #[error("the image ends too early")]
    Short,
    /// The first four bytes aren't `SVCI`.
    #[error("not an image")]
    Magic,
    /// The version of the format is unknown.
    #[error("unknown version of the image format")]
    Version,
    /// A count, or the limit of turns, is out of its range.
    #[error("a count of the image is out of range")]
    Count,
    /// An entry isn't above the one before it.
    #[error("the entries don't rise")]
    EntryOrder,
    /// No word of the text starts at an entry.
    #[error("an entry is no word of the text")]
    EntryPlace,
    /// The first task's entry isn't among the entries.
    #[error("the start is no entry")]
    Start,
    /// Bytes are left after the last data word.
    #[error("bytes follow the image")]
    Trailing,
    /// Memory ran out.
    #[error("out of memory")]
    Memory,
}

impl ImageError {
    /// The fault's number, from 1 to 9, as the program prints it.
    pub fn number(self) -> u8
        ensures { result ≡ fault_number self }
    {
        match self {
            ImageError::Short => 1,
            ImageError::Magic => 2,
            ImageError::Version => 3,
            ImageError::Count => 4,
            ImageError::EntryOrder => 5,
            ImageError::EntryPlace => 6,
            ImageError::Start => 7,
            ImageError::Trailing => 8,
            ImageError::Memory => 9,
        }
    }
}

impl From<AllocError> for ImageError {
    ghost from_gives = { λ _ e. e ≡ Memory };

    fn from(_error: AllocError) -> ImageError {
        ImageError::Memory
    }
}
