// Where a text could not be read further, and what may stand there.

ghost use Rattle.std.specs.Prelude.{◌≡◌, ◌+◌, ◌<◌, ◌^◌, length};
ghost use Rattle.svc_tokens.specs.Characters.{past_spaces};

use crate::characters::skip_spaces;
use thiserror::Error;

/// What may stand at a place of the text, each in the words of a fault.
#[derive(Clone, Copy, Debug, Error)]
pub enum Wanted {
    /// A register, x0 to x31 or its name in the calling convention.
    #[error("a register")]
    Register,
    /// A number: decimal, hexadecimal behind 0x, binary behind 0b, octal behind 0.
    #[error("a number of 32 bits")]
    Number,
    #[error("a comma")]
    Comma,
    #[error("an opening parenthesis")]
    Open,
    #[error("a closing parenthesis")]
    Close,
    #[error("a number of 64 bits or a label of this text")]
    Value,
    #[error("a label of this text or an offset as . + 8")]
    Target,
    #[error("a name that no digit begins")]
    Label,
    #[error("a number from {least} to {most}")]
    Range { least: i64, most: i64 },
    #[error("an even offset from -1048576 to 1048574")]
    Offset,
    #[error("an instruction or a directive")]
    Statement,
    #[error("a section of text or of data")]
    Section,
    #[error("the version of the image, 1 or 2")]
    Version,
    #[error("hi(VALUE) or pcrel_hi(VALUE)")]
    High,
    #[error("lo(VALUE) or pcrel_lo(LABEL)")]
    Low,
    #[error("the label of an auipc with %pcrel_hi")]
    Relative,
    #[error("iorw or some of these letters in this order")]
    Order,
    #[error("the end of the line")]
    LineEnd,
    #[error("a quote")]
    Quote,
    #[error("a letter of an escape or an octal digit")]
    Escape,
    #[error("a number, a dot or a name of this text")]
    Symbol,
    #[error("a name of the same section")]
    SameSection,
    #[error("a size from 0 to 8")]
    Size,
}

/// The place where a text could not be read further.
#[derive(Clone, Copy)]
pub struct Unread {
    // First, so that in a `Read` no single byte lies over the text's place: a copy would move that in pieces.
    /// What may stand there.
    pub wanted: Wanted,
    /// How many bytes of the text are left from there on.
    pub left: usize,
}

/// What was read and what is left behind it, or what stands where nothing can be read, and what may stand there.
pub type Read<'a, T> = Result<(T, &'a [u8]), Unread>;

/// The fault of a text that goes on otherwise than wanted.
pub fn stopped_at(text: &[u8], wanted: Wanted) -> Unread
    ensures left { result.left ≡ length (past_spaces text.now) }
    ensures wanted { result.wanted ≡ wanted }
{
    Unread {
        wanted,
        left: skip_spaces(text).len(),
    }
}

/// The fault of a name that is followed by this text.
pub fn stopped_at_name(name: &[u8], text: &[u8], wanted: Wanted) -> Unread
    ensures left { length name.now + length text.now < 2 ^ 64 → result.left ≡ length name.now + length text.now }
    ensures wanted { result.wanted ≡ wanted }
{
    Unread {
        wanted,
        left: name.len().saturating_add(text.len()),
    }
}
