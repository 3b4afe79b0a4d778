// The pieces of a text.

ghost use Rattle.std.specs.Prelude.{◌≡◌, ◌++◌, ℕ, List, OnOk, OnErr, decimal};

use itoa::Buffer;
use std::alloc::AllocError;

/// A piece of a text: a text, bytes, or a number in decimal.
pub trait Piece: Copy {
    // The bytes that it adds.
    ghost bytes: { Self → List ℕ };

    /// Adds it to a text.
    ///
    /// Errors: [`AllocError`], if memory runs out; the text is as it was.
    fn put(self, text: &mut Vec<u8>) -> Result<(), AllocError>
        ensures ok { OnOk result (text.new.items ≡ text.old.items ++ bytes self) }
        ensures err { OnErr result (text.new.items ≡ text.old.items) };
}

impl Piece for &[u8] {
    ghost bytes = { λ s. s.now };

    fn put(self, text: &mut Vec<u8>) -> Result<(), AllocError> {
        text.extend_from_slice(self)
    }
}

impl Piece for &str {
    ghost bytes = { λ s. s.now };

    fn put(self, text: &mut Vec<u8>) -> Result<(), AllocError> {
        text.extend_from_slice(self.as_bytes())
    }
}

impl Piece for u64 {
    ghost bytes = { λ n. decimal n };

    fn put(self, text: &mut Vec<u8>) -> Result<(), AllocError> {
        let mut digits = Buffer::new();
        text.extend_from_slice(digits.format(self).as_bytes())
    }
}

impl Piece for u32 {
    ghost bytes = { λ n. decimal n };

    fn put(self, text: &mut Vec<u8>) -> Result<(), AllocError> {
        u64::from(self).put(text)
    }
}

impl Piece for u8 {
    ghost bytes = { λ n. decimal n };

    fn put(self, text: &mut Vec<u8>) -> Result<(), AllocError> {
        u64::from(self).put(text)
    }
}

/// Adds pieces to a text, one after the other. It ends the enclosing function with an [`AllocError`] if memory runs
/// out.
#[macro_export]
macro_rules! put {
    ($text:expr; $($piece:expr),+ $(,)?) => {
        $($crate::Piece::put($piece, $text)?;)+
    };
}
