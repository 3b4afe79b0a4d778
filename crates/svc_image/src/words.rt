// Writes words of 32 bits as bytes, and reads them back, the lowest byte first.

ghost use Rattle.std.specs.Prelude.{◌≡◌, ◌++◌, ◌*◌, ◌<◌, ◌^◌, length, IfOk, IfErr, OnOk};
ghost use Rattle.svc_image.specs.Format.{bytes_of_half, bytes_of_word, bytes_of_words, words_in};
ghost use Rattle.svc_image.specs.Reading.{InLimits, header_bytes};

use crate::error::ImageError;
use crate::header::Header;
use crate::layout::MAGIC;
use byteorder::{ByteOrder, LittleEndian, WriteBytesExt};
use std::alloc::{AllocError, Global};

/// The words in some bytes.
pub fn read_words(alloc: Global, bytes: &[u8], count: usize) -> Result<Vec<u32>, AllocError>
    requires { length bytes.now ≡ 4 * count }
    ensures { IfOk result (λ words. words.items ≡ words_in count bytes.now) }
{
    let mut words = Vec::from_elem(alloc, 0, count)?;
    LittleEndian::read_u32_into(bytes, &mut words);
    Ok(words)
}

/// Appends words to the bytes.
pub fn put_words(bytes: &mut Vec<u8>, words: &[u32]) -> Result<(), ImageError>
    ensures ok { OnOk result (bytes.new.items ≡ bytes.old.items ++ bytes_of_words words.now) }
    ensures err { IfErr result (λ e. e ≡ ImageError.Memory) }
{
    for &word in words {
        put_word(bytes, word)?;
    }
    Ok(())
}

/// Appends a header to the bytes.
pub fn put_header(bytes: &mut Vec<u8>, header: Header) -> Result<(), ImageError>
    requires { InLimits header }
    ensures ok { OnOk result (bytes.new.items ≡ bytes.old.items ++ header_bytes header) }
    ensures err { IfErr result (λ e. e ≡ ImageError.Memory) }
{
    bytes.extend_from_slice(&MAGIC)?;
    put_half(bytes, header.version.number())?;
    put_half(bytes, header.entries as u16)?;
    put_word(bytes, header.text as u32)?;
    put_word(bytes, header.words as u32)?;
    put_word(bytes, header.own)?;
    put_word(bytes, header.start)
}

// Appends a number of 16 bits to the bytes.
#[tactic(auto, unfolding(crate::specs::Format::bytes_of_half))]
fn put_half(bytes: &mut Vec<u8>, number: u16) -> Result<(), ImageError>
    ensures ok { OnOk result (bytes.new.items ≡ bytes.old.items ++ bytes_of_half number) }
    ensures err { IfErr result (λ e. e ≡ ImageError.Memory) }
{
    match bytes.write_u16::<LittleEndian>(number) {
        Ok(()) => Ok(()),
        Err(_) => Err(ImageError::Memory),
    }
}

// Appends a number of 32 bits to the bytes.
#[tactic(auto, unfolding(crate::specs::Format::bytes_of_word))]
fn put_word(bytes: &mut Vec<u8>, number: u32) -> Result<(), ImageError>
    ensures ok { OnOk result (bytes.new.items ≡ bytes.old.items ++ bytes_of_word number) }
    ensures err { IfErr result (λ e. e ≡ ImageError.Memory) }
{
    match bytes.write_u32::<LittleEndian>(number) {
        Ok(()) => Ok(()),
        Err(_) => Err(ImageError::Memory),
    }
}
