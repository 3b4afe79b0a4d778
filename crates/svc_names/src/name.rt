// Names, and their order.

ghost use Rattle.std.specs.Prelude.{◌≡◌};
ghost use Rattle.svc_names.specs.Table.{comes_next, is_before, is_name_text};

use svc_tokens::split_name;

/// A name of an address of the program: of its text, or of its data.
#[derive(Drop)]
pub struct Name {
    /// Its characters.
    pub text: Vec<u8>,
    /// The byte address that it names.
    pub address: u32,
}

// The most characters of a name.
const MOST_CHARACTERS: usize = 2000;

/// Whether a text is a name, as the assembler reads names.
pub(crate) fn is_name_text(text: &[u8]) -> bool
    ensures { result ≡ is_name_text text.now }
{
    let (name, _rest) = split_name(text);
    !text.is_empty() && text.len() <= MOST_CHARACTERS && name == text
}

// Whether a name stands before one of this text and address.
fn is_before(name: &Name, text: &[u8], address: u32) -> bool
    ensures { result ≡ is_before name.now text.now address }
{
    let order = name.address.cmp(&address);
    order.then(name.text.as_slice().cmp(&text)).is_lt()
}

/// Whether a name of this text and address may stand behind these.
pub(crate) fn comes_next(names: &[Name], text: &[u8], address: u32) -> bool
    ensures { result ≡ comes_next names.now text.now address }
{
    match names.last() {
        Some(last) => is_before(last, text, address),
        None => true,
    }
}
