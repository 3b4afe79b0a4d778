// The name nearest to an address.

ghost use Rattle.std.specs.Prelude.{◌≡◌, ◌++◌, OnOk, length, take};
ghost use Rattle.svc_names.specs.Given.{listed, noted_by};
ghost use Rattle.svc_names.specs.Near.{near_text};

use crate::names::Names;
use std::alloc::AllocError;
use svc_text::{Piece, put};

/// A name, and how many bytes behind its address another address is.
#[derive(Clone, Copy)]
pub struct Near<'a> {
    /// The name's characters.
    pub name: &'a [u8],
    /// How far behind it the address is.
    pub behind: u64,
}

// Adds the name, and how far behind it the address is, unless it is the name's own.
fn put_near(text: &mut Vec<u8>, near: Near<'_>) -> Result<(), AllocError>
    ensures ok { OnOk result (text.new.items ≡ text.old.items ++ near_text near.entry) }
    ensures kept { take (length text.old.items) text.new.items ≡ text.old.items }
{
    near.name.put(text)?;
    if near.behind > 0 {
        put!(text; "+", near.behind);
    }
    Ok(())
}

impl Piece for Near<'_> {
    ghost bytes = { near_text };

    fn put(self, text: &mut Vec<u8>) -> Result<(), AllocError> {
        let length = text.len();
        let put = put_near(text, self);
        if put.is_err() {
            text.truncate(length);
        }
        put
    }
}

/// Adds a space and the name of an address, if names are given and it has one.
///
/// Errors: [`AllocError`], if memory runs out.
pub fn put_note(names: Option<&Names>, text: &mut Vec<u8>, address: u32) -> Result<(), AllocError>
    ensures { OnOk result (text.new.items ≡ text.old.items ++ noted_by (listed names.entry) address) }
{
    let Some(names) = names else {
        return Ok(());
    };
    if let Some(near) = names.nearest(u64::from(address)) {
        put!(text; " ", near);
    }
    Ok(())
}
