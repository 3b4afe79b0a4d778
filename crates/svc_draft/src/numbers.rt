// Numbers as bytes.

ghost use Rattle.std.specs.Prelude.{◌≡◌, take};
ghost use Rattle.svc_layout.specs.Areas.{eight_bytes, width_size};

use byteorder::{ByteOrder, LittleEndian};
use svc_layout::Width;

pub(crate) fn width_size(width: Width) -> u32
    ensures { result ≡ width_size width }
{
    match width {
        Width::Byte => 1,
        Width::Half => 2,
        Width::Word => 4,
    }
}

// A number in eight bytes, the lowest first.
#[tactic(auto, unfolding(svc_image::specs::Format::bytes_of_word))]
pub(crate) fn eight_bytes(number: u32) -> [u8; 8]
    ensures { result ≡ eight_bytes number }
{
    let mut eight = [0; 8];
    LittleEndian::write_u32(&mut eight, number);
    eight
}

pub(crate) fn first_bytes(bytes: &[u8], size: u32) -> &[u8]
    ensures { result.now ≡ take size bytes.now }
{
    let (first, _) = bytes.split_at(bytes.len().min(size as usize));
    first
}
