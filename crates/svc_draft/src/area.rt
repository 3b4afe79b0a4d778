// The bytes of one section of data, and those of all of them.

ghost use Rattle.std.specs.Prelude.{◌≡◌, ◌+◌, ◌%◌, ◌++◌, ◌≤◌, List, ℕ, [], length, OnOk, OnErr, IfOk, IfErr};
ghost use Rattle.svc_image.specs.declared.error.ImageError.TheVariants as image_error;
ghost use Rattle.svc_layout.specs.Areas.{with_more, with_copies, fill_up, data_of};
ghost use Rattle.svc_layout.specs.Refusals.{Changes, IsOfArea};

use crate::steps::padding;
use std::alloc::Global;
use std::marker::Model;
use svc_image::{ImageError, MOST_WORDS};
use svc_layout::Refusal;

// The most bytes of an area.
const MOST_BYTES: usize = 4 * MOST_WORDS as usize;

/// The bytes of one section of data, at most 262,144.
#[derive(Drop)]
pub(crate) struct Area {
    bytes: Vec<u8>,
}

impl Model for Area {
    ghost Value = { List ℕ };

    ghost view = { λ a. a.bytes.items };

    ghost invariant = { λ a. length a.bytes.items ≤ 262144 };
}

impl Area {
    /// No bytes yet.
    pub(crate) fn new(alloc: Global) -> Area
        ensures { result ≡ [] }
    {
        Area {
            bytes: Vec::new(alloc),
        }
    }

    /// How many bytes there are.
    pub(crate) fn size(&self) -> u32
        ensures size { result ≡ length self.now }
        ensures few { result ≤ 262144 }
    {
        self.bytes.len() as u32
    }

    /// Puts bytes behind the others.
    ///
    /// Errors: [`Refusal::FullData`] where there is no room for all, and [`Refusal::Memory`].
    #[tactic(auto, unfolding(svc_layout::specs::Areas::with_more))]
    pub(crate) fn push(&mut self, more: &[u8]) -> Result<(), Refusal>
        ensures done { Changes result (with_more more.now self.old) self.new }
        ensures refusal { IfErr result IsOfArea }
        ensures unchanged { OnErr result (self.new ≡ self.old) }
    {
        if more.len() > MOST_BYTES - self.bytes.len() {
            return Err(Refusal::FullData);
        }
        self.bytes.extend_from_slice(more)?;
        Ok(())
    }

    /// Puts so many copies of bytes behind the others. Where it errs, some of them may stand there.
    ///
    /// Errors: as [`Area::push`].
    #[tactic(auto, using(crate::proofs::Copies::copies_on, crate::proofs::Copies::copies_refused, crate::proofs::Copies::copies_done))]
    pub(crate) fn push_copies(&mut self, count: u32, unit: &[u8]) -> Result<(), Refusal>
        ensures done { Changes result (with_copies count unit.now self.old) self.new }
        ensures refusal { IfErr result IsOfArea }
    {
        let mut left = count;
        while left > 0 {
            self.push(unit)?;
            left -= 1;
        }
        Ok(())
    }
}

// Puts the bytes of an area behind others, and zeros up to a multiple of a step.
#[tactic(auto, unfolding(svc_layout::specs::Areas::fill_up))]
fn push_area(all: &mut Vec<u8>, area: &Area, step: u32) -> Result<(), ImageError>
    requires step { step ≤ 65536 }
    requires all { length all.old.items ≤ 655360 }
    ensures ok { OnOk result (all.new.items ≡ fill_up step (all.old.items ++ area.now)) }
    ensures few { length all.new.items ≤ length all.old.items + 327680 }
    ensures whole { OnOk result (step ≡ 4 → length all.new.items % 4 ≡ 0) }
    ensures err { IfErr result (λ e. e ≡ image_error.Memory) }
{
    all.extend_from_slice(&area.bytes)?;
    let size = all.len();
    let zeros = padding(step, size as u32);
    all.resize(size + zeros as usize, 0)?;
    Ok(())
}

/// The data of an image: the sections one behind the other, the last two each from a multiple of a step on, in whole
/// words, and at least one word.
///
/// Errors: [`ImageError::Memory`].
#[tactic(auto, unfolding(svc_layout::specs::Areas::data_of))]
pub(crate) fn data_of(
    alloc: Global,
    data_step: u32,
    bss_step: u32,
    rodata: &Area,
    middle: &Area,
    bss: &Area,
) -> Result<Vec<u8>, ImageError>
    requires data_step { data_step ≤ 65536 }
    requires bss_step { bss_step ≤ 65536 }
    ensures ok { IfOk result (λ all. all.items ≡ data_of data_step bss_step rodata.now middle.now bss.now) }
    ensures whole { IfOk result (λ all. length all.items % 4 ≡ 0) }
    ensures err { IfErr result (λ e. e ≡ image_error.Memory) }
{
    let mut all = Vec::new(alloc);
    push_area(&mut all, rodata, data_step)?;
    push_area(&mut all, middle, bss_step)?;
    push_area(&mut all, bss, 4)?;
    if all.is_empty() {
        all.extend_from_slice(&[0, 0, 0, 0])?;
    }
    Ok(all)
}
