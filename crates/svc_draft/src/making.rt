// The image that the lines make.

ghost use Rattle.std.specs.Prelude.{◌≡◌, ◌==◌, length, map, unwrap_or, IfOk, ◌/◌, IfErr, MatchResult};
ghost use Rattle.std.specs.List.{list_any};
ghost use Rattle.svc_image.specs.Format.{words_in};
ghost use Rattle.svc_image.specs.Image.{IsImage};
ghost use Rattle.svc_image.specs.Parts.{HasLimits, image_made};
ghost use Rattle.svc_draft.specs.Drafts.{layout_of};
ghost use Rattle.svc_layout.specs.Images.{start_in, data_in, IsOwnOf, image_laid, IsMadeOf};
ghost use Rattle.svc_image.specs.declared.error.ImageError.TheVariants as image_error;
ghost use Rattle.svc_layout.specs.declared.refusal.Refusal.TheVariants as refusal;
ghost use Rattle.svc_image.specs.Image as value;

use crate::area::data_of;
use crate::draft::Draft;
use std::alloc::{AllocError, Global};
use svc_image::{Image, ImageError, Own, Parts, Version, read_words};
use svc_layout::Refusal;

/// An entry.
#[derive(Clone, Copy)]
pub struct Mark {
    /// Its byte address.
    pub place: u32,
    /// The limit that it has of its own.
    pub limit: Option<u32>,
}

// The parts of an image that a draft doesn't hold as they are.
pub struct Pieces {
    pub own: Own,
    pub entries: Vec<u32>,
    pub words: Vec<u32>,
}

pub fn has_place(marks: &[Mark], place: u32) -> bool
    ensures { result ≡ list_any (λ e. e == place) (map (λ m. m.place) marks.now) }
{
    marks
        .iter()
        .map(|mark| mark.place)
        .any(|entry| entry == place)
}

pub fn places_of(alloc: Global, marks: &[Mark]) -> Result<Vec<u32>, AllocError>
    ensures { IfOk result (λ places. places.items ≡ map (λ m. m.place) marks.now) }
{
    let mut places = Vec::with_capacity(alloc, marks.len())?;
    for mark in marks {
        places.push(mark.place)?;
    }
    Ok(places)
}

pub fn limits_of(alloc: Global, limit: u32, marks: &[Mark]) -> Result<Vec<u32>, AllocError>
    ensures { IfOk result (λ limits. limits.items ≡ map (λ m. unwrap_or m.limit limit) marks.now) }
{
    let mut limits = Vec::with_capacity(alloc, marks.len())?;
    for mark in marks {
        limits.push(mark.limit.unwrap_or(limit))?;
    }
    Ok(limits)
}

impl Draft<'_> {
    /// The image that the lines make. Where no line says so, the first task begins at the first entry, the limit is
    /// 65,536, every register is 0, and the data is one word 0; zeros fill its last word.
    ///
    /// Errors: `NoEntry`, `NoInstruction` and `OtherStart`, which no line tells, and `Memory`.
    pub fn finish(self, alloc: Global) -> Result<Image, Refusal>
        ensures ok { IfOk result (IsMadeOf (layout_of self.entry)) }
        // What the lines make is made, unless memory runs out.
        ensures whole { (img : value.Image) → IsImage img → IsMadeOf (layout_of self.entry) img
            → MatchResult result (λ i. i ≡ img) (λ e. e ≡ refusal.Memory) }
    {
        let has_entry = !self.entries.is_empty();
        match self.make(alloc) {
            Ok(image) => Ok(image),
            Err(error) => Err(lack(has_entry, error)),
        }
    }

    pub(crate) fn make(self, alloc: Global) -> Result<Image, ImageError>
        ensures ok { IfOk result (IsMadeOf (layout_of self.entry)) }
        ensures whole { (img : value.Image) → IsImage img → IsMadeOf (layout_of self.entry) img
            → MatchResult result (λ i. i ≡ img) (λ e. e ≡ image_error.Memory) }
    {
        let parts = self.parts(alloc)?;
        Image::of(alloc, parts)
    }

    // What the image is made of.
    pub(crate) fn parts(self, alloc: Global) -> Result<Parts, ImageError>
        ensures limits { IfOk result HasLimits }
        ensures made { IfOk result (λ parts. image_made parts ≡ image_laid (layout_of self.entry)) }
        ensures err { IfErr result (λ e. e ≡ image_error.Memory) }
    {
        let start = self.start_place();
        match self.pieces(alloc) {
            Ok(
                Pieces {
                    own,
                    entries,
                    words,
                },
            ) => Ok(Parts {
                own,
                start,
                registers: self.registers,
                entries,
                text: self.text,
                words,
            }),
            Err(error) => Err(error),
        }
    }

    // What the draft doesn't hold as the image has it.
    pub(crate) fn pieces(&self, alloc: Global) -> Result<Pieces, ImageError>
        ensures own { IfOk result (λ pieces. IsOwnOf pieces.own (layout_of self.now)) }
        ensures entries { IfOk result (λ pieces. pieces.entries.items ≡ (layout_of self.now).entries) }
        ensures words { IfOk result (λ pieces. pieces.words.items
            ≡ words_in (length (data_in (layout_of self.now)) / 4) (data_in (layout_of self.now))) }
        ensures err { IfErr result (λ e. e ≡ image_error.Memory) }
    {
        let words = self.words(alloc)?;
        let entries = places_of(alloc, &self.entries)?;
        let own = self.own(alloc)?;
        Ok(Pieces {
            own,
            entries,
            words,
        })
    }

    // The words of the data.
    pub(crate) fn words(&self, alloc: Global) -> Result<Vec<u32>, ImageError>
        ensures ok { IfOk result (λ words. words.items
            ≡ words_in (length (data_in (layout_of self.now)) / 4) (data_in (layout_of self.now))) }
        ensures err { IfErr result (λ e. e ≡ image_error.Memory) }
    {
        let data = data_of(
            alloc,
            self.data_step,
            self.bss_step,
            &self.rodata,
            &self.data,
            &self.bss,
        )?;
        Ok(read_words(alloc, &data, data.len() / 4)?)
    }

    // What the version of the image has in its own way.
    pub(crate) fn own(&self, alloc: Global) -> Result<Own, AllocError>
        ensures { IfOk result (λ own. IsOwnOf own (layout_of self.now)) }
    {
        match self.version {
            Some(Version::Two) => Ok(Own::Two(
                self.read_only,
                limits_of(alloc, self.limit, &self.entries)?,
            )),
            _ => Ok(Own::One(self.limit)),
        }
    }

    pub(crate) fn start_place(&self) -> u32
        ensures { result ≡ start_in (layout_of self.now).start (layout_of self.now).entries }
    {
        if let Some(start) = self.start {
            return start;
        }
        match self.entries.as_slice() {
            [first, ..] => first.place,
            [] => 0,
        }
    }
}

fn lack(has_entry: bool, error: ImageError) -> Refusal
    ensures { (error ≡ image_error.Memory) → result ≡ refusal.Memory }
{
    match error {
        ImageError::Memory => Refusal::Memory,
        ImageError::Start => Refusal::OtherStart,
        _ if has_entry => Refusal::NoInstruction,
        _ => Refusal::NoEntry,
    }
}
