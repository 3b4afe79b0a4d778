// The words of the text, and the bytes of the sections of data.

ghost use Rattle.std.specs.Prelude.{◌≡◌, ◌≤◌};
ghost use Rattle.svc_draft.specs.Drafts.{layout_of};
ghost use Rattle.svc_layout.specs.Refusals.{Changes};
ghost use Rattle.svc_layout.specs.Areas.{with_more, with_copies, number_bytes, width_size};
ghost use Rattle.svc_layout.specs.Places.{data_begin, bss_begin, data_size};
ghost use Rattle.svc_layout.specs.Contents.{in_section, with_room, with_bytes, with_fill, with_words};
ghost use Rattle.svc_layout.specs.Contents.{with_filling, with_step, with_part_step, with_padding, with_align};
ghost use Rattle.svc_layout.specs.Contents.{with_instruction, with_value, with_word};

use crate::draft::Draft;
use crate::numbers::{eight_bytes, first_bytes, width_size};
use crate::steps::{greater_step, multiple, padding, raise_step};
use svc_image::MOST_WORDS;
use svc_layout::{Refusal, Section, Width};

/// The instruction that does nothing: addi x0, x0, 0.
pub(crate) const NOP: u32 = 0x13;

impl<'a> Draft<'a> {
    pub(crate) fn data_begin(&self) -> u32
        ensures value { result ≡ data_begin (layout_of self.now) }
        ensures near { result ≤ 327680 }
    {
        multiple(self.data_step, self.rodata.size())
    }

    pub(crate) fn bss_begin(&self) -> u32
        ensures value { result ≡ bss_begin (layout_of self.now) }
        ensures near { result ≤ 655360 }
    {
        multiple(self.bss_step, self.data_begin() + self.data.size())
    }

    pub(crate) fn data_size(&self) -> u32
        ensures { result ≡ data_size (layout_of self.now) }
    {
        multiple(4, self.bss_begin() + self.bss.size())
    }

    pub(crate) fn check_room(&self) -> Result<(), Refusal>
        ensures { Changes result (with_room (layout_of self.now)) (layout_of self.now) }
    {
        if self.data_size() > 4 * MOST_WORDS {
            return Err(Refusal::FullData);
        }
        Ok(())
    }

    pub(crate) fn extend_section(&mut self, bytes: &[u8]) -> Result<(), Refusal>
        ensures { Changes result
            (in_section (with_more bytes.now) (layout_of self.old).section (layout_of self.old)) (layout_of self.new) }
    {
        match self.section {
            Section::Text => Err(Refusal::InText),
            Section::Rodata => self.rodata.push(bytes),
            Section::Data => self.data.push(bytes),
            Section::Bss => self.bss.push(bytes),
        }
    }

    #[tactic(auto, unfolding(svc_layout::specs::Contents::with_bytes))]
    pub(crate) fn push_bytes(&mut self, bytes: &[u8]) -> Result<(), Refusal>
        ensures { Changes result (with_bytes bytes.now (layout_of self.old)) (layout_of self.new) }
    {
        self.extend_section(bytes)?;
        self.check_room()
    }

    pub(crate) fn push_copies(
        &mut self,
        section: Section,
        count: u32,
        unit: &[u8],
    ) -> Result<(), Refusal>
        ensures { Changes result
            (in_section (with_copies count unit.now) section (layout_of self.old)) (layout_of self.new) }
    {
        match section {
            Section::Text => Err(Refusal::InText),
            Section::Rodata => self.rodata.push_copies(count, unit),
            Section::Data => self.data.push_copies(count, unit),
            Section::Bss => self.bss.push_copies(count, unit),
        }
    }

    #[tactic(auto, unfolding(svc_layout::specs::Contents::with_fill))]
    pub(crate) fn push_fill(&mut self, count: u32, size: u32, value: u32) -> Result<(), Refusal>
        ensures { Changes result (with_fill count size value (layout_of self.old)) (layout_of self.new) }
    {
        if count == 0 || size == 0 {
            return Ok(());
        }
        let bytes = eight_bytes(value);
        self.push_copies(self.section, count, first_bytes(&bytes, size))?;
        self.check_room()
    }

    #[tactic(auto, unfolding(svc_layout::specs::Contents::with_words))]
    pub(crate) fn push_words(&mut self, word: u32, count: u32) -> Result<(), Refusal>
        ensures { Changes result (with_words word count (layout_of self.old)) (layout_of self.new) }
    {
        let words = self.text.len();
        if count as usize > MOST_WORDS as usize - words {
            return Err(Refusal::FullText);
        }
        self.text.resize(words + count as usize, word)?;
        Ok(())
    }

    pub(crate) fn push_filling(&mut self, count: u32) -> Result<(), Refusal>
        ensures { Changes result
            (with_filling (layout_of self.old).section count (layout_of self.old)) (layout_of self.new) }
    {
        match self.section {
            Section::Text if count % 4 == 0 => self.push_words(NOP, count / 4),
            Section::Text => Err(Refusal::InText),
            _ => self.push_fill(count, 1, 0),
        }
    }

    pub(crate) fn keep_step(&mut self, step: u32)
        ensures { layout_of self.new ≡ with_step (layout_of self.old).section step (layout_of self.old) }
    {
        match self.section {
            Section::Text | Section::Rodata => {}
            Section::Data => self.data_step = greater_step(self.data_step, step),
            Section::Bss => self.bss_step = greater_step(self.bss_step, step),
        }
    }

    // Notes in a first pass the step of the part that the text has of the section.
    pub(crate) fn keep_part_step(&mut self, step: u32)
        ensures { layout_of self.new ≡ with_part_step (layout_of self.old).section step (layout_of self.old) }
    {
        if !self.known {
            raise_step(&mut self.source_read.steps, self.section, step);
        }
    }

    #[tactic(auto, unfolding(svc_layout::specs::Contents::with_align))]
    pub(crate) fn align(&mut self, step: u32) -> Result<(), Refusal>
        ensures { Changes result (with_align step (layout_of self.old)) (layout_of self.new) }
    {
        self.keep_part_step(step);
        self.pad(step)
    }

    #[tactic(auto, unfolding(svc_layout::specs::Contents::with_padding))]
    pub(crate) fn pad(&mut self, step: u32) -> Result<(), Refusal>
        ensures { Changes result (with_padding step (layout_of self.old)) (layout_of self.new) }
    {
        let filling = padding(step, self.size());
        self.keep_step(step);
        self.push_filling(filling)?;
        self.check_room()
    }

    pub(crate) fn push_number(&mut self, width: Width, number: u32) -> Result<(), Refusal>
        ensures { Changes result
            (with_bytes (number_bytes (width_size width) number) (layout_of self.old)) (layout_of self.new) }
    {
        let bytes = eight_bytes(number);
        self.push_bytes(first_bytes(&bytes, width_size(width)))
    }

    #[tactic(auto, unfolding(svc_layout::specs::Contents::with_value))]
    pub(crate) fn push_value(&mut self, width: Width, number: u32) -> Result<(), Refusal>
        ensures { Changes result (with_value width number (layout_of self.old)) (layout_of self.new) }
    {
        match (self.section, width) {
            (Section::Text, Width::Word) => self.push_word(number),
            (Section::Text, _) => Err(Refusal::InText),
            _ => self.push_number(width, number),
        }
    }

    pub(crate) fn push_instruction(&mut self, word: u32) -> Result<(), Refusal>
        ensures { Changes result (with_instruction word (layout_of self.old)) (layout_of self.new) }
    {
        match self.section {
            Section::Text => self.push_word(word),
            _ => Err(Refusal::InData),
        }
    }

    #[tactic(auto, unfolding(svc_layout::specs::Contents::with_word))]
    pub(crate) fn push_word(&mut self, word: u32) -> Result<(), Refusal>
        ensures { Changes result (with_word word (layout_of self.old)) (layout_of self.new) }
    {
        if self.text.len() >= MOST_WORDS as usize {
            return Err(Refusal::FullText);
        }
        self.text.push(word)?;
        Ok(())
    }
}
