// Zeros that texts name in `.bss`, and where the next text of a program begins.

ghost use Rattle.std.specs.Prelude.{◌≡◌, OnOk, map, option_map, slice_get, take};
ghost use Rattle.svc_draft.specs.Drafts.{source_of, layout_of};
ghost use Rattle.svc_layout.specs.Refusals.{Changes};
ghost use Rattle.svc_layout.specs.Zeros.{has_other_room, is_common, with_bound_zeros, with_common, with_own_zeros};
ghost use Rattle.svc_layout.specs.Zeros.{with_shared_zeros, with_zeros_named};
ghost use Rattle.svc_layout.specs.Texts.{with_begin, with_next_text, with_part, with_parts, with_source};

use crate::draft::Draft;
use crate::sources::{SourceTables, common_room, first_by};
use crate::steps::padding;
use std::alloc::AllocError;
use std::mem;
use svc_layout::{Binding, Next, Refusal, Section, Steps, Strength};

/// The most texts of a program. Each is looked at for every name that another one has, so that few bound the time.
const MOST_TEXTS: usize = 256;

fn is_common(binding: Option<Binding>) -> bool
    ensures { result ≡ is_common binding }
{
    matches!(binding, Some(Binding::Common(_, _)))
}

impl<'a> Draft<'a> {
    pub(crate) fn texts_above(&self) -> &[SourceTables<'a>]
        ensures { map source_of result.now ≡ take (layout_of self.now).number (layout_of self.now).sources }
    {
        self.sources.split_at(self.number.min(self.sources.len())).0
    }

    fn has_other_room(&self, name: &[u8]) -> bool
        ensures { result ≡ has_other_room (layout_of self.now) name.now }
    {
        if first_by(Strength::Strong, name, &self.sources).is_some() {
            return true;
        }
        first_by(Strength::Yielding, name, self.texts_above()).is_some()
    }

    #[tactic(auto, unfolding(svc_layout::specs::Zeros::with_zeros_named))]
    fn push_zeros_named(&mut self, name: &'a [u8], count: u32) -> Result<(), Refusal>
        ensures { Changes result (with_zeros_named name.now count (layout_of self.old)) (layout_of self.new) }
    {
        self.set_symbol(name, self.spot_here())?;
        self.push_fill(count, 1, 0)
    }

    fn push_own_zeros(&mut self, name: &'a [u8], count: u32, step: u32) -> Result<(), Refusal>
        ensures { Changes result (with_own_zeros name.now count step (layout_of self.old)) (layout_of self.new) }
    {
        self.align(step)?;
        self.push_zeros_named(name, count)
    }

    fn push_shared_zeros(&mut self, name: &'a [u8], room: (u32, u32)) -> Result<(), Refusal>
        ensures { Changes result (with_shared_zeros name.now room (layout_of self.old)) (layout_of self.new) }
    {
        if self.has_other_room(name) {
            return Ok(());
        }
        self.pad(room.1)?;
        self.push_zeros_named(name, room.0)
    }

    #[tactic(auto, unfolding(svc_layout::specs::Zeros::with_bound_zeros))]
    fn push_bound_zeros(&mut self, name: &'a [u8], count: u32, step: u32) -> Result<(), Refusal>
        ensures { Changes result (with_bound_zeros name.now count step (layout_of self.old)) (layout_of self.new) }
    {
        if is_common(self.source().binding_of(name)) {
            let room = common_room(name, &self.sources, (count, step));
            return self.push_shared_zeros(name, room);
        }
        self.push_own_zeros(name, count, step)
    }

    #[tactic(auto, unfolding(svc_layout::specs::Zeros::with_common))]
    pub(crate) fn push_common(
        &mut self,
        name: &'a [u8],
        binding: Binding,
        count: u32,
        step: u32,
    ) -> Result<(), Refusal>
        ensures { Changes result (with_common name.now binding count step (layout_of self.old))
            (layout_of self.new) }
    {
        let section = self.section;
        self.section = Section::Bss;
        self.bind(name, binding)?;
        self.push_bound_zeros(name, count, step)?;
        self.section = section;
        self.next = Next::Line;
        Ok(())
    }

    /// Ends the text that is read: a first pass has found it.
    pub fn end_text(&mut self) -> Result<(), AllocError>
        ensures { OnOk result (layout_of self.new ≡ with_source (layout_of self.old)) }
    {
        if self.known {
            return Ok(());
        }
        let text = mem::replace(&mut self.source_read, SourceTables::new(self.alloc));
        self.found.push(text)?;
        Ok(())
    }

    #[tactic(auto, unfolding(svc_layout::specs::Texts::with_part))]
    fn begin_part(&mut self, section: Section, step: u32) -> Result<(), Refusal>
        ensures { Changes result (with_part section step (layout_of self.old)) (layout_of self.new) }
    {
        let count = padding(step, self.size_in(section));
        if count == 0 {
            return Ok(());
        }
        self.push_copies(section, count, &[0])
    }

    #[tactic(auto, unfolding(svc_layout::specs::Texts::with_parts))]
    fn begin_parts(&mut self, steps: Steps) -> Result<(), Refusal>
        ensures { Changes result (with_parts steps (layout_of self.old)) (layout_of self.new) }
    {
        let count = padding(steps.text_step, self.size_in(Section::Text));
        self.push_words(0, count / 4)?;
        self.begin_part(Section::Rodata, steps.rodata_step)?;
        self.begin_part(Section::Data, steps.data_step)?;
        self.begin_part(Section::Bss, steps.bss_step)?;
        self.check_room()
    }

    fn steps_known(&self) -> Option<Steps>
        ensures { result ≡ option_map (λ s. s.steps)
            (slice_get (layout_of self.now).sources (layout_of self.now).number) }
    {
        Some(self.sources.get(self.number)?.steps)
    }

    fn begin_known(&mut self) -> Result<(), Refusal>
        ensures { Changes result (with_begin (layout_of self.old)) (layout_of self.new) }
    {
        match self.steps_known() {
            Some(steps) => self.begin_parts(steps),
            None if self.known => Err(Refusal::FullTexts),
            None => {
                self.lacks_places = true;
                Ok(())
            }
        }
    }

    #[tactic(auto, unfolding(svc_layout::specs::Texts::with_next_text))]
    pub(crate) fn begin_text(&mut self) -> Result<(), Refusal>
        ensures { Changes result (with_next_text (layout_of self.old)) (layout_of self.new) }
    {
        if self.number + 1 >= MOST_TEXTS {
            return Err(Refusal::FullTexts);
        }
        self.end_text()?;
        self.number += 1;
        self.passed = 0;
        self.section = Section::Text;
        self.next = Next::Line;
        self.begin_known()
    }
}
