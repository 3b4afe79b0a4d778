// What directives of images say: the version, read-only data, limits, entries and registers.

ghost use Rattle.std.specs.Prelude.{◌≡◌};
ghost use Rattle.svc_draft.specs.Drafts.{layout_of};
ghost use Rattle.svc_layout.specs.Refusals.{Changes};
ghost use Rattle.svc_layout.specs.Directives.{has_other, is_limit, with_version, data_up_to, with_read_only, with_own};
ghost use Rattle.svc_layout.specs.Directives.{with_place, with_entry, with_limit, with_register};

use crate::draft::Draft;
use crate::making::{Mark, has_place};
use svc_image::{MOST_ENTRIES, MOST_WORDS, Version};
use svc_layout::{Refusal, Section};
use svc_rv32i::Register;

impl Draft<'_> {
    #[tactic(auto, unfolding(svc_layout::specs::Directives::with_version))]
    pub(crate) fn set_version(&mut self, version: Version) -> Result<(), Refusal>
        ensures { Changes result (with_version version (layout_of self.old)) (layout_of self.new) }
    {
        if has_other(version, self.version) {
            return Err(Refusal::OtherVersion);
        }
        self.version = Some(version);
        Ok(())
    }

    pub(crate) fn data_up_to_here(&self) -> u32
        ensures { result ≡ data_up_to (layout_of self.now).section (layout_of self.now) }
    {
        match self.section {
            Section::Rodata => self.rodata.size(),
            Section::Text | Section::Data => self.data_from + self.data.size(),
            Section::Bss => self.bss_from + self.bss.size(),
        }
    }

    #[tactic(auto, unfolding(svc_layout::specs::Directives::with_read_only))]
    pub(crate) fn set_read_only(&mut self) -> Result<(), Refusal>
        ensures { Changes result (with_read_only (layout_of self.old)) (layout_of self.new) }
    {
        let bytes = self.data_up_to_here();
        if bytes % 4 != 0 {
            return Err(Refusal::PartOfWord);
        }
        match self.set_version(Version::Two) {
            Ok(()) => {
                self.read_only = bytes / 4;
                Ok(())
            }
            Err(refusal) => Err(refusal),
        }
    }

    #[tactic(auto, unfolding(svc_layout::specs::Directives::with_limit))]
    pub(crate) fn set_limit(&mut self, limit: u32) -> Result<(), Refusal>
        ensures { Changes result (with_limit limit (layout_of self.old)) (layout_of self.new) }
    {
        if !is_limit(limit) {
            return Err(Refusal::Limit);
        }
        self.limit = limit;
        Ok(())
    }

    pub(crate) fn allow_own(&mut self, limit: Option<u32>) -> Result<(), Refusal>
        ensures { Changes result (with_own limit (layout_of self.old)) (layout_of self.new) }
    {
        match limit {
            None => Ok(()),
            Some(limit) if is_limit(limit) => self.set_version(Version::Two),
            Some(_) => Err(Refusal::Limit),
        }
    }

    #[tactic(auto, unfolding(svc_layout::specs::Directives::with_place))]
    pub(crate) fn push_place(&mut self, limit: Option<u32>) -> Result<(), Refusal>
        ensures { Changes result (with_place limit (layout_of self.old)) (layout_of self.new) }
    {
        let words = self.text.len();
        if words >= MOST_WORDS as usize {
            return Err(Refusal::FullText);
        }
        if self.entries.len() >= MOST_ENTRIES as usize {
            return Err(Refusal::FullEntries);
        }
        let place = 4 * words as u32;
        if has_place(&self.entries, place) {
            return Err(Refusal::EntryTwice);
        }
        self.entries.push(Mark { place, limit })?;
        Ok(())
    }

    #[tactic(auto, unfolding(svc_layout::specs::Directives::with_entry))]
    pub(crate) fn push_entry(&mut self, limit: Option<u32>) -> Result<(), Refusal>
        ensures { Changes result (with_entry limit (layout_of self.old)) (layout_of self.new) }
    {
        self.allow_own(limit)?;
        self.push_place(limit)
    }

    #[tactic(auto, unfolding(svc_layout::specs::Directives::with_register))]
    pub(crate) fn set_register(&mut self, register: Register, value: u32) -> Result<(), Refusal>
        ensures { Changes result (with_register register value (layout_of self.old)) (layout_of self.new) }
    {
        if register.number == 0 {
            return Err(Refusal::ZeroRegister);
        }
        self.registers[register.number as usize - 1] = value;
        Ok(())
    }
}

fn is_limit(limit: u32) -> bool
    ensures { result ≡ is_limit limit }
{
    (1..=MOST_WORDS).contains(&limit)
}

fn has_other(version: Version, said: Option<Version>) -> bool
    ensures { result ≡ has_other version said }
{
    match said {
        None => false,
        Some(said) => said.number() != version.number(),
    }
}
