// An image in the making, and the names of its labels.

ghost use Rattle.std.specs.Prelude.{◌≡◌, ◌<◌, ◌≤◌, false, length, map, IfErr, OnOk};

use crate::area::Area;
use crate::making::Mark;
use crate::sources::{SourceTables, linkage_binding, shared_spot};
use std::alloc::Global;
use std::collections::HashMap;
use svc_image::{DATA_START, MOST_WORDS, Version};
use svc_layout::{Binding, Next, Refusal, Section, Spot, Statement, Width};

/// What the lines read so far make, as a `Layout` says it.
#[derive(Drop)]
pub struct Draft<'a> {
    pub(crate) alloc: Global,
    pub(crate) version: Option<Version>,
    pub(crate) limit: u32,
    pub(crate) read_only: u32,
    pub(crate) start: Option<u32>,
    pub(crate) registers: [u32; 31],
    pub(crate) entries: Vec<Mark>,
    pub(crate) text: Vec<u32>,
    pub(crate) rodata: Area,
    pub(crate) data: Area,
    pub(crate) bss: Area,
    pub(crate) data_step: u32,
    pub(crate) bss_step: u32,
    pub(crate) section: Section,
    pub(crate) next: Next,
    pub(crate) number: usize,
    pub(crate) source_read: SourceTables<'a>,
    pub(crate) found: Vec<SourceTables<'a>>,
    pub(crate) known: bool,
    pub(crate) data_from: u32,
    pub(crate) bss_from: u32,
    pub(crate) sources: Vec<SourceTables<'a>>,
    pub(crate) places_known: bool,
    pub(crate) lacks_names: bool,
    pub(crate) lacks_places: bool,
    pub(crate) passed: usize,
    pub(crate) distances: HashMap<u32, u32>,
    pub(crate) has_distances: bool,
    pub(crate) distances_known: bool,
    pub(crate) turned: HashMap<usize, ()>,
    pub(crate) turns_all: bool,
    pub(crate) grew: bool,
    ghost text_few: { length text.items ≤ 65536 },
    ghost data_step_few: { data_step ≤ 65536 },
    ghost bss_step_few: { bss_step ≤ 65536 },
    ghost data_near: { data_from ≤ 327680 },
    ghost bss_near: { bss_from ≤ 655360 },
    ghost few_texts: { number < 256 },
}

impl<'a> Draft<'a> {
    ghost use Rattle.std.specs.Prelude.{Some};
    ghost use Rattle.svc_draft.specs.Drafts.{layout_of, source_of};
    ghost use Rattle.svc_layout.specs.Refusals.{Refuses};
    ghost use Rattle.svc_layout.specs.Sources.{no_source};
    ghost use Rattle.svc_layout.specs.Places.{size, size_in, base, place, spot_here, here};
    ghost use Rattle.svc_layout.specs.Passes.{empty, first_pass, second_pass, measuring_pass, laying_pass, once_more};
    ghost use Rattle.svc_layout.specs.Passes.{next_round, last_round, lacks};
    ghost use Rattle.svc_layout.specs.Addresses.{is_foreign};
    ghost use Rattle.svc_layout.specs.Notes.{is_turned};
    ghost use Rattle.svc_layout.specs.Lines.{after};

    /// No lines yet, in the first pass of the first round, in which no branch is turned.
    pub fn new(alloc: Global) -> Draft<'a>
        ensures { layout_of result ≡ first_pass }
    {
        Draft::behind(Vec::new(alloc), alloc)
    }

    /// No lines yet, in the first pass of the round behind one that ended so: what that found too far is turned.
    pub fn next_round(self, alloc: Global) -> Draft<'a>
        ensures { layout_of result ≡ next_round (layout_of self.entry) }
    {
        let mut next = Draft::new(alloc);
        next.turned = self.turned;
        next
    }

    /// No lines yet, in the first pass of a round in which every branch is turned.
    pub fn last_round(alloc: Global) -> Draft<'a>
        ensures { layout_of result ≡ last_round }
    {
        let mut last = Draft::new(alloc);
        last.turns_all = true;
        last
    }

    /// No lines yet, in a first pass once more, behind one that ended so.
    pub fn once_more(self, alloc: Global) -> Draft<'a>
        ensures { layout_of result ≡ once_more (layout_of self.entry) }
    {
        let mut more = Draft::behind(self.found, alloc);
        more.places_known = !self.lacks_places;
        more.turned = self.turned;
        more.turns_all = self.turns_all;
        more
    }

    /// No lines yet, in the second pass, behind a first one that ended so.
    pub fn again(self, alloc: Global) -> Draft<'a>
        ensures { layout_of result ≡ second_pass (layout_of self.entry) }
    {
        let data_from = self.data_begin();
        let bss_from = self.bss_begin();
        let mut again = Draft::behind(self.found, alloc);
        again.known = true;
        again.places_known = true;
        again.distances_known = true;
        again.data_from = data_from;
        again.bss_from = bss_from;
        again.data_step = self.data_step;
        again.bss_step = self.bss_step;
        again.turned = self.turned;
        again.turns_all = self.turns_all;
        again
    }

    /// No lines yet, in a pass that measures distances, behind a first one that ended so.
    pub fn to_measure(self, alloc: Global) -> Draft<'a>
        ensures { layout_of result ≡ measuring_pass (layout_of self.entry) }
    {
        let mut measuring = self.again(alloc);
        measuring.distances_known = false;
        measuring
    }

    /// No lines yet, in the pass that lays the text, behind one that measured the distances.
    pub fn to_lay(self, alloc: Global) -> Draft<'a>
        ensures { layout_of result ≡ laying_pass (layout_of self.entry) }
    {
        let mut laying = Draft::behind(self.sources, alloc);
        laying.known = true;
        laying.places_known = true;
        laying.distances_known = true;
        laying.data_from = self.data_from;
        laying.bss_from = self.bss_from;
        laying.data_step = self.data_step;
        laying.bss_step = self.bss_step;
        laying.distances = self.distances;
        laying.turned = self.turned;
        laying.turns_all = self.turns_all;
        laying
    }

    // No lines yet, in a first pass behind one that found these texts.
    fn behind(sources: Vec<SourceTables<'a>>, alloc: Global) -> Draft<'a>
        ensures layout { layout_of result ≡ empty (map source_of sources.entry.items) false 0 0 }
        ensures fresh { source_of result.source_read ≡ no_source }
    {
        Draft {
            alloc,
            version: None,
            limit: MOST_WORDS,
            read_only: 0,
            start: None,
            registers: [0; 31],
            entries: Vec::new(alloc),
            text: Vec::new(alloc),
            rodata: Area::new(alloc),
            data: Area::new(alloc),
            bss: Area::new(alloc),
            data_step: 4,
            bss_step: 4,
            section: Section::Text,
            next: Next::Line,
            number: 0,
            source_read: SourceTables::new(alloc),
            found: Vec::new(alloc),
            known: false,
            data_from: 0,
            bss_from: 0,
            sources,
            places_known: false,
            lacks_names: false,
            lacks_places: false,
            passed: 0,
            distances: HashMap::new(alloc),
            has_distances: false,
            distances_known: false,
            turned: HashMap::new(alloc),
            turns_all: false,
            grew: false,
        }
    }

    /// What is read next.
    pub fn next(&self) -> Next
        ensures { result ≡ (layout_of self.now).next }
    {
        self.next
    }

    pub(crate) fn size(&self) -> u32
        ensures { result ≡ size (layout_of self.now) }
    {
        self.size_in(self.section)
    }

    pub(crate) fn size_in(&self, section: Section) -> u32
        ensures { result ≡ size_in section (layout_of self.now) }
    {
        match section {
            Section::Text => 4 * self.text.len() as u32,
            Section::Rodata => self.rodata.size(),
            Section::Data => self.data.size(),
            Section::Bss => self.bss.size(),
        }
    }

    pub(crate) fn base(&self, section: Section) -> u32
        ensures { result ≡ base section (layout_of self.now) }
    {
        match section {
            Section::Text => 0,
            Section::Rodata => DATA_START,
            Section::Data => DATA_START + self.data_from,
            Section::Bss => DATA_START + self.bss_from,
        }
    }

    pub(crate) fn place(&self, spot: Spot) -> u32
        ensures { result ≡ place (layout_of self.now) spot }
    {
        self.base(spot.section).wrapping_add(spot.offset)
    }

    /// The place of what comes next.
    pub fn spot_here(&self) -> Spot
        ensures { result ≡ spot_here (layout_of self.now) }
    {
        Spot {
            section: self.section,
            offset: self.size(),
        }
    }

    /// The byte address of what comes next.
    pub fn here(&self) -> u32
        ensures { result ≡ here (layout_of self.now) }
    {
        self.place(self.spot_here())
    }

    /// Whether this pass has noted a branch that doesn't reach its target, and that is turned in the next round.
    pub fn grew(&self) -> bool
        ensures { result ≡ (layout_of self.now).grew }
    {
        self.grew
    }

    /// Whether this pass lacks what one more may find: it has set a name, or begun a text, where isn't known yet.
    pub fn lacks(&self) -> bool
        ensures { result ≡ lacks (layout_of self.now) }
    {
        self.lacks_names || self.lacks_places
    }

    /// Whether this pass has met a `%pcrel_hi`, of which a `%pcrel_lo` further up may want the distance.
    pub fn has_distances(&self) -> bool
        ensures { result ≡ (layout_of self.now).has_distances }
    {
        self.has_distances
    }

    /// Whether a branch is turned: it is the opposite branch over a jump. It is known by how many bytes of the text are
    /// left from its target on.
    pub fn is_turned(&self, left: usize) -> bool
        ensures { result ≡ is_turned (layout_of self.now) left }
    {
        self.turns_all || self.turned.get(&left).is_some()
    }

    /// Whether a name stands for what another text has, or a weak one: then a branch to it is turned. Only the second
    /// pass knows that.
    pub fn is_foreign(&self, name: &[u8]) -> bool
        ensures { result ≡ is_foreign (layout_of self.now) name.now }
    {
        self.known
            && shared_spot(&self.sources, name).is_some()
            && self.source().own_spot(name).is_none()
    }

    // The text that is read: with all its names where all are known, and else with those so far.
    pub(crate) fn source(&self) -> &SourceTables<'a>
        ensures { source_of result.now ≡ (layout_of self.now).source }
    {
        if !self.known {
            return &self.source_read;
        }
        self.sources.get(self.number).unwrap_or(&self.source_read)
    }

    /// Whether all names of the program are known, as they are in the second pass.
    pub fn is_known(&self) -> bool
        ensures { result ≡ (layout_of self.now).known }
    {
        self.known
    }

    /// Adds what a line says, which is about this name if it is a label or sets a symbol.
    ///
    /// Errors: why it may not stand there, or [`Refusal::Memory`]. The draft may then hold a part of it.
    pub fn take(&mut self, name: &'a [u8], statement: Statement) -> Result<(), Refusal>
        ensures ok { OnOk result (after name.now statement (layout_of self.old) ≡ Some (layout_of self.new)) }
        ensures err { IfErr result (λ e. Refuses e (after name.now statement (layout_of self.old))) }
    {
        match statement {
            Statement::Nothing => {}
            Statement::Label => return self.set_symbol(name, self.spot_here()),
            Statement::Instruction(word) => return self.push_instruction(word),
            Statement::Version(version) => return self.set_version(version),
            Statement::ReadOnly => return self.set_read_only(),
            Statement::Entry(limit) => return self.push_entry(limit),
            Statement::Start(start) => self.start = Some(start),
            Statement::Limit(limit) => return self.set_limit(limit),
            Statement::Register(register, value) => return self.set_register(register, value),
            Statement::Section(section) => {
                self.section = section;
                self.next = Next::Line;
            }
            Statement::Fill(count, size, value) => return self.push_fill(count, size, value),
            Statement::Align(step) => return self.align(step),
            Statement::Open(next) => self.next = next,
            Statement::Value(width, value, next) => {
                self.push_value(width, value)?;
                self.next = next;
            }
            Statement::Long(low, high, next) => {
                self.push_value(Width::Word, low)?;
                self.push_value(Width::Word, high)?;
                self.next = next;
            }
            Statement::Symbol(spot) => {
                self.set_name(name, spot)?;
                self.next = Next::Line;
            }
            Statement::Common(count, step) => {
                return self.push_common(name, Binding::Common(count, step), count, step);
            }
            Statement::LocalCommon(count, step) => {
                return self.push_common(name, Binding::Local, count, step);
            }
            Statement::Pair(first, second) => {
                self.push_instruction(first)?;
                self.push_instruction(second)?;
            }
            Statement::Turned(left) => return self.turn(left),
            Statement::Bound(linkage, next) => {
                self.bind(name, linkage_binding(linkage))?;
                self.next = next;
            }
            Statement::NextText => return self.begin_text(),
            Statement::Local(number) => return self.take_local(number),
            Statement::Relative(word, distance) => return self.push_relative(word, distance),
        }
        Ok(())
    }
}
