// The texts of a program, of which each has names of its own and shares some with the others.

ghost use Rattle.std.specs.Prelude.{◌≡◌, ◌≤◌, map};
ghost use Rattle.svc_draft.specs.Drafts.{source_of};
ghost use Rattle.svc_layout.specs.Sources.{binding_with, binding_again, common_room, first_by, greater, greater_room};
ghost use Rattle.svc_layout.specs.Sources.{has_strength, linkage_binding, no_source, own_spot, shared_spot, spot_by};

use std::alloc::Global;
use std::collections::HashMap;
use svc_layout::{Binding, Linkage, Local, Spot, Steps, Strength};

/// What one text of a program has found, or has from the pass before.
#[derive(Drop)]
pub struct SourceTables<'a> {
    pub(crate) names: HashMap<&'a [u8], Spot>,
    pub(crate) bindings: HashMap<&'a [u8], Binding>,
    pub(crate) locals: Vec<Local>,
    pub(crate) steps: Steps,
}

pub(crate) fn linkage_binding(linkage: Linkage) -> Binding
    ensures { result ≡ linkage_binding linkage }
{
    match linkage {
        Linkage::Global => Binding::Global,
        Linkage::Weak => Binding::Weak,
        Linkage::Local => Binding::Local,
    }
}

fn binding_again(old: Binding, new: Binding) -> Binding
    ensures { result ≡ binding_again old new }
{
    match (old, new) {
        (Binding::Weak, Binding::Global | Binding::Common(_, _))
        | (Binding::Common(_, _), Binding::Global)
        | (Binding::Local, Binding::Common(_, _)) => old,
        _ => new,
    }
}

pub(crate) fn binding_with(old: Option<Binding>, new: Binding) -> Binding
    ensures { result ≡ binding_with old new }
{
    match old {
        None => new,
        Some(old) => binding_again(old, new),
    }
}

pub(crate) fn has_strength(how: Strength, binding: Option<Binding>) -> bool
    ensures { result ≡ has_strength how binding }
{
    matches!(
        (how, binding),
        (Strength::Strong, Some(Binding::Global))
            | (
                Strength::Yielding,
                Some(Binding::Weak | Binding::Common(_, _))
            )
    )
}

fn greater(m: u32, n: u32) -> u32
    ensures { result ≡ greater m n }
{
    if m < n { n } else { m }
}

fn greater_room(binding: Option<Binding>, room: (u32, u32)) -> (u32, u32)
    ensures { result ≡ greater_room binding room }
{
    match binding {
        Some(Binding::Common(count, step)) => (greater(room.0, count), greater(room.1, step)),
        _ => room,
    }
}

impl<'a> SourceTables<'a> {
    pub(crate) fn new(alloc: Global) -> SourceTables<'a>
        ensures { source_of result ≡ no_source }
    {
        SourceTables {
            names: HashMap::new(alloc),
            bindings: HashMap::new(alloc),
            locals: Vec::new(alloc),
            steps: Steps {
                text_step: 4,
                rodata_step: 1,
                data_step: 1,
                bss_step: 1,
            },
        }
    }

    pub(crate) fn binding_of(&self, name: &[u8]) -> Option<Binding>
        ensures { result ≡ (source_of self.now).bindings name.now }
    {
        self.bindings.get(name).copied()
    }

    pub(crate) fn spot_of(&self, name: &[u8]) -> Option<Spot>
        ensures { result ≡ (source_of self.now).names name.now }
    {
        self.names.get(name).copied()
    }

    fn spot_by(&self, how: Strength, name: &[u8]) -> Option<Spot>
        ensures { result ≡ spot_by how name.now (source_of self.now) }
    {
        if has_strength(how, self.binding_of(name)) {
            return self.spot_of(name);
        }
        None
    }

    /// What a name stands for in this text, where it doesn't yield to others.
    pub(crate) fn own_spot(&self, name: &[u8]) -> Option<Spot>
        ensures { result ≡ own_spot (source_of self.now) name.now }
    {
        if has_strength(Strength::Yielding, self.binding_of(name)) {
            return None;
        }
        self.spot_of(name)
    }
}

// The place of a name in the first of the texts that share it so.
#[tactic(auto, unfolding(svc_layout::specs::Sources::first_by))]
pub(crate) fn first_by(how: Strength, name: &[u8], texts: &[SourceTables<'_>]) -> Option<Spot>
    ensures { result ≡ first_by how name.now (map source_of texts.now) }
{
    for text in texts {
        if let Some(spot) = text.spot_by(how, name) {
            return Some(spot);
        }
    }
    None
}

// What a name stands for in other texts.
pub(crate) fn shared_spot(texts: &[SourceTables<'_>], name: &[u8]) -> Option<Spot>
    ensures { result ≡ shared_spot (map source_of texts.now) name.now }
{
    match first_by(Strength::Strong, name, texts) {
        Some(spot) => Some(spot),
        None => first_by(Strength::Yielding, name, texts),
    }
}

// The size and the step of zeros that texts share under a name.
#[tactic(auto, unfolding(svc_layout::specs::Sources::common_room))]
pub(crate) fn common_room(name: &[u8], texts: &[SourceTables<'_>], room: (u32, u32)) -> (u32, u32)
    ensures { result ≡ common_room name.now (map source_of texts.now) room }
{
    let mut greatest = room;
    for text in texts {
        greatest = greater_room(text.binding_of(name), greatest);
    }
    greatest
}
