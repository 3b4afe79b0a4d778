// Names and local labels: what stands for what.

ghost use Rattle.std.specs.Prelude.{◌≡◌, IfErr, OnOk, Some, None, false, take, drop};
ghost use Rattle.svc_draft.specs.Drafts.{layout_of};
ghost use Rattle.svc_layout.specs.Refusals.{Refuses, Changes};
ghost use Rattle.svc_layout.specs.Places.{place};
ghost use Rattle.svc_layout.specs.Addresses.{last_local, first_local, address_of, address_back, address_ahead};
ghost use Rattle.svc_layout.specs.Addresses.{distance_from, known_spot, spot_before, own_address, spot_of};
ghost use Rattle.svc_layout.specs.Labels.{is_local, is_shared_twice, with_binding, with_local, with_name};
ghost use Rattle.svc_layout.specs.Labels.{with_name_again, with_passed, with_set, with_symbol};

use crate::draft::Draft;
use crate::sources::{binding_with, first_by, has_strength, shared_spot};
use svc_layout::{Binding, Local, Refusal, Spot, Strength};

/// The most local labels. Each is looked at for every name of one, so that few bound the time.
const MOST_LOCALS: usize = 4096;

impl<'a> Draft<'a> {
    // The place that the pass before found for a name of this text, where it found the places.
    fn spot_before(&self, name: &[u8]) -> Option<Spot>
        ensures { result ≡ spot_before (layout_of self.now) name.now }
    {
        if !self.places_known {
            return None;
        }
        self.sources.get(self.number)?.spot_of(name)
    }

    /// The place that a name stands for, where a line above has said it or the pass before found it.
    pub fn spot_of(&self, name: &[u8]) -> Option<Spot>
        ensures { result ≡ spot_of (layout_of self.now) name.now }
    {
        match self.source().spot_of(name) {
            Some(spot) => Some(spot),
            None => self.spot_before(name),
        }
    }

    fn known_spot(&self, name: &[u8]) -> Option<Spot>
        ensures { result ≡ known_spot (layout_of self.now) name.now }
    {
        match self.source().own_spot(name) {
            Some(spot) => Some(spot),
            None => shared_spot(&self.sources, name),
        }
    }

    /// The address that a name stands for. In the first pass any name may yet come to stand for one.
    pub fn address_of(&self, name: &[u8]) -> Option<u32>
        ensures { result ≡ address_of (layout_of self.now) name.now }
    {
        if !self.known {
            return Some(self.here());
        }
        Some(self.place(self.known_spot(name)?))
    }

    /// The address that the text which is read gives this name, where the name stands for that, and for no other's.
    pub fn own_address(&self, name: &[u8]) -> Option<u32>
        ensures { result ≡ own_address (layout_of self.now) name.now }
    {
        let own = self.place(self.source().spot_of(name)?);
        match self.address_of(name) {
            Some(address) if address == own => Some(own),
            _ => None,
        }
    }

    /// The address of the last local label of this number before here. In the first pass any may yet come to stand.
    pub fn address_back(&self, number: u32) -> Option<u32>
        ensures { result ≡ address_back (layout_of self.now) number }
    {
        if !self.known {
            return Some(self.here());
        }
        Some(self.place(last_local(number, front_of(&self.source().locals, self.passed))?))
    }

    /// The address of the next local label of this number behind here. In the first pass any may yet come to stand.
    pub fn address_ahead(&self, number: u32) -> Option<u32>
        ensures { result ≡ address_ahead (layout_of self.now) number }
    {
        if !self.known {
            return Some(self.here());
        }
        Some(self.place(first_local(number, rest_of(&self.source().locals, self.passed))?))
    }

    /// How far it is from the instruction with `%pcrel_hi` at this address to its value. Until all are
    /// measured, any may yet come to stand there.
    pub fn distance_from(&self, place: u32) -> Option<u32>
        ensures { result ≡ distance_from (layout_of self.now) place }
    {
        if !self.distances_known {
            return Some(0);
        }
        self.distances.get(&place).copied()
    }

    fn is_shared_twice(&self, name: &[u8]) -> bool
        ensures { result ≡ is_shared_twice (layout_of self.now) name.now }
    {
        if !has_strength(Strength::Strong, self.source().binding_of(name)) {
            return false;
        }
        first_by(Strength::Strong, name, self.texts_above()).is_some()
    }

    #[tactic(auto, unfolding(svc_layout::specs::Labels::with_name_again))]
    pub(crate) fn find_again(&self, name: &[u8], spot: Spot) -> Result<(), Refusal>
        ensures { Changes result (with_name_again name.now spot (layout_of self.now)) (layout_of self.now) }
    {
        let place = self.place(spot);
        match self.source().spot_of(name) {
            Some(found) if self.place(found) == place && !self.is_shared_twice(name) => Ok(()),
            _ => Err(Refusal::LabelTwice),
        }
    }

    #[tactic(auto, unfolding(svc_layout::specs::Labels::with_name))]
    pub(crate) fn find_name(&mut self, name: &'a [u8], spot: Spot) -> Result<(), Refusal>
        requires { self.old.known ≡ false }
        ensures { Changes result (with_name name.now spot (layout_of self.old)) (layout_of self.new) }
    {
        match self.source_read.names.insert(name, spot)? {
            Some(_) => Err(Refusal::LabelTwice),
            None => Ok(()),
        }
    }

    pub(crate) fn set_symbol(&mut self, name: &'a [u8], spot: Spot) -> Result<(), Refusal>
        ensures { Changes result (with_symbol name.now spot (layout_of self.old)) (layout_of self.new) }
    {
        if self.known {
            return self.find_again(name, spot);
        }
        self.find_name(name, spot)
    }

    pub(crate) fn set_name(&mut self, name: &'a [u8], spot: Option<Spot>) -> Result<(), Refusal>
        ensures ok { OnOk result (with_set name.now spot (layout_of self.old) ≡ Some (layout_of self.new)) }
        ensures err { IfErr result (λ e. Refuses e (with_set name.now spot (layout_of self.old))) }
    {
        match spot {
            Some(spot) => self.set_symbol(name, spot),
            None if self.known => Err(Refusal::LabelTwice),
            None => {
                self.lacks_names = true;
                Ok(())
            }
        }
    }

    #[tactic(auto, unfolding(svc_layout::specs::Labels::with_binding))]
    pub(crate) fn bind(&mut self, name: &'a [u8], binding: Binding) -> Result<(), Refusal>
        ensures { Changes result (with_binding name.now binding (layout_of self.old)) (layout_of self.new) }
    {
        if self.known {
            return Ok(());
        }
        let binding = binding_with(self.source_read.binding_of(name), binding);
        self.source_read.bindings.insert(name, binding)?;
        Ok(())
    }

    // Whether a local label has this number and stands here.
    fn is_local(&self, number: u32, local: Local) -> bool
        ensures { result ≡ is_local (layout_of self.now) number (Some local) }
    {
        local.number == number && self.place(local.spot) == self.here()
    }

    #[tactic(auto, unfolding(svc_layout::specs::Labels::with_passed))]
    pub(crate) fn pass_local(&mut self, number: u32) -> Result<(), Refusal>
        ensures { Changes result (with_passed number (layout_of self.old)) (layout_of self.new) }
    {
        match self.source().locals.get(self.passed).copied() {
            Some(local) if self.is_local(number, local) => {
                self.passed += 1;
                Ok(())
            }
            _ => Err(Refusal::LabelTwice),
        }
    }

    #[tactic(auto, unfolding(svc_layout::specs::Labels::with_local))]
    pub(crate) fn take_local(&mut self, number: u32) -> Result<(), Refusal>
        ensures { Changes result (with_local number (layout_of self.old)) (layout_of self.new) }
    {
        if self.known {
            return self.pass_local(number);
        }
        if self.source_read.locals.len() >= MOST_LOCALS {
            return Err(Refusal::FullLocals);
        }
        let spot = self.spot_here();
        self.source_read.locals.push(Local { number, spot })?;
        Ok(())
    }
}

fn front_of(locals: &[Local], count: usize) -> &[Local]
    ensures { result.now ≡ take count locals.now }
{
    locals.split_at(count.min(locals.len())).0
}

fn rest_of(locals: &[Local], count: usize) -> &[Local]
    ensures { result.now ≡ drop count locals.now }
{
    locals.split_at(count.min(locals.len())).1
}

#[tactic(auto, unfolding(svc_layout::specs::Addresses::last_local))]
fn last_local(number: u32, locals: &[Local]) -> Option<Spot>
    ensures { result ≡ last_local number None locals.now }
{
    let mut found = None;
    for local in locals {
        if local.number == number {
            found = Some(local.spot);
        }
    }
    found
}

#[tactic(auto, unfolding(svc_layout::specs::Addresses::first_local))]
fn first_local(number: u32, locals: &[Local]) -> Option<Spot>
    ensures { result ≡ first_local number locals.now }
{
    for local in locals {
        if local.number == number {
            return Some(local.spot);
        }
    }
    None
}
