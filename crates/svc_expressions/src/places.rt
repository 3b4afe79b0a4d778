// What names stand for where a value stands: labels, local labels and the address of what comes next.

ghost use Rattle.std.specs.Prelude.{◌≡◌, ◌-◌, ◌≤◌};
ghost use Rattle.std.specs.List.{take_while};
ghost use Rattle.svc_draft.specs.Drafts.{layout_of};
ghost use Rattle.svc_tokens.specs.Characters.{past};
ghost use Rattle.svc_expressions.specs.Places.{is_decimal, reference_named, reference_address, place_of};

use svc_draft::Draft;
use svc_tokens::{Radix, is_word, value_of};

/// A local label.
#[derive(Clone, Copy)]
pub enum Reference {
    /// The last one of this number before here: `1b`.
    Back(u32),
    /// The next one of this number: `1f`.
    Ahead(u32),
}

#[tactic(auto, unfolding(svc_tokens::specs::Characters::past))]
fn skip_digits(text: &[u8]) -> &[u8]
    ensures { result.now ≡ past is_decimal text.now }
{
    let mut rest = text;
    while let [first, after @ ..] = rest {
        if !matches!(*first, b'0'..=b'9') {
            return rest;
        }
        rest = after;
    }
    rest
}

// The digits that a name begins with, and what follows them.
#[tactic(auto, using(svc_tokens::proofs::Past::past_within, svc_tokens::proofs::Past::front_of_past))]
fn split_digits(name: &[u8]) -> (&[u8], &[u8])
    ensures digits { result.0.now ≡ take_while is_decimal name.now }
    ensures rest { result.1.now ≡ past is_decimal name.now }
{
    let rest = skip_digits(name);
    let (digits, _) = name.split_at(name.len() - rest.len());
    (digits, rest)
}

#[tactic(auto, unfolding(crate::specs::Places::reference_named))]
pub fn reference_named(name: &[u8]) -> Option<Reference>
    ensures { result ≡ reference_named name.now }
{
    let (digits, letter) = split_digits(name);
    if is_word(letter, "b") {
        return Some(Reference::Back(value_of(Radix::Decimal, digits)?));
    }
    if is_word(letter, "f") {
        return Some(Reference::Ahead(value_of(Radix::Decimal, digits)?));
    }
    None
}

pub fn reference_address(draft: &Draft, reference: Reference) -> Option<u32>
    ensures { result ≡ reference_address (layout_of draft.now) reference }
{
    match reference {
        Reference::Back(number) => draft.address_back(number),
        Reference::Ahead(number) => draft.address_ahead(number),
    }
}

/// What a name stands for: an address, where it is a dot or a label that is known here.
#[tactic(auto, unfolding(crate::specs::Places::place_of))]
pub fn place_of(draft: &Draft, name: &[u8]) -> Option<u32>
    ensures { result ≡ place_of (layout_of draft.now) name.now }
{
    if is_word(name, ".") {
        return Some(draft.here());
    }
    if let Some(reference) = reference_named(name) {
        return reference_address(draft, reference);
    }
    draft.address_of(name)
}
