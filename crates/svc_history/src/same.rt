// Whether two entries are equal, field by field.

ghost use Rattle.std.specs.Prelude.{◌≡◌, ◌↔◌, IsTrue};
ghost use Rattle.svc_history.specs.Same.{HaveSameCut, HaveSameDeed, HaveSameEvent};

use svc_base::{UnitId, WordAddr};
use svc_history_laws::Entry;

fn same_unit(one: Option<UnitId>, other: Option<UnitId>) -> bool
    ensures { IsTrue result ↔ (one ≡ other) }
{
    match (one, other) {
        (Some(one), Some(other)) => one.0 == other.0,
        (None, None) => true,
        _ => false,
    }
}

fn same_word(one: Option<WordAddr>, other: Option<WordAddr>) -> bool
    ensures { IsTrue result ↔ (one ≡ other) }
{
    match (one, other) {
        (Some(one), Some(other)) => one.0 == other.0,
        (None, None) => true,
        _ => false,
    }
}

// The fields of the event are the same.
fn same_event(one: &Entry, other: &Entry) -> bool
    ensures { IsTrue result ↔ HaveSameEvent one.now other.now }
{
    one.kind == other.kind
        && one.unit.0 == other.unit.0
        && one.arg == other.arg
        && one.local == other.local
        && one.ask == other.ask
}

// The fields of what was done are the same.
fn same_deed(one: &Entry, other: &Entry) -> bool
    ensures { IsTrue result ↔ HaveSameDeed one.now other.now }
{
    one.reply == other.reply
        && same_word(one.addr, other.addr)
        && one.word == other.word
        && one.served == other.served
        && same_unit(one.from, other.from)
}

// The fields of the cut are the same.
fn same_cut(one: &Entry, other: &Entry) -> bool
    ensures { IsTrue result ↔ HaveSameCut one.now other.now }
{
    one.cause == other.cause && one.first == other.first && one.squashed == other.squashed
}

/// Whether each field of two entries is the same.
pub fn is_same(one: &Entry, other: &Entry) -> bool
    ensures { IsTrue result ↔ (one.now ≡ other.now) }
{
    same_event(one, other) && same_deed(one, other) && same_cut(one, other)
}
