// Words in fields.

ghost use Rattle.std.specs.Prelude.{◌≡◌, ℕ, List, Some, slice_get};
ghost use Rattle.svc_report.specs.Fields.{IsAny, Reads, kind_word, reply_word, served_word, cause_word, ask_word};
ghost use Rattle.svc_report.specs.Fields.{optional};

use svc_history_laws::{CutKind, Kind, ReplyKind, ServedKind};

/// What a column holds as one of a few words.
pub trait Word: Copy + 'static {
    // The word of each.
    ghost word: { Self → List ℕ };

    /// Each of them.
    fn all() -> &'static [Self]
        ensures { (x : Self) → (k : ℕ) × (slice_get result.now k ≡ Some x) };

    /// The word.
    fn text(self) -> &'static str
        ensures { result.now ≡ word self };
}

/// The word of a value that may not apply: empty if it doesn't.
pub(crate) fn text_or_none<W: Word>(value: Option<W>) -> &'static str
    ensures { result.now ≡ optional W.word value }
{
    match value {
        None => "",
        Some(value) => value.text(),
    }
}

/// The one whose word this is.
pub fn named<W: Word>(field: &[u8]) -> Option<W>
    ensures { Reads IsAny W.word field.now result }
{
    for word in W::all() {
        if word.text().as_bytes() == field {
            return Some(*word);
        }
    }
    None
}

/// The one whose word this is, or none if the field is empty.
pub(crate) fn named_or_none<W: Word>(field: &[u8]) -> Option<Option<W>>
    ensures { Reads IsAny (optional W.word) field.now result }
{
    if field.is_empty() {
        return Some(None);
    }
    match named(field) {
        Some(value) => Some(Some(value)),
        None => None,
    }
}

impl Word for Kind {
    ghost word = { kind_word };

    fn all() -> &'static [Kind] {
        &[
            Kind::Assign,
            Kind::Submit,
            Kind::Replace,
            Kind::Cancel,
            Kind::Commit,
        ]
    }

    fn text(self) -> &'static str {
        match self {
            Kind::Assign => "assign",
            Kind::Submit => "submit",
            Kind::Replace => "replace",
            Kind::Cancel => "cancel",
            Kind::Commit => "commit",
        }
    }
}

impl Word for ReplyKind {
    ghost word = { reply_word };

    fn all() -> &'static [ReplyKind] {
        &[
            ReplyKind::Assigned,
            ReplyKind::Ran,
            ReplyKind::Loaded,
            ReplyKind::Stored,
            ReplyKind::Emitted,
            ReplyKind::Trapped,
            ReplyKind::Replaced,
            ReplyKind::Cancelled,
            ReplyKind::Committed,
        ]
    }

    fn text(self) -> &'static str {
        match self {
            ReplyKind::Assigned => "assigned",
            ReplyKind::Ran => "ran",
            ReplyKind::Loaded => "loaded",
            ReplyKind::Stored => "stored",
            ReplyKind::Emitted => "emitted",
            ReplyKind::Trapped => "trapped",
            ReplyKind::Replaced => "replaced",
            ReplyKind::Cancelled => "cancelled",
            ReplyKind::Committed => "committed",
        }
    }
}

impl Word for ServedKind {
    ghost word = { served_word };

    fn all() -> &'static [ServedKind] {
        &[
            ServedKind::Hit,
            ServedKind::Reuse,
            ServedKind::Version,
            ServedKind::Spill,
            ServedKind::Committed,
            ServedKind::Memory,
        ]
    }

    fn text(self) -> &'static str {
        match self {
            ServedKind::Hit => "hit",
            ServedKind::Reuse => "reuse",
            ServedKind::Version => "version",
            ServedKind::Spill => "spill",
            ServedKind::Committed => "committed",
            ServedKind::Memory => "memory",
        }
    }
}

impl Word for CutKind {
    ghost word = { cause_word };

    fn all() -> &'static [CutKind] {
        &[CutKind::Violation, CutKind::Guess, CutKind::Cancel]
    }

    fn text(self) -> &'static str {
        match self {
            CutKind::Violation => "violation",
            CutKind::Guess => "guess",
            CutKind::Cancel => "cancel",
        }
    }
}

// Whether a burst ends with an ask.
impl Word for bool {
    ghost word = { ask_word };

    fn all() -> &'static [bool] {
        &[false, true]
    }

    fn text(self) -> &'static str {
        if self { "1" } else { "0" }
    }
}
