//! The histories of the ten events, and of the same program as one task.

use svc_base::{UnitId, WordAddr};
use svc_history_laws::{CutKind, Entry, Kind, ReplyKind, ServedKind};

// The entry of a commit that unit 0 asks for: none of the fields that only some entries have applies.
const COMMITTED: Entry = Entry {
    kind: Kind::Commit,
    unit: UnitId(0),
    arg: None,
    local: None,
    ask: None,
    reply: ReplyKind::Committed,
    addr: None,
    word: None,
    served: None,
    from: None,
    cause: None,
    first: None,
    squashed: None,
};

// An assignment to unit 0.
const ASSIGNED: Entry = Entry {
    kind: Kind::Assign,
    reply: ReplyKind::Assigned,
    ..COMMITTED
};

// Local turns that end unit 0's task.
const RAN: Entry = Entry {
    kind: Kind::Submit,
    local: Some(2),
    ask: Some(false),
    reply: ReplyKind::Ran,
    ..COMMITTED
};

// A load of word 0 by unit 0.
const LOADED: Entry = Entry {
    local: Some(1),
    ask: Some(true),
    reply: ReplyKind::Loaded,
    addr: Some(WordAddr(0)),
    ..RAN
};

// The store of unit 0's task.
const STORED: Entry = Entry {
    local: Some(2),
    reply: ReplyKind::Stored,
    word: Some(5),
    ..LOADED
};

// The output of unit 0's task.
const EMITTED: Entry = Entry {
    local: Some(1),
    ask: Some(true),
    reply: ReplyKind::Emitted,
    word: Some(5),
    ..RAN
};

/// The entries of the ten events.
pub const TEN_ENTRIES: [Entry; 10] = [
    Entry {
        arg: Some(0),
        word: Some(0),
        ..ASSIGNED
    },
    Entry {
        unit: UnitId(1),
        arg: Some(12),
        word: Some(12),
        ..ASSIGNED
    },
    Entry {
        unit: UnitId(1),
        word: Some(0),
        served: Some(ServedKind::Memory),
        ..LOADED
    },
    Entry {
        cause: Some(CutKind::Violation),
        first: Some(1),
        squashed: Some(1),
        ..STORED
    },
    Entry {
        word: Some(0),
        ..COMMITTED
    },
    Entry {
        unit: UnitId(1),
        arg: Some(0),
        word: Some(12),
        ..ASSIGNED
    },
    Entry {
        unit: UnitId(1),
        word: Some(5),
        served: Some(ServedKind::Committed),
        from: Some(UnitId(0)),
        ..LOADED
    },
    Entry {
        unit: UnitId(1),
        ..EMITTED
    },
    Entry {
        unit: UnitId(1),
        ..RAN
    },
    Entry {
        unit: UnitId(1),
        word: Some(1),
        ..COMMITTED
    },
];

/// The entries of unit 0, which runs the program as one task: its load is of what it has stored.
pub const SIX_ENTRIES: [Entry; 6] = [
    Entry {
        arg: Some(0),
        word: Some(0),
        ..ASSIGNED
    },
    STORED,
    Entry {
        word: Some(5),
        served: Some(ServedKind::Hit),
        ..LOADED
    },
    EMITTED,
    RAN,
    Entry {
        word: Some(0),
        ..COMMITTED
    },
];
