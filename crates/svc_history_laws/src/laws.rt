// The laws of legal histories.

ghost use Rattle.std.specs.Prelude.{◌≡◌, ◌<◌, ℕ, List, Some, slice_get, take};
ghost use Rattle.svc_base.specs.declared.config.Config.{Config};
ghost use Rattle.svc_image.specs.Image.{Image, IsImage};
ghost use Rattle.svc_machine_laws.specs.Standing.{Standing};
ghost use Rattle.svc_history_laws.specs.declared.entry.CutKind.TheVariants.{Violation};
ghost use Rattle.svc_history_laws.specs.declared.entry.Entry.{Entry};
ghost use Rattle.svc_history_laws.specs.declared.entry.Kind.TheVariants.{Commit};
ghost use Rattle.svc_history_laws.specs.Board.{IsInOrder, board};
ghost use Rattle.svc_history_laws.specs.Causes.{IsBlamed, IsCaused};
ghost use Rattle.svc_history_laws.specs.Histories.{HasEvent, LeadsOn};
ghost use Rattle.svc_history_laws.specs.Legal.{LegalEntry, LegalHistory, led_to};
ghost use Rattle.svc_history_laws.specs.Stories.{HasCommit, IsAnswered};

/// Every legal entry names an event that isn't refused there; it is that event's entry, and leads where the event does.
/// A submit's event is the burst that its unit's lease makes of that many turns.
pub fn entry_has_event()
    ensures { (img : Image) → IsImage img → (config : Config) → (s : Standing) → (e : Entry)
        → LegalEntry img config s e → HasEvent img config s e }
{}

/// A legal history leads to a standing that events lead to, with all that holds of these; there as many tasks were
/// committed as it has commits, and as many events accepted as it has entries.
pub fn history_leads_on()
    ensures { (img : Image) → IsImage img → (config : Config) → (es : List Entry) → LegalHistory img config es
        → LeadsOn img config es }
{}

/// The numbers of a legal history are in order: committed and squashed tasks together are no more than were assigned,
/// and these are no more than its entries.
pub fn numbers_are_in_order()
    ensures { (img : Image) → IsImage img → (config : Config) → (es : List Entry) → LegalHistory img config es
        → IsInOrder (board es) }
{}

/// Each cut of an entry has its blame. A violation: the entry's own store of its word, and the victim of that store. A
/// wrong guess: the commit after which the run stops or another entry is due, or the submit that ended its unit's task,
/// if that ended the program or the next task had begun elsewhere. A cancel: its unit's task. The first task cut is
/// that one, and all that were active from it on are counted. An entry without a cause cuts nothing.
pub fn cuts_are_blamed()
    ensures { (img : Image) → IsImage img → (config : Config) → (es : List Entry) → LegalHistory img config es
        → (index : ℕ) → (e : Entry) → slice_get es index ≡ Some e
        → IsBlamed img (led_to img config (take index es)).plain e }
{}

/// Whatever a committed task was answered, even while earlier tasks still ran, is what the sequential run answers it,
/// in order; and each number below the count of committed tasks is that of a commit.
pub fn stories_are_sequential()
    ensures answers { (img : Image) → IsImage img → (config : Config) → (es : List Entry) → LegalHistory img config es
        → (index : ℕ) → (e : Entry) → slice_get es index ≡ Some e → e.kind ≡ Commit → IsAnswered img config es index e }
    ensures commits { (img : Image) → IsImage img → (config : Config) → (es : List Entry) → LegalHistory img config es
        → (number : ℕ) → number < (board es).committed → HasCommit es number }
{}

/// Each violation has its cause in the log: since its last assignment, the unit of the first task cut has an entry that
/// read the word, and not from its own line. If it was given a version, that version's task was not above the one that
/// stored.
pub fn violations_have_causes()
    ensures { (img : Image) → IsImage img → (config : Config) → (es : List Entry) → LegalHistory img config es
        → (index : ℕ) → (e : Entry) → slice_get es index ≡ Some e → e.cause ≡ Some Violation
        → IsCaused img config es index e }
{}
