// One accepted event.

ghost use Rattle.std.specs.Prelude.{◌≡◌, ℕ, ◌+◌, ◌==◌, Option, Some, None, length};
ghost use Rattle.svc_base.specs.declared.config.Config.{Config};
ghost use Rattle.svc_image.specs.Image.{Image, IsImage};
ghost use Rattle.svc_core_laws.specs.declared.ask.Ask.{Ask};
ghost use Rattle.svc_core_laws.specs.State.{State};
ghost use Rattle.svc_core_laws.specs.Same.{same_state};
ghost use Rattle.svc_core_laws.specs.Bursts.{Advance, Follows};
ghost use Rattle.svc_core_laws.specs.Program.{Want};
ghost use Rattle.svc_core_laws.specs.Turns.{data_words};
ghost use Rattle.svc_core_laws.specs.Words.{program};
ghost use Rattle.svc_machine_laws.specs.declared.reply.Cut.{Cut};
ghost use Rattle.svc_machine_laws.specs.WholeMachine.{machine_of};
ghost use Rattle.svc_machine_laws.specs.Events.{Commit, Event, IsEvent, want_of, whole_event};
ghost use Rattle.svc_machine_laws.specs.LineEvents.{word_of};
ghost use Rattle.svc_machine_laws.specs.MachineLaws.{IsWithin};
ghost use Rattle.svc_machine_laws.specs.Refusals.{asked_word};
ghost use Rattle.svc_machine_laws.specs.Replies.{whole_reply};
ghost use Rattle.svc_machine_laws.specs.Standing.{Standing, refusal_of, standing_after, reply_to, after_event};
ghost use Rattle.svc_machine_laws.specs.Standing.{is_commit};
ghost use Rattle.svc_machine_laws.specs.Reached.{IsReached};
ghost use Rattle.svc_machine_laws.specs.Blame.{IsBlamed, tasks_cut, tasks_begun};
ghost use Rattle.svc_machine_laws.specs.Logs.{LogsFollow, TellsTheEnd};

/// An accepted event of the whole machine is the plain machine's, and so is the reply to it, with all
/// that it cuts.
pub fn accepted_event()
    ensures machine { (img : Image) → IsImage img → (config : Config) → (s : Standing) → IsReached img config s
        → (x : Event) → IsEvent x → refusal_of img config s x ≡ None
        → machine_of (program img) (standing_after img s x).plain
        ≡ whole_event img (machine_of (program img) s.plain) x }
    ensures reply { (img : Image) → IsImage img → (config : Config) → (s : Standing) → (x : Event) → IsEvent x
        → refusal_of img config s x ≡ None → whole_reply img (machine_of (program img) s.plain) s.lines x
        ≡ reply_to img s x }
{}

/// The word that an asked turn wants, for which a unit's cache must have room, is the one that the table of refusals
/// tests, and lies in the data.
pub fn asked_word_is_wanted()
    ensures word { (img : Image) → (s : State) → (ask : Ask) → (w : Want State) → want_of img s ask ≡ Some w
        → word_of w ≡ asked_word img ask }
    ensures inside { (img : Image) → (s : State) → (ask : Ask) → (w : Want State) → want_of img s ask ≡ Some w
        → IsWithin (data_words img) w }
{}

/// A burst ends at the core where it starts exactly when it has no local turn.
pub fn empty_burst_has_no_turn()
    ensures { (b : Advance) → Follows b → same_state b.end b.start ≡ (b.local == 0) }
{}

/// Each event, accepted or refused, keeps what holds of every standing that events lead to; so the line table is sound
/// and stands for the plain machine's versioned map.
pub fn event_keeps()
    ensures { (img : Image) → IsImage img → (config : Config) → (s : Standing) → IsReached img config s → (x : Event)
        → IsEvent x → IsReached img config (after_event img config s x) }
{}

/// Every cut of a reply has its blame.
pub fn cut_is_blamed()
    ensures { (img : Image) → IsImage img → (config : Config) → (s : Standing) → IsReached img config s → (x : Event)
        → IsEvent x → refusal_of img config s x ≡ None → (cut : Cut) → (reply_to img s x).cut ≡ Some cut
        → IsBlamed img s.plain x cut }
{}

/// Each task that was begun is committed, cut or active: the tasks after an accepted event, those that its reply counts
/// as cut, and the one that it commits are together the tasks before it and the one that it begins.
pub fn tasks_are_counted()
    ensures { (img : Image) → IsImage img → (config : Config) → (s : Standing) → (x : Event) → IsEvent x
        → refusal_of img config s x ≡ None
        → length (standing_after img s x).plain.tasks + tasks_cut (reply_to img s x).cut + is_commit x
        ≡ length s.plain.tasks + tasks_begun x }
{}

/// Each accepted event adds what it answers to the log of its task. The log of a head that is committed is the
/// sequential answers: whatever the task was answered, even while earlier tasks still ran, is what the sequential run
/// answers it, in order.
pub fn logs_follow()
    ensures { (img : Image) → IsImage img → (config : Config) → (s : Standing) → IsReached img config s → (x : Event)
        → IsEvent x → refusal_of img config s x ≡ None
        → LogsFollow (program img) s.plain (standing_after img s x).plain x (reply_to img s x).what }
{}

/// An accepted commit answers the number of the committed task, which is how many tasks were committed before it, and
/// how that task ends in the sequential order.
pub fn commit_tells_the_end()
    ensures { (img : Image) → IsImage img → (config : Config) → (s : Standing) → IsReached img config s → (by : ℕ)
        → refusal_of img config s (Commit by) ≡ None
        → TellsTheEnd (program img) s.plain.commits (reply_to img s (Commit by)).what }
{}
