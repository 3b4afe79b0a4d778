// Laws of the sequential program: each function's contract is its law, and its body is empty.

ghost use Rattle.std.specs.Prelude.{◌≡◌, ◌≢◌, ℕ, ◌+◌, ◌*◌, ◌<◌, ◌≤◌, true, List, []};
ghost use Rattle.std.specs.Prelude.{Some, is_some, length, slice_index};
ghost use Rattle.svc_image.specs.Image.{Image, IsImage, is_entry};
ghost use Rattle.svc_core_laws.specs.declared.end.End.{End};
ghost use Rattle.svc_core_laws.specs.State.{State};
ghost use Rattle.svc_core_laws.specs.Bytes.{IsMemory, number_at, word_at, with_bytes, bytes_from, word_with_bytes};
ghost use Rattle.svc_core_laws.specs.Bytes.{bytes_of};
ghost use Rattle.svc_core_laws.specs.Turns.{data_words, plain, then_plain};
ghost use Rattle.svc_core_laws.specs.Program.{Program, IsProgram, Memory, part, turn, seq, exposed_words, wrote, act};
ghost use Rattle.svc_core_laws.specs.Program.{output};
ghost use Rattle.svc_core_laws.specs.Program as want;
ghost use Rattle.svc_core_laws.specs.Words.{program, wants};
ghost use Rattle.svc_core_laws.specs.Sequence.{plain_part, plain_task, plain_seq, IsSame, IsSamePart, IsSameSeq};
ghost use Rattle.svc_core_laws.specs.Bursts.{Advance, IsAdvance};

/// If two memories agree on a part's exposed words, the part does the same on both: it gives the same core and the same
/// actions, so the same output, exposed words, and written words with their values.
pub fn same_part<C>()
    ensures { (p : Program C) → (entry turns : ℕ) → (m other : Memory)
        → ((a : ℕ) → exposed_words (part p entry turns m).log a ≡ true → m a ≡ other a)
        → part p entry turns m ≡ part p entry turns other }
{}

/// The same on flat memories of bytes: if two of them agree on the words that a part reads before it writes them, the
/// part leaves the same core, output and written words on both.
pub fn same_plain_part()
    ensures { (img : Image) → (entry turns : ℕ) → (m other : List ℕ)
        → IsMemory (data_words img) m → IsMemory (data_words img) other
        → ((a : ℕ) → exposed_words (part (program img) entry turns (word_at m)).log a ≡ true
        → word_at m a ≡ word_at other a)
        → IsSamePart (wrote (part (program img) entry turns (word_at m)).log)
        (plain_part img entry turns m) (plain_part img entry turns other) }
{}

/// A task that has ended stays as it is.
pub fn ended_task_stays()
    ensures bytes { (img : Image) → (s : State) → (m : List ℕ) → (end : End) → s.done ≡ Some end
        → plain img s m ≡ record { core = s; memory = m; output = [] } }
    ensures words { (img : Image) → (s : State) → (end : End) → s.done ≡ Some end → wants img s ≡ want.Local s }
{}

/// Each task has ended after one turn more than its limit. The other properties of a program hold too: its ended tasks
/// stay as they are, and a task hands on only at an entry.
pub fn every_task_ends()
    ensures words { (img : Image) → IsProgram (program img) }
    ensures bytes { (img : Image) → (entry : ℕ) → (m : List ℕ) → IsMemory (data_words img) m
        → is_some (plain_task img entry m).core.done ≡ true }
{}

/// One turn more of a part is one turn after the part.
pub fn one_turn_more()
    ensures bytes { (img : Image) → (entry n : ℕ) → (m : List ℕ)
        → plain_part img entry (n + 1) m ≡ then_plain img (plain_part img entry n m) }
    ensures words { (img : Image) → (entry n : ℕ) → (m : Memory)
        → part (program img) entry (n + 1) m ≡ turn (program img) (part (program img) entry n m) m }
{}

/// A load of n bytes from byte o of word a is an extraction from that word; a store there replaces bytes of that word,
/// and leaves every other word.
pub fn bytes_of_a_word()
    ensures load { (o n r a : ℕ) → (m : List ℕ) → o + (n + r) ≡ 4 → ((i : ℕ) → slice_index m i < 256)
        → number_at n (4 * a + o) m ≡ bytes_from o n (word_at m a) }
    ensures store { (o n r a v : ℕ) → (m : List ℕ) → o + (n + r) ≡ 4 → ((i : ℕ) → slice_index m i < 256)
        → 4 * a + 4 ≤ length m → word_at (with_bytes n (4 * a + o) v m) a ≡ word_with_bytes o n v (word_at m a) }
    ensures elsewhere { (o n r a b v : ℕ) → (m : List ℕ) → o + (n + r) ≡ 4 → b ≢ a
        → word_at (with_bytes n (4 * a + o) v m) b ≡ word_at m b }
{}

/// The turn by bytes is the turn by words, and so is each part of a task.
pub fn turns_on_words()
    ensures turn { (img : Image) → (s : State) → (m : List ℕ) → IsMemory (data_words img) m
        → IsSame img (word_at m) (plain img s m) (act (wants img s) (word_at m) []) }
    ensures part { (img : Image) → (entry n : ℕ) → (m : List ℕ) → IsMemory (data_words img) m
        → IsSame img (word_at m) (plain_part img entry n m) (part (program img) entry n (word_at m)) }
{}

/// The flat memory of an image's data has the image's words, and the sequential run on it is the run on
/// these words: each word of its memory, the output, the due entry and the end that stopped it.
pub fn sequence_on_words()
    ensures data_words { (img : Image) → IsImage img → (a : ℕ)
        → word_at (bytes_of img.words) a ≡ slice_index img.words a }
    ensures run { (img : Image) → IsImage img → (k : ℕ) → IsSameSeq img (plain_seq img k) (seq (program img) k) }
{}

/// The due entry of a sequential run is an entry of the image.
pub fn due_is_entry()
    ensures { (img : Image) → IsImage img → (k entry : ℕ)
        → (seq (program img) k).due ≡ Some entry → is_entry img entry ≡ true }
{}

/// Advancing has one answer: two bursts that follow its rule from one core, with the same unit and epoch, are the same.
pub fn one_burst()
    ensures { (img : Image) → (max : ℕ) → (a b : Advance) → IsAdvance img max a → IsAdvance img max b
        → a.unit ≡ b.unit → a.epoch ≡ b.epoch → a.start ≡ b.start → a ≡ b }
{}

/// A core counts the words that its task has output.
pub fn words_are_counted()
    ensures { (img : Image) → (entry n : ℕ) → (m : Memory)
        → (part (program img) entry n m).core.emitted ≡ length (output (part (program img) entry n m).log) }
{}
