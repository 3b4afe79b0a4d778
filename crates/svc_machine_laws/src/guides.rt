// What a sequencer keeps.

ghost use Rattle.std.specs.Prelude.{◌≡◌, ℕ, List, Bool, Some, length, slice_get};
ghost use Rattle.svc_base.specs.declared.config.Config.{Config};
ghost use Rattle.svc_image.specs.Image.{Image, IsImage};
ghost use Rattle.svc_core_laws.specs.Program.{Program, IsProgram, seq};
ghost use Rattle.svc_core_laws.specs.Words.{program};
ghost use Rattle.svc_machine_laws.specs.PlainMachine as plain;
ghost use Rattle.svc_machine_laws.specs.PlainMachine.{Plain, Running, IsDue, running, run_done, plain_opening};
ghost use Rattle.svc_machine_laws.specs.MachineLaws.{HasEnded};
ghost use Rattle.svc_machine_laws.specs.Guess.{guess, last_end, IsGuess};
ghost use Rattle.svc_machine_laws.specs.Guide.{guide_of, guess_of, guide_opened, guide_assigned, guide_cut};
ghost use Rattle.svc_machine_laws.specs.Guide.{guide_committed, guide_settled};
ghost use Rattle.svc_machine_laws.specs.Standing.{Standing};
ghost use Rattle.svc_machine_laws.specs.Reached.{IsReached};

/// What a sequencer keeps of the run follows the plain machine: at the opening, at an assignment, and where tasks are
/// cut, also after a wrong guess. At a commit it cuts the next tasks if the plain machine does, remembers the
/// successor, and drops the oldest task.
pub fn guide_steps<C>()
    ensures opening { (p : Program C) → (entries : List ℕ) → (first : ℕ)
        → guide_of p entries (plain_opening first) ≡ guide_opened entries p.first }
    ensures assign { (p : Program C) → (entries : List ℕ) → (s : Plain) → (unit guess : ℕ)
        → guide_of p entries (plain.assign p s unit guess) ≡ guide_assigned guess (guide_of p entries s) }
    ensures submit { (p : Program C) → (entries : List ℕ) → (s : Plain) → (place local : ℕ) → (ask : Bool)
        → guide_of p entries (plain.submit p s place local ask)
        ≡ guide_cut (length (plain.submit p s place local ask).tasks) (guide_of p entries s) }
    ensures check { (p : Program C) → (entries : List ℕ) → (s : Plain) → (place : ℕ)
        → guide_of p entries (plain.check p s place) ≡ guide_cut (length (plain.check p s place).tasks)
        (guide_of p entries s) }
    ensures replace { (p : Program C) → (entries : List ℕ) → (s : Plain)
        → guide_of p entries (plain.replace s) ≡ guide_of p entries s }
    ensures cancel { (p : Program C) → (entries : List ℕ) → (s : Plain) → (place : ℕ)
        → guide_of p entries (plain.cancel s place) ≡ guide_cut place (guide_of p entries s) }
    ensures commit { (p : Program C) → IsProgram p → (entries : List ℕ) → (s : Plain) → (x : Running C)
        → slice_get (running p s) 0 ≡ Some x → IsDue (seq p s.commits).due s.tasks → (done : HasEnded p s)
        → guide_of p entries (plain.commit p s)
        ≡ guide_committed done.end (guide_settled done.end (guide_of p entries s)) }
{}

/// The guess that a sequencer gives, knowing how the youngest active task has ended, is the one read off the sequential
/// run.
pub fn guess_is_guided()
    ensures { (img : Image) → (config : Config) → (s : Standing) → IsReached img config s
        → guess_of (last_end (run_done (program img)) (running (program img) s.plain))
        (guide_of (program img) img.entries s.plain) ≡ guess (program img) img.entries s.plain }
{}

/// Once the run has stopped there is no guess; until then there is one, and it is an entry.
pub fn guess_is_entry()
    ensures { (img : Image) → IsImage img → (config : Config) → (s : Standing) → IsReached img config s
        → IsGuess img s.plain }
{}
