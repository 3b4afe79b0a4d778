// The whole machine and the plain machine, for every program.

ghost use Rattle.std.specs.Prelude.{◌≡◌, ℕ, Option, Some, is_some, slice_get};
ghost use Rattle.svc_core_laws.specs.Program.{Program, IsProgram, Want, seq};
ghost use Rattle.svc_machine_laws.specs.PlainMachine as plain;
ghost use Rattle.svc_machine_laws.specs.PlainMachine.{Plain, Task, IsDue};
ghost use Rattle.svc_machine_laws.specs.WholeMachine as whole;
ghost use Rattle.svc_machine_laws.specs.WholeMachine.{machine_of};
ghost use Rattle.svc_machine_laws.specs.MachineLaws.{Taken, HasEnded, IsAnew};

/// Each step of the whole machine, which runs nothing again, is what the plain machine says: an assignment; a submit
/// whose turns are the next ones of the task, with its victim; the check of the guess after it; a replacement; a
/// cancel; and the commit of a head that is due and has ended.
pub fn machine_steps<C>()
    ensures assign { (p : Program C) → (s : Plain) → (unit guess : ℕ)
        → machine_of p (plain.assign p s unit guess) ≡ whole.assign p (machine_of p s) unit guess }
    ensures submit { (p : Program C) → (s : Plain) → (place local : ℕ) → (end : C) → (ask : Option (Want C))
        → Taken p s place local end ask → machine_of p (plain.submit p s place local (is_some ask))
        ≡ whole.submit (machine_of p s) place end ask }
    ensures check { (p : Program C) → (s : Plain) → (place : ℕ)
        → machine_of p (plain.check p s place) ≡ whole.check p (machine_of p s) place }
    ensures replace { (p : Program C) → (s : Plain) → machine_of p (plain.replace s) ≡ whole.replace (machine_of p s) }
    ensures cancel { (p : Program C) → (s : Plain) → (place : ℕ)
        → machine_of p (plain.cancel s place) ≡ whole.cancel (machine_of p s) place }
    ensures commit { (p : Program C) → IsProgram p → (s : Plain) → IsDue (seq p s.commits).due s.tasks → HasEnded p s
        → machine_of p (plain.commit p s) ≡ whole.commit p (machine_of p s) }
{}

/// Each active task's core and waiting output are its part's, run again on the memory that the tasks before it leave.
/// Its versions are the words that the part wrote, with their values; its exposed words, unless it is the head, are the
/// part's; and it reads that memory, under what it wrote itself.
pub fn task_anew<C>()
    ensures { (p : Program C) → (s : Plain) → (place : ℕ) → (t : Task) → slice_get s.tasks place ≡ Some t
        → IsAnew p s place t }
{}
