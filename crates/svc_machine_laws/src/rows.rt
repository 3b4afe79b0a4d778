// Worked rows of the definitions.

ghost use Rattle.std.specs.Prelude.{◌≡◌, ◌≢◌, ◌-◌, ◌^◌, ℕ, [], ◌∷◌, Some, None};
ghost use Rattle.svc_base.specs.declared.config.Config.{Config};
ghost use Rattle.svc_image.specs.Image.{Image};
ghost use Rattle.svc_core_laws.specs.Words.{program};
ghost use Rattle.svc_machine_laws.specs.PlainMachine as plain;
ghost use Rattle.svc_machine_laws.specs.PlainMachine.{plain_opening};
ghost use Rattle.svc_machine_laws.specs.Events.{Assign};
ghost use Rattle.svc_machine_laws.specs.Guess.{entry_after, guess};
ghost use Rattle.svc_machine_laws.specs.Standing.{opened_at, refusal_of};

/// Before any event the guess is the image's start. The first assignment, to unit 0 at any guess, is accepted unless
/// all epochs were given, and after it the guess is the entry after the start. Of entries at 0 and 12, the one after 0
/// is 12, and the one after 12 is 0.
pub fn first_assignment()
    ensures opening { (img : Image) → (first : ℕ) → guess (program img) img.entries (plain_opening first)
        ≡ Some img.start }
    ensures accepted { (img : Image) → (config : Config) → (first choice : ℕ) → first ≢ 2 ^ 64 - 1
        → refusal_of img config (opened_at img config first) (Assign 0 choice) ≡ None }
    ensures guess { (img : Image) → (first unit choice : ℕ)
        → guess (program img) img.entries (plain.assign (program img) (plain_opening first) unit choice)
        ≡ Some (entry_after img.entries img.start) }
    ensures next { entry_after (0 ∷ 12 ∷ []) 0 ≡ 12 }
    ensures wraps { entry_after (0 ∷ 12 ∷ []) 12 ≡ 0 }
{}
