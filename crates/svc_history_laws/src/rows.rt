// Worked rows of the definitions.

ghost use Rattle.std.specs.Prelude.{◌≡◌, ◌∷◌, []};
ghost use Rattle.svc_core_laws.specs.Program.{Emitted, Loaded, Replaced};
ghost use Rattle.svc_history_laws.specs.Board.{board};
ghost use Rattle.svc_history_laws.specs.Rows.{assignment_of, loading, putting_out, storing_part};
ghost use Rattle.svc_history_laws.specs.Stories.{story};

/// Unit 1 loads, is assigned again, loads word 5 as 7, stores a part of it, which makes 8, and outputs 3; between these
/// unit 0 is assigned and loads. The story of unit 1 is its last three, the newest first; that of unit 0 is its load;
/// that of unit 2 is empty. Of seven events two are assignments.
pub fn story_of_two_units()
    ensures first { story 1 (loading 1 4 9 ∷ assignment_of 1 ∷ loading 1 5 7 ∷ assignment_of 0 ∷ loading 0 6 2
        ∷ storing_part 1 5 8 ∷ putting_out 1 3 ∷ []) ≡ Emitted 3 ∷ Replaced 5 8 ∷ Loaded 5 7 ∷ [] }
    ensures second { story 0 (loading 1 4 9 ∷ assignment_of 1 ∷ loading 1 5 7 ∷ assignment_of 0 ∷ loading 0 6 2
        ∷ storing_part 1 5 8 ∷ putting_out 1 3 ∷ []) ≡ Loaded 6 2 ∷ [] }
    ensures third { story 2 (loading 1 4 9 ∷ assignment_of 1 ∷ loading 1 5 7 ∷ assignment_of 0 ∷ loading 0 6 2
        ∷ storing_part 1 5 8 ∷ putting_out 1 3 ∷ []) ≡ [] }
    ensures events { (board (loading 1 4 9 ∷ assignment_of 1 ∷ loading 1 5 7 ∷ assignment_of 0 ∷ loading 0 6 2
        ∷ storing_part 1 5 8 ∷ putting_out 1 3 ∷ [])).events ≡ 7 }
    ensures assigned { (board (loading 1 4 9 ∷ assignment_of 1 ∷ loading 1 5 7 ∷ assignment_of 0 ∷ loading 0 6 2
        ∷ storing_part 1 5 8 ∷ putting_out 1 3 ∷ [])).assigned ≡ 2 }
{}
