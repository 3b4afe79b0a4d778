// Closed lists of keys that stand for standings up to names of units.

ghost use Rattle.svc_renaming_laws.specs.ClosedUpToNames.{RenamedFutures, RenamedKeys, ChosenNamesTell};
ghost use Rattle.svc_renaming_laws.specs.ClosedUpToNames.{ClosedUpToNamesLaw};

/// Standings with the same future, or one key, have it still when the units of both are renamed. Keys by names that are
/// chosen for each standing, in any way, tell standings apart up to names. Where keys that do so are closed under the
/// moves of all units, every play shows only what was found at them.
pub fn closed_up_to_names_law<K>()
    ensures futures { RenamedFutures }
    ensures keys { RenamedKeys }
    ensures chosen { ChosenNamesTell K }
    ensures closed { ClosedUpToNamesLaw K }
{}
