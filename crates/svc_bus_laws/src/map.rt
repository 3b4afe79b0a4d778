// The versioned map alone.

ghost use Rattle.svc_bus_laws.specs.MapLaws.{CommittedView, NearestView, VictimIs, IsTheVictim, NoVictim, WalkFinds};
ghost use Rattle.svc_bus_laws.specs.MapLaws.{WalkStops, WalkEnds, WalkIs, ViewByRows, VictimByRows, ReadByRows};
ghost use Rattle.svc_bus_laws.specs.MapLaws.{WriteByRows, CommitByRows};

/// A task reads the version of the latest task not after it that has one, otherwise the committed value.
pub fn view_law()
    ensures committed { CommittedView }
    ensures nearest { NearestView }
{}

/// The victim of a write is the earliest later task that read the word before it wrote it, with no version in between.
pub fn victim_law()
    ensures found { VictimIs }
    ensures only { IsTheVictim }
    ensures none { NoVictim }
{}

/// A walk over the later tasks, in order, finds the victim. It ends at the first that exposed the word, which is the
/// victim, or at the first that only stored to it; then there is none.
pub fn walk_law()
    ensures finds { WalkFinds }
    ensures stops { WalkStops }
    ensures ends { WalkEnds }
    ensures whole { WalkIs }
{}

/// The view, the victim and the steps by recursion on the rows are those of the map. (A beginning and a squash are
/// stated the same way in both forms.)
pub fn rows_law()
    ensures view { ViewByRows }
    ensures victim { VictimByRows }
    ensures read { ReadByRows }
    ensures write { WriteByRows }
    ensures commit { CommitByRows }
{}
