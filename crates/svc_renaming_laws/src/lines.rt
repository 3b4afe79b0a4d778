// Line tables whose units are renamed.

ghost use Rattle.svc_renaming_laws.specs.LineLaws.{RenamedSound, RenamedMap, RenamedNewest, RenamedSuppliers};
ghost use Rattle.svc_renaming_laws.specs.LineLaws.{RenamedReads, RenamedWrites, RenamedReplacements, RenamedSquashes};
ghost use Rattle.svc_renaming_laws.specs.LineLaws.{RenamedCommits, RenamedBeginnings, RenamedFull, RenamedResident};
ghost use Rattle.svc_renaming_laws.specs.LineLaws.{RenamedPinned};

/// A sound line table whose units are renamed is sound and stands for the same versioned map. Each of its steps is the
/// renamed step, whoever reads is supplied by the renamed unit, and the same is refused.
pub fn line_law()
    ensures sound { RenamedSound }
    ensures map { RenamedMap }
    ensures newest { RenamedNewest }
    ensures supplier { RenamedSuppliers }
    ensures read { RenamedReads }
    ensures write { RenamedWrites }
    ensures replace { RenamedReplacements }
    ensures squash { RenamedSquashes }
    ensures commit { RenamedCommits }
    ensures begin { RenamedBeginnings }
    ensures full { RenamedFull }
    ensures resident { RenamedResident }
    ensures pinned { RenamedPinned }
{}
