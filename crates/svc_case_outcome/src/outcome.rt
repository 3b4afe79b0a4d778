//! What a run of the program leaves, and where it is not what is wanted.

ghost use Rattle.std.specs.Prelude.{◌≡◌, None, Decides, IfSome};
ghost use Rattle.svc_case_outcome.specs.Wanted.{Fits, IsAsWanted, IsFirstOther};

/// What a run of the program leaves: its status, what it wrote on standard output and standard error, and the file that
/// it saved, shown as its name on a line and its text.
#[derive(Drop)]
pub struct Outcome {
    pub status: u8,
    pub out: Vec<u8>,
    pub err: Vec<u8>,
    pub saved: Vec<u8>,
}

/// A part of what a run leaves.
#[derive(Clone, Copy)]
pub enum Part {
    Status,
    Out,
    Err,
    Saved,
}

impl Outcome {
    /// The first part that isn't as wanted.
    pub fn first_other_part(&self, wanted: &Outcome) -> Option<Part>
        ensures none { result ≡ None → IsAsWanted self.now wanted.now }
        ensures part { IfSome result (IsFirstOther self.now wanted.now) }
    {
        if self.status != wanted.status {
            return Some(Part::Status);
        }
        if !fits(&self.out, &wanted.out) {
            return Some(Part::Out);
        }
        if !fits(&self.err, &wanted.err) {
            return Some(Part::Err);
        }
        if !fits(&self.saved, &wanted.saved) {
            return Some(Part::Saved);
        }
        None
    }
}

// The last line of a wanted text of which only the beginning is wanted.
const AND_SO_ON: &[u8] = b"...\n";

// A text is the wanted one, or begins with what precedes the mark.
fn fits(found: &[u8], wanted: &[u8]) -> bool
    ensures { Decides result (Fits found.now wanted.now) }
{
    match wanted.strip_suffix(AND_SO_ON) {
        Some(front) => found.starts_with(front),
        None => found == wanted,
    }
}
