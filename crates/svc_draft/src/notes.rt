// What a pass notes for the next one: the branches that don't reach their targets, and the distances of `%pcrel_hi`.

ghost use Rattle.std.specs.Prelude.{◌≡◌, Some};
ghost use Rattle.svc_draft.specs.Drafts.{layout_of};
ghost use Rattle.svc_layout.specs.Refusals.{Changes};
ghost use Rattle.svc_layout.specs.Notes.{with_note, with_relative, with_turned};

use crate::data::NOP;
use crate::draft::Draft;
use svc_layout::Refusal;

impl Draft<'_> {
    // Notes a branch that is turned in the next round.
    pub(crate) fn note(&mut self, left: usize) -> Result<(), Refusal>
        ensures { Changes result (Some (with_note left (layout_of self.old))) (layout_of self.new) }
    {
        if !self.distances_known {
            return Ok(());
        }
        self.turned.insert(left, ())?;
        self.grew = true;
        Ok(())
    }

    // One word stands for the branch in this round, which makes no image.
    #[tactic(auto, unfolding(svc_layout::specs::Notes::with_turned))]
    pub(crate) fn turn(&mut self, left: usize) -> Result<(), Refusal>
        ensures { Changes result (with_turned left (layout_of self.old)) (layout_of self.new) }
    {
        self.note(left)?;
        self.push_instruction(NOP)
    }

    #[tactic(auto, unfolding(svc_layout::specs::Notes::with_relative))]
    pub(crate) fn push_relative(&mut self, word: u32, distance: u32) -> Result<(), Refusal>
        ensures { Changes result (with_relative word distance (layout_of self.old)) (layout_of self.new) }
    {
        let place = self.here();
        self.distances.insert(place, distance)?;
        self.has_distances = true;
        self.push_instruction(word)
    }
}
