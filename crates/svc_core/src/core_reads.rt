// What a core says of its task.

ghost use Rattle.std.specs.Prelude.{◌≡◌, ◌≤◌, ◌+◌};
ghost use Rattle.svc_base.specs.declared.limits.TheConstants.{MAX_TASK_OUTPUT};
ghost use Rattle.svc_image.specs.declared.layout.TheConstants.{MOST_WORDS};
ghost use Rattle.svc_core_laws.specs.State.{end_count};

use crate::core_state::Core;
use svc_core_laws::End;

impl Core {
    /// The byte address of the next instruction.
    #[inline(always)]
    pub fn pc(&self) -> u32
        ensures { result ≡ self.now.pc }
    {
        self.pc
    }

    /// The turns so far: at most the limit, and one more once the task has ended.
    #[inline]
    pub fn count(&self) -> u32
        ensures value { result ≡ self.now.count }
        ensures few { self.now.count ≤ self.now.limit + end_count self.now.done }
    {
        self.count
    }

    /// The words output so far, at most 64.
    #[inline]
    pub fn emitted(&self) -> u8
        ensures value { result ≡ self.now.emitted }
        ensures few { self.now.emitted ≤ MAX_TASK_OUTPUT }
    {
        self.emitted
    }

    /// The limit of turns, from 1 to 65,536.
    #[inline]
    pub fn limit(&self) -> u32
        ensures value { result ≡ self.now.limit }
        ensures some { 1 ≤ self.now.limit }
        ensures few { self.now.limit ≤ MOST_WORDS }
    {
        self.limit
    }

    /// How the task has ended, if it has.
    #[inline]
    pub fn done(&self) -> Option<End>
        ensures { result ≡ self.now.done }
    {
        self.done
    }
}
