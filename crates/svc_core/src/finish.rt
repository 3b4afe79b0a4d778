// How a turn that asked ends, once it has its answer.

ghost use Rattle.std.specs.Prelude.{◌≡◌, ◌<◌, None};
ghost use Rattle.svc_base.specs.declared.limits.TheConstants.{MAX_TASK_OUTPUT};
ghost use Rattle.svc_core_laws.specs.Local.{goes_on, sets};
ghost use Rattle.svc_core_laws.specs.Turns.{arrives, outputs};

use crate::core_state::Core;
use svc_image::Image;
use svc_rv32i::Register;

impl Core {
    /// Completes a load, given the register's new value, and ends the task if it is now at an entry.
    pub fn finish_load(&mut self, image: &Image, rd: Register, value: u32)
        requires running { self.old.done ≡ None }
        requires in_time { self.old.count < self.old.limit }
        ensures { self.new ≡ arrives image.now (sets rd.number value self.old) }
    {
        self.set(rd, value);
        self.arrive_at(image);
    }

    /// Completes a store whose word is written, and ends the task if it is now at an entry.
    pub fn finish_store(&mut self, image: &Image)
        requires running { self.old.done ≡ None }
        requires in_time { self.old.count < self.old.limit }
        ensures { self.new ≡ arrives image.now (goes_on self.old) }
    {
        self.pass();
        self.arrive_at(image);
    }

    /// Completes an output, and ends the task if it is now at an entry.
    pub fn finish_emit(&mut self, image: &Image)
        requires running { self.old.done ≡ None }
        requires in_time { self.old.count < self.old.limit }
        requires room { self.old.emitted < MAX_TASK_OUTPUT }
        ensures { self.new ≡ arrives image.now (outputs self.old) }
    {
        self.output_word();
        self.arrive_at(image);
    }
}
