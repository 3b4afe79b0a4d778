// Multiples of the steps that sections, and the parts of them that texts have, begin at.

ghost use Rattle.std.specs.Prelude.{◌≡◌, ◌+◌, ◌≤◌};
ghost use Rattle.svc_layout.specs.Steps.{padding, multiple, greater_step, with_raised_step};

use svc_layout::{Section, Steps};

// How many bytes it is from this size to the next multiple of a step; of the step 0, none.
pub(crate) fn padding(step: u32, size: u32) -> u32
    ensures { result ≡ padding step size }
{
    if step == 0 {
        return 0;
    }
    match size % step {
        0 => 0,
        over => step - over,
    }
}

// The next multiple of a step from this size on, in bytes.
pub(crate) fn multiple(step: u32, size: u32) -> u32
    requires step { step ≤ 65536 }
    requires size { size ≤ 1048576 }
    ensures size { result ≡ multiple step size }
    ensures near { result ≤ size + 65536 }
{
    size + padding(step, size)
}

// The greater of two steps, where the new one is a power of two up to 2^16, and else the old one.
pub(crate) fn greater_step(old: u32, step: u32) -> u32
    ensures step { result ≡ greater_step old step }
    ensures few { old ≤ 65536 → result ≤ 65536 }
{
    if step > old && 65536 % step == 0 {
        return step;
    }
    old
}

// Raises the step of a text's part of a section to this one.
pub(crate) fn raise_step(steps: &mut Steps, section: Section, step: u32)
    ensures { steps.new ≡ with_raised_step section step steps.old }
{
    match section {
        Section::Text => steps.text_step = greater_step(steps.text_step, step),
        Section::Rodata => steps.rodata_step = greater_step(steps.rodata_step, step),
        Section::Data => steps.data_step = greater_step(steps.data_step, step),
        Section::Bss => steps.bss_step = greater_step(steps.bss_step, step),
    }
}
