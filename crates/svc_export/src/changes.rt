// The lines of a value change dump.

ghost use Rattle.std.specs.Prelude.{◌≡◌, ◌++◌, OnOk};
ghost use Rattle.svc_export.specs.Changes.{bits, busy, dump_opening, dump_start, idle, time, unit_variables, unknown};
ghost use Rattle.svc_export.specs.Changes.{value_line, word_variable};

use std::alloc::AllocError;
use svc_text::{Part, Piece, put_parts};

/// The beginning of the declarations.
#[tactic(auto, unfolding(crate::specs::Changes::dump_opening))]
pub(crate) fn put_dump_opening(text: &mut Vec<u8>) -> Result<(), AllocError>
    ensures { OnOk result (text.new.items ≡ text.old.items ++ dump_opening) }
{
    "$timescale 1 us $end\n$scope module svcsim $end\n".put(text)
}

/// A unit: the number of its task, the address where that began, and whether it has one.
#[tactic(auto, unfolding(crate::specs::Changes::unit_variables))]
pub(crate) fn put_unit_variables(text: &mut Vec<u8>, unit: u64) -> Result<(), AllocError>
    ensures { OnOk result (text.new.items ≡ text.old.items ++ unit_variables unit) }
{
    put_parts(
        text,
        &[
            Part::Text("$scope module unit"),
            Part::Number(unit),
            Part::Text(" $end\n$var integer 32 t"),
            Part::Number(unit),
            Part::Text(" task $end\n$var wire 32 a"),
            Part::Number(unit),
            Part::Text(" address $end\n$var wire 1 b"),
            Part::Number(unit),
            Part::Text(" busy $end\n$upscope $end\n"),
        ],
    )
}

/// The committed value of a word.
#[tactic(auto, unfolding(crate::specs::Changes::word_variable))]
pub(crate) fn put_word_variable(text: &mut Vec<u8>, word: u64) -> Result<(), AllocError>
    ensures { OnOk result (text.new.items ≡ text.old.items ++ word_variable word) }
{
    put_parts(
        text,
        &[
            Part::Text("$var wire 32 w"),
            Part::Number(word),
            Part::Text(" word"),
            Part::Number(word),
            Part::Text(" $end\n"),
        ],
    )
}

/// The end of the declarations, and the beginning of the first values.
#[tactic(auto, unfolding(crate::specs::Changes::dump_start))]
pub(crate) fn put_dump_start(text: &mut Vec<u8>) -> Result<(), AllocError>
    ensures { OnOk result (text.new.items ≡ text.old.items ++ dump_start) }
{
    "$upscope $end\n$enddefinitions $end\n#0\n$dumpvars\n".put(text)
}

// The lowest bits of a number, so many.
#[tactic(auto, unfolding(crate::specs::Changes::bits), using(crate::proofs::Texts::one_more_bit))]
fn put_bits(text: &mut Vec<u8>, count: u8, number: u64) -> Result<(), AllocError>
    ensures { OnOk result (text.new.items ≡ text.old.items ++ bits count number) }
{
    if count == 0 {
        return Ok(());
    }
    put_bits(text, count - 1, number / 2)?;
    text.push(48 + (number % 2) as u8)?;
    Ok(())
}

/// The value of the variable that this letter and number name.
#[tactic(auto, unfolding(crate::specs::Changes::value_line))]
pub(crate) fn put_value(
    text: &mut Vec<u8>,
    letter: &str,
    number: u64,
    value: u64,
) -> Result<(), AllocError>
    ensures { OnOk result (text.new.items ≡ text.old.items ++ value_line letter.now number value) }
{
    "b".put(text)?;
    put_bits(text, 32, value)?;
    put_parts(
        text,
        &[
            Part::Text(" "),
            Part::Text(letter),
            Part::Number(number),
            Part::Text("\n"),
        ],
    )
}

/// A unit has no task.
#[tactic(auto, unfolding(crate::specs::Changes::idle))]
pub(crate) fn put_idle(text: &mut Vec<u8>, unit: u64) -> Result<(), AllocError>
    ensures { OnOk result (text.new.items ≡ text.old.items ++ idle unit) }
{
    put_parts(
        text,
        &[
            Part::Text("bx t"),
            Part::Number(unit),
            Part::Text("\nbx a"),
            Part::Number(unit),
            Part::Text("\n0b"),
            Part::Number(unit),
            Part::Text("\n"),
        ],
    )
}

/// A unit has a task.
#[tactic(auto, unfolding(crate::specs::Changes::busy))]
pub(crate) fn put_busy(
    text: &mut Vec<u8>,
    unit: u64,
    task: u64,
    address: u64,
) -> Result<(), AllocError>
    ensures { OnOk result (text.new.items ≡ text.old.items ++ busy unit task address) }
{
    put_value(text, "t", unit, task)?;
    put_value(text, "a", unit, address)?;
    put_parts(
        text,
        &[Part::Text("1b"), Part::Number(unit), Part::Text("\n")],
    )
}

/// The committed value of a word isn't known.
#[tactic(auto, unfolding(crate::specs::Changes::unknown))]
pub(crate) fn put_unknown(text: &mut Vec<u8>, word: u64) -> Result<(), AllocError>
    ensures { OnOk result (text.new.items ≡ text.old.items ++ unknown word) }
{
    put_parts(
        text,
        &[Part::Text("bx w"), Part::Number(word), Part::Text("\n")],
    )
}

/// A time.
#[tactic(auto, unfolding(crate::specs::Changes::time))]
pub(crate) fn put_time(text: &mut Vec<u8>, at: u64) -> Result<(), AllocError>
    ensures { OnOk result (text.new.items ≡ text.old.items ++ time at) }
{
    put_parts(text, &[Part::Text("#"), Part::Number(at), Part::Text("\n")])
}
