// Numbers with their signs.

ghost use Rattle.std.specs.Prelude.{◌≡◌, ◌-◌};
ghost use Rattle.svc_expressions.specs.Signed.{bits_of};

/// A number with its sign.
#[derive(Clone, Copy)]
pub struct Signed {
    pub negative: bool,
    pub magnitude: u32,
}

/// The 32 bits of a number with its sign.
pub fn bits_of(number: Signed) -> u32
    ensures { result ≡ bits_of number }
{
    if number.negative {
        0u32.wrapping_sub(number.magnitude)
    } else {
        number.magnitude
    }
}
