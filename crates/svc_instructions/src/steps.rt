// How far it is from one address to another, in so many bits and in steps of two bytes.

ghost use Rattle.std.specs.Prelude.{◌≡◌, ◌<◌, ◌≤◌, ◌*◌, ◌-◌, ◌/◌, IfSome};
ghost use Rattle.svc_instructions.specs.Steps.{signed_bits, half_of, steps_of, distance};

use svc_expressions::Signed;

pub(crate) fn signed_bits(half: u32, number: Signed) -> Option<u32>
    requires { half ≤ 524288 }
    ensures { result ≡ signed_bits half number }
{
    let Signed {
        negative,
        magnitude,
    } = number;
    if negative {
        if magnitude <= half {
            Some(2 * half - magnitude)
        } else {
            None
        }
    } else if magnitude < half {
        Some(magnitude)
    } else {
        None
    }
}

pub(crate) fn half_of(number: Signed) -> Option<Signed>
    ensures value { result ≡ half_of number }
    ensures small { IfSome result (λ half. half.magnitude ≤ 2147483648) }
{
    if number.magnitude % 2 == 0 {
        Some(Signed {
            negative: number.negative,
            magnitude: number.magnitude / 2,
        })
    } else {
        None
    }
}

#[tactic(auto, unfolding(crate::specs::Steps::steps_of))]
pub(crate) fn steps_of(half: u32, offset: Signed) -> Option<u32>
    requires { half ≤ 524288 }
    ensures { result ≡ steps_of half offset }
{
    signed_bits(half, half_of(offset)?)
}

pub(crate) fn distance(from: u32, to: u32) -> Signed
    ensures { result ≡ distance from to }
{
    if from <= to {
        Signed {
            negative: false,
            magnitude: to - from,
        }
    } else {
        Signed {
            negative: true,
            magnitude: from - to,
        }
    }
}
