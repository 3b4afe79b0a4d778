// Strings, which are read character by character.

ghost use Rattle.std.specs.Prelude.{◌≡◌, ◌+◌, ◌*◌, ◌<◌, IfSome, option_map};
ghost use Rattle.svc_tokens.specs.Tokens.{Gives};
ghost use Rattle.svc_asm_lines.specs.Strings.{string_end, put_at, octal_digit, octal_on, octal_at, hex_on, hex_at};
ghost use Rattle.svc_asm_lines.specs.Strings.{escape_at, character_at};

use crate::line::read_left;
use crate::lists::read_going;
use svc_layout::{Ending, Next, Statement, Width};
use svc_tokens::{Read, Unread, Wanted, digit, escape, stopped_at};

// The fault of a backslash that this follows. A space is no blank there.
fn stopped_behind_backslash(text: &[u8]) -> Unread {
    Unread {
        wanted: Wanted::Escape,
        left: text.len(),
    }
}

fn string_end(ending: Ending, next: Next) -> Statement
    ensures { result ≡ string_end ending next }
{
    match ending {
        Ending::Bare => Statement::Open(next),
        Ending::Zero => Statement::Value(Width::Byte, 0, next),
    }
}

#[tactic(auto, unfolding(crate::specs::Strings::put_at))]
fn read_on(ending: Ending, character: u8, text: &[u8]) -> Read<'_, Statement>
    ensures { Gives (λ x. (x.0, x.1.now)) result (put_at ending character text.now) }
{
    let next = Next::Character(ending);
    let rest = read_left(next, text)?;
    Ok((Statement::Value(Width::Byte, character as u32, next), rest))
}

fn split_octal(text: &[u8]) -> Option<(u32, &[u8])>
    ensures value { option_map (λ x. (x.0, x.1.now)) result ≡ octal_digit text.now }
    ensures small { IfSome result (λ x. x.0 < 8) }
{
    match text {
        [digit, rest @ ..] if matches!(*digit, b'0'..=b'7') => Some(((*digit - b'0') as u32, rest)),
        _ => None,
    }
}

// A number and one octal digit more, where one follows.
#[tactic(auto, unfolding(crate::specs::Strings::octal_on))]
fn octal_on(number: u32, text: &[u8]) -> (u32, &[u8])
    requires { number < 64 }
    ensures number { result.0 ≡ (octal_on number text.now).0 }
    ensures rest { result.1.now ≡ (octal_on number text.now).1 }
    ensures small { result.0 < 8 * number + 8 }
{
    match split_octal(text) {
        Some((digit, rest)) => (8 * number + digit, rest),
        None => (number, text),
    }
}

#[tactic(auto, unfolding(crate::specs::Strings::octal_at))]
fn read_octal(ending: Ending, text: &[u8]) -> Read<'_, Statement>
    ensures { Gives (λ x. (x.0, x.1.now)) result (octal_at ending text.now) }
{
    match split_octal(text) {
        Some((first, rest)) => {
            let (two, rest) = octal_on(first, rest);
            let (three, rest) = octal_on(two, rest);
            read_on(ending, (three % 256) as u8, rest)
        }
        None => Err(stopped_behind_backslash(text)),
    }
}

// A byte and the hexadecimal digits that follow, of which the last two count.
#[tactic(auto, unfolding(crate::specs::Strings::hex_on))]
fn hex_on(first: u32, text: &[u8]) -> (u32, &[u8])
    requires { first < 256 }
    ensures number { result.0 ≡ (hex_on first text.now).0 }
    ensures rest { result.1.now ≡ (hex_on first text.now).1 }
    ensures small { result.0 < 256 }
{
    let mut number = first;
    let mut rest = text;
    while let [letter, after @ ..] = rest {
        match digit(*letter) {
            Some(digit) => number = (16 * number + digit) % 256,
            None => return (number, rest),
        }
        rest = after;
    }
    (number, rest)
}

#[tactic(auto, unfolding(crate::specs::Strings::hex_at))]
fn read_hex(ending: Ending, text: &[u8]) -> Read<'_, Statement>
    ensures { Gives (λ x. (x.0, x.1.now)) result (hex_at ending text.now) }
{
    match text {
        [] => Err(stopped_behind_backslash(text)),
        [letter, rest @ ..] => match digit(*letter) {
            Some(first) => {
                let (number, rest) = hex_on(first, rest);
                read_on(ending, number as u8, rest)
            }
            None => Err(stopped_behind_backslash(text)),
        },
    }
}

#[tactic(auto, unfolding(crate::specs::Strings::escape_at))]
fn read_escape(ending: Ending, text: &[u8]) -> Read<'_, Statement>
    ensures { Gives (λ x. (x.0, x.1.now)) result (escape_at ending text.now) }
{
    match text {
        [] => Err(stopped_behind_backslash(text)),
        [b'x', rest @ ..] => read_hex(ending, rest),
        [letter, rest @ ..] => match escape(*letter) {
            Some(character) => read_on(ending, character, rest),
            None => read_octal(ending, text),
        },
    }
}

#[tactic(auto, unfolding(crate::specs::Strings::character_at))]
pub fn read_character(ending: Ending, text: &[u8]) -> Read<'_, Statement>
    ensures { Gives (λ x. (x.0, x.1.now)) result (character_at ending text.now) }
{
    match text {
        [] => Err(stopped_at(text, Wanted::Quote)),
        [b'"', rest @ ..] => {
            let (next, rest) = read_going(Next::Character(ending), rest)?;
            Ok((string_end(ending, next), rest))
        }
        [b'\\', rest @ ..] => read_escape(ending, rest),
        [b'\n', ..] => Err(stopped_at(text, Wanted::Quote)),
        [character, rest @ ..] => read_on(ending, *character, rest),
    }
}
