// The characters of a program's text: spaces, names, marks, numbers, and characters between single quotes.

ghost use Rattle.std.specs.Prelude.{◌≡◌, ◌<◌, ◌≤◌, IfSome, length, option_map};
ghost use Rattle.svc_tokens.specs.declared.characters.Blank.TheVariants as blank;
ghost use Rattle.svc_tokens.specs.Characters.{is_space, opens, blank_behind, past_blanks, past_spaces, is_over};
ghost use Rattle.svc_tokens.specs.Characters.{is_name, past, name_at};
ghost use Rattle.svc_tokens.specs.Characters.{past_name, mark_at, digit, base_of, push_digit, long_of, value_of};
ghost use Rattle.svc_tokens.specs.Characters.{behind_zero, number_of, escape, quoted_escape, closed_at};
ghost use Rattle.svc_tokens.specs.Characters.{escape_in_quotes, in_quotes, character_at};

#[tactic(auto, unfolding(crate::specs::Characters::is_name))]
fn is_name(c: u8) -> bool
    ensures { result ≡ is_name c }
{
    matches!(c, b'a'..=b'z' | b'0'..=b'9') || matches!(c, b'A'..=b'Z' | b'.' | b'_' | b'$')
}

/// The character that ends a text of a program of several, as the only one of its line: ASCII's file separator.
pub const TEXT_END: u8 = 0x1c;

fn is_space(c: u8) -> bool
    ensures { result ≡ is_space c }
{
    matches!(c, b' ' | b'\t' | b'\r')
}

// What stands before a character: no comment, its slash, something of it, or a star that may end it.
#[derive(Clone, Copy)]
enum Blank {
    Outside,
    Opening,
    Inside,
    Star,
}

/// Whether a character and what follows it open a comment.
pub fn opens(c: u8, rest: &[u8]) -> bool
    ensures { result ≡ opens c rest.now }
{
    match rest {
        [next, ..] => c == b'/' && *next == b'*',
        [] => false,
    }
}

fn blank_behind(blank: Blank, c: u8, rest: &[u8]) -> Option<Blank>
    ensures { result ≡ blank_behind blank c rest.now }
{
    match (blank, c) {
        (Blank::Outside, _) if is_space(c) => Some(Blank::Outside),
        (Blank::Star, b'/') => Some(Blank::Outside),
        (Blank::Outside, _) if opens(c, rest) => Some(Blank::Opening),
        (Blank::Outside, _) | (_, TEXT_END) => None,
        (Blank::Opening, _) => Some(Blank::Inside),
        (Blank::Inside | Blank::Star, b'*') => Some(Blank::Star),
        (Blank::Inside | Blank::Star, _) => Some(Blank::Inside),
    }
}

// What is left behind a comment, of which the slash stands before this. No comment goes on in the next text.
#[tactic(auto, unfolding(crate::specs::Characters::past_blanks), using(crate::proofs::Blanks::past_stop))]
fn skip_comment(text: &[u8]) -> &[u8]
    ensures rest { past_spaces result.now ≡ past_blanks blank.Opening text.now }
    ensures less { length result.now ≤ length text.now }
{
    let mut blank = Blank::Opening;
    let mut rest = text;
    while let [first, after @ ..] = rest {
        match blank_behind(blank, *first, after) {
            Some(Blank::Outside) => return after,
            Some(next) => blank = next,
            None => return rest,
        }
        rest = after;
    }
    rest
}

/// What is left behind spaces and comments.
#[tactic(auto, unfolding(crate::specs::Characters::past_blanks))]
pub fn skip_spaces(text: &[u8]) -> &[u8]
    ensures { result.now ≡ past_spaces text.now }
{
    let mut rest = text;
    while let [first, after @ ..] = rest {
        if is_space(*first) {
            rest = after;
        } else if opens(*first, after) {
            rest = skip_comment(after);
        } else {
            return rest;
        }
    }
    rest
}

/// Whether the line ends here, maybe behind a comment, or another one follows a semicolon.
pub fn is_over(text: &[u8]) -> bool
    ensures { result ≡ is_over text.now }
{
    match skip_spaces(text) {
        [] | [b'\n' | b'#' | b';' | TEXT_END, ..] => true,
        _ => false,
    }
}

#[tactic(auto, unfolding(crate::specs::Characters::past))]
fn skip_name(text: &[u8]) -> &[u8]
    ensures { result.now ≡ past is_name text.now }
{
    let mut rest = text;
    while let [first, after @ ..] = rest {
        if !is_name(*first) {
            return rest;
        }
        rest = after;
    }
    rest
}

/// The next name, which may be empty, and what follows it.
#[tactic(auto, using(crate::proofs::Past::past_within, crate::proofs::Past::front_of_past))]
pub fn split_name(text: &[u8]) -> (&[u8], &[u8])
    ensures name { result.0.now ≡ name_at text.now }
    ensures rest { result.1.now ≡ past_name text.now }
{
    let text = skip_spaces(text);
    let rest = skip_name(text);
    let (name, _) = text.split_at(text.len() - rest.len());
    (name, rest)
}

/// What follows a mark, where it stands next.
pub fn skip_mark(mark: u8, text: &[u8]) -> Option<&[u8]>
    ensures { option_map (λ r. r.now) result ≡ mark_at mark text.now }
{
    match skip_spaces(text) {
        [first, rest @ ..] if *first == mark => Some(rest),
        _ => None,
    }
}

/// The value of a digit of any radix up to 16.
#[tactic(auto, unfolding(crate::specs::Characters::digit))]
pub fn digit(c: u8) -> Option<u32>
    ensures value { result ≡ digit c }
    ensures small { IfSome result (λ d. d < 16) }
{
    match c {
        b'0'..=b'9' => Some((c - b'0') as u32),
        b'a'..=b'f' => Some((c - b'a' + 10) as u32),
        b'A'..=b'F' => Some((c - b'A' + 10) as u32),
        _ => None,
    }
}

#[tactic(auto, unfolding(crate::specs::Characters::push_digit))]
fn push_digit(radix: u64, value: u64, c: u8) -> Option<u64>
    requires { radix ≤ 16 }
    ensures { result ≡ push_digit radix value c }
{
    let digit = digit(c)? as u64;
    if digit >= radix {
        return None;
    }
    value.checked_mul(radix)?.checked_add(digit)
}

/// What a number's digits count in.
#[derive(Clone, Copy)]
pub enum Radix {
    Binary,
    Octal,
    Decimal,
    Hexadecimal,
}

fn base_of(radix: Radix) -> u64
    ensures value { result ≡ base_of radix }
    ensures small { result ≤ 16 }
{
    match radix {
        Radix::Binary => 2,
        Radix::Octal => 8,
        Radix::Decimal => 10,
        Radix::Hexadecimal => 16,
    }
}

#[tactic(auto, unfolding(crate::specs::Characters::value_on))]
fn long_of(radix: Radix, digits: &[u8]) -> Option<u64>
    ensures { result ≡ long_of (base_of radix) digits.now }
{
    if digits.is_empty() {
        return None;
    }
    let base = base_of(radix);
    let mut value = 0;
    for &c in digits {
        value = push_digit(base, value, c)?;
    }
    Some(value)
}

/// The number of these digits, where it has 32 bits.
#[tactic(auto, unfolding(crate::specs::Characters::value_of))]
pub fn value_of(radix: Radix, digits: &[u8]) -> Option<u32>
    ensures { result ≡ value_of (base_of radix) digits.now }
{
    let value = long_of(radix, digits)?;
    if value < 0x1_0000_0000 {
        Some(value as u32)
    } else {
        None
    }
}

#[tactic(auto, unfolding(crate::specs::Characters::behind_zero))]
fn behind_zero(digits: &[u8]) -> Option<u64>
    ensures { result ≡ behind_zero digits.now }
{
    match digits {
        [] => Some(0),
        [b'x' | b'X', digits @ ..] => long_of(Radix::Hexadecimal, digits),
        [b'b' | b'B', digits @ ..] => long_of(Radix::Binary, digits),
        _ => long_of(Radix::Octal, digits),
    }
}

/// The number of 64 bits that a name is: decimal, hexadecimal behind 0x, binary behind 0b, octal behind 0.
#[tactic(auto, unfolding(crate::specs::Characters::number_of))]
pub fn number_of(name: &[u8]) -> Option<u64>
    ensures { result ≡ number_of name.now }
{
    match name {
        [b'0', digits @ ..] => behind_zero(digits),
        _ => long_of(Radix::Decimal, name),
    }
}

/// What a letter behind a backslash stands for.
#[tactic(auto, unfolding(crate::specs::Characters::escape))]
pub fn escape(letter: u8) -> Option<u8>
    ensures { result ≡ escape letter }
{
    match letter {
        b'n' => Some(10),
        b't' => Some(9),
        b'"' => Some(34),
        b'\\' => Some(92),
        b'b' => Some(8),
        b'f' => Some(12),
        b'r' => Some(13),
        _ => None,
    }
}

fn quoted_escape(letter: u8) -> Option<u8>
    ensures { result ≡ quoted_escape letter }
{
    match letter {
        b'\'' => Some(39),
        _ => escape(letter),
    }
}

#[tactic(auto, unfolding(crate::specs::Characters::closed_at))]
fn split_closed(character: u8, text: &[u8]) -> Option<(u8, &[u8])>
    ensures { option_map (λ x. (x.0, x.1.now)) result ≡ closed_at character text.now }
{
    match text {
        [b'\'', rest @ ..] => Some((character, rest)),
        _ => None,
    }
}

#[tactic(auto, unfolding(crate::specs::Characters::escape_in_quotes))]
fn split_escape(text: &[u8]) -> Option<(u8, &[u8])>
    ensures { option_map (λ x. (x.0, x.1.now)) result ≡ escape_in_quotes text.now }
{
    match text {
        [letter, rest @ ..] => split_closed(quoted_escape(*letter)?, rest),
        [] => None,
    }
}

#[tactic(auto, unfolding(crate::specs::Characters::in_quotes))]
fn split_inside(text: &[u8]) -> Option<(u8, &[u8])>
    ensures { option_map (λ x. (x.0, x.1.now)) result ≡ in_quotes text.now }
{
    match text {
        [] | [b'\n', ..] => None,
        [b'\\', rest @ ..] => split_escape(rest),
        [character, rest @ ..] => split_closed(*character, rest),
    }
}

#[tactic(auto, unfolding(crate::specs::Characters::character_at))]
pub fn split_character(text: &[u8]) -> Option<(u8, &[u8])>
    ensures { option_map (λ x. (x.0, x.1.now)) result ≡ character_at text.now }
{
    split_inside(skip_mark(b'\'', text)?)
}
