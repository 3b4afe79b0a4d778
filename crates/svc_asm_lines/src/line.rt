// Lines: what they say, and where they end.

ghost use Rattle.std.specs.Prelude.{◌≡◌, option_map};
ghost use Rattle.svc_asm_lines.specs.declared.line.Passed.TheVariants as passed;
ghost use Rattle.svc_asm_lines.specs.Statements.{rest_behind, past_rest, past_quote, kept_as, section_at, some_left};
ghost use Rattle.svc_asm_lines.specs.Statements.{behind_name, begun_at, said_at, directive_at, line_named, is_inside};
ghost use Rattle.svc_asm_lines.specs.Statements.{end_at, ended_with, is_label, label_with, line_at, is_passed};
ghost use Rattle.svc_asm_lines.specs.Statements.{begins_text, is_kept, nameless, passed_at};
ghost use Rattle.svc_tokens.specs.Characters.{past};
ghost use Rattle.svc_draft.specs.Drafts.{layout_of};
ghost use Rattle.svc_tokens.specs.Tokens.{Gives};

use crate::directives::{
    Kept, Number, Says, read_fill, read_numbered, read_zeros, said_by, section_by,
};
use memchr::memchr;
use svc_draft::Draft;
use svc_expressions::read_value;
use svc_instructions::read_instruction;
use svc_layout::{Next, Statement, Width};
use svc_tokens::{
    Radix, Read, TEXT_END, Unread, Wanted, opens, read_first_register, read_mark, skip_mark,
    skip_spaces, split_name, stopped_at, stopped_at_name, value_of,
};

/// Where in the rest of a line a character stands.
#[derive(Clone, Copy)]
pub enum Passed {
    /// In no string and no comment.
    Plain,
    /// In a string.
    Quoted,
    /// In a string, behind a backslash.
    Escaped,
    /// In a comment up to the line's end.
    Remark,
    /// Behind the slash that opens a comment.
    Opening,
    /// In such a comment.
    Inside,
    /// In such a comment, behind a star.
    Star,
}

fn rest_behind(place: Passed, c: u8, rest: &[u8]) -> Option<Passed>
    ensures { result ≡ rest_behind place c rest.now }
{
    match (place, c) {
        (_, TEXT_END) => None,
        (Passed::Plain | Passed::Quoted | Passed::Escaped | Passed::Remark, b'\n') => None,
        (Passed::Plain, b';') => None,
        (Passed::Plain, b'"') => Some(Passed::Quoted),
        (Passed::Plain, b'#') | (Passed::Remark, _) => Some(Passed::Remark),
        (Passed::Plain, _) if opens(c, rest) => Some(Passed::Opening),
        (Passed::Plain, _) | (Passed::Quoted, b'"') | (Passed::Star, b'/') => Some(Passed::Plain),
        (Passed::Quoted, b'\\') => Some(Passed::Escaped),
        (Passed::Quoted | Passed::Escaped, _) => Some(Passed::Quoted),
        (Passed::Inside | Passed::Star, b'*') => Some(Passed::Star),
        (Passed::Opening | Passed::Inside | Passed::Star, _) => Some(Passed::Inside),
    }
}

#[tactic(auto, unfolding(crate::specs::Statements::past_rest))]
pub fn skip_rest(text: &[u8]) -> &[u8]
    ensures { result.now ≡ past_rest passed.Plain text.now }
{
    let mut place = Passed::Plain;
    let mut rest = text;
    while let [first, after @ ..] = rest {
        match rest_behind(place, *first, after) {
            Some(next) => place = next,
            None => return rest,
        }
        rest = after;
    }
    rest
}

// What follows a comment up to the line's end.
#[tactic(auto, using(crate::proofs::Comments::past_first))]
fn skip_inside(text: &[u8]) -> &[u8]
    ensures { result.now ≡ past is_inside text.now }
{
    match memchr(b'\n', text) {
        Some(end) => text.split_at(end).1,
        None => b"",
    }
}

fn skip_quote(text: &[u8]) -> &[u8]
    ensures { result.now ≡ past_quote text.now }
{
    match skip_mark(b'"', text) {
        Some(rest) => rest,
        None => text,
    }
}

fn kept_as(kept: Kept) -> Statement
    ensures { result ≡ kept_as kept }
{
    match kept {
        Kept::In(section) => Statement::Section(section),
        Kept::Nowhere => Statement::Open(Next::Passed),
    }
}

fn read_section(text: &[u8]) -> Read<'_, Statement>
    ensures { Gives (λ x. (x.0, x.1.now)) result (section_at text.now) }
{
    let (name, _) = split_name(skip_quote(text));
    match section_by(name) {
        Some(kept) => Ok((kept_as(kept), skip_rest(text))),
        None => Err(stopped_at(text, Wanted::Section)),
    }
}

fn wanted_by(next: Next) -> Wanted {
    match next {
        Next::Line | Next::Passed => Wanted::Statement,
        Next::Value(_) | Next::Long => Wanted::Value,
        Next::Character(_) => Wanted::Quote,
        Next::Symbol | Next::Common | Next::LocalCommon | Next::Bound(_) => Wanted::Label,
    }
}

pub fn read_left(next: Next, text: &[u8]) -> Result<&[u8], Unread>
    ensures { Gives (λ x. x.now) result (some_left text.now) }
{
    match text {
        [] => Err(stopped_at(text, wanted_by(next))),
        _ => Ok(text),
    }
}

fn behind_name(next: Next, text: &[u8]) -> Result<&[u8], Unread>
    ensures { Gives (λ x. x.now) result (behind_name next text.now) }
{
    match next {
        Next::Character(_) => read_mark(b'"', Wanted::Quote, text),
        _ => Ok(text),
    }
}

#[tactic(auto, unfolding(crate::specs::Statements::begun_at))]
pub fn read_begun(next: Next, text: &[u8]) -> Result<&[u8], Unread>
    ensures { Gives (λ x. x.now) result (begun_at next text.now) }
{
    let rest = behind_name(next, text)?;
    read_left(next, rest)
}

#[tactic(auto, unfolding(crate::specs::Statements::said_at))]
pub fn read_said<'a>(draft: &Draft, says: Says, text: &'a [u8]) -> Read<'a, Statement>
    ensures { Gives (λ x. (x.0, x.1.now)) result (said_at (layout_of draft.now) says text.now) }
{
    match says {
        Says::Section(section) => Ok((Statement::Section(section), text)),
        Says::NamedSection => read_section(text),
        Says::Word => {
            let (number, rest) = read_value(draft, text)?;
            Ok((Statement::Value(Width::Word, number, Next::Line), rest))
        }
        Says::Number(number) => read_numbered(number, text),
        Says::Zeros => read_zeros(text),
        Says::Fill => read_fill(text),
        Says::ReadOnly => Ok((Statement::ReadOnly, text)),
        Says::Entry => match split_name(text) {
            ([], _) => Ok((Statement::Entry(None), text)),
            _ => read_numbered(Number::Own, text),
        },
        Says::Start => {
            let (start, rest) = read_value(draft, text)?;
            Ok((Statement::Start(start), rest))
        }
        Says::Register => {
            let (register, rest) = read_first_register(text)?;
            let (value, rest) = read_value(draft, rest)?;
            Ok((Statement::Register(register, value), rest))
        }
        Says::Passed => Ok((Statement::Nothing, skip_rest(text))),
        Says::Unread => Err(stopped_at(text, Wanted::Statement)),
        Says::Open(next) => {
            let rest = read_begun(next, text)?;
            Ok((Statement::Open(next), rest))
        }
    }
}

// The fault of a directive: of one that isn't read, at its name.
fn fault_of(says: Says, name: &[u8], text: &[u8], unread: Unread) -> Unread {
    match says {
        Says::Unread => stopped_at_name(name, text, Wanted::Statement),
        _ => unread,
    }
}

#[tactic(auto, unfolding(crate::specs::Statements::directive_at))]
fn read_directive<'a>(draft: &Draft, name: &[u8], text: &'a [u8]) -> Read<'a, Statement>
    ensures { Gives (λ x. (x.0, x.1.now)) result (directive_at (layout_of draft.now) name.now text.now) }
{
    if let Some(says) = said_by(name) {
        return match read_said(draft, says, text) {
            Ok(read) => Ok(read),
            Err(unread) => Err(fault_of(says, name, text, unread)),
        };
    }
    if name.starts_with(".cfi_".as_bytes()) {
        return Ok((Statement::Nothing, skip_rest(text)));
    }
    Err(stopped_at_name(name, text, Wanted::Statement))
}

// What a line without a name says: that the next text begins, or nothing.
fn read_nameless(text: &[u8]) -> (Statement, &[u8])
    ensures { (result.0, result.1.now) ≡ nameless text.now }
{
    match text {
        [TEXT_END, rest @ ..] => (Statement::NextText, rest),
        _ => (Statement::Nothing, text),
    }
}

// What a name and what follows it say.
fn read_named<'a>(draft: &Draft, name: &[u8], text: &'a [u8]) -> Read<'a, Statement>
    ensures { Gives (λ x. (x.0, x.1.now)) result (line_named (layout_of draft.now) name.now text.now) }
{
    match name {
        [] => Ok(read_nameless(text)),
        [b'.', ..] => read_directive(draft, name, text),
        _ => read_instruction(draft, name, text),
    }
}

#[tactic(auto, unfolding(crate::specs::Statements::end_at))]
pub fn read_end(text: &[u8]) -> Result<&[u8], Unread>
    ensures { Gives (λ x. x.now) result (end_at text.now) }
{
    match skip_spaces(text) {
        [] => Ok(b""),
        [b'\n' | b';', rest @ ..] => Ok(rest),
        rest @ [TEXT_END, ..] => Ok(rest),
        [b'#', comment @ ..] => match skip_inside(comment) {
            [] => Ok(b""),
            [_, rest @ ..] => Ok(rest),
        },
        _ => Err(stopped_at(text, Wanted::LineEnd)),
    }
}

// What a name and what follows it say, up to the end of the line.
fn read_ended<'a>(draft: &Draft, name: &[u8], text: &'a [u8]) -> Read<'a, Statement>
    ensures { Gives (λ x. (x.0, x.1.now)) result (ended_with (layout_of draft.now) name.now text.now) }
{
    let (statement, rest) = read_named(draft, name, text)?;
    let rest = read_end(rest)?;
    Ok((statement, rest))
}

pub fn is_label(name: &[u8]) -> bool
    ensures { result ≡ is_label name.now }
{
    match name {
        [] => false,
        [first, ..] => !matches!(*first, b'0'..=b'9'),
    }
}

fn label_with<'a>(name: &[u8], rest: &'a [u8]) -> Option<(Statement, &'a [u8])>
    ensures { option_map (λ x. (x.0, x.1.now)) result ≡ label_with name.now rest.now }
{
    if is_label(name) {
        return Some((Statement::Label, rest));
    }
    Some((Statement::Local(value_of(Radix::Decimal, name)?), rest))
}

#[tactic(auto, unfolding(crate::specs::Statements::line_at, crate::specs::Statements::ended_at, crate::specs::Statements::statement_at))]
pub fn read_line<'a>(draft: &Draft, text: &'a [u8]) -> Read<'a, Statement>
    ensures { Gives (λ x. (x.0, x.1.now)) result (line_at (layout_of draft.now) text.now) }
{
    let (name, rest) = split_name(text);
    match rest {
        [b':', rest @ ..] => match label_with(name, rest) {
            Some(read) => Ok(read),
            None => Err(stopped_at(text, Wanted::Label)),
        },
        _ => read_ended(draft, name, rest),
    }
}

fn is_passed(says: Says) -> bool
    ensures { result ≡ is_passed says }
{
    match says {
        Says::Word | Says::Zeros | Says::Fill | Says::Passed => true,
        Says::Number(Number::Power | Number::Step) => true,
        _ => false,
    }
}

fn is_kept(name: &[u8]) -> bool
    ensures { result ≡ is_kept name.now }
{
    match said_by(name) {
        Some(says) => !is_passed(says),
        None => false,
    }
}

fn begins_text(text: &[u8]) -> bool
    ensures { result ≡ begins_text text.now }
{
    matches!(text, [TEXT_END, ..])
}

/// A line of a section that is passed over: a label, a directive that is read, or what says nothing.
#[tactic(auto, unfolding(crate::specs::Statements::passed_at, crate::specs::Statements::ended_at, crate::specs::Statements::statement_at))]
pub fn read_passed<'a>(draft: &Draft, text: &'a [u8]) -> Read<'a, Statement>
    ensures { Gives (λ x. (x.0, x.1.now)) result (passed_at (layout_of draft.now) text.now) }
{
    let (name, rest) = split_name(text);
    match rest {
        [b':', rest @ ..] => Ok((Statement::Nothing, rest)),
        _ => {
            if is_kept(name) || begins_text(rest) {
                return read_ended(draft, name, rest);
            }
            let rest = read_end(skip_rest(text))?;
            Ok((Statement::Nothing, rest))
        }
    }
}
