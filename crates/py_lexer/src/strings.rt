// Strings and format strings.
ghost use Rattle.std.specs.Prelude.{◌≡◌, ◌+◌, ◌-◌, ◌<◌, ◌≤◌, ◌^◌, ◌∷◌, length, drop, take, slice_index, IfOk, IsTrue, if◌then◌else◌};
ghost use Rattle.py_lexer.specs.Strings.{is_tripled, quotes, closes, escape, is_name, hole, opening_brace, closing_brace, plain_part, part_of, string_from, string_by, lead_of, style_of, string_front, is_quote};
ghost use Rattle.py_lexer.specs.Fronts.{IsWithin, IsPartOf, EndsIn};

use crate::chars::{after, char_at, front, line_end};
use crate::names::{name_width, starts_name, word_form};
use crate::piece::{Front, Piece};
use crate::signs::is_in;
use crate::token::TokenForm;
use amh_host::NoMemory;
use std::alloc::Global;

/// How a string is written: its quote, whether it stands three times, and whether the string may have holes.
#[derive(Clone, Copy, PartialEq, Eq, Drop)]
pub struct Style {
    pub quote: char,
    pub triple: bool,
    pub holes: bool,
}

/// What stands at the front of the rest of a string.
#[derive(Clone, Copy, PartialEq, Eq, Drop)]
pub enum Part {
    /// So many characters of the string.
    Inner(usize),
    /// The end of the line in which the string has to be closed.
    Missing,
    /// An escape, a hole or a brace that may not stand.
    Bad,
}

/// How a string goes on behind its opening quotes.
#[derive(Clone, Copy, PartialEq, Eq, Drop)]
pub enum Body {
    /// With so many characters, the closing quotes among them.
    Closed(usize),
    /// Up to an end where it is not closed.
    Cut,
    /// With a fault behind so many characters.
    Spoiled(usize),
}

fn is_tripled(quote: char, cs: &[char]) -> bool
    ensures { result ≡ is_tripled quote cs.now }
{
    char_at(cs, 0) == quote && char_at(cs, 1) == quote
}

fn quotes(style: Style) -> usize
    ensures value { result ≡ quotes style }
    ensures least { 0 < result }
    ensures most { result ≤ 3 }
{
    if style.triple { 3 } else { 1 }
}

// Whether the closing quotes stand here.
fn closes(style: Style, cs: &[char]) -> bool
    requires { 0 < length cs.now }
    ensures value { result ≡ closes style cs.now }
    ensures within { IsTrue result → 0 < style.quote → quotes style ≤ length cs.now }
{
    cs[0] == style.quote && (!style.triple || is_tripled(style.quote, after(cs, 1)))
}

// What a backslash before these begins.
fn escape(cs: &[char]) -> Part
    ensures value { result ≡ escape cs.now }
    ensures within { IsPartOf result (length cs.now + 1) }
{
    let width = line_end(cs);
    if is_in(b"\\'\"nt", char_at(cs, 0)) {
        Part::Inner(2)
    } else if width > 0 {
        Part::Inner(1 + width)
    } else {
        Part::Bad
    }
}

fn is_name(form: Option<TokenForm>) -> bool
    ensures { result ≡ is_name form }
{
    matches!(form, Some(TokenForm::Name))
}

// What a brace before these begins, where it stands alone.
#[tactic(auto, unfolding(crate::specs::Strings::hole))]
fn hole(alloc: Global, cs: &[char]) -> Result<Part, NoMemory>
    requires { length cs.now < 2 ^ 31 }
    ensures value { IfOk result (λ part. part ≡ hole cs.now) }
    ensures within { IfOk result (λ part. IsPartOf part (length cs.now + 1)) }
{
    if cs.is_empty() || !starts_name(cs[0]) {
        return Ok(Part::Bad);
    }
    let width = name_width(after(cs, 1));
    if char_at(cs, width) != '}' {
        return Ok(Part::Bad);
    }
    let form = word_form(alloc, front(cs, width))?;
    if is_name(form) {
        Ok(Part::Inner(width + 2))
    } else {
        Ok(Part::Bad)
    }
}

fn opening_brace(alloc: Global, cs: &[char]) -> Result<Part, NoMemory>
    requires { length cs.now < 2 ^ 31 }
    ensures value { IfOk result (λ part. part ≡ opening_brace cs.now) }
    ensures within { IfOk result (λ part. IsPartOf part (length cs.now + 1)) }
{
    if char_at(cs, 0) == '{' {
        Ok(Part::Inner(2))
    } else {
        hole(alloc, cs)
    }
}

fn closing_brace(cs: &[char]) -> Part
    ensures value { result ≡ closing_brace cs.now }
    ensures within { IsPartOf result (length cs.now + 1) }
{
    if char_at(cs, 0) == '}' {
        Part::Inner(2)
    } else {
        Part::Bad
    }
}

// What a character that is neither a closing quote nor a backslash begins.
fn plain_part(
    alloc: Global,
    style: Style,
    c: char,
    cs: &[char],
    line_ends: bool,
) -> Result<Part, NoMemory>
    requires { length cs.now < 2 ^ 31 }
    ensures value { IfOk result (λ part. part ≡ plain_part style c cs.now line_ends) }
    ensures within { IfOk result (λ part. IsPartOf part (length cs.now + 1)) }
{
    if line_ends {
        Ok(if style.triple {
            Part::Inner(1)
        } else {
            Part::Missing
        })
    } else if style.holes && c == '{' {
        opening_brace(alloc, cs)
    } else if style.holes && c == '}' {
        Ok(closing_brace(cs))
    } else {
        Ok(Part::Inner(1))
    }
}

// The part of a string that begins here, where it is not closed yet.
#[tactic(auto, unfolding(crate::specs::Strings::part_of))]
fn part_of(alloc: Global, style: Style, cs: &[char]) -> Result<Part, NoMemory>
    requires some { 0 < length cs.now }
    requires bound { length cs.now < 2 ^ 31 }
    ensures value { IfOk result (λ part. part ≡ part_of style cs.now) }
    ensures within { IfOk result (λ part. IsPartOf part (length cs.now)) }
{
    if cs[0] == '\\' {
        Ok(escape(after(cs, 1)))
    } else {
        plain_part(alloc, style, cs[0], after(cs, 1), line_end(cs) > 0)
    }
}

// How the string goes on behind its opening quotes.
#[tactic(auto, using(crate::proofs::StringLaws::string_parts))]
fn body_of(alloc: Global, style: Style, cs: &[char]) -> Result<Body, NoMemory>
    requires bound { length cs.now < 2 ^ 31 }
    requires quote { 0 < style.quote }
    ensures value { IfOk result (λ body. body ≡ string_from style 0 0 cs.now) }
    ensures within { IfOk result (λ body. EndsIn body (length cs.now)) }
{
    let mut passed = 0;
    let mut rest = cs;
    while !rest.is_empty() {
        if closes(style, rest) {
            return Ok(Body::Closed(passed + quotes(style)));
        }
        match part_of(alloc, style, rest)? {
            Part::Missing => return Ok(Body::Cut),
            Part::Bad => return Ok(Body::Spoiled(passed)),
            Part::Inner(width) => {
                passed += width;
                rest = after(rest, width);
            }
        }
    }
    Ok(Body::Cut)
}

// The piece that a string with this body is.
fn string_by(style: Style, lead: usize, body: Body) -> Front
    requires lead { lead ≤ 4 }
    requires within { EndsIn body (2 ^ 31) }
    ensures { result ≡ string_by style lead body }
{
    match body {
        Body::Closed(n) => Front {
            piece: Piece::Token(if style.holes {
                TokenForm::FormatStr
            } else {
                TokenForm::Str
            }),
            width: lead + n,
        },
        Body::Cut if style.triple => Front {
            piece: Piece::Unclosed,
            width: lead,
        },
        Body::Cut => Front {
            piece: Piece::Fault,
            width: 0,
        },
        Body::Spoiled(n) => Front {
            piece: Piece::Fault,
            width: lead + n,
        },
    }
}

/// The string that begins here with its prefix, if it may have holes, and its quotes.
#[tactic(auto, unfolding(crate::specs::Strings::string_front))]
pub fn string_front(alloc: Global, style: Style, cs: &[char]) -> Result<Front, NoMemory>
    requires bound { length cs.now < 2 ^ 31 }
    requires quote { 0 < style.quote }
    requires lead { lead_of style ≤ length cs.now }
    ensures value { IfOk result (λ f. f ≡ string_front style cs.now) }
    ensures within { IfOk result (λ f. IsWithin f (length cs.now)) }
{
    let lead = lead_of(style);
    let body = body_of(alloc, style, after(cs, lead))?;
    Ok(string_by(style, lead, body))
}

fn lead_of(style: Style) -> usize
    ensures value { result ≡ lead_of style }
    ensures most { result ≤ 4 }
{
    let prefix = if style.holes { 1 } else { 0 };
    prefix + quotes(style)
}

/// Whether the character is a quote.
pub fn is_quote(c: char) -> bool
    ensures { result ≡ is_quote c }
{
    c == '\'' || c == '"'
}

/// The style of a string whose first quote stands before these.
pub fn style_of(holes: bool, quote: char, cs: &[char]) -> Style
    ensures value { result ≡ style_of holes quote cs.now }
    ensures lead { 0 < quote → lead_of result ≤ (if holes then 1 else 0) + 1 + length cs.now }
{
    Style {
        quote,
        triple: is_tripled(quote, cs),
        holes,
    }
}
