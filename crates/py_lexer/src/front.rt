// The piece at the front of a text.
ghost use Rattle.std.specs.Prelude.{◌≡◌, ◌+◌, ◌<◌, ◌≤◌, ◌^◌, length, drop, take, slice_index, IfOk, IsTrue};
ghost use Rattle.py_lexer.specs.Fronts.{IsWithin};
ghost use Rattle.py_lexer.specs.Numbers.{is_digit};
ghost use Rattle.py_lexer.specs.Names.{starts_name};
ghost use Rattle.py_lexer.specs.Signs.{opened_by};
ghost use Rattle.py_lexer.specs.Pieces.{joint_front, sign_front, bracket_front, word_front, plain_front, token_front, front_of};

use crate::chars::{after, char_at, front, line_end, line_width};
use crate::names::{name_width, starts_name, word_form};
use crate::numbers::{is_digit, number_front};
use crate::piece::{Front, Piece};
use crate::signs::{closed_by, opened_by, sign_width};
use crate::strings::{is_quote, string_front, style_of};
use crate::token::TokenForm;
use amh_host::NoMemory;
use std::alloc::Global;

// What no token begins with.
const FAULT: Front = Front {
    piece: Piece::Fault,
    width: 0,
};

// A backslash before these: it joins its line to the next.
fn joint_front(cs: &[char]) -> Front
    requires { length cs.now < 2 ^ 31 }
    ensures value { result ≡ joint_front cs.now }
    ensures within { IsWithin result (length cs.now + 1) }
{
    let width = line_end(cs);
    if width > 0 && width < cs.len() {
        Front {
            piece: Piece::Joint,
            width: 1 + width,
        }
    } else {
        FAULT
    }
}

// A sign that is no bracket.
fn sign_front(cs: &[char]) -> Front
    ensures value { result ≡ sign_front cs.now }
    ensures within { IsWithin result (length cs.now) }
{
    let width = sign_width(char_at(cs, 0), char_at(cs, 1), char_at(cs, 2));
    if width > 0 {
        Front {
            piece: Piece::Token(TokenForm::Sign),
            width,
        }
    } else {
        FAULT
    }
}

// A bracket or a sign.
fn bracket_front(cs: &[char]) -> Front
    requires { 0 < length cs.now }
    ensures value { result ≡ bracket_front (opened_by (slice_index cs.now 0)) cs.now }
    ensures within { IsWithin result (length cs.now) }
{
    if let Some(bracket) = opened_by(char_at(cs, 0)) {
        return Front {
            piece: Piece::Open(bracket),
            width: 1,
        };
    }
    match closed_by(char_at(cs, 0)) {
        Some(bracket) => Front {
            piece: Piece::Close(bracket),
            width: 1,
        },
        None => sign_front(cs),
    }
}

// A name or a keyword.
fn word_front(alloc: Global, cs: &[char]) -> Result<Front, NoMemory>
    requires some { 0 < length cs.now }
    requires bound { length cs.now < 2 ^ 31 }
    ensures value { IfOk result (λ f. f ≡ word_front cs.now) }
    ensures within { IfOk result (λ f. IsWithin f (length cs.now)) }
{
    let width = name_width(after(cs, 1));
    match word_form(alloc, front(cs, width))? {
        Some(form) => Ok(Front {
            piece: Piece::Token(form),
            width,
        }),
        None => Ok(FAULT),
    }
}

// A name, a number or a sign.
#[tactic(auto, unfolding(crate::specs::Pieces::plain_front))]
fn plain_front(alloc: Global, cs: &[char]) -> Result<Front, NoMemory>
    requires some { 0 < length cs.now }
    requires bound { length cs.now < 2 ^ 31 }
    ensures value { IfOk result (λ f. f ≡ plain_front cs.now) }
    ensures within { IfOk result (λ f. IsWithin f (length cs.now)) }
{
    if starts_name(char_at(cs, 0)) {
        word_front(alloc, cs)
    } else if is_digit(10, char_at(cs, 0)) {
        Ok(number_front(cs))
    } else {
        Ok(bracket_front(cs))
    }
}

// A token.
#[tactic(auto, unfolding(crate::specs::Pieces::token_front))]
fn token_front(alloc: Global, cs: &[char]) -> Result<Front, NoMemory>
    requires some { 0 < length cs.now }
    requires bound { length cs.now < 2 ^ 31 }
    ensures value { IfOk result (λ f. f ≡ token_front cs.now) }
    ensures within { IfOk result (λ f. IsWithin f (length cs.now)) }
{
    if is_quote(char_at(cs, 0)) {
        let style = style_of(false, char_at(cs, 0), after(cs, 1));
        string_front(alloc, style, cs)
    } else if char_at(cs, 0) == 'f' && is_quote(char_at(cs, 1)) {
        let style = style_of(true, char_at(cs, 1), after(cs, 2));
        string_front(alloc, style, cs)
    } else {
        plain_front(alloc, cs)
    }
}

/// The piece at the front of the text.
#[tactic(auto, unfolding(crate::specs::Pieces::front_of))]
pub fn front_of(alloc: Global, cs: &[char]) -> Result<Front, NoMemory>
    requires some { 0 < length cs.now }
    requires bound { length cs.now < 2 ^ 31 }
    ensures value { IfOk result (λ f. f ≡ front_of cs.now) }
    ensures within { IfOk result (λ f. IsWithin f (length cs.now)) }
{
    let width = line_end(cs);
    let piece = match char_at(cs, 0) {
        ' ' => Piece::Space,
        '\t' => Piece::Tab,
        '#' => {
            return Ok(Front {
                piece: Piece::Comment,
                width: 1 + line_width(after(cs, 1)),
            });
        }
        _ if width > 0 => {
            return Ok(Front {
                piece: Piece::LineEnd,
                width,
            });
        }
        '\\' => return Ok(joint_front(after(cs, 1))),
        _ => return token_front(alloc, cs),
    };
    Ok(Front { piece, width: 1 })
}
