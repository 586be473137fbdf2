// A logical line on its way.
ghost use Rattle.std.specs.Prelude.{◌≡◌, ◌<◌, ◌≤◌, ◌+◌, ◌^◌, ◌-◌, ◌==◌, ◌&&◌, ◌∷◌, [], ◌++◌, length, take, slice_get, OnOk, OnErr, IfOk, IfErr, Ok};
ghost use Rattle.py_lexer.specs.Lines.{fits, same_bracket, is_line_end};

use crate::line::{LexStop, Line};
use crate::piece::{Bracket, Opening, Piece, Placed};
use crate::token::{Token, TokenForm, Tokens};
use amh_host::{Items, NoMemory, Place};
use std::alloc::Global;
use std::marker::Model;
use std::mem;

/// The brackets that stand open. Contracts see the list of them, the first opened first.
#[derive(Drop)]
pub struct Brackets {
    items: Vec<Opening>,
}

impl Model for Brackets {
    ghost use Rattle.std.specs.Prelude.{List};
    ghost use Rattle.py_lexer.specs.declared.piece.Opening.{Opening};

    ghost Value = { List Opening };

    ghost view = { λ a. a.items.items };
}

impl Brackets {
    pub fn new(alloc: Global) -> Self
        ensures { result ≡ [] }
    {
        Brackets {
            items: Vec::new(alloc),
        }
    }

    pub fn push(&mut self, opening: Opening) -> Result<(), NoMemory>
        ensures ok { OnOk result (self.new ≡ self.old ++ opening ∷ []) }
        ensures err { OnErr result (self.new ≡ self.old) }
    {
        match self.items.push(opening) {
            Ok(()) => Ok(()),
            Err(_) => Err(NoMemory),
        }
    }

    /// Takes the last off.
    pub fn pop(&mut self) -> Option<Opening>
        ensures last { result ≡ slice_get self.old (length self.old - 1) }
        ensures rest { self.new ≡ take (length self.old - 1) self.old }
    {
        self.items.pop()
    }

    pub fn len(&self) -> usize
        ensures { result ≡ length self.now }
    {
        self.items.len()
    }

    /// The first.
    pub fn first(&self) -> Option<Opening>
        ensures { result ≡ slice_get self.now 0 }
    {
        self.items.first().copied()
    }
}

/// A logical line on its way: the blanks of its indent so far, whether more of them may come, its tokens so
/// far, and the brackets that stand open.
#[derive(Drop)]
pub struct Going {
    pub indent: u32,
    pub in_indent: bool,
    pub tokens: Tokens,
    pub brackets: Brackets,
}

impl Going {
    ghost use Rattle.py_lexer.specs.Lines.{fresh, meet, closed, spaced, with_token, opened, line_of, last_line, first_opened, is_line_end};
    ghost use Rattle.py_lexer.specs.Gives.{Tells};

    /// At the begin of a logical line.
    pub fn new(alloc: Global) -> Self
        ensures { result ≡ fresh }
    {
        Going {
            indent: 0,
            in_indent: true,
            tokens: Items::new(alloc),
            brackets: Brackets::new(alloc),
        }
    }

    // One more token.
    fn push(&mut self, form: TokenForm, p: Placed) -> Result<(), NoMemory>
        ensures { OnOk result (self.new ≡ with_token form p self.old) }
    {
        self.in_indent = false;
        self.tokens.push(Token {
            form,
            start: p.from.byte,
            end: p.upto.byte,
            place: p.from.place,
        })
    }

    // One more bracket that stands open.
    fn open(&mut self, bracket: Bracket, p: Placed) -> Result<(), NoMemory>
        ensures { OnOk result (self.new ≡ opened bracket p (with_token TokenForm.Sign p self.old)) }
    {
        self.push(TokenForm::Sign, p)?;
        self.brackets.push(Opening {
            bracket,
            place: p.from.place,
        })
    }

    // A bracket that closes the one that was opened last.
    fn close(&mut self, bracket: Bracket, p: Placed) -> Result<(), LexStop>
        ensures ok { OnOk result (closed bracket p self.old ≡ Ok self.new) }
        ensures err { IfErr result (λ stop. Tells stop (closed bracket p self.old)) }
    {
        if !fits(bracket, self.brackets.pop()) {
            return Err(LexStop::Subset(p.from.place));
        }
        self.push(TokenForm::Sign, p)?;
        Ok(())
    }

    // One more blank.
    fn space(&mut self)
        requires { self.old.indent < 2 ^ 31 }
        ensures { self.new ≡ spaced self.old }
    {
        if self.in_indent {
            self.indent += 1;
        }
    }

    // The place of the bracket that was opened first, or this place.
    fn first_opened(&self, place: Place) -> Place
        ensures { result ≡ first_opened self.now.brackets place }
    {
        match self.brackets.first() {
            Some(opening) => opening.place,
            None => place,
        }
    }

    /// One more piece, which does not end the logical line.
    #[tactic(auto, unfolding(crate::specs::Lines::meet))]
    pub fn meet(&mut self, p: Placed) -> Result<(), LexStop>
        requires { self.old.indent < 2 ^ 31 }
        ensures ok { OnOk result (meet p self.old ≡ Ok self.new) }
        ensures err { IfErr result (λ stop. Tells stop (meet p self.old)) }
        ensures indent { OnOk result (self.new.indent ≤ self.old.indent + 1) }
    {
        match p.piece {
            Piece::Space => self.space(),
            Piece::Tab if self.in_indent => return Err(LexStop::Subset(p.from.place)),
            Piece::Tab | Piece::Comment | Piece::LineEnd => {}
            Piece::Joint => self.in_indent = false,
            Piece::Token(form) => self.push(form, p)?,
            Piece::Open(bracket) => self.open(bracket, p)?,
            Piece::Close(bracket) => self.close(bracket, p)?,
            Piece::Fault => return Err(LexStop::Subset(p.upto.place)),
            Piece::Unclosed => return Err(LexStop::Subset(self.first_opened(p.from.place))),
        }
        Ok(())
    }

    /// Whether the piece ends the logical line, since no bracket stands open.
    pub fn is_ended_by(&self, piece: Piece) -> bool
        ensures { result ≡ (is_line_end piece && (length self.now.brackets == 0)) }
    {
        is_line_end(piece) && self.brackets.len() == 0
    }

    /// The first opened of the brackets is told, if one stands open where the text ends.
    pub fn expect_closed(&self) -> Result<(), LexStop>
        ensures ok { OnOk result (self.now.brackets ≡ []) }
        ensures err { IfErr result (λ stop. Tells stop (last_line self.now)) }
    {
        match self.brackets.first() {
            Some(opening) => Err(LexStop::Subset(opening.place)),
            None => Ok(()),
        }
    }

    /// The logical line, if it has a token, behind these lines; another one begins.
    pub fn end_line(&mut self, alloc: Global, lines: &mut Items<Line>) -> Result<(), NoMemory>
        requires { length self.old.brackets ≡ 0 }
        ensures line { OnOk result (lines.new ≡ lines.old ++ line_of self.old) }
        ensures begins { OnOk result (self.new ≡ fresh) }
        ensures few { OnOk result (length lines.new ≤ length lines.old + 1) }
    {
        let tokens = mem::replace(&mut self.tokens, Items::new(alloc));
        let indent = self.indent;
        self.indent = 0;
        self.in_indent = true;
        if tokens.len() > 0 {
            lines.push(Line {
                indent,
                place: tokens.get(0).place,
                tokens,
            })?;
        }
        Ok(())
    }
}

fn is_line_end(piece: Piece) -> bool
    ensures { result ≡ is_line_end piece }
{
    matches!(piece, Piece::LineEnd)
}

// Whether the bracket closes the one that was opened last.
fn fits(bracket: Bracket, opening: Option<Opening>) -> bool
    ensures { result ≡ fits bracket opening }
{
    match opening {
        Some(opening) => same_bracket(bracket, opening.bracket),
        None => false,
    }
}

fn same_bracket(a: Bracket, b: Bracket) -> bool
    ensures { result ≡ same_bracket a b }
{
    match a {
        Bracket::Round => matches!(b, Bracket::Round),
        Bracket::Square => matches!(b, Bracket::Square),
        Bracket::Curly => matches!(b, Bracket::Curly),
    }
}
