// The pieces of a text, and where they stand.

use crate::token::TokenForm;
use amh_host::Place;

/// The three pairs of brackets.
#[derive(Clone, Copy, PartialEq, Eq, Drop)]
pub enum Bracket {
    Round,
    Square,
    Curly,
}

/// What a piece of a text is.
#[derive(Clone, Copy, PartialEq, Eq, Drop)]
pub enum Piece {
    Space,
    Tab,
    /// From `#` up to the line's end.
    Comment,
    /// LF, or CR LF.
    LineEnd,
    /// A backslash and the line end behind it.
    Joint,
    /// A token that is no bracket.
    Token(TokenForm),
    Open(Bracket),
    Close(Bracket),
    /// A fault, behind the piece.
    Fault,
    /// A string in triple quotes that the text's end cuts off.
    Unclosed,
}

/// A piece, and how many characters it takes.
#[derive(Clone, Copy, PartialEq, Eq, Drop)]
pub struct Front {
    pub piece: Piece,
    pub width: usize,
}

/// How far a walk over a text has come: in bytes, and the place of the next character.
#[derive(Clone, Copy, PartialEq, Eq, Drop)]
pub struct Mark {
    pub byte: u32,
    pub place: Place,
}

/// A piece between the marks before and behind it.
#[derive(Clone, Copy, PartialEq, Eq, Drop)]
pub struct Placed {
    pub piece: Piece,
    pub from: Mark,
    pub upto: Mark,
}

/// A bracket that stands open.
#[derive(Clone, Copy, PartialEq, Eq, Drop)]
pub struct Opening {
    pub bracket: Bracket,
    pub place: Place,
}
