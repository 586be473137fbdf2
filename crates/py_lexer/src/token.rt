// Tokens of a logical line.

use amh_host::{Items, Place};

/// What a token is, after Python's lexical analysis.
#[derive(Clone, Copy, PartialEq, Eq, Drop)]
pub enum TokenForm {
    /// A name that is no keyword.
    Name,
    /// One of the keywords of the subset.
    Keyword,
    /// A whole number, in base 10, 16, 8 or 2.
    Number,
    /// A number with a point or an exponent.
    Decimal,
    /// A string without a prefix.
    Str,
    /// A string with the prefix `f`.
    FormatStr,
    /// An operator or a delimiter.
    Sign,
}

/// A token, from its first byte in the source up to the byte behind its last one, at the place of its first
/// character.
#[derive(Clone, Copy, PartialEq, Eq, Drop)]
pub struct Token {
    pub form: TokenForm,
    pub start: u32,
    pub end: u32,
    pub place: Place,
}

/// The tokens of a logical line, in order.
pub type Tokens = Items<Token>;
