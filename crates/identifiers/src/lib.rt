//! What an identifier of Python is, for names that a program gives as strings.
//!
//! `is_identifier` says what the definition in specs/Identifiers.antt says, want of memory aside. It tells by the
//! characters of a text; what names are written by goes by bytes, and `identifiers_are_names` says that an identifier
//! is such a name.
#![tactic(auto)]

mod form;
mod identifier;
mod laws;

pub use identifier::is_identifier;
pub use laws::identifiers_are_names;
