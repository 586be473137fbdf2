//! Names that are made new by a number.
//!
//! `NewNames` keeps the names that were given so far. A name that none of them has is given as it is; one that stands
//! already gets `$` and the least number from 1 on with which it is new (specs/Fresh.antt). `names_are_new` says that
//! what is given is new, that names which differ already are given as they are, and that a path with its number is a public
//! name.
#![tactic(auto)]

mod laws;
mod names;

pub use laws::names_are_new;
pub use names::NewNames;
