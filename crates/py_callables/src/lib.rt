//! Turns of what is called: attributes as they are looked up, and functions as they are entered.
//!
//! Each takes a `Going` of py_frames and promises `GoesOn` of its part of the meaning: attributes as Python looks them up,
//! `super()` among them; arguments as they meet the parameters (specs/Meeting.antt); and builtins over the elements of rows
//! (specs/Going_over.antt). How arguments come about is a matter of py_calls above.
#![tactic(auto)]

pub mod attribute;
pub mod attribute_leaf;
pub mod attribute_super;
pub mod call_builtin;
pub mod call_enter;
pub mod call_gone;
pub mod call_kind;
pub mod call_meet;
pub mod call_sum;
