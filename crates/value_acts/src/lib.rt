//! Acts on values: what operators, indices and the calls of value names give.
//!
//! Each act is a plan by the table of its family: specs/Operators.antt, Joins.antt (`Cat`), Arrays.antt, Indices.antt, Selections.antt
//! (`replicate`, `bit_select`, `word_select`), Matching.antt and Names.antt (`Const`, `Mux`, `unsigned`, `signed`). A plan changes nothing: it
//! is put into the pool and the list of things by the crate above, which knows the requests.
#![tactic(auto)]

pub mod arrays;
pub mod indices;
pub mod joins;
pub mod matching;
pub mod name_calls;
pub mod operators;
pub mod selections;
mod slices;
