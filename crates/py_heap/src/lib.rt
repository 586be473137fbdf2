//! What a Python program has made: strings, rows of values, functions, scopes, classes and objects, and what changes in place.
//!
//! A `Heap` holds what one machine made, and a `Frozen` what stands before it, so an id below the frozen length is the frozen
//! one's (specs/Heaps.antt). What is new stands behind the rest, and `Limit` comes exactly where a count would be passed
//! (specs/Places.antt). Values are equal and are members as Python has it (specs/Equality.antt, specs/Members.antt), and keys of
//! dicts are found by it (specs/Keys.antt, specs/Dicts.antt); `Spent` comes exactly where the cost reaches what is left.
//! Lists and dicts change in place, unless they were frozen (specs/Changes.antt). `look_up` gives what a name means where it is
//! read (specs/Names.antt), and `inherited` what a class has by itself or from its base (specs/Objects.antt).
#![tactic(auto)]

mod change;
mod codes;
mod dicts;
mod equality;
mod fresh;
mod heap;
mod members;
mod names;
mod objects;
mod row;
mod scopes;
mod spend;

pub use change::index_place;
pub use fresh::{Fresh, char_count};
pub use heap::{Frozen, Heap};
pub use members::is_key;
pub use objects::Inherited;
pub use scopes::LookUp;
