//! Which expressions a pool has: the first number of one that is the same, and in which a reset stands.
//!
//! Two expressions are the same where all their parts are (`is_same`, specs/Same.antt), and that is equality (laws.rt). `renumbered` is
//! an expression whose parts have other numbers (specs/Numbers.antt). `Known` has the numbers of a pool's expressions in lists, by what
//! each is made of (specs/Lists.antt, specs/Knows.antt), so that `find` gives the first number of one that is the same without a look at
//! all of them, and whether a reset stands in each (specs/First.antt). Want of memory is the one refusal.
#![tactic(auto)]

mod known;
mod laws;
mod lists_of;
mod numbers;
mod sameness;

pub use known::Known;
pub use laws::{lists_have_numbers, same_is_equal};
pub use numbers::{number_now, renumbered};
pub use sameness::is_same;
