//! Python's operators on what a heap holds, what counts as true, and what a loop or a call goes over.
//!
//! `operate` gives exactly the values, the refusals and the cost of Python's operators (specs/Operators.antt, which stands on
//! Truths and Sums here and on Equality and Members of py_heap). `elements` and `element` tell what a loop or a call goes over
//! (specs/Elements.antt, and specs/Spans.antt of ranges), and a law says that they tell the same (proofs/ElementsAre.antt).
//! Samples of the definitions are worked out in proofs/Samples.antt.
#![tactic(auto)]

mod goes_over;
mod operators;
mod spans;
mod sums;
mod truths;

pub use goes_over::{counts_to, element, elements, sized};
pub use operators::operate;
pub use spans::{note_kept, span_count, span_item, span_number};
pub use sums::{as_list, as_tuple, repeated};
pub use truths::truth;
