//! Python's builtins, the methods of lists and dicts, indices and slices.
//!
//! `builtin` gives exactly what each of them gives (specs/Builtins.antt, which stands on Sequences, Indices, Lists and Scalars
//! here and on Dicts of py_heap); none costs anything by itself. `shown` gives the text that a hole of a string shows.
//! `integers_operated` and `item_at` give what operators and indices give where nothing is made and no unit spent
//! (specs/At_once.antt, proofs/AtOnceLaws.antt). Samples of the definitions are worked out in proofs/SamplesSequences.antt and
//! BuiltinSamples.antt.
#![tactic(auto)]

mod at_once;
mod builtins;
mod indices;
mod methods;
mod scalars;
mod sequences;
mod slices;
mod tuples;

pub use at_once::{integers_operated, item_at};
pub use builtins::builtin;
pub use scalars::shown;
