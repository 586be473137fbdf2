//! The values of a Python program, the arithmetic of its integers, and what a name or a function has.
//!
//! A `Val` is a number, a time or a thing, or it names by number what stands in a heap, which is the crate py_heap's: a string, a
//! row of values or a function. What is here knows of no heap. Integers and booleans are operated exactly (specs/Numbers.antt),
//! refused exactly where Python raises or where a number would leave -2^127 to 2^128 - 1. A range is its start, stop and step
//! (specs/Ranges.antt). `Bindings` are the names of a scope with their values, each once (specs/Bindings.antt). What an answer
//! costs, and what a budget makes of it, is defined in specs/Runs.antt.
#![tactic(auto)]

mod bindings;
mod func;
mod number;
mod numbers;
mod op;
mod powers;
mod range;
mod val;
mod vals;

pub use bindings::{Bindings, OwnNames};
pub use func::{Code, Func, Scope};
pub use number::Number;
pub use numbers::{bit_number, calculated, is_less, is_zero, number_of, on_number, on_numbers};
pub use op::{Builtin, PyOp};
pub use range::{Span, comes_before, in_range, is_empty_range, span_of};
pub use val::{FuncId, Hw, NumberStop, ObjId, ScopeId, StrId, Val, ValueStop};
pub use vals::Vals;
