//! Things: what a program holds of the hardware, and what a value of the program stands for where a shape, a value or a pattern is wanted.
//!
//! A program holds hardware as things, by number (`Thing`, `Values`; specs/Things.antt). `shape_meant`, `form_meant` and `expr_meant` say
//! what a value of the program is where a shape or a value is wanted (specs/Meant.antt), `operand_of` which operand it is
//! (specs/Operands.antt), and `patterns_meant` where patterns are (specs/Patterns.antt). What an act makes is a plan: expressions, things
//! and an answer (specs/Plans.antt). Which acts there are, and what each plans, is not known here.
#![tactic(auto)]

pub mod arguments;
pub mod comparing;
pub mod given;
mod laws;
pub mod meant;
pub mod members;
pub mod names;
pub mod operand;
pub mod patterns;
pub mod plan;
pub mod putting;
pub mod queue;
pub mod ranges;
pub mod shown;
pub mod texts;
pub mod thing;
pub mod values;

pub use laws::{integers_match, texts_match};
