//! Decimal numerals at the end of a text, straight in its room where they are short.
//!
//! `push_int` adds the numeral of an integer, and `push_decimal` that of a natural number.
#![tactic(auto)]

mod digits;
mod numerals;

pub use numerals::{push_decimal, push_int};
