// A question of the table.

use std::alloc::Global;
use table_text::{Stop, count, text_of};

/// A program, how many units it has, and the answers to what it asks, as the table has them.
#[derive(Drop)]
pub struct Question<'a> {
    pub budget: u64,
    pub answers: &'a str,
    pub program: String,
}

impl<'a> Question<'a> {
    /// The question of a line.
    pub fn read(alloc: Global, line: &'a str) -> Result<Question<'a>, Stop> {
        let Some((budget, rest)) = line.split_once('|') else {
            return Err(Stop::NoCase);
        };
        let Some((answers, spelled)) = rest.split_once('|') else {
            return Err(Stop::NoCase);
        };
        let budget = count(budget)?;
        let program = text_of(alloc, spelled)?;
        Ok(Question {
            budget,
            answers,
            program,
        })
    }
}
