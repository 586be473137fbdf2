//! What the lexer and the parser say of a table of texts.
//!
//! Each line of standard input is a question, a colon and a text in escapes, and for each the program writes a number and
//! the answer. bench/syntax_table.py writes stdin and stdout from the tables of bench/lines, which were worked out by
//! hand from the grammar. How a text is spelled is defined in specs/Escapes.antt of table_text; what is said of it is what
//! `cut_lines`, `words_of`, `read_line`, `read_whole` and `parse` promise.
//!
//! The answer to `tree` is the whole tree of the text. A part is `(HEAD PART ..)`. A node begins with the place P of its
//! first token, as `(HEAD 1:5 PART ..)`: the line, and the column in characters. Names, and strings between `"`, are in
//! escapes. `[X]` is there or not, `X ..` any number of times, and `A|B` is one of both.
//!
//! ```text
//! program    (program STMT ..)
//! STMT       (pass P) (break P) (continue P) (return P [EXPR]) (assert P TEST [MESSAGE]) (raise P EXPR)
//!            (import-all P PATH) (import P PATH (imported P NAME [BOUND]) ..) (evaluate P EXPR)
//!            (assign P (targets EXPR ..) EXPR) (annotate P TARGET ANNOTATION [EXPR]) (augment P SIGN TARGET EXPR)
//!            (if P (branch TEST BLOCK) .. [(else STMT ..)]) (while P TEST BLOCK) (for P TARGETS SOURCE BLOCK)
//!            (with P EXPR [(as TARGET)] BLOCK) (class P NAME [CALL] BLOCK)
//!            (def P (function|async-function P NAME (params PARAM ..) [(result EXPR)] BLOCK))
//! BLOCK      (block STMT ..)
//! PATH       (path NAME ..)
//! PARAM      (param P NAME [(annotation EXPR)] [(default EXPR)]) (star P)
//! EXPR       (name P NAME) (number P N) (decimal P DIGITSeEXPONENT) (quotient P N N|DIGITSeEXPONENT) (string P "TEXT")
//!            (format P "TEXT"|NAME ..) (constant P None|True|False) (tuple P EXPR ..)
//!            (list P EXPR ..) (list P EXPR EACH) (dict P PAIR ..) (dict P PAIR EACH)
//!            (trailed P EXPR TRAILER ..) (await P EXPR) (power P EXPR EXPR) (unary P SIGN EXPR) (not P EXPR)
//!            (binary P EXPR LINK ..) (comparison P EXPR LINK ..) (boolean P EXPR LINK ..) (choice P CHOSEN TEST OTHER)
//! LINK       (SIGN EXPR), where a sign of two words has a `-` between them
//! PAIR       (pair KEY VALUE)
//! EACH       (each TARGETS SOURCE [CONDITION])
//! TRAILER    (attribute NAME) CALL (index EXPR) (slice START|- STOP|- STEP|-)
//! CALL       (call EXPR|(starred EXPR)|(keyword NAME EXPR) ..) (call EXPR EACH)
//! ```
#![tactic(auto)]

mod answer;
mod expressions;
mod forms;
mod nodes;
mod steps;
mod tree;
mod words;

use answer::{Aspect, Question, answer};
use std::alloc::Global;
use std::io;
use table_text::{Stop, answered, bytes_of};

/// How many bytes a text may have.
const MOST: usize = 1_048_576;

fn main(rt: HostRuntime) -> io::Result<()> {
    let alloc = rt.alloc();
    let mut number = 0u64;
    for line in rt.lines(alloc) {
        number = number.saturating_add(1);
        let said = answered(alloc, said_to(alloc, line?.as_str()))?;
        println!(rt; "{number} {said}")?;
    }
    Ok(())
}

// The answer to a line of the table.
fn said_to(alloc: Global, line: &str) -> Result<String, Stop> {
    let Some((word, spelled)) = line.split_once(':') else {
        return Err(Stop::NoCase);
    };
    let question = question_of(word)?;
    match bytes_of(alloc, spelled.as_bytes())? {
        Some(bytes) if bytes.len() <= MOST => answer(alloc, question, bytes.as_slice()),
        _ => Err(Stop::NoCase),
    }
}

fn question_of(word: &str) -> Result<Question, Stop> {
    match word {
        "program" => Ok(Question::Program),
        "tree" => Ok(Question::Tree),
        "words" => Ok(Question::Lines(Aspect::Words)),
        "form" => Ok(Question::Lines(Aspect::Form)),
        "expression" => Ok(Question::Lines(Aspect::Expression)),
        _ => Err(Stop::NoCase),
    }
}
