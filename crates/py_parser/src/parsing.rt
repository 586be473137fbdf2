// The program of a text.
ghost use Rattle.std.specs.Prelude.{◌≡◌, IfOk, map};
ghost use Rattle.py_grammar.specs.Line_reading.{line_of};
ghost use Rattle.py_grammar.specs.Readers.{Reads};
ghost use Rattle.py_parser.specs.Line_forms.{form_of};
ghost use Rattle.py_parser.specs.Files.{line_seen};
ghost use Rattle.py_parser.specs.Parsing.{words_line, file_lines, IsParsed};

use crate::block_file::{FileStop, read_program};
use crate::block_parts::{LineWords, ReadLine};
use crate::line::LineForm;
use crate::line_reader::read_line;
use amh_host::{NoMemory, Place};
use py_grammar::{Stop, Word};
use py_lexer::{Line, Lines};
use py_tree::Program;
use py_words::words_of;
use std::alloc::Global;

/// Why a text has no program.
#[derive(Clone, Copy, PartialEq, Eq, Drop)]
pub enum ParseStop {
    /// The first logical line with no derivation, a broken condition or a wrong indent begins here.
    Subset(Place),
    /// No memory was left.
    NoMemory,
}

impl From<NoMemory> for ParseStop {
    ghost use Rattle.std.specs.Prelude.{◌≡◌};
    ghost use Rattle.py_parser.specs.declared.parsing.ParseStop.TheVariants.{NoMemory as no_memory};

    ghost from_gives = { λ _ stop. stop ≡ no_memory };

    fn from(_: NoMemory) -> Self {
        ParseStop::NoMemory
    }
}

/// The reader of lines of a file: an expression may stand in 64 brackets.
struct Reader;

impl ReadLine for Reader {
    fn read(&self, alloc: Global, words: &[Word]) -> Result<LineForm, Stop> {
        read_line(alloc, words, 64)
    }
}

/// The program that the logical lines of a text stand for, after the Python reference as far as the subset goes. Refused
/// is the first line with which they are the front of no program, or the head at their end that wants its block, at its
/// first token.
pub fn parse(alloc: Global, text: &str, lines: &Lines) -> Result<Program, ParseStop>
    ensures { IsParsed text.now lines.now result }
{
    let all = all_words(alloc, text, lines)?;
    let _ = lines.count();
    match read_program(alloc, &Reader, &all) {
        Ok(program) => Ok(program),
        Err(FileStop::Line(number)) => Err(ParseStop::Subset(lines.line(number as u32).place)),
        Err(FileStop::NoMemory) => Err(ParseStop::NoMemory),
    }
}

// The words of each line.
fn all_words(alloc: Global, text: &str, lines: &Lines) -> Result<Vec<LineWords>, NoMemory>
    ensures { IfOk result (λ all. map line_seen all.items ≡ file_lines text.now lines.now) }
{
    let mut all = Vec::new(alloc);
    for i in 0..lines.count() {
        all.push(words_in(alloc, text, lines.line(i))?)?;
    }
    Ok(all)
}

// The words of one line.
fn words_in(alloc: Global, text: &str, line: &Line) -> Result<LineWords, NoMemory>
    ensures { IfOk result (λ l. line_seen l ≡ words_line text.now line.now) }
{
    Ok(LineWords {
        indent: line.indent,
        words: words_of(alloc, text, line.tokens.as_slice())?,
    })
}
