// Whole files: the program that all lines stand for, or the line that is refused.
ghost use Rattle.std.specs.Prelude.{◌<◌, map, length};
ghost use Rattle.py_grammar.specs.Block_reading.{program};
ghost use Rattle.py_parser.specs.Files.{line_seen, Tells, Judges};

use crate::block::read_block;
use crate::block_parts::{Around, Halt, LineWords, ReadLine, Site, block};
use amh_host::NoMemory;
use py_grammar::programs_are_exact;
use py_tree::Program;
use std::alloc::Global;

/// Why no program was read.
#[derive(Clone, Copy, PartialEq, Eq, Drop)]
pub enum FileStop {
    /// The number of the line that is refused.
    Line(usize),
    /// No memory was left.
    NoMemory,
}

impl From<NoMemory> for FileStop {
    ghost use Rattle.py_parser.specs.declared.block_file.FileStop.TheVariants.{NoMemory as no_memory};
    ghost use Rattle.std.specs.Prelude.{◌≡◌};

    ghost from_gives = { λ _ e. e ≡ no_memory };

    fn from(_: NoMemory) -> FileStop {
        FileStop::NoMemory
    }
}

/// The program of lines of which there is one at least.
fn read_lines<R: ReadLine>(
    alloc: Global,
    reader: &R,
    lines: &[LineWords],
) -> Result<Program, FileStop>
    requires { 0 < length lines.now }
    ensures { Tells lines.now result (program (map line_seen lines.now)) }
{
    let around = Around {
        in_function: false,
        is_async: false,
        in_loop: false,
    };
    let site = Site {
        around,
        indent: 0,
        room: 64,
    };
    match read_block(alloc, reader, lines, 0, site) {
        Ok((body, at)) => {
            if at < lines.len() {
                Err(FileStop::Line(at))
            } else {
                Ok(Program { body })
            }
        }
        Err(Halt::Stuck(at)) => Err(FileStop::Line(at.min(lines.len() - 1))),
        Err(Halt::NoMemory) => Err(FileStop::NoMemory),
    }
}

/// What the reader of the grammar says of these lines.
fn read_all<R: ReadLine>(
    alloc: Global,
    reader: &R,
    lines: &[LineWords],
) -> Result<Program, FileStop>
    ensures { Tells lines.now result (program (map line_seen lines.now)) }
{
    if lines.is_empty() {
        let body = block(alloc, Vec::new(alloc))?;
        return Ok(Program { body });
    }
    read_lines(alloc, reader, lines)
}

/// The program that the lines of a file stand for, or the number of the line that is refused.
pub(crate) fn read_program<R: ReadLine>(
    alloc: Global,
    reader: &R,
    lines: &[LineWords],
) -> Result<Program, FileStop>
    ensures tells { Tells lines.now result (program (map line_seen lines.now)) }
    ensures judges { Judges lines.now result }
{
    programs_are_exact();
    read_all(alloc, reader, lines)
}
