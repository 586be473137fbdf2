//! What `rank`, the simulator and the lowering say of a table of small designs.
//!
//! Standard input is designs in a plain notation of lines, each ended by the line `done`, and for each design the program
//! writes one line: its name and the answer. bench/design_table.py writes stdin and stdout from the tables of bench/designs,
//! where each answer was worked out by hand. With a word behind the command the program writes the RTLIL text of each
//! accepted design that `lower` takes, under a line with its name.
//!
//! The lines of a design, by their first words:
//!
//! - `design NAME` comes first;
//! - `signal NAME WIDTH u|s comb|DOMAIN|input [INIT]` is a signal that combinational statements drive, or those of a domain,
//!   or nothing; signals come in order of their lines, behind the clock `clk`, which every design has;
//! - `domain NAME CLOCK rising|falling [sync RESET|async RESET]` is a domain; domains come in order of their lines, and
//!   their clocks and resets are inputs of one bit; where no line defines `sync`, it is the domain of `clk` that rises,
//!   without a reset, from where it is named first, or the only one;
//! - `assign TARGET VALUE`, `choose`, `arm CONDITION`, `end` are statements; those of a domain stand behind a line with
//!   its name, in order of the domains;
//! - `memory NAME WIDTH u|s DEPTH [NUMBER ..]` is a memory of so many rows, the first of which begin with the numbers and
//!   the others with 0. Its ports stand behind it, and nothing else drives what one gives;
//! - `read SIGNAL ADDRESS` shows the row at the address at once, in a `comb` signal;
//! - `sample SIGNAL PORTS ADDRESS ENABLE` takes the row at each edge of the signal's domain at which the enable is 1, as it
//!   was before the edge but for what the write ports with these numbers write there: `0,2`, counted from 0 in each memory,
//!   or `-` for none;
//! - `write DOMAIN GRANULARITY ADDRESS WORD ENABLE` writes at each edge the granules of so many bits whose bit of the enable
//!   is 1; the write ports of a memory are of one domain;
//! - `chain NAME.BIT ..` asks whether these bits stand in the order of the ranks, each behind the one before it, and
//!   `order` asks for the whole order, where the needs leave only one;
//! - `set NAME NUMBER`, `edge DOMAIN ..` are events, and `show` asks for the numbers of all signals but `clk` behind those
//!   before it; an `edge` of no domain is one of the first;
//! - `counts` asks in how many deltas of the last event a process ran and how often processes ran in them, and `eval VALUE`
//!   for the integer of an expression in the settled numbers.
//!
//! Expressions are words with each operator before its operands: `not neg abs any all parity` of one and `add sub mul div
//! mod and or xor eq ne lt le gt ge shl shr` of two, `mux S A B`, `slice:LOW:WIDTH A`, `cat:COUNT A ..`,
//! `part:WIDTH:STRIDE A OFFSET`, `pick:COUNT INDEX A ..`, `signed A`, `unsigned A`, `match:MASK:BITS A`, constants
//! `NUMBER:WIDTHu` or `NUMBER:WIDTHs`, and names of signals. The place of a statement is its line in the design, from
//! 1, and the column of its first letter.
//!
//! The answer is `accepted`, the number of bits on the longest chain and the number of bits in the order, for each `chain`
//! line `chained` or `apart`, for each `order` line the bits, and for each `show`, `counts` and `eval` line the numbers; or
//! `loop NAME.BIT LINE:COL`; or `no case` for lines that are no design. What `rank`, `Sim` and `lower` say is what they
//! promise; that a design keeps the rules that `Design::new` asks for is tested and proved in sound.rt, domains.rt and
//! memory_rules.rt.
#![tactic(auto)]

mod answer;
mod blocks;
mod domains;
mod events;
mod expressions;
mod form;
mod lines;
mod memories;
mod memory_rules;
mod numbers;
mod pool;
mod reader;
mod reads;
mod shown;
mod signals;
mod sound;
mod tables;
mod texts;

use answer::answer;
use std::alloc::Global;
use std::env::Env;
use std::io;
use table_text::answered;
use texts::text;

fn main(rt: HostRuntime) -> io::Result<()> {
    let alloc = rt.alloc();
    let wants_texts = has_word(&rt)?;
    let mut lines = Vec::new(alloc);
    for line in rt.lines(alloc) {
        let line = line?;
        if line.as_str() != "done" {
            lines.push(line)?;
            continue;
        }
        let said = said_of(alloc, wants_texts, lines.as_slice())?;
        println!(rt; "{said}")?;
        lines = Vec::new(alloc);
    }
    Ok(())
}

// Whether a word stands behind the command.
fn has_word<R: Env + Alloc>(rt: &R) -> io::Result<bool> {
    Ok(std::env::args(rt)?.skip(1).next().is_some())
}

// What is said of a design.
fn said_of(alloc: Global, wants_texts: bool, lines: &[String]) -> io::Result<String> {
    let said = if wants_texts {
        text(alloc, lines)
    } else {
        answer(alloc, lines)
    };
    answered(alloc, said)
}
