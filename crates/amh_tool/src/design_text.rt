// From the bytes of a design file to its design, with the order of its bits.
ghost use Rattle.std.specs.Prelude.{◌≡◌, ◌≤◌, ◌<◌, ◌+◌, ◌==◌, length, count_by, IfOk};
ghost use Rattle.std.specs.Str.{chars};
ghost use Rattle.py_lexer.specs.Lines.{logical_lines};
ghost use Rattle.py_tree.specs.Programs.{program_of};
ghost use Rattle.private_names.specs.Statements.{mangled_program};
ghost use Rattle.elab_eval.specs.Fit.{FitsDesign};
ghost use Rattle.amh_tool.specs.Designs.{line_start, refusal};
ghost use Rattle.amh_tool.specs.DesignGives.{DesignGives, CutGives, LinesGive, ProgramGives, RankGives, given_of, stop_seen};
ghost use Rattle.amh_tool.specs.Verdicts.{IsReady};
ghost use Rattle.amh_tool.specs.Views.{plan_seen};

use crate::plan::Plan;
use crate::refusal::{DesignStop, Refusal};
use amh_host::{Budget, Kind, Place, Steps};
use comb_graph::{GraphStop, Ranks, ordered_have_no_loop, rank};
use design_ir::Design;
use elab_eval::{ElabStop, Elaborated, Store, elaborate};
use private_names::mangled;
use py_heap::Frozen;
use py_lexer::{LexStop, Lines, cut_lines};
use py_parser::{ParseStop, parse};
use py_tree::Program;
use std::alloc::Global;
use std::str;
use std::sync::ledger::Ledger;

/// A design, with the order of its bits.
#[derive(Drop)]
pub struct Ranked {
    pub design: Design,
    pub ranks: Ranks,
    pub rest: Rest,
}

/// What a run needs beside the design: the program, what elaboration held and made, and what is left of the budget.
#[derive(Drop)]
pub struct Rest {
    pub program: Program,
    pub store: Store,
    pub frozen: Frozen,
    pub left: Budget,
}

/// Reads a design file, as the plan has it: its budget, and the name of the top where the words give one.
///
/// Refused are bytes that are no UTF-8, as `Text` at the line of the first of them, then what has no logical lines and
/// the first line that the grammar does not allow, as `Subset`, then what elaboration refuses, and then a bit that needs
/// itself, as `Loop`.
pub fn read_design<L: Ledger>(
    alloc: Global,
    bytes: &[u8],
    plan: &Plan<'_>,
    steps: &mut Steps<L>,
) -> Result<Ranked, DesignStop>
    requires few { length bytes.now ≤ 1_048_576 }
    requires budget { 0 < plan.now.budget }
    ensures given { DesignGives (plan_seen plan.now) bytes.now result }
    ensures ready { IfOk result IsReady }
    ensures counted { steps.old ≤ steps.new }
{
    match str::from_utf8(bytes) {
        Ok(text) => read_text(alloc, text, plan, steps),
        Err(fault) => Err(bad_bytes(&bytes[..fault.valid_up_to()])),
    }
}

// Bytes that are no text behind these.
fn bad_bytes(front: &[u8]) -> DesignStop
    requires { length front.now ≤ 1_048_576 }
    ensures { result ≡ DesignStop.Refused (refusal Kind.Text (line_start (count_by (λ b. b == 10) front.now + 1))) }
{
    let line = line_feeds(front) + 1;
    refused(
        Kind::Text,
        Place {
            line: line as u32,
            col: 1,
        },
    )
}

fn line_feeds(text: &[u8]) -> usize
    ensures count { result ≡ count_by (λ b. b == 10) text.now }
    ensures few { result ≤ length text.now }
{
    text.iter().filter(|b| **b == b'\n').count()
}

fn refused(kind: Kind, place: Place) -> DesignStop
    ensures { result ≡ DesignStop.Refused (refusal kind place) }
{
    DesignStop::Refused(Refusal { place, kind })
}

// The design of a text.
fn read_text<L: Ledger>(
    alloc: Global,
    text: &str,
    plan: &Plan<'_>,
    steps: &mut Steps<L>,
) -> Result<Ranked, DesignStop>
    requires few { length text.now ≤ 1_048_576 }
    requires budget { 0 < plan.now.budget }
    ensures given { CutGives (plan_seen plan.now) text.now (logical_lines (chars text.now)) result }
    ensures ready { IfOk result IsReady }
    ensures counted { steps.old ≤ steps.new }
{
    match cut_lines(alloc, text) {
        Ok(lines) => read_lines(alloc, text, &lines, plan, steps),
        Err(LexStop::Subset(place)) => Err(refused(Kind::Subset, place)),
        Err(LexStop::NoMemory) => Err(DesignStop::NoMemory),
    }
}

// The design of the logical lines of a text.
fn read_lines<L: Ledger>(
    alloc: Global,
    text: &str,
    lines: &Lines,
    plan: &Plan<'_>,
    steps: &mut Steps<L>,
) -> Result<Ranked, DesignStop>
    requires { 0 < plan.now.budget }
    ensures given { LinesGive (plan_seen plan.now) text.now lines.now result }
    ensures ready { IfOk result IsReady }
    ensures counted { steps.old ≤ steps.new }
{
    match parse(alloc, text, lines) {
        Ok(program) => read_parsed(alloc, &program, plan, steps),
        Err(ParseStop::Subset(place)) => Err(refused(Kind::Subset, place)),
        Err(ParseStop::NoMemory) => Err(DesignStop::NoMemory),
    }
}

// The design of a program as it was written: Python's compiler writes out the private names of its classes.
fn read_parsed<L: Ledger>(
    alloc: Global,
    program: &Program,
    plan: &Plan<'_>,
    steps: &mut Steps<L>,
) -> Result<Ranked, DesignStop>
    requires { 0 < plan.now.budget }
    ensures given { ProgramGives (plan_seen plan.now) (mangled_program (program_of program.now)) result }
    ensures ready { IfOk result IsReady }
    ensures counted { steps.old ≤ steps.new }
{
    match mangled(alloc, program) {
        Ok(program) => read_program(alloc, program, plan, steps),
        Err(_) => Err(DesignStop::NoMemory),
    }
}

// The design of a program.
fn read_program<L: Ledger>(
    alloc: Global,
    program: Program,
    plan: &Plan<'_>,
    steps: &mut Steps<L>,
) -> Result<Ranked, DesignStop>
    requires { 0 < plan.now.budget }
    ensures given { ProgramGives (plan_seen plan.now) (program_of program) result }
    ensures ready { IfOk result IsReady }
    ensures counted { steps.old ≤ steps.new }
{
    let mut left = Budget { left: plan.budget };
    match elaborate(alloc, &program, plan.top, &mut left, steps) {
        Ok(elaborated) => {
            let Elaborated {
                design,
                store,
                frozen,
            } = elaborated;
            let rest = Rest {
                program,
                store,
                frozen,
                left,
            };
            rank_design(alloc, design, rest)
        }
        Err(stop) => Err(design_stop(stop)),
    }
}

// What elaboration was stopped by.
fn design_stop(stop: ElabStop) -> DesignStop
    ensures { result ≡ stop_seen stop }
{
    match stop {
        ElabStop::Refused(kind, place) => refused(kind, place),
        ElabStop::Spent(place) => DesignStop::Spent(place),
        ElabStop::NoMemory => DesignStop::NoMemory,
    }
}

// The design with the order of its bits, where none needs itself.
fn rank_design(alloc: Global, design: Design, rest: Rest) -> Result<Ranked, DesignStop>
    requires fit { FitsDesign design rest.store }
    requires units { 0 < rest.left.left }
    ensures given { RankGives (given_of design rest) result }
    ensures ready { IfOk result IsReady }
{
    ordered_have_no_loop();
    match rank(alloc, &design) {
        Ok(ranks) => Ok(Ranked {
            design,
            ranks,
            rest,
        }),
        Err(GraphStop::Loop { place, .. }) => {
            drop(rest);
            drop(design);
            Err(refused(Kind::Loop, place))
        }
        Err(GraphStop::NoMemory) => {
            drop(rest);
            drop(design);
            Err(DesignStop::NoMemory)
        }
    }
}
