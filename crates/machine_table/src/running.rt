// A run of a program by its answers.
ghost use Rattle.std.specs.Prelude.{◌≡◌, ◌<◌, ◌++◌, max, IfOk, codes, string_bytes};
ghost use Rattle.py_tree.specs.Programs.{program_of};
ghost use Rattle.py_machine.specs.Lives.{IsOf, Resumed, again};
ghost use Rattle.machine_table.specs.Words.{place_said};

use crate::answers::{Given, given_of};
use crate::question::Question;
use crate::requests::Requests;
use crate::said::{end_said, request_said, stop_said};
use amh_host::{Budget, Place, Steps};
use private_names::mangled;
use py_heap::Frozen;
use py_lexer::{LexStop, cut_lines};
use py_machine::{Answer, Machine, Turn};
use py_parser::{ParseStop, parse};
use py_tree::Program;
use py_values::{Hw, Val};
use std::alloc::Global;
use std::marker::Brand;
use std::sync::ledger::{Blank, Ledger};
use table_text::Stop;

/// How many bytes a program may have.
const MOST: usize = 1_048_576;

/// What came of a question.
pub fn said_of(alloc: Global, question: &Question) -> Result<String, Stop> {
    let text = question.program.as_str();
    if text.len() > MOST || question.budget == 0 {
        return Err(Stop::NoCase);
    }
    let lines = match cut_lines(alloc, text) {
        Ok(lines) => lines,
        Err(LexStop::Subset(place)) => return refused(alloc, place),
        Err(LexStop::NoMemory) => return Err(Stop::NoMemory),
    };
    match parse(alloc, text, &lines) {
        Ok(program) => {
            let program = mangled(alloc, &program)?;
            counted_run::<Brand>(alloc, question, &program, Blank::new(1))
        }
        Err(ParseStop::Subset(place)) => refused(alloc, place),
        Err(ParseStop::NoMemory) => Err(Stop::NoMemory),
    }
}

fn refused(alloc: Global, place: Place) -> Result<String, Stop>
    ensures { IfOk result (λ said. string_bytes said ≡ codes "refused " ++ place_said place) }
{
    Ok(format!(in alloc; "refused {}:{}", place.line, place.col)?)
}

// The ledger of the counter is picked at the call, so the counter is made below it.
fn counted_run<L: Ledger>(
    alloc: Global,
    question: &Question,
    program: &Program,
    blank: Blank,
) -> Result<String, Stop>
    requires { (blank.name ≡ L.name) × (blank.parts ≡ L.parts) × (0 < L.parts) }
{
    let run = Run {
        alloc,
        program,
        frozen: Frozen::empty(alloc),
        machine: Machine::start(alloc, program)?,
        phase: Phase::Body,
        requests: Requests::new(alloc),
        left: Budget {
            left: question.budget,
        },
        steps: Steps::<L>::new(blank),
    };
    run.said(question)
}

// What a run evaluates: the body, nothing more since the body has ended, or a testbench over what the body made.
#[derive(Clone, Copy, PartialEq, Eq, Drop)]
enum Phase {
    Body,
    BodyEnded,
    Bench,
}

// A program that runs, what it asked so far, and how many units are left.
#[derive(Drop)]
struct Run<'a, L: Ledger> {
    alloc: Global,
    program: &'a Program,
    frozen: Frozen,
    machine: Machine,
    phase: Phase,
    requests: Requests,
    left: Budget,
    steps: Steps<L>,
}

impl<'a, L: Ledger> Run<'a, L> {
    // What comes of all answers, and what it costs.
    fn said(self, question: &Question) -> Result<String, Stop>
        requires { IsOf (program_of self.program.now) self.machine }
    {
        let mut run = self;
        let mut said = run.said_after(Answer::Begin)?;
        if question.answers.is_empty() {
            return run.with_cost(said.as_str(), question.budget);
        }
        for spelled in question.answers.split(';') {
            said.push_str(" / ")?;
            let answer = match given_of(run.alloc, &run.requests, spelled)? {
                Given::Answer(answer) => answer,
                Given::Bench { callee, ctx } => {
                    run = run.before_bench(callee, ctx)?;
                    Answer::Begin
                }
            };
            said.push_str(run.said_after(answer)?.as_str())?;
        }
        run.with_cost(said.as_str(), question.budget)
    }

    // What came of a question, and the units that were spent.
    fn with_cost(&self, said: &str, budget: u64) -> Result<String, Stop> {
        let cost = budget.saturating_sub(self.left.left);
        Ok(format!(in self.alloc; "{said} cost {cost}")?)
    }

    // A testbench is to begin over what the body made, which has ended.
    fn before_bench(self, callee: Val, ctx: Hw) -> Result<Run<'a, L>, Stop>
        ensures { IfOk result (λ run. IsOf (program_of run.program.now) run.machine) }
    {
        let Run {
            alloc,
            program,
            frozen,
            machine,
            phase,
            requests,
            left,
            steps,
        } = self;
        let frozen = match phase {
            Phase::Body => return Err(Stop::NoCase),
            Phase::BodyEnded => machine.freeze(),
            Phase::Bench => frozen,
        };
        let machine = Machine::bench(alloc, &frozen, callee, ctx)?;
        Ok(Run {
            alloc,
            program,
            frozen,
            machine,
            phase: Phase::Bench,
            requests,
            left,
            steps,
        })
    }

    // What comes of an answer.
    fn said_after(&mut self, answer: Answer) -> Result<String, Stop>
        requires { IsOf (program_of self.old.program.now) self.old.machine }
        ensures { IsOf (program_of self.new.program.now) self.new.machine }
    {
        match self.turn_after(answer) {
            Turn::Asks(request) => {
                let said = request_said(self.alloc, &self.machine, &self.frozen, &request)?;
                self.requests.push(request)?;
                Ok(said)
            }
            Turn::Ended(v) => {
                if self.phase == Phase::Body {
                    self.phase = Phase::BodyEnded;
                }
                end_said(self.alloc, &self.machine, &self.frozen, v)
            }
            Turn::Stopped(stop) => stop_said(self.alloc, stop),
            Turn::NoMemory => Ok(String::from_str(self.alloc, "no memory")?),
        }
    }

    // What an answer brings. Where no unit is left the program has stopped, and a unit is lent that it does not spend.
    fn turn_after(&mut self, answer: Answer) -> Turn
        requires { IsOf (program_of self.old.program.now) self.old.machine }
        ensures of { IsOf (program_of self.new.program.now) self.new.machine }
        ensures comes { Resumed (again self.old.machine.stage) (program_of self.old.program.now) self.old.frozen answer result self.old.machine self.new.machine (max 1 self.old.left.left) }
    {
        let is_lent = self.left.left == 0;
        if is_lent {
            self.left.left = 1;
        }
        let turn = self.machine.resume(
            self.program,
            &self.frozen,
            answer,
            &mut self.left,
            &mut self.steps,
        );
        if is_lent {
            self.left.left = 0;
        }
        turn
    }
}
