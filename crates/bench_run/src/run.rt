// A run, from row to row.
ghost use Rattle.std.specs.Prelude.{◌≡◌, ◌<◌, ◌≤◌, ◌^◌, List, [], IfOk};
ghost use Rattle.comb_graph.specs.Rankings.{IsRanking};
ghost use Rattle.py_tree.specs.Programs.{program_of};
ghost use Rattle.elab_eval.specs.Elaborates.{found_of};
ghost use Rattle.elab_eval.specs.Fit.{IsFit};
ghost use Rattle.play_text.specs.Trace.{Row as Abstract_row};
ghost use Rattle.bench_run.specs.Runs.{Run as Abstract_run, Point as Abstract, run_of, first_point};
ghost use Rattle.bench_run.specs.Standing.{StandsFor, CanGoOn, NextRow, RowCosts, RowMoves, units_of};

use crate::begin::begin;
use crate::point::Point;
use crate::setting::Setting;
use crate::turns::{Step, next_step};
use amh_bits::Int;
use amh_host::{Budget, Steps};
use comb_graph::{Ranks, ordered_have_one_history};
use design_ir::{Design, Event, Exprs};
use elab_eval::Elaborated;
use fragment_laws::designs_grow_on;
use lists::NoMemory;
use py_frames::request::Stop;
use py_tree::Program;
use std::alloc::Global;
use std::sync::ledger::Ledger;

/// A row: its time in femtoseconds, and what happened; nothing in the first one.
#[derive(Drop)]
pub struct Row {
    pub time: u64,
    pub event: Option<Event>,
}

/// What a run gives next.
#[derive(Drop)]
pub enum RunTurn {
    Row(Row),
    Ended,
    Stopped(Stop),
    NoMemory,
}

#[derive(Clone, Copy, PartialEq, Eq, Drop)]
pub(crate) enum Stage {
    /// Before the first row.
    Before,
    Goes,
    Ended,
    Stopped(Stop),
    NoMemory,
}

/// A run of a simulator.
#[derive(Drop)]
pub struct Run {
    pub(crate) setting: Setting,
    pub(crate) point: Point,
    pub(crate) stage: Stage,
}

impl Run {
    /// Before a run of what a program was elaborated to, of which so many units are left.
    pub fn start(
        alloc: Global,
        program: Program,
        built: Elaborated,
        ranks: &Ranks,
        left: Budget,
    ) -> Result<Run, NoMemory>
        requires fit { IsFit built }
        requires ranked { IsRanking built.design ranks.now }
        requires units { 0 < left.left }
        ensures stands { IfOk result (λ r. StandsFor r (run_of (program_of program) (found_of built)) (first_point (found_of built) left.left) []) }
        ensures going { IfOk result CanGoOn }
        ensures before { IfOk result (λ r. r.stage ≡ Stage.Before) }
        ensures design { IfOk result (λ r. r.point.bench.design ≡ built.design) }
        ensures few { IfOk result (λ r. units_of r.point < 2 ^ 64) }
    {
        designs_grow_on();
        ordered_have_one_history();
        note_units(&left);
        let _ = built.design.count();
        let _ = built.design.processes();
        let Elaborated {
            design,
            store,
            frozen,
        } = built;
        match begin(alloc, design, store, &frozen, ranks) {
            Ok(begun) => Ok(Run {
                setting: Setting {
                    alloc,
                    program,
                    frozen,
                    clocks: begun.clocks,
                    end: begun.end,
                },
                point: Point {
                    bench: begun.bench,
                    sim: begun.sim,
                    testbenches: begun.testbenches,
                    turn: 0,
                    now: None,
                    left,
                },
                stage: Stage::Before,
            }),
            Err(NoMemory) => {
                drop(frozen);
                drop(program);
                Err(NoMemory)
            }
        }
    }

    /// The design that was given, grown by expressions alone.
    pub fn design(&self) -> &Design
        ensures { result.now ≡ self.now.point.bench.design }
    {
        &self.point.bench.design
    }

    /// The numbers of all signals.
    pub fn values(&self) -> &[Int]
        ensures { result.now ≡ self.now.point.sim.env }
    {
        self.point.sim.values()
    }

    /// The signals whose numbers the last event changed.
    pub fn moved(&self) -> &[usize]
        ensures { result.now ≡ self.now.point.sim.moved.list }
    {
        self.point.sim.moved()
    }

    /// The first row, then one for each event, then how the run ended, and that again.
    pub fn next_row<L: Ledger>(&mut self, steps: &mut Steps<L>) -> RunTurn
        requires { CanGoOn self.old }
        ensures going { CanGoOn self.new }
        ensures row { (x : Abstract_run) (first : Abstract) (rows : List Abstract_row) → StandsFor self.old x first rows → NextRow result self.old.stage self.new x first rows }
        ensures moved { RowMoves result self.old self.new }
        ensures costs { RowCosts result self.old self.new }
        ensures counted { steps.old ≤ steps.new }
    {
        match self.stage {
            Stage::Before => {
                self.stage = Stage::Goes;
                RunTurn::Row(Row {
                    time: 0,
                    event: None,
                })
            }
            Stage::Goes => self.next_event(steps),
            Stage::Ended => RunTurn::Ended,
            Stage::Stopped(stop) => RunTurn::Stopped(stop),
            Stage::NoMemory => RunTurn::NoMemory,
        }
    }

    // The row of the next event, or how the run ended.
    fn next_event<L: Ledger>(&mut self, steps: &mut Steps<L>) -> RunTurn
        requires going { CanGoOn self.old }
        requires stage { self.old.stage ≡ Stage.Goes }
        ensures going { CanGoOn self.new }
        ensures row { (x : Abstract_run) (first : Abstract) (rows : List Abstract_row) → StandsFor self.old x first rows → NextRow result Stage.Goes self.new x first rows }
        ensures moved { RowMoves result self.old self.new }
        ensures costs { RowCosts result self.old self.new }
        ensures counted { steps.old ≤ steps.new }
    {
        loop {
            match next_step(&self.setting, &mut self.point, steps) {
                Ok(Step::Goes) => {}
                Ok(Step::Happens(event)) => {
                    return RunTurn::Row(Row {
                        time: self.point.time(),
                        event: Some(event),
                    });
                }
                Ok(Step::Ends) => {
                    self.stage = Stage::Ended;
                    return RunTurn::Ended;
                }
                Ok(Step::Stops(stop)) => {
                    self.stage = Stage::Stopped(stop);
                    return RunTurn::Stopped(stop);
                }
                Err(_) => {
                    self.stage = Stage::NoMemory;
                    return RunTurn::NoMemory;
                }
            }
        }
    }
}

// Nothing is done; callers learn from it that units are counted in 64 bits.
fn note_units(budget: &Budget)
    ensures { budget.now.left < 2 ^ 64 }
{
    let _left = budget.left;
}
