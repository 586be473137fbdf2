// What is worked out of some statements of a process.
ghost use Rattle.std.specs.Prelude.{◌≡◌, ◌<◌, ◌^◌, ◌||◌, ◌++◌, ℕ, [], false, true, length, replicate, slice_get, Some, IfOk, OnOk};
ghost use Rattle.std.specs.List.{AllByRecursion};
ghost use Rattle.std.specs.List.Sorted.{IsNonDecreasing};
ghost use Rattle.design_ir.specs.declared.expr.Expr.TheVariants as expr;
ghost use Rattle.design_ir.specs.declared.ids.ExprId.{ExprId};
ghost use Rattle.design_ir.specs.declared.ids.SigId.{SigId};
ghost use Rattle.design_ir.specs.Circuits.{is_among};
ghost use Rattle.design_ir.specs.Trees.{statements};
ghost use Rattle.sim_plans.specs.Compiled.{IsCompiled, HoldsSignal, own_signal};
ghost use Rattle.sim_plans.specs.Driven.{AreTargets, numbers_of};
ghost use Rattle.sim_plans.specs.Marks.{is_marked};
ghost use Rattle.sim_plans.specs.Settling.{nobody};
ghost use Rattle.sim_plans.specs.Tables.{AreNoMarks};
ghost use Rattle.sim_plans.specs.Tasks.{places_of};
ghost use Rattle.sim_plans.specs.Waiting.{IsWaiting};

use crate::agenda::Agenda;
use crate::driven::driven_picked;
use crate::roots::mark_picked;
use crate::spread::spread;
use crate::targets::SigIds;
use crate::task::Task;
use amh_host::{Items, NoMemory};
use design_ir::{Design, DesignProcess, Expr, ExprId, Exprs, Ids, SigId};
use std::alloc::Global;

/// A task, and the signals that it reads.
#[derive(Drop)]
pub struct Compiled {
    pub task: Task,
    pub reads: SigIds,
}

/// Room for marks of expressions, none of which is marked between two tasks: targets, and what is read.
#[derive(Drop)]
pub struct Marks {
    pub aims: Agenda,
    pub values: Agenda,
}

impl Marks {
    /// No marks of the expressions of a design.
    pub fn new(alloc: Global, design: &Design) -> Result<Marks, NoMemory>
        ensures { IfOk result (AreNoMarks design.now) }
    {
        let count = design.count() as usize;
        Ok(Marks {
            aims: Agenda::new(alloc, count)?,
            values: Agenda::new(alloc, count)?,
        })
    }
}

/// The task of the statements of process k at these places. It costs what they read, and no walk through all expressions.
pub fn compile(
    alloc: Global,
    design: &Design,
    targets: &[SigIds],
    k: u32,
    p: &DesignProcess,
    places: &[usize],
    marks: &mut Marks,
) -> Result<Compiled, NoMemory>
    requires targets { AreTargets design.now.pool (length design.now.pool.exprs) targets.now }
    requires there { slice_get design.now.processes k ≡ Some p.now }
    requires inside { AllByRecursion (λ i. i < length (statements p.now.body)) places.now }
    requires aims { marks.old.aims ≡ nobody (length design.now.pool.exprs) }
    requires values { marks.old.values ≡ nobody (length design.now.pool.exprs) }
    ensures compiled { IfOk result (IsCompiled design.now k p.now places.now) }
    ensures aims { OnOk result (marks.new.aims ≡ nobody (length design.now.pool.exprs)) }
    ensures values { OnOk result (marks.new.values ≡ nobody (length design.now.pool.exprs)) }
{
    let _ = design.count();
    let _ = design.processes();
    mark_picked(&p.body, places, &mut marks.aims, &mut marks.values);
    spread(design, &mut marks.aims, &mut marks.values);
    let statements = copied(alloc, places)?;
    let outs = driven_picked(alloc, targets, &p.body, places)?;
    let exprs = program(alloc, &marks.aims, &marks.values)?;
    let reads = signals_read(alloc, design, &marks.values)?;
    marks.aims.clear();
    marks.values.clear();
    let task = Task {
        process: k,
        statements,
        outs,
        exprs,
    };
    Ok(Compiled { task, reads })
}

// The same places.
fn copied(alloc: Global, places: &[usize]) -> Result<Items<usize>, NoMemory>
    ensures { IfOk result (λ list. list ≡ places.now) }
{
    let mut list = Items::new(alloc);
    for i in places {
        list.push(*i)?;
    }
    Ok(list)
}

/// The marked expressions, in order.
pub fn program(alloc: Global, aims: &Agenda, values: &Agenda) -> Result<Ids, NoMemory>
    requires aims { length aims.now.marks < 2 ^ 32 }
    requires values { length values.now.marks < 2 ^ 32 }
    ensures order { IfOk result (λ list. IsNonDecreasing (places_of list)) }
    ensures all { IfOk result (λ list. (j : ℕ) → is_among (places_of list) j ≡ (is_marked aims.now.marks j || is_marked values.now.marks j)) }
{
    let mut all = Vec::new(alloc);
    add_marked(aims, &mut all)?;
    add_marked(values, &mut all)?;
    all.sort_unstable();
    ids(alloc, all.as_slice())
}

// Adds what is marked.
fn add_marked(marks: &Agenda, all: &mut Vec<usize>) -> Result<(), NoMemory>
    ensures all { OnOk result (all.new.items ≡ all.old.items ++ marks.now.list) }
    ensures rules { IsWaiting marks.now }
{
    for i in 0..marks.len() {
        all.push(marks.get(i))?;
    }
    Ok(())
}

// Expressions by their numbers.
fn ids(alloc: Global, numbers: &[usize]) -> Result<Ids, NoMemory>
    requires { AllByRecursion (λ k. k < 2 ^ 32) numbers.now }
    ensures { IfOk result (λ list. places_of list ≡ numbers.now) }
{
    let mut list = Items::new(alloc);
    for k in numbers {
        list.push(ExprId(*k as u32))?;
    }
    Ok(list)
}

/// The signals of the marked expressions.
pub fn signals_read(alloc: Global, design: &Design, values: &Agenda) -> Result<SigIds, NoMemory>
    requires { length values.now.marks ≡ length design.now.pool.exprs }
    ensures all { IfOk result (λ list. (k : ℕ) (s : SigId) → slice_get design.now.pool.exprs k ≡ Some (expr.Sig s) → is_marked values.now.marks k ≡ true → is_among (numbers_of list) s.0 ≡ true) }
    ensures only { IfOk result (λ list. (s : ℕ) → is_among (numbers_of list) s ≡ true → HoldsSignal design.now.pool values.now.marks s) }
{
    let _ = design.count();
    let mut list = Items::new(alloc);
    for i in 0..values.len() {
        add_signal(design.at(ExprId(values.get(i) as u32)), &mut list)?;
    }
    Ok(list)
}

// Adds the signal that an expression is.
fn add_signal(e: &Expr, list: &mut SigIds) -> Result<(), NoMemory>
    ensures { OnOk result (list.new ≡ list.old ++ own_signal e.now) }
{
    match e {
        Expr::Sig(s) => list.push(*s),
        _ => Ok(()),
    }
}
