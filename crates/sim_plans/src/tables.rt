// What is worked out of a design once.
ghost use Rattle.std.specs.Prelude.{◌≡◌, ◌+◌, ◌<◌, ◌^◌, ℕ, List, [], ◌∷◌, ◌++◌, true, None, Some, is_some, length, replicate, slice_get, IfOk, OnOk};
ghost use Rattle.std.specs.List.{range_with_len};
ghost use Rattle.design_ir.specs.Circuits.{is_among};
ghost use Rattle.sim_plans.specs.Driven.{AreTargets, numbers_of};
ghost use Rattle.sim_plans.specs.Groups.{AreOthers, IsApart};
ghost use Rattle.sim_plans.specs.Marks.{is_marked};
ghost use Rattle.sim_plans.specs.Plans.{IsPlan};
ghost use Rattle.sim_plans.specs.Tables.{AreNoMarks, ArePartial, AreTables, IsAdded, IsRoom};

use crate::clearable::clearable_processes;
use crate::compile::{Marks, compile};
use crate::driven::driven_each;
use crate::given::given_signals;
use crate::group::groups;
use crate::plan::Plan;
use crate::port_exprs::all_ports;
use crate::port_tasks::{port_tables, sum};
use crate::targets::{SigIds, all_targets};
use crate::task::Task;
use amh_host::{Items, NoMemory};
use design_ir::{Design, DesignProcess, Exprs, SigId};
use std::alloc::Global;

/// The plan of a design.
pub fn plan_of(alloc: Global, design: &Design) -> Result<Plan, NoMemory>
    ensures { IfOk result (IsPlan design.now (length design.now.pool.exprs)) }
{
    let _ = design.count();
    let _ = design.processes();
    let targets = all_targets(alloc, design)?;
    let given = given_signals(alloc, design, targets.as_slice())?;
    let given = listed(alloc, given.as_slice())?;
    let tables = all_tables(alloc, design, targets.as_slice())?;
    let first = tables.tasks.len();
    let with_ports = port_tables(alloc, design, first, tables.readers, tables.processes)?;
    let reads = with_ports.tasks.len();
    Ok(Plan {
        given,
        clocked: tables.clocked,
        tasks: tables.tasks,
        reads: with_ports.tasks,
        jobs: sum(first, reads)?,
        agents: sum(design.processes().len(), reads)?,
        ports: all_ports(alloc, design)?,
        readers: all_items(alloc, with_ports.readers)?,
        processes: all_items(alloc, with_ports.processes)?,
        clearable: clearable_processes(alloc, design)?,
    })
}

// What is known of all processes.
fn all_tables(alloc: Global, design: &Design, targets: &[SigIds]) -> Result<Tables, NoMemory>
    requires targets { AreTargets design.now.pool (length design.now.pool.exprs) targets.now }
    ensures { IfOk result (λ t. AreTables design.now (length design.now.processes) t.clocked t.tasks t.readers.items t.processes.items) }
{
    let mut tables = Tables::new(alloc, design)?;
    for k in 0..design.processes().len() {
        tables.add(alloc, design, targets, k)?;
    }
    Ok(tables)
}

/// What grows from process to process, and the room in which it is worked out: marks of expressions, and for each signal
/// a statement that drives it.
#[derive(Drop)]
pub struct Tables {
    clocked: Items<Task>,
    tasks: Items<Task>,
    readers: Vec<Items<usize>>,
    processes: Vec<Items<usize>>,
    marks: Marks,
    noted: Vec<usize>,
}

impl Tables {
    fn new(alloc: Global, design: &Design) -> Result<Tables, NoMemory>
        ensures tables { IfOk result (λ t. AreTables design.now 0 t.clocked t.tasks t.readers.items t.processes.items) }
        ensures room { IfOk result (λ t. IsRoom design.now t.marks t.noted.items) }
    {
        Ok(Tables {
            clocked: Items::new(alloc),
            tasks: Items::new(alloc),
            readers: no_readers(alloc, design.signals())?,
            processes: no_readers(alloc, design.signals())?,
            marks: Marks::new(alloc, design)?,
            noted: vec![in alloc; 0; design.signals() as usize]?,
        })
    }

    // Adds what is known of one process more.
    fn add(
        &mut self,
        alloc: Global,
        design: &Design,
        targets: &[SigIds],
        k: usize,
    ) -> Result<(), NoMemory>
        requires there { k < length design.now.processes }
        requires targets { AreTargets design.now.pool (length design.now.pool.exprs) targets.now }
        requires room { IsRoom design.now self.old.marks self.old.noted.items }
        requires earlier { AreTables design.now k self.old.clocked self.old.tasks self.old.readers.items self.old.processes.items }
        ensures tables { OnOk result (AreTables design.now (k + 1) self.new.clocked self.new.tasks self.new.readers.items self.new.processes.items) }
        ensures room { OnOk result (IsRoom design.now self.new.marks self.new.noted.items) }
    {
        let p = design.processes().get(k);
        if p.domain.is_some() {
            self.add_clocked(alloc, design, targets, k, p)
        } else {
            self.add_comb(alloc, design, targets, k, p)
        }
    }

    // Adds a clocked process, which is one task.
    fn add_clocked(
        &mut self,
        alloc: Global,
        design: &Design,
        targets: &[SigIds],
        k: usize,
        p: &DesignProcess,
    ) -> Result<(), NoMemory>
        requires there { slice_get design.now.processes k ≡ Some p.now }
        requires clocked { is_some p.now.domain ≡ true }
        requires targets { AreTargets design.now.pool (length design.now.pool.exprs) targets.now }
        requires room { IsRoom design.now self.old.marks self.old.noted.items }
        requires earlier { AreTables design.now k self.old.clocked self.old.tasks self.old.readers.items self.old.processes.items }
        ensures tables { OnOk result (AreTables design.now (k + 1) self.new.clocked self.new.tasks self.new.readers.items self.new.processes.items) }
        ensures room { OnOk result (IsRoom design.now self.new.marks self.new.noted.items) }
    {
        let _ = design.count();
        let _ = design.processes();
        let all = places(alloc, p.body.len())?;
        let compiled = compile(
            alloc,
            design,
            targets,
            k as u32,
            p,
            all.as_slice(),
            &mut self.marks,
        )?;
        self.clocked.push(compiled.task)
    }

    // Adds a combinational process, which is a task for each group of its statements.
    fn add_comb(
        &mut self,
        alloc: Global,
        design: &Design,
        targets: &[SigIds],
        k: usize,
        p: &DesignProcess,
    ) -> Result<(), NoMemory>
        requires there { slice_get design.now.processes k ≡ Some p.now }
        requires comb { p.now.domain ≡ None }
        requires targets { AreTargets design.now.pool (length design.now.pool.exprs) targets.now }
        requires room { IsRoom design.now self.old.marks self.old.noted.items }
        requires earlier { AreTables design.now k self.old.clocked self.old.tasks self.old.readers.items self.old.processes.items }
        ensures tables { OnOk result (AreTables design.now (k + 1) self.new.clocked self.new.tasks self.new.readers.items self.new.processes.items) }
        ensures room { OnOk result (IsRoom design.now self.new.marks self.new.noted.items) }
    {
        let _ = design.count();
        let _ = design.processes();
        let drives = driven_each(alloc, targets, &p.body)?;
        let groups = groups(alloc, drives.as_slice(), &mut self.noted)?;
        for group in groups.as_slice() {
            self.add_group(alloc, design, targets, k, p, group.as_slice())?;
        }
        self.clocked.push(no_task(alloc))
    }

    // Adds the task of a group of statements, if there are any.
    fn add_group(
        &mut self,
        alloc: Global,
        design: &Design,
        targets: &[SigIds],
        k: usize,
        p: &DesignProcess,
        group: &[usize],
    ) -> Result<(), NoMemory>
        requires there { slice_get design.now.processes k ≡ Some p.now }
        requires comb { p.now.domain ≡ None }
        requires targets { AreTargets design.now.pool (length design.now.pool.exprs) targets.now }
        requires apart { IsApart design.now.pool p.now.body group.now }
        requires marks { AreNoMarks design.now self.old.marks }
        ensures clocked { self.new.clocked ≡ self.old.clocked }
        ensures noted { self.new.noted ≡ self.old.noted }
        ensures marks { OnOk result (AreNoMarks design.now self.new.marks) }
        ensures tables { OnOk result ((gone : List ℕ) → ArePartial design.now k p.now gone self.old.tasks self.old.readers.items self.old.processes.items → AreOthers gone group.now → ArePartial design.now k p.now (gone ++ group.now) self.new.tasks self.new.readers.items self.new.processes.items) }
    {
        let _ = design.processes();
        if group.len() == 0 {
            return Ok(());
        }
        let compiled = compile(alloc, design, targets, k as u32, p, group, &mut self.marks)?;
        let reads = compiled.reads.as_slice();
        add_reader(reads, self.tasks.len(), &mut self.readers)?;
        add_reader(reads, k, &mut self.processes)?;
        self.tasks.push(compiled.task)
    }
}

// So many places.
fn places(alloc: Global, count: usize) -> Result<Items<usize>, NoMemory>
    ensures { IfOk result (λ all. all ≡ range_with_len 0 count) }
{
    let mut all = Items::new(alloc);
    for i in 0..count {
        all.push(i)?;
    }
    Ok(all)
}

// What stands for a combinational process among the clocked ones.
fn no_task(alloc: Global) -> Task {
    Task {
        process: 0,
        statements: Items::new(alloc),
        outs: Items::new(alloc),
        exprs: Items::new(alloc),
    }
}

// For each of so many signals no reader.
fn no_readers(alloc: Global, signals: u32) -> Result<Vec<Items<usize>>, NoMemory>
    ensures { IfOk result (λ lists. lists.items ≡ replicate signals []) }
{
    let mut lists = Vec::new(alloc);
    for _ in 0..signals {
        lists.push(Items::new(alloc))?;
    }
    Ok(lists)
}

/// Adds a reader of these signals.
pub fn add_reader(reads: &[SigId], n: usize, lists: &mut Vec<Items<usize>>) -> Result<(), NoMemory>
    ensures { OnOk result (IsAdded (numbers_of reads.now) n lists.old.items lists.new.items) }
{
    for s in reads {
        add_one(s.0 as usize, n, lists)?;
    }
    Ok(())
}

// Adds a reader of one signal.
fn add_one(s: usize, n: usize, lists: &mut Vec<Items<usize>>) -> Result<(), NoMemory>
    ensures { OnOk result (IsAdded (s ∷ []) n lists.old.items lists.new.items) }
{
    if s < lists.len() {
        lists[s].push(n)?;
    }
    Ok(())
}

// The marked signals.
fn listed(alloc: Global, marks: &[bool]) -> Result<SigIds, NoMemory>
    requires { length marks.now < 2 ^ 32 }
    ensures { IfOk result (λ list. (s : ℕ) → is_among (numbers_of list) s ≡ is_marked marks.now s) }
{
    let mut list = Items::new(alloc);
    for s in 0..marks.len() {
        if marks[s] {
            list.push(SigId(s as u32))?;
        }
    }
    Ok(list)
}

// The same lists.
fn all_items(alloc: Global, lists: Vec<Items<usize>>) -> Result<Items<Items<usize>>, NoMemory>
    ensures { IfOk result (λ all. all ≡ lists.items) }
{
    let mut all = Items::new(alloc);
    for list in lists {
        all.push(list)?;
    }
    Ok(all)
}
