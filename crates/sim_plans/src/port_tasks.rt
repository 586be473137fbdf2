// The tasks of combinational read ports.
ghost use Rattle.std.specs.Prelude.{◌≡◌, ◌+◌, ◌<◌, ◌++◌, ◌∷◌, [], ℕ, List, length, slice_get, Some, IfOk, OnOk};
ghost use Rattle.std.specs.List.{AllByRecursion};
ghost use Rattle.design_ir.specs.declared.memory.MemRead.{MemRead};
ghost use Rattle.design_ir.specs.declared.memory.Memory.{Memory};
ghost use Rattle.design_ir.specs.Circuits.{is_among};
ghost use Rattle.sim_plans.specs.Driven.{numbers_of};
ghost use Rattle.sim_plans.specs.Plans.{IsTable};
ghost use Rattle.sim_plans.specs.Ports.{comb_ports, unclocked};
ghost use Rattle.sim_plans.specs.Reads.{stands_in};
ghost use Rattle.sim_plans.specs.Tables.{AreNoMarks, ArePorted};
ghost use Rattle.sim_plans.specs.Tasks.{AreAmong, IsProgram};

use crate::compile::{Marks, program, signals_read};
use crate::spread::{mark_all, spread};
use crate::tables::add_reader;
use crate::targets::SigIds;
use crate::task::PortTask;
use amh_host::{Items, NoMemory};
use design_ir::{Design, ExprId, Exprs, Ids, MemRead, SigId};
use std::alloc::Global;

/// The tasks of combinational read ports, and who reads each signal with them: among the tasks, and among the processes.
#[derive(Drop)]
pub struct PortTables {
    pub tasks: Items<PortTask>,
    pub readers: Vec<Items<usize>>,
    pub processes: Vec<Items<usize>>,
    marks: Marks,
}

/// The tasks of all combinational read ports, numbered from `first` on, and behind the processes.
pub fn port_tables(
    alloc: Global,
    design: &Design,
    first: usize,
    readers: Vec<Items<usize>>,
    processes: Vec<Items<usize>>,
) -> Result<PortTables, NoMemory>
    requires readers { IsTable (length design.now.pool.signals) first readers.items }
    requires processes { IsTable (length design.now.pool.signals) (length design.now.processes) processes.items }
    ensures { IfOk result (λ t. ArePorted design.now first t.tasks (comb_ports 0 design.now.memories) readers.items processes.items t.readers.items t.processes.items) }
{
    let mut tables = PortTables {
        tasks: Items::new(alloc),
        readers,
        processes,
        marks: Marks::new(alloc, design)?,
    };
    for k in 0..design.memories().len() {
        tables.add_memory(alloc, design, first, k)?;
    }
    Ok(tables)
}

impl PortTables {
    // Adds the tasks of the ports of one memory.
    fn add_memory(
        &mut self,
        alloc: Global,
        design: &Design,
        first: usize,
        k: usize,
    ) -> Result<(), NoMemory>
        requires there { k < length design.now.memories }
        requires marks { AreNoMarks design.now self.old.marks }
        ensures marks { OnOk result (AreNoMarks design.now self.new.marks) }
        ensures tables { OnOk result ((done : List (ℕ × MemRead)) (m : Memory) (readers processes : List (List ℕ)) → slice_get design.now.memories k ≡ Some m → ArePorted design.now first self.old.tasks done readers processes self.old.readers.items self.old.processes.items → ArePorted design.now first self.new.tasks (done ++ unclocked k m.reads) readers processes self.new.readers.items self.new.processes.items) }
    {
        let _ = design.processes();
        let m = design.memories().get(k);
        for r in m.reads.as_slice() {
            self.add_read(alloc, design, first, k, r)?;
        }
        Ok(())
    }

    // Adds the task of a port if it has no clock.
    fn add_read(
        &mut self,
        alloc: Global,
        design: &Design,
        first: usize,
        k: usize,
        r: &MemRead,
    ) -> Result<(), NoMemory>
        requires there { r.now.addr.0 < length design.now.pool.exprs }
        requires marks { AreNoMarks design.now self.old.marks }
        ensures marks { OnOk result (AreNoMarks design.now self.new.marks) }
        ensures tables { OnOk result ((done : List (ℕ × MemRead)) (readers processes : List (List ℕ)) → ArePorted design.now first self.old.tasks done readers processes self.old.readers.items self.old.processes.items → ArePorted design.now first self.new.tasks (done ++ unclocked k (r.now ∷ [])) readers processes self.new.readers.items self.new.processes.items) }
    {
        if r.domain.is_some() {
            return Ok(());
        }
        self.add_port(alloc, design, first, k, r)
    }

    // Adds the task of a port.
    fn add_port(
        &mut self,
        alloc: Global,
        design: &Design,
        first: usize,
        k: usize,
        r: &MemRead,
    ) -> Result<(), NoMemory>
        requires there { r.now.addr.0 < length design.now.pool.exprs }
        requires marks { AreNoMarks design.now self.old.marks }
        ensures marks { OnOk result (AreNoMarks design.now self.new.marks) }
        ensures tables { OnOk result ((done : List (ℕ × MemRead)) (readers processes : List (List ℕ)) → ArePorted design.now first self.old.tasks done readers processes self.old.readers.items self.old.processes.items → ArePorted design.now first self.new.tasks (done ++ (k, r.now) ∷ []) readers processes self.new.readers.items self.new.processes.items) }
    {
        let _ = design.processes();
        let address = read_address(alloc, design, r.addr, &mut self.marks)?;
        let reads = address.reads.as_slice();
        let n = self.tasks.len();
        add_reader(reads, sum(first, n)?, &mut self.readers)?;
        add_reader(
            reads,
            sum(design.processes().len(), n)?,
            &mut self.processes,
        )?;
        let outs = one_signal(alloc, r.word)?;
        self.tasks.push(PortTask {
            memory: k,
            addr: r.addr,
            outs,
            exprs: address.exprs,
        })
    }
}

/// The sum of two lengths. No memory holds a list that is longer than any number says.
pub fn sum(a: usize, b: usize) -> Result<usize, NoMemory>
    ensures { IfOk result (λ n. n ≡ a + b) }
{
    match a.checked_add(b) {
        Some(n) => Ok(n),
        None => Err(NoMemory),
    }
}

// The list of one signal.
fn one_signal(alloc: Global, s: SigId) -> Result<SigIds, NoMemory>
    ensures { IfOk result (λ list. list ≡ s ∷ []) }
{
    let mut list = Items::new(alloc);
    list.push(s)?;
    Ok(list)
}

// The expressions that stand in an address, each behind those that it names, and the signals among them.
#[derive(Drop)]
struct Address {
    exprs: Ids,
    reads: SigIds,
}

// What stands in an address.
fn read_address(
    alloc: Global,
    design: &Design,
    e: ExprId,
    marks: &mut Marks,
) -> Result<Address, NoMemory>
    requires there { e.0 < length design.now.pool.exprs }
    requires marks { AreNoMarks design.now marks.old }
    ensures program { IfOk result (λ a. IsProgram design.now.pool (length design.now.pool.exprs) a.exprs) }
    ensures computed { IfOk result (λ a. AreAmong a.exprs (e ∷ [])) }
    ensures reads { IfOk result (λ a. (s : ℕ) → is_among (numbers_of a.reads) s ≡ stands_in design.now.pool s e.0) }
    ensures below { IfOk result (λ a. AllByRecursion (λ s. s < length design.now.pool.signals) (numbers_of a.reads)) }
    ensures marks { OnOk result (AreNoMarks design.now marks.new) }
{
    let _ = design.count();
    mark_all(&[e], &mut marks.values);
    spread(design, &mut marks.aims, &mut marks.values);
    let exprs = program(alloc, &marks.aims, &marks.values)?;
    let reads = signals_read(alloc, design, &marks.values)?;
    marks.aims.clear();
    marks.values.clear();
    Ok(Address { exprs, reads })
}
