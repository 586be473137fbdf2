// The expressions of memory ports, in an order in which they can be computed.
ghost use Rattle.std.specs.Prelude.{◌≡◌, ◌<◌, ◌++◌, [], ℕ, length, slice_get, Some, IfOk, OnOk};
ghost use Rattle.std.specs.List.{flat_map};
ghost use Rattle.design_ir.specs.declared.memory.Memory.{Memory};
ghost use Rattle.sim_plans.specs.Ports.{HasPorts, enable_exprs, port_exprs, read_exprs, write_exprs};
ghost use Rattle.sim_plans.specs.Tasks.{AreAmong, IsProgram};
ghost use Rattle.sim_plans.specs.Tables.{AreNoMarks};

use crate::compile::{Marks, program};
use crate::spread::{mark_all, spread};
use amh_host::{Items, NoMemory};
use design_ir::{Design, ExprId, Exprs, Ids, MemReads, MemWrites, Memory};
use std::alloc::Global;

/// For each memory the expressions of its ports, each behind those that it names.
pub fn all_ports(alloc: Global, design: &Design) -> Result<Items<Ids>, NoMemory>
    ensures { IfOk result (λ all. (k : ℕ) (m : Memory) → slice_get design.now.memories k ≡ Some m → HasPorts design.now (length design.now.pool.exprs) all k m) }
{
    let mut marks = Marks::new(alloc, design)?;
    let mut all = Items::new(alloc);
    for k in 0..design.memories().len() {
        all.push(ports(alloc, design, k, &mut marks)?)?;
    }
    Ok(all)
}

// The expressions of the ports of one memory.
fn ports(alloc: Global, design: &Design, k: usize, marks: &mut Marks) -> Result<Ids, NoMemory>
    requires there { k < length design.now.memories }
    requires marks { AreNoMarks design.now marks.old }
    ensures program { IfOk result (IsProgram design.now.pool (length design.now.pool.exprs)) }
    ensures computed { IfOk result (λ list. (m : Memory) → slice_get design.now.memories k ≡ Some m → AreAmong list (port_exprs m)) }
    ensures marks { OnOk result (AreNoMarks design.now marks.new) }
{
    let _ = design.count();
    let _ = design.processes();
    let exprs = port_exprs(alloc, design.memories().get(k))?;
    mark_all(exprs.as_slice(), &mut marks.values);
    spread(design, &mut marks.aims, &mut marks.values);
    let list = program(alloc, &marks.aims, &marks.values)?;
    marks.aims.clear();
    marks.values.clear();
    Ok(list)
}

// The expressions that stand in the ports of a memory.
fn port_exprs(alloc: Global, m: &Memory) -> Result<Ids, NoMemory>
    ensures { IfOk result (λ es. es ≡ port_exprs m.now) }
{
    let mut es = Items::new(alloc);
    add_writes(&m.writes, &mut es)?;
    add_reads(&m.reads, &mut es)?;
    Ok(es)
}

fn add_writes(ports: &MemWrites, es: &mut Ids) -> Result<(), NoMemory>
    ensures { OnOk result (es.new ≡ es.old ++ flat_map write_exprs ports.now) }
{
    for w in ports.as_slice() {
        es.push(w.addr)?;
        es.push(w.word)?;
        es.push(w.enable)?;
    }
    Ok(())
}

fn add_reads(ports: &MemReads, es: &mut Ids) -> Result<(), NoMemory>
    ensures { OnOk result (es.new ≡ es.old ++ flat_map read_exprs ports.now) }
{
    for r in ports.as_slice() {
        es.push(r.addr)?;
        add_enable(r.enable, es)?;
    }
    Ok(())
}

fn add_enable(enable: Option<ExprId>, es: &mut Ids) -> Result<(), NoMemory>
    ensures { OnOk result (es.new ≡ es.old ++ enable_exprs enable) }
{
    match enable {
        Some(e) => es.push(e),
        None => Ok(()),
    }
}
