// What an `EnableInserter` makes of processes and memories.
ghost use Rattle.std.specs.Prelude.{◌≡◌, ◌<◌, ◌≤◌, map, length, option_and_then, IfOk, OnOk};
ghost use Rattle.std.specs.List.{flat_map};
ghost use Rattle.design_ir.specs.Named.{AllBelow};
ghost use Rattle.domain_transforms.specs.Controlled.{control_of};
ghost use Rattle.domain_transforms.specs.Enabling.{enabled_memory, enabled_process, enabled_read, enabled_write, gated, gated_by, gated_option, under};
ghost use Rattle.domain_transforms.specs.Making.{each_in};
ghost use Rattle.domain_transforms.specs.Placed.{AreControls, OptionBelow, memory_exprs, read_exprs, write_exprs};

use crate::controls::{Controls, control_of, side_control};
use crate::copies::{copied_items, copied_text};
use amh_bits::Int;
use amh_host::{Items, NoMemory};
use design_ir::{
    Arm, Arms, Expr, ExprId, Exprs, MemRead, MemReads, MemWrite, MemWrites, Memories, Memory, Pool,
    Process, Processes, Stmt, Stmts,
};
use fragment_walks::copies::copied_process;
use std::alloc::Global;

// Statements that are carried out where a condition is not 0.
fn under(alloc: Global, condition: Option<ExprId>, body: Stmts) -> Result<Stmts, NoMemory>
    ensures { IfOk result (λ b. b ≡ under condition body) }
{
    let Some(condition) = condition else {
        return Ok(body);
    };
    let mut arms = Arms::new(alloc);
    arms.push(Arm { condition, body })?;
    let mut outer = Stmts::new(alloc);
    outer.push(Stmt::Choose(arms))?;
    Ok(outer)
}

// A process whose statements the control of its domain lets through.
fn enabled_process(
    alloc: Global,
    controls: &Controls,
    process: &Process,
) -> Result<Process, NoMemory>
    ensures { IfOk result (λ p. p ≡ enabled_process controls.now process.now) }
{
    let Process { side, body } = copied_process(alloc, process)?;
    let condition = side_control(controls, &side);
    Ok(Process {
        side,
        body: under(alloc, condition, body)?,
    })
}

/// Processes whose statements the controls of their domains let through.
pub(crate) fn enabled_processes(
    alloc: Global,
    controls: &Controls,
    processes: &Processes,
) -> Result<Processes, NoMemory>
    ensures { IfOk result (λ ps. ps ≡ map (enabled_process controls.now) processes.now) }
{
    let mut all = Items::new(alloc);
    for process in processes.as_slice() {
        all.push(enabled_process(alloc, controls, process)?)?;
    }
    Ok(all)
}

// An enable where a condition is not 0, else 0.
fn gated(pool: &mut Pool, condition: ExprId, enable: ExprId) -> Result<ExprId, NoMemory>
    requires condition { condition.0 < length pool.old.exprs }
    requires enable { enable.0 < length pool.old.exprs }
    ensures more { OnOk result (length pool.old.exprs ≤ length pool.new.exprs) }
    ensures made { IfOk result (λ e. (e, pool.new) ≡ gated pool.old condition enable) }
{
    pool.known();
    let shape = pool.shape(enable);
    let zero = pool.more(Expr::Const {
        value: Int::of_u128(0),
        shape,
    })?;
    pool.known();
    pool.more(Expr::Mux {
        s: condition,
        a: enable,
        b: zero,
    })
}

// An enable that a control gates, where there is one.
fn gated_by(pool: &mut Pool, condition: Option<ExprId>, enable: ExprId) -> Result<ExprId, NoMemory>
    requires condition { OptionBelow (length pool.old.exprs) condition }
    requires enable { enable.0 < length pool.old.exprs }
    ensures more { OnOk result (length pool.old.exprs ≤ length pool.new.exprs) }
    ensures made { IfOk result (λ e. (e, pool.new) ≡ gated_by condition pool.old enable) }
{
    match condition {
        Some(condition) => gated(pool, condition, enable),
        None => Ok(enable),
    }
}

fn gated_option(
    pool: &mut Pool,
    condition: Option<ExprId>,
    enable: Option<ExprId>,
) -> Result<Option<ExprId>, NoMemory>
    requires condition { OptionBelow (length pool.old.exprs) condition }
    requires enable { OptionBelow (length pool.old.exprs) enable }
    ensures more { OnOk result (length pool.old.exprs ≤ length pool.new.exprs) }
    ensures made { IfOk result (λ e. (e, pool.new) ≡ gated_option condition pool.old enable) }
{
    match enable {
        Some(enable) => Ok(Some(gated_by(pool, condition, enable)?)),
        None => Ok(None),
    }
}

// A write port whose enable the control of its domain gates.
fn enabled_write(
    alloc: Global,
    pool: &mut Pool,
    controls: &Controls,
    write: &MemWrite,
) -> Result<MemWrite, NoMemory>
    requires controls { AreControls (length pool.old.exprs) controls.now }
    requires there { AllBelow (length pool.old.exprs) (write_exprs write.now) }
    ensures more { OnOk result (length pool.old.exprs ≤ length pool.new.exprs) }
    ensures made { IfOk result (λ w. (w, pool.new) ≡ enabled_write controls.now pool.old write.now) }
{
    let condition = control_of(controls, write.domain.as_str());
    Ok(MemWrite {
        domain: copied_text(alloc, &write.domain)?,
        addr: write.addr,
        word: write.word,
        enable: gated_by(pool, condition, write.enable)?,
        granularity: write.granularity,
    })
}

// The control of a read port's domain, where it has one.
fn read_control(controls: &Controls, read: &MemRead) -> Option<ExprId>
    ensures { result ≡ option_and_then (control_of controls.now) read.now.domain }
{
    match &read.domain {
        Some(name) => control_of(controls, name.as_str()),
        None => None,
    }
}

// A read port whose enable the control of its domain gates.
fn enabled_read(
    alloc: Global,
    pool: &mut Pool,
    controls: &Controls,
    read: &MemRead,
) -> Result<MemRead, NoMemory>
    requires controls { AreControls (length pool.old.exprs) controls.now }
    requires there { AllBelow (length pool.old.exprs) (read_exprs read.now) }
    ensures more { OnOk result (length pool.old.exprs ≤ length pool.new.exprs) }
    ensures made { IfOk result (λ r. (r, pool.new) ≡ enabled_read controls.now pool.old read.now) }
{
    let condition = read_control(controls, read);
    let domain = match &read.domain {
        Some(name) => Some(copied_text(alloc, name)?),
        None => None,
    };
    Ok(MemRead {
        domain,
        addr: read.addr,
        word: read.word,
        enable: gated_option(pool, condition, read.enable)?,
        transparent: copied_items(alloc, &read.transparent)?,
    })
}

// Write ports whose enables the controls of their domains gate.
fn enabled_writes(
    alloc: Global,
    pool: &mut Pool,
    controls: &Controls,
    writes: &MemWrites,
) -> Result<MemWrites, NoMemory>
    requires controls { AreControls (length pool.old.exprs) controls.now }
    requires there { AllBelow (length pool.old.exprs) (flat_map write_exprs writes.now) }
    ensures more { OnOk result (length pool.old.exprs ≤ length pool.new.exprs) }
    ensures made { IfOk result (λ ws. (ws, pool.new) ≡ each_in (enabled_write controls.now) pool.old writes.now) }
{
    let mut all = Items::new(alloc);
    for write in writes.as_slice() {
        all.push(enabled_write(alloc, pool, controls, write)?)?;
    }
    Ok(all)
}

// Read ports whose enables the controls of their domains gate.
fn enabled_reads(
    alloc: Global,
    pool: &mut Pool,
    controls: &Controls,
    reads: &MemReads,
) -> Result<MemReads, NoMemory>
    requires controls { AreControls (length pool.old.exprs) controls.now }
    requires there { AllBelow (length pool.old.exprs) (flat_map read_exprs reads.now) }
    ensures more { OnOk result (length pool.old.exprs ≤ length pool.new.exprs) }
    ensures made { IfOk result (λ rs. (rs, pool.new) ≡ each_in (enabled_read controls.now) pool.old reads.now) }
{
    let mut all = Items::new(alloc);
    for read in reads.as_slice() {
        all.push(enabled_read(alloc, pool, controls, read)?)?;
    }
    Ok(all)
}

// A memory whose ports the controls of their domains gate.
fn enabled_memory(
    alloc: Global,
    pool: &mut Pool,
    controls: &Controls,
    memory: &Memory,
) -> Result<Memory, NoMemory>
    requires controls { AreControls (length pool.old.exprs) controls.now }
    requires there { AllBelow (length pool.old.exprs) (memory_exprs memory.now) }
    ensures more { OnOk result (length pool.old.exprs ≤ length pool.new.exprs) }
    ensures made { IfOk result (λ m. (m, pool.new) ≡ enabled_memory controls.now pool.old memory.now) }
{
    let writes = enabled_writes(alloc, pool, controls, &memory.writes)?;
    let reads = enabled_reads(alloc, pool, controls, &memory.reads)?;
    Ok(Memory {
        name: copied_text(alloc, &memory.name)?,
        shape: memory.shape,
        depth: memory.depth,
        rows: copied_items(alloc, &memory.rows)?,
        writes,
        reads,
    })
}

/// Memories whose ports the controls of their domains gate.
pub(crate) fn enabled_memories(
    alloc: Global,
    pool: &mut Pool,
    controls: &Controls,
    memories: &Memories,
) -> Result<Memories, NoMemory>
    requires controls { AreControls (length pool.old.exprs) controls.now }
    requires there { AllBelow (length pool.old.exprs) (flat_map memory_exprs memories.now) }
    ensures more { OnOk result (length pool.old.exprs ≤ length pool.new.exprs) }
    ensures made { IfOk result (λ ms. (ms, pool.new) ≡ each_in (enabled_memory controls.now) pool.old memories.now) }
{
    let mut all = Items::new(alloc);
    for memory in memories.as_slice() {
        all.push(enabled_memory(alloc, pool, controls, memory)?)?;
    }
    Ok(all)
}
