// The expressions that stand directly in a fragment.
ghost use Rattle.std.specs.Prelude.{◌≡◌, ◌++◌, [], IfOk, OnOk};
ghost use Rattle.std.specs.List.{flat_map};
ghost use Rattle.design_ir.specs.Fragments.{leaf_of};
ghost use Rattle.design_ir.specs.Guards.{block_exprs, choices_exprs, statement_exprs};
ghost use Rattle.design_ir.specs.Statements.{statement_of};
ghost use Rattle.fragment_walks.specs.Held.{leaf_exprs, memory_exprs, read_exprs, write_exprs};

use amh_host::{Items, NoMemory};
use design_ir::{Arms, Fragment, Ids, MemRead, MemWrite, Memory, Process, Stmt, Stmts};
use std::alloc::Global;

// ---- statements

#[cycle(exprs)]
fn add_block(ids: &mut Ids, body: &Stmts) -> Result<(), NoMemory>
    ensures { OnOk result (ids.new ≡ ids.old ++ block_exprs body.now) }
{
    for statement in body.as_slice() {
        add_statement(ids, statement)?;
    }
    Ok(())
}

#[cycle(exprs)]
fn add_statement(ids: &mut Ids, statement: &Stmt) -> Result<(), NoMemory>
    ensures { OnOk result (ids.new ≡ ids.old ++ statement_exprs (statement_of statement.now)) }
{
    match statement {
        Stmt::Assign { target, value, .. } => {
            ids.push(*target)?;
            ids.push(*value)
        }
        Stmt::Choose(arms) => add_arms(ids, arms),
    }
}

#[cycle(exprs)]
fn add_arms(ids: &mut Ids, arms: &Arms) -> Result<(), NoMemory>
    ensures { OnOk result (ids.new ≡ ids.old ++ choices_exprs arms.now) }
{
    for arm in arms.as_slice() {
        ids.push(arm.condition)?;
        add_block(ids, &arm.body)?;
    }
    Ok(())
}

fn add_processes(ids: &mut Ids, processes: &[Process]) -> Result<(), NoMemory>
    ensures { OnOk result (ids.new ≡ ids.old ++ flat_map (λ p. block_exprs p.body) processes.now) }
{
    for process in processes {
        add_block(ids, &process.body)?;
    }
    Ok(())
}

// ---- memories

fn add_write(ids: &mut Ids, write: &MemWrite) -> Result<(), NoMemory>
    ensures { OnOk result (ids.new ≡ ids.old ++ write_exprs write.now) }
{
    ids.push(write.addr)?;
    ids.push(write.word)?;
    ids.push(write.enable)
}

fn add_read(ids: &mut Ids, read: &MemRead) -> Result<(), NoMemory>
    ensures { OnOk result (ids.new ≡ ids.old ++ read_exprs read.now) }
{
    ids.push(read.addr)?;
    match read.enable {
        Some(enable) => ids.push(enable),
        None => Ok(()),
    }
}

fn add_writes(ids: &mut Ids, writes: &[MemWrite]) -> Result<(), NoMemory>
    ensures { OnOk result (ids.new ≡ ids.old ++ flat_map write_exprs writes.now) }
{
    for write in writes {
        add_write(ids, write)?;
    }
    Ok(())
}

fn add_reads(ids: &mut Ids, reads: &[MemRead]) -> Result<(), NoMemory>
    ensures { OnOk result (ids.new ≡ ids.old ++ flat_map read_exprs reads.now) }
{
    for read in reads {
        add_read(ids, read)?;
    }
    Ok(())
}

/// Adds the expressions of memory ports.
pub fn add_memories(ids: &mut Ids, memories: &[Memory]) -> Result<(), NoMemory>
    ensures { OnOk result (ids.new ≡ ids.old ++ flat_map memory_exprs memories.now) }
{
    for memory in memories {
        add_writes(ids, memory.writes.as_slice())?;
        add_reads(ids, memory.reads.as_slice())?;
    }
    Ok(())
}

/// The expressions that stand directly in the statements and the memory ports of a fragment.
pub fn leaf_exprs(alloc: Global, fragment: &Fragment) -> Result<Ids, NoMemory>
    ensures { IfOk result (λ ids. ids ≡ leaf_exprs (leaf_of fragment.now)) }
{
    let mut ids = Items::new(alloc);
    add_processes(&mut ids, fragment.processes.as_slice())?;
    add_memories(&mut ids, fragment.memories.as_slice())?;
    Ok(ids)
}
