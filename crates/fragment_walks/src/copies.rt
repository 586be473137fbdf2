// Copies of processes, of domains and of memories.
ghost use Rattle.std.specs.Prelude.{◌≡◌, IfOk};
ghost use Rattle.design_ir.specs.Statements.{statement_of};
ghost use Rattle.fragment_walks.specs.Walks.{memory_named};

use amh_host::{Items, NoMemory, Text};
use design_ir::{
    Arm, Arms, Domain, DomainDef, MemRead, MemReads, MemWrite, MemWrites, Memory, Process, Side,
    Stmt, Stmts,
};
use std::alloc::Global;

/// A text of its own.
pub fn copied(alloc: Global, text: &str) -> Result<Text, NoMemory>
    ensures { IfOk result (λ t. t ≡ text.now) }
{
    let mut copy = Text::new(alloc);
    copy.push(text)?;
    Ok(copy)
}

/// The same domain once more.
pub fn copied_domain(alloc: Global, domain: &Domain) -> Result<Domain, NoMemory>
    ensures { IfOk result (λ copy. copy ≡ domain.now) }
{
    Ok(Domain {
        name: copied(alloc, domain.name.as_str())?,
        clk: domain.clk,
        rst: domain.rst,
        falling: domain.falling,
        async_reset: domain.async_reset,
    })
}

/// The same definition once more.
pub fn copied_definition(alloc: Global, definition: &DomainDef) -> Result<DomainDef, NoMemory>
    ensures { IfOk result (λ copy. copy ≡ definition.now) }
{
    Ok(DomainDef {
        domain: copied_domain(alloc, &definition.domain)?,
        place: definition.place,
    })
}

fn copied_side(alloc: Global, side: &Side) -> Result<Side, NoMemory>
    ensures { IfOk result (λ copy. copy ≡ side.now) }
{
    match side {
        Side::Comb => Ok(Side::Comb),
        Side::Clocked(name) => Ok(Side::Clocked(copied(alloc, name.as_str())?)),
    }
}

/// The same process once more.
pub fn copied_process(alloc: Global, process: &Process) -> Result<Process, NoMemory>
    ensures { IfOk result (λ copy. copy ≡ process.now) }
{
    Ok(Process {
        side: copied_side(alloc, &process.side)?,
        body: copied_block(alloc, &process.body)?,
    })
}

#[cycle(copies)]
fn copied_block(alloc: Global, body: &Stmts) -> Result<Stmts, NoMemory>
    ensures { IfOk result (λ copy. copy ≡ body.now) }
{
    let mut copy = Stmts::new(alloc);
    for statement in body.as_slice() {
        copy.push(copied_statement(alloc, statement)?)?;
    }
    Ok(copy)
}

#[cycle(copies)]
fn copied_statement(alloc: Global, statement: &Stmt) -> Result<Stmt, NoMemory>
    ensures { IfOk result (λ copy. statement_of copy ≡ statement_of statement.now) }
{
    match statement {
        Stmt::Assign {
            target,
            value,
            place,
        } => Ok(Stmt::Assign {
            target: *target,
            value: *value,
            place: *place,
        }),
        Stmt::Choose(arms) => Ok(Stmt::Choose(copied_arms(alloc, arms)?)),
    }
}

#[cycle(copies)]
fn copied_arms(alloc: Global, arms: &Arms) -> Result<Arms, NoMemory>
    ensures { IfOk result (λ copy. copy ≡ arms.now) }
{
    let mut copy = Arms::new(alloc);
    for arm in arms.as_slice() {
        copy.push(Arm {
            condition: arm.condition,
            body: copied_block(alloc, &arm.body)?,
        })?;
    }
    Ok(copy)
}

// ---- memories

// The same elements once more.
fn copied_items<T: Copy + Drop>(alloc: Global, items: &Items<T>) -> Result<Items<T>, NoMemory>
    ensures { IfOk result (λ copy. copy ≡ items.now) }
{
    let mut copy = Items::new(alloc);
    for x in items.as_slice() {
        copy.push(*x)?;
    }
    Ok(copy)
}

fn copied_write(alloc: Global, write: &MemWrite) -> Result<MemWrite, NoMemory>
    ensures { IfOk result (λ copy. copy ≡ write.now) }
{
    Ok(MemWrite {
        domain: copied(alloc, write.domain.as_str())?,
        addr: write.addr,
        word: write.word,
        enable: write.enable,
        granularity: write.granularity,
    })
}

/// The same name once more, where there is one.
pub fn copied_name(alloc: Global, name: &Option<Text>) -> Result<Option<Text>, NoMemory>
    ensures { IfOk result (λ copy. copy ≡ name.now) }
{
    match name {
        Some(name) => Ok(Some(copied(alloc, name.as_str())?)),
        None => Ok(None),
    }
}

fn copied_read(alloc: Global, read: &MemRead) -> Result<MemRead, NoMemory>
    ensures { IfOk result (λ copy. copy ≡ read.now) }
{
    Ok(MemRead {
        domain: copied_name(alloc, &read.domain)?,
        addr: read.addr,
        word: read.word,
        enable: read.enable,
        transparent: copied_items(alloc, &read.transparent)?,
    })
}

fn copied_writes(alloc: Global, writes: &[MemWrite]) -> Result<MemWrites, NoMemory>
    ensures { IfOk result (λ copy. copy ≡ writes.now) }
{
    let mut copy = Items::new(alloc);
    for write in writes {
        copy.push(copied_write(alloc, write)?)?;
    }
    Ok(copy)
}

fn copied_reads(alloc: Global, reads: &[MemRead]) -> Result<MemReads, NoMemory>
    ensures { IfOk result (λ copy. copy ≡ reads.now) }
{
    let mut copy = Items::new(alloc);
    for read in reads {
        copy.push(copied_read(alloc, read)?)?;
    }
    Ok(copy)
}

/// The same memory once more, under a name.
pub fn memory_named(alloc: Global, name: &str, memory: &Memory) -> Result<Memory, NoMemory>
    ensures { IfOk result (λ copy. copy ≡ memory_named name.now memory.now) }
{
    Ok(Memory {
        name: copied(alloc, name)?,
        shape: memory.shape,
        depth: memory.depth,
        rows: copied_items(alloc, &memory.rows)?,
        writes: copied_writes(alloc, memory.writes.as_slice())?,
        reads: copied_reads(alloc, memory.reads.as_slice())?,
    })
}
