// What a `DomainRenamer` makes of statements, sides and memory ports.
ghost use Rattle.std.specs.Prelude.{◌≡◌, ◌<◌, ◌++◌, ◌∷◌, [], if◌then◌else◌, map, length, IfOk, OnOk};
ghost use Rattle.std.specs.List.{flat_map, list_any};
ghost use Rattle.design_ir.specs.declared.process.Process.{Process};
ghost use Rattle.design_ir.specs.Guards.{block_exprs, choices_exprs, statement_exprs};
ghost use Rattle.design_ir.specs.Named.{AllBelow};
ghost use Rattle.design_ir.specs.Statements.{statement_of};
ghost use Rattle.domain_transforms.specs.Changes.{id_of};
ghost use Rattle.domain_transforms.specs.Placed.{memory_exprs, read_exprs, write_exprs};
ghost use Rattle.domain_transforms.specs.Renamed.{block_append, renamed_block, renamed_choices, renamed_definition, renamed_memory, renamed_processes, renamed_read, renamed_side, renamed_sides, renamed_statement, renamed_write, side_eq, side_statements};

use crate::controls::{NamePairs, name_after};
use crate::copies::{copied_items, copied_text};
use amh_host::{Items, NoMemory};
use design_ir::{
    Arm, Arms, Domain, DomainDef, DomainDefs, ExprId, MemRead, MemReads, MemWrite, MemWrites,
    Memories, Memory, Process, Processes, Side, Stmt, Stmts,
};
use std::alloc::Global;

/// What stands for an expression.
pub(crate) fn id_of(ids: &[ExprId], e: ExprId) -> ExprId
    requires { e.0 < length ids.now }
    ensures { result ≡ id_of ids.now e }
{
    ids[e.0 as usize]
}

// ---- statements

// Adds statements behind others.
#[cycle(renaming)]
fn add_renamed(
    alloc: Global,
    ids: &[ExprId],
    body: &Stmts,
    into: &mut Stmts,
) -> Result<(), NoMemory>
    requires { AllBelow (length ids.now) (block_exprs body.now) }
    ensures { OnOk result (into.new ≡ block_append into.old (renamed_block (id_of ids.now) body.now)) }
{
    for statement in body.as_slice() {
        into.push(renamed_statement(alloc, ids, statement)?)?;
    }
    Ok(())
}

#[cycle(renaming)]
fn renamed_statement(alloc: Global, ids: &[ExprId], statement: &Stmt) -> Result<Stmt, NoMemory>
    requires { AllBelow (length ids.now) (statement_exprs (statement_of statement.now)) }
    ensures { IfOk result (λ s. statement_of s ≡ renamed_statement (id_of ids.now) (statement_of statement.now)) }
{
    match statement {
        Stmt::Assign {
            target,
            value,
            place,
        } => Ok(Stmt::Assign {
            target: id_of(ids, *target),
            value: id_of(ids, *value),
            place: *place,
        }),
        Stmt::Choose(arms) => Ok(Stmt::Choose(renamed_arms(alloc, ids, arms)?)),
    }
}

#[cycle(renaming)]
fn renamed_arms(alloc: Global, ids: &[ExprId], arms: &Arms) -> Result<Arms, NoMemory>
    requires { AllBelow (length ids.now) (choices_exprs arms.now) }
    ensures { IfOk result (λ xs. xs ≡ renamed_choices (id_of ids.now) arms.now) }
{
    let mut all = Arms::new(alloc);
    for arm in arms.as_slice() {
        let mut body = Stmts::new(alloc);
        add_renamed(alloc, ids, &arm.body, &mut body)?;
        all.push(Arm {
            condition: id_of(ids, arm.condition),
            body,
        })?;
    }
    Ok(all)
}

// ---- processes

fn renamed_side(alloc: Global, names: &NamePairs, side: &Side) -> Result<Side, NoMemory>
    ensures { IfOk result (λ s. s ≡ renamed_side names.now side.now) }
{
    match side {
        Side::Comb => Ok(Side::Comb),
        Side::Clocked(name) => Ok(Side::Clocked(name_after(alloc, names, name)?)),
    }
}

fn copied_side(alloc: Global, side: &Side) -> Result<Side, NoMemory>
    ensures { IfOk result (λ s. s ≡ side.now) }
{
    match side {
        Side::Comb => Ok(Side::Comb),
        Side::Clocked(name) => Ok(Side::Clocked(copied_text(alloc, name)?)),
    }
}

fn side_eq(a: &Side, b: &Side) -> bool
    ensures { result ≡ side_eq a.now b.now }
{
    match (a, b) {
        (Side::Comb, Side::Comb) => true,
        (Side::Clocked(a), Side::Clocked(b)) => a.is(b.as_str()),
        _ => false,
    }
}

fn has_side(sides: &[Side], side: &Side) -> bool
    ensures { result ≡ list_any (λ s. side_eq s side.now) sides.now }
{
    sides.iter().any(|s| side_eq(s, side))
}

// Adds a side, unless it is there.
fn add_side(sides: &mut Vec<Side>, side: Side) -> Result<(), NoMemory>
    ensures { OnOk result (sides.new.items ≡ (if list_any (λ s. side_eq s side) sides.old.items then sides.old.items else sides.old.items ++ side ∷ [])) }
{
    if has_side(sides.as_slice(), &side) {
        drop(side);
        return Ok(());
    }
    match sides.push(side) {
        Ok(()) => Ok(()),
        Err(left) => {
            drop(left);
            Err(NoMemory)
        }
    }
}

// The sides that processes get, each where it comes first.
fn renamed_sides(
    alloc: Global,
    names: &NamePairs,
    processes: &[Process],
) -> Result<Vec<Side>, NoMemory>
    ensures { IfOk result (λ v. v.items ≡ renamed_sides names.now processes.now) }
{
    let mut sides = Vec::new(alloc);
    for process in processes {
        let side = renamed_side(alloc, names, &process.side)?;
        add_side(&mut sides, side)?;
    }
    Ok(sides)
}

// Adds statements behind others, where they are of the side.
fn add_where(
    alloc: Global,
    ids: &[ExprId],
    body: &Stmts,
    of_side: bool,
    into: &mut Stmts,
) -> Result<(), NoMemory>
    requires { AllBelow (length ids.now) (block_exprs body.now) }
    ensures { OnOk result (into.new ≡ (if of_side then block_append into.old (renamed_block (id_of ids.now) body.now) else into.old)) }
{
    if of_side {
        return add_renamed(alloc, ids, body, into);
    }
    Ok(())
}

// The statements of all processes that get a side, one after another.
fn side_statements(
    alloc: Global,
    names: &NamePairs,
    ids: &[ExprId],
    side: &Side,
    processes: &[Process],
) -> Result<Stmts, NoMemory>
    requires { AllBelow (length ids.now) (flat_map (λ (p : Process). block_exprs p.body) processes.now) }
    ensures { IfOk result (λ b. b ≡ side_statements names.now (id_of ids.now) side.now processes.now) }
{
    let mut body = Stmts::new(alloc);
    for process in processes {
        let own = renamed_side(alloc, names, &process.side)?;
        let of_side = side_eq(side, &own);
        drop(own);
        add_where(alloc, ids, &process.body, of_side, &mut body)?;
    }
    Ok(body)
}

/// One process for each side that processes get.
pub(crate) fn renamed_processes(
    alloc: Global,
    names: &NamePairs,
    ids: &[ExprId],
    processes: &Processes,
) -> Result<Processes, NoMemory>
    requires { AllBelow (length ids.now) (flat_map (λ (p : Process). block_exprs p.body) processes.now) }
    ensures { IfOk result (λ ps. ps ≡ renamed_processes names.now (id_of ids.now) processes.now) }
{
    let sides = renamed_sides(alloc, names, processes.as_slice())?;
    let mut all = Items::new(alloc);
    for side in sides.as_slice() {
        all.push(Process {
            side: copied_side(alloc, side)?,
            body: side_statements(alloc, names, ids, side, processes.as_slice())?,
        })?;
    }
    Ok(all)
}

// ---- memories

fn renamed_write(
    alloc: Global,
    names: &NamePairs,
    ids: &[ExprId],
    write: &MemWrite,
) -> Result<MemWrite, NoMemory>
    requires { AllBelow (length ids.now) (write_exprs write.now) }
    ensures { IfOk result (λ w. w ≡ renamed_write names.now (id_of ids.now) write.now) }
{
    Ok(MemWrite {
        domain: name_after(alloc, names, &write.domain)?,
        addr: id_of(ids, write.addr),
        word: id_of(ids, write.word),
        enable: id_of(ids, write.enable),
        granularity: write.granularity,
    })
}

fn renamed_read(
    alloc: Global,
    names: &NamePairs,
    ids: &[ExprId],
    read: &MemRead,
) -> Result<MemRead, NoMemory>
    requires { AllBelow (length ids.now) (read_exprs read.now) }
    ensures { IfOk result (λ r. r ≡ renamed_read names.now (id_of ids.now) read.now) }
{
    let domain = match &read.domain {
        Some(name) => Some(name_after(alloc, names, name)?),
        None => None,
    };
    let enable = match read.enable {
        Some(e) => Some(id_of(ids, e)),
        None => None,
    };
    Ok(MemRead {
        domain,
        addr: id_of(ids, read.addr),
        word: read.word,
        enable,
        transparent: copied_items(alloc, &read.transparent)?,
    })
}

fn renamed_writes(
    alloc: Global,
    names: &NamePairs,
    ids: &[ExprId],
    writes: &MemWrites,
) -> Result<MemWrites, NoMemory>
    requires { AllBelow (length ids.now) (flat_map write_exprs writes.now) }
    ensures { IfOk result (λ ws. ws ≡ map (renamed_write names.now (id_of ids.now)) writes.now) }
{
    let mut all = Items::new(alloc);
    for write in writes.as_slice() {
        all.push(renamed_write(alloc, names, ids, write)?)?;
    }
    Ok(all)
}

fn renamed_reads(
    alloc: Global,
    names: &NamePairs,
    ids: &[ExprId],
    reads: &MemReads,
) -> Result<MemReads, NoMemory>
    requires { AllBelow (length ids.now) (flat_map read_exprs reads.now) }
    ensures { IfOk result (λ rs. rs ≡ map (renamed_read names.now (id_of ids.now)) reads.now) }
{
    let mut all = Items::new(alloc);
    for read in reads.as_slice() {
        all.push(renamed_read(alloc, names, ids, read)?)?;
    }
    Ok(all)
}

fn renamed_memory(
    alloc: Global,
    names: &NamePairs,
    ids: &[ExprId],
    memory: &Memory,
) -> Result<Memory, NoMemory>
    requires { AllBelow (length ids.now) (memory_exprs memory.now) }
    ensures { IfOk result (λ m. m ≡ renamed_memory names.now (id_of ids.now) memory.now) }
{
    let writes = renamed_writes(alloc, names, ids, &memory.writes)?;
    let reads = renamed_reads(alloc, names, ids, &memory.reads)?;
    Ok(Memory {
        name: copied_text(alloc, &memory.name)?,
        shape: memory.shape,
        depth: memory.depth,
        rows: copied_items(alloc, &memory.rows)?,
        writes,
        reads,
    })
}

/// Memories whose ports have other domains.
pub(crate) fn renamed_memories(
    alloc: Global,
    names: &NamePairs,
    ids: &[ExprId],
    memories: &Memories,
) -> Result<Memories, NoMemory>
    requires { AllBelow (length ids.now) (flat_map memory_exprs memories.now) }
    ensures { IfOk result (λ ms. ms ≡ map (renamed_memory names.now (id_of ids.now)) memories.now) }
{
    let mut all = Items::new(alloc);
    for memory in memories.as_slice() {
        all.push(renamed_memory(alloc, names, ids, memory)?)?;
    }
    Ok(all)
}

// ---- definitions

fn renamed_definition(
    alloc: Global,
    names: &NamePairs,
    definition: &DomainDef,
) -> Result<DomainDef, NoMemory>
    ensures { IfOk result (λ d. d ≡ renamed_definition names.now definition.now) }
{
    let domain = &definition.domain;
    Ok(DomainDef {
        domain: Domain {
            name: name_after(alloc, names, &domain.name)?,
            clk: domain.clk,
            rst: domain.rst,
            falling: domain.falling,
            async_reset: domain.async_reset,
        },
        place: definition.place,
    })
}

/// Definitions of domains under other names.
pub(crate) fn renamed_definitions(
    alloc: Global,
    names: &NamePairs,
    definitions: &DomainDefs,
) -> Result<DomainDefs, NoMemory>
    ensures { IfOk result (λ ds. ds ≡ map (renamed_definition names.now) definitions.now) }
{
    let mut all = Items::new(alloc);
    for definition in definitions.as_slice() {
        all.push(renamed_definition(alloc, names, definition)?)?;
    }
    Ok(all)
}
