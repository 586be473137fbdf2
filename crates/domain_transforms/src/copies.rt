// Copies of texts and lists.
ghost use Rattle.std.specs.Prelude.{◌≡◌, IfOk};

use crate::controls::{Control, Controls, NamePair, NamePairs};
use amh_host::{Items, NoMemory, Text};
use design_ir::{DomainDefs, MemRead, MemReads, MemWrite, MemWrites, Memories, Memory};
use fragment_walks::copies::copied_definition;
use std::alloc::Global;

/// The same text once more.
pub(crate) fn copied_text(alloc: Global, text: &Text) -> Result<Text, NoMemory>
    ensures { IfOk result (λ t. t ≡ text.now) }
{
    let mut copy = Text::new(alloc);
    copy.push(text.as_str())?;
    Ok(copy)
}

/// The same elements once more.
pub(crate) fn copied_items<T: Copy + Drop>(
    alloc: Global,
    items: &Items<T>,
) -> Result<Items<T>, NoMemory>
    ensures { IfOk result (λ xs. xs ≡ items.now) }
{
    let mut copy = Items::new(alloc);
    for x in items.as_slice() {
        copy.push(*x)?;
    }
    Ok(copy)
}

/// The same definitions of domains once more.
pub(crate) fn copied_definitions(
    alloc: Global,
    definitions: &DomainDefs,
) -> Result<DomainDefs, NoMemory>
    ensures { IfOk result (λ ds. ds ≡ definitions.now) }
{
    let mut copy = Items::new(alloc);
    for definition in definitions.as_slice() {
        copy.push(copied_definition(alloc, definition)?)?;
    }
    Ok(copy)
}

/// The same name of a domain once more, where there is one.
pub(crate) fn copied_name(alloc: Global, name: &Option<Text>) -> Result<Option<Text>, NoMemory>
    ensures { IfOk result (λ n. n ≡ name.now) }
{
    match name {
        Some(name) => Ok(Some(copied_text(alloc, name)?)),
        None => Ok(None),
    }
}

fn copied_writes(alloc: Global, writes: &MemWrites) -> Result<MemWrites, NoMemory>
    ensures { IfOk result (λ ws. ws ≡ writes.now) }
{
    let mut copy = Items::new(alloc);
    for write in writes.as_slice() {
        copy.push(MemWrite {
            domain: copied_text(alloc, &write.domain)?,
            addr: write.addr,
            word: write.word,
            enable: write.enable,
            granularity: write.granularity,
        })?;
    }
    Ok(copy)
}

fn copied_reads(alloc: Global, reads: &MemReads) -> Result<MemReads, NoMemory>
    ensures { IfOk result (λ rs. rs ≡ reads.now) }
{
    let mut copy = Items::new(alloc);
    for read in reads.as_slice() {
        copy.push(MemRead {
            domain: copied_name(alloc, &read.domain)?,
            addr: read.addr,
            word: read.word,
            enable: read.enable,
            transparent: copied_items(alloc, &read.transparent)?,
        })?;
    }
    Ok(copy)
}

/// The same memories once more.
pub(crate) fn copied_memories(alloc: Global, memories: &Memories) -> Result<Memories, NoMemory>
    ensures { IfOk result (λ ms. ms ≡ memories.now) }
{
    let mut copy = Items::new(alloc);
    for memory in memories.as_slice() {
        copy.push(Memory {
            name: copied_text(alloc, &memory.name)?,
            shape: memory.shape,
            depth: memory.depth,
            rows: copied_items(alloc, &memory.rows)?,
            writes: copied_writes(alloc, &memory.writes)?,
            reads: copied_reads(alloc, &memory.reads)?,
        })?;
    }
    Ok(copy)
}

/// The same controls once more.
pub(crate) fn copied_controls(alloc: Global, controls: &Controls) -> Result<Controls, NoMemory>
    ensures { IfOk result (λ cs. cs ≡ controls.now) }
{
    let mut copy = Items::new(alloc);
    for control in controls.as_slice() {
        copy.push(Control {
            domain: copied_text(alloc, &control.domain)?,
            condition: control.condition,
        })?;
    }
    Ok(copy)
}

/// The same pairs of names once more.
pub(crate) fn copied_pairs(alloc: Global, names: &NamePairs) -> Result<NamePairs, NoMemory>
    ensures { IfOk result (λ xs. xs ≡ names.now) }
{
    let mut copy = Items::new(alloc);
    for pair in names.as_slice() {
        copy.push(NamePair {
            before: copied_text(alloc, &pair.before)?,
            after: copied_text(alloc, &pair.after)?,
        })?;
    }
    Ok(copy)
}
