// Texts and lists that are kept once more.
ghost use Rattle.std.specs.Prelude.{◌≡◌, ◌++◌, ◌-◌, ◌↔◌, replicate, pos, IfOk, IsTrue, option_copied};
ghost use Rattle.lists.specs.Texts.{text_eq};
ghost use Rattle.memory_ports.specs.Calls.{all_rows};

use amh_bits::Int;
use amh_host::{NoMemory, Numbers, Text};
use design_ir::{Ints, MemRead, MemReads, MemWrite, MemWrites, Memory};
use std::alloc::Global;

/// Whether two texts are the same.
pub fn is_text(a: &str, b: &str) -> bool
    ensures { result ≡ text_eq a.now b.now }
{
    equals(a, b)
}

fn equals(a: &str, b: &str) -> bool
    ensures { IsTrue result ↔ (a.now ≡ b.now) }
{
    a == b
}

/// The same text again.
pub fn copied(alloc: Global, text: &str) -> Result<Text, NoMemory>
    ensures { IfOk result (λ t. t ≡ text.now) }
{
    let mut copy = Text::new(alloc);
    copy.push(text)?;
    Ok(copy)
}

/// The same text again, where there is one.
pub fn copied_option(alloc: Global, text: Option<&str>) -> Result<Option<Text>, NoMemory>
    ensures { IfOk result (λ t. t ≡ option_copied text.entry) }
{
    match text {
        None => Ok(None),
        Some(text) => Ok(Some(copied(alloc, text)?)),
    }
}

/// The same numbers again.
pub fn copied_numbers(alloc: Global, numbers: &[u32]) -> Result<Numbers, NoMemory>
    ensures { IfOk result (λ ns. ns ≡ numbers.now) }
{
    let mut copy = Numbers::new(alloc);
    for n in numbers {
        copy.push(*n)?;
    }
    Ok(copy)
}

// The same integers again.
fn copied_ints(alloc: Global, rows: &[Int]) -> Result<Ints, NoMemory>
    ensures { IfOk result (λ ns. ns ≡ rows.now) }
{
    let mut copy = Ints::new(alloc);
    for n in rows {
        copy.push(*n)?;
    }
    Ok(copy)
}

// So many zeros at the end.
fn push_zeros(rows: &mut Ints, count: usize) -> Result<(), NoMemory>
    ensures { IfOk result (λ _. rows.new ≡ rows.old ++ replicate count (pos 0)) }
{
    for _i in 0..count {
        rows.push(Int::of_u128(0))?;
    }
    Ok(())
}

/// The rows that are given, and 0 in each other row.
pub fn all_rows(alloc: Global, depth: usize, rows: &[Int]) -> Result<Ints, NoMemory>
    ensures { IfOk result (λ all. all ≡ all_rows depth rows.now) }
{
    let mut all = copied_ints(alloc, rows)?;
    if rows.len() < depth {
        push_zeros(&mut all, depth - rows.len())?;
    }
    Ok(all)
}

fn copied_write(alloc: Global, port: &MemWrite) -> Result<MemWrite, NoMemory>
    ensures { IfOk result (λ p. p ≡ port.now) }
{
    Ok(MemWrite {
        domain: copied(alloc, port.domain.as_str())?,
        addr: port.addr,
        word: port.word,
        enable: port.enable,
        granularity: port.granularity,
    })
}

fn copied_writes(alloc: Global, ports: &[MemWrite]) -> Result<MemWrites, NoMemory>
    ensures { IfOk result (λ ps. ps ≡ ports.now) }
{
    let mut copy = MemWrites::new(alloc);
    for port in ports {
        copy.push(copied_write(alloc, port)?)?;
    }
    Ok(copy)
}

fn copied_domain(alloc: Global, domain: &Option<Text>) -> Result<Option<Text>, NoMemory>
    ensures { IfOk result (λ d. d ≡ domain.now) }
{
    match domain {
        None => Ok(None),
        Some(name) => Ok(Some(copied(alloc, name.as_str())?)),
    }
}

fn copied_read(alloc: Global, port: &MemRead) -> Result<MemRead, NoMemory>
    ensures { IfOk result (λ p. p ≡ port.now) }
{
    Ok(MemRead {
        domain: copied_domain(alloc, &port.domain)?,
        addr: port.addr,
        word: port.word,
        enable: port.enable,
        transparent: copied_numbers(alloc, port.transparent.as_slice())?,
    })
}

fn copied_reads(alloc: Global, ports: &[MemRead]) -> Result<MemReads, NoMemory>
    ensures { IfOk result (λ ps. ps ≡ ports.now) }
{
    let mut copy = MemReads::new(alloc);
    for port in ports {
        copy.push(copied_read(alloc, port)?)?;
    }
    Ok(copy)
}

/// The same memory again.
pub fn copied_memory(alloc: Global, memory: &Memory) -> Result<Memory, NoMemory>
    ensures { IfOk result (λ m. m ≡ memory.now) }
{
    Ok(Memory {
        name: copied(alloc, memory.name.as_str())?,
        shape: memory.shape,
        depth: memory.depth,
        rows: copied_ints(alloc, memory.rows.as_slice())?,
        writes: copied_writes(alloc, memory.writes.as_slice())?,
        reads: copied_reads(alloc, memory.reads.as_slice())?,
    })
}
