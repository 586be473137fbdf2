// The signals that ports of the module's memories give.
ghost use Rattle.std.specs.Prelude.{◌≡◌, ◌<◌, length, replicate, false, slice_index_or, IfOk};
ghost use Rattle.std.specs.List.{AllByRecursion};
ghost use Rattle.design_ir.specs.declared.memory.MemRead.{MemRead};
ghost use Rattle.design_ir.specs.Designs.{IsDesign};
ghost use Rattle.netlist.specs.Tables.{AreReads, AreMarked};

use crate::memories::is_there;
use amh_host::NoMemory;
use design_ir::{Design, Memory, SigId};
use std::alloc::Global;

// No signal is given by a port.
fn unread(alloc: Global, count: u32) -> Result<Vec<bool>, NoMemory>
    ensures { IfOk result (λ reads. reads.items ≡ replicate count false) }
{
    let mut reads = Vec::new(alloc);
    for i in 0..count {
        reads.push(false)?;
    }
    Ok(reads)
}

// Those that the ports of a memory give, where it is one of the module.
fn mark_reads(m: &Memory, reads: &mut Vec<bool>)
    requires { AllByRecursion (λ (r : MemRead). r.word.0 < length reads.old.items) m.now.reads }
    ensures { AreMarked m.now reads.old.items reads.new.items }
{
    if !is_there(m) {
        return;
    }
    for k in 0..m.reads.len() {
        let s = m.reads.get(k).word.0 as usize;
        reads[s] = true;
    }
}

/// Whether a signal is marked.
pub(crate) fn is_marked(reads: &[bool], s: SigId) -> bool
    requires { s.0 < length reads.now }
    ensures { result ≡ slice_index_or reads.now s.0 false }
{
    reads[s.0 as usize]
}

/// Which signals ports of the module's memories give.
pub(crate) fn read_signals(alloc: Global, design: &Design) -> Result<Vec<bool>, NoMemory>
    requires { IsDesign design.now }
    ensures { IfOk result (λ reads. AreReads design.now reads.items) }
{
    let memories = design.memories();
    let mut reads = unread(alloc, design.signals())?;
    for j in 0..memories.len() {
        mark_reads(memories.get(j), &mut reads);
    }
    Ok(reads)
}
