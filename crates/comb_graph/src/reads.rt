// The edges of combinational read ports: each bit of the word needs all bits of the address.
ghost use Rattle.std.specs.Prelude.{◌≡◌, ◌<◌, length, OnOk};
ghost use Rattle.std.specs.List.{flat_map, AllByRecursion};
ghost use Rattle.design_ir.specs.Designs.{IsReadPort};
ghost use Rattle.design_ir.specs.PoolRules.{IsPool};
ghost use Rattle.design_ir.specs.Values.{signal_form};
ghost use Rattle.comb_graph.specs.Places.{HasPlaces};
ghost use Rattle.comb_graph.specs.Rules.{Adds, word_rules, read_rules, memory_rules};

use crate::places::{Nodes, whole};
use amh_host::NoMemory;
use design_ir::{Design, ExprId, MemRead, Memory, SigId};
use digraph::Graph;

// How many bits a signal has.
fn width(design: &Design, s: SigId) -> u8
    requires { s.0 < length design.now.pool.signals }
    ensures { result ≡ (signal_form design.now.pool.signals s.0).width }
{
    design.sig_at(s).shape.width
}

// Adds the edges of the word of a combinational read port.
fn add_word(
    design: &Design,
    graph: &mut Graph,
    firsts: &Nodes,
    word: SigId,
    address: ExprId,
) -> Result<(), NoMemory>
    requires rules { IsPool design.now.pool }
    requires places { HasPlaces graph.old design.now.pool firsts.now }
    requires word { word.0 < length design.now.pool.signals }
    requires address { address.0 < length firsts.now }
    ensures { OnOk result (Adds graph.old graph.new design.now.pool (word_rules design.now.pool word.0 address (signal_form design.now.pool.signals word.0).width)) }
{
    let node = whole(design, firsts, address);
    graph.known();
    for bit in 0..width(design, word) {
        graph.known();
        graph.lead(128 * word.0 as usize + bit as usize, &[node])?;
    }
    Ok(())
}

// Adds the edges of a read port, where it is combinational.
fn add_read(
    design: &Design,
    graph: &mut Graph,
    firsts: &Nodes,
    read: &MemRead,
) -> Result<(), NoMemory>
    requires rules { IsPool design.now.pool }
    requires places { HasPlaces graph.old design.now.pool firsts.now }
    requires word { read.now.word.0 < length design.now.pool.signals }
    requires address { read.now.addr.0 < length firsts.now }
    ensures { OnOk result (Adds graph.old graph.new design.now.pool (read_rules design.now.pool read.now)) }
{
    match read.domain {
        Some(_) => Ok(()),
        None => add_word(design, graph, firsts, read.word, read.addr),
    }
}

// Adds the edges of the read ports of a memory.
fn add_memory(
    design: &Design,
    graph: &mut Graph,
    firsts: &Nodes,
    memory: &Memory,
) -> Result<(), NoMemory>
    requires rules { IsPool design.now.pool }
    requires places { HasPlaces graph.old design.now.pool firsts.now }
    requires count { length firsts.now ≡ length design.now.pool.exprs }
    requires reads { AllByRecursion (IsReadPort design.now memory.now) memory.now.reads }
    ensures { OnOk result (Adds graph.old graph.new design.now.pool (memory_rules design.now.pool memory.now)) }
{
    graph.known();
    for read in memory.reads.as_slice() {
        graph.known();
        add_read(design, graph, firsts, read)?;
    }
    Ok(())
}

/// Adds the edges of the read ports of all memories.
pub fn add_memories(design: &Design, graph: &mut Graph, firsts: &Nodes) -> Result<(), NoMemory>
    requires rules { IsPool design.now.pool }
    requires places { HasPlaces graph.old design.now.pool firsts.now }
    requires count { length firsts.now ≡ length design.now.pool.exprs }
    ensures { OnOk result (Adds graph.old graph.new design.now.pool (flat_map (memory_rules design.now.pool) design.now.memories)) }
{
    let _ = design.processes();
    graph.known();
    for memory in design.memories().as_slice() {
        graph.known();
        add_memory(design, graph, firsts, memory)?;
    }
    Ok(())
}
