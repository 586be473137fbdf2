// The ranks of a design, or its least loop.
ghost use Rattle.std.specs.Prelude.{◌≡◌, ◌<◌, ◌≤◌, ◌^◌, map, length, IfOk, IfErr};
ghost use Rattle.std.specs.List.{filter};
ghost use Rattle.digraph.specs.Graphs.{IsSorted};
ghost use Rattle.digraph.specs.Walks.{IsSeen};
ghost use Rattle.comb_graph.specs.Rules.{IsNeedsGraph};
ghost use Rattle.digraph.specs.Depths.{is_counted};
ghost use Rattle.comb_graph.specs.CombNodes.{bit_at, AreCombNodes};
ghost use Rattle.comb_graph.specs.Rankings.{bit_of, IsRanking};
ghost use Rattle.comb_graph.specs.Refusals.{IsRefused};

use crate::comb::comb_signals;
use crate::needs::needs_graph;
use crate::ranks::{RankedBit, RankedBits, Ranks};
use crate::stop::GraphStop;
use crate::told::loop_place;
use amh_host::{Items, NoMemory};
use design_ir::{Design, Exprs, SigId};
use digraph::{Graph, Mark, Walked, least_loop, longest, sort};
use std::alloc::Global;

// The bit whose node this is.
fn bit_at(node: usize) -> RankedBit
    requires { node < 2 ^ 21 }
    ensures { bit_of result ≡ bit_at node }
{
    RankedBit {
        sig: SigId((node / 128) as u32),
        bit: (node % 128) as u8,
    }
}

fn is_counted(counted: &[bool], node: usize) -> bool
    ensures { result ≡ is_counted counted.now node }
{
    node < counted.len() && counted[node]
}

// The bits of the counted nodes among these, in order.
fn bits_among(alloc: Global, order: &[usize], counted: &[bool]) -> Result<RankedBits, NoMemory>
    requires { length counted.now ≤ 2 ^ 21 }
    ensures { IfOk result (λ bits. map bit_of bits ≡ map bit_at (filter (is_counted counted.now) order.now)) }
{
    let mut bits = Items::new(alloc);
    for node in order {
        if is_counted(counted, *node) {
            bits.push(bit_at(*node))?;
        }
    }
    Ok(bits)
}

// Whether each node of a signal's bit is that of a bit of a combinational signal.
fn comb_nodes(alloc: Global, design: &Design) -> Result<Vec<bool>, NoMemory>
    ensures { IfOk result (λ v. AreCombNodes design.now v.items) }
{
    let signals = comb_signals(alloc, design)?;
    let mut counted = Vec::new(alloc);
    let _ = design.count();
    for node in 0..128 * design.signals() as usize {
        let bit = bit_at(node);
        let is_comb = signals[bit.sig.0 as usize] && bit.bit < design.sig_at(bit.sig).shape.width;
        counted.push(is_comb)?;
    }
    Ok(counted)
}

// The ranks of a design whose graph of needs is sorted.
fn ranks(
    alloc: Global,
    design: &Design,
    graph: &Graph,
    order: &Items<usize>,
) -> Result<Ranks, NoMemory>
    requires needs { IsNeedsGraph graph.now design.now }
    requires sorted { IsSorted graph.now order.now }
    ensures { IfOk result (IsRanking design.now) }
{
    let _ = design.count();
    let counted = comb_nodes(alloc, design)?;
    let bits = bits_among(alloc, order.as_slice(), counted.as_slice())?;
    let most = longest(alloc, graph, order, counted.as_slice())?;
    Ok(Ranks::new(bits, most as u32))
}

// Why a design is refused in whose graph of needs a node reaches itself.
fn refusal(
    alloc: Global,
    design: &Design,
    graph: &Graph,
    marks: &[Mark],
) -> Result<GraphStop, NoMemory>
    requires needs { IsNeedsGraph graph.now design.now }
    requires seen { IsSeen graph.now marks.now }
    ensures { IfOk result (IsRefused design.now) }
{
    let _ = design.count();
    let count = 128 * design.signals() as usize;
    let least = least_loop(alloc, graph, marks, count)?;
    let bit = bit_at(least.unwrap());
    let place = loop_place(alloc, design, bit)?;
    Ok(GraphStop::Loop {
        sig: bit.sig,
        bit: bit.bit,
        place,
    })
}

/// The bits of a design's combinational signals and combinational read data, each behind those that it needs, or the least
/// bit that needs itself.
pub fn rank(alloc: Global, design: &Design) -> Result<Ranks, GraphStop>
    ensures ranks { IfOk result (IsRanking design.now) }
    ensures refused { IfErr result (IsRefused design.now) }
{
    let graph = needs_graph(alloc, design)?;
    match sort(alloc, &graph)? {
        Walked::Sorted(order) => Ok(ranks(alloc, design, &graph, &order)?),
        Walked::Looping(marks) => Err(refusal(alloc, design, &graph, marks.as_slice())?),
    }
}
