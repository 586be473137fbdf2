// The nodes of the bits of a spec.
ghost use Rattle.std.specs.Prelude.{◌≡◌, ◌<◌, ◌++◌, map, All, IfOk, OnOk};
ghost use Rattle.std.specs.List.{range_with_len};
ghost use Rattle.std.specs.BTreeMap.{get_by_text};
ghost use Rattle.rtlil_text.specs.Sources.{part_bits, spec_bits};
ghost use Rattle.cell_split.specs.Needs.{node_behind, node_of};

use crate::nodes::Nodes;
use amh_host::NoMemory;
use rtlil_text::{SigPart, SigSpec};
use std::alloc::Global;

/// The node of each bit of a spec, the lowest first.
pub(crate) fn spec_nodes(alloc: Global, all: &Nodes, spec: &SigSpec) -> Result<Vec<usize>, NoMemory>
    ensures nodes { IfOk result (λ v. v.items ≡ map (node_of all.now) (spec_bits spec.now)) }
    ensures within { IfOk result (λ v. All (λ n. n < all.now.count) v.items) }
{
    let mut nodes = Vec::new(alloc);
    let mut above = spec.len();
    while above > 0 {
        above -= 1;
        let part = spec.get(above);
        push_part(all, &mut nodes, part)?;
    }
    Ok(nodes)
}

fn push_part(all: &Nodes, nodes: &mut Vec<usize>, part: &SigPart) -> Result<(), NoMemory>
    ensures { OnOk result (nodes.new.items ≡ nodes.old.items ++ map (node_of all.now) (part_bits part.now)) }
{
    match part {
        SigPart::Const(bits) => push_constants(nodes, all.spare, bits.as_slice()),
        SigPart::Wire { id, low, width } => {
            push_bits(all, nodes, all.first(id.as_str()), *low, *width)
        }
    }
}

fn push_bits(
    all: &Nodes,
    nodes: &mut Vec<usize>,
    first: Option<usize>,
    low: u32,
    width: u32,
) -> Result<(), NoMemory>
    ensures { OnOk result (nodes.new.items ≡ nodes.old.items ++ map (node_behind all.now first) (range_with_len low width)) }
{
    for k in 0..width {
        nodes.push(all.behind(first, low as usize + k as usize))?;
    }
    Ok(())
}

fn push_constants(nodes: &mut Vec<usize>, spare: usize, bits: &[bool]) -> Result<(), NoMemory>
    ensures { OnOk result (nodes.new.items ≡ nodes.old.items ++ map (λ b. spare) bits.now) }
{
    for _bit in bits {
        nodes.push(spare)?;
    }
    Ok(())
}

impl Nodes {
    // The node of the first bit of a wire.
    fn first(&self, id: &str) -> Option<usize>
        ensures { result ≡ get_by_text self.now.firsts id.now }
    {
        match self.firsts.get(id) {
            Some(first) => Some(*first),
            None => None,
        }
    }

    // The node of a bit of the wire whose first bit has this node.
    fn behind(&self, first: Option<usize>, place: usize) -> usize
        ensures { result ≡ node_behind self.now first place }
    {
        match first {
            Some(first) if first < self.count && place < self.count - first => first + place,
            _ => self.spare,
        }
    }
}
