// The signals that the read ports of memories give.
ghost use Rattle.std.specs.Prelude.{◌≡◌, ◌++◌, ◌==◌, not, map, IfOk, OnOk};
ghost use Rattle.std.specs.List.{list_all};
ghost use Rattle.design_table.specs.Tests.{is_input_of};
ghost use Rattle.design_table.specs.MemoryTests.{given_port, given_ports, are_distinct};

use crate::tables::is_input;
use amh_host::{Items, NoMemory, Text};
use design_ir::{MemRead, Memory, Port, Ports};
use std::alloc::Global;

/// The signals that the read ports give, as inputs that no statement may drive.
pub fn given_ports(alloc: Global, memories: &[Memory]) -> Result<Ports, NoMemory>
    ensures { IfOk result (λ ps. ps ≡ given_ports memories.now) }
{
    let mut ports = Items::new(alloc);
    for memory in memories {
        add_reads(alloc, &mut ports, memory.reads.as_slice())?;
    }
    Ok(ports)
}

fn add_reads(alloc: Global, ports: &mut Ports, reads: &[MemRead]) -> Result<(), NoMemory>
    ensures { OnOk result (ports.new ≡ ports.old ++ map given_port reads.now) }
{
    for read in reads {
        ports.push(Port {
            name: Text::new(alloc),
            sig: read.word,
            is_input: true,
        })?;
    }
    Ok(())
}

fn is_other(p: &Port, q: &Port) -> bool
    ensures { result ≡ not (p.now.sig.0 == q.now.sig.0) }
{
    p.sig.0 != q.sig.0
}

// Whether a port has no signal in common with these.
fn all_other(p: &Port, others: &[Port]) -> bool
    ensures { result ≡ list_all (λ q. not (p.now.sig.0 == q.sig.0)) others.now }
{
    others.iter().all(|q| is_other(p, q))
}

/// Whether no two ports have a signal in common.
pub fn are_distinct(ports: &[Port]) -> bool
    ensures { result ≡ are_distinct ports.now }
{
    match ports {
        [] => true,
        [p, rest @ ..] => all_other(p, rest) && are_distinct(rest),
    }
}

/// Whether no signal of these is an input of a design with the other ports.
pub fn are_no_inputs(ports: &[Port], given: &[Port]) -> bool
    ensures { result ≡ list_all (λ q. not (is_input_of ports.now q.sig.0)) given.now }
{
    given.iter().all(|q| !is_input(ports, q.sig))
}
