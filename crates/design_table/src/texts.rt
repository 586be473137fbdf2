// The RTLIL texts of the designs that are accepted.
ghost use Rattle.comb_graph.specs.Rankings.{IsRanking};

use crate::answer::name_of;
use crate::reader::read_case;
use amh_host::{HostStop, MemoryHost};
use comb_graph::{GraphStop, Ranks, rank};
use design_ir::Design;
use netlist::lower;
use rtlil_text::write;
use std::alloc::Global;
use std::str;
use table_text::Stop;

/// The name of a design, and its RTLIL text where it is accepted.
pub fn text(alloc: Global, lines: &[String]) -> Result<String, Stop> {
    let name = name_of(alloc, lines)?;
    match design_text(alloc, lines) {
        Ok(text) => Ok(format!(in alloc; "design {name}\n{text}")?),
        Err(Stop::NoCase) => Ok(format!(in alloc; "design {name}")?),
        Err(Stop::NoMemory) => Err(Stop::NoMemory),
    }
}

fn design_text(alloc: Global, lines: &[String]) -> Result<String, Stop> {
    let design = read_case(alloc, lines)?.design;
    match rank(alloc, &design) {
        Ok(ranks) => lowered(alloc, &design, &ranks),
        Err(GraphStop::Loop { .. }) => Err(Stop::NoCase),
        Err(GraphStop::NoMemory) => Err(Stop::NoMemory),
    }
}

// The RTLIL text of a design.
fn lowered(alloc: Global, design: &Design, ranks: &Ranks) -> Result<String, Stop>
    requires { IsRanking design.now ranks.now }
{
    let module = lower(alloc, design, ranks)?;
    let mut host = MemoryHost::new(alloc);
    match write(alloc, &module, &mut host, "text") {
        Ok(()) => {}
        Err(HostStop::NoMemory) => return Err(Stop::NoMemory),
        Err(HostStop::Failed) => return Err(Stop::NoCase),
    }
    let Some(bytes) = host.bytes("text") else {
        return Err(Stop::NoCase);
    };
    match str::from_utf8(bytes) {
        Ok(text) => Ok(String::from_str(alloc, text)?),
        Err(_) => Err(Stop::NoCase),
    }
}
