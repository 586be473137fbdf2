// For each signal the place of its column, of its port and of its driver.
ghost use Rattle.std.specs.Prelude.{◌≡◌, ◌<◌, ◌≤◌, length, replicate, option_copied, None, IfOk};
ghost use Rattle.std.specs.List.{find};
ghost use Rattle.design_ir.specs.Circuits.{is_input};
ghost use Rattle.design_ir.specs.Designs.{IsDesign};
ghost use Rattle.netlist_laws.specs.Module.{column_of, wire_id};
ghost use Rattle.netlist_cells.specs.Places.{AreColumnPlaces, ArePortPlaces, is_port_of};

use crate::ids::{public_id, signal_id};
use amh_host::{NoMemory, Text};
use design_ir::{Column, Design, Port, SigId};
use std::alloc::Global;

// No place for any signal.
pub fn no_places(alloc: Global, count: u32) -> Result<Vec<Option<u32>>, NoMemory>
    ensures { IfOk result (λ places. places.items ≡ replicate count None) }
{
    let mut places = Vec::new(alloc);
    for i in 0..count {
        places.push(None)?;
    }
    Ok(places)
}

/// The first column of each signal, found from the last column on.
pub fn column_places(alloc: Global, design: &Design) -> Result<Vec<Option<u32>>, NoMemory>
    requires { IsDesign design.now }
    ensures { IfOk result (λ places. AreColumnPlaces design.now places.items) }
{
    let count = design.columns();
    let mut places = no_places(alloc, design.signals())?;
    for j in 0..count {
        let k = count - 1 - j;
        let s = design.column(k).sig.0 as usize;
        places[s] = Some(k);
    }
    Ok(places)
}

/// The first port of each signal, found from the last port on.
pub fn port_places(alloc: Global, design: &Design) -> Result<Vec<Option<u32>>, NoMemory>
    requires { IsDesign design.now }
    ensures { IfOk result (λ places. ArePortPlaces design.now places.items) }
{
    let count = design.ports();
    let mut places = no_places(alloc, design.signals())?;
    for j in 0..count {
        let k = count - 1 - j;
        let s = design.port(k).sig.0 as usize;
        places[s] = Some(k);
    }
    Ok(places)
}

/// The column that shows a signal.
pub fn column_of<'a>(design: &'a Design, columns: &[Option<u32>], s: SigId) -> Option<&'a Column>
    requires places { AreColumnPlaces design.now columns.now }
    requires there { s.0 < length design.now.pool.signals }
    ensures { option_copied result ≡ column_of design.now s.0 }
{
    match columns[s.0 as usize] {
        Some(k) => Some(design.column(k)),
        None => None,
    }
}

/// The id of a signal's wire.
pub fn wire_id(
    alloc: Global,
    design: &Design,
    columns: &[Option<u32>],
    s: SigId,
) -> Result<Text, NoMemory>
    requires places { AreColumnPlaces design.now columns.now }
    requires there { s.0 < length design.now.pool.signals }
    ensures { IfOk result (λ id. id ≡ wire_id design.now s.0) }
{
    match column_of(design, columns, s) {
        Some(x) => public_id(alloc, x.name.as_str()),
        None => signal_id(alloc, s.0),
    }
}

/// The port of a signal.
pub fn port_of<'a>(design: &'a Design, ports: &[Option<u32>], s: SigId) -> Option<&'a Port>
    requires places { ArePortPlaces design.now ports.now }
    requires there { s.0 < length design.now.pool.signals }
    ensures { option_copied result ≡ find (is_port_of s.0) design.now.ports }
{
    match ports[s.0 as usize] {
        Some(k) => Some(design.port(k)),
        None => None,
    }
}

/// Whether a signal is an input.
#[tactic(auto, using(crate::proofs::LowerInputs::input_found))]
pub fn is_input(design: &Design, ports: &[Option<u32>], s: SigId) -> bool
    requires rules { IsDesign design.now }
    requires places { ArePortPlaces design.now ports.now }
    requires there { s.0 < length design.now.pool.signals }
    ensures { result ≡ is_input design.now s.0 }
{
    match port_of(design, ports, s) {
        Some(p) => p.is_input,
        None => false,
    }
}
