// For each signal the process that drives it.
ghost use Rattle.std.specs.Prelude.{◌≡◌, ◌<◌, length, true, option_copied, None, IfOk};
ghost use Rattle.std.specs.List.{AllByRecursion, find};
ghost use Rattle.design_ir.specs.declared.ids.ExprId.{ExprId};
ghost use Rattle.design_ir.specs.PoolRules.{IsPool};
ghost use Rattle.design_ir.specs.Targets.{target_signals};
ghost use Rattle.design_ir.specs.Guards.{driven, block_exprs};
ghost use Rattle.design_ir.specs.Designs.{IsDesign};
ghost use Rattle.netlist_laws.specs.Latest.{is_plain};
ghost use Rattle.netlist_laws.specs.Module.{drives, driving, is_clocked};
ghost use Rattle.netlist_laws.specs.Plain.{ArePlain};
ghost use Rattle.netlist_cells.specs.Places.{ArePortPlaces};
ghost use Rattle.netlist.specs.Tables.{AreDrivers, IsMarked};

use amh_host::NoMemory;
use design_ir::{Design, DesignProcess, Expr, ExprId, Exprs, SigId, Stmt, Stmts};
use netlist_cells::tables::{is_input, no_places};
use std::alloc::Global;

// Gives the signals of a target a place.
fn mark_target(design: &Design, target: ExprId, k: u32, places: &mut Vec<Option<u32>>)
    requires pool { IsPool design.now.pool }
    requires there { target.0 < length design.now.pool.exprs }
    requires long { length places.old.items ≡ length design.now.pool.signals }
    ensures { IsMarked (target_signals design.now.pool target.0) k places.old.items places.new.items }
{
    match design.at(target) {
        Expr::Sig(s) => places[s.0 as usize] = Some(k),
        Expr::Slice { a, .. } | Expr::Part { a, .. } | Expr::Cast { a, .. } => {
            mark_target(design, *a, k, places)
        }
        Expr::Cat(items) | Expr::Pick { items, .. } => {
            for e in items.as_slice() {
                mark_target(design, *e, k, places);
            }
        }
        Expr::Const { .. }
        | Expr::Unary { .. }
        | Expr::Binary { .. }
        | Expr::Mux { .. }
        | Expr::Matches { .. }
        | Expr::Reset { .. } => {}
    }
}

// Gives the signals that statements drive a place.
fn mark_block(design: &Design, body: &Stmts, k: u32, places: &mut Vec<Option<u32>>)
    requires pool { IsPool design.now.pool }
    requires plain { is_plain design.now.pool body.now ≡ true }
    requires there { AllByRecursion (λ (e : ExprId). e.0 < length design.now.pool.exprs) (block_exprs body.now) }
    requires long { length places.old.items ≡ length design.now.pool.signals }
    ensures { IsMarked (driven design.now.pool body.now) k places.old.items places.new.items }
{
    for s in body.as_slice() {
        match s {
            Stmt::Assign { target, .. } => mark_target(design, *target, k, places),
            Stmt::Choose(_) => {}
        }
    }
}

/// The first process that drives each signal, found from the last process on.
pub(crate) fn driver_places(alloc: Global, design: &Design) -> Result<Vec<Option<u32>>, NoMemory>
    requires pool { IsPool design.now.pool }
    requires rules { IsDesign design.now }
    requires plain { ArePlain design.now }
    ensures { IfOk result (λ places. AreDrivers design.now places.items) }
{
    let processes = design.processes().as_slice();
    let count = processes.len() as u32;
    let mut places = no_places(alloc, design.signals())?;
    for j in 0..count {
        let k = count - 1 - j;
        mark_block(design, &processes[k as usize].body, k, &mut places);
    }
    Ok(places)
}

/// The process that drives a signal.
pub(crate) fn driver_of<'a>(
    design: &'a Design,
    drivers: &[Option<u32>],
    s: SigId,
) -> Option<&'a DesignProcess>
    requires places { AreDrivers design.now drivers.now }
    requires there { s.0 < length design.now.pool.signals }
    ensures { option_copied result ≡ find (drives design.now s.0) design.now.processes }
{
    match drivers[s.0 as usize] {
        Some(k) => Some(design.processes().get(k as usize)),
        None => None,
    }
}

/// Whether a clocked process drives a signal.
pub(crate) fn is_clocked(
    design: &Design,
    ports: &[Option<u32>],
    drivers: &[Option<u32>],
    s: SigId,
) -> bool
    requires rules { IsDesign design.now }
    requires ports { ArePortPlaces design.now ports.now }
    requires drivers { AreDrivers design.now drivers.now }
    requires there { s.0 < length design.now.pool.signals }
    ensures { result ≡ is_clocked (driving design.now s.0) }
{
    if is_input(design, ports, s) {
        return false;
    }
    match driver_of(design, drivers, s) {
        Some(p) => p.domain.is_some(),
        None => false,
    }
}
