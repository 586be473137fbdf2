// Where the first assignment stands that may write a bit.
ghost use Rattle.std.specs.Prelude.{◌≡◌, ◌<◌, ◌==◌, List, length, IfOk};
ghost use Rattle.std.specs.List.{list_any};
ghost use Rattle.design_ir.specs.Guards.{Guard, guarded, guarded_in, guarded_arms, statement_exprs, choices_exprs, block_exprs};
ghost use Rattle.design_ir.specs.Named.{AllBelow};
ghost use Rattle.design_ir.specs.Statements.{statement_of};
ghost use Rattle.comb_graph.specs.Rankings.{bit_of};
ghost use Rattle.comb_graph.specs.Refusals.{assignments, loop_place};
ghost use Rattle.comb_graph.specs.Told.{aims_at, first_place};

use crate::aimed::Aimed;
use crate::aims::{AimTable, all_aims};
use crate::ranks::RankedBit;
use amh_host::{NoMemory, Place};
use design_ir::{Arms, Design, Exprs, Stmt, Stmts};
use std::alloc::Global;

// Whether one of these aims is at a node.
fn has_node(aims: &[Aimed], node: usize) -> bool
    ensures { result ≡ list_any (λ a. a.node == node) aims.now }
{
    aims.iter().any(|a| a.node == node)
}

// Whether one of these aims is at a bit.
fn aims_at(aims: &[Aimed], bit: RankedBit) -> bool
    ensures { result ≡ aims_at aims.now (bit_of bit) }
{
    bit.bit < 128 && has_node(aims, 128 * bit.sig.0 as usize + bit.bit as usize)
}

// The place of the first of these statements' assignments that may write a bit.
#[cycle(told)]
fn in_block(table: &AimTable, bit: RankedBit, body: &Stmts) -> Option<Place>
    requires { AllBelow (length table.now) (block_exprs body.now) }
    ensures { (gs : List Guard) → result ≡ first_place table.now (bit_of bit) (guarded gs body.now) }
{
    for statement in body.as_slice() {
        if let Some(place) = in_statement(table, bit, statement) {
            return Some(place);
        }
    }
    None
}

// The same of one statement.
#[cycle(told)]
fn in_statement(table: &AimTable, bit: RankedBit, statement: &Stmt) -> Option<Place>
    requires { AllBelow (length table.now) (statement_exprs (statement_of statement.now)) }
    ensures { (gs : List Guard) → result ≡ first_place table.now (bit_of bit) (guarded_in gs (statement_of statement.now)) }
{
    match statement {
        Stmt::Assign { target, place, .. } => {
            if aims_at(table.get(target.0 as usize).as_slice(), bit) {
                Some(*place)
            } else {
                None
            }
        }
        Stmt::Choose(arms) => in_arms(table, bit, arms),
    }
}

// The same of the bodies of the arms of a choice.
#[cycle(told)]
fn in_arms(table: &AimTable, bit: RankedBit, arms: &Arms) -> Option<Place>
    requires { AllBelow (length table.now) (choices_exprs arms.now) }
    ensures { (gs : List Guard) → result ≡ first_place table.now (bit_of bit) (guarded_arms gs arms.now) }
{
    for arm in arms.as_slice() {
        if let Some(place) = in_block(table, bit, &arm.body) {
            return Some(place);
        }
    }
    None
}

// The same of all processes of a design.
fn in_processes(design: &Design, table: &AimTable, bit: RankedBit) -> Option<Place>
    requires { length table.now ≡ length design.now.pool.exprs }
    ensures { result ≡ first_place table.now (bit_of bit) (assignments design.now) }
{
    for process in design.processes().as_slice() {
        if let Some(place) = in_block(table, bit, &process.body) {
            return Some(place);
        }
    }
    None
}

/// Where the first assignment stands that may write a bit, and the file's first place where none does.
pub fn loop_place(alloc: Global, design: &Design, bit: RankedBit) -> Result<Place, NoMemory>
    requires { bit.sig.0 < length design.now.pool.signals }
    ensures { IfOk result (λ p. p ≡ loop_place design.now (bit_of bit)) }
{
    let table = all_aims(alloc, design)?;
    let _ = design.count();
    match in_processes(design, &table, bit) {
        Some(place) => Ok(place),
        None => Ok(Place { line: 1, col: 1 }),
    }
}
