// The sources of signals behind statements.
ghost use Rattle.std.specs.Prelude.{◌≡◌, ◌∷◌, ◌++◌, [], List, IfOk};
ghost use Rattle.design_ir.specs.Statements.{statement_of};
ghost use Rattle.design_ir.specs.Guards.{Guard, Guarded, guarded, guarded_in, guarded_arms, statement_exprs, choices_exprs, block_exprs};
ghost use Rattle.design_ir.specs.PoolRules.{IsPool};
ghost use Rattle.flat_design.specs.Growing.{IsMore};
ghost use Rattle.flat_design.specs.Shown.{SoFar, AreSlots, after};
ghost use Rattle.flat_design.specs.Begun.{IsBegun};

use crate::activity::with_condition;
use crate::assignments::{Latest, put_assignment};
use amh_host::NoMemory;
use design_ir::{Arms, ExprId, Exprs, Stmt, Stmts};
use std::alloc::Global;

/// Carries out statements where `active` is not 0: behind them the slots stand for what these leave.
#[cycle(blocks)]
pub(crate) fn put_block(
    alloc: Global,
    latest: &mut Latest,
    active: Option<ExprId>,
    body: &Stmts,
) -> Result<(), NoMemory>
    requires { (t : SoFar) × (gs : List Guard) × IsBegun t gs latest.old.pool latest.old.slots.items active (block_exprs body.now) (guarded gs body.now) }
    ensures more { IfOk result (λ _. IsMore latest.old.pool latest.new.pool) }
    ensures rules { IfOk result (λ _. IsPool latest.new.pool) }
    ensures put { (t : SoFar) (gs : List Guard) → IsBegun t gs latest.old.pool latest.old.slots.items active (block_exprs body.now) (guarded gs body.now) → IfOk result (λ _. AreSlots (after t (guarded gs body.now)) latest.new.pool latest.new.slots.items) }
{
    latest.pool.known();
    for statement in body.as_slice() {
        put_statement(alloc, latest, active, statement)?;
    }
    Ok(())
}

#[cycle(blocks)]
fn put_statement(
    alloc: Global,
    latest: &mut Latest,
    active: Option<ExprId>,
    statement: &Stmt,
) -> Result<(), NoMemory>
    requires { (t : SoFar) × (gs : List Guard) × IsBegun t gs latest.old.pool latest.old.slots.items active (statement_exprs (statement_of statement.now)) (guarded_in gs (statement_of statement.now)) }
    ensures more { IfOk result (λ _. IsMore latest.old.pool latest.new.pool) }
    ensures rules { IfOk result (λ _. IsPool latest.new.pool) }
    ensures put { (t : SoFar) (gs : List Guard) → IsBegun t gs latest.old.pool latest.old.slots.items active (statement_exprs (statement_of statement.now)) (guarded_in gs (statement_of statement.now)) → IfOk result (λ _. AreSlots (after t (guarded_in gs (statement_of statement.now))) latest.new.pool latest.new.slots.items) }
{
    match statement {
        Stmt::Assign { target, value, .. } => {
            put_assignment(alloc, latest, active, *target, *value)
        }
        Stmt::Choose(arms) => put_arms(alloc, latest, active, arms),
    }
}

// Carries out the first arm whose condition is not 0.
#[cycle(blocks)]
fn put_arms(
    alloc: Global,
    latest: &mut Latest,
    active: Option<ExprId>,
    arms: &Arms,
) -> Result<(), NoMemory>
    requires { (t : SoFar) × (gs : List Guard) × IsBegun t gs latest.old.pool latest.old.slots.items active (choices_exprs arms.now) (guarded_arms gs arms.now) }
    ensures more { IfOk result (λ _. IsMore latest.old.pool latest.new.pool) }
    ensures rules { IfOk result (λ _. IsPool latest.new.pool) }
    ensures put { (t : SoFar) (gs : List Guard) → IsBegun t gs latest.old.pool latest.old.slots.items active (choices_exprs arms.now) (guarded_arms gs arms.now) → IfOk result (λ _. AreSlots (after t (guarded_arms gs arms.now)) latest.new.pool latest.new.slots.items) }
{
    latest.pool.known();
    let mut rest = active;
    for arm in arms.as_slice() {
        let taken = with_condition(&mut latest.pool, rest, arm.condition, true)?;
        rest = with_condition(&mut latest.pool, rest, arm.condition, false)?;
        put_block(alloc, latest, taken, &arm.body)?;
    }
    Ok(())
}
