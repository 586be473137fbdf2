// Numbers of processes at the targets of their statements, the least for each.
ghost use Rattle.std.specs.Prelude.{◌≡◌, ◌<◌, ◌∷◌, [], None, length, replicate, IfOk};
ghost use Rattle.design_ir.specs.Guards.{statement_exprs, choices_exprs, block_exprs};
ghost use Rattle.design_ir.specs.Named.{AllBelow};
ghost use Rattle.design_ir.specs.Statements.{statement_of};
ghost use Rattle.fragment_walks.specs.Marks.{numbers};
ghost use Rattle.fragment_walks.specs.Numbers.{lowered, lesser};
ghost use Rattle.fragment_walks.specs.Reads.{statement_targets, choices_targets, block_targets};

use amh_host::NoMemory;
use design_ir::{Arms, ExprId, Process, Side, Stmt, Stmts};
use std::alloc::Global;

/// No number for so many.
pub fn unnumbered(alloc: Global, count: usize) -> Result<Vec<Option<usize>>, NoMemory>
    ensures { IfOk result (λ v. v.items ≡ replicate count None) }
{
    Ok(vec![in alloc; None; count]?)
}

/// The lesser of two numbers, where there are any.
pub fn lesser(a: Option<usize>, b: Option<usize>) -> Option<usize>
    ensures { result ≡ lesser a b }
{
    match (a, b) {
        (None, b) => b,
        (a, None) => a,
        (Some(m), Some(n)) => { if n < m { Some(n) } else { Some(m) } }
    }
}

/// Gives one this number, where it has none that is less.
pub fn lower(firsts: &mut Vec<Option<usize>>, k: usize, number: usize)
    requires { k < length firsts.old.items }
    ensures { firsts.new.items ≡ lowered (k ∷ []) number firsts.old.items }
{
    firsts[k] = lesser(firsts[k], Some(number));
}

/// Gives expressions this number.
pub fn lower_all(firsts: &mut Vec<Option<usize>>, items: &[ExprId], number: usize)
    requires { AllBelow (length firsts.old.items) items.now }
    ensures { firsts.new.items ≡ lowered (numbers items.now) number firsts.old.items }
{
    for e in items {
        lower(firsts, e.0 as usize, number);
    }
}

/// Gives the targets of statements this number.
#[cycle(numbers)]
pub fn lower_block(targets: &mut Vec<Option<usize>>, number: usize, body: &Stmts)
    requires { AllBelow (length targets.old.items) (block_exprs body.now) }
    ensures { targets.new.items ≡ lowered (block_targets body.now) number targets.old.items }
{
    for statement in body.as_slice() {
        lower_statement(targets, number, statement);
    }
}

#[cycle(numbers)]
fn lower_statement(targets: &mut Vec<Option<usize>>, number: usize, statement: &Stmt)
    requires { AllBelow (length targets.old.items) (statement_exprs (statement_of statement.now)) }
    ensures { targets.new.items ≡ lowered (statement_targets (statement_of statement.now)) number targets.old.items }
{
    match statement {
        Stmt::Assign { target, .. } => lower(targets, target.0 as usize, number),
        Stmt::Choose(arms) => lower_arms(targets, number, arms),
    }
}

#[cycle(numbers)]
fn lower_arms(targets: &mut Vec<Option<usize>>, number: usize, arms: &Arms)
    requires { AllBelow (length targets.old.items) (choices_exprs arms.now) }
    ensures { targets.new.items ≡ lowered (choices_targets arms.now) number targets.old.items }
{
    for arm in arms.as_slice() {
        lower_block(targets, number, &arm.body);
    }
}
