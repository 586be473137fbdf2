// Marks of the signals that statements drive.
ghost use Rattle.std.specs.Prelude.{◌≡◌, ◌<◌, ℕ, false, length, IfOk};
ghost use Rattle.std.specs.List.{flat_map};
ghost use Rattle.design_ir.specs.Circuits.{is_among};
ghost use Rattle.design_ir.specs.Guards.{block_exprs, driven, choices_exprs, statement_exprs};
ghost use Rattle.design_ir.specs.Named.{AllBelow};
ghost use Rattle.design_ir.specs.Statements.{statement_of};
ghost use Rattle.design_ir.specs.Targets.{target_signals};
ghost use Rattle.fragment_walks.specs.Marks.{is_marked, marked};
ghost use Rattle.fragment_walks.specs.Reads.{block_targets, choices_targets, statement_targets};

use amh_host::NoMemory;
use design_ir::{Arms, Expr, ExprId, Exprs, Pool, Stmt, Stmts};
use std::alloc::Global;

/// How many signals a pool may have.
pub(crate) const SIGNALS: usize = 16_384;

/// For each signal whether statements drive it.
pub(crate) fn driven_marks(alloc: Global, pool: &Pool, body: &Stmts) -> Result<Vec<bool>, NoMemory>
    requires { AllBelow (length pool.now.exprs) (block_exprs body.now) }
    ensures size { IfOk result (λ v. length v.items ≡ 16384) }
    ensures each { IfOk result (λ v. (s : ℕ) → is_marked v.items s ≡ is_among (driven pool.now body.now) s) }
{
    let _ = pool.count();
    let mut marks = unmarked(alloc, SIGNALS)?;
    mark_block(pool, &mut marks, body);
    Ok(marks)
}

// No marks for so many numbers.
fn unmarked(alloc: Global, count: usize) -> Result<Vec<bool>, NoMemory>
    ensures size { IfOk result (λ v. length v.items ≡ count) }
    ensures each { IfOk result (λ v. (s : ℕ) → is_marked v.items s ≡ false) }
{
    Ok(vec![in alloc; false; count]?)
}

#[cycle(driven)]
fn mark_block(pool: &Pool, marks: &mut Vec<bool>, body: &Stmts)
    requires size { length marks.old.items ≡ 16384 }
    requires there { AllBelow (length pool.now.exprs) (block_exprs body.now) }
    ensures { marks.new.items ≡ marked (flat_map (target_signals pool.now) (block_targets body.now)) marks.old.items }
{
    for statement in body.as_slice() {
        mark_statement(pool, marks, statement);
    }
}

#[cycle(driven)]
fn mark_statement(pool: &Pool, marks: &mut Vec<bool>, statement: &Stmt)
    requires size { length marks.old.items ≡ 16384 }
    requires there { AllBelow (length pool.now.exprs) (statement_exprs (statement_of statement.now)) }
    ensures { marks.new.items ≡ marked (flat_map (target_signals pool.now) (statement_targets (statement_of statement.now))) marks.old.items }
{
    match statement {
        Stmt::Assign { target, .. } => mark_target(pool, marks, *target),
        Stmt::Choose(arms) => mark_arms(pool, marks, arms),
    }
}

#[cycle(driven)]
fn mark_arms(pool: &Pool, marks: &mut Vec<bool>, arms: &Arms)
    requires size { length marks.old.items ≡ 16384 }
    requires there { AllBelow (length pool.now.exprs) (choices_exprs arms.now) }
    ensures { marks.new.items ≡ marked (flat_map (target_signals pool.now) (choices_targets arms.now)) marks.old.items }
{
    for arm in arms.as_slice() {
        mark_block(pool, marks, &arm.body);
    }
}

// Marks the signals of which a target stands for a part.
fn mark_target(pool: &Pool, marks: &mut Vec<bool>, target: ExprId)
    requires size { length marks.old.items ≡ 16384 }
    requires there { target.0 < length pool.now.exprs }
    ensures { marks.new.items ≡ marked (target_signals pool.now target.0) marks.old.items }
{
    let _ = pool.count();
    match pool.at(target) {
        Expr::Sig(s) => marks[s.0 as usize] = true,
        Expr::Slice { a, .. } | Expr::Part { a, .. } | Expr::Cast { a, .. } => {
            mark_target(pool, marks, *a)
        }
        Expr::Cat(items) | Expr::Pick { items, .. } => {
            for e in items.as_slice() {
                mark_target(pool, marks, *e);
            }
        }
        _ => {}
    }
}
