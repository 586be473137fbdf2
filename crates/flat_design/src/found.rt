// The signals that statements drive, each once, in order of first mention.
ghost use Rattle.std.specs.Prelude.{◌≡◌, ◌∷◌, ◌++◌, [], ◌<◌, ℕ, List, All, false, length, slice_index_or, IfOk};
ghost use Rattle.std.specs.List.{AllByRecursion};
ghost use Rattle.design_ir.specs.Targets.{target_signals};
ghost use Rattle.design_ir.specs.Statements.{statement_of};
ghost use Rattle.design_ir.specs.Guards.{Guard, guarded, guarded_in, guarded_arms, driven, statement_exprs, choices_exprs, block_exprs};
ghost use Rattle.design_ir.specs.Circuits.{is_among};
ghost use Rattle.flat_design.specs.Growing.{IsReadable};
ghost use Rattle.flat_design.specs.Found.{AreFound, numbers_of, targets_of};

use amh_host::{Items, NoMemory};
use design_ir::{Arms, Design, Expr, ExprId, Exprs, SigId, Stmt, Stmts};
use std::alloc::Global;

/// Signals by number.
pub(crate) type SigIds = Items<SigId>;

/// The signals that statements drive.
pub(crate) fn driven_signals(
    alloc: Global,
    design: &Design,
    body: &Stmts,
) -> Result<SigIds, NoMemory>
    requires { AllByRecursion (IsReadable design.now.pool) (block_exprs body.now) }
    ensures driven { IfOk result (λ signals. (s : ℕ) → is_among (numbers_of signals) s ≡ is_among (driven design.now.pool body.now) s) }
    ensures there { IfOk result (All (λ s. s.0 < length design.now.pool.signals)) }
{
    let mut found = Found {
        marks: no_marks(alloc, design.signals())?,
        signals: Items::new(alloc),
    };
    add_block(design, body, &mut found)?;
    Ok(found.signals)
}

// So many marks, none of which is set.
fn no_marks(alloc: Global, count: u32) -> Result<Vec<bool>, NoMemory>
    ensures size { IfOk result (λ marks. length marks.items ≡ count) }
    ensures unset { IfOk result (λ marks. (s : ℕ) → slice_index_or marks.items s false ≡ false) }
{
    let mut marks = Vec::new(alloc);
    for i in 0..count {
        let _ = i;
        marks.push(false)?;
    }
    Ok(marks)
}

// Signals that were found, and for each signal whether it was.
#[derive(Drop)]
struct Found {
    marks: Vec<bool>,
    signals: SigIds,
}

#[cycle(found)]
fn add_block(design: &Design, body: &Stmts, found: &mut Found) -> Result<(), NoMemory>
    requires readable { AllByRecursion (IsReadable design.now.pool) (block_exprs body.now) }
    requires found { (ss : List ℕ) × AreFound (length design.now.pool.signals) ss found.old.marks.items found.old.signals }
    ensures { (gs : List Guard) (ss : List ℕ) → AreFound (length design.now.pool.signals) ss found.old.marks.items found.old.signals → IfOk result (λ _. AreFound (length design.now.pool.signals) (ss ++ targets_of design.now.pool (guarded gs body.now)) found.new.marks.items found.new.signals) }
{
    for statement in body.as_slice() {
        add_statement(design, statement, found)?;
    }
    Ok(())
}

#[cycle(found)]
fn add_statement(design: &Design, statement: &Stmt, found: &mut Found) -> Result<(), NoMemory>
    requires readable { AllByRecursion (IsReadable design.now.pool) (statement_exprs (statement_of statement.now)) }
    requires found { (ss : List ℕ) × AreFound (length design.now.pool.signals) ss found.old.marks.items found.old.signals }
    ensures { (gs : List Guard) (ss : List ℕ) → AreFound (length design.now.pool.signals) ss found.old.marks.items found.old.signals → IfOk result (λ _. AreFound (length design.now.pool.signals) (ss ++ targets_of design.now.pool (guarded_in gs (statement_of statement.now))) found.new.marks.items found.new.signals) }
{
    match statement {
        Stmt::Assign { target, .. } => add_target(design, *target, found),
        Stmt::Choose(arms) => add_arms(design, arms, found),
    }
}

#[cycle(found)]
fn add_arms(design: &Design, arms: &Arms, found: &mut Found) -> Result<(), NoMemory>
    requires readable { AllByRecursion (IsReadable design.now.pool) (choices_exprs arms.now) }
    requires found { (ss : List ℕ) × AreFound (length design.now.pool.signals) ss found.old.marks.items found.old.signals }
    ensures { (gs : List Guard) (ss : List ℕ) → AreFound (length design.now.pool.signals) ss found.old.marks.items found.old.signals → IfOk result (λ _. AreFound (length design.now.pool.signals) (ss ++ targets_of design.now.pool (guarded_arms gs arms.now)) found.new.marks.items found.new.signals) }
{
    for arm in arms.as_slice() {
        add_block(design, &arm.body, found)?;
    }
    Ok(())
}

// Adds the signals of which a target is a part.
fn add_target(design: &Design, target: ExprId, found: &mut Found) -> Result<(), NoMemory>
    requires there { target.0 < length design.now.pool.exprs }
    requires found { (ss : List ℕ) × AreFound (length design.now.pool.signals) ss found.old.marks.items found.old.signals }
    ensures { (ss : List ℕ) → AreFound (length design.now.pool.signals) ss found.old.marks.items found.old.signals → IfOk result (λ _. AreFound (length design.now.pool.signals) (ss ++ target_signals design.now.pool target.0) found.new.marks.items found.new.signals) }
{
    let _ = design.count();
    match design.at(target) {
        Expr::Sig(s) => add_signal(*s, found),
        Expr::Slice { a, .. } | Expr::Part { a, .. } | Expr::Cast { a, .. } => {
            add_target(design, *a, found)
        }
        Expr::Cat(items) | Expr::Pick { items, .. } => {
            for e in items.as_slice() {
                add_target(design, *e, found)?;
            }
            Ok(())
        }
        _ => Ok(()),
    }
}

// Adds a signal unless it is there.
fn add_signal(s: SigId, found: &mut Found) -> Result<(), NoMemory>
    requires { s.0 < length found.old.marks.items }
    ensures { (n : ℕ) (ss : List ℕ) → AreFound n ss found.old.marks.items found.old.signals → IfOk result (λ _. AreFound n (ss ++ s.0 ∷ []) found.new.marks.items found.new.signals) }
{
    let k = s.0 as usize;
    if found.marks[k] {
        return Ok(());
    }
    found.marks[k] = true;
    found.signals.push(s)
}
