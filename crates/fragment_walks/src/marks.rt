// Marks of the targets of statements, and of the expressions that they read.
ghost use Rattle.std.specs.Prelude.{◌≡◌, ◌<◌, ◌∷◌, [], ℕ, length, false, replicate, IfOk};
ghost use Rattle.design_ir.specs.Guards.{statement_exprs, choices_exprs, block_exprs};
ghost use Rattle.design_ir.specs.Named.{AllBelow};
ghost use Rattle.design_ir.specs.Statements.{statement_of};
ghost use Rattle.fragment_walks.specs.Marks.{is_marked, marked, numbers};
ghost use Rattle.fragment_walks.specs.Reads.{statement_targets, choices_targets, block_targets, statement_values, choices_values, block_values};

use amh_host::NoMemory;
use design_ir::{Arms, ExprId, Stmt, Stmts};
use std::alloc::Global;

/// For each expression whether it is a target, and whether it is read.
#[derive(Drop)]
pub struct Roots {
    pub targets: Vec<bool>,
    pub values: Vec<bool>,
}

impl Roots {
    /// No marks for so many expressions.
    pub fn new(alloc: Global, count: u32) -> Result<Roots, NoMemory>
        ensures targets { IfOk result (λ r. r.targets.items ≡ replicate count false) }
        ensures values { IfOk result (λ r. r.values.items ≡ replicate count false) }
    {
        Ok(Roots {
            targets: vec![in alloc; false; count as usize]?,
            values: vec![in alloc; false; count as usize]?,
        })
    }
}

/// How many signals a pool may have.
pub const SIGNALS: usize = 16_384;

/// No marks for so many numbers.
pub fn unmarked(alloc: Global, count: usize) -> Result<Vec<bool>, NoMemory>
    ensures size { IfOk result (λ v. length v.items ≡ count) }
    ensures each { IfOk result (λ v. (s : ℕ) → is_marked v.items s ≡ false) }
{
    Ok(vec![in alloc; false; count]?)
}

/// Marks a number.
pub fn mark(marks: &mut Vec<bool>, n: usize)
    requires { n < length marks.old.items }
    ensures { marks.new.items ≡ marked (n ∷ []) marks.old.items }
{
    marks[n] = true;
}

/// Marks expressions.
pub fn mark_all(marks: &mut Vec<bool>, items: &[ExprId])
    requires { AllBelow (length marks.old.items) items.now }
    ensures { marks.new.items ≡ marked (numbers items.now) marks.old.items }
{
    for e in items {
        mark(marks, e.0 as usize);
    }
}

/// Marks the targets of statements, their right sides and their conditions.
#[cycle(marks)]
pub fn mark_block(roots: &mut Roots, body: &Stmts)
    requires targets { AllBelow (length roots.old.targets.items) (block_exprs body.now) }
    requires values { AllBelow (length roots.old.values.items) (block_exprs body.now) }
    ensures targets { roots.new.targets.items ≡ marked (block_targets body.now) roots.old.targets.items }
    ensures values { roots.new.values.items ≡ marked (block_values body.now) roots.old.values.items }
{
    for statement in body.as_slice() {
        mark_statement(roots, statement);
    }
}

#[cycle(marks)]
fn mark_statement(roots: &mut Roots, statement: &Stmt)
    requires targets { AllBelow (length roots.old.targets.items) (statement_exprs (statement_of statement.now)) }
    requires values { AllBelow (length roots.old.values.items) (statement_exprs (statement_of statement.now)) }
    ensures targets { roots.new.targets.items ≡ marked (statement_targets (statement_of statement.now)) roots.old.targets.items }
    ensures values { roots.new.values.items ≡ marked (statement_values (statement_of statement.now)) roots.old.values.items }
{
    match statement {
        Stmt::Assign { target, value, .. } => {
            mark(&mut roots.targets, target.0 as usize);
            mark(&mut roots.values, value.0 as usize);
        }
        Stmt::Choose(arms) => mark_arms(roots, arms),
    }
}

#[cycle(marks)]
fn mark_arms(roots: &mut Roots, arms: &Arms)
    requires targets { AllBelow (length roots.old.targets.items) (choices_exprs arms.now) }
    requires values { AllBelow (length roots.old.values.items) (choices_exprs arms.now) }
    ensures targets { roots.new.targets.items ≡ marked (choices_targets arms.now) roots.old.targets.items }
    ensures values { roots.new.values.items ≡ marked (choices_values arms.now) roots.old.values.items }
{
    for arm in arms.as_slice() {
        mark(&mut roots.values, arm.condition.0 as usize);
        mark_block(roots, &arm.body);
    }
}
