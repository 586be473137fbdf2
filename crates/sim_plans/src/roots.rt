// The expressions that stand directly in statements.
ghost use Rattle.std.specs.Prelude.{◌≡◌, ◌<◌, length};
ghost use Rattle.std.specs.List.{AllByRecursion};
ghost use Rattle.design_ir.specs.Guards.{block_exprs, statement_exprs, choices_exprs};
ghost use Rattle.design_ir.specs.Statements.{statement_of};
ghost use Rattle.design_ir.specs.Trees.{statements};
ghost use Rattle.sim_plans.specs.Given.{marked};
ghost use Rattle.sim_plans.specs.Reading.{AreBelow};
ghost use Rattle.sim_plans.specs.Tasks.{picked, places_of, block_targets, statement_targets, choices_targets, block_values, statement_values, choices_values};

use crate::agenda::Agenda;
use crate::spread::mark;
use crate::task::statement;
use design_ir::{Arms, Stmt, Stmts};

/// Marks the targets of the statements at these places, and their right sides and conditions.
pub fn mark_picked(body: &Stmts, places: &[usize], aims: &mut Agenda, values: &mut Agenda)
    requires inside { AllByRecursion (λ i. i < length (statements body.now)) places.now }
    requires aims { AreBelow (length aims.old.marks) (block_exprs (picked body.now places.now)) }
    requires values { AreBelow (length values.old.marks) (block_exprs (picked body.now places.now)) }
    ensures aims { aims.new.marks ≡ marked (places_of (block_targets (picked body.now places.now))) aims.old.marks }
    ensures values { values.new.marks ≡ marked (places_of (block_values (picked body.now places.now))) values.old.marks }
{
    let all = body.as_slice();
    for i in places {
        mark_stmt(statement(all, *i), aims, values);
    }
}

// Marks those of the statements of an arm.
#[cycle(roots)]
fn mark_body(body: &Stmts, aims: &mut Agenda, values: &mut Agenda)
    requires aims { AreBelow (length aims.old.marks) (block_exprs body.now) }
    requires values { AreBelow (length values.old.marks) (block_exprs body.now) }
    ensures aims { aims.new.marks ≡ marked (places_of (block_targets body.now)) aims.old.marks }
    ensures values { values.new.marks ≡ marked (places_of (block_values body.now)) values.old.marks }
{
    for s in body.as_slice() {
        mark_stmt(s, aims, values);
    }
}

// Marks those of one statement.
#[cycle(roots)]
fn mark_stmt(s: &Stmt, aims: &mut Agenda, values: &mut Agenda)
    requires aims { AreBelow (length aims.old.marks) (statement_exprs (statement_of s.now)) }
    requires values { AreBelow (length values.old.marks) (statement_exprs (statement_of s.now)) }
    ensures aims { aims.new.marks ≡ marked (places_of (statement_targets (statement_of s.now))) aims.old.marks }
    ensures values { values.new.marks ≡ marked (places_of (statement_values (statement_of s.now))) values.old.marks }
{
    match s {
        Stmt::Assign { target, value, .. } => {
            mark(*target, aims);
            mark(*value, values);
        }
        Stmt::Choose(arms) => mark_arms(arms, aims, values),
    }
}

// Marks those of arms.
#[cycle(roots)]
fn mark_arms(arms: &Arms, aims: &mut Agenda, values: &mut Agenda)
    requires aims { AreBelow (length aims.old.marks) (choices_exprs arms.now) }
    requires values { AreBelow (length values.old.marks) (choices_exprs arms.now) }
    ensures aims { aims.new.marks ≡ marked (places_of (choices_targets arms.now)) aims.old.marks }
    ensures values { values.new.marks ≡ marked (places_of (choices_values arms.now)) values.old.marks }
{
    for arm in arms.as_slice() {
        mark(arm.condition, values);
        mark_body(&arm.body, aims, values);
    }
}
