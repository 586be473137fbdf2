// Which expressions statements read.
ghost use Rattle.std.specs.Prelude.{◌≡◌, ◌<◌, ℕ, Bool, true, length, slice_set};
ghost use Rattle.design_ir.specs.Named.{named, AllBelow};
ghost use Rattle.design_ir.specs.Targets.{is_target};
ghost use Rattle.sim_plans.specs.Given.{marked};
ghost use Rattle.sim_plans.specs.Marks.{aimed_names, placing_names, is_marked, AreSpread, AimsSpread, ValuesSpread, ReadOnly, StandsOnly, Stays};
ghost use Rattle.sim_plans.specs.Tasks.{places_of};
ghost use Rattle.sim_plans.specs.Waiting.{IsFront};

use crate::agenda::Agenda;
use design_ir::{Design, Expr, ExprId, Exprs};

/// Marks all that marked expressions are made of: of what is read all that it names, of a target the targets in it and,
/// among what is read, the offsets and indices that place it.
pub fn spread(design: &Design, aims: &mut Agenda, values: &mut Agenda)
    requires aims { length aims.old.marks ≡ length design.now.pool.exprs }
    requires values { length values.old.marks ≡ length design.now.pool.exprs }
    requires targets { (j : ℕ) → is_marked aims.old.marks j ≡ true → is_target design.now.pool j ≡ true }
    ensures aims { length aims.new.marks ≡ length design.now.pool.exprs }
    ensures values { length values.new.marks ≡ length design.now.pool.exprs }
    ensures aims_stay { Stays aims.old.marks aims.new.marks }
    ensures values_stay { Stays values.old.marks values.new.marks }
    ensures spread { AreSpread design.now.pool aims.new.marks values.new.marks }
    ensures targets { (j : ℕ) → is_marked aims.new.marks j ≡ true → is_target design.now.pool j ≡ true }
    ensures only { (r : ℕ → Bool) → ReadOnly design.now.pool aims.old.marks values.old.marks r → ReadOnly design.now.pool aims.new.marks values.new.marks r }
{
    spread_all_aims(design, aims, values);
    spread_all_values(design, values);
}

// Marks what targets are made of, one behind another, as long as there are more.
fn spread_all_aims(design: &Design, aims: &mut Agenda, values: &mut Agenda)
    requires aims { length aims.old.marks ≡ length design.now.pool.exprs }
    requires values { length values.old.marks ≡ length design.now.pool.exprs }
    requires targets { (j : ℕ) → is_marked aims.old.marks j ≡ true → is_target design.now.pool j ≡ true }
    ensures aims { length aims.new.marks ≡ length design.now.pool.exprs }
    ensures values { length values.new.marks ≡ length design.now.pool.exprs }
    ensures aims_stay { Stays aims.old.marks aims.new.marks }
    ensures values_stay { Stays values.old.marks values.new.marks }
    ensures spread { AimsSpread design.now.pool aims.new.marks values.new.marks }
    ensures targets { (j : ℕ) → is_marked aims.new.marks j ≡ true → is_target design.now.pool j ≡ true }
    ensures only { (r : ℕ → Bool) → ReadOnly design.now.pool aims.old.marks values.old.marks r → ReadOnly design.now.pool aims.new.marks values.new.marks r }
{
    let _ = design.count();
    let mut i = 0;
    while i < aims.len() {
        let k = ExprId(aims.get(i) as u32);
        mark_aimed(design.at(k), aims, values);
        i += 1;
    }
}

// Marks what is named, one behind another, as long as there is more.
fn spread_all_values(design: &Design, values: &mut Agenda)
    requires values { length values.old.marks ≡ length design.now.pool.exprs }
    ensures values { length values.new.marks ≡ length design.now.pool.exprs }
    ensures stay { Stays values.old.marks values.new.marks }
    ensures spread { ValuesSpread design.now.pool values.new.marks }
    ensures only { (r : ℕ → Bool) → StandsOnly design.now.pool values.old.marks r → StandsOnly design.now.pool values.new.marks r }
{
    let _ = design.count();
    let mut i = 0;
    while i < values.len() {
        let k = ExprId(values.get(i) as u32);
        mark_named(design.at(k), values);
        i += 1;
    }
}

// Marks what a target is made of.
#[tactic(auto, using(crate::proofs::Fronts::front_same, crate::proofs::Fronts::front_both))]
fn mark_aimed(e: &Expr, aims: &mut Agenda, values: &mut Agenda)
    requires aims { AllBelow (length aims.old.marks) (named e.now) }
    requires values { AllBelow (length values.old.marks) (named e.now) }
    ensures aims { aims.new.marks ≡ marked (places_of (aimed_names e.now)) aims.old.marks }
    ensures values { values.new.marks ≡ marked (places_of (placing_names e.now)) values.old.marks }
    ensures aims_list { IsFront aims.old.list aims.new.list }
    ensures values_list { IsFront values.old.list values.new.list }
{
    match e {
        Expr::Slice { a, .. } => mark(*a, aims),
        Expr::Cat(items) => mark_all(items.as_slice(), aims),
        Expr::Part { a, offset, .. } => {
            mark(*a, aims);
            mark(*offset, values);
        }
        Expr::Pick { index, items } => {
            mark(*index, values);
            mark_all(items.as_slice(), aims);
        }
        Expr::Cast { a, .. } => mark(*a, aims),
        _ => {}
    }
}

// Marks what an expression names.
#[tactic(auto, using(crate::proofs::Fronts::front_same, crate::proofs::Fronts::front_both))]
fn mark_named(e: &Expr, marks: &mut Agenda)
    requires { AllBelow (length marks.old.marks) (named e.now) }
    ensures marks { marks.new.marks ≡ marked (places_of (named e.now)) marks.old.marks }
    ensures list { IsFront marks.old.list marks.new.list }
{
    match e {
        Expr::Const { .. } => {}
        Expr::Sig(_) => {}
        Expr::Unary { a, .. } => mark(*a, marks),
        Expr::Binary { a, b, .. } => {
            mark(*a, marks);
            mark(*b, marks);
        }
        Expr::Mux { s, a, b } => {
            mark(*s, marks);
            mark(*a, marks);
            mark(*b, marks);
        }
        Expr::Slice { a, .. } => mark(*a, marks),
        Expr::Cat(items) => mark_all(items.as_slice(), marks),
        Expr::Part { a, offset, .. } => {
            mark(*a, marks);
            mark(*offset, marks);
        }
        Expr::Pick { index, items } => {
            mark(*index, marks);
            mark_all(items.as_slice(), marks);
        }
        Expr::Cast { a, .. } => mark(*a, marks),
        Expr::Matches { a, .. } => mark(*a, marks),
        Expr::Reset { .. } => {}
    }
}

/// Marks these expressions.
pub fn mark_all(items: &[ExprId], marks: &mut Agenda)
    requires { AllBelow (length marks.old.marks) items.now }
    ensures marks { marks.new.marks ≡ marked (places_of items.now) marks.old.marks }
    ensures list { IsFront marks.old.list marks.new.list }
{
    for e in items {
        mark(*e, marks);
    }
}

/// Marks an expression.
pub fn mark(e: ExprId, marks: &mut Agenda)
    requires { e.0 < length marks.old.marks }
    ensures marks { marks.new.marks ≡ slice_set marks.old.marks e.0 true }
    ensures list { IsFront marks.old.list marks.new.list }
{
    marks.mark(e.0 as usize);
}
