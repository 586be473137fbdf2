// Marks that are handed down from expressions to their parts, each expression after all that stand over it.
ghost use Rattle.std.specs.Prelude.{◌≡◌, ◌<◌, ◌≤◌, ◌+◌, ℕ, length};
ghost use Rattle.design_ir.specs.Named.{AllBelow as AreBelow, named};
ghost use Rattle.design_ir.specs.PoolRules.{IsPool};
ghost use Rattle.design_ir.specs.Targets.{target_signals};
ghost use Rattle.fragment_walks.specs.Marks.{AllBelow, is_marked, marked, numbers, target_parts, own_offsets, comes_out};
ghost use Rattle.fragment_walks.specs.Reads.{own_signals, offsets_in, signals_in};

use crate::marks::{Roots, mark, mark_all};
use design_ir::{Expr, ExprId, Exprs, Pool};

// Marks the parts of a target, what it reads, and the signal that it is.
fn mark_target(e: &Expr, roots: &mut Roots, driven: &mut Vec<bool>)
    requires targets { AreBelow (length roots.old.targets.items) (named e.now) }
    requires values { AreBelow (length roots.old.values.items) (named e.now) }
    requires signals { AllBelow (length driven.old.items) (own_signals e.now) }
    ensures targets { roots.new.targets.items ≡ marked (numbers (target_parts e.now)) roots.old.targets.items }
    ensures values { roots.new.values.items ≡ marked (own_offsets e.now) roots.old.values.items }
    ensures driven { driven.new.items ≡ marked (own_signals e.now) driven.old.items }
{
    match e {
        Expr::Sig(s) => mark(driven, s.0 as usize),
        Expr::Slice { a, .. } | Expr::Cast { a, .. } => mark(&mut roots.targets, a.0 as usize),
        Expr::Cat(items) => mark_all(&mut roots.targets, items.as_slice()),
        Expr::Part { a, offset, .. } => {
            mark(&mut roots.targets, a.0 as usize);
            mark(&mut roots.values, offset.0 as usize);
        }
        Expr::Pick { index, items } => {
            mark_all(&mut roots.targets, items.as_slice());
            mark(&mut roots.values, index.0 as usize);
        }
        Expr::Const { .. }
        | Expr::Unary { .. }
        | Expr::Binary { .. }
        | Expr::Mux { .. }
        | Expr::Matches { .. }
        | Expr::Reset { .. } => {}
    }
}

// Marks the parts of an expression, and the signal that it is.
fn mark_value(e: &Expr, values: &mut Vec<bool>, read: &mut Vec<bool>)
    requires values { AreBelow (length values.old.items) (named e.now) }
    requires signals { AllBelow (length read.old.items) (own_signals e.now) }
    ensures values { values.new.items ≡ marked (numbers (named e.now)) values.old.items }
    ensures read { read.new.items ≡ marked (own_signals e.now) read.old.items }
{
    match e {
        Expr::Const { .. } | Expr::Reset { .. } => {}
        Expr::Sig(s) => mark(read, s.0 as usize),
        Expr::Unary { a, .. }
        | Expr::Slice { a, .. }
        | Expr::Cast { a, .. }
        | Expr::Matches { a, .. } => mark(values, a.0 as usize),
        Expr::Binary { a, b, .. } => {
            mark(values, a.0 as usize);
            mark(values, b.0 as usize);
        }
        Expr::Mux { s, a, b } => {
            mark(values, s.0 as usize);
            mark(values, a.0 as usize);
            mark(values, b.0 as usize);
        }
        Expr::Cat(items) => mark_all(values, items.as_slice()),
        Expr::Part { a, offset, .. } => {
            mark(values, a.0 as usize);
            mark(values, offset.0 as usize);
        }
        Expr::Pick { index, items } => {
            mark(values, index.0 as usize);
            mark_all(values, items.as_slice());
        }
    }
}

// Hands the mark of a target down to its parts.
fn spread_target(pool: &Pool, roots: &mut Roots, driven: &mut Vec<bool>, e: ExprId)
    requires rules { IsPool pool.now }
    requires there { e.0 < length pool.now.exprs }
    requires targets { length roots.old.targets.items ≡ length pool.now.exprs }
    requires values { length roots.old.values.items ≡ length pool.now.exprs }
    requires signals { length driven.old.items ≡ 16384 }
    ensures targets { length roots.new.targets.items ≡ length pool.now.exprs }
    ensures values { length roots.new.values.items ≡ length pool.now.exprs }
    ensures signals { length driven.new.items ≡ 16384 }
    ensures driven { (s : ℕ) → s < 16384 → comes_out (target_signals pool.now) roots.new.targets.items driven.new.items e.0 s ≡ comes_out (target_signals pool.now) roots.old.targets.items driven.old.items (e.0 + 1) s }
    ensures read { (k : ℕ) → k < length pool.now.exprs → comes_out (offsets_in pool.now) roots.new.targets.items roots.new.values.items e.0 k ≡ comes_out (offsets_in pool.now) roots.old.targets.items roots.old.values.items (e.0 + 1) k }
{
    if roots.targets[e.0 as usize] {
        mark_target(pool.at(e), roots, driven);
    }
}

/// Marks the signals that marked targets stand for, and the expressions that they read.
pub fn spread_targets(pool: &Pool, roots: &mut Roots, driven: &mut Vec<bool>)
    requires targets { length roots.old.targets.items ≡ length pool.now.exprs }
    requires values { length roots.old.values.items ≡ length pool.now.exprs }
    requires signals { length driven.old.items ≡ 16384 }
    ensures values { length roots.new.values.items ≡ length pool.now.exprs }
    ensures signals { length driven.new.items ≡ 16384 }
    ensures driven { (s : ℕ) → s < 16384 → is_marked driven.new.items s ≡ comes_out (target_signals pool.now) roots.old.targets.items driven.old.items (length pool.now.exprs) s }
    ensures read { (k : ℕ) → k < length pool.now.exprs → is_marked roots.new.values.items k ≡ comes_out (offsets_in pool.now) roots.old.targets.items roots.old.values.items (length pool.now.exprs) k }
{
    let count = pool.count();
    for i in 0..count {
        spread_target(pool, roots, driven, ExprId(count - 1 - i));
    }
}

// Hands the mark of an expression down to its parts.
fn spread_value(pool: &Pool, values: &mut Vec<bool>, read: &mut Vec<bool>, e: ExprId)
    requires rules { IsPool pool.now }
    requires there { e.0 < length pool.now.exprs }
    requires values { length values.old.items ≡ length pool.now.exprs }
    requires signals { length read.old.items ≡ 16384 }
    ensures values { length values.new.items ≡ length pool.now.exprs }
    ensures signals { length read.new.items ≡ 16384 }
    ensures read { (s : ℕ) → s < 16384 → comes_out (signals_in pool.now) values.new.items read.new.items e.0 s ≡ comes_out (signals_in pool.now) values.old.items read.old.items (e.0 + 1) s }
{
    if values[e.0 as usize] {
        mark_value(pool.at(e), values, read);
    }
}

/// Marks the signals that stand in marked expressions.
pub fn spread_values(pool: &Pool, values: &mut Vec<bool>, read: &mut Vec<bool>)
    requires values { length values.old.items ≡ length pool.now.exprs }
    requires signals { length read.old.items ≡ 16384 }
    ensures signals { length read.new.items ≡ 16384 }
    ensures read { (s : ℕ) → s < 16384 → is_marked read.new.items s ≡ comes_out (signals_in pool.now) values.old.items read.old.items (length pool.now.exprs) s }
{
    let count = pool.count();
    for i in 0..count {
        spread_value(pool, values, read, ExprId(count - 1 - i));
    }
}
