// The first fragment that holds each expression, by its number.
ghost use Rattle.std.specs.Prelude.{◌≡◌, ◌<◌, ◌+◌, ℕ, length, IfOk};
ghost use Rattle.std.specs.List.{AllByRecursion};
ghost use Rattle.design_ir.specs.Named.{AllBelow, named};
ghost use Rattle.design_ir.specs.PoolRules.{IsPool};
ghost use Rattle.fragment_walks.specs.Held.{inside};
ghost use Rattle.fragment_walks.specs.Holders.{AreHolders, first_roots};
ghost use Rattle.fragment_walks.specs.Marks.{comes_out, is_marked, marked, numbers};
ghost use Rattle.fragment_walks.specs.Numbers.{bounded, lowered};

use crate::numbers::{lower, lower_all, unnumbered};
use amh_host::NoMemory;
use design_ir::{Expr, ExprId, Exprs, Ids, Pool};
use std::alloc::Global;

// Each fragment numbers the expressions that stand directly in it.
fn number_roots(roots: &[Ids], holders: &mut Vec<Option<usize>>)
    requires { AllByRecursion (AllBelow (length holders.old.items)) roots.now }
    ensures size { length holders.new.items ≡ length holders.old.items }
    ensures each { (i : ℕ) → bounded i holders.new.items ≡ marked (numbers (first_roots i roots.now)) (bounded i holders.old.items) }
{
    for (number, ids) in roots.iter().enumerate() {
        lower_all(holders, ids.as_slice(), number);
    }
}

// Gives the parts of an expression its number.
fn lower_parts(e: &Expr, number: usize, holders: &mut Vec<Option<usize>>)
    requires { AllBelow (length holders.old.items) (named e.now) }
    ensures { holders.new.items ≡ lowered (numbers (named e.now)) number holders.old.items }
{
    match e {
        Expr::Const { .. } | Expr::Reset { .. } | Expr::Sig(_) => {}
        Expr::Unary { a, .. }
        | Expr::Slice { a, .. }
        | Expr::Cast { a, .. }
        | Expr::Matches { a, .. } => lower(holders, a.0 as usize, number),
        Expr::Binary { a, b, .. } => {
            lower(holders, a.0 as usize, number);
            lower(holders, b.0 as usize, number);
        }
        Expr::Mux { s, a, b } => {
            lower(holders, s.0 as usize, number);
            lower(holders, a.0 as usize, number);
            lower(holders, b.0 as usize, number);
        }
        Expr::Cat(items) => lower_all(holders, items.as_slice(), number),
        Expr::Part { a, offset, .. } => {
            lower(holders, a.0 as usize, number);
            lower(holders, offset.0 as usize, number);
        }
        Expr::Pick { index, items } => {
            lower(holders, index.0 as usize, number);
            lower_all(holders, items.as_slice(), number);
        }
    }
}

// Hands the number of an expression down to its parts.
fn hand_down(pool: &Pool, e: ExprId, holders: &mut Vec<Option<usize>>)
    requires rules { IsPool pool.now }
    requires there { e.0 < length pool.now.exprs }
    requires size { length holders.old.items ≡ length pool.now.exprs }
    ensures size { length holders.new.items ≡ length pool.now.exprs }
    ensures held { (i k : ℕ) → k < length pool.now.exprs → comes_out (inside pool.now) (bounded i holders.new.items) (bounded i holders.new.items) e.0 k ≡ comes_out (inside pool.now) (bounded i holders.old.items) (bounded i holders.old.items) (e.0 + 1) k }
{
    if let Some(number) = holders[e.0 as usize] {
        lower_parts(pool.at(e), number, holders);
    }
}

// Hands all numbers down, each after all that stand over it.
fn hand_all_down(pool: &Pool, holders: &mut Vec<Option<usize>>)
    requires size { length holders.old.items ≡ length pool.now.exprs }
    ensures size { length holders.new.items ≡ length pool.now.exprs }
    ensures held { (i k : ℕ) → k < length pool.now.exprs → is_marked (bounded i holders.new.items) k ≡ comes_out (inside pool.now) (bounded i holders.old.items) (bounded i holders.old.items) (length pool.now.exprs) k }
{
    let count = pool.count();
    for i in 0..count {
        hand_down(pool, ExprId(count - 1 - i), holders);
    }
}

/// For each expression the number of the first fragment that holds it, by those that stand directly in each fragment.
pub fn first_holders(
    alloc: Global,
    pool: &Pool,
    roots: &[Ids],
) -> Result<Vec<Option<usize>>, NoMemory>
    requires { AllByRecursion (AllBelow (length pool.now.exprs)) roots.now }
    ensures { IfOk result (λ v. AreHolders pool.now roots.now v.items) }
{
    let mut holders = unnumbered(alloc, pool.count() as usize)?;
    number_roots(roots, &mut holders);
    hand_all_down(pool, &mut holders);
    Ok(holders)
}
