// The first expression of a pool that is a signal, for each signal.
ghost use Rattle.std.specs.Prelude.{◌≡◌, ◌++◌, ◌∷◌, [], ◌<◌, ℕ, List, None, Some, length, slice_get, IfOk};
ghost use Rattle.design_ir.specs.declared.expr.Expr.{Expr};
ghost use Rattle.fragment_walks.specs.Marks.{AllBelow};
ghost use Rattle.fragment_walks.specs.Reads.{own_signals};
ghost use Rattle.domain_transforms.specs.Placed.{ArePlaces};

use crate::driven::SIGNALS;
use amh_host::NoMemory;
use design_ir::{Expr, ExprId, Exprs, Pool};
use std::alloc::Global;

/// For each signal the first expression that is it, where there is one.
pub(crate) fn places_of(alloc: Global, pool: &Pool) -> Result<Vec<Option<ExprId>>, NoMemory>
    ensures { IfOk result (λ v. ArePlaces pool.now.exprs v.items) }
{
    let mut places = no_places(alloc, SIGNALS)?;
    let count = pool.count();
    for k in 0..count {
        add_place(&mut places, pool.at(ExprId(k)), ExprId(k));
    }
    Ok(places)
}

// No place for so many signals.
fn no_places(alloc: Global, count: usize) -> Result<Vec<Option<ExprId>>, NoMemory>
    ensures size { IfOk result (λ v. length v.items ≡ count) }
    ensures each { IfOk result (λ v. (s : ℕ) → s < count → slice_get v.items s ≡ Some None) }
{
    Ok(vec![in alloc; None; count]?)
}

// The place of a signal, where an expression is the first one that is it.
fn add_place(places: &mut Vec<Option<ExprId>>, e: &Expr, id: ExprId)
    requires { AllBelow (length places.old.items) (own_signals e.now) }
    ensures { (exprs : List Expr) → length exprs ≡ id.0 → ArePlaces exprs places.old.items → ArePlaces (exprs ++ e.now ∷ []) places.new.items }
{
    if let Expr::Sig(s) = e {
        let s = s.0 as usize;
        if places[s].is_none() {
            places[s] = Some(id);
        }
    }
}
