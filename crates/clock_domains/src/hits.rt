// The targets that stand for a part of some signals.
ghost use Rattle.std.specs.Prelude.{◌≡◌, ◌<◌, ℕ, length, IfOk};
ghost use Rattle.std.specs.List.{list_any};
ghost use Rattle.design_ir.specs.Named.{AllBelow as AreBelow, named};
ghost use Rattle.design_ir.specs.Targets.{target_signals};
ghost use Rattle.fragment_walks.specs.Marks.{AllBelow, is_marked, hit_step};
ghost use Rattle.fragment_walks.specs.Reads.{own_signals};

use amh_host::NoMemory;
use design_ir::{Expr, ExprId, Exprs, Pool};
use std::alloc::Global;

/// For each expression whether it stands for a part of a marked signal where it is a target.
pub fn hitting(alloc: Global, pool: &Pool, bad: &[bool]) -> Result<Vec<bool>, NoMemory>
    requires { length bad.now ≡ 16384 }
    ensures len { IfOk result (λ hits. length hits.items ≡ length pool.now.exprs) }
    ensures value { IfOk result (λ hits. (k : ℕ) → is_marked hits.items k ≡ list_any (is_marked bad.now) (target_signals pool.now k)) }
{
    let mut hits = Vec::new(alloc);
    for k in 0..pool.count() {
        let hit = is_hit(pool.at(ExprId(k)), bad, hits.as_slice());
        hits.push(hit)?;
    }
    Ok(hits)
}

// Whether an expression does, by those before it.
fn is_hit(e: &Expr, bad: &[bool], hits: &[bool]) -> bool
    requires names { AreBelow (length hits.now) (named e.now) }
    requires own { AllBelow (length bad.now) (own_signals e.now) }
    ensures { result ≡ hit_step (is_marked bad.now) (is_marked hits.now) e.now }
{
    match e {
        Expr::Sig(s) => bad[s.0 as usize],
        Expr::Slice { a, .. } | Expr::Part { a, .. } | Expr::Cast { a, .. } => hits[a.0 as usize],
        Expr::Cat(items) | Expr::Pick { items, .. } => is_any_hit(hits, items.as_slice()),
        Expr::Const { .. }
        | Expr::Unary { .. }
        | Expr::Binary { .. }
        | Expr::Mux { .. }
        | Expr::Matches { .. }
        | Expr::Reset { .. } => false,
    }
}

fn is_any_hit(hits: &[bool], items: &[ExprId]) -> bool
    requires { AreBelow (length hits.now) items.now }
    ensures { result ≡ list_any (λ e. is_marked hits.now e.0) items.now }
{
    for e in items {
        if hits[e.0 as usize] {
            return true;
        }
    }
    false
}
