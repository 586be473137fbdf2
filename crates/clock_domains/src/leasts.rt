// The least number among the signals that a target stands for.
ghost use Rattle.std.specs.Prelude.{◌≡◌, ◌<◌, ℕ, length, IfOk};
ghost use Rattle.std.specs.List.{list_any};
ghost use Rattle.design_ir.specs.Named.{AllBelow as AreBelow, named};
ghost use Rattle.design_ir.specs.Targets.{target_signals};
ghost use Rattle.fragment_walks.specs.Marks.{AllBelow, is_marked, hit_step};
ghost use Rattle.fragment_walks.specs.Numbers.{bounded, is_below};
ghost use Rattle.fragment_walks.specs.Reads.{own_signals};

use amh_host::NoMemory;
use design_ir::{Expr, ExprId, Exprs, Pool};
use fragment_walks::numbers::lesser;
use std::alloc::Global;

/// For each expression the least number of the signals that it stands for where it is a target.
pub fn leasts_of(
    alloc: Global,
    pool: &Pool,
    firsts: &[Option<usize>],
) -> Result<Vec<Option<usize>>, NoMemory>
    requires { length firsts.now ≡ 16384 }
    ensures len { IfOk result (λ leasts. length leasts.items ≡ length pool.now.exprs) }
    ensures value { IfOk result (λ leasts. (i k : ℕ) → is_marked (bounded i leasts.items) k ≡ list_any (is_marked (bounded i firsts.now)) (target_signals pool.now k)) }
{
    let mut leasts = Vec::new(alloc);
    for k in 0..pool.count() {
        let least = least_in(pool.at(ExprId(k)), firsts, leasts.as_slice());
        leasts.push(least)?;
    }
    Ok(leasts)
}

// That of an expression, by those before it.
fn least_in(e: &Expr, firsts: &[Option<usize>], leasts: &[Option<usize>]) -> Option<usize>
    requires names { AreBelow (length leasts.now) (named e.now) }
    requires own { AllBelow (length firsts.now) (own_signals e.now) }
    ensures { (i : ℕ) → is_below i result ≡ hit_step (is_marked (bounded i firsts.now)) (is_marked (bounded i leasts.now)) e.now }
{
    match e {
        Expr::Sig(s) => firsts[s.0 as usize],
        Expr::Slice { a, .. } | Expr::Part { a, .. } | Expr::Cast { a, .. } => leasts[a.0 as usize],
        Expr::Cat(items) | Expr::Pick { items, .. } => least_of(leasts, items.as_slice()),
        Expr::Const { .. }
        | Expr::Unary { .. }
        | Expr::Binary { .. }
        | Expr::Mux { .. }
        | Expr::Matches { .. }
        | Expr::Reset { .. } => None,
    }
}

fn least_of(leasts: &[Option<usize>], items: &[ExprId]) -> Option<usize>
    requires { AreBelow (length leasts.now) items.now }
    ensures { (i : ℕ) → is_below i result ≡ list_any (λ e. is_marked (bounded i leasts.now) e.0) items.now }
{
    let mut least = None;
    for e in items {
        least = lesser(least, leasts[e.0 as usize]);
    }
    least
}
