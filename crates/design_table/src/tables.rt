// For each expression whether it is a target of some kind.
ghost use Rattle.std.specs.Prelude.{◌≡◌, ◌==◌, ◌&&◌, [], false, IfOk};
ghost use Rattle.std.specs.List.{list_all, list_any};
ghost use Rattle.design_ir.specs.Pools.{answers};
ghost use Rattle.design_table.specs.Tests.{is_own, is_at, side_of, side_step};

use amh_host::NoMemory;
use design_ir::{Expr, ExprId, Exprs, Pool, Port, SigId};
use std::alloc::Global;

/// Whether a number is marked.
pub fn is_at(marks: &[bool], k: u32) -> bool
    ensures { result ≡ is_at marks.now k }
{
    let k = k as usize;
    k < marks.len() && marks[k]
}

// Whether all of these are marked.
fn all_at(marks: &[bool], items: &[ExprId]) -> bool
    ensures { result ≡ list_all (λ e. is_at marks.now e.0) items.now }
{
    items.iter().all(|e| is_at(marks, e.0))
}

/// Whether a signal is an input.
pub fn is_input(ports: &[Port], s: SigId) -> bool
    ensures { result ≡ list_any (λ p. p.is_input && (p.sig.0 == s.0)) ports.now }
{
    ports.iter().any(|p| p.is_input && p.sig.0 == s.0)
}

// On which side a signal is driven.
fn side_of(sides: &[usize], s: SigId) -> usize
    ensures { result ≡ side_of sides.now s.0 }
{
    match sides.get(s.0 as usize) {
        Some(side) => *side,
        None => 0,
    }
}

/// Whether a signal is no input, and driven on this side.
pub fn is_own(ports: &[Port], sides: &[usize], side: usize, s: SigId) -> bool
    ensures { result ≡ is_own ports.now sides.now side s.0 }
{
    !is_input(ports, s) && side_of(sides, s) == side
}

// Whether an expression is a target of signals of this side, by the marks of those before it.
fn is_side_target(ports: &[Port], sides: &[usize], side: usize, marks: &[bool], e: &Expr) -> bool
    ensures { result ≡ side_step (is_own ports.now sides.now side) (is_at marks.now) e.now }
{
    match e {
        Expr::Sig(s) => is_own(ports, sides, side, *s),
        Expr::Slice { a, .. } | Expr::Part { a, .. } | Expr::Cast { a, .. } => is_at(marks, a.0),
        Expr::Cat(items) | Expr::Pick { items, .. } => all_at(marks, items.as_slice()),
        Expr::Const { .. }
        | Expr::Unary { .. }
        | Expr::Binary { .. }
        | Expr::Mux { .. }
        | Expr::Matches { .. }
        | Expr::Reset { .. } => false,
    }
}

/// For each expression whether it is a target of signals of this side.
pub fn side_targets(
    alloc: Global,
    pool: &Pool,
    ports: &[Port],
    sides: &[usize],
    side: usize,
) -> Result<Vec<bool>, NoMemory>
    ensures { IfOk result (λ v. v.items ≡ answers false (side_step (is_own ports.now sides.now side)) [] pool.now.exprs) }
{
    let mut marks = Vec::new(alloc);
    for k in 0..pool.count() {
        let e = pool.at(ExprId(k));
        let is_target = is_side_target(ports, sides, side, marks.as_slice(), e);
        marks.push(is_target)?;
    }
    Ok(marks)
}
