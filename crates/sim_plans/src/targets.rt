// The signals of which targets are parts.
ghost use Rattle.std.specs.Prelude.{◌≡◌, ◌<◌, ◌==◌, [], ◌∷◌, ◌++◌, length, slice_index_or, IfOk, OnOk};
ghost use Rattle.std.specs.List.{flat_map, list_any};
ghost use Rattle.design_ir.specs.Named.{AllBelow, named};
ghost use Rattle.design_ir.specs.Targets.{signals_step, target_signals};
ghost use Rattle.sim_plans.specs.Driven.{AreTargets, IsLike, numbers_of};

use amh_host::{Items, NoMemory};
use design_ir::{Design, Expr, ExprId, Exprs, Ids, SigId};
use std::alloc::Global;

/// Signals by number.
pub type SigIds = Items<SigId>;

/// For each expression the signals of which it is a part where it is a target, each once.
pub fn all_targets(alloc: Global, design: &Design) -> Result<Vec<SigIds>, NoMemory>
    ensures { IfOk result (λ all. AreTargets design.now.pool (length design.now.pool.exprs) all.items) }
{
    let mut all = Vec::new(alloc);
    for k in 0..design.count() {
        let signals = target(alloc, design, all.as_slice(), ExprId(k))?;
        all.push(signals)?;
    }
    Ok(all)
}

// The signals of an expression, by those of all expressions before it.
fn target(alloc: Global, design: &Design, all: &[SigIds], k: ExprId) -> Result<SigIds, NoMemory>
    requires there { k.0 < length design.now.pool.exprs }
    requires earlier { AreTargets design.now.pool k.0 all.now }
    ensures { IfOk result (λ signals. IsLike (numbers_of signals) (target_signals design.now.pool k.0)) }
{
    let _ = design.count();
    aimed(alloc, all, design.at(k))
}

// What the signals of an expression come to.
fn aimed(alloc: Global, all: &[SigIds], e: &Expr) -> Result<SigIds, NoMemory>
    requires { AllBelow (length all.now) (named e.now) }
    ensures { IfOk result (λ signals. IsLike (numbers_of signals) (signals_step (λ k. numbers_of (slice_index_or all.now k [])) e.now)) }
{
    match e {
        Expr::Sig(s) => alone(alloc, *s),
        Expr::Slice { a, .. } => once(alloc, at(all, *a)),
        Expr::Cat(items) => joined(alloc, all, items),
        Expr::Part { a, .. } => once(alloc, at(all, *a)),
        Expr::Pick { items, .. } => joined(alloc, all, items),
        Expr::Cast { a, .. } => once(alloc, at(all, *a)),
        _ => Ok(Items::new(alloc)),
    }
}

// The signals of an earlier expression.
fn at(all: &[SigIds], e: ExprId) -> &SigIds
    requires { e.0 < length all.now }
    ensures { result.now ≡ slice_index_or all.now e.0 [] }
{
    &all[e.0 as usize]
}

fn alone(alloc: Global, s: SigId) -> Result<SigIds, NoMemory>
    ensures { IfOk result (λ signals. signals ≡ s ∷ []) }
{
    let mut signals = Items::new(alloc);
    signals.push(s)?;
    Ok(signals)
}

// These signals, each once.
fn once(alloc: Global, all: &SigIds) -> Result<SigIds, NoMemory>
    ensures { IfOk result (λ signals. IsLike (numbers_of signals) (numbers_of all.now)) }
{
    let mut signals = Items::new(alloc);
    add_new(&mut signals, all)?;
    Ok(signals)
}

// The signals of all these expressions, each once.
fn joined(alloc: Global, all: &[SigIds], items: &Ids) -> Result<SigIds, NoMemory>
    requires { AllBelow (length all.now) items.now }
    ensures { IfOk result (λ signals. IsLike (numbers_of signals) (flat_map (λ e. numbers_of (slice_index_or all.now e.0 [])) items.now)) }
{
    let mut signals = Items::new(alloc);
    for e in items.as_slice() {
        add_new(&mut signals, at(all, *e))?;
    }
    Ok(signals)
}

// Adds the signals that are not there yet.
fn add_new(signals: &mut SigIds, more: &SigIds) -> Result<(), NoMemory>
    ensures { OnOk result (IsLike (numbers_of signals.new) (numbers_of signals.old ++ numbers_of more.now)) }
{
    for s in more.as_slice() {
        add(signals, *s)?;
    }
    Ok(())
}

// Adds a signal unless it is there.
fn add(signals: &mut SigIds, s: SigId) -> Result<(), NoMemory>
    ensures { OnOk result (IsLike (numbers_of signals.new) (numbers_of signals.old ++ s.0 ∷ [])) }
{
    if has(signals, s) {
        return Ok(());
    }
    signals.push(s)
}

fn has(signals: &SigIds, s: SigId) -> bool
    ensures { result ≡ list_any (λ x. x.0 == s.0) signals.now }
{
    signals.as_slice().iter().any(|x| x.0 == s.0)
}
