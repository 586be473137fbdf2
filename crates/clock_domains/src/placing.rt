// Resets as the signals that they are.
ghost use Rattle.std.specs.Prelude.{◌≡◌, ◌<◌, List, [], length, None, is_some, slice_get, IfOk, IfErr, OnOk};
ghost use Rattle.std.specs.BTreeMap.{get_by_text};
ghost use Rattle.std.specs.List.{AllByRecursion};
ghost use Rattle.design_ir.specs.declared.ids.ExprId.{ExprId};
ghost use Rattle.fragment_walks.specs.Numbers.{first_at};
ghost use Rattle.fragment_walks.specs.Held.{held_resets};
ghost use Rattle.fragment_walks.specs.Holders.{AreHolders, all_roots};
ghost use Rattle.clock_domains.specs.Placed.{placed_from};
ghost use Rattle.clock_domains.specs.Placing.{IsLacking, IsLackingPut, place_stop, placed_signal};
ghost use Rattle.clock_domains.specs.Resolvable.{IsDomainOf};
ghost use Rattle.clock_domains.specs.Resolved.{clash_after, reset_refusal};
ghost use Rattle.clock_domains.specs.Stops.{IsOwed};

use crate::domains::position_named;
use crate::stop::ResolveStop;
use amh_host::NoMemory;
use design_ir::{Domain, DomainDef, Expr, ExprId, Exprs, Pool, SigId};
use std::alloc::Global;
use std::collections::BTreeMap;

// ---- domains without a reset

// The name of a definition more, where its domain has no reset.
fn add_lacking(
    alloc: Global,
    lacking: &mut BTreeMap<String, usize>,
    definition: &DomainDef,
) -> Result<(), NoMemory>
    ensures { OnOk result (IsLackingPut (get_by_text lacking.old) definition.now (get_by_text lacking.new)) }
{
    if definition.domain.rst.is_some() {
        return Ok(());
    }
    let name = String::from_str(alloc, definition.domain.name.as_str())?;
    lacking.insert(name, 0)?;
    Ok(())
}

// The names of the definitions whose domains have no reset.
fn lacking_names(
    alloc: Global,
    definitions: &[DomainDef],
) -> Result<BTreeMap<String, usize>, NoMemory>
    requires { clash_after [] definitions.now ≡ None }
    ensures { IfOk result (λ names. IsLacking definitions.now (get_by_text names)) }
{
    let mut lacking = BTreeMap::new(alloc);
    for definition in definitions {
        add_lacking(alloc, &mut lacking, definition)?;
    }
    Ok(lacking)
}

// Why a held expression is refused: it is the reset of a domain that has none.
fn place_stop(lacking: &BTreeMap<String, usize>, e: &Expr) -> Option<ResolveStop>
    ensures { result ≡ place_stop (get_by_text lacking.now) e.now }
{
    match e {
        Expr::Reset { domain, place } if lacking.contains_key(domain.as_str()) => {
            Some(ResolveStop::NoReset(*place))
        }
        _ => None,
    }
}

/// Refuses the first reset, in order of making, that a module holds and whose domain has none.
pub fn no_missing_reset(
    alloc: Global,
    pool: &Pool,
    holders: &[Option<usize>],
    definitions: &[DomainDef],
) -> Result<(), ResolveStop>
    ghost roots: { List (List ExprId) }
    requires holders { AreHolders pool.now roots holders.now }
    requires distinct { clash_after [] definitions.now ≡ None }
    ensures accepted { OnOk result (reset_refusal definitions.now (held_resets pool.now (all_roots roots)) ≡ None) }
    ensures refused { IfErr result (IsOwed (reset_refusal definitions.now (held_resets pool.now (all_roots roots)))) }
{
    let lacking = lacking_names(alloc, definitions)?;
    for k in 0..pool.count() {
        if holders[k as usize].is_some() {
            if let Some(stop) = place_stop(&lacking, pool.at(ExprId(k))) {
                return Err(stop);
            }
        }
    }
    Ok(())
}

// ---- in their places

// The signal that an expression is to become: the reset of its domain, where it is held and its domain has one.
fn placed_signal(
    pool: &Pool,
    holders: &[Option<usize>],
    domains: &[Domain],
    e: ExprId,
) -> Option<SigId>
    requires there { e.0 < length pool.now.exprs }
    requires size { length holders.now ≡ length pool.now.exprs }
    ensures { result ≡ placed_signal domains.now (is_some (first_at holders.now e.0)) (slice_get pool.now.exprs e.0) }
{
    if holders[e.0 as usize].is_none() {
        return None;
    }
    match pool.at(e) {
        Expr::Reset { domain, .. } => match position_named(domains, domain.as_str()) {
            Some(number) => domains[number].rst,
            None => None,
        },
        _ => None,
    }
}

/// Puts the signal of its domain's reset in the place of each reset that a module holds.
pub fn place_resets(pool: &mut Pool, holders: &[Option<usize>], domains: &[Domain])
    requires size { length holders.now ≡ length pool.old.exprs }
    requires domains { AllByRecursion (IsDomainOf pool.old) domains.now }
    ensures { pool.new ≡ record pool.old { exprs = placed_from domains.now (λ k. is_some (first_at holders.now k)) 0 pool.old.exprs } }
{
    for k in 0..pool.count() {
        if let Some(s) = placed_signal(pool, holders, domains, ExprId(k)) {
            pool.place_reset(ExprId(k), s);
        }
    }
}
