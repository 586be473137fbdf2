// Names of domains, and the new ones that they get.
ghost use Rattle.std.specs.Prelude.{◌≡◌, ◌++◌, ◌∷◌, [], length, IfOk, Some, None, codes};
ghost use Rattle.std.specs.Option.{option_copied};
ghost use Rattle.py_heap.specs.Heaps.{seen};
ghost use Rattle.elab_wrappers.specs.Wrappers.{domain_formed, domain_named, pair_named, and_item, pairs_of_row, pairs_given};

use amh_host::Text;
use domain_transforms::{NamePair, NamePairs};
use elab_store::names::is_text;
use identifiers::is_identifier;
use lists::NoMemory;
use py_heap::{Frozen, Heap};
use py_values::Val;
use std::alloc::Global;

// The name of a domain with a clock: an identifier other than `comb`.
fn domain_formed(alloc: Global, name: &str) -> Result<Option<&str>, NoMemory>
    ensures { IfOk result (λ formed. option_copied formed ≡ domain_formed name.now) }
{
    if is_text(name, "comb") {
        return Ok(None);
    }
    if is_identifier(alloc, name)? {
        Ok(Some(name))
    } else {
        Ok(None)
    }
}

/// The name of a domain with a clock, where a string is one.
pub fn domain_named<'a>(
    alloc: Global,
    heap: &'a Heap,
    frozen: &'a Frozen,
    v: Val,
) -> Result<Option<&'a str>, NoMemory>
    ensures { IfOk result (λ name. option_copied name ≡ domain_named (seen frozen.now heap.now) v) }
{
    match v {
        Val::Str(x) => domain_formed(alloc, heap.text(frozen, x)),
        _ => Ok(None),
    }
}

/// A name that is kept.
pub fn copied(alloc: Global, name: &str) -> Result<Text, NoMemory>
    ensures { IfOk result (λ copy. copy ≡ name.now) }
{
    let mut copy = Text::new(alloc);
    copy.push(name)?;
    Ok(copy)
}

fn pair_of(alloc: Global, before: &str, after: &str) -> Result<NamePair, NoMemory>
    ensures { IfOk result (λ p. p ≡ record { before = before.now; after = after.now }) }
{
    Ok(NamePair {
        before: copied(alloc, before)?,
        after: copied(alloc, after)?,
    })
}

// A domain and its new name.
fn pair_named(
    alloc: Global,
    heap: &Heap,
    frozen: &Frozen,
    k: Val,
    v: Val,
) -> Result<Option<NamePair>, NoMemory>
    ensures { IfOk result (λ p. p ≡ pair_named (domain_named (seen frozen.now heap.now) k) (domain_named (seen frozen.now heap.now) v)) }
{
    let Some(before) = domain_named(alloc, heap, frozen, k)? else {
        return Ok(None);
    };
    let Some(after) = domain_named(alloc, heap, frozen, v)? else {
        return Ok(None);
    };
    let pair = pair_of(alloc, before, after)?;
    Ok(Some(pair))
}

// Those of a dict, by its keys and their values.
fn pairs_of_row(
    alloc: Global,
    heap: &Heap,
    frozen: &Frozen,
    row: &[Val],
) -> Result<Option<NamePairs>, NoMemory>
    ensures { IfOk result (λ ps. ps ≡ pairs_of_row (seen frozen.now heap.now) row.now) }
{
    let mut pairs = NamePairs::new(alloc);
    let mut rest = row;
    while let [k, v, more @ ..] = rest {
        match pair_named(alloc, heap, frozen, *k, *v)? {
            Some(pair) => pairs.push(pair)?,
            None => return Ok(None),
        }
        rest = more;
    }
    if rest.is_empty() {
        Ok(Some(pairs))
    } else {
        Ok(None)
    }
}

// The new name of `sync`.
fn pair_of_sync(
    alloc: Global,
    heap: &Heap,
    frozen: &Frozen,
    v: Val,
) -> Result<Option<NamePairs>, NoMemory>
    ensures { IfOk result (λ ps. ps ≡ and_item (pair_named (Some (codes "sync")) (domain_named (seen frozen.now heap.now) v)) (Some [])) }
{
    let Some(after) = domain_named(alloc, heap, frozen, v)? else {
        return Ok(None);
    };
    let pair = pair_of(alloc, "sync", after)?;
    let mut pairs = NamePairs::new(alloc);
    pairs.push(pair)?;
    Ok(Some(pairs))
}

/// The new names that a value says.
pub fn pairs_given(
    alloc: Global,
    heap: &Heap,
    frozen: &Frozen,
    v: Val,
) -> Result<Option<NamePairs>, NoMemory>
    ensures { IfOk result (λ ps. ps ≡ pairs_given (seen frozen.now heap.now) v) }
{
    match v {
        Val::Dict(o) => pairs_of_row(alloc, heap, frozen, heap.row(frozen, o)),
        _ => pair_of_sync(alloc, heap, frozen, v),
    }
}
