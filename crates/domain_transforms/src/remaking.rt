// Expressions in which a renamed reset stands, made anew.
ghost use Rattle.std.specs.Prelude.{◌≡◌, ◌<◌, ◌+◌, ◌++◌, ◌∷◌, [], ◌&&◌, ℕ, Bool, length, map, IfOk};
ghost use Rattle.std.specs.List.{list_any};
ghost use Rattle.design_ir.specs.declared.ids.ExprId.{ExprId};
ghost use Rattle.design_ir.specs.Named.{AllBelow, named};
ghost use Rattle.design_ir.specs.Pools.{Pooled};
ghost use Rattle.fragment_walks.specs.Marks.{is_marked};
ghost use Rattle.domain_transforms.specs.Anew.{AreAnew, IsNext};
ghost use Rattle.domain_transforms.specs.Changes.{id_of};
ghost use Rattle.domain_transforms.specs.Placed.{fragment_exprs};
ghost use Rattle.domain_transforms.specs.Renamed.{anew, holds_renamed, remade, renamed_expr, renamed_pool, renamed_test};

use crate::controls::{NamePairs, is_renamed, name_after};
use crate::copies::copied_items;
use crate::renaming::id_of;
use crate::roots::within_marks;
use amh_host::{Items, NoMemory};
use design_ir::{Expr, ExprId, Exprs, Fragment, Ids, Pool};
use std::alloc::Global;

// ---- in which expressions a renamed reset stands

fn any_marked(marks: &[bool], items: &[ExprId]) -> bool
    requires { AllBelow (length marks.now) items.now }
    ensures { result ≡ list_any (λ (e : ExprId). is_marked marks.now e.0) items.now }
{
    for e in items {
        if marks[e.0 as usize] {
            return true;
        }
    }
    false
}

// Whether an expression is a renamed reset, or a part of it is marked.
fn is_touched(names: &NamePairs, marks: &[bool], e: &Expr) -> bool
    requires { AllBelow (length marks.now) (named e.now) }
    ensures { result ≡ renamed_test names.now (is_marked marks.now) e.now }
{
    match e {
        Expr::Reset { domain, .. } => is_renamed(names, domain.as_str()),
        Expr::Const { .. } | Expr::Sig(_) => false,
        Expr::Unary { a, .. }
        | Expr::Slice { a, .. }
        | Expr::Cast { a, .. }
        | Expr::Matches { a, .. } => any_marked(marks, &[*a]),
        Expr::Binary { a, b, .. } => any_marked(marks, &[*a, *b]),
        Expr::Mux { s, a, b } => any_marked(marks, &[*s, *a, *b]),
        Expr::Cat(items) => any_marked(marks, items.as_slice()),
        Expr::Part { a, offset, .. } => any_marked(marks, &[*a, *offset]),
        Expr::Pick { index, items } => {
            any_marked(marks, &[*index]) || any_marked(marks, items.as_slice())
        }
    }
}

// For each expression whether a renamed reset stands in it.
fn touched_marks(alloc: Global, pool: &Pool, names: &NamePairs) -> Result<Vec<bool>, NoMemory>
    ensures size { IfOk result (λ v. length v.items ≡ length pool.now.exprs) }
    ensures each { IfOk result (λ v. (k : ℕ) → is_marked v.items k ≡ holds_renamed names.now pool.now k) }
{
    let count = pool.count();
    let mut marks = Vec::new(alloc);
    for k in 0..count {
        let touched = is_touched(names, marks.as_slice(), pool.at(ExprId(k)));
        marks.push(touched)?;
    }
    Ok(marks)
}

// ---- what they become

fn renamed_ids(alloc: Global, ids: &[ExprId], items: &Ids) -> Result<Ids, NoMemory>
    requires { AllBelow (length ids.now) items.now }
    ensures { IfOk result (λ xs. xs ≡ map (id_of ids.now) items.now) }
{
    let mut all = Items::new(alloc);
    for e in items.as_slice() {
        all.push(id_of(ids, *e))?;
    }
    Ok(all)
}

// An expression over what stands for its parts, a reset under the domain's new name.
fn renamed_expr(
    alloc: Global,
    names: &NamePairs,
    ids: &[ExprId],
    e: &Expr,
) -> Result<Expr, NoMemory>
    requires { AllBelow (length ids.now) (named e.now) }
    ensures { IfOk result (λ x. x ≡ renamed_expr names.now (id_of ids.now) e.now) }
{
    Ok(match e {
        Expr::Const { value, shape } => Expr::Const {
            value: *value,
            shape: *shape,
        },
        Expr::Sig(s) => Expr::Sig(*s),
        Expr::Unary { op, a } => Expr::Unary {
            op: *op,
            a: id_of(ids, *a),
        },
        Expr::Binary { op, a, b } => Expr::Binary {
            op: *op,
            a: id_of(ids, *a),
            b: id_of(ids, *b),
        },
        Expr::Mux { s, a, b } => Expr::Mux {
            s: id_of(ids, *s),
            a: id_of(ids, *a),
            b: id_of(ids, *b),
        },
        Expr::Slice { a, low, width } => Expr::Slice {
            a: id_of(ids, *a),
            low: *low,
            width: *width,
        },
        Expr::Cat(items) => Expr::Cat(renamed_ids(alloc, ids, items)?),
        Expr::Part {
            a,
            offset,
            width,
            stride,
        } => Expr::Part {
            a: id_of(ids, *a),
            offset: id_of(ids, *offset),
            width: *width,
            stride: *stride,
        },
        Expr::Pick { index, items } => Expr::Pick {
            index: id_of(ids, *index),
            items: renamed_ids(alloc, ids, items)?,
        },
        Expr::Cast { a, signed } => Expr::Cast {
            a: id_of(ids, *a),
            signed: *signed,
        },
        Expr::Matches { a, patterns } => Expr::Matches {
            a: id_of(ids, *a),
            patterns: copied_items(alloc, patterns)?,
        },
        Expr::Reset { domain, place } => Expr::Reset {
            domain: name_after(alloc, names, domain)?,
            place: *place,
        },
    })
}

// ---- all of them

// What stands for an expression from now on: a new one, where it is to be made anew, else itself.
fn next_id(
    alloc: Global,
    pool: &mut Pool,
    names: &NamePairs,
    ids: &[ExprId],
    e: ExprId,
    anew: bool,
) -> Result<ExprId, NoMemory>
    requires { (q : Pooled) × (test : ℕ → Bool) × IsNext names.now q test e.0 anew ids.now pool.old }
    ensures { (q : Pooled) (test : ℕ → Bool) → IsNext names.now q test e.0 anew ids.now pool.old → IfOk result (λ id. AreAnew names.now q test (e.0 + 1) (ids.now ++ id ∷ []) pool.new) }
{
    if !anew {
        return Ok(e);
    }
    pool.known();
    let new = renamed_expr(alloc, names, ids, pool.at(e))?;
    let id = pool.more(new)?;
    pool.known();
    Ok(id)
}

// Whether an expression is marked twice.
fn both(a: &[bool], b: &[bool], k: u32) -> bool
    requires a { k < length a.now }
    requires b { k < length b.now }
    ensures { result ≡ (is_marked a.now k && is_marked b.now k) }
{
    a[k as usize] && b[k as usize]
}

// What stands for each expression, where those that are marked twice are made anew.
fn remade_ids(
    alloc: Global,
    pool: &mut Pool,
    names: &NamePairs,
    within: &[bool],
    touched: &[bool],
) -> Result<Vec<ExprId>, NoMemory>
    requires within { length within.now ≡ length pool.old.exprs }
    requires touched { length touched.now ≡ length pool.old.exprs }
    ensures { IfOk result (λ v. AreAnew names.now pool.old (λ k. is_marked within.now k && is_marked touched.now k) (length pool.old.exprs) v.items pool.new) }
{
    pool.known();
    let count = pool.count();
    let mut ids = Vec::new(alloc);
    for k in 0..count {
        let anew = both(within, touched, k);
        let id = next_id(alloc, pool, names, ids.as_slice(), ExprId(k), anew)?;
        ids.push(id)?;
    }
    Ok(ids)
}

/// What stands for each expression, where those of a fragment in which a renamed reset stands are made anew.
pub(crate) fn anew_ids(
    alloc: Global,
    pool: &mut Pool,
    names: &NamePairs,
    f: &Fragment,
) -> Result<Vec<ExprId>, NoMemory>
    requires { AllBelow (length pool.old.exprs) (fragment_exprs f.now) }
    ensures size { IfOk result (λ v. length v.items ≡ length pool.old.exprs) }
    ensures ids { IfOk result (λ v. id_of v.items ≡ anew (length pool.old.exprs) (remade names.now pool.old (fragment_exprs f.now))) }
    ensures pool { IfOk result (λ _. pool.new ≡ renamed_pool names.now pool.old (remade names.now pool.old (fragment_exprs f.now))) }
{
    let within = within_marks(alloc, pool, f)?;
    let touched = touched_marks(alloc, pool, names)?;
    remade_ids(alloc, pool, names, within.as_slice(), touched.as_slice())
}
