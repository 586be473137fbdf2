// Expressions once more, with other numbers.
ghost use Rattle.std.specs.Prelude.{◌≡◌, true, false, map, IfOk};
ghost use Rattle.expr_index.specs.Numbers as by;

use amh_host::Text;
use design_ir::{Expr, ExprId, Ids, Patterns};
use lists::NoMemory;
use std::alloc::Global;

/// The number that an expression gets: those behind the first `before` are counted from there, and past the list it stays.
pub fn number_now(e: ExprId, before: u32, now: &[ExprId]) -> ExprId
    ensures { result ≡ by.number_now before now.now e }
{
    if e.0 < before {
        return e;
    }
    match now.get((e.0 - before) as usize) {
        Some(id) => *id,
        None => e,
    }
}

/// The expression over the numbers that its parts get.
pub fn renumbered(alloc: Global, e: &Expr, before: u32, now: &[ExprId]) -> Result<Expr, NoMemory>
    ensures { IfOk result (λ x. x ≡ by.renumbered (by.number_now before now.now) e.now) }
{
    match e {
        Expr::Cat(ids) => Ok(Expr::Cat(ids_now(alloc, ids, before, now)?)),
        Expr::Pick { index, items } => Ok(Expr::Pick {
            index: number_now(*index, before, now),
            items: ids_now(alloc, items, before, now)?,
        }),
        Expr::Matches { a, patterns } => Ok(Expr::Matches {
            a: number_now(*a, before, now),
            patterns: same_patterns(alloc, patterns)?,
        }),
        Expr::Reset { domain, place } => Ok(Expr::Reset {
            domain: same_text(alloc, domain)?,
            place: *place,
        }),
        _ => Ok(plain_now(e, before, now)),
    }
}

// The same for an expression that holds no list.
fn plain_now(e: &Expr, before: u32, now: &[ExprId]) -> Expr
    requires { by.has_list e.now ≡ false }
    ensures { result ≡ by.renumbered (by.number_now before now.now) e.now }
{
    match e {
        Expr::Const { value, shape } => Expr::Const {
            value: *value,
            shape: *shape,
        },
        Expr::Sig(s) => Expr::Sig(*s),
        Expr::Slice { a, low, width } => Expr::Slice {
            a: number_now(*a, before, now),
            low: *low,
            width: *width,
        },
        Expr::Cast { a, signed } => Expr::Cast {
            a: number_now(*a, before, now),
            signed: *signed,
        },
        _ => operator_now(e, before, now),
    }
}

// The same for an operator, a choice or a part.
fn operator_now(e: &Expr, before: u32, now: &[ExprId]) -> Expr
    requires { by.is_operator e.now ≡ true }
    ensures { result ≡ by.renumbered (by.number_now before now.now) e.now }
{
    match e {
        Expr::Unary { op, a } => Expr::Unary {
            op: *op,
            a: number_now(*a, before, now),
        },
        Expr::Binary { op, a, b } => Expr::Binary {
            op: *op,
            a: number_now(*a, before, now),
            b: number_now(*b, before, now),
        },
        Expr::Mux { s, a, b } => Expr::Mux {
            s: number_now(*s, before, now),
            a: number_now(*a, before, now),
            b: number_now(*b, before, now),
        },
        Expr::Part {
            a,
            offset,
            width,
            stride,
        } => Expr::Part {
            a: number_now(*a, before, now),
            offset: number_now(*offset, before, now),
            width: *width,
            stride: *stride,
        },
        _ => unreachable!(),
    }
}

fn ids_now(alloc: Global, ids: &Ids, before: u32, now: &[ExprId]) -> Result<Ids, NoMemory>
    ensures { IfOk result (λ x. x ≡ map (by.number_now before now.now) ids.now) }
{
    let mut all = Ids::new(alloc);
    for id in ids.as_slice() {
        all.push(number_now(*id, before, now))?;
    }
    Ok(all)
}

fn same_patterns(alloc: Global, patterns: &Patterns) -> Result<Patterns, NoMemory>
    ensures { IfOk result (λ x. x ≡ patterns.now) }
{
    let mut all = Patterns::new(alloc);
    for p in patterns.as_slice() {
        all.push(*p)?;
    }
    Ok(all)
}

fn same_text(alloc: Global, text: &Text) -> Result<Text, NoMemory>
    ensures { IfOk result (λ x. x ≡ text.now) }
{
    let mut name = Text::new(alloc);
    name.push(text.as_str())?;
    Ok(name)
}
