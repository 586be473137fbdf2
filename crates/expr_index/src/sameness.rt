// Whether two expressions are the same.
ghost use Rattle.std.specs.Prelude.{◌≡◌};
ghost use Rattle.design_ir.specs.declared.expr.Expr.TheVariants as expr;
ghost use Rattle.expr_index.specs.Same.{same, same_ids, same_patterns};

use amh_bits::Int;
use amh_host::{Place, Text};
use design_ir::{Expr, ExprId, Ids, Pattern, Patterns, SigId};
use shape_rules::{Op, Shape};

/// Whether two expressions are the same.
pub fn is_same(a: &Expr, b: &Expr) -> bool
    ensures { result ≡ same a.now b.now }
{
    match a {
        Expr::Const { value, shape } => is_constant(b, *value, *shape),
        Expr::Sig(s) => is_signal(b, *s),
        Expr::Unary { op, a } => is_unary(b, *op, *a),
        Expr::Binary { op, a, b: c } => is_binary(b, *op, *a, *c),
        Expr::Mux { s, a, b: c } => is_choice(b, *s, *a, *c),
        Expr::Slice { a, low, width } => is_slice(b, *a, *low, *width),
        Expr::Cat(ids) => is_joined(b, ids),
        Expr::Part {
            a,
            offset,
            width,
            stride,
        } => is_part(b, (*a, *offset), (*width, *stride)),
        Expr::Pick { index, items } => is_pick(b, *index, items),
        Expr::Cast { a, signed } => is_cast(b, *a, *signed),
        Expr::Matches { a, patterns } => is_match(b, *a, patterns),
        Expr::Reset { domain, place } => is_reset(b, domain, *place),
    }
}

fn is_constant(e: &Expr, n: Int, s: Shape) -> bool
    ensures { result ≡ same (expr.Const n s) e.now }
{
    match e {
        Expr::Const { value, shape } => n == *value && s == *shape,
        _ => false,
    }
}

fn is_signal(e: &Expr, s: SigId) -> bool
    ensures { result ≡ same (expr.Sig s) e.now }
{
    match e {
        Expr::Sig(t) => s == *t,
        _ => false,
    }
}

fn is_unary(e: &Expr, op: Op, a: ExprId) -> bool
    ensures { result ≡ same (expr.Unary op a) e.now }
{
    match e {
        Expr::Unary { op: other, a: c } => op == *other && a == *c,
        _ => false,
    }
}

fn is_binary(e: &Expr, op: Op, a: ExprId, b: ExprId) -> bool
    ensures { result ≡ same (expr.Binary op a b) e.now }
{
    match e {
        Expr::Binary {
            op: other,
            a: c,
            b: d,
        } => op == *other && a == *c && b == *d,
        _ => false,
    }
}

fn is_choice(e: &Expr, s: ExprId, a: ExprId, b: ExprId) -> bool
    ensures { result ≡ same (expr.Mux s a b) e.now }
{
    match e {
        Expr::Mux { s: t, a: c, b: d } => s == *t && a == *c && b == *d,
        _ => false,
    }
}

fn is_slice(e: &Expr, a: ExprId, low: u8, width: u8) -> bool
    ensures { result ≡ same (expr.Slice a low width) e.now }
{
    match e {
        Expr::Slice {
            a: c,
            low: from,
            width: size,
        } => a == *c && low == *from && width == *size,
        _ => false,
    }
}

fn is_joined(e: &Expr, ids: &Ids) -> bool
    ensures { result ≡ same (expr.Cat ids.now) e.now }
{
    match e {
        Expr::Cat(others) => are_same_ids(ids.as_slice(), others.as_slice()),
        _ => false,
    }
}

// Of the parts the first is the value and the second the offset, of the counts the first is the width.
fn is_part(e: &Expr, parts: (ExprId, ExprId), counts: (u8, u8)) -> bool
    ensures { result ≡ same (expr.Part parts.0 parts.1 counts.0 counts.1) e.now }
{
    match e {
        Expr::Part {
            a,
            offset,
            width,
            stride,
        } => { parts.0 == *a && parts.1 == *offset && counts.0 == *width && counts.1 == *stride }
        _ => false,
    }
}

fn is_pick(e: &Expr, i: ExprId, ids: &Ids) -> bool
    ensures { result ≡ same (expr.Pick i ids.now) e.now }
{
    match e {
        Expr::Pick { index, items } => {
            i == *index && are_same_ids(ids.as_slice(), items.as_slice())
        }
        _ => false,
    }
}

fn is_cast(e: &Expr, a: ExprId, signed: bool) -> bool
    ensures { result ≡ same (expr.Cast a signed) e.now }
{
    match e {
        Expr::Cast {
            a: c,
            signed: minus,
        } => a == *c && signed == *minus,
        _ => false,
    }
}

fn is_match(e: &Expr, a: ExprId, patterns: &Patterns) -> bool
    ensures { result ≡ same (expr.Matches a patterns.now) e.now }
{
    match e {
        Expr::Matches {
            a: c,
            patterns: others,
        } => { a == *c && are_same_patterns(patterns.as_slice(), others.as_slice()) }
        _ => false,
    }
}

fn is_reset(e: &Expr, name: &Text, at: Place) -> bool
    ensures { result ≡ same (expr.Reset name.now at) e.now }
{
    match e {
        Expr::Reset { domain, place } => name.is(domain.as_str()) && at == *place,
        _ => false,
    }
}

fn are_same_ids(a: &[ExprId], b: &[ExprId]) -> bool
    ensures { result ≡ same_ids a.now b.now }
{
    a == b
}

fn are_same_patterns(a: &[Pattern], b: &[Pattern]) -> bool
    ensures { result ≡ same_patterns a.now b.now }
{
    a == b
}
