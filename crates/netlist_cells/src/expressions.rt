// The cells of each expression.
ghost use Rattle.std.specs.Prelude.{◌≡◌, ◌<◌, ◌≤◌, ◌+◌, ◌*◌, ◌^◌, min, map, take, length, slice_get, [], Some, None, IfOk};
ghost use Rattle.shape_rules.specs.Forms.{unsigned};
ghost use Rattle.shape_rules.specs.Stops.{IsTaken};
ghost use Rattle.design_ir.specs.declared.ids.ExprId.{ExprId};
ghost use Rattle.design_ir.specs.Named.{named, AllBelow};
ghost use Rattle.design_ir.specs.Values.{form};
ghost use Rattle.design_ir.specs.PoolRules.{IsAskable, bad_operand, greatest_width, shape_stop};
ghost use Rattle.netlist_laws.specs.Operands.{wire_part, const_spec};
ghost use Rattle.netlist_laws.specs.Operators.{operator_drawing, linked, whole};
ghost use Rattle.netlist_laws.specs.Ids.{value_id};
ghost use Rattle.netlist_laws.specs.Expressions.{chosen, selected, matched_any, in_reach, joined, part_count, picked_of, shown, drawn};
ghost use Rattle.netlist_laws.specs.Module.{signal_value, expr_value};
ghost use Rattle.netlist_cells.specs.Places.{AreColumnPlaces};

use crate::drawing::{Drawing, Value, linked};
use crate::ids::value_id;
use crate::item_cells::picked_of;
use crate::muxes::{chosen, selected};
use crate::operators::{operator_drawing, zero};
use crate::parts::{const_spec, push_wire_part, wire_part};
use crate::pattern_cells::matched_any;
use crate::tables::wire_id;
use amh_bits::Int;
use amh_host::{Items, NoMemory, Text};
use design_ir::{Design, Expr, ExprId, Exprs, Pattern, SigId};
use rtlil_text::SigSpec;
use shape_rules::{Op, Shape};
use std::alloc::Global;

// ---- values

/// The wire of a signal.
pub fn signal_value(
    alloc: Global,
    design: &Design,
    columns: &[Option<u32>],
    s: SigId,
) -> Result<Value, NoMemory>
    requires there { s.0 < length design.now.pool.signals }
    requires columns { AreColumnPlaces design.now columns.now }
    ensures { IfOk result (λ v. v ≡ signal_value design.now s.0) }
{
    Ok(Value {
        id: wire_id(alloc, design, columns, s)?,
        shape: design.sig_at(s).shape,
    })
}

/// The wire of an expression.
pub fn expr_value(alloc: Global, design: &Design, k: ExprId) -> Result<Value, NoMemory>
    requires { k.0 < length design.now.pool.exprs }
    ensures { IfOk result (λ v. v ≡ expr_value design.now k.0) }
{
    Ok(Value {
        id: value_id(alloc, k.0)?,
        shape: design.shape(k),
    })
}

// The wires of expressions.
fn expr_values(alloc: Global, design: &Design, es: &[ExprId]) -> Result<Vec<Value>, NoMemory>
    requires { AllBelow (length design.now.pool.exprs) es.now }
    ensures { IfOk result (λ vs. vs.items ≡ map (λ (e : ExprId). expr_value design.now e.0) es.now) }
{
    let mut values = Vec::new(alloc);
    for e in es {
        values.push(expr_value(alloc, design, *e)?)?;
    }
    Ok(values)
}

// The bits of expressions one above the other, the first the lowest.
#[tactic(auto, using(crate::proofs::LowerJoined::joined_turn, crate::proofs::LowerJoined::joined_begin, crate::proofs::LowerJoined::joined_end))]
fn joined(alloc: Global, design: &Design, es: &[ExprId]) -> Result<SigSpec, NoMemory>
    requires { AllBelow (length design.now.pool.exprs) es.now }
    ensures { IfOk result (λ spec. spec ≡ joined (expr_value design.now) es.now) }
{
    let mut spec = Items::new(alloc);
    for i in 0..es.len() {
        let e = es[es.len() - 1 - i];
        let value = expr_value(alloc, design, e)?;
        push_wire_part(alloc, value.id.as_str(), 0, value.width(), &mut spec)?;
    }
    Ok(spec)
}

// ---- the variants that take several steps

fn unary(
    alloc: Global,
    design: &Design,
    n: u128,
    op: Op,
    a: ExprId,
    y: &Value,
) -> Result<Drawing, NoMemory>
    requires few { n < 2 ^ 98 }
    requires there { a.0 < length design.now.pool.exprs }
    requires taken { IsTaken op (form design.now.pool a.0) (unsigned 0) }
    ensures { IfOk result (λ d. d ≡ operator_drawing op n (expr_value design.now a.0) (record { id = []; form = unsigned 0 }) y.now) }
{
    let a = expr_value(alloc, design, a)?;
    let none = Value {
        id: Text::new(alloc),
        shape: Shape {
            width: 0,
            signed: false,
        },
    };
    operator_drawing(alloc, op, n, &a, &none, y)
}

fn binary(
    alloc: Global,
    design: &Design,
    n: u128,
    op: Op,
    a: ExprId,
    b: ExprId,
    y: &Value,
) -> Result<Drawing, NoMemory>
    requires few { n < 2 ^ 98 }
    requires left { a.0 < length design.now.pool.exprs }
    requires right { b.0 < length design.now.pool.exprs }
    requires taken { IsTaken op (form design.now.pool a.0) (form design.now.pool b.0) }
    ensures { IfOk result (λ d. d ≡ operator_drawing op n (expr_value design.now a.0) (expr_value design.now b.0) y.now) }
{
    let a = expr_value(alloc, design, a)?;
    let b = expr_value(alloc, design, b)?;
    operator_drawing(alloc, op, n, &a, &b, y)
}

fn mux(
    alloc: Global,
    design: &Design,
    n: u128,
    s: ExprId,
    a: ExprId,
    b: ExprId,
    y: &Value,
) -> Result<Drawing, NoMemory>
    requires few { n < 2 ^ 98 }
    requires condition { s.0 < length design.now.pool.exprs }
    requires left { a.0 < length design.now.pool.exprs }
    requires right { b.0 < length design.now.pool.exprs }
    ensures { IfOk result (λ d. d ≡ chosen n (expr_value design.now s.0) (expr_value design.now a.0) (expr_value design.now b.0) y.now) }
{
    let s = expr_value(alloc, design, s)?;
    let a = expr_value(alloc, design, a)?;
    let b = expr_value(alloc, design, b)?;
    chosen(alloc, n, &s, &a, &b, y)
}

fn part(
    alloc: Global,
    design: &Design,
    n: u128,
    a: ExprId,
    offset: ExprId,
    stride: u8,
    y: &Value,
) -> Result<Drawing, NoMemory>
    requires few { n < 2 ^ 98 }
    requires whole { a.0 < length design.now.pool.exprs }
    requires offset { offset.0 < length design.now.pool.exprs }
    ensures { IfOk result (λ d. d ≡ selected n (expr_value design.now a.0) (expr_value design.now offset.0) stride y.now) }
{
    let a = expr_value(alloc, design, a)?;
    let offset = expr_value(alloc, design, offset)?;
    selected(alloc, n, &a, &offset, stride, y)
}

// How many items an index of this width can pick.
#[tactic(auto, using(crate::proofs::LowerTables::far_reach))]
fn reach(width: u8, count: usize) -> usize
    requires { width ≤ 128 }
    ensures { result ≡ min (2 ^ width) count }
{
    if width >= 64 {
        return count;
    }
    let all: u64 = 1 << width;
    (all as usize).min(count)
}

#[tactic(auto, using(crate::proofs::LowerTables::reached))]
fn pick(
    alloc: Global,
    design: &Design,
    n: u128,
    index: ExprId,
    items: &[ExprId],
    y: &Value,
) -> Result<Drawing, NoMemory>
    requires few { n + 4 * length items.now < 2 ^ 98 }
    requires index { index.0 < length design.now.pool.exprs }
    requires items { AllBelow (length design.now.pool.exprs) items.now }
    ensures { IfOk result (λ d. d ≡ picked_of n (expr_value design.now index.0) (in_reach (expr_value design.now index.0).form.width (map (λ (e : ExprId). expr_value design.now e.0) items.now)) y.now) }
{
    let index = expr_value(alloc, design, index)?;
    let values = expr_values(alloc, design, items)?;
    let count = reach(index.shape.width, values.len());
    picked_of(alloc, n, &index, &values.as_slice()[..count], y)
}

fn matches(
    alloc: Global,
    design: &Design,
    n: u128,
    a: ExprId,
    patterns: &[Pattern],
    y: &Value,
) -> Result<Drawing, NoMemory>
    requires few { n + 6 * length patterns.now < 2 ^ 98 }
    requires there { a.0 < length design.now.pool.exprs }
    ensures { IfOk result (λ d. d ≡ matched_any n (expr_value design.now a.0) patterns.now y.now) }
{
    let a = expr_value(alloc, design, a)?;
    matched_any(alloc, n, &a, patterns, y)
}

fn slice(alloc: Global, low: u8, width: u8, a: ExprId, y: &Value) -> Result<Drawing, NoMemory>
    ensures { IfOk result (λ d. d ≡ linked y.now (wire_part (value_id a.0) low width)) }
{
    let id = value_id(alloc, a.0)?;
    let bits = wire_part(alloc, id.as_str(), low as u32, width as u32)?;
    linked(alloc, y, bits)
}

fn cast(alloc: Global, design: &Design, a: ExprId, y: &Value) -> Result<Drawing, NoMemory>
    requires { a.0 < length design.now.pool.exprs }
    ensures { IfOk result (λ d. d ≡ linked y.now (whole (expr_value design.now a.0))) }
{
    let whole = expr_value(alloc, design, a)?.whole(alloc)?;
    linked(alloc, y, whole)
}

fn sig(
    alloc: Global,
    design: &Design,
    columns: &[Option<u32>],
    s: SigId,
    y: &Value,
) -> Result<Drawing, NoMemory>
    requires there { s.0 < length design.now.pool.signals }
    requires columns { AreColumnPlaces design.now columns.now }
    ensures { IfOk result (λ d. d ≡ linked y.now (whole (signal_value design.now s.0))) }
{
    let whole = signal_value(alloc, design, columns, s)?.whole(alloc)?;
    linked(alloc, y, whole)
}

fn cat(alloc: Global, design: &Design, es: &[ExprId], y: &Value) -> Result<Drawing, NoMemory>
    requires { AllBelow (length design.now.pool.exprs) es.now }
    ensures { IfOk result (λ d. d ≡ linked y.now (joined (expr_value design.now) es.now)) }
{
    let spec = joined(alloc, design, es)?;
    linked(alloc, y, spec)
}

fn constant(alloc: Global, width: u8, number: Int, y: &Value) -> Result<Drawing, NoMemory>
    requires { width ≤ 128 }
    ensures { IfOk result (λ d. d ≡ linked y.now (const_spec width number)) }
{
    let spec = const_spec(alloc, width, number)?;
    linked(alloc, y, spec)
}

// ---- all of them

/// How many parts an expression takes.
pub fn part_count(e: &Expr) -> u128
    ensures value { result ≡ part_count e.now }
    ensures bound { result < 2 ^ 67 }
{
    match e {
        Expr::Unary { .. } | Expr::Binary { .. } => 7,
        Expr::Mux { .. } => 3,
        Expr::Part { .. } => 4,
        Expr::Pick { items, .. } => 4 * items.len() as u128,
        Expr::Matches { patterns, .. } => 6 * patterns.len() as u128,
        Expr::Const { .. }
        | Expr::Sig(_)
        | Expr::Slice { .. }
        | Expr::Cat(_)
        | Expr::Cast { .. }
        | Expr::Reset { .. } => 0,
    }
}

// What gives y an expression.
#[tactic(auto, using(netlist_laws::proofs::OperatorExpressions::taken, netlist_laws::proofs::OperatorExpressions::unary_taken))]
fn shown(
    alloc: Global,
    design: &Design,
    columns: &[Option<u32>],
    n: u128,
    e: &Expr,
    y: &Value,
) -> Result<Drawing, NoMemory>
    requires few { n + part_count e.now < 2 ^ 98 }
    requires columns { AreColumnPlaces design.now columns.now }
    requires askable { IsAskable design.now.pool e.now }
    requires accepted { shape_stop (bad_operand (form design.now.pool) e.now) (greatest_width design.now.pool.signals (form design.now.pool) e.now) ≡ None }
    ensures { IfOk result (λ d. d ≡ shown (signal_value design.now) (expr_value design.now) n y.now e.now) }
{
    match e {
        Expr::Const { value, shape } => constant(alloc, shape.width, *value, y),
        Expr::Sig(s) => sig(alloc, design, columns, *s, y),
        Expr::Unary { op, a } => unary(alloc, design, n, *op, *a, y),
        Expr::Binary { op, a, b } => binary(alloc, design, n, *op, *a, *b, y),
        Expr::Mux { s, a, b } => mux(alloc, design, n, *s, *a, *b, y),
        Expr::Slice { a, low, width } => slice(alloc, *low, *width, *a, y),
        Expr::Cat(items) => cat(alloc, design, items.as_slice(), y),
        Expr::Part {
            a,
            offset,
            stride,
            ..
        } => part(alloc, design, n, *a, *offset, *stride, y),
        Expr::Pick { index, items } => pick(alloc, design, n, *index, items.as_slice(), y),
        Expr::Cast { a, .. } => cast(alloc, design, *a, y),
        Expr::Matches { a, patterns } => matches(alloc, design, n, *a, patterns.as_slice(), y),
        Expr::Reset { .. } => constant(alloc, 1, zero(), y),
    }
}

/// The drawing of an expression; one without bits takes nothing.
pub fn drawn(
    alloc: Global,
    design: &Design,
    columns: &[Option<u32>],
    n: u128,
    k: ExprId,
    e: &Expr,
) -> Result<Drawing, NoMemory>
    requires few { n + part_count e.now < 2 ^ 98 }
    requires columns { AreColumnPlaces design.now columns.now }
    requires there { k.0 < length design.now.pool.exprs }
    requires askable { IsAskable design.now.pool e.now }
    requires accepted { shape_stop (bad_operand (form design.now.pool) e.now) (greatest_width design.now.pool.signals (form design.now.pool) e.now) ≡ None }
    ensures { IfOk result (λ d. d ≡ drawn (signal_value design.now) (expr_value design.now) n (expr_value design.now k.0) e.now) }
{
    let y = expr_value(alloc, design, k)?;
    if y.width() == 0 {
        return Ok(Drawing::new(alloc));
    }
    shown(alloc, design, columns, n, e, &y)
}
