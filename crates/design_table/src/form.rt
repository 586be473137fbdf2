// Expressions that are put into a pool once they are tested.
ghost use Rattle.std.specs.Prelude.{◌≡◌, length, IsTrue, IfSome};
ghost use Rattle.design_ir.specs.Named.{AllBelow};
ghost use Rattle.shape_rules.specs.Rows.{operand_count};

use crate::pool::Sheet;
use amh_bits::Int;
use amh_host::Items;
use design_ir::{Expr, ExprId, Ids, Pattern, SigId};
use shape_rules::{Op, Shape};
use std::alloc::Global;
use table_text::Stop;

/// The operator of one operand that a word names.
pub fn unary_op(word: &str) -> Option<Op>
    ensures { IfSome result (λ op. operand_count op ≡ 1) }
{
    match word {
        "not" => Some(Op::Not),
        "neg" => Some(Op::Neg),
        "abs" => Some(Op::Abs),
        "any" => Some(Op::Any),
        "all" => Some(Op::All),
        "parity" => Some(Op::Parity),
        _ => None,
    }
}

/// The operator of two operands that a word names.
pub fn binary_op(word: &str) -> Option<Op>
    ensures { IfSome result (λ op. operand_count op ≡ 2) }
{
    match word {
        "add" => Some(Op::Add),
        "sub" => Some(Op::Sub),
        "mul" => Some(Op::Mul),
        "div" => Some(Op::Div),
        "mod" => Some(Op::Mod),
        "and" => Some(Op::And),
        "or" => Some(Op::Or),
        "xor" => Some(Op::Xor),
        "eq" => Some(Op::Eq),
        "ne" => Some(Op::Ne),
        "lt" => Some(Op::Lt),
        "le" => Some(Op::Le),
        "gt" => Some(Op::Gt),
        "ge" => Some(Op::Ge),
        "shl" => Some(Op::Shl),
        "shr" => Some(Op::Shr),
        _ => None,
    }
}

/// A signal.
pub fn signal(sheet: &mut Sheet, s: SigId) -> Result<ExprId, Stop> {
    if !sheet.has_signal(s) {
        return Err(Stop::NoCase);
    }
    sheet.expr(Expr::Sig(s))
}

/// A number of this shape.
#[tactic(auto, using(design_ir::proofs::Events::of_shape))]
pub fn constant(sheet: &mut Sheet, value: Int, shape: Shape) -> Result<ExprId, Stop> {
    if value.wrap(shape.width, shape.signed) != value {
        return Err(Stop::NoCase);
    }
    sheet.expr(Expr::Const { value, shape })
}

/// An operator of one operand.
pub fn unary(sheet: &mut Sheet, op: Op, a: ExprId) -> Result<ExprId, Stop>
    requires { operand_count op ≡ 1 }
{
    if !sheet.has(a) {
        return Err(Stop::NoCase);
    }
    sheet.expr(Expr::Unary { op, a })
}

/// An operator of two operands.
pub fn binary(sheet: &mut Sheet, op: Op, a: ExprId, b: ExprId) -> Result<ExprId, Stop>
    requires { operand_count op ≡ 2 }
{
    if !sheet.has(a) || !sheet.has(b) {
        return Err(Stop::NoCase);
    }
    sheet.expr(Expr::Binary { op, a, b })
}

/// A choice of two.
pub fn mux(sheet: &mut Sheet, s: ExprId, a: ExprId, b: ExprId) -> Result<ExprId, Stop> {
    if !sheet.has(s) || !sheet.has(a) || !sheet.has(b) {
        return Err(Stop::NoCase);
    }
    sheet.expr(Expr::Mux { s, a, b })
}

/// So many bits from bit `low` on.
pub fn slice(sheet: &mut Sheet, a: ExprId, low: u8, width: u8) -> Result<ExprId, Stop> {
    if !sheet.has(a) || low as u16 + width as u16 > sheet.shape(a).width as u16 {
        return Err(Stop::NoCase);
    }
    sheet.expr(Expr::Slice { a, low, width })
}

/// So many bits from bit `offset * stride` on.
pub fn part(
    sheet: &mut Sheet,
    a: ExprId,
    offset: ExprId,
    width: u8,
    stride: u8,
) -> Result<ExprId, Stop> {
    if !sheet.has(a) || !sheet.has(offset) {
        return Err(Stop::NoCase);
    }
    sheet.expr(Expr::Part {
        a,
        offset,
        width,
        stride,
    })
}

/// The bits read with or without a sign.
pub fn cast(sheet: &mut Sheet, a: ExprId, signed: bool) -> Result<ExprId, Stop> {
    if !sheet.has(a) || sheet.shape(a).width == 0 {
        return Err(Stop::NoCase);
    }
    sheet.expr(Expr::Cast { a, signed })
}

/// Whether the bits under the mask are these.
pub fn matches(
    alloc: Global,
    sheet: &mut Sheet,
    a: ExprId,
    mask: u128,
    bits: u128,
) -> Result<ExprId, Stop> {
    if !sheet.has(a) || bits & mask != bits {
        return Err(Stop::NoCase);
    }
    let mut patterns = Items::new(alloc);
    patterns.push(Pattern { mask, bits })?;
    sheet.expr(Expr::Matches { a, patterns })
}

// Whether all of these are there.
fn has_all(sheet: &Sheet, items: &[ExprId]) -> bool
    ensures { IsTrue result → AllBelow (length sheet.now.pool.exprs) items.now }
{
    match items {
        [] => true,
        [e, rest @ ..] => sheet.has(*e) && has_all(sheet, rest),
    }
}

/// Expressions one above the other.
pub fn joined(sheet: &mut Sheet, items: Ids) -> Result<ExprId, Stop> {
    if !has_all(sheet, items.as_slice()) {
        return Err(Stop::NoCase);
    }
    sheet.expr(Expr::Cat(items))
}

/// The item with this index.
pub fn picked(sheet: &mut Sheet, index: ExprId, items: Ids) -> Result<ExprId, Stop> {
    if items.len() == 0 || !sheet.has(index) || !has_all(sheet, items.as_slice()) {
        return Err(Stop::NoCase);
    }
    sheet.expr(Expr::Pick { index, items })
}
