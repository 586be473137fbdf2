// The cells of each operator.
ghost use Rattle.std.specs.Prelude.{◌≡◌, ◌<◌, ◌+◌, ◌^◌, true, false, pos, IfOk, if◌then◌else◌};
ghost use Rattle.shape_rules.specs.Forms.{unsigned};
ghost use Rattle.shape_rules.specs.Stops.{IsTaken};
ghost use Rattle.shape_rules.specs.declared.cell.CellKind.TheVariants as kind;
ghost use Rattle.netlist_laws.specs.Ids.{part_id};
ghost use Rattle.netlist_laws.specs.Cells.{unary_cell, binary_cell, mux_cell};
ghost use Rattle.netlist_laws.specs.Operands.{wire_part, const_spec, at_width, at_form, const_operand};
ghost use Rattle.netlist_laws.specs.Operators.{whole, one_bit, as_form, one_cell, linked, at_least_one, alike, opposite, compared, reduced, shifted, unequal, divided, magnitude, operated, operator_drawing};

use crate::cells::{Operand, binary_cell, const_operand, mux_cell, unary_cell};
use crate::drawing::{Drawing, Value, linked, one_cell, part_bits, part_operand};
use crate::ids::part_id;
use crate::parts::{Form, at_width, const_spec};
use amh_bits::Int;
use amh_host::NoMemory;
use rtlil_text::{RtlCell, SigSpec};
use shape_rules::{CellKind, Op, Shape, operators, work_of};
use std::alloc::Global;

// ---- cells by their number

/// A cell of two operands with this number.
pub fn binary(
    alloc: Global,
    kind: CellKind,
    n: u128,
    operands: (Operand, Operand),
    width: u32,
    y: SigSpec,
) -> Result<RtlCell, NoMemory>
    requires { n < 2 ^ 100 }
    ensures { IfOk result (λ c. c ≡ binary_cell kind (part_id n) operands.0 operands.1 width y) }
{
    let id = part_id(alloc, n)?;
    binary_cell(alloc, kind, id, operands.0, operands.1, width, y)
}

// A test of two operands, whose bit goes to an inner wire.
pub fn test(
    alloc: Global,
    kind: CellKind,
    n: u128,
    operands: (Operand, Operand),
) -> Result<RtlCell, NoMemory>
    requires { n < 2 ^ 99 }
    ensures { IfOk result (λ c. c ≡ binary_cell kind (part_id n) operands.0 operands.1 1 (one_bit (part_id (n + 1)))) }
{
    let y = part_bits(alloc, n + 1, 1)?;
    binary(alloc, kind, n, operands, 1, y)
}

pub fn zero() -> Int
    ensures { result ≡ pos 0 }
{
    Int::of_u128(0)
}

// ---- one cell

// Both operands at one shape.
fn both(alloc: Global, a: &Value, b: &Value, form: Form) -> Result<(Operand, Operand), NoMemory>
    ensures { IfOk result (λ o. (o.0 ≡ as_form a.now form) × (o.1 ≡ as_form b.now form)) }
{
    Ok((a.as_form(alloc, form)?, b.as_form(alloc, form)?))
}

fn alike(
    alloc: Global,
    kind: CellKind,
    n: u128,
    shape: Shape,
    a: &Value,
    b: &Value,
    y: &Value,
) -> Result<Drawing, NoMemory>
    requires { n < 2 ^ 99 }
    ensures { IfOk result (λ d. d ≡ alike kind n shape a.now b.now y.now) }
{
    let operands = both(alloc, a, b, Form::of(shape))?;
    let output = y.whole(alloc)?;
    let cell = binary(alloc, kind, n, operands, y.width(), output)?;
    one_cell(alloc, cell)
}

fn opposite(alloc: Global, n: u128, shape: Shape, a: &Value, y: &Value) -> Result<Drawing, NoMemory>
    requires { n < 2 ^ 99 }
    ensures { IfOk result (λ d. d ≡ opposite n shape a.now y.now) }
{
    let none = const_operand(alloc, shape, zero())?;
    let whole = a.as_form(alloc, Form::of(shape))?;
    let output = y.whole(alloc)?;
    let cell = binary(alloc, CellKind::Sub, n, (none, whole), y.width(), output)?;
    one_cell(alloc, cell)
}

// A shape with at least one bit, since a cell's operands have one.
fn at_least_one(shape: Shape) -> Form
    ensures { result ≡ at_least_one shape }
{
    Form {
        width: 1.max(shape.width as u32),
        signed: shape.signed,
    }
}

fn compared(
    alloc: Global,
    kind: CellKind,
    n: u128,
    shape: Shape,
    a: &Value,
    b: &Value,
    y: &Value,
) -> Result<Drawing, NoMemory>
    requires { n < 2 ^ 99 }
    ensures { IfOk result (λ d. d ≡ compared kind n shape a.now b.now y.now) }
{
    let operands = both(alloc, a, b, at_least_one(shape))?;
    let output = y.whole(alloc)?;
    let cell = binary(alloc, kind, n, operands, 1, output)?;
    one_cell(alloc, cell)
}

// One bit from all of a, which is this number where a has no bits.
fn reduced(
    alloc: Global,
    kind: CellKind,
    empty: Int,
    n: u128,
    a: &Value,
    y: &Value,
) -> Result<Drawing, NoMemory>
    requires { n < 2 ^ 99 }
    ensures { IfOk result (λ d. d ≡ reduced kind empty n a.now y.now) }
{
    if a.width() == 0 {
        let spec = const_spec(alloc, 1, empty)?;
        return linked(alloc, y, spec);
    }
    let whole = a.as_form(alloc, Form::of(a.shape))?;
    let output = y.whole(alloc)?;
    let cell = unary_cell(alloc, kind, part_id(alloc, n)?, whole, 1, output)?;
    one_cell(alloc, cell)
}

// Each bit turned.
fn turned(alloc: Global, n: u128, shape: Shape, a: &Value, y: &Value) -> Result<Drawing, NoMemory>
    requires { n < 2 ^ 99 }
    ensures { IfOk result (λ d. d ≡ one_cell (unary_cell kind.Not (part_id n) (as_form a.now shape) y.now.form.width (whole y.now))) }
{
    let whole = a.as_form(alloc, Form::of(shape))?;
    let output = y.whole(alloc)?;
    let id = part_id(alloc, n)?;
    let cell = unary_cell(alloc, CellKind::Not, id, whole, y.width(), output)?;
    one_cell(alloc, cell)
}

// a at the width of y, shifted by b, which is no shift where b has no bits.
fn shifted(
    alloc: Global,
    kind: CellKind,
    signed: bool,
    n: u128,
    a: &Value,
    b: &Value,
    y: &Value,
) -> Result<Drawing, NoMemory>
    requires { n < 2 ^ 99 }
    ensures { IfOk result (λ d. d ≡ shifted kind signed n a.now b.now y.now) }
{
    if b.width() == 0 {
        let spec = a.at_width(alloc, y.width())?;
        return linked(alloc, y, spec);
    }
    let form = Form {
        width: y.width(),
        signed,
    };
    let operands = (
        a.as_form(alloc, form)?,
        b.as_form(alloc, Form::of(b.shape))?,
    );
    let output = y.whole(alloc)?;
    let cell = binary(alloc, kind, n, operands, y.width(), output)?;
    one_cell(alloc, cell)
}

// ---- several cells

// Unequal: the turned bit of equal.
fn unequal(
    alloc: Global,
    n: u128,
    shape: Shape,
    a: &Value,
    b: &Value,
    y: &Value,
) -> Result<Drawing, NoMemory>
    requires { n < 2 ^ 99 }
    ensures { IfOk result (λ d. d ≡ unequal n shape a.now b.now y.now) }
{
    let equal = test(
        alloc,
        CellKind::Eq,
        n,
        both(alloc, a, b, at_least_one(shape))?,
    )?;
    let mut drawing = Drawing::new(alloc);
    drawing.push_wire(alloc, n + 1, 1)?;
    drawing.push_cell(equal)?;
    drawing.push_cell(turned_bit(alloc, n, y)?)?;
    Ok(drawing)
}

// The turned bit of part n + 1.
fn turned_bit(alloc: Global, n: u128, y: &Value) -> Result<RtlCell, NoMemory>
    requires { n < 2 ^ 99 }
    ensures { IfOk result (λ c. c ≡ unary_cell kind.Not (part_id (n + 2)) (at_form (part_id (n + 1)) (unsigned 1) (unsigned 1)) 1 (whole y.now)) }
{
    let one = Form {
        width: 1,
        signed: false,
    };
    let bit = part_operand(alloc, n + 1, one, one)?;
    let id = part_id(alloc, n + 2)?;
    let output = y.whole(alloc)?;
    unary_cell(alloc, CellKind::Not, id, bit, 1, output)
}

// A choice between two specs by the bit of an inner wire.
pub fn choice(
    alloc: Global,
    ids: (u128, u128),
    width: u32,
    specs: (SigSpec, SigSpec),
    y: SigSpec,
) -> Result<RtlCell, NoMemory>
    requires cell { ids.0 < 2 ^ 100 }
    requires bit { ids.1 < 2 ^ 100 }
    ensures { IfOk result (λ c. c ≡ mux_cell (part_id ids.0) width specs.0 specs.1 (one_bit (part_id ids.1)) y) }
{
    let bit = part_bits(alloc, ids.1, 1)?;
    let id = part_id(alloc, ids.0)?;
    mux_cell(alloc, id, width, specs.0, specs.1, bit, y)
}

// Whether an operand is 0.
fn is_zero(alloc: Global, n: u128, shape: Shape, b: &Value) -> Result<RtlCell, NoMemory>
    requires { n < 2 ^ 99 }
    ensures { IfOk result (λ c. c ≡ binary_cell kind.Eq (part_id n) (as_form b.now shape) (const_operand shape (pos 0)) 1 (one_bit (part_id (n + 1)))) }
{
    let whole = b.as_form(alloc, Form::of(shape))?;
    let none = const_operand(alloc, shape, zero())?;
    test(alloc, CellKind::Eq, n, (whole, none))
}

// A divisor, or 1 where it is 0.
fn divisor(alloc: Global, n: u128, shape: Shape, b: &Value) -> Result<RtlCell, NoMemory>
    requires { n < 2 ^ 99 }
    ensures { IfOk result (λ c. c ≡ mux_cell (part_id (n + 2)) shape.width (at_width b.now.id b.now.form shape.width) (const_spec shape.width (pos 1)) (one_bit (part_id (n + 1))) (wire_part (part_id (n + 3)) 0 shape.width)) }
{
    let width = shape.width as u32;
    let own = b.at_width(alloc, width)?;
    let one = const_spec(alloc, shape.width, Int::of_u128(1))?;
    let output = part_bits(alloc, n + 3, width)?;
    choice(alloc, (n + 2, n + 1), width, (own, one), output)
}

// The quotient or the remainder by that divisor.
fn quotient(
    alloc: Global,
    kind: CellKind,
    n: u128,
    shape: Shape,
    a: &Value,
) -> Result<RtlCell, NoMemory>
    requires { n < 2 ^ 99 }
    ensures { IfOk result (λ c. c ≡ binary_cell kind (part_id (n + 4)) (as_form a.now shape) (at_form (part_id (n + 3)) shape shape) shape.width (wire_part (part_id (n + 5)) 0 shape.width)) }
{
    let form = Form::of(shape);
    let operands = (
        a.as_form(alloc, form)?,
        part_operand(alloc, n + 3, form, form)?,
    );
    let output = part_bits(alloc, n + 5, form.width)?;
    binary(alloc, kind, n + 4, operands, form.width, output)
}

// The result of a division, which is 0 where the divisor was.
fn divided_result(alloc: Global, n: u128, shape: Shape, y: &Value) -> Result<RtlCell, NoMemory>
    requires { n < 2 ^ 99 }
    ensures { IfOk result (λ c. c ≡ mux_cell (part_id (n + 6)) y.now.form.width (at_width (part_id (n + 5)) shape y.now.form.width) (const_spec y.now.form.width (pos 0)) (one_bit (part_id (n + 1))) (whole y.now)) }
{
    let form = Form::of(shape);
    let found = part_at(alloc, n + 5, form, y.width())?;
    let none = const_spec(alloc, y.shape.width, zero())?;
    let output = y.whole(alloc)?;
    choice(alloc, (n + 6, n + 1), y.width(), (found, none), output)
}

// The number of an inner wire at a width.
fn part_at(alloc: Global, n: u128, form: Form, width: u32) -> Result<SigSpec, NoMemory>
    requires { n < 2 ^ 100 }
    ensures { IfOk result (λ spec. spec ≡ at_width (part_id n) form width) }
{
    let id = part_id(alloc, n)?;
    at_width(alloc, id.as_str(), form, width)
}

// A quotient or a remainder: where b is 0 it is worked with 1, and the result is 0.
fn divided(
    alloc: Global,
    kind: CellKind,
    n: u128,
    shape: Shape,
    a: &Value,
    b: &Value,
    y: &Value,
) -> Result<Drawing, NoMemory>
    requires { n < 2 ^ 99 }
    ensures { IfOk result (λ d. d ≡ divided kind n shape a.now b.now y.now) }
{
    let width = shape.width as u32;
    let mut drawing = Drawing::new(alloc);
    drawing.push_wire(alloc, n + 1, 1)?;
    drawing.push_wire(alloc, n + 3, width)?;
    drawing.push_wire(alloc, n + 5, width)?;
    drawing.push_cell(is_zero(alloc, n, shape, b)?)?;
    drawing.push_cell(divisor(alloc, n, shape, b)?)?;
    drawing.push_cell(quotient(alloc, kind, n, shape, a)?)?;
    drawing.push_cell(divided_result(alloc, n, shape, y)?)?;
    Ok(drawing)
}

// Whether a number is below 0.
fn is_negative(alloc: Global, n: u128, shape: Shape, a: &Value) -> Result<RtlCell, NoMemory>
    requires { n < 2 ^ 99 }
    ensures { IfOk result (λ c. c ≡ binary_cell kind.Lt (part_id n) (as_form a.now shape) (const_operand shape (pos 0)) 1 (one_bit (part_id (n + 1)))) }
{
    let whole = a.as_form(alloc, Form::of(shape))?;
    let none = const_operand(alloc, shape, zero())?;
    test(alloc, CellKind::Lt, n, (whole, none))
}

// The opposite of a number, on part n + 3.
fn opposite_part(alloc: Global, n: u128, shape: Shape, a: &Value) -> Result<RtlCell, NoMemory>
    requires { n < 2 ^ 99 }
    ensures { IfOk result (λ c. c ≡ binary_cell kind.Sub (part_id (n + 2)) (const_operand shape (pos 0)) (as_form a.now shape) shape.width (wire_part (part_id (n + 3)) 0 shape.width)) }
{
    let form = Form::of(shape);
    let operands = (
        const_operand(alloc, shape, zero())?,
        a.as_form(alloc, form)?,
    );
    let output = part_bits(alloc, n + 3, form.width)?;
    binary(alloc, CellKind::Sub, n + 2, operands, form.width, output)
}

// A number, or its opposite where it is below 0.
fn size_choice(
    alloc: Global,
    n: u128,
    shape: Shape,
    a: &Value,
    y: &Value,
) -> Result<RtlCell, NoMemory>
    requires { n < 2 ^ 99 }
    ensures { IfOk result (λ c. c ≡ mux_cell (part_id (n + 4)) y.now.form.width (whole a.now) (at_width (part_id (n + 3)) shape y.now.form.width) (one_bit (part_id (n + 1))) (whole y.now)) }
{
    let own = a.whole(alloc)?;
    let turned = part_at(alloc, n + 3, Form::of(shape), y.width())?;
    let output = y.whole(alloc)?;
    choice(alloc, (n + 4, n + 1), y.width(), (own, turned), output)
}

// The size of a signed number.
fn magnitude(
    alloc: Global,
    n: u128,
    shape: Shape,
    a: &Value,
    y: &Value,
) -> Result<Drawing, NoMemory>
    requires { n < 2 ^ 99 }
    ensures { IfOk result (λ d. d ≡ magnitude n shape a.now y.now) }
{
    let mut drawing = Drawing::new(alloc);
    drawing.push_wire(alloc, n + 1, 1)?;
    drawing.push_wire(alloc, n + 3, shape.width as u32)?;
    drawing.push_cell(is_negative(alloc, n, shape, a)?)?;
    drawing.push_cell(opposite_part(alloc, n, shape, a)?)?;
    drawing.push_cell(size_choice(alloc, n, shape, a, y)?)?;
    Ok(drawing)
}

// ---- the table

// The size of a number, which is the number itself where it has no sign.
fn absolute(alloc: Global, n: u128, shape: Shape, a: &Value, y: &Value) -> Result<Drawing, NoMemory>
    requires { n < 2 ^ 99 }
    ensures { IfOk result (λ d. d ≡ (if a.now.form.signed then magnitude n shape a.now y.now else linked y.now (whole a.now))) }
{
    if a.shape.signed {
        return magnitude(alloc, n, shape, a, y);
    }
    let whole = a.whole(alloc)?;
    linked(alloc, y, whole)
}

// A number without a sign shifted down, or one with its sign.
fn shifted_down(
    alloc: Global,
    n: u128,
    a: &Value,
    b: &Value,
    y: &Value,
) -> Result<Drawing, NoMemory>
    requires { n < 2 ^ 99 }
    ensures { IfOk result (λ d. d ≡ (if a.now.form.signed then shifted kind.Sshr true n a.now b.now y.now else shifted kind.Shr false n a.now b.now y.now)) }
{
    if a.shape.signed {
        shifted(alloc, CellKind::Sshr, true, n, a, b, y)
    } else {
        shifted(alloc, CellKind::Shr, false, n, a, b, y)
    }
}

macro_rules! lowering_arms {
    (($of:ident $with:tt) $(($op:ident $operands:tt $cell:ident $result:ident $work:ident $integer:ident))*) => {
        match $of {
            $(Op::$op => lowering_arm!($operands $cell $work $integer $with),)*
        }
    };
}

// The cells of a row: of several cells or operands in turned order by its rule, else by its cell and the shape at
// which it is worked.
macro_rules! lowering_arm {
    (1 Many least magnitude ($alloc:ident $n:ident $shape:ident $a:ident $b:ident $y:ident)) => {
        absolute($alloc, $n, $shape, $a, $y)
    };
    (2 Many least quotient ($alloc:ident $n:ident $shape:ident $a:ident $b:ident $y:ident)) => {
        divided($alloc, CellKind::DivFloor, $n, $shape, $a, $b, $y)
    };
    (2 Many least remainder ($alloc:ident $n:ident $shape:ident $a:ident $b:ident $y:ident)) => {
        divided($alloc, CellKind::ModFloor, $n, $shape, $a, $b, $y)
    };
    (2 Many common unequal ($alloc:ident $n:ident $shape:ident $a:ident $b:ident $y:ident)) => {
        unequal($alloc, $n, $shape, $a, $b, $y)
    };
    (2 Many least shifted_down ($alloc:ident $n:ident $shape:ident $a:ident $b:ident $y:ident)) => {
        shifted_down($alloc, $n, $a, $b, $y)
    };
    (2 $cell:ident common greater ($alloc:ident $n:ident $shape:ident $a:ident $b:ident $y:ident)) => {
        compared($alloc, CellKind::$cell, $n, $shape, $b, $a, $y)
    };
    (2 $cell:ident common at_least ($alloc:ident $n:ident $shape:ident $a:ident $b:ident $y:ident)) => {
        compared($alloc, CellKind::$cell, $n, $shape, $b, $a, $y)
    };
    (2 $cell:ident common $integer:ident ($alloc:ident $n:ident $shape:ident $a:ident $b:ident $y:ident)) => {
        compared($alloc, CellKind::$cell, $n, $shape, $a, $b, $y)
    };
    (2 Shl least $integer:ident ($alloc:ident $n:ident $shape:ident $a:ident $b:ident $y:ident)) => {
        shifted($alloc, CellKind::Shl, $a.shape.signed, $n, $a, $b, $y)
    };
    (2 $cell:ident $work:ident $integer:ident ($alloc:ident $n:ident $shape:ident $a:ident $b:ident $y:ident)) => {
        alike($alloc, CellKind::$cell, $n, $shape, $a, $b, $y)
    };
    (1 Sub least $integer:ident ($alloc:ident $n:ident $shape:ident $a:ident $b:ident $y:ident)) => {
        opposite($alloc, $n, $shape, $a, $y)
    };
    (1 Not least $integer:ident ($alloc:ident $n:ident $shape:ident $a:ident $b:ident $y:ident)) => {
        turned($alloc, $n, $shape, $a, $y)
    };
    (1 ReduceAnd least $integer:ident ($alloc:ident $n:ident $shape:ident $a:ident $b:ident $y:ident)) => {
        reduced($alloc, CellKind::ReduceAnd, Int::of_u128(1), $n, $a, $y)
    };
    (1 $cell:ident least $integer:ident ($alloc:ident $n:ident $shape:ident $a:ident $b:ident $y:ident)) => {
        reduced($alloc, CellKind::$cell, zero(), $n, $a, $y)
    };
}

// The wires, cells and links that give y the operator of a and b.
fn operated(
    alloc: Global,
    op: Op,
    n: u128,
    shape: Shape,
    a: &Value,
    b: &Value,
    y: &Value,
) -> Result<Drawing, NoMemory>
    requires { n < 2 ^ 99 }
    ensures { IfOk result (λ d. d ≡ operated op n shape a.now b.now y.now) }
{
    operators!(lowering_arms(op (alloc n shape a b y)))
}

/// The drawing of an operator at its own work shape; a value without bits takes nothing.
#[tactic(auto, unfolding(netlist_laws::specs::Operators::operator_drawing))]
pub fn operator_drawing(
    alloc: Global,
    op: Op,
    n: u128,
    a: &Value,
    b: &Value,
    y: &Value,
) -> Result<Drawing, NoMemory>
    requires few { n < 2 ^ 99 }
    requires taken { IsTaken op a.now.form b.now.form }
    ensures { IfOk result (λ d. d ≡ operator_drawing op n a.now b.now y.now) }
{
    if y.width() == 0 {
        return Ok(Drawing::new(alloc));
    }
    let shape = work_of(op, a.shape, b.shape).unwrap();
    operated(alloc, op, n, shape, a, b, y)
}
