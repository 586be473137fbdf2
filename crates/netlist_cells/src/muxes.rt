// The cells of choices, and of parts at an offset.
ghost use Rattle.std.specs.Prelude.{◌≡◌, ◌<◌, ◌+◌, ◌^◌, ◌∷◌, [], IfOk, if◌then◌else◌};
ghost use Rattle.shape_rules.specs.declared.cell.CellKind.TheVariants as kind;
ghost use Rattle.netlist_laws.specs.Ids.{part_id};
ghost use Rattle.netlist_laws.specs.Cells.{binary_cell, mux_cell};
ghost use Rattle.netlist_laws.specs.Operands.{wire_part, at_width};
ghost use Rattle.netlist_laws.specs.Operators.{inner_wire, whole, as_form};
ghost use Rattle.netlist_laws.specs.Expressions.{truth_spec, truth_drawing, chosen, stride_form, stride_operand, amount_operand, amount_drawing, part_form, selected};

use crate::cells::{Operand, mux_cell, unary_cell};
use crate::drawing::{Drawing, Value, linked, one_cell, part_bits, part_operand};
use crate::ids::part_id;
use crate::operators::{binary, zero};
use crate::parts::{Form, const_part, const_spec, number_bits, push_const_part, zeros};
use amh_bits::Int;
use amh_host::NoMemory;
use rtlil_text::{RtlCell, SigSpec};
use shape_rules::{CellKind, Shape};
use std::alloc::Global;

// ---- whether a value is not 0

// The bit itself where there is one alone, else part n + 1.
fn truth_spec(alloc: Global, n: u128, s: &Value) -> Result<SigSpec, NoMemory>
    requires { n < 2 ^ 99 }
    ensures { IfOk result (λ spec. spec ≡ truth_spec n s.now) }
{
    match s.width() {
        0 => const_spec(alloc, 1, zero()),
        1 => s.whole(alloc),
        _ => part_bits(alloc, n + 1, 1),
    }
}

fn truth_drawing(alloc: Global, n: u128, s: &Value) -> Result<Drawing, NoMemory>
    requires { n < 2 ^ 99 }
    ensures { IfOk result (λ d. d ≡ truth_drawing n s.now) }
{
    let mut drawing = Drawing::new(alloc);
    if s.width() < 2 {
        return Ok(drawing);
    }
    drawing.push_wire(alloc, n + 1, 1)?;
    let whole = s.as_form(alloc, Form::of(s.shape))?;
    let output = part_bits(alloc, n + 1, 1)?;
    let id = part_id(alloc, n)?;
    drawing.push_cell(unary_cell(alloc, CellKind::ReduceOr, id, whole, 1, output)?)?;
    Ok(drawing)
}

// ---- choices

fn choice_cell(
    alloc: Global,
    n: u128,
    s: &Value,
    a: &Value,
    b: &Value,
    y: &Value,
) -> Result<RtlCell, NoMemory>
    requires { n < 2 ^ 99 }
    ensures { IfOk result (λ c. c ≡ mux_cell (part_id (n + 2)) y.now.form.width (at_width b.now.id b.now.form y.now.form.width) (at_width a.now.id a.now.form y.now.form.width) (truth_spec n s.now) (whole y.now)) }
{
    let low = b.at_width(alloc, y.width())?;
    let high = a.at_width(alloc, y.width())?;
    let bit = truth_spec(alloc, n, s)?;
    let output = y.whole(alloc)?;
    let id = part_id(alloc, n + 2)?;
    mux_cell(alloc, id, y.width(), low, high, bit, output)
}

/// a where s is not 0, else b.
pub fn chosen(
    alloc: Global,
    n: u128,
    s: &Value,
    a: &Value,
    b: &Value,
    y: &Value,
) -> Result<Drawing, NoMemory>
    requires { n < 2 ^ 99 }
    ensures { IfOk result (λ d. d ≡ chosen n s.now a.now b.now y.now) }
{
    let mut drawing = truth_drawing(alloc, n, s)?;
    let cell = choice_cell(alloc, n, s, a, b, y)?;
    drawing.also(one_cell(alloc, cell)?)?;
    Ok(drawing)
}

// ---- parts at an offset

// The shape of an offset times a stride.
fn stride_form(shape: Shape) -> Form
    ensures { result ≡ stride_form shape }
{
    Form {
        width: 1.max(shape.width as u32) + 8,
        signed: false,
    }
}

// A stride of that shape.
fn stride_operand(alloc: Global, shape: Shape, stride: u8) -> Result<Operand, NoMemory>
    ensures { IfOk result (λ o. o ≡ stride_operand shape stride) }
{
    let low = 1.max(shape.width as u32);
    let mut spec = const_part(alloc, zeros(alloc, low)?)?;
    let byte = Int::of_u128(stride as u128).to_bits(8);
    let bits = number_bits(alloc, 8, byte.bits)?;
    push_const_part(bits, &mut spec)?;
    Ok(Operand {
        spec,
        form: stride_form(shape),
    })
}

// The amount of the shift: the offset, or part n + 1 where it is in strides.
fn amount_operand(alloc: Global, n: u128, offset: &Value, stride: u8) -> Result<Operand, NoMemory>
    requires { n < 2 ^ 99 }
    ensures { IfOk result (λ o. o ≡ amount_operand n offset.now stride) }
{
    if stride == 1 {
        return offset.as_form(alloc, Form::of(offset.shape));
    }
    let form = stride_form(offset.shape);
    part_operand(alloc, n + 1, form, form)
}

fn amount_cell(alloc: Global, n: u128, offset: &Value, stride: u8) -> Result<RtlCell, NoMemory>
    requires { n < 2 ^ 99 }
    ensures { IfOk result (λ c. c ≡ binary_cell kind.Mul (part_id n) (as_form offset.now (stride_form offset.now.form)) (stride_operand offset.now.form stride) (stride_form offset.now.form).width (wire_part (part_id (n + 1)) 0 (stride_form offset.now.form).width)) }
{
    let form = stride_form(offset.shape);
    let whole = offset.as_form(alloc, form)?;
    let factor = stride_operand(alloc, offset.shape, stride)?;
    let output = part_bits(alloc, n + 1, form.width)?;
    binary(alloc, CellKind::Mul, n, (whole, factor), form.width, output)
}

fn amount_drawing(alloc: Global, n: u128, offset: &Value, stride: u8) -> Result<Drawing, NoMemory>
    requires { n < 2 ^ 99 }
    ensures { IfOk result (λ d. d ≡ amount_drawing n offset.now stride) }
{
    let mut drawing = Drawing::new(alloc);
    if stride == 1 {
        return Ok(drawing);
    }
    drawing.push_wire(alloc, n + 1, stride_form(offset.shape).width)?;
    drawing.push_cell(amount_cell(alloc, n, offset, stride)?)?;
    Ok(drawing)
}

// The wider of a shape's width and the part's.
fn part_form(a: &Value, width: u32) -> Form
    ensures { result ≡ part_form a.now.form width }
{
    Form {
        width: a.width().max(width),
        signed: a.shape.signed,
    }
}

fn shift_kind(signed: bool) -> CellKind
    ensures { result ≡ (if signed then kind.Sshr else kind.Shr) }
{
    if signed {
        CellKind::Sshr
    } else {
        CellKind::Shr
    }
}

fn shift_cell(
    alloc: Global,
    n: u128,
    a: &Value,
    amount: Operand,
    width: u32,
) -> Result<RtlCell, NoMemory>
    requires { n < 2 ^ 99 }
    ensures { IfOk result (λ c. c ≡ binary_cell (if a.now.form.signed then kind.Sshr else kind.Shr) (part_id (n + 2)) (as_form a.now (part_form a.now.form width)) amount (part_form a.now.form width).width (wire_part (part_id (n + 3)) 0 (part_form a.now.form width).width)) }
{
    let form = part_form(a, width);
    let whole = a.as_form(alloc, form)?;
    let output = part_bits(alloc, n + 3, form.width)?;
    let kind = shift_kind(a.shape.signed);
    binary(alloc, kind, n + 2, (whole, amount), form.width, output)
}

// The shift, and a link from its low bits.
fn shift_drawing(
    alloc: Global,
    n: u128,
    a: &Value,
    amount: Operand,
    y: &Value,
) -> Result<Drawing, NoMemory>
    requires { n < 2 ^ 99 }
    ensures { IfOk result (λ d. d ≡ record {
      wires = inner_wire (part_id (n + 3)) (part_form a.now.form y.now.form.width).width ∷ [];
      cells =
          binary_cell (if a.now.form.signed then kind.Sshr else kind.Shr) (part_id (n + 2)) (as_form a.now (part_form a.now.form y.now.form.width)) amount (part_form a.now.form y.now.form.width).width
          (wire_part (part_id (n + 3)) 0 (part_form a.now.form y.now.form.width).width) ∷ [];
      links = record { left = whole y.now; right = wire_part (part_id (n + 3)) 0 y.now.form.width } ∷ [];
    }) }
{
    let mut drawing = Drawing::new(alloc);
    drawing.push_wire(alloc, n + 3, part_form(a, y.width()).width)?;
    drawing.push_cell(shift_cell(alloc, n, a, amount, y.width())?)?;
    let low = part_bits(alloc, n + 3, y.width())?;
    let output = y.whole(alloc)?;
    drawing.push_link(output, low)?;
    Ok(drawing)
}

/// The bits of a from an offset on: those behind its end are zeros, or its sign.
pub fn selected(
    alloc: Global,
    n: u128,
    a: &Value,
    offset: &Value,
    stride: u8,
    y: &Value,
) -> Result<Drawing, NoMemory>
    requires { n < 2 ^ 99 }
    ensures { IfOk result (λ d. d ≡ selected n a.now offset.now stride y.now) }
{
    if offset.width() == 0 {
        let low = a.at_width(alloc, y.width())?;
        return linked(alloc, y, low);
    }
    let mut drawing = amount_drawing(alloc, n, offset, stride)?;
    let amount = amount_operand(alloc, n, offset, stride)?;
    drawing.also(shift_drawing(alloc, n, a, amount, y)?)?;
    Ok(drawing)
}
