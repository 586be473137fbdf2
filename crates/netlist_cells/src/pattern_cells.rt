// The cells of patterns.
ghost use Rattle.std.specs.Prelude.{◌≡◌, ◌<◌, ◌≤◌, ◌+◌, ◌*◌, ◌^◌, max, pos, length, nat_lt, IfOk, OnOk};
ghost use Rattle.shape_rules.specs.Forms.{unsigned};
ghost use Rattle.shape_rules.specs.declared.cell.CellKind.TheVariants as kind;
ghost use Rattle.netlist_laws.specs.Ids.{part_id};
ghost use Rattle.netlist_laws.specs.Cells.{binary_cell};
ghost use Rattle.netlist_laws.specs.Operands.{wire_part, at_width, at_form, const_operand};
ghost use Rattle.netlist_laws.specs.Operators.{whole, one_bit};
ghost use Rattle.netlist_laws.specs.Expressions.{and_also, matched, no_match, matched_within, matched_any};
ghost use Rattle.netlist_laws.specs.ItemSteps.{either_drawing};

use crate::cells::{Operand, const_operand};
use crate::drawing::{Drawing, Value, linked, part_bits, part_operand};
use crate::ids::{copied, part_id};
use crate::operators::{binary, test, zero};
use crate::parts::{Form, at_width, const_spec};
use amh_bits::Int;
use amh_host::NoMemory;
use design_ir::Pattern;
use rtlil_text::RtlCell;
use shape_rules::{CellKind, Shape};
use std::alloc::Global;

// A shape without a sign.
fn plain(width: u8) -> Shape
    requires { width ≤ 128 }
    ensures { result ≡ unsigned width }
{
    Shape {
        width,
        signed: false,
    }
}

// The bits of a under a mask.
fn masked(alloc: Global, n: u128, shape: Shape, a: &Value, mask: u128) -> Result<RtlCell, NoMemory>
    requires { n < 2 ^ 99 }
    ensures { IfOk result (λ c. c ≡ binary_cell kind.And (part_id n) (record { spec = at_width a.now.id (unsigned a.now.form.width) shape.width; form = shape }) (const_operand shape (pos mask)) shape.width (wire_part (part_id (n + 1)) 0 shape.width)) }
{
    let form = Form::of(shape);
    let bare = Form {
        width: a.width(),
        signed: false,
    };
    let whole = Operand {
        spec: at_width(alloc, a.id.as_str(), bare, form.width)?,
        form,
    };
    let ones = const_operand(alloc, shape, Int::of_u128(mask))?;
    let output = part_bits(alloc, n + 1, form.width)?;
    binary(alloc, CellKind::And, n, (whole, ones), form.width, output)
}

// Whether those bits are the pattern's.
fn same_bits(alloc: Global, n: u128, shape: Shape, bits: u128) -> Result<RtlCell, NoMemory>
    requires { n < 2 ^ 98 }
    ensures { IfOk result (λ c. c ≡ binary_cell kind.Eq (part_id (n + 2)) (at_form (part_id (n + 1)) shape shape) (const_operand shape (pos bits)) 1 (one_bit (part_id (n + 3)))) }
{
    let form = Form::of(shape);
    let found = part_operand(alloc, n + 1, form, form)?;
    let wanted = const_operand(alloc, shape, Int::of_u128(bits))?;
    test(alloc, CellKind::Eq, n + 2, (found, wanted))
}

// Whether a has the pattern's bits under its mask, worked at a shape.
fn matched(alloc: Global, n: u128, shape: Shape, a: &Value, p: Pattern) -> Result<Drawing, NoMemory>
    requires { n < 2 ^ 98 }
    ensures { IfOk result (λ d. d ≡ matched n shape a.now p) }
{
    let mut drawing = Drawing::new(alloc);
    drawing.push_wire(alloc, n + 1, shape.width as u32)?;
    drawing.push_wire(alloc, n + 3, 1)?;
    drawing.push_cell(masked(alloc, n, shape, a, p.mask)?)?;
    drawing.push_cell(same_bits(alloc, n, shape, p.bits)?)?;
    Ok(drawing)
}

fn no_match(alloc: Global, n: u128) -> Result<Drawing, NoMemory>
    requires { n < 2 ^ 98 }
    ensures { IfOk result (λ d. d ≡ no_match n) }
{
    let mut drawing = Drawing::new(alloc);
    drawing.push_wire(alloc, n + 3, 1)?;
    let bit = part_bits(alloc, n + 3, 1)?;
    let none = const_spec(alloc, 1, zero())?;
    drawing.push_link(bit, none)?;
    Ok(drawing)
}

// Whether these bits are within a width.
fn is_within(bits: u128, width: u8) -> bool
    requires { width ≤ 128 }
    ensures { result ≡ nat_lt bits (2 ^ width) }
{
    width == 128 || bits < 1 << width
}

fn matched_within(
    alloc: Global,
    n: u128,
    shape: Shape,
    a: &Value,
    p: Pattern,
) -> Result<Drawing, NoMemory>
    requires { n < 2 ^ 98 }
    ensures { IfOk result (λ d. d ≡ matched_within n shape a.now p) }
{
    if is_within(p.bits, shape.width) {
        matched(alloc, n, shape, a, p)
    } else {
        no_match(alloc, n)
    }
}

// Whether this pattern matches or one of the others.
fn either(alloc: Global, n: u128, into: &Value) -> Result<Drawing, NoMemory>
    requires { n < 2 ^ 98 }
    ensures { IfOk result (λ d. d ≡ either_drawing n into.now) }
{
    let one = Form {
        width: 1,
        signed: false,
    };
    let operands = (
        part_operand(alloc, n + 3, one, one)?,
        part_operand(alloc, n + 5, one, one)?,
    );
    let output = into.whole(alloc)?;
    let cell = binary(alloc, CellKind::Or, n + 4, operands, 1, output)?;
    let mut drawing = Drawing::new(alloc);
    drawing.push_wire(alloc, n + 5, 1)?;
    drawing.push_cell(cell)?;
    Ok(drawing)
}

// Adds the cells of one pattern. The drawing and the wire are lent, so that no end of this has to give them back.
fn push_match(
    alloc: Global,
    n: u128,
    a: &Value,
    p: Pattern,
    into: &mut Value,
    drawing: &mut Drawing,
) -> Result<(), NoMemory>
    requires { n < 2 ^ 98 }
    ensures drawn { OnOk result (drawing.new ≡ and_also (and_also drawing.old (matched_within n (unsigned (max 1 a.now.form.width)) a.now p)) (either_drawing n into.old)) }
    ensures next { OnOk result (into.new ≡ record { id = part_id (n + 5); form = unsigned 1 }) }
{
    let shape = plain(1.max(a.shape.width));
    drawing.also(matched_within(alloc, n, shape, a, p)?)?;
    drawing.also(either(alloc, n, into)?)?;
    *into = Value {
        id: part_id(alloc, n + 5)?,
        shape: plain(1),
    };
    Ok(())
}

// Adds the cells of all patterns. The wire that says whether one further on matches is given up here.
fn push_matches(
    alloc: Global,
    n: u128,
    a: &Value,
    patterns: &[Pattern],
    into: Value,
    drawing: &mut Drawing,
) -> Result<(), NoMemory>
    requires { n + 6 * length patterns.now < 2 ^ 98 }
    ensures { OnOk result (drawing.new ≡ and_also drawing.old (matched_any n a.now patterns.now into)) }
{
    let mut into = into;
    let mut part = n;
    for p in patterns {
        push_match(alloc, part, a, *p, &mut into, drawing)?;
        part += 6;
    }
    let none = const_spec(alloc, 1, zero())?;
    drawing.also(linked(alloc, &into, none)?)
}

/// Whether a has one of these patterns.
pub fn matched_any(
    alloc: Global,
    n: u128,
    a: &Value,
    patterns: &[Pattern],
    y: &Value,
) -> Result<Drawing, NoMemory>
    requires { n + 6 * length patterns.now < 2 ^ 98 }
    ensures { IfOk result (λ d. d ≡ matched_any n a.now patterns.now y.now) }
{
    let into = Value {
        id: copied(alloc, y.id.as_str())?,
        shape: y.shape,
    };
    let mut drawing = Drawing::new(alloc);
    push_matches(alloc, n, a, patterns, into, &mut drawing)?;
    Ok(drawing)
}
