// The cells of items by an index.
ghost use Rattle.std.specs.Prelude.{◌≡◌, ◌<◌, ◌≤◌, ◌+◌, ◌*◌, ◌^◌, pos, length, take, drop, IfOk, OnOk};
ghost use Rattle.shape_rules.specs.declared.cell.CellKind.TheVariants as kind;
ghost use Rattle.netlist_laws.specs.Ids.{part_id};
ghost use Rattle.netlist_laws.specs.Cells.{binary_cell, mux_cell};
ghost use Rattle.netlist_laws.specs.Operands.{wire_part, at_width, const_operand};
ghost use Rattle.netlist_laws.specs.Operators.{whole, one_bit, as_form};
ghost use Rattle.netlist_laws.specs.Expressions.{and_also, picked_of};
ghost use Rattle.netlist_laws.specs.ItemSteps.{item_drawing};

use crate::cells::const_operand;
use crate::drawing::{Drawing, Value, linked, part_bits};
use crate::ids::{copied, part_id};
use crate::operators::{choice, test};
use crate::parts::Form;
use amh_bits::Int;
use amh_host::NoMemory;
use rtlil_text::RtlCell;
use shape_rules::CellKind;
use std::alloc::Global;

// Whether an index is this number.
fn index_test(alloc: Global, n: u128, index: &Value, i: usize) -> Result<RtlCell, NoMemory>
    requires { n < 2 ^ 99 }
    ensures { IfOk result (λ c. c ≡ binary_cell kind.Eq (part_id n) (as_form index.now index.now.form) (const_operand index.now.form (pos i)) 1 (one_bit (part_id (n + 1)))) }
{
    let whole = index.as_form(alloc, Form::of(index.shape))?;
    let number = const_operand(alloc, index.shape, Int::of_u128(i as u128))?;
    test(alloc, CellKind::Eq, n, (whole, number))
}

// An item where the index is its number, else what the others say.
fn item_choice(alloc: Global, n: u128, item: &Value, into: &Value) -> Result<RtlCell, NoMemory>
    requires { n < 2 ^ 99 }
    ensures { IfOk result (λ c. c ≡ mux_cell (part_id (n + 2)) into.now.form.width (wire_part (part_id (n + 3)) 0 into.now.form.width) (at_width item.now.id item.now.form into.now.form.width) (one_bit (part_id (n + 1))) (whole into.now)) }
{
    let others = part_bits(alloc, n + 3, into.width())?;
    let own = item.at_width(alloc, into.width())?;
    let output = into.whole(alloc)?;
    choice(alloc, (n + 2, n + 1), into.width(), (others, own), output)
}

// The cells of one item that is not the last.
fn item_drawing(
    alloc: Global,
    n: u128,
    index: &Value,
    i: usize,
    item: &Value,
    into: &Value,
) -> Result<Drawing, NoMemory>
    requires { n < 2 ^ 99 }
    ensures { IfOk result (λ d. d ≡ item_drawing n index.now i item.now into.now) }
{
    let mut drawing = Drawing::new(alloc);
    drawing.push_wire(alloc, n + 1, 1)?;
    drawing.push_wire(alloc, n + 3, into.width())?;
    drawing.push_cell(index_test(alloc, n, index, i)?)?;
    drawing.push_cell(item_choice(alloc, n, item, into)?)?;
    Ok(drawing)
}

// The wire behind one item.
fn others_wire(alloc: Global, n: u128, into: &Value) -> Result<Value, NoMemory>
    requires { n < 2 ^ 99 }
    ensures { IfOk result (λ v. v ≡ record { id = part_id (n + 3); form = into.now.form }) }
{
    Ok(Value {
        id: part_id(alloc, n + 3)?,
        shape: into.shape,
    })
}

/// The item with an index, and the last one behind the end.
pub fn picked_of(
    alloc: Global,
    n: u128,
    index: &Value,
    items: &[Value],
    y: &Value,
) -> Result<Drawing, NoMemory>
    requires { n + 4 * length items.now < 2 ^ 98 }
    ensures { IfOk result (λ d. d ≡ picked_of n index.now items.now y.now) }
{
    let mut drawing = Drawing::new(alloc);
    if items.len() == 0 {
        return Ok(drawing);
    }
    let last = items.len() - 1;
    let mut part = n;
    let mut into = Value {
        id: copied(alloc, y.id.as_str())?,
        shape: y.shape,
    };
    for i in 0..last {
        drawing.also(item_drawing(alloc, part, index, i, &items[i], &into)?)?;
        into = others_wire(alloc, part, &into)?;
        part += 4;
    }
    let whole = items[last].at_width(alloc, into.width())?;
    drawing.also(linked(alloc, &into, whole)?)?;
    Ok(drawing)
}
