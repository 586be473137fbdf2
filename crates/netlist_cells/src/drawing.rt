// Values, which are wires with shapes, and drawings: inner wires, cells and links.
ghost use Rattle.std.specs.Prelude.{◌≡◌, ◌<◌, ◌^◌, ◌++◌, ◌∷◌, [], IfOk, OnOk};
ghost use Rattle.netlist_laws.specs.Ids.{part_id};
ghost use Rattle.netlist_laws.specs.Operands.{wire_part, at_width, at_form};
ghost use Rattle.netlist_laws.specs.Operators.{nothing, inner_wire, whole, as_form, one_cell, linked};
ghost use Rattle.netlist_laws.specs.Expressions.{and_also};

use crate::cells::{Operand, at_form};
use crate::ids::part_id;
use crate::parts::{Form, at_width, wire_part};
use amh_host::{NoMemory, Text};
use rtlil_text::{RtlCell, RtlLink, RtlWire, SigSpec, WirePort};
use shape_rules::Shape;
use std::alloc::Global;
use std::marker::Model;

/// The wire of a signal or an expression, with its shape.
#[derive(Drop)]
pub struct Value {
    pub id: Text,
    pub shape: Shape,
}

impl Model for Value {
    ghost use Rattle.netlist_laws.specs.Operators as operators;

    ghost Value = { operators.Value };

    ghost view = { λ a. record { id = a.id; form = a.shape } };
}

impl Value {
    /// How many bits it has.
    pub fn width(&self) -> u32
        ensures { result ≡ self.now.form.width }
    {
        self.shape.width as u32
    }

    /// All bits of it.
    pub fn whole(&self, alloc: Global) -> Result<SigSpec, NoMemory>
        ensures { IfOk result (λ spec. spec ≡ whole self.now) }
    {
        wire_part(alloc, self.id.as_str(), 0, self.width())
    }

    /// Its bits at a width.
    pub fn at_width(&self, alloc: Global, width: u32) -> Result<SigSpec, NoMemory>
        ensures { IfOk result (λ spec. spec ≡ at_width self.now.id self.now.form width) }
    {
        at_width(alloc, self.id.as_str(), Form::of(self.shape), width)
    }

    /// As an operand of a shape.
    pub fn as_form(&self, alloc: Global, wanted: Form) -> Result<Operand, NoMemory>
        ensures { IfOk result (λ o. o ≡ as_form self.now wanted) }
    {
        at_form(alloc, self.id.as_str(), Form::of(self.shape), wanted)
    }
}

/// Bits of the inner wire with this number.
pub fn part_bits(alloc: Global, n: u128, width: u32) -> Result<SigSpec, NoMemory>
    requires { n < 2 ^ 100 }
    ensures { IfOk result (λ spec. spec ≡ wire_part (part_id n) 0 width) }
{
    let id = part_id(alloc, n)?;
    wire_part(alloc, id.as_str(), 0, width)
}

/// The inner wire with this number as an operand.
pub fn part_operand(alloc: Global, n: u128, form: Form, wanted: Form) -> Result<Operand, NoMemory>
    requires { n < 2 ^ 100 }
    ensures { IfOk result (λ o. o ≡ at_form (part_id n) form wanted) }
{
    let id = part_id(alloc, n)?;
    at_form(alloc, id.as_str(), form, wanted)
}

/// Inner wires, cells and links.
#[derive(Drop)]
pub struct Drawing {
    pub wires: Vec<RtlWire>,
    pub cells: Vec<RtlCell>,
    pub links: Vec<RtlLink>,
}

impl Model for Drawing {
    ghost use Rattle.netlist_laws.specs.Operators as operators;

    ghost Value = { operators.Drawing };

    ghost view = { λ a. record { wires = a.wires.items; cells = a.cells.items; links = a.links.items } };
}

/// A wire that only the module names.
pub fn inner_wire(id: Text, width: u32) -> RtlWire
    ensures { result ≡ inner_wire id width }
{
    RtlWire {
        id,
        width,
        port: WirePort::Inner,
        init: None,
    }
}

impl Drawing {
    /// Nothing, which takes no memory.
    pub fn new(alloc: Global) -> Drawing
        ensures { result ≡ nothing }
    {
        Drawing {
            wires: Vec::new(alloc),
            cells: Vec::new(alloc),
            links: Vec::new(alloc),
        }
    }

    /// These wires alone.
    pub fn of_wires(alloc: Global, wires: Vec<RtlWire>) -> Drawing
        ensures { result ≡ record { wires = wires.items; cells = []; links = [] } }
    {
        Drawing {
            wires,
            cells: Vec::new(alloc),
            links: Vec::new(alloc),
        }
    }

    /// Adds the inner wire with this number.
    pub fn push_wire(&mut self, alloc: Global, n: u128, width: u32) -> Result<(), NoMemory>
        requires { n < 2 ^ 100 }
        ensures { OnOk result (self.new ≡ record self.old { wires = self.old.wires ++ inner_wire (part_id n) width ∷ [] }) }
    {
        let id = part_id(alloc, n)?;
        self.wires.push(inner_wire(id, width))?;
        Ok(())
    }

    /// Adds a wire.
    pub fn push(&mut self, wire: RtlWire) -> Result<(), NoMemory>
        ensures { OnOk result (self.new ≡ record self.old { wires = self.old.wires ++ wire ∷ [] }) }
    {
        self.wires.push(wire)?;
        Ok(())
    }

    /// Adds a cell.
    pub fn push_cell(&mut self, cell: RtlCell) -> Result<(), NoMemory>
        ensures { OnOk result (self.new ≡ record self.old { cells = self.old.cells ++ cell ∷ [] }) }
    {
        self.cells.push(cell)?;
        Ok(())
    }

    /// Adds another drawing.
    pub fn also(&mut self, other: Drawing) -> Result<(), NoMemory>
        ensures { OnOk result (self.new ≡ and_also self.old other) }
    {
        let mut other = other;
        self.wires.append(&mut other.wires)?;
        self.cells.append(&mut other.cells)?;
        self.links.append(&mut other.links)?;
        Ok(())
    }

    /// Adds a link.
    pub fn push_link(&mut self, left: SigSpec, right: SigSpec) -> Result<(), NoMemory>
        ensures { OnOk result (self.new ≡ record self.old { links = self.old.links ++ record { left = left; right = right } ∷ [] }) }
    {
        self.links.push(RtlLink { left, right })?;
        Ok(())
    }
}

/// One cell alone.
pub fn one_cell(alloc: Global, cell: RtlCell) -> Result<Drawing, NoMemory>
    ensures { IfOk result (λ d. d ≡ one_cell cell) }
{
    let mut drawing = Drawing::new(alloc);
    drawing.push_cell(cell)?;
    Ok(drawing)
}

/// A link that gives a value these bits.
pub fn linked(alloc: Global, y: &Value, spec: SigSpec) -> Result<Drawing, NoMemory>
    ensures { IfOk result (λ d. d ≡ linked y.now spec) }
{
    let left = y.whole(alloc)?;
    let mut drawing = Drawing::new(alloc);
    drawing.push_link(left, spec)?;
    Ok(drawing)
}
