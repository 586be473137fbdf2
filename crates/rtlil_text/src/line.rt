// The lines of a text.
ghost use Rattle.std.specs.Prelude.{◌≡◌, ◌++◌, IfOk, string_bytes};
ghost use Rattle.rtlil_text.specs.Lines.{memory_text, init_line, wire_line, parameter_text, cell_line};
ghost use Rattle.rtlil_text.specs.Written.{end_text, link_text};
ghost use Rattle.rtlil_text.specs.Widths.{width_in};

use crate::cell::{RtlCell, RtlEnd, RtlParameter};
use crate::module::{RtlLink, RtlMemory, RtlWire};
use crate::sig::RtlBits;
use crate::spell::{constant, kind_name, spec, value};
use crate::widths::Widths;
use std::alloc::{AllocError, Global};
use std::fmt::Write;

#[tactic(auto, using(crate::proofs::Numerals::decimal_is_numeral))]
pub(crate) fn memory_line(alloc: Global, m: &RtlMemory) -> Result<String, AllocError>
    ensures { IfOk result (λ s. string_bytes s ≡ memory_text m.now) }
{
    let (width, size) = (m.width, m.size);
    format!(in alloc; "  memory width {width} size {size} {}\n", m.id)
}

pub(crate) fn init_line(alloc: Global, bits: &RtlBits) -> Result<String, AllocError>
    ensures { IfOk result (λ s. string_bytes s ≡ init_line bits.now) }
{
    let mut line = String::from_str(alloc, "  attribute \\init ")?;
    constant(&mut line, bits)?;
    line.push_str("\n")?;
    Ok(line)
}

#[tactic(auto, using(crate::proofs::Numerals::decimal_is_numeral))]
pub(crate) fn wire_line(alloc: Global, w: &RtlWire) -> Result<String, AllocError>
    ensures { IfOk result (λ s. string_bytes s ≡ wire_line w.now) }
{
    let width = w.width;
    format!(in alloc; "  wire width {width}{} {}\n", w.port, w.id)
}

pub(crate) fn cell_line(alloc: Global, c: &RtlCell) -> Result<String, AllocError>
    ensures { IfOk result (λ s. string_bytes s ≡ cell_line c.now.kind c.now.id) }
{
    let kind = kind_name(c.kind);
    format!(in alloc; "  cell {kind} {}\n", c.id)
}

pub(crate) fn parameter_line(alloc: Global, p: &RtlParameter) -> Result<String, AllocError>
    ensures { IfOk result (λ s. string_bytes s ≡ parameter_text p.now) }
{
    let mut line = format!(in alloc; "    parameter {} ", p.name)?;
    value(&mut line, &p.value)?;
    line.push_str("\n")?;
    Ok(line)
}

pub(crate) fn end_line(alloc: Global, widths: &Widths, e: &RtlEnd) -> Result<String, AllocError>
    ensures { IfOk result (λ s. string_bytes s ≡ end_text (width_in widths.now) e.now) }
{
    let mut line = format!(in alloc; "    connect {} ", e.name)?;
    spec(&mut line, widths, &e.spec)?;
    line.push_str("\n")?;
    Ok(line)
}

pub(crate) fn link_line(alloc: Global, widths: &Widths, l: &RtlLink) -> Result<String, AllocError>
    ensures { IfOk result (λ s. string_bytes s ≡ link_text (width_in widths.now) l.now) }
{
    let mut line = String::from_str(alloc, "  connect ")?;
    spec(&mut line, widths, &l.left)?;
    line.push_str(" ")?;
    spec(&mut line, widths, &l.right)?;
    line.push_str("\n")?;
    Ok(line)
}
