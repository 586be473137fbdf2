// The text of constants, specs and names.
ghost use Rattle.std.specs.Prelude.{◌≡◌, ◌∷◌, [], ◌++◌, OnOk, string_bytes};
ghost use Rattle.rtlil_text.specs.Numerals.{numeral};
ghost use Rattle.rtlil_text.specs.Lines.{const_text, kind_text, value_text, port_text};
ghost use Rattle.rtlil_text.specs.Written.{part_text, spec_text, is_whole, braced_text};
ghost use Rattle.rtlil_text.specs.Widths.{width_in};

use crate::cell::RtlValue;
use crate::module::WirePort;
use crate::sig::{RtlBits, SigPart, SigSpec};
use crate::widths::Widths;
use shape_rules::CellKind;
use std::alloc::AllocError;
use std::fmt;
use std::fmt::Write;

impl fmt::Display for WirePort {
    ghost use Rattle.std.specs.Prelude.{Some};
    ghost use Rattle.rtlil_text.specs.Lines.{port_text};

    ghost output = { λ p. Some (port_text p) };

    #[tactic(auto, using(crate::proofs::Numerals::decimal_is_numeral))]
    fn fmt<W: fmt::Write>(&self, f: &mut fmt::Formatter<W>) -> fmt::Result {
        match self {
            WirePort::Inner => Ok(()),
            WirePort::Input(n) => {
                let number = *n;
                write!(f, " input {number}")
            }
            WirePort::Output(n) => {
                let number = *n;
                write!(f, " output {number}")
            }
        }
    }
}

/// The name of a kind in the Yosys cell library.
pub(crate) fn kind_name(kind: CellKind) -> &'static str
    ensures { result.now ≡ kind_text kind }
{
    match kind {
        CellKind::Not => "$not",
        CellKind::And => "$and",
        CellKind::Or => "$or",
        CellKind::Xor => "$xor",
        CellKind::ReduceOr => "$reduce_or",
        CellKind::ReduceAnd => "$reduce_and",
        CellKind::ReduceXor => "$reduce_xor",
        CellKind::Add => "$add",
        CellKind::Sub => "$sub",
        CellKind::Mul => "$mul",
        CellKind::Eq => "$eq",
        CellKind::Lt => "$lt",
        CellKind::Le => "$le",
        CellKind::Shl => "$shl",
        CellKind::Shr => "$shr",
        CellKind::Sshr => "$sshr",
        CellKind::DivFloor => "$divfloor",
        CellKind::ModFloor => "$modfloor",
        CellKind::Mux => "$mux",
        CellKind::Dff => "$dff",
        CellKind::Adff => "$adff",
        CellKind::MemoryRead => "$memrd_v2",
        CellKind::MemoryWrite => "$memwr_v2",
        CellKind::MemoryInit => "$meminit_v2",
        CellKind::Many => "",
    }
}

// The width of a constant, which a quote ends.
#[tactic(auto, using(crate::proofs::Numerals::decimal_is_numeral))]
fn constant_width(out: &mut String, width: usize) -> Result<(), AllocError>
    ensures { OnOk result (string_bytes out.new ≡ string_bytes out.old ++ (numeral width ++ 39 ∷ [])) }
{
    write!(out, "{width}'")?;
    Ok(())
}

/// The width, and the bits from the most significant one on.
pub(crate) fn constant(out: &mut String, bits: &RtlBits) -> Result<(), AllocError>
    ensures { OnOk result (string_bytes out.new ≡ string_bytes out.old ++ const_text bits.now) }
{
    constant_width(out, bits.len())?;
    for b in bits.as_slice().iter().rev() {
        out.push(if *b { '1' } else { '0' })?;
    }
    Ok(())
}

#[tactic(auto, using(crate::proofs::Numerals::decimal_is_numeral))]
pub(crate) fn value(out: &mut String, v: &RtlValue) -> Result<(), AllocError>
    ensures { OnOk result (string_bytes out.new ≡ string_bytes out.old ++ value_text v.now) }
{
    match v {
        RtlValue::Number(n) => {
            let number = *n;
            write!(out, "{number}")?;
            Ok(())
        }
        RtlValue::Bits(bits) => constant(out, bits),
        RtlValue::Id(id) => {
            write!(out, "\"\\{id}\"")?;
            Ok(())
        }
    }
}

// Whether these bits are all bits of a wire of that width.
fn covers(width_of_wire: Option<u32>, low: u32, width: u32) -> bool
    ensures { result ≡ is_whole width_of_wire low width }
{
    match width_of_wire {
        Some(all) => low == 0 && width == all,
        None => false,
    }
}

#[tactic(auto, using(crate::proofs::Numerals::decimal_is_numeral))]
fn part(out: &mut String, widths: &Widths, p: &SigPart) -> Result<(), AllocError>
    ensures { OnOk result (string_bytes out.new ≡ string_bytes out.old ++ part_text (width_in widths.now) p.now) }
{
    match p {
        SigPart::Const(bits) => constant(out, bits),
        SigPart::Wire { id, low, width } => {
            if covers(widths.get(id.as_str()), *low, *width) {
                write!(out, "{id}")?;
            } else if *width == 1 {
                write!(out, "{id} [{low}]")?;
            } else {
                let high = (*low as u64 + *width as u64).saturating_sub(1);
                write!(out, "{id} [{high}:{low}]")?;
            }
            Ok(())
        }
    }
}

fn braced(out: &mut String, widths: &Widths, s: &SigSpec) -> Result<(), AllocError>
    ensures { OnOk result (string_bytes out.new ≡ string_bytes out.old ++ braced_text (width_in widths.now) s.now) }
{
    out.push_str("{")?;
    for p in s.as_slice() {
        out.push_str(" ")?;
        part(out, widths, p)?;
    }
    out.push_str(" }")?;
    Ok(())
}

/// A spec, which stands between braces unless it has one part.
pub(crate) fn spec(out: &mut String, widths: &Widths, s: &SigSpec) -> Result<(), AllocError>
    ensures { OnOk result (string_bytes out.new ≡ string_bytes out.old ++ spec_text (width_in widths.now) s.now) }
{
    if s.len() == 1 {
        part(out, widths, s.get(0))
    } else {
        braced(out, widths, s)
    }
}
