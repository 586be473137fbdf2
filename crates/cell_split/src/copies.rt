// Copies of cells and of their parts.
ghost use Rattle.std.specs.Prelude.{◌≡◌, IfOk};

use amh_host::{Items, NoMemory, Text};
use rtlil_text::{
    RtlBits, RtlCell, RtlEnd, RtlEnds, RtlParameter, RtlParameters, RtlValue, SigPart, SigSpec,
};
use std::alloc::Global;

pub(crate) fn copied_text(alloc: Global, text: &str) -> Result<Text, NoMemory>
    ensures { IfOk result (λ copy. copy ≡ text.now) }
{
    let mut copy = Text::new(alloc);
    copy.push(text)?;
    Ok(copy)
}

fn copied_bits(alloc: Global, bits: &RtlBits) -> Result<RtlBits, NoMemory>
    ensures { IfOk result (λ copy. copy ≡ bits.now) }
{
    let mut copy = Items::new(alloc);
    for bit in bits.as_slice() {
        copy.push(*bit)?;
    }
    Ok(copy)
}

fn copied_part(alloc: Global, part: &SigPart) -> Result<SigPart, NoMemory>
    ensures { IfOk result (λ copy. copy ≡ part.now) }
{
    match part {
        SigPart::Const(bits) => Ok(SigPart::Const(copied_bits(alloc, bits)?)),
        SigPart::Wire { id, low, width } => Ok(SigPart::Wire {
            id: copied_text(alloc, id.as_str())?,
            low: *low,
            width: *width,
        }),
    }
}

pub(crate) fn copied_spec(alloc: Global, spec: &SigSpec) -> Result<SigSpec, NoMemory>
    ensures { IfOk result (λ copy. copy ≡ spec.now) }
{
    let mut copy = Items::new(alloc);
    for part in spec.as_slice() {
        copy.push(copied_part(alloc, part)?)?;
    }
    Ok(copy)
}

pub(crate) fn copied_value(alloc: Global, value: &RtlValue) -> Result<RtlValue, NoMemory>
    ensures { IfOk result (λ copy. copy ≡ value.now) }
{
    match value {
        RtlValue::Number(n) => Ok(RtlValue::Number(*n)),
        RtlValue::Bits(bits) => Ok(RtlValue::Bits(copied_bits(alloc, bits)?)),
        RtlValue::Id(id) => Ok(RtlValue::Id(copied_text(alloc, id.as_str())?)),
    }
}

fn copied_parameter(alloc: Global, parameter: &RtlParameter) -> Result<RtlParameter, NoMemory>
    ensures { IfOk result (λ copy. copy ≡ parameter.now) }
{
    Ok(RtlParameter {
        name: copied_text(alloc, parameter.name.as_str())?,
        value: copied_value(alloc, &parameter.value)?,
    })
}

fn copied_parameters(alloc: Global, parameters: &RtlParameters) -> Result<RtlParameters, NoMemory>
    ensures { IfOk result (λ copy. copy ≡ parameters.now) }
{
    let mut copy = Items::new(alloc);
    for parameter in parameters.as_slice() {
        copy.push(copied_parameter(alloc, parameter)?)?;
    }
    Ok(copy)
}

fn copied_end(alloc: Global, end: &RtlEnd) -> Result<RtlEnd, NoMemory>
    ensures { IfOk result (λ copy. copy ≡ end.now) }
{
    Ok(RtlEnd {
        name: copied_text(alloc, end.name.as_str())?,
        spec: copied_spec(alloc, &end.spec)?,
    })
}

fn copied_ends(alloc: Global, ends: &RtlEnds) -> Result<RtlEnds, NoMemory>
    ensures { IfOk result (λ copy. copy ≡ ends.now) }
{
    let mut copy = Items::new(alloc);
    for end in ends.as_slice() {
        copy.push(copied_end(alloc, end)?)?;
    }
    Ok(copy)
}

/// A copy of a cell.
pub(crate) fn copied_cell(alloc: Global, cell: &RtlCell) -> Result<RtlCell, NoMemory>
    ensures { IfOk result (λ copy. copy ≡ cell.now) }
{
    Ok(RtlCell {
        kind: cell.kind,
        id: copied_text(alloc, cell.id.as_str())?,
        parameters: copied_parameters(alloc, &cell.parameters)?,
        ends: copied_ends(alloc, &cell.ends)?,
    })
}
