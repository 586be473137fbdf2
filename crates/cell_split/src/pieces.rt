// The cells of the bits of a cell.
ghost use Rattle.std.specs.Prelude.{◌≡◌, ◌<◌, ◌^◌, ◌+◌, ◌++◌, ◌∷◌, [], length, map, slice_get, codes, IfOk, OnOk, OnErr};
ghost use Rattle.std.specs.List.{range_with_len};
ghost use Rattle.rtlil_text.specs.Sources.{part_bits, end_width};
ghost use Rattle.cell_split.specs.Pieces.{is_bitwise, is_shared, is_sign, bit_parts, bit_spec, piece_spec, piece_end, piece_value, piece_parameter, numbered_id, piece, pieces};
ghost use Rattle.cell_split.specs.Short.{PartIsShort, SpecIsShort, EndsAreShort};

use crate::copies::{copied_spec, copied_text, copied_value};
use amh_host::{Items, NoMemory, Text};
use rtlil_text::{
    RtlCell, RtlCells, RtlEnd, RtlEnds, RtlParameter, RtlParameters, RtlValue, SigPart, SigSpec,
};
use shape_rules::CellKind;
use std::alloc::Global;

/// Whether each bit of the output of such a cell needs one bit of each operand.
pub(crate) fn is_bitwise(kind: CellKind) -> bool
    ensures { result ≡ is_bitwise kind }
{
    match kind {
        CellKind::Not | CellKind::And | CellKind::Or | CellKind::Xor | CellKind::Mux => true,
        _ => false,
    }
}

// `$` and a number.
fn numbered_id(alloc: Global, number: u128) -> Result<Text, NoMemory>
    ensures { IfOk result (λ id. id ≡ numbered_id number) }
{
    let digits = format!(in alloc; "{number}")?;
    let mut id = Text::new(alloc);
    id.push("$")?;
    id.push(digits.as_str())?;
    Ok(id)
}

// ---- parameters

// A sign stays, and a width is 1.
fn piece_value(alloc: Global, name: &Text, value: &RtlValue) -> Result<RtlValue, NoMemory>
    ensures { IfOk result (λ v. v ≡ piece_value name.now value.now) }
{
    if name.is("\\A_SIGNED") || name.is("\\B_SIGNED") {
        return copied_value(alloc, value);
    }
    Ok(RtlValue::Number(1))
}

fn piece_parameters(alloc: Global, parameters: &RtlParameters) -> Result<RtlParameters, NoMemory>
    ensures { IfOk result (λ ps. ps ≡ map piece_parameter parameters.now) }
{
    let mut pieces = Items::new(alloc);
    for parameter in parameters.as_slice() {
        pieces.push(RtlParameter {
            name: copied_text(alloc, parameter.name.as_str())?,
            value: piece_value(alloc, &parameter.name, &parameter.value)?,
        })?;
    }
    Ok(pieces)
}

// ---- ends

fn part_width(part: &SigPart) -> usize
    ensures { result ≡ length (part_bits part.now) }
{
    match part {
        SigPart::Const(bits) => bits.len(),
        SigPart::Wire { width, .. } => *width as usize,
    }
}

// One bit of a part, as a part.
fn bit_part(alloc: Global, part: &SigPart, place: usize) -> Result<SigPart, NoMemory>
    requires short { PartIsShort part.now }
    requires within { place < length (part_bits part.now) }
    ensures { IfOk result (λ p. bit_parts (slice_get (part_bits part.now) place) ≡ p ∷ []) }
{
    match part {
        SigPart::Const(bits) => {
            let mut bit = Items::new(alloc);
            bit.push(*bits.get(place))?;
            Ok(SigPart::Const(bit))
        }
        SigPart::Wire { id, low, .. } => Ok(SigPart::Wire {
            id: copied_text(alloc, id.as_str())?,
            low: low + place as u32,
            width: 1,
        }),
    }
}

// One bit of a spec, whose last part is the lowest.
fn bit_spec(alloc: Global, spec: &SigSpec, place: usize) -> Result<SigSpec, NoMemory>
    requires { SpecIsShort spec.now }
    ensures { IfOk result (λ s. s ≡ bit_spec spec.now place) }
{
    let mut bit = Items::new(alloc);
    let mut left = place;
    let mut above = spec.len();
    while above > 0 {
        above -= 1;
        let part = spec.get(above);
        let width = part_width(part);
        if left < width {
            bit.push(bit_part(alloc, part, left)?)?;
            return Ok(bit);
        }
        left -= width;
    }
    Ok(bit)
}

// S goes whole to each piece.
fn piece_spec(alloc: Global, name: &Text, spec: &SigSpec, place: usize) -> Result<SigSpec, NoMemory>
    requires { SpecIsShort spec.now }
    ensures { IfOk result (λ s. s ≡ piece_spec name.now spec.now place) }
{
    if name.is("\\S") {
        return copied_spec(alloc, spec);
    }
    bit_spec(alloc, spec, place)
}

fn piece_end(alloc: Global, end: &RtlEnd, place: usize) -> Result<RtlEnd, NoMemory>
    requires { SpecIsShort end.now.spec }
    ensures { IfOk result (λ e. e ≡ piece_end place end.now) }
{
    Ok(RtlEnd {
        name: copied_text(alloc, end.name.as_str())?,
        spec: piece_spec(alloc, &end.name, &end.spec, place)?,
    })
}

fn piece_ends(alloc: Global, ends: &RtlEnds, place: usize) -> Result<RtlEnds, NoMemory>
    requires { EndsAreShort ends.now }
    ensures { IfOk result (λ es. es ≡ map (piece_end place) ends.now) }
{
    let mut pieces = Items::new(alloc);
    for end in ends.as_slice() {
        pieces.push(piece_end(alloc, end, place)?)?;
    }
    Ok(pieces)
}

// ---- cells

fn piece(alloc: Global, number: u128, cell: &RtlCell, place: usize) -> Result<RtlCell, NoMemory>
    requires { EndsAreShort cell.now.ends }
    ensures { IfOk result (λ c. c ≡ piece number cell.now place) }
{
    Ok(RtlCell {
        kind: cell.kind,
        id: numbered_id(alloc, number)?,
        parameters: piece_parameters(alloc, &cell.parameters)?,
        ends: piece_ends(alloc, &cell.ends, place)?,
    })
}

/// Adds a cell for each bit, the lowest first. The cell that comes to place k of the list has the number `first` + k.
pub(crate) fn push_pieces(
    alloc: Global,
    first: u128,
    cell: &RtlCell,
    width: u32,
    cells: &mut RtlCells,
) -> Result<(), NoMemory>
    requires short { EndsAreShort cell.now.ends }
    requires width { width ≡ end_width cell.now (codes "\\Y") }
    requires first { first < 2 ^ 127 }
    ensures { OnOk result (cells.new ≡ cells.old ++ pieces (first + length cells.old) cell.now) }
{
    for place in 0..width {
        let number = first + cells.len() as u128;
        cells.push(piece(alloc, number, cell, place as usize)?)?;
    }
    Ok(())
}
