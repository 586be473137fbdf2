// Cells, with their parameters and ends.

use crate::sig::{RtlBits, SigSpec};
use amh_host::{Items, Text};
use shape_rules::CellKind;

/// The value of a parameter. `Id` is the id of a memory, which the text puts between quotes.
#[derive(Drop)]
pub enum RtlValue {
    Number(u32),
    Bits(RtlBits),
    Id(Text),
}

#[derive(Drop)]
pub struct RtlParameter {
    pub name: Text,
    pub value: RtlValue,
}

/// What is connected to one end of a cell.
#[derive(Drop)]
pub struct RtlEnd {
    pub name: Text,
    pub spec: SigSpec,
}

pub type RtlParameters = Items<RtlParameter>;

pub type RtlEnds = Items<RtlEnd>;

/// A cell of the Yosys cell library. No cell of a text has the kind `Many`.
#[derive(Drop)]
pub struct RtlCell {
    pub kind: CellKind,
    pub id: Text,
    pub parameters: RtlParameters,
    pub ends: RtlEnds,
}

pub type RtlCells = Items<RtlCell>;
