// A module, with its wires, memories and links.

use crate::cell::RtlCells;
use crate::sig::{RtlBits, SigSpec};
use amh_host::{Items, Text};

/// Whether a wire is a port of the module, and its number, counted from 1.
#[derive(Drop)]
pub enum WirePort {
    Inner,
    Input(u32),
    Output(u32),
}

/// A wire; `init` is the first value of its bits, where registers drive them.
#[derive(Drop)]
pub struct RtlWire {
    pub id: Text,
    pub width: u32,
    pub port: WirePort,
    pub init: Option<RtlBits>,
}

/// A memory of `size` rows of `width` bits.
#[derive(Drop)]
pub struct RtlMemory {
    pub id: Text,
    pub width: u32,
    pub size: u32,
}

/// The right side drives the left one.
#[derive(Drop)]
pub struct RtlLink {
    pub left: SigSpec,
    pub right: SigSpec,
}

pub type RtlWires = Items<RtlWire>;

pub type RtlMemories = Items<RtlMemory>;

pub type RtlLinks = Items<RtlLink>;

/// The content of a text.
#[derive(Drop)]
pub struct RtlModule {
    pub wires: RtlWires,
    pub memories: RtlMemories,
    pub cells: RtlCells,
    pub links: RtlLinks,
}
