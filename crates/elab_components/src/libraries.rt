// The modules below `amaranth.lib`.
ghost use Rattle.std.specs.Prelude.{◌≡◌, is_some, codes};
ghost use Rattle.elab_components.specs.Libraries.{is_library, is_wiring, is_stream, is_memory, is_enum, is_data, thing_name_given, wiring_named, stream_named, memory_named, module_named, library_named, library_given};
ghost use Rattle.amh_things.specs.Things.{base_called, layout_named};
ghost use Rattle.elab_store.specs.Held.{held_of, Gives};

use elab_store::kept::{HdlName, Kept};
use elab_store::names::is_text;
use elab_store::store::Elaboration;
use lists::NoMemory;
use py_frames::request::{Answer, Cause};

/// The name of `amaranth.lib.wiring` that is spelled so.
pub fn wiring_named(name: &str) -> Option<HdlName>
    ensures { result ≡ wiring_named name.now }
{
    if is_text(name, "In") {
        Some(HdlName::In)
    } else if is_text(name, "Out") {
        Some(HdlName::Out)
    } else if is_text(name, "Component") {
        Some(HdlName::Component)
    } else if is_text(name, "Signature") {
        Some(HdlName::Signature)
    } else if is_text(name, "connect") {
        Some(HdlName::Connect)
    } else if is_text(name, "flipped") {
        Some(HdlName::Flipped)
    } else {
        None
    }
}

/// The name of `amaranth.lib.stream` that is spelled so.
pub fn stream_named(name: &str) -> Option<HdlName>
    ensures { result ≡ stream_named name.now }
{
    if is_text(name, "Signature") {
        Some(HdlName::StreamSignature)
    } else {
        None
    }
}

/// The name of `amaranth.lib.memory` that is spelled so.
pub fn memory_named(name: &str) -> Option<HdlName>
    ensures { result ≡ memory_named name.now }
{
    if is_text(name, "Memory") {
        Some(HdlName::Memory)
    } else {
        None
    }
}

fn module_named(name: &str) -> Option<HdlName>
    ensures { result ≡ module_named name.now }
{
    if is_text(name, "wiring") {
        Some(HdlName::Wiring)
    } else if is_text(name, "enum") {
        Some(HdlName::Enumerations)
    } else if is_text(name, "data") {
        Some(HdlName::Data)
    } else if is_text(name, "stream") {
        Some(HdlName::Stream)
    } else if is_text(name, "memory") {
        Some(HdlName::MemoryLibrary)
    } else {
        None
    }
}

fn is_library(path: &str) -> bool
    ensures { result ≡ is_library path.now }
{
    is_text(path, "amaranth.lib")
}

fn is_wiring(path: &str) -> bool
    ensures { result ≡ is_wiring path.now }
{
    is_text(path, "amaranth.lib.wiring")
}

fn is_stream(path: &str) -> bool
    ensures { result ≡ is_stream path.now }
{
    is_text(path, "amaranth.lib.stream")
}

fn is_memory(path: &str) -> bool
    ensures { result ≡ is_memory path.now }
{
    is_text(path, "amaranth.lib.memory")
}

pub fn is_enum(path: &str) -> bool
    ensures { result ≡ is_enum path.now }
{
    is_text(path, "amaranth.lib.enum")
}

pub fn is_data(path: &str) -> bool
    ensures { result ≡ is_data path.now }
{
    is_text(path, "amaranth.lib.data")
}

// Whether a name is one over which a class makes an enumeration.
fn is_base_name(name: &str) -> bool
    ensures { result ≡ is_some (base_called name.now) }
{
    is_text(name, "Enum") || is_text(name, "IntEnum")
}

// Whether a name is one of a layout.
fn is_layout_name(name: &str) -> bool
    ensures { result ≡ is_some (layout_named name.now) }
{
    is_text(name, "Struct")
        || is_text(name, "StructLayout")
        || is_text(name, "UnionLayout")
        || is_text(name, "ArrayLayout")
}

/// A name of a module below `amaranth`.
pub fn library_named(path: &str, name: &str) -> Option<HdlName>
    ensures { result ≡ library_named path.now name.now }
{
    if is_library(path) {
        module_named(name)
    } else if is_wiring(path) {
        wiring_named(name)
    } else if is_stream(path) {
        stream_named(name)
    } else if is_memory(path) {
        memory_named(name)
    } else {
        None
    }
}

/// A name of a library, where it is served.
pub fn give_library(
    elaboration: &mut Elaboration,
    name: Option<HdlName>,
) -> Result<Answer, NoMemory>
    ensures { Gives result elaboration.new (library_given name (held_of elaboration.old)) }
{
    match name {
        Some(name) => elaboration.give_kept(Kept::Name(name)),
        None => elaboration.refuse(Cause::Raised),
    }
}

/// A name of `amaranth.lib.enum`.
pub fn give_base(elaboration: &mut Elaboration, name: &str) -> Result<Answer, NoMemory>
    ensures { Gives result elaboration.new (thing_name_given (base_called name.now) (held_of elaboration.old)) }
{
    if !is_base_name(name) {
        return elaboration.refuse(Cause::Raised);
    }
    let v = elaboration.store.base(name)?;
    elaboration.give(v)
}

/// A name of `amaranth.lib.data`.
pub fn give_layout(elaboration: &mut Elaboration, name: &str) -> Result<Answer, NoMemory>
    ensures { Gives result elaboration.new (thing_name_given (layout_named name.now) (held_of elaboration.old)) }
{
    if !is_layout_name(name) {
        return elaboration.refuse(Cause::Raised);
    }
    let v = elaboration.store.layout_name(name)?;
    elaboration.give(v)
}
