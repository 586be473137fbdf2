// The attributes of memories and of their ports.
ghost use Rattle.std.specs.Prelude.{◌≡◌};
ghost use Rattle.amh_things.specs.Things.{read_as};
ghost use Rattle.elab_store.specs.Stores.{thing_given};
ghost use Rattle.elab_store.specs.Held.{held_of, Gives};
ghost use Rattle.elab_memories.specs.Attributes.{memory_attribute, enable_given, port_attribute};

use amh_things::thing::Reading;
use design_ir::ExprId;
use elab_store::kept::{Kept, MemoryMethod, MemoryPort};
use elab_store::names::is_text;
use elab_store::store::Elaboration;
use lists::NoMemory;
use py_frames::request::{Answer, Cause};
use py_values::{Number, Val};

/// An attribute of a memory, by its number.
pub fn memory_attribute(
    elaboration: &mut Elaboration,
    number: u32,
    name: &str,
) -> Result<Answer, NoMemory>
    ensures { Gives result elaboration.new (memory_attribute number name.now (held_of elaboration.old)) }
{
    let method = if is_text(name, "write_port") {
        MemoryMethod::WritePort
    } else if is_text(name, "read_port") {
        MemoryMethod::ReadPort
    } else {
        return elaboration.refuse(Cause::Raised);
    };
    elaboration.give_kept(Kept::OfMemory { of: number, method })
}

// The value of an expression by what its bits are read as.
fn give_value(
    elaboration: &mut Elaboration,
    reading: Reading,
    e: ExprId,
) -> Result<Answer, NoMemory>
    ensures { Gives result elaboration.new (thing_given (read_as reading e) (held_of elaboration.old)) }
{
    let v = elaboration.store.hold(reading, e)?;
    elaboration.give(v)
}

fn give_enable(elaboration: &mut Elaboration, enable: Option<ExprId>) -> Result<Answer, NoMemory>
    ensures { Gives result elaboration.new (enable_given enable (held_of elaboration.old)) }
{
    match enable {
        Some(e) => give_value(elaboration, Reading::Plain, e),
        None => elaboration.give(Val::Int(Number::of_u128(1))),
    }
}

/// An attribute of a port.
pub fn port_attribute(
    elaboration: &mut Elaboration,
    port: MemoryPort,
    name: &str,
) -> Result<Answer, NoMemory>
    ensures { Gives result elaboration.new (port_attribute port name.now (held_of elaboration.old)) }
{
    if is_text(name, "addr") {
        give_value(elaboration, Reading::Plain, port.addr)
    } else if is_text(name, "data") {
        give_value(elaboration, port.reading, port.word)
    } else if is_text(name, "en") {
        give_enable(elaboration, port.enable)
    } else {
        elaboration.refuse(Cause::Raised)
    }
}
