// The enable of a write port at its cell.
ghost use Rattle.std.specs.Prelude.{◌≡◌, ◌++◌, replicate, IfOk, OnOk};
ghost use Rattle.rtlil_text.specs.declared.sig.SigPart.TheVariants as parts;
ghost use Rattle.memory_cells.specs.Cells.{spread_spec};

use crate::cells::copied;
use amh_host::NoMemory;
use rtlil_text::{SigPart, SigSpec};
use std::alloc::Global;

// Adds one bit of a wire so many times.
fn push_granule(
    alloc: Global,
    id: &str,
    low: u32,
    granule: u32,
    spec: &mut SigSpec,
) -> Result<(), NoMemory>
    ensures { OnOk result (spec.new ≡ spec.old ++ replicate granule (parts.Wire id.now low 1)) }
{
    for i in 0..granule {
        let id = copied(alloc, id)?;
        spec.push(SigPart::Wire { id, low, width: 1 })?;
    }
    Ok(())
}

/// Each of `count` bits of a wire as often as its granule has bits, the highest first.
pub fn spread(alloc: Global, id: &str, granule: u32, count: u32) -> Result<SigSpec, NoMemory>
    ensures { IfOk result (λ spec. spec ≡ spread_spec id.now granule count) }
{
    let mut spec = SigSpec::new(alloc);
    for i in 0..count {
        push_granule(alloc, id, count - 1 - i, granule, &mut spec)?;
    }
    Ok(spec)
}
