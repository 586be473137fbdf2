// Sides.
ghost use Rattle.std.specs.Prelude.{◌≡◌, IfOk};
ghost use Rattle.module_dsl.specs.Sided.{same_side};

use amh_host::{NoMemory, Text};
use design_ir::Side;
use std::alloc::Global;

/// Whether two sides are the same.
pub fn is_same(a: &Side, b: &Side) -> bool
    ensures { result ≡ same_side a.now b.now }
{
    match (a, b) {
        (Side::Comb, Side::Comb) => true,
        (Side::Clocked(m), Side::Clocked(n)) => m.is(n.as_str()),
        _ => false,
    }
}

/// The same side again.
pub fn copied(alloc: Global, side: &Side) -> Result<Side, NoMemory>
    ensures { IfOk result (λ s. s ≡ side.now) }
{
    match side {
        Side::Comb => Ok(Side::Comb),
        Side::Clocked(name) => {
            let mut copy = Text::new(alloc);
            copy.push(name.as_str())?;
            Ok(Side::Clocked(copy))
        }
    }
}
