// The cells that lie on loops between cells.
ghost use Rattle.std.specs.Prelude.{◌≡◌, ◌≤◌, length, take, IfOk};
ghost use Rattle.cell_split.specs.Needs.{MarksTangled};

use crate::needs::needs;
use amh_host::NoMemory;
use digraph::left;
use rtlil_text::RtlModule;
use std::alloc::Global;

/// Marks each cell that lies on a loop between cells, or on a way from one loop to another.
pub(crate) fn tangled(alloc: Global, rtl: &RtlModule) -> Result<Vec<bool>, NoMemory>
    ensures { IfOk result (λ v. MarksTangled rtl.now v.items) }
{
    let graph = needs(alloc, rtl)?;
    let mut marks = left(alloc, &graph)?;
    marks.truncate(rtl.cells.len());
    Ok(marks)
}
