// The drawings of all expressions.
ghost use Rattle.std.specs.Prelude.{◌≡◌, ◌<◌, ◌^◌, OnOk};
ghost use Rattle.netlist_laws.specs.Expressions.{and_also, part_total};
ghost use Rattle.netlist_laws.specs.Module.{drawings};
ghost use Rattle.netlist_cells.specs.Places.{AreColumnPlaces};
ghost use Rattle.netlist.specs.Tables.{together};

use amh_host::NoMemory;
use design_ir::{Design, ExprId, Exprs};
use netlist_cells::drawing::Drawing;
use netlist_cells::expressions::{drawn, part_count};
use std::alloc::Global;

/// Adds the drawings of all expressions. They have so few parts that ids differ.
pub(crate) fn push_expressions(
    alloc: Global,
    design: &Design,
    columns: &[Option<u32>],
    drawing: &mut Drawing,
) -> Result<(), NoMemory>
    requires { AreColumnPlaces design.now columns.now }
    ensures drawn { OnOk result (drawing.new ≡ and_also drawing.old (together (drawings design.now))) }
    ensures few { OnOk result (part_total design.now.pool.exprs < 10 ^ 63) }
{
    let mut n = 0;
    for i in 0..design.count() {
        let k = ExprId(i);
        let e = design.at(k);
        let count = part_count(e);
        drawing.also(drawn(alloc, design, columns, n, k, e)?)?;
        n += count;
    }
    Ok(())
}
