// The bits that each expression may write as a target.
ghost use Rattle.std.specs.Prelude.{◌≡◌, ℕ, ◌+◌, ◌<◌, ◌≤◌, ◌++◌, [], length, map, IfOk, OnOk};
ghost use Rattle.std.specs.List.{flat_map, filter_map, cons_option, range_with_len};
ghost use Rattle.design_ir.specs.Named.{AllBelow};
ghost use Rattle.design_ir.specs.PoolRules.{IsPool};
ghost use Rattle.design_ir.specs.Targets.{aim_at, aims, aims_of_all, loose, raised, shifted, within};
ghost use Rattle.design_ir.specs.Values.{form, total_width};
ghost use Rattle.comb_graph.specs.Seen.{AllStandBelow, HasAims, HasRows, row_at, seen};
ghost use Rattle.comb_graph.specs.Sets.{numbers_in};

use crate::aimed::{Aimed, At, Selection, cut, lift, loosen, select};
use crate::spans::{chosen_items, span_of};
use amh_host::{Items, NoMemory};
use design_ir::{Design, Expr, ExprId, Exprs, SigId};
use std::alloc::Global;

/// The aims of one expression.
pub type AimRow = Items<Aimed>;

/// The aims of each expression as a target.
pub type AimTable = Items<AimRow>;

// The aims of a signal.
fn signal_aims(alloc: Global, s: SigId, width: u8) -> Result<AimRow, NoMemory>
    requires { width ≤ 128 }
    ensures { IfOk result (λ row. map seen row ≡ map (aim_at s.0) (range_with_len 0 width)) }
{
    let mut row = Items::new(alloc);
    for i in 0..width {
        row.push(Aimed {
            node: 128 * s.0 as usize + i as usize,
            at: At::Fixed(i),
        })?;
    }
    Ok(row)
}

// Adds an aim, if there is one.
fn push_some(row: &mut AimRow, a: Option<Aimed>) -> Result<(), NoMemory>
    ensures { OnOk result (row.new ≡ row.old ++ cons_option a []) }
{
    match a {
        None => Ok(()),
        Some(aim) => row.push(aim),
    }
}

// The aims that a slice leaves.
fn slice_aims(alloc: Global, aims: &[Aimed], low: u8, width: u8) -> Result<AimRow, NoMemory>
    ensures { IfOk result (λ row. map seen row ≡ filter_map (within low width) (map seen aims.now)) }
{
    let mut row = Items::new(alloc);
    for aim in aims {
        push_some(&mut row, cut(*aim, low, width))?;
    }
    Ok(row)
}

// The aims of a selection.
fn selected_aims(alloc: Global, aims: &[Aimed], by: Selection) -> Result<AimRow, NoMemory>
    requires below { AllStandBelow 128 aims.now }
    requires some { by.offset.least ≤ by.offset.greatest }
    ensures { IfOk result (λ row. map seen row ≡ filter_map (shifted (numbers_in by.offset) by.wide by.width by.stride) (map seen aims.now)) }
{
    let mut row = Items::new(alloc);
    for aim in aims {
        push_some(&mut row, select(*aim, by))?;
    }
    Ok(row)
}

// Adds aims, each so many bits higher.
fn push_lifted(row: &mut AimRow, aims: &[Aimed], by: u8, width: u8) -> Result<(), NoMemory>
    requires below { AllStandBelow width aims.now }
    requires narrow { by + width ≤ 128 }
    ensures { OnOk result (map seen row.new ≡ map seen row.old ++ map (raised by) (map seen aims.now)) }
{
    for aim in aims {
        row.push(lift(*aim, by))?;
    }
    Ok(())
}

// The aims of expressions one above the other.
fn joined_aims(
    alloc: Global,
    design: &Design,
    table: &AimTable,
    items: &[ExprId],
) -> Result<AimRow, NoMemory>
    requires rules { IsPool design.now.pool }
    requires names { AllBelow (length table.now) items.now }
    requires rows { HasRows design.now.pool table.now }
    requires narrow { total_width (form design.now.pool) items.now ≤ 128 }
    ensures { IfOk result (λ row. map seen row ≡ aims_of_all (form design.now.pool) (aims design.now.pool) 0 items.now) }
{
    let mut row = Items::new(alloc);
    let mut by = 0u8;
    for item in items {
        let width = design.shape(*item).width;
        push_lifted(&mut row, row_of(table, *item), by, width)?;
        by += width;
    }
    Ok(row)
}

// Adds the aims of an item.
fn push_loose(row: &mut AimRow, aims: &[Aimed], width: u8) -> Result<(), NoMemory>
    requires { AllStandBelow 128 aims.now }
    ensures { OnOk result (map seen row.new ≡ map seen row.old ++ filter_map (loose width) (map seen aims.now)) }
{
    for aim in aims {
        push_some(row, loosen(*aim, width))?;
    }
    Ok(())
}

// The aims of items of which one is picked.
fn picked_aims(
    alloc: Global,
    design: &Design,
    table: &AimTable,
    items: &[ExprId],
    width: u8,
) -> Result<AimRow, NoMemory>
    requires rules { IsPool design.now.pool }
    requires names { AllBelow (length table.now) items.now }
    requires rows { HasRows design.now.pool table.now }
    ensures { IfOk result (λ row. map seen row ≡ filter_map (loose width) (flat_map (λ e. aims design.now.pool e.0) items.now)) }
{
    let _ = design.count();
    let mut row = Items::new(alloc);
    for item in items {
        push_loose(&mut row, row_of(table, *item), width)?;
    }
    Ok(row)
}

// The same aims.
fn copied_aims(alloc: Global, aims: &[Aimed]) -> Result<AimRow, NoMemory>
    ensures { IfOk result (λ row. row ≡ aims.now) }
{
    let mut row = Items::new(alloc);
    for aim in aims {
        row.push(*aim)?;
    }
    Ok(row)
}

// The aims of an expression that the table has.
fn row_of(table: &AimTable, e: ExprId) -> &[Aimed]
    requires { e.0 < length table.now }
    ensures { result.now ≡ row_at table.now e.0 }
{
    table.get(e.0 as usize).as_slice()
}

// The aims of the first expression that the table does not have.
fn aims_row(alloc: Global, design: &Design, table: &AimTable, e: ExprId) -> Result<AimRow, NoMemory>
    requires rows { HasRows design.now.pool table.now }
    requires next { e.0 ≡ length table.now }
    requires there { e.0 < length design.now.pool.exprs }
    ensures { IfOk result (λ row. map seen row ≡ aims design.now.pool e.0) }
{
    let _ = design.count();
    let width = design.shape(e).width;
    match design.at(e) {
        Expr::Sig(s) => signal_aims(alloc, *s, width),
        Expr::Slice { a, low, width } => slice_aims(alloc, row_of(table, *a), *low, *width),
        Expr::Cat(items) => joined_aims(alloc, design, table, items.as_slice()),
        Expr::Part {
            a,
            offset,
            stride,
            ..
        } => {
            let by = Selection {
                offset: span_of(design, *offset),
                wide: design.shape(*a).width,
                width,
                stride: *stride,
            };
            selected_aims(alloc, row_of(table, *a), by)
        }
        Expr::Pick { index, items } => {
            let items = chosen_items(span_of(design, *index), items.as_slice());
            picked_aims(alloc, design, table, items, width)
        }
        Expr::Cast { a, .. } => copied_aims(alloc, row_of(table, *a)),
        Expr::Const { .. }
        | Expr::Unary { .. }
        | Expr::Binary { .. }
        | Expr::Mux { .. }
        | Expr::Matches { .. }
        | Expr::Reset { .. } => Ok(Items::new(alloc)),
    }
}

/// The aims of all expressions.
pub fn all_aims(alloc: Global, design: &Design) -> Result<AimTable, NoMemory>
    ensures { IfOk result (HasAims design.now.pool) }
{
    let mut table = Items::new(alloc);
    for e in 0..design.count() {
        let row = aims_row(alloc, design, &table, ExprId(e))?;
        table.push(row)?;
    }
    Ok(table)
}
