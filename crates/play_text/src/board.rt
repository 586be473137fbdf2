// What the trace and the script see of a design.
ghost use Rattle.std.specs.Prelude.{◌≡◌, ◌<◌, false, fold, length, map, slice_set, IfOk};
ghost use Rattle.sim_plans.specs.Reading.{AreFirst};
ghost use Rattle.design_ir.specs.Tests.{is_settable};
ghost use Rattle.play_text.specs.BoardMarks.{mark_input, unmark_clock};
ghost use Rattle.play_text.specs.Boards.{board_of, shown_of};

use amh_host::{Items, NoMemory, Text};
use design_ir::{Column, Design, Domain, DomainId, Port, SigId};
use shape_rules::Shape;
use std::alloc::Global;

/// A column of the trace: its name, the signal whose number it shows, the shape of that number, and whether a
/// script may set it, as it may an input that is no clock.
#[derive(Drop)]
pub struct Shown {
    pub name: Text,
    pub sig: SigId,
    pub shape: Shape,
    pub is_settable: bool,
}

/// The columns of a design in order, and its domains in order.
#[derive(Drop)]
pub struct Board {
    pub columns: Items<Shown>,
    pub domains: Items<Domain>,
}

/// The columns and domains of a design, in time that is linear in its signals, ports, columns and domains.
pub fn board_of(alloc: Global, design: &Design) -> Result<Board, NoMemory>
    ensures { IfOk result (λ b. b ≡ board_of design.now) }
{
    let settable = settable_signals(alloc, design)?;
    Ok(Board {
        columns: all_columns(alloc, design, settable.as_slice())?,
        domains: all_domains(alloc, design)?,
    })
}

// For each signal, whether a script may set it.
fn settable_signals(alloc: Global, design: &Design) -> Result<Vec<bool>, NoMemory>
    ensures { IfOk result (λ v. AreFirst false (is_settable design.now) (length design.now.pool.signals) v.items) }
{
    let mut marks = vec![in alloc; false; design.signals() as usize]?;
    mark_inputs(design, &mut marks);
    unmark_clocks(design, &mut marks);
    Ok(marks)
}

fn mark_inputs(design: &Design, marks: &mut [bool])
    ensures { marks.new ≡ fold mark_input marks.old design.now.ports }
{
    for i in 0..design.ports() {
        mark_input(design.port(i), marks);
    }
}

fn mark_input(port: &Port, marks: &mut [bool])
    ensures { marks.new ≡ mark_input marks.old port.now }
{
    if port.is_input {
        put_mark(marks, port.sig, true);
    }
}

fn unmark_clocks(design: &Design, marks: &mut [bool])
    ensures { marks.new ≡ fold unmark_clock marks.old design.now.domains }
{
    for d in 0..design.domains() {
        put_mark(marks, design.domain(DomainId(d)).clk, false);
    }
}

fn put_mark(marks: &mut [bool], sig: SigId, mark: bool)
    ensures { marks.new ≡ slice_set marks.old sig.0 mark }
{
    let s = sig.0 as usize;
    if s < marks.len() {
        marks[s] = mark;
    }
}

fn all_columns(alloc: Global, design: &Design, settable: &[bool]) -> Result<Items<Shown>, NoMemory>
    requires { AreFirst false (is_settable design.now) (length design.now.pool.signals) settable.now }
    ensures { IfOk result (λ columns. columns ≡ map (shown_of design.now) design.now.columns) }
{
    let _ = design.processes();
    let mut columns = Items::new(alloc);
    for i in 0..design.columns() {
        columns.push(shown_column(alloc, design, settable, design.column(i))?)?;
    }
    Ok(columns)
}

fn shown_column(
    alloc: Global,
    design: &Design,
    settable: &[bool],
    column: &Column,
) -> Result<Shown, NoMemory>
    requires settable { AreFirst false (is_settable design.now) (length design.now.pool.signals) settable.now }
    requires there { column.now.sig.0 < length design.now.pool.signals }
    ensures { IfOk result (λ x. x ≡ shown_of design.now column.now) }
{
    Ok(Shown {
        name: copied_text(alloc, &column.name)?,
        sig: column.sig,
        shape: design.sig_at(column.sig).shape,
        is_settable: settable[column.sig.0 as usize],
    })
}

fn all_domains(alloc: Global, design: &Design) -> Result<Items<Domain>, NoMemory>
    ensures { IfOk result (λ domains. domains ≡ design.now.domains) }
{
    let mut domains = Items::new(alloc);
    for d in 0..design.domains() {
        domains.push(copied_domain(alloc, design.domain(DomainId(d)))?)?;
    }
    Ok(domains)
}

fn copied_domain(alloc: Global, domain: &Domain) -> Result<Domain, NoMemory>
    ensures { IfOk result (λ d. d ≡ domain.now) }
{
    Ok(Domain {
        name: copied_text(alloc, &domain.name)?,
        clk: domain.clk,
        rst: domain.rst,
        falling: domain.falling,
        async_reset: domain.async_reset,
    })
}

fn copied_text(alloc: Global, text: &Text) -> Result<Text, NoMemory>
    ensures { IfOk result (λ copy. copy ≡ text.now) }
{
    let mut copy = Text::new(alloc);
    copy.push(text.as_str())?;
    Ok(copy)
}
