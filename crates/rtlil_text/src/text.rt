// The text of a module, written to a file.
ghost use Rattle.std.specs.Prelude.{◌≡◌, ◌++◌, ℕ, List, OnOk, IfOk, string_bytes};
ghost use Rattle.std.specs.List.{flat_map};
ghost use Rattle.amh_host.specs.Seen.{written};
ghost use Rattle.amh_host.specs.Calls.{Adds};
ghost use Rattle.amh_host.specs.Written.{Writes};
ghost use Rattle.amh_host.specs.Causes.{HasCause};
ghost use Rattle.rtlil_text.specs.Lines.{head_text, module_end, cell_end, memory_text, wire_text, parameter_text};
ghost use Rattle.rtlil_text.specs.Written.{opening_text, closing_text, cell_text, end_text, link_text, text_of};
ghost use Rattle.rtlil_text.specs.Widths.{width_in};
ghost use Rattle.rtlil_text.specs.Rules.{IsModule};
ghost use Rattle.rtlil_text.specs.Reads.{Reads};

use crate::cell::{RtlCell, RtlCells, RtlEnds, RtlParameters};
use crate::line::{
    cell_line, end_line, init_line, link_line, memory_line, parameter_line, wire_line,
};
use crate::module::{RtlLinks, RtlMemories, RtlModule, RtlWire, RtlWires};
use crate::page::Page;
use crate::widths::Widths;
use amh_host::{Host, HostStop};
use std::alloc::{AllocError, Global};

/// Makes the file anew, with a text that stands for the module; each line is one `put`. After `Failed`, which comes
/// only where the host's count of faults rose, and after `NoMemory`, the file is as it was or has a front of the text.
/// Of all texts that stand for the module it is the one in which each whole wire is its id alone.
pub fn write<H: Host>(
    alloc: Global,
    m: &RtlModule,
    host: &mut H,
    name: &str,
) -> Result<(), HostStop>
    requires { IsModule m.now }
    ensures text { (text : List ℕ) × Reads text m.now × Writes name.now text result (H.seen host.old) (H.seen host.new) }
    ensures spelled { Writes name.now (text_of m.now) result (H.seen host.old) (H.seen host.new) }
    ensures cause { HasCause (H.faults host.old) (H.faults host.new) result }
{
    write_text(alloc, m, host, name)
}

// The same of any content.
fn write_text<H: Host>(
    alloc: Global,
    m: &RtlModule,
    host: &mut H,
    name: &str,
) -> Result<(), HostStop>
    ensures text { Writes name.now (text_of m.now) result (H.seen host.old) (H.seen host.new) }
    ensures cause { HasCause (H.faults host.old) (H.faults host.new) result }
{
    let widths = Widths::of(alloc, &m.wires)?;
    let opening = opening(alloc, m)?;
    host.start(name)?;
    opening.put(host, name)?;
    put_cells(alloc, &widths, &m.cells, host, name)?;
    closing(alloc, &widths, m)?.put(host, name)
}

// The lines before the cells.
fn opening(alloc: Global, m: &RtlModule) -> Result<Page, AllocError>
    ensures { IfOk result (λ page. page ≡ opening_text m.now) }
{
    let mut page = Page::new(alloc);
    page.add(String::from_str(alloc, "attribute \\top 1\n")?)?;
    page.add(String::from_str(alloc, "module \\top\n")?)?;
    add_memories(alloc, &m.memories, &mut page)?;
    add_wires(alloc, &m.wires, &mut page)?;
    Ok(page)
}

fn add_memories(alloc: Global, memories: &RtlMemories, page: &mut Page) -> Result<(), AllocError>
    ensures { OnOk result (page.new ≡ page.old ++ flat_map memory_text memories.now) }
{
    for m in memories.as_slice() {
        page.add(memory_line(alloc, m)?)?;
    }
    Ok(())
}

fn add_wires(alloc: Global, wires: &RtlWires, page: &mut Page) -> Result<(), AllocError>
    ensures { OnOk result (page.new ≡ page.old ++ flat_map wire_text wires.now) }
{
    for w in wires.as_slice() {
        add_wire(alloc, w, page)?;
    }
    Ok(())
}

fn add_wire(alloc: Global, w: &RtlWire, page: &mut Page) -> Result<(), AllocError>
    ensures { OnOk result (page.new ≡ page.old ++ wire_text w.now) }
{
    if let Some(bits) = &w.init {
        page.add(init_line(alloc, bits)?)?;
    }
    page.add(wire_line(alloc, w)?)
}

// The lines of each cell at once, so that those of all cells are never held together.
fn put_cells<H: Host>(
    alloc: Global,
    widths: &Widths,
    cells: &RtlCells,
    host: &mut H,
    name: &str,
) -> Result<(), HostStop>
    ensures done { Adds (written name.now) (flat_map (cell_text (width_in widths.now)) cells.now) result (H.seen host.old) (H.seen host.new) }
    ensures cause { HasCause (H.faults host.old) (H.faults host.new) result }
{
    for c in cells.as_slice() {
        cell_page(alloc, widths, c)?.put(host, name)?;
    }
    Ok(())
}

fn cell_page(alloc: Global, widths: &Widths, c: &RtlCell) -> Result<Page, AllocError>
    ensures { IfOk result (λ page. page ≡ cell_text (width_in widths.now) c.now) }
{
    let mut page = Page::new(alloc);
    page.add(cell_line(alloc, c)?)?;
    add_parameters(alloc, &c.parameters, &mut page)?;
    add_ends(alloc, widths, &c.ends, &mut page)?;
    page.add(String::from_str(alloc, "  end\n")?)?;
    Ok(page)
}

fn add_parameters(
    alloc: Global,
    parameters: &RtlParameters,
    page: &mut Page,
) -> Result<(), AllocError>
    ensures { OnOk result (page.new ≡ page.old ++ flat_map parameter_text parameters.now) }
{
    for p in parameters.as_slice() {
        page.add(parameter_line(alloc, p)?)?;
    }
    Ok(())
}

fn add_ends(
    alloc: Global,
    widths: &Widths,
    ends: &RtlEnds,
    page: &mut Page,
) -> Result<(), AllocError>
    ensures { OnOk result (page.new ≡ page.old ++ flat_map (end_text (width_in widths.now)) ends.now) }
{
    for e in ends.as_slice() {
        page.add(end_line(alloc, widths, e)?)?;
    }
    Ok(())
}

// The lines after the cells.
fn closing(alloc: Global, widths: &Widths, m: &RtlModule) -> Result<Page, AllocError>
    ensures { IfOk result (λ page. page ≡ closing_text (width_in widths.now) m.now) }
{
    let mut page = Page::new(alloc);
    add_links(alloc, widths, &m.links, &mut page)?;
    page.add(String::from_str(alloc, "end\n")?)?;
    Ok(page)
}

fn add_links(
    alloc: Global,
    widths: &Widths,
    links: &RtlLinks,
    page: &mut Page,
) -> Result<(), AllocError>
    ensures { OnOk result (page.new ≡ page.old ++ flat_map (link_text (width_in widths.now)) links.now) }
{
    for l in links.as_slice() {
        page.add(link_line(alloc, widths, l)?)?;
    }
    Ok(())
}
