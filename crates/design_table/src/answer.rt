// What is said of a design.
ghost use Rattle.comb_graph.specs.Rankings.{IsRanking};

use crate::events::played;
use crate::numbers::small;
use crate::reader::{Case, read_case};
use amh_host::Place;
use comb_graph::{GraphStop, RankedBit, Ranks, rank};
use design_ir::{Design, ExprId, SigId};
use std::alloc::Global;
use table_text::{Stop, split_first, words_of};

/// The name of a design and the answer for it.
pub fn answer(alloc: Global, lines: &[String]) -> Result<String, Stop> {
    let name = name_of(alloc, lines)?;
    match lines_said(alloc, lines) {
        Ok(said) => Ok(format!(in alloc; "{name} {said}")?),
        Err(Stop::NoCase) => Ok(format!(in alloc; "{name} no case")?),
        Err(Stop::NoMemory) => Err(Stop::NoMemory),
    }
}

fn lines_said(alloc: Global, lines: &[String]) -> Result<String, Stop> {
    let case = read_case(alloc, lines)?;
    case_said(alloc, &case, lines)
}

/// The name of a design, which stands in its first line.
pub fn name_of(alloc: Global, lines: &[String]) -> Result<String, Stop> {
    let [first, ..] = lines else {
        return Err(Stop::NoCase);
    };
    let words = words_of(alloc, first.as_str())?;
    match words.as_slice() {
        ["design", name] => Ok(String::from_str(alloc, name)?),
        _ => Err(Stop::NoCase),
    }
}

fn case_said(alloc: Global, case: &Case, lines: &[String]) -> Result<String, Stop> {
    let design = &case.design;
    match rank(alloc, design) {
        Ok(ranks) => accepted_said(alloc, design, case.asked.as_slice(), &ranks, lines),
        Err(GraphStop::Loop { sig, bit, place }) => loop_said(alloc, design, sig, bit, place),
        Err(GraphStop::NoMemory) => Err(Stop::NoMemory),
    }
}

fn loop_said(
    alloc: Global,
    design: &Design,
    sig: SigId,
    bit: u8,
    place: Place,
) -> Result<String, Stop> {
    if sig.0 >= design.signals() {
        return Err(Stop::NoCase);
    }
    let name = design.sig_at(sig).name.as_str();
    Ok(format!(in alloc; "loop {name}.{bit} {}:{}", place.line, place.col)?)
}

// The ranks, the answers to the questions for chains, and the numbers.
fn accepted_said(
    alloc: Global,
    design: &Design,
    asked: &[Option<ExprId>],
    ranks: &Ranks,
    lines: &[String],
) -> Result<String, Stop>
    requires { IsRanking design.now ranks.now }
{
    let mut said = format!(in alloc; "accepted {} {}", ranks.longest(), ranks.order().len())?;
    for line in lines {
        let words = words_of(alloc, line.as_str())?;
        match split_first(words.as_slice()) {
            Some(("chain", bits)) => said.push_str(chain_said(design, ranks, bits)?)?,
            Some(("order", _)) => said.push_str(order_said(alloc, design, ranks)?.as_str())?,
            _ => {}
        }
    }
    said.push_str(played(alloc, design, asked, ranks, lines)?.as_str())?;
    Ok(said)
}

// All bits in their order.
fn order_said(alloc: Global, design: &Design, ranks: &Ranks) -> Result<String, Stop> {
    let mut said = String::from_str(alloc, " order")?;
    for b in ranks.order().as_slice() {
        said.push_str(bit_said(alloc, design, *b)?.as_str())?;
    }
    Ok(said)
}

fn bit_said(alloc: Global, design: &Design, b: RankedBit) -> Result<String, Stop> {
    if b.sig.0 >= design.signals() {
        return Err(Stop::NoCase);
    }
    let name = design.sig_at(b.sig).name.as_str();
    let bit = b.bit;
    Ok(format!(in alloc; " {name}.{bit}")?)
}

// Whether these bits stand in the order, each behind the one before it.
fn chain_said(design: &Design, ranks: &Ranks, bits: &[&str]) -> Result<&'static str, Stop> {
    let mut from = 0;
    for bit in bits {
        let wanted = bit_of(design, bit)?;
        let Some(at) = place_in(ranks.order().as_slice(), wanted) else {
            return Ok(" apart");
        };
        if at < from {
            return Ok(" apart");
        }
        from = at;
    }
    Ok(" chained")
}

fn place_in(order: &[RankedBit], bit: RankedBit) -> Option<usize> {
    order.iter().position(|b| *b == bit)
}

// The bit that `NAME.BIT` names.
fn bit_of(design: &Design, word: &str) -> Result<RankedBit, Stop> {
    let Some((name, bit)) = word.split_once('.') else {
        return Err(Stop::NoCase);
    };
    let Some(sig) = signal_named(design, name) else {
        return Err(Stop::NoCase);
    };
    let bit = small(bit)?;
    Ok(RankedBit { sig, bit })
}

/// The signal of a name.
pub fn signal_named(design: &Design, name: &str) -> Option<SigId> {
    for s in 0..design.signals() {
        if design.sig_at(SigId(s)).name.is(name) {
            return Some(SigId(s));
        }
    }
    None
}
