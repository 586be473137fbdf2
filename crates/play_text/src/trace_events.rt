// The text of an event.
ghost use Rattle.std.specs.Prelude.{◌≡◌, ◌++◌, OnOk, Some, codes, if◌then◌else◌, slice_get};
ghost use Rattle.amh_bits.specs.Decimals.{int_text};
ghost use Rattle.std.specs.List.{flat_map};
ghost use Rattle.shape_rules.specs.Operators.{is_zero};
ghost use Rattle.design_ir.specs.declared.ids.DomainId.{DomainId};
ghost use Rattle.design_ir.specs.Circuits.{at};
ghost use Rattle.play_text.specs.Trace.{event_text, edge_field, name_of};

use crate::board::{Board, Shown};
use amh_bits::Int;
use design_ir::{Domain, DomainId, Event, SigId};
use number_text::push_int;
use std::alloc::AllocError;

/// Adds what happened, where the signals had these numbers before.
#[tactic(auto, unfolding(crate::specs::Trace::event_text))]
pub fn push_event(
    text: &mut Vec<u8>,
    board: &Board,
    before: &[Int],
    event: &Event,
) -> Result<(), AllocError>
    ensures { OnOk result (text.new.items ≡ text.old.items ++ event_text board.now before.now event.now) }
{
    match event {
        Event::Set { sig, value } => {
            text.extend_from_slice(b"set ")?;
            text.extend_from_slice(name_of(board.columns.as_slice(), *sig).as_bytes())?;
            text.push(b' ')?;
            push_int(text, *value)
        }
        Event::Edge(clocks) => {
            text.extend_from_slice(b"edge")?;
            push_edges(text, board.domains.as_slice(), before, clocks.as_slice())
        }
    }
}

/// The number of a signal in an environment, and 0 where it has none.
pub fn number_of(env: &[Int], sig: SigId) -> Int
    ensures { result ≡ at env.now sig.0 }
{
    match env.get(sig.0 as usize) {
        Some(n) => Int {
            negative: n.negative,
            size: n.size,
        },
        None => Int::of_u128(0),
    }
}

// The name of the column that shows the signal.
fn name_of(columns: &[Shown], sig: SigId) -> &str
    ensures { result.now ≡ name_of columns.now sig.0 }
{
    for x in columns {
        if x.sig == sig {
            return x.name.as_str();
        }
    }
    ""
}

// Adds the clocks of these domains, each with its edge.
fn push_edges(
    text: &mut Vec<u8>,
    domains: &[Domain],
    before: &[Int],
    clocks: &[DomainId],
) -> Result<(), AllocError>
    ensures { OnOk result (text.new.items ≡ text.old.items ++ flat_map (λ (d : DomainId). edge_field before.now (slice_get domains.now d.0)) clocks.now) }
{
    for d in clocks {
        push_edge(text, domains, before, *d)?;
    }
    Ok(())
}

fn push_edge(
    text: &mut Vec<u8>,
    domains: &[Domain],
    before: &[Int],
    d: DomainId,
) -> Result<(), AllocError>
    ensures { OnOk result (text.new.items ≡ text.old.items ++ edge_field before.now (slice_get domains.now d.0)) }
{
    match domains.get(d.0 as usize) {
        Some(domain) => push_clock(text, domain, before),
        None => Ok(()),
    }
}

// Adds the clock of a domain with its edge.
fn push_clock(text: &mut Vec<u8>, domain: &Domain, before: &[Int]) -> Result<(), AllocError>
    ensures { OnOk result (text.new.items ≡ text.old.items ++ edge_field before.now (Some domain.now)) }
{
    text.push(b' ')?;
    text.extend_from_slice(domain.name.as_str().as_bytes())?;
    text.extend_from_slice(edge_sign(number_of(before, domain.clk)))?;
    Ok(())
}

// A clock at 0 rises, and each other one falls.
fn edge_sign(clock: Int) -> &'static [u8]
    ensures { result.now ≡ (if is_zero clock then codes "+" else codes "-") }
{
    if clock.size == 0 { b"+" } else { b"-" }
}
