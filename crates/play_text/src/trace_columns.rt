// The columns of a trace as its rows show them.
ghost use Rattle.std.specs.Prelude.{◌≡◌, ◌++◌, ◌∷◌, [], map, IfOk, OnOk};
ghost use Rattle.std.specs.List.{flat_map};
ghost use Rattle.play_text.specs.Lanes.{label_of, lane_at, lanes_at, lane_text, moved};

use crate::board::Shown;
use crate::trace_events::number_of;
use amh_bits::Int;
use amh_host::{NoMemory, Text};
use design_ir::SigId;
use number_text::push_int;
use sim_plans::compute::overwrite;
use std::alloc::{AllocError, Global};

/// A column as rows show it: what stands before its number, its signal, and the number that it had last.
#[derive(Drop)]
pub struct Lane {
    pub label: Text,
    pub sig: SigId,
    pub last: Int,
}

/// The columns before any event.
pub fn lanes_of(alloc: Global, columns: &[Shown], first: &[Int]) -> Result<Vec<Lane>, NoMemory>
    ensures { IfOk result (λ lanes. lanes.items ≡ lanes_at columns.now first.now) }
{
    let mut lanes = Vec::new(alloc);
    for x in columns {
        lanes.push(lane_of(alloc, x, first)?)?;
    }
    Ok(lanes)
}

fn lane_of(alloc: Global, x: &Shown, first: &[Int]) -> Result<Lane, NoMemory>
    ensures { IfOk result (λ lane. lane ≡ lane_at first.now x.now) }
{
    Ok(Lane {
        label: label_of(alloc, x.name.as_str())?,
        sig: x.sig,
        last: number_of(first, x.sig),
    })
}

fn label_of(alloc: Global, name: &str) -> Result<Text, NoMemory>
    ensures { IfOk result (λ label. label ≡ label_of name.now) }
{
    let mut label = Text::new(alloc);
    label.push(" ")?;
    label.push(name)?;
    label.push("=")?;
    Ok(label)
}

/// Adds the columns whose numbers are other ones now.
pub fn push_changes(text: &mut Vec<u8>, lanes: &mut [Lane], now: &[Int]) -> Result<(), AllocError>
    ensures text { OnOk result (text.new.items ≡ text.old.items ++ flat_map (lane_text now.now) lanes.old) }
    ensures lanes { OnOk result (lanes.new ≡ map (moved now.now) lanes.old) }
{
    for x in lanes.iter_mut() {
        push_change(text, x, now)?;
    }
    Ok(())
}

fn push_change(text: &mut Vec<u8>, lane: &mut Lane, now: &[Int]) -> Result<(), AllocError>
    ensures text { OnOk result (text.new.items ≡ text.old.items ++ lane_text now.now lane.old) }
    ensures lane { lane.new ≡ moved now.now lane.old }
{
    let value = number_of(now, lane.sig);
    if lane.last == value {
        return Ok(());
    }
    overwrite(&mut lane.last, value);
    text.extend_from_slice(lane.label.as_str().as_bytes())?;
    push_int(text, value)
}
