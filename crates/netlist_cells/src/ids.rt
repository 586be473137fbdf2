// Ids of wires and cells.
ghost use Rattle.std.specs.Prelude.{◌≡◌, ◌<◌, ◌^◌, IfOk};
ghost use Rattle.netlist_laws.specs.Ids.{inner_id, signal_id, value_id, part_id, step_id};
ghost use Rattle.netlist_laws.specs.Module.{public_id};

use amh_host::{NoMemory, Text};
use std::alloc::Global;

/// A copy of a text.
pub fn copied(alloc: Global, text: &str) -> Result<Text, NoMemory>
    ensures { IfOk result (λ copy. copy ≡ text.now) }
{
    let mut copy = Text::new(alloc);
    copy.push(text)?;
    Ok(copy)
}

/// The id of a column's wire: `\` and its name.
pub fn public_id(alloc: Global, name: &str) -> Result<Text, NoMemory>
    ensures { IfOk result (λ id. id ≡ public_id name.now) }
{
    let mut id = Text::new(alloc);
    id.push("\\")?;
    id.push(name)?;
    Ok(id)
}

// The id that only the module gives: `$` and a number.
fn inner_id(alloc: Global, number: u128) -> Result<Text, NoMemory>
    ensures { IfOk result (λ id. id ≡ inner_id number) }
{
    let digits = format!(in alloc; "{number}")?;
    let mut id = Text::new(alloc);
    id.push("$")?;
    id.push(digits.as_str())?;
    Ok(id)
}

/// The id of the wire of a signal that no column shows.
pub fn signal_id(alloc: Global, s: u32) -> Result<Text, NoMemory>
    ensures { IfOk result (λ id. id ≡ signal_id s) }
{
    inner_id(alloc, 4 * s as u128)
}

/// The id of the wire of an expression.
pub fn value_id(alloc: Global, k: u32) -> Result<Text, NoMemory>
    ensures { IfOk result (λ id. id ≡ value_id k) }
{
    inner_id(alloc, 4 * k as u128 + 1)
}

/// The id of another wire or a cell of an expression.
pub fn part_id(alloc: Global, n: u128) -> Result<Text, NoMemory>
    requires { n < 2 ^ 100 }
    ensures { IfOk result (λ id. id ≡ part_id n) }
{
    inner_id(alloc, 4 * n + 2)
}

/// The id of a wire or a cell of a register.
pub fn step_id(alloc: Global, n: u128) -> Result<Text, NoMemory>
    requires { n < 2 ^ 100 }
    ensures { IfOk result (λ id. id ≡ step_id n) }
{
    inner_id(alloc, 4 * n + 3)
}
