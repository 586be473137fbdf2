// Numbers that no id of a module has, however long the ids are.
ghost use Rattle.std.specs.Prelude.{◌≡◌, ◌<◌, ◌≤◌, ◌+◌, ◌*◌, ◌^◌, ℕ, All, true, false, length, IfOk, Some};
ghost use Rattle.rtlil_text.specs.Rules.{module_ids};
ghost use Rattle.cell_split.specs.Pieces.{numbered_id};
ghost use Rattle.cell_split.specs.Kept.{AreFree};
ghost use Rattle.cell_split.specs.Blocks.{is_taken, count_taken, Marks, MarksId};

use amh_host::NoMemory;
use rtlil_text::{RtlCells, RtlMemories, RtlModule, RtlWires};
use std::alloc::Global;

// How many numbers a block has.
const BLOCK: u128 = 18_446_744_073_709_551_616;

/// The first of 2^64 numbers in a row that no id of the module has: of as many such blocks as there are ids and one
/// more, one is free.
pub(crate) fn free_number(alloc: Global, rtl: &RtlModule) -> Result<u128, NoMemory>
    ensures free { IfOk result (λ n. AreFree n (n + 2 ^ 64) (module_ids rtl.now)) }
    ensures small { IfOk result (λ n. n < 2 ^ 127) }
{
    let mut taken = blocks(alloc, rtl)?;
    let block = block_beside(&mut taken, rtl);
    Ok(block as u128 * BLOCK)
}

// One block more than there are ids, none of them marked.
fn blocks(alloc: Global, rtl: &RtlModule) -> Result<Vec<bool>, NoMemory>
    ensures more { IfOk result (λ v. length (module_ids rtl.now) < length v.items) }
    ensures none { IfOk result (λ v. count_taken v.items ≡ 0) }
{
    let wires = rtl.wires.len();
    let others = rtl.memories.len().saturating_add(rtl.cells.len());
    let count = wires.saturating_add(others).saturating_add(1);
    Ok(vec![in alloc; false; count]?)
}

// The first block in which no id of the module has its number.
fn block_beside(taken: &mut [bool], rtl: &RtlModule) -> usize
    requires more { length (module_ids rtl.now) < length taken.old }
    requires none { count_taken taken.old ≡ 0 }
    ensures within { result < length taken.old }
    ensures free { AreFree (result * 2 ^ 64) (result * 2 ^ 64 + 2 ^ 64) (module_ids rtl.now) }
{
    mark_all(taken, rtl);
    free_block(taken)
}

// The first block that is not marked.
fn free_block(taken: &[bool]) -> usize
    requires { count_taken taken.now < length taken.now }
    ensures within { result < length taken.now }
    ensures free { is_taken taken.now result ≡ false }
{
    for block in 0..taken.len() {
        if !taken[block] {
            return block;
        }
    }
    unreachable!()
}

// ---- the blocks of ids

// Marks the blocks of the numbers in all ids.
fn mark_all(taken: &mut [bool], rtl: &RtlModule)
    ensures size { length taken.new ≡ length taken.old }
    ensures few { count_taken taken.new ≤ count_taken taken.old + length (module_ids rtl.now) }
    ensures marked { All (MarksId taken.new) (module_ids rtl.now) }
{
    mark_wires(taken, &rtl.wires);
    mark_memories(taken, &rtl.memories);
    mark_cells(taken, &rtl.cells);
}

fn mark_wires(taken: &mut [bool], wires: &RtlWires)
    ensures kept { Marks taken.old taken.new }
    ensures few { count_taken taken.new ≤ count_taken taken.old + length wires.now }
    ensures marked { All (λ w. MarksId taken.new w.id) wires.now }
{
    for wire in wires.as_slice() {
        mark(taken, wire.id.as_str());
    }
}

fn mark_memories(taken: &mut [bool], memories: &RtlMemories)
    ensures kept { Marks taken.old taken.new }
    ensures few { count_taken taken.new ≤ count_taken taken.old + length memories.now }
    ensures marked { All (λ r. MarksId taken.new r.id) memories.now }
{
    for memory in memories.as_slice() {
        mark(taken, memory.id.as_str());
    }
}

fn mark_cells(taken: &mut [bool], cells: &RtlCells)
    ensures kept { Marks taken.old taken.new }
    ensures few { count_taken taken.new ≤ count_taken taken.old + length cells.now }
    ensures marked { All (λ c. MarksId taken.new c.id) cells.now }
{
    for cell in cells.as_slice() {
        mark(taken, cell.id.as_str());
    }
}

// Marks the block of the number in an id, where it is one of these.
fn mark(taken: &mut [bool], id: &str)
    ensures kept { Marks taken.old taken.new }
    ensures one { count_taken taken.new ≤ count_taken taken.old + 1 }
    ensures marked { MarksId taken.new id.now }
{
    if let Some(number) = number_of(id) {
        mark_block(taken, number / BLOCK);
    }
}

fn mark_block(taken: &mut [bool], block: u128)
    ensures kept { Marks taken.old taken.new }
    ensures one { count_taken taken.new ≤ count_taken taken.old + 1 }
    ensures marked { block < length taken.old → is_taken taken.new block ≡ true }
{
    if block < taken.len() as u128 {
        taken[block as usize] = true;
    }
}

// The number of an inner id.
fn number_of(id: &str) -> Option<u128>
    ensures { (k : ℕ) → k < 2 ^ 128 → id.now ≡ numbered_id k → result ≡ Some k }
{
    match id.strip_prefix('$') {
        Some(digits) => match digits.parse::<u128>() {
            Ok(number) => Some(number),
            Err(_) => None,
        },
        None => None,
    }
}
