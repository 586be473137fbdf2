// The data of read ports.
ghost use Rattle.std.specs.Prelude.{◌≡◌, ◌<◌, ◌+◌, ◌^◌, ◌||◌, if◌then◌else◌, not, true, ℕ, None, Some, is_some, length, map, option_map, IfOk, IfErr};
ghost use Rattle.std.specs.List.{AllByRecursion, filter};
ghost use Rattle.design_ir.specs.declared.memory.MemRead.{MemRead};
ghost use Rattle.design_ir.specs.Circuits.{is_among};
ghost use Rattle.fragment_walks.specs.Marks.{Flag, is_marked, marked};
ghost use Rattle.fragment_walks.specs.Reads.{data_signals};
ghost use Rattle.fragment_walks.specs.Numbers.{lowered, first_at, lesser};
ghost use Rattle.clock_domains.specs.Firsts.{first_memory};
ghost use Rattle.clock_domains.specs.Data.{is_taken, words};
ghost use Rattle.clock_domains.specs.Resolved.{data_refusal};
ghost use Rattle.clock_domains.specs.Stops.{IsOwed};

use crate::domains::file_start;
use crate::stop::ResolveStop;
use design_ir::{MemRead, Memory};
use fragment_walks::marks::{SIGNALS, mark, unmarked};
use fragment_walks::numbers::lower;
use std::alloc::Global;

// Marks the data of these read ports, unless one is marked already.
fn mark_new(marks: &mut Vec<bool>, reads: &[MemRead]) -> bool
    requires { AllByRecursion (λ (r : MemRead). r.word.0 < length marks.old.items) reads.now }
    ensures all { result ≡ not (is_taken marks.old.items (words reads.now)) }
    ensures marks { result ≡ true → marks.new.items ≡ marked (words reads.now) marks.old.items }
{
    for read in reads {
        let s = read.word.0 as usize;
        if marks[s] {
            return false;
        }
        mark(marks, s);
    }
    true
}

/// Marks the data of all read ports, or refuses a signal that is the data of two.
pub fn data_marks(alloc: Global, memories: &[Memory]) -> Result<Vec<bool>, ResolveStop>
    requires { AllByRecursion (λ s. s < 16384) (data_signals memories.now) }
    ensures accepted { IfOk result (λ v. (data_refusal memories.now ≡ None) × Flag v.items (is_among (data_signals memories.now))) }
    ensures refused { IfErr result (IsOwed (data_refusal memories.now)) }
{
    let mut marks = unmarked(alloc, SIGNALS)?;
    for memory in memories {
        if !mark_new(&mut marks, memory.reads.as_slice()) {
            return Err(ResolveStop::TwoDrivers(file_start()));
        }
    }
    Ok(marks)
}

/// Marks more: what a read port gives is driven.
pub fn mark_data(given: &[bool], driven: &mut Vec<bool>)
    requires given { length given.now ≡ 16384 }
    requires size { length driven.old.items ≡ 16384 }
    ensures size { length driven.new.items ≡ 16384 }
    ensures each { (s : ℕ) → s < 16384 → is_marked driven.new.items s ≡ (is_marked driven.old.items s || is_marked given.now s) }
{
    for s in 0..SIGNALS {
        if given[s] {
            mark(driven, s);
        }
    }
}

/// Numbers the data of read ports as what is driven before all processes.
pub fn number_data(given: &[bool], firsts: &mut Vec<Option<usize>>)
    requires given { length given.now ≡ 16384 }
    requires size { length firsts.old.items ≡ 16384 }
    ensures size { length firsts.new.items ≡ 16384 }
    ensures each { (s : ℕ) → s < 16384 → first_at firsts.new.items s ≡ (if is_marked given.now s then Some 0 else first_at firsts.old.items s) }
{
    for s in 0..SIGNALS {
        if given[s] {
            lower(firsts, s, 0);
        }
    }
}

// Numbers the data of the clocked ones among these read ports.
fn number_reads(number: usize, reads: &[MemRead], sites: &mut Vec<Option<usize>>)
    requires { AllByRecursion (λ (r : MemRead). r.word.0 < length sites.old.items) reads.now }
    ensures { sites.new.items ≡ lowered (map (λ (r : MemRead). r.word.0) (filter (λ (r : MemRead). is_some r.domain) reads.now)) number sites.old.items }
{
    for read in reads {
        if read.domain.is_some() {
            lower(sites, read.word.0 as usize, number);
        }
    }
}

/// Numbers the data of clocked read ports by their memories, behind so many processes.
pub fn number_memories(processes: usize, memories: &[Memory], sites: &mut Vec<Option<usize>>)
    requires there { AllByRecursion (λ s. s < 16384) (data_signals memories.now) }
    requires size { length sites.old.items ≡ 16384 }
    requires few { processes + length memories.now < 2 ^ 64 }
    ensures size { length sites.new.items ≡ 16384 }
    ensures each { (s : ℕ) → s < 16384 → first_at sites.new.items s ≡ lesser (first_at sites.old.items s) (option_map (λ (k : ℕ). processes + k) (first_memory memories.now s)) }
{
    for (number, memory) in memories.iter().enumerate() {
        number_reads(processes + number, memory.reads.as_slice(), sites);
    }
}
