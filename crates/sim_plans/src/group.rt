// The statements of a process in groups, such that no signal is driven by two groups.
ghost use Rattle.std.specs.Prelude.{◌≡◌, ◌<◌, ◌≤◌, ◌⊎◌, [], ℕ, true, length, replicate, slice_index_or, IfOk};
ghost use Rattle.std.specs.List.{AllByRecursion, range_with_len};
ghost use Rattle.design_ir.specs.Circuits.{is_among};
ghost use Rattle.sim_plans.specs.Driven.{numbers_of};
ghost use Rattle.sim_plans.specs.Groups.{AreGroups, AreJoined, AreLabels, AreNoted, IsForest, Keeps, drives_of};

use crate::targets::SigIds;
use amh_host::{Items, NoMemory};
use design_ir::SigId;
use std::alloc::Global;

/// Statements by their places, those that drive a common signal together and in order. For each signal there is room to
/// note a statement.
pub fn groups(
    alloc: Global,
    drives: &[SigIds],
    noted: &mut [usize],
) -> Result<Vec<Items<usize>>, NoMemory>
    requires below { (i : ℕ) → i < length drives.now → AllByRecursion (λ s. s < length noted.old) (drives_of drives.now i) }
    ensures count { length noted.new ≡ length noted.old }
    ensures groups { IfOk result (λ groups. AreGroups drives.now groups.items) }
{
    note_all(drives, noted);
    let mut labels = numbers(alloc, drives.len())?;
    label(drives, noted, &mut labels);
    gather(alloc, drives, labels.as_slice())
}

// Gives statements that drive a common signal the same label.
fn label(drives: &[SigIds], noted: &[usize], labels: &mut [usize])
    requires own { labels.old ≡ range_with_len 0 (length drives.now) }
    requires noted { AreNoted drives.now (length drives.now) noted.now }
    ensures { AreLabels drives.now labels.new }
{
    join_all(drives, noted, labels);
    flatten(labels);
}

// Notes for each signal one of these statements that drives it.
fn note_all(drives: &[SigIds], noted: &mut [usize])
    requires below { (i : ℕ) → i < length drives.now → AllByRecursion (λ s. s < length noted.old) (drives_of drives.now i) }
    ensures count { length noted.new ≡ length noted.old }
    ensures noted { AreNoted drives.now (length drives.now) noted.new }
{
    for i in 0..drives.len() {
        note(drives[i].as_slice(), i, noted);
    }
}

// Notes a statement for these signals.
fn note(signals: &[SigId], i: usize, noted: &mut [usize])
    requires below { AllByRecursion (λ s. s < length noted.old) (numbers_of signals.now) }
    ensures count { length noted.new ≡ length noted.old }
    ensures noted { (s : ℕ) → is_among (numbers_of signals.now) s ≡ true → slice_index_or noted.new s 0 ≡ i }
    ensures either { (s : ℕ) → (slice_index_or noted.new s 0 ≡ slice_index_or noted.old s 0) ⊎ (slice_index_or noted.new s 0 ≡ i) }
{
    for s in signals {
        noted[s.0 as usize] = i;
    }
}

// So many numbers, each with its own place.
fn numbers(alloc: Global, count: usize) -> Result<Vec<usize>, NoMemory>
    ensures { IfOk result (λ all. all.items ≡ range_with_len 0 count) }
{
    let mut all = Vec::new(alloc);
    for i in 0..count {
        all.push(i)?;
    }
    Ok(all)
}

// Joins each statement with those that are noted for its signals.
fn join_all(drives: &[SigIds], noted: &[usize], parents: &mut [usize])
    requires count { length parents.old ≡ length drives.now }
    requires forest { IsForest parents.old }
    requires noted { AreNoted drives.now (length drives.now) noted.now }
    ensures count { length parents.new ≡ length drives.now }
    ensures forest { IsForest parents.new }
    ensures joined { (i s : ℕ) → i < length drives.now → is_among (drives_of drives.now i) s ≡ true → AreJoined parents.new i (slice_index_or noted.now s 0) }
{
    for i in 0..drives.len() {
        join_noted(drives[i].as_slice(), i, noted, parents);
    }
}

// Joins a statement with those that are noted for these signals.
fn join_noted(signals: &[SigId], i: usize, noted: &[usize], parents: &mut [usize])
    requires there { i < length parents.old }
    requires forest { IsForest parents.old }
    requires noted { AllByRecursion (λ s. slice_index_or noted.now s 0 < length parents.old) (numbers_of signals.now) }
    ensures count { length parents.new ≡ length parents.old }
    ensures forest { IsForest parents.new }
    ensures keeps { Keeps parents.old parents.new }
    ensures joined { (s : ℕ) → is_among (numbers_of signals.now) s ≡ true → AreJoined parents.new i (slice_index_or noted.now s 0) }
{
    for s in signals {
        join(parents, i, noted_at(noted, *s));
    }
}

// The statement that is noted for a signal.
fn noted_at(noted: &[usize], s: SigId) -> usize
    ensures { result ≡ slice_index_or noted.now s.0 0 }
{
    match noted.get(s.0 as usize) {
        Some(i) => *i,
        None => 0,
    }
}

// Joins two numbers, and all that were joined with either.
fn join(parents: &mut [usize], a: usize, b: usize)
    requires first { a < length parents.old }
    requires second { b < length parents.old }
    requires forest { IsForest parents.old }
    ensures count { length parents.new ≡ length parents.old }
    ensures forest { IsForest parents.new }
    ensures keeps { Keeps parents.old parents.new }
    ensures joined { AreJoined parents.new a b }
{
    let x = root(parents, a);
    let y = root(parents, b);
    if x < y {
        parents[y] = x;
    } else {
        parents[x] = y;
    }
}

// The number at the root above another; on the way there each second one gets a nearer parent.
fn root(parents: &mut [usize], i: usize) -> usize
    requires there { i < length parents.old }
    requires forest { IsForest parents.old }
    ensures count { length parents.new ≡ length parents.old }
    ensures forest { IsForest parents.new }
    ensures keeps { Keeps parents.old parents.new }
    ensures roots { (k : ℕ) → slice_index_or parents.old k 0 ≡ k → slice_index_or parents.new k 0 ≡ k }
    ensures there { result < length parents.new }
    ensures root { slice_index_or parents.new result 0 ≡ result }
    ensures joined { AreJoined parents.new i result }
{
    let mut e = i;
    while parents[e] != e {
        let up = parents[parents[e]];
        parents[e] = up;
        e = up;
    }
    e
}

// Puts each number directly below its root.
fn flatten(parents: &mut [usize])
    requires forest { IsForest parents.old }
    ensures count { length parents.new ≡ length parents.old }
    ensures forest { IsForest parents.new }
    ensures keeps { Keeps parents.old parents.new }
    ensures flat { (i : ℕ) → i < length parents.new → slice_index_or parents.new (slice_index_or parents.new i 0) 0 ≡ slice_index_or parents.new i 0 }
{
    for i in 0..parents.len() {
        parents[i] = parents[parents[i]];
    }
}

// For each label its statements.
fn gather(alloc: Global, drives: &[SigIds], labels: &[usize]) -> Result<Vec<Items<usize>>, NoMemory>
    requires { AreLabels drives.now labels.now }
    ensures { IfOk result (λ groups. AreGroups drives.now groups.items) }
{
    let _ = drives;
    let mut groups = no_groups(alloc, labels.len())?;
    for i in 0..labels.len() {
        groups[labels[i]].push(i)?;
    }
    Ok(groups)
}

// So many empty groups.
fn no_groups(alloc: Global, count: usize) -> Result<Vec<Items<usize>>, NoMemory>
    ensures { IfOk result (λ groups. groups.items ≡ replicate count []) }
{
    let mut groups = Vec::new(alloc);
    for _ in 0..count {
        groups.push(Items::new(alloc))?;
    }
    Ok(groups)
}
