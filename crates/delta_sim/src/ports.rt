// What an edge does to memories: clocked read ports take rows, and write ports write them.
ghost use Rattle.std.specs.Prelude.{◌≡◌, ◌<◌, ◌≤◌, ◌==◌, ◌||◌, ℕ, false, true, not, length, fold, Some, slice_get};
ghost use Rattle.std.specs.List.{flat_map, list_any};
ghost use Rattle.design_ir.specs.declared.memory.Memory.{Memory};
ghost use Rattle.design_ir.specs.Designs.{IsMemory, IsWritePort};
ghost use Rattle.design_ir.specs.Rows.{row_at};
ghost use Rattle.design_ir.specs.Steps.{clocked_read, clocked_reads, port_active, read_word, reads_now, rows_after, shown_through, write_row, writes_through};
ghost use Rattle.design_ir.proofs.NumbersFit.{FitsSignals};
ghost use Rattle.sim_plans.specs.Plans.{IsPlan};
ghost use Rattle.sim_plans.specs.Ports.{AreKnown, AreNoted, IsOther, port_exprs, read_exprs, write_exprs};
ghost use Rattle.sim_plans.specs.Settling.{nobody};
ghost use Rattle.sim_plans.specs.Tasks.{AreFitting};
ghost use Rattle.sim_plans.specs.Woken.{AreChanged, same_rows};

use crate::clocks::is_active;
use crate::statements::is_zero;
use crate::wake::differs;
use amh_bits::Int;
use amh_host::Text;
use design_ir::{Design, DomainId, Exprs, MemRead, MemWrite, Memory};
use sim_plans::agenda::Agenda;
use sim_plans::compute::compute;
use sim_plans::plan::Plan;
use sim_plans::rows::Rows;
use sim_plans::written::{at, written};

/// What read ports take from the rows, and then what write ports leave in them, all read before the edge. Memories whose
/// rows changed are noted.
pub fn clock_memories(
    design: &Design,
    plan: &Plan,
    env: &[Int],
    nums: &mut Vec<Int>,
    listed: &[DomainId],
    rows: &mut Vec<Rows>,
    held: &mut [Int],
    room: &mut Vec<Int>,
    changed: &mut Agenda,
)
    requires plan { IsPlan design.now (length nums.old.items) plan.now }
    requires env { length env.now ≡ length design.now.pool.signals }
    requires env_fits { FitsSignals design.now.pool env.now }
    requires numbers { AreFitting design.now.pool nums.old.items }
    requires rows { length rows.old.items ≡ length design.now.memories }
    requires signals { length held.old ≡ length design.now.pool.signals }
    requires room { 64 ≤ length room.old.items }
    requires changed { changed.old ≡ nobody (length design.now.memories) }
    ensures held { held.new ≡ clocked_reads design.now env.now listed.now design.now.memories rows.old.items held.old }
    ensures rows { rows.new.items ≡ rows_after design.now env.now listed.now design.now.memories rows.old.items }
    ensures count { length nums.new.items ≡ length nums.old.items }
    ensures numbers { AreFitting design.now.pool nums.new.items }
    ensures room { length room.new.items ≡ length room.old.items }
    ensures changed { AreChanged design.now rows.old.items rows.new.items changed.new.marks }
    ensures changed_count { length changed.new.marks ≡ length design.now.memories }
{
    for k in 0..design.memories().len() {
        let other = clock_memory(design, plan, k, env, nums, listed, &mut rows[k], held, room);
        changed.mark_if(other, k);
    }
}

// The same for one memory: whether its rows changed. Where none of its ports acts, nothing is computed for it.
fn clock_memory(
    design: &Design,
    plan: &Plan,
    k: usize,
    env: &[Int],
    nums: &mut Vec<Int>,
    listed: &[DomainId],
    rows: &mut Rows,
    held: &mut [Int],
    room: &mut Vec<Int>,
) -> bool
    requires there { k < length design.now.memories }
    requires plan { IsPlan design.now (length nums.old.items) plan.now }
    requires env { length env.now ≡ length design.now.pool.signals }
    requires env_fits { FitsSignals design.now.pool env.now }
    requires numbers { AreFitting design.now.pool nums.old.items }
    requires signals { length held.old ≡ length design.now.pool.signals }
    requires room { 64 ≤ length room.old.items }
    ensures changed { result ≡ not (same_rows rows.old rows.new) }
    ensures room { length room.new.items ≡ length room.old.items }
    ensures held { (m : Memory) → slice_get design.now.memories k ≡ Some m → held.new ≡ fold (clocked_read design.now env.now listed.now m rows.old) held.old m.reads }
    ensures rows { (m : Memory) → slice_get design.now.memories k ≡ Some m → rows.new ≡ fold (write_row design.now env.now listed.now m) rows.old m.writes }
    ensures count { length nums.new.items ≡ length nums.old.items }
    ensures numbers { AreFitting design.now.pool nums.new.items }
{
    let _ = design.processes();
    let m = design.memories().get(k);
    if !acts(design, m, env, listed) {
        return false;
    }
    compute(design, plan.ports.get(k).as_slice(), env, nums);
    read_all(design, m, env, nums.as_slice(), listed, rows, held);
    note_all(design, m, env, nums.as_slice(), rows, room);
    write_all(design, m, env, nums.as_slice(), listed, rows);
    any_differs(design, m, env, nums.as_slice(), rows, room.as_slice())
}

// Notes the row at the address of each write port.
fn note_all(
    design: &Design,
    m: &Memory,
    env: &[Int],
    nums: &[Int],
    rows: &Rows,
    room: &mut Vec<Int>,
)
    requires written { AreKnown design.now.pool env.now nums.now (flat_map write_exprs m.now.writes) }
    requires room { length m.now.writes ≤ length room.old.items }
    ensures room { length room.new.items ≡ length room.old.items }
    ensures noted { AreNoted design.now.pool env.now rows.now m.now.writes room.new.items }
{
    let _ = design;
    let _ = env;
    for i in 0..m.writes.len() {
        room[i] = written_row(design, m.writes.get(i), env, nums, rows);
    }
}

// The row at the address of a write port.
fn written_row(design: &Design, w: &MemWrite, env: &[Int], nums: &[Int], rows: &Rows) -> Int
    requires { AreKnown design.now.pool env.now nums.now (write_exprs w.now) }
    ensures { result ≡ row_at design.now.pool env.now rows.now w.now.addr }
{
    let _ = design;
    let _ = env;
    rows.at(at(nums, w.addr).size)
}

// Whether one of those rows is another now.
fn any_differs(
    design: &Design,
    m: &Memory,
    env: &[Int],
    nums: &[Int],
    rows: &Rows,
    room: &[Int],
) -> bool
    requires written { AreKnown design.now.pool env.now nums.now (flat_map write_exprs m.now.writes) }
    requires room { length m.now.writes ≤ length room.now }
    ensures same { result ≡ false → AreNoted design.now.pool env.now rows.now m.now.writes room.now }
    ensures other { result ≡ true → IsOther design.now.pool env.now rows.now m.now.writes room.now }
{
    for i in 0..m.writes.len() {
        let row = written_row(design, m.writes.get(i), env, nums, rows);
        let other = differs(room[i], row);
        if other {
            return true;
        }
    }
    false
}

// Whether the domain of one of a memory's ports is active.
fn acts(design: &Design, m: &Memory, env: &[Int], listed: &[DomainId]) -> bool
    ensures { result ≡ (list_any (λ w. port_active design.now env.now listed.now (Some w.domain)) m.now.writes || list_any (λ r. port_active design.now env.now listed.now r.domain) m.now.reads) }
{
    write_acts(design, m, env, listed) || read_acts(design, m, env, listed)
}

fn write_acts(design: &Design, m: &Memory, env: &[Int], listed: &[DomainId]) -> bool
    ensures { result ≡ list_any (λ w. port_active design.now env.now listed.now (Some w.domain)) m.now.writes }
{
    m.writes
        .as_slice()
        .iter()
        .any(|w| port_active(design, env, listed, &w.domain))
}

fn read_acts(design: &Design, m: &Memory, env: &[Int], listed: &[DomainId]) -> bool
    ensures { result ≡ list_any (λ r. port_active design.now env.now listed.now r.domain) m.now.reads }
{
    m.reads
        .as_slice()
        .iter()
        .any(|r| read_active(design, env, listed, r))
}

// Whether the domain of a port is active.
fn port_active(design: &Design, env: &[Int], listed: &[DomainId], domain: &Text) -> bool
    ensures { result ≡ port_active design.now env.now listed.now (Some domain.now) }
{
    match design.domain_named(domain.as_str()) {
        Some(d) => is_active(design, env, listed, d),
        None => false,
    }
}

// Whether a read port has a domain that is active.
fn read_active(design: &Design, env: &[Int], listed: &[DomainId], r: &MemRead) -> bool
    ensures { result ≡ port_active design.now env.now listed.now r.now.domain }
{
    match &r.domain {
        Some(domain) => port_active(design, env, listed, domain),
        None => false,
    }
}

// What the read ports take, each from the rows as they were.
fn read_all(
    design: &Design,
    m: &Memory,
    env: &[Int],
    nums: &[Int],
    listed: &[DomainId],
    rows: &Rows,
    held: &mut [Int],
)
    requires memory { IsMemory design.now m.now }
    requires known { AreKnown design.now.pool env.now nums.now (port_exprs m.now) }
    ensures { held.new ≡ fold (clocked_read design.now env.now listed.now m.now rows.now) held.old m.now.reads }
{
    for r in m.reads.as_slice() {
        read(design, m, r, env, nums, listed, rows, held);
    }
}

// What one of them takes.
fn read(
    design: &Design,
    m: &Memory,
    r: &MemRead,
    env: &[Int],
    nums: &[Int],
    listed: &[DomainId],
    rows: &Rows,
    held: &mut [Int],
)
    requires memory { IsMemory design.now m.now }
    requires known { AreKnown design.now.pool env.now nums.now (read_exprs r.now) }
    requires written { AreKnown design.now.pool env.now nums.now (flat_map write_exprs m.now.writes) }
    ensures { held.new ≡ clocked_read design.now env.now listed.now m.now rows.now held.old r.now }
{
    if !reads_now(design, r, env, nums, listed) {
        return;
    }
    let word = read_word(design, m, r, env, nums, listed, rows);
    let s = r.word.0 as usize;
    if s < held.len() {
        held[s] = word;
    }
}

// Whether the domain of a read port is active and its enable is 1.
fn reads_now(design: &Design, r: &MemRead, env: &[Int], nums: &[Int], listed: &[DomainId]) -> bool
    requires { AreKnown design.now.pool env.now nums.now (read_exprs r.now) }
    ensures { result ≡ reads_now design.now env.now listed.now r.now }
{
    let Some(enable) = r.enable else {
        return false;
    };
    read_active(design, env, listed, r) && !is_zero(at(nums, enable))
}

// The old row, with what the transparent ports write there, and 0 past the depth.
fn read_word(
    design: &Design,
    m: &Memory,
    r: &MemRead,
    env: &[Int],
    nums: &[Int],
    listed: &[DomainId],
    rows: &Rows,
) -> Int
    requires memory { IsMemory design.now m.now }
    requires known { AreKnown design.now.pool env.now nums.now (read_exprs r.now) }
    requires written { AreKnown design.now.pool env.now nums.now (flat_map write_exprs m.now.writes) }
    ensures { result ≡ read_word design.now env.now listed.now m.now rows.now r.now }
{
    let address = at(nums, r.addr).size;
    if rows.has(address) {
        shown_through(design, m, r, env, nums, listed, address, rows.at(address))
    } else {
        Int::of_u128(0)
    }
}

// A row, with what the transparent ports of a read port write at its address put in.
fn shown_through(
    design: &Design,
    m: &Memory,
    r: &MemRead,
    env: &[Int],
    nums: &[Int],
    listed: &[DomainId],
    address: u128,
    row: Int,
) -> Int
    requires memory { IsMemory design.now m.now }
    requires written { AreKnown design.now.pool env.now nums.now (flat_map write_exprs m.now.writes) }
    ensures { result ≡ shown_through design.now env.now listed.now m.now r.now.transparent address 0 m.now.writes row }
{
    let mut row = row;
    for i in 0..m.writes.len() {
        let w = m.writes.get(i);
        if writes_through(design, r, i, w, env, nums, listed, address) {
            row = written(design, m, w, env, nums, row);
        }
    }
    row
}

// Whether write port i is shown by a read port, and writes to this row.
fn writes_through(
    design: &Design,
    r: &MemRead,
    i: usize,
    w: &MemWrite,
    env: &[Int],
    nums: &[Int],
    listed: &[DomainId],
    address: u128,
) -> bool
    requires { AreKnown design.now.pool env.now nums.now (write_exprs w.now) }
    ensures { result ≡ writes_through design.now env.now listed.now r.now.transparent address i w.now }
{
    is_listed(r.transparent.as_slice(), i)
        && port_active(design, env, listed, &w.domain)
        && at(nums, w.addr).size == address
}

fn is_listed(ports: &[u32], i: usize) -> bool
    ensures { result ≡ list_any (λ k. k == i) ports.now }
{
    ports.iter().any(|k| *k as usize == i)
}

// What the write ports leave in the rows, a later one winning.
fn write_all(
    design: &Design,
    m: &Memory,
    env: &[Int],
    nums: &[Int],
    listed: &[DomainId],
    rows: &mut Rows,
)
    requires memory { IsMemory design.now m.now }
    requires written { AreKnown design.now.pool env.now nums.now (flat_map write_exprs m.now.writes) }
    ensures { rows.new ≡ fold (write_row design.now env.now listed.now m.now) rows.old m.now.writes }
{
    for i in 0..m.writes.len() {
        write(design, m, m.writes.get(i), env, nums, listed, rows);
    }
}

// What one of them leaves.
fn write(
    design: &Design,
    m: &Memory,
    w: &MemWrite,
    env: &[Int],
    nums: &[Int],
    listed: &[DomainId],
    rows: &mut Rows,
)
    requires port { IsWritePort design.now m.now w.now }
    requires known { AreKnown design.now.pool env.now nums.now (write_exprs w.now) }
    ensures { rows.new ≡ write_row design.now env.now listed.now m.now rows.old w.now }
{
    if !port_active(design, env, listed, &w.domain) {
        return;
    }
    let address = at(nums, w.addr).size;
    let row = written(design, m, w, env, nums, rows.at(address));
    rows.put(address, row);
}
