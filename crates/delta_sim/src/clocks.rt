// What an edge of clocks leaves.
ghost use Rattle.std.specs.Prelude.{◌≡◌, ◌<◌, ◌≤◌, ◌-ℤ◌, ◌==◌, ◌&&◌, false, length, pos, fold, slice_get, Some};
ghost use Rattle.std.specs.List.{AllByRecursion, list_any};
ghost use Rattle.amh_bits.specs.Patterns.{IsOf};
ghost use Rattle.design_ir.specs.declared.ids.DomainId.{DomainId};
ghost use Rattle.design_ir.specs.declared.process.DesignProcess.{DesignProcess};
ghost use Rattle.design_ir.specs.Circuits.{at};
ghost use Rattle.design_ir.specs.Put.{put};
ghost use Rattle.design_ir.specs.Steps.{is_before_edge, is_active, is_reset, reset_to, reset_all, clocked, clocked_reads, rows_after, toggle};
ghost use Rattle.design_ir.proofs.NumbersFit.{FitsSignals};
ghost use Rattle.sim_plans.specs.Driven.{numbers_of};
ghost use Rattle.sim_plans.specs.Plans.{IsPlan, HasClocked};
ghost use Rattle.sim_plans.specs.Settling.{nobody};
ghost use Rattle.delta_sim.specs.Standing.{AreRowsOf};
ghost use Rattle.sim_plans.specs.Tasks.{AreFitting};
ghost use Rattle.sim_plans.specs.Woken.{AreChanged};

use crate::ports::clock_memories;
use crate::statements::{is_zero, put_task};
use amh_bits::Int;
use design_ir::{Design, DesignProcess, Domain, DomainId, Exprs, SigId};
use sim_plans::agenda::Agenda;
use sim_plans::compute::compute;
use sim_plans::plan::Plan;
use sim_plans::rows::Rows;

/// What is held after an edge of these domains, and the rows then, in place of those before it, by which all is read.
pub fn after_edge(
    design: &Design,
    plan: &Plan,
    env: &[Int],
    nums: &mut Vec<Int>,
    listed: &[DomainId],
    held: &mut [Int],
    rows: &mut Vec<Rows>,
    room: &mut Vec<Int>,
    changed: &mut Agenda,
)
    requires plan { IsPlan design.now (length nums.old.items) plan.now }
    requires env { length env.now ≡ length design.now.pool.signals }
    requires env_fits { FitsSignals design.now.pool env.now }
    requires numbers { AreFitting design.now.pool nums.old.items }
    requires rows { AreRowsOf design.now rows.old.items }
    requires listed { AllByRecursion (λ (d : DomainId). d.0 < length design.now.domains) listed.now }
    requires signals { length held.old ≡ length design.now.pool.signals }
    requires fits { FitsSignals design.now.pool held.old }
    requires room { 64 ≤ length room.old.items }
    requires changed { changed.old ≡ nobody (length design.now.memories) }
    ensures held { held.new ≡ fold (toggle design.now.domains) (clocked_reads design.now env.now listed.now design.now.memories rows.old.items (fold (clocked design.now env.now listed.now) held.old design.now.processes)) listed.now }
    ensures rows { rows.new.items ≡ rows_after design.now env.now listed.now design.now.memories rows.old.items }
    ensures count { length nums.new.items ≡ length nums.old.items }
    ensures numbers { AreFitting design.now.pool nums.new.items }
    ensures room { length room.new.items ≡ length room.old.items }
    ensures changed { AreChanged design.now rows.old.items rows.new.items changed.new.marks }
    ensures changed_count { length changed.new.marks ≡ length design.now.memories }
{
    let _ = design.processes();
    clock_all(design, plan, env, nums, listed, held);
    clock_memories(design, plan, env, nums, listed, rows, held, room, changed);
    toggle_all(design, listed, held);
}

// Carries out the processes whose domains are active.
fn clock_all(
    design: &Design,
    plan: &Plan,
    env: &[Int],
    nums: &mut Vec<Int>,
    listed: &[DomainId],
    held: &mut [Int],
)
    requires plan { IsPlan design.now (length nums.old.items) plan.now }
    requires env { length env.now ≡ length design.now.pool.signals }
    requires env_fits { FitsSignals design.now.pool env.now }
    requires numbers { AreFitting design.now.pool nums.old.items }
    requires signals { length held.old ≡ length design.now.pool.signals }
    requires fits { FitsSignals design.now.pool held.old }
    ensures held { held.new ≡ fold (clocked design.now env.now listed.now) held.old design.now.processes }
    ensures fits { FitsSignals design.now.pool held.new }
    ensures signals { length held.new ≡ length design.now.pool.signals }
    ensures count { length nums.new.items ≡ length nums.old.items }
    ensures numbers { AreFitting design.now.pool nums.new.items }
{
    let _ = design.count();
    let all = design.processes();
    for k in 0..all.len() {
        clock(design, plan, k, env, nums, listed, held);
    }
}

// Carries out a process where its domain is active.
fn clock(
    design: &Design,
    plan: &Plan,
    k: usize,
    env: &[Int],
    nums: &mut Vec<Int>,
    listed: &[DomainId],
    held: &mut [Int],
)
    requires there { k < length design.now.processes }
    requires plan { IsPlan design.now (length nums.old.items) plan.now }
    requires env { length env.now ≡ length design.now.pool.signals }
    requires env_fits { FitsSignals design.now.pool env.now }
    requires numbers { AreFitting design.now.pool nums.old.items }
    requires signals { length held.old ≡ length design.now.pool.signals }
    requires fits { FitsSignals design.now.pool held.old }
    ensures held { (p : DesignProcess) → slice_get design.now.processes k ≡ Some p → held.new ≡ clocked design.now env.now listed.now held.old p }
    ensures count { length nums.new.items ≡ length nums.old.items }
    ensures numbers { AreFitting design.now.pool nums.new.items }
{
    let p = design.processes().get(k);
    let Some(d) = p.domain else {
        return;
    };
    if !is_active(design, env, listed, d) {
        return;
    }
    carry_out(design, plan, k, p, env, nums, held);
    if is_reset(design, env, d) {
        reset_all(design, plan.clocked.get(k).outs.as_slice(), held);
    }
}

// Carries out the statements of a clocked process.
fn carry_out(
    design: &Design,
    plan: &Plan,
    k: usize,
    p: &DesignProcess,
    env: &[Int],
    nums: &mut Vec<Int>,
    held: &mut [Int],
)
    requires clocked { HasClocked design.now (length nums.old.items) plan.now.clocked k p.now }
    requires env { length env.now ≡ length design.now.pool.signals }
    requires env_fits { FitsSignals design.now.pool env.now }
    requires numbers { AreFitting design.now.pool nums.old.items }
    requires signals { length held.old ≡ length design.now.pool.signals }
    requires fits { FitsSignals design.now.pool held.old }
    ensures held { held.new ≡ put design.now.pool env.now p.now.body held.old }
    ensures count { length nums.new.items ≡ length nums.old.items }
    ensures numbers { AreFitting design.now.pool nums.new.items }
{
    let task = plan.clocked.get(k);
    compute(design, task.exprs.as_slice(), env, nums);
    put_task(design, task, &p.body, env, nums.as_slice(), held);
}

/// Gives these signals their inits.
pub fn reset_all(design: &Design, signals: &[SigId], cur: &mut [Int])
    requires { length cur.old ≡ length design.now.pool.signals }
    ensures { cur.new ≡ reset_all design.now.pool.signals cur.old (numbers_of signals.now) }
{
    for s in signals {
        reset(design, *s, cur);
    }
}

// Gives a signal its init unless it is reset-less.
fn reset(design: &Design, s: SigId, cur: &mut [Int])
    requires { length cur.old ≡ length design.now.pool.signals }
    ensures { cur.new ≡ reset_to s.0 cur.old (slice_get design.now.pool.signals s.0) }
{
    if s.0 >= design.signals() {
        return;
    }
    let signal = design.sig_at(s);
    if !signal.reset_less {
        cur[s.0 as usize] = signal.init;
    }
}

/// Whether a domain is listed and its clock stands before its active edge.
pub fn is_active(design: &Design, env: &[Int], listed: &[DomainId], d: DomainId) -> bool
    requires { d.0 < length design.now.domains }
    ensures { result ≡ is_active design.now env.now listed.now d.0 }
{
    let domain = design.domain(d);
    is_listed(listed, d) && is_before_edge(domain, number_at(env, domain.clk))
}

// Whether a clock with this number stands before the active edge of its domain.
fn is_before_edge(domain: &Domain, clock: Int) -> bool
    ensures { result ≡ is_before_edge domain.now clock }
{
    if domain.falling {
        !is_zero(clock)
    } else {
        is_zero(clock)
    }
}

fn is_listed(listed: &[DomainId], d: DomainId) -> bool
    ensures { result ≡ list_any (λ x. x.0 == d.0) listed.now }
{
    listed.iter().any(|x| x.0 == d.0)
}

/// Whether a domain has a reset that is 1.
pub fn is_reset(design: &Design, env: &[Int], d: DomainId) -> bool
    requires { d.0 < length design.now.domains }
    ensures { result ≡ is_reset design.now env.now d.0 }
{
    match design.domain(d).rst {
        Some(s) => !is_zero(number_at(env, s)),
        None => false,
    }
}

// The number of a signal, and 0 where there is none.
fn number_at(env: &[Int], s: SigId) -> Int
    ensures { result ≡ at env.now s.0 }
{
    match env.get(s.0 as usize) {
        Some(n) => *n,
        None => Int::of_u128(0),
    }
}

// Toggles the clocks of these domains.
fn toggle_all(design: &Design, listed: &[DomainId], cur: &mut [Int])
    requires listed { AllByRecursion (λ (d : DomainId). d.0 < length design.now.domains) listed.now }
    requires signals { length cur.old ≡ length design.now.pool.signals }
    requires fits { FitsSignals design.now.pool cur.old }
    ensures { cur.new ≡ fold (toggle design.now.domains) cur.old listed.now }
{
    let _ = design.processes();
    for d in listed {
        toggle(design, *d, cur);
    }
}

// A clock of 0 is 1 now, and one of 1 is 0.
fn toggle(design: &Design, d: DomainId, cur: &mut [Int])
    requires there { d.0 < length design.now.domains }
    requires signals { length cur.old ≡ length design.now.pool.signals }
    requires fits { FitsSignals design.now.pool cur.old }
    ensures { cur.new ≡ toggle design.now.domains cur.old d }
{
    let _ = design.processes();
    let clk = design.domain(d).clk;
    let turned = turned(number_at(cur, clk));
    cur[clk.0 as usize] = turned;
}

fn turned(n: Int) -> Int
    requires { IsOf false 1 n }
    ensures { result ≡ pos 1 -ℤ n }
{
    Int::of_u128(1 - n.size)
}
