// What wakes where signals take other numbers.
ghost use Rattle.std.specs.Prelude.{◌≡◌, ◌≢◌, ◌+◌, ◌<◌, ◌≤◌, ◌^◌, ℕ, true, false, length, slice_set};
ghost use Rattle.std.specs.List.{AllByRecursion};
ghost use Rattle.design_ir.specs.Circuits.{at};
ghost use Rattle.sim_plans.specs.Driven.{numbers_of};
ghost use Rattle.sim_plans.specs.Given.{marked};
ghost use Rattle.sim_plans.specs.Plans.{IsTable, Notes, Wakes, WakesPorts, taken};

use amh_bits::Int;
use design_ir::SigId;
use sim_plans::agenda::Agenda;
use sim_plans::plan::Plan;

/// These signals take their numbers from others. Those whose number is another one now are noted, and what reads one of
/// them waits: its tasks, and its processes.
pub fn take(
    plan: &Plan,
    signals: &[SigId],
    from: &[Int],
    env: &mut Vec<Int>,
    waits: &mut Agenda,
    woken: &mut Agenda,
    moved: &mut Agenda,
)
    requires tasks { IsTable (length env.old.items) (length waits.old.marks) plan.now.readers }
    requires processes { IsTable (length env.old.items) (length woken.old.marks) plan.now.processes }
    requires moved { length moved.old.marks ≡ length env.old.items }
    requires below { AllByRecursion (λ s. s < length env.old.items) (numbers_of signals.now) }
    requires long { length from.now ≡ length env.old.items }
    ensures env { env.new.items ≡ taken from.now (numbers_of signals.now) env.old.items }
    ensures waits { Wakes plan.now.readers env.old.items env.new.items waits.old.marks waits.new.marks }
    ensures woken { Wakes plan.now.processes env.old.items env.new.items woken.old.marks woken.new.marks }
    ensures moved { Notes env.old.items env.new.items moved.old.marks moved.new.marks }
{
    for s in signals {
        take_one(plan, *s, from, env, waits, woken, moved);
    }
}

/// The signals that a state gives take their numbers from what is held.
pub fn take_given(
    plan: &Plan,
    held: &[Int],
    env: &mut Vec<Int>,
    waits: &mut Agenda,
    woken: &mut Agenda,
    moved: &mut Agenda,
)
    requires tasks { IsTable (length env.old.items) (length waits.old.marks) plan.now.readers }
    requires processes { IsTable (length env.old.items) (length woken.old.marks) plan.now.processes }
    requires moved { length moved.old.marks ≡ length env.old.items }
    requires below { AllByRecursion (λ s. s < length env.old.items) (numbers_of plan.now.given) }
    requires long { length held.now ≡ length env.old.items }
    ensures env { env.new.items ≡ taken held.now (numbers_of plan.now.given) env.old.items }
    ensures waits { Wakes plan.now.readers env.old.items env.new.items waits.old.marks waits.new.marks }
    ensures woken { Wakes plan.now.processes env.old.items env.new.items woken.old.marks woken.new.marks }
    ensures moved { Notes env.old.items env.new.items moved.old.marks moved.new.marks }
{
    take(plan, plan.given.as_slice(), held, env, waits, woken, moved);
}

/// The read ports of the memories whose rows changed now wait, and so they do among the processes.
pub fn wake_ports(plan: &Plan, changed: &Agenda, waits: &mut Agenda, woken: &mut Agenda)
    requires tasks { plan.now.jobs ≡ length plan.now.tasks + length plan.now.reads }
    requires processes { length plan.now.reads ≤ plan.now.agents }
    requires waits { length waits.old.marks ≡ plan.now.jobs }
    requires woken { length woken.old.marks ≡ plan.now.agents }
    ensures waits { WakesPorts (length plan.now.tasks) plan.now.reads changed.now.marks waits.old.marks waits.new.marks }
    ensures woken { (n : ℕ) → plan.now.agents ≡ n + length plan.now.reads → WakesPorts n plan.now.reads changed.now.marks woken.old.marks woken.new.marks }
{
    if changed.len() == 0 {
        return;
    }
    mark_ports(plan, plan.jobs - plan.reads.len(), changed, waits);
    mark_ports(plan, plan.agents - plan.reads.len(), changed, woken);
}

// The read ports of the memories whose rows changed now wait, where they are numbered from `first` on.
fn mark_ports(plan: &Plan, first: usize, changed: &Agenda, waits: &mut Agenda)
    requires few { first + length plan.now.reads < 2 ^ 64 }
    requires room { length waits.old.marks ≡ first + length plan.now.reads }
    ensures { WakesPorts first plan.now.reads changed.now.marks waits.old.marks waits.new.marks }
{
    for i in 0..plan.reads.len() {
        let wanted = changed.has(plan.reads.get(i).memory);
        waits.mark_if(wanted, first + i);
    }
}

// One signal takes its number.
fn take_one(
    plan: &Plan,
    s: SigId,
    from: &[Int],
    env: &mut Vec<Int>,
    waits: &mut Agenda,
    woken: &mut Agenda,
    moved: &mut Agenda,
)
    requires tasks { IsTable (length env.old.items) (length waits.old.marks) plan.now.readers }
    requires processes { IsTable (length env.old.items) (length woken.old.marks) plan.now.processes }
    requires moved { length moved.old.marks ≡ length env.old.items }
    requires there { s.0 < length env.old.items }
    requires long { length from.now ≡ length env.old.items }
    ensures env { env.new.items ≡ slice_set env.old.items s.0 (at from.now s.0) }
    ensures waits { Wakes plan.now.readers env.old.items env.new.items waits.old.marks waits.new.marks }
    ensures woken { Wakes plan.now.processes env.old.items env.new.items woken.old.marks woken.new.marks }
    ensures moved { Notes env.old.items env.new.items moved.old.marks moved.new.marks }
{
    let i = s.0 as usize;
    let number = from[i];
    if !differs(env[i], number) {
        return;
    }
    env[i] = number;
    moved.mark(i);
    mark_all(plan.readers.get(i).as_slice(), waits);
    mark_all(plan.processes.get(i).as_slice(), woken);
}

// Lets all these wait.
fn mark_all(list: &[usize], waits: &mut Agenda)
    requires { AllByRecursion (λ k. k < length waits.old.marks) list.now }
    ensures { waits.new.marks ≡ marked list.now waits.old.marks }
{
    for k in list {
        waits.mark(*k);
    }
}

/// Whether two integers differ.
pub fn differs(a: Int, b: Int) -> bool
    ensures other { result ≡ true → a ≢ b }
    ensures same { result ≡ false → a ≡ b }
{
    a != b
}
