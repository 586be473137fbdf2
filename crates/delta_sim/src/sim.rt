// A simulator, from event to event.
ghost use Rattle.std.specs.Prelude.{◌≡◌, ◌+◌, ◌<◌, ◌≤◌, ◌^◌, ◌++◌, ◌∷◌, [], ℕ, true, false, List, map, length, pos, replicate, slice_index_or, slice_set, fold, IfOk, MatchResult, Ok};
ghost use Rattle.design_ir.specs.declared.event.Event.{Event};
ghost use Rattle.design_ir.specs.Circuits.{at};
ghost use Rattle.design_ir.specs.Legal.{IsLegal};
ghost use Rattle.design_ir.specs.Steps.{clock_low};
ghost use Rattle.design_ir.specs.Values.{num};
ghost use Rattle.comb_graph.specs.Rankings.{IsRanking};
ghost use Rattle.delta_sim.specs.Evaluations.{eval_room};
ghost use Rattle.sim_plans.specs.Settling.{nobody};
ghost use Rattle.delta_sim.specs.Standing.{IsFresh, IsSimOf, Settles, Stands, Tells};

use crate::event::hold;
use crate::first::run_in_order;
use crate::room::Room;
use crate::run::set_number;
use crate::settle::{Counts, settle};
use crate::wake::{take_given, wake_ports};
use amh_bits::Int;
use amh_host::{NoMemory, Steps};
use comb_graph::{Ranks, deltas_are_few};
use design_ir::{Design, DomainId, Event, ExprId, Exprs, SigId};
use sim_plans::agenda::Agenda;
use sim_plans::plan::Plan;
use sim_plans::rows::Rows;
use sim_plans::tables::plan_of;
use std::alloc::Global;
use std::marker::{Brand, Model};
use std::sync::ledger::{Blank, Ledger};

/// The numbers of a design's signals behind a list of events, those that its state holds and those of the settled
/// environment, and the rows of its memories. Beside them stands what is worked out of the design once, and the room in
/// which events are carried out and expressions are evaluated.
#[derive(Drop)]
pub struct Sim {
    held: Vec<Int>,
    rows: Vec<Rows>,
    env: Vec<Int>,
    counts: Counts,
    longest: u32,
    plan: Plan,
    numbers: Vec<Int>,
    next: Vec<Int>,
    waits: Agenda,
    then: Agenda,
    woken: Agenda,
    noted: Vec<Int>,
    changed: Agenda,
    moved: Agenda,
    room: Room,
}

impl Model for Sim {
    ghost use Rattle.delta_sim.specs.Standing.{Simulated};

    ghost Value = { Simulated };

    ghost view = { λ s. record { held = s.held.items; rows = s.rows.items; env = s.env.items; counts = s.counts; longest = s.longest; plan = s.plan; numbers = s.numbers.items; next = s.next.items; waits = s.waits; then = s.then; woken = s.woken; noted = s.noted.items; changed = s.changed; moved = s.moved } };
}

impl Sim {
    /// The design before any event, settled. Each task runs once in the order of the ranks first, so that a long chain is
    /// not gone along signal by signal.
    pub fn start(alloc: Global, design: &Design, ranks: &Ranks) -> Result<Sim, NoMemory>
        requires ranked { IsRanking design.now ranks.now }
        ensures { IfOk result (Stands design.now []) }
    {
        let _ = design.count();
        let _ = design.processes();
        let plan = plan_of(alloc, design)?;
        let held = first_held(alloc, design)?;
        let env = Vec::from_slice(alloc, held.as_slice())?;
        let spare = spare_room(alloc, design, &plan, held.as_slice())?;
        let mut sim = Sim {
            held,
            rows: first_rows(alloc, design)?,
            env,
            counts: Counts { deltas: 0, runs: 0 },
            longest: ranks.longest(),
            plan,
            numbers: spare.numbers,
            next: spare.next,
            waits: spare.waits,
            then: spare.then,
            woken: spare.woken,
            noted: spare.noted,
            changed: spare.changed,
            moved: spare.moved,
            room: Room::new(alloc)?,
        };
        run_in_order(
            alloc,
            design,
            ranks.order().as_slice(),
            &sim.plan,
            sim.rows.as_slice(),
            &mut sim.env,
            &mut sim.numbers,
            &mut sim.next,
        )?;
        first_settled::<Brand>(&mut sim, design, Blank::new(1));
        Ok(sim)
    }

    /// What an event does. It takes no memory and is always Ok, takes one step for each run of a process or of a read port
    /// without a clock, and has at most one delta more than there are bits on the longest chain of needs.
    pub fn apply<L: Ledger>(
        &mut self,
        design: &Design,
        event: &Event,
        steps: &mut Steps<L>,
    ) -> Result<(), NoMemory>
        requires legal { IsLegal design.now event.now }
        requires of_design { IsSimOf design.now self.old }
        ensures ok { result ≡ Ok tt }
        ensures of_design { IsSimOf design.now self.new }
        ensures lives { (events : List Event) → Stands design.now events self.old → MatchResult result (λ _. Stands design.now (events ++ event.now ∷ []) self.new) (λ _. Stands design.now events self.new) }
        ensures counts { Settles design.now self.old self.new }
        ensures few { self.new.counts.deltas ≤ self.new.longest + 1 }
        ensures moved { Tells design.now self.old self.new }
        ensures steps { steps.new ≡ steps.old + self.new.counts.runs }
    {
        let _ = design.count();
        let _ = design.processes();
        deltas_are_few();
        hold(
            design,
            &self.plan,
            event,
            self.env.as_slice(),
            &mut self.numbers,
            &mut self.held,
            &mut self.rows,
            &mut self.noted,
            &mut self.changed,
        );
        self.moved.clear();
        take_given(
            &self.plan,
            self.held.as_slice(),
            &mut self.env,
            &mut self.waits,
            &mut self.woken,
            &mut self.moved,
        );
        wake_ports(&self.plan, &self.changed, &mut self.waits, &mut self.woken);
        self.changed.clear();
        self.counts = settle(
            design,
            &self.plan,
            self.longest as u64 + 2,
            self.held.as_slice(),
            self.rows.as_slice(),
            &mut self.env,
            &mut self.numbers,
            &mut self.next,
            &mut self.waits,
            &mut self.then,
            &mut self.woken,
            &mut self.moved,
            steps,
        );
        let _ = self.moved.items();
        Ok(())
    }

    /// The integer of an expression in the settled environment. The design may have grown by expressions since `start`
    /// (laws.rt). It takes no memory, and no call after it answers otherwise than it would have.
    pub fn eval(&mut self, design: &Design, e: ExprId) -> Int
        requires there { e.0 < length design.now.pool.exprs }
        requires room { e.0 < eval_room }
        requires of_design { IsSimOf design.now self.old }
        ensures value { result ≡ num design.now.pool self.old.env e.0 }
        ensures same { self.new ≡ self.old }
    {
        self.room.eval(design, self.env.as_slice(), e)
    }

    /// The number of a signal.
    pub fn value(&self, sig: SigId) -> Int
        requires { sig.0 < length self.now.env }
        ensures { result ≡ at self.now.env sig.0 }
    {
        self.env[sig.0 as usize]
    }

    /// The numbers of all signals.
    pub fn values(&self) -> &[Int]
        ensures { result.now ≡ self.now.env }
    {
        self.env.as_slice()
    }

    /// The signals whose numbers the last event changed, each once, in no order; some of them may have their old numbers
    /// again.
    pub fn moved(&self) -> &[usize]
        ensures { result.now ≡ self.now.moved.list }
    {
        self.moved.items()
    }

    /// In how many deltas of the last event a process or a read port without a clock ran.
    pub fn deltas(&self) -> u32
        ensures { result ≡ self.now.counts.deltas }
    {
        self.counts.deltas
    }

    /// How often processes and read ports without a clock ran in the deltas of the last event.
    pub fn runs(&self) -> u64
        ensures { result ≡ self.now.counts.runs }
    {
        self.counts.runs
    }
}

// Settles a simulator that has had no event, with a counter of steps of its own.
fn first_settled<L: Ledger>(sim: &mut Sim, design: &Design, blank: Blank)
    requires fresh { IsFresh design.now sim.old }
    requires blank { (blank.name ≡ L.name) × (blank.parts ≡ L.parts) × (0 < L.parts) }
    ensures of_design { IsSimOf design.now sim.new }
    ensures held { sim.new.held ≡ sim.old.held }
    ensures rows { sim.new.rows ≡ sim.old.rows }
{
    let _ = design.count();
    let _ = design.processes();
    let mut steps = Steps::<L>::new(blank);
    wake_all(sim.plan.jobs, &mut sim.waits);
    let _ = settle(
        design,
        &sim.plan,
        sim.longest as u64 + 2,
        sim.held.as_slice(),
        sim.rows.as_slice(),
        &mut sim.env,
        &mut sim.numbers,
        &mut sim.next,
        &mut sim.waits,
        &mut sim.then,
        &mut sim.woken,
        &mut sim.moved,
        &mut steps,
    );
    sim.moved.clear();
}

// The room in which events are carried out: the integers of expressions, what tasks leave, which tasks and processes
// wait, the rows at the addresses of a memory's write ports, and which memories and signals changed.
#[derive(Drop)]
struct Spare {
    numbers: Vec<Int>,
    next: Vec<Int>,
    waits: Agenda,
    then: Agenda,
    woken: Agenda,
    noted: Vec<Int>,
    changed: Agenda,
    moved: Agenda,
}

// Room in which nothing waits. No memory has more than 64 ports.
fn spare_room(alloc: Global, design: &Design, plan: &Plan, held: &[Int]) -> Result<Spare, NoMemory>
    ensures numbers { IfOk result (λ s. s.numbers.items ≡ replicate (length design.now.pool.exprs) (pos 0)) }
    ensures next { IfOk result (λ s. s.next.items ≡ held.now) }
    ensures waits { IfOk result (λ s. s.waits ≡ nobody plan.now.jobs) }
    ensures then { IfOk result (λ s. s.then ≡ nobody plan.now.jobs) }
    ensures woken { IfOk result (λ s. s.woken ≡ nobody plan.now.agents) }
    ensures noted { IfOk result (λ s. 64 ≤ length s.noted.items) }
    ensures changed { IfOk result (λ s. s.changed ≡ nobody (length design.now.memories)) }
    ensures moved { IfOk result (λ s. s.moved ≡ nobody (length design.now.pool.signals)) }
{
    Ok(Spare {
        numbers: zeros(alloc, design.count() as usize)?,
        next: Vec::from_slice(alloc, held)?,
        waits: Agenda::new(alloc, plan.jobs)?,
        then: Agenda::new(alloc, plan.jobs)?,
        woken: Agenda::new(alloc, plan.agents)?,
        noted: zeros(alloc, 64)?,
        changed: Agenda::new(alloc, design.memories().len())?,
        moved: Agenda::new(alloc, design.signals() as usize)?,
    })
}

// So many zeros.
fn zeros(alloc: Global, count: usize) -> Result<Vec<Int>, NoMemory>
    ensures { IfOk result (λ v. v.items ≡ replicate count (pos 0)) }
{
    Ok(vec![in alloc; Int::of_u128(0); count]?)
}

// The rows of each memory before any event.
fn first_rows(alloc: Global, design: &Design) -> Result<Vec<Rows>, NoMemory>
    ensures { IfOk result (λ all. all.items ≡ map (λ m. m.rows) design.now.memories) }
{
    let mut all = Vec::new(alloc);
    for m in design.memories().as_slice() {
        all.push(Rows::copied(alloc, &m.rows)?)?;
    }
    Ok(all)
}

// Lets all of so many wait.
fn wake_all(count: usize, waits: &mut Agenda)
    requires bound { length waits.old.marks ≡ count }
    ensures count { length waits.new.marks ≡ count }
    ensures all { (k : ℕ) → k < count → slice_index_or waits.new.marks k false ≡ true }
{
    for k in 0..count {
        waits.mark(k);
    }
}

// What is held before any event: clocks at 0, each other signal at its init.
fn first_held(alloc: Global, design: &Design) -> Result<Vec<Int>, NoMemory>
    ensures { IfOk result (λ v. v.items ≡ fold clock_low (map (λ x. x.init) design.now.pool.signals) design.now.domains) }
{
    let mut held = inits(alloc, design)?;
    lower_clocks(design, &mut held);
    Ok(held)
}

fn lower_clocks(design: &Design, held: &mut [Int])
    ensures { held.new ≡ fold clock_low held.old design.now.domains }
{
    for d in 0..design.domains() {
        let clk = design.domain(DomainId(d)).clk;
        set_number(held, clk, Int::of_u128(0));
    }
}

// Each signal's init.
fn inits(alloc: Global, design: &Design) -> Result<Vec<Int>, NoMemory>
    ensures { IfOk result (λ v. v.items ≡ map (λ x. x.init) design.now.pool.signals) }
{
    let mut inits = Vec::new(alloc);
    for s in 0..design.signals() {
        inits.push(design.sig_at(SigId(s)).init)?;
    }
    Ok(inits)
}
