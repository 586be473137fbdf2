// Requests of testbenches.
ghost use Rattle.std.specs.Prelude.{◌≡◌, ◌≤◌, IfOk, OnOk, length, option_map, slice_get};
ghost use Rattle.py_heap.specs.Heaps.{seen};
ghost use Rattle.elab_store.specs.declared.kept.BenchPart.TheVariants as part;
ghost use Rattle.elab_store.specs.declared.kept.Kept.TheVariants as kept;
ghost use Rattle.elab_store.specs.Stores.{kept_given};
ghost use Rattle.elab_store.specs.Held.{held_of};
ghost use Rattle.elab_store.specs.Sound.{IsSound};
ghost use Rattle.amh_things.specs.Held.{AreHeld};
ghost use Rattle.amh_values.specs.Acts.{acted, Acts};
ghost use Rattle.elab_eval.specs.Table.{prim};
ghost use Rattle.bench_acts.specs.Context.{part_asked, ticks_at, shown};
ghost use Rattle.bench_acts.specs.Serving.{asked_part, bench_served, is_read, is_served, table_served};
ghost use Rattle.bench_acts.specs.Held.{IsActed, IsBench, ServesOn};

use crate::context::{refused, serve_part, shown};
use crate::sharing::{Before, ShareStop, share};
use crate::targets::InputBits;
use amh_bits::Int;
use amh_things::thing::Reading;
use amh_values::{Acted, act};
use design_ir::{Design, Exprs, Pool};
use elab_eval::answer_request;
use elab_store::kept::{BenchPart, Kept};
use elab_store::simulation::{Sample, Wait};
use elab_store::store::{Elaboration, Store};
use expr_index::Known;
use lists::NoMemory;
use py_frames::request::{Act, Answer, Cause, Request};
use py_heap::Frozen;
use py_machine::Machine;
use py_values::{Hw, Val};
use std::alloc::Global;

/// A design, all that elaboration holds over the same pool, and which expressions there are.
#[derive(Drop)]
pub struct Bench {
    pub design: Design,
    pub held: Elaboration,
    pub known: Known,
}

/// What a request of a testbench comes to.
#[derive(Drop)]
pub enum Served {
    /// It is answered.
    Answer(Answer),
    /// The answer is the number of this now.
    Get(Sample),
    /// Bits of an input take a number.
    Set { bits: InputBits, value: Int },
    /// It waits for what has this number.
    Wait(u32),
}

impl Bench {
    /// Over a design and what elaboration holds.
    pub fn new(alloc: Global, design: Design, store: Store) -> Result<Bench, NoMemory>
        requires sound { IsSound (record { pool = design.pool; store = store }) }
        requires few { length design.pool.exprs ≤ 262144 }
        ensures bench { IfOk result IsBench }
        ensures design { IfOk result (λ b. b.design ≡ design) }
        ensures store { IfOk result (λ b. b.held.store ≡ store) }
    {
        let pool = design.copied_pool(alloc)?;
        let known = Known::of(alloc, &design)?;
        Ok(Bench {
            design,
            held: Elaboration { alloc, pool, store },
            known,
        })
    }

    /// The thing that testbenches are called with.
    #[tactic(auto, using(crate::proofs::SoundLaws::part_sound))]
    pub fn context(&mut self) -> Result<Hw, NoMemory>
        requires { IsBench self.old }
        ensures given { IfOk result (λ hw. (hw ≡ record { 0 = length self.old.held.store.things }) × (held_of self.new.held ≡ (kept_given (kept.OfBench part.Context) (held_of self.old.held)).held)) }
        ensures design { IfOk result (λ _. self.new.design ≡ self.old.design) }
        ensures bench { IfOk result (λ _. IsBench self.new) }
    {
        match self.held.store.keep(Kept::OfBench(BenchPart::Context))? {
            Val::Hw(hw) => Ok(hw),
            _ => unreachable!(),
        }
    }

    /// What is waited for.
    pub fn wait(&self, k: u32) -> Option<&Wait>
        ensures { option_map (λ w. w.now) result ≡ ticks_at (held_of self.now.held) k }
    {
        self.held.store.simulation().waits().get(k as usize)
    }

    /// What a number is shown as.
    pub fn shown(&self, reading: Reading, n: Int) -> Val
        ensures { result ≡ shown (held_of self.now.held) reading n }
    {
        shown(self, reading, n)
    }
}

/// What a request of a testbench comes to. The design changes by expressions at the end of its pool alone.
pub fn serve(
    bench: &mut Bench,
    machine: &Machine,
    frozen: &Frozen,
    request: &Request,
) -> Result<Served, NoMemory>
    requires { IsBench bench.old }
    ensures { ServesOn result bench.old bench.new (bench_served (seen frozen.now machine.now.going.state.heap) bench.old.design request.now (held_of bench.old.held)) }
{
    match part_asked(bench, request) {
        Some(part) => answer_part(bench, machine, frozen, part, request),
        None => answer_shared(bench, machine, frozen, request),
    }
}

// By what is asked of `ctx`.
#[tactic(auto, using(crate::proofs::ServeLaws::serves_on))]
fn answer_part(
    bench: &mut Bench,
    machine: &Machine,
    frozen: &Frozen,
    part: BenchPart,
    request: &Request,
) -> Result<Served, NoMemory>
    requires { IsBench bench.old }
    ensures { ServesOn result bench.old bench.new (part_asked (seen frozen.now machine.now.going.state.heap) bench.old.design part request.now request.now.act (held_of bench.old.held)) }
{
    serve_part(bench, &machine.going.state.heap, frozen, part, request)
}

// What of `ctx` is asked.
fn part_asked(bench: &Bench, request: &Request) -> Option<BenchPart>
    ensures { result ≡ asked_part (held_of bench.now.held) request.now.vals }
{
    match request.vals.as_slice() {
        [v, ..] => match bench.held.store.kept_of(*v) {
            Some(Kept::OfBench(part)) => Some(part),
            _ => None,
        },
        [] => None,
    }
}

// By the tables of elaboration. What makes or changes hardware is refused.
fn answer_shared(
    bench: &mut Bench,
    machine: &Machine,
    frozen: &Frozen,
    request: &Request,
) -> Result<Served, NoMemory>
    requires { IsBench bench.old }
    ensures { ServesOn result bench.old bench.new (table_served (is_served request.now.act (acted (seen frozen.now machine.now.going.state.heap) bench.old.held.pool bench.old.held.store.things request.now)) (held_of bench.old.held) (prim None (seen frozen.now machine.now.going.state.heap) (held_of bench.old.held) request.now)) }
{
    let before = before_act(&bench.held);
    let Some(answer) = answer_held(&mut bench.held, machine, frozen, request)? else {
        return Ok(refused());
    };
    match share(&mut bench.held, &mut bench.design, &mut bench.known, before) {
        Ok(()) => Ok(Served::Answer(answer)),
        Err(ShareStop::Limit) => Ok(Served::Answer(Answer::Refuse(Cause::Limit))),
        Err(ShareStop::NoMemory) => Err(NoMemory),
    }
}

// How much is held.
fn before_act(held: &Elaboration) -> Before
    ensures exprs { result.exprs ≡ length held.now.pool.exprs }
    ensures things { result.things ≡ length held.now.store.things }
    ensures kept { result.kept ≡ length held.now.store.kept }
{
    Before {
        exprs: held.pool.count(),
        things: held.store.things.len(),
        kept: held.store.kept.len(),
    }
}

// The answer of the table of shapes and values, or to what is read; none to anything else.
fn answer_held(
    held: &mut Elaboration,
    machine: &Machine,
    frozen: &Frozen,
    request: &Request,
) -> Result<Option<Answer>, NoMemory>
    requires { IsSound (held_of held.old) }
    ensures { IfOk result (λ a. IsActed (is_served request.now.act (acted (seen frozen.now machine.now.going.state.heap) held.old.pool held.old.store.things request.now)) a (held_of held.old) (held_of held.new) (prim None (seen frozen.now machine.now.going.state.heap) (held_of held.old) request.now)) }
{
    match plan_answer(
        &mut held.store,
        held.alloc,
        &mut held.pool,
        machine,
        frozen,
        request,
    )? {
        Acted::Answer(answer) => Ok(Some(answer)),
        Acted::Other => {
            if !is_read(request.act) {
                return Ok(None);
            }
            match answer_request(held, machine, frozen, None, request) {
                Ok(answer) => Ok(Some(answer)),
                Err(stop) => Err(stop),
            }
        }
    }
}

// The table of shapes and values.
fn plan_answer(
    store: &mut Store,
    alloc: Global,
    pool: &mut Pool,
    machine: &Machine,
    frozen: &Frozen,
    request: &Request,
) -> Result<Acted, NoMemory>
    requires { AreHeld (length pool.old.exprs) store.old.things }
    ensures acts { IfOk result (λ a. Acts (acted (seen frozen.now machine.now.going.state.heap) pool.old store.old.things request.now) a pool.old pool.new store.old.things store.new.things) }
    ensures held { OnOk result (AreHeld (length pool.new.exprs) store.new.things) }
    ensures rest { OnOk result (store.new ≡ record store.old { things = store.new.things }) }
{
    act(alloc, pool, &mut store.things, machine, frozen, request)
}

// Names that are imported, attributes and indices are read.
fn is_read(act: Act) -> bool
    ensures { result ≡ is_read act }
{
    match act {
        Act::Import | Act::Attribute | Act::Index => true,
        _ => false,
    }
}
