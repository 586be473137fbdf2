// `ctx` and what comes of its calls.
ghost use Rattle.std.specs.Prelude.{◌≡◌, ◌∷◌, [], Ok, OnOk, IfSome, map, string_bytes, slice_get};
ghost use Rattle.py_heap.specs.Heaps.{seen};
ghost use Rattle.elab_store.specs.Held.{held_of};
ghost use Rattle.elab_store.specs.Seen.{called_of};
ghost use Rattle.elab_store.specs.Sound.{IsSample, IsTickEnd, IsWait};
ghost use Rattle.std.specs.List.{AllByRecursion};
ghost use Rattle.bench_acts.specs.Context.{raises, part_given, part_asked, part_attribute, serving, call_named, method_named, is_open_tick, ticks_at, part_called, get_called, read_of, set_called, tick_called, wait_given, delay_called, tick_with, sample_called, until_called, repeat_called, shown};
ghost use Rattle.bench_acts.specs.Held.{IsBench, Serves};
ghost use Rattle.bench_acts.specs.declared.serving.Served.TheVariants as served;
ghost use Rattle.py_frames.specs.declared.request.Answer.TheVariants as answer;
ghost use Rattle.py_frames.specs.declared.request.Cause.TheVariants.{Raised};
ghost use Rattle.py_values.specs.declared.val.Val.TheVariants as val;

use crate::arguments::{domain_name, number_set, one_or_none, only_placed, sampled};
use crate::serving::{Bench, Served};
use crate::targets::input_bits;
use amh_things::thing::Reading;
use amh_values::counted;
use elab_acts::simulators::time_meant;
use elab_store::calls::Called;
use elab_store::kept::{BenchPart, Kept};
use elab_store::names::is_text;
use elab_store::simulation::{Sample, Tick, TickEnd, Wait};
use lists::{Items, NoMemory};
use py_frames::request::{Act, Answer, Cause, Request};
use py_heap::{Frozen, Heap};
use py_values::Val;

/// What is asked of `ctx`, or of what comes of it.
pub(crate) fn serve_part(
    bench: &mut Bench,
    heap: &Heap,
    frozen: &Frozen,
    part: BenchPart,
    request: &Request,
) -> Result<Served, NoMemory>
    requires { IsBench bench.old }
    ensures served { Serves result bench.old bench.new (part_asked (seen frozen.now heap.now) bench.old.design part request.now request.now.act (held_of bench.old.held)) }
    ensures bench { OnOk result (IsBench bench.new) }
{
    match request.act {
        Act::Attribute => match request.names.items() {
            [name] => attribute(bench, part, name.as_str()),
            _ => Ok(refused()),
        },
        Act::CallThing => call(bench, heap, frozen, part, &Called::of(request)),
        Act::Await => match part {
            BenchPart::Wait(k) => Ok(Served::Wait(k)),
            _ => Ok(refused()),
        },
        _ => Ok(refused()),
    }
}

pub(crate) fn refused() -> Served
    ensures { result ≡ served.Answer (answer.Refuse Raised) }
{
    Served::Answer(Answer::Refuse(Cause::Raised))
}

#[tactic(auto, using(crate::proofs::SoundLaws::part_sound))]
fn given(bench: &mut Bench, part: BenchPart) -> Result<Served, NoMemory>
    requires { IsBench bench.old }
    ensures served { Serves result bench.old bench.new (part_given part (held_of bench.old.held)) }
    ensures bench { OnOk result (IsBench bench.new) }
{
    let v = bench.held.store.keep(Kept::OfBench(part))?;
    Ok(Served::Answer(Answer::Give(v)))
}

// ---- attributes, which are there to be called

fn attribute(bench: &mut Bench, part: BenchPart, name: &str) -> Result<Served, NoMemory>
    requires { IsBench bench.old }
    ensures served { Serves result bench.old bench.new (part_attribute part (name.now ∷ []) (held_of bench.old.held)) }
    ensures bench { OnOk result (IsBench bench.new) }
{
    let named = match part {
        BenchPart::Context => call_named(name),
        BenchPart::Wait(k) if is_open_tick(bench, k) => method_named(k, name),
        _ => None,
    };
    match named {
        Some(part) => given(bench, part),
        None => Ok(refused()),
    }
}

fn call_named(name: &str) -> Option<BenchPart>
    ensures { result ≡ call_named name.now }
{
    if is_text(name, "get") {
        Some(BenchPart::Get)
    } else if is_text(name, "set") {
        Some(BenchPart::Set)
    } else if is_text(name, "tick") {
        Some(BenchPart::Tick)
    } else if is_text(name, "delay") {
        Some(BenchPart::Delay)
    } else {
        None
    }
}

fn method_named(k: u32, name: &str) -> Option<BenchPart>
    ensures { result ≡ method_named k name.now }
{
    if is_text(name, "sample") {
        Some(BenchPart::Sample(k))
    } else if is_text(name, "until") {
        Some(BenchPart::Until(k))
    } else if is_text(name, "repeat") {
        Some(BenchPart::Repeat(k))
    } else {
        None
    }
}

// Whether it is a tick that is waited for once.
fn is_open_tick(bench: &Bench, k: u32) -> bool
    ensures { result ≡ is_open_tick (ticks_at (held_of bench.now.held) k) }
{
    match bench.held.store.simulation().waits().get(k as usize) {
        Some(Wait::Tick(tick)) => tick.end == TickEnd::Once,
        _ => false,
    }
}

// ---- calls

fn call(
    bench: &mut Bench,
    heap: &Heap,
    frozen: &Frozen,
    part: BenchPart,
    call: &Called,
) -> Result<Served, NoMemory>
    requires { IsBench bench.old }
    ensures served { Serves result bench.old bench.new (part_called (seen frozen.now heap.now) bench.old.design part (called_of call.now) (held_of bench.old.held)) }
    ensures bench { OnOk result (IsBench bench.new) }
{
    match part {
        BenchPart::Get => Ok(got(bench, call)),
        BenchPart::Set => Ok(set(bench, call)),
        BenchPart::Tick => tick(bench, heap, frozen, call),
        BenchPart::Delay => delay(bench, call),
        BenchPart::Sample(k) => sample(bench, k, call),
        BenchPart::Until(k) => until(bench, k, call),
        BenchPart::Repeat(k) => repeat(bench, k, call),
        BenchPart::Context | BenchPart::Wait(_) => Ok(refused()),
    }
}

// `ctx.get(e)`.
fn got(bench: &Bench, call: &Called) -> Served
    requires { IsBench bench.now }
    ensures { get_called (called_of call.now) (held_of bench.now.held) ≡ serving result (held_of bench.now.held) }
{
    let Some(v) = only_placed(call) else {
        return refused();
    };
    match usable(bench, &v) {
        Some(sample) => Served::Get(sample),
        None => refused(),
    }
}

// What is sampled, where no reset stands in it that no module holds.
fn usable(bench: &Bench, v: &Val) -> Option<Sample>
    requires { IsBench bench.now }
    ensures value { result ≡ read_of (held_of bench.now.held) v.now }
    ensures sound { IfSome result (IsSample bench.now.held.pool) }
{
    let sample = sampled(&bench.held, v)?;
    match sample {
        Sample::Value { e, .. } if bench.known.is_reset_in(e) => None,
        _ => Some(sample),
    }
}

// `ctx.set(x, v)`.
fn set(bench: &Bench, call: &Called) -> Served
    requires { IsBench bench.now }
    ensures { set_called bench.now.design (called_of call.now) (held_of bench.now.held) ≡ serving result (held_of bench.now.held) }
{
    let ([x, v], true) = (call.placed, call.keywords.is_empty()) else {
        return refused();
    };
    let Val::Hw(hw) = x else {
        return refused();
    };
    let Some(e) = bench.held.store.things.expr(*hw) else {
        return refused();
    };
    let Some(bits) = input_bits(&bench.design, e) else {
        return refused();
    };
    match number_set(&bench.held, &bench.design, v) {
        Some(value) => Served::Set { bits, value },
        None => refused(),
    }
}

// `ctx.tick(domain)`.
fn tick(bench: &mut Bench, heap: &Heap, frozen: &Frozen, call: &Called) -> Result<Served, NoMemory>
    requires { IsBench bench.old }
    ensures served { Serves result bench.old bench.new (tick_called (seen frozen.now heap.now) bench.old.design (called_of call.now) (held_of bench.old.held)) }
    ensures bench { OnOk result (IsBench bench.new) }
{
    let Some(given) = one_or_none(call, "domain") else {
        return Ok(refused());
    };
    let Some(name) = domain_name(heap, frozen, given) else {
        return Ok(refused());
    };
    let Some(domain) = bench.design.domain_named(name) else {
        return Ok(refused());
    };
    let samples = Items::new(bench.held.alloc);
    wait_for(
        bench,
        Wait::Tick(Tick {
            domain,
            samples,
            end: TickEnd::Once,
        }),
    )
}

#[tactic(auto, using(crate::proofs::SoundLaws::wait_sound))]
fn wait_for(bench: &mut Bench, wait: Wait) -> Result<Served, NoMemory>
    requires bench { IsBench bench.old }
    requires wait { IsWait bench.old.held.pool wait }
    ensures served { Serves result bench.old bench.new (wait_given wait (held_of bench.old.held)) }
    ensures bench { OnOk result (IsBench bench.new) }
{
    let k = bench.held.store.add_wait(wait)?;
    given(bench, BenchPart::Wait(k))
}

// `ctx.delay(t)`.
fn delay(bench: &mut Bench, call: &Called) -> Result<Served, NoMemory>
    requires { IsBench bench.old }
    ensures served { Serves result bench.old bench.new (delay_called (called_of call.now) (held_of bench.old.held)) }
    ensures bench { OnOk result (IsBench bench.new) }
{
    let Some(v) = only_placed(call) else {
        return Ok(refused());
    };
    match time_meant(v) {
        Some(t) => wait_for(bench, Wait::Delay(t)),
        None => Ok(refused()),
    }
}

// ---- methods of a tick

// The ticks of a number with another end, and with more samples.
fn tick_with(bench: &mut Bench, k: u32, more: &[Sample], end: TickEnd) -> Result<Served, NoMemory>
    requires bench { IsBench bench.old }
    requires more { AllByRecursion (IsSample bench.old.held.pool) more.now }
    requires end { IsTickEnd bench.old.held.pool end }
    ensures served { Serves result bench.old bench.new (tick_with (ticks_at (held_of bench.old.held) k) more.now end (held_of bench.old.held)) }
    ensures bench { OnOk result (IsBench bench.new) }
{
    let mut samples = Items::new(bench.held.alloc);
    let Some(Wait::Tick(tick)) = bench.held.store.simulation().waits().get(k as usize) else {
        return Ok(refused());
    };
    for x in tick.samples.as_slice() {
        samples.push(*x)?;
    }
    for y in more {
        samples.push(*y)?;
    }
    let domain = tick.domain;
    wait_for(
        bench,
        Wait::Tick(Tick {
            domain,
            samples,
            end,
        }),
    )
}

// `.sample(e, ..)`.
fn sample(bench: &mut Bench, k: u32, call: &Called) -> Result<Served, NoMemory>
    requires { IsBench bench.old }
    ensures served { Serves result bench.old bench.new (sample_called k (called_of call.now) (held_of bench.old.held)) }
    ensures bench { OnOk result (IsBench bench.new) }
{
    if !call.keywords.is_empty() {
        return Ok(refused());
    }
    let mut more = Vec::new(bench.held.alloc);
    for v in call.placed {
        match usable(bench, v) {
            Some(x) => more.push(x)?,
            None => return Ok(refused()),
        }
    }
    tick_with(bench, k, more.as_slice(), TickEnd::Once)
}

// `.until(c)`.
fn until(bench: &mut Bench, k: u32, call: &Called) -> Result<Served, NoMemory>
    requires { IsBench bench.old }
    ensures served { Serves result bench.old bench.new (until_called k (called_of call.now) (held_of bench.old.held)) }
    ensures bench { OnOk result (IsBench bench.new) }
{
    let Some(v) = only_placed(call) else {
        return Ok(refused());
    };
    match usable(bench, &v) {
        Some(c) => tick_with(bench, k, &[], TickEnd::Until(c)),
        None => Ok(refused()),
    }
}

// `.repeat(n)`.
fn repeat(bench: &mut Bench, k: u32, call: &Called) -> Result<Served, NoMemory>
    requires { IsBench bench.old }
    ensures served { Serves result bench.old bench.new (repeat_called k (called_of call.now) (held_of bench.old.held)) }
    ensures bench { OnOk result (IsBench bench.new) }
{
    let Some(v) = only_placed(call) else {
        return Ok(refused());
    };
    match counted(&bench.held.store.things, &v) {
        Some(n) if !n.negative && n.size > 0 => tick_with(bench, k, &[], TickEnd::Times(n.size)),
        _ => Ok(refused()),
    }
}

/// What a number is shown as where bits are read so: the member that has it, where there is one.
pub(crate) fn shown(bench: &Bench, reading: Reading, n: amh_bits::Int) -> Val
    ensures { result ≡ shown (held_of bench.now.held) reading n }
{
    match reading {
        Reading::Numbered(of) => match bench.held.store.things.member(of, n) {
            Some(hw) => Val::Hw(hw),
            None => int_val(n),
        },
        _ => int_val(n),
    }
}

fn int_val(n: amh_bits::Int) -> Val
    ensures { result ≡ val.Int n }
{
    Val::Int(py_values::Number::of(n))
}
