// `ClockDomain(..)`, and `m.domains`.
ghost use Rattle.std.specs.Prelude.{◌≡◌, ◌++◌, IfOk, option_map};
ghost use Rattle.std.specs.Option.{option_copied};
ghost use Rattle.py_heap.specs.Heaps.{seen};
ghost use Rattle.clock_domains.specs.Resolved.{bit_signal, domain_prefix};
ghost use Rattle.amh_things.specs.declared.thing.Reading.TheVariants as reading;
ghost use Rattle.elab_store.specs.Seen.{called_of};
ghost use Rattle.elab_store.specs.Held.{held_of, Gives};
ghost use Rattle.elab_components.specs.Puts.{IsPut};
ghost use Rattle.elab_acts.specs.ClockDomains.{without_cd, clock_domain_name, clock_domain, clock_domain_kept, reset_made, clock_made, clock_domain_called, clock_domain_attribute, clock_domain_of, domain_defined, definition_added, has_domain_name, definition_stored, is_definitions_of, definitions_stored};

use crate::domain_arguments::{Sampling, domain_arguments, domain_sampling};
use amh_bits::Int;
use amh_host::{Place, Text};
use amh_things::thing::Reading;
use design_ir::{Domain, Sig, SigId};
use elab_components::interfaces::{NewSignal, copied_text, new_signal};
use elab_components::signals::{call_name, domain_formed};
use elab_store::calls::Called;
use elab_store::domains::{ClockDomain, Definition};
use elab_store::kept::Kept;
use elab_store::names::is_text;
use elab_store::store::{Elaboration, Store};
use lists::NoMemory;
use py_frames::request::{Answer, Cause};
use py_heap::{Frozen, Heap};
use py_values::Val;
use shape_rules::Shape;
use std::alloc::Global;

// ---- the name

// A leading `cd_` is cut off.
fn without_cd(name: &str) -> &str
    ensures { result.now ≡ without_cd name.now }
{
    if let Some(rest) = name.strip_prefix("cd_") {
        return rest;
    }
    name
}

// The name that a clock domain is to have.
fn clock_domain_name<'a>(
    alloc: Global,
    heap: &'a Heap,
    frozen: &'a Frozen,
    call: &'a str,
    given: Option<Val>,
) -> Result<Option<&'a str>, NoMemory>
    ensures { IfOk result (λ name. option_copied name ≡ clock_domain_name (seen frozen.now heap.now) call.now given) }
{
    match given {
        None | Some(Val::None) => domain_formed(alloc, without_cd(call_name(call))),
        Some(Val::Str(x)) => domain_formed(alloc, heap.text(frozen, x)),
        _ => Ok(None),
    }
}

// ---- the clock domain

// One of the signals of a domain, of one bit; none where a count would be passed.
fn new_bit(
    elaboration: &mut Elaboration,
    domain: &str,
    end: &str,
) -> Result<Option<NewSignal>, NoMemory>
    ensures { IfOk result (λ made. IsPut made reading.Plain (bit_signal (domain_prefix domain.now ++ end.now)) (held_of elaboration.old) (held_of elaboration.new)) }
{
    let mut name = Text::new(elaboration.alloc);
    if !is_text(domain, "sync") {
        name.push(domain)?;
        name.push("_")?;
    }
    name.push(end)?;
    let bit = Sig {
        name,
        shape: Shape {
            width: 1,
            signed: false,
        },
        init: Int::of_u128(0),
        reset_less: false,
    };
    new_signal(elaboration, Reading::Plain, bit)
}

fn sig_of(reset: &Option<NewSignal>) -> Option<SigId>
    ensures { result ≡ option_map (λ x. x.sig) reset.now }
{
    match reset {
        Some(new) => Some(new.sig),
        None => None,
    }
}

fn val_of(reset: &Option<NewSignal>) -> Option<Val>
    ensures { result ≡ option_map (λ x. x.val) reset.now }
{
    match reset {
        Some(new) => Some(new.val),
        None => None,
    }
}

// A clock domain of a clock and a reset, where it has one.
fn clock_domain(
    alloc: Global,
    name: &str,
    sampling: Sampling,
    clk: SigId,
    reset: &Option<NewSignal>,
) -> Result<ClockDomain, NoMemory>
    ensures { IfOk result (λ x. x ≡ clock_domain name.now sampling clk reset.now) }
{
    let mut copy = Text::new(alloc);
    copy.push(name)?;
    let domain = Domain {
        name: copy,
        clk,
        rst: sig_of(reset),
        falling: sampling.falling,
        async_reset: sampling.async_reset,
    };
    Ok(ClockDomain {
        domain,
        reset: val_of(reset),
    })
}

// Keeps a clock domain, and gives it.
fn keep_domain(
    elaboration: &mut Elaboration,
    name: &str,
    sampling: Sampling,
    clk: SigId,
    reset: &Option<NewSignal>,
) -> Result<Answer, NoMemory>
    ensures { Gives result elaboration.new (clock_domain_kept (clock_domain name.now sampling clk reset.now) (held_of elaboration.old)) }
{
    let number = elaboration.store.clock_domains().count();
    if number > 4_294_967_295 {
        return Err(NoMemory);
    }
    let x = clock_domain(elaboration.alloc, name, sampling, clk, reset)?;
    elaboration.store.add_clock_domain(x)?;
    elaboration.give_kept(Kept::ClockDomain(number as u32))
}

// The reset behind the clock.
fn make_reset(
    elaboration: &mut Elaboration,
    name: &str,
    sampling: Sampling,
    clk: SigId,
) -> Result<Answer, NoMemory>
    ensures { Gives result elaboration.new (reset_made name.now sampling clk (held_of elaboration.old)) }
{
    match new_bit(elaboration, name, "rst")? {
        Some(reset) => keep_domain(elaboration, name, sampling, clk, &Some(reset)),
        None => elaboration.refuse(Cause::Limit),
    }
}

// The clock, and the reset where there is to be one.
fn make_clock(
    elaboration: &mut Elaboration,
    name: &str,
    sampling: Sampling,
) -> Result<Answer, NoMemory>
    ensures { Gives result elaboration.new (clock_made name.now sampling (held_of elaboration.old)) }
{
    let Some(clock) = new_bit(elaboration, name, "clk")? else {
        return elaboration.refuse(Cause::Limit);
    };
    if sampling.reset_less {
        keep_domain(elaboration, name, sampling, clock.sig, &None)
    } else {
        make_reset(elaboration, name, sampling, clock.sig)
    }
}

/// `ClockDomain(..)`.
pub fn make_clock_domain(
    elaboration: &mut Elaboration,
    heap: &Heap,
    frozen: &Frozen,
    call: &Called,
) -> Result<Answer, NoMemory>
    ensures { Gives result elaboration.new (clock_domain_called (seen frozen.now heap.now) (called_of call.now) (held_of elaboration.old)) }
{
    let Some(args) = domain_arguments(call) else {
        return elaboration.refuse(Cause::Raised);
    };
    let name = clock_domain_name(elaboration.alloc, heap, frozen, call.name, args.name)?;
    let Some(name) = name else {
        return elaboration.refuse(Cause::Raised);
    };
    match domain_sampling(heap, frozen, args) {
        Some(sampling) => make_clock(elaboration, name, sampling),
        None => elaboration.refuse(Cause::Raised),
    }
}

/// An attribute of a clock domain: its reset, or its name.
pub fn clock_domain_attribute(
    elaboration: &mut Elaboration,
    number: u32,
    name: &str,
) -> Result<Answer, NoMemory>
    ensures { Gives result elaboration.new (clock_domain_attribute number name.now (held_of elaboration.old)) }
{
    let Some(x) = elaboration.store.clock_domains().at(number) else {
        return elaboration.refuse(Cause::Raised);
    };
    if is_text(name, "rst") {
        match x.reset {
            Some(v) => elaboration.give(v),
            None => elaboration.refuse(Cause::Raised),
        }
    } else if is_text(name, "name") {
        Ok(Answer::GiveText(copied_text(elaboration.alloc, &x.domain.name)?))
    } else {
        elaboration.refuse(Cause::Raised)
    }
}

// ---- definitions

fn clock_domain_of(kept: Option<Kept>) -> Option<u32>
    ensures { result ≡ clock_domain_of kept }
{
    match kept {
        Some(Kept::ClockDomain(k)) => Some(k),
        _ => None,
    }
}

// A module defines a clock domain, and a value is given.
fn define(
    elaboration: &mut Elaboration,
    of: u32,
    clock_domain: Option<u32>,
    gives: Val,
    place: Place,
) -> Result<Answer, NoMemory>
    ensures { Gives result elaboration.new (domain_defined of clock_domain gives place (held_of elaboration.old)) }
{
    let Some(clock_domain) = clock_domain else {
        return elaboration.refuse(Cause::Raised);
    };
    elaboration.store.define_domain(Definition {
        of,
        clock_domain,
        place,
    })?;
    elaboration.give(gives)
}

/// `m.domains += v`, which gives `m.domains`, the thing `x`, again.
pub fn add_definition(
    elaboration: &mut Elaboration,
    of: u32,
    v: &Val,
    x: &Val,
    place: Place,
) -> Result<Answer, NoMemory>
    ensures { Gives result elaboration.new (definition_added of v.now x.now place (held_of elaboration.old)) }
{
    let clock_domain = clock_domain_of(elaboration.store.kept_of(*v));
    define(elaboration, of, clock_domain, *x, place)
}

// Whether a clock domain has this name.
fn has_domain_name(store: &Store, name: &str, clock_domain: Option<u32>) -> bool
    ensures { result ≡ has_domain_name name.now store.now clock_domain }
{
    let Some(number) = clock_domain else {
        return false;
    };
    match store.clock_domains().at(number) {
        Some(x) => x.domain.name.is(name),
        None => false,
    }
}

/// `m.domains.name = v`.
pub fn store_definition(
    elaboration: &mut Elaboration,
    of: u32,
    name: &str,
    v: &Val,
    place: Place,
) -> Result<Answer, NoMemory>
    ensures { Gives result elaboration.new (definition_stored of name.now v.now place (held_of elaboration.old)) }
{
    let clock_domain = clock_domain_of(elaboration.store.kept_of(*v));
    if has_domain_name(&elaboration.store, name, clock_domain) {
        define(elaboration, of, clock_domain, Val::None, place)
    } else {
        elaboration.refuse(Cause::Raised)
    }
}

/// A value is assigned to `m.domains`: it is `m.domains` again, or it raises.
pub fn store_definitions(
    elaboration: &mut Elaboration,
    of: u32,
    v: &Val,
) -> Result<Answer, NoMemory>
    ensures { Gives result elaboration.new (definitions_stored of v.now (held_of elaboration.old)) }
{
    match elaboration.store.kept_of(*v) {
        Some(Kept::Definitions(m)) if m == of => elaboration.give(Val::None),
        _ => elaboration.refuse(Cause::Raised),
    }
}
