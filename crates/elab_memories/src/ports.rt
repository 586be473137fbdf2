// Ports of memories that are made.
ghost use Rattle.std.specs.Prelude.{◌≡◌, ◌≢◌, ◌≤◌, ◌<◌, ◌+◌, ◌^◌, ◌∷◌, [], length, map, drop, string_bytes, slice_get, IfOk, None, Some, codes};
ghost use Rattle.std.specs.Option.{option_copied};
ghost use Rattle.py_heap.specs.Heaps.{seen};
ghost use Rattle.elab_store.specs.Seen.{called_of};
ghost use Rattle.memory_ports.specs.Calls.{where_clocked};
ghost use Rattle.elab_store.specs.Held.{held_of, Gives};
ghost use Rattle.elab_memories.specs.Ports.{no_arguments, once, with_keyword, with_keywords, port_arguments, domain_formed, domain_given, granule_bits, granule_in, is_none, granule_given, write_number, write_numbers, transparent_given, cause_of, made_given, write_ported, write_put, read_domain, read_ported, read_put, port_called};

use amh_bits::Int;
use amh_host::Numbers;
use amh_things::operand::number_of;
use amh_things::thing::Reading;
use design_ir::{ExprId, Exprs, Pool};
use elab_store::calls::Called;
use elab_store::kept::{Kept, MemoryMethod, MemoryPort};
use elab_store::names::is_text;
use elab_store::store::{Elaboration, Store};
use identifiers::is_identifier;
use lists::NoMemory;
use memory_ports::{MemStop, MemorySpec};
use py_frames::request::{Answer, Cause};
use py_heap::{Frozen, Heap};
use py_values::Val;
use std::alloc::Global;

/// The arguments of a port, where they are given: the domain, and `granularity` of a write port or `transparent_for` of a read port.
#[derive(Clone, Copy, PartialEq, Eq, Drop)]
pub struct PortArguments {
    pub domain: Option<Val>,
    pub other: Option<Val>,
}

// An argument is given once.
fn once(before: Option<Val>, args: PortArguments) -> Option<PortArguments>
    ensures { result ≡ once before args }
{
    match before {
        None => Some(args),
        Some(_) => None,
    }
}

fn with_keyword(other: &str, name: &str, v: Val, args: PortArguments) -> Option<PortArguments>
    ensures { result ≡ with_keyword other.now name.now v args }
{
    let given = Some(v);
    if is_text(name, "domain") {
        let more = PortArguments {
            domain: given,
            ..args
        };
        once(args.domain, more)
    } else if is_text(name, other) {
        let more = PortArguments {
            other: given,
            ..args
        };
        once(args.other, more)
    } else {
        None
    }
}

// Arguments by keyword, each with its value.
fn with_keywords(
    other: &str,
    keywords: &[String],
    vals: &[Val],
    args: PortArguments,
) -> Option<PortArguments>
    ensures { result ≡ with_keywords other.now (map string_bytes keywords.now) vals.now args }
{
    let mut args = args;
    for i in 0..keywords.len() {
        if i >= vals.len() {
            return None;
        }
        args = with_keyword(other, keywords[i].as_str(), vals[i], args)?;
    }
    Some(args)
}

// All of them are given by keyword.
fn port_arguments(other: &str, call: &Called) -> Option<PortArguments>
    ensures { result ≡ port_arguments other.now (called_of call.now) }
{
    let none = PortArguments {
        domain: None,
        other: None,
    };
    match call.placed {
        [] => with_keywords(other, call.keywords, call.keyword_vals, none),
        _ => None,
    }
}

// The name of a domain, where it is an identifier.
fn domain_formed(alloc: Global, name: &str) -> Result<Option<&str>, NoMemory>
    ensures { IfOk result (λ formed. option_copied formed ≡ domain_formed name.now) }
{
    if is_identifier(alloc, name)? {
        Ok(Some(name))
    } else {
        Ok(None)
    }
}

// The name of the domain that is given.
fn domain_given<'a>(
    alloc: Global,
    heap: &'a Heap,
    frozen: &'a Frozen,
    given: Option<Val>,
) -> Result<Option<&'a str>, NoMemory>
    ensures { IfOk result (λ name. option_copied name ≡ domain_given (seen frozen.now heap.now) given) }
{
    match given {
        None => Ok(Some("sync")),
        Some(Val::Str(x)) => domain_formed(alloc, heap.text(frozen, x)),
        Some(_) => Ok(None),
    }
}

// ---- what else is given

fn granule_bits(n: u128) -> u8
    ensures { result ≡ granule_bits n }
{
    if n <= 255 { n as u8 } else { 255 }
}

fn granule_in(n: Option<Int>) -> Option<Option<u8>>
    ensures { result ≡ granule_in n }
{
    match n {
        Some(n) if !n.negative => Some(Some(granule_bits(n.size))),
        _ => None,
    }
}

fn is_none(v: &Val) -> bool
    ensures { result ≡ is_none v.now }
{
    match v {
        Val::None => true,
        _ => false,
    }
}

fn granule_given(given: Option<Val>) -> Option<Option<u8>>
    ensures { result ≡ granule_given given }
{
    let Some(v) = given else {
        return Some(None);
    };
    if is_none(&v) {
        Some(None)
    } else {
        granule_in(number_of(&v))
    }
}

// The number of a write port of this memory.
fn write_number(of: u32, kept: Option<Kept>) -> Option<u32>
    ensures { result ≡ write_number of kept }
{
    match kept {
        Some(Kept::MemoryPort(port)) if port.is_write && port.of == of => Some(port.number),
        _ => None,
    }
}

// The numbers of write ports of this memory.
fn write_numbers(
    store: &Store,
    alloc: Global,
    of: u32,
    vals: &[Val],
) -> Result<Option<Numbers>, NoMemory>
    ensures { IfOk result (λ ns. ns ≡ write_numbers store.now of vals.now) }
{
    let mut numbers = Numbers::new(alloc);
    for i in 0..vals.len() {
        match write_number(of, store.kept_of(vals[i])) {
            Some(n) => numbers.push(n)?,
            None => return Ok(None),
        }
    }
    Ok(Some(numbers))
}

fn transparent_given(
    store: &Store,
    alloc: Global,
    heap: &Heap,
    frozen: &Frozen,
    of: u32,
    given: Option<Val>,
) -> Result<Option<Numbers>, NoMemory>
    ensures { IfOk result (λ ns. ns ≡ transparent_given (seen frozen.now heap.now) store.now of given) }
{
    match given {
        None => Ok(Some(Numbers::new(alloc))),
        Some(Val::List(o)) => write_numbers(store, alloc, of, heap.row(frozen, o)),
        Some(Val::Tuple(o)) => write_numbers(store, alloc, of, heap.row(frozen, o)),
        Some(_) => Ok(None),
    }
}

// ---- ports

// Why there is no port, as a program is told: want of memory is no answer.
fn told(stop: MemStop) -> Result<Cause, NoMemory>
    ensures { IfOk result (λ why. (why ≡ cause_of stop) × (stop ≢ MemStop.NoMemory)) }
{
    match stop {
        MemStop::NoMemory => Err(NoMemory),
        MemStop::Limit => Ok(Cause::Limit),
        _ => Ok(Cause::Raised),
    }
}

// A write port of a memory, by the memory's number.
fn add_write(
    spec: &mut MemorySpec,
    pool: &mut Pool,
    of: u32,
    reading: Reading,
    domain: &str,
    granule: Option<u8>,
) -> Result<Result<MemoryPort, Cause>, NoMemory>
    ensures { IfOk result (λ made. write_ported of spec.old reading domain.now granule pool.old ≡ record { made = made; pool = pool.new; spec = spec.new }) }
{
    spec.known();
    let number = spec.so_far().writes.len();
    let first = pool.count();
    match spec.add_write(pool, domain, granule) {
        Ok(_) => Ok(Ok(MemoryPort {
            of,
            is_write: true,
            number: number as u32,
            addr: ExprId(first),
            word: ExprId(first + 1),
            enable: Some(ExprId(first + 2)),
            reading,
        })),
        Err(stop) => Ok(Err(told(stop)?)),
    }
}

// The memory of this number gets a write port.
fn put_write(
    store: &mut Store,
    pool: &mut Pool,
    of: u32,
    domain: &str,
    granule: Option<u8>,
) -> Result<Result<MemoryPort, Cause>, NoMemory>
    ensures { IfOk result (λ made. write_put of (slice_get store.old.memories of) (Some domain.now) (Some granule) (record { pool = pool.old; store = store.old }) ≡ made_given made (record { pool = pool.new; store = store.new })) }
{
    if of as usize >= store.memories.len() {
        return Ok(Err(Cause::Raised));
    }
    let memory = &mut store.memories[of as usize];
    let reading = memory.reading;
    let made = add_write(&mut memory.spec, pool, of, reading, domain, granule)?;
    Ok(made)
}

// The enable of a read port, which has one exactly where it has a clock.
fn enable_of(domain: Option<&str>, first: u32) -> Option<ExprId>
    requires { first < 2 ^ 31 }
    ensures { result ≡ where_clocked (option_copied domain.entry) (record { 0 = first + 2 }) }
{
    match domain {
        None => None,
        Some(_) => Some(ExprId(first + 2)),
    }
}

// A read port of a memory, by the memory's number.
fn add_read(
    spec: &mut MemorySpec,
    pool: &mut Pool,
    of: u32,
    reading: Reading,
    domain: Option<&str>,
    through: &Numbers,
) -> Result<Result<MemoryPort, Cause>, NoMemory>
    requires { option_copied domain ≢ Some (codes "comb") }
    ensures { IfOk result (λ made. read_ported of spec.old reading (option_copied domain.entry) through.now pool.old ≡ record { made = made; pool = pool.new; spec = spec.new }) }
{
    spec.known();
    let number = spec.so_far().reads.len();
    let first = pool.count();
    match spec.add_read(pool, domain, through) {
        Ok(_) => Ok(Ok(MemoryPort {
            of,
            is_write: false,
            number: number as u32,
            addr: ExprId(first),
            word: ExprId(first + 1),
            enable: enable_of(domain, first),
            reading,
        })),
        Err(stop) => Ok(Err(told(stop)?)),
    }
}

// `comb` reads at once.
fn read_domain(domain: &str) -> Option<&str>
    ensures domain { option_copied result ≡ read_domain domain.now }
    ensures clock { option_copied result ≢ Some (codes "comb") }
{
    if is_text(domain, "comb") {
        None
    } else {
        Some(domain)
    }
}

// The memory of this number gets a read port.
fn put_read(
    store: &mut Store,
    pool: &mut Pool,
    of: u32,
    domain: &str,
    through: &Numbers,
) -> Result<Result<MemoryPort, Cause>, NoMemory>
    ensures { IfOk result (λ made. read_put of (slice_get store.old.memories of) (Some domain.now) (Some through.now) (record { pool = pool.old; store = store.old }) ≡ made_given made (record { pool = pool.new; store = store.new })) }
{
    if of as usize >= store.memories.len() {
        return Ok(Err(Cause::Raised));
    }
    let clock = read_domain(domain);
    let memory = &mut store.memories[of as usize];
    let reading = memory.reading;
    let made = add_read(&mut memory.spec, pool, of, reading, clock, through)?;
    Ok(made)
}

// A port, or why there is none.
fn give_port(
    elaboration: &mut Elaboration,
    made: Result<MemoryPort, Cause>,
) -> Result<Answer, NoMemory>
    ensures { Gives result elaboration.new (made_given made (held_of elaboration.old)) }
{
    match made {
        Ok(port) => elaboration.give_kept(Kept::MemoryPort(port)),
        Err(why) => elaboration.refuse(why),
    }
}

// `write_port` of a memory.
fn call_write(
    elaboration: &mut Elaboration,
    heap: &Heap,
    frozen: &Frozen,
    of: u32,
    call: &Called,
) -> Result<Answer, NoMemory>
    ensures { Gives result elaboration.new (port_called (seen frozen.now heap.now) of MemoryMethod.WritePort (called_of call.now) (held_of elaboration.old)) }
{
    let Some(args) = port_arguments("granularity", call) else {
        return elaboration.refuse(Cause::Raised);
    };
    let Some(domain) = domain_given(elaboration.alloc, heap, frozen, args.domain)? else {
        return elaboration.refuse(Cause::Raised);
    };
    let Some(granule) = granule_given(args.other) else {
        return elaboration.refuse(Cause::Raised);
    };
    let made = put_write(
        &mut elaboration.store,
        &mut elaboration.pool,
        of,
        domain,
        granule,
    )?;
    give_port(elaboration, made)
}

// `read_port` of a memory.
fn call_read(
    elaboration: &mut Elaboration,
    heap: &Heap,
    frozen: &Frozen,
    of: u32,
    call: &Called,
) -> Result<Answer, NoMemory>
    ensures { Gives result elaboration.new (port_called (seen frozen.now heap.now) of MemoryMethod.ReadPort (called_of call.now) (held_of elaboration.old)) }
{
    let alloc = elaboration.alloc;
    let Some(args) = port_arguments("transparent_for", call) else {
        return elaboration.refuse(Cause::Raised);
    };
    let Some(domain) = domain_given(alloc, heap, frozen, args.domain)? else {
        return elaboration.refuse(Cause::Raised);
    };
    let Some(through) = transparent_given(&elaboration.store, alloc, heap, frozen, of, args.other)?
    else {
        return elaboration.refuse(Cause::Raised);
    };
    let made = put_read(
        &mut elaboration.store,
        &mut elaboration.pool,
        of,
        domain,
        &through,
    )?;
    give_port(elaboration, made)
}

/// `write_port` and `read_port` of a memory, by its number.
pub fn call_port(
    elaboration: &mut Elaboration,
    heap: &Heap,
    frozen: &Frozen,
    of: u32,
    method: MemoryMethod,
    call: &Called,
) -> Result<Answer, NoMemory>
    ensures { Gives result elaboration.new (port_called (seen frozen.now heap.now) of method (called_of call.now) (held_of elaboration.old)) }
{
    match method {
        MemoryMethod::WritePort => call_write(elaboration, heap, frozen, of, call),
        MemoryMethod::ReadPort => call_read(elaboration, heap, frozen, of, call),
    }
}
