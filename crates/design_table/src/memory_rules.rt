// Whether memories keep the rules of designs.
ghost use Rattle.std.specs.Prelude.{length, ◌≡◌, ◌+◌, ◌<◌, ◌≤◌, ◌^◌, ◌⊎◌, pos, slice_get, IsTrue, IsSome, IsSomeAnd, Some, None, false};
ghost use Rattle.std.specs.List.{AllByRecursion, position};
ghost use Rattle.lists.specs.Names.{IsPath};
ghost use Rattle.lists.specs.Texts.{text_eq};
ghost use Rattle.amh_bits.specs.Patterns.{IsOf};
ghost use Rattle.design_ir.specs.Circuits.{domain_named};
ghost use Rattle.design_ir.specs.Rows.{granules};
ghost use Rattle.design_ir.specs.Designs.{IsUsableOf, IsSignalOf, IsAddressWidth, IsAddress, IsGranularity, IsWritePort, IsTransparent, IsClocking, IsReadPort, IsMemory};
ghost use Rattle.design_table.specs.MemoryTests.{bare};

use crate::shown::is_name;
use crate::signals::Signals;
use amh_bits::Int;
use design_ir::{Domain, ExprId, MemRead, MemWrite, Memory, SigId};
use shape_rules::Shape;

/// Whether each of these memories may be in a design over this pool.
pub fn are_memories(signals: &Signals, memories: &[Memory]) -> bool
    ensures { IsTrue result → AllByRecursion (IsMemory (bare signals.now.sheet.pool signals.now.domains)) memories.now }
{
    match memories {
        [] => true,
        [memory, rest @ ..] => is_memory(signals, memory) && are_memories(signals, rest),
    }
}

fn is_memory(signals: &Signals, memory: &Memory) -> bool
    ensures { IsTrue result → IsMemory (bare signals.now.sheet.pool signals.now.domains) memory.now }
{
    is_formed(memory) && has_ports(signals, memory)
}

// Whether the name, the rows and the counts of a memory keep the rules.
fn is_formed(memory: &Memory) -> bool
    ensures path { IsTrue result → IsPath memory.now.name }
    ensures depth { IsTrue result → memory.now.depth ≤ 65536 }
    ensures size { IsTrue result → length memory.now.rows ≡ memory.now.depth }
    ensures shapes { IsTrue result → AllByRecursion (IsOf memory.now.shape.signed memory.now.shape.width) memory.now.rows }
    ensures few { IsTrue result → length memory.now.writes + length memory.now.reads ≤ 64 }
{
    is_named(memory) && has_rows(memory) && has_few_ports(memory)
}

// Whether the ports of a memory keep the rules.
#[tactic(auto, using(crate::proofs::MemoryTests::one_domain))]
fn has_ports(signals: &Signals, memory: &Memory) -> bool
    ensures writes { IsTrue result → AllByRecursion (IsWritePort (bare signals.now.sheet.pool signals.now.domains) memory.now) memory.now.writes }
    ensures domain { IsTrue result → AllByRecursion (λ w. AllByRecursion (λ v. v.domain ≡ w.domain) memory.now.writes) memory.now.writes }
    ensures reads { IsTrue result → AllByRecursion (IsReadPort (bare signals.now.sheet.pool signals.now.domains) memory.now) memory.now.reads }
{
    let writes = memory.writes.as_slice();
    are_writes(signals, memory, domain_of(writes), writes)
        && are_reads(signals, memory, memory.reads.as_slice())
}

// The domain of the first of these ports.
fn domain_of(ports: &[MemWrite]) -> &str {
    match ports {
        [] => "",
        [port, ..] => port.domain.as_str(),
    }
}

#[tactic(auto, using(crate::proofs::MemoryTests::path_of))]
fn is_named(memory: &Memory) -> bool
    ensures { IsTrue result → IsPath memory.now.name }
{
    is_name(memory.name.as_str().as_bytes())
}

// Whether there are so many rows, and all of the shape.
fn has_rows(memory: &Memory) -> bool
    ensures depth { IsTrue result → memory.now.depth ≤ 65536 }
    ensures size { IsTrue result → length memory.now.rows ≡ memory.now.depth }
    ensures shapes { IsTrue result → AllByRecursion (IsOf memory.now.shape.signed memory.now.shape.width) memory.now.rows }
{
    memory.depth <= 65536
        && memory.rows.len() == memory.depth as usize
        && are_of(memory.shape, memory.rows.as_slice())
}

fn has_few_ports(memory: &Memory) -> bool
    ensures { IsTrue result → length memory.now.writes + length memory.now.reads ≤ 64 }
{
    memory.writes.len() <= 32 && memory.reads.len() <= 32
}

// Whether these are numbers of a shape.
fn are_of(shape: Shape, numbers: &[Int]) -> bool
    ensures { IsTrue result → AllByRecursion (IsOf shape.signed shape.width) numbers.now }
{
    match numbers {
        [] => true,
        [n, rest @ ..] => is_of_shape(shape, *n) && are_of(shape, rest),
    }
}

#[tactic(auto, using(design_ir::proofs::Events::of_shape))]
fn is_of_shape(shape: Shape, n: Int) -> bool
    ensures { IsTrue result → IsOf shape.signed shape.width n }
{
    n.wrap(shape.width, shape.signed) == n
}

// Whether these are write ports of a memory, in this domain.
fn are_writes(signals: &Signals, memory: &Memory, domain: &str, ports: &[MemWrite]) -> bool
    ensures ports { IsTrue result → AllByRecursion (IsWritePort (bare signals.now.sheet.pool signals.now.domains) memory.now) ports.now }
    ensures domain { IsTrue result → AllByRecursion (λ w. w.domain ≡ domain.now) ports.now }
{
    match ports {
        [] => true,
        [port, rest @ ..] => {
            is_write(signals, memory, port)
                && is_in(port, domain)
                && are_writes(signals, memory, domain, rest)
        }
    }
}

#[tactic(auto, using(lists::proofs::TextLaws::text_eq_true))]
fn is_in(port: &MemWrite, domain: &str) -> bool
    ensures { IsTrue result → port.now.domain ≡ domain.now }
{
    port.domain.is(domain)
}

// Whether these are read ports of a memory.
fn are_reads(signals: &Signals, memory: &Memory, ports: &[MemRead]) -> bool
    ensures { IsTrue result → AllByRecursion (IsReadPort (bare signals.now.sheet.pool signals.now.domains) memory.now) ports.now }
{
    match ports {
        [] => true,
        [port, rest @ ..] => is_read(signals, memory, port) && are_reads(signals, memory, rest),
    }
}

fn is_write(signals: &Signals, memory: &Memory, port: &MemWrite) -> bool
    ensures { IsTrue result → IsWritePort (bare signals.now.sheet.pool signals.now.domains) memory.now port.now }
{
    is_domain(signals, port.domain.as_str())
        && is_address(signals, memory, port.addr)
        && is_of(signals, memory.shape, port.word)
        && is_granularity(memory, port.granularity)
        && is_of(signals, enables(memory, port), port.enable)
}

#[tactic(auto, using(crate::proofs::MemoryTests::some_and))]
fn is_read(signals: &Signals, memory: &Memory, port: &MemRead) -> bool
    ensures { IsTrue result → IsReadPort (bare signals.now.sheet.pool signals.now.domains) memory.now port.now }
{
    is_address(signals, memory, port.addr)
        && is_data(signals, memory.shape, port.word)
        && is_timed(signals, memory, port)
}

// Whether a read port has an enable exactly where it has a clock, and is transparent for write ports of that clock alone.
fn is_timed(signals: &Signals, memory: &Memory, port: &MemRead) -> bool
    ensures clocking { IsTrue result → IsClocking (bare signals.now.sheet.pool signals.now.domains) port.now.domain port.now.enable }
    ensures transparent { IsTrue result → AllByRecursion (IsTransparent memory.now port.now.domain) port.now.transparent }
{
    match &port.domain {
        None => is_unclocked(signals, port.enable) && are_none(memory, port.transparent.as_slice()),
        Some(domain) => {
            is_clocked(signals, domain.as_str(), port.enable)
                && are_transparent(memory, domain.as_str(), port.transparent.as_slice())
        }
    }
}

// Whether there is no enable, as of a port without a clock.
fn is_unclocked(signals: &Signals, enable: Option<ExprId>) -> bool
    ensures { IsTrue result → IsClocking (bare signals.now.sheet.pool signals.now.domains) None enable }
{
    match enable {
        None => true,
        Some(_) => false,
    }
}

// Whether this is a domain and an enable of one bit, as of a port with a clock.
fn is_clocked(signals: &Signals, domain: &str, enable: Option<ExprId>) -> bool
    ensures { IsTrue result → IsClocking (bare signals.now.sheet.pool signals.now.domains) (Some domain.now) enable }
{
    let bit = Shape {
        width: 1,
        signed: false,
    };
    match enable {
        Some(e) => is_domain(signals, domain) && is_of(signals, bit, e),
        None => false,
    }
}

// Whether a domain has this name.
fn is_domain(signals: &Signals, name: &str) -> bool
    ensures { IsTrue result → IsSome (domain_named (bare signals.now.sheet.pool signals.now.domains) name.now) }
{
    match position_named(signals.domains.as_slice(), name) {
        Some(_) => true,
        None => false,
    }
}

fn position_named(domains: &[Domain], name: &str) -> Option<usize>
    ensures { result ≡ position (λ d. text_eq d.name name.now) domains.now }
{
    domains.iter().position(|d| d.name.is(name))
}

// Whether a port without a clock is transparent for none.
fn are_none(memory: &Memory, ports: &[u32]) -> bool
    ensures { IsTrue result → AllByRecursion (IsTransparent memory.now None) ports.now }
{
    match ports {
        [] => true,
        _ => false,
    }
}

// Whether write ports of this domain have these numbers.
fn are_transparent(memory: &Memory, domain: &str, ports: &[u32]) -> bool
    ensures { IsTrue result → AllByRecursion (IsTransparent memory.now (Some domain.now)) ports.now }
{
    match ports {
        [] => true,
        [k, rest @ ..] => {
            is_transparent(memory, domain, *k) && are_transparent(memory, domain, rest)
        }
    }
}

fn is_transparent(memory: &Memory, domain: &str, k: u32) -> bool
    ensures { IsTrue result → IsTransparent memory.now (Some domain.now) k }
{
    let k = k as usize;
    k < memory.writes.len() && memory.writes.get(k).domain.is(domain)
}

// Whether an expression is there, with this shape.
#[tactic(auto, using(crate::proofs::NoResets::none_held))]
fn is_of(signals: &Signals, shape: Shape, e: ExprId) -> bool
    ensures { IsTrue result → IsUsableOf (bare signals.now.sheet.pool signals.now.domains) shape e }
{
    signals.sheet.has(e) && signals.sheet.shape(e) == shape
}

// Whether an expression may be the address of a port.
#[tactic(auto, using(crate::proofs::NoResets::none_held))]
fn is_address(signals: &Signals, memory: &Memory, e: ExprId) -> bool
    ensures { IsTrue result → IsAddress (bare signals.now.sheet.pool signals.now.domains) memory.now e }
{
    signals.sheet.has(e)
        && !signals.sheet.shape(e).signed
        && is_address_width(memory.depth, signals.sheet.shape(e).width)
}

// Whether a signal is there, with this shape, and begins at 0.
#[tactic(auto, using(crate::proofs::MemoryTests::some_and))]
fn is_data(signals: &Signals, shape: Shape, s: SigId) -> bool
    ensures signal { IsTrue result → IsSignalOf (bare signals.now.sheet.pool signals.now.domains) shape s }
    ensures init { IsTrue result → IsSomeAnd (slice_get signals.now.sheet.pool.signals s.0) (λ x. x.init ≡ pos 0) }
{
    signals.sheet.has_signal(s)
        && signals.sheet.pool.sig_at(s).shape == shape
        && signals.sheet.pool.sig_at(s).init == Int::of_u128(0)
}

// Whether this is the least width that has a number for each of so many rows.
#[tactic(auto, using(crate::proofs::Widths::no_width, crate::proofs::Widths::some_width))]
fn is_address_width(depth: u32, width: u8) -> bool
    ensures { IsTrue result → IsAddressWidth depth width }
{
    if width == 0 {
        return depth <= 1;
    }
    width <= 16 && power_of_two(width - 1) < depth && depth <= power_of_two(width)
}

fn power_of_two(k: u8) -> u32
    requires { k < 32 }
    ensures { result ≡ 2 ^ k }
{
    1 << k
}

// Whether a granule is the whole row, or divides it.
#[tactic(auto, using(crate::proofs::MemoryTests::whole_row, crate::proofs::MemoryTests::part_of_row))]
fn is_granularity(memory: &Memory, granularity: u8) -> bool
    ensures rule { IsTrue result → IsGranularity memory.now granularity }
    ensures some { IsTrue result → (granularity ≡ memory.now.shape.width) ⊎ (0 < granularity) }
{
    granularity == memory.shape.width || granularity > 0 && memory.shape.width % granularity == 0
}

// The shape of the enable of a write port: a bit for each granule.
fn enables(memory: &Memory, port: &MemWrite) -> Shape
    requires { (port.now.granularity ≡ memory.now.shape.width) ⊎ (0 < port.now.granularity) }
    ensures { result ≡ record { width = granules memory.now port.now; signed = false } }
{
    let width = if port.granularity == memory.shape.width {
        1
    } else {
        memory.shape.width / port.granularity
    };
    Shape {
        width,
        signed: false,
    }
}
