// The ports of a memory, and their making in a pool.
ghost use Rattle.std.specs.Prelude.{◌≡◌, ◌+◌, ◌⊎◌, ◌<◌, ◌≤◌, ◌∷◌, [], true, false, length, IfOk, IfErr, None, Some, option_copied};
ghost use Rattle.design_ir.specs.PoolRules.{HasInit};
ghost use Rattle.memory_ports.specs.Ports.{granule, enable_width, with_signals, is_over, filled, IsGrown};
ghost use Rattle.memory_ports.specs.Calls.{IsOwed, WhereLimit, stop_where, is_granule, write_signals, write_port, read_signals, read_port, where_clocked};

use crate::refusal::MemStop;
use crate::signals::{
    MadeThree, MadeTwo, address_width, make_three, make_two, port_signal, unsigned,
};
use amh_bits::Int;
use design_ir::{ExprId, Memory, Pool, Sig, SigId};
use std::alloc::Global;

/// The signals of a write port: at the edges of its domain the row at `addr` takes the granules of `word` whose bits of
/// `enable` are 1.
#[derive(Clone, Copy, PartialEq, Eq, Drop)]
pub struct WritePort {
    pub addr: SigId,
    pub word: SigId,
    pub enable: SigId,
}

/// The signals of a read port: `word` is the row at `addr`, of a clocked port at the edges at which `enable` is 1.
#[derive(Clone, Copy, PartialEq, Eq, Drop)]
pub struct ReadPort {
    pub addr: SigId,
    pub word: SigId,
    pub enable: Option<SigId>,
}

/// A write port as it was made: its expressions and its signals.
#[derive(Clone, Copy, PartialEq, Eq, Drop)]
pub struct MadeWrite {
    pub addr: ExprId,
    pub word: ExprId,
    pub enable: ExprId,
    pub granularity: u8,
    pub port: WritePort,
}

/// A read port as it was made: its expressions and its signals.
#[derive(Clone, Copy, PartialEq, Eq, Drop)]
pub struct MadeRead {
    pub addr: ExprId,
    pub enable: Option<ExprId>,
    pub port: ReadPort,
}

// One bit for each granule, and one where the whole row is one.
fn enable_width(width: u8, granularity: u8) -> u8
    requires some { (granularity ≡ width) ⊎ (0 < granularity) }
    requires few { width ≤ 128 }
    ensures value { result ≡ enable_width width granularity }
    ensures few { result ≤ 128 }
{
    if granularity == width {
        1
    } else {
        width / granularity
    }
}

// The bits of a row for which one bit of an enable stands.
fn granule(width: u8, granularity: Option<u8>) -> u8
    requires { is_granule width granularity ≡ true }
    ensures value { result ≡ granule width granularity }
    ensures some { (result ≡ width) ⊎ (0 < result) }
{
    match granularity {
        None => width,
        Some(g) => g,
    }
}

/// The signals of a write port.
pub fn made_write(
    alloc: Global,
    pool: &mut Pool,
    memory: &Memory,
    granularity: Option<u8>,
) -> Result<MadeWrite, MemStop>
    requires { is_granule memory.now.shape.width granularity ≡ true }
    ensures limit { IfOk result (λ _. is_over pool.old (write_signals memory.now granularity) ≡ false) }
    ensures made { IfOk result (λ m. m ≡ record { addr = record { 0 = length pool.old.exprs }; word = record { 0 = length pool.old.exprs + 1 }; enable = record { 0 = length pool.old.exprs + 2 }; granularity = granule memory.now.shape.width granularity; port = write_port pool.old }) }
    ensures pool { IfOk result (λ _. pool.new ≡ with_signals pool.old (write_signals memory.now granularity)) }
    ensures refused { IfErr result (λ stop. IsOwed (stop_where MemStop.Limit (is_over pool.old (write_signals memory.now granularity)) None) stop) }
    ensures full { IfErr result (λ stop. WhereLimit stop (pool.new ≡ filled pool.old (write_signals memory.now granularity))) }
    ensures grown { IfErr result (λ _. IsGrown pool.old pool.new) }
{
    let number = memory.writes.len();
    let shape = memory.shape;
    let granularity = granule(shape.width, granularity);
    let bits = unsigned(enable_width(shape.width, granularity));
    let zero = Int::of_u128(0);
    let rows = unsigned(address_width(memory.depth));
    let addr = port_signal(alloc, "w", number, "_addr", rows, zero)?;
    let word = port_signal(alloc, "w", number, "_data", shape, zero)?;
    let enable = port_signal(alloc, "w", number, "_en", bits, zero)?;
    let MadeThree { addr, word, enable } = make_three(pool, addr, word, enable)?;
    Ok(MadeWrite {
        addr: addr.expr,
        word: word.expr,
        enable: enable.expr,
        granularity,
        port: WritePort {
            addr: addr.sig,
            word: word.sig,
            enable: enable.sig,
        },
    })
}

/// The signals of a read port, which is comb without a domain.
pub fn made_read(
    alloc: Global,
    pool: &mut Pool,
    memory: &Memory,
    domain: Option<&str>,
) -> Result<MadeRead, MemStop>
    ensures limit { IfOk result (λ _. is_over pool.old (read_signals memory.now (option_copied domain.entry)) ≡ false) }
    ensures made { IfOk result (λ m. m ≡ record { addr = record { 0 = length pool.old.exprs }; enable = where_clocked (option_copied domain.entry) (record { 0 = length pool.old.exprs + 2 }); port = read_port pool.old (option_copied domain.entry) }) }
    ensures pool { IfOk result (λ _. pool.new ≡ with_signals pool.old (read_signals memory.now (option_copied domain.entry))) }
    ensures refused { IfErr result (λ stop. IsOwed (stop_where MemStop.Limit (is_over pool.old (read_signals memory.now (option_copied domain.entry))) None) stop) }
    ensures full { IfErr result (λ stop. WhereLimit stop (pool.new ≡ filled pool.old (read_signals memory.now (option_copied domain.entry)))) }
    ensures grown { IfErr result (λ _. IsGrown pool.old pool.new) }
{
    let number = memory.reads.len();
    let zero = Int::of_u128(0);
    let rows = unsigned(address_width(memory.depth));
    let addr = port_signal(alloc, "r", number, "_addr", rows, zero)?;
    let word = port_signal(alloc, "r", number, "_data", memory.shape, zero)?;
    match domain {
        None => made_comb(pool, addr, word),
        Some(_) => {
            let one = Int::of_u128(1);
            let enable = port_signal(alloc, "r", number, "_en", unsigned(1), one)?;
            made_clocked(pool, addr, word, enable)
        }
    }
}

// A read port without a clock.
fn made_comb(pool: &mut Pool, addr: Sig, word: Sig) -> Result<MadeRead, MemStop>
    requires addr { HasInit addr }
    requires word { HasInit word }
    ensures limit { IfOk result (λ _. is_over pool.old (addr ∷ word ∷ []) ≡ false) }
    ensures made { IfOk result (λ m. m ≡ record { addr = record { 0 = length pool.old.exprs }; enable = None; port = read_port pool.old None }) }
    ensures pool { IfOk result (λ _. pool.new ≡ with_signals pool.old (addr ∷ word ∷ [])) }
    ensures refused { IfErr result (λ stop. IsOwed (stop_where MemStop.Limit (is_over pool.old (addr ∷ word ∷ [])) None) stop) }
    ensures full { IfErr result (λ stop. WhereLimit stop (pool.new ≡ filled pool.old (addr ∷ word ∷ []))) }
    ensures grown { IfErr result (λ _. IsGrown pool.old pool.new) }
{
    let MadeTwo { addr, word } = make_two(pool, addr, word)?;
    Ok(MadeRead {
        addr: addr.expr,
        enable: None,
        port: ReadPort {
            addr: addr.sig,
            word: word.sig,
            enable: None,
        },
    })
}

// A read port with a clock.
fn made_clocked(pool: &mut Pool, addr: Sig, word: Sig, enable: Sig) -> Result<MadeRead, MemStop>
    requires addr { HasInit addr }
    requires word { HasInit word }
    requires enable { HasInit enable }
    ensures limit { IfOk result (λ _. is_over pool.old (addr ∷ word ∷ enable ∷ []) ≡ false) }
    ensures made { IfOk result (λ m. m ≡ record { addr = record { 0 = length pool.old.exprs }; enable = Some (record { 0 = length pool.old.exprs + 2 }); port = record { addr = record { 0 = length pool.old.signals }; word = record { 0 = length pool.old.signals + 1 }; enable = Some (record { 0 = length pool.old.signals + 2 }) } }) }
    ensures pool { IfOk result (λ _. pool.new ≡ with_signals pool.old (addr ∷ word ∷ enable ∷ [])) }
    ensures refused { IfErr result (λ stop. IsOwed (stop_where MemStop.Limit (is_over pool.old (addr ∷ word ∷ enable ∷ [])) None) stop) }
    ensures full { IfErr result (λ stop. WhereLimit stop (pool.new ≡ filled pool.old (addr ∷ word ∷ enable ∷ []))) }
    ensures grown { IfErr result (λ _. IsGrown pool.old pool.new) }
{
    let MadeThree { addr, word, enable } = make_three(pool, addr, word, enable)?;
    Ok(MadeRead {
        addr: addr.expr,
        enable: Some(enable.expr),
        port: ReadPort {
            addr: addr.sig,
            word: word.sig,
            enable: Some(enable.sig),
        },
    })
}
