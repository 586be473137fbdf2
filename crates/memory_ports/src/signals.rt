// What a port asks of the pool.
ghost use Rattle.std.specs.Prelude.{◌≡◌, ◌+◌, ◌∷◌, [], ◌≤◌, false, length, None, IfOk, IfErr};
ghost use Rattle.amh_bits.specs.Patterns.{IsOf};
ghost use Rattle.design_ir.specs.PoolRules.{HasInit};
ghost use Rattle.memory_ports.specs.Ports.{port_name, port_signal, address_width, with_signal, with_signals, is_over, filled, IsGrown};
ghost use Rattle.memory_ports.specs.Calls.{IsOwed, IsCount, WhereLimit, told, stop_where};

use crate::copies::copied;
use crate::refusal::MemStop;
use amh_bits::Int;
use amh_host::{NoMemory, Text};
use design_ir::{Expr, ExprId, Exprs, Pool, PoolStop, Sig, SigId};
use shape_rules::Shape;
use std::alloc::Global;

/// A signal of a port, and the expression that is this signal.
#[derive(Clone, Copy, PartialEq, Eq, Drop)]
pub struct Made {
    pub sig: SigId,
    pub expr: ExprId,
}

/// The signals of a port, where it has an enable and where not.
#[derive(Clone, Copy, PartialEq, Eq, Drop)]
pub struct MadeTwo {
    pub addr: Made,
    pub word: Made,
}

#[derive(Clone, Copy, PartialEq, Eq, Drop)]
pub struct MadeThree {
    pub addr: Made,
    pub word: Made,
    pub enable: Made,
}

/// The least width that has so many numbers, of 65,536 at most.
pub fn address_width(depth: u32) -> u8
    ensures value { result ≡ address_width depth }
    ensures few { result ≤ 16 }
{
    let mut width = 0;
    while width < 16 && depth > 1 << width {
        width += 1;
    }
    width
}

/// So many bits without a sign.
pub fn unsigned(width: u8) -> Shape
    requires { width ≤ 128 }
    ensures { result ≡ record { width = width; signed = false } }
{
    Shape {
        width,
        signed: false,
    }
}

// The name of a signal of a port.
fn port_name(alloc: Global, kind: &str, number: usize, member: &str) -> Result<Text, NoMemory>
    ensures { IfOk result (λ t. t ≡ port_name kind.now number member.now) }
{
    let digits = format!(in alloc; "{number}")?;
    let mut name = copied(alloc, kind)?;
    name.push(digits.as_str())?;
    name.push(member)?;
    Ok(name)
}

/// A signal of a port.
pub fn port_signal(
    alloc: Global,
    kind: &str,
    number: usize,
    member: &str,
    shape: Shape,
    init: Int,
) -> Result<Sig, NoMemory>
    requires { IsOf shape.signed shape.width init }
    ensures { IfOk result (λ x. x ≡ port_signal kind.now number member.now shape init) }
{
    Ok(Sig {
        name: port_name(alloc, kind, number, member)?,
        shape,
        init,
        reset_less: false,
    })
}

// A pool that takes a signal and its expression refuses nothing but for its counts and for want of memory.
fn told(stop: PoolStop) -> MemStop
    requires { IsCount stop }
    ensures { result ≡ told stop }
{
    match stop {
        PoolStop::Limit => MemStop::Limit,
        PoolStop::NoMemory => MemStop::NoMemory,
        PoolStop::Width | PoolStop::BadOperand => unreachable!(),
    }
}

// A signal more, and its expression.
fn make(pool: &mut Pool, x: Sig) -> Result<Made, MemStop>
    requires { HasInit x }
    ensures limit { IfOk result (λ _. is_over pool.old (x ∷ []) ≡ false) }
    ensures made { IfOk result (λ m. m ≡ record { sig = record { 0 = length pool.old.signals }; expr = record { 0 = length pool.old.exprs } }) }
    ensures pool { IfOk result (λ _. pool.new ≡ with_signal pool.old x) }
    ensures refused { IfErr result (λ stop. IsOwed (stop_where MemStop.Limit (is_over pool.old (x ∷ [])) None) stop) }
    ensures full { IfErr result (λ stop. WhereLimit stop (pool.new ≡ pool.old)) }
    ensures grown { IfErr result (λ _. IsGrown pool.old pool.new) }
{
    if pool.count() >= 262_144 {
        return Err(MemStop::Limit);
    }
    let sig = match pool.sig(x) {
        Ok(sig) => sig,
        Err(stop) => return Err(told(stop)),
    };
    match pool.expr(Expr::Sig(sig)) {
        Ok(expr) => Ok(Made { sig, expr }),
        Err(stop) => Err(told(stop)),
    }
}

/// An address and a word.
pub fn make_two(pool: &mut Pool, addr: Sig, word: Sig) -> Result<MadeTwo, MemStop>
    requires addr { HasInit addr }
    requires word { HasInit word }
    ensures limit { IfOk result (λ _. is_over pool.old (addr ∷ word ∷ []) ≡ false) }
    ensures made { IfOk result (λ m. m ≡ record { addr = record { sig = record { 0 = length pool.old.signals }; expr = record { 0 = length pool.old.exprs } }; word = record { sig = record { 0 = length pool.old.signals + 1 }; expr = record { 0 = length pool.old.exprs + 1 } } }) }
    ensures pool { IfOk result (λ _. pool.new ≡ with_signals pool.old (addr ∷ word ∷ [])) }
    ensures refused { IfErr result (λ stop. IsOwed (stop_where MemStop.Limit (is_over pool.old (addr ∷ word ∷ [])) None) stop) }
    ensures full { IfErr result (λ stop. WhereLimit stop (pool.new ≡ filled pool.old (addr ∷ word ∷ []))) }
    ensures grown { IfErr result (λ _. IsGrown pool.old pool.new) }
{
    let addr = match make(pool, addr) {
        Ok(made) => made,
        Err(stop) => return Err(stop),
    };
    match make(pool, word) {
        Ok(word) => Ok(MadeTwo { addr, word }),
        Err(stop) => Err(stop),
    }
}

/// An address, a word and an enable.
pub fn make_three(pool: &mut Pool, addr: Sig, word: Sig, enable: Sig) -> Result<MadeThree, MemStop>
    requires addr { HasInit addr }
    requires word { HasInit word }
    requires enable { HasInit enable }
    ensures limit { IfOk result (λ _. is_over pool.old (addr ∷ word ∷ enable ∷ []) ≡ false) }
    ensures made { IfOk result (λ m. m ≡ record { addr = record { sig = record { 0 = length pool.old.signals }; expr = record { 0 = length pool.old.exprs } }; word = record { sig = record { 0 = length pool.old.signals + 1 }; expr = record { 0 = length pool.old.exprs + 1 } }; enable = record { sig = record { 0 = length pool.old.signals + 2 }; expr = record { 0 = length pool.old.exprs + 2 } } }) }
    ensures pool { IfOk result (λ _. pool.new ≡ with_signals pool.old (addr ∷ word ∷ enable ∷ [])) }
    ensures refused { IfErr result (λ stop. IsOwed (stop_where MemStop.Limit (is_over pool.old (addr ∷ word ∷ enable ∷ [])) None) stop) }
    ensures full { IfErr result (λ stop. WhereLimit stop (pool.new ≡ filled pool.old (addr ∷ word ∷ enable ∷ []))) }
    ensures grown { IfErr result (λ _. IsGrown pool.old pool.new) }
{
    let addr = match make(pool, addr) {
        Ok(made) => made,
        Err(stop) => return Err(stop),
    };
    match make_two(pool, word, enable) {
        Ok(made) => Ok(MadeThree {
            addr,
            word: made.addr,
            enable: made.word,
        }),
        Err(stop) => Err(stop),
    }
}
