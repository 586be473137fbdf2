// Bits of expressions, from which the bits of signals come.
ghost use Rattle.std.specs.Prelude.{◌≡◌, ◌↔◌, IsTrue, List, ℕ, ◌<◌, ◌≤◌, ◌+◌, length, take, false, All, IfOk};
ghost use Rattle.std.specs.List.{list_any};
ghost use Rattle.shape_rules.specs.Forms.{unsigned};
ghost use Rattle.design_ir.specs.PoolRules.{IsPool};
ghost use Rattle.design_ir.specs.Named.{AllBelow};
ghost use Rattle.design_ir.specs.Values.{form, total_width};
ghost use Rattle.design_ir.specs.Designs.{holds_reset};
ghost use Rattle.flat_design.specs.Growing.{IsMore, IsReadable};
ghost use Rattle.flat_design.specs.Sources.{IsSource, IsJoined, AreChosen, IsExtension, AreExtensions};
ghost use Rattle.flat_design.specs.Adding.{IsRun, IsPart, AreParts, AreBits};

use crate::adding::{added, constant};
use amh_host::{Items, NoMemory};
use design_ir::{Expr, ExprId, Exprs, Ids, Pool};
use std::alloc::Global;

/// A bit of an expression.
#[derive(Clone, Copy, Drop)]
pub struct Source {
    pub expr: ExprId,
    pub bit: u8,
}

/// A source for each bit, the lowest first.
pub type Sources = Items<Source>;

/// One expression of all these bits: neighbouring bits of one expression are one slice of it.
pub(crate) fn joined(alloc: Global, pool: &mut Pool, sources: &[Source]) -> Result<ExprId, NoMemory>
    requires sources { All (IsSource pool.old) sources.now }
    requires few { length sources.now ≤ 128 }
    ensures more { IfOk result (λ _. IsMore pool.old pool.new) }
    ensures rules { IfOk result (λ _. IsPool pool.new) }
    ensures joined { IfOk result (IsJoined pool.new sources.now) }
{
    pool.known();
    let mut parts = Items::new(alloc);
    let mut done = 0;
    while done < sources.len() {
        let n = run_length(&sources[done..]);
        parts.push(part(pool, &sources[done..done + n])?)?;
        done += n;
    }
    together(pool, parts)
}

/// The new sources where the guard is not 0, else the old ones.
pub(crate) fn chosen(
    alloc: Global,
    pool: &mut Pool,
    guard: ExprId,
    new: &[Source],
    old: &[Source],
) -> Result<Sources, NoMemory>
    requires guard { IsReadable pool.old guard }
    requires guard_shape { form pool.old guard.0 ≡ unsigned 1 }
    requires new { All (IsSource pool.old) new.now }
    requires old { All (IsSource pool.old) old.now }
    requires size { length new.now ≡ length old.now }
    requires few { length new.now ≤ 128 }
    ensures more { IfOk result (λ _. IsMore pool.old pool.new) }
    ensures rules { IfOk result (λ _. IsPool pool.new) }
    ensures chosen { IfOk result (AreChosen pool.new guard new.now old.now) }
{
    pool.known();
    let a = joined(alloc, pool, new)?;
    let b = joined(alloc, pool, old)?;
    let mux = added(pool, Expr::Mux { s: guard, a, b })?;
    bits_of(alloc, mux, new.len())
}

/// So many bits of a value from one on: past its end its sign, or 0.
pub(crate) fn extension(
    alloc: Global,
    pool: &mut Pool,
    value: ExprId,
    from: u8,
    width: u8,
) -> Result<Sources, NoMemory>
    requires value { IsReadable pool.old value }
    requires few { from + width ≤ 128 }
    ensures more { IfOk result (λ _. IsMore pool.old pool.new) }
    ensures rules { IfOk result (λ _. IsPool pool.new) }
    ensures extensions { IfOk result (AreExtensions pool.new value from width) }
{
    pool.known();
    let width_of_value = pool.shape(value).width;
    let past = past_end(pool, value, from + width)?;
    let mut bits = Items::new(alloc);
    for bit in from..from + width {
        if bit < width_of_value {
            bits.push(Source { expr: value, bit })?;
        } else {
            bits.push(past)?;
        }
    }
    Ok(bits)
}

// How many of the first sources are neighbouring bits of one expression.
fn run_length(sources: &[Source]) -> usize
    requires some { 0 < length sources.now }
    requires few { length sources.now ≤ 128 }
    ensures positive { 0 < result }
    ensures within { result ≤ length sources.now }
    ensures run { IsRun (take result sources.now) }
{
    let first = sources[0];
    let mut n = 1;
    while n < sources.len() && follows(first, n, sources[n]) {
        n += 1;
    }
    n
}

// Whether a source is so many bits above the first.
fn follows(first: Source, by: usize, source: Source) -> bool
    requires { by ≤ 128 }
    ensures { IsTrue result ↔ (source ≡ record { expr = first.expr; bit = first.bit + by }) }
{
    source.expr.0 == first.expr.0 && source.bit as usize == first.bit as usize + by
}

// The expression of a run: an unsigned expression of which it is all bits, or else a slice.
fn part(pool: &mut Pool, run: &[Source]) -> Result<ExprId, NoMemory>
    requires some { 0 < length run.now }
    requires few { length run.now ≤ 128 }
    requires run { IsRun run.now }
    requires sources { All (IsSource pool.old) run.now }
    ensures more { IfOk result (λ _. IsMore pool.old pool.new) }
    ensures rules { IfOk result (λ _. IsPool pool.new) }
    ensures part { IfOk result (IsPart pool.new run.now) }
{
    pool.known();
    let first = run[0];
    let shape = pool.shape(first.expr);
    if !shape.signed && shape.width as usize == run.len() {
        return Ok(first.expr);
    }
    added(
        pool,
        Expr::Slice {
            a: first.expr,
            low: first.bit,
            width: run.len() as u8,
        },
    )
}

// Expressions one above the other; one alone stays as it is.
fn together(pool: &mut Pool, parts: Ids) -> Result<ExprId, NoMemory>
    requires few { total_width (form pool.old) parts ≤ 128 }
    requires there { AllBelow (length pool.old.exprs) parts }
    requires resolved { list_any (λ (e : ExprId). holds_reset pool.old e.0) parts ≡ false }
    ensures more { IfOk result (λ _. IsMore pool.old pool.new) }
    ensures rules { IfOk result (λ _. IsPool pool.new) }
    ensures joined { (sources : List Source) → AreParts pool.old sources parts → IfOk result (IsJoined pool.new sources) }
{
    pool.known();
    if parts.len() == 1 {
        return Ok(*parts.get(0));
    }
    added(pool, Expr::Cat(parts))
}

/// So many bits of an expression, the lowest first.
pub(crate) fn bits_of(alloc: Global, expr: ExprId, width: usize) -> Result<Sources, NoMemory>
    requires { width ≤ 128 }
    ensures { IfOk result (AreBits expr width) }
{
    let mut bits = Items::new(alloc);
    for i in 0..width {
        let bit = i as u8;
        bits.push(Source { expr, bit })?;
    }
    Ok(bits)
}

// The source of all bits from the end of a value up to a place: its sign, or 0 where there are such bits.
fn past_end(pool: &mut Pool, value: ExprId, to: u8) -> Result<Source, NoMemory>
    requires value { IsReadable pool.old value }
    ensures more { IfOk result (λ _. IsMore pool.old pool.new) }
    ensures rules { IfOk result (λ _. IsPool pool.new) }
    ensures past { (k : ℕ) → (form pool.old value.0).width ≤ k → k < to → IfOk result (IsExtension pool.new value k 0) }
{
    pool.known();
    let shape = pool.shape(value);
    if shape.signed || to <= shape.width {
        return Ok(Source {
            expr: value,
            bit: shape.width.max(1) - 1,
        });
    }
    let expr = constant(pool, 0, 1)?;
    Ok(Source { expr, bit: 0 })
}
