// What an act of a testbench makes is put to the design, but for expressions that are there.
ghost use Rattle.std.specs.Prelude.{◌≡◌, ◌<◌, ◌≤◌, ◌++◌, ◌∷◌, [], length, take, drop, slice_get, IfOk, IfErr, Some, true, false};
ghost use Rattle.design_ir.specs.declared.expr.Expr.{Expr};
ghost use Rattle.design_ir.specs.PoolRules.{IsPool, expr_added};
ghost use Rattle.expr_index.specs.Numbers.{number_now, renumbered};
ghost use Rattle.expr_index.specs.Knows.{Knows};
ghost use Rattle.amh_things.specs.Renumbered.{things_now};
ghost use Rattle.elab_store.specs.Held.{held_of};
ghost use Rattle.bench_acts.specs.Sharing.{begin_now, kept_now, kepts_now, share_one, shared, held_over, exprs_shared, too_many, IsBehind};
ghost use Rattle.bench_acts.specs.Held.{IsShareStop, MayCome};

use design_ir::{Design, Expr, ExprId, Exprs, Pool, PoolStop};
use elab_store::kept::{Begin, Equation, Kept};
use elab_store::store::{Elaboration, Store};
use expr_index::{Known, number_now, renumbered};
use lists::NoMemory;
use std::alloc::Global;

/// How much there was before an act.
#[derive(Clone, Copy, PartialEq, Eq, Drop)]
pub(crate) struct Before {
    pub exprs: u32,
    pub things: usize,
    pub kept: usize,
}

/// Why an act cannot be kept.
#[derive(Clone, Copy, PartialEq, Eq, Drop)]
pub(crate) enum ShareStop {
    Limit,
    NoMemory,
}

impl From<NoMemory> for ShareStop {
    ghost use Rattle.std.specs.Prelude.{◌≡◌};
    ghost use Rattle.bench_acts.specs.declared.sharing.ShareStop.TheVariants.{NoMemory as no_memory};

    ghost from_gives = { λ _ stop. stop ≡ no_memory };

    fn from(_: NoMemory) -> ShareStop {
        ShareStop::NoMemory
    }
}

/// Expressions behind the first ones of the pool are put to the design where it has none like them. Then the pool is the design's again, and
/// things are of the numbers that their expressions got.
pub(crate) fn share(
    held: &mut Elaboration,
    design: &mut Design,
    known: &mut Known,
    before: Before,
) -> Result<(), ShareStop>
    requires known { Knows known.old design.old.pool.exprs }
    requires count { before.exprs ≡ length design.old.pool.exprs }
    requires behind { IsBehind design.old.pool (held_of held.old) }
    ensures held { IfOk result (λ _. held_of held.new ≡ held_over design.old.pool before.things before.kept (held_of held.old)) }
    ensures design { IfOk result (λ _. design.new ≡ record design.old { pool = held.new.pool }) }
    ensures known { IfOk result (λ _. Knows known.new held.new.pool.exprs) }
    ensures few { IfOk result (λ _. too_many design.old.pool held.new.pool.exprs ≡ false) }
    ensures limit { IfErr result (λ stop. IsShareStop stop (too_many design.old.pool (exprs_shared design.old.pool (held_of held.old)) ≡ true)) }
{
    let now = match numbers_of(&held.pool, held.alloc, design, known, before.exprs) {
        Ok(now) => now,
        Err(stop) => return Err(stop),
    };
    if let Err(_) = put_anew(&mut held.pool, held.alloc, design, before.exprs) {
        return Err(ShareStop::NoMemory);
    }
    renumber_store(&mut held.store, before, now.as_slice());
    Ok(())
}

// The numbers in the design of the expressions behind the first ones, one after another.
fn numbers_of(
    pool: &Pool,
    alloc: Global,
    design: &mut Design,
    known: &mut Known,
    before: u32,
) -> Result<Vec<ExprId>, ShareStop>
    requires known { Knows known.old design.old.pool.exprs }
    requires count { before ≡ length design.old.pool.exprs }
    requires signals { pool.now.signals ≡ design.old.pool.signals }
    requires exprs { pool.now.exprs ≡ design.old.pool.exprs ++ drop (length design.old.pool.exprs) pool.now.exprs }
    ensures shared { IfOk result (λ v. record { numbers = v.items; exprs = design.new.pool.exprs } ≡ shared design.old.pool.exprs (drop (length design.old.pool.exprs) pool.now.exprs)) }
    ensures design { IfOk result (λ _. design.new ≡ record design.old { pool = record design.old.pool { exprs = design.new.pool.exprs } }) }
    ensures first { IfOk result (λ _. (before ≤ length design.new.pool.exprs) × (take before pool.now.exprs ≡ take before design.new.pool.exprs)) }
    ensures known { IfOk result (λ _. Knows known.new design.new.pool.exprs) }
    ensures few { IfOk result (λ _. too_many design.old.pool design.new.pool.exprs ≡ false) }
    ensures limit { IfErr result (λ stop. IsShareStop stop (too_many design.old.pool (shared design.old.pool.exprs (drop (length design.old.pool.exprs) pool.now.exprs)).exprs ≡ true)) }
{
    let _ = design.count();
    let mut now = Vec::new(alloc);
    for i in before..pool.count() {
        match shared_one(
            pool,
            alloc,
            design,
            known,
            before,
            now.as_slice(),
            ExprId(i),
        ) {
            Ok(id) => {
                if let Err(_) = now.push(id) {
                    return Err(ShareStop::NoMemory);
                }
            }
            Err(stop) => return Err(stop),
        }
    }
    Ok(now)
}

// The number of one expression in the design, which may get it.
fn shared_one(
    pool: &Pool,
    alloc: Global,
    design: &mut Design,
    known: &mut Known,
    before: u32,
    now: &[ExprId],
    id: ExprId,
) -> Result<ExprId, ShareStop>
    requires known { Knows known.old design.old.pool.exprs }
    requires there { id.0 < length pool.now.exprs }
    requires fits { (e : Expr) → slice_get pool.now.exprs id.0 ≡ Some e → MayCome design.old.pool (renumbered (number_now before now.now) e) }
    ensures shared { IfOk result (λ k. (e : Expr) → slice_get pool.now.exprs id.0 ≡ Some e → share_one before (record { numbers = now.now; exprs = design.old.pool.exprs }) e ≡ record { numbers = now.now ++ k ∷ []; exprs = design.new.pool.exprs }) }
    ensures design { IfOk result (λ _. design.new ≡ record design.old { pool = record design.old.pool { exprs = design.new.pool.exprs } }) }
    ensures rules { IfOk result (λ _. IsPool design.new.pool) }
    ensures known { IfOk result (λ _. Knows known.new design.new.pool.exprs) }
    ensures few { IfOk result (λ _. too_many design.old.pool design.new.pool.exprs ≡ false) }
    ensures limit { IfErr result (λ stop. (e : Expr) → slice_get pool.now.exprs id.0 ≡ Some e → IsShareStop stop (too_many design.old.pool (share_one before (record { numbers = now.now; exprs = design.old.pool.exprs }) e).exprs ≡ true)) }
{
    let e = renumbered(alloc, pool.at(id), before, now)?;
    let _ = design.count();
    if let Some(id) = known.find(design, &e) {
        return Ok(id);
    }
    let id = put(design, e)?;
    known.note(design.at(id))?;
    Ok(id)
}

// Puts an expression at the end that nothing is wrong with: it is refused exactly where there are too many.
fn put<P: Exprs>(pool: &mut P, e: Expr) -> Result<ExprId, ShareStop>
    requires { MayCome (P.pooled pool.old) e }
    ensures added { IfOk result (λ id. (length (P.pooled pool.old).exprs < 262144) × (id ≡ record { 0 = length (P.pooled pool.old).exprs }) × (P.pooled pool.new ≡ expr_added (P.pooled pool.old) e)) }
    ensures refused { IfErr result (λ stop. IsShareStop stop (262144 ≤ length (P.pooled pool.old).exprs) × (P.pooled pool.new ≡ P.pooled pool.old)) }
    ensures rest { pool.new ≡ P.grown pool.old (P.pooled pool.new) }
    ensures rules { IsPool (P.pooled pool.new) }
{
    match pool.expr(e) {
        Ok(id) => Ok(id),
        Err(PoolStop::NoMemory) => Err(ShareStop::NoMemory),
        Err(_) => Err(ShareStop::Limit),
    }
}

// The pool becomes the design's, of which it has the first expressions.
fn put_anew(pool: &mut Pool, alloc: Global, design: &Design, before: u32) -> Result<(), NoMemory>
    requires there { before ≤ length pool.old.exprs }
    requires first { take before pool.old.exprs ≡ take before design.now.pool.exprs }
    requires least { before ≤ length design.now.pool.exprs }
    requires signals { pool.old.signals ≡ design.now.pool.signals }
    ensures { IfOk result (λ _. pool.new ≡ design.now.pool) }
{
    pool.keep_first(before);
    for i in before..design.count() {
        let e = renumbered(alloc, design.at(ExprId(i)), before, &[])?;
        pool.known();
        pool.more(e)?;
    }
    Ok(())
}

// What stands over the expressions is of their new numbers.
fn renumber_store(store: &mut Store, before: Before, now: &[ExprId])
    ensures { store.new ≡ record store.old { things = things_now before.things (number_now before.exprs now.now) store.old.things; kept = kepts_now before.kept (number_now before.exprs now.now) store.old.kept } }
{
    store.things.renumber(before.things, before.exprs, now);
    renumber_kept(store.kept.as_mut_slice(), before.kept, before.exprs, now);
}

// Those behind the first ones are of the new numbers.
fn renumber_kept(kept: &mut [Kept], from: usize, before: u32, now: &[ExprId])
    ensures { kept.new ≡ kepts_now from (number_now before now.now) kept.old }
{
    for i in from..kept.len() {
        kept[i] = kept_now(kept[i], before, now);
    }
}

fn begin_now(begin: Begin, before: u32, now: &[ExprId]) -> Begin
    ensures { result ≡ begin_now (number_now before now.now) begin }
{
    match begin {
        Begin::If(e) => Begin::If(number_now(e, before, now)),
        Begin::Elif(e) => Begin::Elif(number_now(e, before, now)),
        Begin::Switch(e) => Begin::Switch(number_now(e, before, now)),
        other => other,
    }
}

fn kept_now(kept: Kept, before: u32, now: &[ExprId]) -> Kept
    ensures { result ≡ kept_now (number_now before now.now) kept }
{
    match kept {
        Kept::Statement(s) => Kept::Statement(Equation {
            target: number_now(s.target, before, now),
            value: number_now(s.value, before, now),
            place: s.place,
        }),
        Kept::Block { of, begin } => Kept::Block {
            of,
            begin: begin_now(begin, before, now),
        },
        other => other,
    }
}
