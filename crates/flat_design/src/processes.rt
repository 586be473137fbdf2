// The statements of one process, flat.
ghost use Rattle.std.specs.Prelude.{◌≡◌, ◌<◌, ℕ, List, ℤ, Bool, All, length, true, is_some, slice_get, slice_index_or, Some, [], IfOk, IfSome, IsTrue};
ghost use Rattle.std.specs.List.{AllByRecursion};
ghost use Rattle.design_ir.specs.Designs.{IsDesign, IsProcess};
ghost use Rattle.design_ir.specs.Pools.{Pooled};
ghost use Rattle.design_ir.specs.PoolRules.{IsPool};
ghost use Rattle.design_ir.specs.Trees.{Block};
ghost use Rattle.design_ir.specs.Guards.{block_exprs, driven};
ghost use Rattle.design_ir.specs.Circuits.{is_among};
ghost use Rattle.design_ir.specs.Fixed.{is_fixed, is_plain};
ghost use Rattle.flat_design.specs.Growing.{IsMore, IsReadable};
ghost use Rattle.flat_design.specs.Sources.{IsSource};
ghost use Rattle.flat_design.specs.Shown.{AreSlots};
ghost use Rattle.flat_design.specs.Found.{numbers_of};
ghost use Rattle.flat_design.specs.Assigned.{AreAssigned, IsStart, begins, AreReady};
ghost use Rattle.flat_design.specs.Flat.{IsFlatBody};

use crate::adding::added;
use crate::assignments::Latest;
use crate::blocks::put_block;
use crate::found::{SigIds, driven_signals};
use crate::plain::plain_copy;
use crate::sources::{Sources, bits_of, joined};
use amh_host::{Items, NoMemory, Place};
use design_ir::{Design, DesignProcess, Expr, ExprId, Exprs, Pool, SigId, Stmt, Stmts};
use std::alloc::Global;

/// The pool as it grows, and flat statements.
#[derive(Drop)]
pub(crate) struct FlatBody {
    pub pool: Pool,
    pub body: Stmts,
}

/// Flat statements for those of a process, over a pool that has grown from the design's. Statements that choose nothing
/// and have fixed targets stay as they are.
pub(crate) fn flat_body(
    alloc: Global,
    design: &Design,
    pool: Pool,
    process: &DesignProcess,
) -> Result<FlatBody, NoMemory>
    requires more { IsMore design.now.pool pool }
    requires process { IsProcess design.now process.now }
    ensures more { IfOk result (λ f. IsMore pool f.pool) }
    ensures flat { IfOk result (λ f. IsFlatBody design.now.pool f.pool (is_some process.now.domain) process.now.body f.body) }
{
    let _ = design.count();
    match plain_copy(alloc, design, &process.body)? {
        Some(body) => Ok(FlatBody { pool, body }),
        None => slotted_body(alloc, design, pool, process),
    }
}

// Statements that give each signal that a process drives its slot.
fn slotted_body(
    alloc: Global,
    design: &Design,
    pool: Pool,
    process: &DesignProcess,
) -> Result<FlatBody, NoMemory>
    requires more { IsMore design.now.pool pool }
    requires process { IsProcess design.now process.now }
    ensures more { IfOk result (λ f. IsMore pool f.pool) }
    ensures flat { IfOk result (λ f. IsFlatBody design.now.pool f.pool (is_some process.now.domain) process.now.body f.body) }
{
    let _ = design.count();
    let signals = driven_signals(alloc, design, &process.body)?;
    let mut latest = started(alloc, design, pool, process.domain.is_some(), &signals)?;
    put_block(alloc, &mut latest, None, &process.body)?;
    assigned(alloc, latest, &signals)
}

// The slots before any statement.
fn started(
    alloc: Global,
    design: &Design,
    pool: Pool,
    clocked: bool,
    signals: &SigIds,
) -> Result<Latest, NoMemory>
    requires more { IsMore design.now.pool pool }
    requires there { All (λ s. s.0 < length design.now.pool.signals) signals.now }
    ensures more { IfOk result (λ latest. IsMore pool latest.pool) }
    ensures started { (driven : List ℕ) → ((s : ℕ) → is_among (numbers_of signals.now) s ≡ is_among driven s) → IfOk result (λ latest. AreSlots (begins design.now.pool clocked driven) latest.pool latest.slots.items) }
{
    pool.known();
    let slots = no_slots(alloc, design.signals())?;
    let mut latest = Latest { pool, slots };
    for s in signals.as_slice() {
        let sources = start(alloc, design, &mut latest.pool, clocked, *s)?;
        latest.slots[s.0 as usize] = sources;
    }
    Ok(latest)
}

// So many slots without sources.
fn no_slots(alloc: Global, count: u32) -> Result<Vec<Sources>, NoMemory>
    ensures { IfOk result (λ slots. length slots.items ≡ count) }
{
    let mut slots = Vec::new(alloc);
    for i in 0..count {
        let _ = i;
        slots.push(Items::new(alloc))?;
    }
    Ok(slots)
}

// The sources of a signal before any statement: a register keeps its number, another signal has its init.
fn start(
    alloc: Global,
    design: &Design,
    pool: &mut Pool,
    clocked: bool,
    s: SigId,
) -> Result<Sources, NoMemory>
    requires more { IsMore design.now.pool pool.old }
    requires there { s.0 < length design.now.pool.signals }
    ensures more { IfOk result (λ _. IsMore pool.old pool.new) }
    ensures rules { IfOk result (λ _. IsPool pool.new) }
    ensures start { IfOk result (IsStart design.now.pool pool.new clocked s.0) }
{
    let _ = design.count();
    pool.known();
    let sig = design.sig_at(s);
    let width = sig.shape.width as usize;
    if clocked {
        let number = added(pool, Expr::Sig(s))?;
        return bits_of(alloc, number, width);
    }
    let number = added(
        pool,
        Expr::Const {
            value: sig.init,
            shape: sig.shape,
        },
    )?;
    bits_of(alloc, number, width)
}

// An assignment of its slot to each of these signals.
fn assigned(alloc: Global, latest: Latest, signals: &SigIds) -> Result<FlatBody, NoMemory>
    requires { AreReady latest.pool latest.slots.items signals.now }
    ensures more { IfOk result (λ f. IsMore latest.pool f.pool) }
    ensures assigned { IfOk result (λ f. AreAssigned f.pool latest.slots.items signals.now f.body) }
{
    let Latest { mut pool, slots } = latest;
    pool.known();
    let mut body = Stmts::new(alloc);
    for s in signals.as_slice() {
        let value = joined(alloc, &mut pool, slots[s.0 as usize].as_slice())?;
        let target = added(&mut pool, Expr::Sig(*s))?;
        body.push(Stmt::Assign {
            target,
            value,
            place: FILE_START,
        })?;
    }
    Ok(FlatBody { pool, body })
}

const FILE_START: Place = Place { line: 1, col: 1 };
