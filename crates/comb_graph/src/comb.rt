// Which signals are combinational.
ghost use Rattle.std.specs.Prelude.{◌≡◌, ◌<◌, ◌+◌, All, length, IfOk};
ghost use Rattle.std.specs.List.{flat_map, AllByRecursion};
ghost use Rattle.design_ir.specs.Named.{AllBelow};
ghost use Rattle.design_ir.specs.PoolRules.{IsPool};
ghost use Rattle.design_ir.specs.Designs.{IsDesign};
ghost use Rattle.comb_graph.specs.CombTargets.{IsMarked, FindsSame, numbers, own_signals, target_parts, comb_word, comb_words};
ghost use Rattle.comb_graph.specs.CombNodes.{AreCombSignals};

use crate::drives::{mark, mark_processes};
use amh_host::NoMemory;
use design_ir::{Design, Expr, ExprId, Exprs, MemRead};
use std::alloc::Global;

// Marks expressions.
fn mark_all(exprs: &mut Vec<bool>, items: &[ExprId])
    requires { AllBelow (length exprs.old.items) items.now }
    ensures { IsMarked (numbers items.now) exprs.old.items exprs.new.items }
{
    for e in items {
        mark(exprs, e.0 as usize);
    }
}

// Marks the signal that a target is, and the expressions that are its parts.
fn mark_parts(expr: &Expr, exprs: &mut Vec<bool>, signals: &mut Vec<bool>)
    requires parts { AllBelow (length exprs.old.items) (target_parts expr.now) }
    requires own { All (λ s. s < length signals.old.items) (own_signals expr.now) }
    ensures parts { IsMarked (numbers (target_parts expr.now)) exprs.old.items exprs.new.items }
    ensures own { IsMarked (own_signals expr.now) signals.old.items signals.new.items }
{
    match expr {
        Expr::Sig(s) => mark(signals, s.0 as usize),
        Expr::Slice { a, .. } | Expr::Part { a, .. } | Expr::Cast { a, .. } => mark(
            exprs,
            a.0 as usize,
        ),
        Expr::Cat(items) | Expr::Pick { items, .. } => mark_all(exprs, items.as_slice()),
        Expr::Const { .. }
        | Expr::Unary { .. }
        | Expr::Binary { .. }
        | Expr::Mux { .. }
        | Expr::Matches { .. }
        | Expr::Reset { .. } => {}
    }
}

// Hands the mark of an expression down to its parts.
fn spread(design: &Design, exprs: &mut Vec<bool>, signals: &mut Vec<bool>, e: ExprId)
    requires rules { IsPool design.now.pool }
    requires exprs { length exprs.old.items ≡ length design.now.pool.exprs }
    requires signals { length signals.old.items ≡ length design.now.pool.signals }
    requires there { e.0 < length design.now.pool.exprs }
    ensures { FindsSame design.now.pool exprs.old.items signals.old.items (e.0 + 1) exprs.new.items signals.new.items e.0 }
{
    if exprs[e.0 as usize] {
        mark_parts(design.at(e), exprs, signals);
    }
}

// Marks the signals of which marked expressions are parts.
fn spread_all(design: &Design, exprs: &mut Vec<bool>, signals: &mut Vec<bool>)
    requires exprs { length exprs.old.items ≡ length design.now.pool.exprs }
    requires signals { length signals.old.items ≡ length design.now.pool.signals }
    ensures { FindsSame design.now.pool exprs.old.items signals.old.items (length design.now.pool.exprs) exprs.new.items signals.new.items 0 }
{
    let count = design.count();
    for i in 0..count {
        spread(design, exprs, signals, ExprId(count - 1 - i));
    }
}

// Marks the data of a read port, where it is combinational.
fn mark_read(signals: &mut Vec<bool>, read: &MemRead)
    requires { read.now.word.0 < length signals.old.items }
    ensures { IsMarked (comb_word read.now) signals.old.items signals.new.items }
{
    match read.domain {
        Some(_) => {}
        None => mark(signals, read.word.0 as usize),
    }
}

// Marks the data of the combinational read ports of a memory.
fn mark_reads(signals: &mut Vec<bool>, reads: &[MemRead])
    requires { AllByRecursion (λ (r : MemRead). r.word.0 < length signals.old.items) reads.now }
    ensures { IsMarked (flat_map comb_word reads.now) signals.old.items signals.new.items }
{
    for read in reads {
        mark_read(signals, read);
    }
}

// Marks the data of all combinational read ports.
fn mark_memories(design: &Design, signals: &mut Vec<bool>)
    requires rules { IsDesign design.now }
    requires signals { length signals.old.items ≡ length design.now.pool.signals }
    ensures { IsMarked (flat_map comb_words design.now.memories) signals.old.items signals.new.items }
{
    for memory in design.memories().as_slice() {
        mark_reads(signals, memory.reads.as_slice());
    }
}

/// Whether each signal is combinational.
pub fn comb_signals(alloc: Global, design: &Design) -> Result<Vec<bool>, NoMemory>
    ensures { IfOk result (λ v. AreCombSignals design.now v.items) }
{
    let mut exprs = vec![in alloc; false; design.count() as usize]?;
    let mut signals = vec![in alloc; false; design.signals() as usize]?;
    let _ = design.processes();
    mark_processes(design, &mut exprs);
    spread_all(design, &mut exprs, &mut signals);
    mark_memories(design, &mut signals);
    Ok(signals)
}
