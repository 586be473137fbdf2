// What a `ResetInserter` makes of processes.
ghost use Rattle.std.specs.Prelude.{◌≡◌, ◌++◌, ◌<◌, ◌≤◌, if◌then◌else◌, List, None, Option, length, option_to_list, slice_get, IfOk, OnOk};
ghost use Rattle.std.specs.List.{AllByRecursion, flat_map};
ghost use Rattle.design_ir.specs.declared.ids.ExprId.{ExprId};
ghost use Rattle.design_ir.specs.Guards.{block_exprs};
ghost use Rattle.design_ir.specs.Named.{AllBelow};
ghost use Rattle.design_ir.specs.Statements.{statement_of};
ghost use Rattle.design_ir.specs.Trees.{arm, block_and, choose, none};
ghost use Rattle.domain_transforms.specs.Making.{each_in};
ghost use Rattle.domain_transforms.specs.Placed.{ArePlaces, IsInitial};
ghost use Rattle.domain_transforms.specs.Resetting.{init_block, init_statement, place_from, register_of, reset_process, reset_registers};

use crate::controls::{Controls, side_control};
use crate::driven::{SIGNALS, driven_marks};
use amh_bits::Int;
use amh_host::{Items, NoMemory, Place};
use design_ir::{Arm, Arms, Expr, ExprId, Exprs, Pool, Process, Processes, SigId, Stmt, Stmts};
use fragment_walks::copies::copied_process;
use shape_rules::Shape;
use std::alloc::Global;

/// A register that is reset: an expression that is it, and what it takes.
#[derive(Drop)]
pub struct Register {
    pub target: ExprId,
    pub init: Int,
    pub shape: Shape,
}

// A signal as a register, unless it is reset-less, not driven, or no expression is it.
fn reset_register(
    pool: &Pool,
    places: &[Option<ExprId>],
    driven: bool,
    s: usize,
) -> Option<Register>
    requires places { ArePlaces pool.now.exprs places.now }
    requires signal { s < 16384 }
    ensures { result ≡ (if driven then register_of (place_from s 0 pool.now.exprs) (slice_get pool.now.signals s) else None) }
{
    let _ = pool.count();
    if !driven {
        return None;
    }
    let target = places[s]?;
    let signal = pool.sig_at(SigId(s as u32));
    if signal.reset_less {
        return None;
    }
    Some(Register {
        target,
        init: signal.init,
        shape: signal.shape,
    })
}

// Adds a register, where there is one.
fn add_register(registers: &mut Vec<Register>, register: Option<Register>) -> Result<(), NoMemory>
    ensures { OnOk result (registers.new.items ≡ registers.old.items ++ option_to_list register) }
{
    if let Some(register) = register {
        registers.push(register)?;
    }
    Ok(())
}

// The registers that statements drive and that are not reset-less.
fn reset_registers(
    alloc: Global,
    pool: &Pool,
    places: &[Option<ExprId>],
    body: &Stmts,
) -> Result<Vec<Register>, NoMemory>
    requires there { AllBelow (length pool.now.exprs) (block_exprs body.now) }
    requires places { ArePlaces pool.now.exprs places.now }
    ensures registers { IfOk result (λ v. v.items ≡ reset_registers pool.now body.now) }
    ensures initial { IfOk result (λ v. AllByRecursion IsInitial v.items) }
{
    let _ = pool.count();
    let marks = driven_marks(alloc, pool, body)?;
    let mut registers = Vec::new(alloc);
    for s in 0..SIGNALS {
        let register = reset_register(pool, places, marks[s], s);
        add_register(&mut registers, register)?;
    }
    Ok(registers)
}

// An assignment of its init to a register.
fn init_statement(pool: &mut Pool, register: &Register) -> Result<Stmt, NoMemory>
    requires { IsInitial register.now }
    ensures more { OnOk result (length pool.old.exprs ≤ length pool.new.exprs) }
    ensures places { (places : List (Option ExprId)) → ArePlaces pool.old.exprs places → OnOk result (ArePlaces pool.new.exprs places) }
    ensures made { IfOk result (λ s. (statement_of s, pool.new) ≡ init_statement pool.old register.now) }
{
    let value = pool.more(Expr::Const {
        value: register.init,
        shape: register.shape,
    })?;
    Ok(Stmt::Assign {
        target: register.target,
        value,
        place: FILE_START,
    })
}

// An assignment of its init to each of these registers.
fn init_statements(
    alloc: Global,
    pool: &mut Pool,
    registers: &[Register],
) -> Result<Stmts, NoMemory>
    requires { AllByRecursion IsInitial registers.now }
    ensures more { OnOk result (length pool.old.exprs ≤ length pool.new.exprs) }
    ensures places { (places : List (Option ExprId)) → ArePlaces pool.old.exprs places → OnOk result (ArePlaces pool.new.exprs places) }
    ensures made { IfOk result (λ b. (b, pool.new) ≡ init_block (each_in init_statement pool.old registers.now)) }
{
    let mut body = Stmts::new(alloc);
    for register in registers {
        body.push(init_statement(pool, register)?)?;
    }
    Ok(body)
}

// Statements, and behind them others that are carried out where a condition is not 0.
fn with_choice(
    alloc: Global,
    body: Stmts,
    condition: ExprId,
    inits: Stmts,
) -> Result<Stmts, NoMemory>
    ensures { IfOk result (λ b. b ≡ block_and body (choose (arm condition inits none))) }
{
    let mut body = body;
    let mut arms = Arms::new(alloc);
    arms.push(Arm {
        condition,
        body: inits,
    })?;
    body.push(Stmt::Choose(arms))?;
    Ok(body)
}

// A process whose registers the control of its domain resets.
fn reset_process(
    alloc: Global,
    pool: &mut Pool,
    controls: &Controls,
    places: &[Option<ExprId>],
    process: &Process,
) -> Result<Process, NoMemory>
    requires there { AllBelow (length pool.old.exprs) (block_exprs process.now.body) }
    requires places { ArePlaces pool.old.exprs places.now }
    ensures more { OnOk result (length pool.old.exprs ≤ length pool.new.exprs) }
    ensures places { OnOk result (ArePlaces pool.new.exprs places.now) }
    ensures made { IfOk result (λ p. (p, pool.new) ≡ reset_process controls.now pool.old process.now) }
{
    pool.known();
    let Process { side, body } = copied_process(alloc, process)?;
    let Some(condition) = side_control(controls, &side) else {
        return Ok(Process { side, body });
    };
    let registers = reset_registers(alloc, pool, places, &body)?;
    let inits = init_statements(alloc, pool, registers.as_slice())?;
    let body = with_choice(alloc, body, condition, inits)?;
    Ok(Process { side, body })
}

/// Processes whose registers the controls of their domains reset.
pub(crate) fn reset_processes(
    alloc: Global,
    pool: &mut Pool,
    controls: &Controls,
    places: &[Option<ExprId>],
    processes: &Processes,
) -> Result<Processes, NoMemory>
    requires there { AllBelow (length pool.old.exprs) (flat_map (λ p. block_exprs p.body) processes.now) }
    requires places { ArePlaces pool.old.exprs places.now }
    ensures more { OnOk result (length pool.old.exprs ≤ length pool.new.exprs) }
    ensures places { OnOk result (ArePlaces pool.new.exprs places.now) }
    ensures made { IfOk result (λ ps. (ps, pool.new) ≡ each_in (reset_process controls.now) pool.old processes.now) }
{
    let mut all = Items::new(alloc);
    for process in processes.as_slice() {
        all.push(reset_process(alloc, pool, controls, places, process)?)?;
    }
    Ok(all)
}

const FILE_START: Place = Place { line: 1, col: 1 };
