// What a machine asks of the pool and of the builder.
ghost use Rattle.std.specs.Prelude.{◌≡◌, ◌+◌, ◌<◌, ◌∷◌, [], false, length, None, Some, IfOk, IfErr, OnOk};
ghost use Rattle.design_ir.specs.PoolRules.{IsAskable, shape_stop, bad_operand, greatest_width, expr_added};
ghost use Rattle.design_ir.specs.Values.{form};
ghost use Rattle.module_dsl.specs.Builders.{assign_refusal, and_given, and_entered, built_blocks, built_count, leave_refusal, and_left};
ghost use Rattle.module_dsl.specs.Blocks.{in_switch};
ghost use Rattle.fsm_lowering.specs.Machines.{open_switch, open_case, number_pattern, state_number};
ghost use Rattle.fsm_lowering.specs.Calls.{IsOwed, IsAtMost, stop_where, is_full, told};

use crate::refusal::FsmStop;
use crate::states::range_width;
use amh_bits::Int;
use amh_host::{Items, NoMemory, Place};
use design_ir::{Expr, ExprId, Exprs, Pattern, Patterns, Pool, PoolStop, Side};
use module_dsl::{Block, BuildStop, Builder};
use shape_rules::Shape;
use std::alloc::Global;

/// The pattern of a state's number.
pub fn number_pattern(alloc: Global, number: usize) -> Result<Patterns, NoMemory>
    ensures { IfOk result (λ ps. ps ≡ number_pattern number ∷ []) }
{
    let mut patterns = Items::new(alloc);
    patterns.push(Pattern {
        mask: u128::MAX,
        bits: number as u128,
    })?;
    Ok(patterns)
}

/// A state's number.
pub fn state_number(number: usize) -> Expr
    requires { number < 256 }
    ensures { result ≡ state_number number }
{
    Expr::Const {
        value: Int::of_u128(number as u128),
        shape: Shape {
            width: range_width(number + 1),
            signed: false,
        },
    }
}

/// An expression more, which the pool takes.
pub fn made(pool: &mut Pool, e: Expr) -> Result<ExprId, FsmStop>
    requires askable { IsAskable pool.old e }
    requires accepted { shape_stop (bad_operand (form pool.old) e) (greatest_width pool.old.signals (form pool.old) e) ≡ None }
    ensures made { IfOk result (λ id. (is_full pool.old ≡ false) × (id ≡ record { 0 = length pool.old.exprs }) × (pool.new ≡ expr_added pool.old e)) }
    ensures refused { IfErr result (λ stop. IsOwed (stop_where FsmStop.Limit (is_full pool.old) None) stop × (pool.new ≡ pool.old)) }
{
    match pool.expr(e) {
        Ok(id) => Ok(id),
        Err(PoolStop::Limit) => Err(FsmStop::Limit),
        // the pool takes its operands and its shape
        Err(_) => Err(FsmStop::NoMemory),
    }
}

/// A choice over this begins in the module.
pub fn begin_switch(pool: &mut Pool, b: &mut Builder, subject: ExprId) -> Result<(), FsmStop>
    ensures begun { IfOk result (λ _. (in_switch (built_blocks b.old).around ≡ false) × (b.new ≡ and_entered pool.old b.old (Block.Switch subject)) × (open_switch (built_blocks b.new).around ≡ Some subject)) }
    ensures count { built_count b.new ≡ built_count b.old }
    ensures refused { IfErr result (λ stop. IsOwed (stop_where FsmStop.Order (in_switch (built_blocks b.old).around) None) stop × (b.new ≡ b.old)) }
    ensures pool { pool.new ≡ pool.old }
{
    match b.enter(pool, Block::Switch(subject)) {
        Ok(()) => Ok(()),
        Err(BuildStop::Order) => Err(FsmStop::Order),
        // a switch makes no expression
        Err(_) => Err(FsmStop::NoMemory),
    }
}

/// A case begins in the choice over the register.
pub fn begin_case(
    pool: &mut Pool,
    b: &mut Builder,
    register: ExprId,
    patterns: Patterns,
) -> Result<(), FsmStop>
    requires in_place { open_switch (built_blocks b.old).around ≡ Some register }
    requires askable { IsAskable pool.old (Expr.Matches register patterns) }
    ensures begun { IfOk result (λ _. (is_full pool.old ≡ false) × (b.new ≡ and_entered pool.old b.old (Block.Case patterns)) × (pool.new ≡ expr_added pool.old (Expr.Matches register patterns)) × (open_case (built_blocks b.new).around ≡ Some register)) }
    ensures count { built_count b.new ≡ built_count b.old }
    ensures refused { IfErr result (λ stop. IsOwed (stop_where FsmStop.Limit (is_full pool.old) None) stop × IsAtMost pool.old (Expr.Matches register patterns) pool.new) }
{
    match b.enter(pool, Block::Case(patterns)) {
        Ok(()) => Ok(()),
        Err(BuildStop::Limit) => Err(FsmStop::Limit),
        // the choice takes a case
        Err(_) => Err(FsmStop::NoMemory),
    }
}

/// A statement of the module.
pub fn assign(
    pool: &Pool,
    b: &mut Builder,
    side: &Side,
    target: ExprId,
    value: ExprId,
    place: Place,
) -> Result<(), FsmStop>
    requires there { target.0 < length pool.now.exprs }
    ensures given { IfOk result (λ _. (assign_refusal pool.now b.old side.now target value place ≡ None) × (b.new ≡ and_given b.old side.now target value place)) }
    ensures refused { IfErr result (λ stop. IsOwed (told (assign_refusal pool.now b.old side.now target value place)) stop × (b.new ≡ b.old)) }
{
    match b.assign(pool, side, target, value, place) {
        Ok(()) => Ok(()),
        Err(BuildStop::Order) => Err(FsmStop::Order),
        Err(BuildStop::Limit) => Err(FsmStop::Limit),
        // the target is a register
        Err(_) => Err(FsmStop::NoMemory),
    }
}

/// The innermost block of the module ends.
pub fn leave(b: &mut Builder) -> Result<(), FsmStop>
    ensures left { IfOk result (λ _. (leave_refusal b.old ≡ None) × (b.new ≡ and_left b.old)) }
    ensures count { built_count b.new ≡ built_count b.old }
    ensures refused { IfErr result (λ stop. IsOwed (told (leave_refusal b.old)) stop × (b.new ≡ b.old)) }
{
    match b.leave() {
        Ok(()) => Ok(()),
        Err(BuildStop::Order) => Err(FsmStop::Order),
        Err(_) => Err(FsmStop::NoMemory),
    }
}
