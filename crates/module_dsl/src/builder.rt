// The builder of a module.
ghost use Rattle.std.specs.Prelude.{◌≡◌, ◌+◌, ◌<◌, ◌∷◌, false, ◌++◌, [], length, map, None, Some, IfOk, IfErr, OnOk, OnErr};
ghost use Rattle.module_dsl.specs.Builders.{assign_refusal, and_given, enter_refusal, and_entered, condition_made, built_blocks, built_count, opening_of, subject_of, case_subject_of, room_refusal, pool_with, leave_refusal, and_left, finish_refusal, fragment_of, condition_under, always, IsOwed, IsEnterable, IsMakeable, IsLeftAs};
ghost use Rattle.module_dsl.specs.Blocks.{in_switch};
ghost use Rattle.module_dsl.specs.Parting.{process_from};
ghost use Rattle.design_ir.specs.declared.ids.ExprId.{ExprId as Number};
ghost use Rattle.amh_host.specs.declared.place.Place.{Place as At};
ghost use Rattle.design_ir.specs.PoolRules.{IsAskable, shape_stop, bad_operand, greatest_width};
ghost use Rattle.design_ir.specs.Values.{form};

use crate::parting::part_of;
use crate::progress::{Progress, SideSoFar};
use crate::refusal::BuildStop;
use crate::sides::copied;
use crate::step::{Block, Opening, Step};
use crate::target::is_target;
use amh_bits::Int;
use amh_host::{Items, NoMemory, Place, Text};
use design_ir::{
    Expr, ExprId, Exprs, Fragment, Fragments, Pool, PoolStop, Process, Processes, Side,
};
use shape_rules::Shape;
use std::alloc::Global;
use std::marker::Model;

/// A module as its statements and blocks come. Contracts see its name and all that it was told, in order.
#[derive(Drop)]
pub struct Builder {
    alloc: Global,
    name: Text,
    steps: Vec<Step>,
    progress: Progress,
}

impl Model for Builder {
    ghost use Rattle.module_dsl.specs.Builders.{Built};

    ghost Value = { Built };

    ghost view = { λ a. record { name = a.name; steps = a.steps.items } };

    ghost use Rattle.module_dsl.specs.Blocks.{blocks_of};
    ghost use Rattle.module_dsl.specs.Progress.{IsProgress};

    ghost invariant = { λ a. IsProgress (blocks_of a.steps.items) a.progress };
}

impl Builder {
    /// A module of this name without statements.
    pub fn new(alloc: Global, name: &str) -> Result<Builder, NoMemory>
        ensures { IfOk result (λ b. b ≡ record { name = name.now; steps = [] }) }
    {
        let mut copy = Text::new(alloc);
        copy.push(name)?;
        Ok(Builder {
            alloc,
            name: copy,
            steps: Vec::new(alloc),
            progress: Progress::new(alloc),
        })
    }

    /// Adds a statement to its side, in the innermost block. `Order` comes exactly directly inside a `Switch`; else
    /// `NotTarget` exactly where the target is none; else `Limit` exactly where there would be more than 65,536
    /// statements, where a choice is one for each side that stands in it. A refusal changes nothing.
    pub fn assign(
        &mut self,
        pool: &Pool,
        side: &Side,
        target: ExprId,
        value: ExprId,
        place: Place,
    ) -> Result<(), BuildStop>
        requires { target.0 < length pool.now.exprs }
        ensures given { IfOk result (λ _. (assign_refusal pool.now self.old side.now target value place ≡ None) × (self.new ≡ and_given self.old side.now target value place)) }
        ensures refused { IfErr result (λ stop. IsOwed (assign_refusal pool.now self.old side.now target value place) stop × (self.new ≡ self.old)) }
    {
        if self.progress.in_switch() {
            return Err(BuildStop::Order);
        }
        if !is_target(self.alloc, pool, target)? {
            return Err(BuildStop::NotTarget);
        }
        let added = self.progress.added_by(side);
        if added > 65_536 || self.progress.statements > 65_536 - added {
            return Err(BuildStop::Limit);
        }
        let step = Step::Assign {
            side: copied(self.alloc, side)?,
            target,
            value,
            place,
        };
        tell(&mut self.steps, step)?;
        let Ok(()) = self.progress.give(self.alloc, side, added) else {
            self.steps.pop();
            return Err(BuildStop::NoMemory);
        };
        Ok(())
    }

    /// Whether the innermost block is a `Switch`, where no statement may stand.
    pub fn in_switch(&self) -> bool
        ensures { result ≡ in_switch (built_blocks self.now).around }
    {
        self.progress.in_switch()
    }

    /// The subject of the `Switch` that is the innermost block.
    pub fn subject(&self) -> ExprId
        ensures { result ≡ subject_of (built_blocks self.now).around }
    {
        self.progress.subject()
    }

    /// The subject of the `Switch` of which a case is the innermost block.
    pub fn case_subject(&self) -> Option<ExprId>
        ensures { result ≡ case_subject_of (built_blocks self.now).around }
    {
        self.progress.case_subject()
    }

    /// How many statements one of this side would be here: itself, and each open choice in which the side does not stand
    /// yet.
    pub fn added_by(&self, side: &Side) -> usize
        ensures { (target value : Number) (place : At) → in_switch (built_blocks self.now).around ≡ false → built_count (and_given self.now side.now target value place) ≡ built_count self.now + result }
    {
        self.progress.added_by(side)
    }

    /// A block begins. `Order` comes exactly for an `Elif` or `Else` not directly after its `If` or `Elif`, a `Case` or
    /// `Default` not directly in a `Switch`, or another block there; else `Limit` exactly where the pool has no room for
    /// the one expression that an `Else`, a `Case` or a `Default` makes. A refusal changes nothing, but that for want of
    /// memory the expression may stand in the pool. It is no statement.
    pub fn enter(&mut self, pool: &mut Pool, block: Block) -> Result<(), BuildStop>
        requires { IsEnterable pool.old self.old block }
        ensures entered { IfOk result (λ _. (enter_refusal pool.old self.old block ≡ None) × (self.new ≡ and_entered pool.old self.old block) × (pool.new ≡ pool_with pool.old (condition_made (built_blocks self.old) block))) }
        ensures count { OnOk result (built_count self.new ≡ built_count self.old) }
        ensures refused { IfErr result (λ stop. IsOwed (enter_refusal pool.old self.old block) stop × (self.new ≡ self.old) × IsLeftAs pool.old pool.new (condition_made (built_blocks self.old) block) stop) }
    {
        if !self.progress.may_begin(&block) {
            return Err(BuildStop::Order);
        }
        let opening = opening(pool, self.progress.subject(), block)?;
        tell(&mut self.steps, Step::Enter(opening))?;
        let Ok(()) = self.progress.enter(opening) else {
            self.steps.pop();
            return Err(BuildStop::NoMemory);
        };
        Ok(())
    }

    /// The innermost block ends. `Order` comes exactly where none is open. A refusal changes nothing.
    pub fn leave(&mut self) -> Result<(), BuildStop>
        ensures left { IfOk result (λ _. (leave_refusal self.old ≡ None) × (self.new ≡ and_left self.old)) }
        ensures count { OnOk result (built_count self.new ≡ built_count self.old) }
        ensures refused { IfErr result (λ stop. IsOwed (leave_refusal self.old) stop × (self.new ≡ self.old)) }
    {
        if self.progress.is_outermost() {
            return Err(BuildStop::Order);
        }
        tell(&mut self.steps, Step::Leave)?;
        self.progress.leave();
        Ok(())
    }

    /// The fragment of the module. `Order` comes exactly where a block is open.
    pub fn finish(self) -> Result<Fragment, BuildStop>
        ensures made { IfOk result (λ f. (finish_refusal self ≡ None) × (f ≡ fragment_of self)) }
        ensures refused { IfErr result (λ stop. IsOwed (finish_refusal self) stop) }
    {
        let alloc = self.alloc;
        let progress = self.progress;
        if !progress.is_outermost() {
            return Err(BuildStop::Order);
        }
        let processes = processes(alloc, progress.sides, self.steps.as_slice())?;
        Ok(Fragment {
            name: self.name,
            is_part: false,
            domains: Items::new(alloc),
            processes,
            memories: Items::new(alloc),
            submodules: Fragments::new(alloc),
        })
    }
}

// A step more.
fn tell(steps: &mut Vec<Step>, step: Step) -> Result<(), NoMemory>
    ensures told { OnOk result (steps.new.items ≡ steps.old.items ++ step ∷ []) }
    ensures refused { OnErr result (steps.new.items ≡ steps.old.items) }
{
    steps.push(step)?;
    Ok(())
}

// The begin of a block, and the expression that it needs.
fn opening(pool: &mut Pool, subject: ExprId, block: Block) -> Result<Opening, BuildStop>
    requires { IsMakeable pool.old (condition_under subject block) }
    ensures made { IfOk result (λ o. (room_refusal pool.old (condition_under subject block) ≡ None) × (o ≡ opening_of (length pool.old.exprs) block) × (pool.new ≡ pool_with pool.old (condition_under subject block))) }
    ensures refused { IfErr result (λ stop. IsOwed (room_refusal pool.old (condition_under subject block)) stop × (pool.new ≡ pool.old)) }
{
    Ok(match block {
        Block::If(c) => Opening::If(c),
        Block::Elif(c) => Opening::Elif(c),
        Block::Else => Opening::Else(made(pool, always())?),
        Block::Switch(v) => Opening::Switch(v),
        Block::Case(patterns) => {
            Opening::Case(made(
                pool,
                Expr::Matches {
                    a: subject,
                    patterns,
                },
            )?)
        }
        Block::Default => Opening::Case(made(pool, always())?),
    })
}

// 1, the condition of an `Else` and of a `Default`.
fn always() -> Expr
    ensures { result ≡ always }
{
    Expr::Const {
        value: Int::of_u128(1),
        shape: Shape {
            width: 1,
            signed: false,
        },
    }
}

// An expression more, of one bit.
fn made(pool: &mut Pool, e: Expr) -> Result<ExprId, BuildStop>
    requires askable { IsAskable pool.old e }
    requires accepted { shape_stop (bad_operand (form pool.old) e) (greatest_width pool.old.signals (form pool.old) e) ≡ None }
    ensures made { IfOk result (λ id. (room_refusal pool.old (Some e) ≡ None) × (id ≡ record { 0 = length pool.old.exprs }) × (pool.new ≡ pool_with pool.old (Some e))) }
    ensures refused { IfErr result (λ stop. IsOwed (room_refusal pool.old (Some e)) stop × (pool.new ≡ pool.old)) }
{
    match pool.expr(e) {
        Ok(id) => Ok(id),
        Err(PoolStop::Limit) => Err(BuildStop::Limit),
        // its shape is no wider than one bit
        Err(_) => Err(BuildStop::NoMemory),
    }
}

// One process for each side.
fn processes(alloc: Global, sides: Vec<SideSoFar>, steps: &[Step]) -> Result<Processes, NoMemory>
    ensures { IfOk result (λ ps. ps ≡ map (process_from steps.now) sides.items) }
{
    let mut list = Items::new(alloc);
    for x in sides {
        let body = part_of(alloc, &x.side, steps)?;
        list.push(Process { side: x.side, body })?;
    }
    Ok(list)
}
