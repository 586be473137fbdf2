// The statements of one side, taken out of all that a builder was told.
ghost use Rattle.std.specs.Prelude.{◌≡◌, ◌∷◌, IfOk, if◌then◌else◌};
ghost use Rattle.design_ir.specs.Trees.{done, none};
ghost use Rattle.design_ir.specs.Statements.{statement_of};
ghost use Rattle.module_dsl.specs.Parting.{is_left, with_choice, arms_with, part_content, part_opened, part_inside, part_entered, part_left, part_left_from, part_given, part_closed, part_after, part_of, parted};

use crate::sides::is_same;
use crate::step::{OpenBlock, Opening, Step};
use amh_host::NoMemory;
use design_ir::{Arm, Arms, ExprId, Side, Stmt, Stmts};
use std::alloc::Global;
use std::collections::VecDeque;

/// A choice that is open: what stands before it, its branches so far, and the block that is open in it.
#[derive(Drop)]
pub struct Frame {
    pub before: Stmts,
    pub arms: Arms,
    pub block: OpenBlock,
}

/// The statements of the innermost block, the branches directly before that may go on, and the choices that are open, the
/// innermost first.
#[derive(Drop)]
pub struct Parts {
    pub body: Stmts,
    pub chain: Arms,
    pub around: VecDeque<Frame>,
}

/// The statements of a side in what was told.
pub fn part_of(alloc: Global, side: &Side, steps: &[Step]) -> Result<Stmts, NoMemory>
    ensures { IfOk result (λ body. body ≡ part_of side.now steps.now) }
{
    let mut parts = Parts {
        body: Stmts::new(alloc),
        chain: Arms::new(alloc),
        around: VecDeque::new(alloc),
    };
    for step in steps {
        parts = parts.after(alloc, side, step)?;
    }
    with_choice(parts.body, parts.chain)
}

impl Parts {
    // After one step more.
    fn after(self, alloc: Global, side: &Side, step: &Step) -> Result<Parts, NoMemory>
        ensures { IfOk result (λ p. parted p ≡ part_after side.now (parted self) step.now) }
    {
        match step {
            Step::Assign {
                side: other,
                target,
                value,
                place,
            } => {
                let statement = Stmt::Assign {
                    target: *target,
                    value: *value,
                    place: *place,
                };
                let is_ours = is_same(side, other);
                self.given(alloc, is_ours, statement)
            }
            Step::Enter(opening) => self.entered(alloc, *opening),
            Step::Leave => self.left(alloc),
        }
    }

    // The chain goes on no more.
    fn closed(self, alloc: Global) -> Result<Parts, NoMemory>
        ensures { IfOk result (λ p. parted p ≡ part_closed (parted self)) }
    {
        Ok(Parts {
            body: with_choice(self.body, self.chain)?,
            chain: Arms::new(alloc),
            around: self.around,
        })
    }

    // A statement is given, which may be of another side.
    fn given(self, alloc: Global, is_ours: bool, statement: Stmt) -> Result<Parts, NoMemory>
        ensures { IfOk result (λ p. parted p ≡ (if is_ours then part_given (statement_of statement) (parted self) else part_closed (parted self))) }
    {
        let mut parts = self.closed(alloc)?;
        if is_ours {
            parts.body.push(statement)?;
        }
        Ok(parts)
    }

    // A block begins.
    fn entered(self, alloc: Global, opening: Opening) -> Result<Parts, NoMemory>
        ensures { IfOk result (λ p. parted p ≡ part_entered opening (parted self)) }
    {
        match opening {
            Opening::If(c) => self.closed(alloc)?.opened(alloc, OpenBlock::Branch(c)),
            Opening::Switch(v) => self.closed(alloc)?.opened(alloc, OpenBlock::Switch(v)),
            Opening::Elif(c) => self.opened(alloc, OpenBlock::Branch(c)),
            Opening::Else(c) => self.opened(alloc, OpenBlock::Last(c)),
            Opening::Case(c) => self.case_opened(alloc, c),
        }
    }

    // A block begins; its choice has the branches that may go on.
    fn opened(self, alloc: Global, block: OpenBlock) -> Result<Parts, NoMemory>
        ensures { IfOk result (λ p. parted p ≡ part_opened self.body self.chain block self.around.items) }
    {
        let mut around = self.around;
        around.push_front(Frame {
            before: self.body,
            arms: self.chain,
            block,
        })?;
        Ok(inside(alloc, around))
    }

    // A case begins, directly in its `Switch`.
    fn case_opened(self, alloc: Global, condition: ExprId) -> Result<Parts, NoMemory>
        ensures { IfOk result (λ p. parted p ≡ part_entered (Opening.Case condition) (parted self)) }
    {
        let mut parts = self;
        let Some(frame) = parts.around.pop_front() else {
            return Ok(parts);
        };
        match frame.block {
            OpenBlock::Switch(subject) => {
                let mut around = parts.around;
                around.push_front(Frame {
                    before: frame.before,
                    arms: frame.arms,
                    block: OpenBlock::Case { subject, condition },
                })?;
                Ok(inside(alloc, around))
            }
            _ => {
                parts.around.push_front(frame)?;
                Ok(parts)
            }
        }
    }

    // The innermost block ends.
    fn left(self, alloc: Global) -> Result<Parts, NoMemory>
        ensures { IfOk result (λ p. parted p ≡ part_left (parted self)) }
    {
        let mut parts = self;
        let Some(frame) = parts.around.pop_front() else {
            return Ok(parts);
        };
        let body = with_choice(parts.body, parts.chain)?;
        let arms = with_arm(frame.block, frame.arms, body)?;
        left_from(alloc, frame.block, frame.before, arms, parts.around)
    }
}

// Nothing stands yet in the innermost block.
fn inside(alloc: Global, around: VecDeque<Frame>) -> Parts
    ensures { parted result ≡ part_inside around.items }
{
    Parts {
        body: Stmts::new(alloc),
        chain: Arms::new(alloc),
        around,
    }
}

// What stands round a block that ended; its choice may go on.
fn left_from(
    alloc: Global,
    block: OpenBlock,
    before: Stmts,
    arms: Arms,
    around: VecDeque<Frame>,
) -> Result<Parts, NoMemory>
    ensures { IfOk result (λ p. parted p ≡ part_left_from block before arms around.items) }
{
    match block {
        OpenBlock::Branch(_) => Ok(Parts {
            body: before,
            chain: arms,
            around,
        }),
        OpenBlock::Last(_) | OpenBlock::Switch(_) => Ok(Parts {
            body: with_choice(before, arms)?,
            chain: Arms::new(alloc),
            around,
        }),
        OpenBlock::Case { subject, .. } => {
            let mut around = around;
            around.push_front(Frame {
                before,
                arms,
                block: OpenBlock::Switch(subject),
            })?;
            Ok(inside(alloc, around))
        }
    }
}

// The branches with that of the block that ends.
fn with_arm(block: OpenBlock, arms: Arms, body: Stmts) -> Result<Arms, NoMemory>
    ensures { IfOk result (λ all. all ≡ arms_with block arms body) }
{
    let mut arms = arms;
    match block {
        OpenBlock::Branch(condition)
        | OpenBlock::Last(condition)
        | OpenBlock::Case { condition, .. } => arms.push(Arm { condition, body })?,
        OpenBlock::Switch(_) => {}
    }
    Ok(arms)
}

// A choice at the end, where something is left of it.
fn with_choice(body: Stmts, arms: Arms) -> Result<Stmts, NoMemory>
    ensures { IfOk result (λ all. all ≡ with_choice body arms) }
{
    let mut body = body;
    if is_left(&arms) {
        body.push(Stmt::Choose(arms))?;
    }
    Ok(body)
}

// Whether some branch has statements.
fn is_left(arms: &Arms) -> bool
    ensures { result ≡ is_left arms.now }
{
    for arm in arms.as_slice() {
        if arm.body.len() > 0 {
            return true;
        }
    }
    false
}
