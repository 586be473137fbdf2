// What a builder keeps beside what it was told: which sides there are, which blocks are open, and how many statements.
ghost use Rattle.std.specs.Prelude.{◌≡◌, ◌∷◌, ℕ, ◌+◌, ◌≤◌, true, false, map, length, drop, slice_set, Some, None, ◌≢◌, OnOk, OnErr};
ghost use Rattle.module_dsl.specs.Blocks.{Blocks, Given, begun, and_statement, entered, left, entries_of, in_switch, is_outermost, may_begin};
ghost use Rattle.design_ir.specs.declared.ids.ExprId.{ExprId as Subject};
ghost use Rattle.module_dsl.specs.Builders.{opening_of, subject_of, case_subject_of};
ghost use Rattle.module_dsl.specs.Sided.{statement_count};
ghost use Rattle.module_dsl.specs.Progress.{IsProgress, IsMoved, IsAsBefore, one_where, touched, clipped, has_kept, with_side, kept_reach, first_of};

use crate::sides::{copied, is_same};
use crate::step::{Block, OpenBlock, Opening};
use amh_host::NoMemory;
use design_ir::{ExprId, Side};
use std::alloc::Global;
use std::collections::VecDeque;

/// A side that has statements, and in how many of the open choices, counted from the outermost, it stands. A chain that
/// may go on counts as open.
#[derive(Drop)]
pub struct SideSoFar {
    pub side: Side,
    pub reach: usize,
}

/// What follows from the steps so far: the sides in order of their first statements, the open blocks, the innermost
/// first, whether an `Elif` or an `Else` may come, and how many statements there are.
#[derive(Drop)]
pub struct Progress {
    pub sides: Vec<SideSoFar>,
    pub blocks: VecDeque<OpenBlock>,
    pub goes_on: bool,
    pub statements: usize,
}

impl Progress {
    /// Nothing was told yet, which takes no memory.
    pub fn new(alloc: Global) -> Progress
        ensures { IsProgress begun result }
    {
        Progress {
            sides: Vec::new(alloc),
            blocks: VecDeque::new(alloc),
            goes_on: false,
            statements: 0,
        }
    }

    /// Whether the innermost block is a `Switch`.
    pub fn in_switch(&self) -> bool
        ensures { (b : Blocks) → IsProgress b self.now → result ≡ in_switch b.around }
    {
        match self.innermost() {
            Some(OpenBlock::Switch(_)) => true,
            _ => false,
        }
    }

    /// How many statements one of this side is: itself, and each open choice in which the side does not stand yet.
    pub fn added_by(&self, side: &Side) -> usize
        ensures { (b : Blocks) (g : Given) → IsProgress b self.now → in_switch b.around ≡ false → g.side ≡ side.now → statement_count (entries_of (and_statement g b)) ≡ self.now.statements + result }
    {
        let depth = self.blocks.len();
        let reach = reach_of(self.sides.as_slice(), side).min(depth);
        depth - reach + 1
    }

    /// A statement of a side is given, which is so many statements.
    pub fn give(&mut self, alloc: Global, side: &Side, added: usize) -> Result<(), NoMemory>
        requires { self.old.statements + added ≤ 65536 }
        ensures given { OnOk result ((b : Blocks) (g : Given) → IsProgress b self.old → in_switch b.around ≡ false → g.side ≡ side.now → statement_count (entries_of (and_statement g b)) ≡ self.old.statements + added → IsProgress (and_statement g b) self.new) }
        ensures refused { OnErr result ((b : Blocks) → IsProgress b self.old → IsProgress b self.new) }
    {
        with_side(alloc, &mut self.sides, side)?;
        touch(self.sides.as_mut_slice(), side, self.blocks.len());
        self.goes_on = false;
        self.statements += added;
        Ok(())
    }

    /// Whether a block may begin here.
    pub fn may_begin(&self, block: &Block) -> bool
        ensures { (b : Blocks) (made : ℕ) → IsProgress b self.now → result ≡ may_begin (opening_of made block.now) b }
    {
        match block {
            Block::If(_) | Block::Switch(_) => !self.in_switch(),
            Block::Elif(_) | Block::Else => self.goes_on,
            Block::Case(_) | Block::Default => self.in_switch(),
        }
    }

    /// The subject of the `Switch` that is the innermost block.
    pub fn subject(&self) -> ExprId
        ensures { (b : Blocks) → IsProgress b self.now → result ≡ subject_of b.around }
    {
        match self.innermost() {
            Some(OpenBlock::Switch(subject)) => subject,
            _ => ExprId(0),
        }
    }

    /// The subject of the `Switch` of which a case is the innermost block.
    pub fn case_subject(&self) -> Option<ExprId>
        ensures { (b : Blocks) → IsProgress b self.now → result ≡ case_subject_of b.around }
    {
        match self.innermost() {
            Some(OpenBlock::Case { subject, .. }) => Some(subject),
            _ => None,
        }
    }

    /// Whether no block is open.
    pub fn is_outermost(&self) -> bool
        ensures { (b : Blocks) → IsProgress b self.now → result ≡ is_outermost b.around }
    {
        self.blocks.len() == 0
    }

    /// A block begins where it may.
    pub fn enter(&mut self, opening: Opening) -> Result<(), NoMemory>
        ensures entered { OnOk result ((b : Blocks) → IsProgress b self.old → may_begin opening b ≡ true → IsProgress (entered opening b) self.new) }
        ensures statements { OnOk result (self.new.statements ≡ self.old.statements) }
        ensures refused { OnErr result ((b : Blocks) → IsProgress b self.old → IsProgress b self.new) }
    {
        match opening {
            Opening::If(c) => self.begin(OpenBlock::Branch(c)),
            Opening::Switch(v) => self.begin(OpenBlock::Switch(v)),
            Opening::Elif(c) => self.go_on(OpenBlock::Branch(c)),
            Opening::Else(c) => self.go_on(OpenBlock::Last(c)),
            Opening::Case(condition) => {
                self.begin_case(condition);
                Ok(())
            }
        }
    }

    /// The innermost block ends.
    pub fn leave(&mut self)
        ensures left { (b : Blocks) → IsProgress b self.old → IsProgress (left b) self.new }
        ensures statements { self.new.statements ≡ self.old.statements }
    {
        match self.innermost() {
            None => {}
            Some(OpenBlock::Branch(_)) => self.end(true),
            Some(OpenBlock::Last(_)) => self.end(false),
            Some(OpenBlock::Switch(_)) => self.end(false),
            Some(OpenBlock::Case { subject, .. }) => self.end_case(subject),
        }
    }

    // The innermost block.
    fn innermost(&self) -> Option<OpenBlock>
        ensures { result ≡ first_of self.now.blocks.items }
    {
        self.blocks.front().copied()
    }

    // A choice begins with this block.
    fn begin(&mut self, block: OpenBlock) -> Result<(), NoMemory>
        ensures begun { OnOk result (IsMoved (clipped (length self.old.blocks.items)) (block ∷ self.old.blocks.items) false self.old self.new) }
        ensures refused { OnErr result (IsAsBefore self.old self.new) }
    {
        let depth = self.blocks.len();
        self.blocks.push_front(block)?;
        clip(self.sides.as_mut_slice(), depth);
        self.goes_on = false;
        Ok(())
    }

    // The choice before goes on with this block.
    fn go_on(&mut self, block: OpenBlock) -> Result<(), NoMemory>
        ensures begun { OnOk result (IsMoved (λ x. x) (block ∷ self.old.blocks.items) false self.old self.new) }
        ensures refused { OnErr result (IsAsBefore self.old self.new) }
    {
        self.blocks.push_front(block)?;
        self.goes_on = false;
        Ok(())
    }

    // A case of the innermost `Switch` begins.
    fn begin_case(&mut self, condition: ExprId)
        ensures begun { (v : Subject) → first_of self.old.blocks.items ≡ Some (OpenBlock.Switch v) → IsMoved (λ x. x) (slice_set self.old.blocks.items 0 (OpenBlock.Case v condition)) false self.old self.new }
        ensures statements { self.new.statements ≡ self.old.statements }
    {
        if let Some(OpenBlock::Switch(subject)) = self.innermost() {
            self.blocks[0] = OpenBlock::Case { subject, condition };
        }
        self.goes_on = false;
    }

    // A case ends, and its `Switch` goes on.
    fn end_case(&mut self, subject: ExprId)
        requires { first_of self.old.blocks.items ≢ None }
        ensures { IsMoved (clipped (length self.old.blocks.items)) (slice_set self.old.blocks.items 0 (OpenBlock.Switch subject)) false self.old self.new }
    {
        self.blocks[0] = OpenBlock::Switch(subject);
        clip(self.sides.as_mut_slice(), self.blocks.len());
        self.goes_on = false;
    }

    // The innermost block ends; its choice may go on.
    fn end(&mut self, goes_on: bool)
        ensures { IsMoved (clipped (length (drop 1 self.old.blocks.items) + one_where goes_on)) (drop 1 self.old.blocks.items) goes_on self.old self.new }
    {
        self.blocks.pop_front();
        let level = if goes_on {
            self.blocks.len() + 1
        } else {
            self.blocks.len()
        };
        clip(self.sides.as_mut_slice(), level);
        self.goes_on = goes_on;
    }
}

// A side that is not there yet comes at the end.
fn with_side(alloc: Global, sides: &mut Vec<SideSoFar>, side: &Side) -> Result<(), NoMemory>
    ensures added { OnOk result (sides.new.items ≡ with_side side.now sides.old.items) }
    ensures refused { OnErr result (sides.new.items ≡ sides.old.items) }
{
    if !has_side(sides.as_slice(), side) {
        let side = copied(alloc, side)?;
        sides.push(SideSoFar { side, reach: 0 })?;
    }
    Ok(())
}

// Whether a side is among these.
fn has_side(sides: &[SideSoFar], side: &Side) -> bool
    ensures { result ≡ has_kept side.now sides.now }
{
    sides.iter().any(|x| is_same(side, &x.side))
}

// How far a side goes.
fn reach_of(sides: &[SideSoFar], side: &Side) -> usize
    ensures { result ≡ kept_reach side.now sides.now }
{
    for x in sides {
        if is_same(side, &x.side) {
            return x.reach;
        }
    }
    0
}

// No side goes further than this.
fn clip(sides: &mut [SideSoFar], level: usize)
    ensures { sides.new ≡ map (clipped level) sides.old }
{
    for x in sides.iter_mut() {
        x.reach = x.reach.min(level);
    }
}

// One side goes this far, and no other further.
fn touch(sides: &mut [SideSoFar], side: &Side, level: usize)
    ensures { sides.new ≡ map (touched side.now level) sides.old }
{
    for x in sides.iter_mut() {
        x.reach = if is_same(side, &x.side) {
            level
        } else {
            x.reach.min(level)
        };
    }
}
