// Statements, in trees.
ghost use Rattle.std.specs.Prelude.{◌≡◌, ◌<◌, OnOk, OnErr, All, Some, slice_get};
ghost use Rattle.design_ir.specs.Trees.{done, none, block_len, choices_len, block_and, choices_and, statements, arms_of, statement_size, block_size, choices_size};
ghost use Rattle.design_ir.specs.Statements.{statement_of, block_of, choices_of};

use crate::ids::ExprId;
use amh_host::{NoMemory, Place};
use std::alloc::Global;
use std::marker::Model;

/// A statement.
#[cycle(stmt)]
#[derive(Drop)]
pub enum Stmt {
    /// The target takes the value, wrapped to its shape.
    Assign {
        target: ExprId,
        value: ExprId,
        place: Place,
    },
    /// The first arm whose condition is not 0 is carried out.
    Choose(Arms),
}

/// One arm of a choice.
#[cycle(stmt)]
#[derive(Drop)]
pub struct Arm {
    pub condition: ExprId,
    pub body: Stmts,
}

/// Statements one after another.
#[cycle(stmt)]
#[derive(Drop)]
pub struct Stmts {
    items: Vec<Stmt>,
}

/// The arms of a choice, in order.
#[cycle(stmt)]
#[derive(Drop)]
pub struct Arms {
    items: Vec<Arm>,
}

impl Model for Stmts {
    ghost use Rattle.design_ir.specs.Trees.{Block, block_size};
    ghost use Rattle.design_ir.specs.TreeCodes.{block_code};

    ghost Value = { Block };

    ghost coded = { block_code };

    ghost use Rattle.design_ir.specs.Statements.{block_of};

    ghost view = { λ a. block_of a.items.items };

    ghost size = { block_size };

    ghost use Rattle.design_ir.specs.Smaller.{block_falls};
    ghost use Rattle.std.proofs.Common.{arith};

    ghost size_decreases = { λ a h. Prim.omega (arith, block_falls a.items.items) };
}

impl Model for Arms {
    ghost use Rattle.design_ir.specs.Trees.{Choices, choices_size};
    ghost use Rattle.design_ir.specs.TreeCodes.{choices_code};

    ghost Value = { Choices };

    ghost coded = { choices_code };

    ghost use Rattle.design_ir.specs.Statements.{choices_of};

    ghost view = { λ a. choices_of a.items.items };

    ghost size = { choices_size };

    ghost use Rattle.design_ir.specs.Smaller.{choices_fall};
    ghost use Rattle.std.proofs.Common.{arith};

    ghost size_decreases = { λ a h. Prim.omega (arith, choices_fall a.items.items) };
}

impl Stmts {
    /// No statement, which takes no memory.
    pub fn new(alloc: Global) -> Stmts
        ensures { result ≡ done }
    {
        Stmts {
            items: Vec::new(alloc),
        }
    }

    /// Adds a statement at the end.
    #[tactic(auto, using(crate::proofs::Lists::block_of_snoc))]
    pub fn push(&mut self, item: Stmt) -> Result<(), NoMemory>
        ensures ok { OnOk result (self.new ≡ block_and self.old (statement_of item)) }
        ensures err { OnErr result (self.new ≡ self.old) }
    {
        match self.items.push(item) {
            Ok(()) => Ok(()),
            Err(_) => Err(NoMemory),
        }
    }

    /// How many statements stand directly here.
    #[tactic(auto, using(crate::proofs::Lists::block_len_is))]
    pub fn len(&self) -> usize
        ensures { result ≡ block_len self.now }
    {
        self.items.len()
    }

    /// The statement at a place, counted from 0.
    pub fn get(&self, i: usize) -> &Stmt
        requires { i < block_len self.now }
        ensures { slice_get (statements self.now) i ≡ Some (statement_of result.now) }
    {
        &self.items[i]
    }

    /// All statements that stand directly here, in order. Each of them is smaller than the whole.
    #[tactic(auto, using(crate::proofs::Sizes::each_smaller))]
    pub fn as_slice(&self) -> &[Stmt]
        ensures value { block_of result.now ≡ self.now }
        ensures smaller { All (λ s. statement_size (statement_of s) < block_size self.now) result.now }
    {
        self.items.as_slice()
    }
}

impl Arms {
    /// No arm, which takes no memory.
    pub fn new(alloc: Global) -> Arms
        ensures { result ≡ none }
    {
        Arms {
            items: Vec::new(alloc),
        }
    }

    /// Adds an arm at the end.
    #[tactic(auto, using(crate::proofs::Lists::choices_of_snoc))]
    pub fn push(&mut self, item: Arm) -> Result<(), NoMemory>
        ensures ok { OnOk result (self.new ≡ choices_and self.old item.condition item.body) }
        ensures err { OnErr result (self.new ≡ self.old) }
    {
        match self.items.push(item) {
            Ok(()) => Ok(()),
            Err(_) => Err(NoMemory),
        }
    }

    /// How many arms there are.
    #[tactic(auto, using(crate::proofs::Lists::choices_len_is))]
    pub fn len(&self) -> usize
        ensures { result ≡ choices_len self.now }
    {
        self.items.len()
    }

    /// The arm at a place, counted from 0.
    pub fn get(&self, i: usize) -> &Arm
        requires { i < choices_len self.now }
        ensures { slice_get (arms_of self.now) i ≡ Some (result.now.condition, result.now.body) }
    {
        &self.items[i]
    }

    /// All arms, in order. Each body is smaller than the whole.
    #[tactic(auto, using(crate::proofs::Sizes::each_body_smaller))]
    pub fn as_slice(&self) -> &[Arm]
        ensures value { choices_of result.now ≡ self.now }
        ensures smaller { All (λ a. block_size a.body < choices_size self.now) result.now }
    {
        self.items.as_slice()
    }
}
