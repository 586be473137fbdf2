// Statements. A `Stmt` and a `Block` are handles: one more of them costs a count.
ghost use Rattle.std.specs.Prelude.{◌≡◌, IfOk};
ghost use Rattle.py_tree.specs.Programs.{step_of, kind_step, steps_of};

use crate::expr::{Expr, Operator, Trailer};
use crate::name::Name;
use amh_host::{NoMemory, Place};
use std::alloc::Global;
use std::rc::Rc;

/// A name that is imported, and the name that it is bound to where `as` gives one.
#[derive(Drop)]
pub struct Imported {
    pub place: Place,
    pub name: Name,
    pub bound: Option<Name>,
}

/// A parameter of a function, or the `*` behind which arguments go by keyword.
#[derive(Drop)]
pub enum Param {
    Named {
        place: Place,
        name: Name,
        annotation: Option<Expr>,
        default: Option<Expr>,
    },
    Star(Place),
}

/// A statement, with the place of its first token.
#[cycle(stmt)]
#[derive(Drop)]
pub struct Stmt {
    pub place: Place,
    pub kind: Rc<StmtKind>,
}

/// Statements one after another.
#[cycle(stmt)]
#[derive(Drop)]
pub struct Block {
    pub stmts: Rc<Vec<Stmt>>,
}

/// A test and what is carried out where it holds.
#[cycle(stmt)]
#[derive(Drop)]
pub struct Branch {
    pub test: Expr,
    pub body: Block,
}

/// A function, or a method.
#[cycle(stmt)]
#[derive(Drop)]
pub struct Function {
    pub place: Place,
    pub name: Name,
    pub is_async: bool,
    pub params: Vec<Param>,
    pub result: Option<Expr>,
    pub body: Block,
}

/// What a statement is.
#[cycle(stmt)]
#[derive(Drop)]
pub enum StmtKind {
    Pass,
    Break,
    Continue,
    Return(Option<Expr>),
    Assert(Expr, Option<Expr>),
    Raise(Expr),
    /// `from` names with a dot between each two `import *`.
    ImportAll(Vec<Name>),
    Import(Vec<Name>, Vec<Imported>),
    /// One or more targets, each before its `=`, and the value.
    Assign(Vec<Expr>, Expr),
    Annotate {
        target: Expr,
        annotation: Expr,
        value: Option<Expr>,
    },
    Augment(Expr, Operator, Expr),
    Evaluate(Expr),
    /// `if` and each `elif`, and the block of `else`.
    If(Vec<Branch>, Option<Block>),
    While(Expr, Block),
    For {
        targets: Expr,
        source: Expr,
        body: Block,
    },
    With {
        context: Expr,
        target: Option<Expr>,
        body: Block,
    },
    Def(Rc<Function>),
    /// The arguments are a call's, where there are brackets.
    Class {
        name: Name,
        arguments: Option<Trailer>,
        body: Block,
    },
}

/// A whole file.
#[derive(Drop)]
pub struct Program {
    pub body: Block,
}

impl Stmt {
    /// A statement of this kind at this place.
    pub fn new(alloc: Global, place: Place, kind: StmtKind) -> Result<Stmt, NoMemory>
        ensures { IfOk result (λ s. step_of s ≡ kind_step kind place) }
    {
        match Rc::new(alloc, kind) {
            Ok(kind) => Ok(Stmt { place, kind }),
            Err(left) => {
                drop(left);
                Err(NoMemory)
            }
        }
    }

    /// One handle more of the same statement.
    pub fn share(&self) -> Result<Stmt, NoMemory>
        ensures { IfOk result (λ s. step_of s ≡ step_of self.now) }
    {
        match self.kind.clone() {
            Ok(kind) => Ok(Stmt {
                place: self.place,
                kind,
            }),
            Err(_) => Err(NoMemory),
        }
    }
}

impl Block {
    /// One handle more of the same block.
    pub fn share(&self) -> Result<Block, NoMemory>
        ensures { IfOk result (λ b. steps_of b ≡ steps_of self.now) }
    {
        match self.stmts.clone() {
            Ok(stmts) => Ok(Block { stmts }),
            Err(_) => Err(NoMemory),
        }
    }
}
