// What an evaluation changes.

use crate::boxed::Boxed;
use crate::request::{NamedVals, Request, Stop};
use py_heap::Heap;
use py_values::{ScopeId, Val};

/// What a class body has bound in its scope, each binding in its order.
#[derive(Drop)]
pub struct ClassBody {
    pub scope: ScopeId,
    pub bindings: NamedVals,
}

/// Where an evaluation stands: the scope in which names are bound and sought, and what belongs to the function there.
#[derive(Drop)]
pub struct Here {
    pub scope: ScopeId,
    /// The first argument of the function that runs.
    pub first: Option<Val>,
    /// The class body that runs, and what it has bound.
    pub body: Option<ClassBody>,
    /// The annotations of the class body that runs, in order.
    pub notes: NamedVals,
    /// How many calls may still stand in one another.
    pub room: u32,
}

/// The heap, and what was done: units spent, names bound and answers taken.
#[derive(Drop)]
pub struct State {
    pub heap: Heap,
    pub here: Here,
    pub used: u64,
    pub bound: u64,
    pub taken: u64,
}

/// Why an evaluation does not go on by itself.
#[derive(Drop)]
pub enum Halt {
    Asks(Boxed<Request>),
    Stopped(Stop),
    NoMemory,
}

/// What a node comes to: a value, or where it leaves its block; or what an answer brought beside a value.
#[derive(Drop)]
pub enum Got {
    Value(Val),
    /// The names of an answer.
    Bound(NamedVals),
    /// The value from which an attribute is to be taken.
    Through(Val),
    Next,
    Broke,
    Continued,
    Returned(Val),
}
