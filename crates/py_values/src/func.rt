// Functions and the scopes that they close over.

use crate::bindings::{Bindings, OwnNames};
use crate::op::Builtin;
use crate::val::{ScopeId, Val};
use crate::vals::Vals;
use amh_host::Place;

/// What a function runs.
#[derive(Clone, Copy, PartialEq, Eq, Drop)]
pub enum Code {
    /// The `def` statement that stands at this place of the program.
    Def(Place),
    /// A builtin, or a method of one.
    Builtin(Builtin),
}

/// A function, as a value.
#[derive(Drop)]
pub struct Func {
    pub code: Code,
    /// The object whose method it is.
    pub this: Option<Val>,
    /// The class whose attribute it was read from.
    pub home: Option<Val>,
    /// The values of those parameters that have one, in order.
    pub defaults: Vals,
    /// Where its other names are found.
    pub scope: Option<ScopeId>,
}

/// The names of a body that runs, and their values.
#[derive(Drop)]
pub struct Scope {
    pub enclosing: Option<ScopeId>,
    /// Whether the body is a class's.
    pub is_class: bool,
    /// The names that the body binds somewhere. A module's scope has none.
    pub own: OwnNames,
    pub bindings: Bindings,
}
