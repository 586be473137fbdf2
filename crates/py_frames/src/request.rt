// What a machine asks, and what it is answered.

use amh_host::{Items, Names, Place, Text};
use py_values::{Val, Vals};

/// What is asked of the store of hardware things.
#[derive(Clone, Copy, PartialEq, Eq, Drop)]
pub enum Act {
    /// An imported name, or `*`: the module and the name.
    Import,
    /// `x.n` of a thing, or of an object or class over a thing that has no n itself.
    Attribute,
    /// `x.n = v` of a thing.
    SetAttribute,
    /// The call of a thing: the thing, then the arguments; the name that the call is assigned to, then the keywords.
    CallThing,
    /// `x[i]` or `x[i:j:k]` of a thing.
    Index,
    /// `x[i] = v` of a thing.
    SetIndex,
    /// An operator, an augmented sign or `abs` with a thing among its operands.
    Operator,
    /// `len(x)` of a thing.
    Length,
    /// A loop, an unpacking or a builtin over a thing.
    Iterate,
    /// The begin of a `with` over a thing.
    Enter,
    /// The end of a `with` over a thing.
    Leave,
    /// The end of a class whose base is a thing or a class over one.
    ClassMade,
    /// `super().__init__` that reaches a thing, or the call of a class over one without `__init__`.
    InitBase,
    /// The end of the file's body.
    BodyEnd,
    /// The end of a function that an answer began.
    Returned,
    /// `await` of a thing.
    Await,
}

/// What is asked, with its values and names, and the place of the node that asks.
#[derive(Drop)]
pub struct Request {
    pub act: Act,
    pub vals: Vals,
    pub names: Names,
    pub place: Place,
}

/// A name and its value.
#[derive(Drop)]
pub struct NamedVal {
    pub name: Text,
    pub val: Val,
}

/// Names and their values.
pub type NamedVals = Items<NamedVal>;

/// What is answered.
#[derive(Drop)]
pub enum Answer {
    /// The first answer, which begins the program.
    Begin,
    /// A value.
    Give(Val),
    /// A new string.
    GiveText(Text),
    /// A new tuple of these values.
    GiveList(Vals),
    /// Names to be bound, in the scope of an import, or to the attributes of an object.
    Bind(NamedVals),
    /// A function to be called; its end is asked as `Returned`.
    Call { callee: Val, args: Vals },
    /// The attribute is to be taken from this value.
    Through(Val),
    /// A refusal.
    Refuse(Cause),
}

/// Why a program stops.
#[derive(Clone, Copy, PartialEq, Eq, Drop)]
pub enum Cause {
    /// Evaluation meets what is not defined, or a `raise`.
    Raised,
    /// An integer or a shape would pass 128 bits.
    Width,
    /// A count would be passed.
    Limit,
    /// An `assert` is false.
    Assert,
    /// The cost reaches the budget.
    Spent,
}

/// Why and where a program stops.
#[derive(Clone, Copy, PartialEq, Eq, Drop)]
pub struct Stop {
    pub cause: Cause,
    pub place: Place,
}

/// What a `resume` comes to.
#[derive(Drop)]
pub enum Turn {
    Asks(Request),
    Ended(Val),
    Stopped(Stop),
    NoMemory,
}
