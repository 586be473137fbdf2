// Values, and why one is not given.

use crate::number::Number;

/// A thing of the Amaranth store, by its number there.
#[derive(Clone, Copy, PartialEq, Eq, Drop)]
pub struct Hw(pub u32);

/// The number of a string, counted over what was frozen and then what the machine made.
#[derive(Clone, Copy, PartialEq, Eq, Drop)]
pub struct StrId(pub u32);

/// The number of a list, tuple, dict, range, class or object, counted likewise.
#[derive(Clone, Copy, PartialEq, Eq, Drop)]
pub struct ObjId(pub u32);

/// The number of a function, counted likewise.
#[derive(Clone, Copy, PartialEq, Eq, Drop)]
pub struct FuncId(pub u32);

/// The number of a scope, counted likewise.
#[derive(Clone, Copy, PartialEq, Eq, Drop)]
pub struct ScopeId(pub u32);

/// A value of a program.
#[derive(Clone, Copy, PartialEq, Eq, Drop)]
pub enum Val {
    /// `None`.
    None,
    /// A boolean, which is the number 0 or 1.
    Bool(bool),
    /// An integer.
    Int(Number),
    /// A string.
    Str(StrId),
    /// A time in femtoseconds.
    Time(u64),
    /// A list.
    List(ObjId),
    /// A tuple.
    Tuple(ObjId),
    /// A dict.
    Dict(ObjId),
    /// A range.
    Range(ObjId),
    /// A function.
    Func(FuncId),
    /// A class.
    Class(ObjId),
    /// An object.
    Object(ObjId),
    /// A thing of the hardware.
    Hw(Hw),
}

/// Why a value is not given.
#[derive(Clone, Copy, PartialEq, Eq, Drop)]
pub enum ValueStop {
    /// Python raises, or the operands are not defined.
    Raised,
    /// An integer would leave -2^127 to 2^128 - 1.
    Width,
    /// A count would be passed.
    Limit,
    /// The cost reaches what is left.
    Spent,
    /// No memory was left, or no number for what would be made.
    NoMemory,
}

/// Why an operator on numbers gives none.
#[derive(Clone, Copy, PartialEq, Eq, Drop)]
pub enum NumberStop {
    Raised,
    Width,
}
