// The operators and builtins.

/// An operator. For one operand the second is not looked at.
#[derive(Clone, Copy, PartialEq, Eq, Drop)]
pub enum PyOp {
    Add,
    Sub,
    Mul,
    FloorDiv,
    Rem,
    Pow,
    Shl,
    Shr,
    And,
    Or,
    Xor,
    /// `-a`.
    Neg,
    /// `+a`.
    Pos,
    /// `~a`.
    Invert,
    /// `not a`.
    Not,
    Eq,
    Ne,
    Lt,
    Le,
    Gt,
    Ge,
    In,
    NotIn,
    Is,
    IsNot,
}

/// A builtin, a method, an index, a slice or an assignment to an index.
#[derive(Clone, Copy, PartialEq, Eq, Drop)]
pub enum Builtin {
    Range,
    Len,
    Int,
    Str,
    Bool,
    List,
    Tuple,
    Dict,
    Enumerate,
    Zip,
    Reversed,
    Min,
    Max,
    Sum,
    Abs,
    Print,
    /// `super()`, which the machine answers by itself.
    Super,
    /// `super().__init__` that reaches a thing, which the machine asks for.
    InitThing,
    /// `__init__` where no class has one: of a class, an object or `super()`.
    InitNothing,
    CeilLog2,
    BitsFor,
    /// `a.append(x)`, of a list.
    Append,
    /// `a.extend(b)`, of a list.
    Extend,
    /// `a *= n`, of a list.
    Repeat,
    /// `a.insert(i, x)`, of a list.
    Insert,
    /// `a.pop()` and `a.pop(i)`, of a list.
    Pop,
    /// `d.items()`, of a dict.
    Items,
    /// `d.keys()`, of a dict.
    Keys,
    /// `d.values()`, of a dict.
    Values,
    /// `d.get(k)` and `d.get(k, x)`, of a dict.
    Get,
    /// `a[i]`.
    Index,
    /// `a[i:j:k]`, with `None` for a part that is absent.
    Slice,
    /// `a[i] = x`.
    SetIndex,
}
