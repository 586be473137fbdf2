// Places in a source, the kinds of refusal, and the budget.

/// A place in a source: a line and a column in characters, both counted from 1.
#[derive(Clone, Copy, PartialEq, Eq, Drop)]
pub struct Place {
    pub line: u32,
    pub col: u32,
}

/// Why a source or a script is refused.
#[derive(Clone, Copy, PartialEq, Eq, Drop)]
pub enum Kind {
    /// The bytes are not UTF-8.
    Text,
    /// A token or a logical line is outside the subset of Python.
    Subset,
    /// Evaluation meets what is not defined, a `raise`, or a false `assert` before the run.
    Raised,
    /// A shape, an operator's work shape or an integer would pass 128 bits.
    Width,
    /// A signal is driven twice.
    TwoDrivers,
    /// A statement drives an input.
    DrivenInput,
    /// A domain is defined twice.
    DomainClash,
    /// A bit needs itself.
    Loop,
    /// A count would be passed.
    Limit,
    /// A script's line is none.
    Script,
}

/// How many units of cost are left.
#[derive(Clone, Copy, PartialEq, Eq, Drop)]
pub struct Budget {
    pub left: u64,
}
