// Numbers of a source that are times.

/// A decimal literal: so many times ten to the exponent.
#[derive(Clone, Copy, PartialEq, Eq, Drop)]
pub struct Decimal {
    pub digits: u64,
    pub exponent: i8,
}

/// What a quotient divides by.
#[derive(Clone, Copy, PartialEq, Eq, Drop)]
pub enum Amount {
    Number(u128),
    Decimal(Decimal),
}
