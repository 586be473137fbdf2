// The table of operators, from which the arms of every function over operators are made.

ghost use Rattle.shape_rules.specs.Rows.{IsOperatorTable};

use crate::cell::CellKind;
use crate::op::Op;

/// The row of an operator: the cell that makes it, or `Many`, and its number of operands, 1 or 2.
#[derive(Clone, Copy, PartialEq, Eq)]
pub struct OpRow {
    pub op: Op,
    pub cell: CellKind,
    pub operands: u8,
}

/// The operators, a row for each.
#[derive(Clone, Copy)]
pub struct OpTable<const N: usize> {
    pub rows: [OpRow; N],
}

/// Calls the macro `$make` with the given tokens and the rows of the table.
///
/// A row names the operator, its number of operands, its cell, the rule for its result's shape, the rule for the
/// shape at which it is worked, and the rule for its integer.
#[macro_export]
macro_rules! operators {
    ($make:ident($($with:tt)*)) => {
        $make! {
            ($($with)*)
            (Add 2 Add grown_common least sum)
            (Sub 2 Sub grown_signed least difference)
            (Neg 1 Sub signed_opposite least opposite)
            (Mul 2 Mul added_widths result product)
            (Div 2 Many quotient_shape least quotient)
            (Mod 2 Many second least remainder)
            (Abs 1 Many unsigned_shape least magnitude)
            (Not 1 Not first least turned)
            (And 2 And common_shape least bits_of_both)
            (Or 2 Or common_shape least bits_of_either)
            (Xor 2 Xor common_shape least bits_of_one)
            (Eq 2 Eq one_bit common equal)
            (Ne 2 Many one_bit common unequal)
            (Lt 2 Lt one_bit common less)
            (Le 2 Le one_bit common at_most)
            (Gt 2 Lt one_bit common greater)
            (Ge 2 Le one_bit common at_least)
            (Any 1 ReduceOr one_bit least any_bit)
            (All 1 ReduceAnd one_bit least all_bits)
            (Parity 1 ReduceXor one_bit least parity)
            (Shl 2 Shl shifted_up_shape least shifted_up)
            (Shr 2 Many first least shifted_down)
        }
    };
}

macro_rules! table_rows {
    (() $(($op:ident $operands:literal $cell:ident $result:ident $work:ident $integer:ident))*) => {
        [$(OpRow {
            op: Op::$op,
            cell: CellKind::$cell,
            operands: $operands,
        }),*]
    };
}

/// The table, which has each operator exactly once.
pub fn operator_table() -> OpTable<22>
    ensures { IsOperatorTable result.rows }
{
    OpTable {
        rows: operators!(table_rows()),
    }
}
