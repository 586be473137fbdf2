// The codes of keys, by which an index finds them.
ghost use Rattle.std.specs.Prelude.{◌≡◌};
ghost use Rattle.py_heap.specs.Keys.{code_of, number_code};

use amh_bits::Int;
use py_values::{Val, bit_number};

/// What tells a key from the others that are not equal to it.
#[derive(Clone, Copy, PartialEq, Eq, Hash)]
pub(crate) enum Code {
    /// A number, by its sign and its size.
    Number(bool, u128),
    /// A thing of the hardware, by its number.
    Thing(u32),
}

/// The code of a key, where it tells by itself which keys it equals.
pub(crate) fn code_of(k: Val) -> Option<Code>
    ensures { result ≡ code_of k }
{
    match k {
        Val::Bool(b) => Some(number_code(bit_number(b))),
        Val::Int(n) => Some(number_code(n.int())),
        Val::Hw(thing) => Some(Code::Thing(thing.0)),
        _ => None,
    }
}

fn number_code(n: Int) -> Code
    ensures { result ≡ number_code n }
{
    Code::Number(n.negative, n.size)
}
