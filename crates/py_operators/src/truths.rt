// Truth.
ghost use Rattle.std.specs.Prelude.{◌≡◌};
ghost use Rattle.py_heap.specs.Heaps.{seen};
ghost use Rattle.py_operators.specs.Truths.{truth, is_some_list};

use py_heap::{Frozen, Heap};
use py_values::{Val, is_empty_range, is_zero, span_of};

fn is_some_text(text: &str) -> bool
    ensures { result ≡ is_some_list text.now }
{
    !text.is_empty()
}

fn is_some_row(row: &[Val]) -> bool
    ensures { result ≡ is_some_list row.now }
{
    !row.is_empty()
}

/// Whether a value counts as true; `None` exactly for a time and a thing, which have no truth.
pub fn truth(heap: &Heap, frozen: &Frozen, v: Val) -> Option<bool>
    ensures { result ≡ truth (seen frozen.now heap.now) v }
{
    match v {
        Val::None => Some(false),
        Val::Bool(b) => Some(b),
        Val::Int(n) => Some(!is_zero(n.int())),
        Val::Str(x) => Some(is_some_text(heap.text(frozen, x))),
        Val::List(o) | Val::Tuple(o) | Val::Dict(o) => Some(is_some_row(heap.row(frozen, o))),
        Val::Range(o) => Some(!is_empty_range(span_of(heap.row(frozen, o)))),
        Val::Func(_) | Val::Class(_) | Val::Object(_) => Some(true),
        Val::Time(_) | Val::Hw(_) => None,
    }
}
