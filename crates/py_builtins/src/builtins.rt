// Builtins, methods, indices and slices.
ghost use Rattle.std.specs.Prelude.{◌≡◌, ◌<◌};
ghost use Rattle.py_heap.specs.Heaps.{seen};
ghost use Rattle.py_values.specs.Runs.{Charged, Answers, paired, free};
ghost use Rattle.py_builtins.specs.Builtins.{settled, fresh_of, built, builtin};

use crate::indices::{index_of, index_set};
use crate::methods::{append_to, extend_to, insert_to, pop_from, repeat_to};
use crate::scalars::{
    bits_for, bool_of, ceil_log2, greatest_of, int_of, least_of, magnitude_of, nothing_printed,
    str_of, sum_of,
};
use crate::sequences::{len_of, list_of, range_of, reversed_of, tuple_of};
use crate::slices::slice_of;
use crate::tuples::{enumerate_of, zip_of};
use amh_host::Budget;
use py_heap::{Fresh, Frozen, Heap};
use py_values::{Builtin, Val, Vals, ValueStop};

// What a builtin gives that changes nothing that stands.
fn fresh_of(heap: &Heap, frozen: &Frozen, which: Builtin, args: &[Val]) -> Result<Fresh, ValueStop>
    ensures { Answers result (fresh_of (seen frozen.now heap.now) which args.now) }
{
    match which {
        Builtin::Len => len_of(heap, frozen, args),
        Builtin::List => list_of(heap, frozen, args),
        Builtin::Tuple => tuple_of(heap, frozen, args),
        Builtin::Reversed => reversed_of(heap, frozen, args),
        Builtin::Index => index_of(heap, frozen, args),
        Builtin::Slice => slice_of(heap, frozen, args),
        _ => Err(ValueStop::Raised),
    }
}

// The same, standing in the heap.
fn settled(heap: &mut Heap, frozen: &Frozen, which: Builtin, args: &[Val]) -> Result<Val, ValueStop>
    ensures { Answers (paired result heap.new) (settled (seen frozen.now heap.old) (fresh_of (seen frozen.now heap.old) which args.now)) }
{
    match fresh_of(heap, frozen, which, args) {
        Ok(fresh) => heap.place(frozen, fresh),
        Err(stop) => Err(stop),
    }
}

// What a builtin gives.
fn built(heap: &mut Heap, frozen: &Frozen, which: Builtin, args: &[Val]) -> Result<Val, ValueStop>
    ensures { Answers (paired result heap.new) (built (seen frozen.now heap.old) which args.now) }
{
    match which {
        Builtin::Len
        | Builtin::List
        | Builtin::Tuple
        | Builtin::Reversed
        | Builtin::Index
        | Builtin::Slice => settled(heap, frozen, which, args),
        Builtin::Range => range_of(heap, frozen, args),
        Builtin::Enumerate => enumerate_of(heap, frozen, args),
        Builtin::Zip => zip_of(heap, frozen, args),
        Builtin::Append => append_to(heap, frozen, args),
        Builtin::Extend => extend_to(heap, frozen, args),
        Builtin::Repeat => repeat_to(heap, frozen, args),
        Builtin::Insert => insert_to(heap, frozen, args),
        Builtin::Pop => pop_from(heap, frozen, args),
        Builtin::SetIndex => index_set(heap, frozen, args),
        Builtin::Int => int_of(heap, frozen, args),
        Builtin::Str => str_of(heap, frozen, args),
        Builtin::Bool => bool_of(heap, frozen, args),
        Builtin::Min => least_of(heap, frozen, args),
        Builtin::Max => greatest_of(heap, frozen, args),
        Builtin::Sum => sum_of(heap, frozen, args),
        Builtin::Abs => magnitude_of(heap, frozen, args),
        Builtin::Print => nothing_printed(heap, frozen, args),
        Builtin::Super | Builtin::InitThing | Builtin::InitNothing => Err(ValueStop::Raised),
        Builtin::CeilLog2 => ceil_log2(heap, frozen, args),
        Builtin::BitsFor => bits_for(heap, frozen, args),
        Builtin::Dict => heap.dict_of(frozen, args),
        Builtin::Items => heap.items_of(frozen, args),
        Builtin::Keys => heap.keys_of(frozen, args),
        Builtin::Values => heap.values_of(frozen, args),
        Builtin::Get => heap.get_of(frozen, args),
    }
}

/// A builtin, a method, an index, a slice or an assignment to an index. An object whose method it is, or what
/// is indexed, is the first argument. None of them costs anything by itself.
pub fn builtin(
    heap: &mut Heap,
    frozen: &Frozen,
    which: Builtin,
    args: &Vals,
    left: &mut Budget,
) -> Result<Val, ValueStop>
    requires { 0 < left.old.left }
    ensures { Charged (paired result heap.new) left.old.left left.new.left (free (builtin frozen.now heap.old which args.now)) }
{
    let _ = left;
    built(heap, frozen, which, args.as_slice())
}
