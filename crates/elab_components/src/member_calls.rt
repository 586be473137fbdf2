// `In` and `Out`, which are called for members of interfaces.
ghost use Rattle.std.specs.Prelude.{◌≡◌, map, string_bytes, IfOk, Some, None};
ghost use Rattle.py_heap.specs.Heaps.{seen};
ghost use Rattle.elab_store.specs.Seen.{called_of};
ghost use Rattle.elab_components.specs.Members.{init_given, member_init, member_said, is_without_init, nested_said, member_meant, member_placed, member_called};
ghost use Rattle.elab_store.specs.Held.{held_of, Gives};

use amh_bits::Int;
use amh_host::{Items, Text};
use elab_store::calls::Called;
use elab_store::kept::Kept;
use elab_store::names::is_text;
use elab_store::shapes::Shaped;
use elab_store::store::{Elaboration, Store};
use lists::NoMemory;
use py_frames::request::{Answer, Cause};
use py_heap::{Frozen, Heap};
use py_values::{ObjId, Val};
use std::alloc::Global;

// A number, or a member of an enumeration as its number; and 0 for None.
fn init_given(store: &Store, v: &Val) -> Option<Int>
    ensures { result ≡ init_given store.now.things v.now }
{
    match v {
        Val::None => Some(Int::of_u128(0)),
        _ => store.counted(v),
    }
}

// `init` is the only keyword.
fn member_init(store: &Store, keywords: &[String], vals: &[Val]) -> Option<Int>
    ensures { result ≡ member_init store.now.things (map string_bytes keywords.now) vals.now }
{
    match (keywords, vals) {
        ([], _) => Some(Int::of_u128(0)),
        ([name], [v]) => {
            if is_text(name.as_str(), "init") {
                init_given(store, v)
            } else {
                None
            }
        }
        _ => None,
    }
}

// A member of this shape and init.
fn give_member(
    elaboration: &mut Elaboration,
    is_out: bool,
    init: Option<Int>,
    shape: Result<Shaped, Cause>,
) -> Result<Answer, NoMemory>
    ensures { Gives result elaboration.new (member_said is_out init shape (held_of elaboration.old)) }
{
    match (init, shape) {
        (Some(init), Ok(shape)) => elaboration.give_kept(Kept::Port {
            is_out,
            shape,
            init,
        }),
        (Some(_), Err(why)) => elaboration.refuse(why),
        (None, _) => elaboration.refuse(Cause::Raised),
    }
}

// Whether no init is given, or None.
fn is_without_init(keywords: &[String], vals: &[Val]) -> bool
    ensures { result ≡ is_without_init (map string_bytes keywords.now) vals.now }
{
    match (keywords, vals) {
        ([], _) => true,
        ([name], [Val::None]) => is_text(name.as_str(), "init"),
        _ => false,
    }
}

// A member of a signature.
fn give_nested(
    elaboration: &mut Elaboration,
    is_out: bool,
    signature: u32,
    without: bool,
) -> Result<Answer, NoMemory>
    ensures { Gives result elaboration.new (nested_said is_out signature without (held_of elaboration.old)) }
{
    if without {
        elaboration.give_kept(Kept::Nested { is_out, signature })
    } else {
        elaboration.refuse(Cause::Raised)
    }
}

/// `In(shape, init=n)`, `Out(shape, init=n)`, `In(signature)` or `Out(signature)`.
pub fn call_member(
    elaboration: &mut Elaboration,
    heap: &Heap,
    frozen: &Frozen,
    is_out: bool,
    call: &Called,
) -> Result<Answer, NoMemory>
    ensures { Gives result elaboration.new (member_called (seen frozen.now heap.now) is_out (called_of call.now) (held_of elaboration.old)) }
{
    let [v] = call.placed else {
        return elaboration.refuse(Cause::Raised);
    };
    match elaboration.store.signature_of(*v) {
        Some(signature) => {
            let without = is_without_init(call.keywords, call.keyword_vals);
            give_nested(elaboration, is_out, signature, without)
        }
        None => {
            let init = member_init(&elaboration.store, call.keywords, call.keyword_vals);
            let shape = elaboration.store.shaped_meant(heap, frozen, v);
            give_member(elaboration, is_out, init, shape)
        }
    }
}
