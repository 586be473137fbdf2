// Signals like other values.
ghost use Rattle.std.specs.Prelude.{◌≡◌, ◌<◌, length, map, slice_get, string_bytes};
ghost use Rattle.std.specs.List.{list_all};
ghost use Rattle.std.specs.Option.{option_copied};
ghost use Rattle.py_heap.specs.Heaps.{seen};
ghost use Rattle.elab_store.specs.Seen.{called_of};
ghost use Rattle.elab_components.specs.Likes.{like_given, is_like_keyword, like_arguments, signal_in, liked_signal, own_init, own_reset_less, like_init, own_reading, like_shape, liked_shape, like_called};
ghost use Rattle.amh_things.specs.Things.{thing_of};
ghost use Rattle.elab_store.specs.Sound.{IsSound};
ghost use Rattle.elab_store.specs.Held.{held_of, Gives};

use crate::signals::{SignalArguments, put_signal, signal_name, with_keywords};
use amh_bits::Int;
use amh_things::meant::form_meant;
use amh_things::thing::{Reading, Thing};
use design_ir::{Expr, ExprId, Exprs, Sig};
use elab_store::calls::Called;
use elab_store::kept::{HdlName, Kept};
use elab_store::names::is_text;
use elab_store::shapes::Shaped;
use elab_store::store::{Elaboration, Store};
use lists::NoMemory;
use py_frames::request::{Answer, Cause};
use py_heap::{Frozen, Heap};
use py_values::Val;
use shape_rules::Shape;

// ---- arguments

fn is_like_keyword(name: &str) -> bool
    ensures { result ≡ is_like_keyword name.now }
{
    is_text(name, "name") || is_text(name, "init")
}

fn are_like_keywords(keywords: &[String]) -> bool
    ensures { result ≡ list_all is_like_keyword (map string_bytes keywords.now) }
{
    for keyword in keywords {
        if !is_like_keyword(keyword.as_str()) {
            return false;
        }
    }
    true
}

fn like_arguments(call: &Called) -> Option<SignalArguments>
    ensures { result ≡ like_arguments (called_of call.now) }
{
    if !are_like_keywords(call.keywords) {
        return None;
    }
    let none = SignalArguments {
        shape: None,
        name: None,
        init: None,
        reset_less: None,
    };
    with_keywords(call.keywords, call.keyword_vals, none)
}

// ---- what the value says

fn own_init(signal: Option<&Sig>) -> Int
    ensures { result ≡ own_init (option_copied signal.entry) }
{
    match signal {
        Some(signal) => signal.init,
        None => Int::of_u128(0),
    }
}

fn own_reset_less(signal: Option<&Sig>) -> bool
    ensures { result ≡ own_reset_less (option_copied signal.entry) }
{
    match signal {
        Some(signal) => signal.reset_less,
        None => false,
    }
}

// The shape of a value, where it is one, with what its bits are read as.
fn like_shape(reading: Reading, form: Option<Shape>) -> Result<Shaped, Cause>
    ensures { result ≡ like_shape reading form }
{
    match form {
        Some(form) => Ok(Shaped { form, reading }),
        None => Err(Cause::Raised),
    }
}

// The number that the signal begins with, where one is given.
fn like_init(store: &Store, signal: Option<&Sig>, given: Option<Val>) -> Option<Int>
    ensures { result ≡ like_init store.now.things (option_copied signal.entry) given }
{
    match given {
        None | Some(Val::None) => Some(own_init(signal)),
        Some(v) => store.counted(&v),
    }
}

// What the bits of a value are read as.
fn own_reading(store: &Store, v: &Val) -> Reading
    ensures { result ≡ own_reading (thing_of store.now.things v.now) }
{
    let Val::Hw(hw) = v else {
        return Reading::Plain;
    };
    match store.things.thing(*hw) {
        Some(Thing::Numbered { of, .. }) => Reading::Numbered(*of),
        Some(Thing::Member(m)) => Reading::Numbered(m.of),
        Some(Thing::View { of, .. }) => Reading::Viewed(*of),
        _ => Reading::Plain,
    }
}

// The signal that an expression is, where it is one.
fn signal_at(elaboration: &Elaboration, e: ExprId) -> Option<&Sig>
    requires { e.0 < length (held_of elaboration.now).pool.exprs }
    ensures { option_copied result ≡ signal_in (held_of elaboration.now).pool (slice_get (held_of elaboration.now).pool.exprs e.0) }
{
    let _rules = elaboration.pool.count();
    match elaboration.pool.at(e) {
        Expr::Sig(s) => Some(elaboration.pool.sig_at(*s)),
        _ => None,
    }
}

// The signal that a value of the program is, where it is one.
fn liked_signal<'a>(elaboration: &'a Elaboration, v: &Val) -> Option<&'a Sig>
    requires { IsSound (held_of elaboration.now) }
    ensures { option_copied result ≡ liked_signal (held_of elaboration.now) v.now }
{
    let Val::Hw(hw) = v else {
        return None;
    };
    match elaboration.store.things.expr(*hw) {
        Some(e) => signal_at(elaboration, e),
        None => None,
    }
}

// The shape of a value of the program, with what its bits are read as.
fn liked_shape(elaboration: &Elaboration, v: &Val) -> Result<Shaped, Cause>
    requires { IsSound (held_of elaboration.now) }
    ensures { result ≡ liked_shape (held_of elaboration.now) v.now }
{
    let form = form_meant(&elaboration.pool, &elaboration.store.things, v);
    like_shape(own_reading(&elaboration.store, v), form)
}

/// `Signal.like(value, name=.., init=..)`.
pub fn make_like(
    elaboration: &mut Elaboration,
    heap: &Heap,
    frozen: &Frozen,
    call: &Called,
) -> Result<Answer, NoMemory>
    requires { IsSound (held_of elaboration.old) }
    ensures { Gives result elaboration.new (like_called (seen frozen.now heap.now) (called_of call.now) (held_of elaboration.old)) }
{
    let [v] = call.placed else {
        return elaboration.refuse(Cause::Raised);
    };
    let Some(args) = like_arguments(call) else {
        return elaboration.refuse(Cause::Raised);
    };
    let Some(name) = signal_name(elaboration.alloc, heap, frozen, call.name, args.name)? else {
        return elaboration.refuse(Cause::Raised);
    };
    let signal = liked_signal(elaboration, v);
    let reset_less = own_reset_less(signal);
    let Some(init) = like_init(&elaboration.store, signal, args.init) else {
        return elaboration.refuse(Cause::Raised);
    };
    match liked_shape(elaboration, v) {
        Ok(shape) => put_signal(elaboration, name, shape, init, reset_less),
        Err(why) => elaboration.refuse(why),
    }
}

/// The attribute `like` of the name `Signal`.
pub fn give_like(elaboration: &mut Elaboration, name: &str) -> Result<Answer, NoMemory>
    ensures { Gives result elaboration.new (like_given name.now (held_of elaboration.old)) }
{
    if is_text(name, "like") {
        elaboration.give_kept(Kept::Name(HdlName::Like))
    } else {
        elaboration.refuse(Cause::Raised)
    }
}
