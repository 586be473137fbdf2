// Modules and signals that are made.
ghost use Rattle.std.specs.Prelude.{◌≡◌, ◌<◌, length, map, drop, string_bytes, Some, None, IfOk, option_map, option_and_then};
ghost use Rattle.std.specs.Option.{option_copied};
ghost use Rattle.py_heap.specs.Heaps.{seen};
ghost use Rattle.design_ir.specs.declared.expr.Expr.TheVariants as expr;
ghost use Rattle.design_ir.specs.PoolRules.{expr_added};
ghost use Rattle.amh_things.specs.declared.thing.Thing.TheVariants as thing;
ghost use Rattle.elab_store.specs.Stores.{thing_given};
ghost use Rattle.elab_store.specs.Seen.{called_of};
ghost use Rattle.elab_components.specs.Signals.{module_called, with_module, no_arguments, once, formed, with_keyword, with_keywords, placed_arguments, signal_arguments, call_name, domain_formed, signal_name, signal_init, signal_reset_less, signal_passes, signal_of, signal_given, signal_shaped, signal_said, signal_shape, signal_from, signal_called};
ghost use Rattle.elab_store.specs.Held.{held_of, Gives};

use crate::interfaces::new_signal;
use amh_bits::Int;
use amh_host::Text;
use amh_things::thing::Reading;
use design_ir::Sig;
use elab_store::calls::Called;
use elab_store::kept::Kept;
use elab_store::names::is_text;
use elab_store::shapes::Shaped;
use elab_store::store::Elaboration;
use identifiers::is_identifier;
use lists::NoMemory;
use py_frames::request::{Answer, Cause};
use py_heap::{Frozen, Heap};
use py_operators::truth;
use py_values::Val;
use shape_rules::Shape;
use std::alloc::Global;

/// The arguments of a signal, where they are given.
#[derive(Clone, Copy, PartialEq, Eq, Drop)]
pub struct SignalArguments {
    pub shape: Option<Val>,
    pub name: Option<Val>,
    pub init: Option<Val>,
    pub reset_less: Option<Val>,
}

// An argument is given once.
fn once(before: Option<Val>, args: SignalArguments) -> Option<SignalArguments>
    ensures { result ≡ once before args }
{
    match before {
        None => Some(args),
        Some(_) => None,
    }
}

fn with_keyword(name: &str, v: Val, args: SignalArguments) -> Option<SignalArguments>
    ensures { result ≡ with_keyword name.now v args }
{
    if is_text(name, "shape") {
        once(
            args.shape,
            SignalArguments {
                shape: Some(v),
                ..args
            },
        )
    } else if is_text(name, "name") {
        once(
            args.name,
            SignalArguments {
                name: Some(v),
                ..args
            },
        )
    } else if is_text(name, "init") {
        once(
            args.init,
            SignalArguments {
                init: Some(v),
                ..args
            },
        )
    } else if is_text(name, "reset_less") {
        once(
            args.reset_less,
            SignalArguments {
                reset_less: Some(v),
                ..args
            },
        )
    } else {
        None
    }
}

/// Arguments by keyword, each with its value.
pub fn with_keywords(
    keywords: &[String],
    vals: &[Val],
    args: SignalArguments,
) -> Option<SignalArguments>
    ensures { result ≡ with_keywords (map string_bytes keywords.now) vals.now args }
{
    let mut args = args;
    for i in 0..keywords.len() {
        if i >= vals.len() {
            return None;
        }
        args = with_keyword(keywords[i].as_str(), vals[i], args)?;
    }
    Some(args)
}

// The arguments by their places: the shape alone may be given so.
fn placed_arguments(placed: &[Val]) -> Option<SignalArguments>
    ensures { result ≡ placed_arguments placed.now }
{
    let shape = match placed {
        [] => None,
        [shape] => Some(*shape),
        _ => return None,
    };
    Some(SignalArguments {
        shape,
        name: None,
        init: None,
        reset_less: None,
    })
}

fn signal_arguments(call: &Called) -> Option<SignalArguments>
    ensures { result ≡ signal_arguments (called_of call.now) }
{
    match placed_arguments(call.placed) {
        Some(args) => with_keywords(call.keywords, call.keyword_vals, args),
        None => None,
    }
}

/// The name of the call, and `sig` where it is assigned to none.
pub fn call_name(name: &str) -> &str
    ensures { result.now ≡ call_name name.now }
{
    if name.is_empty() { "sig" } else { name }
}

/// A name, where it is an identifier.
pub fn formed(alloc: Global, name: &str) -> Result<Option<&str>, NoMemory>
    ensures { IfOk result (λ formed_name. option_copied formed_name ≡ formed name.now) }
{
    if is_identifier(alloc, name)? {
        Ok(Some(name))
    } else {
        Ok(None)
    }
}

/// The name of a domain with a clock, where it is an identifier other than `comb`.
pub fn domain_formed(alloc: Global, name: &str) -> Result<Option<&str>, NoMemory>
    ensures { IfOk result (λ formed_name. option_copied formed_name ≡ domain_formed name.now) }
{
    if is_text(name, "comb") {
        Ok(None)
    } else {
        formed(alloc, name)
    }
}

/// The name that a signal is to have.
pub fn signal_name<'a>(
    alloc: Global,
    heap: &'a Heap,
    frozen: &'a Frozen,
    call: &'a str,
    given: Option<Val>,
) -> Result<Option<&'a str>, NoMemory>
    ensures { IfOk result (λ name. option_copied name ≡ signal_name (seen frozen.now heap.now) call.now given) }
{
    match given {
        None | Some(Val::None) => formed(alloc, call_name(call)),
        Some(Val::Str(x)) => formed(alloc, heap.text(frozen, x)),
        _ => Ok(None),
    }
}

/// Whether a keyword that has a truth is given as true.
pub fn signal_reset_less(heap: &Heap, frozen: &Frozen, given: Option<Val>) -> Option<bool>
    ensures { result ≡ signal_reset_less (seen frozen.now heap.now) given }
{
    match given {
        None => Some(false),
        Some(v) => truth(heap, frozen, v),
    }
}

/// `Module()`.
pub fn make_module(elaboration: &mut Elaboration, call: &Called) -> Result<Answer, NoMemory>
    ensures { Gives result elaboration.new (module_called (called_of call.now) (held_of elaboration.old)) }
{
    if !call.placed.is_empty() || !call.keywords.is_empty() {
        return elaboration.refuse(Cause::Raised);
    }
    let number = elaboration.store.add_module(elaboration.alloc)?;
    elaboration.give_kept(Kept::Module(number))
}

/// `Signal(..)`.
pub fn make_signal(
    elaboration: &mut Elaboration,
    heap: &Heap,
    frozen: &Frozen,
    call: &Called,
) -> Result<Answer, NoMemory>
    ensures { Gives result elaboration.new (signal_called (seen frozen.now heap.now) (called_of call.now) (held_of elaboration.old)) }
{
    let Some(args) = signal_arguments(call) else {
        return elaboration.refuse(Cause::Raised);
    };
    let Some(name) = signal_name(elaboration.alloc, heap, frozen, call.name, args.name)? else {
        return elaboration.refuse(Cause::Raised);
    };
    let Some(init) = signal_init(elaboration, args.init) else {
        return elaboration.refuse(Cause::Raised);
    };
    let Some(reset_less) = signal_reset_less(heap, frozen, args.reset_less) else {
        return elaboration.refuse(Cause::Raised);
    };
    match signal_shape(elaboration, heap, frozen, args.shape) {
        Ok(shape) => put_signal(elaboration, name, shape, init, reset_less),
        Err(why) => elaboration.refuse(why),
    }
}

// The number that a signal begins with.
fn signal_init(elaboration: &Elaboration, given: Option<Val>) -> Option<Int>
    ensures { result ≡ signal_init (held_of elaboration.now).store.things given }
{
    match given {
        None => Some(Int::of_u128(0)),
        Some(v) => elaboration.store.counted(&v),
    }
}

// The shape of a signal.
fn signal_shape(
    elaboration: &Elaboration,
    heap: &Heap,
    frozen: &Frozen,
    given: Option<Val>,
) -> Result<Shaped, Cause>
    ensures { result ≡ signal_shape (seen frozen.now heap.now) (held_of elaboration.now) given }
{
    match given {
        None => Ok(Shaped {
            form: Shape {
                width: 1,
                signed: false,
            },
            reading: Reading::Plain,
        }),
        Some(v) => elaboration.store.shaped_meant(heap, frozen, &v),
    }
}

/// A signal, and the expression that it is.
pub fn put_signal(
    elaboration: &mut Elaboration,
    name: &str,
    shape: Shaped,
    init: Int,
    reset_less: bool,
) -> Result<Answer, NoMemory>
    ensures { Gives result elaboration.new (signal_given shape.reading (signal_of name.now shape.form init reset_less) (held_of elaboration.old)) }
{
    let mut copy = Text::new(elaboration.alloc);
    copy.push(name)?;
    let form = shape.form;
    let sig = Sig {
        name: copy,
        shape: form,
        init: init.wrap(form.width, form.signed),
        reset_less,
    };
    match new_signal(elaboration, shape.reading, sig)? {
        Some(new) => elaboration.give(new.val),
        None => elaboration.refuse(Cause::Limit),
    }
}
