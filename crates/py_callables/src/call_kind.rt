// How a value is called.
ghost use Rattle.std.specs.Prelude.{◌≡◌, ◌++◌, ◌∷◌, IfOk};
ghost use Rattle.py_frames.specs.declared.request.Act.TheVariants.{CallThing, InitBase};
ghost use Rattle.py_frames.specs.Asking.{request};
ghost use Rattle.py_tree.specs.Programs.{steps_of};
ghost use Rattle.py_heap.specs.Heaps.{seen};
ghost use Rattle.py_frames.specs.Async.{is_async_body};
ghost use Rattle.py_frames.specs.Functions.{function_at};
ghost use Rattle.py_frames.specs.Tables.{IsTable};
ghost use Rattle.py_frames.specs.Values.{named_vals, named_names, with_this, stands_over, is_instance, super_func, super_of};
ghost use Rattle.py_callables.specs.Called.{kind_of, no_arguments, no_keywords, is_one, one_thing};

use crate::attribute_leaf::first_of_row;
use amh_host::{Names, NoMemory, Place};
use py_frames::functions::Functions;
use py_frames::going::Going;
use py_frames::request::{Act, NamedVal, NamedVals, Request};
use py_heap::{Frozen, LookUp};
use py_values::{Builtin, Code, Func, Hw, ObjId, Val, Vals};
use std::alloc::Global;

/// How a builtin is called.
#[derive(Clone, Copy, Drop)]
pub enum CallKind {
    Super,
    InitThing,
    InitNothing,
    Print,
    Len,
    Abs,
    /// Over the elements of some arguments.
    Plain,
}

/// What a call of a function is.
#[derive(Clone, Copy, Drop)]
pub enum Callable {
    /// No function has the number.
    Missing,
    /// One that runs under `await` alone.
    Async,
    /// One with a body.
    Body,
    /// A builtin, with the value that it was read from.
    Builtin(Builtin, Option<Val>),
}

/// Whether the function of a place runs under `await` alone.
pub fn is_async_at(functions: &Functions, place: Place) -> bool
    requires { IsTable functions.now }
    ensures { result ≡ is_async_body (function_at place (steps_of functions.now.program)) }
{
    match functions.find(place) {
        Some(known) => known.function.is_async,
        None => false,
    }
}

/// How a builtin is called.
pub fn kind_of(b: Builtin) -> CallKind
    ensures { result ≡ kind_of b }
{
    match b {
        Builtin::Super => CallKind::Super,
        Builtin::InitThing => CallKind::InitThing,
        Builtin::InitNothing => CallKind::InitNothing,
        Builtin::Print => CallKind::Print,
        Builtin::Len => CallKind::Len,
        Builtin::Abs => CallKind::Abs,
        _ => CallKind::Plain,
    }
}

fn is_bare(args: &[Val], keywords: &[NamedVal]) -> bool
    ensures { result ≡ no_arguments args.now keywords.now }
{
    match args {
        [] => is_unnamed(keywords),
        [_, ..] => false,
    }
}

fn is_unnamed(keywords: &[NamedVal]) -> bool
    ensures { result ≡ no_keywords keywords.now }
{
    match keywords {
        [] => true,
        [_, ..] => false,
    }
}

/// Whether there are no arguments.
pub fn no_arguments(args: &Vals, keywords: &NamedVals) -> bool
    ensures { result ≡ no_arguments args.now keywords.now }
{
    is_bare(args.as_slice(), keywords.as_slice())
}

/// Whether there are no arguments by keyword.
pub fn no_keywords(keywords: &NamedVals) -> bool
    ensures { result ≡ no_keywords keywords.now }
{
    is_unnamed(keywords.as_slice())
}

/// Whether there is one argument.
pub fn is_one(args: &[Val]) -> bool
    ensures { result ≡ is_one args.now }
{
    match args {
        [_] => true,
        _ => false,
    }
}

fn thing_in(args: &[Val]) -> Option<Hw>
    ensures { result ≡ one_thing args.now }
{
    match args {
        [Val::Hw(h)] => Some(*h),
        _ => None,
    }
}

/// The thing that is the one argument.
pub fn one_thing(args: &Vals) -> Option<Hw>
    ensures { result ≡ one_thing args.now }
{
    thing_in(args.as_slice())
}

// Whether a class is another, or stands over it with so many classes between them at most.
#[tactic(auto, using(crate::proofs::SuperLaws::over_rules))]
fn stands_over(going: &Going, frozen: &Frozen, v: Val, c: ObjId, turns: u64) -> bool
    ensures { result ≡ stands_over turns (seen frozen.now going.now.state.heap) v c }
{
    let mut at = v;
    for _turn in 0..turns {
        let Val::Class(d) = at else {
            return false;
        };
        if d.0 == c.0 {
            return true;
        }
        at = first_of_row(going, frozen, d);
    }
    false
}

// Whether an object is of a class.
fn is_instance(going: &Going, frozen: &Frozen, o: ObjId, c: ObjId) -> bool
    ensures { result ≡ is_instance (seen frozen.now going.now.state.heap) o c }
{
    let class = first_of_row(going, frozen, o);
    stands_over(going, frozen, class, c, o.0 as u64 + 1)
}

fn super_func(alloc: Global, o: ObjId, c: ObjId) -> Func
    ensures { result ≡ super_func o c }
{
    Func {
        code: Code::Builtin(Builtin::Super),
        this: Some(Val::Object(o)),
        home: Some(Val::Class(c)),
        defaults: Vals::new(alloc),
        scope: None,
    }
}

/// What `super()` gives: of the class in whose body the function was defined, and of the function's first argument.
pub fn super_of(going: &Going, frozen: &Frozen, first: Option<Val>, class: LookUp) -> Option<Func>
    ensures { result ≡ super_of (seen frozen.now going.now.state.heap) first class }
{
    let (Some(Val::Object(o)), LookUp::Found(Val::Class(c))) = (first, class) else {
        return None;
    };
    if is_instance(going, frozen, o, c) {
        Some(super_func(going.alloc, o, c))
    } else {
        None
    }
}

/// The arguments of a method, with the value that it was read from.
pub fn with_this(alloc: Global, this: Option<Val>, args: Vals) -> Result<Vals, NoMemory>
    ensures { IfOk result (λ vals. vals ≡ with_this this args) }
{
    let Some(this) = this else {
        return Ok(args);
    };
    let mut vals = Vals::new(alloc);
    let Ok(()) = vals.push(this) else {
        return Err(NoMemory);
    };
    match vals.extend(args.as_slice()) {
        Ok(()) => Ok(vals),
        Err(_) => Err(NoMemory),
    }
}

// The values of arguments by keyword.
fn named_vals(alloc: Global, keywords: &[NamedVal]) -> Result<Vals, NoMemory>
    ensures { IfOk result (λ vals. vals ≡ named_vals keywords.now) }
{
    let mut vals = Vals::new(alloc);
    for x in keywords {
        match vals.push(x.val) {
            Ok(()) => {}
            Err(_) => return Err(NoMemory),
        }
    }
    Ok(vals)
}

// Their names, behind others.
fn named_names(alloc: Global, keywords: &[NamedVal]) -> Result<Names, NoMemory>
    ensures { IfOk result (λ names. names ≡ named_names keywords.now) }
{
    let mut names = Names::new(alloc);
    for x in keywords {
        match names.push(x.name.as_str()) {
            Ok(()) => {}
            Err(_) => return Err(NoMemory),
        }
    }
    Ok(names)
}

// The same behind the name of a call.
fn names_of_call(alloc: Global, name: &str, keywords: &[NamedVal]) -> Result<Names, NoMemory>
    ensures { IfOk result (λ names. names ≡ name.now ∷ named_names keywords.now) }
{
    let mut names = Names::new(alloc);
    let Ok(()) = names.push(name) else {
        return Err(NoMemory);
    };
    for x in keywords {
        match names.push(x.name.as_str()) {
            Ok(()) => {}
            Err(_) => return Err(NoMemory),
        }
    }
    Ok(names)
}

// A value, then arguments, then those by keyword.
fn vals_of_call(
    alloc: Global,
    first: Val,
    args: &Vals,
    keywords: &NamedVals,
) -> Result<Vals, NoMemory>
    ensures { IfOk result (λ vals. vals ≡ first ∷ (args.now ++ named_vals keywords.now)) }
{
    let mut vals = Vals::new(alloc);
    let Ok(()) = vals.push(first) else {
        return Err(NoMemory);
    };
    let Ok(()) = vals.extend(args.as_slice()) else {
        return Err(NoMemory);
    };
    let Ok(named) = named_vals(alloc, keywords.as_slice()) else {
        return Err(NoMemory);
    };
    match vals.extend(named.as_slice()) {
        Ok(()) => Ok(vals),
        Err(_) => Err(NoMemory),
    }
}

/// The request for the call of a thing.
pub fn call_request(
    alloc: Global,
    h: Hw,
    name: &str,
    args: &Vals,
    keywords: &NamedVals,
    place: Place,
) -> Result<Request, NoMemory>
    ensures { IfOk result (λ r. r ≡ request CallThing (Val.Hw h ∷ (args.now ++ named_vals keywords.now)) (name.now ∷ named_names keywords.now) place) }
{
    let Ok(vals) = vals_of_call(alloc, Val::Hw(h), args, keywords) else {
        return Err(NoMemory);
    };
    let Ok(names) = names_of_call(alloc, name, keywords.as_slice()) else {
        return Err(NoMemory);
    };
    Ok(Request {
        act: Act::CallThing,
        vals,
        names,
        place,
    })
}

/// The request for what an object has from the thing that its class stands over.
pub fn init_request(
    alloc: Global,
    o: ObjId,
    args: &Vals,
    keywords: &NamedVals,
    place: Place,
) -> Result<Request, NoMemory>
    ensures { IfOk result (λ r. r ≡ request InitBase (Val.Object o ∷ (args.now ++ named_vals keywords.now)) (named_names keywords.now) place) }
{
    let Ok(vals) = vals_of_call(alloc, Val::Object(o), args, keywords) else {
        return Err(NoMemory);
    };
    let Ok(names) = named_names(alloc, keywords.as_slice()) else {
        return Err(NoMemory);
    };
    Ok(Request {
        act: Act::InitBase,
        vals,
        names,
        place,
    })
}
