// What a turn does with values, beside operators: names, truth, literals, tuples and dicts.
ghost use Rattle.std.specs.Prelude.{◌≡◌, [], ◌∷◌, ◌++◌, IfOk, IfErr, OnOk, option_map};
ghost use Rattle.py_heap.specs.Heaps.{seen};
ghost use Rattle.py_operators.specs.Truths.{truth};
ghost use Rattle.py_heap.specs.Names.{scope_bound};
ghost use Rattle.py_heap.specs.Places.{new_text};
ghost use Rattle.py_frames.specs.Doing.{making, give, heap_seen};
ghost use Rattle.py_frames.specs.Expressions.{text_literal, dict_made};
ghost use Rattle.py_frames.specs.Expr_parts.{tuple_made};
ghost use Rattle.py_frames.specs.declared.state.Halt.TheVariants as halt;
ghost use Rattle.py_frames.specs.Functions.{named_val};
ghost use Rattle.py_frames.specs.Values.{kept_in, with_binding};
ghost use Rattle.py_frames.specs.Told.{TellsTruth, Binds};
ghost use Rattle.py_frames.specs.Frames.{GoesOn};

use amh_host::{NoMemory, Place, Text};
use py_frames::frame::Now;
use py_frames::functions::Functions;
use py_frames::going::{Going, stopped, told};
use py_frames::leaf::copied;
use py_frames::request::{Cause, NamedVal};
use py_frames::state::{ClassBody, Halt};
use py_heap::Frozen;
use py_tree::Name;
use py_values::{ScopeId, Val, Vals, ValueStop};
use std::alloc::Global;
use std::mem;

/// The truth of a value, or a stop where it has none.
pub fn truth(going: &Going, frozen: &Frozen, v: Val, place: Place) -> Result<bool, Halt>
    ensures { TellsTruth result (truth (seen frozen.now going.now.state.heap) v) place }
{
    match py_operators::truth(&going.state.heap, frozen, v) {
        Some(holds) => Ok(holds),
        None => Err(stopped(Cause::Raised, place)),
    }
}

/// The same of a value that is used again.
pub fn truth_of(going: &Going, frozen: &Frozen, v: &Val, place: Place) -> Result<bool, Halt>
    ensures { TellsTruth result (truth (seen frozen.now going.now.state.heap) v.now) place }
{
    truth(going, frozen, *v, place)
}

/// A name and its value.
pub fn named_val(alloc: Global, name: &str, val: Val) -> Result<NamedVal, NoMemory>
    ensures { IfOk result (λ x. x ≡ named_val name.now val) }
{
    let mut text = Text::new(alloc);
    match text.push(name) {
        Ok(()) => Ok(NamedVal { name: text, val }),
        Err(_) => Err(NoMemory),
    }
}

// A class body with one binding more, where it stands in its own scope.
fn kept_in(
    alloc: Global,
    scope: ScopeId,
    name: &str,
    v: Val,
    body: ClassBody,
) -> Result<ClassBody, NoMemory>
    ensures { IfOk result (λ kept. kept ≡ kept_in scope (named_val name.now v) body) }
{
    if body.scope.0 != scope.0 {
        return Ok(body);
    }
    let Ok(x) = named_val(alloc, name, v) else {
        return Err(NoMemory);
    };
    let mut body = body;
    match body.bindings.push(x) {
        Ok(()) => Ok(body),
        Err(_) => Err(NoMemory),
    }
}

// The class body that runs, where one does, with one binding more.
fn kept_by(
    alloc: Global,
    scope: ScopeId,
    name: &str,
    v: Val,
    body: Option<ClassBody>,
) -> Result<Option<ClassBody>, NoMemory>
    ensures { IfOk result (λ kept. kept ≡ option_map (kept_in scope (named_val name.now v)) body) }
{
    let Some(body) = body else {
        return Ok(None);
    };
    match kept_in(alloc, scope, name, v, body) {
        Ok(body) => Ok(Some(body)),
        Err(_) => Err(NoMemory),
    }
}

// So many names are bound, and a class body keeps this one.
fn keep_binding(going: &mut Going, bound: u64, name: &str, v: Val) -> Result<(), Halt>
    ensures keeps { OnOk result (going.new ≡ record going.old { state = record going.old.state { bound = bound; here = with_binding (named_val name.now v) going.old.state.here } }) }
    ensures lacks { IfErr result (λ h. h ≡ halt.NoMemory) }
    ensures used { going.new.state.used ≡ going.old.state.used }
{
    going.state.bound = bound;
    let body = mem::replace(&mut going.state.here.body, None);
    let Ok(body) = kept_by(going.alloc, going.state.here.scope, name, v, body) else {
        return Err(Halt::NoMemory);
    };
    going.state.here.body = body;
    Ok(())
}

/// Binds a name where the evaluation stands.
pub fn bind(
    going: &mut Going,
    frozen: &Frozen,
    name: &str,
    v: Val,
    place: Place,
) -> Result<(), Halt>
    ensures binds { Binds result (scope_bound (seen frozen.now going.old.state.heap) going.old.state.here.scope.0 name.now v) (named_val name.now v) place going.old going.new }
    ensures used { going.new.state.used ≡ going.old.state.used }
{
    let Some(bound) = going.state.bound.checked_add(1) else {
        return Err(Halt::NoMemory);
    };
    let given = going
        .state
        .heap
        .bind(frozen, going.state.here.scope, name, copied(&v));
    match given {
        Ok(()) => keep_binding(going, bound, name, v),
        Err(ValueStop::Raised) => Err(stopped(Cause::Raised, place)),
        Err(ValueStop::Width) => Err(stopped(Cause::Width, place)),
        Err(ValueStop::Limit) => Err(stopped(Cause::Limit, place)),
        Err(ValueStop::Spent) => Err(stopped(Cause::Spent, place)),
        Err(ValueStop::NoMemory) => Err(Halt::NoMemory),
    }
}

/// A new tuple.
#[tactic(auto, using(py_frames::proofs::ExprLaws::tuple_told))]
pub fn new_tuple(
    going: &mut Going,
    functions: &Functions,
    frozen: &Frozen,
    vals: Vals,
    place: Place,
    budget: u64,
) -> Result<Now, Halt>
    ensures moves { GoesOn functions.now frozen.now result going.old going.new budget (λ k. tuple_made k place vals) }
    ensures used { going.new.state.used ≡ going.old.state.used }
{
    let given = going.state.heap.tuple(frozen, vals);
    told(given, place)
}

/// A new dict of keys and values in turn.
#[tactic(auto, using(py_frames::proofs::ExprLaws::dict_told))]
pub fn new_dict(
    going: &mut Going,
    functions: &Functions,
    frozen: &Frozen,
    row: Vals,
    place: Place,
    budget: u64,
) -> Result<Now, Halt>
    ensures moves { GoesOn functions.now frozen.now result going.old going.new budget (λ k. dict_made k place row) }
    ensures used { going.new.state.used ≡ going.old.state.used }
{
    let given = going.state.heap.dict(frozen, row);
    told(given, place)
}

/// A string of the program's text.
#[tactic(auto, using(py_frames::proofs::ExprLaws::literal_told))]
pub fn new_literal(
    going: &mut Going,
    functions: &Functions,
    frozen: &Frozen,
    text: &Name,
    place: Place,
    budget: u64,
) -> Result<Now, Halt>
    ensures moves { GoesOn functions.now frozen.now result going.old going.new budget (λ k. text_literal k text.now place) }
    ensures used { going.new.state.used ≡ going.old.state.used }
{
    let given = going.state.heap.literal(frozen, text.as_str());
    told(given, place)
}

/// A new string.
#[tactic(auto, using(py_frames::proofs::ExprLaws::text_told))]
pub fn new_text(
    going: &mut Going,
    functions: &Functions,
    frozen: &Frozen,
    text: &Text,
    place: Place,
    budget: u64,
) -> Result<Now, Halt>
    ensures moves { GoesOn functions.now frozen.now result going.old going.new budget (λ k. making (λ s. new_text (heap_seen k s) text.now) place give) }
    ensures used { going.new.state.used ≡ going.old.state.used }
{
    let given = going.state.heap.new_text(frozen, text.as_str());
    told(given, place)
}
