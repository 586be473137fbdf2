// `super()`: attributes above a class.
ghost use Rattle.std.specs.Prelude.{◌≡◌};
ghost use Rattle.py_frames.specs.Values.{attribute_by, super_thing, found_above, above, above_class, super_attribute};
ghost use Rattle.py_frames.specs.Calling.{told_attribute};
ghost use Rattle.py_frames.specs.Frames.{GoesOn};

use crate::attribute::{builtin_method, from_class, nowhere, told_attribute};
use crate::attribute_leaf::{first_of_row, is_init, is_super};
use amh_host::Place;
use py_frames::frame::Now;
use py_frames::functions::Functions;
use py_frames::going::Going;
use py_frames::state::Halt;
use py_heap::{Frozen, Inherited};
use py_tree::Name;
use py_turns::call_leaf::raise;
use py_values::{Builtin, FuncId, ObjId, Val};

// `super().name` that reaches a thing.
#[tactic(auto, using(py_frames::proofs::CallLaws::choose_rules))]
fn super_thing(
    going: &mut Going,
    functions: &Functions,
    frozen: &Frozen,
    this: Val,
    name: &Name,
    place: Place,
    rounds: u64,
    budget: u64,
) -> Result<Now, Halt>
    ensures moves { GoesOn functions.now frozen.now result going.old going.new budget (λ k. super_thing k (told_attribute rounds k name.now place) this name.now place) }
    ensures used { going.new.state.used ≡ going.old.state.used }
{
    if is_init(name.as_str()) {
        builtin_method(
            going,
            functions,
            frozen,
            Some(Builtin::InitThing),
            this,
            place,
            budget,
        )
    } else {
        told_attribute(going, functions, frozen, this, name, place, rounds, budget)
    }
}

// What was found above a class.
fn found_above(
    going: &mut Going,
    functions: &Functions,
    frozen: &Frozen,
    this: Val,
    found: Inherited,
    name: &Name,
    place: Place,
    rounds: u64,
    budget: u64,
) -> Result<Now, Halt>
    ensures moves { GoesOn functions.now frozen.now result going.old going.new budget (λ k. found_above k (told_attribute rounds k name.now place) this name.now place found) }
    ensures used { going.new.state.used ≡ going.old.state.used }
{
    match found {
        Inherited::Found(v, _) => from_class(
            going,
            functions,
            frozen,
            v,
            Some(this),
            place,
            budget,
        ),
        Inherited::Thing(_) => super_thing(
            going, functions, frozen, this, name, place, rounds, budget,
        ),
        Inherited::Nowhere => nowhere(going, functions, frozen, Some(this), name, place, budget),
    }
}

// From the base of a class on.
fn above_base(
    going: &mut Going,
    functions: &Functions,
    frozen: &Frozen,
    this: Val,
    base: ObjId,
    name: &Name,
    place: Place,
    rounds: u64,
    budget: u64,
) -> Result<Now, Halt>
    ensures moves { GoesOn functions.now frozen.now result going.old going.new budget (λ k. above k (told_attribute rounds k name.now place) this name.now place (Val.Class base)) }
    ensures used { going.new.state.used ≡ going.old.state.used }
{
    let found = going.state.heap.inherited(frozen, base, name.as_str());
    found_above(
        going, functions, frozen, this, found, name, place, rounds, budget,
    )
}

// From what stands as the base of a class on.
fn above(
    going: &mut Going,
    functions: &Functions,
    frozen: &Frozen,
    this: Val,
    base: Val,
    name: &Name,
    place: Place,
    rounds: u64,
    budget: u64,
) -> Result<Now, Halt>
    ensures moves { GoesOn functions.now frozen.now result going.old going.new budget (λ k. above k (told_attribute rounds k name.now place) this name.now place base) }
    ensures used { going.new.state.used ≡ going.old.state.used }
{
    match base {
        Val::Class(o) => above_base(
            going, functions, frozen, this, o, name, place, rounds, budget,
        ),
        Val::Hw(_) => super_thing(going, functions, frozen, this, name, place, rounds, budget),
        _ => nowhere(going, functions, frozen, Some(this), name, place, budget),
    }
}

// Above a class.
fn above_this_class(
    going: &mut Going,
    functions: &Functions,
    frozen: &Frozen,
    this: Val,
    class: ObjId,
    name: &Name,
    place: Place,
    rounds: u64,
    budget: u64,
) -> Result<Now, Halt>
    ensures moves { GoesOn functions.now frozen.now result going.old going.new budget (λ k. above_class k (told_attribute rounds k name.now place) this name.now place (Val.Class class)) }
    ensures used { going.new.state.used ≡ going.old.state.used }
{
    let base = first_of_row(going, frozen, class);
    above(
        going, functions, frozen, this, base, name, place, rounds, budget,
    )
}

// Above what stands as the class of a method.
fn above_class(
    going: &mut Going,
    functions: &Functions,
    frozen: &Frozen,
    this: Val,
    class: Val,
    name: &Name,
    place: Place,
    rounds: u64,
    budget: u64,
) -> Result<Now, Halt>
    ensures moves { GoesOn functions.now frozen.now result going.old going.new budget (λ k. above_class k (told_attribute rounds k name.now place) this name.now place class) }
    ensures used { going.new.state.used ≡ going.old.state.used }
{
    match class {
        Val::Class(o) => above_this_class(
            going, functions, frozen, this, o, name, place, rounds, budget,
        ),
        _ => raise(going, functions, frozen, place, budget),
    }
}

// An attribute of what `super()` gave.
fn super_attribute(
    going: &mut Going,
    functions: &Functions,
    frozen: &Frozen,
    this: Option<Val>,
    home: Option<Val>,
    name: &Name,
    place: Place,
    rounds: u64,
    budget: u64,
) -> Result<Now, Halt>
    ensures moves { GoesOn functions.now frozen.now result going.old going.new budget (λ k. super_attribute k (told_attribute rounds k name.now place) this home name.now place) }
    ensures used { going.new.state.used ≡ going.old.state.used }
{
    match (this, home) {
        (Some(this), Some(c)) => above_class(
            going, functions, frozen, this, c, name, place, rounds, budget,
        ),
        _ => raise(going, functions, frozen, place, budget),
    }
}

/// Of functions what `super()` gave alone has attributes.
pub fn func_attribute(
    going: &mut Going,
    functions: &Functions,
    frozen: &Frozen,
    id: FuncId,
    name: &Name,
    place: Place,
    rounds: u64,
    budget: u64,
) -> Result<Now, Halt>
    ensures moves { GoesOn functions.now frozen.now result going.old going.new budget (λ k. attribute_by k (told_attribute rounds k name.now place) (Val.Func id) name.now place) }
    ensures used { going.new.state.used ≡ going.old.state.used }
{
    let Some(f) = going.state.heap.func(frozen, id) else {
        return raise(going, functions, frozen, place, budget);
    };
    if !is_super(f.code) {
        return raise(going, functions, frozen, place, budget);
    }
    let this = f.this;
    let home = f.home;
    super_attribute(
        going, functions, frozen, this, home, name, place, rounds, budget,
    )
}
