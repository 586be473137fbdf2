// Names that are bound, or become attributes, one after the other.
ghost use Rattle.std.specs.Prelude.{◌≡◌};
ghost use Rattle.py_values.specs.Runs.{Answers};
ghost use Rattle.py_frames.specs.Doing.{give};
ghost use Rattle.py_frames.specs.Values.{attributes_bound};
ghost use Rattle.py_walks.specs.Binding_all.{left_heap, names_bound, attributes_set};
ghost use Rattle.py_frames.specs.Frames.{GoesOn};

use amh_host::Place;
use py_frames::frame::Now;
use py_frames::functions::Functions;
use py_frames::going::{Going, told};
use py_frames::request::{NamedVal, NamedVals};
use py_frames::state::{Got, Halt};
use py_heap::{Frozen, Heap};
use py_values::{ObjId, ScopeId, Val, ValueStop};

/// Names are bound in a scope.
#[tactic(auto, using(crate::proofs::BoundLaws::bound_steps))]
pub fn names_bound(
    heap: &mut Heap,
    frozen: &Frozen,
    scope: ScopeId,
    names: &[NamedVal],
) -> Result<(), ValueStop>
    ensures { Answers (left_heap result heap.new) (names_bound frozen.now scope.0 heap.old names.now) }
{
    for x in names {
        let bound = heap.bind(frozen, scope, x.name.as_str(), x.val);
        if let Err(e) = bound {
            return Err(e);
        }
    }
    Ok(())
}

// Attributes of an object are set.
#[tactic(auto, using(crate::proofs::BoundLaws::set_steps))]
fn attributes_set(
    heap: &mut Heap,
    frozen: &Frozen,
    o: ObjId,
    names: &[NamedVal],
) -> Result<(), ValueStop>
    ensures { Answers (left_heap result heap.new) (attributes_set frozen.now o.0 heap.old names.now) }
{
    for x in names {
        let set = heap.set_attribute(frozen, o, x.name.as_str(), x.val);
        if let Err(e) = set {
            return Err(e);
        }
    }
    Ok(())
}

/// Names of an answer become attributes of an object.
#[tactic(auto, using(crate::proofs::BoundLaws::attributes_rules, py_frames::proofs::BeginLaws::turn_rules))]
pub fn attributes_bound(
    going: &mut Going,
    _functions: &Functions,
    frozen: &Frozen,
    object: ObjId,
    names: NamedVals,
    place: Place,
    gives: Val,
    _budget: u64,
) -> Result<Now, Halt>
    ensures moves { GoesOn _functions.now frozen.now result going.old going.new _budget (λ k. attributes_bound k object names place (give gives)) }
    ensures used { going.new.state.used ≡ going.old.state.used }
{
    match attributes_set(&mut going.state.heap, frozen, object, names.as_slice()) {
        Ok(()) => Ok(Now::Came(Got::Value(gives))),
        Err(e) => told(Err(e), place),
    }
}
