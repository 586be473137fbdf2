// Names that are bound: one, or all those of an answer.
ghost use Rattle.std.specs.Prelude.{◌≡◌};
ghost use Rattle.py_frames.specs.Doing.{came};
ghost use Rattle.py_turns.specs.Binding.{refused};
ghost use Rattle.py_frames.specs.declared.state.Got.TheVariants.{Next};
ghost use Rattle.py_frames.specs.Values.{bind, bind_all, on_names};
ghost use Rattle.py_frames.specs.Frames.{GoesOn};

use crate::expr_values::bind;
use crate::stmt_plain::comes;
use amh_host::Place;
use py_frames::frame::Now;
use py_frames::functions::Functions;
use py_frames::going::{Going, stopped};
use py_frames::request::{Cause, NamedVals};
use py_frames::state::{Got, Halt};
use py_heap::Frozen;
use py_values::{Val, ValueStop};

// What the heap refused, as the machine tells it.
pub fn refused(stop: ValueStop, place: Place) -> Halt
    ensures { result ≡ refused stop place }
{
    match stop {
        ValueStop::Raised => stopped(Cause::Raised, place),
        ValueStop::Width => stopped(Cause::Width, place),
        ValueStop::Limit => stopped(Cause::Limit, place),
        ValueStop::Spent => stopped(Cause::Spent, place),
        ValueStop::NoMemory => Halt::NoMemory,
    }
}

/// Binds a name, and no more.
#[tactic(auto)]
pub fn name_bound(
    going: &mut Going,
    functions: &Functions,
    frozen: &Frozen,
    name: &str,
    v: Val,
    place: Place,
    budget: u64,
) -> Result<Now, Halt>
    ensures moves { GoesOn functions.now frozen.now result going.old going.new budget (λ k. bind k name.now v place (came Next)) }
    ensures used { going.new.state.used ≡ going.old.state.used }
{
    match bind(going, frozen, name, v, place) {
        Ok(()) => comes(going, functions, frozen, Got::Next, budget),
        Err(halt) => Err(halt),
    }
}

/// Binds all of these names, in order.
#[tactic(auto)]
fn all_bound(
    going: &mut Going,
    functions: &Functions,
    frozen: &Frozen,
    names: &NamedVals,
    place: Place,
    budget: u64,
) -> Result<Now, Halt>
    ensures moves { GoesOn functions.now frozen.now result going.old going.new budget (λ k. bind_all k names.now place (came Next)) }
    ensures used { going.new.state.used ≡ going.old.state.used }
{
    for named in names.as_slice() {
        match bind(going, frozen, named.name.as_str(), named.val, place) {
            Ok(()) => {}
            Err(halt) => return Err(halt),
        }
    }
    comes(going, functions, frozen, Got::Next, budget)
}

/// The names of an answer have come: all of them are bound.
#[tactic(auto)]
pub fn names_came(
    going: &mut Going,
    functions: &Functions,
    frozen: &Frozen,
    place: Place,
    got: Got,
    budget: u64,
) -> Result<Now, Halt>
    ensures moves { GoesOn functions.now frozen.now result going.old going.new budget (λ k. on_names got (λ names. bind_all k names place (came Next))) }
    ensures used { going.new.state.used ≡ going.old.state.used }
{
    match got {
        Got::Bound(names) => all_bound(going, functions, frozen, &names, place, budget),
        Got::Value(v) => comes(going, functions, frozen, Got::Value(v), budget),
        Got::Through(v) => comes(going, functions, frozen, Got::Through(v), budget),
        Got::Next => comes(going, functions, frozen, Got::Next, budget),
        Got::Broke => comes(going, functions, frozen, Got::Broke, budget),
        Got::Continued => comes(going, functions, frozen, Got::Continued, budget),
        Got::Returned(v) => comes(going, functions, frozen, Got::Returned(v), budget),
    }
}
