// Which requests are of the crate above.
ghost use Rattle.std.specs.Prelude.{◌≡◌, is_some};
ghost use Rattle.std.specs.List.{list_any};
ghost use Rattle.amh_values.specs.Acts.{asks_above, is_class, is_object, is_kept, is_above, is_other};
ghost use Rattle.amh_things.specs.Things.{eq_target, thing_of};

use amh_things::values::Values;
use py_frames::request::Act;
use py_values::Val;

// Whether an act is never of shapes and values.
fn asks_above(act: Act) -> bool
    ensures { result ≡ asks_above act }
{
    match act {
        Act::Import | Act::InitBase | Act::BodyEnd | Act::Returned | Act::Await => true,
        _ => false,
    }
}

fn is_class(v: &Val) -> bool
    ensures { result ≡ is_class v.now }
{
    match v {
        Val::Class(_) => true,
        _ => false,
    }
}

fn is_object(v: &Val) -> bool
    ensures { result ≡ is_object v.now }
{
    match v {
        Val::Object(_) => true,
        _ => is_class(v),
    }
}

// Whether a value is a thing of the crate above.
fn is_kept(values: &Values, v: &Val) -> bool
    ensures { result ≡ is_kept values.now v.now }
{
    match v {
        Val::Hw(hw) => values.kept(*hw).is_some(),
        _ => false,
    }
}

// Whether a value is the method `eq` of a value.
fn is_eq(values: &Values, v: &Val) -> bool
    ensures { result ≡ is_some (eq_target (thing_of values.now v.now)) }
{
    match v {
        Val::Hw(hw) => values.eq_of(*hw).is_some(),
        _ => false,
    }
}

// Whether one of the values is a thing of the crate above.
fn has_kept(values: &Values, vals: &[Val]) -> bool
    ensures { result ≡ list_any (is_kept values.now) vals.now }
{
    for v in vals {
        if is_kept(values, v) {
            return true;
        }
    }
    false
}

// Whether an act on these values is of the crate above, whatever things they are.
fn is_above(values: &Values, act: Act, vals: &[Val]) -> bool
    ensures { result ≡ is_above values.now act vals.now }
{
    match (act, vals) {
        (Act::Attribute, [v, ..]) => is_object(v),
        (Act::CallThing, [v, ..]) => is_eq(values, v),
        (Act::ClassMade, [_, base, ..]) => is_class(base),
        _ => false,
    }
}

/// Whether a request is of the crate above.
pub(crate) fn is_other(values: &Values, act: Act, vals: &[Val]) -> bool
    ensures { result ≡ is_other values.now act vals.now }
{
    asks_above(act) || has_kept(values, vals) || is_above(values, act, vals)
}
