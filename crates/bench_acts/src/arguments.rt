// The arguments of calls on `ctx`.
ghost use Rattle.std.specs.Prelude.{◌≡◌, length, IfSome};
ghost use Rattle.std.specs.Option.{option_copied};
ghost use Rattle.py_heap.specs.Heaps.{seen};
ghost use Rattle.amh_things.specs.Held.{AreHeld};
ghost use Rattle.amh_things.specs.Things.{thing_of};
ghost use Rattle.amh_things.specs.Operands.{operand_of as operand_seen};
ghost use Rattle.elab_store.specs.Held.{held_of};
ghost use Rattle.elab_store.specs.Seen.{called_of};
ghost use Rattle.elab_store.specs.Sound.{IsSample};
ghost use Rattle.bench_acts.specs.Context.{only_placed, one_or_none, operand_read, reading_of, number_set, domain_given};

use amh_bits::Int;
use amh_things::operand::{Operand, operand_of};
use amh_things::thing::{Reading, Thing};
use design_ir::{Design, Expr, Exprs};
use elab_store::calls::Called;
use elab_store::names::is_text;
use elab_store::simulation::Sample;
use elab_store::store::Elaboration;
use py_heap::{Frozen, Heap};
use py_values::Val;

/// The one argument of a call that stands by its place.
pub(crate) fn only_placed(call: &Called) -> Option<Val>
    ensures { result ≡ only_placed (called_of call.now) }
{
    match call.placed {
        [v] if call.keywords.is_empty() => Some(*v),
        _ => None,
    }
}

/// The one argument of a call, which may be given under a name, or be left out.
pub(crate) fn one_or_none(call: &Called, name: &str) -> Option<Option<Val>>
    ensures { result ≡ one_or_none name.now (called_of call.now) }
{
    match (call.placed, call.keyword_vals, call.keywords) {
        ([], [], _) => Some(None),
        ([v], [], _) => Some(Some(*v)),
        ([], [v], [named]) if is_text(named.as_str(), name) => Some(Some(*v)),
        _ => None,
    }
}

/// What is sampled where a value of the program is: a value by what its bits are read as, or a number. A view is none.
pub(crate) fn sampled(held: &Elaboration, v: &Val) -> Option<Sample>
    requires { AreHeld (length held.now.pool.exprs) held.now.store.things }
    ensures value { result ≡ operand_read (reading_of (thing_of held.now.store.things v.now)) (operand_seen held.now.pool held.now.store.things v.now) }
    ensures sound { IfSome result (IsSample held.now.pool) }
{
    match operand_of(&held.pool, &held.store.things, v)? {
        Operand::Held { e, .. } => match reading_of(held, v) {
            Reading::Viewed(_) => None,
            reading => Some(Sample::Value { e, reading }),
        },
        Operand::Number { value, .. } => Some(Sample::Number(value)),
    }
}

fn reading_of(held: &Elaboration, v: &Val) -> Reading
    ensures { result ≡ reading_of (thing_of held.now.store.things v.now) }
{
    let Val::Hw(hw) = v else {
        return Reading::Plain;
    };
    match held.store.things.thing(*hw) {
        Some(Thing::Numbered { of, .. }) => Reading::Numbered(*of),
        Some(Thing::View { of, .. }) => Reading::Viewed(*of),
        _ => Reading::Plain,
    }
}

/// The number that an input is set to: a number, a member, or a constant.
pub(crate) fn number_set(held: &Elaboration, design: &Design, v: &Val) -> Option<Int>
    requires held { AreHeld (length held.now.pool.exprs) held.now.store.things }
    requires pool { held.now.pool ≡ design.now.pool }
    ensures { result ≡ number_set (held_of held.now) (operand_seen held.now.pool held.now.store.things v.now) }
{
    match operand_of(&held.pool, &held.store.things, v)? {
        Operand::Held { e, .. } => match design.at(e) {
            Expr::Const { value, .. } => Some(*value),
            _ => None,
        },
        Operand::Number { value, .. } => Some(value),
    }
}

/// The name of a domain, `sync` where none is given.
pub(crate) fn domain_name<'a>(
    heap: &'a Heap,
    frozen: &'a Frozen,
    given: Option<Val>,
) -> Option<&'a str>
    ensures { option_copied result ≡ domain_given (seen frozen.now heap.now) given }
{
    match given {
        None => Some("sync"),
        Some(Val::Str(x)) => Some(heap.text(frozen, x)),
        _ => None,
    }
}
