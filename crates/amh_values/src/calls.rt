// Calls of things: names, layouts, and the methods of a value or a view.
ghost use Rattle.std.specs.Prelude.{◌≡◌, ◌<◌, length, drop, map, slice_get, string_bytes, IfOk};
ghost use Rattle.shape_rules.specs.Forms.{unsigned};
ghost use Rattle.design_ir.specs.Values.{form};
ghost use Rattle.py_heap.specs.Heaps.{seen};
ghost use Rattle.amh_values.specs.Calls.{signed_made, method_plan, plain_called, method_called, any_name_called, thing_called, numbered, own_numbering, any_called, called};
ghost use Rattle.amh_things.specs.Plans.{ends_of, value_made, IsPlanned, IsDrafted};
ghost use Rattle.amh_things.specs.Held.{AreHeld};

use amh_things::arguments::Arguments;
use amh_things::given::Given;
use amh_things::operand::{Operand, note_form};
use amh_things::plan::{Ends, Plan, PlanStop, raised, value_given};
use amh_things::queue::Queue;
use amh_things::shown::Shown;
use amh_things::thing::{Method, Thing, ThingName};
use amh_things::values::Values;
use design_ir::{Expr, ExprId, Exprs};
use layout_acts::layouts::{self, LayoutKind, members_called};
use layout_acts::views::layout_called;
use py_frames::request::Request;
use py_values::{Hw, Val};
use shape_rules::{Op, Shape};
use std::alloc::Global;
use value_acts::arrays::array_called;
use value_acts::joins::cat_called;
use value_acts::matching::matches_called;
use value_acts::name_calls::name_called;
use value_acts::operators::unary_made;
use value_acts::selections::{replicate_called, select_called};

// The bits of a value read with a sign.
fn signed_made(alloc: Global, ends: Ends, e: ExprId, width: u8) -> Result<Plan, PlanStop>
    ensures { IsPlanned result (signed_made ends e width) }
{
    if width == 0 {
        return Err(raised());
    }
    let cast = Expr::Cast { a: e, signed: true };
    ends.value(alloc, Queue::new(alloc), cast)
}

// The bits of a value read without a sign.
fn unsigned_made(alloc: Global, ends: Ends, e: ExprId) -> Result<Plan, PlanStop>
    ensures { IsPlanned result (method_plan ends e (unsigned 0) Method.AsUnsigned) }
{
    let cast = Expr::Cast {
        a: e,
        signed: false,
    };
    ends.value(alloc, Queue::new(alloc), cast)
}

// A call of a method without arguments.
fn method_plan(
    alloc: Global,
    ends: Ends,
    e: ExprId,
    shape: Shape,
    method: Method,
) -> Result<Plan, PlanStop>
    ensures { IsPlanned result (method_plan ends e shape method) }
{
    let held = Operand::Held { e, shape };
    match method {
        Method::Bool | Method::Any => unary_made(alloc, ends, Op::Any, &held),
        Method::All => unary_made(alloc, ends, Op::All, &held),
        Method::Xor => unary_made(alloc, ends, Op::Parity, &held),
        Method::AsSigned => signed_made(alloc, ends, e, shape.width),
        Method::AsUnsigned => unsigned_made(alloc, ends, e),
        Method::Shape => ends.thing(alloc, Thing::Shape(shape)),
        Method::AsValue => ends.thing(alloc, Thing::Value(e)),
        _ => Err(raised()),
    }
}

// A call of a method that takes no arguments.
fn plain_called<P: Exprs>(
    alloc: Global,
    pool: &P,
    values: &Values,
    ends: Ends,
    of: (ExprId, Method),
    arguments: &Arguments<'_>,
) -> Result<Plan, PlanStop>
    requires there { of.0.0 < length (P.pooled pool.now).exprs }
    requires ends { ends ≡ ends_of (P.pooled pool.now) values.now }
    ensures planned { IsPlanned result (plain_called ends of.0 (form (P.pooled pool.now) of.0.0) of.1 arguments.now) }
    ensures drafted { IfOk result (IsDrafted (P.pooled pool.now)) }
{
    let (e, method) = of;
    if !arguments.fits(&[]) {
        return Err(raised());
    }
    let shape = pool.shape(e);
    note_form(shape);
    method_plan(alloc, ends, e, shape, method)
}

// A call of a method.
fn method_called<P: Exprs>(
    alloc: Global,
    pool: &P,
    values: &Values,
    ends: Ends,
    of: (ExprId, Method),
    given: &Given<'_>,
) -> Result<Plan, PlanStop>
    requires there { of.0.0 < length (P.pooled pool.now).exprs }
    requires held { AreHeld (length (P.pooled pool.now).exprs) values.now }
    requires ends { ends ≡ ends_of (P.pooled pool.now) values.now }
    ensures planned { IsPlanned result (method_called (seen given.now.shown.frozen.now given.now.shown.heap.now) (P.pooled pool.now) values.now of.0 of.1 given.now.arguments) }
    ensures drafted { IfOk result (IsDrafted (P.pooled pool.now)) }
{
    let (e, method) = of;
    let arguments = &given.arguments;
    match method {
        Method::Matches => matches_called(alloc, pool, values, ends, e, given),
        Method::Replicate => replicate_called(alloc, pool, values, ends, e, arguments),
        Method::BitSelect => select_called(alloc, pool, values, ends, (e, false), arguments),
        Method::WordSelect => select_called(alloc, pool, values, ends, (e, true), arguments),
        _ => plain_called(alloc, pool, values, ends, (e, method), arguments),
    }
}

// A call of a name.
fn any_name_called<P: Exprs>(
    alloc: Global,
    pool: &P,
    values: &Values,
    ends: Ends,
    name: ThingName,
    given: &Given<'_>,
) -> Result<Plan, PlanStop>
    requires held { AreHeld (length (P.pooled pool.now).exprs) values.now }
    requires ends { ends ≡ ends_of (P.pooled pool.now) values.now }
    ensures planned { IsPlanned result (any_name_called (seen given.now.shown.frozen.now given.now.shown.heap.now) (P.pooled pool.now) values.now name given.now.arguments) }
    ensures drafted { IfOk result (IsDrafted (P.pooled pool.now)) }
{
    match name {
        ThingName::Cat => cat_called(alloc, pool, values, &given.shown, ends, &given.arguments),
        ThingName::Array => array_called(alloc, ends, &given.shown, &given.arguments),
        ThingName::StructLayout => {
            members_called(alloc, values, ends, LayoutKind::Structure, given)
        }
        ThingName::UnionLayout => members_called(alloc, values, ends, LayoutKind::Union, given),
        ThingName::ArrayLayout => layouts::array_called(alloc, values, ends, given),
        _ => name_called(alloc, pool, values, ends, name, given),
    }
}

// A call of a thing.
fn thing_called<P: Exprs>(
    alloc: Global,
    pool: &P,
    values: &Values,
    ends: Ends,
    hw: Hw,
    given: &Given<'_>,
) -> Result<Plan, PlanStop>
    requires held { AreHeld (length (P.pooled pool.now).exprs) values.now }
    requires ends { ends ≡ ends_of (P.pooled pool.now) values.now }
    ensures planned { IsPlanned result (thing_called (seen given.now.shown.frozen.now given.now.shown.heap.now) (P.pooled pool.now) values.now hw (slice_get values.now hw.0) given.now.arguments) }
    ensures drafted { IfOk result (IsDrafted (P.pooled pool.now)) }
{
    if let Some(of) = values.method(hw) {
        return method_called(alloc, pool, values, ends, of, given);
    }
    if let Some(l) = values.shown_layout(hw) {
        return layout_called(alloc, pool, values, ends, (hw, l), &given.arguments);
    }
    match values.named(hw) {
        Some(name) => any_name_called(alloc, pool, values, ends, name, given),
        None => Err(raised()),
    }
}

// The enumeration of a value.
fn numbered(values: &Values, hw: Hw) -> Option<Hw>
    ensures { result ≡ numbered (slice_get values.now hw.0) }
{
    match values.thing(hw) {
        Some(Thing::Numbered { of, .. }) => Some(*of),
        _ => None,
    }
}

// The enumeration of the value whose method `shape` a thing is.
fn own_numbering(values: &Values, hw: Hw) -> Option<Hw>
    ensures { result ≡ own_numbering values.now (slice_get values.now hw.0) }
{
    match values.thing(hw) {
        Some(
            Thing::Method {
                of,
                method: Method::Shape,
                ..
            },
        ) => numbered(values, *of),
        _ => None,
    }
}

// A call of `shape` of a value of an enumeration, or of another thing.
fn any_called<P: Exprs>(
    alloc: Global,
    pool: &P,
    values: &Values,
    ends: Ends,
    hw: Hw,
    given: &Given<'_>,
) -> Result<Plan, PlanStop>
    requires held { AreHeld (length (P.pooled pool.now).exprs) values.now }
    requires ends { ends ≡ ends_of (P.pooled pool.now) values.now }
    ensures planned { IsPlanned result (any_called (seen given.now.shown.frozen.now given.now.shown.heap.now) (P.pooled pool.now) values.now hw (slice_get values.now hw.0) given.now.arguments) }
    ensures drafted { IfOk result (IsDrafted (P.pooled pool.now)) }
{
    let Some(of) = own_numbering(values, hw) else {
        return thing_called(alloc, pool, values, ends, hw, given);
    };
    if given.arguments.fits(&[]) {
        Ok(value_given(alloc, Val::Hw(of)))
    } else {
        Err(raised())
    }
}

// The keywords of a call, which stand behind the name that it is assigned to.
fn keywords(names: &[String]) -> &[String]
    ensures { map string_bytes result.now ≡ drop 1 (map string_bytes names.now) }
{
    match names {
        [_, keys @ ..] => keys,
        _ => &[],
    }
}

/// A call of a thing: the thing, and then the arguments; the name that it is assigned to, and then the keywords.
pub(crate) fn called<P: Exprs>(
    alloc: Global,
    pool: &P,
    values: &Values,
    shown: Shown<'_>,
    ends: Ends,
    request: &Request,
) -> Result<Plan, PlanStop>
    requires held { AreHeld (length (P.pooled pool.now).exprs) values.now }
    requires ends { ends ≡ ends_of (P.pooled pool.now) values.now }
    ensures planned { IsPlanned result (called (seen shown.entry.frozen.now shown.entry.heap.now) (P.pooled pool.now) values.now request.now.vals (drop 1 request.now.names)) }
    ensures drafted { IfOk result (IsDrafted (P.pooled pool.now)) }
{
    match request.vals.as_slice() {
        [Val::Hw(hw), args @ ..] => {
            let keys = keywords(request.names.items());
            let given = Given {
                arguments: Arguments::of(args, keys),
                shown,
            };
            any_called(alloc, pool, values, ends, *hw, &given)
        }
        _ => Err(raised()),
    }
}
