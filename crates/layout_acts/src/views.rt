// Views: the value under a layout, and its fields.
ghost use Rattle.std.specs.Prelude.{◌≡◌, ◌+◌, ◌^◌, ◌≤◌, ◌<◌, nat_le, nat_lt, length, slice_get, IfOk, IfSome, OnOk, Ok, ◌++◌};
ghost use Rattle.std.specs.List.{list_any};
ghost use Rattle.std.specs.Option.{option_copied};
ghost use Rattle.design_ir.specs.Values.{form};
ghost use Rattle.py_heap.specs.Heaps.{seen, text_at};
ghost use Rattle.amh_things.specs.Held.{AreHeld};
ghost use Rattle.amh_things.specs.Operands.{IsOperand};
ghost use Rattle.amh_things.specs.Plans.{ends_of, thing_made, IsPlanned, IsDrafted};
ghost use Rattle.amh_things.specs.declared.thing.Thing.TheVariants as thing;
ghost use Rattle.amh_things.specs.Things.{held_expr, shown_layout};
ghost use Rattle.layout_acts.specs.Views.{field_named, field_exprs, field_id, field_count, field_plan, field_made, field_read, item_exprs, item_ids, item_plan, is_outside, is_unpickable, picked_where, item_picked, view_indexed, indexed, field_given, attributed, view_plan, viewed, target_of, layout_called};

use crate::fields::{FieldRead, field_at, field_named, field_read};
use amh_things::arguments::Arguments;
use amh_things::operand::{Operand, is_signed, note_form, number_of, operand_of, width_of};
use amh_things::plan::{Ends, Plan, PlanStop, raised, read_as};
use amh_things::queue::Queue;
use amh_things::shown::Shown;
use amh_things::texts::is_text;
use amh_things::thing::{LayoutThing, Method, Reading, Thing};
use amh_things::values::Values;
use data_layouts::Field;
use design_ir::{Expr, ExprId, Exprs, Ids};
use lists::NoMemory;
use py_frames::request::Answer;
use py_values::{Hw, StrId, Val};
use shape_rules::Shape;
use std::alloc::Global;

// ---- the bits of a field as a number

// Puts them behind other expressions, where the next one gets this number.
fn push_field(
    exprs: &mut Queue<Expr>,
    e: ExprId,
    low: u8,
    shape: Shape,
    next: u32,
) -> Result<(), NoMemory>
    ensures { OnOk result (exprs.new ≡ exprs.old ++ field_exprs e low shape next) }
{
    let slice = Expr::Slice {
        a: e,
        low,
        width: shape.width,
    };
    exprs.push(slice)?;
    if shape.signed {
        let cast = Expr::Cast {
            a: ExprId(next),
            signed: true,
        };
        exprs.push(cast)?;
    }
    Ok(())
}

// The expression that they are.
fn field_id(shape: Shape, next: u32) -> ExprId
    requires { next < 2 ^ 31 }
    ensures { result ≡ field_id shape next }
{
    if shape.signed {
        ExprId(next + 1)
    } else {
        ExprId(next)
    }
}

// How many expressions they are.
fn field_count(shape: Shape) -> u32
    ensures value { result ≡ field_count shape }
    ensures few { result ≤ 2 }
{
    if shape.signed { 2 } else { 1 }
}

fn field_plan(alloc: Global, ends: Ends, e: ExprId, f: FieldRead) -> Result<Plan, PlanStop>
    ensures { IsPlanned result (Ok (field_plan ends e f)) }
{
    let next = ends.exprs();
    let mut exprs = Queue::new(alloc);
    let Ok(()) = push_field(&mut exprs, e, f.low, f.shape, next) else {
        return Err(PlanStop::NoMemory);
    };
    let mut things = Queue::new(alloc);
    let Ok(()) = things.push(read_as(f.reading, field_id(f.shape, next))) else {
        return Err(PlanStop::NoMemory);
    };
    Ok(Plan {
        exprs,
        things,
        answer: Answer::Give(Val::Hw(Hw(ends.things()))),
    })
}

fn is_within(low: u8, item: u8, width: u8) -> bool
    ensures { result ≡ nat_le (low + item) width }
{
    low as u32 + item as u32 <= width as u32
}

// A field of a value, where it lies within it.
fn field_made<P: Exprs>(
    alloc: Global,
    pool: &P,
    values: &Values,
    ends: Ends,
    e: ExprId,
    field: Option<FieldRead>,
) -> Result<Plan, PlanStop>
    requires there { e.0 < length (P.pooled pool.now).exprs }
    requires ends { ends ≡ ends_of (P.pooled pool.now) values.now }
    ensures planned { IsPlanned result (field_made (P.pooled pool.now) values.now e field) }
    ensures drafted { IfOk result (IsDrafted (P.pooled pool.now)) }
{
    let Some(f) = field else {
        return Err(raised());
    };
    note_form(f.shape);
    if is_within(f.low, width_of(f.shape), width_of(pool.shape(e))) {
        field_plan(alloc, ends, e, f)
    } else {
        Err(raised())
    }
}

// ---- the item of an array that a value chooses

// An item does not lie within the value.
fn is_outside(width: u8, item: u8, x: &Field) -> bool
    ensures { result ≡ is_outside width item x.now }
{
    x.low as u32 + item as u32 > width as u32
}

fn is_any_outside(width: u8, item: u8, fields: &[Field]) -> bool
    ensures { result ≡ list_any (is_outside width item) fields.now }
{
    for x in fields {
        if is_outside(width, item, x) {
            return true;
        }
    }
    false
}

fn is_unpickable(width: u8, item: u8, fields: &[Field]) -> bool
    ensures { result ≡ is_unpickable width item fields.now }
{
    fields.len() > 255 || is_any_outside(width, item, fields)
}

/// The items of an array, and the expressions that they are.
#[derive(Drop)]
struct Items {
    exprs: Queue<Expr>,
    ids: Ids,
}

// The items of a value, one after the other, where the next expression gets this number.
fn item_exprs(
    alloc: Global,
    e: ExprId,
    shape: Shape,
    next: u32,
    fields: &[Field],
) -> Result<Items, NoMemory>
    requires first { next ≤ 2 ^ 30 }
    requires few { length fields.now ≤ 255 }
    ensures exprs { IfOk result (λ items. items.exprs ≡ item_exprs e shape next fields.now) }
    ensures ids { IfOk result (λ items. items.ids ≡ item_ids shape next fields.now) }
    ensures few { IfOk result (λ items. length items.exprs ≤ 510) }
{
    let mut exprs = Queue::new(alloc);
    let mut ids = Ids::new(alloc);
    let mut next = next;
    for x in fields {
        push_field(&mut exprs, e, x.low, shape, next)?;
        ids.push(field_id(shape, next))?;
        next += field_count(shape);
    }
    Ok(Items { exprs, ids })
}

fn item_plan(
    alloc: Global,
    ends: Ends,
    e: ExprId,
    first: FieldRead,
    index: ExprId,
    fields: &[Field],
) -> Result<Plan, PlanStop>
    requires few { length fields.now ≤ 255 }
    ensures { IsPlanned result (Ok (item_plan ends e first.shape first.reading index fields.now)) }
{
    match item_exprs(alloc, e, first.shape, ends.exprs(), fields) {
        Ok(items) => {
            let pick = Expr::Pick {
                index,
                items: items.ids,
            };
            ends.read(alloc, first.reading, items.exprs, pick)
        }
        Err(_) => Err(PlanStop::NoMemory),
    }
}

// The item that an index chooses; a signed index raises.
fn picked_where<P: Exprs>(
    alloc: Global,
    pool: &P,
    values: &Values,
    ends: Ends,
    of: (ExprId, ExprId),
    l: &LayoutThing,
) -> Result<Plan, PlanStop>
    requires there { of.0.0 < length (P.pooled pool.now).exprs }
    requires index { of.1.0 < length (P.pooled pool.now).exprs }
    requires ends { ends ≡ ends_of (P.pooled pool.now) values.now }
    ensures planned { IsPlanned result (picked_where (P.pooled pool.now) values.now of.0 of.1 l.now.layout.fields (field_read l.now 0)) }
    ensures drafted { IfOk result (IsDrafted (P.pooled pool.now)) }
{
    let (e, index) = of;
    let fields = l.layout.fields().as_slice();
    let Some(first) = field_read(l, 0) else {
        return Err(raised());
    };
    note_form(first.shape);
    let width = width_of(pool.shape(e));
    if is_signed(pool.shape(index)) || is_unpickable(width, width_of(first.shape), fields) {
        return Err(raised());
    }
    item_plan(alloc, ends, e, first, index, fields)
}

fn item_picked<P: Exprs>(
    alloc: Global,
    pool: &P,
    values: &Values,
    ends: Ends,
    of: (&LayoutThing, ExprId),
    index: Hw,
) -> Result<Plan, PlanStop>
    requires held { AreHeld (length (P.pooled pool.now).exprs) values.now }
    requires there { of.1.0 < length (P.pooled pool.now).exprs }
    requires ends { ends ≡ ends_of (P.pooled pool.now) values.now }
    ensures planned { IsPlanned result (item_picked (P.pooled pool.now) values.now of.entry.0.now of.entry.1 (held_expr (slice_get values.now index.0))) }
    ensures drafted { IfOk result (IsDrafted (P.pooled pool.now)) }
{
    let (l, e) = of;
    let Some(index) = values.expr(index) else {
        return Err(raised());
    };
    if l.is_array {
        picked_where(alloc, pool, values, ends, (e, index), l)
    } else {
        Err(raised())
    }
}

// ---- an index

// `view["NAME"]`.
fn field_labelled<P: Exprs>(
    alloc: Global,
    pool: &P,
    values: &Values,
    shown: &Shown<'_>,
    ends: Ends,
    of: (&LayoutThing, ExprId),
    name: StrId,
) -> Result<Plan, PlanStop>
    requires there { of.1.0 < length (P.pooled pool.now).exprs }
    requires ends { ends ≡ ends_of (P.pooled pool.now) values.now }
    ensures planned { IsPlanned result (field_made (P.pooled pool.now) values.now of.entry.1 (field_named of.entry.0.now (text_at (seen shown.now.frozen.now shown.now.heap.now) name.0))) }
    ensures drafted { IfOk result (IsDrafted (P.pooled pool.now)) }
{
    let (l, e) = of;
    let field = field_named(l, shown.heap.text(shown.frozen, name));
    field_made(alloc, pool, values, ends, e, field)
}

// `view["NAME"]`, and `view[i]` of an array.
fn view_indexed<P: Exprs>(
    alloc: Global,
    pool: &P,
    values: &Values,
    shown: &Shown<'_>,
    ends: Ends,
    of: (&LayoutThing, ExprId),
    vals: &[Val],
) -> Result<Plan, PlanStop>
    requires held { AreHeld (length (P.pooled pool.now).exprs) values.now }
    requires there { of.1.0 < length (P.pooled pool.now).exprs }
    requires ends { ends ≡ ends_of (P.pooled pool.now) values.now }
    ensures planned { IsPlanned result (view_indexed (seen shown.now.frozen.now shown.now.heap.now) (P.pooled pool.now) values.now of.entry.0.now of.entry.1 vals.now) }
    ensures drafted { IfOk result (IsDrafted (P.pooled pool.now)) }
{
    let (l, e) = of;
    match vals {
        [Val::Hw(hw)] => item_picked(alloc, pool, values, ends, (l, e), *hw),
        [Val::Str(name)] => field_labelled(alloc, pool, values, shown, ends, (l, e), *name),
        [i] => field_made(alloc, pool, values, ends, e, field_at(l, number_of(i))),
        _ => Err(raised()),
    }
}

/// An index of a view: of the layout that stands at a number, and the value under it.
pub fn indexed<P: Exprs>(
    alloc: Global,
    pool: &P,
    values: &Values,
    shown: &Shown<'_>,
    ends: Ends,
    view: (Hw, ExprId),
    vals: &[Val],
) -> Result<Plan, PlanStop>
    requires held { AreHeld (length (P.pooled pool.now).exprs) values.now }
    requires there { view.1.0 < length (P.pooled pool.now).exprs }
    requires ends { ends ≡ ends_of (P.pooled pool.now) values.now }
    ensures planned { IsPlanned result (indexed (seen shown.now.frozen.now shown.now.heap.now) (P.pooled pool.now) values.now view vals.now) }
    ensures drafted { IfOk result (IsDrafted (P.pooled pool.now)) }
{
    let (of, e) = view;
    match values.shown_layout(of) {
        Some(l) => view_indexed(alloc, pool, values, shown, ends, (l, e), vals),
        None => Err(raised()),
    }
}

// ---- an attribute

// `view.NAME` of a field.
fn field_given<P: Exprs>(
    alloc: Global,
    pool: &P,
    values: &Values,
    ends: Ends,
    view: (Hw, ExprId),
    name: &str,
) -> Result<Plan, PlanStop>
    requires there { view.1.0 < length (P.pooled pool.now).exprs }
    requires ends { ends ≡ ends_of (P.pooled pool.now) values.now }
    ensures planned { IsPlanned result (field_given (P.pooled pool.now) values.now (shown_layout (slice_get values.now view.0.0)) view.1 name.now) }
    ensures drafted { IfOk result (IsDrafted (P.pooled pool.now)) }
{
    let (of, e) = view;
    match values.shown_layout(of) {
        Some(l) => field_made(alloc, pool, values, ends, e, field_named(l, name)),
        None => Err(raised()),
    }
}

/// `view.NAME`: a method of the view, or a field.
pub fn attributed<P: Exprs>(
    alloc: Global,
    pool: &P,
    values: &Values,
    ends: Ends,
    hw: Hw,
    view: (Hw, ExprId),
    name: &str,
) -> Result<Plan, PlanStop>
    requires there { view.1.0 < length (P.pooled pool.now).exprs }
    requires ends { ends ≡ ends_of (P.pooled pool.now) values.now }
    ensures planned { IsPlanned result (attributed (P.pooled pool.now) values.now hw view name.now) }
    ensures drafted { IfOk result (IsDrafted (P.pooled pool.now)) }
{
    let (_, value) = view;
    if is_text(name, "as_value") {
        method_of(alloc, ends, hw, value, Method::AsValue)
    } else if is_text(name, "eq") {
        method_of(alloc, ends, hw, value, Method::Eq)
    } else {
        field_given(alloc, pool, values, ends, view, name)
    }
}

fn method_of(
    alloc: Global,
    ends: Ends,
    of: Hw,
    value: ExprId,
    method: Method,
) -> Result<Plan, PlanStop>
    ensures { IsPlanned result (Ok (thing_made ends (thing.Method of value method))) }
{
    ends.thing(alloc, Thing::Method { of, value, method })
}

// ---- a layout that is called

// A view of the value that an operand is.
fn view_plan(alloc: Global, ends: Ends, of: Hw, x: &Operand) -> Result<Plan, PlanStop>
    ensures { IsPlanned result (Ok (view_plan ends of x.now)) }
{
    let mut exprs = Queue::new(alloc);
    let Ok(()) = x.draft(&mut exprs) else {
        return Err(PlanStop::NoMemory);
    };
    let view = Thing::View {
        of,
        value: x.id(ends.exprs()),
    };
    let mut things = Queue::new(alloc);
    let Ok(()) = things.push(view) else {
        return Err(PlanStop::NoMemory);
    };
    Ok(Plan {
        exprs,
        things,
        answer: Answer::Give(Val::Hw(Hw(ends.things()))),
    })
}

fn viewed(
    alloc: Global,
    ends: Ends,
    of: Hw,
    width: u8,
    target: Option<Operand>,
) -> Result<Plan, PlanStop>
    ensures { IsPlanned result (viewed ends of width target) }
{
    match target {
        Some(x) => {
            if x.shape().width == width {
                view_plan(alloc, ends, of, &x)
            } else {
                Err(raised())
            }
        }
        None => Err(raised()),
    }
}

fn target_of<P: Exprs>(pool: &P, values: &Values, v: Option<Val>) -> Option<Operand>
    requires held { AreHeld (length (P.pooled pool.now).exprs) values.now }
    ensures value { result ≡ target_of (P.pooled pool.now) values.now v }
    ensures sound { IfSome result (IsOperand (P.pooled pool.now)) }
{
    match v {
        Some(v) => operand_of(pool, values, &v),
        None => None,
    }
}

/// `layout(target)`: a view of the value that the target is, which has the layout's width.
pub fn layout_called<P: Exprs>(
    alloc: Global,
    pool: &P,
    values: &Values,
    ends: Ends,
    of: (Hw, &LayoutThing),
    arguments: &Arguments<'_>,
) -> Result<Plan, PlanStop>
    requires held { AreHeld (length (P.pooled pool.now).exprs) values.now }
    requires ends { ends ≡ ends_of (P.pooled pool.now) values.now }
    ensures planned { IsPlanned result (layout_called (P.pooled pool.now) values.now of.entry.0 of.entry.1.now arguments.now) }
    ensures drafted { IfOk result (IsDrafted (P.pooled pool.now)) }
{
    let (hw, l) = of;
    if !arguments.fits(&["target"]) {
        return Err(raised());
    }
    let target = target_of(pool, values, arguments.argument(0, "target"));
    viewed(alloc, ends, hw, l.layout.width(), target)
}
