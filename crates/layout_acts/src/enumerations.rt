// Classes over `Enum` and `IntEnum`.
ghost use Rattle.std.specs.Prelude.{◌≡◌, ◌≤◌, ◌++◌, map, string_bytes, IfOk, OnOk, Option, List, Some, Ok, Err, true};
ghost use Rattle.std.specs.List.{list_any};
ghost use Rattle.amh_bits.specs.Integers.{sign_of};
ghost use Rattle.data_layouts.specs.declared.enumeration.NumberedName.{NumberedName as Named};
ghost use Rattle.data_layouts.specs.declared.refusal.LayoutStop.{LayoutStop as Stop};
ghost use Rattle.data_layouts.specs.Enumerations.{IsEnumerated};
ghost use Rattle.data_layouts.specs.Layouts.{IsOwed};
ghost use Rattle.amh_things.specs.declared.plan.Plan.{Plan as Owed};
ghost use Rattle.py_heap.specs.Heaps.{seen};
ghost use Rattle.amh_things.specs.Ranges.{width_for_all, form_for_all, form_within};
ghost use Rattle.layout_acts.specs.Enumerations.{value_before, behind_names, numbered_names, is_keyword, is_other_keyword, numbers_of, numbers_shape, member_thing, unless_stopped, shaped, integer_base, class_over, class_made};
ghost use Rattle.amh_things.specs.Things.{thing_of, shown_name};
ghost use Rattle.amh_things.specs.Plans.{IsPlanned, MakesThings};

use amh_bits::Int;
use amh_host::Text;
use amh_things::arguments::keyword;
use amh_things::meant::shape_meant;
use amh_things::operand::{note_form, number_of};
use amh_things::plan::{Ends, Plan, PlanStop, raised};
use amh_things::queue::Queue;
use amh_things::ranges::width_for;
use amh_things::shown::Shown;
use amh_things::texts::is_text;
use amh_things::thing::{Member, Thing, ThingName};
use amh_things::values::Values;
use data_layouts::{EnumShape, LayoutStop, NumberedName, NumberedNames};
use lists::NoMemory;
use py_frames::request::{Answer, Cause};
use py_values::{Hw, Val};
use shape_rules::Shape;
use std::alloc::Global;

// ---- what the class has

fn named(alloc: Global, name: &str, number: Int) -> Result<NumberedName, NoMemory>
    ensures { IfOk result (λ m. m ≡ record { name = name.now; number = number }) }
{
    let mut copy = Text::new(alloc);
    copy.push(name)?;
    Ok(NumberedName { name: copy, number })
}

// Puts the member that a value of a class is behind others, and says whether it may stand there.
fn push_value(
    alloc: Global,
    name: &str,
    number: Option<Int>,
    members: &mut NumberedNames,
) -> Result<bool, NoMemory>
    ensures { (rest : Option (List Named)) → IfOk result (λ all. behind_names all members.new rest ≡ behind_names true members.old (value_before name.now number rest)) }
{
    if let Some(name) = name.strip_prefix('.') {
        let Some(number) = number else {
            return Ok(false);
        };
        members.push(named(alloc, name, number)?)?;
        return Ok(true);
    }
    Ok(true)
}

// The members of a class, in order.
fn numbered_names(
    alloc: Global,
    vals: &[Val],
    names: &[String],
) -> Result<Option<NumberedNames>, NoMemory>
    ensures { IfOk result (λ ms. ms ≡ numbered_names vals.now (map string_bytes names.now)) }
{
    let mut members = NumberedNames::new(alloc);
    for i in 0..names.len() {
        if i >= vals.len() {
            return Ok(None);
        }
        if !push_value(alloc, names[i].as_str(), number_of(&vals[i]), &mut members)? {
            return Ok(None);
        }
    }
    Ok(Some(members))
}

fn is_keyword(name: &[u8]) -> bool
    ensures { result ≡ is_keyword name.now }
{
    match name {
        [] => false,
        [first, ..] => *first == b'=',
    }
}

fn is_other_keyword(name: &str) -> bool
    ensures { result ≡ is_other_keyword name.now }
{
    is_keyword(name.as_bytes()) && !is_text(name, "=shape")
}

fn has_other_keyword(names: &[String]) -> bool
    ensures { result ≡ list_any is_other_keyword (map string_bytes names.now) }
{
    for name in names {
        if is_other_keyword(name.as_str()) {
            return true;
        }
    }
    false
}

// ---- the shape

fn is_negative(n: Int) -> bool
    ensures { result ≡ sign_of n }
{
    n.negative
}

fn is_any_negative(members: &[NumberedName]) -> bool
    ensures { result ≡ list_any sign_of (numbers_of members.now) }
{
    for m in members {
        if is_negative(m.number) {
            return true;
        }
    }
    false
}

// The least width that has all numbers, which may be one more than there is.
fn width_for_all(signed: bool, members: &[NumberedName]) -> u8
    ensures value { result ≡ width_for_all signed (numbers_of members.now) }
    ensures most { result ≤ 129 }
{
    let mut width = 0u8;
    for m in members {
        width = width.max(width_for(signed, m.number));
    }
    width
}

fn least_shape(members: &[NumberedName]) -> Result<Shape, Cause>
    ensures { result ≡ form_within (form_for_all (numbers_of members.now)) }
{
    let signed = is_any_negative(members);
    let width = width_for_all(signed, members);
    if width > 128 {
        return Err(Cause::Width);
    }
    Ok(Shape { width, signed })
}

// The shape of the numbers: the one that is given, and else the least one.
fn numbers_shape(
    values: &Values,
    shown: &Shown<'_>,
    shape: Option<Val>,
    members: &[NumberedName],
) -> Result<Shape, Cause>
    ensures { result ≡ numbers_shape (seen shown.now.frozen.now shown.now.heap.now) values.now shape (numbers_of members.now) }
{
    match shape {
        None | Some(Val::None) => least_shape(members),
        Some(v) => shape_meant(values, shown.heap, shown.frozen, &v),
    }
}

// ---- the enumeration

// An enumeration that is refused raises.
fn raised_by(stop: LayoutStop) -> PlanStop
    ensures { (owed : Option Stop) → (plan : Owed) → IsOwed owed stop → IsPlanned (Err result) (unless_stopped owed plan) }
{
    match stop {
        LayoutStop::NoMemory => PlanStop::NoMemory,
        _ => raised(),
    }
}

// Nothing is done; callers learn from it that the numbers are of the shape.
fn note_numbers(e: &EnumShape)
    ensures { IsEnumerated e.now }
{
    let _members = e.members();
}

// Puts a thing for each member behind others.
fn put_members(
    ends: Ends,
    is_integer: bool,
    shape: Shape,
    members: &[NumberedName],
    things: &mut Queue<Thing>,
) -> Result<(), NoMemory>
    ensures { OnOk result (things.new ≡ things.old ++ map (member_thing ends is_integer shape) members.now) }
{
    for m in members {
        let member = Member {
            of: Hw(ends.things()),
            number: m.number,
            shape,
            is_integer,
        };
        things.push(Thing::Member(member))?;
    }
    Ok(())
}

// An enumeration of these members, and a thing for each of them.
fn shaped(
    alloc: Global,
    ends: Ends,
    is_integer: bool,
    members: &NumberedNames,
    shape: Result<Shape, Cause>,
) -> Result<Plan, PlanStop>
    ensures planned { IsPlanned result (shaped ends is_integer members.now shape) }
    ensures things { IfOk result MakesThings }
{
    let shape = match shape {
        Ok(shape) => shape,
        Err(why) => return Err(PlanStop::Refused(why)),
    };
    note_form(shape);
    let enumeration = match EnumShape::new(alloc, shape, members) {
        Ok(enumeration) => enumeration,
        Err(stop) => return Err(raised_by(stop)),
    };
    note_numbers(&enumeration);
    let mut things = Queue::new(alloc);
    let Ok(()) = things.push(Thing::Enumeration(enumeration)) else {
        return Err(PlanStop::NoMemory);
    };
    match put_members(ends, is_integer, shape, members.as_slice(), &mut things) {
        Ok(()) => Ok(Plan {
            exprs: Queue::new(alloc),
            things,
            answer: Answer::Give(Val::Hw(Hw(ends.things()))),
        }),
        Err(_) => Err(PlanStop::NoMemory),
    }
}

// ---- classes

// Whether a class over a name makes an enumeration, and whether its members are integers.
fn integer_base(values: &Values, base: Val) -> Option<bool>
    ensures { result ≡ integer_base (shown_name (thing_of values.now base)) }
{
    match named_by(values, base) {
        Some(ThingName::Enum) => Some(false),
        Some(ThingName::IntEnum) => Some(true),
        _ => None,
    }
}

fn named_by(values: &Values, v: Val) -> Option<ThingName>
    ensures { result ≡ shown_name (thing_of values.now v) }
{
    match v {
        Val::Hw(hw) => values.named(hw),
        _ => None,
    }
}

/// The values of a class, and their names.
#[derive(Clone, Copy, Drop)]
struct ClassBody<'a> {
    vals: &'a [Val],
    names: &'a [String],
}

// A class over `Enum` or `IntEnum`.
fn class_over(
    alloc: Global,
    values: &Values,
    shown: &Shown<'_>,
    ends: Ends,
    is_integer: bool,
    class: &ClassBody<'_>,
) -> Result<Plan, PlanStop>
    ensures planned { IsPlanned result (class_over (seen shown.now.frozen.now shown.now.heap.now) ends values.now (Some is_integer) class.now.vals.now (map string_bytes class.now.names.now)) }
    ensures things { IfOk result MakesThings }
{
    if has_other_keyword(class.names) {
        return Err(raised());
    }
    let shape = keyword("=shape", class.names, class.vals);
    match numbered_names(alloc, class.vals, class.names) {
        Ok(Some(members)) => {
            let shape = numbers_shape(values, shown, shape, members.as_slice());
            shaped(alloc, ends, is_integer, &members, shape)
        }
        Ok(None) => Err(raised()),
        Err(_) => Err(PlanStop::NoMemory),
    }
}

/// The end of a class: the class, its base and its values; its name and the names of the values.
pub fn class_made(
    alloc: Global,
    values: &Values,
    shown: &Shown<'_>,
    ends: Ends,
    vals: &[Val],
    names: &[String],
) -> Result<Plan, PlanStop>
    ensures planned { IsPlanned result (class_made (seen shown.now.frozen.now shown.now.heap.now) ends values.now vals.now (map string_bytes names.now)) }
    ensures things { IfOk result MakesThings }
{
    match (vals, names) {
        ([_, base, vals @ ..], [_, names @ ..]) => match integer_base(values, *base) {
            Some(is_integer) => {
                let class = ClassBody { vals, names };
                class_over(alloc, values, shown, ends, is_integer, &class)
            }
            None => Err(raised()),
        },
        _ => Err(raised()),
    }
}
