// `StructLayout`, `UnionLayout` and `ArrayLayout`.
ghost use Rattle.std.specs.Prelude.{◌≡◌, ◌≤◌, ◌<◌, ℕ, map, replicate, nat_lt, IfOk, IfErr, MatchOption, Bool, Option, Some, None, Ok, true, false};
ghost use Rattle.std.specs.List.{list_any};
ghost use Rattle.data_layouts.specs.declared.refusal.LayoutStop.{LayoutStop as Stop};
ghost use Rattle.data_layouts.specs.Layouts.{IsOwed};
ghost use Rattle.py_heap.specs.Heaps.{seen};
ghost use Rattle.amh_things.specs.declared.thing.LayoutThing.{LayoutThing as Made};
ghost use Rattle.amh_things.specs.Ends.{Ends as Counts};
ghost use Rattle.amh_things.specs.Meant.{shape_meant};
ghost use Rattle.amh_things.specs.Plans.{IsPlanned, MakesThings};
ghost use Rattle.amh_things.specs.Things.{reading_given};
ghost use Rattle.layout_acts.specs.Layouts.{text_in, members_of_row, is_wide, is_no_shape, form_or_none, is_no_member, has_wide_shape, member_of, reading_of, laid, laid_refusal, layout_where, layout_of, members_laid, members_given, members_called, items_laid, array_laid, array_given, array_called};

use amh_bits::Int;
use amh_host::Text;
use amh_things::arguments::Arguments;
use amh_things::given::Given;
use amh_things::meant::shape_meant;
use amh_things::operand::number_of;
use amh_things::plan::{Ends, Plan, PlanStop, raised};
use amh_things::shown::Shown;
use amh_things::thing::{LayoutThing, Reading, Readings, Thing};
use amh_things::values::Values;
use data_layouts::{Layout, LayoutStop, Member, Members};
use identifiers::is_identifier;
use lists::NoMemory;
use py_frames::request::{Cause, NamedVal, NamedVals};
use py_values::Val;
use shape_rules::Shape;
use std::alloc::Global;

/// Where the fields of a layout stand: one above the other, or all at bit 0.
#[derive(Clone, Copy, PartialEq, Eq, Drop)]
pub enum LayoutKind {
    Structure,
    Union,
}

// ---- members

fn text_in<'a>(shown: &Shown<'a>, v: Val) -> &'a str
    ensures { result.now ≡ text_in (seen shown.now.frozen.now shown.now.heap.now) v }
{
    match v {
        Val::Str(x) => shown.heap.text(shown.frozen, x),
        _ => "",
    }
}

/// A name and what is to be its shape.
pub(crate) fn named_val(alloc: Global, name: &str, val: Val) -> Result<NamedVal, NoMemory>
    ensures { IfOk result (λ m. m ≡ record { name = name.now; val = val }) }
{
    let mut copy = Text::new(alloc);
    copy.push(name)?;
    Ok(NamedVal { name: copy, val })
}

// The members of a dict, by its keys and their values.
fn members_of_row(alloc: Global, shown: &Shown<'_>, row: &[Val]) -> Result<NamedVals, NoMemory>
    ensures { IfOk result (λ ms. ms ≡ members_of_row (seen shown.now.frozen.now shown.now.heap.now) row.now) }
{
    let mut members = NamedVals::new(alloc);
    let mut rest = row;
    while let [k, v, more @ ..] = rest {
        members.push(named_val(alloc, text_in(shown, *k), *v)?)?;
        rest = more;
    }
    Ok(members)
}

// ---- their shapes

/// The shape that a member has, or none where it is too wide.
#[derive(Clone, Copy, PartialEq, Eq, Drop)]
struct MemberShape {
    shape: Shape,
    is_wide: bool,
}

// What a member's shape comes to, where it does not raise.
fn member_shape(values: &Values, shown: &Shown<'_>, v: &Val) -> Option<MemberShape>
    ensures { MatchOption result (is_no_shape (shape_meant (seen shown.now.frozen.now shown.now.heap.now) values.now v.now) ≡ true) (λ m. (is_no_shape (shape_meant (seen shown.now.frozen.now shown.now.heap.now) values.now v.now) ≡ false) × (m.shape ≡ form_or_none (shape_meant (seen shown.now.frozen.now shown.now.heap.now) values.now v.now)) × (m.is_wide ≡ is_wide (shape_meant (seen shown.now.frozen.now shown.now.heap.now) values.now v.now))) }
{
    match shape_meant(values, shown.heap, shown.frozen, v) {
        Ok(shape) => Some(MemberShape {
            shape,
            is_wide: false,
        }),
        Err(Cause::Width) => Some(MemberShape {
            shape: Shape {
                width: 0,
                signed: false,
            },
            is_wide: true,
        }),
        Err(_) => None,
    }
}

// What the bits of a field are read as whose shape is given by a value.
fn reading_given(values: &Values, v: Val) -> Reading
    ensures { result ≡ reading_given values.now v }
{
    match v {
        Val::Hw(hw) => values.reading(hw),
        _ => Reading::Plain,
    }
}

/// The members of a layout, what their fields are read as, and whether the shape of one is too wide.
#[derive(Drop)]
struct Gathered {
    members: Members,
    readings: Readings,
    wide: bool,
}

fn member_of(alloc: Global, name: &Text, shape: Shape) -> Result<Member, NoMemory>
    ensures { IfOk result (λ m. m ≡ record { name = name.now; shape = shape }) }
{
    let mut copy = Text::new(alloc);
    copy.push(name.as_str())?;
    Ok(Member { name: copy, shape })
}

// The members of a layout; none where one of them raises.
fn all_gathered(
    alloc: Global,
    values: &Values,
    shown: &Shown<'_>,
    given: &[NamedVal],
) -> Result<Option<Gathered>, NoMemory>
    ensures { IfOk result (λ o. MatchOption o (list_any (is_no_member (seen shown.now.frozen.now shown.now.heap.now) values.now) given.now ≡ true) (λ g. (list_any (is_no_member (seen shown.now.frozen.now shown.now.heap.now) values.now) given.now ≡ false) × (g.members ≡ map (member_of (seen shown.now.frozen.now shown.now.heap.now) values.now) given.now) × (g.readings ≡ map (reading_of values.now) given.now) × (g.wide ≡ list_any (has_wide_shape (seen shown.now.frozen.now shown.now.heap.now) values.now) given.now))) }
{
    let mut members = Members::new(alloc);
    let mut readings = Readings::new(alloc);
    let mut wide = false;
    for m in given {
        if !is_identifier(alloc, m.name.as_str())? {
            return Ok(None);
        }
        let Some(has) = member_shape(values, shown, &m.val) else {
            return Ok(None);
        };
        members.push(member_of(alloc, &m.name, has.shape)?)?;
        readings.push(reading_given(values, m.val))?;
        wide = wide || has.is_wide;
    }
    Ok(Some(Gathered {
        members,
        readings,
        wide,
    }))
}

// ---- layouts of members

fn laid(alloc: Global, kind: LayoutKind, members: &Members) -> Result<Layout, LayoutStop>
    ensures made { IfOk result (λ l. (laid_refusal kind members.now ≡ None) × (l ≡ laid kind members.now)) }
    ensures refused { IfErr result (IsOwed (laid_refusal kind members.now)) }
{
    match kind {
        LayoutKind::Structure => Layout::structure(alloc, members),
        LayoutKind::Union => Layout::union(alloc, members),
    }
}

// Why there is no layout.
fn stopped_by(stop: LayoutStop) -> PlanStop
    ensures { (owed : Option Stop) (ends : Counts) (wide : Bool) (l : Made) → IsOwed owed stop → IsPlanned (Err result) (layout_where ends false wide owed l) }
{
    match stop {
        LayoutStop::NoMemory => PlanStop::NoMemory,
        LayoutStop::Repeated => raised(),
        _ => PlanStop::Refused(Cause::Width),
    }
}

// The layout of members that do not raise.
fn layout_of(
    alloc: Global,
    ends: Ends,
    kind: LayoutKind,
    gathered: Gathered,
) -> Result<Plan, PlanStop>
    ensures planned { IsPlanned result (layout_of ends kind false gathered.wide gathered.members gathered.readings) }
    ensures things { IfOk result MakesThings }
{
    let Gathered {
        members,
        readings,
        wide,
    } = gathered;
    let layout = match laid(alloc, kind, &members) {
        Ok(layout) => layout,
        Err(stop) => return Err(stopped_by(stop)),
    };
    if wide {
        return Err(PlanStop::Refused(Cause::Width));
    }
    let made = LayoutThing {
        layout,
        readings,
        is_array: false,
    };
    ends.thing(alloc, Thing::Layout(made))
}

/// The layout of these members, in their order. What raises is told first: a name that is none, what is no shape, and a name that stands
/// twice; then `Width`, where a shape or all together would pass 128 bits.
pub(crate) fn members_laid(
    alloc: Global,
    values: &Values,
    shown: &Shown<'_>,
    ends: Ends,
    kind: LayoutKind,
    given: &[NamedVal],
) -> Result<Plan, PlanStop>
    ensures planned { IsPlanned result (members_laid (seen shown.now.frozen.now shown.now.heap.now) ends values.now kind given.now) }
    ensures things { IfOk result MakesThings }
{
    match all_gathered(alloc, values, shown, given) {
        Ok(Some(gathered)) => layout_of(alloc, ends, kind, gathered),
        Ok(None) => Err(raised()),
        Err(_) => Err(PlanStop::NoMemory),
    }
}

fn members_given(
    alloc: Global,
    values: &Values,
    shown: &Shown<'_>,
    ends: Ends,
    kind: LayoutKind,
    v: Option<Val>,
) -> Result<Plan, PlanStop>
    ensures planned { IsPlanned result (members_given (seen shown.now.frozen.now shown.now.heap.now) ends values.now kind v) }
    ensures things { IfOk result MakesThings }
{
    let Some(Val::Dict(o)) = v else {
        return Err(raised());
    };
    match members_of_row(alloc, shown, shown.heap.row(shown.frozen, o)) {
        Ok(members) => members_laid(alloc, values, shown, ends, kind, members.as_slice()),
        Err(_) => Err(PlanStop::NoMemory),
    }
}

/// `StructLayout(members)`, or `UnionLayout(members)`.
pub fn members_called(
    alloc: Global,
    values: &Values,
    ends: Ends,
    kind: LayoutKind,
    given: &Given<'_>,
) -> Result<Plan, PlanStop>
    ensures planned { IsPlanned result (members_called (seen given.now.shown.frozen.now given.now.shown.heap.now) ends values.now kind given.now.arguments) }
    ensures things { IfOk result MakesThings }
{
    let arguments = &given.arguments;
    if arguments.fits(&["members"]) {
        let members = arguments.argument(0, "members");
        members_given(alloc, values, &given.shown, ends, kind, members)
    } else {
        Err(raised())
    }
}

// ---- arrays

fn readings_of(alloc: Global, reading: Reading, count: u8) -> Result<Readings, NoMemory>
    ensures { IfOk result (λ rs. rs ≡ replicate count reading) }
{
    let mut all = Readings::new(alloc);
    for _item in 0..count {
        all.push(reading)?;
    }
    Ok(all)
}

// Why there are not so many items.
fn too_many(item: Shape) -> PlanStop
    ensures { (ends : Counts) (n : ℕ) (r : Reading) → 255 < n → IsPlanned (Err result) (items_laid ends item n r) }
{
    if item.width == 0 {
        raised()
    } else {
        PlanStop::Refused(Cause::Width)
    }
}

// So many items of a shape.
fn items_laid(
    alloc: Global,
    ends: Ends,
    item: Shape,
    count: u8,
    reading: Reading,
) -> Result<Plan, PlanStop>
    ensures planned { IsPlanned result (items_laid ends item count reading) }
    ensures things { IfOk result MakesThings }
{
    let layout = match Layout::array(alloc, item, count) {
        Ok(layout) => layout,
        Err(LayoutStop::NoMemory) => return Err(PlanStop::NoMemory),
        Err(_) => return Err(PlanStop::Refused(Cause::Width)),
    };
    let Ok(readings) = readings_of(alloc, reading, count) else {
        return Err(PlanStop::NoMemory);
    };
    let made = LayoutThing {
        layout,
        readings,
        is_array: true,
    };
    ends.thing(alloc, Thing::Layout(made))
}

fn array_laid(
    alloc: Global,
    ends: Ends,
    n: Option<Int>,
    reading: Reading,
    shape: Result<Shape, Cause>,
) -> Result<Plan, PlanStop>
    ensures planned { IsPlanned result (array_laid ends n reading shape) }
    ensures things { IfOk result MakesThings }
{
    let Some(n) = n else {
        return Err(raised());
    };
    if n.negative {
        return Err(raised());
    }
    match shape {
        Ok(item) => {
            if n.size > 255 {
                return Err(too_many(item));
            }
            items_laid(alloc, ends, item, n.size as u8, reading)
        }
        Err(why) => Err(PlanStop::Refused(why)),
    }
}

fn array_given(
    alloc: Global,
    values: &Values,
    shown: &Shown<'_>,
    ends: Ends,
    item: Option<Val>,
    n: Option<Val>,
) -> Result<Plan, PlanStop>
    ensures planned { IsPlanned result (array_given (seen shown.now.frozen.now shown.now.heap.now) ends values.now item n) }
    ensures things { IfOk result MakesThings }
{
    match (item, n) {
        (Some(item), Some(n)) => {
            let reading = reading_given(values, item);
            let shape = shape_meant(values, shown.heap, shown.frozen, &item);
            array_laid(alloc, ends, number_of(&n), reading, shape)
        }
        _ => Err(raised()),
    }
}

/// `ArrayLayout(elem_shape, length)`.
pub fn array_called(
    alloc: Global,
    values: &Values,
    ends: Ends,
    given: &Given<'_>,
) -> Result<Plan, PlanStop>
    ensures planned { IsPlanned result (array_called (seen given.now.shown.frozen.now given.now.shown.heap.now) ends values.now given.now.arguments) }
    ensures things { IfOk result MakesThings }
{
    let arguments = &given.arguments;
    if arguments.fits(&["elem_shape", "length"]) {
        let item = arguments.argument(0, "elem_shape");
        let n = arguments.argument(1, "length");
        array_given(alloc, values, &given.shown, ends, item, n)
    } else {
        Err(raised())
    }
}
