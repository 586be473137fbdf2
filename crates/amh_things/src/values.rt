// The list of things.
ghost use Rattle.std.specs.Prelude.{◌≡◌, ◌++◌, ◌∷◌, [], length, IfOk, OnErr, IsSome, slice_get, option_map, option_and_then, unwrap_or};
ghost use Rattle.std.specs.Option.{option_copied};
ghost use Rattle.shape_rules.specs.Forms.{unsigned};
ghost use Rattle.amh_things.specs.declared.thing.Thing.TheVariants as thing;
ghost use Rattle.amh_things.specs.Things.{kept_number, bare_expr, held_expr, shown_shape, shown_enumeration, shown_member, shown_layout, shown_view, held_method, shown_name, shown_array, eq_target, name_called, base_called, layout_named, reading_at, reading_held, read_as};
ghost use Rattle.amh_things.specs.declared.thing.Reading.TheVariants as reading;
ghost use Rattle.amh_things.specs.Members.{numbering_at, member_of, enumeration_of};
ghost use Rattle.amh_things.specs.Renumbered.{thing_now, things_now};
ghost use Rattle.expr_index.specs.Numbers.{number_now};

use crate::members::{behind, enumeration_of, member_place};
use crate::names::{base_called, layout_named, name_called};
use crate::plan::read_as;
use crate::thing::{LayoutThing, Member, Method, Reading, Thing, ThingName};
use amh_bits::Int;
use data_layouts::EnumShape;
use design_ir::ExprId;
use expr_index::number_now;
use lists::NoMemory;
use py_values::{Hw, Val};
use shape_rules::Shape;
use std::alloc::Global;
use std::marker::Model;

/// The things of a store, by number. Contracts see the list of them.
///
/// There are fewer than 2^32 of them: where there would be more, there is no number for the next one, which is want of memory
/// here. A thing takes more than one byte, so no store of this size was ever seen.
#[derive(Drop)]
pub struct Values {
    things: Vec<Thing>,
}

impl Model for Values {
    ghost use Rattle.std.specs.Prelude.{ℕ, ◌^◌, ◌<◌, List, length};
    ghost use Rattle.amh_things.specs.declared.thing.Thing.{Thing};

    ghost Value = { List Thing };

    ghost view = { λ v. v.things.items };

    ghost invariant = { λ v. length v.things.items < 2 ^ 32 };
}

impl Values {
    /// No things, which takes no memory.
    pub fn new(alloc: Global) -> Values
        ensures { result ≡ [] }
    {
        Values {
            things: Vec::new(alloc),
        }
    }

    /// A number of the crate above, as a thing.
    pub fn keep(&mut self, number: u32) -> Result<Hw, NoMemory>
        ensures kept { IfOk result (λ hw. (hw ≡ record { 0 = length self.old }) × (self.new ≡ self.old ++ thing.Kept number ∷ [])) }
        ensures full { OnErr result (self.new ≡ self.old) }
    {
        self.put(Thing::Kept(number))
    }

    /// The value of an expression, as a thing. Where the shape by which it was made is an enumeration, it is a value of that, and where it is a
    /// layout, a view of it.
    pub fn hold(&mut self, e: ExprId, shape: Option<Hw>) -> Result<Hw, NoMemory>
        ensures held { IfOk result (λ hw. (hw ≡ record { 0 = length self.old }) × (self.new ≡ self.old ++ read_as (reading_held self.old shape) e ∷ [])) }
        ensures full { OnErr result (self.new ≡ self.old) }
    {
        let reading = self.reading_held(shape);
        self.put(read_as(reading, e))
    }

    /// A name that is called, as a thing: `Const`, `C`, `Cat`, `Mux`, `Array`, `unsigned` or `signed`.
    pub fn name(&mut self, name: &str) -> Result<Hw, NoMemory>
        requires { IsSome (name_called name.now) }
        ensures named { IfOk result (λ hw. (hw ≡ record { 0 = length self.old }) × (Some self.new ≡ option_map (λ n. self.old ++ thing.Name n ∷ []) (name_called name.now))) }
        ensures full { OnErr result (self.new ≡ self.old) }
    {
        let name = name_called(name).unwrap();
        self.put(Thing::Name(name))
    }

    /// A name over which a class makes an enumeration, as a thing: `Enum` or `IntEnum`.
    pub fn base(&mut self, name: &str) -> Result<Hw, NoMemory>
        requires { IsSome (base_called name.now) }
        ensures named { IfOk result (λ hw. (hw ≡ record { 0 = length self.old }) × (Some self.new ≡ option_map (λ n. self.old ++ thing.Name n ∷ []) (base_called name.now))) }
        ensures full { OnErr result (self.new ≡ self.old) }
    {
        let name = base_called(name).unwrap();
        self.put(Thing::Name(name))
    }

    /// A name of a layout, as a thing: `Struct`, `StructLayout`, `UnionLayout` or `ArrayLayout`.
    pub fn layout_name(&mut self, name: &str) -> Result<Hw, NoMemory>
        requires { IsSome (layout_named name.now) }
        ensures named { IfOk result (λ hw. (hw ≡ record { 0 = length self.old }) × (Some self.new ≡ option_map (λ n. self.old ++ thing.Name n ∷ []) (layout_named name.now))) }
        ensures full { OnErr result (self.new ≡ self.old) }
    {
        let name = layout_named(name).unwrap();
        self.put(Thing::Name(name))
    }

    /// How many things there are.
    pub fn len(&self) -> usize
        ensures { result ≡ length self.now }
    {
        self.things.len()
    }

    /// A thing by its number, where there is one.
    pub fn thing(&self, hw: Hw) -> Option<&Thing>
        ensures { option_copied result ≡ slice_get self.now hw.0 }
    {
        self.things.get(hw.0 as usize)
    }

    /// The number that the crate above keeps, where the thing is one.
    pub fn kept(&self, hw: Hw) -> Option<u32>
        ensures { result ≡ kept_number (slice_get self.now hw.0) }
    {
        match self.thing(hw) {
            Some(Thing::Kept(number)) => Some(*number),
            _ => None,
        }
    }

    /// The expression that the thing stands for, where it is a value and no view.
    pub fn bare(&self, hw: Hw) -> Option<ExprId>
        ensures { result ≡ bare_expr (slice_get self.now hw.0) }
    {
        match self.thing(hw) {
            Some(Thing::Value(e)) => Some(*e),
            Some(Thing::Numbered { value, .. }) => Some(*value),
            _ => None,
        }
    }

    /// The expression that the thing stands for where a value is wanted: of a view it is the value under it.
    pub fn expr(&self, hw: Hw) -> Option<ExprId>
        ensures { result ≡ held_expr (slice_get self.now hw.0) }
    {
        match self.thing(hw) {
            Some(Thing::Value(e)) => Some(*e),
            Some(Thing::Numbered { value, .. }) => Some(*value),
            Some(Thing::View { value, .. }) => Some(*value),
            _ => None,
        }
    }

    /// The shape that the thing is, where it is one: that of an enumeration too, and the bits of a layout.
    pub fn shape(&self, hw: Hw) -> Option<Shape>
        ensures { result ≡ shown_shape (slice_get self.now hw.0) }
    {
        match self.thing(hw) {
            Some(Thing::Shape(shape)) => Some(*shape),
            Some(Thing::Enumeration(e)) => Some(e.shape()),
            Some(Thing::Layout(l)) => Some(bits(l)),
            _ => None,
        }
    }

    /// The number of a member, where the thing is one.
    pub fn number(&self, hw: Hw) -> Option<Int>
        ensures { result ≡ option_map (λ m. m.number) (shown_member (slice_get self.now hw.0)) }
    {
        match self.shown_member(hw) {
            Some(m) => Some(m.number),
            None => None,
        }
    }

    /// The member of an enumeration that has a number, where there is one.
    pub fn member(&self, hw: Hw, number: Int) -> Option<Hw>
        ensures { result ≡ member_of self.now hw number }
    {
        let things = behind(self.things.as_slice(), hw.0 as usize);
        match member_place(things, hw, number) {
            Some(i) => Some(Hw(hw.0 + i as u32)),
            None => None,
        }
    }

    /// The enumeration whose shape the expression has as one of the things, where there is one.
    pub fn enumeration(&self, e: ExprId) -> Option<Hw>
        ensures { result ≡ enumeration_of e self.now }
    {
        enumeration_of(e, self.things.as_slice())
    }

    /// The member that the thing is.
    pub fn shown_member(&self, hw: Hw) -> Option<&Member>
        ensures { option_copied result ≡ shown_member (slice_get self.now hw.0) }
    {
        match self.thing(hw) {
            Some(Thing::Member(m)) => Some(m),
            _ => None,
        }
    }

    /// The layout of a view: `None` exactly where the thing is none.
    pub fn layout(&self, hw: Hw) -> Option<Hw>
        ensures { result ≡ option_map (λ v. v.0) (shown_view (slice_get self.now hw.0)) }
    {
        match self.view(hw) {
            Some((of, _)) => Some(of),
            None => None,
        }
    }

    /// The layout that the thing is.
    pub fn shown_layout(&self, hw: Hw) -> Option<&LayoutThing>
        ensures { option_copied result ≡ shown_layout (slice_get self.now hw.0) }
    {
        match self.thing(hw) {
            Some(Thing::Layout(l)) => Some(l),
            _ => None,
        }
    }

    /// The layout and the expression of a view, where the thing is one.
    pub fn view(&self, hw: Hw) -> Option<(Hw, ExprId)>
        ensures { result ≡ shown_view (slice_get self.now hw.0) }
    {
        match self.thing(hw) {
            Some(Thing::View { of, value }) => Some((*of, *value)),
            _ => None,
        }
    }

    /// What a value is read as whose shape is given by this thing.
    pub fn reading(&self, hw: Hw) -> Reading
        ensures { result ≡ reading_at self.now hw }
    {
        match self.thing(hw) {
            Some(Thing::Enumeration(_)) => Reading::Numbered(hw),
            Some(Thing::Layout(_)) => Reading::Viewed(hw),
            _ => Reading::Plain,
        }
    }

    fn reading_held(&self, shape: Option<Hw>) -> Reading
        ensures { result ≡ reading_held self.now shape }
    {
        match shape {
            Some(hw) => self.reading(hw),
            None => Reading::Plain,
        }
    }

    /// The enumeration that the thing is.
    pub fn shown_enumeration(&self, hw: Hw) -> Option<&EnumShape>
        ensures { option_map (λ e. e.now) result ≡ shown_enumeration (slice_get self.now hw.0) }
    {
        match self.thing(hw) {
            Some(Thing::Enumeration(e)) => Some(e),
            _ => None,
        }
    }

    /// The enumeration that a shape is given by.
    pub fn numbering_at(&self, hw: Hw) -> Option<Hw>
        ensures { result ≡ numbering_at self.now hw }
    {
        match self.thing(hw) {
            Some(Thing::Enumeration(_)) => Some(hw),
            _ => None,
        }
    }

    /// The name that the thing is, where it is one that is called.
    pub fn named(&self, hw: Hw) -> Option<ThingName>
        ensures { result ≡ shown_name (slice_get self.now hw.0) }
    {
        match self.thing(hw) {
            Some(Thing::Name(name)) => Some(*name),
            _ => None,
        }
    }

    /// The elements that the thing has, where it is an array.
    pub fn array(&self, hw: Hw) -> Option<&[Val]>
        ensures { option_map (λ vals. vals.now) result ≡ shown_array (slice_get self.now hw.0) }
    {
        match self.thing(hw) {
            Some(Thing::Array(vals)) => Some(vals.as_slice()),
            _ => None,
        }
    }

    /// The expression of a value and its method, where the thing is one.
    pub fn method(&self, hw: Hw) -> Option<(ExprId, Method)>
        ensures { result ≡ held_method (slice_get self.now hw.0) }
    {
        match self.thing(hw) {
            Some(Thing::Method { value, method, .. }) => Some((*value, *method)),
            _ => None,
        }
    }

    /// The value whose method `eq` the thing is.
    pub fn eq_of(&self, hw: Hw) -> Option<Hw>
        ensures { result ≡ eq_target (slice_get self.now hw.0) }
    {
        match self.thing(hw) {
            Some(
                Thing::Method {
                    of,
                    method: Method::Eq,
                    ..
                },
            ) => Some(*of),
            _ => None,
        }
    }

    /// The things behind the first `from` are of other expressions: that of number `before + k` becomes `now[k]`.
    pub fn renumber(&mut self, from: usize, before: u32, now: &[ExprId])
        ensures { self.new ≡ things_now from (number_now before now.now) self.old }
    {
        for i in from..self.things.len() {
            renumber_thing(&mut self.things[i], before, now);
        }
    }

    /// Puts a thing at the end.
    pub fn put(&mut self, thing: Thing) -> Result<Hw, NoMemory>
        ensures put { IfOk result (λ hw. (hw ≡ record { 0 = length self.old }) × (self.new ≡ self.old ++ thing ∷ [])) }
        ensures full { OnErr result (self.new ≡ self.old) }
    {
        let number = self.things.len();
        if number >= 4_294_967_295 {
            return Err(NoMemory);
        }
        match self.things.push(thing) {
            Ok(()) => Ok(Hw(number as u32)),
            Err(_) => Err(NoMemory),
        }
    }
}

// A layout as a shape: its bits, without a sign.
fn bits(l: &LayoutThing) -> Shape
    ensures { result ≡ unsigned l.now.layout.width }
{
    Shape {
        width: l.layout.width(),
        signed: false,
    }
}

// A thing of an expression gets its new number.
fn renumber_thing(thing: &mut Thing, before: u32, now: &[ExprId])
    ensures { thing.new ≡ thing_now (number_now before now.now) thing.old }
{
    match thing {
        Thing::Value(e) => *e = number_now(*e, before, now),
        Thing::Numbered { value, .. } => *value = number_now(*value, before, now),
        Thing::View { value, .. } => *value = number_now(*value, before, now),
        Thing::Method { value, .. } => *value = number_now(*value, before, now),
        _ => {}
    }
}
