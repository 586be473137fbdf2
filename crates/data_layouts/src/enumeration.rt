// Enumerations.
ghost use Rattle.std.specs.Prelude.{◌≡◌, ◌↔◌, None, not, IsTrue, IfOk, IfErr};
ghost use Rattle.std.specs.Option.{option_copied, IfSome};
ghost use Rattle.std.specs.List.{list_any, AllByRecursion};
ghost use Rattle.amh_bits.specs.Patterns.{IsOf};
ghost use Rattle.data_layouts.specs.Layouts.{IsOwed};
ghost use Rattle.data_layouts.specs.Enumerations.{IsEnumerated, is_of, fits, enum_refusal, number_named, first_named};

use crate::copies::copied;
use crate::refusal::LayoutStop;
use crate::twins::{Named, has_twins};
use amh_bits::Int;
use amh_host::{Items, NoMemory, Text};
use shape_rules::Shape;
use std::alloc::Global;
use std::marker::Model;

/// A name of a number.
#[derive(Drop)]
pub struct NumberedName {
    pub name: Text,
    pub number: Int,
}

/// Names of numbers, in order.
pub type NumberedNames = Items<NumberedName>;

impl Named for NumberedName {
    ghost name_of = { λ m. m.name };

    fn name(&self) -> &str {
        self.name.as_str()
    }
}

/// A shape, and names with numbers of it.
#[derive(Drop)]
pub struct EnumShape {
    shape: Shape,
    members: NumberedNames,
}

impl Model for EnumShape {
    ghost use Rattle.data_layouts.specs.Enumerations.{Enumerated, IsEnumerated};

    ghost Value = { Enumerated };

    ghost view = { λ a. record { shape = a.shape; members = a.members } };

    ghost invariant = { λ a. IsEnumerated record { shape = a.shape; members = a.members } };
}

impl EnumShape {
    /// The enumeration of these members. `Repeated` comes exactly where a name stands twice, else `NotFitting` exactly
    /// where a number is not one of the shape.
    pub fn new(
        alloc: Global,
        shape: Shape,
        members: &NumberedNames,
    ) -> Result<EnumShape, LayoutStop>
        ensures made { IfOk result (λ e. (enum_refusal shape members.now ≡ None) × (e ≡ record { shape = shape; members = members.now })) }
        ensures refused { IfErr result (IsOwed (enum_refusal shape members.now)) }
    {
        if has_twins(alloc, members.as_slice())? {
            return Err(LayoutStop::Repeated);
        }
        if is_any_outside(shape, members.as_slice()) {
            return Err(LayoutStop::NotFitting);
        }
        Ok(EnumShape {
            shape,
            members: all_copied(alloc, members.as_slice())?,
        })
    }

    /// The shape of all numbers.
    pub fn shape(&self) -> Shape
        ensures { result ≡ self.now.shape }
    {
        self.shape
    }

    /// All members, in the order given.
    pub fn members(&self) -> &NumberedNames
        ensures value { result.now ≡ self.now.members }
        ensures of_shape { IsEnumerated self.now }
    {
        &self.members
    }

    /// The number of a name: `None` exactly where no member has it.
    pub fn number_named(&self, name: &str) -> Option<Int>
        ensures value { result ≡ number_named name.now self.now.members }
        ensures of_shape { IfSome result (IsOf self.now.shape.signed self.now.shape.width) }
    {
        let member = self.members.as_slice().iter().find(|m| m.name.is(name))?;
        Some(member.number)
    }

    /// The first member with a number, of which every later one is another name: `None` exactly where there is none.
    pub fn first_named(&self, number: Int) -> Option<&NumberedName>
        ensures { option_copied result ≡ first_named number self.now.members }
    {
        self.members.as_slice().iter().find(|m| m.number == number)
    }
}

// Whether a member has a number that is not of the shape.
fn is_any_outside(shape: Shape, members: &[NumberedName]) -> bool
    ensures { result ≡ list_any (λ m. not (fits shape m)) members.now }
{
    members.iter().any(|m| !is_of(shape, m.number))
}

// Whether a number is of a shape.
fn is_of(shape: Shape, number: Int) -> bool
    ensures { result ≡ is_of shape.signed shape.width number }
{
    is_own_wrap(shape, number)
}

#[tactic(auto, using(crate::proofs::Fits::of_shape))]
fn is_own_wrap(shape: Shape, number: Int) -> bool
    ensures { IsTrue result ↔ IsOf shape.signed shape.width number }
{
    number.wrap(shape.width, shape.signed) == number
}

fn all_copied(alloc: Global, members: &[NumberedName]) -> Result<NumberedNames, NoMemory>
    ensures { IfOk result (λ all. all ≡ members.now) }
{
    let mut all = Items::new(alloc);
    for m in members {
        all.push(NumberedName {
            name: copied(alloc, &m.name)?,
            number: m.number,
        })?;
    }
    Ok(all)
}
