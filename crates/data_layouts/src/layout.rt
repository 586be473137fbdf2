// Layouts.
ghost use Rattle.std.specs.Prelude.{◌≡◌, ◌*◌, ◌<◌, ◌≤◌, None, MatchOption, IfOk, IfErr, map, find};
ghost use Rattle.std.specs.Option.{option_copied, IfSome};
ghost use Rattle.std.specs.List.{range_with_len};
ghost use Rattle.std.specs.Fmt.{decimal};
ghost use Rattle.lists.specs.Texts.{text_eq};
ghost use Rattle.data_layouts.specs.declared.field.Field.{Field};
ghost use Rattle.data_layouts.specs.Layouts.{structure_of, union_of, array_of, structure_refusal, union_refusal, array_refusal, IsOwed, IsLaid, IsWithin, total, widest, one_above, at_zero, item_at};

use crate::copies::copied;
use crate::field::{Field, Fields, Member, Members};
use crate::refusal::LayoutStop;
use crate::twins::has_twins;
use amh_host::{Items, NoMemory, Text};
use shape_rules::Shape;
use std::alloc::Global;
use std::marker::Model;

/// Fields, and how many bits they lie in.
#[derive(Drop)]
pub struct Layout {
    fields: Fields,
    width: u8,
}

impl Model for Layout {
    ghost use Rattle.data_layouts.specs.Layouts.{Laid, IsLaid};

    ghost Value = { Laid };

    ghost view = { λ a. record { fields = a.fields; width = a.width } };

    ghost invariant = { λ a. IsLaid record { fields = a.fields; width = a.width } };
}

impl Layout {
    /// The fields one above the other, the first least significant. `Repeated` comes exactly where a name stands twice,
    /// else `Width` exactly past 128 bits.
    pub fn structure(alloc: Global, fields: &Members) -> Result<Layout, LayoutStop>
        ensures made { IfOk result (λ l. (structure_refusal fields.now ≡ None) × (l ≡ structure_of fields.now)) }
        ensures refused { IfErr result (IsOwed (structure_refusal fields.now)) }
    {
        let members = fields.as_slice();
        if has_twins(alloc, members)? {
            return Err(LayoutStop::Repeated);
        }
        let Some(width) = total(members) else {
            return Err(LayoutStop::Width);
        };
        Ok(Layout {
            fields: one_above(alloc, members)?,
            width,
        })
    }

    /// All fields at bit 0. `Repeated` comes exactly where a name stands twice, else `Width` exactly past 128 bits, which
    /// no shape has.
    pub fn union(alloc: Global, fields: &Members) -> Result<Layout, LayoutStop>
        ensures made { IfOk result (λ l. (union_refusal fields.now ≡ None) × (l ≡ union_of fields.now)) }
        ensures refused { IfErr result (IsOwed (union_refusal fields.now)) }
    {
        let members = fields.as_slice();
        if has_twins(alloc, members)? {
            return Err(LayoutStop::Repeated);
        }
        Ok(Layout {
            fields: at_zero(alloc, members)?,
            width: widest(members),
        })
    }

    /// So many items of a shape one above the other. `Width` comes exactly past 128 bits.
    pub fn array(alloc: Global, item: Shape, length: u8) -> Result<Layout, LayoutStop>
        ensures made { IfOk result (λ l. (array_refusal item length ≡ None) × (l ≡ array_of item length)) }
        ensures refused { IfErr result (IsOwed (array_refusal item length)) }
    {
        let width = length as u32 * item.width as u32;
        if width > 128 {
            return Err(LayoutStop::Width);
        }
        Ok(Layout {
            fields: items(alloc, item, length)?,
            width: width as u8,
        })
    }

    /// The first field with a name: `None` exactly where there is none.
    pub fn field(&self, name: &str) -> Option<&Field>
        ensures value { option_copied result ≡ find (λ (f : Field). text_eq f.name name.now) self.now.fields }
        ensures within { IfSome result (λ f. IsWithin self.now.width f.now) }
    {
        self.fields.as_slice().iter().find(|f| f.name.is(name))
    }

    /// How many bits there are.
    pub fn width(&self) -> u8
        ensures value { result ≡ self.now.width }
        ensures most { result ≤ 128 }
    {
        self.width
    }

    /// All fields, in the order given.
    pub fn fields(&self) -> &Fields
        ensures value { result.now ≡ self.now.fields }
        ensures rules { IsLaid self.now }
    {
        &self.fields
    }
}

// The bits of all members: `None` past 128.
fn total(members: &[Member]) -> Option<u8>
    ensures { MatchOption result (128 < total members.now) (λ width. (width ≡ total members.now) × (width ≤ 128)) }
{
    let mut width = 0;
    for m in members {
        if m.shape.width > 128 - width {
            return None;
        }
        width += m.shape.width;
    }
    Some(width)
}

// The bits of the widest member.
fn widest(members: &[Member]) -> u8
    ensures value { result ≡ widest members.now }
    ensures most { result ≤ 128 }
{
    let mut width = 0;
    for m in members {
        width = width.max(m.shape.width);
    }
    width
}

// A field for each member, each above the one before it.
fn one_above(alloc: Global, members: &[Member]) -> Result<Fields, NoMemory>
    requires { total members.now ≤ 128 }
    ensures { IfOk result (λ fields. fields ≡ one_above 0 members.now) }
{
    let mut fields = Items::new(alloc);
    let mut low = 0;
    for m in members {
        fields.push(Field {
            name: copied(alloc, &m.name)?,
            low,
            shape: m.shape,
        })?;
        low += m.shape.width;
    }
    Ok(fields)
}

// A field for each member, all at bit 0.
fn at_zero(alloc: Global, members: &[Member]) -> Result<Fields, NoMemory>
    ensures { IfOk result (λ fields. fields ≡ map at_zero members.now) }
{
    let mut fields = Items::new(alloc);
    for m in members {
        fields.push(Field {
            name: copied(alloc, &m.name)?,
            low: 0,
            shape: m.shape,
        })?;
    }
    Ok(fields)
}

// The items of an array, named by their numbers.
fn items(alloc: Global, item: Shape, length: u8) -> Result<Fields, NoMemory>
    requires { length * item.width ≤ 128 }
    ensures { IfOk result (λ fields. fields ≡ map (item_at item) (range_with_len 0 length)) }
{
    let mut fields = Items::new(alloc);
    for i in 0..length {
        fields.push(Field {
            name: numeral(alloc, i)?,
            low: i * item.width,
            shape: item,
        })?;
    }
    Ok(fields)
}

// A number in decimal.
fn numeral(alloc: Global, n: u8) -> Result<Text, NoMemory>
    ensures { IfOk result (λ name. name ≡ decimal n) }
{
    let digits = format!(in alloc; "{n}")?;
    let mut name = Text::new(alloc);
    name.push(digits.as_str())?;
    Ok(name)
}
