// The fields of a layout, each with what it is read as.
ghost use Rattle.std.specs.Prelude.{◌≡◌, ◌<◌, length, position, slice_get, IfSome};
ghost use Rattle.std.specs.Option.{option_copied, option_and_then};
ghost use Rattle.lists.specs.Texts.{text_eq};
ghost use Rattle.data_layouts.specs.declared.field.Field.{Field as Placed};
ghost use Rattle.py_heap.specs.Changes.{index_place};
ghost use Rattle.layout_acts.specs.Views.{field_with, field_read, field_named, field_at};

use amh_bits::Int;
use amh_things::texts::is_text;
use amh_things::thing::{LayoutThing, Reading};
use data_layouts::Field;
use shape_rules::Shape;

/// A field as it is read: where it begins, its shape, and what its bits are read as.
#[derive(Clone, Copy, PartialEq, Eq, Drop)]
pub struct FieldRead {
    pub low: u8,
    pub shape: Shape,
    pub reading: Reading,
}

/// A field by its number, where there is one.
pub(crate) fn field_read(l: &LayoutThing, i: usize) -> Option<FieldRead>
    ensures { result ≡ field_read l.now i }
{
    match (
        l.layout.fields().as_slice().get(i),
        l.readings.as_slice().get(i),
    ) {
        (Some(f), Some(r)) => Some(FieldRead {
            low: f.low,
            shape: f.shape,
            reading: *r,
        }),
        _ => None,
    }
}

// Where the first field with a name stands.
fn place_named(fields: &[Field], name: &str) -> Option<usize>
    ensures { result ≡ position (λ (f : Placed). text_eq f.name name.now) fields.now }
{
    fields.iter().position(|f| is_text(f.name.as_str(), name))
}

/// The field with a name.
pub(crate) fn field_named(l: &LayoutThing, name: &str) -> Option<FieldRead>
    ensures { result ≡ field_named l.now name.now }
{
    if l.is_array {
        return None;
    }
    match place_named(l.layout.fields().as_slice(), name) {
        Some(i) => field_read(l, i),
        None => None,
    }
}

// Python's place of an index, counted from the end where it is negative.
fn index_place(len: usize, n: Int) -> Option<usize>
    ensures place { result ≡ index_place len n }
    ensures within { IfSome result (λ k. k < len) }
{
    if n.negative {
        if n.size <= len as u128 {
            Some(len - n.size as usize)
        } else {
            None
        }
    } else if n.size < len as u128 {
        Some(n.size as usize)
    } else {
        None
    }
}

// The place that an index names.
fn place_at(len: usize, n: Option<Int>) -> Option<usize>
    ensures { result ≡ option_and_then (index_place len) n }
{
    match n {
        Some(n) => index_place(len, n),
        None => None,
    }
}

/// The item of an array at an index.
pub(crate) fn field_at(l: &LayoutThing, n: Option<Int>) -> Option<FieldRead>
    ensures { result ≡ field_at l.now n }
{
    if !l.is_array {
        return None;
    }
    match place_at(l.layout.fields().len(), n) {
        Some(i) => field_read(l, i),
        None => None,
    }
}
