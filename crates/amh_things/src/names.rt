// The names that are called, and the methods of values, by their spelling.
ghost use Rattle.std.specs.Prelude.{◌≡◌};
ghost use Rattle.amh_things.specs.Things.{name_called, base_called, layout_named, method_named, method_with};

use crate::texts::is_text;
use crate::thing::{Method, ThingName};

/// The name over which a class makes an enumeration, where it is spelled so.
pub fn base_called(name: &str) -> Option<ThingName>
    ensures { result ≡ base_called name.now }
{
    if is_text(name, "Enum") {
        Some(ThingName::Enum)
    } else if is_text(name, "IntEnum") {
        Some(ThingName::IntEnum)
    } else {
        None
    }
}

/// The name of a layout that is spelled so.
pub fn layout_named(name: &str) -> Option<ThingName>
    ensures { result ≡ layout_named name.now }
{
    if is_text(name, "Struct") {
        Some(ThingName::Struct)
    } else if is_text(name, "StructLayout") {
        Some(ThingName::StructLayout)
    } else if is_text(name, "UnionLayout") {
        Some(ThingName::UnionLayout)
    } else if is_text(name, "ArrayLayout") {
        Some(ThingName::ArrayLayout)
    } else {
        None
    }
}

/// The name that is called and is spelled so.
pub fn name_called(name: &str) -> Option<ThingName>
    ensures { result ≡ name_called name.now }
{
    if is_text(name, "Const") {
        Some(ThingName::Const)
    } else if is_text(name, "C") {
        Some(ThingName::C)
    } else if is_text(name, "Cat") {
        Some(ThingName::Cat)
    } else if is_text(name, "Mux") {
        Some(ThingName::Mux)
    } else if is_text(name, "Array") {
        Some(ThingName::Array)
    } else if is_text(name, "unsigned") {
        Some(ThingName::Unsigned)
    } else if is_text(name, "signed") {
        Some(ThingName::Signed)
    } else {
        None
    }
}

/// The method of a value that is spelled so.
pub fn method_named(name: &str) -> Option<Method>
    ensures { result ≡ method_named name.now }
{
    if is_text(name, "bool") {
        Some(Method::Bool)
    } else if is_text(name, "any") {
        Some(Method::Any)
    } else if is_text(name, "all") {
        Some(Method::All)
    } else if is_text(name, "xor") {
        Some(Method::Xor)
    } else if is_text(name, "as_signed") {
        Some(Method::AsSigned)
    } else if is_text(name, "as_unsigned") {
        Some(Method::AsUnsigned)
    } else {
        method_with(name)
    }
}

// One of the other methods.
fn method_with(name: &str) -> Option<Method>
    ensures { result ≡ method_with name.now }
{
    if is_text(name, "shape") {
        Some(Method::Shape)
    } else if is_text(name, "eq") {
        Some(Method::Eq)
    } else if is_text(name, "replicate") {
        Some(Method::Replicate)
    } else if is_text(name, "bit_select") {
        Some(Method::BitSelect)
    } else if is_text(name, "word_select") {
        Some(Method::WordSelect)
    } else if is_text(name, "matches") {
        Some(Method::Matches)
    } else {
        None
    }
}
