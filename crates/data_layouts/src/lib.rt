//! Layouts and enumerations: where the fields of a structure, a union or an array stand, and the names of numbers.
//!
//! A layout is a list of fields with a width (specs/Layouts.antt): the fields of a structure stand one above the other,
//! those of a union all at bit 0, and the items of an array one above the other with their numbers as names. An
//! enumeration is a shape and a list of names with numbers of it (specs/Enumerations.antt).
#![tactic(auto)]

mod copies;
mod enumeration;
mod field;
mod laws;
mod layout;
mod refusal;
mod twins;

pub use enumeration::{EnumShape, NumberedName, NumberedNames};
pub use field::{Field, Fields, Member, Members};
pub use laws::{
    arrays_are_filled, fields_are_within, items_are_in_order, members_are_kept, names_are_found,
    structures_are_filled, tests_are_exact, twins_are_repeated,
};
pub use layout::Layout;
pub use refusal::LayoutStop;
