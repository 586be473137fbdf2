//! Acts on enumerations, layouts and views: what classes over `Enum`, `IntEnum` and `Struct` give, calls of the names of layouts and of layouts
//! themselves, and the fields of views.
//!
//! Each act is a plan by the table of its family: specs/Enumerations.antt, StructClasses.antt, Layouts.antt and Views.antt. A plan changes
//! nothing: it is put into the pool and the list of things by the crate above, which knows the requests. What number a field of a view has,
//! and which item an index chooses, are laws (specs/Laws.antt).
#![tactic(auto)]

pub mod enumerations;
mod fields;
mod laws;
pub mod layouts;
pub mod struct_classes;
pub mod views;

pub use laws::{
    fields_are_read, fields_are_targets, fields_lie_within, items_are_chosen, items_lie_within,
};
