//! Turns that go over rows: targets that are unpacked, comprehensions, `for`, and names that are bound one after the other.
//!
//! Each takes a `Going` of py_frames and promises `GoesOn` of its part of the meaning: `assign` and `unpack` of a target, the turns of
//! a comprehension in a scope of its own, and the turns of a loop, each at its unit. specs/Walk_parts.antt has the parts of targets and
//! of comprehensions by their numbers, specs/Binding_all.antt names that are bound, or become attributes.
#![tactic(auto)]

pub mod bound_names;
pub mod comp_turns;
pub mod comprehensions;
pub mod for_turns;
pub mod loops;
pub mod target_turns;
pub mod targets;
pub mod walk_goes;
pub mod walk_parts;
