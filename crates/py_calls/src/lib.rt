//! Turns of what trails a primary: calls, indices and slices.
//!
//! Each takes a `Going` of py_frames and promises `GoesOn` of its part of the meaning: arguments from left to right, and what
//! a walk along trailers comes to, where it stores or changes the last of them. What is called then is served by py_callables.
#![tactic(auto)]

pub mod call;
pub mod call_arguments;
pub mod call_frame;
pub mod call_of;
pub mod call_part;
pub mod trail;
pub mod trail_augment;
pub mod trail_slice;
pub mod trail_store;
