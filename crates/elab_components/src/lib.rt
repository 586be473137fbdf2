//! The acts on imports, libraries, signals, resets, shapes like others, and components: what a program is answered, and what is then held.
//!
//! Each act takes what elaboration holds (`Elaboration` of elab_store), and gives the answer and leaves what is held as its family in specs/ says:
//! Imports, Libraries, Signals, Resets, Likes, Equations, of components Classes, ComponentClasses, Members and Interfaces, and of what is wired Signatures and Faces. An act refuses want of memory
//! alone by `NoMemory`; what a program may not do is an answer. Modules, their statements and domains, and simulators have a crate above (elab_acts).
#![tactic(auto)]

pub mod classes;
pub mod component_classes;
pub mod equations;
pub mod faces;
pub mod imports;
pub mod interfaces;
pub mod libraries;
pub mod likes;
pub mod member_calls;
pub mod resets;
pub mod signals;
pub mod signatures;
