//! The calls that say what wrappers of clock domains do: what a program is answered, and what is then held.
//!
//! `make_renamer` is `DomainRenamer(..)`, and `make_inserter` is `ResetInserter(..)` and `EnableInserter(..)`. What they give is specs/Wrappers.antt:
//! a wrapping of elab_store, which is put around a module elsewhere. That what is held stays sound is said above (elab_acts). A call refuses
//! want of memory alone by `NoMemory`; what a program may not do is an answer.
#![tactic(auto)]

pub mod controls;
pub mod names;
pub mod wrappers;
