//! The acts on modules, statements, blocks, submodules, clock domains, wrappers, the top and the simulator: what a program is answered, and what
//! is then held.
//!
//! Each act takes what elaboration holds (`Elaboration` of elab_store), and gives the answer and leaves what is held as its family in specs/ says:
//! Sides, Blocks, Submodules, ClockDomains, Wrappers, Tops and Simulators; those on signals and components stand below (elab_components). An act
//! refuses want of memory alone by `NoMemory`; what a program may not do is an answer. That what is held stays sound by each of them is
//! proofs/SoundLaws.antt. Which request asks for which act, how a program runs and what comes of it is not known here.
#![tactic(auto)]

pub mod blocks;
pub mod domain_arguments;
pub mod domains;
pub mod sides;
pub mod simulators;
pub mod submodules;
pub mod tops;
pub mod wrappers;
