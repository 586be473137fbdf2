//! The acts on memories: what a program is answered, and what is then held.
//!
//! Each act takes what elaboration holds (`Elaboration` of elab_store), and gives the answer and leaves what is held as its family in specs/ says:
//! Memories (`Memory(..)`), Ports (`write_port` and `read_port`) and Attributes (those of memories and of ports). What a call of a memory refuses and
//! which signals it makes is memory_ports. That what is held stays sound is said above (elab_acts). An act refuses want of memory alone by
//! `NoMemory`; what a program may not do is an answer.
#![tactic(auto)]

pub mod attributes;
pub mod memories;
pub mod ports;
