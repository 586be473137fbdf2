//! The acts on interfaces: what a program is answered, and what is then held.
//!
//! Each act takes what elaboration holds (`Elaboration` of elab_store), and gives the answer and leaves what is held as its family in specs/ says:
//! Interfaces (the attributes of an interface, and `flipped`), Connections (`connect`) and SignatureClasses (classes over `Signature`). What is held
//! stays sound by each (proofs/InterfaceSound.antt, ConnectSound.antt, SignatureClassSound.antt). An act refuses want of memory alone by `NoMemory`;
//! what a program may not do is an answer.
#![tactic(auto)]

pub mod connecting;
pub mod faces;
pub mod signature_classes;
