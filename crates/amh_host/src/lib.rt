//! What the program asks of the system, and the words for places and refusals.
//!
//! The trait `Host` says what a call changes: a finite map of files, the text said and the text warned, each
//! told or not told, and a count of faults that never falls (specs/Seen.antt, specs/Calls.antt,
//! specs/Causes.antt). `MemoryHost` tells everything and fails where it is told to. `read_whole` reads a file in
//! pieces of 4,096 bytes and stops once a stated length is passed.
#![tactic(auto)]

mod host;
mod memory;
mod place;
mod steps;
mod whole;

pub use host::{Host, HostCall, HostStop};
pub use lists::{Items, Names, NoMemory, Numbers, Text, Words};
pub use memory::MemoryHost;
pub use place::{Budget, Kind, Place};
pub use steps::Steps;
pub use whole::{Whole, read_whole};
