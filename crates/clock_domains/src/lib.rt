//! From a module with those below it to a design: its clock domains, who drives what, its ports and the columns of its trace.
//!
//! `resolve` gives exactly the design, or the first refusal, of specs/Resolved.antt. It takes what the tree of modules gives,
//! and the first module that holds each expression, from fragment_walks. It looks for a name or a domain that is defined twice
//! (clashes.rt) and for a reset whose domain has none, takes the domains that are defined and makes the others with their
//! signals (domains.rt), and puts signals in the places of resets (placing.rt). It seeks a signal that two read ports give
//! (read_data.rt) and the first statement that drives what it must not (drivers.rt), and chooses ports (ports.rt) and columns
//! (columns.rt) by what is driven and what is read (reads.rt). Domains name their clocks and resets there (shown.rt).
//!
//! A design has many processes over one pool, and statements share its expressions, so neither is gone through once for each
//! of the other. Marks of all targets, and of all that is read, are handed down from expressions to their parts in one pass
//! (spread.rt of fragment_walks). So are the numbers of processes, of which the least stay: each signal gets the first
//! process that drives it (firsts.rt). One pass up gives each target the least number of its signals (leasts.rt). A statement
//! drives what an earlier process drives exactly where that number is below its own process's (stops.rt).
#![tactic(auto)]

mod clashes;
mod columns;
mod domains;
mod drivers;
mod firsts;
mod hits;
mod leasts;
mod placing;
mod ports;
mod read_data;
mod reads;
mod resolving;
mod shown;
mod stop;
mod stops;
mod top;

pub use resolving::resolve;
pub use stop::ResolveStop;
pub use top::TopPorts;
