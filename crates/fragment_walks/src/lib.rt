//! What a module and those below it give, and which of them holds each expression.
//!
//! `walked` goes through the tree of modules once and gives one list of processes and one of memories, each with the path of
//! its module, one of definitions, and for each module the names of domains and the expressions that stand in it: exactly
//! those of specs/Walks.antt and specs/Held.antt, as specs/Walked.antt has it (walk.rt, exprs.rt, copies.rt).
//!
//! A design has many modules over one pool, and they share its expressions, so none is gone through once for each of the
//! others. `first_holders` hands the numbers of modules down from expressions to their parts in one pass, of which the least
//! stay: with these each expression has the first module that holds it (specs/Holders.antt; holders.rt, numbers.rt), by which
//! `add_resets` puts the names of resets behind those of their modules (specs/Names.antt; names.rt). `spread_targets` and
//! `spread_values` hand marks down in the same way: from targets to the signals that they stand for and the offsets that they
//! read, and from what is read to its signals (specs/Marks.antt, specs/Reads.antt; marks.rt, spread.rt).
#![tactic(auto)]

pub mod copies;
pub mod exprs;
pub mod holders;
pub mod marks;
pub mod names;
pub mod numbers;
pub mod spread;
pub mod walk;
