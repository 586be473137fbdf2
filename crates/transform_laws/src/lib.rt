//! What the three wrappers of clock domains make of a tree of modules that can be resolved can be resolved. No code.
//!
//! specs/Laws.antt says what each wrapper keeps: the pool grows by expressions alone, resets still have the names of domains, the
//! tree is one of modules of the pool, its read ports give the signals that they gave, and its definitions are those that they
//! were, but for their names; so it can be resolved where the tree before could. A tree stands over a pool that grew. The
//! functions of `laws` do nothing: their clauses are the laws.
#![tactic(auto)]

mod laws;

pub use laws::{
    enabling_keeps_trees, growth_keeps_trees, renaming_keeps_trees, resetting_keeps_trees,
    trees_stand_in_pools,
};
