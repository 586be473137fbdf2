// Which expressions a pool has: the first number of each.
ghost use Rattle.std.specs.Prelude.{◌≡◌, ◌<◌, ◌++◌, ◌∷◌, [], length, false, ℕ, List, IfOk, OnErr, Some, slice_get, slice_index_or, option_map};
ghost use Rattle.std.specs.List.{list_any};
ghost use Rattle.design_ir.specs.declared.expr.Expr.{Expr};
ghost use Rattle.design_ir.specs.declared.ids.ExprId.{ExprId};
ghost use Rattle.expr_index.specs.First.{first_number, has_reset, reset_step};
ghost use Rattle.expr_index.specs.Lists as by;
ghost use Rattle.expr_index.specs.Knows.{Knows};

use crate::lists_of::{LISTS, list_of};
use crate::sameness::is_same;
use design_ir::{Expr, ExprId, Exprs, Ids};
use lists::{Items, NoMemory};
use std::alloc::Global;
use std::marker::Model;

/// The numbers of a pool's expressions, in lists by what they are made of, and in which of them a reset stands. Contracts see both; what
/// they are of a pool is `Knows`.
#[derive(Drop)]
pub struct Known {
    lists: Vec<Items<usize>>,
    resets: Vec<bool>,
}

impl Model for Known {
    ghost use Rattle.std.specs.Prelude.{◌≡◌, length};
    ghost use Rattle.expr_index.specs.Lists.{list_count};
    ghost use Rattle.expr_index.specs.Knows.{Index};

    ghost Value = { Index };

    ghost view = { λ a. record { lists = a.lists.items; resets = a.resets.items } };

    ghost invariant = { λ a. length a.lists.items ≡ list_count };
}

impl Known {
    /// Those of a pool.
    pub fn of<P: Exprs>(alloc: Global, pool: &P) -> Result<Known, NoMemory>
        ensures { IfOk result (λ x. Knows x (P.pooled pool.now).exprs) }
    {
        let mut known = Known {
            lists: empty_lists(alloc)?,
            resets: Vec::new(alloc),
        };
        for i in 0..pool.count() {
            known.note(pool.at(ExprId(i)))?;
        }
        Ok(known)
    }

    /// One more, which comes next: its number is the count of those before it. Where there is no memory, nothing is noted.
    pub fn note(&mut self, e: &Expr) -> Result<(), NoMemory>
        ensures noted { IfOk result (λ _. (es : List Expr) → Knows self.old es → Knows self.new (es ++ e.now ∷ [])) }
        ensures full { OnErr result (self.new ≡ self.old) }
    {
        let number = self.resets.len();
        let is_reset = self.has_reset(e);
        self.resets.push(is_reset)?;
        match self.lists[list_of(e)].push(number) {
            Ok(()) => Ok(()),
            Err(_) => {
                self.resets.pop();
                Err(NoMemory)
            }
        }
    }

    /// The first number of an expression that is the same, where the pool has one.
    pub fn find<P: Exprs>(&self, pool: &P, e: &Expr) -> Option<ExprId>
        requires { Knows self.now (P.pooled pool.now).exprs }
        ensures { option_map (λ id. id.0) result ≡ first_number (P.pooled pool.now).exprs e.now }
    {
        // What holds expressions has room for 2^30 of them, so each number fits.
        let _ = pool.count();
        for number in self.lists[list_of(e)].as_slice() {
            let id = ExprId(*number as u32);
            if is_same(pool.at(id), e) {
                return Some(id);
            }
        }
        None
    }

    /// Whether a reset stands in an expression: in none that the pool does not have.
    pub fn is_reset_in(&self, e: ExprId) -> bool
        ensures value { result ≡ slice_index_or self.now.resets e.0 false }
        ensures known { (es : List Expr) → Knows self.now es → result ≡ has_reset es e.0 }
    {
        match self.resets.get(e.0 as usize) {
            Some(b) => *b,
            None => false,
        }
    }

    fn is_any(&self, ids: &Ids) -> bool
        ensures { result ≡ list_any (λ (k : ExprId). slice_index_or self.now.resets k.0 false) ids.now }
    {
        for id in ids.as_slice() {
            if self.is_reset_in(*id) {
                return true;
            }
        }
        false
    }

    // Whether a reset stands in an expression that is not there yet.
    fn has_reset(&self, e: &Expr) -> bool
        ensures { result ≡ reset_step (λ k. slice_index_or self.now.resets k false) e.now }
    {
        match e {
            Expr::Const { .. } | Expr::Sig(_) => false,
            Expr::Unary { a, .. }
            | Expr::Slice { a, .. }
            | Expr::Cast { a, .. }
            | Expr::Matches { a, .. } => self.is_reset_in(*a),
            Expr::Binary { a, b, .. } => self.is_reset_in(*a) || self.is_reset_in(*b),
            Expr::Mux { s, a, b } => {
                self.is_reset_in(*s) || self.is_reset_in(*a) || self.is_reset_in(*b)
            }
            Expr::Cat(ids) => self.is_any(ids),
            Expr::Part { a, offset, .. } => self.is_reset_in(*a) || self.is_reset_in(*offset),
            Expr::Pick { index, items } => self.is_reset_in(*index) || self.is_any(items),
            Expr::Reset { .. } => true,
        }
    }
}

// All lists, with nothing in them.
fn empty_lists(alloc: Global) -> Result<Vec<Items<usize>>, NoMemory>
    ensures size { IfOk result (λ v. length v.items ≡ by.list_count) }
    ensures empty { IfOk result (λ v. (n : ℕ) → n < by.list_count → slice_get v.items n ≡ Some []) }
{
    let mut lists = Vec::new(alloc);
    for _ in 0..LISTS {
        lists.push(Items::new(alloc))?;
    }
    Ok(lists)
}
