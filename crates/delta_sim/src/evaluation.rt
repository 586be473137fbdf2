// An expression evaluated by itself.
ghost use Rattle.std.specs.Prelude.{◌≡◌, ◌<◌, ◌+◌, ◌^◌, ℕ, [], false, true, pos, length, take, slice_get, slice_set, IfOk, IsSome, Some};
ghost use Rattle.design_ir.specs.declared.expr.Expr.{Expr};
ghost use Rattle.design_ir.specs.declared.ids.ExprId.{ExprId};
ghost use Rattle.design_ir.specs.Named.{AllBelow, named};
ghost use Rattle.design_ir.specs.Values.{num};
ghost use Rattle.design_ir.proofs.NumbersFit.{FitsSignals};
ghost use Rattle.delta_sim.specs.Evaluations.{number_of, AreFound, HasRoom, IsFinding, IsIdle};
ghost use Rattle.sim_plans.specs.Marks.{is_marked, AreMarked};

use amh_bits::Int;
use amh_host::NoMemory;
use design_ir::{Design, Expr, ExprId, Exprs};
use sim_plans::agenda::Agenda;
use sim_plans::expressions::value;
use std::alloc::Global;
use std::marker::Model;

/// An expression, and how many of those that it names were found.
#[derive(Clone, Copy, Drop)]
pub struct Visit {
    pub expr: ExprId,
    pub names: usize,
}

/// The integers of the expressions that were found, and those that wait until all that they name is found.
#[derive(Drop)]
pub struct Evaluation {
    numbers: Vec<Int>,
    found: Agenda,
    path: Vec<Visit>,
}

impl Model for Evaluation {
    ghost use Rattle.std.specs.Prelude.{vec_capacity};
    ghost use Rattle.delta_sim.specs.Evaluations.{Evaluating};

    ghost Value = { Evaluating };

    ghost view = { λ a. record { numbers = a.numbers.items; found = a.found; path = a.path.items; room = vec_capacity a.path } };
}

impl Evaluation {
    /// Room for expressions below a bound, none of which is found.
    pub fn new(alloc: Global, bound: usize) -> Result<Evaluation, NoMemory>
        ensures idle { IfOk result IsIdle }
        ensures bound { IfOk result (λ v. length v.numbers ≡ bound) }
    {
        Ok(Evaluation {
            numbers: vec![in alloc; Int::of_u128(0); bound]?,
            found: Agenda::new(alloc, bound)?,
            path: Vec::with_capacity(alloc, bound)?,
        })
    }

    /// The integer of an expression: finds those that stand in it, each once.
    pub fn find(&mut self, design: &Design, env: &[Int], e: ExprId) -> Int
        requires idle { IsIdle self.old }
        requires room { e.0 < length self.old.numbers }
        requires there { e.0 < length design.now.pool.exprs }
        requires signals { length env.now ≡ length design.now.pool.signals }
        requires fits { FitsSignals design.now.pool env.now }
        ensures value { result ≡ num design.now.pool env.now e.0 }
        ensures found { IsFinding design.now.pool env.now e.0 self.new }
        ensures over { self.new.path ≡ [] }
        ensures bound { length self.new.numbers ≡ length self.old.numbers }
    {
        let _ = design.count();
        self.path.push_reserved(Visit { expr: e, names: 0 });
        while let Some(at) = self.path.pop() {
            let x = design.at(at.expr);
            let names = first_missing(x, at.names, &self.found);
            if let Some(name) = name_at(x, names) {
                self.path.push_reserved(Visit {
                    expr: at.expr,
                    names,
                });
                self.path.push_reserved(Visit {
                    expr: name,
                    names: 0,
                });
            } else {
                self.settle(design, env, at.expr);
            }
        }
        self.numbers[e.0 as usize]
    }

    // Finds an expression all of whose names are found.
    fn settle(&mut self, design: &Design, env: &[Int], e: ExprId)
        requires room { e.0 < length self.old.numbers }
        requires marks { length self.old.found.marks ≡ length self.old.numbers }
        requires there { e.0 < length design.now.pool.exprs }
        requires names { (x : Expr) → slice_get design.now.pool.exprs e.0 ≡ Some x → AreMarked self.old.found.marks (named x) }
        requires found { AreFound design.now.pool env.now self.old.numbers self.old.found.marks }
        requires signals { length env.now ≡ length design.now.pool.signals }
        requires fits { FitsSignals design.now.pool env.now }
        ensures numbers { self.new.numbers ≡ slice_set self.old.numbers e.0 (num design.now.pool env.now e.0) }
        ensures marks { self.new.found.marks ≡ slice_set self.old.found.marks e.0 true }
        ensures path { self.new.path ≡ self.old.path }
        ensures room { self.new.room ≡ self.old.room }
    {
        let _ = design.count();
        let k = e.0 as usize;
        let n = value(design, env, &self.numbers[..k], design.at(e));
        self.numbers[k] = n;
        self.found.mark(k);
    }

    /// Lets nothing be found any more.
    pub fn forget(&mut self)
        requires room { HasRoom self.old }
        requires none { (k : ℕ) → is_marked self.old.found.marks k ≡ false → number_of self.old.numbers k ≡ pos 0 }
        requires over { self.old.path ≡ [] }
        ensures idle { IsIdle self.new }
        ensures bound { length self.new.numbers ≡ length self.old.numbers }
    {
        unset(&self.found, &mut self.numbers);
        self.found.clear();
    }
}

// Puts 0 in the place of each integer that was found.
fn unset(found: &Agenda, numbers: &mut Vec<Int>)
    requires marks { length found.now.marks ≡ length numbers.old.items }
    requires none { (k : ℕ) → is_marked found.now.marks k ≡ false → number_of numbers.old.items k ≡ pos 0 }
    ensures none { (k : ℕ) → number_of numbers.new.items k ≡ pos 0 }
    ensures bound { length numbers.new.items ≡ length numbers.old.items }
{
    for i in 0..found.len() {
        numbers[found.get(i)] = Int::of_u128(0);
    }
}

// The first place, from one on before which all are found, where an expression names one that is not; or the end.
fn first_missing(e: &Expr, from: usize, found: &Agenda) -> usize
    requires below { AllBelow (length found.now.marks) (named e.now) }
    requires read { AreMarked found.now.marks (take from (named e.now)) }
    ensures read { AreMarked found.now.marks (take result (named e.now)) }
    ensures missing { (x : ExprId) → slice_get (named e.now) result ≡ Some x → is_marked found.now.marks x.0 ≡ false }
{
    let mut place = from;
    while let Some(name) = name_at(e, place) {
        if !found.has(name.0 as usize) {
            return place;
        }
        place += 1;
    }
    place
}

// The expression that is named at a place, where one is.
fn name_at(e: &Expr, place: usize) -> Option<ExprId>
    ensures name { result ≡ slice_get (named e.now) place }
    ensures few { IsSome result → place < 2 ^ 63 }
{
    match e {
        Expr::Const { .. } | Expr::Sig(_) | Expr::Reset { .. } => None,
        Expr::Unary { a, .. } => nth(&[*a], place),
        Expr::Binary { a, b, .. } => nth(&[*a, *b], place),
        Expr::Mux { s, a, b } => nth(&[*s, *a, *b], place),
        Expr::Slice { a, .. } => nth(&[*a], place),
        Expr::Cat(items) => nth(items.as_slice(), place),
        Expr::Part { a, offset, .. } => nth(&[*a, *offset], place),
        Expr::Pick { index, items } => {
            if place == 0 {
                Some(*index)
            } else {
                nth(items.as_slice(), place - 1)
            }
        }
        Expr::Cast { a, .. } => nth(&[*a], place),
        Expr::Matches { a, .. } => nth(&[*a], place),
    }
}

// The expression at a place of some, where one is.
fn nth(items: &[ExprId], place: usize) -> Option<ExprId>
    ensures name { result ≡ slice_get items.now place }
    ensures few { IsSome result → place + 1 < 2 ^ 63 }
{
    if place < items.len() {
        Some(items[place])
    } else {
        None
    }
}
