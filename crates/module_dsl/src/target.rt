// Which expressions are targets of a module, in which resets stand for signals.
ghost use Rattle.std.specs.Prelude.{◌≡◌, ◌<◌, ◌∷◌, [], length, IfOk, OnOk};
ghost use Rattle.design_ir.specs.Targets.{is_open_target};
ghost use Rattle.design_ir.specs.Named.{AllBelow};
ghost use Rattle.module_dsl.specs.Walks.{may_be_target, parts_of, numbers, IsReached};

use amh_host::NoMemory;
use design_ir::{Expr, ExprId, Exprs, Pool};
use std::alloc::Global;

/// Whether an expression is a target: a signal, a reset, or a part, a join or a reading of targets.
pub fn is_target(alloc: Global, pool: &Pool, e: ExprId) -> Result<bool, NoMemory>
    requires { e.0 < length pool.now.exprs }
    ensures { IfOk result (λ b. b ≡ is_open_target pool.now e.0) }
{
    let _ = pool.count();
    let base = base_of(pool, e);
    match pool.at(base) {
        Expr::Sig(_) | Expr::Reset { .. } => Ok(true),
        _ => has_targets(alloc, pool, base),
    }
}

// What slices, parts and casts are taken of.
fn base_of(pool: &Pool, e: ExprId) -> ExprId
    requires { e.0 < length pool.now.exprs }
    ensures there { result.0 < length pool.now.exprs }
    ensures same { is_open_target pool.now result.0 ≡ is_open_target pool.now e.0 }
{
    let _ = pool.count();
    let mut base = e;
    loop {
        match pool.at(base) {
            Expr::Slice { a, .. } | Expr::Part { a, .. } | Expr::Cast { a, .. } => base = *a,
            _ => return base,
        }
    }
}

// The expressions that were reached, and those of them that were not looked at yet.
#[derive(Drop)]
struct Walk {
    marks: Vec<bool>,
    waiting: Vec<ExprId>,
}

impl Walk {
    // Reaches an expression, where it was not reached before.
    fn reach(&mut self, e: ExprId) -> Result<(), NoMemory>
        requires { e.0 < length self.old.marks.items }
        ensures { OnOk result (IsReached (e.0 ∷ []) self.old.marks.items self.old.waiting.items self.new.marks.items self.new.waiting.items) }
    {
        if !self.marks[e.0 as usize] {
            self.waiting.push(e)?;
            self.marks[e.0 as usize] = true;
        }
        Ok(())
    }

    // Reaches all of these.
    fn reach_all(&mut self, items: &[ExprId]) -> Result<(), NoMemory>
        requires { AllBelow (length self.old.marks.items) items.now }
        ensures { OnOk result (IsReached (numbers items.now) self.old.marks.items self.old.waiting.items self.new.marks.items self.new.waiting.items) }
    {
        for e in items {
            self.reach(*e)?;
        }
        Ok(())
    }

    // Whether an expression is a target where its parts are, which it reaches.
    fn look(&mut self, e: &Expr) -> Result<bool, NoMemory>
        requires { AllBelow (length self.old.marks.items) (parts_of e.now) }
        ensures may { IfOk result (λ b. b ≡ may_be_target e.now) }
        ensures parts { OnOk result (IsReached (numbers (parts_of e.now)) self.old.marks.items self.old.waiting.items self.new.marks.items self.new.waiting.items) }
    {
        match e {
            Expr::Sig(_) | Expr::Reset { .. } => {}
            Expr::Slice { a, .. } | Expr::Part { a, .. } | Expr::Cast { a, .. } => self.reach(*a)?,
            Expr::Cat(items) | Expr::Pick { items, .. } => self.reach_all(items.as_slice())?,
            _ => return Ok(false),
        }
        Ok(true)
    }
}

// Whether an expression is a target, by all expressions of which it is made. Each is looked at once.
fn has_targets(alloc: Global, pool: &Pool, root: ExprId) -> Result<bool, NoMemory>
    requires { root.0 < length pool.now.exprs }
    ensures { IfOk result (λ b. b ≡ is_open_target pool.now root.0) }
{
    let _ = pool.count();
    let mut walk = Walk {
        marks: vec![in alloc; false; root.0 as usize + 1]?,
        waiting: Vec::new(alloc),
    };
    walk.reach(root)?;
    while let Some(e) = walk.waiting.pop() {
        if !walk.look(pool.at(e))? {
            return Ok(false);
        }
    }
    Ok(true)
}
