// The integers of a task's expressions.
ghost use Rattle.std.specs.Prelude.{◌≡◌, ◌<◌, length, pos, slice_get, slice_index_or, Some};
ghost use Rattle.design_ir.specs.declared.expr.Expr.{Expr};
ghost use Rattle.design_ir.specs.Values.{form, value_step};
ghost use Rattle.design_ir.proofs.NumbersFit.{FitsSignals};
ghost use Rattle.sim_plans.specs.Tasks.{IsProgram, IsRead, AreFitting};

use crate::expressions::value;
use amh_bits::Int;
use design_ir::{Design, ExprId, Exprs};

/// Computes these expressions one after another, each once.
pub fn compute(design: &Design, exprs: &[ExprId], env: &[Int], nums: &mut Vec<Int>)
    requires signals { length env.now ≡ length design.now.pool.signals }
    requires fits { FitsSignals design.now.pool env.now }
    requires numbers { AreFitting design.now.pool nums.old.items }
    requires program { IsProgram design.now.pool (length nums.old.items) exprs.now }
    ensures count { length nums.new.items ≡ length nums.old.items }
    ensures numbers { AreFitting design.now.pool nums.new.items }
    ensures read { IsRead design.now.pool env.now nums.new.items exprs.now }
{
    let _ = design.count();
    for e in exprs {
        let n = number(design, env, nums.as_slice(), *e);
        overwrite(&mut nums[e.0 as usize], n);
    }
}

/// Puts an integer into its place, part by part, so that what lies between its parts is not copied.
#[inline(always)]
pub fn overwrite(place: &mut Int, n: Int)
    ensures { place.new ≡ n }
{
    place.negative = false;
    place.size = n.size;
    place.negative = n.negative;
}

// The integer of an expression, by those of the expressions that it names.
fn number(design: &Design, env: &[Int], nums: &[Int], e: ExprId) -> Int
    requires there { e.0 < length nums.now }
    requires signals { length env.now ≡ length design.now.pool.signals }
    requires fits { FitsSignals design.now.pool env.now }
    requires numbers { AreFitting design.now.pool nums.now }
    ensures { (x : Expr) → slice_get design.now.pool.exprs e.0 ≡ Some x → result ≡ value_step (form design.now.pool) env.now (λ k. slice_index_or nums.now k (pos 0)) x }
{
    let _ = design.count();
    value(design, env, nums, design.at(e))
}
