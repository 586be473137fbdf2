// Writing a number into a target.
ghost use Rattle.std.specs.Prelude.{◌≡◌, ◌<◌, ◌≤◌, true, None, Some, length, slice_set};
ghost use Rattle.amh_bits.specs.Patterns.{pattern, wrap};
ghost use Rattle.design_ir.specs.Circuits.{is_among};
ghost use Rattle.design_ir.specs.Put.{put_number, put_bits};
ghost use Rattle.design_ir.specs.Targets.{is_target, target_bits};
ghost use Rattle.design_ir.specs.Values.{form, signal_form};
ghost use Rattle.design_ir.proofs.NumbersFit.{FitsSignals};
ghost use Rattle.sim_plans.specs.Tasks.{IsRead, places_of};

use crate::bits::{bit_at, put_place};
use crate::place::place_at;
use amh_bits::Int;
use design_ir::{Design, Expr, ExprId, Exprs, SigId};
use sim_plans::task::Task;

/// Writes the low bits of an integer into a target, as many as it has.
pub fn put_target(
    design: &Design,
    task: &Task,
    env: &[Int],
    nums: &[Int],
    target: ExprId,
    n: Int,
    cur: &mut [Int],
)
    requires read { IsRead design.now.pool env.now nums.now task.now.exprs }
    requires among { is_among (places_of task.now.exprs) target.0 ≡ true }
    requires target { is_target design.now.pool target.0 ≡ true }
    requires signals { length cur.old ≡ length design.now.pool.signals }
    requires fits { FitsSignals design.now.pool cur.old }
    ensures { cur.new ≡ put_number design.now.pool (target_bits design.now.pool env.now target.0) n cur.old }
{
    let _ = design.count();
    match design.at(target) {
        Expr::Sig(s) => put_whole(design, *s, n, cur),
        _ => put_bits(design, task, env, nums, target, n, cur),
    }
}

// A whole signal takes an integer, wrapped to its shape.
fn put_whole(design: &Design, s: SigId, n: Int, cur: &mut [Int])
    requires there { s.0 < length design.now.pool.signals }
    requires signals { length cur.old ≡ length design.now.pool.signals }
    ensures { cur.new ≡ slice_set cur.old s.0 (wrap (signal_form design.now.pool.signals s.0).signed (signal_form design.now.pool.signals s.0).width n) }
{
    let shape = design.sig_at(s).shape;
    cur[s.0 as usize] = n.wrap(shape.width, shape.signed);
}

// One bit after another.
fn put_bits(
    design: &Design,
    task: &Task,
    env: &[Int],
    nums: &[Int],
    target: ExprId,
    n: Int,
    cur: &mut [Int],
)
    requires read { IsRead design.now.pool env.now nums.now task.now.exprs }
    requires among { is_among (places_of task.now.exprs) target.0 ≡ true }
    requires target { is_target design.now.pool target.0 ≡ true }
    requires signals { length cur.old ≡ length design.now.pool.signals }
    ensures { cur.new ≡ put_number design.now.pool (target_bits design.now.pool env.now target.0) n cur.old }
{
    let width = design.shape(target).width;
    let bits = n.to_bits(width);
    for i in 0..width {
        let place = place_at(design, task, env, nums, target, i as usize);
        put_place(design, place, bit_at(bits, i as u32), cur);
    }
}
