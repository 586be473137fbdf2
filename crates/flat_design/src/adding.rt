// Expressions that a pass adds.
ghost use Rattle.std.specs.Prelude.{◌≡◌, ◌<◌, ◌≤◌, ◌^◌, pos, false, None, IfOk};
ghost use Rattle.shape_rules.specs.Forms.{unsigned};
ghost use Rattle.design_ir.specs.PoolRules.{IsPool, IsAskable, bad_operand, greatest_width, shape_stop};
ghost use Rattle.design_ir.specs.Values.{form};
ghost use Rattle.design_ir.specs.Designs.{holds_reset, reset_test};
ghost use Rattle.design_ir.specs.declared.expr.Expr.TheVariants.{Const};
ghost use Rattle.flat_design.specs.Growing.{IsMore};
ghost use Rattle.flat_design.specs.Adding.{IsAdded};

use amh_bits::Int;
use amh_host::NoMemory;
use design_ir::{Expr, ExprId, Pool};
use shape_rules::Shape;

/// Puts an expression at the end in which no reset stands.
pub(crate) fn added(pool: &mut Pool, e: Expr) -> Result<ExprId, NoMemory>
    requires askable { IsAskable pool.old e }
    requires accepted { shape_stop (bad_operand (form pool.old) e) (greatest_width pool.old.signals (form pool.old) e) ≡ None }
    requires resolved { reset_test (holds_reset pool.old) e ≡ false }
    ensures more { IfOk result (λ _. IsMore pool.old pool.new) }
    ensures rules { IfOk result (λ _. IsPool pool.new) }
    ensures added { IfOk result (λ id. IsAdded pool.new e id) }
{
    pool.known();
    let id = pool.more(e)?;
    pool.known();
    Ok(id)
}

/// A number without a sign, of so many bits.
pub(crate) fn constant(pool: &mut Pool, number: u128, width: u8) -> Result<ExprId, NoMemory>
    requires width { width ≤ 128 }
    requires number { number < 2 ^ width }
    ensures more { IfOk result (λ _. IsMore pool.old pool.new) }
    ensures rules { IfOk result (λ _. IsPool pool.new) }
    ensures added { IfOk result (λ id. IsAdded pool.new (Const (pos number) (unsigned width)) id) }
{
    let shape = Shape {
        width,
        signed: false,
    };
    added(
        pool,
        Expr::Const {
            value: Int::of_u128(number),
            shape,
        },
    )
}
