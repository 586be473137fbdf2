// What holds expressions: a pool, or a design over one.

use crate::expr::Expr;
use crate::ids::ExprId;
use crate::refusal::PoolStop;
use shape_rules::Shape;

/// What holds signals and expressions by number, and may grow by expressions.
pub trait Exprs {
    ghost use Rattle.std.specs.Prelude.{◌≡◌, ◌<◌, length, IfOk, IfErr, Some, None, slice_get};
    ghost use Rattle.design_ir.specs.Pools.{Pooled};
    ghost use Rattle.design_ir.specs.PoolRules.{IsPool, IsAskable, IsRefusal, expr_added, expr_refusal};
    ghost use Rattle.design_ir.specs.Values.{form};

    /// The lists of signals and expressions.
    ghost pooled: { Self → Pooled };

    /// This value with other such lists.
    ghost grown: { Self → Pooled → Self };

    /// Puts an expression at the end and changes nothing else. It needs expressions that are there and parts in
    /// range. `BadOperand` comes exactly for a signed shift amount, offset or index; else `Width` exactly where
    /// the shape or an operator's work shape would be wider than 128 bits; else `Limit` exactly where there are
    /// 262,144 expressions.
    fn expr(&mut self, e: Expr) -> Result<ExprId, PoolStop>
        requires { IsAskable (pooled self.old) e }
        ensures added { IfOk result (λ id. (expr_refusal (pooled self.old) e ≡ None) × (id ≡ record { 0 = length (pooled self.old).exprs }) × (pooled self.new ≡ expr_added (pooled self.old) e)) }
        ensures refused { IfErr result (λ stop. IsRefusal (expr_refusal (pooled self.old) e) stop × (pooled self.new ≡ pooled self.old)) }
        ensures rest { self.new ≡ grown self.old (pooled self.new) }
        ensures rules { IsPool (pooled self.new) };

    /// How many expressions there are.
    fn count(&self) -> u32
        ensures value { result ≡ length (pooled self.now).exprs }
        ensures rules { IsPool (pooled self.now) };

    /// The shape of an expression.
    fn shape(&self, e: ExprId) -> Shape
        requires { e.0 < length (pooled self.now).exprs }
        ensures { result ≡ form (pooled self.now) e.0 };

    /// An expression by its number.
    fn at(&self, e: ExprId) -> &Expr
        requires { e.0 < length (pooled self.now).exprs }
        ensures { slice_get (pooled self.now).exprs e.0 ≡ Some result.now };
}
