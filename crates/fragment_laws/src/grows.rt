// What holds of everything that holds expressions.
ghost use Rattle.std.specs.Prelude.{◌≡◌, ◌⊎◌, suc, length, IfOk, IfErr};
ghost use Rattle.design_ir.specs.PoolRules.{IsAskable, IsRefusal, expr_added, expr_refusal};

use design_ir::{Design, Expr, ExprId, Exprs, Pool, PoolStop};

/// What holds expressions has those that it is given and changes in nothing else: it is itself where its own are put back, and
/// of two that are put to it, one after the other, the later ones count.
pub trait Grows: Exprs {
    ghost use Rattle.std.specs.Prelude.{◌≡◌};
    ghost use Rattle.design_ir.specs.Pools.{Pooled};

    ghost takes: { (x : Self) (q : Pooled) → Self.pooled (Self.grown x q) ≡ q };

    ghost put_back: { (x : Self) → Self.grown x (Self.pooled x) ≡ x };

    ghost twice: { (x : Self) (p q : Pooled) → Self.grown (Self.grown x p) q ≡ Self.grown x q };
}

impl Grows for Pool {
    ghost use Rattle.std.specs.Prelude.{refl};

    ghost takes = { λ x q. refl };

    ghost put_back = { λ x. refl };

    ghost twice = { λ x p q. refl };
}

impl Grows for Design {
    ghost use Rattle.std.specs.Prelude.{refl};

    ghost takes = { λ x q. refl };

    ghost put_back = { λ x. refl };

    ghost twice = { λ x p q. refl };
}

/// Two expressions more, one behind the other, of which the second may name the first. Whatever is answered, nothing but
/// expressions changed; where the second is refused, the first one stands. It refuses what `expr` refuses.
pub fn put_both<E: Grows>(
    exprs: &mut E,
    first: Expr,
    second: Expr,
) -> Result<(ExprId, ExprId), PoolStop>
    requires first { IsAskable (E.pooled exprs.old) first }
    requires second { IsAskable (expr_added (E.pooled exprs.old) first) second }
    ensures ids { IfOk result (λ ids. (ids.0 ≡ record { 0 = length (E.pooled exprs.old).exprs }) × (ids.1 ≡ record { 0 = suc (length (E.pooled exprs.old).exprs) })) }
    ensures put { IfOk result (λ ids. E.pooled exprs.new ≡ expr_added (expr_added (E.pooled exprs.old) first) second) }
    ensures refused { IfErr result (λ stop. (IsRefusal (expr_refusal (E.pooled exprs.old) first) stop × (E.pooled exprs.new ≡ E.pooled exprs.old)) ⊎ (IsRefusal (expr_refusal (expr_added (E.pooled exprs.old) first) second) stop × (E.pooled exprs.new ≡ expr_added (E.pooled exprs.old) first))) }
    ensures rest { exprs.new ≡ E.grown exprs.old (E.pooled exprs.new) }
{
    let a = exprs.expr(first)?;
    let b = exprs.expr(second)?;
    Ok((a, b))
}
