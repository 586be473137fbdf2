// Statements that are flat as they are.
ghost use Rattle.std.specs.Prelude.{◌≡◌, ◌<◌, true, length, IfOk, IfSome};
ghost use Rattle.std.specs.List.{AllByRecursion, list_all};
ghost use Rattle.design_ir.specs.Named.{AllBelow};
ghost use Rattle.design_ir.specs.Guards.{block_exprs};
ghost use Rattle.design_ir.specs.Fixed.{is_fixed, is_plain};
ghost use Rattle.flat_design.specs.Growing.{IsReadable};

use amh_host::NoMemory;
use design_ir::{Design, Expr, ExprId, Exprs, Stmt, Stmts};
use std::alloc::Global;

/// The same statements once more, where none of them chooses and all targets are fixed.
pub(crate) fn plain_copy(
    alloc: Global,
    design: &Design,
    body: &Stmts,
) -> Result<Option<Stmts>, NoMemory>
    requires { AllByRecursion (IsReadable design.now.pool) (block_exprs body.now) }
    ensures copy { IfOk result (λ copy. IfSome copy (λ b. b ≡ body.now)) }
    ensures plain { IfOk result (λ copy. IfSome copy (λ b. is_plain design.now.pool b ≡ true)) }
{
    let mut copy = Stmts::new(alloc);
    for statement in body.as_slice() {
        match statement {
            Stmt::Assign {
                target,
                value,
                place,
            } => {
                if !is_fixed(design, *target) {
                    return Ok(None);
                }
                copy.push(Stmt::Assign {
                    target: *target,
                    value: *value,
                    place: *place,
                })?;
            }
            Stmt::Choose(_) => return Ok(None),
        }
    }
    Ok(Some(copy))
}

// Whether a target is fixed.
fn is_fixed(design: &Design, target: ExprId) -> bool
    requires { target.0 < length design.now.pool.exprs }
    ensures { result ≡ is_fixed design.now.pool target.0 }
{
    let _ = design.count();
    match design.at(target) {
        Expr::Sig(_) => true,
        Expr::Slice { a, .. } | Expr::Cast { a, .. } => is_fixed(design, *a),
        Expr::Cat(items) => {
            for e in items.as_slice() {
                if !is_fixed(design, *e) {
                    return false;
                }
            }
            true
        }
        _ => false,
    }
}
