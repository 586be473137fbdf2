// The numbers that offsets and indices may have.
ghost use Rattle.std.specs.Prelude.{◌≡◌, ◌-◌, ◌^◌, ◌<◌, ◌≤◌, false, length};
ghost use Rattle.design_ir.specs.Targets.{numbers};
ghost use Rattle.design_ir.specs.Values.{form};
ghost use Rattle.flat_design.specs.Pieces.{numbers_in};

use design_ir::{Expr, ExprId, Exprs, Pool};

/// The numbers from the least to the greatest.
#[derive(Clone, Copy, Drop)]
pub struct Span {
    pub least: u128,
    pub greatest: u128,
}

// The greatest number of a width without a sign.
fn greatest(width: u8) -> u128
    requires { width ≤ 128 }
    ensures { result ≡ 2 ^ width - 1 }
{
    if width == 128 {
        u128::MAX
    } else {
        (1 << width) - 1
    }
}

/// The numbers of an offset or an index: of a constant its own alone, else all of its shape.
pub(crate) fn span_of(pool: &Pool, e: ExprId) -> Span
    requires there { e.0 < length pool.now.exprs }
    requires plain { (form pool.now e.0).signed ≡ false }
    ensures numbers { numbers_in result ≡ numbers pool.now e.0 }
    ensures some { result.least ≤ result.greatest }
{
    let _ = pool.count();
    let width = pool.shape(e).width;
    match pool.at(e) {
        Expr::Const { value, .. } => {
            let own = value.to_bits(width).bits;
            Span {
                least: own,
                greatest: own,
            }
        }
        _ => Span {
            least: 0,
            greatest: greatest(width),
        },
    }
}
