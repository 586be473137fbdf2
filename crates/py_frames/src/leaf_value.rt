// Parts that are there at once, for which no frame has to wait.
ghost use Rattle.std.specs.Prelude.{◌≡◌};
ghost use Rattle.py_tree.specs.Seen.{tree};
ghost use Rattle.py_heap.specs.Heaps.{seen};
ghost use Rattle.py_frames.specs.Leaves.{leaf_value};

use crate::expr_names::name_value;
use crate::going::Going;
use crate::leaf::constant_val;
use py_heap::Frozen;
use py_tree::{Expr, ExprKind};
use py_values::{Number, Val};

/// The value of a number, of a constant, or of a name that has one.
pub fn leaf_value(going: &Going, frozen: &Frozen, e: &Expr) -> Option<Val>
    ensures { result ≡ leaf_value (seen frozen.now going.now.state.heap) going.now.state.here.scope.0 (tree e.now) }
{
    match &*e.kind {
        ExprKind::Name(name) => name_value(going, frozen, name),
        ExprKind::Number(n) => Some(Val::Int(Number::of_u128(*n))),
        ExprKind::Constant(constant) => Some(constant_val(*constant)),
        _ => None,
    }
}
