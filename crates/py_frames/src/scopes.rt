// The scope that the functions and comprehensions of a body see.
ghost use Rattle.std.specs.Prelude.{◌≡◌};
ghost use Rattle.std.specs.Option.{option_copied};
ghost use Rattle.py_heap.specs.Heaps.{seen};
ghost use Rattle.py_frames.specs.Expressions.{seen_from, seen_of};

use crate::going::Going;
use py_heap::Frozen;
use py_values::{Scope, ScopeId};

/// The scope that the functions of a body see.
pub fn seen_of(found: Option<&Scope>, here: ScopeId) -> Option<ScopeId>
    ensures { result ≡ seen_of (option_copied found.entry) here }
{
    match found {
        Some(scope) => {
            if scope.is_class {
                scope.enclosing
            } else {
                Some(here)
            }
        }
        None => Some(here),
    }
}

/// The scope that what is made where the evaluation stands sees: of a class body the one that encloses it.
pub fn seen_from(going: &Going, frozen: &Frozen) -> Option<ScopeId>
    ensures { result ≡ seen_from (seen frozen.now going.now.state.heap) going.now.state.here.scope }
{
    let here = going.state.here.scope;
    seen_of(going.state.heap.scope_at(frozen, here), here)
}
