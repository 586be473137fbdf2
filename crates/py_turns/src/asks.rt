// Requests of statements.
ghost use Rattle.std.specs.Prelude.{◌≡◌, [], ◌∷◌, IfOk};
ghost use Rattle.py_frames.specs.Asking.{request};

use amh_host::{Names, NoMemory, Place};
use py_frames::request::{Act, Request};
use py_values::{Val, Vals};
use std::alloc::Global;

/// A request about one value.
pub fn request_of(alloc: Global, act: Act, v: Val, place: Place) -> Result<Request, NoMemory>
    ensures { IfOk result (λ r. r ≡ request act (v ∷ []) [] place) }
{
    let mut vals = Vals::new(alloc);
    match vals.push(v) {
        Ok(()) => Ok(Request {
            act,
            vals,
            names: Names::new(alloc),
            place,
        }),
        Err(e) => Err(e),
    }
}
