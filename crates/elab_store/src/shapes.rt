// Shapes that a program gives.
ghost use Rattle.std.specs.Prelude.{◌≡◌};
ghost use Rattle.py_heap.specs.Heaps.{seen};
ghost use Rattle.amh_things.specs.Things.{reading_given};
ghost use Rattle.elab_store.specs.Shapes.{shaped_by, shaped_meant};

use crate::store::Store;
use amh_things::thing::Reading;
use py_frames::request::Cause;
use py_heap::{Frozen, Heap};
use py_values::Val;
use shape_rules::Shape;

/// A shape, and what the bits of a value of it are read as.
#[derive(Clone, Copy, PartialEq, Eq, Drop)]
pub struct Shaped {
    pub form: Shape,
    pub reading: Reading,
}

fn shaped_by(reading: Reading, form: Result<Shape, Cause>) -> Result<Shaped, Cause>
    ensures { result ≡ shaped_by reading form }
{
    match form {
        Ok(form) => Ok(Shaped { form, reading }),
        Err(why) => Err(why),
    }
}

impl Store {
    // What the bits of a value are read as whose shape this is.
    fn reading_given(&self, v: &Val) -> Reading
        ensures { result ≡ reading_given self.now.things v.now }
    {
        match v {
            Val::Hw(hw) => self.things.reading(*hw),
            _ => Reading::Plain,
        }
    }

    /// The shape that a value of the program is.
    pub fn shaped_meant(&self, heap: &Heap, frozen: &Frozen, v: &Val) -> Result<Shaped, Cause>
        ensures { result ≡ shaped_meant (seen frozen.now heap.now) self.now.things v.now }
    {
        let form = self.shape_meant(heap, frozen, v);
        shaped_by(self.reading_given(v), form)
    }
}
