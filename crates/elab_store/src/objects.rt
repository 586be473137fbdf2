// The object whose `elaborate` is called first.
ghost use Rattle.std.specs.Prelude.{◌≡◌};
ghost use Rattle.elab_store.specs.Stores.{object_in, first_object};

use py_values::{ObjId, Val};

fn object_in(v: Val) -> Option<ObjId>
    ensures { result ≡ object_in v }
{
    match v {
        Val::Object(o) => Some(o),
        _ => None,
    }
}

/// The object that was first asked.
pub fn first_object(before: Option<ObjId>, v: Val) -> Option<ObjId>
    ensures { result ≡ first_object before (object_in v) }
{
    match before {
        Some(o) => Some(o),
        None => object_in(v),
    }
}
