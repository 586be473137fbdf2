// Classes over `Elaboratable`.
ghost use Rattle.std.specs.Prelude.{◌≡◌, map, string_bytes};
ghost use Rattle.std.specs.List.{list_any};
ghost use Rattle.elab_components.specs.Classes.{is_base, is_keyword, class_made, base_called};
ghost use Rattle.elab_store.specs.Held.{held_of, Gives};

use elab_store::kept::{HdlName, Kept};
use elab_store::store::Elaboration;
use lists::NoMemory;
use py_frames::request::{Answer, Cause, NamedVals, Request};
use py_values::Val;

// Whether a class may stand over this.
fn is_base(kept: Option<Kept>, v: Val) -> bool
    ensures { result ≡ is_base kept v }
{
    match (kept, v) {
        (Some(Kept::Name(HdlName::Elaboratable)), _) => true,
        (None, Val::Class(_)) => true,
        _ => false,
    }
}

fn begins_with_equals(bytes: &[u8]) -> bool
    ensures { result ≡ is_keyword bytes.now }
{
    match bytes {
        [] => false,
        [first, ..] => *first == b'=',
    }
}

pub fn is_keyword(name: &str) -> bool
    ensures { result ≡ is_keyword name.now }
{
    begins_with_equals(name.as_bytes())
}

/// Whether a class has a keyword.
pub fn has_keyword(names: &[String]) -> bool
    ensures { result ≡ list_any is_keyword (map string_bytes names.now) }
{
    for name in names {
        if is_keyword(name.as_str()) {
            return true;
        }
    }
    false
}

/// The end of a class.
pub fn make_class(elaboration: &mut Elaboration, request: &Request) -> Result<Answer, NoMemory>
    ensures { Gives result elaboration.new (class_made request.now.vals request.now.names (held_of elaboration.old)) }
{
    match request.vals.as_slice() {
        [class, base, ..] => {
            if is_base(elaboration.store.kept_of(*base), *base)
                && !has_keyword(request.names.items())
            {
                elaboration.give(*class)
            } else {
                elaboration.refuse(Cause::Raised)
            }
        }
        _ => elaboration.refuse(Cause::Raised),
    }
}

/// An object of such a class is made, or `super().__init__` is called.
pub fn init_base(elaboration: &mut Elaboration, request: &Request) -> Result<Answer, NoMemory>
    ensures { Gives result elaboration.new (base_called request.now.vals request.now.names (held_of elaboration.old)) }
{
    match (request.vals.as_slice(), request.names.items()) {
        ([_], []) => Ok(Answer::Bind(NamedVals::new(elaboration.alloc))),
        _ => elaboration.refuse(Cause::Raised),
    }
}
