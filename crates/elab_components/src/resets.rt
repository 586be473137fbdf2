// `ResetSignal(..)`.
ghost use Rattle.std.specs.Prelude.{◌≡◌, map, string_bytes, IfOk};
ghost use Rattle.std.specs.Option.{option_copied};
ghost use Rattle.py_heap.specs.Heaps.{seen};
ghost use Rattle.elab_store.specs.Seen.{called_of};
ghost use Rattle.elab_store.specs.Held.{held_of, Gives};
ghost use Rattle.elab_components.specs.Resets.{keyword_domain, domain_argument, reset_domain, with_reset, reset_given, reset_said, reset_from, reset_called};

use crate::interfaces::want_of_memory;
use crate::signals::domain_formed;
use amh_host::{Place, Text};
use amh_things::thing::Reading;
use design_ir::{Expr, Exprs, PoolStop};
use elab_store::calls::Called;
use elab_store::names::is_text;
use elab_store::store::Elaboration;
use lists::NoMemory;
use py_frames::request::{Answer, Cause};
use py_heap::{Frozen, Heap};
use py_values::Val;
use std::alloc::Global;

// The domain by its keyword, where it is given so.
fn keyword_domain(keywords: &[String], vals: &[Val]) -> Option<Option<Val>>
    ensures { result ≡ keyword_domain (map string_bytes keywords.now) vals.now }
{
    match keywords {
        [] => Some(None),
        [name] => match vals {
            [v] if is_text(name.as_str(), "domain") => Some(Some(*v)),
            _ => None,
        },
        _ => None,
    }
}

// The one argument, where it is given.
fn domain_argument(call: &Called) -> Option<Option<Val>>
    ensures { result ≡ domain_argument (called_of call.now).placed (called_of call.now).keywords (called_of call.now).keyword_vals }
{
    match call.placed {
        [] => keyword_domain(call.keywords, call.keyword_vals),
        [v] if call.keywords.is_empty() => Some(Some(*v)),
        _ => None,
    }
}

// The name of the domain.
fn reset_domain<'a>(
    alloc: Global,
    heap: &'a Heap,
    frozen: &'a Frozen,
    given: Option<Val>,
) -> Result<Option<&'a str>, NoMemory>
    ensures { IfOk result (λ name. option_copied name ≡ reset_domain (seen frozen.now heap.now) given) }
{
    match given {
        None => Ok(Some("sync")),
        Some(Val::Str(x)) => domain_formed(alloc, heap.text(frozen, x)),
        Some(_) => Ok(None),
    }
}

// The expression, and the thing that stands for it.
fn put_reset(elaboration: &mut Elaboration, name: &str, place: Place) -> Result<Answer, NoMemory>
    ensures { Gives result elaboration.new (reset_given name.now place (held_of elaboration.old)) }
{
    let mut domain = Text::new(elaboration.alloc);
    domain.push(name)?;
    match elaboration.pool.expr(Expr::Reset { domain, place }) {
        Ok(e) => {
            let v = elaboration.store.hold(Reading::Plain, e)?;
            elaboration.give(v)
        }
        Err(PoolStop::Limit) => elaboration.refuse(Cause::Limit),
        Err(stop) => Err(want_of_memory(stop)),
    }
}

/// `ResetSignal(..)`, with the place of the call.
pub fn make_reset(
    elaboration: &mut Elaboration,
    heap: &Heap,
    frozen: &Frozen,
    call: &Called,
    place: Place,
) -> Result<Answer, NoMemory>
    ensures { Gives result elaboration.new (reset_called (seen frozen.now heap.now) (called_of call.now) place (held_of elaboration.old)) }
{
    let Some(given) = domain_argument(call) else {
        return elaboration.refuse(Cause::Raised);
    };
    match reset_domain(elaboration.alloc, heap, frozen, given)? {
        Some(name) => put_reset(elaboration, name, place),
        None => elaboration.refuse(Cause::Raised),
    }
}
