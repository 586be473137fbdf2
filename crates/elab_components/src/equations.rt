// `x.eq(v)`.
ghost use Rattle.std.specs.Prelude.{◌≡◌, ◌<◌, length};
ghost use Rattle.elab_store.specs.Seen.{called_of};
ghost use Rattle.elab_components.specs.Equations.{equated, equation_made, equation_given};
ghost use Rattle.elab_store.specs.Sound.{IsSound};
ghost use Rattle.elab_store.specs.Held.{held_of, Gives};

use amh_host::Place;
use amh_things::plan::PlanStop;
use design_ir::ExprId;
use elab_store::calls::Called;
use elab_store::kept::{Equation, Kept};
use elab_store::store::Elaboration;
use lists::NoMemory;
use module_dsl::is_target;
use py_frames::request::{Answer, Cause};
use py_values::Val;

/// `x.eq(v)`, by the expression of x: one value, and no keyword.
pub fn equate(
    elaboration: &mut Elaboration,
    target: ExprId,
    call: &Called,
    place: Place,
) -> Result<Answer, NoMemory>
    requires sound { IsSound (held_of elaboration.old) }
    requires there { target.0 < length elaboration.old.pool.exprs }
    ensures { Gives result elaboration.new (equated target (called_of call.now).placed (called_of call.now).keywords place (held_of elaboration.old)) }
{
    match call.placed {
        [v] if call.keywords.is_empty() => equate_to(elaboration, target, v, place),
        _ => elaboration.refuse(Cause::Raised),
    }
}

// The statement that a target takes a value.
fn equate_to(
    elaboration: &mut Elaboration,
    target: ExprId,
    v: &Val,
    place: Place,
) -> Result<Answer, NoMemory>
    requires sound { IsSound (held_of elaboration.old) }
    requires there { target.0 < length elaboration.old.pool.exprs }
    ensures { Gives result elaboration.new (equation_made target v.now place (held_of elaboration.old)) }
{
    if !is_target(elaboration.alloc, &elaboration.pool, target)? {
        return elaboration.refuse(Cause::Raised);
    }
    match elaboration
        .store
        .value_meant(elaboration.alloc, &mut elaboration.pool, v)
    {
        Ok(value) => elaboration.give_kept(Kept::Statement(Equation {
            target,
            value,
            place,
        })),
        Err(PlanStop::Refused(why)) => elaboration.refuse(why),
        Err(PlanStop::NoMemory) => Err(NoMemory),
    }
}
