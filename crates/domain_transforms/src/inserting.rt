// The two inserters.
ghost use Rattle.std.specs.Prelude.{◌≡◌, true, false, length, IfOk, IfErr, OnOk};
ghost use Rattle.design_ir.specs.Named.{AllBelow};
ghost use Rattle.domain_transforms.specs.declared.stop.ControlStop.TheVariants.{Limit};
ghost use Rattle.domain_transforms.specs.Counted.{is_past};
ghost use Rattle.domain_transforms.specs.Enabling.{enabled};
ghost use Rattle.domain_transforms.specs.Placed.{AreControls, fragment_exprs};
ghost use Rattle.domain_transforms.specs.Resetting.{reset_inserted};

use crate::controls::Controls;
use crate::copies::copied_controls;
use crate::counts::within;
use crate::fragments::{Change, changed};
use crate::places::places_of;
use crate::stop::ControlStop;
use design_ir::{Fragment, Pool};
use std::alloc::Global;

/// Resets the registers of each controlled domain where its control is not 0, but for those that are reset-less and for the
/// data of read ports, in the fragment and in all below it. `Limit` comes exactly where it would have more than 65,536
/// statements, or the pool more than 262,144 expressions.
pub fn insert_reset(
    alloc: Global,
    pool: &mut Pool,
    f: Fragment,
    controls: &Controls,
) -> Result<Fragment, ControlStop>
    requires there { AllBelow (length pool.old.exprs) (fragment_exprs f) }
    ensures made { IfOk result (λ g. (g, pool.new) ≡ reset_inserted controls.now pool.old f) }
    ensures room { OnOk result (let made = reset_inserted controls.now pool.old f in is_past made.1 made.0 ≡ false) }
    ensures limit { IfErr result (λ stop. let made = reset_inserted controls.now pool.old f in stop ≡ Limit → is_past made.1 made.0 ≡ true) }
{
    let change = Change::Reset {
        controls: copied_controls(alloc, controls)?,
        places: places_of(alloc, pool)?,
    };
    let made = changed(alloc, pool, &change, &f)?;
    within(pool, made)
}

/// Carries out the statements of each controlled domain only where its control is not 0, and gates the enables of its memory
/// ports, in the fragment and in all below it. `Limit` comes exactly where it would have more than 65,536 statements, or the
/// pool more than 262,144 expressions.
pub fn insert_enable(
    alloc: Global,
    pool: &mut Pool,
    f: Fragment,
    controls: &Controls,
) -> Result<Fragment, ControlStop>
    requires controls { AreControls (length pool.old.exprs) controls.now }
    requires there { AllBelow (length pool.old.exprs) (fragment_exprs f) }
    ensures made { IfOk result (λ g. (g, pool.new) ≡ enabled controls.now pool.old f) }
    ensures room { OnOk result (let made = enabled controls.now pool.old f in is_past made.1 made.0 ≡ false) }
    ensures limit { IfErr result (λ stop. let made = enabled controls.now pool.old f in stop ≡ Limit → is_past made.1 made.0 ≡ true) }
{
    let change = Change::Enable(copied_controls(alloc, controls)?);
    let made = changed(alloc, pool, &change, &f)?;
    within(pool, made)
}
