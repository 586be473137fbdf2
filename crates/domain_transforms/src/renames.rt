// The renaming of domains.
ghost use Rattle.std.specs.Prelude.{◌≡◌, nat_lt, true, false, length, IfOk, IfErr, OnOk};
ghost use Rattle.design_ir.specs.Named.{AllBelow};
ghost use Rattle.domain_transforms.specs.declared.stop.ControlStop.TheVariants.{Limit};
ghost use Rattle.domain_transforms.specs.Placed.{fragment_exprs};
ghost use Rattle.domain_transforms.specs.Renamed.{renamed};

use crate::controls::NamePairs;
use crate::copies::copied_pairs;
use crate::fragments::{Change, changed};
use crate::remaking::anew_ids;
use crate::stop::ControlStop;
use design_ir::{Exprs, Fragment, Pool};
use std::alloc::Global;

// A fragment, unless its pool passes its count.
fn with_room(pool: &Pool, f: Fragment) -> Result<Fragment, ControlStop>
    ensures ok { IfOk result (λ g. (g ≡ f) × (nat_lt 262144 (length pool.now.exprs) ≡ false)) }
    ensures err { IfErr result (λ stop. (stop ≡ Limit) × (nat_lt 262144 (length pool.now.exprs) ≡ true)) }
{
    if pool.count() > 262_144 {
        drop(f);
        return Err(ControlStop::Limit);
    }
    Ok(f)
}

/// Gives domains other names, at once for all pairs, in the fragment and in all below it: in definitions, in the sides of
/// processes, of which those of one fragment that get one side become one, in memory ports and in resets, for which each
/// expression of the fragment in which a renamed one stands is made anew. `Limit` comes exactly where the pool would have
/// more than 262,144 expressions.
pub fn rename(
    alloc: Global,
    pool: &mut Pool,
    f: Fragment,
    names: &NamePairs,
) -> Result<Fragment, ControlStop>
    requires there { AllBelow (length pool.old.exprs) (fragment_exprs f) }
    ensures made { IfOk result (λ g. (g, pool.new) ≡ renamed names.now pool.old f) }
    ensures room { OnOk result (nat_lt 262144 (length (renamed names.now pool.old f).1.exprs) ≡ false) }
    ensures limit { IfErr result (λ stop. stop ≡ Limit → nat_lt 262144 (length (renamed names.now pool.old f).1.exprs) ≡ true) }
{
    let ids = anew_ids(alloc, pool, names, &f)?;
    let change = Change::Rename {
        names: copied_pairs(alloc, names)?,
        ids,
    };
    let made = changed(alloc, pool, &change, &f)?;
    with_room(pool, made)
}
