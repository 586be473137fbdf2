// Names and domains that are defined twice.
ghost use Rattle.std.specs.Prelude.{◌≡◌, ℕ, ◌==◌, ◌||◌, [], None, IfErr, OnOk};
ghost use Rattle.std.specs.Ordering.{nat_cmp};
ghost use Rattle.std.specs.BTreeMap.{get_by_text};
ghost use Rattle.std.specs.BTreeSet.{contains};
ghost use Rattle.clock_domains.specs.Resolved.{clash_after};
ghost use Rattle.clock_domains.specs.Stops.{IsOwed};
ghost use Rattle.clock_domains.specs.Tracked.{IsPut};

use crate::stop::ResolveStop;
use amh_host::NoMemory;
use design_ir::{DomainDef, SigId};
use std::alloc::Global;
use std::collections::{BTreeMap, BTreeSet};

// A name more.
fn add_name(alloc: Global, names: &mut BTreeMap<String, usize>, name: &str) -> Result<(), NoMemory>
    ensures { OnOk result (IsPut (get_by_text names.old) name.now 0 (get_by_text names.new)) }
{
    names.insert(String::from_str(alloc, name)?, 0)?;
    Ok(())
}

// A clock more.
fn add_clock(clocks: &mut BTreeSet<u32>, clock: SigId) -> Result<(), NoMemory>
    ensures { OnOk result ((k : ℕ) → contains nat_cmp clocks.new k ≡ (contains nat_cmp clocks.old k || (clock.0 == k))) }
{
    clocks.insert(clock.0)?;
    Ok(())
}

/// Refuses the first definition whose name one before it has, or whose clock: that is one domain under two names.
pub fn no_clash(alloc: Global, definitions: &[DomainDef]) -> Result<(), ResolveStop>
    ensures accepted { OnOk result (clash_after [] definitions.now ≡ None) }
    ensures refused { IfErr result (IsOwed (clash_after [] definitions.now)) }
{
    let mut names = BTreeMap::new(alloc);
    let mut clocks = BTreeSet::new(alloc);
    for definition in definitions {
        let name = definition.domain.name.as_str();
        let clock = definition.domain.clk;
        if names.contains_key(name) || clocks.contains(&clock.0) {
            return Err(ResolveStop::DomainClash(definition.place));
        }
        add_name(alloc, &mut names, name)?;
        add_clock(&mut clocks, clock)?;
    }
    Ok(())
}
