// A fragment and all below it, each as a wrapper makes it.
ghost use Rattle.std.specs.Prelude.{◌≡◌, ◌≤◌, length, IfOk, OnOk};
ghost use Rattle.design_ir.specs.Fragments.{leaf_of};
ghost use Rattle.design_ir.specs.Named.{AllBelow};
ghost use Rattle.domain_transforms.specs.Changes.{IsReady, bound, id_of, leaf_change};
ghost use Rattle.domain_transforms.specs.Enabling.{enabled_leaf};
ghost use Rattle.domain_transforms.specs.Making.{forest_in, fragment_in};
ghost use Rattle.domain_transforms.specs.Placed.{AreControls, ArePlaces, forest_exprs, fragment_exprs, leaf_exprs};
ghost use Rattle.domain_transforms.specs.Renamed.{renamed_leaf};
ghost use Rattle.domain_transforms.specs.Resetting.{reset_leaf};

use crate::controls::{Controls, NamePairs};
use crate::copies::{copied_definitions, copied_memories, copied_text};
use crate::enabling::{enabled_memories, enabled_processes};
use crate::renaming::{renamed_definitions, renamed_memories, renamed_processes};
use crate::resetting::reset_processes;
use amh_host::NoMemory;
use design_ir::{ExprId, Fragment, Fragments, Memories, Pool, Processes};
use std::alloc::Global;

/// What a wrapper is given, with what it looks up.
#[derive(Drop)]
pub enum Change {
    /// Registers and memory ports keep where a control is 0.
    Enable(Controls),
    /// Registers are reset where a control is not 0.
    Reset {
        controls: Controls,
        places: Vec<Option<ExprId>>,
    },
    /// Domains get other names.
    Rename {
        names: NamePairs,
        ids: Vec<ExprId>,
    },
}

// A fragment with nothing below it that has the name and the domains of another one.
fn with_parts(
    alloc: Global,
    module: &Fragment,
    processes: Processes,
    memories: Memories,
) -> Result<Fragment, NoMemory>
    ensures { IfOk result (λ f. leaf_of f ≡ record (leaf_of module.now) { processes = processes; memories = memories }) }
{
    Ok(Fragment {
        name: copied_text(alloc, &module.name)?,
        is_part: module.is_part,
        domains: copied_definitions(alloc, &module.domains)?,
        processes,
        memories,
        submodules: Fragments::new(alloc),
    })
}

fn enabled_leaf(
    alloc: Global,
    pool: &mut Pool,
    controls: &Controls,
    module: &Fragment,
) -> Result<Fragment, NoMemory>
    requires controls { AreControls (length pool.old.exprs) controls.now }
    requires there { AllBelow (length pool.old.exprs) (leaf_exprs (leaf_of module.now)) }
    ensures more { OnOk result (length pool.old.exprs ≤ length pool.new.exprs) }
    ensures made { IfOk result (λ f. (leaf_of f, pool.new) ≡ enabled_leaf controls.now pool.old (leaf_of module.now)) }
{
    let memories = enabled_memories(alloc, pool, controls, &module.memories)?;
    let processes = enabled_processes(alloc, controls, &module.processes)?;
    with_parts(alloc, module, processes, memories)
}

fn reset_leaf(
    alloc: Global,
    pool: &mut Pool,
    controls: &Controls,
    places: &[Option<ExprId>],
    module: &Fragment,
) -> Result<Fragment, NoMemory>
    requires places { ArePlaces pool.old.exprs places.now }
    requires there { AllBelow (length pool.old.exprs) (leaf_exprs (leaf_of module.now)) }
    ensures more { OnOk result (length pool.old.exprs ≤ length pool.new.exprs) }
    ensures places { OnOk result (ArePlaces pool.new.exprs places.now) }
    ensures made { IfOk result (λ f. (leaf_of f, pool.new) ≡ reset_leaf controls.now pool.old (leaf_of module.now)) }
{
    let processes = reset_processes(alloc, pool, controls, places, &module.processes)?;
    let memories = copied_memories(alloc, &module.memories)?;
    with_parts(alloc, module, processes, memories)
}

fn renamed_leaf(
    alloc: Global,
    names: &NamePairs,
    ids: &[ExprId],
    module: &Fragment,
) -> Result<Fragment, NoMemory>
    requires { AllBelow (length ids.now) (leaf_exprs (leaf_of module.now)) }
    ensures { IfOk result (λ f. leaf_of f ≡ renamed_leaf names.now (id_of ids.now) (leaf_of module.now)) }
{
    Ok(Fragment {
        name: copied_text(alloc, &module.name)?,
        is_part: module.is_part,
        domains: renamed_definitions(alloc, names, &module.domains)?,
        processes: renamed_processes(alloc, names, ids, &module.processes)?,
        memories: renamed_memories(alloc, names, ids, &module.memories)?,
        submodules: Fragments::new(alloc),
    })
}

// A fragment as the wrapper makes it, with nothing below it.
fn changed_leaf(
    alloc: Global,
    pool: &mut Pool,
    change: &Change,
    module: &Fragment,
) -> Result<Fragment, NoMemory>
    requires ready { IsReady change.now pool.old }
    requires there { AllBelow (bound change.now pool.old) (leaf_exprs (leaf_of module.now)) }
    ensures more { OnOk result (length pool.old.exprs ≤ length pool.new.exprs) }
    ensures ready { OnOk result (IsReady change.now pool.new) }
    ensures made { IfOk result (λ f. (leaf_of f, pool.new) ≡ leaf_change change.now pool.old (leaf_of module.now)) }
{
    match change {
        Change::Enable(controls) => enabled_leaf(alloc, pool, controls, module),
        Change::Reset { controls, places } => {
            reset_leaf(alloc, pool, controls, places.as_slice(), module)
        }
        Change::Rename { names, ids } => renamed_leaf(alloc, names, ids.as_slice(), module),
    }
}

/// A fragment and all below it, as the wrapper makes them.
#[cycle(fragments)]
pub(crate) fn changed(
    alloc: Global,
    pool: &mut Pool,
    change: &Change,
    module: &Fragment,
) -> Result<Fragment, NoMemory>
    requires ready { IsReady change.now pool.old }
    requires there { AllBelow (bound change.now pool.old) (fragment_exprs module.now) }
    ensures more { OnOk result (length pool.old.exprs ≤ length pool.new.exprs) }
    ensures ready { OnOk result (IsReady change.now pool.new) }
    ensures made { IfOk result (λ f. (f, pool.new) ≡ fragment_in (leaf_change change.now) pool.old module.now) }
{
    let mut made = changed_leaf(alloc, pool, change, module)?;
    made.submodules = changed_all(alloc, pool, change, &module.submodules)?;
    Ok(made)
}

#[cycle(fragments)]
fn changed_all(
    alloc: Global,
    pool: &mut Pool,
    change: &Change,
    modules: &Fragments,
) -> Result<Fragments, NoMemory>
    requires ready { IsReady change.now pool.old }
    requires there { AllBelow (bound change.now pool.old) (forest_exprs modules.now) }
    ensures more { OnOk result (length pool.old.exprs ≤ length pool.new.exprs) }
    ensures ready { OnOk result (IsReady change.now pool.new) }
    ensures made { IfOk result (λ fs. (fs, pool.new) ≡ forest_in (leaf_change change.now) pool.old modules.now) }
{
    let mut all = Fragments::new(alloc);
    for module in modules.as_slice() {
        all.push(changed(alloc, pool, change, module)?)?;
    }
    Ok(all)
}
