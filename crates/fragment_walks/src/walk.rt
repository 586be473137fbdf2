// What a module and those below it give.
ghost use Rattle.std.specs.Prelude.{◌≡◌, ◌++◌, ◌∷◌, [], map, codes, IfOk, OnOk};
ghost use Rattle.std.specs.List.{filter_map, flat_map};
ghost use Rattle.design_ir.specs.Fragments.{leaf_of};
ghost use Rattle.fragment_walks.specs.Held.{leaf_exprs};
ghost use Rattle.fragment_walks.specs.Names.{leaves_of};
ghost use Rattle.fragment_walks.specs.Walked.{IsWalkOf};
ghost use Rattle.fragment_walks.specs.Walks.{definitions_of, memories_of, memory_named, memory_paths_of, naming_path, path_under, paths_of, plain_names, port_names, processes_of, side_name};

use crate::copies::{copied, copied_definition, copied_process, memory_named};
use crate::exprs::leaf_exprs;
use amh_host::{Items, NoMemory, Text};
use design_ir::{
    DomainDef, DomainDefs, Fragment, Fragments, Ids, MemRead, MemWrite, Memories, Memory, Process,
    Side,
};
use std::alloc::Global;

/// All processes and all memories, each with the path under which its registers are named: the names of the modules in
/// which it stands below the top, with a dot behind each, or none in a library part. All definitions of domains. For each
/// module the names of domains, each as often as it stands but for those of resets, and the expressions that stand directly
/// in it.
#[derive(Drop)]
pub struct Walk {
    pub processes: Vec<Process>,
    pub paths: Items<Option<Text>>,
    pub memories: Memories,
    pub memory_paths: Items<Option<Text>>,
    pub definitions: DomainDefs,
    pub names: Vec<Items<Text>>,
    pub roots: Items<Ids>,
}

/// Where a module stands: its path as a memory's name, and that of what stands in it.
#[derive(Drop)]
struct Site {
    name: Text,
    path: Text,
}

// The path of what stands in a module.
fn path_under(alloc: Global, path: &str, name: &str) -> Result<Text, NoMemory>
    ensures { IfOk result (λ t. t ≡ path_under path.now name.now) }
{
    let mut under = copied(alloc, path)?;
    under.push(name)?;
    under.push(".")?;
    Ok(under)
}

// Where a module stands below another one.
fn site_under(alloc: Global, path: &str, name: &str) -> Result<Site, NoMemory>
    ensures name { IfOk result (λ x. x.name ≡ path.now ++ name.now) }
    ensures path { IfOk result (λ x. x.path ≡ path_under path.now name.now) }
{
    let mut whole = copied(alloc, path)?;
    whole.push(name)?;
    Ok(Site {
        name: whole,
        path: path_under(alloc, path, name)?,
    })
}

// The path under which the registers of a module are named.
fn naming_path(alloc: Global, module: &Fragment, path: &str) -> Result<Option<Text>, NoMemory>
    ensures { IfOk result (λ t. t ≡ naming_path (leaf_of module.now) path.now) }
{
    if module.is_part {
        return Ok(None);
    }
    Ok(Some(copied(alloc, path)?))
}

// ---- names of domains

// The names of definitions.
fn add_definitions(
    alloc: Global,
    names: &mut Items<Text>,
    definitions: &[DomainDef],
) -> Result<(), NoMemory>
    ensures { OnOk result (names.new ≡ names.old ++ map (λ d. d.domain.name) definitions.now) }
{
    for definition in definitions {
        names.push(copied(alloc, definition.domain.name.as_str())?)?;
    }
    Ok(())
}

// The name of a side's domain, where it is clocked.
fn add_side(alloc: Global, names: &mut Items<Text>, side: &Side) -> Result<(), NoMemory>
    ensures { OnOk result (names.new ≡ names.old ++ filter_map side_name (side.now ∷ [])) }
{
    match side {
        Side::Comb => Ok(()),
        Side::Clocked(name) => names.push(copied(alloc, name.as_str())?),
    }
}

// The names of the domains of sides.
fn add_sides(alloc: Global, names: &mut Items<Text>, processes: &[Process]) -> Result<(), NoMemory>
    ensures { OnOk result (names.new ≡ names.old ++ filter_map (λ p. side_name p.side) processes.now) }
{
    for process in processes {
        add_side(alloc, names, &process.side)?;
    }
    Ok(())
}

// The names of the domains of write ports.
fn add_writes(alloc: Global, names: &mut Items<Text>, writes: &[MemWrite]) -> Result<(), NoMemory>
    ensures { OnOk result (names.new ≡ names.old ++ map (λ w. w.domain) writes.now) }
{
    for write in writes {
        names.push(copied(alloc, write.domain.as_str())?)?;
    }
    Ok(())
}

// The name of a read port's domain, where it is clocked.
fn add_read(alloc: Global, names: &mut Items<Text>, read: &MemRead) -> Result<(), NoMemory>
    ensures { OnOk result (names.new ≡ names.old ++ filter_map (λ r. r.domain) (read.now ∷ [])) }
{
    match &read.domain {
        Some(name) => names.push(copied(alloc, name.as_str())?),
        None => Ok(()),
    }
}

// The names of the domains of read ports.
fn add_reads(alloc: Global, names: &mut Items<Text>, reads: &[MemRead]) -> Result<(), NoMemory>
    ensures { OnOk result (names.new ≡ names.old ++ filter_map (λ r. r.domain) reads.now) }
{
    for read in reads {
        add_read(alloc, names, read)?;
    }
    Ok(())
}

// The names of the domains of memory ports.
fn add_ports(alloc: Global, names: &mut Items<Text>, memories: &[Memory]) -> Result<(), NoMemory>
    ensures { OnOk result (names.new ≡ names.old ++ flat_map port_names memories.now) }
{
    for memory in memories {
        add_writes(alloc, names, memory.writes.as_slice())?;
        add_reads(alloc, names, memory.reads.as_slice())?;
    }
    Ok(())
}

// The names of domains in one module, but for those of resets.
fn plain_names(alloc: Global, module: &Fragment) -> Result<Items<Text>, NoMemory>
    ensures { IfOk result (λ names. names ≡ plain_names (leaf_of module.now)) }
{
    let mut names = Items::new(alloc);
    add_definitions(alloc, &mut names, module.domains.as_slice())?;
    add_sides(alloc, &mut names, module.processes.as_slice())?;
    add_ports(alloc, &mut names, module.memories.as_slice())?;
    Ok(names)
}

// ---- the walk

impl Walk {
    // Nothing yet.
    fn new(alloc: Global) -> Walk
        ensures processes { result.processes.items ≡ [] }
        ensures paths { result.paths ≡ [] }
        ensures memories { result.memories ≡ [] }
        ensures memory_paths { result.memory_paths ≡ [] }
        ensures definitions { result.definitions ≡ [] }
        ensures names { result.names.items ≡ [] }
        ensures roots { result.roots ≡ [] }
    {
        Walk {
            processes: Vec::new(alloc),
            paths: Items::new(alloc),
            memories: Items::new(alloc),
            memory_paths: Items::new(alloc),
            definitions: Items::new(alloc),
            names: Vec::new(alloc),
            roots: Items::new(alloc),
        }
    }

    // The definitions of one module.
    fn add_definitions(&mut self, alloc: Global, definitions: &[DomainDef]) -> Result<(), NoMemory>
        ensures definitions { OnOk result (self.new.definitions ≡ self.old.definitions ++ definitions.now) }
        ensures rest { (self.new.processes.items ≡ self.old.processes.items) × (self.new.paths ≡ self.old.paths) × (self.new.memories ≡ self.old.memories) × (self.new.memory_paths ≡ self.old.memory_paths) × (self.new.names.items ≡ self.old.names.items) × (self.new.roots ≡ self.old.roots) }
    {
        for definition in definitions {
            self.definitions
                .push(copied_definition(alloc, definition)?)?;
        }
        Ok(())
    }

    // The processes of one module, by the path of what stands in it.
    fn add_processes(
        &mut self,
        alloc: Global,
        module: &Fragment,
        path: &str,
    ) -> Result<(), NoMemory>
        ensures processes { OnOk result (self.new.processes.items ≡ self.old.processes.items ++ module.now.processes) }
        ensures paths { OnOk result (self.new.paths ≡ self.old.paths ++ map (λ _. naming_path (leaf_of module.now) path.now) module.now.processes) }
        ensures rest { (self.new.memories ≡ self.old.memories) × (self.new.memory_paths ≡ self.old.memory_paths) × (self.new.definitions ≡ self.old.definitions) × (self.new.names.items ≡ self.old.names.items) × (self.new.roots ≡ self.old.roots) }
    {
        for process in module.processes.as_slice() {
            self.processes.push(copied_process(alloc, process)?)?;
            self.paths.push(naming_path(alloc, module, path)?)?;
        }
        Ok(())
    }

    // The memories of one module, under its path as their name.
    fn add_memories(
        &mut self,
        alloc: Global,
        module: &Fragment,
        site: &Site,
    ) -> Result<(), NoMemory>
        ensures memories { OnOk result (self.new.memories ≡ self.old.memories ++ map (memory_named site.now.name) module.now.memories) }
        ensures paths { OnOk result (self.new.memory_paths ≡ self.old.memory_paths ++ map (λ _. naming_path (leaf_of module.now) site.now.path) module.now.memories) }
        ensures rest { (self.new.processes.items ≡ self.old.processes.items) × (self.new.paths ≡ self.old.paths) × (self.new.definitions ≡ self.old.definitions) × (self.new.names.items ≡ self.old.names.items) × (self.new.roots ≡ self.old.roots) }
    {
        for memory in module.memories.as_slice() {
            self.memories
                .push(memory_named(alloc, site.name.as_str(), memory)?)?;
            self.memory_paths
                .push(naming_path(alloc, module, site.path.as_str())?)?;
        }
        Ok(())
    }

    // What one module gives.
    fn add(&mut self, alloc: Global, module: &Fragment, site: &Site) -> Result<(), NoMemory>
        ensures processes { OnOk result (self.new.processes.items ≡ self.old.processes.items ++ module.now.processes) }
        ensures paths { OnOk result (self.new.paths ≡ self.old.paths ++ map (λ _. naming_path (leaf_of module.now) site.now.path) module.now.processes) }
        ensures memories { OnOk result (self.new.memories ≡ self.old.memories ++ map (memory_named site.now.name) module.now.memories) }
        ensures memory_paths { OnOk result (self.new.memory_paths ≡ self.old.memory_paths ++ map (λ _. naming_path (leaf_of module.now) site.now.path) module.now.memories) }
        ensures definitions { OnOk result (self.new.definitions ≡ self.old.definitions ++ module.now.domains) }
        ensures names { OnOk result (self.new.names.items ≡ self.old.names.items ++ plain_names (leaf_of module.now) ∷ []) }
        ensures roots { OnOk result (self.new.roots ≡ self.old.roots ++ leaf_exprs (leaf_of module.now) ∷ []) }
    {
        self.add_definitions(alloc, module.domains.as_slice())?;
        self.add_processes(alloc, module, site.path.as_str())?;
        self.add_memories(alloc, module, site)?;
        self.names.push(plain_names(alloc, module)?)?;
        self.roots.push(leaf_exprs(alloc, module)?)
    }

    // What modules and those below each give.
    #[cycle(walk)]
    fn add_all(&mut self, alloc: Global, modules: &Fragments, path: &str) -> Result<(), NoMemory>
        ensures processes { OnOk result (self.new.processes.items ≡ self.old.processes.items ++ processes_of modules.now) }
        ensures paths { OnOk result (self.new.paths ≡ self.old.paths ++ paths_of path.now modules.now) }
        ensures memories { OnOk result (self.new.memories ≡ self.old.memories ++ memories_of path.now modules.now) }
        ensures memory_paths { OnOk result (self.new.memory_paths ≡ self.old.memory_paths ++ memory_paths_of path.now modules.now) }
        ensures definitions { OnOk result (self.new.definitions ≡ self.old.definitions ++ definitions_of modules.now) }
        ensures names { OnOk result (self.new.names.items ≡ self.old.names.items ++ map plain_names (leaves_of modules.now)) }
        ensures roots { OnOk result (self.new.roots ≡ self.old.roots ++ map leaf_exprs (leaves_of modules.now)) }
    {
        for module in modules.as_slice() {
            let site = site_under(alloc, path, module.name.as_str())?;
            self.add(alloc, module, &site)?;
            self.add_all(alloc, &module.submodules, site.path.as_str())?;
        }
        Ok(())
    }
}

// Where the top stands: its memories are named `top`, and what stands in it has no path.
fn top_site(alloc: Global) -> Result<Site, NoMemory>
    ensures name { IfOk result (λ x. x.name ≡ codes "top") }
    ensures path { IfOk result (λ x. x.path ≡ []) }
{
    Ok(Site {
        name: copied(alloc, "top")?,
        path: Text::new(alloc),
    })
}

/// What a module and those below it give; `NoMemory` where there would be 2^32 processes or more.
pub fn walked(alloc: Global, root: &Fragment) -> Result<Walk, NoMemory>
    ensures { IfOk result (IsWalkOf root.now) }
{
    let site = top_site(alloc)?;
    let mut walk = Walk::new(alloc);
    walk.add(alloc, root, &site)?;
    walk.add_all(alloc, &root.submodules, "")?;
    if walk.processes.len() >= 4_294_967_296 {
        return Err(NoMemory);
    }
    Ok(walk)
}
