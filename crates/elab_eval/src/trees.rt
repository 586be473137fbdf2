// The tree of modules and memories, with what wrappers make of it: the top, with all that stands below it.
ghost use Rattle.std.specs.Prelude.{◌≡◌, ◌||◌, true, false, [], ◌∷◌, map, length, slice_get, IfOk, IfErr, OnOk, MatchOption, option_and_then, List};
ghost use Rattle.std.specs.List.{AllByRecursion, list_any};
ghost use Rattle.std.specs.Option.{option_map_or};
ghost use Rattle.amh_host.specs.declared.place.Kind.TheVariants.{Raised};
ghost use Rattle.design_ir.specs.Forests.{Forest, bare, grown};
ghost use Rattle.design_ir.specs.Fragments.{leaf_of};
ghost use Rattle.design_ir.specs.Named.{AllBelow};
ghost use Rattle.module_dsl.specs.Builders.{Built};
ghost use Rattle.clock_domains.specs.Resolved.{file_start};
ghost use Rattle.domain_transforms.specs.declared.stop.ControlStop.TheVariants.{Limit};
ghost use Rattle.domain_transforms.specs.Placed.{forest_exprs, fragment_exprs};
ghost use Rattle.transform_laws.specs.Laws.{AreNamedResets};
ghost use Rattle.elab_eval.specs.declared.refusal.ElabStop.TheVariants.{Refused};
ghost use Rattle.elab_store.specs.declared.hierarchy.NodeOf.TheVariants.{Module, Memory};
ghost use Rattle.elab_store.specs.declared.memories.OwnMemory.{OwnMemory};
ghost use Rattle.elab_store.specs.Sound.{IsSound, IsWrapping};
ghost use Rattle.elab_eval.specs.Elaborates.{module_in, root_module, is_open, is_open_in, is_open_at, is_open_wrap, node_name, leaf_in, first_trees, other_trees, node_put, forest_of_nodes, wrapped, wrapped_by, is_past_by, first_wrapped, root_wrapped, root_domains};
ghost use Rattle.elab_eval.specs.Standing.{IsStanding, StandsFor};
ghost use Rattle.elab_eval.specs.Trees.{finished, is_missing, fragment_with, wrapper_stop, tree_found, IsGot};

use crate::refusal::ElabStop;
use amh_host::{Items, Kind, Place, Text};
use design_ir::{DomainDefs, Fragment, Fragments, Memories, Pool, Process, Processes};
use domain_transforms::{ControlStop, insert_enable, insert_reset, rename};
use elab_store::hierarchy::{Node, NodeOf};
use elab_store::memories::OwnMemory;
use elab_store::store::Store;
use elab_store::wrappings::Wrapping;
use fragment_walks::copies::copied_process;
use lists::NoMemory;
use memory_ports::copied_memory;
use module_dsl::{BuildStop, Builder};
use std::alloc::Global;
use std::marker::Model;

/// What raises where the file begins.
pub(crate) fn raised() -> ElabStop
    ensures { result ≡ Refused Raised file_start }
{
    ElabStop::Refused(Kind::Raised, Place { line: 1, col: 1 })
}

/// The top with all that stands below it, of the modules of a store, and in the pool what its wrappers made. It raises exactly where there is
/// no top, or where a block is open of it or of a module below it; `Limit` comes exactly where a wrapper passes a count.
pub(crate) fn tree(
    alloc: Global,
    pool: &mut Pool,
    modules: Vec<Builder>,
    store: &Store,
) -> Result<Fragment, ElabStop>
    ghost built: { List Built }
    requires modules { modules.items ≡ built }
    requires sound { IsSound (record { pool = pool.old; store = record store.now { modules = built } }) }
    requires resets { AreNamedResets pool.old }
    ensures tree { let s = record store.now { modules = built } in IsGot result pool.new (tree_found s (root_module s) pool.old) }
    ensures stands { IfOk result (λ f. StandsFor (record store.now { modules = built }) pool.new f) }
{
    pool.known();
    let Ok(modules) = all_finished(alloc, modules) else {
        return Err(ElabStop::NoMemory);
    };
    let absent = is_root_open(modules.as_slice(), store);
    if absent {
        return Err(raised());
    }
    let opened = is_any_open(modules.as_slice(), store);
    if opened {
        return Err(raised());
    }
    let below = match trees_of(alloc, pool, modules.as_slice(), store) {
        Ok(below) => below,
        Err(stop) => return Err(stop),
    };
    let Some(root) = module_in(modules, store.top.root) else {
        return Err(raised());
    };
    match with_root(alloc, store, root, below) {
        Ok(root) => root_wrapped(alloc, pool, store, root),
        Err(_) => Err(ElabStop::NoMemory),
    }
}

// The domains that the top defines.
fn root_domains(alloc: Global, store: &Store) -> Result<DomainDefs, NoMemory>
    ensures { IfOk result (λ ds. ds ≡ root_domains store.now) }
{
    match store.top.root {
        Some(m) => store.clock_domains.defined_by(alloc, m),
        None => Ok(DomainDefs::new(alloc)),
    }
}

// The top with its domains, before the trees below it.
fn with_root(
    alloc: Global,
    store: &Store,
    root: Fragment,
    below: Trees,
) -> Result<Fragment, NoMemory>
    ensures { IfOk result (λ f. f ≡ fragment_with root.name (root_domains store.now) root.processes [] below) }
{
    let domains = root_domains(alloc, store)?;
    Ok(Fragment {
        name: root.name,
        is_part: false,
        domains,
        processes: root.processes,
        memories: Items::new(alloc),
        submodules: below.all(alloc)?,
    })
}

// ---- what may not stand in the tree

// Whether no module of a number is done with.
fn is_missing(modules: &[Option<Fragment>], m: u32) -> bool
    ensures { result ≡ is_missing (slice_get modules.now m) }
{
    match modules.get(m as usize) {
        Some(Some(_)) => false,
        Some(None) => true,
        None => true,
    }
}

// Whether there is no top, or a block of it is open.
fn is_root_open(modules: &[Option<Fragment>], store: &Store) -> bool
    ghost built: { List Built }
    requires { modules.now ≡ map finished built }
    ensures { result ≡ option_map_or is_open (module_in built store.now.top.root) true }
{
    let Some(m) = store.top.root else {
        return true;
    };
    is_missing(modules, m)
}

// Whether what stands at a node is not there, or is a module of which a block is open.
fn is_open_in(modules: &[Option<Fragment>], store: &Store, of: NodeOf) -> bool
    ghost built: { List Built }
    requires { modules.now ≡ map finished built }
    ensures { result ≡ is_open_in (record store.now { modules = built }) of }
{
    match of {
        NodeOf::Module(m) => is_missing(modules, m),
        NodeOf::Memory(k) => k as usize >= store.memories.len(),
        NodeOf::Wrapper(k) => k as usize >= store.wrappings.len(),
    }
}

// Whether it is so of one of these nodes.
fn is_node_open(modules: &[Option<Fragment>], store: &Store, nodes: &[Node]) -> bool
    ghost built: { List Built }
    requires { modules.now ≡ map finished built }
    ensures { result ≡ list_any (is_open_at (record store.now { modules = built })) nodes.now }
{
    for node in nodes {
        if is_open_in(modules, store, node.of) {
            return true;
        }
    }
    false
}

// Whether one of these wrappings is not there.
fn is_wrap_open(store: &Store, wraps: &[u32]) -> bool
    ensures { result ≡ list_any (is_open_wrap store.now) wraps.now }
{
    let count = store.wrappings.len();
    for k in wraps {
        if *k as usize >= count {
            return true;
        }
    }
    false
}

// Whether it is so of a node below the top, or of a wrapping of the top.
fn is_any_open(modules: &[Option<Fragment>], store: &Store) -> bool
    ghost built: { List Built }
    requires { modules.now ≡ map finished built }
    ensures { let s = record store.now { modules = built } in result ≡ list_any (is_open_at s) s.hierarchy.nodes || list_any (is_open_wrap s) s.hierarchy.root_wraps }
{
    is_node_open(modules, store, store.hierarchy().nodes())
        || is_wrap_open(store, store.hierarchy().root_wraps())
}

// ---- modules that are done with

// A module as a fragment, where no block of it is open.
fn finished(builder: Builder) -> Result<Option<Fragment>, NoMemory>
    ensures { IfOk result (λ f. f ≡ finished builder) }
{
    match builder.finish() {
        Ok(fragment) => Ok(Some(fragment)),
        Err(BuildStop::Order) => Ok(None),
        Err(_) => Err(NoMemory),
    }
}

fn all_finished(alloc: Global, modules: Vec<Builder>) -> Result<Vec<Option<Fragment>>, NoMemory>
    ensures { IfOk result (λ all. all.items ≡ map finished modules.items) }
{
    let mut all = Vec::new(alloc);
    for builder in modules {
        all.push(finished(builder)?)?;
    }
    Ok(all)
}

// The module of a number.
fn module_in(modules: Vec<Option<Fragment>>, root: Option<u32>) -> Option<Fragment>
    ghost built: { List Built }
    requires { modules.items ≡ map finished built }
    ensures { result ≡ option_and_then finished (module_in built root) }
{
    let mut modules = modules;
    match root {
        Some(m) if (m as usize) < modules.len() => modules.swap_remove(m as usize),
        _ => None,
    }
}

// ---- trees one after another

// Trees of modules, of which the first is put and taken. Contracts see them as a forest.
#[derive(Drop)]
pub struct Trees {
    // The first one last.
    items: Vec<Fragment>,
}

impl Model for Trees {
    ghost use Rattle.std.specs.Prelude.{reverse};
    ghost use Rattle.std.specs.Coded.{codes};
    ghost use Rattle.design_ir.specs.TreeCodes.{block_code};
    ghost use Rattle.design_ir.specs.Forests.{Forest, forest_code};
    ghost use Rattle.design_ir.specs.Fragments.{forest_of};

    ghost Value = { Forest };

    ghost coded = { forest_code (Prim.hlevel (codes, block_code)) };

    ghost view = { λ a. forest_of (reverse a.items.items) };
}

impl Trees {
    fn new(alloc: Global) -> Trees
        ensures { result ≡ bare }
    {
        Trees {
            items: Vec::new(alloc),
        }
    }

    // Puts a tree before the others.
    fn push(&mut self, tree: Fragment) -> Result<(), NoMemory>
        ensures { OnOk result (self.new ≡ grown (leaf_of tree) tree.submodules self.old) }
    {
        match self.items.push(tree) {
            Ok(()) => Ok(()),
            Err(_) => Err(NoMemory),
        }
    }

    // Takes the first tree out.
    fn pop(&mut self) -> Option<Fragment>
        ensures { MatchOption result ((self.old ≡ bare) × (self.new ≡ bare)) (λ f. self.old ≡ grown (leaf_of f) f.submodules self.new) }
    {
        self.items.pop()
    }

    // Takes so many trees out, the first one first.
    fn take(&mut self, alloc: Global, count: usize) -> Result<Fragments, NoMemory>
        ensures { IfOk result (λ fs. (fs ≡ first_trees count self.old) × (self.new ≡ other_trees count self.old)) }
    {
        let mut taken = Fragments::new(alloc);
        for _ in 0..count {
            let Some(tree) = self.pop() else {
                return Ok(taken);
            };
            taken.push(tree)?;
        }
        Ok(taken)
    }

    // All trees, in order.
    fn all(self, alloc: Global) -> Result<Fragments, NoMemory>
        ensures { IfOk result (λ fs. fs ≡ self) }
    {
        let mut trees = self;
        let count = trees.items.as_slice().len();
        trees.take(alloc, count)
    }
}

// ---- what stands below the top

// The trees of nodes, each of which stands before those below it.
fn trees_of(
    alloc: Global,
    pool: &mut Pool,
    modules: &[Option<Fragment>],
    store: &Store,
) -> Result<Trees, ElabStop>
    ghost built: { List Built }
    requires modules { modules.now ≡ map finished built }
    requires sound { IsSound (record { pool = pool.old; store = record store.now { modules = built } }) }
    requires resets { AreNamedResets pool.old }
    requires closed { let s = record store.now { modules = built } in list_any (is_open_at s) s.hierarchy.nodes ≡ false }
    ensures trees { let s = record store.now { modules = built } in IsGot result pool.new (forest_of_nodes s s.hierarchy.nodes pool.old) }
    ensures stand { IfOk result (λ f. IsStanding (record store.now { modules = built }) pool.old pool.new f) }
{
    let nodes = store.hierarchy().nodes();
    let mut trees = Trees::new(alloc);
    let count = nodes.len();
    pool.known();
    for i in 0..count {
        match put_node(alloc, pool, modules, store, nodes[count - 1 - i], trees) {
            Ok(more) => trees = more,
            Err(stop) => return Err(stop),
        }
        pool.known();
    }
    Ok(trees)
}

// A node before the trees behind it: a module or a memory takes those that stand below it, and a wrapper changes the first.
fn put_node(
    alloc: Global,
    pool: &mut Pool,
    modules: &[Option<Fragment>],
    store: &Store,
    node: Node,
    behind: Trees,
) -> Result<Trees, ElabStop>
    ghost built: { List Built }
    requires modules { modules.now ≡ map finished built }
    requires closed { is_open_at (record store.now { modules = built }) node ≡ false }
    requires wrappings { AllByRecursion (IsWrapping pool.old) store.now.wrappings }
    requires there { AllBelow (length pool.old.exprs) (forest_exprs behind) }
    ensures { IsGot result pool.new (node_put (record store.now { modules = built }) node node.of (behind, pool.old)) }
{
    match node.of {
        NodeOf::Module(m) => match put_module(alloc, modules, store, m, node, behind) {
            Ok(trees) => Ok(trees),
            Err(_) => Err(ElabStop::NoMemory),
        },
        NodeOf::Memory(k) => match put_memory(alloc, store, k, node, behind) {
            Ok(trees) => Ok(trees),
            Err(_) => Err(ElabStop::NoMemory),
        },
        NodeOf::Wrapper(k) => wrap_first(alloc, pool, store, k, behind),
    }
}

// A module under its name, with the domains that it defines.
fn put_module(
    alloc: Global,
    modules: &[Option<Fragment>],
    store: &Store,
    m: u32,
    node: Node,
    behind: Trees,
) -> Result<Trees, NoMemory>
    ghost built: { List Built }
    requires modules { modules.now ≡ map finished built }
    requires closed { option_map_or is_open (slice_get built m) true ≡ false }
    ensures { let s = record store.now { modules = built } in IfOk result (λ ts. ts ≡ grown (leaf_in s (node_name s node) (Module m)) (first_trees node.below behind) (other_trees node.below behind)) }
{
    let Some(Some(fragment)) = modules.get(m as usize) else {
        return Err(NoMemory);
    };
    let domains = store.clock_domains.defined_by(alloc, m)?;
    let processes = copied_processes(alloc, fragment.processes.as_slice())?;
    let none = Memories::new(alloc);
    with_node(
        alloc,
        node_name(store, node),
        domains,
        processes,
        none,
        node.below,
        behind,
    )
}

// A memory under its name, which is all that its fragment has.
fn put_memory(
    alloc: Global,
    store: &Store,
    k: u32,
    node: Node,
    behind: Trees,
) -> Result<Trees, NoMemory>
    requires { option_map_or (λ (x : OwnMemory). false) (slice_get store.now.memories k) true ≡ false }
    ensures { IfOk result (λ ts. ts ≡ grown (leaf_in store.now (node_name store.now node) (Memory k)) (first_trees node.below behind) (other_trees node.below behind)) }
{
    let Some(memory) = store.memories.get(k as usize) else {
        return Err(NoMemory);
    };
    let own = only_memory(alloc, memory)?;
    let domains = DomainDefs::new(alloc);
    let processes = Processes::new(alloc);
    with_node(
        alloc,
        node_name(store, node),
        domains,
        processes,
        own,
        node.below,
        behind,
    )
}

// ---- wrappers

// What a wrapping makes of a module and of all below it.
fn wrapped_by(
    alloc: Global,
    pool: &mut Pool,
    wrapping: &Wrapping,
    f: Fragment,
) -> Result<Fragment, ControlStop>
    requires wrapping { IsWrapping pool.old wrapping.now }
    requires there { AllBelow (length pool.old.exprs) (fragment_exprs f) }
    ensures made { IfOk result (λ g. (g, pool.new) ≡ wrapped_by wrapping.now pool.old f) }
    ensures room { OnOk result (is_past_by wrapping.now (wrapped_by wrapping.now pool.old f) ≡ false) }
    ensures limit { IfErr result (λ stop. stop ≡ Limit → is_past_by wrapping.now (wrapped_by wrapping.now pool.old f) ≡ true) }
{
    match wrapping {
        Wrapping::Rename(names) => rename(alloc, pool, f, names),
        Wrapping::Reset(controls) => insert_reset(alloc, pool, f, controls),
        Wrapping::Enable(controls) => insert_enable(alloc, pool, f, controls),
    }
}

// What a refusal of a wrapper is told as: it passes a count.
fn wrapper_stop(stop: ControlStop) -> ElabStop
    ensures { result ≡ wrapper_stop stop }
{
    match stop {
        ControlStop::Limit => ElabStop::Refused(Kind::Limit, Place { line: 1, col: 1 }),
        ControlStop::NoMemory => ElabStop::NoMemory,
    }
}

// What a wrapping of a number makes, where there is one.
fn wrapped(
    alloc: Global,
    pool: &mut Pool,
    store: &Store,
    k: u32,
    f: Fragment,
) -> Result<Fragment, ElabStop>
    requires wrappings { AllByRecursion (IsWrapping pool.old) store.now.wrappings }
    requires there { AllBelow (length pool.old.exprs) (fragment_exprs f) }
    ensures { IsGot result pool.new (wrapped (slice_get store.now.wrappings k) (f, pool.old)) }
{
    let Some(wrapping) = store.wrappings.get(k as usize) else {
        return Err(raised());
    };
    match wrapped_by(alloc, pool, wrapping, f) {
        Ok(f) => Ok(f),
        Err(stop) => Err(wrapper_stop(stop)),
    }
}

// The first tree is wrapped, where there is one.
fn wrap_first(
    alloc: Global,
    pool: &mut Pool,
    store: &Store,
    k: u32,
    behind: Trees,
) -> Result<Trees, ElabStop>
    requires wrappings { AllByRecursion (IsWrapping pool.old) store.now.wrappings }
    requires there { AllBelow (length pool.old.exprs) (forest_exprs behind) }
    ensures { IsGot result pool.new (first_wrapped (slice_get store.now.wrappings k) behind pool.old) }
{
    let mut trees = behind;
    let Some(first) = trees.pop() else {
        return Ok(trees);
    };
    let made = match wrapped(alloc, pool, store, k, first) {
        Ok(made) => made,
        Err(stop) => return Err(stop),
    };
    match trees.push(made) {
        Ok(()) => Ok(trees),
        Err(_) => Err(ElabStop::NoMemory),
    }
}

// The wrappings of the top act, from the innermost one on.
fn root_wrapped(
    alloc: Global,
    pool: &mut Pool,
    store: &Store,
    root: Fragment,
) -> Result<Fragment, ElabStop>
    requires stands { StandsFor store.now pool.old root }
    requires wrappings { AllByRecursion (IsWrapping pool.old) store.now.wrappings }
    ensures tree { IsGot result pool.new (root_wrapped store.now.wrappings store.now.hierarchy.root_wraps (root, pool.old)) }
    ensures stands { IfOk result (λ f. StandsFor store.now pool.new f) }
{
    let wraps = store.hierarchy().root_wraps();
    let mut root = root;
    let count = wraps.len();
    pool.known();
    for i in 0..count {
        match wrapped(alloc, pool, store, wraps[count - 1 - i], root) {
            Ok(made) => root = made,
            Err(stop) => return Err(stop),
        }
        pool.known();
    }
    Ok(root)
}

// ---- nodes

// One memory, as far as it is made.
fn only_memory(alloc: Global, memory: &OwnMemory) -> Result<Memories, NoMemory>
    ensures { IfOk result (λ ms. ms ≡ memory.now.spec ∷ []) }
{
    let mut own = Memories::new(alloc);
    own.push(copied_memory(alloc, memory.spec.so_far())?)?;
    Ok(own)
}

// What a fragment has of its own under a name, before the trees behind it, of which it takes so many.
fn with_node(
    alloc: Global,
    name: &str,
    domains: DomainDefs,
    processes: Processes,
    memories: Memories,
    below: u32,
    behind: Trees,
) -> Result<Trees, NoMemory>
    ensures { IfOk result (λ ts. ts ≡ grown (leaf_of (fragment_with name.now domains processes memories bare)) (first_trees below behind) (other_trees below behind)) }
{
    let mut trees = behind;
    let submodules = trees.take(alloc, below as usize)?;
    trees.push(Fragment {
        name: copied_name(alloc, name)?,
        is_part: false,
        domains,
        processes,
        memories,
        submodules,
    })?;
    Ok(trees)
}

// The name of an addition.
fn node_name(store: &Store, node: Node) -> &str
    ensures { result.now ≡ node_name store.now node }
{
    match store.hierarchy().additions().get(node.addition as usize) {
        Some(addition) => addition.name.as_str(),
        None => "u",
    }
}

// ---- copies

fn copied_name(alloc: Global, name: &str) -> Result<Text, NoMemory>
    ensures { IfOk result (λ copy. copy ≡ name.now) }
{
    let mut copy = Text::new(alloc);
    copy.push(name)?;
    Ok(copy)
}

fn copied_processes(alloc: Global, processes: &[Process]) -> Result<Processes, NoMemory>
    ensures { IfOk result (λ all. all ≡ processes.now) }
{
    let mut all = Processes::new(alloc);
    for process in processes {
        all.push(copied_process(alloc, process)?)?;
    }
    Ok(all)
}
