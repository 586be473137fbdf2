// Submodules: what was added to which module, and the tree of modules and memories that is elaborated of it.
ghost use Rattle.std.specs.Prelude.{◌≡◌, ◌++◌, length, reverse, IfOk, OnOk, codes};
ghost use Rattle.std.specs.Fmt.{decimal};
ghost use Rattle.std.specs.Option.{option_copied};
ghost use Rattle.elab_store.specs.Hierarchies.{no_hierarchy, numbers_of, numbers_below, is_of_module, addition_name, added_as, with_addition, waiting_for, top_entered, wrapper_nodes, wraps_taken, root_wrapped, node_taken, first_waiting, thing_waiting, is_node};

use amh_host::Text;
use lists::NoMemory;
use py_values::Val;
use std::alloc::Global;
use std::marker::Model;

/// What was added to a module, and under which name. Where none was given, it is `u` and a number.
#[derive(Drop)]
pub struct Addition {
    pub of: u32,
    pub name: Text,
    pub is_named: bool,
    pub thing: Val,
}

/// What stands in the tree: a module or a memory, by its number in order of making, or a wrapper before what it wraps.
#[derive(Clone, Copy, PartialEq, Eq, Drop)]
pub enum NodeOf {
    Module(u32),
    Memory(u32),
    /// A wrapper of what follows, by the number of its wrapping.
    Wrapper(u32),
}

/// A module or a memory of the tree below the top: by which addition it stands there, what it is, and how many stand directly below it.
#[derive(Clone, Copy, PartialEq, Eq, Drop)]
pub struct Node {
    pub addition: u32,
    pub of: NodeOf,
    pub below: u32,
}

/// An addition that is still to be elaborated, and in how many modules it stands.
#[derive(Clone, Copy, PartialEq, Eq, Drop)]
pub struct Waiting {
    pub addition: u32,
    pub depth: u32,
}

/// All additions, and the tree as it is walked. Contracts see it as `Hierarchy`.
#[derive(Drop)]
pub struct Hierarchy {
    additions: Vec<Addition>,
    nodes: Vec<Node>,
    /// The next one last.
    waiting: Vec<Waiting>,
    /// How many modules and memories are nodes.
    taken: usize,
    /// The wrappings of the top, the outermost first.
    root_wraps: Vec<u32>,
}

impl Model for Hierarchy {
    ghost use Rattle.std.specs.Prelude.{reverse};
    ghost use Rattle.elab_store.specs.Hierarchies.{Hierarchy};

    ghost Value = { Hierarchy };

    ghost view = { λ a. record { additions = a.additions.items; nodes = a.nodes.items; waiting = reverse a.waiting.items; taken = a.taken; root_wraps = a.root_wraps.items } };
}

// How many additions are to a module.
fn child_count(additions: &[Addition], of: u32) -> usize
    ensures { result ≡ length (numbers_of of 0 additions.now) }
{
    let mut count = 0;
    for a in additions {
        if a.of == of {
            count += 1;
        }
    }
    count
}

// The additions to a module wait in this depth, the first of them last.
fn wait_for(
    additions: &[Addition],
    of: u32,
    depth: u32,
    waiting: &mut Vec<Waiting>,
) -> Result<(), NoMemory>
    ensures { OnOk result (waiting.new.items ≡ waiting.old.items ++ reverse (waiting_for depth (numbers_of of 0 additions.now))) }
{
    let count = additions.len();
    if count > 4_294_967_295 {
        return Err(NoMemory);
    }
    for i in 0..count {
        let number = count - 1 - i;
        if additions[number].of == of {
            waiting.push(Waiting {
                addition: number as u32,
                depth,
            })?;
        }
    }
    Ok(())
}

// How many additions are to a module; a memory has none.
fn below_count(additions: &[Addition], of: NodeOf) -> usize
    ensures { result ≡ length (numbers_below of additions.now) }
{
    match of {
        NodeOf::Module(m) => child_count(additions, m),
        NodeOf::Memory(_) | NodeOf::Wrapper(_) => 0,
    }
}

// The additions to a module wait in this depth, the first of them last; a memory has none.
fn wait_below(
    additions: &[Addition],
    of: NodeOf,
    depth: u32,
    waiting: &mut Vec<Waiting>,
) -> Result<(), NoMemory>
    ensures { OnOk result (waiting.new.items ≡ waiting.old.items ++ reverse (waiting_for depth (numbers_below of additions.now))) }
{
    match of {
        NodeOf::Module(m) => wait_for(additions, m, depth, waiting),
        NodeOf::Memory(_) | NodeOf::Wrapper(_) => Ok(()),
    }
}

// Wrappers stand before what waits, each with one below it.
fn push_wrappers(bys: &[u32], waiting: Waiting, nodes: &mut Vec<Node>) -> Result<(), NoMemory>
    ensures { OnOk result (nodes.new.items ≡ nodes.old.items ++ wrapper_nodes bys.now waiting) }
{
    for by in bys {
        nodes.push(Node {
            addition: waiting.addition,
            of: NodeOf::Wrapper(*by),
            below: 1,
        })?;
    }
    Ok(())
}

fn is_of_module(m: u32, of: NodeOf) -> bool
    ensures { result ≡ is_of_module m of }
{
    match of {
        NodeOf::Module(n) => n == m,
        NodeOf::Memory(_) | NodeOf::Wrapper(_) => false,
    }
}

/// A text once more.
pub(crate) fn copied(alloc: Global, name: &str) -> Result<Text, NoMemory>
    ensures { IfOk result (λ t. t ≡ name.now) }
{
    let mut text = Text::new(alloc);
    text.push(name)?;
    Ok(text)
}

// `u` and a number.
fn numbered_name(alloc: Global, number: usize) -> Result<Text, NoMemory>
    ensures { IfOk result (λ t. t ≡ codes "u" ++ decimal number) }
{
    let digits = format!(in alloc; "{number}")?;
    let mut text = copied(alloc, "u")?;
    text.push(digits.as_str())?;
    Ok(text)
}

impl Hierarchy {
    /// Nothing yet, which takes no memory.
    pub fn new(alloc: Global) -> Hierarchy
        ensures { result ≡ no_hierarchy }
    {
        Hierarchy {
            additions: Vec::new(alloc),
            nodes: Vec::new(alloc),
            waiting: Vec::new(alloc),
            taken: 0,
            root_wraps: Vec::new(alloc),
        }
    }

    /// All additions, in order.
    pub fn additions(&self) -> &[Addition]
        ensures { result.now ≡ self.now.additions }
    {
        self.additions.as_slice()
    }

    /// The modules and memories of the tree below the top, each before those below it.
    pub fn nodes(&self) -> &[Node]
        ensures { result.now ≡ self.now.nodes }
    {
        self.nodes.as_slice()
    }

    /// What was added to a module under a name.
    pub fn added_as(&self, of: u32, name: &str) -> Option<Val>
        ensures { result ≡ added_as of name.now self.now }
    {
        let added = self
            .additions
            .iter()
            .find(|a| a.of == of && a.is_named && a.name.is(name))?;
        Some(added.thing)
    }

    // The name of an addition.
    fn addition_name(&self, alloc: Global, of: u32, name: Option<&str>) -> Result<Text, NoMemory>
        ensures { IfOk result (λ t. t ≡ addition_name of (option_copied name.entry) self.now) }
    {
        match name {
            Some(name) => copied(alloc, name),
            None => numbered_name(alloc, child_count(self.additions.as_slice(), of)),
        }
    }

    /// An addition to a module, under a name or without one.
    pub fn add(
        &mut self,
        alloc: Global,
        of: u32,
        name: Option<&str>,
        thing: Val,
    ) -> Result<(), NoMemory>
        ensures { OnOk result (self.new ≡ with_addition of (option_copied name.entry) thing self.old) }
    {
        if self.additions.len() >= 4_294_967_295 {
            return Err(NoMemory);
        }
        let addition = Addition {
            of,
            name: self.addition_name(alloc, of, name)?,
            is_named: name.is_some(),
            thing,
        };
        self.additions.push(addition)?;
        Ok(())
    }

    /// The top is a module: what was added to it waits.
    pub fn enter_top(&mut self, m: u32) -> Result<(), NoMemory>
        ensures { OnOk result (self.new ≡ top_entered m self.old) }
    {
        wait_for(self.additions.as_slice(), m, 1, &mut self.waiting)
    }

    /// What waits first is wrapped by these, the outermost first: they stand in the tree before it.
    pub fn take_wraps(&mut self, bys: &[u32]) -> Result<(), NoMemory>
        ensures { OnOk result (self.new ≡ wraps_taken bys.now self.old) }
    {
        let Some(first) = self.first_waiting() else {
            return Ok(());
        };
        push_wrappers(bys, first, &mut self.nodes)
    }

    /// The top is wrapped by these too, within the ones before.
    pub fn wrap_root(&mut self, bys: &[u32]) -> Result<(), NoMemory>
        ensures { OnOk result (self.new ≡ root_wrapped bys.now self.old) }
    {
        self.root_wraps.extend_from_slice(bys)?;
        Ok(())
    }

    /// How many modules and memories stand in the tree below the top.
    pub fn taken(&self) -> usize
        ensures { result ≡ self.now.taken }
    {
        self.taken
    }

    /// The wrappings of the top, the outermost first.
    pub fn root_wraps(&self) -> &[u32]
        ensures { result.now ≡ self.now.root_wraps }
    {
        self.root_wraps.as_slice()
    }

    /// What waits first is this, which stands in the tree from now on: what was added to it waits before all others.
    pub fn take_node(&mut self, of: NodeOf) -> Result<(), NoMemory>
        ensures { OnOk result (self.new ≡ node_taken of self.old) }
    {
        let below = below_count(self.additions.as_slice(), of);
        let Some(first) = self.waiting.pop() else {
            return Ok(());
        };
        if below > 4_294_967_295 || first.depth == u32::MAX || self.taken == usize::MAX {
            return Err(NoMemory);
        }
        self.taken += 1;
        self.nodes.push(Node {
            addition: first.addition,
            of,
            below: below as u32,
        })?;
        wait_below(
            self.additions.as_slice(),
            of,
            first.depth + 1,
            &mut self.waiting,
        )
    }

    /// What is to be elaborated next.
    pub fn first_waiting(&self) -> Option<Waiting>
        ensures { result ≡ first_waiting self.now }
    {
        self.waiting.last().copied()
    }

    /// The value that was added there.
    pub fn thing_waiting(&self) -> Option<Val>
        ensures { result ≡ thing_waiting self.now }
    {
        let first = self.first_waiting()?;
        match self.additions.get(first.addition as usize) {
            Some(added) => Some(added.thing),
            None => None,
        }
    }

    /// Whether a module stands in the tree below the top.
    pub fn is_node(&self, m: u32) -> bool
        ensures { result ≡ is_node m self.now }
    {
        self.nodes.iter().any(|x| is_of_module(m, x.of))
    }
}
