// What elaboration holds beside the heap of a program.
ghost use Rattle.std.specs.Prelude.{◌≡◌, ◌++◌, ◌∷◌, [], length, IfOk, OnOk, OnErr, Some, None, IsSome, option_map, slice_get};
ghost use Rattle.std.specs.Option.{option_copied};
ghost use Rattle.py_heap.specs.Heaps.{seen};
ghost use Rattle.py_values.specs.declared.val.Val.TheVariants as val;
ghost use Rattle.amh_things.specs.declared.thing.Thing.TheVariants as thing;
ghost use Rattle.amh_things.specs.Things.{name_called, thing_of, base_called, layout_named, read_as};
ghost use Rattle.amh_things.specs.Meant.{shape_meant, expr_meant, Gives as Meant};
ghost use Rattle.amh_things.specs.Held.{AreHeld};
ghost use Rattle.amh_things.specs.Members.{counted};
ghost use Rattle.elab_store.specs.Stores.{store_and_module, store_with_memory, store_with_wrapping, store_with_wrapped, wrapped_of, inner_of, wraps_in, naming_domain, side_of, is_domain};
ghost use Rattle.elab_store.specs.declared.kept.DomainName.TheVariants as domain;
ghost use Rattle.elab_store.specs.Components.{no_components};
ghost use Rattle.elab_store.specs.ClockDomains.{no_clock_domains, with_clock_domain, with_definition};
ghost use Rattle.elab_store.specs.Hierarchies.{no_hierarchy, with_addition, top_entered, node_taken, wraps_taken, root_wrapped};
ghost use Rattle.elab_store.specs.Simulations.{no_simulation};
ghost use Rattle.elab_store.specs.Stores.{nothing_held, no_top, kept_of, store_with, store_keeping, kept_given, given, refused, refused_at};
ghost use Rattle.elab_store.specs.Stores.{with_root, with_object, module_of, memory_of, node_in, signature_in, signature_of, face_in, face_of};
ghost use Rattle.elab_store.specs.Held.{held_of, Gives};

use crate::components::Components;
use crate::domains::{ClockDomain, ClockDomains, Definition};
use crate::faces::Face;
use crate::hierarchy::{Hierarchy, NodeOf};
use crate::kept::{DomainName, Kept, Top};
use crate::memories::OwnMemory;
use crate::names::is_text;
use crate::objects::first_object;
use crate::own_machine::OwnMachine;
use crate::simulation::Simulation;
use crate::wrappings::{Wrapped, Wrapping, wraps_of};
use amh_bits::Int;
use amh_host::{Items, Place, Text};
use amh_things::comparing::counted;
use amh_things::meant::{expr_meant, shape_meant};
use amh_things::plan::{PlanStop, read_as};
use amh_things::thing::Reading;
use amh_things::values::Values;
use design_ir::{ExprId, Patterns, Pool, Side};
use lists::NoMemory;
use module_dsl::Builder;
use py_frames::request::{Answer, Cause};
use py_heap::{Frozen, Heap};
use py_values::Val;
use shape_rules::Shape;
use std::alloc::Global;
use std::marker::Model;

/// The things that a program may hold, what this crate knows of them, the modules with their statements, and the top. Contracts see it as
/// `Stored`.
#[derive(Drop)]
pub struct Store {
    pub things: Values,
    pub kept: Vec<Kept>,
    pub modules: Vec<Builder>,
    pub patterns: Vec<Patterns>,
    pub statements: u32,
    pub top: Top,
    pub components: Components,
    pub hierarchy: Hierarchy,
    pub clock_domains: ClockDomains,
    pub machines: Vec<OwnMachine>,
    pub memories: Vec<OwnMemory>,
    pub wrappings: Vec<Wrapping>,
    pub wrapped: Vec<Wrapped>,
    pub domains: Items<Text>,
    pub told: Option<Place>,
    pub simulation: Simulation,
}

impl Model for Store {
    ghost use Rattle.elab_store.specs.Stores.{Stored};
    ghost use Rattle.elab_store.specs.Kept.{IsStore};
    ghost use Rattle.std.specs.Prelude.{[]};

    ghost Value = { Stored };

    ghost view = { λ a. record { things = a.things; kept = a.kept.items; modules = a.modules.items; patterns = a.patterns.items; top = a.top; components = a.components; hierarchy = a.hierarchy; clock_domains = a.clock_domains; machines = a.machines.items; memories = a.memories.items; wrappings = a.wrappings.items; wrapped = a.wrapped.items; domains = a.domains; told = a.told; simulation = a.simulation } };

    ghost invariant = { λ a. IsStore a.statements a.modules.items a.patterns.items };
}

impl Store {
    /// Nothing yet, which takes no memory.
    fn new(alloc: Global) -> Store
        ensures { result ≡ record { things = []; kept = []; modules = []; patterns = []; top = no_top; components = no_components; hierarchy = no_hierarchy; clock_domains = no_clock_domains; machines = []; memories = []; wrappings = []; wrapped = []; domains = []; told = None; simulation = no_simulation } }
    {
        Store {
            things: Values::new(alloc),
            kept: Vec::new(alloc),
            modules: Vec::new(alloc),
            patterns: Vec::new(alloc),
            statements: 0,
            top: Top {
                object: None,
                root: None,
            },
            components: Components::new(alloc),
            hierarchy: Hierarchy::new(alloc),
            clock_domains: ClockDomains::new(alloc),
            machines: Vec::new(alloc),
            memories: Vec::new(alloc),
            wrappings: Vec::new(alloc),
            wrapped: Vec::new(alloc),
            domains: Items::new(alloc),
            told: None,
            simulation: Simulation::new(alloc),
        }
    }

    /// A new thing of this crate.
    pub fn keep(&mut self, kept: Kept) -> Result<Val, NoMemory>
        ensures { IfOk result (λ v. (v ≡ val.Hw (record { 0 = length self.old.things })) × (self.new ≡ store_keeping kept self.old)) }
    {
        let number = self.kept.len();
        if number >= 4_294_967_295 {
            return Err(NoMemory);
        }
        let hw = self.things.keep(number as u32)?;
        self.kept.push(kept)?;
        Ok(Val::Hw(hw))
    }

    /// A name of amh_values, as a thing.
    pub fn name(&mut self, name: &str) -> Result<Val, NoMemory>
        requires { IsSome (name_called name.now) }
        ensures { IfOk result (λ v. (v ≡ val.Hw (record { 0 = length self.old.things })) × (Some self.new ≡ option_map (λ n. store_with (thing.Name n) self.old) (name_called name.now))) }
    {
        let hw = self.things.name(name)?;
        Ok(Val::Hw(hw))
    }

    /// A name over which a class makes an enumeration, as a thing.
    pub fn base(&mut self, name: &str) -> Result<Val, NoMemory>
        requires { IsSome (base_called name.now) }
        ensures { IfOk result (λ v. (v ≡ val.Hw (record { 0 = length self.old.things })) × (Some self.new ≡ option_map (λ n. store_with (thing.Name n) self.old) (base_called name.now))) }
    {
        let hw = self.things.base(name)?;
        Ok(Val::Hw(hw))
    }

    /// A name of a layout, as a thing.
    pub fn layout_name(&mut self, name: &str) -> Result<Val, NoMemory>
        requires { IsSome (layout_named name.now) }
        ensures { IfOk result (λ v. (v ≡ val.Hw (record { 0 = length self.old.things })) × (Some self.new ≡ option_map (λ n. store_with (thing.Name n) self.old) (layout_named name.now))) }
    {
        let hw = self.things.layout_name(name)?;
        Ok(Val::Hw(hw))
    }

    /// The number that a value of the program is, a member of an enumeration too.
    pub fn counted(&self, v: &Val) -> Option<Int>
        ensures { result ≡ counted self.now.things v.now }
    {
        counted(&self.things, v)
    }

    /// The expression that a value of the program is.
    pub fn value_meant(&self, alloc: Global, pool: &mut Pool, v: &Val) -> Result<ExprId, PlanStop>
        requires { AreHeld (length pool.old.exprs) self.now.things }
        ensures { Meant (expr_meant pool.old self.now.things v.now) result pool.old pool.new }
    {
        expr_meant(alloc, pool, &self.things, v)
    }

    /// The shape that a value of the program is.
    pub fn shape_meant(&self, heap: &Heap, frozen: &Frozen, v: &Val) -> Result<Shape, Cause>
        ensures { result ≡ shape_meant (seen frozen.now heap.now) self.now.things v.now }
    {
        shape_meant(&self.things, heap, frozen, v)
    }

    /// The value of an expression by what its bits are read as, as a new thing.
    pub fn hold(&mut self, reading: Reading, e: ExprId) -> Result<Val, NoMemory>
        ensures { IfOk result (λ v. (v ≡ val.Hw (record { 0 = length self.old.things })) × (self.new ≡ store_with (read_as reading e) self.old)) }
    {
        let hw = self.things.put(read_as(reading, e))?;
        Ok(Val::Hw(hw))
    }

    /// A domain with a clock, by its name.
    pub fn name_domain(&mut self, alloc: Global, name: &str) -> Result<DomainName, NoMemory>
        ensures { IfOk result (λ d. (d ≡ domain.Clocked (length self.old.domains)) × (self.new ≡ naming_domain name.now self.old)) }
    {
        let number = self.domains.len();
        if number >= 4_294_967_295 {
            return Err(NoMemory);
        }
        let mut text = Text::new(alloc);
        text.push(name)?;
        self.domains.push(text)?;
        Ok(DomainName::Clocked(number as u32))
    }

    /// The side of a domain: combinational, or that of its name.
    pub fn side_of(&self, alloc: Global, name: DomainName) -> Result<Option<Side>, NoMemory>
        ensures { IfOk result (λ side. side ≡ side_of self.now name) }
    {
        let DomainName::Clocked(number) = name else {
            return Ok(Some(Side::Comb));
        };
        if number as usize >= self.domains.len() {
            return Ok(None);
        }
        let mut text = Text::new(alloc);
        text.push(self.domains.get(number as usize).as_str())?;
        Ok(Some(Side::Clocked(text)))
    }

    /// Whether a domain has this name.
    pub fn is_domain(&self, name: DomainName, text: &str) -> bool
        ensures { result ≡ is_domain self.now name text.now }
    {
        match name {
            DomainName::Comb => is_text(text, "comb"),
            DomainName::Clocked(number) => {
                (number as usize) < self.domains.len() && self.domains.get(number as usize).is(text)
            }
        }
    }

    /// A new module without statements.
    pub fn add_module(&mut self, alloc: Global) -> Result<u32, NoMemory>
        ensures { IfOk result (λ m. (m ≡ length self.old.modules) × (self.new ≡ store_and_module self.old)) }
    {
        let number = self.modules.len();
        if number >= 4_294_967_295 {
            return Err(NoMemory);
        }
        let builder = Builder::new(alloc, "")?;
        self.modules.push(builder)?;
        Ok(number as u32)
    }

    /// A memory that is made.
    pub fn add_memory(&mut self, memory: OwnMemory) -> Result<u32, NoMemory>
        ensures { IfOk result (λ k. (k ≡ length self.old.memories) × (self.new ≡ store_with_memory memory self.old)) }
    {
        let number = self.memories.len();
        if number >= 4_294_967_295 {
            return Err(NoMemory);
        }
        self.memories.push(memory)?;
        Ok(number as u32)
    }

    /// What a wrapper does.
    pub fn add_wrapping(&mut self, wrapping: Wrapping) -> Result<u32, NoMemory>
        ensures { IfOk result (λ k. (k ≡ length self.old.wrappings) × (self.new ≡ store_with_wrapping wrapping self.old)) }
    {
        let number = self.wrappings.len();
        if number >= 4_294_967_295 {
            drop(wrapping);
            return Err(NoMemory);
        }
        self.wrappings.push(wrapping)?;
        Ok(number as u32)
    }

    /// What a wrapper made, as a new thing.
    pub fn add_wrapped(&mut self, wrapped: Wrapped) -> Result<Val, NoMemory>
        ensures { IfOk result (λ v. (v ≡ val.Hw (record { 0 = length self.old.things })) × (self.new ≡ store_with_wrapped wrapped self.old)) }
    {
        let number = self.wrapped.len();
        if number >= 4_294_967_295 {
            return Err(NoMemory);
        }
        self.wrapped.push(wrapped)?;
        self.keep(Kept::Wrapped(number as u32))
    }

    /// What was added to modules, and the tree of it.
    pub fn hierarchy(&self) -> &Hierarchy
        ensures { result.now ≡ self.now.hierarchy }
    {
        &self.hierarchy
    }

    /// What is added to a module, under a name or without one.
    pub fn add_submodule(
        &mut self,
        alloc: Global,
        of: u32,
        name: Option<&str>,
        thing: Val,
    ) -> Result<(), NoMemory>
        ensures { OnOk result (self.new ≡ record self.old { hierarchy = with_addition of (option_copied name.entry) thing self.old.hierarchy }) }
    {
        self.hierarchy.add(alloc, of, name, thing)
    }

    /// Clock domains, and which module defines which.
    pub fn clock_domains(&self) -> &ClockDomains
        ensures { result.now ≡ self.now.clock_domains }
    {
        &self.clock_domains
    }

    /// A clock domain that is made.
    pub fn add_clock_domain(&mut self, x: ClockDomain) -> Result<(), NoMemory>
        ensures { OnOk result (self.new ≡ record self.old { clock_domains = with_clock_domain x self.old.clock_domains }) }
    {
        self.clock_domains.keep(x)
    }

    /// A module defines a clock domain.
    pub fn define_domain(&mut self, definition: Definition) -> Result<(), NoMemory>
        ensures { OnOk result (self.new ≡ record self.old { clock_domains = with_definition definition self.old.clock_domains }) }
    {
        self.clock_domains.define(definition)
    }

    /// The module that is to be elaborated, whose submodules wait.
    pub fn enter_top(&mut self, root: u32) -> Result<(), NoMemory>
        ensures { OnOk result (self.new ≡ record (with_root root self.old) { hierarchy = top_entered root self.old.hierarchy }) }
    {
        self.top.root = Some(root);
        self.hierarchy.enter_top(root)
    }

    /// The module or the memory that what waits first came to.
    pub fn take_node(&mut self, of: NodeOf) -> Result<(), NoMemory>
        ensures { OnOk result (self.new ≡ record self.old { hierarchy = node_taken of self.old.hierarchy }) }
    {
        self.hierarchy.take_node(of)
    }

    /// What waits first is wrapped by these, the outermost first.
    pub fn take_wraps(&mut self, bys: &[u32]) -> Result<(), NoMemory>
        ensures { OnOk result (self.new ≡ record self.old { hierarchy = wraps_taken bys.now self.old.hierarchy }) }
    {
        self.hierarchy.take_wraps(bys)
    }

    /// The top is wrapped by these too, within the ones before.
    pub fn wrap_root(&mut self, bys: &[u32]) -> Result<(), NoMemory>
        ensures { OnOk result (self.new ≡ record self.old { hierarchy = root_wrapped bys.now self.old.hierarchy }) }
    {
        self.hierarchy.wrap_root(bys)
    }

    /// `elaborate` of an object is called.
    pub fn ask_object(&mut self, v: Val)
        ensures { self.new ≡ with_object v self.old }
    {
        self.top.object = first_object(self.top.object, v);
        self.top.root = None;
    }

    /// Where a refusal is told, where this is not the place of its request.
    pub fn told(&self) -> Option<Place>
        ensures { result ≡ self.now.told }
    {
        self.told
    }

    // Where a refusal is told.
    fn tell_at(&mut self, place: Place)
        ensures { self.new ≡ record self.old { told = Some place } }
    {
        self.told = Some(place);
    }

    /// The module that a value is.
    pub fn module_of(&self, v: &Val) -> Option<u32>
        ensures { result ≡ module_of (kept_of self.now v.now) }
    {
        match self.kept_of(*v) {
            Some(Kept::Module(m)) => Some(m),
            _ => None,
        }
    }

    /// The memory that a value is.
    pub fn memory_of(&self, v: &Val) -> Option<u32>
        ensures { result ≡ memory_of (kept_of self.now v.now) }
    {
        match self.kept_of(*v) {
            Some(Kept::Memory(k)) => Some(k),
            _ => None,
        }
    }

    /// The module or the memory that a value is.
    pub fn node_of(&self, v: &Val) -> Option<NodeOf>
        ensures { result ≡ node_in (kept_of self.now v.now) }
    {
        match self.kept_of(*v) {
            Some(Kept::Module(m)) => Some(NodeOf::Module(m)),
            Some(Kept::Memory(k)) => Some(NodeOf::Memory(k)),
            _ => None,
        }
    }

    /// A wrapped thing by its number.
    pub fn wrapped_at(&self, number: u32) -> Option<Wrapped>
        ensures { result ≡ slice_get self.now.wrapped number }
    {
        self.wrapped.get(number as usize).copied()
    }

    /// The number of the wrapped thing that a value is.
    pub fn wrapped_of(&self, v: &Val) -> Option<u32>
        ensures { result ≡ wrapped_of self.now v.now }
    {
        match self.kept_of(*v) {
            Some(Kept::Wrapped(k)) => Some(k),
            _ => None,
        }
    }

    /// What stands within a value: itself, where it is not wrapped.
    pub fn inner_of(&self, v: &Val) -> Val
        ensures { result ≡ inner_of self.now v.now }
    {
        let Some(number) = self.wrapped_of(v) else {
            return *v;
        };
        match self.wrapped.get(number as usize) {
            Some(one) => one.inner,
            None => *v,
        }
    }

    /// The wrappings of a value, the outermost first.
    pub fn wraps_in(&self, alloc: Global, v: &Val) -> Result<Vec<u32>, NoMemory>
        ensures { IfOk result (λ bys. bys.items ≡ wraps_in self.now v.now) }
    {
        match self.wrapped_of(v) {
            Some(number) => wraps_of(alloc, self.wrapped.as_slice(), number),
            None => Ok(Vec::new(alloc)),
        }
    }

    /// The number of the signature that a value is.
    pub fn signature_of(&self, v: Val) -> Option<u32>
        ensures { result ≡ signature_of self.now v }
    {
        if let Val::Object(o) = v {
            return self.components.signed(o.0);
        }
        match self.kept_of(v) {
            Some(Kept::Signature(n)) => Some(n),
            _ => None,
        }
    }

    /// The interface that a value is: a component is one too.
    pub fn face_of(&self, v: Val) -> Option<Face>
        ensures { result ≡ face_of self.now v }
    {
        if let Val::Object(o) = v {
            return self.components.face(o.0);
        }
        match self.kept_of(v) {
            Some(Kept::Interface(face)) => Some(face),
            _ => None,
        }
    }

    /// What a value is kept for, where it is a thing of this crate.
    pub fn kept_of(&self, v: Val) -> Option<Kept>
        ensures { result ≡ kept_of self.now v }
    {
        let Val::Hw(hw) = v else {
            return None;
        };
        match self.things.kept(hw) {
            Some(number) => self.kept.get(number as usize).copied(),
            None => None,
        }
    }
}

/// A pool and a store, as they grow.
#[derive(Drop)]
pub struct Elaboration {
    pub alloc: Global,
    pub pool: Pool,
    pub store: Store,
}

impl Elaboration {
    /// Nothing yet, which takes no memory.
    pub fn new(alloc: Global) -> Elaboration
        ensures { held_of result ≡ nothing_held }
    {
        Elaboration {
            alloc,
            pool: Pool::new(alloc),
            store: Store::new(alloc),
        }
    }

    /// A new thing of this crate is given.
    pub fn give_kept(&mut self, kept: Kept) -> Result<Answer, NoMemory>
        ensures { Gives result self.new (kept_given kept (held_of self.old)) }
    {
        let v = self.store.keep(kept)?;
        Ok(Answer::Give(v))
    }

    /// A refusal, which changes nothing.
    pub fn refuse(&mut self, why: Cause) -> Result<Answer, NoMemory>
        ensures { Gives result self.new (refused why (held_of self.old)) }
    {
        Ok(Answer::Refuse(why))
    }

    /// A refusal that is told at another place than the request's.
    pub fn refuse_at(&mut self, place: Place, why: Cause) -> Result<Answer, NoMemory>
        ensures { Gives result self.new (refused_at place why (held_of self.old)) }
    {
        self.store.tell_at(place);
        Ok(Answer::Refuse(why))
    }

    /// A value that is there.
    pub fn give(&mut self, v: Val) -> Result<Answer, NoMemory>
        ensures { Gives result self.new (given v (held_of self.old)) }
    {
        Ok(Answer::Give(v))
    }
}
