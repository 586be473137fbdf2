// Clock domains that a program makes, and which module defines which.
ghost use Rattle.std.specs.Prelude.{◌≡◌, length, slice_get, IfOk, OnOk};
ghost use Rattle.std.specs.Option.{option_copied};
ghost use Rattle.elab_store.specs.ClockDomains.{no_clock_domains, with_clock_domain, with_definition, definition_of, definition_in, defined_by};

use crate::hierarchy::copied;
use amh_host::Place;
use design_ir::{Domain, DomainDef, DomainDefs};
use lists::NoMemory;
use py_values::Val;
use std::alloc::Global;
use std::marker::Model;

/// A clock domain, and the value that its reset is to the program, where it has one.
#[derive(Drop)]
pub struct ClockDomain {
    pub domain: Domain,
    pub reset: Option<Val>,
}

/// That a module defines a clock domain, by its number in order of making, and where.
#[derive(Clone, Copy, PartialEq, Eq, Drop)]
pub struct Definition {
    pub of: u32,
    pub clock_domain: u32,
    pub place: Place,
}

/// All clock domains, and which are defined where. Contracts see it as `ClockDomains`.
#[derive(Drop)]
pub struct ClockDomains {
    made: Vec<ClockDomain>,
    definitions: Vec<Definition>,
}

impl Model for ClockDomains {
    ghost use Rattle.elab_store.specs.ClockDomains.{ClockDomains};

    ghost Value = { ClockDomains };

    ghost view = { λ a. record { made = a.made.items; definitions = a.definitions.items } };
}

// A definition as a fragment has it.
fn definition_of(
    alloc: Global,
    made: &[ClockDomain],
    definition: &Definition,
) -> Result<Option<DomainDef>, NoMemory>
    ensures { IfOk result (λ d. d ≡ definition_of made.now definition.now) }
{
    let Some(x) = made.get(definition.clock_domain as usize) else {
        return Ok(None);
    };
    Ok(Some(DomainDef {
        domain: Domain {
            name: copied(alloc, x.domain.name.as_str())?,
            clk: x.domain.clk,
            rst: x.domain.rst,
            falling: x.domain.falling,
            async_reset: x.domain.async_reset,
        },
        place: definition.place,
    }))
}

// A definition, where it is one of a module.
fn definition_in(
    alloc: Global,
    of: u32,
    made: &[ClockDomain],
    definition: &Definition,
) -> Result<Option<DomainDef>, NoMemory>
    ensures { IfOk result (λ d. d ≡ definition_in of made.now definition.now) }
{
    if definition.of == of {
        definition_of(alloc, made, definition)
    } else {
        Ok(None)
    }
}

impl ClockDomains {
    /// Nothing yet, which takes no memory.
    pub fn new(alloc: Global) -> ClockDomains
        ensures { result ≡ no_clock_domains }
    {
        ClockDomains {
            made: Vec::new(alloc),
            definitions: Vec::new(alloc),
        }
    }

    /// How many clock domains there are.
    pub fn count(&self) -> usize
        ensures { result ≡ length self.now.made }
    {
        self.made.len()
    }

    /// A clock domain by its number, where there is one.
    pub fn at(&self, number: u32) -> Option<&ClockDomain>
        ensures { option_copied result ≡ slice_get self.now.made number }
    {
        self.made.get(number as usize)
    }

    /// Keeps a clock domain.
    pub fn keep(&mut self, x: ClockDomain) -> Result<(), NoMemory>
        ensures { OnOk result (self.new ≡ with_clock_domain x self.old) }
    {
        self.made.push(x)?;
        Ok(())
    }

    /// Keeps that a module defines a clock domain.
    pub fn define(&mut self, definition: Definition) -> Result<(), NoMemory>
        ensures { OnOk result (self.new ≡ with_definition definition self.old) }
    {
        self.definitions.push(definition)?;
        Ok(())
    }

    /// The definitions of a module, in order.
    pub fn defined_by(&self, alloc: Global, of: u32) -> Result<DomainDefs, NoMemory>
        ensures { IfOk result (λ ds. ds ≡ defined_by of self.now) }
    {
        let mut all = DomainDefs::new(alloc);
        for definition in self.definitions.as_slice() {
            if let Some(d) = definition_in(alloc, of, self.made.as_slice(), definition)? {
                all.push(d)?;
            }
        }
        Ok(all)
    }
}
