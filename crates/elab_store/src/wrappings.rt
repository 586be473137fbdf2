// What wrappers of clock domains do to what they are given, and what came of it.
ghost use Rattle.std.specs.Prelude.{◌≡◌, length, IfOk, Some};
ghost use Rattle.elab_store.specs.Wrappings.{wraps_from};

use domain_transforms::{Controls, NamePairs};
use lists::NoMemory;
use py_values::Val;
use std::alloc::Global;

/// What `DomainRenamer(..)`, `ResetInserter(..)` or `EnableInserter(..)` does.
#[derive(Drop)]
pub enum Wrapping {
    Rename(NamePairs),
    Reset(Controls),
    Enable(Controls),
}

/// What a wrapper made: by which wrapping, over which other wrapped thing where it was given one, and what stands within all of them.
#[derive(Clone, Copy, PartialEq, Eq, Drop)]
pub struct Wrapped {
    pub by: u32,
    pub over: Option<u32>,
    pub inner: Val,
}

/// The wrappings of a wrapped thing, the outermost first.
pub fn wraps_of(alloc: Global, wrapped: &[Wrapped], number: u32) -> Result<Vec<u32>, NoMemory>
    ensures { IfOk result (λ bys. bys.items ≡ wraps_from (length wrapped.now) wrapped.now (Some number)) }
{
    let mut bys = Vec::new(alloc);
    let mut next = Some(number);
    for i in 0..wrapped.len() {
        let Some(number) = next else {
            return Ok(bys);
        };
        let Some(one) = wrapped.get(number as usize) else {
            return Ok(bys);
        };
        bys.push(one.by)?;
        next = one.over;
    }
    Ok(bys)
}
