// What one module gives, with those below it.
ghost use Rattle.std.specs.Prelude.{◌≡◌, ◌<◌, OnOk, OnErr, All, Some, slice_get};
ghost use Rattle.design_ir.specs.Forests.{bare, forest_len, forest_and, forest_size, trees};
ghost use Rattle.design_ir.specs.Fragments.{leaf_of, forest_of};

use crate::domain::DomainDefs;
use crate::memory::Memories;
use crate::process::Processes;
use amh_host::{NoMemory, Text};
use std::alloc::Global;
use std::marker::Model;

/// What one module, memory or library part gives. Its own definitions of domains come first, and its submodules
/// stand in order of addition; `is_part` is true exactly for a fragment that a library part built.
#[cycle(fragment)]
#[derive(Drop)]
pub struct Fragment {
    pub name: Text,
    pub is_part: bool,
    pub domains: DomainDefs,
    pub processes: Processes,
    pub memories: Memories,
    pub submodules: Fragments,
}

/// Fragments one after another.
#[cycle(fragment)]
#[derive(Drop)]
pub struct Fragments {
    items: Vec<Fragment>,
}

impl Model for Fragments {
    ghost use Rattle.std.specs.Coded.{codes};
    ghost use Rattle.design_ir.specs.TreeCodes.{block_code};
    ghost use Rattle.design_ir.specs.Forests.{Forest, forest_code, forest_size};

    ghost Value = { Forest };

    ghost coded = { forest_code (Prim.hlevel (codes, block_code)) };

    ghost use Rattle.design_ir.specs.Fragments.{forest_of};

    ghost view = { λ a. forest_of a.items.items };

    ghost size = { forest_size };

    ghost use Rattle.design_ir.specs.FragmentSizes.{forest_falls};
    ghost use Rattle.std.proofs.Common.{arith};

    ghost size_decreases = { λ a h. Prim.omega (arith, forest_falls a.items.items) };
}

impl Fragments {
    /// No fragment, which takes no memory.
    pub fn new(alloc: Global) -> Fragments
        ensures { result ≡ bare }
    {
        Fragments {
            items: Vec::new(alloc),
        }
    }

    /// Adds a fragment at the end.
    #[tactic(auto, using(crate::proofs::Lists::forest_of_snoc))]
    pub fn push(&mut self, item: Fragment) -> Result<(), NoMemory>
        ensures ok { OnOk result (self.new ≡ forest_and self.old (leaf_of item) item.submodules) }
        ensures err { OnErr result (self.new ≡ self.old) }
    {
        match self.items.push(item) {
            Ok(()) => Ok(()),
            Err(_) => Err(NoMemory),
        }
    }

    /// How many fragments stand directly here.
    #[tactic(auto, using(crate::proofs::Lists::forest_len_is))]
    pub fn len(&self) -> usize
        ensures { result ≡ forest_len self.now }
    {
        self.items.len()
    }

    /// The fragment at a place, counted from 0.
    pub fn get(&self, i: usize) -> &Fragment
        requires { i < forest_len self.now }
        ensures { slice_get (trees self.now) i ≡ Some (leaf_of result.now, result.now.submodules) }
    {
        &self.items[i]
    }

    /// All fragments that stand directly here, in order. Those below each are smaller than the whole.
    #[tactic(auto, using(crate::proofs::Sizes::each_below_smaller))]
    pub fn as_slice(&self) -> &[Fragment]
        ensures value { forest_of result.now ≡ self.now }
        ensures smaller { All (λ f. forest_size f.submodules < forest_size self.now) result.now }
    {
        self.items.as_slice()
    }
}
