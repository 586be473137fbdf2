// Where the first leaf of each path stands.
ghost use Rattle.std.specs.Prelude.{◌≡◌, IfOk};
ghost use Rattle.std.specs.BTreeMap.{get_by_text};
ghost use Rattle.lib_wiring.specs.Wiring.{are_apart};
ghost use Rattle.lib_wiring.specs.Places.{ArePlaces, is_place};

use crate::leaf::{Interface, Leaf};
use lists::NoMemory;
use std::alloc::Global;
use std::collections::BTreeMap;

/// Where the first leaf of each path stands.
pub fn places_of(alloc: Global, leaves: &[Leaf]) -> Result<BTreeMap<String, usize>, NoMemory>
    ensures { IfOk result (ArePlaces leaves.now) }
{
    let mut places = BTreeMap::new(alloc);
    let mut i = leaves.len();
    while i > 0 {
        i -= 1;
        let path = String::from_str(alloc, leaves[i].path.as_str())?;
        places.insert(path, i)?;
    }
    Ok(places)
}

/// The place of a path, where it has one.
pub fn place_of(places: &BTreeMap<String, usize>, path: &str) -> Option<usize>
    ensures { result ≡ get_by_text places.now path.now }
{
    match places.get(path) {
        Some(place) => Some(*place),
        None => None,
    }
}

/// Whether the leaf at a place is the first of its path.
pub fn is_first(firsts: &BTreeMap<String, usize>, path: &str, i: usize) -> bool
    ensures { result ≡ is_place i (get_by_text firsts.now path.now) }
{
    match place_of(firsts, path) {
        Some(place) => place == i,
        None => false,
    }
}

// Whether each leaf is the first of its path.
fn are_first(places: &BTreeMap<String, usize>, leaves: &[Leaf]) -> bool
    requires { ArePlaces leaves.now places.now }
    ensures { result ≡ are_apart leaves.now }
{
    for (i, leaf) in leaves.iter().enumerate() {
        if !is_first(places, leaf.path.as_str(), i) {
            return false;
        }
    }
    true
}

/// Whether no path stands twice.
pub fn are_apart(alloc: Global, leaves: &Interface) -> Result<bool, NoMemory>
    ensures { IfOk result (λ apart. apart ≡ are_apart leaves.now) }
{
    let places = places_of(alloc, leaves.as_slice())?;
    Ok(are_first(&places, leaves.as_slice()))
}
