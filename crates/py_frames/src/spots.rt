// The places of functions, by which an index finds them.
ghost use Rattle.std.specs.Prelude.{◌≡◌};
ghost use Rattle.py_frames.specs.Functions.{body_place};
ghost use Rattle.py_frames.specs.Tables.{known_body, spot_of, AreSpots, AddsAtMost};

use crate::functions::KnownFunction;
use amh_host::Place;
use indexmap::IndexSet;
use std::alloc::Global;

/// A place, as a key.
#[derive(Clone, Copy, PartialEq, Eq, Hash)]
pub struct Spot {
    pub line: u32,
    pub col: u32,
}

/// The key of a place.
pub fn spot_of(place: Place) -> Spot
    ensures { result ≡ spot_of place }
{
    Spot {
        line: place.line,
        col: place.col,
    }
}

/// The places of these functions in their order, where each is another one and there is memory for all.
pub fn spots_of(alloc: Global, table: &[KnownFunction]) -> IndexSet<Spot>
    ensures { AreSpots result.keys table.now }
{
    let mut spots = IndexSet::new(alloc);
    for known in table {
        add_spot(&mut spots, place_of(known));
    }
    spots
}

fn place_of(known: &KnownFunction) -> Spot
    ensures { result ≡ spot_of (body_place (known_body known.now).0) }
{
    spot_of(known.function.place)
}

// Adds a key behind the others, where it is new and there is memory.
fn add_spot(spots: &mut IndexSet<Spot>, spot: Spot)
    ensures { AddsAtMost spot spots.old.keys spots.new.keys }
{
    let _ = spots.insert(spot);
}
