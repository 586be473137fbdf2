// The aims of a target: what is kept of each, and what slices, joins and selections make of it.
ghost use Rattle.std.specs.Prelude.{◌≡◌, ℕ, ◌+◌, ◌*◌, ◌<◌, ◌≤◌, true, option_map};
ghost use Rattle.design_ir.specs.Targets.{raised, within, shifted, loose, chosen_below, stands_at, fixed_place};
ghost use Rattle.comb_graph.specs.CombNodes.{bit_at};
ghost use Rattle.comb_graph.specs.Seen.{StandsBelow, seen, spot_of};
ghost use Rattle.comb_graph.specs.Sets.{has, numbers_in};

use crate::sets::{below, down, only, spread, up};
use crate::spans::Span;

/// Where in a target a bit stands.
#[derive(Clone, Copy, Drop)]
pub enum At {
    /// At this place, whatever offsets and indices are.
    Fixed(u8),
    /// At one of a set of places, as offsets and indices choose.
    Chosen(u128),
}

/// The node of a bit that may be written, and where in the target the bit stands.
#[derive(Clone, Copy, Drop)]
pub struct Aimed {
    pub node: usize,
    pub at: At,
}

/// The place where a bit stands, if it is fixed.
pub fn fixed_place(at: At) -> Option<u8>
    ensures { result ≡ fixed_place (spot_of at) }
{
    match at {
        At::Fixed(k) => Some(k),
        At::Chosen(_) => None,
    }
}

// All places where a bit may stand.
fn places(at: At) -> u128
    requires { StandsBelow 128 (spot_of at) }
    ensures { (k : ℕ) → has result k ≡ stands_at (spot_of at) k }
{
    match at {
        At::Fixed(k) => only(k),
        At::Chosen(set) => set,
    }
}

// A bit at those of a set of places that are below a width, if there are any.
fn chosen(node: usize, set: u128, width: u8) -> Option<Aimed>
    ensures { option_map seen result ≡ chosen_below width (bit_at node) (has set) }
{
    let set = below(set, width);
    if set == 0 {
        return None;
    }
    Some(Aimed {
        node,
        at: At::Chosen(set),
    })
}

/// An aim so many places higher.
pub fn lift(a: Aimed, by: u8) -> Aimed
    requires { (k : ℕ) → stands_at (spot_of a.at) k ≡ true → by + k < 128 }
    ensures { seen result ≡ raised by (seen a) }
{
    let at = match a.at {
        At::Fixed(k) => At::Fixed(by + k),
        At::Chosen(set) => At::Chosen(up(set, by)),
    };
    Aimed { node: a.node, at }
}

/// What a slice leaves of an aim.
pub fn cut(a: Aimed, low: u8, width: u8) -> Option<Aimed>
    ensures { option_map seen result ≡ within low width (seen a) }
{
    match a.at {
        At::Chosen(set) => chosen(a.node, down(set, low), width),
        At::Fixed(k) => {
            if low <= k && (k as u16) < low as u16 + width as u16 {
                Some(Aimed {
                    node: a.node,
                    at: At::Fixed(k - low),
                })
            } else {
                None
            }
        }
    }
}

/// A part of a target of so many bits: its offset's numbers, its width and its stride.
#[derive(Clone, Copy, Drop)]
pub struct Selection {
    pub offset: Span,
    pub wide: u8,
    pub width: u8,
    pub stride: u8,
}

/// What a selection makes of an aim.
pub fn select(a: Aimed, by: Selection) -> Option<Aimed>
    requires below { StandsBelow 128 (spot_of a.at) }
    requires some { by.offset.least ≤ by.offset.greatest }
    ensures { option_map seen result ≡ shifted (numbers_in by.offset) by.wide by.width by.stride (seen a) }
{
    let set = spread(places(a.at), by.offset, by.wide, by.stride);
    chosen(a.node, set, by.width)
}

/// What the choice of an item makes of an aim of it.
pub fn loosen(a: Aimed, width: u8) -> Option<Aimed>
    requires { StandsBelow 128 (spot_of a.at) }
    ensures { option_map seen result ≡ loose width (seen a) }
{
    chosen(a.node, places(a.at), width)
}
