// The links between two interfaces.
ghost use Rattle.std.specs.Prelude.{◌≡◌, ◌<◌, ◌++◌, length, IfOk, IfErr, OnOk, Some, option_to_list};
ghost use Rattle.std.specs.List.{list_all};
ghost use Rattle.std.specs.Ordering.{int_eq};
ghost use Rattle.lib_wiring.specs.Wiring.{AreSignals, IsOwed, agree, all_meet, connected, first_leaves, have_paths, leaf_at, link_between, link_to, may_meet, meets};
ghost use Rattle.lib_wiring.specs.Places.{AreLinked, ArePlaces, IsApart, IsMeeting};

use crate::leaf::{Interface, Leaf, Link, Links, WireStop};
use crate::places::{is_first, place_of, places_of};
use amh_bits::Int;
use design_ir::{Pool, SigId};
use std::alloc::Global;
use std::collections::BTreeMap;

/// The links that connect two interfaces of signals of the pool, in the order of the first. `Unconnectable` comes exactly
/// where a path is not of both, or where at a path the widths or the inits differ or both leaves lead out.
pub fn connect(
    alloc: Global,
    pool: &Pool,
    first: &Interface,
    second: &Interface,
) -> Result<Links, WireStop>
    requires first { AreSignals pool.now.signals first.now }
    requires second { AreSignals pool.now.signals second.now }
    ensures links { IfOk result (λ links. connected pool.now.signals first.now second.now ≡ Some links) }
    ensures stop { IfErr result (IsOwed (connected pool.now.signals first.now second.now)) }
{
    let (first, second) = (first.as_slice(), second.as_slice());
    let Ok(firsts) = places_of(alloc, first) else {
        return Err(WireStop::NoMemory);
    };
    if !have_paths(&firsts, first, second) {
        return Err(WireStop::Unconnectable);
    }
    let Ok(seconds) = places_of(alloc, second) else {
        return Err(WireStop::NoMemory);
    };
    link_all(alloc, pool, first, &firsts, second, &seconds)
}

// Whether each path of the second interface is one of the first.
fn have_paths(firsts: &BTreeMap<String, usize>, first: &[Leaf], second: &[Leaf]) -> bool
    requires { ArePlaces first.now firsts.now }
    ensures { result ≡ have_paths first.now second.now }
{
    for leaf in second {
        if place_of(firsts, leaf.path.as_str()).is_none() {
            return false;
        }
    }
    true
}

// Whether two signals have one width and one init.
fn agree(pool: &Pool, a: SigId, b: SigId) -> bool
    requires a { a.0 < length pool.now.signals }
    requires b { b.0 < length pool.now.signals }
    ensures { result ≡ agree pool.now.signals a.0 b.0 }
{
    let (a, b) = (pool.sig_at(a), pool.sig_at(b));
    a.shape.width == b.shape.width && is_same(a.init, b.init)
}

fn is_same(a: Int, b: Int) -> bool
    ensures { result ≡ int_eq a b }
{
    a == b
}

// Whether two leaves may meet.
fn may_meet(pool: &Pool, leaf: &Leaf, other: &Leaf) -> bool
    requires leaf { leaf.now.sig.0 < length pool.now.signals }
    requires other { other.now.sig.0 < length pool.now.signals }
    ensures { result ≡ may_meet pool.now.signals leaf.now other.now }
{
    agree(pool, leaf.sig, other.sig) && !(leaf.is_out && other.is_out)
}

// The link between two leaves that may meet.
fn link_between(leaf: &Leaf, other: &Leaf) -> Option<Link>
    ensures { result ≡ link_between leaf.now other.now }
{
    match (leaf.is_out, other.is_out) {
        (true, false) => Some(Link {
            target: other.expr,
            source: leaf.expr,
        }),
        (false, true) => Some(Link {
            target: leaf.expr,
            source: other.expr,
        }),
        _ => None,
    }
}

// What comes of a leaf that meets the other interface.
fn meet(
    pool: &Pool,
    leaf: &Leaf,
    second: &[Leaf],
    seconds: &BTreeMap<String, usize>,
) -> Result<Option<Link>, WireStop>
    requires leaf { leaf.now.sig.0 < length pool.now.signals }
    requires second { AreSignals pool.now.signals second.now }
    requires seconds { ArePlaces second.now seconds.now }
    ensures { IsMeeting result (meets pool.now.signals leaf.now (leaf_at leaf.now.path second.now)) (link_to second.now leaf.now) }
{
    let place = match place_of(seconds, leaf.path.as_str()) {
        Some(place) => place,
        None => return Err(WireStop::Unconnectable),
    };
    let other = &second[place];
    if may_meet(pool, leaf, other) {
        Ok(link_between(leaf, other))
    } else {
        Err(WireStop::Unconnectable)
    }
}

// Adds the link, if there is one.
fn add(links: &mut Links, link: Option<Link>) -> Result<(), WireStop>
    ensures ok { OnOk result (links.new ≡ links.old ++ option_to_list link) }
    ensures err { IfErr result (λ stop. stop ≡ WireStop.NoMemory) }
{
    let Some(link) = link else {
        return Ok(());
    };
    match links.push(link) {
        Ok(()) => Ok(()),
        Err(_) => Err(WireStop::NoMemory),
    }
}

// The links of the leaves that count, all of which have to meet the other interface.
fn link_all(
    alloc: Global,
    pool: &Pool,
    first: &[Leaf],
    firsts: &BTreeMap<String, usize>,
    second: &[Leaf],
    seconds: &BTreeMap<String, usize>,
) -> Result<Links, WireStop>
    requires first { AreSignals pool.now.signals first.now }
    requires second { AreSignals pool.now.signals second.now }
    requires firsts { ArePlaces first.now firsts.now }
    requires seconds { ArePlaces second.now seconds.now }
    ensures met { IfOk result (AreLinked pool.now.signals (first_leaves first.now) second.now) }
    ensures apart { IfErr result (IsApart (all_meet pool.now.signals (first_leaves first.now) second.now)) }
{
    let mut links = Links::new(alloc);
    for (i, leaf) in first.iter().enumerate() {
        if is_first(firsts, leaf.path.as_str(), i) {
            let link = match meet(pool, leaf, second, seconds) {
                Ok(link) => link,
                Err(stop) => return Err(stop),
            };
            add(&mut links, link)?;
        }
    }
    Ok(links)
}
