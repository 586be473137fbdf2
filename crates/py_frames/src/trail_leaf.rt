// Parts of what trails a primary, by their numbers.
ghost use Rattle.std.specs.Prelude.{◌≡◌, IfOk, false, map};
ghost use Rattle.std.specs.Option.{option_copied, option_map};
ghost use Rattle.py_tree.specs.Seen.{tree, trailer_of};
ghost use Rattle.py_tree.specs.Tree.{trailers};
ghost use Rattle.py_frames.specs.Parts.{place_of, trailers_from};
ghost use Rattle.py_frames.specs.Expressions.{purpose_at, is_call, is_a_call, ends_in_call};
ghost use Rattle.py_frames.specs.Call_frames.{trailers_of};
ghost use Rattle.py_frames.specs.Trailing.{first_trailer, ended};

use crate::frame::Purpose;
use amh_host::{NoMemory, Place};
use py_tree::{Expr, ExprKind, Trailer};

/// The place of a node.
pub fn place_at(node: &Expr) -> Place
    ensures { result ≡ place_of (tree node.now) }
{
    match &*node.kind {
        ExprKind::Name(_) => node.place,
        ExprKind::Number(_) => node.place,
        ExprKind::Decimal(_) => node.place,
        ExprKind::Quotient(_, _) => node.place,
        ExprKind::Str(_) => node.place,
        ExprKind::Format(_) => node.place,
        ExprKind::Constant(_) => node.place,
        ExprKind::Tuple(_) => node.place,
        ExprKind::List(_) => node.place,
        ExprKind::Dict(_) => node.place,
        ExprKind::ListOf(_, _) => node.place,
        ExprKind::DictOf(_, _) => node.place,
        ExprKind::Trailed(_, _) => node.place,
        ExprKind::Await(_) => node.place,
        ExprKind::Power(_, _) => node.place,
        ExprKind::Unary(_, _) => node.place,
        ExprKind::Not(_) => node.place,
        ExprKind::Binary(_, _) => node.place,
        ExprKind::Compare(_, _) => node.place,
        ExprKind::Boolean(_, _) => node.place,
        ExprKind::Choice { .. } => node.place,
    }
}

// The trailer of a number.
#[tactic(auto, using(crate::proofs::TrailLaws::trailer_get))]
fn trailer_in(list: &[Trailer], at: u64) -> Option<&Trailer>
    ensures { option_map trailer_of (option_copied result) ≡ first_trailer (trailers_from at (trailers (map trailer_of list.now))) }
{
    list.get(at as usize)
}

/// What trails at a number.
#[tactic(auto, using(crate::proofs::TrailLaws::trailer_none))]
pub fn trailer_at(node: &Expr, at: u64) -> Option<&Trailer>
    ensures { option_map trailer_of (option_copied result) ≡ first_trailer (trailers_from at (trailers_of (tree node.now))) }
{
    match &*node.kind {
        ExprKind::Trailed(_, trailers) => trailer_in(trailers.as_slice(), at),
        _ => None,
    }
}

/// One more of what a value is for.
pub fn share_purpose(purpose: &Purpose) -> Result<Purpose, NoMemory>
    ensures { IfOk result (λ more. more ≡ purpose.now) }
{
    match purpose {
        Purpose::Plain => Ok(Purpose::Plain),
        Purpose::Named(name) => match name.share() {
            Ok(name) => Ok(Purpose::Named(name)),
            Err(_) => Err(NoMemory),
        },
        Purpose::Awaited(place) => Ok(Purpose::Awaited(*place)),
    }
}

/// What the value of the trailer before this number is for.
#[tactic(auto, using(crate::proofs::TrailLaws::purpose_rules))]
pub fn purpose_before(node: &Expr, at: u64, purpose: &Purpose) -> Result<Purpose, NoMemory>
    ensures { IfOk result (λ more. more ≡ purpose_at (trailers_from at (trailers_of (tree node.now))) purpose.now) }
{
    match trailer_at(node, at) {
        Some(_) => Ok(Purpose::Plain),
        None => share_purpose(purpose),
    }
}

fn is_call(trailer: &Trailer) -> bool
    ensures { result ≡ is_call (trailer_of trailer.now) }
{
    match trailer {
        Trailer::Attribute(_) => false,
        Trailer::Call(_) => true,
        Trailer::CallOf(_, _) => true,
        Trailer::Index(_) => false,
        Trailer::Slice { .. } => false,
    }
}

// Whether the last of them is a call, by a walk over all.
fn last_is_call(list: &[Trailer]) -> bool
    ensures { result ≡ ended false (trailers (map trailer_of list.now)) }
{
    let mut is = false;
    for t in list {
        is = is_call(t);
    }
    is
}

// Whether the last of them is a call.
#[tactic(auto, using(crate::proofs::TrailLaws::ended_call))]
fn call_is_last(list: &[Trailer]) -> bool
    ensures { result ≡ ends_in_call (trailers (map trailer_of list.now)) }
{
    last_is_call(list)
}

/// Whether a node is a call.
pub fn ends_in_call(node: &Expr) -> bool
    ensures { result ≡ is_a_call (tree node.now) }
{
    match &*node.kind {
        ExprKind::Trailed(_, trailers) => call_is_last(trailers.as_slice()),
        _ => false,
    }
}
