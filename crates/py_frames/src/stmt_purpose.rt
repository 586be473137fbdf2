// What the value of an assignment is for: its first target, where that is a name or an attribute.
ghost use Rattle.std.specs.Prelude.{◌≡◌, ◌<◌, map, IfOk};
ghost use Rattle.py_tree.specs.Seen.{tree, trailer_of};
ghost use Rattle.py_tree.specs.Tree.{trees, trailers, no_trailer};
ghost use Rattle.py_frames.specs.declared.frame.Purpose.TheVariants.{Named};
ghost use Rattle.py_frames.specs.Statements.{purpose_of, target_purpose, trailers_purpose, trailer_purpose};

use crate::frame::Purpose;
use amh_host::NoMemory;
use py_tree::{Expr, ExprKind, Name, Trailer};

// For this name.
fn named(name: &Name) -> Result<Purpose, NoMemory>
    ensures { IfOk result (λ u. u ≡ Named name.now) }
{
    match name.share() {
        Ok(name) => Ok(Purpose::Named(name)),
        Err(e) => Err(e),
    }
}

// For what trails last.
#[tactic(auto, using(crate::proofs::PurposeLaws::last_rules))]
fn trailers_purpose(trailing: &Vec<Trailer>) -> Result<Purpose, NoMemory>
    ensures { IfOk result (λ u. u ≡ trailers_purpose (trailers (map trailer_of trailing.now.items))) }
{
    let count = trailing.len();
    if count > 0 {
        let Ok(purpose) = trailer_purpose(&trailing[count - 1]) else {
            return Err(NoMemory);
        };
        return Ok(purpose);
    }
    Ok(Purpose::Plain)
}

// For one that trails.
fn trailer_purpose(trailer: &Trailer) -> Result<Purpose, NoMemory>
    ensures { IfOk result (λ u. u ≡ trailer_purpose (trailer_of trailer.now) no_trailer) }
{
    match trailer {
        Trailer::Attribute(name) => named(name),
        _ => Ok(Purpose::Plain),
    }
}

/// For a target.
pub fn target_purpose(target: &Expr) -> Result<Purpose, NoMemory>
    ensures { IfOk result (λ u. u ≡ target_purpose (tree target.now)) }
{
    match &*target.kind {
        ExprKind::Name(name) => named(name),
        ExprKind::Trailed(_, trailing) => trailers_purpose(trailing),
        _ => Ok(Purpose::Plain),
    }
}

/// For the first of the targets.
#[tactic(auto, using(crate::proofs::PurposeLaws::first_rules))]
pub fn purpose_of(targets: &Vec<Expr>) -> Result<Purpose, NoMemory>
    ensures { IfOk result (λ u. u ≡ purpose_of (trees (map tree targets.now.items))) }
{
    if targets.len() > 0 {
        let Ok(purpose) = target_purpose(&targets[0]) else {
            return Err(NoMemory);
        };
        return Ok(purpose);
    }
    Ok(Purpose::Plain)
}
