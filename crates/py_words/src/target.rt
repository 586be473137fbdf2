// Which expressions can be assigned to.
ghost use Rattle.std.specs.Prelude.{◌≡◌, map, Bool, false, not};
ghost use Rattle.py_tree.specs.Tree.{trees, trailers as trailers_of};
ghost use Rattle.py_tree.specs.Seen.{tree, trailer_of};
ghost use Rattle.py_grammar.specs.Seen.{is_target, are_targets, ends_in_place, is_place, is_empty};

use py_tree::{Expr, ExprKind, Trailer};

fn is_assignable(trailer: &Trailer) -> bool
    ensures { result ≡ is_place (trailer_of trailer.now) }
{
    match trailer {
        Trailer::Attribute(_) | Trailer::Index(_) | Trailer::Slice { .. } => true,
        Trailer::Call(_) | Trailer::CallOf(_, _) => false,
    }
}

fn last_is_assignable(trailers: &[Trailer]) -> bool
    ensures { result ≡ ends_in_place false (trailers_of (map trailer_of trailers.now)) }
{
    let mut last = false;
    for trailer in trailers {
        last = is_assignable(trailer);
    }
    last
}

fn has_items(items: &[Expr]) -> bool
    ensures { result ≡ not (is_empty items.now) }
{
    match items {
        [] => false,
        [_, ..] => true,
    }
}

/// Whether it is a name, an attribute, an index, or a tuple of one or more targets.
#[cycle(target)]
#[tactic(auto, using(crate::proofs::Lists::some_there_trees))]
pub fn is_target(e: &Expr) -> bool
    ensures { result ≡ is_target (tree e.now) }
{
    match &*e.kind {
        ExprKind::Name(_) => true,
        ExprKind::Trailed(_, trailers) => last_is_assignable(trailers),
        ExprKind::Tuple(items) => has_items(items) && are_targets(items),
        _ => false,
    }
}

/// Whether each of them is a target.
#[cycle(target)]
pub fn are_targets(items: &[Expr]) -> bool
    ensures { result ≡ are_targets (trees (map tree items.now)) }
{
    for item in items {
        if !is_target(item) {
            return false;
        }
    }
    true
}
