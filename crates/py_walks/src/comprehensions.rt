// Comprehensions: their source, and then an element after the other in a scope of their own.
ghost use Rattle.std.specs.Prelude.{◌≡◌, ◌<◌, ◌≤◌, Some, OnOk};
ghost use Rattle.py_tree.specs.Seen.{tree};
ghost use Rattle.py_heap.specs.Heaps.{seen};
ghost use Rattle.py_operators.specs.Elements.{element};
ghost use Rattle.py_frames.specs.Own.{target_names};
ghost use Rattle.py_frames.specs.Expr_parts.{comp_begun};
ghost use Rattle.py_frames.specs.Walk_frames.{comp_of, with_comp, walks_on, element_made};
ghost use Rattle.py_walks.specs.Walk_parts.{comp_seen, Entered, row_over, where_made};
ghost use Rattle.py_frames.specs.Frames.{GoesOn};

use crate::walk_parts::{CompParts, comp_of, target_names};
use py_frames::frame::{Comprehended, Frame, Now, Walk, WalkFrame};
use py_frames::functions::Functions;
use py_frames::going::{Going, wait_for};
use py_frames::leaf::PartAt;
use py_frames::scopes::seen_from;
use py_frames::state::{Got, Halt};
use py_heap::Frozen;
use py_operators::element;
use py_tree::Expr;
use py_turns::attribute_store::as_row;
use py_values::{OwnNames, ScopeId, Val, Vals};

/// Begins a comprehension: its source, which stands outside its scope.
#[tactic(auto, using(crate::proofs::CompLaws::begin_rules))]
pub fn begun_comprehension(
    going: &mut Going,
    functions: &Functions,
    frozen: &Frozen,
    comp: Comprehended,
    budget: u64,
) -> Result<Now, Halt>
    requires { going.old.state.used < budget }
    ensures moves { GoesOn functions.now frozen.now result going.old going.new budget (λ k. comp_begun k comp) }
    ensures left { OnOk result (going.new.state.used < budget) }
    ensures grows { going.old.state.used ≤ going.new.state.used }
{
    match comp_of(&comp) {
        PartAt::NoMemory => Err(Halt::NoMemory),
        PartAt::Past => Ok(Now::Came(Got::Next)),
        PartAt::Part(parts) => {
            let frame = Frame::Walk(WalkFrame::Source { comp });
            wait_for(going, functions, frozen, &parts.source, frame, budget)
        }
    }
}

/// The source of a comprehension has come: a thing gives its elements first.
#[tactic(auto, using(crate::proofs::CompLaws::source_rules))]
pub fn source_came(
    going: &mut Going,
    functions: &Functions,
    frozen: &Frozen,
    comp: Comprehended,
    v: Val,
    budget: u64,
) -> Result<Now, Halt>
    requires { going.old.state.used < budget }
    ensures moves { GoesOn functions.now frozen.now result going.old going.new budget (λ k. with_comp (comp_of comp) (row_over k v)) }
    ensures left { OnOk result (going.new.state.used < budget) }
    ensures grows { going.old.state.used ≤ going.new.state.used }
{
    match comp_of(&comp) {
        PartAt::NoMemory => Err(Halt::NoMemory),
        PartAt::Past => Ok(Now::Came(Got::Next)),
        PartAt::Part(parts) => {
            match going
                .frames
                .push(Frame::Walk(WalkFrame::SourceRow { comp }))
            {
                Ok(()) => as_row(going, functions, frozen, v, parts.place, budget),
                Err(_) => Err(Halt::NoMemory),
            }
        }
    }
}

// The evaluation stands in a new scope, whose own names are those of these targets.
pub fn enter_scope(going: &mut Going, frozen: &Frozen, targets: &Expr) -> Result<ScopeId, Halt>
    ensures moves { Entered result frozen.now (target_names (tree targets.now)) going.old going.new }
    ensures used { going.new.state.used ≡ going.old.state.used }
{
    let Ok(names) = target_names(going.alloc, targets) else {
        return Err(Halt::NoMemory);
    };
    let Ok(own) = OwnNames::new(going.alloc, names) else {
        return Err(Halt::NoMemory);
    };
    let around = seen_from(going, frozen);
    match going.state.heap.scope(frozen, around, false, own) {
        Ok(scope) => {
            going.state.here.scope = scope;
            Ok(scope)
        }
        Err(_) => Err(Halt::NoMemory),
    }
}

/// The next element of a walk.
pub fn element_at(going: &Going, frozen: &Frozen, walk: &Walk) -> Option<Val>
    ensures { result ≡ element (seen frozen.now going.now.state.heap) walk.now.over walk.now.next }
{
    element(&going.state.heap, frozen, walk.over, walk.next as usize)
}

// An element's targets have it.
#[tactic(auto, using(crate::proofs::CompLaws::bound_rules))]
pub fn element_bound(
    going: &mut Going,
    functions: &Functions,
    frozen: &Frozen,
    comp: Comprehended,
    walk: Walk,
    done: Vals,
    outer: ScopeId,
    budget: u64,
) -> Result<Now, Halt>
    requires { going.old.state.used < budget }
    ensures moves { GoesOn functions.now frozen.now result going.old going.new budget (λ k. with_comp (comp_of comp) (λ x. where_made k x walk outer done)) }
    ensures left { OnOk result (going.new.state.used < budget) }
    ensures grows { going.old.state.used ≤ going.new.state.used }
{
    match comp_of(&comp) {
        PartAt::NoMemory => Err(Halt::NoMemory),
        PartAt::Past => Ok(Now::Came(Got::Next)),
        PartAt::Part(parts) => match &parts.condition {
            None => element_begun(
                going, functions, frozen, comp, &parts, walk, done, outer, budget,
            ),
            Some(test) => {
                let frame = Frame::Walk(WalkFrame::Tested {
                    comp,
                    walk,
                    done,
                    outer,
                });
                wait_for(going, functions, frozen, test, frame, budget)
            }
        },
    }
}

// The element that is made, or its key.
#[tactic(auto, using(crate::proofs::CompLaws::made_rules))]
pub fn element_begun(
    going: &mut Going,
    functions: &Functions,
    frozen: &Frozen,
    comp: Comprehended,
    parts: &CompParts,
    walk: Walk,
    done: Vals,
    outer: ScopeId,
    budget: u64,
) -> Result<Now, Halt>
    requires { comp_of comp ≡ Some (comp_seen parts.now) }
    ensures moves { GoesOn functions.now frozen.now result going.old going.new budget (λ k. element_made k (comp_seen parts.now).place (comp_seen parts.now).element done (walks_on k (comp_seen parts.now) walk outer)) }
    ensures state { going.new.state ≡ going.old.state }
{
    let frame = Frame::Walk(WalkFrame::Made {
        comp,
        walk,
        done,
        outer,
    });
    wait_for(going, functions, frozen, parts.item.first(), frame, budget)
}
