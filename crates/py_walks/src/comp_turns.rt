// Comprehensions: their source, and then an element after the other in a scope of their own.
ghost use Rattle.std.specs.Prelude.{◌≡◌, ◌<◌, ◌≤◌, ◌++◌, [], ◌∷◌, true, Some, OnOk};
ghost use Rattle.py_tree.specs.Seen.{tree};
ghost use Rattle.py_tree.specs.Tree.{present};
ghost use Rattle.py_operators.specs.Elements.{element};
ghost use Rattle.py_frames.specs.declared.frame.Frame.TheVariants as frame;
ghost use Rattle.py_frames.specs.declared.frame.Purpose.TheVariants.{Plain};
ghost use Rattle.py_frames.specs.declared.frame.WalkFrame.TheVariants as frame_of;
ghost use Rattle.py_frames.specs.Doing.{on_next};
ghost use Rattle.py_frames.specs.Expressions.{back_in, is_row, value_of};
ghost use Rattle.py_frames.specs.Walk_frames.{comp_of, with_comp, comp_over, walks_on, all_made, tested_by, made_came, pair_came, condition_of};
ghost use Rattle.py_walks.specs.Walk_parts.{comp_seen, element_turn, where_made};
ghost use Rattle.py_frames.specs.Frames.{GoesOn, within};

use crate::comprehensions::{element_at, element_begun, element_bound, enter_scope};
use crate::loops::row_size;
use crate::target_turns::assign_under;
use crate::walk_parts::{CompItem, CompParts, behind, comp_of, is_row, may_be_key};
use py_frames::boxed::Boxed;
use py_frames::frame::{Comprehended, Frame, Now, Walk, WalkFrame};
use py_frames::functions::Functions;
use py_frames::going::{Going, MOST, new_list, spend, stopped, wait_for};
use py_frames::leaf::{PartAt, place_of};
use py_frames::request::Cause;
use py_frames::state::{Got, Halt};
use py_heap::Frozen;
use py_tree::Expr;
use py_turns::block::leaves;
use py_turns::expr_values::{new_dict, truth};
use py_values::{ScopeId, Val, Vals};

/// What a comprehension goes over has come.
#[tactic(auto, using(crate::proofs::CompLaws::row_rules))]
pub fn source_row_came(
    going: &mut Going,
    functions: &Functions,
    frozen: &Frozen,
    comp: Comprehended,
    row: Val,
    budget: u64,
) -> Result<Now, Halt>
    requires { going.old.state.used < budget }
    ensures moves { GoesOn functions.now frozen.now result going.old going.new budget (λ k. with_comp (comp_of comp) (λ x. comp_over k x row)) }
    ensures left { OnOk result (going.new.state.used < budget) }
    ensures grows { going.old.state.used ≤ going.new.state.used }
{
    match comp_of(&comp) {
        PartAt::NoMemory => Err(Halt::NoMemory),
        PartAt::Past => Ok(Now::Came(Got::Next)),
        PartAt::Part(parts) => comp_row(going, functions, frozen, comp, &parts, row, budget),
    }
}

// Over a value, where one may go over it.
#[tactic(auto, using(crate::proofs::CompLaws::fit_rules))]
pub fn comp_row(
    going: &mut Going,
    functions: &Functions,
    frozen: &Frozen,
    comp: Comprehended,
    parts: &CompParts,
    row: Val,
    budget: u64,
) -> Result<Now, Halt>
    requires lives { going.old.state.used < budget }
    requires kind { comp_of comp ≡ Some (comp_seen parts.now) }
    ensures moves { GoesOn functions.now frozen.now result going.old going.new budget (λ k. comp_over k (comp_seen parts.now) row) }
    ensures left { OnOk result (going.new.state.used < budget) }
    ensures grows { going.old.state.used ≤ going.new.state.used }
{
    let fits = is_row(&row);
    if fits {
        return comp_over(going, functions, frozen, comp, parts, row, budget);
    }
    Err(stopped(Cause::Raised, parts.place))
}

// Over a value in a scope of its own.
#[tactic(auto, using(crate::proofs::CompLaws::over_rules))]
pub fn comp_over(
    going: &mut Going,
    functions: &Functions,
    frozen: &Frozen,
    comp: Comprehended,
    parts: &CompParts,
    row: Val,
    budget: u64,
) -> Result<Now, Halt>
    requires lives { going.old.state.used < budget }
    requires kind { comp_of comp ≡ Some (comp_seen parts.now) }
    requires row { is_row row ≡ true }
    ensures moves { GoesOn functions.now frozen.now result going.old going.new budget (λ k. comp_over k (comp_seen parts.now) row) }
    ensures left { OnOk result (going.new.state.used < budget) }
    ensures grows { going.old.state.used ≤ going.new.state.used }
{
    let size = row_size(going, frozen, &row);
    let outer = going.state.here.scope;
    match enter_scope(going, frozen, &parts.targets) {
        Ok(_) => {
            let walk = Walk {
                over: row,
                next: 0,
                size,
                turns: MOST,
            };
            let done = Vals::new(going.alloc);
            walks_on(
                going, functions, frozen, comp, parts, &walk, outer, done, budget,
            )
        }
        Err(halt) => Err(halt),
    }
}

// The elements behind those of a walk, where the dict that is gone over has kept its size.
#[tactic(auto, using(crate::proofs::CompLaws::walk_rules))]
pub fn walks_on(
    going: &mut Going,
    functions: &Functions,
    frozen: &Frozen,
    comp: Comprehended,
    parts: &CompParts,
    walk: &Walk,
    outer: ScopeId,
    done: Vals,
    budget: u64,
) -> Result<Now, Halt>
    requires lives { going.old.state.used < budget }
    requires kind { comp_of comp ≡ Some (comp_seen parts.now) }
    ensures moves { GoesOn functions.now frozen.now result going.old going.new budget (λ k. walks_on k (comp_seen parts.now) walk.now outer done) }
    ensures left { OnOk result (going.new.state.used < budget) }
    ensures grows { going.old.state.used ≤ going.new.state.used }
{
    if walk.turns == 0 {
        return Err(stopped(Cause::Spent, parts.place));
    }
    if row_size(going, frozen, &walk.over) != walk.size {
        return Err(stopped(Cause::Raised, parts.place));
    }
    match element_at(going, frozen, walk) {
        Some(v) => element_turn(
            going, functions, frozen, comp, parts, walk, outer, done, v, budget,
        ),
        None => walk_ends(going, functions, frozen, parts, outer, done, budget),
    }
}

// What the elements become, back in the scope of before.
#[tactic(auto, using(crate::proofs::CompLaws::end_rules))]
pub fn walk_ends(
    going: &mut Going,
    functions: &Functions,
    frozen: &Frozen,
    parts: &CompParts,
    outer: ScopeId,
    done: Vals,
    budget: u64,
) -> Result<Now, Halt>
    requires { going.old.state.used < budget }
    ensures moves { GoesOn functions.now frozen.now result going.old going.new budget (λ k. back_in outer (all_made k (comp_seen parts.now).element parts.now.place done)) }
    ensures left { OnOk result (going.new.state.used < budget) }
    ensures grows { going.old.state.used ≤ going.new.state.used }
{
    going.state.here.scope = outer;
    match &parts.item {
        CompItem::One(_) => new_list(going, functions, frozen, done, parts.place, budget),
        CompItem::Two(_, _) => new_dict(going, functions, frozen, done, parts.place, budget),
    }
}

// A turn spends its unit, and its element goes to the targets.
#[tactic(auto, using(crate::proofs::CompLaws::turn_rules))]
pub fn element_turn(
    going: &mut Going,
    functions: &Functions,
    frozen: &Frozen,
    comp: Comprehended,
    parts: &CompParts,
    walk: &Walk,
    outer: ScopeId,
    done: Vals,
    v: Val,
    budget: u64,
) -> Result<Now, Halt>
    requires lives { going.old.state.used < budget }
    requires kind { comp_of comp ≡ Some (comp_seen parts.now) }
    requires turns { 0 < walk.now.turns }
    ensures moves { GoesOn functions.now frozen.now result going.old going.new budget (λ k. element_turn k (comp_seen parts.now) walk.now outer done v) }
    ensures left { OnOk result (going.new.state.used < budget) }
    ensures grows { going.old.state.used ≤ going.new.state.used }
{
    let Ok(walk) = behind(walk) else {
        return Err(Halt::NoMemory);
    };
    match spend(going, 1, parts.place, budget) {
        Ok(()) => {
            let frame = Frame::Walk(WalkFrame::Bound {
                comp,
                walk,
                done,
                outer,
            });
            assign_under(going, functions, frozen, &parts.targets, v, frame, budget)
        }
        Err(halt) => Err(halt),
    }
}

/// An element went to the targets: it is made, where the condition holds.
#[tactic(auto, using(crate::proofs::WalkLaws::left_rules))]
pub fn bound_left(
    going: &mut Going,
    functions: &Functions,
    frozen: &Frozen,
    comp: Comprehended,
    walk: Walk,
    done: Vals,
    outer: ScopeId,
    got: Got,
    budget: u64,
) -> Result<Now, Halt>
    requires { going.old.state.used < budget }
    ensures moves { GoesOn functions.now frozen.now result going.old going.new budget (λ k. on_next got (with_comp (comp_of comp) (λ x. where_made k x walk outer done))) }
    ensures left { OnOk result (going.new.state.used < budget) }
    ensures grows { going.old.state.used ≤ going.new.state.used }
{
    let left = leaves(&got);
    if left {
        return Ok(Now::Came(got));
    }
    element_bound(going, functions, frozen, comp, walk, done, outer, budget)
}

/// The condition has come.
#[tactic(auto, using(crate::proofs::CompLaws::tested_rules))]
pub fn tested_came(
    going: &mut Going,
    functions: &Functions,
    frozen: &Frozen,
    comp: Comprehended,
    walk: Walk,
    done: Vals,
    outer: ScopeId,
    v: Val,
    budget: u64,
) -> Result<Now, Halt>
    requires { going.old.state.used < budget }
    ensures moves { GoesOn functions.now frozen.now result going.old going.new budget (λ k. with_comp (comp_of comp) (λ x. tested_by k x walk outer done (condition_of x.source) v)) }
    ensures left { OnOk result (going.new.state.used < budget) }
    ensures grows { going.old.state.used ≤ going.new.state.used }
{
    match comp_of(&comp) {
        PartAt::NoMemory => Err(Halt::NoMemory),
        PartAt::Past => Ok(Now::Came(Got::Next)),
        PartAt::Part(parts) => tested(
            going, functions, frozen, comp, &parts, walk, done, outer, v, budget,
        ),
    }
}

#[tactic(auto, using(crate::proofs::CompLaws::truth_rules))]
pub fn tested(
    going: &mut Going,
    functions: &Functions,
    frozen: &Frozen,
    comp: Comprehended,
    parts: &CompParts,
    walk: Walk,
    done: Vals,
    outer: ScopeId,
    v: Val,
    budget: u64,
) -> Result<Now, Halt>
    requires lives { going.old.state.used < budget }
    requires kind { comp_of comp ≡ Some (comp_seen parts.now) }
    ensures moves { GoesOn functions.now frozen.now result going.old going.new budget (λ k. tested_by k (comp_seen parts.now) walk outer done (condition_of (comp_seen parts.now).source) v) }
    ensures left { OnOk result (going.new.state.used < budget) }
    ensures grows { going.old.state.used ≤ going.new.state.used }
{
    match &parts.condition {
        None => walks_on(
            going, functions, frozen, comp, parts, &walk, outer, done, budget,
        ),
        Some(test) => tested_truth(
            going, functions, frozen, comp, parts, test, walk, done, outer, v, budget,
        ),
    }
}

// The element, where this condition is true.
#[tactic(auto, using(crate::proofs::CompLaws::truth_rules))]
pub fn tested_truth(
    going: &mut Going,
    functions: &Functions,
    frozen: &Frozen,
    comp: Comprehended,
    parts: &CompParts,
    test: &Expr,
    walk: Walk,
    done: Vals,
    outer: ScopeId,
    v: Val,
    budget: u64,
) -> Result<Now, Halt>
    requires lives { going.old.state.used < budget }
    requires kind { comp_of comp ≡ Some (comp_seen parts.now) }
    requires test { condition_of (comp_seen parts.now).source ≡ present (tree test.now) }
    ensures moves { GoesOn functions.now frozen.now result going.old going.new budget (λ k. tested_by k (comp_seen parts.now) walk outer done (condition_of (comp_seen parts.now).source) v) }
    ensures left { OnOk result (going.new.state.used < budget) }
    ensures grows { going.old.state.used ≤ going.new.state.used }
{
    match truth(going, frozen, v, place_of(test)) {
        Ok(holds) => {
            if holds {
                return element_begun(
                    going, functions, frozen, comp, parts, walk, done, outer, budget,
                );
            }
            walks_on(
                going, functions, frozen, comp, parts, &walk, outer, done, budget,
            )
        }
        Err(halt) => Err(halt),
    }
}

/// The element has come, or its key.
#[tactic(auto, using(crate::proofs::CompLaws::came_rules))]
pub fn made_came(
    going: &mut Going,
    functions: &Functions,
    frozen: &Frozen,
    comp: Comprehended,
    walk: Walk,
    done: Vals,
    outer: ScopeId,
    v: Val,
    budget: u64,
) -> Result<Now, Halt>
    requires { going.old.state.used < budget }
    ensures moves { GoesOn functions.now frozen.now result going.old going.new budget (λ k. with_comp (comp_of comp) (λ x. made_came k x x.element walk outer done v)) }
    ensures left { OnOk result (going.new.state.used < budget) }
    ensures grows { going.old.state.used ≤ going.new.state.used }
{
    match comp_of(&comp) {
        PartAt::NoMemory => Err(Halt::NoMemory),
        PartAt::Past => Ok(Now::Came(Got::Next)),
        PartAt::Part(parts) => match &parts.item {
            CompItem::One(_) => one_more(
                going, functions, frozen, comp, &parts, walk, done, outer, v, budget,
            ),
            CompItem::Two(_, value) => value_begun(
                going, functions, frozen, value, comp, walk, done, outer, v, budget,
            ),
        },
    }
}

// The value of a key begins.
#[tactic(auto, using(py_frames::proofs::BeginLaws::no_memory))]
fn value_begun(
    going: &mut Going,
    functions: &Functions,
    frozen: &Frozen,
    value: &Expr,
    comp: Comprehended,
    walk: Walk,
    done: Vals,
    outer: ScopeId,
    key: Val,
    budget: u64,
) -> Result<Now, Halt>
    ensures moves { GoesOn functions.now frozen.now result going.old going.new budget (within (frame.Walk (frame_of.PairMade comp walk done outer key)) (λ k. value_of k Plain (tree value.now))) }
    ensures state { going.new.state ≡ going.old.state }
{
    let Ok(walk) = Boxed::new(going.alloc, walk) else {
        return Err(Halt::NoMemory);
    };
    let frame = Frame::Walk(WalkFrame::PairMade {
        comp,
        walk,
        done,
        outer,
        key,
    });
    wait_for(going, functions, frozen, value, frame, budget)
}

// One element more, and on with the walk.
#[tactic(auto, using(crate::proofs::CompLaws::more_rules))]
pub fn one_more(
    going: &mut Going,
    functions: &Functions,
    frozen: &Frozen,
    comp: Comprehended,
    parts: &CompParts,
    walk: Walk,
    mut done: Vals,
    outer: ScopeId,
    v: Val,
    budget: u64,
) -> Result<Now, Halt>
    requires lives { going.old.state.used < budget }
    requires kind { comp_of comp ≡ Some (comp_seen parts.now) }
    ensures moves { GoesOn functions.now frozen.now result going.old going.new budget (λ k. walks_on k (comp_seen parts.now) walk outer (done ++ v ∷ [])) }
    ensures left { OnOk result (going.new.state.used < budget) }
    ensures grows { going.old.state.used ≤ going.new.state.used }
{
    match done.push(v) {
        Ok(()) => walks_on(
            going, functions, frozen, comp, parts, &walk, outer, done, budget,
        ),
        Err(_) => Err(Halt::NoMemory),
    }
}

/// The value of a key has come.
#[tactic(auto, using(crate::proofs::CompLaws::pair_rules))]
pub fn pair_made_came(
    going: &mut Going,
    functions: &Functions,
    frozen: &Frozen,
    comp: Comprehended,
    walk: Walk,
    done: Vals,
    outer: ScopeId,
    key: Val,
    v: Val,
    budget: u64,
) -> Result<Now, Halt>
    requires { going.old.state.used < budget }
    ensures moves { GoesOn functions.now frozen.now result going.old going.new budget (λ k. with_comp (comp_of comp) (λ x. pair_came k x walk outer done key v)) }
    ensures left { OnOk result (going.new.state.used < budget) }
    ensures grows { going.old.state.used ≤ going.new.state.used }
{
    match comp_of(&comp) {
        PartAt::NoMemory => Err(Halt::NoMemory),
        PartAt::Past => Ok(Now::Came(Got::Next)),
        PartAt::Part(parts) => one_pair_more(
            going, functions, frozen, comp, &parts, walk, done, outer, key, v, budget,
        ),
    }
}

// One key more with its value, where it may be a key, and on with the walk.
#[tactic(auto, using(crate::proofs::CompLaws::key_rules))]
pub fn one_pair_more(
    going: &mut Going,
    functions: &Functions,
    frozen: &Frozen,
    comp: Comprehended,
    parts: &CompParts,
    walk: Walk,
    done: Vals,
    outer: ScopeId,
    key: Val,
    v: Val,
    budget: u64,
) -> Result<Now, Halt>
    requires lives { going.old.state.used < budget }
    requires kind { comp_of comp ≡ Some (comp_seen parts.now) }
    ensures moves { GoesOn functions.now frozen.now result going.old going.new budget (λ k. pair_came k (comp_seen parts.now) walk outer done key v) }
    ensures left { OnOk result (going.new.state.used < budget) }
    ensures grows { going.old.state.used ≤ going.new.state.used }
{
    let may_be = may_be_key(&key);
    if may_be {
        return pair_pushed(
            going, functions, frozen, comp, parts, walk, done, outer, key, v, budget,
        );
    }
    Err(stopped(Cause::Raised, parts.place))
}

#[tactic(auto, using(crate::proofs::CompLaws::more_rules))]
pub fn pair_pushed(
    going: &mut Going,
    functions: &Functions,
    frozen: &Frozen,
    comp: Comprehended,
    parts: &CompParts,
    walk: Walk,
    mut done: Vals,
    outer: ScopeId,
    key: Val,
    v: Val,
    budget: u64,
) -> Result<Now, Halt>
    requires lives { going.old.state.used < budget }
    requires kind { comp_of comp ≡ Some (comp_seen parts.now) }
    ensures moves { GoesOn functions.now frozen.now result going.old going.new budget (λ k. walks_on k (comp_seen parts.now) walk outer (done ++ key ∷ v ∷ [])) }
    ensures left { OnOk result (going.new.state.used < budget) }
    ensures grows { going.old.state.used ≤ going.new.state.used }
{
    match done.push_pair(key, v) {
        Ok(()) => walks_on(
            going, functions, frozen, comp, parts, &walk, outer, done, budget,
        ),
        Err(_) => Err(Halt::NoMemory),
    }
}
