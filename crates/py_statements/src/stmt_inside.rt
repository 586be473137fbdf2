// `with`: the block inside.
ghost use Rattle.std.specs.Prelude.{◌≡◌, ◌<◌, ◌≤◌, option_map, OnOk};
ghost use Rattle.py_tree.specs.Seen.{tree};
ghost use Rattle.py_tree.specs.Programs.{step_of, steps_of};
ghost use Rattle.py_tree.specs.Tree.{perhaps};
ghost use Rattle.py_tree.specs.Steps.{With};
ghost use Rattle.py_frames.specs.Doing.{on_next};
ghost use Rattle.py_frames.specs.Stmt_frames.{with_entered, with_bound};
ghost use Rattle.py_frames.specs.Frames.{GoesOn};

use py_frames::frame::{Frame, Now, StmtFrame};
use py_frames::functions::Functions;
use py_frames::going::Going;
use py_frames::state::{Got, Halt};
use py_heap::Frozen;
use py_tree::{Block, Expr, Stmt, StmtKind};
use py_turns::block::{block_under, leaves};
use py_turns::stmt_plain::comes;
use py_values::Val;
use py_walks::target_turns::assign_under;

/// A thing was entered: what that gave goes to the target, where there is one.
#[tactic(auto)]
pub fn with_entered(
    going: &mut Going,
    functions: &Functions,
    frozen: &Frozen,
    s: &Stmt,
    thing: Val,
    v: Val,
    budget: u64,
) -> Result<Now, Halt>
    requires { going.old.state.used < budget }
    ensures moves { GoesOn functions.now frozen.now result going.old going.new budget (λ k. with_entered k thing (step_of s.now) v) }
    ensures left { OnOk result (going.new.state.used < budget) }
    ensures grows { going.old.state.used ≤ going.new.state.used }
{
    match &*s.kind {
        StmtKind::With {
            context,
            target,
            body,
        } => {
            with_target(
                going, functions, frozen, s, context, target, body, thing, v, budget,
            )
        }
        _ => comes(going, functions, frozen, Got::Next, budget),
    }
}

#[tactic(auto, using(crate::proofs::InsideLaws::target_rules))]
fn with_target(
    going: &mut Going,
    functions: &Functions,
    frozen: &Frozen,
    s: &Stmt,
    _context: &Expr,
    target: &Option<Expr>,
    body: &Block,
    thing: Val,
    v: Val,
    budget: u64,
) -> Result<Now, Halt>
    requires lives { going.old.state.used < budget }
    requires kind { step_of s.now ≡ With s.now.place (tree _context.now) (perhaps (option_map tree target.now)) (steps_of body.now) }
    ensures moves { GoesOn functions.now frozen.now result going.old going.new budget (λ k. with_entered k thing (step_of s.now) v) }
    ensures left { OnOk result (going.new.state.used < budget) }
    ensures grows { going.old.state.used ≤ going.new.state.used }
{
    let Ok(stmt) = s.share() else {
        return Err(Halt::NoMemory);
    };
    match target {
        Some(t) => assign_under(
            going,
            functions,
            frozen,
            t,
            v,
            Frame::Stmt(StmtFrame::WithBound { stmt, thing }),
            budget,
        ),
        None => block_under(
            going,
            functions,
            frozen,
            body,
            Frame::Stmt(StmtFrame::WithBody {
                thing,
                place: s.place,
            }),
            budget,
        ),
    }
}

/// The value that entering gave went to the target.
#[tactic(auto, using(crate::proofs::InsideLaws::bound_rules))]
pub fn with_bound(
    going: &mut Going,
    functions: &Functions,
    frozen: &Frozen,
    s: &Stmt,
    thing: Val,
    got: Got,
    budget: u64,
) -> Result<Now, Halt>
    ensures moves { GoesOn functions.now frozen.now result going.old going.new budget (λ k. on_next got (with_bound k thing (step_of s.now))) }
    ensures state { going.new.state ≡ going.old.state }
{
    if leaves(&got) {
        return comes(going, functions, frozen, got, budget);
    }
    with_inside(going, functions, frozen, s, thing, budget)
}

// The block, and then the thing is left.
#[tactic(auto)]
fn with_inside(
    going: &mut Going,
    functions: &Functions,
    frozen: &Frozen,
    s: &Stmt,
    thing: Val,
    budget: u64,
) -> Result<Now, Halt>
    ensures moves { GoesOn functions.now frozen.now result going.old going.new budget (λ k. with_bound k thing (step_of s.now)) }
    ensures state { going.new.state ≡ going.old.state }
{
    match &*s.kind {
        StmtKind::With {
            context: _,
            target: _,
            body,
        } => {
            block_under(
                going,
                functions,
                frozen,
                body,
                Frame::Stmt(StmtFrame::WithBody {
                    thing,
                    place: s.place,
                }),
                budget,
            )
        }
        _ => comes(going, functions, frozen, Got::Next, budget),
    }
}
