// `with`: a thing is entered, and left whatever its block comes to.
ghost use Rattle.std.specs.Prelude.{◌≡◌, ◌<◌, option_map};
ghost use Rattle.py_tree.specs.Seen.{tree};
ghost use Rattle.py_tree.specs.Programs.{step_of, steps_of};
ghost use Rattle.py_tree.specs.Tree.{perhaps};
ghost use Rattle.py_tree.specs.Steps.{With};
ghost use Rattle.py_frames.specs.Statements.{left_with};
ghost use Rattle.py_frames.specs.Stmt_begun.{run_after};
ghost use Rattle.py_frames.specs.Stmt_frames.{with_came};
ghost use Rattle.py_frames.specs.Frames.{GoesOn};

use amh_host::Place;
use py_frames::frame::{Frame, Now, StmtFrame};
use py_frames::functions::Functions;
use py_frames::going::{Going, wait_for};
use py_frames::leaf::copied;
use py_frames::request::{Act, Cause};
use py_frames::state::{Got, Halt};
use py_heap::Frozen;
use py_tree::{Block, Expr, Stmt, StmtKind};
use py_turns::asks::request_of;
use py_turns::call_leaf::ask_under;
use py_turns::operators::is_thing;
use py_turns::stmt_plain::{comes, stops};
use py_values::Val;

/// `with`: its context.
#[tactic(auto, using(crate::proofs::WithLaws::begin_rules))]
pub fn begun_with(
    going: &mut Going,
    functions: &Functions,
    frozen: &Frozen,
    s: &Stmt,
    context: &Expr,
    _target: &Option<Expr>,
    _body: &Block,
    budget: u64,
) -> Result<Now, Halt>
    requires { step_of s.now ≡ With s.now.place (tree context.now) (perhaps (option_map tree _target.now)) (steps_of _body.now) }
    ensures moves { GoesOn functions.now frozen.now result going.old going.new budget (λ k. run_after k (step_of s.now)) }
    ensures state { going.new.state ≡ going.old.state }
{
    let Ok(stmt) = s.share() else {
        return Err(Halt::NoMemory);
    };
    wait_for(
        going,
        functions,
        frozen,
        context,
        Frame::Stmt(StmtFrame::With { stmt }),
        budget,
    )
}

/// The context of a `with` has come.
#[tactic(auto)]
pub fn with_came(
    going: &mut Going,
    functions: &Functions,
    frozen: &Frozen,
    s: &Stmt,
    x: Val,
    budget: u64,
) -> Result<Now, Halt>
    ensures moves { GoesOn functions.now frozen.now result going.old going.new budget (λ k. with_came k (step_of s.now) x) }
    ensures state { going.new.state ≡ going.old.state }
{
    match &*s.kind {
        StmtKind::With {
            context,
            target,
            body,
        } => {
            with_asked(
                going, functions, frozen, s, context, target, body, x, budget,
            )
        }
        _ => comes(going, functions, frozen, Got::Next, budget),
    }
}

#[tactic(auto, using(crate::proofs::WithLaws::asked_rules))]
fn with_asked(
    going: &mut Going,
    functions: &Functions,
    frozen: &Frozen,
    s: &Stmt,
    _context: &Expr,
    _target: &Option<Expr>,
    _body: &Block,
    x: Val,
    budget: u64,
) -> Result<Now, Halt>
    requires { step_of s.now ≡ With s.now.place (tree _context.now) (perhaps (option_map tree _target.now)) (steps_of _body.now) }
    ensures moves { GoesOn functions.now frozen.now result going.old going.new budget (λ k. with_came k (step_of s.now) x) }
    ensures state { going.new.state ≡ going.old.state }
{
    if !is_thing(&x) {
        return stops(going, functions, frozen, Cause::Raised, s.place, budget);
    }
    let Ok(stmt) = s.share() else {
        return Err(Halt::NoMemory);
    };
    let thing = copied(&x);
    let Ok(request) = request_of(going.alloc, Act::Enter, x, s.place) else {
        return Err(Halt::NoMemory);
    };
    ask_under(
        going,
        functions,
        frozen,
        Frame::Stmt(StmtFrame::Entered { stmt, thing }),
        request,
        budget,
    )
}

/// A `with` block is left: the store is told, and then what it came to stands.
#[tactic(auto, using(crate::proofs::WithLaws::left_rules))]
pub fn with_left(
    going: &mut Going,
    functions: &Functions,
    frozen: &Frozen,
    thing: Val,
    place: Place,
    got: Got,
    budget: u64,
) -> Result<Now, Halt>
    ensures moves { GoesOn functions.now frozen.now result going.old going.new budget (λ k. left_with k thing place got) }
    ensures state { going.new.state ≡ going.old.state }
{
    let Ok(request) = request_of(going.alloc, Act::Leave, thing, place) else {
        return Err(Halt::NoMemory);
    };
    ask_under(
        going,
        functions,
        frozen,
        Frame::Stmt(StmtFrame::Left { got }),
        request,
        budget,
    )
}
