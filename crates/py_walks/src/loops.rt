// `for`: what it goes over, and then its turns.
ghost use Rattle.std.specs.Prelude.{◌≡◌, ◌<◌, ◌≤◌, OnOk};
ghost use Rattle.py_tree.specs.Seen.{tree};
ghost use Rattle.py_tree.specs.Programs.{step_of, steps_of};
ghost use Rattle.py_tree.specs.Steps.{For};
ghost use Rattle.py_heap.specs.Heaps.{seen};
ghost use Rattle.py_frames.specs.Expressions.{row_size};
ghost use Rattle.py_frames.specs.Stmt_begun.{run_after};
ghost use Rattle.py_frames.specs.Stmt_frames.{for_source, for_bound};
ghost use Rattle.py_frames.specs.Frames.{GoesOn};

use py_frames::frame::{Frame, Now, StmtFrame, Walk};
use py_frames::functions::Functions;
use py_frames::going::{Going, wait_for};
use py_frames::state::Halt;
use py_heap::Frozen;
use py_tree::{Block, Expr, Stmt};
use py_turns::attribute_store::as_row;
use py_turns::block::run_block;
use py_values::Val;

/// Begins a `for`: its source.
#[tactic(auto, using(crate::proofs::ForLaws::begin_rules))]
pub fn for_begun(
    going: &mut Going,
    functions: &Functions,
    frozen: &Frozen,
    s: &Stmt,
    _targets: &Expr,
    source: &Expr,
    _body: &Block,
    budget: u64,
) -> Result<Now, Halt>
    requires { step_of s.now ≡ For s.now.place (tree _targets.now) (tree source.now) (steps_of _body.now) }
    ensures moves { GoesOn functions.now frozen.now result going.old going.new budget (λ k. run_after k (step_of s.now)) }
    ensures state { going.new.state ≡ going.old.state }
{
    let Ok(stmt) = s.share() else {
        return Err(Halt::NoMemory);
    };
    wait_for(
        going,
        functions,
        frozen,
        source,
        Frame::Stmt(StmtFrame::ForSource { stmt }),
        budget,
    )
}

#[tactic(auto, using(crate::proofs::ForLaws::source_rules))]
pub fn for_source(
    going: &mut Going,
    functions: &Functions,
    frozen: &Frozen,
    s: &Stmt,
    _targets: &Expr,
    _source: &Expr,
    _body: &Block,
    v: Val,
    budget: u64,
) -> Result<Now, Halt>
    requires lives { going.old.state.used < budget }
    requires kind { step_of s.now ≡ For s.now.place (tree _targets.now) (tree _source.now) (steps_of _body.now) }
    ensures moves { GoesOn functions.now frozen.now result going.old going.new budget (λ k. for_source k (step_of s.now) v) }
    ensures left { OnOk result (going.new.state.used < budget) }
    ensures grows { going.old.state.used ≤ going.new.state.used }
{
    let Ok(stmt) = s.share() else {
        return Err(Halt::NoMemory);
    };
    match going.frames.push(Frame::Stmt(StmtFrame::ForRow { stmt })) {
        Ok(()) => as_row(going, functions, frozen, v, s.place, budget),
        Err(_) => Err(Halt::NoMemory),
    }
}

// The number of items of a dict, which stays the same while it is gone over.
pub fn row_size(going: &Going, frozen: &Frozen, v: &Val) -> u64
    ensures { result ≡ row_size (seen frozen.now going.now.state.heap) v.now }
{
    match v {
        Val::Dict(o) => going.state.heap.row(frozen, *o).len() as u64,
        _ => 0,
    }
}

#[tactic(auto, using(crate::proofs::ForLaws::under_rules))]
pub fn for_body_under(
    going: &mut Going,
    functions: &Functions,
    frozen: &Frozen,
    s: &Stmt,
    _targets: &Expr,
    _source: &Expr,
    body: &Block,
    walk: Walk,
    budget: u64,
) -> Result<Now, Halt>
    requires lives { going.old.state.used < budget }
    requires kind { step_of s.now ≡ For s.now.place (tree _targets.now) (tree _source.now) (steps_of body.now) }
    ensures moves { GoesOn functions.now frozen.now result going.old going.new budget (λ k. for_bound k walk (step_of s.now)) }
    ensures left { OnOk result (going.new.state.used < budget) }
    ensures grows { going.old.state.used ≤ going.new.state.used }
{
    let Ok(stmt) = s.share() else {
        return Err(Halt::NoMemory);
    };
    match going
        .frames
        .push(Frame::Stmt(StmtFrame::ForBody { stmt, walk }))
    {
        Ok(()) => run_block(going, functions, frozen, body, budget),
        Err(_) => Err(Halt::NoMemory),
    }
}
