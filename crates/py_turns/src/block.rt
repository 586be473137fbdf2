// Blocks: statements one after the other.
ghost use Rattle.std.specs.Prelude.{map, ◌≡◌, ◌<◌, ◌+◌, IfOk, MatchOption};
ghost use Rattle.py_tree.specs.Programs.{step_of, steps_of};
ghost use Rattle.py_tree.specs.Steps.{last, next, steps};
ghost use Rattle.py_frames.specs.Parts.{steps_from};
ghost use Rattle.py_frames.specs.Doing.{on_next};
ghost use Rattle.py_frames.specs.Statements.{run_all};
ghost use Rattle.py_frames.specs.Stmt_begun.{leaves, value_come, loop_left};
ghost use Rattle.py_frames.specs.Frames.{GoesOn, KeepsRoom, within};

use crate::stmt_plain::comes;
use amh_host::NoMemory;
use py_frames::frame::{Frame, Now, StmtFrame};
use py_frames::functions::Functions;
use py_frames::going::{Going, wait_for_step};
use py_frames::state::{Got, Halt};
use py_heap::Frozen;
use py_tree::{Block, Stmt};
use py_values::Val;

// The statement of this number, and none past the last.
#[tactic(auto, using(crate::proofs::BlockLaws::step_rules))]
fn stmt_at(stmts: &Vec<Stmt>, n: u64) -> Result<Option<Stmt>, NoMemory>
    ensures { IfOk result (λ found. MatchOption found (steps_from n (steps (map step_of stmts.now.items)) ≡ last) (λ s. (steps_from n (steps (map step_of stmts.now.items)) ≡ next (step_of s) (steps_from (n + 1) (steps (map step_of stmts.now.items)))) × (n < 18446744073709551615))) }
{
    if n >= stmts.len() as u64 {
        return Ok(None);
    }
    match stmts[n as usize].share() {
        Ok(s) => Ok(Some(s)),
        Err(_) => Err(NoMemory),
    }
}

// The statement of this number of a block, and none past its end.
fn step_at(block: &Block, n: u64) -> Result<Option<Stmt>, NoMemory>
    ensures { IfOk result (λ found. MatchOption found (steps_from n (steps_of block.now) ≡ last) (λ s. (steps_from n (steps_of block.now) ≡ next (step_of s) (steps_from (n + 1) (steps_of block.now))) × (n < 18446744073709551615))) }
{
    stmt_at(&block.stmts, n)
}

/// Whether what has come leaves a block.
pub fn leaves(got: &Got) -> bool
    ensures { result ≡ leaves got.now }
{
    match got {
        Got::Broke => true,
        Got::Continued => true,
        Got::Returned(_) => true,
        _ => false,
    }
}

/// The value that has come.
pub fn value_come(got: &Got) -> Option<Val>
    ensures { result ≡ value_come got.now }
{
    match got {
        Got::Value(v) => Some(*v),
        _ => None,
    }
}

/// What a loop comes to where a turn ends it.
pub fn loop_left(got: &Got) -> Option<Got>
    ensures { result ≡ loop_left got.now }
{
    match got {
        Got::Returned(v) => Some(Got::Returned(*v)),
        Got::Broke => Some(Got::Next),
        _ => None,
    }
}

/// The statements of a block from this number on.
#[tactic(auto, using(crate::proofs::BlockLaws::block_rules))]
pub fn block_from(
    going: &mut Going,
    functions: &Functions,
    frozen: &Frozen,
    block: Block,
    n: u64,
    budget: u64,
) -> Result<Now, Halt>
    ensures moves { GoesOn functions.now frozen.now result going.old going.new budget (λ k. run_all k (steps_from n (steps_of block))) }
    ensures state { going.new.state ≡ going.old.state }
{
    match step_at(&block, n) {
        Err(_) => Err(Halt::NoMemory),
        Ok(None) => comes(going, functions, frozen, Got::Next, budget),
        Ok(Some(s)) => {
            let next = n + 1;
            wait_for_step(
                going,
                functions,
                frozen,
                &s,
                Frame::Stmt(StmtFrame::Block { block, next }),
                budget,
            )
        }
    }
}

/// A whole block.
#[tactic(auto, using(crate::proofs::BlockLaws::block_rules))]
pub fn run_block(
    going: &mut Going,
    functions: &Functions,
    frozen: &Frozen,
    block: &Block,
    budget: u64,
) -> Result<Now, Halt>
    ensures moves { GoesOn functions.now frozen.now result going.old going.new budget (λ k. run_all k (steps_of block.now)) }
    ensures state { going.new.state ≡ going.old.state }
{
    match block.share() {
        Ok(block) => block_from(going, functions, frozen, block, 0, budget),
        Err(_) => Err(Halt::NoMemory),
    }
}

/// A whole block; a frame waits for what it comes to.
#[tactic(auto, using(crate::proofs::BlockLaws::block_rules))]
pub fn block_under(
    going: &mut Going,
    functions: &Functions,
    frozen: &Frozen,
    block: &Block,
    frame: Frame,
    budget: u64,
) -> Result<Now, Halt>
    requires { KeepsRoom frame going.old.state.here.room }
    ensures moves { GoesOn functions.now frozen.now result going.old going.new budget (within frame (λ k. run_all k (steps_of block.now))) }
    ensures state { going.new.state ≡ going.old.state }
{
    match going.frames.push(frame) {
        Ok(()) => run_block(going, functions, frozen, block, budget),
        Err(_) => Err(Halt::NoMemory),
    }
}

/// A statement of a block left this, and then come those from this number on.
#[tactic(auto, using(py_frames::proofs::StmtGoes::left_rules))]
pub fn block_came(
    going: &mut Going,
    functions: &Functions,
    frozen: &Frozen,
    block: Block,
    n: u64,
    got: Got,
    budget: u64,
) -> Result<Now, Halt>
    ensures moves { GoesOn functions.now frozen.now result going.old going.new budget (λ k. on_next got (run_all k (steps_from n (steps_of block)))) }
    ensures state { going.new.state ≡ going.old.state }
{
    if leaves(&got) {
        return comes(going, functions, frozen, got, budget);
    }
    block_from(going, functions, frozen, block, n, budget)
}
