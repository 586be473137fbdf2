// Imports: the names of a module, one after the other, or all of them.
ghost use Rattle.std.specs.Prelude.{◌≡◌, map};
ghost use Rattle.py_tree.specs.Programs.{step_of, import_of};
ghost use Rattle.py_tree.specs.Steps.{Import, ImportAll};
ghost use Rattle.std.specs.Option.{option_copied};
ghost use Rattle.py_heap.specs.Heaps.{seen};
ghost use Rattle.py_frames.specs.Statements.{imported, dotted, is_module, stands_in_module, all_asked};
ghost use Rattle.py_frames.specs.Stmt_begun.{run_after};
ghost use Rattle.py_frames.specs.Stmt_frames.{imports_from, imported_at};
ghost use Rattle.py_frames.specs.Frames.{GoesOn};

use crate::import_words::{import_at, import_request, imported_as};
use py_frames::frame::{Frame, Now, StmtFrame};
use py_frames::functions::Functions;
use py_frames::going::Going;
use py_frames::request::Cause;
use py_frames::state::{Got, Halt};
use py_heap::Frozen;
use py_tree::{Imported, Name, Stmt, StmtKind};
use py_turns::call_leaf::ask_under;
use py_turns::expr_values::bind;
use py_turns::stmt_plain::{comes, stops};
use py_values::{Scope, Val};

// Whether a scope is the module's.
fn is_module(found: Option<&Scope>) -> bool
    ensures { result ≡ is_module (option_copied found.entry) }
{
    match found {
        Some(scope) => scope.enclosing.is_none(),
        None => false,
    }
}

// Whether the evaluation stands in the module.
fn stands_in_module(going: &Going, frozen: &Frozen) -> bool
    ensures { result ≡ stands_in_module (seen frozen.now going.now.state.heap) going.now.state.here.scope }
{
    is_module(going.state.heap.scope_at(frozen, going.state.here.scope))
}

/// All names of a module, in a module.
#[tactic(auto, using(crate::proofs::ImportLaws::within_rules))]
pub fn begun_import_all(
    going: &mut Going,
    functions: &Functions,
    frozen: &Frozen,
    s: &Stmt,
    path: &Vec<Name>,
    budget: u64,
) -> Result<Now, Halt>
    requires { step_of s.now ≡ ImportAll s.now.place path.now.items }
    ensures moves { GoesOn functions.now frozen.now result going.old going.new budget (λ k. run_after k (step_of s.now)) }
    ensures state { going.new.state ≡ going.old.state }
{
    let inside = stands_in_module(going, frozen);
    if inside {
        return all_asked(going, functions, frozen, s, path, budget);
    }
    stops(going, functions, frozen, Cause::Raised, s.place, budget)
}

// The store is asked for all names.
#[tactic(auto, using(crate::proofs::ImportLaws::all_rules))]
fn all_asked(
    going: &mut Going,
    functions: &Functions,
    frozen: &Frozen,
    s: &Stmt,
    path: &Vec<Name>,
    budget: u64,
) -> Result<Now, Halt>
    ensures moves { GoesOn functions.now frozen.now result going.old going.new budget (λ k. all_asked k (dotted path.now.items) s.now.place) }
    ensures state { going.new.state ≡ going.old.state }
{
    let place = s.place;
    let Ok(request) = import_request(going.alloc, path.as_slice(), "*", place) else {
        return Err(Halt::NoMemory);
    };
    ask_under(
        going,
        functions,
        frozen,
        Frame::Stmt(StmtFrame::AllImported { place }),
        request,
        budget,
    )
}

/// The first of the imported names.
#[tactic(auto, using(crate::proofs::ImportLaws::begin_rules))]
pub fn begun_import(
    going: &mut Going,
    functions: &Functions,
    frozen: &Frozen,
    s: &Stmt,
    path: &Vec<Name>,
    names: &Vec<Imported>,
    budget: u64,
) -> Result<Now, Halt>
    requires { step_of s.now ≡ Import s.now.place path.now.items (map import_of names.now.items) }
    ensures moves { GoesOn functions.now frozen.now result going.old going.new budget (λ k. run_after k (step_of s.now)) }
    ensures state { going.new.state ≡ going.old.state }
{
    import_turn(going, functions, frozen, s, path, names, 0, budget)
}

// The imported names from this number on: the first of them is asked for.
#[tactic(auto, using(crate::proofs::ImportLaws::turn_rules))]
fn import_turn(
    going: &mut Going,
    functions: &Functions,
    frozen: &Frozen,
    s: &Stmt,
    path: &Vec<Name>,
    names: &Vec<Imported>,
    n: u64,
    budget: u64,
) -> Result<Now, Halt>
    requires { step_of s.now ≡ Import s.now.place path.now.items (map import_of names.now.items) }
    ensures moves { GoesOn functions.now frozen.now result going.old going.new budget (λ k. imported k (dotted path.now.items) s.now.place (imports_from n (map import_of names.now.items))) }
    ensures state { going.new.state ≡ going.old.state }
{
    let Some(wanted) = import_at(names, n) else {
        return comes(going, functions, frozen, Got::Next, budget);
    };
    let Ok(stmt) = s.share() else {
        return Err(Halt::NoMemory);
    };
    let Ok(request) = import_request(going.alloc, path.as_slice(), wanted.name.as_str(), s.place)
    else {
        return Err(Halt::NoMemory);
    };
    ask_under(
        going,
        functions,
        frozen,
        Frame::Stmt(StmtFrame::Imported { stmt, at: n }),
        request,
        budget,
    )
}

/// The imported name of this number has come.
#[tactic(auto)]
pub fn import_came(
    going: &mut Going,
    functions: &Functions,
    frozen: &Frozen,
    s: &Stmt,
    n: u64,
    v: Val,
    budget: u64,
) -> Result<Now, Halt>
    ensures moves { GoesOn functions.now frozen.now result going.old going.new budget (λ k. imported_at k n (step_of s.now) v) }
    ensures used { going.new.state.used ≡ going.old.state.used }
{
    match &*s.kind {
        StmtKind::Import(path, names) => {
            import_bound(going, functions, frozen, s, path, names, n, v, budget)
        }
        _ => comes(going, functions, frozen, Got::Next, budget),
    }
}

// It is bound, and the next one is asked for.
#[tactic(auto, using(crate::proofs::ImportLaws::bound_rules))]
fn import_bound(
    going: &mut Going,
    functions: &Functions,
    frozen: &Frozen,
    s: &Stmt,
    path: &Vec<Name>,
    names: &Vec<Imported>,
    n: u64,
    v: Val,
    budget: u64,
) -> Result<Now, Halt>
    requires { step_of s.now ≡ Import s.now.place path.now.items (map import_of names.now.items) }
    ensures moves { GoesOn functions.now frozen.now result going.old going.new budget (λ k. imported_at k n (step_of s.now) v) }
    ensures used { going.new.state.used ≡ going.old.state.used }
{
    let Some(wanted) = import_at(names, n) else {
        return comes(going, functions, frozen, Got::Next, budget);
    };
    match bind(going, frozen, imported_as(wanted).as_str(), v, s.place) {
        Ok(()) => import_turn(going, functions, frozen, s, path, names, n + 1, budget),
        Err(halt) => Err(halt),
    }
}
