// A class whose arguments are there: its base, its scope and its body.
ghost use Rattle.std.specs.Prelude.{◌≡◌, ◌∷◌, [], option_map, IfOk};
ghost use Rattle.py_tree.specs.Seen.{trailer_of};
ghost use Rattle.py_tree.specs.Programs.{step_of, steps_of};
ghost use Rattle.py_tree.specs.Steps.{Class, bases_of};
ghost use Rattle.py_heap.specs.Heaps.{seen};
ghost use Rattle.py_frames.specs.Own.{steps_names};
ghost use Rattle.py_frames.specs.Statements.{run_all, base_of, over_thing, ends_at_thing, are_keywords, class_begun, class_within};
ghost use Rattle.py_frames.specs.Values.{class_word};
ghost use Rattle.py_frames.specs.Def_frames.{class_given};
ghost use Rattle.py_definitions.specs.Def_begun.{class_inside};
ghost use Rattle.py_frames.specs.Frames.{GoesOn};

use amh_host::{Names, NoMemory};
use py_frames::boxed::Boxed;
use py_frames::frame::{DefFrame, Frame, Now};
use py_frames::functions::Functions;
use py_frames::going::Going;
use py_frames::own::own_names;
use py_frames::request::NamedVals;
use py_frames::scopes::seen_from;
use py_frames::state::{ClassBody, Got, Halt, Here};
use py_heap::{Frozen, Heap, Inherited};
use py_tree::{Block, Name, Stmt, StmtKind, Trailer};
use py_turns::block::block_under;
use py_turns::stmt_plain::comes;
use py_values::{OwnNames, ScopeId, Val, Vals};
use std::alloc::Global;
use std::mem;

// The base of a class, where it may have these arguments.
#[tactic(auto, using(crate::proofs::ClassLaws::base_rules))]
fn base_of(vals: &[Val]) -> Option<Val>
    ensures { result ≡ base_of vals.now }
{
    if vals.len() == 0 {
        return Some(Val::None);
    }
    if vals.len() == 1 {
        return one_base(vals[0]);
    }
    None
}

// The one argument of a class, where it may be its base.
fn one_base(v: Val) -> Option<Val>
    ensures { result ≡ base_of (v ∷ []) }
{
    match v {
        Val::Class(o) => Some(Val::Class(o)),
        Val::Hw(h) => Some(Val::Hw(h)),
        _ => None,
    }
}

// Whether a chain of bases ends at a thing.
fn ends_at_thing(found: Inherited) -> bool
    ensures { result ≡ ends_at_thing found }
{
    match found {
        Inherited::Thing(_) => true,
        _ => false,
    }
}

/// Whether a base is a thing or a class over one.
pub fn over_thing(heap: &Heap, frozen: &Frozen, base: &Val) -> bool
    ensures { result ≡ over_thing (seen frozen.now heap.now) base.now }
{
    match *base {
        Val::Hw(_) => true,
        Val::Class(o) => ends_at_thing(heap.inherited(frozen, o, "")),
        _ => false,
    }
}

/// Whether there are keywords.
pub fn are_keywords(keywords: &NamedVals) -> bool
    ensures { result ≡ are_keywords keywords.now }
{
    match keywords.as_slice() {
        [] => false,
        _ => true,
    }
}

/// The arguments of a class are there.
#[tactic(auto)]
pub fn class_given(
    going: &mut Going,
    functions: &Functions,
    frozen: &Frozen,
    s: &Stmt,
    vals: Vals,
    keywords: NamedVals,
    budget: u64,
) -> Result<Now, Halt>
    ensures moves { GoesOn functions.now frozen.now result going.old going.new budget (λ k. class_given k (step_of s.now) vals keywords) }
    ensures used { going.new.state.used ≡ going.old.state.used }
{
    match &*s.kind {
        StmtKind::Class {
            name,
            arguments,
            body,
        } => class_based(
            going, functions, frozen, s, name, arguments, body, vals, keywords, budget,
        ),
        _ => comes(going, functions, frozen, Got::Next, budget),
    }
}

// A class over what may be its base.
#[tactic(auto, using(crate::proofs::ClassLaws::based_rules))]
fn class_based(
    going: &mut Going,
    functions: &Functions,
    frozen: &Frozen,
    s: &Stmt,
    name: &Name,
    arguments: &Option<Trailer>,
    body: &Block,
    vals: Vals,
    keywords: NamedVals,
    budget: u64,
) -> Result<Now, Halt>
    requires { step_of s.now ≡ Class s.now.place name.now (bases_of (option_map trailer_of arguments.now)) (steps_of body.now) }
    ensures moves { GoesOn functions.now frozen.now result going.old going.new budget (λ k. class_given k (step_of s.now) vals keywords) }
    ensures used { going.new.state.used ≡ going.old.state.used }
{
    let base = base_of(vals.as_slice());
    class_begun(
        going, functions, frozen, s, name, arguments, body, base, keywords, budget,
    )
}

// The scope round its body is made, in which the class will stand.
#[tactic(auto, using(crate::proofs::ClassLaws::begun_rules))]
fn class_begun(
    going: &mut Going,
    functions: &Functions,
    frozen: &Frozen,
    s: &Stmt,
    name: &Name,
    arguments: &Option<Trailer>,
    body: &Block,
    base: Option<Val>,
    keywords: NamedVals,
    budget: u64,
) -> Result<Now, Halt>
    requires { step_of s.now ≡ Class s.now.place name.now (bases_of (option_map trailer_of arguments.now)) (steps_of body.now) }
    ensures moves { GoesOn functions.now frozen.now result going.old going.new budget (λ k. class_begun k base name.now keywords (steps_names (steps_of body.now)) (run_all k (steps_of body.now)) s.now.place) }
    ensures used { going.new.state.used ≡ going.old.state.used }
{
    let Ok(own) = class_alone(going.alloc) else {
        return Err(Halt::NoMemory);
    };
    let enclosing = seen_from(going, frozen);
    match going.state.heap.scope(frozen, enclosing, false, own) {
        Ok(round) => class_within(
            going, functions, frozen, s, name, arguments, body, round, base, keywords, budget,
        ),
        Err(_) => Err(Halt::NoMemory),
    }
}

// The name under which a class stands alone.
fn class_alone(alloc: Global) -> Result<OwnNames, NoMemory>
    ensures { IfOk result (λ own. own ≡ class_word ∷ []) }
{
    let mut names = Names::new(alloc);
    let Ok(()) = names.push("class") else {
        return Err(NoMemory);
    };
    OwnNames::new(alloc, names)
}

// The scope of its body is made.
#[tactic(auto, using(crate::proofs::ClassLaws::within_rules))]
fn class_within(
    going: &mut Going,
    functions: &Functions,
    frozen: &Frozen,
    s: &Stmt,
    name: &Name,
    arguments: &Option<Trailer>,
    body: &Block,
    round: ScopeId,
    base: Option<Val>,
    keywords: NamedVals,
    budget: u64,
) -> Result<Now, Halt>
    requires { step_of s.now ≡ Class s.now.place name.now (bases_of (option_map trailer_of arguments.now)) (steps_of body.now) }
    ensures moves { GoesOn functions.now frozen.now result going.old going.new budget (λ k. class_within k round base name.now keywords (steps_names (steps_of body.now)) (run_all k (steps_of body.now)) s.now.place) }
    ensures used { going.new.state.used ≡ going.old.state.used }
{
    let Ok(names) = own_names(going.alloc, body) else {
        return Err(Halt::NoMemory);
    };
    let Ok(own) = OwnNames::new(going.alloc, names) else {
        return Err(Halt::NoMemory);
    };
    match going.state.heap.scope(frozen, Some(round), true, own) {
        Ok(scope) => class_inside(
            going, functions, frozen, s, name, arguments, body, scope, base, keywords, budget,
        ),
        Err(_) => Err(Halt::NoMemory),
    }
}

// Its body runs in that scope, and a frame waits for what it leaves.
#[tactic(auto, using(crate::proofs::ClassLaws::inside_rules))]
fn class_inside(
    going: &mut Going,
    functions: &Functions,
    frozen: &Frozen,
    s: &Stmt,
    _name: &Name,
    _arguments: &Option<Trailer>,
    body: &Block,
    scope: ScopeId,
    base: Option<Val>,
    keywords: NamedVals,
    budget: u64,
) -> Result<Now, Halt>
    requires { step_of s.now ≡ Class s.now.place _name.now (bases_of (option_map trailer_of _arguments.now)) (steps_of body.now) }
    ensures moves { GoesOn functions.now frozen.now result going.old going.new budget (λ k. class_inside k scope base _name.now keywords (run_all k (steps_of body.now)) s.now.place) }
    ensures used { going.new.state.used ≡ going.old.state.used }
{
    let Ok(stmt) = s.share() else {
        return Err(Halt::NoMemory);
    };
    let here = Here {
        scope,
        first: None,
        body: Some(ClassBody {
            scope,
            bindings: NamedVals::new(going.alloc),
        }),
        notes: NamedVals::new(going.alloc),
        room: going.state.here.room,
    };
    let outer = mem::replace(&mut going.state.here, here);
    let Ok(outer) = Boxed::new(going.alloc, outer) else {
        return Err(Halt::NoMemory);
    };
    block_under(
        going,
        functions,
        frozen,
        body,
        Frame::Def(DefFrame::ClassBody {
            stmt,
            base,
            keywords,
            outer,
        }),
        budget,
    )
}
