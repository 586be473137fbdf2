// The end of a class: what its body leaves, the class, and its name.
ghost use Rattle.std.specs.Prelude.{◌≡◌, option_map, Some};
ghost use Rattle.py_tree.specs.Seen.{trailer_of};
ghost use Rattle.py_tree.specs.Programs.{step_of, steps_of};
ghost use Rattle.py_tree.specs.Steps.{Class, bases_of};
ghost use Rattle.py_heap.specs.Heaps.{seen};
ghost use Rattle.py_values.specs.Runs.{Answers, paired};
ghost use Rattle.py_frames.specs.Expressions.{seen_from};
ghost use Rattle.py_frames.specs.Statements.{as_base, kept_bindings, class_known, known_class, class_built, class_checked};
ghost use Rattle.py_frames.specs.Def_frames.{class_left, class_told};
ghost use Rattle.py_definitions.specs.Def_begun.{GoesUnder, class_over, is_next};
ghost use Rattle.py_frames.specs.Frames.{GoesOn};

use crate::class_words::class_request;
use crate::classes::{are_keywords, over_thing};
use py_frames::frame::{DefFrame, Frame, Now};
use py_frames::functions::Functions;
use py_frames::going::Going;
use py_frames::leaf::copied;
use py_frames::request::{Cause, NamedVals};
use py_frames::scopes::seen_of;
use py_frames::state::{ClassBody, Got, Halt, Here};
use py_heap::{Frozen, Heap};
use py_tree::{Block, Name, Stmt, StmtKind, Trailer};
use py_turns::binds::{name_bound, refused};
use py_turns::call_leaf::ask_under;
use py_turns::stmt_plain::{comes, stops};
use py_values::{ScopeId, Val, ValueStop};
use std::alloc::Global;
use std::mem;

// The base of a class, where it has one.
fn as_base(base: Val) -> Option<Val>
    ensures { result ≡ as_base base }
{
    match base {
        Val::None => None,
        v => Some(v),
    }
}

// Whether a body went to its end.
fn is_next(got: &Got) -> bool
    ensures { result ≡ is_next got.now }
{
    match got {
        Got::Next => true,
        _ => false,
    }
}

// What a class body has bound.
fn kept_bindings(alloc: Global, body: Option<ClassBody>) -> NamedVals
    ensures { result ≡ kept_bindings body }
{
    match body {
        Some(body) => body.bindings,
        None => NamedVals::new(alloc),
    }
}

// The scope round the scope of a class body.
fn scope_round(heap: &Heap, frozen: &Frozen, scope: ScopeId) -> Option<ScopeId>
    ensures { result ≡ seen_from (seen frozen.now heap.now) scope }
{
    seen_of(heap.scope_at(frozen, scope), scope)
}

// A class stands in the scope round its body.
#[tactic(auto, using(crate::proofs::ClassEnds::known_rules))]
fn class_known(
    heap: &mut Heap,
    frozen: &Frozen,
    round: Option<ScopeId>,
    c: Val,
) -> Result<Val, ValueStop>
    ensures { Answers (paired result heap.new) (class_known (seen frozen.now heap.old) round c) }
{
    let Some(round) = round else {
        return Ok(c);
    };
    match heap.bind(frozen, round, "class", copied(&c)) {
        Ok(()) => Ok(c),
        Err(stop) => Err(stop),
    }
}

// The class of what a scope binds, known to the functions of its body.
#[tactic(auto, using(crate::proofs::ClassEnds::known_rules))]
fn known_class(
    heap: &mut Heap,
    frozen: &Frozen,
    base: Option<Val>,
    scope: ScopeId,
) -> Result<Val, ValueStop>
    ensures { Answers (paired result heap.new) (known_class (seen frozen.now heap.old) base scope) }
{
    let round = scope_round(heap, frozen, scope);
    match heap.class(frozen, base, scope) {
        Ok(c) => class_known(heap, frozen, round, c),
        Err(stop) => Err(stop),
    }
}

/// What the body of a class left.
#[tactic(auto, using(crate::proofs::ClassEnds::under_no_memory))]
pub fn class_left(
    going: &mut Going,
    functions: &Functions,
    frozen: &Frozen,
    s: &Stmt,
    base: Option<Val>,
    keywords: NamedVals,
    outer: Here,
    got: Got,
    budget: u64,
) -> Result<Now, Halt>
    ensures moves { GoesUnder outer.room functions.now frozen.now result going.old going.new budget (λ k. class_left k (step_of s.now) base keywords outer got) }
    ensures used { going.new.state.used ≡ going.old.state.used }
{
    match &*s.kind {
        StmtKind::Class {
            name,
            arguments,
            body,
        } => class_ended(
            going, functions, frozen, s, name, arguments, body, base, keywords, outer, got, budget,
        ),
        _ => Err(Halt::NoMemory),
    }
}

// The evaluation stands outside again.
#[tactic(auto, using(crate::proofs::ClassEnds::ended_rules))]
fn class_ended(
    going: &mut Going,
    functions: &Functions,
    frozen: &Frozen,
    s: &Stmt,
    name: &Name,
    arguments: &Option<Trailer>,
    body: &Block,
    base: Option<Val>,
    keywords: NamedVals,
    outer: Here,
    got: Got,
    budget: u64,
) -> Result<Now, Halt>
    requires { step_of s.now ≡ Class s.now.place name.now (bases_of (option_map trailer_of arguments.now)) (steps_of body.now) }
    ensures moves { GoesUnder outer.room functions.now frozen.now result going.old going.new budget (λ k. class_left k (step_of s.now) base keywords outer got) }
    ensures used { going.new.state.used ≡ going.old.state.used }
{
    let inner = mem::replace(&mut going.state.here, outer);
    if is_next(&got) {
        return class_checked(
            going,
            functions,
            frozen,
            s,
            name,
            arguments,
            body,
            inner.scope,
            base,
            keywords,
            inner.notes,
            kept_bindings(going.alloc, inner.body),
            budget,
        );
    }
    comes(going, functions, frozen, got, budget)
}

// What may be no base raises.
fn class_checked(
    going: &mut Going,
    functions: &Functions,
    frozen: &Frozen,
    s: &Stmt,
    name: &Name,
    arguments: &Option<Trailer>,
    body: &Block,
    scope: ScopeId,
    base: Option<Val>,
    keywords: NamedVals,
    notes: NamedVals,
    bindings: NamedVals,
    budget: u64,
) -> Result<Now, Halt>
    requires { step_of s.now ≡ Class s.now.place name.now (bases_of (option_map trailer_of arguments.now)) (steps_of body.now) }
    ensures moves { GoesOn functions.now frozen.now result going.old going.new budget (λ k. class_checked k scope base name.now keywords notes bindings s.now.place) }
    ensures used { going.new.state.used ≡ going.old.state.used }
{
    match base {
        Some(base) => class_over_base(
            going, functions, frozen, s, name, arguments, body, scope, base, keywords, notes,
            bindings, budget,
        ),
        None => stops(going, functions, frozen, Cause::Raised, s.place, budget),
    }
}

// Keywords are for a thing alone.
#[tactic(auto, using(crate::proofs::ClassEnds::checked_rules))]
fn class_over_base(
    going: &mut Going,
    functions: &Functions,
    frozen: &Frozen,
    s: &Stmt,
    name: &Name,
    arguments: &Option<Trailer>,
    body: &Block,
    scope: ScopeId,
    base: Val,
    keywords: NamedVals,
    notes: NamedVals,
    bindings: NamedVals,
    budget: u64,
) -> Result<Now, Halt>
    requires { step_of s.now ≡ Class s.now.place name.now (bases_of (option_map trailer_of arguments.now)) (steps_of body.now) }
    ensures moves { GoesOn functions.now frozen.now result going.old going.new budget (λ k. class_checked k scope (Some base) name.now keywords notes bindings s.now.place) }
    ensures used { going.new.state.used ≡ going.old.state.used }
{
    if are_keywords(&keywords) && !over_thing(&going.state.heap, frozen, &base) {
        return stops(going, functions, frozen, Cause::Raised, s.place, budget);
    }
    class_built(
        going, functions, frozen, s, name, arguments, body, scope, base, keywords, notes, bindings,
        budget,
    )
}

// The class is made of what its body bound.
#[tactic(auto, using(crate::proofs::ClassEnds::built_rules))]
fn class_built(
    going: &mut Going,
    functions: &Functions,
    frozen: &Frozen,
    s: &Stmt,
    name: &Name,
    arguments: &Option<Trailer>,
    body: &Block,
    scope: ScopeId,
    base: Val,
    keywords: NamedVals,
    notes: NamedVals,
    bindings: NamedVals,
    budget: u64,
) -> Result<Now, Halt>
    requires { step_of s.now ≡ Class s.now.place name.now (bases_of (option_map trailer_of arguments.now)) (steps_of body.now) }
    ensures moves { GoesOn functions.now frozen.now result going.old going.new budget (λ k. class_built k scope base name.now keywords notes bindings s.now.place) }
    ensures used { going.new.state.used ≡ going.old.state.used }
{
    if over_thing(&going.state.heap, frozen, &base) {
        return class_over(
            going, functions, frozen, s, name, arguments, body, scope, base, keywords, notes,
            bindings, budget,
        );
    }
    match known_class(&mut going.state.heap, frozen, as_base(base), scope) {
        Ok(c) => name_bound(going, functions, frozen, name.as_str(), c, s.place, budget),
        Err(stop) => Err(refused(stop, s.place)),
    }
}

// A class over a thing, of which the store is told.
#[tactic(auto, using(crate::proofs::ClassEnds::over_rules))]
fn class_over(
    going: &mut Going,
    functions: &Functions,
    frozen: &Frozen,
    s: &Stmt,
    name: &Name,
    _arguments: &Option<Trailer>,
    _body: &Block,
    scope: ScopeId,
    base: Val,
    keywords: NamedVals,
    notes: NamedVals,
    bindings: NamedVals,
    budget: u64,
) -> Result<Now, Halt>
    requires { step_of s.now ≡ Class s.now.place name.now (bases_of (option_map trailer_of _arguments.now)) (steps_of _body.now) }
    ensures moves { GoesOn functions.now frozen.now result going.old going.new budget (λ k. class_over k scope base name.now keywords notes bindings s.now.place) }
    ensures used { going.new.state.used ≡ going.old.state.used }
{
    let Ok(stmt) = s.share() else {
        return Err(Halt::NoMemory);
    };
    match known_class(&mut going.state.heap, frozen, as_base(copied(&base)), scope) {
        Err(stop) => Err(refused(stop, s.place)),
        Ok(c) => {
            let Ok(request) = class_request(
                going.alloc,
                c,
                base,
                name.as_str(),
                &keywords,
                &notes,
                &bindings,
                s.place,
            ) else {
                return Err(Halt::NoMemory);
            };
            ask_under(
                going,
                functions,
                frozen,
                Frame::Def(DefFrame::ClassTold { stmt }),
                request,
                budget,
            )
        }
    }
}

/// What the store makes of a class has come: it is bound.
#[tactic(auto)]
pub fn class_told(
    going: &mut Going,
    functions: &Functions,
    frozen: &Frozen,
    s: &Stmt,
    v: Val,
    budget: u64,
) -> Result<Now, Halt>
    ensures moves { GoesOn functions.now frozen.now result going.old going.new budget (λ k. class_told k (step_of s.now) v) }
    ensures used { going.new.state.used ≡ going.old.state.used }
{
    match &*s.kind {
        StmtKind::Class {
            name,
            arguments: _,
            body: _,
        } => name_bound(going, functions, frozen, name.as_str(), v, s.place, budget),
        _ => comes(going, functions, frozen, Got::Next, budget),
    }
}
