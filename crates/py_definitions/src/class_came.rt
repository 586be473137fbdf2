// The arguments of a class: each that has come.
ghost use Rattle.std.specs.Prelude.{◌≡◌, ◌<◌, ◌≤◌, ◌+◌, ◌++◌, ◌∷◌, [], OnOk};
ghost use Rattle.py_tree.specs.Programs.{step_of};
ghost use Rattle.py_frames.specs.Parts.{arguments_from};
ghost use Rattle.py_frames.specs.Functions.{named_val};
ghost use Rattle.py_frames.specs.Values.{as_row};
ghost use Rattle.py_frames.specs.Expressions.{arguments_then, once_named};
ghost use Rattle.py_frames.specs.Call_frames.{argument_came, elements_came};
ghost use Rattle.py_frames.specs.Def_frames.{class_arguments, class_place, class_given};
ghost use Rattle.py_definitions.specs.Def_begun.{class_starred};
ghost use Rattle.py_frames.specs.Frames.{GoesOn};

use crate::class_arguments::{class_argument, class_arguments_turn};
use crate::classes::class_given;
use amh_host::Place;
use py_frames::frame::{DefFrame, Frame, Now};
use py_frames::functions::Functions;
use py_frames::going::Going;
use py_frames::keyword::is_given;
use py_frames::request::NamedVals;
use py_frames::state::Halt;
use py_heap::Frozen;
use py_operators::elements;
use py_tree::{Argument, Name, Stmt, StmtKind};
use py_turns::attribute_store::as_row;
use py_turns::binds::refused;
use py_turns::call_leaf::raise;
use py_turns::expr_values::named_val;
use py_values::{Val, Vals};

// The place of a class.
fn class_place(s: &Stmt) -> Place
    ensures { result ≡ class_place (step_of s.now) }
{
    match &*s.kind {
        StmtKind::Class {
            name: _,
            arguments: _,
            body: _,
        } => s.place,
        _ => Place { line: 0, col: 0 },
    }
}

/// The argument of this number has come.
#[tactic(auto, using(crate::proofs::ClassLaws::came_rules))]
pub fn class_argument_came(
    going: &mut Going,
    functions: &Functions,
    frozen: &Frozen,
    s: &Stmt,
    n: u64,
    vals: Vals,
    keywords: NamedVals,
    v: Val,
    budget: u64,
) -> Result<Now, Halt>
    requires { going.old.state.used < budget }
    ensures moves { GoesOn functions.now frozen.now result going.old going.new budget (λ k. argument_came k (class_place (step_of s.now)) vals keywords (arguments_from n (class_arguments (step_of s.now))) v (class_given k (step_of s.now))) }
    ensures left { OnOk result (going.new.state.used < budget) }
    ensures grows { going.old.state.used ≤ going.new.state.used }
{
    let Some(g) = class_argument(s, n) else {
        return class_given(going, functions, frozen, s, vals, keywords, budget);
    };
    match g {
        Argument::Positional(_) => {
            class_positional(
                going,
                functions,
                frozen,
                s,
                n + 1,
                vals,
                keywords,
                v,
                budget,
            )
        }
        Argument::Starred(_) => {
            class_starred(going, functions, frozen, s, n, vals, keywords, v, budget)
        }
        Argument::Keyword(name, _) => {
            class_keyword(
                going,
                functions,
                frozen,
                s,
                n + 1,
                vals,
                keywords,
                name,
                v,
                budget,
            )
        }
    }
}

// One in order, before those from this number on.
#[tactic(auto, using(crate::proofs::ClassLaws::next_rules))]
fn class_positional(
    going: &mut Going,
    functions: &Functions,
    frozen: &Frozen,
    s: &Stmt,
    n: u64,
    vals: Vals,
    keywords: NamedVals,
    v: Val,
    budget: u64,
) -> Result<Now, Halt>
    ensures moves { GoesOn functions.now frozen.now result going.old going.new budget (λ k. arguments_then k (class_place (step_of s.now)) (vals ++ v ∷ []) keywords (arguments_from n (class_arguments (step_of s.now))) (class_given k (step_of s.now))) }
    ensures used { going.new.state.used ≡ going.old.state.used }
{
    let mut vals = vals;
    match vals.push(v) {
        Ok(()) => { class_arguments_turn(going, functions, frozen, s, n, vals, keywords, budget) }
        Err(_) => Err(Halt::NoMemory),
    }
}

// One by its keyword, which the class has once, before those from this number on.
#[tactic(auto, using(py_frames::proofs::KeywordLaws::once_rules, py_frames::proofs::BeginLaws::no_memory))]
fn class_keyword(
    going: &mut Going,
    functions: &Functions,
    frozen: &Frozen,
    s: &Stmt,
    n: u64,
    vals: Vals,
    keywords: NamedVals,
    name: &Name,
    v: Val,
    budget: u64,
) -> Result<Now, Halt>
    ensures moves { GoesOn functions.now frozen.now result going.old going.new budget (λ k. once_named name.now keywords (class_place (step_of s.now)) (arguments_then k (class_place (step_of s.now)) vals (keywords ++ named_val name.now v ∷ []) (arguments_from n (class_arguments (step_of s.now))) (class_given k (step_of s.now)))) }
    ensures used { going.new.state.used ≡ going.old.state.used }
{
    let place = class_place(s);
    let given = is_given(name.as_str(), keywords.as_slice());
    if given {
        return raise(going, functions, frozen, place, budget);
    }
    class_named(
        going, functions, frozen, s, n, vals, keywords, name, v, budget,
    )
}

// The arguments behind one by its keyword.
#[tactic(auto, using(crate::proofs::ClassLaws::next_rules))]
fn class_named(
    going: &mut Going,
    functions: &Functions,
    frozen: &Frozen,
    s: &Stmt,
    n: u64,
    vals: Vals,
    keywords: NamedVals,
    name: &Name,
    v: Val,
    budget: u64,
) -> Result<Now, Halt>
    ensures moves { GoesOn functions.now frozen.now result going.old going.new budget (λ k. arguments_then k (class_place (step_of s.now)) vals (keywords ++ named_val name.now v ∷ []) (arguments_from n (class_arguments (step_of s.now))) (class_given k (step_of s.now))) }
    ensures used { going.new.state.used ≡ going.old.state.used }
{
    let Ok(named) = named_val(going.alloc, name.as_str(), v) else {
        return Err(Halt::NoMemory);
    };
    let mut keywords = keywords;
    match keywords.push(named) {
        Ok(()) => { class_arguments_turn(going, functions, frozen, s, n, vals, keywords, budget) }
        Err(_) => Err(Halt::NoMemory),
    }
}

// A `*` argument becomes a row, whose elements are arguments.
#[tactic(auto, using(crate::proofs::ClassLaws::row_rules))]
fn class_starred(
    going: &mut Going,
    functions: &Functions,
    frozen: &Frozen,
    s: &Stmt,
    n: u64,
    vals: Vals,
    keywords: NamedVals,
    v: Val,
    budget: u64,
) -> Result<Now, Halt>
    requires { going.old.state.used < budget }
    ensures moves { GoesOn functions.now frozen.now result going.old going.new budget (λ k. class_starred k (step_of s.now) n vals keywords v) }
    ensures left { OnOk result (going.new.state.used < budget) }
    ensures grows { going.old.state.used ≤ going.new.state.used }
{
    let place = class_place(s);
    let Ok(stmt) = s.share() else {
        return Err(Halt::NoMemory);
    };
    match going.frames.push(Frame::Def(DefFrame::ClassSpread {
        stmt,
        at: n,
        vals,
        keywords,
    })) {
        Ok(()) => as_row(going, functions, frozen, v, place, budget),
        Err(_) => Err(Halt::NoMemory),
    }
}

/// The row of the `*` argument of this number has come.
#[tactic(auto, using(crate::proofs::ClassLaws::spread_rules))]
pub fn class_spread_came(
    going: &mut Going,
    functions: &Functions,
    frozen: &Frozen,
    s: &Stmt,
    n: u64,
    vals: Vals,
    keywords: NamedVals,
    row: Val,
    budget: u64,
) -> Result<Now, Halt>
    ensures moves { GoesOn functions.now frozen.now result going.old going.new budget (λ k. elements_came k (class_place (step_of s.now)) vals keywords (arguments_from n (class_arguments (step_of s.now))) row (class_given k (step_of s.now))) }
    ensures used { going.new.state.used ≡ going.old.state.used }
{
    let Some(_) = class_argument(s, n) else {
        return class_given(going, functions, frozen, s, vals, keywords, budget);
    };
    match elements(&going.state.heap, frozen, row) {
        Ok(items) => {
            class_extended(
                going,
                functions,
                frozen,
                s,
                n + 1,
                vals,
                keywords,
                &items,
                budget,
            )
        }
        Err(stop) => Err(refused(stop, class_place(s))),
    }
}

// Some in order, before those from this number on.
#[tactic(auto, using(crate::proofs::ClassLaws::next_rules))]
fn class_extended(
    going: &mut Going,
    functions: &Functions,
    frozen: &Frozen,
    s: &Stmt,
    n: u64,
    vals: Vals,
    keywords: NamedVals,
    items: &Vals,
    budget: u64,
) -> Result<Now, Halt>
    ensures moves { GoesOn functions.now frozen.now result going.old going.new budget (λ k. arguments_then k (class_place (step_of s.now)) (vals ++ items.now) keywords (arguments_from n (class_arguments (step_of s.now))) (class_given k (step_of s.now))) }
    ensures used { going.new.state.used ≡ going.old.state.used }
{
    let mut vals = vals;
    match vals.extend(items.as_slice()) {
        Ok(()) => { class_arguments_turn(going, functions, frozen, s, n, vals, keywords, budget) }
        Err(_) => Err(Halt::NoMemory),
    }
}
