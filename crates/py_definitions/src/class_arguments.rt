// The arguments of a class, one after the other, as those of a call.
ghost use Rattle.std.specs.Prelude.{◌≡◌, ◌<◌, ◌+◌, map, option_map, IfOk, MatchOption};
ghost use Rattle.py_tree.specs.Seen.{tree, trailer_of, argument_of, each_of};
ghost use Rattle.py_tree.specs.Programs.{step_of, steps_of};
ghost use Rattle.py_tree.specs.Tree.{arguments, no_argument, argument, ListOf};
ghost use Rattle.py_tree.specs.Steps.{Class, bases, bases_of};
ghost use Rattle.py_frames.specs.Parts.{arguments_from, place_of};
ghost use Rattle.py_frames.specs.Expressions.{arguments_then};
ghost use Rattle.py_frames.specs.Stmt_begun.{run_after};
ghost use Rattle.py_frames.specs.Def_frames.{base_arguments, class_arguments, class_place, class_given};
ghost use Rattle.py_definitions.specs.Def_begun.{argument_value, class_list};
ghost use Rattle.py_frames.specs.Frames.{GoesOn};

use crate::classes::class_given;
use amh_host::NoMemory;
use py_frames::frame::{DefFrame, Frame, Now};
use py_frames::functions::Functions;
use py_frames::going::{Going, wait_for};
use py_frames::leaf::place_of;
use py_frames::request::NamedVals;
use py_frames::state::Halt;
use py_heap::Frozen;
use py_tree::{Argument, Block, Comprehension, Expr, ExprKind, Name, Stmt, StmtKind, Trailer};
use py_values::Vals;
use std::alloc::Global;

// The argument of this number of a list, and none past the last.
#[tactic(auto, using(crate::proofs::ClassLaws::argument_rules))]
fn argument_at(list: &Vec<Argument>, n: u64) -> Option<&Argument>
    ensures { MatchOption result (arguments_from n (arguments (map argument_of list.now.items)) ≡ no_argument) (λ g. (arguments_from n (arguments (map argument_of list.now.items)) ≡ argument (argument_of g.now) (arguments_from (n + 1) (arguments (map argument_of list.now.items)))) × (n < 18446744073709551615)) }
{
    if n >= list.len() as u64 {
        return None;
    }
    Some(&list[n as usize])
}

// The same of what stands in the brackets of a class.
#[tactic(auto, using(crate::proofs::ClassLaws::lacks_rules))]
fn argument_in(brackets: &Option<Trailer>, n: u64) -> Option<&Argument>
    ensures { MatchOption result (arguments_from n (base_arguments (bases_of (option_map trailer_of brackets.now))) ≡ no_argument) (λ g. (arguments_from n (base_arguments (bases_of (option_map trailer_of brackets.now))) ≡ argument (argument_of g.now) (arguments_from (n + 1) (base_arguments (bases_of (option_map trailer_of brackets.now))))) × (n < 18446744073709551615)) }
{
    match brackets {
        Some(t) => argument_trailing(t, n),
        None => None,
    }
}

#[tactic(auto, using(crate::proofs::ClassLaws::lacks_rules))]
fn argument_trailing(brackets: &Trailer, n: u64) -> Option<&Argument>
    ensures { MatchOption result (arguments_from n (base_arguments (bases (trailer_of brackets.now))) ≡ no_argument) (λ g. (arguments_from n (base_arguments (bases (trailer_of brackets.now))) ≡ argument (argument_of g.now) (arguments_from (n + 1) (base_arguments (bases (trailer_of brackets.now))))) × (n < 18446744073709551615)) }
{
    match brackets {
        Trailer::Call(list) => argument_at(list, n),
        _ => None,
    }
}

/// The argument of this number of a class, and none past the last.
#[tactic(auto, using(crate::proofs::ClassLaws::lacks_rules))]
pub fn class_argument(s: &Stmt, n: u64) -> Option<&Argument>
    ensures { MatchOption result (arguments_from n (class_arguments (step_of s.now)) ≡ no_argument) (λ g. (arguments_from n (class_arguments (step_of s.now)) ≡ argument (argument_of g.now) (arguments_from (n + 1) (class_arguments (step_of s.now)))) × (n < 18446744073709551615)) }
{
    match &*s.kind {
        StmtKind::Class {
            name: _,
            arguments,
            body: _,
        } => argument_in(arguments, n),
        _ => None,
    }
}

// The expression of an argument.
fn argument_value(g: &Argument) -> &Expr
    ensures { tree result.now ≡ argument_value (argument_of g.now) }
{
    match g {
        Argument::Positional(e) => e,
        Argument::Starred(e) => e,
        Argument::Keyword(_, e) => e,
    }
}

// The list that a comprehension in the brackets of a class makes, as an expression.
fn list_node(alloc: Global, element: &Expr, each: &Comprehension) -> Result<Expr, NoMemory>
    ensures { IfOk result (λ e. tree e ≡ ListOf (place_of (tree element.now)) (tree element.now) (each_of each.now)) }
{
    let place = place_of(element);
    let Ok(element) = element.share() else {
        return Err(NoMemory);
    };
    match shared_each(each) {
        Ok(each) => Expr::new(alloc, place, ExprKind::ListOf(element, each)),
        Err(e) => Err(e),
    }
}

// One handle more of each part of a comprehension.
fn shared_each(each: &Comprehension) -> Result<Comprehension, NoMemory>
    ensures { IfOk result (λ c. each_of c ≡ each_of each.now) }
{
    let Ok(targets) = each.targets.share() else {
        return Err(NoMemory);
    };
    let Ok(source) = each.source.share() else {
        return Err(NoMemory);
    };
    match shared_condition(&each.condition) {
        Ok(condition) => Ok(Comprehension {
            targets,
            source,
            condition,
        }),
        Err(e) => Err(e),
    }
}

fn shared_condition(condition: &Option<Expr>) -> Result<Option<Expr>, NoMemory>
    ensures { IfOk result (λ c. option_map tree c ≡ option_map tree condition.now) }
{
    match condition {
        None => Ok(None),
        Some(e) => match e.share() {
            Ok(e) => Ok(Some(e)),
            Err(e) => Err(e),
        },
    }
}

/// A class: what stands in its brackets.
#[tactic(auto, using(crate::proofs::ClassLaws::begin_rules))]
pub fn begun_class(
    going: &mut Going,
    functions: &Functions,
    frozen: &Frozen,
    s: &Stmt,
    name: &Name,
    brackets: &Option<Trailer>,
    body: &Block,
    budget: u64,
) -> Result<Now, Halt>
    requires { step_of s.now ≡ Class s.now.place name.now (bases_of (option_map trailer_of brackets.now)) (steps_of body.now) }
    ensures moves { GoesOn functions.now frozen.now result going.old going.new budget (λ k. run_after k (step_of s.now)) }
    ensures used { going.new.state.used ≡ going.old.state.used }
{
    match brackets {
        Some(t) => begun_brackets(going, functions, frozen, s, name, t, body, budget),
        None => class_given(
            going,
            functions,
            frozen,
            s,
            Vals::new(going.alloc),
            NamedVals::new(going.alloc),
            budget,
        ),
    }
}

#[tactic(auto, using(crate::proofs::ClassLaws::brackets_rules))]
fn begun_brackets(
    going: &mut Going,
    functions: &Functions,
    frozen: &Frozen,
    s: &Stmt,
    _name: &Name,
    brackets: &Trailer,
    _body: &Block,
    budget: u64,
) -> Result<Now, Halt>
    requires { step_of s.now ≡ Class s.now.place _name.now (bases (trailer_of brackets.now)) (steps_of _body.now) }
    ensures moves { GoesOn functions.now frozen.now result going.old going.new budget (λ k. run_after k (step_of s.now)) }
    ensures used { going.new.state.used ≡ going.old.state.used }
{
    let vals = Vals::new(going.alloc);
    let keywords = NamedVals::new(going.alloc);
    match brackets {
        Trailer::Call(_) => {
            class_arguments_turn(going, functions, frozen, s, 0, vals, keywords, budget)
        }
        Trailer::CallOf(element, each) => {
            class_list(going, functions, frozen, s, element, each, budget)
        }
        _ => class_given(going, functions, frozen, s, vals, keywords, budget),
    }
}

// The list that a comprehension in the brackets makes is the one argument.
#[tactic(auto, using(crate::proofs::ClassLaws::list_rules))]
fn class_list(
    going: &mut Going,
    functions: &Functions,
    frozen: &Frozen,
    s: &Stmt,
    element: &Expr,
    each: &Comprehension,
    budget: u64,
) -> Result<Now, Halt>
    ensures moves { GoesOn functions.now frozen.now result going.old going.new budget (λ k. class_list k (step_of s.now) (tree element.now) (each_of each.now)) }
    ensures state { going.new.state ≡ going.old.state }
{
    let Ok(node) = list_node(going.alloc, element, each) else {
        return Err(Halt::NoMemory);
    };
    let Ok(stmt) = s.share() else {
        return Err(Halt::NoMemory);
    };
    wait_for(
        going,
        functions,
        frozen,
        &node,
        Frame::Def(DefFrame::ClassList { stmt }),
        budget,
    )
}

/// The arguments from this number on, behind those before them.
#[tactic(auto, using(crate::proofs::ClassLaws::turn_rules))]
pub fn class_arguments_turn(
    going: &mut Going,
    functions: &Functions,
    frozen: &Frozen,
    s: &Stmt,
    n: u64,
    vals: Vals,
    keywords: NamedVals,
    budget: u64,
) -> Result<Now, Halt>
    ensures moves { GoesOn functions.now frozen.now result going.old going.new budget (λ k. arguments_then k (class_place (step_of s.now)) vals keywords (arguments_from n (class_arguments (step_of s.now))) (class_given k (step_of s.now))) }
    ensures used { going.new.state.used ≡ going.old.state.used }
{
    let Some(g) = class_argument(s, n) else {
        return class_given(going, functions, frozen, s, vals, keywords, budget);
    };
    let Ok(stmt) = s.share() else {
        return Err(Halt::NoMemory);
    };
    wait_for(
        going,
        functions,
        frozen,
        argument_value(g),
        Frame::Def(DefFrame::ClassArgument {
            stmt,
            at: n,
            vals,
            keywords,
        }),
        budget,
    )
}
