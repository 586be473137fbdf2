// The arguments of a call, one after the other.
ghost use Rattle.std.specs.Prelude.{◌≡◌, ◌<◌, ◌≤◌, ◌++◌, ◌∷◌, [], suc, OnOk, Some};
ghost use Rattle.py_tree.specs.Seen.{tree, trailer_of};
ghost use Rattle.py_tree.specs.Tree.{Positional, Starred, Keyword};
ghost use Rattle.py_frames.specs.Parts.{place_of, trailers_from, arguments_from};
ghost use Rattle.py_frames.specs.Expressions.{arguments_then, call_for};
ghost use Rattle.py_frames.specs.Call_frames.{trailers_of, call_arguments, argument_came, elements_came};
ghost use Rattle.py_frames.specs.Functions.{named_val};
ghost use Rattle.py_calls.specs.Arguing.{arguments_in, elements_then};
ghost use Rattle.py_frames.specs.Trailing.{first_trailer, first_argument};
ghost use Rattle.py_frames.specs.Tables.{IsTable};
ghost use Rattle.py_frames.specs.Frames.{GoesOn};

use crate::call_frame::call_for;
use crate::call_part::{argument_at, argument_expr, named_val};
use py_frames::frame::{CallFrame, Frame, Now, Purpose};
use py_frames::functions::Functions;
use py_frames::going::{Going, told};
use py_frames::keyword::is_given;
use py_frames::leaf::following;
use py_frames::request::NamedVals;
use py_frames::state::Halt;
use py_frames::trail_leaf::{place_at, share_purpose};
use py_heap::Frozen;
use py_operators::elements;
use py_tree::{Argument, Expr, Name, Trailer};
use py_turns::at_once::{at_once, wait_or_come};
use py_turns::attribute_store::as_row;
use py_turns::call_leaf::raise;
use py_values::{Val, Vals};

// On with the argument of this number, for which a frame waits.
#[tactic(auto, using(crate::proofs::ArgumentLaws::arguments_end, py_frames::proofs::BeginLaws::no_memory))]
fn arguments_waited(
    going: &mut Going,
    functions: &Functions,
    frozen: &Frozen,
    node: &Expr,
    trailer: u64,
    at: u64,
    callee: Val,
    vals: Vals,
    keywords: NamedVals,
    purpose: &Purpose,
    budget: u64,
) -> Result<Now, Halt>
    requires room { going.old.state.used < budget }
    requires table { IsTable functions.now }
    ensures moves { GoesOn functions.now frozen.now result going.old going.new budget (λ k. arguments_then k (place_of (tree node.now)) vals keywords (arguments_from at (call_arguments (trailers_from trailer (trailers_of (tree node.now))))) (λ us names. call_for k purpose.now callee us names (place_of (tree node.now)))) }
    ensures left { OnOk result (going.new.state.used < budget) }
    ensures grows { going.old.state.used ≤ going.new.state.used }
{
    let place = place_at(node);
    let Some(argument) = argument_at(node, trailer, at) else {
        return call_for(
            going, functions, frozen, purpose, callee, vals, keywords, place, budget,
        );
    };
    let Ok(more) = node.share() else {
        return Err(Halt::NoMemory);
    };
    let Ok(purpose) = share_purpose(purpose) else {
        return Err(Halt::NoMemory);
    };
    let frame = Frame::Call(CallFrame::Argument {
        node: more,
        trailer,
        at,
        callee,
        vals,
        keywords,
        purpose,
    });
    wait_or_come(
        going,
        functions,
        frozen,
        argument_expr(argument),
        frame,
        budget,
    )
}

// The value of an argument in order was there at once: on with those behind it.
#[tactic(auto, using(py_frames::proofs::BeginLaws::no_memory))]
fn positional_given(
    going: &mut Going,
    functions: &Functions,
    frozen: &Frozen,
    node: &Expr,
    trailer: u64,
    at: u64,
    callee: Val,
    vals: Vals,
    keywords: NamedVals,
    purpose: &Purpose,
    v: Val,
    budget: u64,
) -> Result<Now, Halt>
    requires room { going.old.state.used < budget }
    requires table { IsTable functions.now }
    ensures moves { GoesOn functions.now frozen.now result going.old going.new budget (λ k. arguments_then k (place_of (tree node.now)) (vals ++ v ∷ []) keywords (arguments_from (suc at) (call_arguments (trailers_from trailer (trailers_of (tree node.now))))) (λ us names. call_for k purpose.now callee us names (place_of (tree node.now)))) }
    ensures left { OnOk result (going.new.state.used < budget) }
    ensures grows { going.old.state.used ≤ going.new.state.used }
{
    let Ok(next) = following(at) else {
        return Err(Halt::NoMemory);
    };
    let mut vals = vals;
    match vals.push(v) {
        Ok(()) => arguments_waited(
            going, functions, frozen, node, trailer, next, callee, vals, keywords, purpose, budget,
        ),
        Err(_) => Err(Halt::NoMemory),
    }
}

// An argument in order begins; where it is there at once, no frame waits for it.
#[tactic(auto, using(py_frames::proofs::BeginLaws::no_memory))]
fn positional_begun(
    going: &mut Going,
    functions: &Functions,
    frozen: &Frozen,
    node: &Expr,
    trailer: u64,
    at: u64,
    callee: Val,
    vals: Vals,
    keywords: NamedVals,
    purpose: &Purpose,
    part: &Expr,
    budget: u64,
) -> Result<Now, Halt>
    requires room { going.old.state.used < budget }
    requires table { IsTable functions.now }
    requires here { Some (Positional (tree part.now)) ≡ first_argument (arguments_from at (call_arguments (trailers_from trailer (trailers_of (tree node.now))))) }
    ensures moves { GoesOn functions.now frozen.now result going.old going.new budget (λ k. arguments_then k (place_of (tree node.now)) vals keywords (arguments_from at (call_arguments (trailers_from trailer (trailers_of (tree node.now))))) (λ us names. call_for k purpose.now callee us names (place_of (tree node.now)))) }
    ensures left { OnOk result (going.new.state.used < budget) }
    ensures grows { going.old.state.used ≤ going.new.state.used }
{
    let Some(found) = at_once(going, frozen, part, budget) else {
        return arguments_waited(
            going, functions, frozen, node, trailer, at, callee, vals, keywords, purpose, budget,
        );
    };
    going.state.used += found.cost;
    positional_given(
        going, functions, frozen, node, trailer, at, callee, vals, keywords, purpose, found.val,
        budget,
    )
}

/// On with the argument of this number.
#[tactic(auto, using(py_frames::proofs::BeginLaws::no_memory))]
pub fn arguments(
    going: &mut Going,
    functions: &Functions,
    frozen: &Frozen,
    node: &Expr,
    trailer: u64,
    at: u64,
    callee: Val,
    vals: Vals,
    keywords: NamedVals,
    purpose: &Purpose,
    budget: u64,
) -> Result<Now, Halt>
    requires room { going.old.state.used < budget }
    requires table { IsTable functions.now }
    ensures moves { GoesOn functions.now frozen.now result going.old going.new budget (λ k. arguments_then k (place_of (tree node.now)) vals keywords (arguments_from at (call_arguments (trailers_from trailer (trailers_of (tree node.now))))) (λ us names. call_for k purpose.now callee us names (place_of (tree node.now)))) }
    ensures left { OnOk result (going.new.state.used < budget) }
    ensures grows { going.old.state.used ≤ going.new.state.used }
{
    let Some(argument) = argument_at(node, trailer, at) else {
        return arguments_waited(
            going, functions, frozen, node, trailer, at, callee, vals, keywords, purpose, budget,
        );
    };
    match argument {
        Argument::Positional(part) => positional_begun(
            going, functions, frozen, node, trailer, at, callee, vals, keywords, purpose, part,
            budget,
        ),
        _ => arguments_waited(
            going, functions, frozen, node, trailer, at, callee, vals, keywords, purpose, budget,
        ),
    }
}

// An argument in order has come.
#[tactic(auto, using(py_frames::proofs::BeginLaws::no_memory))]
fn positional_came(
    going: &mut Going,
    functions: &Functions,
    frozen: &Frozen,
    node: &Expr,
    trailer: u64,
    at: u64,
    callee: Val,
    vals: Vals,
    keywords: NamedVals,
    purpose: &Purpose,
    _part: &Expr,
    v: Val,
    budget: u64,
) -> Result<Now, Halt>
    requires room { going.old.state.used < budget }
    requires here { Some (Positional (tree _part.now)) ≡ first_argument (arguments_from at (call_arguments (trailers_from trailer (trailers_of (tree node.now))))) }
    requires table { IsTable functions.now }
    ensures moves { GoesOn functions.now frozen.now result going.old going.new budget (λ k. argument_came k (place_of (tree node.now)) vals keywords (arguments_from at (call_arguments (trailers_from trailer (trailers_of (tree node.now))))) v (λ us names. call_for k purpose.now callee us names (place_of (tree node.now)))) }
    ensures left { OnOk result (going.new.state.used < budget) }
    ensures grows { going.old.state.used ≤ going.new.state.used }
{
    let Ok(next) = following(at) else {
        return Err(Halt::NoMemory);
    };
    let mut vals = vals;
    match vals.push(v) {
        Ok(()) => arguments(
            going, functions, frozen, node, trailer, next, callee, vals, keywords, purpose, budget,
        ),
        Err(_) => Err(Halt::NoMemory),
    }
}

// An argument by keyword has come: the call has no other of its name.
#[tactic(auto, using(crate::proofs::ArgumentLaws::came_twice))]
fn keyword_came(
    going: &mut Going,
    functions: &Functions,
    frozen: &Frozen,
    node: &Expr,
    trailer: u64,
    at: u64,
    callee: Val,
    vals: Vals,
    keywords: NamedVals,
    purpose: &Purpose,
    name: &Name,
    _part: &Expr,
    v: Val,
    budget: u64,
) -> Result<Now, Halt>
    requires room { going.old.state.used < budget }
    requires here { Some (Keyword name.now (tree _part.now)) ≡ first_argument (arguments_from at (call_arguments (trailers_from trailer (trailers_of (tree node.now))))) }
    requires table { IsTable functions.now }
    ensures moves { GoesOn functions.now frozen.now result going.old going.new budget (λ k. argument_came k (place_of (tree node.now)) vals keywords (arguments_from at (call_arguments (trailers_from trailer (trailers_of (tree node.now))))) v (λ us names. call_for k purpose.now callee us names (place_of (tree node.now)))) }
    ensures left { OnOk result (going.new.state.used < budget) }
    ensures grows { going.old.state.used ≤ going.new.state.used }
{
    let place = place_at(node);
    let given = is_given(name.as_str(), keywords.as_slice());
    if given {
        return raise(going, functions, frozen, place, budget);
    }
    keyword_next(
        going, functions, frozen, node, trailer, at, callee, vals, keywords, purpose, name, v,
        budget,
    )
}

// The arguments behind one by keyword.
#[tactic(auto, using(py_frames::proofs::BeginLaws::no_memory))]
fn keyword_next(
    going: &mut Going,
    functions: &Functions,
    frozen: &Frozen,
    node: &Expr,
    trailer: u64,
    at: u64,
    callee: Val,
    vals: Vals,
    keywords: NamedVals,
    purpose: &Purpose,
    name: &Name,
    v: Val,
    budget: u64,
) -> Result<Now, Halt>
    requires room { going.old.state.used < budget }
    requires table { IsTable functions.now }
    ensures moves { GoesOn functions.now frozen.now result going.old going.new budget (λ k. arguments_then k (place_of (tree node.now)) vals (keywords ++ named_val name.now v ∷ []) (arguments_from (suc at) (call_arguments (trailers_from trailer (trailers_of (tree node.now))))) (λ us names. call_for k purpose.now callee us names (place_of (tree node.now)))) }
    ensures left { OnOk result (going.new.state.used < budget) }
    ensures grows { going.old.state.used ≤ going.new.state.used }
{
    let Ok(next) = following(at) else {
        return Err(Halt::NoMemory);
    };
    let Ok(named) = named_val(going.alloc, name, v) else {
        return Err(Halt::NoMemory);
    };
    let mut keywords = keywords;
    match keywords.push(named) {
        Ok(()) => arguments(
            going, functions, frozen, node, trailer, next, callee, vals, keywords, purpose, budget,
        ),
        Err(_) => Err(Halt::NoMemory),
    }
}

// A `*` argument has come: a thing gives a tuple of its elements first.
#[tactic(auto, using(py_frames::proofs::BeginLaws::no_memory))]
fn starred_came(
    going: &mut Going,
    functions: &Functions,
    frozen: &Frozen,
    node: &Expr,
    trailer: u64,
    at: u64,
    callee: Val,
    vals: Vals,
    keywords: NamedVals,
    purpose: &Purpose,
    _part: &Expr,
    v: Val,
    budget: u64,
) -> Result<Now, Halt>
    requires room { going.old.state.used < budget }
    requires here { Some (Starred (tree _part.now)) ≡ first_argument (arguments_from at (call_arguments (trailers_from trailer (trailers_of (tree node.now))))) }
    ensures moves { GoesOn functions.now frozen.now result going.old going.new budget (λ k. argument_came k (place_of (tree node.now)) vals keywords (arguments_from at (call_arguments (trailers_from trailer (trailers_of (tree node.now))))) v (λ us names. call_for k purpose.now callee us names (place_of (tree node.now)))) }
    ensures used { going.new.state.used ≡ going.old.state.used }
{
    let place = place_at(node);
    let Ok(more) = node.share() else {
        return Err(Halt::NoMemory);
    };
    let Ok(purpose) = share_purpose(purpose) else {
        return Err(Halt::NoMemory);
    };
    match going.frames.push(Frame::Call(CallFrame::Spread {
        node: more,
        trailer,
        at,
        callee,
        vals,
        keywords,
        purpose,
    })) {
        Ok(()) => as_row(going, functions, frozen, v, place, budget),
        Err(_) => Err(Halt::NoMemory),
    }
}

// The elements of a `*` argument go behind the arguments before it.
#[tactic(auto, using(py_frames::proofs::BeginLaws::no_memory))]
fn elements_given(
    going: &mut Going,
    functions: &Functions,
    frozen: &Frozen,
    node: &Expr,
    trailer: u64,
    at: u64,
    callee: Val,
    vals: Vals,
    keywords: NamedVals,
    purpose: &Purpose,
    elements: &Vals,
    budget: u64,
) -> Result<Now, Halt>
    requires room { going.old.state.used < budget }
    requires table { IsTable functions.now }
    ensures moves { GoesOn functions.now frozen.now result going.old going.new budget (λ k. arguments_then k (place_of (tree node.now)) (vals ++ elements.now) keywords (arguments_from (suc at) (call_arguments (trailers_from trailer (trailers_of (tree node.now))))) (λ us names. call_for k purpose.now callee us names (place_of (tree node.now)))) }
    ensures left { OnOk result (going.new.state.used < budget) }
    ensures grows { going.old.state.used ≤ going.new.state.used }
{
    let Ok(next) = following(at) else {
        return Err(Halt::NoMemory);
    };
    let mut vals = vals;
    match vals.extend(elements.as_slice()) {
        Ok(()) => arguments(
            going, functions, frozen, node, trailer, next, callee, vals, keywords, purpose, budget,
        ),
        Err(_) => Err(Halt::NoMemory),
    }
}

// The elements of a `*` argument, and then the arguments behind it.
fn elements_spread(
    going: &mut Going,
    functions: &Functions,
    frozen: &Frozen,
    node: &Expr,
    trailer: u64,
    at: u64,
    callee: Val,
    vals: Vals,
    keywords: NamedVals,
    purpose: &Purpose,
    row: Val,
    budget: u64,
) -> Result<Now, Halt>
    requires room { going.old.state.used < budget }
    requires table { IsTable functions.now }
    ensures moves { GoesOn functions.now frozen.now result going.old going.new budget (λ k. elements_then k (place_of (tree node.now)) vals keywords (arguments_from (suc at) (call_arguments (trailers_from trailer (trailers_of (tree node.now))))) row (λ us names. call_for k purpose.now callee us names (place_of (tree node.now)))) }
    ensures left { OnOk result (going.new.state.used < budget) }
    ensures grows { going.old.state.used ≤ going.new.state.used }
{
    let place = place_at(node);
    match elements(&going.state.heap, frozen, row) {
        Ok(elements) => elements_given(
            going, functions, frozen, node, trailer, at, callee, vals, keywords, purpose,
            &elements, budget,
        ),
        Err(e) => told(Err(e), place),
    }
}

/// The elements of a `*` argument have come.
#[tactic(auto, using(crate::proofs::ArgumentLaws::spread_end))]
pub fn elements_came(
    going: &mut Going,
    functions: &Functions,
    frozen: &Frozen,
    node: &Expr,
    trailer: u64,
    at: u64,
    callee: Val,
    vals: Vals,
    keywords: NamedVals,
    purpose: &Purpose,
    row: Val,
    budget: u64,
) -> Result<Now, Halt>
    requires room { going.old.state.used < budget }
    requires table { IsTable functions.now }
    ensures moves { GoesOn functions.now frozen.now result going.old going.new budget (λ k. elements_came k (place_of (tree node.now)) vals keywords (arguments_from at (call_arguments (trailers_from trailer (trailers_of (tree node.now))))) row (λ us names. call_for k purpose.now callee us names (place_of (tree node.now)))) }
    ensures left { OnOk result (going.new.state.used < budget) }
    ensures grows { going.old.state.used ≤ going.new.state.used }
{
    let place = place_at(node);
    match argument_at(node, trailer, at) {
        Some(_) => elements_spread(
            going, functions, frozen, node, trailer, at, callee, vals, keywords, purpose, row,
            budget,
        ),
        None => call_for(
            going, functions, frozen, purpose, callee, vals, keywords, place, budget,
        ),
    }
}

/// The value of an argument has come.
#[tactic(auto, using(crate::proofs::ArgumentLaws::came_end))]
pub fn argument_came(
    going: &mut Going,
    functions: &Functions,
    frozen: &Frozen,
    node: &Expr,
    trailer: u64,
    at: u64,
    callee: Val,
    vals: Vals,
    keywords: NamedVals,
    purpose: &Purpose,
    v: Val,
    budget: u64,
) -> Result<Now, Halt>
    requires room { going.old.state.used < budget }
    requires table { IsTable functions.now }
    ensures moves { GoesOn functions.now frozen.now result going.old going.new budget (λ k. argument_came k (place_of (tree node.now)) vals keywords (arguments_from at (call_arguments (trailers_from trailer (trailers_of (tree node.now))))) v (λ us names. call_for k purpose.now callee us names (place_of (tree node.now)))) }
    ensures left { OnOk result (going.new.state.used < budget) }
    ensures grows { going.old.state.used ≤ going.new.state.used }
{
    let place = place_at(node);
    let Some(argument) = argument_at(node, trailer, at) else {
        return call_for(
            going, functions, frozen, purpose, callee, vals, keywords, place, budget,
        );
    };
    match argument {
        Argument::Positional(part) => positional_came(
            going, functions, frozen, node, trailer, at, callee, vals, keywords, purpose, part, v,
            budget,
        ),
        Argument::Starred(part) => starred_came(
            going, functions, frozen, node, trailer, at, callee, vals, keywords, purpose, part, v,
            budget,
        ),
        Argument::Keyword(name, part) => keyword_came(
            going, functions, frozen, node, trailer, at, callee, vals, keywords, purpose, name,
            part, v, budget,
        ),
    }
}

/// The arguments of a call begin.
pub fn arguments_begun(
    going: &mut Going,
    functions: &Functions,
    frozen: &Frozen,
    node: &Expr,
    at: u64,
    _trailer: &Trailer,
    purpose: &Purpose,
    v: Val,
    budget: u64,
) -> Result<Now, Halt>
    requires room { going.old.state.used < budget }
    requires here { Some (trailer_of _trailer.now) ≡ first_trailer (trailers_from at (trailers_of (tree node.now))) }
    requires table { IsTable functions.now }
    ensures moves { GoesOn functions.now frozen.now result going.old going.new budget (λ k. arguments_then k (place_of (tree node.now)) [] [] (arguments_in (trailer_of _trailer.now)) (λ us names. call_for k purpose.now v us names (place_of (tree node.now)))) }
    ensures left { OnOk result (going.new.state.used < budget) }
    ensures grows { going.old.state.used ≤ going.new.state.used }
{
    let vals = Vals::new(going.alloc);
    let keywords = NamedVals::new(going.alloc);
    arguments(
        going, functions, frozen, node, at, 0, v, vals, keywords, purpose, budget,
    )
}
