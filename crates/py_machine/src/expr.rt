// Expressions, where they begin: a node spends its units, and then begins by its kind.
ghost use Rattle.std.specs.Prelude.{◌≡◌, ◌<◌, ◌≤◌, OnOk};
ghost use Rattle.py_tree.specs.Seen.{tree};
ghost use Rattle.py_frames.specs.declared.frame.Purpose.TheVariants.{Plain};
ghost use Rattle.py_frames.specs.Expressions.{value_of};
ghost use Rattle.py_frames.specs.Begun.{value_after};
ghost use Rattle.py_frames.specs.Frames.{GoesOn};
ghost use Rattle.py_frames.specs.Tables.{IsTable};

use py_calls::trail::{begun_await, begun_trailed};
use py_expressions::expr_kinds::{
    begun_constant, begun_decimal, begun_dict, begun_dict_of, begun_display, begun_format,
    begun_list_of, begun_name, begun_number, begun_quotient, begun_text, begun_tuple,
};
use py_expressions::expr_operands::{
    begun_binary, begun_boolean, begun_choice, begun_compare, begun_not, begun_power, begun_unary,
};
use py_frames::frame::{Now, Purpose};
use py_frames::functions::Functions;
use py_frames::going::{Going, spend};
use py_frames::leaf::{cost_of, is_trailed, place_of};
use py_frames::state::Halt;
use py_heap::Frozen;
use py_tree::{Expr, ExprKind};

/// Begins an expression.
#[tactic(auto, using(py_frames::proofs::ExprLaws::node_spent, py_frames::proofs::ExprLaws::node_stops))]
pub fn begin(
    going: &mut Going,
    functions: &Functions,
    frozen: &Frozen,
    e: &Expr,
    purpose: Purpose,
    budget: u64,
) -> Result<Now, Halt>
    requires room { going.old.state.used < budget }
    requires table { IsTable functions.now }
    ensures moves { GoesOn functions.now frozen.now result going.old going.new budget (λ k. value_of k purpose (tree e.now)) }
    ensures left { OnOk result (going.new.state.used < budget) }
    ensures grows { going.old.state.used ≤ going.new.state.used }
{
    match spend(going, cost_of(e), place_of(e), budget) {
        Err(halt) => Err(halt),
        Ok(()) => begun(going, functions, frozen, e, purpose, budget),
    }
}

// A node whose units are spent.
#[tactic(auto, using(py_frames::proofs::ExprGoes::plain_goes, py_frames::proofs::BeginLaws::no_memory))]
fn begun(
    going: &mut Going,
    functions: &Functions,
    frozen: &Frozen,
    e: &Expr,
    purpose: Purpose,
    budget: u64,
) -> Result<Now, Halt>
    requires room { going.old.state.used < budget }
    requires table { IsTable functions.now }
    ensures moves { GoesOn functions.now frozen.now result going.old going.new budget (λ k. value_after k purpose (tree e.now)) }
    ensures left { OnOk result (going.new.state.used < budget) }
    ensures grows { going.old.state.used ≤ going.new.state.used }
{
    if !is_trailed(e) {
        return begun_plain(going, functions, frozen, e, budget);
    }
    match &*e.kind {
        ExprKind::Trailed(first, _) => {
            begun_trailed(going, functions, frozen, e, first, &purpose, budget)
        }
        _ => Err(Halt::NoMemory),
    }
}

// The same, where it does not matter what the value is for.
fn begun_plain(
    going: &mut Going,
    functions: &Functions,
    frozen: &Frozen,
    e: &Expr,
    budget: u64,
) -> Result<Now, Halt>
    requires { going.old.state.used < budget }
    ensures moves { GoesOn functions.now frozen.now result going.old going.new budget (λ k. value_after k Plain (tree e.now)) }
    ensures left { OnOk result (going.new.state.used < budget) }
    ensures grows { going.old.state.used ≤ going.new.state.used }
{
    match &*e.kind {
        ExprKind::Name(name) => begun_name(going, functions, frozen, e, name, budget),
        ExprKind::Number(n) => begun_number(going, functions, frozen, e, *n, budget),
        ExprKind::Decimal(d) => begun_decimal(going, functions, frozen, e, *d, budget),
        ExprKind::Quotient(n, by) => {
            begun_quotient(going, functions, frozen, e, *n, *by, budget)
        }
        ExprKind::Str(text) => begun_text(going, functions, frozen, e, text, budget),
        ExprKind::Format(pieces) => begun_format(going, functions, frozen, e, pieces, budget),
        ExprKind::Constant(c) => begun_constant(going, functions, frozen, e, *c, budget),
        ExprKind::Tuple(items) => {
            begun_tuple(going, functions, frozen, e, items.as_slice(), budget)
        }
        ExprKind::List(items) => {
            begun_display(going, functions, frozen, e, items.as_slice(), budget)
        }
        ExprKind::Dict(pairs) => {
            begun_dict(going, functions, frozen, e, pairs.as_slice(), budget)
        }
        ExprKind::ListOf(item, each) => {
            begun_list_of(going, functions, frozen, e, item, each, budget)
        }
        ExprKind::DictOf(pair, each) => {
            begun_dict_of(going, functions, frozen, e, pair, each, budget)
        }
        ExprKind::Await(part) => {
            begun_await(going, functions, frozen, e, part, &Purpose::Plain, budget)
        }
        _ => begun_operands(going, functions, frozen, e, budget),
    }
}

// A node with operands.
#[tactic(auto, using(py_frames::proofs::BeginLaws::no_memory))]
fn begun_operands(
    going: &mut Going,
    functions: &Functions,
    frozen: &Frozen,
    e: &Expr,
    budget: u64,
) -> Result<Now, Halt>
    requires { going.old.state.used < budget }
    ensures moves { GoesOn functions.now frozen.now result going.old going.new budget (λ k. value_after k Plain (tree e.now)) }
    ensures left { OnOk result (going.new.state.used < budget) }
    ensures grows { going.old.state.used ≤ going.new.state.used }
{
    match &*e.kind {
        ExprKind::Power(base, exponent) => {
            begun_power(going, functions, frozen, e, base, exponent, budget)
        }
        ExprKind::Unary(sign, operand) => {
            begun_unary(going, functions, frozen, e, *sign, operand, budget)
        }
        ExprKind::Not(operand) => begun_not(going, functions, frozen, e, operand, budget),
        ExprKind::Binary(first, links) => {
            begun_binary(going, functions, frozen, e, first, links.as_slice(), budget)
        }
        ExprKind::Compare(first, links) => {
            begun_compare(going, functions, frozen, e, first, links.as_slice(), budget)
        }
        ExprKind::Boolean(first, links) => {
            begun_boolean(going, functions, frozen, e, first, links.as_slice(), budget)
        }
        ExprKind::Choice {
            chosen,
            test,
            other,
        } => begun_choice(going, functions, frozen, e, chosen, test, other, budget),
        _ => Err(Halt::NoMemory),
    }
}
