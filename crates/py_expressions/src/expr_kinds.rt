// Values and displays, where they begin: a literal or a name is a value, and a display begins its first item.
ghost use Rattle.std.specs.Prelude.{◌≡◌, ◌<◌, ◌≤◌, OnOk, map};
ghost use Rattle.py_tree.specs.Seen.{tree, pair_tree, each_of};
ghost use Rattle.py_tree.specs.Tree.{Name as Read_name, Number as Read_number, Decimal_time, Quotient, Str, Format, Constant_value, Tuple, Display, Dict, ListOf, DictOf, trees, pairs};
ghost use Rattle.py_frames.specs.declared.frame.Purpose.TheVariants.{Plain};
ghost use Rattle.py_frames.specs.Begun.{value_after};
ghost use Rattle.py_frames.specs.Frames.{GoesOn};

use crate::expr_format::pieces_shown;
use crate::expr_items::{next_item, next_pair};
use crate::times::{decimal_time, divided_time};
use py_frames::expr_names::read_name;
use py_frames::frame::{Comprehended, Now};
use py_frames::functions::Functions;
use py_frames::going::{Going, stopped};
use py_frames::leaf::constant_val;
use py_frames::request::Cause;
use py_frames::state::{Got, Halt};
use py_heap::Frozen;
use py_tree::{Amount, Comprehension, Constant, Decimal, Expr, Name, Pair, Pieces};
use py_turns::expr_values::new_literal;
use py_values::{Number, Val, Vals};
use py_walks::comprehensions::begun_comprehension;

// The value of a name.
#[tactic(auto, using(py_frames::proofs::ExprKinds::name_begins))]
pub fn begun_name(
    going: &mut Going,
    functions: &Functions,
    frozen: &Frozen,
    e: &Expr,
    name: &Name,
    budget: u64,
) -> Result<Now, Halt>
    requires { tree e.now ≡ Read_name e.now.place name.now }
    ensures moves { GoesOn functions.now frozen.now result going.old going.new budget (λ k. value_after k Plain (tree e.now)) }
    ensures used { going.new.state.used ≡ going.old.state.used }
{
    read_name(going, functions, frozen, name, e.place, budget)
}

// A number.
#[tactic(auto, using(py_frames::proofs::ExprKinds::number_begins))]
pub fn begun_number(
    going: &mut Going,
    _functions: &Functions,
    _frozen: &Frozen,
    e: &Expr,
    n: u128,
    _budget: u64,
) -> Result<Now, Halt>
    requires { tree e.now ≡ Read_number e.now.place n }
    ensures moves { GoesOn _functions.now _frozen.now result going.old going.new _budget (λ k. value_after k Plain (tree e.now)) }
    ensures used { going.new.state.used ≡ going.old.state.used }
{
    Ok(Now::Came(Got::Value(Val::Int(Number::of_u128(n)))))
}

// A constant.
#[tactic(auto, using(py_frames::proofs::ExprKinds::constant_begins))]
pub fn begun_constant(
    going: &mut Going,
    _functions: &Functions,
    _frozen: &Frozen,
    e: &Expr,
    constant: Constant,
    _budget: u64,
) -> Result<Now, Halt>
    requires { tree e.now ≡ Constant_value e.now.place constant }
    ensures moves { GoesOn _functions.now _frozen.now result going.old going.new _budget (λ k. value_after k Plain (tree e.now)) }
    ensures used { going.new.state.used ≡ going.old.state.used }
{
    Ok(Now::Came(Got::Value(constant_val(constant))))
}

// A time.
#[tactic(auto, using(py_frames::proofs::ExprKinds::decimal_some, py_frames::proofs::ExprKinds::decimal_none))]
pub fn begun_decimal(
    going: &mut Going,
    _functions: &Functions,
    _frozen: &Frozen,
    e: &Expr,
    decimal: Decimal,
    _budget: u64,
) -> Result<Now, Halt>
    requires { tree e.now ≡ Decimal_time e.now.place decimal }
    ensures moves { GoesOn _functions.now _frozen.now result going.old going.new _budget (λ k. value_after k Plain (tree e.now)) }
    ensures used { going.new.state.used ≡ going.old.state.used }
{
    match decimal_time(decimal) {
        Some(time) => Ok(Now::Came(Got::Value(Val::Time(time)))),
        None => Err(stopped(Cause::Raised, e.place)),
    }
}

// A time, as a quotient.
#[tactic(auto, using(py_frames::proofs::ExprKinds::quotient_some, py_frames::proofs::ExprKinds::quotient_none))]
pub fn begun_quotient(
    going: &mut Going,
    _functions: &Functions,
    _frozen: &Frozen,
    e: &Expr,
    n: u128,
    by: Amount,
    _budget: u64,
) -> Result<Now, Halt>
    requires { tree e.now ≡ Quotient e.now.place n by }
    ensures moves { GoesOn _functions.now _frozen.now result going.old going.new _budget (λ k. value_after k Plain (tree e.now)) }
    ensures used { going.new.state.used ≡ going.old.state.used }
{
    match divided_time(n, by) {
        Some(time) => Ok(Now::Came(Got::Value(Val::Time(time)))),
        None => Err(stopped(Cause::Raised, e.place)),
    }
}

// A string.
#[tactic(auto, using(py_frames::proofs::ExprKinds::text_begins))]
pub fn begun_text(
    going: &mut Going,
    functions: &Functions,
    frozen: &Frozen,
    e: &Expr,
    text: &Name,
    budget: u64,
) -> Result<Now, Halt>
    requires { tree e.now ≡ Str e.now.place text.now }
    ensures moves { GoesOn functions.now frozen.now result going.old going.new budget (λ k. value_after k Plain (tree e.now)) }
    ensures used { going.new.state.used ≡ going.old.state.used }
{
    new_literal(going, functions, frozen, text, e.place, budget)
}

// A format string.
#[tactic(auto, using(py_frames::proofs::ExprKinds::format_begins))]
pub fn begun_format(
    going: &mut Going,
    functions: &Functions,
    frozen: &Frozen,
    e: &Expr,
    pieces: &Pieces,
    budget: u64,
) -> Result<Now, Halt>
    requires seen { tree e.now ≡ Format e.now.place pieces.now }
    requires room { going.old.state.used < budget }
    ensures moves { GoesOn functions.now frozen.now result going.old going.new budget (λ k. value_after k Plain (tree e.now)) }
    ensures left { OnOk result (going.new.state.used < budget) }
    ensures grows { going.old.state.used ≤ going.new.state.used }
{
    pieces_shown(going, functions, frozen, pieces, e.place, budget)
}

// A tuple.
#[tactic(auto, using(py_frames::proofs::ExprKinds::tuple_begins, py_frames::proofs::BeginLaws::no_memory))]
pub fn begun_tuple(
    going: &mut Going,
    functions: &Functions,
    frozen: &Frozen,
    e: &Expr,
    _items: &[Expr],
    budget: u64,
) -> Result<Now, Halt>
    requires { tree e.now ≡ Tuple e.now.place (trees (map tree _items.now)) }
    ensures moves { GoesOn functions.now frozen.now result going.old going.new budget (λ k. value_after k Plain (tree e.now)) }
    ensures used { going.new.state.used ≡ going.old.state.used }
{
    let Ok(node) = e.share() else {
        return Err(Halt::NoMemory);
    };
    let vals = Vals::new(going.alloc);
    next_item(going, functions, frozen, node, 0, vals, budget)
}

// A list.
#[tactic(auto, using(py_frames::proofs::ExprKinds::display_begins, py_frames::proofs::BeginLaws::no_memory))]
pub fn begun_display(
    going: &mut Going,
    functions: &Functions,
    frozen: &Frozen,
    e: &Expr,
    _items: &[Expr],
    budget: u64,
) -> Result<Now, Halt>
    requires { tree e.now ≡ Display e.now.place (trees (map tree _items.now)) }
    ensures moves { GoesOn functions.now frozen.now result going.old going.new budget (λ k. value_after k Plain (tree e.now)) }
    ensures used { going.new.state.used ≡ going.old.state.used }
{
    let Ok(node) = e.share() else {
        return Err(Halt::NoMemory);
    };
    let vals = Vals::new(going.alloc);
    next_item(going, functions, frozen, node, 0, vals, budget)
}

// A dict.
#[tactic(auto, using(py_frames::proofs::ExprKinds::dict_begins, py_frames::proofs::BeginLaws::no_memory))]
pub fn begun_dict(
    going: &mut Going,
    functions: &Functions,
    frozen: &Frozen,
    e: &Expr,
    _pairs: &[Pair],
    budget: u64,
) -> Result<Now, Halt>
    requires { tree e.now ≡ Dict e.now.place (pairs (map pair_tree _pairs.now)) }
    ensures moves { GoesOn functions.now frozen.now result going.old going.new budget (λ k. value_after k Plain (tree e.now)) }
    ensures used { going.new.state.used ≡ going.old.state.used }
{
    let Ok(node) = e.share() else {
        return Err(Halt::NoMemory);
    };
    let row = Vals::new(going.alloc);
    next_pair(going, functions, frozen, node, 0, row, budget)
}

// A list that a comprehension makes.
#[tactic(auto, using(py_frames::proofs::ExprKinds::list_of_begins, py_frames::proofs::BeginLaws::no_memory))]
pub fn begun_list_of(
    going: &mut Going,
    functions: &Functions,
    frozen: &Frozen,
    e: &Expr,
    _item: &Expr,
    _each: &Comprehension,
    budget: u64,
) -> Result<Now, Halt>
    requires seen { tree e.now ≡ ListOf e.now.place (tree _item.now) (each_of _each.now) }
    requires room { going.old.state.used < budget }
    ensures moves { GoesOn functions.now frozen.now result going.old going.new budget (λ k. value_after k Plain (tree e.now)) }
    ensures left { OnOk result (going.new.state.used < budget) }
    ensures grows { going.old.state.used ≤ going.new.state.used }
{
    let Ok(node) = e.share() else {
        return Err(Halt::NoMemory);
    };
    let comp = Comprehended {
        node,
        trailer: None,
    };
    begun_comprehension(going, functions, frozen, comp, budget)
}

// A dict that a comprehension makes.
#[tactic(auto, using(py_frames::proofs::ExprKinds::dict_of_begins, py_frames::proofs::BeginLaws::no_memory))]
pub fn begun_dict_of(
    going: &mut Going,
    functions: &Functions,
    frozen: &Frozen,
    e: &Expr,
    _pair: &Pair,
    _each: &Comprehension,
    budget: u64,
) -> Result<Now, Halt>
    requires seen { tree e.now ≡ DictOf e.now.place (pair_tree _pair.now).0 (pair_tree _pair.now).1 (each_of _each.now) }
    requires room { going.old.state.used < budget }
    ensures moves { GoesOn functions.now frozen.now result going.old going.new budget (λ k. value_after k Plain (tree e.now)) }
    ensures left { OnOk result (going.new.state.used < budget) }
    ensures grows { going.old.state.used ≤ going.new.state.used }
{
    let Ok(node) = e.share() else {
        return Err(Halt::NoMemory);
    };
    let comp = Comprehended {
        node,
        trailer: None,
    };
    begun_comprehension(going, functions, frozen, comp, budget)
}
