// The values of names: what the scopes say, and behind them the builtins.
ghost use Rattle.std.specs.Prelude.{◌≡◌, option_map};
ghost use Rattle.lists.specs.Texts.{text_eq};
ghost use Rattle.py_heap.specs.Heaps.{seen};
ghost use Rattle.py_heap.specs.Names.{look_up};
ghost use Rattle.py_frames.specs.Values.{builtin_value, builtin_from, builtin_names, read};
ghost use Rattle.py_frames.specs.Expr_parts.{name_value, func_val, later_names};
ghost use Rattle.py_frames.specs.Frames.{GoesOn};

use crate::frame::Now;
use crate::functions::Functions;
use crate::going::{Going, stopped};
use crate::request::Cause;
use crate::state::{Got, Halt};
use amh_host::Place;
use py_heap::{Frozen, LookUp};
use py_tree::Name;
use py_values::{FuncId, StrId, Val};

#[tactic(auto, using(crate::proofs::ExprNames::text_eq_sym))]
fn is_name(this: &str, name: &Name) -> bool
    ensures { result ≡ text_eq this.now name.now }
{
    name.is(this)
}

// The number of a builtin, among the functions of the heap.
fn builtin_number(name: &Name) -> Option<u32>
    ensures { option_map func_val result ≡ builtin_from 0 name.now builtin_names }
{
    if is_name("range", name) {
        return Some(0);
    }
    if is_name("len", name) {
        return Some(1);
    }
    if is_name("int", name) {
        return Some(2);
    }
    if is_name("str", name) {
        return Some(3);
    }
    if is_name("bool", name) {
        return Some(4);
    }
    if is_name("list", name) {
        return Some(5);
    }
    if is_name("tuple", name) {
        return Some(6);
    }
    if is_name("dict", name) {
        return Some(7);
    }
    later_builtin(name)
}

fn later_builtin(name: &Name) -> Option<u32>
    ensures { option_map func_val result ≡ builtin_from 8 name.now later_names }
{
    if is_name("enumerate", name) {
        return Some(8);
    }
    if is_name("zip", name) {
        return Some(9);
    }
    if is_name("reversed", name) {
        return Some(10);
    }
    if is_name("min", name) {
        return Some(11);
    }
    if is_name("max", name) {
        return Some(12);
    }
    if is_name("sum", name) {
        return Some(13);
    }
    if is_name("abs", name) {
        return Some(14);
    }
    if is_name("print", name) {
        return Some(15);
    }
    if is_name("super", name) {
        return Some(16);
    }
    None
}

/// What stands behind the module's names.
pub fn builtin_value(name: &Name) -> Option<Val>
    ensures { result ≡ builtin_value name.now }
{
    if is_name("__name__", name) {
        return Some(Val::Str(StrId(0)));
    }
    match builtin_number(name) {
        Some(n) => Some(Val::Func(FuncId(n))),
        None => None,
    }
}

/// The value of a name where the evaluation stands.
pub fn name_value(going: &Going, frozen: &Frozen, name: &Name) -> Option<Val>
    ensures { result ≡ name_value (look_up (seen frozen.now going.now.state.heap) going.now.state.here.scope.0 name.now) name.now }
{
    match going
        .state
        .heap
        .look_up(frozen, going.state.here.scope, name.as_str())
    {
        LookUp::Found(v) => Some(v),
        LookUp::Unbound => None,
        LookUp::Nowhere => builtin_value(name),
    }
}

/// Reads a name.
#[tactic(auto, using(crate::proofs::ExprKinds::read_found, crate::proofs::ExprKinds::read_none))]
pub fn read_name(
    going: &mut Going,
    _functions: &Functions,
    frozen: &Frozen,
    name: &Name,
    place: Place,
    _budget: u64,
) -> Result<Now, Halt>
    ensures moves { GoesOn _functions.now frozen.now result going.old going.new _budget (λ k. read k name.now place) }
    ensures used { going.new.state.used ≡ going.old.state.used }
{
    match name_value(going, frozen, name) {
        Some(v) => Ok(Now::Came(Got::Value(v))),
        None => Err(stopped(Cause::Raised, place)),
    }
}
