// Members where a number is wanted, and what Python answers to a comparison of members.
ghost use Rattle.std.specs.Prelude.{◌≡◌, map, not, IfOk};
ghost use Rattle.std.specs.Option.{option_copied};
ghost use Rattle.amh_things.specs.Members.{plain, counted, equal_value, equal_where, equal_as_python, by_sign, compared};
ghost use Rattle.amh_things.specs.Things.{shown_member, thing_of};

use crate::members::{equal_members, equal_number};
use crate::operand::number_of;
use crate::texts::is_text;
use crate::thing::Member;
use crate::values::Values;
use amh_bits::Int;
use lists::NoMemory;
use py_values::{Number, Val, Vals};
use std::alloc::Global;

// The member that a value of the program is.
fn member_meant<'a>(values: &'a Values, v: &Val) -> Option<&'a Member>
    ensures { option_copied result ≡ shown_member (thing_of values.now v.now) }
{
    match v {
        Val::Hw(hw) => values.shown_member(*hw),
        _ => None,
    }
}

/// The number of a member, and any other value as it is.
pub fn plain(values: &Values, v: &Val) -> Val
    ensures { result ≡ plain values.now v.now }
{
    match member_meant(values, v) {
        Some(m) => Val::Int(Number::of(m.number)),
        None => *v,
    }
}

/// The numbers of members, and all other values as they are: what patterns are made of.
pub fn all_plain(alloc: Global, values: &Values, vals: &[Val]) -> Result<Vals, NoMemory>
    ensures { IfOk result (λ all. all ≡ map (plain values.now) vals.now) }
{
    let mut all = Vals::new(alloc);
    for v in vals {
        all.push(plain(values, v))?;
    }
    Ok(all)
}

/// The number that an integer, a boolean or a member is.
pub fn counted(values: &Values, v: &Val) -> Option<Int>
    ensures { result ≡ counted values.now v.now }
{
    number_of(&plain(values, v))
}

// Whether a member and a value of Python are equal.
fn equal_value(x: &Member, v: &Val) -> Option<bool>
    ensures { result ≡ equal_value x.now v.now }
{
    match v {
        Val::Hw(_) => None,
        _ => Some(equal_number(x, number_of(v))),
    }
}

fn equal_where(x: Option<&Member>, y: Option<&Member>, a: &Val, b: &Val) -> Option<bool>
    ensures { result ≡ equal_where (option_copied x.entry) (option_copied y.entry) a.now b.now }
{
    match x {
        Some(x) => match y {
            Some(y) => Some(equal_members(x, y)),
            None => equal_value(x, b),
        },
        None => match y {
            Some(y) => equal_value(y, a),
            None => None,
        },
    }
}

fn equal_as_python(values: &Values, a: &Val, b: &Val) -> Option<bool>
    ensures { result ≡ equal_as_python values.now a.now b.now }
{
    let x = member_meant(values, a);
    let y = member_meant(values, b);
    equal_where(x, y, a, b)
}

fn by_sign(sign: &str, equal: bool) -> Option<bool>
    ensures { result ≡ by_sign sign.now equal }
{
    if is_text(sign, "==") {
        Some(equal)
    } else if is_text(sign, "!=") {
        Some(!equal)
    } else {
        None
    }
}

/// What Python answers to a comparison, where it is one of members, or of a member and a value of Python.
pub fn compared(values: &Values, a: &Val, b: &Val, sign: &str) -> Option<bool>
    ensures { result ≡ compared values.now a.now b.now sign.now }
{
    match equal_as_python(values, a, b) {
        Some(equal) => by_sign(sign, equal),
        None => None,
    }
}
