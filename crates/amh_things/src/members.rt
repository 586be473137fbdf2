// Members among things.
ghost use Rattle.std.specs.Prelude.{◌≡◌, ◌<◌, ◌==◌, drop, length, IfSome};
ghost use Rattle.std.specs.List.{position};
ghost use Rattle.std.specs.Ordering.{int_eq};
ghost use Rattle.amh_things.specs.Members.{is_member, numbered_by, enumeration_of, equal_members, equal_number};

use crate::thing::{Member, Thing};
use amh_bits::Int;
use design_ir::ExprId;
use py_values::Hw;

pub fn is_same_number(a: Int, b: Int) -> bool
    ensures { result ≡ int_eq a b }
{
    a == b
}

fn is_same_thing(a: Hw, b: Hw) -> bool
    ensures { result ≡ (a.0 == b.0) }
{
    a.0 == b.0
}

// Whether a thing is the member of an enumeration that has a number.
fn is_member(t: &Thing, of: Hw, number: Int) -> bool
    ensures { result ≡ is_member of number t.now }
{
    match t {
        Thing::Member(m) => is_same_thing(m.of, of) && is_same_number(m.number, number),
        _ => false,
    }
}

/// Where the first such member stands among these things.
pub fn member_place(things: &[Thing], of: Hw, number: Int) -> Option<usize>
    ensures place { result ≡ position (is_member of number) things.now }
    ensures within { IfSome result (λ i. i < length things.now) }
{
    things.iter().position(|t| is_member(t, of, number))
}

/// The things from a number on.
pub fn behind(things: &[Thing], count: usize) -> &[Thing]
    ensures { result.now ≡ drop count things.now }
{
    if count > things.len() {
        return &[];
    }
    let (_, behind) = things.split_at(count);
    behind
}

/// The enumeration whose shape an expression has as one of these things.
pub fn enumeration_of(e: ExprId, things: &[Thing]) -> Option<Hw>
    ensures { result ≡ enumeration_of e things.now }
{
    for t in things {
        match numbered_by(e, t) {
            Some(of) => return Some(of),
            None => {}
        }
    }
    None
}

// The enumeration whose shape an expression has as this thing.
fn numbered_by(e: ExprId, t: &Thing) -> Option<Hw>
    ensures { result ≡ numbered_by e t.now }
{
    match t {
        Thing::Numbered { of, value } => { if value.0 == e.0 { Some(*of) } else { None } }
        _ => None,
    }
}

/// Whether two members are equal in Python.
pub fn equal_members(x: &Member, y: &Member) -> bool
    ensures { result ≡ equal_members x.now y.now }
{
    is_same_number(x.number, y.number)
        && (is_same_thing(x.of, y.of) || (x.is_integer && y.is_integer))
}

/// Whether a member and a number are equal in Python.
pub fn equal_number(x: &Member, n: Option<Int>) -> bool
    ensures { result ≡ equal_number x.now n }
{
    match n {
        Some(n) => x.is_integer && is_same_number(x.number, n),
        None => false,
    }
}
