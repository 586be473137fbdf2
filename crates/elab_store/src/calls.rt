// The arguments of calls.
ghost use Rattle.std.specs.Prelude.{◌≡◌, ◌-◌, [], length, map, take, drop, string_bytes};
ghost use Rattle.py_values.specs.declared.val.Val.TheVariants as val;
ghost use Rattle.elab_store.specs.Calls.{Called, called, first_or, behind_first, placed_count};
ghost use Rattle.elab_store.specs.Seen.{called_of};

use py_frames::request::Request;
use py_values::Val;

/// What is called, the arguments by place, those by keyword, and the name to which the call is assigned.
#[derive(Drop)]
pub struct Called<'a> {
    pub callee: Val,
    pub placed: &'a [Val],
    pub keywords: &'a [String],
    pub keyword_vals: &'a [Val],
    pub name: &'a str,
}

pub fn first_val(vals: &[Val]) -> Val
    ensures { result ≡ first_or val.None vals.now }
{
    match vals {
        [] => Val::None,
        [first, ..] => *first,
    }
}

pub fn vals_behind(vals: &[Val]) -> &[Val]
    ensures { result.now ≡ behind_first vals.now }
{
    match vals {
        [] => vals,
        [_, rest @ ..] => rest,
    }
}

fn first_name(names: &[String]) -> &str
    ensures { result.now ≡ first_or [] (map string_bytes names.now) }
{
    match names {
        [] => "",
        [first, ..] => first.as_str(),
    }
}

pub fn names_behind(names: &[String]) -> &[String]
    ensures { map string_bytes result.now ≡ behind_first (map string_bytes names.now) }
{
    match names {
        [] => names,
        [_, rest @ ..] => rest,
    }
}

impl<'a> Called<'a> {
    /// The call that a request asks about.
    pub fn of(request: &'a Request) -> Called<'a>
        ensures { called_of result ≡ called request.now.vals request.now.names }
    {
        let vals = request.vals.as_slice();
        let names = request.names.items();
        let args = vals_behind(vals);
        let keywords = names_behind(names);
        let placed = args.len().saturating_sub(keywords.len());
        Called {
            callee: first_val(vals),
            placed: &args[..placed],
            keywords,
            keyword_vals: &args[placed..],
            name: first_name(names),
        }
    }
}
