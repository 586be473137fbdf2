// The arguments of a call, by their numbers.
ghost use Rattle.std.specs.Prelude.{◌≡◌, IfOk, map};
ghost use Rattle.py_tree.specs.Tree.{arguments};
ghost use Rattle.std.specs.Option.{option_copied, option_map};
ghost use Rattle.py_tree.specs.Seen.{tree, trailer_of, argument_of};
ghost use Rattle.py_frames.specs.Parts.{trailers_from, arguments_from};
ghost use Rattle.py_frames.specs.Functions.{named_val};
ghost use Rattle.py_frames.specs.Call_frames.{trailers_of, call_arguments};
ghost use Rattle.py_calls.specs.Arguing.{arguments_in};
ghost use Rattle.py_frames.specs.Trailing.{first_argument, argument_tree};

use amh_host::{NoMemory, Text};
use py_frames::request::NamedVal;
use py_frames::trail_leaf::trailer_at;
use py_tree::{Argument, Expr, Name, Trailer};
use py_values::Val;
use std::alloc::Global;

// The argument of a number.
#[tactic(auto, using(crate::proofs::ArgumentLaws::argument_get))]
fn argument_of_number(list: &[Argument], at: u64) -> Option<&Argument>
    ensures { option_map argument_of (option_copied result) ≡ first_argument (arguments_from at (arguments (map argument_of list.now))) }
{
    list.get(at as usize)
}

// The argument of a number, of what trails.
#[tactic(auto, using(crate::proofs::ArgumentLaws::argument_none))]
fn argument_in(trailer: &Trailer, at: u64) -> Option<&Argument>
    ensures { option_map argument_of (option_copied result) ≡ first_argument (arguments_from at (arguments_in (trailer_of trailer.now))) }
{
    match trailer {
        Trailer::Call(list) => argument_of_number(list.as_slice(), at),
        _ => None,
    }
}

/// The argument of a number, of the call that trails at another.
#[tactic(auto, using(crate::proofs::ArgumentLaws::call_rules))]
pub fn argument_at(node: &Expr, trailer: u64, at: u64) -> Option<&Argument>
    ensures { option_map argument_of (option_copied result) ≡ first_argument (arguments_from at (call_arguments (trailers_from trailer (trailers_of (tree node.now))))) }
{
    match trailer_at(node, trailer) {
        Some(t) => argument_in(t, at),
        None => None,
    }
}

/// The expression of an argument.
pub fn argument_expr(argument: &Argument) -> &Expr
    ensures { tree result.now ≡ argument_tree (argument_of argument.now) }
{
    match argument {
        Argument::Positional(e) => e,
        Argument::Starred(e) => e,
        Argument::Keyword(_, e) => e,
    }
}

/// A value by its keyword.
pub fn named_val(alloc: Global, name: &Name, val: Val) -> Result<NamedVal, NoMemory>
    ensures { IfOk result (λ x. x ≡ named_val name.now val) }
{
    let mut text = Text::new(alloc);
    match text.push(name.as_str()) {
        Ok(()) => Ok(NamedVal { name: text, val }),
        Err(_) => Err(NoMemory),
    }
}
