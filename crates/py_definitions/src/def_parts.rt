// The parts of a function; and its parameters that are evaluated, by their numbers.
ghost use Rattle.std.specs.Prelude.{◌≡◌, map, None, Some, MatchOption};
ghost use Rattle.py_tree.specs.Seen.{tree};
ghost use Rattle.py_tree.specs.Programs.{parameter_of, body_of};
ghost use Rattle.py_tree.specs.Tree.{absent, present};
ghost use Rattle.py_frames.specs.Def_frames.{parameters_from};
ghost use Rattle.py_frames.specs.Own.{body_name};
ghost use Rattle.py_frames.specs.Functions.{body_place};
ghost use Rattle.py_frames.specs.Statements.{parameters_of};
ghost use Rattle.py_definitions.specs.Def_begun.{default_in, annotation_in, first_default, first_annotation, result_of};

use amh_host::Place;
use py_tree::{Expr, Function, Param};

/// The place of a function's statement.
pub fn function_place(f: &Function) -> Place
    ensures { result ≡ body_place (body_of f.now) }
{
    f.place
}

/// The name of a function.
pub fn function_name(f: &Function) -> &str
    ensures { result.now ≡ body_name (body_of f.now) }
{
    f.name.as_str()
}

/// The parameters of a function.
pub fn function_params(f: &Function) -> &Vec<Param>
    ensures { map parameter_of result.now.items ≡ parameters_of (body_of f.now) }
{
    &f.params
}

/// The annotation of what a function gives.
pub fn function_result(f: &Function) -> Option<&Expr>
    ensures { MatchOption result (result_of (body_of f.now) ≡ absent) (λ e. result_of (body_of f.now) ≡ present (tree e.now)) }
{
    f.result.as_ref()
}

// The default of a parameter.
fn default_in(param: &Param) -> Option<&Expr>
    ensures { MatchOption result (default_in (parameter_of param.now) ≡ absent) (λ e. default_in (parameter_of param.now) ≡ present (tree e.now)) }
{
    match param {
        Param::Named {
            place: _,
            name: _,
            annotation: _,
            default,
        } => default.as_ref(),
        Param::Star(_) => None,
    }
}

// The annotation of a parameter.
fn annotation_in(param: &Param) -> Option<&Expr>
    ensures { MatchOption result (annotation_in (parameter_of param.now) ≡ absent) (λ e. annotation_in (parameter_of param.now) ≡ present (tree e.now)) }
{
    match param {
        Param::Named {
            place: _,
            name: _,
            annotation,
            default: _,
        } => annotation.as_ref(),
        Param::Star(_) => None,
    }
}

/// The first default of the parameters from this number on, with its number.
#[tactic(auto, using(crate::proofs::ParamLaws::default_rules))]
pub fn next_default(params: &Vec<Param>, n: u64) -> Option<(u64, &Expr)>
    ensures { MatchOption result (first_default n (parameters_from n (map parameter_of params.now.items)) ≡ None) (λ x. first_default n (parameters_from n (map parameter_of params.now.items)) ≡ Some (x.0, tree x.1.now)) }
{
    if n >= params.len() as u64 {
        return None;
    }
    for i in n as usize..params.len() {
        if let Some(e) = default_in(&params[i]) {
            return Some((i as u64, e));
        }
    }
    None
}

/// The first annotation of the parameters from this number on, with its number.
#[tactic(auto, using(crate::proofs::ParamLaws::annotation_rules))]
pub fn next_annotation(params: &Vec<Param>, n: u64) -> Option<(u64, &Expr)>
    ensures { MatchOption result (first_annotation n (parameters_from n (map parameter_of params.now.items)) ≡ None) (λ x. first_annotation n (parameters_from n (map parameter_of params.now.items)) ≡ Some (x.0, tree x.1.now)) }
{
    if n >= params.len() as u64 {
        return None;
    }
    for i in n as usize..params.len() {
        if let Some(e) = annotation_in(&params[i]) {
            return Some((i as u64, e));
        }
    }
    None
}
