// The words of imports: modules, names, and what is asked for one.
ghost use Rattle.std.specs.Prelude.{◌≡◌, ◌<◌, ◌+◌, ◌++◌, [], ◌∷◌, map, IfOk, OnOk, MatchOption};
ghost use Rattle.py_tree.specs.Programs.{import_of};
ghost use Rattle.py_frames.specs.declared.request.Act.TheVariants as act;
ghost use Rattle.py_frames.specs.Asking.{request};
ghost use Rattle.py_frames.specs.Own.{imported_as};
ghost use Rattle.py_frames.specs.Statements.{dotted, with_dots};
ghost use Rattle.py_frames.specs.Stmt_frames.{imports_from};

use amh_host::{Names, NoMemory, Place, Text};
use py_frames::request::{Act, Request};
use py_tree::{Imported, Name};
use py_values::Vals;
use std::alloc::Global;

// Adds these names, each behind a dot.
#[tactic(auto, using(crate::proofs::ImportLaws::dot_rules))]
fn add_dotted(text: &mut Text, names: &[Name]) -> Result<(), NoMemory>
    ensures { OnOk result (text.new ≡ text.old ++ with_dots names.now) }
{
    for name in names {
        match text.push(".") {
            Ok(()) => {}
            Err(e) => return Err(e),
        }
        match text.push(name.as_str()) {
            Ok(()) => {}
            Err(e) => return Err(e),
        }
    }
    Ok(())
}

// A module by its names, with a dot between each two.
#[tactic(auto, using(crate::proofs::ImportLaws::module_rules))]
fn module_name(alloc: Global, path: &[Name]) -> Result<Text, NoMemory>
    ensures { IfOk result (λ text. text ≡ dotted path.now) }
{
    let mut text = Text::new(alloc);
    let Some((first, others)) = path.split_first() else {
        return Ok(text);
    };
    match text.push(first.as_str()) {
        Ok(()) => {}
        Err(e) => return Err(e),
    }
    match add_dotted(&mut text, others) {
        Ok(()) => Ok(text),
        Err(e) => Err(e),
    }
}

/// The request for a name of a module.
pub fn import_request(
    alloc: Global,
    path: &[Name],
    name: &str,
    place: Place,
) -> Result<Request, NoMemory>
    ensures { IfOk result (λ r. r ≡ request act.Import [] (dotted path.now ∷ name.now ∷ []) place) }
{
    let Ok(module) = module_name(alloc, path) else {
        return Err(NoMemory);
    };
    let mut names = Names::new(alloc);
    let Ok(()) = names.push(module.as_str()) else {
        return Err(NoMemory);
    };
    match names.push(name) {
        Ok(()) => Ok(Request {
            act: Act::Import,
            vals: Vals::new(alloc),
            names,
            place,
        }),
        Err(e) => Err(e),
    }
}

/// The imported name of this number, and none past the last.
#[tactic(auto, using(crate::proofs::ImportLaws::import_rules))]
pub fn import_at(names: &Vec<Imported>, n: u64) -> Option<&Imported>
    ensures { MatchOption result (imports_from n (map import_of names.now.items) ≡ []) (λ x. (imports_from n (map import_of names.now.items) ≡ import_of x.now ∷ imports_from (n + 1) (map import_of names.now.items)) × (n < 18446744073709551615)) }
{
    if n >= names.len() as u64 {
        return None;
    }
    Some(&names[n as usize])
}

/// The name that an imported one is bound to.
pub fn imported_as(x: &Imported) -> &Name
    ensures { result.now ≡ imported_as (import_of x.now).name (import_of x.now).bound }
{
    match &x.bound {
        Some(other) => other,
        None => &x.name,
    }
}
