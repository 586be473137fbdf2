// What the store is told of names and their values.
ghost use Rattle.std.specs.Prelude.{◌≡◌, ◌++◌, ◌∷◌, OnOk, IfOk, codes};
ghost use Rattle.std.specs.Option.{option_copied};
ghost use Rattle.py_heap.specs.Names.{bindings_in, bindings_at};
ghost use Rattle.py_heap.specs.Heaps.{seen};
ghost use Rattle.py_frames.specs.declared.request.Act.TheVariants as act;
ghost use Rattle.py_frames.specs.Asking.{request};
ghost use Rattle.py_frames.specs.Values.{named_vals, named_names};
ghost use Rattle.py_frames.specs.Statements.{bound_names, with_mark};

use amh_host::{Names, NoMemory, Place, Text};
use py_frames::request::{Act, NamedVals, Request};
use py_heap::{Frozen, Heap};
use py_turns::expr_values::named_val;
use py_values::{Bindings, Scope, ScopeId, Val, Vals};
use std::alloc::Global;

// The names of bindings and their values.
#[tactic(auto, using(crate::proofs::WordLaws::listed_rules))]
fn listed(alloc: Global, bindings: &Bindings) -> Result<NamedVals, NoMemory>
    ensures { IfOk result (λ xs. xs ≡ bound_names bindings.now) }
{
    let mut names = NamedVals::new(alloc);
    for i in 0..bindings.len() {
        let (name, v) = bindings.at(i);
        let Ok(named) = named_val(alloc, name, v) else {
            return Err(NoMemory);
        };
        match names.push(named) {
            Ok(()) => {}
            Err(_) => return Err(NoMemory),
        }
    }
    Ok(names)
}

// Those of a scope, where there is one.
fn listed_in(alloc: Global, found: Option<&Scope>) -> Result<NamedVals, NoMemory>
    ensures { IfOk result (λ xs. xs ≡ bound_names (bindings_in (option_copied found.entry))) }
{
    match found {
        Some(scope) => listed(alloc, &scope.bindings),
        None => Ok(NamedVals::new(alloc)),
    }
}

/// The names that a scope binds, and their values.
pub fn names_bound(
    alloc: Global,
    heap: &Heap,
    frozen: &Frozen,
    scope: ScopeId,
) -> Result<NamedVals, NoMemory>
    ensures { IfOk result (λ xs. xs ≡ bound_names (bindings_at (seen frozen.now heap.now) scope.0)) }
{
    listed_in(alloc, heap.scope_at(frozen, scope))
}

// Adds the values of these names to the values of a request.
#[tactic(auto, using(crate::proofs::WordLaws::vals_rules))]
fn add_vals(vals: &mut Vals, names: &NamedVals) -> Result<(), NoMemory>
    ensures { OnOk result (vals.new ≡ vals.old ++ named_vals names.now) }
{
    for named in names.as_slice() {
        match vals.push(named.val) {
            Ok(()) => {}
            Err(_) => return Err(NoMemory),
        }
    }
    Ok(())
}

// A name behind a mark.
fn marked(alloc: Global, mark: &str, name: &str) -> Result<Text, NoMemory>
    ensures { IfOk result (λ text. text ≡ mark.now ++ name.now) }
{
    let mut text = Text::new(alloc);
    match text.push(mark) {
        Ok(()) => {}
        Err(_) => return Err(NoMemory),
    }
    match text.push(name) {
        Ok(()) => Ok(text),
        Err(_) => Err(NoMemory),
    }
}

// Adds these names, each behind a mark, to the names of a request.
#[tactic(auto, using(crate::proofs::WordLaws::marked_rules))]
fn add_marked(alloc: Global, all: &mut Names, mark: &str, names: &NamedVals) -> Result<(), NoMemory>
    ensures { OnOk result (all.new ≡ all.old ++ with_mark mark.now names.now) }
{
    for named in names.as_slice() {
        let Ok(text) = marked(alloc, mark, named.name.as_str()) else {
            return Err(NoMemory);
        };
        match all.push(text.as_str()) {
            Ok(()) => {}
            Err(_) => return Err(NoMemory),
        }
    }
    Ok(())
}

/// The request that tells the end of a class: the class, its base, the values of its keywords, its annotations and its
/// bindings; and their names, each kind behind a mark of its own.
pub fn class_request(
    alloc: Global,
    class: Val,
    base: Val,
    name: &str,
    keywords: &NamedVals,
    notes: &NamedVals,
    bindings: &NamedVals,
    place: Place,
) -> Result<Request, NoMemory>
    ensures { IfOk result (λ r. r ≡ request act.ClassMade (class ∷ base ∷ (named_vals keywords.now ++ (named_vals notes.now ++ named_vals bindings.now))) (name.now ∷ (with_mark (codes "=") keywords.now ++ (with_mark (codes ":") notes.now ++ with_mark (codes ".") bindings.now))) place) }
{
    let Ok(vals) = class_vals(alloc, class, base, keywords, notes, bindings) else {
        return Err(NoMemory);
    };
    let Ok(names) = class_names(alloc, name, keywords, notes, bindings) else {
        return Err(NoMemory);
    };
    Ok(Request {
        act: Act::ClassMade,
        vals,
        names,
        place,
    })
}

#[tactic(auto, using(crate::proofs::WordLaws::joined_rules))]
fn class_vals(
    alloc: Global,
    class: Val,
    base: Val,
    keywords: &NamedVals,
    notes: &NamedVals,
    bindings: &NamedVals,
) -> Result<Vals, NoMemory>
    ensures { IfOk result (λ vs. vs ≡ class ∷ base ∷ (named_vals keywords.now ++ (named_vals notes.now ++ named_vals bindings.now))) }
{
    let mut vals = Vals::new(alloc);
    let Ok(()) = vals.push_pair(class, base) else {
        return Err(NoMemory);
    };
    let Ok(()) = add_vals(&mut vals, keywords) else {
        return Err(NoMemory);
    };
    let Ok(()) = add_vals(&mut vals, notes) else {
        return Err(NoMemory);
    };
    match add_vals(&mut vals, bindings) {
        Ok(()) => Ok(vals),
        Err(e) => Err(e),
    }
}

#[tactic(auto, using(crate::proofs::WordLaws::joined_rules))]
fn class_names(
    alloc: Global,
    name: &str,
    keywords: &NamedVals,
    notes: &NamedVals,
    bindings: &NamedVals,
) -> Result<Names, NoMemory>
    ensures { IfOk result (λ ns. ns ≡ name.now ∷ (with_mark (codes "=") keywords.now ++ (with_mark (codes ":") notes.now ++ with_mark (codes ".") bindings.now))) }
{
    let mut names = Names::new(alloc);
    let Ok(()) = names.push(name) else {
        return Err(NoMemory);
    };
    let Ok(()) = add_marked(alloc, &mut names, "=", keywords) else {
        return Err(NoMemory);
    };
    let Ok(()) = add_marked(alloc, &mut names, ":", notes) else {
        return Err(NoMemory);
    };
    match add_marked(alloc, &mut names, ".", bindings) {
        Ok(()) => Ok(names),
        Err(e) => Err(e),
    }
}

/// The request that tells the end of a file's body, with the names of the module.
#[tactic(auto, using(crate::proofs::WordLaws::end_rules))]
pub fn end_request(alloc: Global, names: &NamedVals, place: Place) -> Result<Request, NoMemory>
    ensures { IfOk result (λ r. r ≡ request act.BodyEnd (named_vals names.now) (named_names names.now) place) }
{
    let mut vals = Vals::new(alloc);
    let Ok(()) = add_vals(&mut vals, names) else {
        return Err(NoMemory);
    };
    let mut words = Names::new(alloc);
    match add_marked(alloc, &mut words, "", names) {
        Ok(()) => Ok(Request {
            act: Act::BodyEnd,
            vals,
            names: words,
            place,
        }),
        Err(e) => Err(e),
    }
}
