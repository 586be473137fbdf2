// Imports.
ghost use Rattle.std.specs.Prelude.{◌≡◌, ◌<◌, length, slice_get, is_some, Some, IfOk, [], codes};
ghost use Rattle.lists.specs.Texts.{text_eq};
ghost use Rattle.amh_things.specs.Things.{name_called};
ghost use Rattle.elab_components.specs.Imports.{is_hdl, is_utils, wrapper_named, own_named, star_names, hdl_imported, all_bound, utility_imported, is_sim, sim_named, simulator_bound, sim_imported, imported, import_answered};
ghost use Rattle.elab_store.specs.Held.{held_of, Gives};

use crate::libraries::{give_base, give_layout, give_library, is_data, is_enum, library_named};
use amh_host::Text;
use elab_store::kept::{HdlName, Kept};
use elab_store::names::is_text;
use elab_store::store::Elaboration;
use lists::NoMemory;
use py_frames::request::{Answer, Cause, NamedVal, NamedVals, Request};
use py_values::{FuncId, Val};
use std::alloc::Global;

/// How many names a star brings.
const STAR: usize = 17;

// The name of a wrapper of clock domains that is spelled so.
fn wrapper_named(name: &str) -> Option<HdlName>
    ensures { result ≡ wrapper_named name.now }
{
    if is_text(name, "DomainRenamer") {
        Some(HdlName::DomainRenamer)
    } else if is_text(name, "ResetInserter") {
        Some(HdlName::ResetInserter)
    } else if is_text(name, "EnableInserter") {
        Some(HdlName::EnableInserter)
    } else {
        None
    }
}

// The name that is served here and is spelled so.
fn own_named(name: &str) -> Option<HdlName>
    ensures { result ≡ own_named name.now }
{
    if is_text(name, "Module") {
        Some(HdlName::Module)
    } else if is_text(name, "Signal") {
        Some(HdlName::Signal)
    } else if is_text(name, "Elaboratable") {
        Some(HdlName::Elaboratable)
    } else if is_text(name, "Shape") {
        Some(HdlName::Shape)
    } else if is_text(name, "Value") {
        Some(HdlName::Value)
    } else if is_text(name, "ClockDomain") {
        Some(HdlName::ClockDomain)
    } else if is_text(name, "ResetSignal") {
        Some(HdlName::ResetSignal)
    } else {
        wrapper_named(name)
    }
}

// Whether a name is one of those that make shapes, values and arrays.
fn is_value_name(name: &str) -> bool
    ensures { result ≡ is_some (name_called name.now) }
{
    is_text(name, "Const")
        || is_text(name, "C")
        || is_text(name, "Cat")
        || is_text(name, "Mux")
        || is_text(name, "Array")
        || is_text(name, "unsigned")
        || is_text(name, "signed")
}

// The names that a star brings, in order.
fn star_name(i: usize) -> &'static str
    requires { i < 17 }
    ensures { slice_get star_names i ≡ Some result.now }
{
    match i {
        0 => "Module",
        1 => "Signal",
        2 => "Const",
        3 => "C",
        4 => "Cat",
        5 => "Mux",
        6 => "Array",
        7 => "Shape",
        8 => "Value",
        9 => "unsigned",
        10 => "signed",
        11 => "Elaboratable",
        12 => "ClockDomain",
        13 => "ResetSignal",
        14 => "DomainRenamer",
        15 => "ResetInserter",
        _ => "EnableInserter",
    }
}

fn is_hdl(path: &str) -> bool
    ensures { result ≡ is_hdl path.now }
{
    is_text(path, "amaranth") || is_text(path, "amaranth.hdl")
}

fn is_utils(path: &str) -> bool
    ensures { result ≡ is_utils path.now }
{
    is_text(path, "amaranth.utils")
}

fn is_sim(path: &str) -> bool
    ensures { result ≡ is_sim path.now }
{
    is_text(path, "amaranth.sim")
}

fn sim_named(name: &str) -> Option<HdlName>
    ensures { result ≡ sim_named name.now }
{
    if is_text(name, "Simulator") {
        Some(HdlName::Simulator)
    } else {
        None
    }
}

/// A name with its value.
pub fn named_val(alloc: Global, name: &str, val: Val) -> Result<NamedVal, NoMemory>
    ensures { IfOk result (λ x. x ≡ record { name = name.now; val = val }) }
{
    let mut copy = Text::new(alloc);
    copy.push(name)?;
    Ok(NamedVal { name: copy, val })
}

/// An imported name, or all names of a module.
pub fn import(elaboration: &mut Elaboration, request: &Request) -> Result<Answer, NoMemory>
    ensures { Gives result elaboration.new (import_answered request.now.names (held_of elaboration.old)) }
{
    match request.names.items() {
        [path, name] => import_from(elaboration, path.as_str(), name.as_str()),
        _ => elaboration.refuse(Cause::Raised),
    }
}

fn import_from(elaboration: &mut Elaboration, path: &str, name: &str) -> Result<Answer, NoMemory>
    ensures { Gives result elaboration.new (imported path.now name.now (held_of elaboration.old)) }
{
    if is_hdl(path) {
        if is_text(name, "*") {
            import_all(elaboration)
        } else {
            import_hdl(elaboration, name)
        }
    } else if is_utils(path) {
        import_utility(elaboration, name)
    } else if is_enum(path) {
        give_base(elaboration, name)
    } else if is_data(path) {
        give_layout(elaboration, name)
    } else if is_sim(path) {
        import_sim(elaboration, name)
    } else {
        give_library(elaboration, library_named(path, name))
    }
}

// One name of `amaranth`.
fn import_hdl(elaboration: &mut Elaboration, name: &str) -> Result<Answer, NoMemory>
    ensures { Gives result elaboration.new (hdl_imported name.now (held_of elaboration.old)) }
{
    if let Some(own) = own_named(name) {
        return elaboration.give_kept(Kept::Name(own));
    }
    if is_value_name(name) {
        let v = elaboration.store.name(name)?;
        return elaboration.give(v);
    }
    elaboration.refuse(Cause::Raised)
}

// All names of `amaranth`.
fn import_all(elaboration: &mut Elaboration) -> Result<Answer, NoMemory>
    ensures { Gives result elaboration.new (all_bound [] star_names (held_of elaboration.old)) }
{
    let mut names = NamedVals::new(elaboration.alloc);
    for i in 0..STAR {
        let name = star_name(i);
        match import_hdl(elaboration, name)? {
            Answer::Give(val) => names.push(named_val(elaboration.alloc, name, val)?)?,
            answer => return Ok(answer),
        }
    }
    Ok(Answer::Bind(names))
}

// The two functions of `amaranth.utils` stand behind the builtins.
fn import_utility(elaboration: &mut Elaboration, name: &str) -> Result<Answer, NoMemory>
    ensures { Gives result elaboration.new (utility_imported name.now (held_of elaboration.old)) }
{
    if is_text(name, "ceil_log2") {
        elaboration.give(Val::Func(FuncId(17)))
    } else if is_text(name, "bits_for") {
        elaboration.give(Val::Func(FuncId(18)))
    } else {
        elaboration.refuse(Cause::Raised)
    }
}

// `amaranth.sim`: its one name, also by a star.
fn import_sim(elaboration: &mut Elaboration, name: &str) -> Result<Answer, NoMemory>
    ensures { Gives result elaboration.new (sim_imported name.now (held_of elaboration.old)) }
{
    if is_text(name, "*") {
        bind_simulator(elaboration)
    } else {
        give_library(elaboration, sim_named(name))
    }
}

fn bind_simulator(elaboration: &mut Elaboration) -> Result<Answer, NoMemory>
    ensures { Gives result elaboration.new (simulator_bound (held_of elaboration.old)) }
{
    let val = elaboration.store.keep(Kept::Name(HdlName::Simulator))?;
    let mut names = NamedVals::new(elaboration.alloc);
    names.push(named_val(elaboration.alloc, "Simulator", val)?)?;
    Ok(Answer::Bind(names))
}
