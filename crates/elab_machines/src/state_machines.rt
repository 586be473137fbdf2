// The state machines of a module: `m.FSM(..)`, `m.State(..)`, `m.next` and `ongoing`.
ghost use Rattle.std.specs.Prelude.{◌≡◌, true, ◌<◌, length, map, drop, string_bytes, Some, None, IfOk, IfSome, OnOk, slice_get, option_map, option_and_then};
ghost use Rattle.std.specs.Option.{option_copied};
ghost use Rattle.py_heap.specs.Heaps.{seen};
ghost use Rattle.elab_store.specs.Seen.{called_of};
ghost use Rattle.elab_machines.specs.StateMachines.{part_named, part_attribute, machine_once, machine_keyword, machine_keywords, machine_placed, machine_arguments, state_string, name_string, init_said, name_said, is_clocked, domain_string, domain_said, domain_name, machine_said, machine_from, one_argument, state_argument, state_said, stop_told, register_name, init_name, is_placed, machine_made, machine_begun, machine_entered, state_entered, state_left, machine_left, next_said, next_stored, next_goes, moved, ongoing_said, part_called, part_entered, part_left};
ghost use Rattle.elab_machines.specs.Moves.{action_moves};
ghost use Rattle.elab_store.specs.Sound.{IsSound};
ghost use Rattle.elab_store.specs.Held.{held_of, Gives};

use crate::machine_moves::{
    Action, act_on_innermost, ask_machine, has_place, move_innermost, put_machine,
};
use amh_host::Place;
use amh_things::thing::Reading;
use design_ir::{ExprId, Exprs};
use elab_store::calls::Called;
use elab_store::kept::{Kept, MachineCall, MachinePart, StateCall};
use elab_store::names::is_text;
use elab_store::store::Elaboration;
use fsm_lowering::{Fsm, FsmStop};
use identifiers::is_identifier;
use lists::NoMemory;
use py_frames::request::{Answer, Cause};
use py_heap::{Frozen, Heap};
use py_values::{StrId, Val};
use std::alloc::Global;

/// The arguments of `m.FSM`, where they are given.
#[derive(Clone, Copy, PartialEq, Eq, Drop)]
pub struct MachineArguments {
    pub init: Option<Val>,
    pub domain: Option<Val>,
    pub name: Option<Val>,
}

/// `m.FSM` and `m.State` of a module.
pub fn part_named(of: u32, name: &str) -> Option<MachinePart>
    ensures { result ≡ part_named of name.now }
{
    if is_text(name, "FSM") {
        Some(MachinePart::Fsm(of))
    } else if is_text(name, "State") {
        Some(MachinePart::State(of))
    } else {
        None
    }
}

// ---- arguments

// An argument is given once.
fn machine_once(before: Option<Val>, args: MachineArguments) -> Option<MachineArguments>
    ensures { result ≡ machine_once before args }
{
    match before {
        None => Some(args),
        Some(_) => None,
    }
}

fn machine_keyword(name: &str, v: Val, args: MachineArguments) -> Option<MachineArguments>
    ensures { result ≡ machine_keyword name.now v args }
{
    if is_text(name, "init") {
        machine_once(
            args.init,
            MachineArguments {
                init: Some(v),
                ..args
            },
        )
    } else if is_text(name, "domain") {
        machine_once(
            args.domain,
            MachineArguments {
                domain: Some(v),
                ..args
            },
        )
    } else if is_text(name, "name") {
        machine_once(
            args.name,
            MachineArguments {
                name: Some(v),
                ..args
            },
        )
    } else {
        None
    }
}

// Arguments by keyword, each with its value.
fn machine_keywords(
    keywords: &[String],
    vals: &[Val],
    args: MachineArguments,
) -> Option<MachineArguments>
    ensures { result ≡ machine_keywords (map string_bytes keywords.now) vals.now args }
{
    let mut args = args;
    for i in 0..keywords.len() {
        if i >= vals.len() {
            return None;
        }
        args = machine_keyword(keywords[i].as_str(), vals[i], args)?;
    }
    Some(args)
}

// The arguments by their places.
fn machine_placed(placed: &[Val]) -> Option<MachineArguments>
    ensures { result ≡ machine_placed placed.now }
{
    let (init, domain, name) = match placed {
        [] => (None, None, None),
        [init] => (Some(*init), None, None),
        [init, domain] => (Some(*init), Some(*domain), None),
        [init, domain, name] => (Some(*init), Some(*domain), Some(*name)),
        _ => return None,
    };
    Some(MachineArguments { init, domain, name })
}

fn machine_arguments(call: &Called) -> Option<MachineArguments>
    ensures { result ≡ machine_arguments (called_of call.now) }
{
    match machine_placed(call.placed) {
        Some(args) => machine_keywords(call.keywords, call.keyword_vals, args),
        None => None,
    }
}

// The name of a state.
fn state_string(v: Val) -> Option<StrId>
    ensures { result ≡ state_string v }
{
    match v {
        Val::Str(x) => Some(x),
        _ => None,
    }
}

// A string that is an identifier.
fn name_string(
    alloc: Global,
    heap: &Heap,
    frozen: &Frozen,
    v: Val,
) -> Result<Option<StrId>, NoMemory>
    ensures { IfOk result (λ name. name ≡ name_string (seen frozen.now heap.now) v) }
{
    let Val::Str(x) = v else {
        return Ok(None);
    };
    if is_identifier(alloc, heap.text(frozen, x))? {
        Ok(Some(x))
    } else {
        Ok(None)
    }
}

// The first state, where it is given.
fn init_said(given: Option<Val>) -> Option<Option<StrId>>
    ensures { result ≡ init_said given }
{
    match given {
        None | Some(Val::None) => Some(None),
        Some(v) => Some(Some(state_string(v)?)),
    }
}

// The name, where it is given.
fn name_said(
    alloc: Global,
    heap: &Heap,
    frozen: &Frozen,
    given: Option<Val>,
) -> Result<Option<Option<StrId>>, NoMemory>
    ensures { IfOk result (λ said. said ≡ name_said (seen frozen.now heap.now) given) }
{
    match given {
        None => Ok(Some(None)),
        Some(v) => match name_string(alloc, heap, frozen, v)? {
            Some(name) => Ok(Some(Some(name))),
            None => Ok(None),
        },
    }
}

// Whether a name may be that of a domain with a clock.
fn is_clocked(alloc: Global, name: &str) -> Result<bool, NoMemory>
    ensures { IfOk result (λ b. b ≡ is_clocked name.now) }
{
    if is_text(name, "comb") {
        return Ok(false);
    }
    is_identifier(alloc, name)
}

// A string that names a domain with a clock.
fn domain_string(
    alloc: Global,
    heap: &Heap,
    frozen: &Frozen,
    v: Val,
) -> Result<Option<StrId>, NoMemory>
    ensures { IfOk result (λ name. name ≡ domain_string (seen frozen.now heap.now) v) }
{
    let Val::Str(x) = v else {
        return Ok(None);
    };
    if is_clocked(alloc, heap.text(frozen, x))? {
        Ok(Some(x))
    } else {
        Ok(None)
    }
}

// The domain, where it is given.
fn domain_said(
    alloc: Global,
    heap: &Heap,
    frozen: &Frozen,
    given: Option<Val>,
) -> Result<Option<Option<StrId>>, NoMemory>
    ensures { IfOk result (λ said. said ≡ domain_said (seen frozen.now heap.now) given) }
{
    match given {
        None => Ok(Some(None)),
        Some(v) => match domain_string(alloc, heap, frozen, v)? {
            Some(name) => Ok(Some(Some(name))),
            None => Ok(None),
        },
    }
}

// The one argument, by its place or by this keyword.
fn one_argument(name: &str, call: &Called) -> Option<Val>
    ensures { result ≡ one_argument name.now (called_of call.now).placed (called_of call.now).keywords (called_of call.now).keyword_vals }
{
    match (call.placed, call.keywords, call.keyword_vals) {
        ([v], [], _) => Some(*v),
        ([], [keyword], [v]) if is_text(keyword.as_str(), name) => Some(*v),
        _ => None,
    }
}

fn state_argument(call: &Called) -> Option<StrId>
    ensures { result ≡ state_argument (called_of call.now) }
{
    match one_argument("name", call) {
        Some(v) => state_string(v),
        None => None,
    }
}

// ---- calls

/// `f.ongoing`.
pub fn part_attribute(
    elaboration: &mut Elaboration,
    part: MachinePart,
    name: &str,
) -> Result<Answer, NoMemory>
    ensures { Gives result elaboration.new (part_attribute part name.now (held_of elaboration.old)) }
{
    match part {
        MachinePart::Running(k) if is_text(name, "ongoing") => {
            elaboration.give_kept(Kept::OfMachine(MachinePart::Ongoing(k)))
        }
        _ => elaboration.refuse(Cause::Raised),
    }
}

/// The call of `m.FSM`, `m.State` or `f.ongoing`.
pub fn call_part(
    elaboration: &mut Elaboration,
    heap: &Heap,
    frozen: &Frozen,
    part: MachinePart,
    call: &Called,
    place: Place,
) -> Result<Answer, NoMemory>
    requires { IsSound (held_of elaboration.old) }
    ensures { Gives result elaboration.new (part_called (seen frozen.now heap.now) part (called_of call.now) place (held_of elaboration.old)) }
{
    match part {
        MachinePart::Fsm(of) => call_machine(elaboration, heap, frozen, of, call, place),
        MachinePart::State(of) => call_state(elaboration, of, state_argument(call), place),
        MachinePart::Ongoing(k) => {
            ask_ongoing(elaboration, heap, frozen, k, state_argument(call), place)
        }
        _ => elaboration.refuse(Cause::Raised),
    }
}

// `m.FSM(..)`.
fn call_machine(
    elaboration: &mut Elaboration,
    heap: &Heap,
    frozen: &Frozen,
    of: u32,
    call: &Called,
    place: Place,
) -> Result<Answer, NoMemory>
    ensures { Gives result elaboration.new (machine_from (seen frozen.now heap.now) of (machine_arguments (called_of call.now)) place (held_of elaboration.old)) }
{
    let Some(args) = machine_arguments(call) else {
        return elaboration.refuse(Cause::Raised);
    };
    let Some(init) = init_said(args.init) else {
        return elaboration.refuse(Cause::Raised);
    };
    let Some(domain) = domain_said(elaboration.alloc, heap, frozen, args.domain)? else {
        return elaboration.refuse(Cause::Raised);
    };
    match name_said(elaboration.alloc, heap, frozen, args.name)? {
        Some(name) => elaboration.give_kept(Kept::OfMachine(MachinePart::Called(MachineCall {
            of,
            init,
            domain,
            name,
            place,
        }))),
        None => elaboration.refuse(Cause::Raised),
    }
}

// `m.State(..)`.
fn call_state(
    elaboration: &mut Elaboration,
    of: u32,
    name: Option<StrId>,
    place: Place,
) -> Result<Answer, NoMemory>
    ensures { Gives result elaboration.new (state_said of name place (held_of elaboration.old)) }
{
    match name {
        Some(name) => elaboration.give_kept(Kept::OfMachine(MachinePart::CalledState(StateCall {
            of,
            name,
            place,
        }))),
        None => elaboration.refuse(Cause::Raised),
    }
}

// Why a machine refuses.
fn tell_stop(elaboration: &mut Elaboration, stop: FsmStop, place: Place) -> Result<Answer, NoMemory>
    ensures { Gives result elaboration.new (stop_told place stop (held_of elaboration.old)) }
{
    match stop {
        FsmStop::UndefinedState(at) => elaboration.refuse_at(at, Cause::Raised),
        FsmStop::Repeated => elaboration.refuse_at(place, Cause::Raised),
        FsmStop::Order => elaboration.refuse(Cause::Raised),
        FsmStop::Limit | FsmStop::NoMemory => elaboration.refuse(Cause::Limit),
    }
}

// ---- `with`

/// A `with` begins over what belongs to state machines.
pub fn enter_part(
    elaboration: &mut Elaboration,
    heap: &Heap,
    frozen: &Frozen,
    part: MachinePart,
) -> Result<Answer, NoMemory>
    requires { IsSound (held_of elaboration.old) }
    ensures { Gives result elaboration.new (part_entered (seen frozen.now heap.now) part (held_of elaboration.old)) }
{
    match part {
        MachinePart::Called(call) => enter_machine(elaboration, heap, frozen, call),
        MachinePart::CalledState(call) => enter_state(elaboration, heap, frozen, call),
        _ => elaboration.refuse(Cause::Raised),
    }
}

/// A `with` ends over what belongs to state machines.
pub fn leave_part(elaboration: &mut Elaboration, part: MachinePart) -> Result<Answer, NoMemory>
    requires { IsSound (held_of elaboration.old) }
    ensures { Gives result elaboration.new (part_left part (held_of elaboration.old)) }
{
    match part {
        MachinePart::Called(call) => leave_machine(elaboration, call),
        MachinePart::CalledState(call) => leave_state(elaboration, call),
        _ => elaboration.refuse(Cause::Raised),
    }
}

// A machine begins.
fn enter_machine(
    elaboration: &mut Elaboration,
    heap: &Heap,
    frozen: &Frozen,
    call: MachineCall,
) -> Result<Answer, NoMemory>
    ensures { Gives result elaboration.new (machine_entered (seen frozen.now heap.now) call (held_of elaboration.old)) }
{
    let domain = domain_name(heap, frozen, call.domain);
    let name = register_name(heap, frozen, call.name);
    let init = init_name(heap, frozen, call.init);
    if !has_place(&elaboration.store, call.of) {
        return elaboration.refuse(Cause::Raised);
    }
    if !is_clocked(elaboration.alloc, domain)? || !is_identifier(elaboration.alloc, name)? {
        return elaboration.refuse(Cause::Raised);
    }
    begin_machine(elaboration, call.of, domain, name, init, call.place)
}

// The register, and the machine without states.
#[tactic(auto, using(crate::proofs::MachineLaws::not_comb))]
fn begin_machine(
    elaboration: &mut Elaboration,
    of: u32,
    domain: &str,
    name: &str,
    init: Option<&str>,
    place: Place,
) -> Result<Answer, NoMemory>
    requires clocked { is_clocked domain.now ≡ true }
    requires placed { is_placed of (slice_get elaboration.old.store.modules of) elaboration.old.store.machines ≡ true }
    ensures { Gives result elaboration.new (machine_made of domain.now name.now (option_copied init.entry) place (held_of elaboration.old)) }
{
    let number = elaboration.store.machines.len();
    match Fsm::new(
        elaboration.alloc,
        &mut elaboration.pool,
        domain,
        name,
        init,
        place,
    ) {
        Ok(machine) => {
            put_machine(&mut elaboration.store, &mut elaboration.pool, of, machine)?;
            elaboration.give_kept(Kept::OfMachine(MachinePart::Running(number)))
        }
        Err(FsmStop::Limit) => elaboration.refuse(Cause::Limit),
        Err(_) => Err(NoMemory),
    }
}

// A state begins.
fn enter_state(
    elaboration: &mut Elaboration,
    heap: &Heap,
    frozen: &Frozen,
    call: StateCall,
) -> Result<Answer, NoMemory>
    requires { IsSound (held_of elaboration.old) }
    ensures { Gives result elaboration.new (state_entered (seen frozen.now heap.now) call (held_of elaboration.old)) }
{
    let name = heap.text(frozen, call.name);
    act_on_machine(elaboration, call.of, Action::BeginState, name, call.place)
}

// A state ends.
fn leave_state(elaboration: &mut Elaboration, call: StateCall) -> Result<Answer, NoMemory>
    requires { IsSound (held_of elaboration.old) }
    ensures { Gives result elaboration.new (state_left call (held_of elaboration.old)) }
{
    act_on_machine(elaboration, call.of, Action::EndState, "", call.place)
}

// A machine ends.
fn leave_machine(elaboration: &mut Elaboration, call: MachineCall) -> Result<Answer, NoMemory>
    requires { IsSound (held_of elaboration.old) }
    ensures { Gives result elaboration.new (machine_left call (held_of elaboration.old)) }
{
    act_on_machine(elaboration, call.of, Action::EndMachine, "", call.place)
}

fn act_on_machine(
    elaboration: &mut Elaboration,
    of: u32,
    action: Action,
    name: &str,
    place: Place,
) -> Result<Answer, NoMemory>
    requires { IsSound (held_of elaboration.old) }
    ensures { Gives result elaboration.new (moved (action_moves action name.now place) of place (held_of elaboration.old)) }
{
    let why = act_on_innermost(
        &mut elaboration.store,
        &mut elaboration.pool,
        of,
        action,
        name,
        place,
    )?;
    match why {
        None => elaboration.give(Val::None),
        Some(stop) => tell_stop(elaboration, stop, place),
    }
}

// ---- `m.next`

/// An assignment to an attribute of a module.
pub fn store_next(
    elaboration: &mut Elaboration,
    heap: &Heap,
    frozen: &Frozen,
    of: u32,
    name: &str,
    v: &Val,
    place: Place,
) -> Result<Answer, NoMemory>
    requires { IsSound (held_of elaboration.old) }
    ensures { Gives result elaboration.new (next_stored (seen frozen.now heap.now) of name.now v.now place (held_of elaboration.old)) }
{
    if !is_text(name, "next") {
        return elaboration.refuse(Cause::Raised);
    }
    match state_string(*v) {
        Some(x) => go_to_state(elaboration, of, heap.text(frozen, x), place),
        None => elaboration.refuse(Cause::Raised),
    }
}

fn go_to_state(
    elaboration: &mut Elaboration,
    of: u32,
    name: &str,
    place: Place,
) -> Result<Answer, NoMemory>
    requires { IsSound (held_of elaboration.old) }
    ensures { Gives result elaboration.new (moved (next_goes of (held_of elaboration.old) name.now place) of place (held_of elaboration.old)) }
{
    let why = move_innermost(
        &mut elaboration.store,
        &mut elaboration.pool,
        of,
        name,
        place,
    )?;
    match why {
        None => elaboration.give(Val::None),
        Some(stop) => tell_stop(elaboration, stop, place),
    }
}

// ---- `ongoing`

fn ask_ongoing(
    elaboration: &mut Elaboration,
    heap: &Heap,
    frozen: &Frozen,
    number: usize,
    name: Option<StrId>,
    place: Place,
) -> Result<Answer, NoMemory>
    requires { IsSound (held_of elaboration.old) }
    ensures { Gives result elaboration.new (ongoing_said (seen frozen.now heap.now) number name place (held_of elaboration.old)) }
{
    let Some(name) = name else {
        return elaboration.refuse(Cause::Raised);
    };
    let e = ExprId(elaboration.pool.count());
    let why = ask_machine(
        &mut elaboration.store,
        &mut elaboration.pool,
        number,
        heap.text(frozen, name),
        place,
    )?;
    match why {
        None => {
            let v = elaboration.store.hold(Reading::Plain, e)?;
            elaboration.give(v)
        }
        Some(stop) => tell_stop(elaboration, stop, place),
    }
}

// The name of the register but for its end.
fn register_name<'a>(heap: &'a Heap, frozen: &'a Frozen, name: Option<StrId>) -> &'a str
    ensures { result.now ≡ register_name (seen frozen.now heap.now) name }
{
    match name {
        Some(x) => heap.text(frozen, x),
        None => "fsm",
    }
}

// The domain of the register.
fn domain_name<'a>(heap: &'a Heap, frozen: &'a Frozen, domain: Option<StrId>) -> &'a str
    ensures { result.now ≡ domain_name (seen frozen.now heap.now) domain }
{
    match domain {
        Some(x) => heap.text(frozen, x),
        None => "sync",
    }
}

// The first state.
fn init_name<'a>(heap: &'a Heap, frozen: &'a Frozen, init: Option<StrId>) -> Option<&'a str>
    ensures { option_copied result ≡ init_name (seen frozen.now heap.now) init }
{
    match init {
        Some(x) => Some(heap.text(frozen, x)),
        None => None,
    }
}
