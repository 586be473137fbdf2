// What a request is answered where the table of shapes and values leaves it open: which act of the crates below it asks for.
ghost use Rattle.std.specs.Prelude.{◌≡◌, ◌<◌, length};
ghost use Rattle.std.specs.Option.{option_copied};
ghost use Rattle.py_heap.specs.Heaps.{seen};
ghost use Rattle.elab_store.specs.Calls.{called};
ghost use Rattle.amh_things.specs.Things.{thing_of};
ghost use Rattle.elab_eval.specs.Table.{equated_by, call_answered, attribute_answered, store_answered, index_answered, index_store_answered, operator_answered, kept_entered, kept_left, enter_answered, leave_answered, own_answered, name_called, placed_called, kept_called, only, name_attribute, attribute_of, attribute_by, attribute_stored, module_stored, added, signed};
ghost use Rattle.elab_store.specs.Seen.{called_of};
ghost use Rattle.elab_store.specs.Sound.{IsSound};
ghost use Rattle.elab_store.specs.Stores.{kept_of};
ghost use Rattle.elab_store.specs.Held.{held_of, Gives};

use amh_host::Place;
use amh_values::{Method, Thing};
use design_ir::ExprId;
use elab_acts::blocks::{call_block, enter_block, leave_block};
use elab_acts::domains::{
    add_definition, clock_domain_attribute, make_clock_domain, store_definition, store_definitions,
};
use elab_acts::sides::{add_statements, give_domain, index_name, module_attribute, store_domain};
use elab_acts::simulators::{call_simulator_part, make_simulator, pass_vcd, simulator_attribute};
use elab_acts::submodules::{add_submodule, give_submodule, store_submodule, store_submodules};
use elab_acts::tops::{end_body, end_elaborate};
use elab_acts::wrappers::{call_wrapping, wrapped_attribute};
use elab_components::equations::equate;
use elab_components::imports::import;
use elab_components::libraries::{
    give_base, give_layout, give_library, memory_named, stream_named, wiring_named,
};
use elab_components::likes::{give_like, make_like};
use elab_components::member_calls::call_member;
use elab_components::resets::make_reset;
use elab_components::signals::{make_module, make_signal};
use elab_components::signatures::{
    call_signature, call_signature_method, call_stream_signature, signature_attribute,
};
use elab_machines::state_machines::{
    call_part, enter_part, leave_part, part_attribute, store_next,
};
use elab_memories::attributes::{memory_attribute, port_attribute};
use elab_memories::memories::make_memory;
use elab_memories::ports::call_port;
use elab_store::calls::Called;
use elab_store::kept::{HdlName, Kept};
use elab_store::names::is_text;
use elab_store::store::{Elaboration, Store};
use elab_wiring::connecting::connect_interfaces;
use elab_wiring::faces::{flip, interface_attribute};
use elab_wiring::signature_classes::{answer_class, init_object, object_attribute};
use elab_wrappers::wrappers::{Inserter, make_inserter, make_renamer};
use lists::NoMemory;
use py_frames::request::{Act, Answer, Cause, Request};
use py_heap::{Frozen, Heap};
use py_values::Val;

// The call of a name.
fn call_name(
    elaboration: &mut Elaboration,
    heap: &Heap,
    frozen: &Frozen,
    name: HdlName,
    call: &Called,
) -> Result<Answer, NoMemory>
    requires { IsSound (held_of elaboration.old) }
    ensures { Gives result elaboration.new (name_called (seen frozen.now heap.now) name (called_of call.now) (held_of elaboration.old)) }
{
    match name {
        HdlName::Module => make_module(elaboration, call),
        HdlName::Signal => make_signal(elaboration, heap, frozen, call),
        HdlName::Like => make_like(elaboration, heap, frozen, call),
        HdlName::ClockDomain => make_clock_domain(elaboration, heap, frozen, call),
        HdlName::In => call_member(elaboration, heap, frozen, false, call),
        HdlName::Out => call_member(elaboration, heap, frozen, true, call),
        HdlName::Simulator => make_simulator(elaboration, call),
        HdlName::Memory => make_memory(elaboration, heap, frozen, call),
        HdlName::DomainRenamer => make_renamer(elaboration, heap, frozen, call),
        HdlName::ResetInserter => make_inserter(elaboration, heap, frozen, Inserter::Reset, call),
        HdlName::EnableInserter => make_inserter(elaboration, heap, frozen, Inserter::Enable, call),
        HdlName::Signature => call_signature(elaboration, heap, frozen, call),
        HdlName::StreamSignature => call_stream_signature(elaboration, heap, frozen, call),
        HdlName::Flipped => flip(elaboration, call),
        _ => elaboration.refuse(Cause::Raised),
    }
}

// The call of a name, at its place.
fn call_placed(
    elaboration: &mut Elaboration,
    heap: &Heap,
    frozen: &Frozen,
    name: HdlName,
    call: &Called,
    place: Place,
) -> Result<Answer, NoMemory>
    requires { IsSound (held_of elaboration.old) }
    ensures { Gives result elaboration.new (placed_called (seen frozen.now heap.now) name (called_of call.now) place (held_of elaboration.old)) }
{
    match name {
        HdlName::Connect => connect_interfaces(elaboration, call, place),
        HdlName::ResetSignal => make_reset(elaboration, heap, frozen, call, place),
        _ => call_name(elaboration, heap, frozen, name, call),
    }
}

// The call of a thing of this crate.
fn call_kept(
    elaboration: &mut Elaboration,
    heap: &Heap,
    frozen: &Frozen,
    call: &Called,
    place: Place,
) -> Result<Answer, NoMemory>
    requires { IsSound (held_of elaboration.old) }
    ensures { Gives result elaboration.new (kept_called (seen frozen.now heap.now) (kept_of elaboration.old.store (called_of call.now).callee) (called_of call.now) place (held_of elaboration.old)) }
{
    match elaboration.store.kept_of(call.callee) {
        Some(Kept::Name(name)) => call_placed(elaboration, heap, frozen, name, call, place),
        Some(Kept::OfSignature { of, method }) => {
            call_signature_method(elaboration, of, method, call)
        }
        Some(Kept::OfMemory { of, method }) => call_port(
            elaboration,
            heap,
            frozen,
            of,
            method,
            call,
        ),
        Some(Kept::Wrapping(number)) => call_wrapping(elaboration, heap, frozen, number, call),
        Some(Kept::BlockName { of, name }) => call_block(elaboration, heap, frozen, of, name, call),
        Some(Kept::OfMachine(part)) => call_part(elaboration, heap, frozen, part, call, place),
        Some(Kept::OfSimulator(part)) => {
            call_simulator_part(elaboration, heap, frozen, part, call, place)
        }
        _ => elaboration.refuse(Cause::Raised),
    }
}

// A call: of a value's `eq`, or of a thing of this crate.
fn call(
    elaboration: &mut Elaboration,
    heap: &Heap,
    frozen: &Frozen,
    request: &Request,
) -> Result<Answer, NoMemory>
    requires { IsSound (held_of elaboration.old) }
    ensures { Gives result elaboration.new (call_answered (seen frozen.now heap.now) request.now (called request.now.vals request.now.names) (held_of elaboration.old)) }
{
    let call = Called::of(request);
    match equated_by(&elaboration.store, &call.callee) {
        Some(target) => equate(elaboration, target, &call, request.place),
        None => call_kept(elaboration, heap, frozen, &call, request.place),
    }
}

// An attribute: `m.d` and its domains, `m.submodules` and what was added there, and those of a clock domain, a memory, a port of one, a
// signature and an interface.
fn attribute(elaboration: &mut Elaboration, request: &Request) -> Result<Answer, NoMemory>
    requires { IsSound (held_of elaboration.old) }
    ensures { Gives result elaboration.new (attribute_answered request.now.vals (only request.now.names) (held_of elaboration.old)) }
{
    match request.vals.as_slice() {
        [x] => match only_name(request) {
            Some(name) => attribute_by(elaboration, x, name),
            None => elaboration.refuse(Cause::Raised),
        },
        _ => elaboration.refuse(Cause::Raised),
    }
}

// Of an object it is what its class stands over that has the attribute.
fn attribute_by(elaboration: &mut Elaboration, x: &Val, name: &str) -> Result<Answer, NoMemory>
    requires { IsSound (held_of elaboration.old) }
    ensures { Gives result elaboration.new (attribute_by x.now name.now (held_of elaboration.old)) }
{
    match x {
        Val::Object(object) => object_attribute(elaboration, *object, name),
        _ => attribute_of(elaboration, x, name),
    }
}

fn attribute_of(elaboration: &mut Elaboration, x: &Val, name: &str) -> Result<Answer, NoMemory>
    requires { IsSound (held_of elaboration.old) }
    ensures { Gives result elaboration.new (attribute_of (kept_of elaboration.old.store x.now) name.now (held_of elaboration.old)) }
{
    match elaboration.store.kept_of(*x) {
        Some(Kept::Name(n)) => name_attribute(elaboration, n, name),
        Some(Kept::Module(m)) => module_attribute(elaboration, m, name),
        Some(Kept::Domains(m)) => give_domain(elaboration, m, Some(name)),
        Some(Kept::Submodules(m)) => give_submodule(elaboration, m, Some(name)),
        Some(Kept::ClockDomain(number)) => clock_domain_attribute(elaboration, number, name),
        Some(Kept::Memory(number)) => memory_attribute(elaboration, number, name),
        Some(Kept::MemoryPort(port)) => port_attribute(elaboration, port, name),
        Some(Kept::Wrapped(number)) => wrapped_attribute(elaboration, number),
        Some(Kept::OfMachine(part)) => part_attribute(elaboration, part, name),
        Some(Kept::OfSimulator(part)) => simulator_attribute(elaboration, part, name),
        Some(Kept::Signature(number)) => signature_attribute(elaboration, number, name),
        Some(Kept::Interface(face)) => interface_attribute(elaboration, face, name),
        _ => elaboration.refuse(Cause::Raised),
    }
}

// A name of a module of the library, or `Signal.like`.
fn name_attribute(
    elaboration: &mut Elaboration,
    library: HdlName,
    name: &str,
) -> Result<Answer, NoMemory>
    ensures { Gives result elaboration.new (name_attribute library name.now (held_of elaboration.old)) }
{
    match library {
        HdlName::Wiring => give_library(elaboration, wiring_named(name)),
        HdlName::Stream => give_library(elaboration, stream_named(name)),
        HdlName::MemoryLibrary => give_library(elaboration, memory_named(name)),
        HdlName::Enumerations => give_base(elaboration, name),
        HdlName::Data => give_layout(elaboration, name),
        HdlName::Signal => give_like(elaboration, name),
        _ => elaboration.refuse(Cause::Raised),
    }
}

// An assignment to an attribute: of a domain to its name again, of a submodule, of a domain that is defined, and of `m.submodules`,
// `m.domains` and `m.next`.
fn store_attribute(
    elaboration: &mut Elaboration,
    heap: &Heap,
    frozen: &Frozen,
    request: &Request,
) -> Result<Answer, NoMemory>
    requires { IsSound (held_of elaboration.old) }
    ensures { Gives result elaboration.new (store_answered (seen frozen.now heap.now) request.now.vals (only request.now.names) request.now.place (held_of elaboration.old)) }
{
    match request.vals.as_slice() {
        [x, v] => match only_name(request) {
            Some(name) => attribute_stored(elaboration, heap, frozen, x, name, v, request.place),
            None => elaboration.refuse(Cause::Raised),
        },
        _ => elaboration.refuse(Cause::Raised),
    }
}

fn attribute_stored(
    elaboration: &mut Elaboration,
    heap: &Heap,
    frozen: &Frozen,
    x: &Val,
    name: &str,
    v: &Val,
    place: Place,
) -> Result<Answer, NoMemory>
    requires { IsSound (held_of elaboration.old) }
    ensures { Gives result elaboration.new (attribute_stored (seen frozen.now heap.now) (kept_of elaboration.old.store x.now) name.now v.now place (held_of elaboration.old)) }
{
    match elaboration.store.kept_of(*x) {
        Some(Kept::Domains(m)) => store_domain(elaboration, m, Some(name), v),
        Some(Kept::Submodules(m)) => store_submodule(elaboration, heap, frozen, m, Some(name), v),
        Some(Kept::Definitions(m)) => store_definition(elaboration, m, name, v, place),
        Some(Kept::Module(m)) => store_in_module(elaboration, heap, frozen, m, name, v, place),
        _ => elaboration.refuse(Cause::Raised),
    }
}

// An assignment to an attribute of a module: `m.submodules` or `m.domains` again, or `m.next`.
fn store_in_module(
    elaboration: &mut Elaboration,
    heap: &Heap,
    frozen: &Frozen,
    m: u32,
    name: &str,
    v: &Val,
    place: Place,
) -> Result<Answer, NoMemory>
    requires { IsSound (held_of elaboration.old) }
    ensures { Gives result elaboration.new (module_stored (seen frozen.now heap.now) m name.now v.now place (held_of elaboration.old)) }
{
    if is_text(name, "submodules") {
        store_submodules(elaboration, m, v)
    } else if is_text(name, "domains") {
        store_definitions(elaboration, m, v)
    } else {
        store_next(elaboration, heap, frozen, m, name, v, place)
    }
}

// An index: a domain or a submodule by its name.
fn index(
    elaboration: &mut Elaboration,
    heap: &Heap,
    frozen: &Frozen,
    request: &Request,
) -> Result<Answer, NoMemory>
    ensures { Gives result elaboration.new (index_answered (seen frozen.now heap.now) request.now.vals (held_of elaboration.old)) }
{
    match request.vals.as_slice() {
        [x, i] => match elaboration.store.kept_of(*x) {
            Some(Kept::Domains(m)) => give_domain(elaboration, m, index_name(heap, frozen, *i)),
            Some(Kept::Submodules(m)) => give_submodule(
                elaboration,
                m,
                index_name(heap, frozen, *i),
            ),
            _ => elaboration.refuse(Cause::Raised),
        },
        _ => elaboration.refuse(Cause::Raised),
    }
}

// An assignment to an index: of a domain to its name again, and of a submodule.
fn store_index(
    elaboration: &mut Elaboration,
    heap: &Heap,
    frozen: &Frozen,
    request: &Request,
) -> Result<Answer, NoMemory>
    ensures { Gives result elaboration.new (index_store_answered (seen frozen.now heap.now) request.now.vals (held_of elaboration.old)) }
{
    match request.vals.as_slice() {
        [x, i, v] => match elaboration.store.kept_of(*x) {
            Some(Kept::Domains(m)) => store_domain(elaboration, m, index_name(heap, frozen, *i), v),
            Some(Kept::Submodules(m)) => store_submodule(
                elaboration,
                heap,
                frozen,
                m,
                index_name(heap, frozen, *i),
                v,
            ),
            _ => elaboration.refuse(Cause::Raised),
        },
        _ => elaboration.refuse(Cause::Raised),
    }
}

// An operator: statements that are put under a domain, submodules that are added, and domains that are defined.
fn operate(
    elaboration: &mut Elaboration,
    heap: &Heap,
    frozen: &Frozen,
    request: &Request,
) -> Result<Answer, NoMemory>
    requires { IsSound (held_of elaboration.old) }
    ensures { Gives result elaboration.new (operator_answered (seen frozen.now heap.now) request.now.vals (only request.now.names) request.now.place (held_of elaboration.old)) }
{
    match request.vals.as_slice() {
        [x, v] => match only_name(request) {
            Some(sign) => operate_by_sign(elaboration, heap, frozen, x, v, sign, request.place),
            None => elaboration.refuse(Cause::Raised),
        },
        _ => elaboration.refuse(Cause::Raised),
    }
}

fn operate_by_sign(
    elaboration: &mut Elaboration,
    heap: &Heap,
    frozen: &Frozen,
    x: &Val,
    v: &Val,
    sign: &str,
    place: Place,
) -> Result<Answer, NoMemory>
    requires { IsSound (held_of elaboration.old) }
    ensures { Gives result elaboration.new (signed (seen frozen.now heap.now) x.now v.now sign.now place (held_of elaboration.old)) }
{
    if is_text(sign, "+=") {
        add(elaboration, heap, frozen, x, v, place)
    } else {
        elaboration.refuse(Cause::Raised)
    }
}

fn add(
    elaboration: &mut Elaboration,
    heap: &Heap,
    frozen: &Frozen,
    x: &Val,
    v: &Val,
    place: Place,
) -> Result<Answer, NoMemory>
    requires { IsSound (held_of elaboration.old) }
    ensures { Gives result elaboration.new (added (seen frozen.now heap.now) (kept_of elaboration.old.store x.now) x.now v.now place (held_of elaboration.old)) }
{
    match elaboration.store.kept_of(*x) {
        Some(Kept::Domain { of, name }) => add_statements(
            elaboration,
            heap,
            frozen,
            x,
            of,
            name,
            v,
        ),
        Some(Kept::Submodules(m)) => add_submodule(elaboration, heap, frozen, x, m, v),
        Some(Kept::Definitions(m)) => add_definition(elaboration, m, v, x, place),
        _ => elaboration.refuse(Cause::Raised),
    }
}

// The begin of a `with`: a block that was called.
fn enter(
    elaboration: &mut Elaboration,
    heap: &Heap,
    frozen: &Frozen,
    request: &Request,
) -> Result<Answer, NoMemory>
    requires { IsSound (held_of elaboration.old) }
    ensures { Gives result elaboration.new (enter_answered (seen frozen.now heap.now) request.now.vals (held_of elaboration.old)) }
{
    match request.vals.as_slice() {
        [x] => enter_kept(elaboration, heap, frozen, x),
        _ => elaboration.refuse(Cause::Raised),
    }
}

fn enter_kept(
    elaboration: &mut Elaboration,
    heap: &Heap,
    frozen: &Frozen,
    x: &Val,
) -> Result<Answer, NoMemory>
    requires { IsSound (held_of elaboration.old) }
    ensures { Gives result elaboration.new (kept_entered (seen frozen.now heap.now) (kept_of elaboration.old.store x.now) (held_of elaboration.old)) }
{
    match elaboration.store.kept_of(*x) {
        Some(Kept::OfMachine(part)) => enter_part(elaboration, heap, frozen, part),
        Some(Kept::OfSimulator(part)) => pass_vcd(elaboration, part),
        _ => enter_block(elaboration, x),
    }
}

fn leave_kept(elaboration: &mut Elaboration, x: &Val) -> Result<Answer, NoMemory>
    requires { IsSound (held_of elaboration.old) }
    ensures { Gives result elaboration.new (kept_left (kept_of elaboration.old.store x.now) (held_of elaboration.old)) }
{
    match elaboration.store.kept_of(*x) {
        Some(Kept::OfMachine(part)) => leave_part(elaboration, part),
        Some(Kept::OfSimulator(part)) => pass_vcd(elaboration, part),
        _ => leave_block(elaboration, x),
    }
}

// The end of a `with`.
fn leave(elaboration: &mut Elaboration, request: &Request) -> Result<Answer, NoMemory>
    requires { IsSound (held_of elaboration.old) }
    ensures { Gives result elaboration.new (leave_answered request.now.vals (held_of elaboration.old)) }
{
    match request.vals.as_slice() {
        [x] => leave_kept(elaboration, x),
        _ => elaboration.refuse(Cause::Raised),
    }
}

/// What this crate answers. The words may name the top.
pub(crate) fn answer_own(
    elaboration: &mut Elaboration,
    heap: &Heap,
    frozen: &Frozen,
    top: Option<&str>,
    request: &Request,
) -> Result<Answer, NoMemory>
    requires { IsSound (held_of elaboration.old) }
    ensures { Gives result elaboration.new (own_answered (option_copied top.entry) (seen frozen.now heap.now) request.now.act request.now (held_of elaboration.old)) }
{
    match request.act {
        Act::Import => import(elaboration, request),
        Act::Attribute => attribute(elaboration, request),
        Act::SetAttribute => store_attribute(elaboration, heap, frozen, request),
        Act::CallThing => call(elaboration, heap, frozen, request),
        Act::Index => index(elaboration, heap, frozen, request),
        Act::SetIndex => store_index(elaboration, heap, frozen, request),
        Act::Operator => operate(elaboration, heap, frozen, request),
        Act::ClassMade => answer_class(elaboration, request),
        Act::InitBase => init_object(elaboration, heap, frozen, request),
        Act::BodyEnd => end_body(elaboration, heap, frozen, top, request),
        Act::Returned => end_elaborate(elaboration, heap, frozen, request),
        Act::Enter => enter(elaboration, heap, frozen, request),
        Act::Leave => leave(elaboration, request),
        Act::Length | Act::Iterate | Act::Await => elaboration.refuse(Cause::Raised),
    }
}

// The value whose method `eq` a value of the program is, as its expression.
fn equated_by(store: &Store, v: &Val) -> Option<ExprId>
    ensures { result ≡ equated_by (thing_of store.now.things v.now) }
{
    let Val::Hw(hw) = v else {
        return None;
    };
    match store.things.thing(*hw) {
        Some(
            Thing::Method {
                value,
                method: Method::Eq,
                ..
            },
        ) => Some(*value),
        _ => None,
    }
}

// The name of a request that has one alone.
fn only_name(request: &Request) -> Option<&str>
    ensures { option_copied result ≡ only request.now.names }
{
    match request.names.items() {
        [name] => Some(name.as_str()),
        _ => None,
    }
}
