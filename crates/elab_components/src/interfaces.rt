// Interfaces of components.
ghost use Rattle.std.specs.Prelude.{◌≡◌, ◌∷◌, ◌++◌, [], length, not, map, string_bytes, IfOk, OnOk, Some, None, option_map, option_and_then, slice_get};
ghost use Rattle.std.specs.Option.{option_copied};
ghost use Rattle.py_values.specs.declared.val.Val.TheVariants as val;
ghost use Rattle.py_heap.specs.Heaps.{seen};
ghost use Rattle.design_ir.specs.PoolRules.{HasInit};
ghost use Rattle.elab_components.specs.Interfaces.{string_in, members_of_row, members_of_val, members_given, are_members, names_bound, store_with_interface, interface_bound, interface_of, interface_made, interface_given, component_called, component_class, init_as, init_answered};
ghost use Rattle.elab_store.specs.Calls.{behind_first};
ghost use Rattle.elab_store.specs.Faces.{IsFace};
ghost use Rattle.elab_components.specs.Puts.{IsPut};
ghost use Rattle.elab_store.specs.Held.{held_of, Gives};

use crate::classes::init_base;
use crate::component_classes::member_of;
use crate::faces::{make_face, part_val};
use crate::imports::named_val;
use amh_host::Text;
use amh_things::thing::Reading;
use design_ir::{Expr, Exprs, PoolStop, Ports, Sig, SigId};
use elab_store::calls::{first_val, vals_behind};
use elab_store::components::copied;
use elab_store::faces::{Face, FaceMember};
use elab_store::kept::Kept;
use elab_store::members::{Members, NamedMember};
use elab_store::store::{Elaboration, Store};
use identifiers::is_identifier;
use lists::NoMemory;
use py_frames::request::{Answer, Cause, NamedVal, NamedVals, Request};
use py_heap::{Frozen, Heap};
use py_values::{ObjId, Val};
use std::alloc::Global;
use std::collections::BTreeSet;

/// A signal that was made, and the value that stands for it.
#[derive(Clone, Copy, PartialEq, Eq, Drop)]
pub struct NewSignal {
    pub sig: SigId,
    pub val: Val,
}

// ---- which members

fn string_in<'a>(heap: &'a Heap, frozen: &'a Frozen, v: Val) -> Option<&'a str>
    ensures { option_copied result ≡ string_in (seen frozen.now heap.now) v }
{
    match v {
        Val::Str(x) => Some(heap.text(frozen, x)),
        _ => None,
    }
}

// The members of a dict, by its keys and their values.
pub(crate) fn members_of_row(
    store: &Store,
    alloc: Global,
    heap: &Heap,
    frozen: &Frozen,
    row: &[Val],
) -> Result<Option<Members>, NoMemory>
    ensures { IfOk result (λ ms. ms ≡ members_of_row (seen frozen.now heap.now) store.now row.now) }
{
    let mut members = Members::new(alloc);
    let mut rest = row;
    while let [k, v, more @ ..] = rest {
        let (Some(name), Some(member)) = (string_in(heap, frozen, *k), member_of(store.kept_of(*v)))
        else {
            return Ok(None);
        };
        members.push(NamedMember::of(alloc, name, member)?)?;
        rest = more;
    }
    if rest.is_empty() {
        Ok(Some(members))
    } else {
        Ok(None)
    }
}

// The members of a signature.
fn members_of_signature(
    store: &Store,
    alloc: Global,
    number: Option<u32>,
) -> Result<Option<Members>, NoMemory>
    ensures { IfOk result (λ ms. ms ≡ option_and_then (slice_get store.now.components.signatures) number) }
{
    let Some(number) = number else {
        return Ok(None);
    };
    let Some(members) = store.components.signature(number) else {
        return Ok(None);
    };
    Ok(Some(copied(alloc, members.as_slice())?))
}

fn members_of_val(
    store: &Store,
    alloc: Global,
    heap: &Heap,
    frozen: &Frozen,
    v: Val,
) -> Result<Option<Members>, NoMemory>
    ensures { IfOk result (λ ms. ms ≡ members_of_val (seen frozen.now heap.now) store.now v) }
{
    match v {
        Val::Dict(o) => members_of_row(store, alloc, heap, frozen, heap.row(frozen, o)),
        _ => members_of_signature(store, alloc, store.signature_of(v)),
    }
}

// The members that are given, or those of the class.
fn members_given(
    store: &Store,
    alloc: Global,
    heap: &Heap,
    frozen: &Frozen,
    class: ObjId,
    args: &[Val],
) -> Result<Option<Members>, NoMemory>
    ensures { IfOk result (λ ms. ms ≡ members_given (seen frozen.now heap.now) store.now class.0 args.now) }
{
    match args {
        [] => Ok(Some(store.components.members_of(alloc, class)?)),
        [v] => members_of_val(store, alloc, heap, frozen, *v),
        _ => Ok(None),
    }
}

/// A class over `Component`.
pub fn component_class(store: &Store, v: Val) -> Option<ObjId>
    ensures { option_map (λ c. c.0) result ≡ component_class store.now v }
{
    match v {
        Val::Class(c) => match store.components.class(c.0) {
            Some(_) => Some(c),
            None => None,
        },
        _ => None,
    }
}

// Keeps the interface of an object and its ports, and gives its signature.
fn keep_interface(
    store: &mut Store,
    object: ObjId,
    face: Face,
    ports: Ports,
) -> Result<Val, NoMemory>
    ensures { IfOk result (λ v. (v ≡ val.Hw (record { 0 = length store.old.things })) × (store.new ≡ store_with_interface object face ports store.old)) }
{
    let v = store.keep(Kept::Signature(face.signature))?;
    store.components.keep_object(object.0, face, ports)?;
    Ok(v)
}

// ---- their names

/// Whether each name is an identifier, stands not before, and is not `signature`.
pub fn are_members(alloc: Global, members: &[NamedMember]) -> Result<bool, NoMemory>
    ensures { IfOk result (λ all. all ≡ are_members members.now) }
{
    let mut names = BTreeSet::new(alloc);
    names.insert(String::from_str(alloc, "signature")?)?;
    for m in members {
        let name = m.name.as_str();
        if !is_identifier(alloc, name)? || names.contains(name) {
            return Ok(false);
        }
        names.insert(String::from_str(alloc, name)?)?;
    }
    Ok(true)
}

/// A text once more.
pub fn copied_text(alloc: Global, text: &Text) -> Result<Text, NoMemory>
    ensures { IfOk result (λ copy. copy ≡ text.now) }
{
    let mut copy = Text::new(alloc);
    copy.push(text.as_str())?;
    Ok(copy)
}

// A pool that takes an expression refuses it for want of memory alone.
pub(crate) fn want_of_memory(_stop: PoolStop) -> NoMemory
    requires { _stop ≡ PoolStop.NoMemory }
{
    NoMemory
}

/// A signal, the expression that it is and the thing that stands for it by what its bits are read as; none where a count would be passed.
pub fn new_signal(
    elaboration: &mut Elaboration,
    reading: Reading,
    x: Sig,
) -> Result<Option<NewSignal>, NoMemory>
    requires init { HasInit x }
    ensures { IfOk result (λ made. IsPut made reading x (held_of elaboration.old) (held_of elaboration.new)) }
{
    if elaboration.pool.count() >= 262_144 {
        return Ok(None);
    }
    let sig = match elaboration.pool.sig(x) {
        Ok(sig) => sig,
        Err(PoolStop::Limit) => return Ok(None),
        Err(stop) => return Err(want_of_memory(stop)),
    };
    match elaboration.pool.expr(Expr::Sig(sig)) {
        Ok(e) => {
            let val = elaboration.store.hold(reading, e)?;
            Ok(Some(NewSignal { sig, val }))
        }
        Err(stop) => Err(want_of_memory(stop)),
    }
}

// Each member's name is bound to its value.
fn bind_names(
    elaboration: &mut Elaboration,
    members: &[NamedMember],
    parts: &[Option<FaceMember>],
) -> Result<Option<NamedVals>, NoMemory>
    ensures { IfOk result (λ names. (names, held_of elaboration.new) ≡ names_bound [] members.now parts.now (held_of elaboration.old)) }
{
    let mut names = NamedVals::new(elaboration.alloc);
    for i in 0..members.len() {
        if i >= parts.len() {
            return Ok(None);
        }
        let m = &members[i];
        let Some(val) = part_val(elaboration, parts[i])? else {
            return Ok(None);
        };
        names.push(named_val(elaboration.alloc, m.name.as_str(), val)?)?;
    }
    Ok(Some(names))
}

// All members and the signature are bound.
fn bind_interface(
    elaboration: &mut Elaboration,
    object: ObjId,
    face: Face,
    ports: Ports,
    names: NamedVals,
) -> Result<Answer, NoMemory>
    ensures { Gives result elaboration.new (interface_bound object face ports (Some names, held_of elaboration.old)) }
{
    let mut names = names;
    let val = keep_interface(&mut elaboration.store, object, face, ports)?;
    names.push(named_val(elaboration.alloc, "signature", val)?)?;
    Ok(Answer::Bind(names))
}

// What comes of the signals of an interface.
fn bind_face(
    elaboration: &mut Elaboration,
    object: ObjId,
    members: Members,
    face: Face,
    ports: Ports,
) -> Result<Answer, NoMemory>
    requires { IsFace elaboration.old.store.components.signatures elaboration.old.store.components.ends face }
    ensures { Gives result elaboration.new (interface_of object members ports (Some face, held_of elaboration.old)) }
{
    let parts = elaboration
        .store
        .components
        .face_members(elaboration.alloc, face)?;
    match bind_names(elaboration, members.as_slice(), parts.as_slice())? {
        Some(names) => bind_interface(elaboration, object, face, ports, names),
        None => elaboration.refuse(Cause::Raised),
    }
}

// A signal for each leaf of a signature of these members.
fn make_interface(
    elaboration: &mut Elaboration,
    object: ObjId,
    members: Members,
) -> Result<Answer, NoMemory>
    ensures { Gives result elaboration.new (interface_made object members (held_of elaboration.old)) }
{
    let number = elaboration.store.components.signature_count();
    if number > 4_294_967_295 {
        return Err(NoMemory);
    }
    let own = copied(elaboration.alloc, members.as_slice())?;
    elaboration.store.components.keep_signature(own)?;
    let mut ports = Ports::new(elaboration.alloc);
    let Some(face) = make_face(elaboration, number as u32, "", &mut ports)? else {
        return elaboration.refuse(Cause::Limit);
    };
    bind_face(elaboration, object, members, face, ports)
}

// The interface of these members.
fn give_interface(
    elaboration: &mut Elaboration,
    object: ObjId,
    members: Option<Members>,
) -> Result<Answer, NoMemory>
    ensures { Gives result elaboration.new (interface_given object members (held_of elaboration.old)) }
{
    let Some(members) = members else {
        return elaboration.refuse(Cause::Raised);
    };
    if are_members(elaboration.alloc, members.as_slice())? {
        make_interface(elaboration, object, members)
    } else {
        elaboration.refuse(Cause::Raised)
    }
}

// `__init__` of an object of a component class.
fn init_component(
    elaboration: &mut Elaboration,
    heap: &Heap,
    frozen: &Frozen,
    object: ObjId,
    class: ObjId,
    request: &Request,
) -> Result<Answer, NoMemory>
    ensures { Gives result elaboration.new (component_called (seen frozen.now heap.now) object class.0 (behind_first request.now.vals) request.now.names (held_of elaboration.old)) }
{
    if !request.names.items().is_empty() {
        return elaboration.refuse(Cause::Raised);
    }
    let args = vals_behind(request.vals.as_slice());
    let members = members_given(
        &elaboration.store,
        elaboration.alloc,
        heap,
        frozen,
        class,
        args,
    )?;
    give_interface(elaboration, object, members)
}

/// `__init__` of an object.
pub fn answer_init(
    elaboration: &mut Elaboration,
    heap: &Heap,
    frozen: &Frozen,
    request: &Request,
) -> Result<Answer, NoMemory>
    ensures { Gives result elaboration.new (init_answered (seen frozen.now heap.now) request.now.vals request.now.names (held_of elaboration.old)) }
{
    let Val::Object(object) = first_val(request.vals.as_slice()) else {
        return init_base(elaboration, request);
    };
    let class = first_val(heap.row(frozen, object));
    match component_class(&elaboration.store, class) {
        Some(class) => init_component(elaboration, heap, frozen, object, class, request),
        None => init_base(elaboration, request),
    }
}
