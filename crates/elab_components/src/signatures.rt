// `Signature(..)`, its methods, and the signatures of streams.
ghost use Rattle.std.specs.Prelude.{◌≡◌, map, string_bytes, slice_get, pos, IfOk, Some, None};
ghost use Rattle.std.specs.Option.{option_copied};
ghost use Rattle.py_heap.specs.Heaps.{seen};
ghost use Rattle.elab_store.specs.Seen.{called_of};
ghost use Rattle.elab_store.specs.Held.{held_of, Gives};
ghost use Rattle.elab_store.specs.declared.members.MemberForm.TheVariants as form;
ghost use Rattle.elab_components.specs.Faces.{face_made};
ghost use Rattle.elab_components.specs.Signals.{call_name, formed};
ghost use Rattle.elab_components.specs.Signatures.{signature_kept, signature_from, members_of_dict, signature_called, signature_attribute, signature_turned, face_given, interface_created, method_called, signature_method_called, stream_members, stream_signature_called};

use crate::faces::make_face;
use crate::interfaces::{are_members, members_of_row};
use crate::signals::{call_name, formed};
use amh_bits::Int;
use amh_things::thing::Reading;
use design_ir::Ports;
use elab_store::calls::Called;
use elab_store::components::turned_members;
use elab_store::kept::{Kept, SignatureMethod};
use elab_store::members::{Member, MemberForm, Members, NamedMember};
use elab_store::names::is_text;
use elab_store::shapes::Shaped;
use elab_store::store::{Elaboration, Store};
use lists::NoMemory;
use py_frames::request::{Answer, Cause};
use py_heap::{Frozen, Heap};
use py_values::Val;
use shape_rules::Shape;
use std::alloc::Global;

// Keeps a signature of these members, and gives it.
fn keep_signature(elaboration: &mut Elaboration, members: Members) -> Result<Answer, NoMemory>
    ensures { Gives result elaboration.new (signature_kept members (held_of elaboration.old)) }
{
    let number = elaboration.store.components.signature_count();
    if number > 4_294_967_295 {
        return Err(NoMemory);
    }
    elaboration.store.components.keep_signature(members)?;
    elaboration.give_kept(Kept::Signature(number as u32))
}

// A signature of these members, where they may be one's.
fn give_signature(
    elaboration: &mut Elaboration,
    members: Option<Members>,
) -> Result<Answer, NoMemory>
    ensures { Gives result elaboration.new (signature_from members (held_of elaboration.old)) }
{
    let Some(members) = members else {
        return elaboration.refuse(Cause::Raised);
    };
    if are_members(elaboration.alloc, members.as_slice())? {
        keep_signature(elaboration, members)
    } else {
        elaboration.refuse(Cause::Raised)
    }
}

/// The members of a dict.
pub fn members_of_dict(
    store: &Store,
    alloc: Global,
    heap: &Heap,
    frozen: &Frozen,
    v: Val,
) -> Result<Option<Members>, NoMemory>
    ensures { IfOk result (λ ms. ms ≡ members_of_dict (seen frozen.now heap.now) store.now v) }
{
    match v {
        Val::Dict(o) => members_of_row(store, alloc, heap, frozen, heap.row(frozen, o)),
        _ => Ok(None),
    }
}

/// `Signature(members)`.
pub fn call_signature(
    elaboration: &mut Elaboration,
    heap: &Heap,
    frozen: &Frozen,
    call: &Called,
) -> Result<Answer, NoMemory>
    ensures { Gives result elaboration.new (signature_called (seen frozen.now heap.now) (called_of call.now) (held_of elaboration.old)) }
{
    match (call.placed, call.keywords) {
        ([v], []) => {
            let members = members_of_dict(&elaboration.store, elaboration.alloc, heap, frozen, *v)?;
            give_signature(elaboration, members)
        }
        _ => elaboration.refuse(Cause::Raised),
    }
}

// ---- methods

/// An attribute of a signature: one of its methods.
pub fn signature_attribute(
    elaboration: &mut Elaboration,
    number: u32,
    name: &str,
) -> Result<Answer, NoMemory>
    ensures { Gives result elaboration.new (signature_attribute number name.now (held_of elaboration.old)) }
{
    let method = if is_text(name, "flip") {
        SignatureMethod::Flip
    } else if is_text(name, "create") {
        SignatureMethod::Create
    } else {
        return elaboration.refuse(Cause::Raised);
    };
    elaboration.give_kept(Kept::OfSignature { of: number, method })
}

/// A signature of the same members, each in the other direction.
pub fn turn_signature(elaboration: &mut Elaboration, number: u32) -> Result<Answer, NoMemory>
    ensures { Gives result elaboration.new (signature_turned (slice_get (held_of elaboration.old).store.components.signatures number) (held_of elaboration.old)) }
{
    let Some(members) = elaboration.store.components.signature(number) else {
        return elaboration.refuse(Cause::Raised);
    };
    let members = turned_members(elaboration.alloc, members.as_slice())?;
    keep_signature(elaboration, members)
}

// An interface of a signature, its signals named behind a prefix.
fn give_face(elaboration: &mut Elaboration, number: u32, prefix: &str) -> Result<Answer, NoMemory>
    ensures { Gives result elaboration.new (face_given (face_made number prefix.now (held_of elaboration.old))) }
{
    let mut ports = Ports::new(elaboration.alloc);
    match make_face(elaboration, number, prefix, &mut ports)? {
        Some(face) => elaboration.give_kept(Kept::Interface(face)),
        None => elaboration.refuse(Cause::Limit),
    }
}

// An interface of a signature, its signals named after the call.
fn create(elaboration: &mut Elaboration, number: u32, name: &str) -> Result<Answer, NoMemory>
    ensures { Gives result elaboration.new (interface_created (slice_get (held_of elaboration.old).store.components.signatures number) (formed (call_name name.now)) number (held_of elaboration.old)) }
{
    if elaboration.store.components.signature(number).is_none() {
        return elaboration.refuse(Cause::Raised);
    }
    match formed(elaboration.alloc, call_name(name))? {
        Some(prefix) => give_face(elaboration, number, prefix),
        None => elaboration.refuse(Cause::Raised),
    }
}

/// `sig.flip()` or `sig.create()`.
pub fn call_signature_method(
    elaboration: &mut Elaboration,
    number: u32,
    method: SignatureMethod,
    call: &Called,
) -> Result<Answer, NoMemory>
    ensures { Gives result elaboration.new (signature_method_called number method (called_of call.now) (held_of elaboration.old)) }
{
    if !call.placed.is_empty() || !call.keywords.is_empty() {
        return elaboration.refuse(Cause::Raised);
    }
    match method {
        SignatureMethod::Flip => turn_signature(elaboration, number),
        SignatureMethod::Create => create(elaboration, number, call.name),
    }
}

// ---- streams

fn port(alloc: Global, name: &str, is_out: bool, shape: Shaped) -> Result<NamedMember, NoMemory>
    ensures { IfOk result (λ m. m ≡ record { name = name.now; member = record { is_out = is_out; form = form.Port shape (pos 0) } }) }
{
    let init = Int::of_u128(0);
    let member = Member {
        is_out,
        form: MemberForm::Port { shape, init },
    };
    NamedMember::of(alloc, name, member)
}

// A payload, whether it is valid, and whether it can be taken.
fn stream_members(alloc: Global, payload: Shaped) -> Result<Members, NoMemory>
    ensures { IfOk result (λ ms. ms ≡ stream_members payload) }
{
    let bit = Shaped {
        form: Shape {
            width: 1,
            signed: false,
        },
        reading: Reading::Plain,
    };
    let mut members = Members::new(alloc);
    members.push(port(alloc, "payload", true, payload)?)?;
    members.push(port(alloc, "valid", true, bit)?)?;
    members.push(port(alloc, "ready", false, bit)?)?;
    Ok(members)
}

/// `stream.Signature(shape)`.
pub fn call_stream_signature(
    elaboration: &mut Elaboration,
    heap: &Heap,
    frozen: &Frozen,
    call: &Called,
) -> Result<Answer, NoMemory>
    ensures { Gives result elaboration.new (stream_signature_called (seen frozen.now heap.now) (called_of call.now) (held_of elaboration.old)) }
{
    let ([v], []) = (call.placed, call.keywords) else {
        return elaboration.refuse(Cause::Raised);
    };
    match elaboration.store.shaped_meant(heap, frozen, v) {
        Ok(shape) => {
            let members = stream_members(elaboration.alloc, shape)?;
            keep_signature(elaboration, members)
        }
        Err(why) => elaboration.refuse(why),
    }
}
