// Classes over `Signature`, and their objects.
ghost use Rattle.std.specs.Prelude.{◌≡◌, [], map, string_bytes, length, IfOk, OnOk};
ghost use Rattle.py_heap.specs.Heaps.{seen};
ghost use Rattle.elab_store.specs.Held.{held_of, Gives};
ghost use Rattle.elab_wiring.specs.SignatureClasses.{is_signature_name, any_class_answered, root_of, class_root, is_signature_root, signed_by, signed_given, signature_init, any_init_answered, object_attribute};

use elab_components::classes::has_keyword;
use elab_components::component_classes;
use elab_components::interfaces::{answer_init, are_members};
use elab_components::signatures::{members_of_dict, signature_attribute};
use elab_store::calls::first_val;
use elab_store::kept::{HdlName, Kept};
use elab_store::members::Members;
use elab_store::store::{Elaboration, Store};
use lists::NoMemory;
use py_frames::request::{Answer, Cause, NamedVals, Request};
use py_heap::{Frozen, Heap};
use py_values::{Hw, ObjId, Val};

// ---- classes

fn is_signature_name(kept: Option<Kept>) -> bool
    ensures { result ≡ is_signature_name kept }
{
    match kept {
        Some(Kept::Name(HdlName::Signature)) => true,
        _ => false,
    }
}

/// The end of a class.
pub fn answer_class(elaboration: &mut Elaboration, request: &Request) -> Result<Answer, NoMemory>
    ensures { Gives result elaboration.new (any_class_answered request.now.vals request.now.names (held_of elaboration.old)) }
{
    let [class, base, ..] = request.vals.as_slice() else {
        return component_classes::answer_class(elaboration, request);
    };
    if !is_signature_name(elaboration.store.kept_of(*base)) {
        return component_classes::answer_class(elaboration, request);
    }
    if has_keyword(request.names.items()) {
        elaboration.refuse(Cause::Raised)
    } else {
        elaboration.give(*class)
    }
}

// ---- what a class stands over

fn root_of(heap: &Heap, frozen: &Frozen, class: ObjId) -> Option<Hw>
    ensures { result ≡ root_of (seen frozen.now heap.now) class }
{
    let mut at = class;
    for _turn in 0..class.0 as u64 + 1 {
        match first_val(heap.row(frozen, at)) {
            Val::Class(base) => at = base,
            Val::Hw(thing) => return Some(thing),
            _ => return None,
        }
    }
    None
}

fn class_root(heap: &Heap, frozen: &Frozen, class: Val) -> Option<Hw>
    ensures { result ≡ class_root (seen frozen.now heap.now) class }
{
    match class {
        Val::Class(class) => root_of(heap, frozen, class),
        _ => None,
    }
}

fn is_signature_root(elaboration: &Elaboration, root: Option<Hw>) -> bool
    ensures { result ≡ is_signature_root (held_of elaboration.now) root }
{
    match root {
        Some(thing) => is_signature_name(elaboration.store.kept_of(Val::Hw(thing))),
        None => false,
    }
}

// ---- objects

// The object is a new signature of these members.
fn sign(elaboration: &mut Elaboration, object: ObjId, members: Members) -> Result<(), NoMemory>
    ensures { OnOk result (held_of elaboration.new ≡ signed_by object members (held_of elaboration.old)) }
{
    let number = elaboration.store.components.signature_count();
    if number > 4_294_967_295 {
        return Err(NoMemory);
    }
    elaboration.store.components.keep_signature(members)?;
    elaboration
        .store
        .components
        .keep_signed(object.0, number as u32)?;
    Ok(())
}

// The object is a signature of these members, where they may be one's.
fn give_signed(
    elaboration: &mut Elaboration,
    object: ObjId,
    members: Option<Members>,
) -> Result<Answer, NoMemory>
    ensures { Gives result elaboration.new (signed_given object members (held_of elaboration.old)) }
{
    let Some(members) = members else {
        return elaboration.refuse(Cause::Raised);
    };
    if !are_members(elaboration.alloc, members.as_slice())? {
        return elaboration.refuse(Cause::Raised);
    }
    sign(elaboration, object, members)?;
    Ok(Answer::Bind(NamedVals::new(elaboration.alloc)))
}

// `super().__init__(members)` of an object.
fn init_signature(
    elaboration: &mut Elaboration,
    heap: &Heap,
    frozen: &Frozen,
    object: ObjId,
    args: &[Val],
    keywords: &[String],
) -> Result<Answer, NoMemory>
    ensures { Gives result elaboration.new (signature_init (seen frozen.now heap.now) object args.now (map string_bytes keywords.now) (held_of elaboration.old)) }
{
    match (args, keywords) {
        ([v], []) => {
            let members = members_of_dict(&elaboration.store, elaboration.alloc, heap, frozen, *v)?;
            give_signed(elaboration, object, members)
        }
        _ => elaboration.refuse(Cause::Raised),
    }
}

/// `__init__` of an object.
pub fn init_object(
    elaboration: &mut Elaboration,
    heap: &Heap,
    frozen: &Frozen,
    request: &Request,
) -> Result<Answer, NoMemory>
    ensures { Gives result elaboration.new (any_init_answered (seen frozen.now heap.now) request.now.vals request.now.names (held_of elaboration.old)) }
{
    let [Val::Object(object), args @ ..] = request.vals.as_slice() else {
        return answer_init(elaboration, heap, frozen, request);
    };
    let class = first_val(heap.row(frozen, *object));
    let root = class_root(heap, frozen, class);
    if is_signature_root(elaboration, root) {
        init_signature(
            elaboration,
            heap,
            frozen,
            *object,
            args,
            request.names.items(),
        )
    } else {
        answer_init(elaboration, heap, frozen, request)
    }
}

/// An attribute of an object that neither it nor its class has.
pub fn object_attribute(
    elaboration: &mut Elaboration,
    object: ObjId,
    name: &str,
) -> Result<Answer, NoMemory>
    ensures { Gives result elaboration.new (object_attribute object name.now (held_of elaboration.old)) }
{
    match elaboration.store.components.signed(object.0) {
        Some(number) => signature_attribute(elaboration, number, name),
        None => elaboration.refuse(Cause::Raised),
    }
}
