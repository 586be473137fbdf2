// Classes over `Component` that are made.
ghost use Rattle.std.specs.Prelude.{◌≡◌, [], map, string_bytes, IfOk, OnOk, Option, List, Some, None, true};
ghost use Rattle.elab_store.specs.declared.members.NamedMember.{NamedMember as Named};
ghost use Rattle.elab_components.specs.ComponentClasses.{base_as, component_base, member_of, value_before, behind_members, annotated, component_made, class_answered, store_with_class};
ghost use Rattle.elab_store.specs.Held.{held_of, Gives};

use crate::classes::{is_keyword, make_class};
use elab_store::calls::names_behind;
use elab_store::kept::{HdlName, Kept};
use elab_store::members::{ComponentClass, Member, MemberForm, Members, NamedMember};
use elab_store::store::{Elaboration, Store};
use lists::NoMemory;
use py_frames::request::{Answer, Cause, Request};
use py_values::{ObjId, Val};
use std::alloc::Global;

/// The member that a thing is.
pub fn member_of(kept: Option<Kept>) -> Option<Member>
    ensures { result ≡ member_of kept }
{
    match kept {
        Some(
            Kept::Port {
                is_out,
                shape,
                init,
            },
        ) => Some(Member {
            is_out,
            form: MemberForm::Port { shape, init },
        }),
        Some(Kept::Nested { is_out, signature }) => Some(Member {
            is_out,
            form: MemberForm::Nested(signature),
        }),
        _ => None,
    }
}

// Puts the member that a value of a class is behind others, and says whether it may stand there.
fn push_value(
    alloc: Global,
    name: &str,
    member: Option<Member>,
    members: &mut Members,
) -> Result<bool, NoMemory>
    ensures { (rest : Option (List Named)) → IfOk result (λ all. behind_members all members.new rest ≡ behind_members true members.old (value_before name.now member rest)) }
{
    if let Some(name) = name.strip_prefix(':') {
        let Some(member) = member else {
            return Ok(false);
        };
        members.push(NamedMember::of(alloc, name, member)?)?;
        return Ok(true);
    }
    Ok(!is_keyword(name))
}

// `Component` itself, or a class over it.
fn base_as(store: &Store, kept: Option<Kept>, v: Val) -> Option<Option<ObjId>>
    ensures { result ≡ base_as store.now kept v }
{
    match kept {
        Some(Kept::Name(HdlName::Component)) => Some(None),
        None => class_base(store, v),
        _ => None,
    }
}

// A class over `Component`.
fn class_base(store: &Store, v: Val) -> Option<Option<ObjId>>
    ensures { result ≡ base_as store.now None v }
{
    match v {
        Val::Class(c) => match store.components.class(c.0) {
            Some(_) => Some(Some(c)),
            None => None,
        },
        _ => None,
    }
}

// The members by the annotations of a class.
fn annotated(
    store: &Store,
    alloc: Global,
    vals: &[Val],
    names: &[String],
) -> Result<Option<Members>, NoMemory>
    ensures { IfOk result (λ ms. ms ≡ annotated store.now vals.now (map string_bytes names.now)) }
{
    let mut members = Members::new(alloc);
    for i in 0..names.len() {
        if i >= vals.len() {
            return Ok(None);
        }
        let member = member_of(store.kept_of(vals[i]));
        if !push_value(alloc, names[i].as_str(), member, &mut members)? {
            return Ok(None);
        }
    }
    Ok(Some(members))
}

// Keeps a class over `Component`.
fn keep_class(store: &mut Store, number: ObjId, class: ComponentClass) -> Result<(), NoMemory>
    ensures { OnOk result (store.new ≡ store_with_class number class store.old) }
{
    store.components.keep_class(number.0, class)
}

// A class over `Component` with these members.
fn make_component(
    elaboration: &mut Elaboration,
    class: Val,
    base: Option<ObjId>,
    members: Option<Members>,
) -> Result<Answer, NoMemory>
    ensures { Gives result elaboration.new (component_made class base members (held_of elaboration.old)) }
{
    match (class, members) {
        (Val::Class(number), Some(members)) => {
            keep_class(
                &mut elaboration.store,
                number,
                ComponentClass { base, members },
            )?;
            elaboration.give(class)
        }
        _ => elaboration.refuse(Cause::Raised),
    }
}

/// The end of a class.
pub fn answer_class(elaboration: &mut Elaboration, request: &Request) -> Result<Answer, NoMemory>
    ensures { Gives result elaboration.new (class_answered request.now.vals request.now.names (held_of elaboration.old)) }
{
    let [class, base, vals @ ..] = request.vals.as_slice() else {
        return make_class(elaboration, request);
    };
    let kept = elaboration.store.kept_of(*base);
    let Some(over) = base_as(&elaboration.store, kept, *base) else {
        return make_class(elaboration, request);
    };
    let names = names_behind(request.names.items());
    let members = annotated(&elaboration.store, elaboration.alloc, vals, names)?;
    make_component(elaboration, *class, over, members)
}
