// Classes over `Component`, signatures, and the interfaces of objects, as they are kept.
ghost use Rattle.std.specs.Prelude.{◌≡◌, ◌++◌, ◌+◌, ◌<◌, ◌≤◌, length, reverse, slice_get, IfOk, OnOk, IfSome, Some, None, false, []};
ghost use Rattle.std.specs.Option.{option_copied};
ghost use Rattle.elab_store.specs.Components.{no_components, class_at, with_class, class_members, members_in, with_signature, turned_member, turned_members, signed_at, with_signed, ending, object_at, ports_at, face_at, with_face};
ghost use Rattle.elab_store.specs.Leaves.{leaves_in, all_leaves, cut, leaf_count, form_count};
ghost use Rattle.elab_store.specs.Faces.{IsFace, member_as, face_member, face_members};

use crate::faces::{ComponentObject, End, Face, FaceMember};
use crate::leaves::turned_by;
use crate::members::{ComponentClass, Member, MemberForm, Members, NamedMember};
use amh_host::Items;
use design_ir::{ExprId, Ports, SigId};
use lists::NoMemory;
use py_values::{ObjId, Val};
use std::alloc::Global;
use std::collections::BTreeMap;
use std::marker::Model;

/// The classes over `Component` with their own members; the members of each signature, and how many leaves it has, cut at one more than a design
/// may have signals; the signals that were made for leaves; the interface and ports of each object that has one; and which objects are
/// signatures. Contracts see it as `Components`.
#[derive(Drop)]
pub struct Components {
    classes: BTreeMap<u32, ComponentClass>,
    signatures: Vec<Members>,
    counts: Vec<u32>,
    ends: Items<End>,
    objects: BTreeMap<u32, ComponentObject>,
    signed: BTreeMap<u32, u32>,
}

impl Model for Components {
    ghost use Rattle.elab_store.specs.Components.{Components};
    ghost use Rattle.elab_store.specs.Leaves.{AreCounts};

    ghost Value = { Components };

    ghost view = { λ a. record { classes = a.classes.entries; signatures = a.signatures.items; ends = a.ends; objects = a.objects.entries; signed = a.signed.entries } };

    ghost invariant = { λ a. AreCounts a.signatures.items a.counts.items };
}

// Members behind others, the last first.
fn push_back(
    alloc: Global,
    members: &[NamedMember],
    all: &mut Vec<NamedMember>,
) -> Result<(), NoMemory>
    ensures { OnOk result (all.new.items ≡ all.old.items ++ reverse members.now) }
{
    let count = members.len();
    for i in 0..count {
        let m = &members[count - 1 - i];
        all.push(NamedMember::of(alloc, m.name.as_str(), m.member)?)?;
    }
    Ok(())
}

// Members the other way round.
fn turned(alloc: Global, members: Vec<NamedMember>) -> Result<Members, NoMemory>
    ensures { IfOk result (λ all. all ≡ reverse members.items) }
{
    let mut members = members;
    let mut all = Members::new(alloc);
    while let Some(m) = members.pop() {
        all.push(m)?;
    }
    Ok(all)
}

/// The members once more.
pub fn copied(alloc: Global, members: &[NamedMember]) -> Result<Members, NoMemory>
    ensures { IfOk result (λ all. all ≡ members.now) }
{
    let mut all = Members::new(alloc);
    for m in members {
        all.push(NamedMember::of(alloc, m.name.as_str(), m.member)?)?;
    }
    Ok(all)
}

/// The members, each in the other direction.
pub fn turned_members(alloc: Global, members: &[NamedMember]) -> Result<Members, NoMemory>
    ensures { IfOk result (λ all. all ≡ turned_members members.now) }
{
    let mut all = Members::new(alloc);
    for m in members {
        let member = Member {
            is_out: !m.member.is_out,
            form: m.member.form,
        };
        all.push(NamedMember::of(alloc, m.name.as_str(), member)?)?;
    }
    Ok(all)
}

// A count of leaves, cut at one more than a design may have signals.
fn cut(count: u32) -> u32
    ensures { result ≡ cut count }
{
    if count <= 16_384 { count } else { 16_385 }
}

// A member of a signature of this number, whose leaves are the ends from the first on.
fn member_as(signature: u32, is_out: bool, first: usize, form: MemberForm) -> Option<FaceMember>
    ensures { result ≡ member_as signature is_out first form }
{
    match form {
        MemberForm::Port { shape: _, init: _ } => Some(FaceMember::Port(first)),
        MemberForm::Nested(n) if n < signature => Some(FaceMember::Nested(Face {
            signature: n,
            turned: !is_out,
            first,
        })),
        MemberForm::Nested(_) => None,
    }
}

impl Components {
    /// Nothing yet, which takes no memory.
    pub fn new(alloc: Global) -> Components
        ensures { result ≡ no_components }
    {
        Components {
            classes: BTreeMap::new(alloc),
            signatures: Vec::new(alloc),
            counts: Vec::new(alloc),
            ends: Items::new(alloc),
            objects: BTreeMap::new(alloc),
            signed: BTreeMap::new(alloc),
        }
    }

    /// A class over `Component` by its number, where there is one.
    pub fn class(&self, number: u32) -> Option<&ComponentClass>
        ensures { option_copied result ≡ class_at self.now.classes number }
    {
        self.classes.get(&number)
    }

    /// Keeps a class.
    pub fn keep_class(&mut self, number: u32, class: ComponentClass) -> Result<(), NoMemory>
        ensures { OnOk result (self.new ≡ with_class number class self.old) }
    {
        self.classes.insert(number, class)?;
        Ok(())
    }

    /// The interface of an object by its number, where it has one.
    pub fn face(&self, number: u32) -> Option<Face>
        ensures { result ≡ face_at self.now.objects number }
    {
        match self.objects.get(&number) {
            Some(object) => Some(object.face),
            None => None,
        }
    }

    /// The ports of an object by its number, where it has some.
    pub fn ports(&self, number: u32) -> Option<&Ports>
        ensures { option_copied result ≡ ports_at self.now.objects number }
    {
        match self.objects.get(&number) {
            Some(object) => Some(&object.ports),
            None => None,
        }
    }

    /// Keeps the interface and the ports of an object.
    pub fn keep_object(&mut self, number: u32, face: Face, ports: Ports) -> Result<(), NoMemory>
        ensures { OnOk result (self.new ≡ with_face number face ports self.old) }
    {
        self.objects
            .insert(number, ComponentObject { face, ports })?;
        Ok(())
    }

    /// The signature that an object of a class over `Signature` is, by their numbers.
    pub fn signed(&self, number: u32) -> Option<u32>
        ensures { result ≡ signed_at self.now.signed number }
    {
        self.signed.get(&number).copied()
    }

    /// Keeps which signature an object is.
    pub fn keep_signed(&mut self, number: u32, signature: u32) -> Result<(), NoMemory>
        ensures { OnOk result (self.new ≡ with_signed number signature self.old) }
    {
        self.signed.insert(number, signature)?;
        Ok(())
    }

    /// The signals that were made for leaves, in order.
    pub fn ends(&self) -> &[End]
        ensures { result.now ≡ self.now.ends }
    {
        self.ends.as_slice()
    }

    /// How many signals were made for leaves.
    pub fn end_count(&self) -> usize
        ensures { result ≡ length self.now.ends }
    {
        self.ends.len()
    }

    /// Keeps the signal that was made for a leaf.
    pub fn push_end(&mut self, val: Val, sig: SigId, expr: ExprId) -> Result<(), NoMemory>
        ensures { OnOk result (self.new ≡ ending (record { val = val; sig = sig; expr = expr }) self.old) }
    {
        let end = End { val, sig, expr };
        self.ends.push(end)
    }

    /// How many leaves a signature has by its number, cut at one more than a design may have signals.
    pub fn leaf_count(&self, number: u32) -> u32
        ensures { result ≡ leaf_count self.now.signatures number }
    {
        match self.counts.get(number as usize) {
            Some(count) => *count,
            None => 0,
        }
    }

    // How many leaves a member has of a signature that stands behind so many others.
    fn form_count(&self, before: usize, form: MemberForm) -> u32
        ensures { result ≡ cut (form_count self.now.signatures before form) }
    {
        match form {
            MemberForm::Port { shape: _, init: _ } => 1,
            MemberForm::Nested(n) if (n as usize) < before => self.leaf_count(n),
            MemberForm::Nested(_) => 0,
        }
    }

    // How many leaves these members have, that are to be a signature behind all others.
    fn count(&self, members: &[NamedMember]) -> u32
        ensures { result ≡ cut (length (all_leaves (leaves_in (length self.now.signatures) self.now.signatures) false [] members.now)) }
    {
        let before = self.signature_count();
        let mut total = 0;
        for m in members {
            total = cut(total + self.form_count(before, m.member.form));
        }
        total
    }

    /// Keeps a signature of these members behind all others.
    pub fn keep_signature(&mut self, members: Members) -> Result<(), NoMemory>
        ensures { OnOk result (self.new ≡ with_signature members self.old) }
    {
        let count = self.count(members.as_slice());
        self.counts.push(count)?;
        match self.signatures.push(members) {
            Ok(()) => Ok(()),
            Err(left) => {
                drop(left);
                self.counts.pop();
                Err(NoMemory)
            }
        }
    }

    /// The member of an interface by its name, where there is one.
    pub fn face_member(&self, face: Face, name: &str) -> Option<FaceMember>
        requires { IsFace self.now.signatures self.now.ends face }
        ensures { result ≡ face_member self.now.signatures face name.now }
    {
        let Some(members) = self.signature(face.signature) else {
            return None;
        };
        let ends = self.end_count();
        prove!(face.first <= ends);
        let mut first = face.first;
        for m in members.as_slice() {
            if m.name.is(name) {
                let is_out = turned_by(face.turned, m.member.is_out);
                return member_as(face.signature, is_out, first, m.member.form);
            }
            first += self.form_count(face.signature as usize, m.member.form) as usize;
        }
        None
    }

    /// How many signatures there are.
    pub fn signature_count(&self) -> usize
        ensures { result ≡ length self.now.signatures }
    {
        self.signatures.len()
    }

    /// The members of an interface, in order.
    pub fn face_members(
        &self,
        alloc: Global,
        face: Face,
    ) -> Result<Items<Option<FaceMember>>, NoMemory>
        requires { IsFace self.now.signatures self.now.ends face }
        ensures { IfOk result (λ all. all ≡ face_members self.now.signatures face) }
    {
        let mut all = Items::new(alloc);
        let Some(members) = self.signature(face.signature) else {
            return Ok(all);
        };
        let ends = self.end_count();
        prove!(face.first <= ends);
        let mut first = face.first;
        for m in members.as_slice() {
            let is_out = turned_by(face.turned, m.member.is_out);
            all.push(member_as(face.signature, is_out, first, m.member.form))?;
            first += self.form_count(face.signature as usize, m.member.form) as usize;
        }
        Ok(all)
    }

    /// The members of a signature by its number, where there is one.
    pub fn signature(&self, number: u32) -> Option<&Members>
        ensures { option_copied result ≡ slice_get self.now.signatures number }
    {
        self.signatures.get(number as usize)
    }

    // The members of a class and of those that it stands over behind others, the last first.
    fn push_class(
        &self,
        alloc: Global,
        class: ObjId,
        all: &mut Vec<NamedMember>,
    ) -> Result<(), NoMemory>
        ensures { OnOk result (all.new.items ≡ all.old.items ++ reverse (class_members self.now.classes class.0)) }
    {
        let mut next = Some(class);
        let most = u64::from(class.0) + 1;
        for i in 0..most {
            let Some(number) = next else {
                return Ok(());
            };
            let Some(known) = self.class(number.0) else {
                return Ok(());
            };
            push_back(alloc, known.members.as_slice(), all)?;
            next = known.base;
        }
        Ok(())
    }

    /// The members of a class, those of its bases first.
    pub fn members_of(&self, alloc: Global, class: ObjId) -> Result<Members, NoMemory>
        ensures { IfOk result (λ ms. ms ≡ class_members self.now.classes class.0) }
    {
        let mut all = Vec::new(alloc);
        self.push_class(alloc, class, &mut all)?;
        turned(alloc, all)
    }
}
