// Members of interfaces, and classes over `Component`.
ghost use Rattle.std.specs.Prelude.{◌≡◌, IfOk};

use crate::shapes::Shaped;
use amh_bits::Int;
use amh_host::{Items, Text};
use lists::NoMemory;
use py_values::ObjId;
use std::alloc::Global;

/// What a member is: a port, whose signal has the number wrapped to the shape, or an interface of a signature, by its number in order of making.
#[derive(Clone, Copy, PartialEq, Eq, Drop)]
pub enum MemberForm {
    Port { shape: Shaped, init: Int },
    Nested(u32),
}

/// What `In(shape, init=n)`, `Out(shape, init=n)`, `In(signature)` and `Out(signature)` give.
#[derive(Clone, Copy, PartialEq, Eq, Drop)]
pub struct Member {
    pub is_out: bool,
    pub form: MemberForm,
}

/// A member under its name.
#[derive(Drop)]
pub struct NamedMember {
    pub name: Text,
    pub member: Member,
}

/// Members in order.
pub type Members = Items<NamedMember>;

/// A class over `Component`: the class that it stands over, where it is not `Component` itself, and its own members in order.
#[derive(Drop)]
pub struct ComponentClass {
    pub base: Option<ObjId>,
    pub members: Members,
}

impl NamedMember {
    /// A member of this name.
    pub fn of(alloc: Global, name: &str, member: Member) -> Result<NamedMember, NoMemory>
        ensures { IfOk result (λ m. m ≡ record { name = name.now; member = member }) }
    {
        let mut copy = Text::new(alloc);
        copy.push(name)?;
        Ok(NamedMember { name: copy, member })
    }
}
