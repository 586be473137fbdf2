// The leaves of signatures.
ghost use Rattle.std.specs.Prelude.{◌≡◌, ◌++◌, ◌+◌, ◌<◌, ◌≤◌, IfOk, OnOk};
ghost use Rattle.elab_store.specs.Leaves.{joined, turned_by, leaves_in, leaves};
ghost use Rattle.elab_store.specs.LeafWalks.{rest_leaves, walk_leaves, steps_in, rest_steps, walk_steps};

use crate::components::Components;
use crate::hierarchy::copied;
use crate::members::MemberForm;
use crate::shapes::Shaped;
use amh_bits::Int;
use amh_host::{Items, Text};
use lists::NoMemory;
use std::alloc::Global;

/// A port of a signature, or of one that is nested in it, by the names on the way to it.
#[derive(Drop)]
pub struct Leaf {
    pub path: Text,
    pub is_out: bool,
    pub shape: Shaped,
    pub init: Int,
}

/// Leaves in order.
pub type Leaves = Items<Leaf>;

/// What is left of a signature on a walk: its members from one on, turned or not, under a prefix.
#[derive(Drop)]
pub struct Rest {
    pub signature: u32,
    pub next: usize,
    pub turned: bool,
    pub prefix: Text,
}

/// A direction, turned or not.
pub fn turned_by(turned: bool, is_out: bool) -> bool
    ensures { result ≡ turned_by turned is_out }
{
    if turned { !is_out } else { is_out }
}

// A name behind a prefix.
fn joined(alloc: Global, prefix: &str, name: &str) -> Result<Text, NoMemory>
    ensures { IfOk result (λ path. path ≡ joined prefix.now name.now) }
{
    let mut path = copied(alloc, prefix)?;
    if !prefix.is_empty() {
        path.push("__")?;
    }
    path.push(name)?;
    Ok(path)
}

impl Components {
    // What is left of a signature comes first, where that is something.
    fn put(&self, walk: &mut Vec<Rest>, rest: Rest) -> Result<(), NoMemory>
        ensures found { OnOk result (walk_leaves self.now.signatures walk.new.items ≡ rest_leaves self.now.signatures rest ++ walk_leaves self.now.signatures walk.old.items) }
        ensures steps { OnOk result (walk_steps self.now.signatures walk.new.items ≤ rest_steps self.now.signatures rest + walk_steps self.now.signatures walk.old.items) }
    {
        let Some(members) = self.signature(rest.signature) else {
            return Ok(());
        };
        if rest.next < members.len() {
            walk.push(rest)?;
        }
        Ok(())
    }

    // The leaves of a nested signature come first, where there are some.
    fn put_nested(&self, walk: &mut Vec<Rest>, before: u32, nested: Rest) -> Result<(), NoMemory>
        requires { nested.next ≡ 0 }
        ensures found { OnOk result (walk_leaves self.now.signatures walk.new.items ≡ leaves_in before self.now.signatures nested.turned nested.prefix nested.signature ++ walk_leaves self.now.signatures walk.old.items) }
        ensures steps { OnOk result (walk_steps self.now.signatures walk.new.items ≤ steps_in before self.now.signatures nested.signature + walk_steps self.now.signatures walk.old.items) }
    {
        if nested.signature < before && self.leaf_count(nested.signature) > 0 {
            self.put(walk, nested)?;
        }
        Ok(())
    }

    // One member of what is left of a signature, or its end.
    fn step(
        &self,
        alloc: Global,
        rest: Rest,
        walk: &mut Vec<Rest>,
        found: &mut Leaves,
    ) -> Result<(), NoMemory>
        ensures found { OnOk result (found.new ++ walk_leaves self.now.signatures walk.new.items ≡ found.old ++ (rest_leaves self.now.signatures rest ++ walk_leaves self.now.signatures walk.old.items)) }
        ensures steps { OnOk result (walk_steps self.now.signatures walk.new.items < rest_steps self.now.signatures rest + walk_steps self.now.signatures walk.old.items) }
    {
        let Some(members) = self.signature(rest.signature) else {
            return Ok(());
        };
        if rest.next >= members.len() {
            return Ok(());
        }
        let m = members.get(rest.next);
        let is_out = turned_by(rest.turned, m.member.is_out);
        let path = joined(alloc, rest.prefix.as_str(), m.name.as_str())?;
        let before = rest.signature;
        self.put(
            walk,
            Rest {
                signature: before,
                next: rest.next + 1,
                turned: rest.turned,
                prefix: rest.prefix,
            },
        )?;
        match m.member.form {
            MemberForm::Port { shape, init } => found.push(Leaf {
                path,
                is_out,
                shape,
                init,
            }),
            MemberForm::Nested(signature) => {
                let nested = Rest {
                    signature,
                    next: 0,
                    turned: !is_out,
                    prefix: path,
                };
                self.put_nested(walk, before, nested)
            }
        }
    }

    /// The leaves of a signature, turned or not, in order, their paths behind a prefix.
    pub fn leaves(
        &self,
        alloc: Global,
        signature: u32,
        turned: bool,
        prefix: &str,
    ) -> Result<Leaves, NoMemory>
        ensures { IfOk result (λ all. all ≡ leaves self.now.signatures turned prefix.now signature) }
    {
        let mut found = Leaves::new(alloc);
        let mut walk = Vec::new(alloc);
        let whole = Rest {
            signature,
            next: 0,
            turned,
            prefix: copied(alloc, prefix)?,
        };
        self.put(&mut walk, whole)?;
        while let Some(rest) = walk.pop() {
            self.step(alloc, rest, &mut walk, &mut found)?;
        }
        Ok(found)
    }
}
