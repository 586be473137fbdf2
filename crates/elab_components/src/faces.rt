// Interfaces that are made.
ghost use Rattle.std.specs.Prelude.{◌≡◌, ◌++◌, ◌+◌, length, IfOk, ◌∷◌, IfSome, true, false, [], OnOk, option_map, slice_get};
ghost use Rattle.design_ir.specs.PoolRules.{HasInit};
ghost use Rattle.elab_store.specs.Faces.{IsFace};
ghost use Rattle.elab_store.specs.Held.{held_of};
ghost use Rattle.elab_store.specs.Leaves.{leaves};
ghost use Rattle.elab_components.specs.Faces.{leaf_signal, IsLeafMade, leaves_made, port_of, leaf_ports, with_end, face_made, part_val};

use crate::interfaces::{copied_text, new_signal};
use design_ir::{ExprId, Exprs, Port, Ports, Sig, SigId};
use elab_store::faces::{Face, FaceMember};
use elab_store::kept::Kept;
use elab_store::leaves::Leaf;
use elab_store::store::{Elaboration, Store};
use lists::NoMemory;
use py_values::Val;
use std::alloc::Global;

fn leaf_signal(alloc: Global, leaf: &Leaf) -> Result<Sig, NoMemory>
    ensures value { IfOk result (λ x. x ≡ leaf_signal leaf.now) }
    ensures init { IfOk result HasInit }
{
    let form = leaf.shape.form;
    Ok(Sig {
        name: copied_text(alloc, &leaf.path)?,
        shape: form,
        init: leaf.init.wrap(form.width, form.signed),
        reset_less: false,
    })
}

// The signal of a leaf, where no count would be passed.
fn make_leaf(elaboration: &mut Elaboration, leaf: &Leaf) -> Result<Option<SigId>, NoMemory>
    ensures { IfOk result (λ sig. IsLeafMade sig leaf.now (held_of elaboration.old) (held_of elaboration.new)) }
{
    let count = elaboration.pool.count();
    if count >= 262_144 {
        return Ok(None);
    }
    let x = leaf_signal(elaboration.alloc, leaf)?;
    match new_signal(elaboration, leaf.shape.reading, x)? {
        Some(new) => {
            let expr = ExprId(count as u32);
            elaboration
                .store
                .components
                .push_end(new.val, new.sig, expr)?;
            Ok(Some(new.sig))
        }
        None => Ok(None),
    }
}

// The port that a leaf is.
fn push_port(alloc: Global, leaf: &Leaf, sig: SigId, ports: &mut Ports) -> Result<(), NoMemory>
    ensures { OnOk result (ports.new ≡ ports.old ++ port_of sig leaf.now ∷ []) }
{
    ports.push(Port {
        name: copied_text(alloc, &leaf.path)?,
        sig,
        is_input: !leaf.is_out,
    })
}

// The signals of leaves and the ports that these are, where no count would be passed.
fn make_leaves(
    elaboration: &mut Elaboration,
    leaves: &[Leaf],
    ports: &mut Ports,
) -> Result<bool, NoMemory>
    ensures made { IfOk result (λ all. (all, held_of elaboration.new) ≡ leaves_made leaves.now (held_of elaboration.old)) }
    ensures ports { IfOk result (λ all. all ≡ true → ports.new ≡ ports.old ++ leaf_ports (length elaboration.old.pool.signals) leaves.now) }
{
    for leaf in leaves {
        let Some(sig) = make_leaf(elaboration, leaf)? else {
            return Ok(false);
        };
        push_port(elaboration.alloc, leaf, sig, ports)?;
    }
    Ok(true)
}

/// The interface of a signature, its signals named behind a prefix, and the ports that these are; none where a count would be passed.
pub fn make_face(
    elaboration: &mut Elaboration,
    signature: u32,
    prefix: &str,
    ports: &mut Ports,
) -> Result<Option<Face>, NoMemory>
    ensures made { IfOk result (λ face. (face, held_of elaboration.new) ≡ face_made signature prefix.now (held_of elaboration.old)) }
    ensures ports { IfOk result (λ face. IfSome face (λ _. ports.new ≡ ports.old ++ leaf_ports (length elaboration.old.pool.signals) (leaves elaboration.old.store.components.signatures false prefix.now signature))) }
{
    if elaboration.store.components.leaf_count(signature) > 16_384 {
        return Ok(None);
    }
    let first = elaboration.store.components.end_count();
    let leaves = elaboration
        .store
        .components
        .leaves(elaboration.alloc, signature, false, prefix)?;
    if make_leaves(elaboration, leaves.as_slice(), ports)? {
        Ok(Some(Face {
            signature,
            turned: false,
            first,
        }))
    } else {
        Ok(None)
    }
}

// The value of an end.
fn end_val(store: &Store, number: usize) -> Option<Val>
    ensures { result ≡ option_map (λ e. e.val) (slice_get store.now.components.ends number) }
{
    match store.components.ends().get(number) {
        Some(end) => Some(end.val),
        None => None,
    }
}

/// The value of a member of an interface.
pub fn part_val(
    elaboration: &mut Elaboration,
    part: Option<FaceMember>,
) -> Result<Option<Val>, NoMemory>
    ensures { IfOk result (λ v. (v, held_of elaboration.new) ≡ part_val part (held_of elaboration.old)) }
{
    match part {
        Some(FaceMember::Port(number)) => Ok(end_val(&elaboration.store, number)),
        Some(FaceMember::Nested(face)) => {
            let v = elaboration.store.keep(Kept::Interface(face))?;
            Ok(Some(v))
        }
        None => Ok(None),
    }
}
