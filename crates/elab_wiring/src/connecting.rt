// `connect(m, a, b)`.
ghost use Rattle.std.specs.Prelude.{◌≡◌, ◌<◌, [], map, drop, length, IfOk, option_map};
ghost use Rattle.elab_store.specs.Seen.{called_of};
ghost use Rattle.elab_store.specs.Held.{held_of, Gives};
ghost use Rattle.elab_store.specs.Faces.{IsFace};
ghost use Rattle.elab_store.specs.Sound.{IsSound};
ghost use Rattle.elab_wiring.specs.Connections.{over, wires, linked, equations_of, connected_in, connect_called};

use amh_host::Place;
use design_ir::Side;
use elab_acts::sides::put_statements;
use elab_components::interfaces::copied_text;
use elab_store::calls::Called;
use elab_store::faces::{End, Face};
use elab_store::kept::Equation;
use elab_store::leaves::Leaf;
use elab_store::store::Elaboration;
use lib_wiring::{Interface, Leaf as Wire, Link, WireStop, are_apart, connect};
use lists::NoMemory;
use py_frames::request::{Answer, Cause};
use py_values::Val;
use std::alloc::Global;

// Each leaf with its signal.
fn over(alloc: Global, leaves: &[Leaf], ends: &[End]) -> Result<Interface, NoMemory>
    ensures { IfOk result (λ all. all ≡ over leaves.now ends.now) }
{
    let mut all = Interface::new(alloc);
    for i in 0..leaves.len() {
        if i >= ends.len() {
            return Ok(all);
        }
        let (leaf, end) = (&leaves[i], &ends[i]);
        all.push(Wire {
            path: copied_text(alloc, &leaf.path)?,
            sig: end.sig,
            expr: end.expr,
            is_out: leaf.is_out,
        })?;
    }
    Ok(all)
}

// The leaves of an interface with the signals that were made for them.
fn wires(elaboration: &Elaboration, face: Face) -> Result<Interface, NoMemory>
    ensures { IfOk result (λ all. all ≡ wires elaboration.now.store.components face) }
{
    let alloc = elaboration.alloc;
    let components = &elaboration.store.components;
    let leaves = components.leaves(alloc, face.signature, face.turned, "")?;
    let ends = components.ends();
    let from = if face.first <= ends.len() {
        face.first
    } else {
        ends.len()
    };
    over(alloc, leaves.as_slice(), &ends[from..])
}

// The statements of these links.
fn statements(alloc: Global, links: &[Link], place: Place) -> Result<Vec<Equation>, NoMemory>
    ensures { IfOk result (λ qs. qs.items ≡ map (linked place) links.now) }
{
    let mut equations = Vec::new(alloc);
    for link in links {
        equations.push(Equation {
            target: link.target,
            value: link.source,
            place,
        })?;
    }
    Ok(equations)
}

// The statements that connect two interfaces, where they fit together.
fn equations_of(
    elaboration: &Elaboration,
    place: Place,
    first: Option<Face>,
    second: Option<Face>,
) -> Result<Option<Vec<Equation>>, NoMemory>
    requires { IsSound (held_of elaboration.now) }
    ensures { IfOk result (λ qs. option_map (λ v. v.items) qs ≡ equations_of place (held_of elaboration.now) first second) }
{
    let (Some(first), Some(second)) = (first, second) else {
        return Ok(None);
    };
    let ours = wires(elaboration, first)?;
    let theirs = wires(elaboration, second)?;
    if !are_apart(elaboration.alloc, &ours)? || !are_apart(elaboration.alloc, &theirs)? {
        return Ok(None);
    }
    match connect(elaboration.alloc, &elaboration.pool, &ours, &theirs) {
        Ok(links) => Ok(Some(statements(elaboration.alloc, links.as_slice(), place)?)),
        Err(WireStop::Unconnectable) => Ok(None),
        Err(WireStop::NoMemory) => Err(NoMemory),
    }
}

// The statements are those of a module, where there is one, and they are some.
fn connect_in(
    elaboration: &mut Elaboration,
    of: Option<u32>,
    place: Place,
    first: Option<Face>,
    second: Option<Face>,
) -> Result<Answer, NoMemory>
    requires { IsSound (held_of elaboration.old) }
    ensures { Gives result elaboration.new (connected_in of (equations_of place (held_of elaboration.old) first second) (held_of elaboration.old)) }
{
    let Some(of) = of else {
        return elaboration.refuse(Cause::Raised);
    };
    match equations_of(elaboration, place, first, second)? {
        Some(equations) => put_statements(
            elaboration,
            &Val::None,
            of,
            &Side::Comb,
            equations.as_slice(),
        ),
        None => elaboration.refuse(Cause::Raised),
    }
}

/// `connect(m, a, b)`.
pub fn connect_interfaces(
    elaboration: &mut Elaboration,
    call: &Called,
    place: Place,
) -> Result<Answer, NoMemory>
    requires { IsSound (held_of elaboration.old) }
    ensures { Gives result elaboration.new (connect_called (called_of call.now) place (held_of elaboration.old)) }
{
    let [m, a, b] = call.placed else {
        return elaboration.refuse(Cause::Raised);
    };
    if !call.keywords.is_empty() {
        return elaboration.refuse(Cause::Raised);
    }
    let of = elaboration.store.module_of(m);
    let first = elaboration.store.face_of(*a);
    let second = elaboration.store.face_of(*b);
    connect_in(elaboration, of, place, first, second)
}
