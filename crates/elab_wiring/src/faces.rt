// The attributes of an interface, and `flipped`.
ghost use Rattle.std.specs.Prelude.{◌≡◌, slice_get};
ghost use Rattle.elab_store.specs.Seen.{called_of};
ghost use Rattle.elab_store.specs.Held.{held_of, Gives};
ghost use Rattle.elab_store.specs.Faces.{IsFace};
ghost use Rattle.elab_wiring.specs.Interfaces.{end_given, turned_face, signature_given, interface_attribute, flipped_called};

use elab_components::signatures::turn_signature;
use elab_store::calls::Called;
use elab_store::faces::{Face, FaceMember};
use elab_store::kept::Kept;
use elab_store::names::is_text;
use elab_store::store::Elaboration;
use lists::NoMemory;
use py_frames::request::{Answer, Cause};

// The value that stands for a port, by the number of its end.
fn give_end(elaboration: &mut Elaboration, number: usize) -> Result<Answer, NoMemory>
    ensures { Gives result elaboration.new (end_given (slice_get elaboration.old.store.components.ends number) (held_of elaboration.old)) }
{
    match elaboration.store.components.ends().get(number) {
        Some(end) => {
            let val = end.val;
            elaboration.give(val)
        }
        None => elaboration.refuse(Cause::Raised),
    }
}

// The signature of an interface.
fn give_signature(elaboration: &mut Elaboration, face: Face) -> Result<Answer, NoMemory>
    ensures { Gives result elaboration.new (signature_given face (held_of elaboration.old)) }
{
    if !face.turned {
        return elaboration.give_kept(Kept::Signature(face.signature));
    }
    turn_signature(elaboration, face.signature)
}

/// An attribute of an interface: a member, or its signature.
pub fn interface_attribute(
    elaboration: &mut Elaboration,
    face: Face,
    name: &str,
) -> Result<Answer, NoMemory>
    requires { IsFace elaboration.old.store.components.signatures elaboration.old.store.components.ends face }
    ensures { Gives result elaboration.new (interface_attribute face name.now (held_of elaboration.old)) }
{
    if is_text(name, "signature") {
        return give_signature(elaboration, face);
    }
    match elaboration.store.components.face_member(face, name) {
        Some(FaceMember::Port(number)) => give_end(elaboration, number),
        Some(FaceMember::Nested(nested)) => elaboration.give_kept(Kept::Interface(nested)),
        None => elaboration.refuse(Cause::Raised),
    }
}

fn turned_face(face: Face) -> Face
    ensures { result ≡ turned_face face }
{
    Face {
        signature: face.signature,
        turned: !face.turned,
        first: face.first,
    }
}

/// `flipped(x)`.
pub fn flip(elaboration: &mut Elaboration, call: &Called) -> Result<Answer, NoMemory>
    ensures { Gives result elaboration.new (flipped_called (called_of call.now) (held_of elaboration.old)) }
{
    if !call.keywords.is_empty() {
        return elaboration.refuse(Cause::Raised);
    }
    let face = match call.placed {
        [x] => elaboration.store.face_of(*x),
        _ => None,
    };
    match face {
        Some(face) => elaboration.give_kept(Kept::Interface(turned_face(face))),
        None => elaboration.refuse(Cause::Raised),
    }
}
