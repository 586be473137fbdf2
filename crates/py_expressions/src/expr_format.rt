// Format strings: each hole reads its name and shows what it stands for.
ghost use Rattle.std.specs.Prelude.{◌≡◌, ◌<◌, ◌≤◌, [], ◌∷◌, List, OnOk};
ghost use Rattle.py_tree.specs.declared.name.Piece.{Piece};
ghost use Rattle.py_frames.specs.Expressions.{pieces_shown};
ghost use Rattle.py_heap.specs.Heaps.{seen};
ghost use Rattle.py_builtins.specs.Scalars.{shown_text};
ghost use Rattle.py_expressions.specs.Format_parts.{Carries, FoundText, hole_then};
ghost use Rattle.py_frames.specs.Frames.{GoesOn};

use amh_host::{Place, Text};
use py_builtins::shown;
use py_frames::expr_names::name_value;
use py_frames::frame::Now;
use py_frames::functions::Functions;
use py_frames::going::{Going, spend, stopped};
use py_frames::leaf::PartAt;
use py_frames::request::Cause;
use py_frames::state::Halt;
use py_heap::Frozen;
use py_tree::{Name, Piece, Pieces};
use py_turns::expr_values::new_text;
use py_values::Val;

// The text of a value that a hole shows, where it has one.
fn shown_text(going: &Going, frozen: &Frozen, v: Val) -> PartAt<Text>
    ensures { FoundText result (shown_text (seen frozen.now going.now.state.heap) v) }
{
    match shown(&going.state.heap, frozen, v) {
        Err(_) => PartAt::NoMemory,
        Ok(shown) => match shown {
            None => PartAt::Past,
            Some(text) => PartAt::Part(text),
        },
    }
}

// Shows what a name stands for, behind the text that is there.
#[tactic(auto, using(crate::proofs::ExprFormat::hole_unbound, crate::proofs::ExprFormat::hole_unshown, crate::proofs::ExprFormat::hole_shown, py_frames::proofs::BeginLaws::no_memory))]
fn hole_shown(
    going: &mut Going,
    _functions: &Functions,
    frozen: &Frozen,
    name: &Name,
    done: &mut Text,
    place: Place,
    _budget: u64,
) -> Result<(), Halt>
    ensures shown { (rest : List Piece) → Carries _functions.now frozen.now result going.old going.new _budget (λ k. hole_then k done.old name.now rest place) (λ k. pieces_shown k done.new rest place) }
    ensures state { going.new ≡ going.old }
{
    let Some(v) = name_value(going, frozen, name) else {
        return Err(stopped(Cause::Raised, place));
    };
    match shown_text(going, frozen, v) {
        PartAt::NoMemory => Err(Halt::NoMemory),
        PartAt::Past => Err(stopped(Cause::Raised, place)),
        PartAt::Part(text) => match done.push(text.as_str()) {
            Ok(()) => Ok(()),
            Err(_) => Err(Halt::NoMemory),
        },
    }
}

// A piece, behind the text that is there.
#[tactic(auto, using(crate::proofs::ExprFormat::text_shown, crate::proofs::ExprFormat::hole_spent, py_frames::proofs::ExprLaws::spent_stops, py_frames::proofs::BeginLaws::no_memory))]
fn piece_shown(
    going: &mut Going,
    functions: &Functions,
    frozen: &Frozen,
    piece: &Piece,
    done: &mut Text,
    place: Place,
    budget: u64,
) -> Result<(), Halt>
    requires { going.old.state.used < budget }
    ensures shown { (rest : List Piece) → Carries functions.now frozen.now result going.old going.new budget (λ k. pieces_shown k done.old (piece.now ∷ rest) place) (λ k. pieces_shown k done.new rest place) }
    ensures left { OnOk result (going.new.state.used < budget) }
    ensures grows { going.old.state.used ≤ going.new.state.used }
{
    match piece {
        Piece::Text(text) => match done.push(text.as_str()) {
            Ok(()) => Ok(()),
            Err(_) => Err(Halt::NoMemory),
        },
        Piece::Hole(name) => match spend(going, 1, place, budget) {
            Err(halt) => Err(halt),
            Ok(()) => hole_shown(going, functions, frozen, name, done, place, budget),
        },
    }
}

/// The pieces of a format string.
pub fn pieces_shown(
    going: &mut Going,
    functions: &Functions,
    frozen: &Frozen,
    pieces: &Pieces,
    place: Place,
    budget: u64,
) -> Result<Now, Halt>
    requires { going.old.state.used < budget }
    ensures moves { GoesOn functions.now frozen.now result going.old going.new budget (λ k. pieces_shown k [] pieces.now place) }
    ensures left { OnOk result (going.new.state.used < budget) }
    ensures grows { going.old.state.used ≤ going.new.state.used }
{
    let mut done = Text::new(going.alloc);
    for piece in pieces.as_slice() {
        match piece_shown(going, functions, frozen, piece, &mut done, place, budget) {
            Ok(()) => {}
            Err(halt) => return Err(halt),
        }
    }
    new_text(going, functions, frozen, &done, place, budget)
}
