// Where the bits of a target stand.
ghost use Rattle.std.specs.Prelude.{◌≡◌, ◌≢◌, ◌<◌, ◌≤◌, ◌-◌, ◌*◌, [], true, None, Some, min, length, slice_get, slice_index_or, unsigned_abs, pos};
ghost use Rattle.design_ir.specs.Named.{AllBelow};
ghost use Rattle.design_ir.specs.Circuits.{is_among};
ghost use Rattle.design_ir.specs.Targets.{is_target};
ghost use Rattle.design_ir.specs.Values.{form, signal_form};
ghost use Rattle.sim_plans.specs.Tasks.{IsRead, places_of};
ghost use Rattle.delta_sim.specs.Walked.{place_of, IsWalked, signal_place, window, item_at};

use crate::bits::SignalBit;
use amh_bits::Int;
use design_ir::{Design, Expr, ExprId, Exprs, Ids, SigId};
use sim_plans::expressions::size_of;
use sim_plans::task::Task;

/// Where a walk through a target goes on, or ends.
pub enum Walk {
    Ends(Option<SignalBit>),
    GoesOn(ExprId, usize),
}

/// The place of a bit of a target, none where what is written there is dropped.
pub fn place_at(
    design: &Design,
    task: &Task,
    env: &[Int],
    nums: &[Int],
    target: ExprId,
    index: usize,
) -> Option<SignalBit>
    requires read { IsRead design.now.pool env.now nums.now task.now.exprs }
    requires among { is_among (places_of task.now.exprs) target.0 ≡ true }
    requires target { is_target design.now.pool target.0 ≡ true }
    ensures { result ≡ place_of design.now.pool env.now target.0 index }
{
    let mut e = target;
    let mut i = index;
    loop {
        match part_at(design, task, env, nums, e, i) {
            Walk::Ends(place) => return place,
            Walk::GoesOn(a, k) => {
                e = a;
                i = k;
            }
        }
    }
}

// One step of that walk.
fn part_at(design: &Design, task: &Task, env: &[Int], nums: &[Int], e: ExprId, i: usize) -> Walk
    requires read { IsRead design.now.pool env.now nums.now task.now.exprs }
    requires among { is_among (places_of task.now.exprs) e.0 ≡ true }
    requires target { is_target design.now.pool e.0 ≡ true }
    ensures { IsWalked design.now.pool env.now task.now.exprs e.0 i result }
{
    let _ = task;
    let _ = env;
    match design.at(e) {
        Expr::Sig(s) => Walk::Ends(signal_place(design, *s, i)),
        Expr::Slice { a, low, width } => window(*width, *a, *low as usize, i),
        Expr::Cat(items) => item_at(design, items, i),
        Expr::Part {
            a,
            offset,
            width,
            stride,
        } => window(*width, *a, start(number(nums, *offset), *stride), i),
        Expr::Pick { index, items } => {
            let width = design.shape(e).width;
            window(width, chosen(items, number(nums, *index)), 0, i)
        }
        Expr::Cast { a, .. } => Walk::GoesOn(*a, i),
        _ => Walk::Ends(None),
    }
}

// A bit of a signal, none past its end.
fn signal_place(design: &Design, s: SigId, i: usize) -> Option<SignalBit>
    requires { s.0 < length design.now.pool.signals }
    ensures { result ≡ signal_place s.0 (signal_form design.now.pool.signals s.0).width i }
{
    if i < design.sig_at(s).shape.width as usize {
        Some(SignalBit {
            sig: s,
            index: i as u8,
        })
    } else {
        None
    }
}

// Bit i of so many, which are those of a target from a place on.
fn window(width: u8, a: ExprId, from: usize, i: usize) -> Walk
    requires { from ≤ 255 }
    ensures { result ≡ window width a from i }
{
    if i < width as usize {
        Walk::GoesOn(a, from + i)
    } else {
        Walk::Ends(None)
    }
}

// The item in which bit i of all of them stands, one above the other.
fn item_at(design: &Design, items: &Ids, i: usize) -> Walk
    requires { AllBelow (length design.now.pool.exprs) items.now }
    ensures { result ≡ item_at (form design.now.pool) items.now i }
{
    let mut rest = i;
    for e in items.as_slice() {
        let width = design.shape(*e).width as usize;
        if rest < width {
            return Walk::GoesOn(*e, rest);
        }
        rest -= width;
    }
    Walk::Ends(None)
}

// The integer of an expression.
fn number(nums: &[Int], e: ExprId) -> Int
    requires { e.0 < length nums.now }
    ensures { result ≡ slice_index_or nums.now e.0 (pos 0) }
{
    nums[e.0 as usize]
}

// Where a selection begins; no target has more than 128 bits.
fn start(offset: Int, stride: u8) -> usize
    ensures { result ≡ min (unsigned_abs offset * stride) 128 }
{
    match size_of(offset).checked_mul(stride as u128) {
        Some(by) => by.min(128) as usize,
        None => 128,
    }
}

// The item with this index, past the end the last one.
fn chosen(items: &Ids, index: Int) -> ExprId
    requires { items.now ≢ [] }
    ensures { slice_get items.now (min (unsigned_abs index) (length items.now - 1)) ≡ Some result }
{
    let last = items.len() - 1;
    let place = size_of(index).min(last as u128) as usize;
    *items.get(place)
}
