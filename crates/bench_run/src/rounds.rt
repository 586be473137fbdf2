// What comes behind a round of testbenches.
ghost use Rattle.std.specs.Prelude.{◌≡◌, ◌<◌, ◌≤◌, ◌^◌, List, Some, None, IsSome};
ghost use Rattle.play_text.specs.Trace.{Row};
ghost use Rattle.bench_run.specs.Runs.{Run, Point as Abstract, next_ready};
ghost use Rattle.bench_run.specs.Standing.{IsSafe, IsAt, IsMoving, IsDue, IfGoes, Owed, StaysSafe, StepMoves, StepCosts, IsCloser, all_left, stands_in};

use crate::moments::{earliest, is_behind_end, is_due, may_end, wake};
use crate::point::Point;
use crate::setting::Setting;
use crate::ticks::tick_all;
use crate::turns::{Step, happen};
use amh_host::{Place, Steps};
use calendar::{due, due_are_events, next_toggle};
use design_ir::Event;
use elab_store::simulation::RunEnd;
use fragment_laws::growth_keeps_meaning;
use lists::NoMemory;
use std::sync::ledger::Ledger;

/// The end, another round at the same moment, or the next moment.
pub(crate) fn round_over<L: Ledger>(
    setting: &Setting,
    point: &mut Point,
    end: RunEnd,
    steps: &mut Steps<L>,
) -> Result<Step, NoMemory>
    requires safe { IsSafe setting.now point.old }
    requires over { next_ready point.old.turn (stands_in point.old.testbenches.items) ≡ None }
    requires end { setting.now.end ≡ Some end }
    ensures safe { StaysSafe result setting.now point.new }
    ensures comes { (x : Run) (first : Abstract) (rows : List Row) → IsAt setting.now point.old x first rows → Owed result setting.now point.new x first rows }
    ensures closer { IsCloser result point.old point.new }
    ensures moved { StepMoves result point.old point.new }
    ensures costs { StepCosts result point.old point.new }
    ensures counted { steps.old ≤ steps.new }
{
    let toggle = next_toggle(setting.clocks.as_slice(), point.now);
    if may_end(end, point.testbenches.as_slice()) {
        return Ok(Step::Ends);
    }
    if let Some(now) = point.now {
        if is_due(point.testbenches.as_slice(), now) {
            wake(&mut point.testbenches, now);
            point.turn = 0;
            return Ok(Step::Goes);
        }
    }
    match earliest(toggle, point.testbenches.as_slice()) {
        Some(t) if !is_behind_end(end, t) => at_moment(setting, point, t, steps),
        _ => Ok(Step::Ends),
    }
}

// At a moment delays are over, and the clocks that are due toggle.
fn at_moment<L: Ledger>(
    setting: &Setting,
    point: &mut Point,
    t: u64,
    steps: &mut Steps<L>,
) -> Result<Step, NoMemory>
    requires safe { IsSafe setting.now point.old }
    requires below { t < 2 ^ 63 }
    requires due { IsDue t setting.now.clocks.items point.old.testbenches.items }
    ensures safe { StaysSafe result setting.now point.new }
    ensures comes { (x : Run) (first : Abstract) (rows : List Row) → IsMoving setting.now point.old t x first rows → Owed result setting.now point.new x first rows }
    ensures closer { IfGoes result (all_left point.new.testbenches.items ≡ all_left point.old.testbenches.items) }
    ensures ready { IfGoes result (IsSome (next_ready 0 (stands_in point.new.testbenches.items))) }
    ensures turn { IfGoes result (point.new.turn ≡ 0) }
    ensures moved { StepMoves result point.old point.new }
    ensures costs { StepCosts result point.old point.new }
    ensures counted { steps.old ≤ steps.new }
{
    due_are_events();
    growth_keeps_meaning();
    point.now = Some(t);
    point.turn = 0;
    wake(&mut point.testbenches, t);
    let domains = point.bench.design.domains() as usize;
    let toggled = due(setting.alloc, setting.clocks.as_slice(), domains, t)?;
    if toggled.len() == 0 {
        return Ok(Step::Goes);
    }
    tick_all(
        setting.alloc,
        &point.bench,
        &mut point.sim,
        &toggled,
        &mut point.testbenches,
    )?;
    Ok(happen(
        point,
        Place { line: 1, col: 1 },
        Event::Edge(toggled),
        steps,
    ))
}
