// Moments: what is due when.
ghost use Rattle.std.specs.Prelude.{◌≡◌, ◌<◌, ◌^◌, IfSome, map};
ghost use Rattle.std.specs.List.{AllByRecursion, list_all, list_any};
ghost use Rattle.bench_run.specs.Runs.{earliest, is_behind_end, is_due, is_over};
ghost use Rattle.bench_run.specs.Standing.{stands_in, woken_in, all_over, IsBelow};

use crate::testbench::{Running, Stand};
use elab_store::simulation::RunEnd;
use py_frames::request::Answer;
use py_values::Val;

/// The earliest of a moment and those for which testbenches wait.
pub(crate) fn earliest(toggle: Option<u64>, testbenches: &[Running]) -> Option<u64>
    requires toggle { IfSome toggle (λ t. t < 2 ^ 63) }
    requires waits { AllByRecursion IsBelow testbenches.now }
    ensures least { result ≡ earliest toggle (stands_in testbenches.now) }
    ensures below { IfSome result (λ t. t < 2 ^ 63) }
{
    let mut least = toggle;
    for x in testbenches {
        least = match (least, x.moment()) {
            (Some(a), Some(b)) => Some(a.min(b)),
            (None, b) => b,
            (a, None) => a,
        };
    }
    least
}

/// Whether some testbench waits for this moment.
pub(crate) fn is_due(testbenches: &[Running], now: u64) -> bool
    ensures { result ≡ list_any (is_due now) (stands_in testbenches.now) }
{
    for x in testbenches {
        if x.moment() == Some(now) {
            return true;
        }
    }
    false
}

/// Testbenches that wait for this moment go on.
pub(crate) fn wake(testbenches: &mut Vec<Running>, now: u64)
    ensures { testbenches.new.items ≡ map (woken_in now) testbenches.old.items }
{
    for i in 0..testbenches.len() {
        if testbenches[i].moment() == Some(now) {
            testbenches[i].stand = Stand::Ready(Answer::Give(Val::None));
        }
    }
}

/// Whether the run may end behind a round.
pub(crate) fn may_end(end: RunEnd, testbenches: &[Running]) -> bool
    ensures { result ≡ all_over end testbenches.now }
{
    match end {
        RunEnd::WithTestbenches => are_over(testbenches),
        RunEnd::Until(_) => false,
    }
}

fn are_over(testbenches: &[Running]) -> bool
    ensures { result ≡ list_all (λ (y : Running). is_over y.background y.stand) testbenches.now }
{
    for x in testbenches {
        if !x.is_over() {
            return false;
        }
    }
    true
}

/// Whether a moment is behind the end of the run.
pub(crate) fn is_behind_end(end: RunEnd, moment: u64) -> bool
    ensures { result ≡ is_behind_end end moment }
{
    match end {
        RunEnd::WithTestbenches => false,
        RunEnd::Until(last) => moment > last,
    }
}
