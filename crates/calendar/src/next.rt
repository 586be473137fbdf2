// The next moment at which a clock toggles.
ghost use Rattle.std.specs.Prelude.{◌≡◌, ◌∷◌, [], ◌<◌, ◌^◌, IfSome};
ghost use Rattle.calendar.specs.Moments.{AreClocks, IsClock, IsNext};
ghost use Rattle.calendar.specs.Steps.{IsPast, earlier};

use crate::clock::Clock;

// The moments of a simulation are below this.
pub(crate) const LIMIT: u64 = 1 << 63;

/// The least moment behind `after`, or of all moments, at which some clock toggles; `None` exactly where there is none. It is
/// below 2^63, so that the next one can be asked for behind it.
pub fn next_toggle(clocks: &[Clock], after: Option<u64>) -> Option<u64>
    requires clocks { AreClocks clocks.now }
    requires after { IfSome after (λ m. m < 2 ^ 63) }
    ensures next { IsNext clocks.now after result }
    ensures below { IfSome result (λ m. m < 2 ^ 63) }
{
    let mut least = None;
    for clock in clocks {
        least = earlier(least, next_of(clock, after));
    }
    least
}

// The least moment behind `after` at which this clock toggles.
fn next_of(clock: &Clock, after: Option<u64>) -> Option<u64>
    requires clock { IsClock clock.now }
    requires after { IfSome after (λ m. m < 2 ^ 63) }
    ensures { IsNext (clock.now ∷ []) after result }
{
    let next = match after {
        Some(after) => next_past(clock, after),
        None => clock.phase,
    };
    if next < LIMIT { Some(next) } else { None }
}

// The least moment behind `after` at which this clock would toggle, were there no limit. As `after` and `half` are below the
// limit, their sum is a number.
fn next_past(clock: &Clock, after: u64) -> u64
    requires clock { IsClock clock.now }
    requires after { after < 2 ^ 63 }
    ensures { IsPast clock.now after result }
{
    if after < clock.phase {
        clock.phase
    } else {
        after + clock.half - (after - clock.phase) % clock.half
    }
}

// The earlier of two moments, where there are any.
fn earlier(a: Option<u64>, b: Option<u64>) -> Option<u64>
    ensures { result ≡ earlier a b }
{
    match (a, b) {
        (Some(a), Some(b)) => Some(a.min(b)),
        (None, b) => b,
        (a, None) => a,
    }
}
