// The clocks of a simulator, beside the design.
ghost use Rattle.std.specs.Prelude.{◌≡◌, ◌≤◌, length, take};
ghost use Rattle.std.specs.List.{list_any};
ghost use Rattle.elab_eval.specs.Clocks.{is_clock_of, is_no_clock, clock_refused};

use amh_host::Place;
use design_ir::Design;
use elab_store::names::is_text;
use elab_store::simulation::ClockCall;

// Whether one of the clocks is of a domain.
fn is_clocked(clocks: &[ClockCall], name: &str) -> bool
    ensures { result ≡ list_any (is_clock_of name.now) clocks.now }
{
    clocks.iter().any(|c| is_text(c.domain.as_str(), name))
}

// Whether a clock may not be, behind others.
fn is_no_clock(design: &Design, before: &[ClockCall], clock: &ClockCall) -> bool
    ensures { result ≡ is_no_clock design.now before.now clock.now }
{
    let name = clock.domain.as_str();
    design.domain_named(name).is_none() || is_clocked(before, name) || clock.period < 2
}

/// Where the first clock is called that may not be: its domain is none of the design's, or an earlier one is of it, or its period is below 2.
pub(crate) fn clock_refused(design: &Design, clocks: &[ClockCall]) -> Option<Place>
    ensures { result ≡ clock_refused design.now clocks.now }
{
    for i in 0..clocks.len() {
        if is_no_clock(design, &clocks[..i], &clocks[i]) {
            return Some(clocks[i].place);
        }
    }
    None
}
