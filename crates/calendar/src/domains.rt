// The domains whose clocks toggle at a moment.
ghost use Rattle.std.specs.Prelude.{◌≡◌, ◌≤◌, IfOk};
ghost use Rattle.calendar.specs.Moments.{AreClocks, IsClock, IsMoment};
ghost use Rattle.calendar.specs.Due.{AreAnEvent, AreWithin, clocks_of, due_domains, is_due, toggles};

use crate::clock::Clock;
use crate::next::LIMIT;
use amh_host::NoMemory;
use design_ir::{Clocks, DomainId};
use std::alloc::Global;

/// The domains whose clocks toggle at a moment, in domain order, each once. At a moment of some clock they are an event that a
/// design with so many domains takes.
pub fn due(alloc: Global, clocks: &[Clock], domains: usize, at: u64) -> Result<Clocks, NoMemory>
    requires clocks { AreClocks clocks.now }
    requires within { AreWithin domains clocks.now }
    requires few { domains ≤ 65_536 }
    ensures due { IfOk result (λ due. due ≡ due_domains clocks.now domains at) }
    ensures event { IfOk result (λ due. IsMoment clocks.now at → AreAnEvent domains due) }
{
    let mut due = Clocks::new(alloc);
    for number in 0..domains {
        let domain = DomainId(number as u16);
        if is_due_in(clocks, domain, at) {
            due.push(domain)?;
        }
    }
    Ok(due)
}

/// Whether some clock toggles at a moment.
pub fn is_due(clocks: &[Clock], at: u64) -> bool
    requires { AreClocks clocks.now }
    ensures { result ≡ is_due clocks.now at }
{
    for clock in clocks {
        if toggles(clock, at) {
            return true;
        }
    }
    false
}

// Whether a clock of a domain toggles at a moment.
fn is_due_in(clocks: &[Clock], domain: DomainId, at: u64) -> bool
    requires { AreClocks clocks.now }
    ensures { result ≡ is_due (clocks_of domain clocks.now) at }
{
    for clock in clocks {
        if clock.domain == domain && toggles(clock, at) {
            return true;
        }
    }
    false
}

// Whether a clock toggles at a moment.
fn toggles(clock: &Clock, at: u64) -> bool
    requires { IsClock clock.now }
    ensures { result ≡ toggles at clock.now }
{
    at < LIMIT && clock.phase <= at && (at - clock.phase) % clock.half == 0
}
