// Testbenches of a run.
ghost use Rattle.std.specs.Prelude.{◌≡◌, ◌≤◌, ◌<◌, IsTrue, IfSome, length};
ghost use Rattle.bench_run.specs.Runs.{is_over, is_ready, moment_of, next_ready};
ghost use Rattle.bench_run.specs.Standing.{stands_in};

use py_frames::request::Answer;
use py_machine::Machine;
use std::mem::replace;

/// Where a testbench stands.
#[derive(Drop)]
pub(crate) enum Stand {
    /// It goes on with an answer.
    Ready(Answer),
    /// It waits for ticks, so many of them where they are counted.
    Ticks { wait: u32, left: u128 },
    /// It waits for a moment.
    Until(u64),
    Ended,
}

/// A testbench, and whether the run may end before it does.
#[derive(Drop)]
pub(crate) struct Running {
    pub machine: Machine,
    pub background: bool,
    pub stand: Stand,
}

impl Running {
    /// Whether the run may end.
    pub(crate) fn is_over(&self) -> bool
        ensures { result ≡ is_over self.now.background self.now.stand }
    {
        self.background
            || match self.stand {
                Stand::Ended => true,
                _ => false,
            }
    }

    /// Takes the answer by which it goes on.
    pub(crate) fn take(&mut self) -> Answer
        requires { IsTrue (is_ready self.old.stand) }
        ensures taken { self.old.stand ≡ Stand.Ready result }
        ensures rest { self.new ≡ record self.old { stand = Stand.Ended } }
    {
        match replace(&mut self.stand, Stand::Ended) {
            Stand::Ready(answer) => answer,
            _ => unreachable!(),
        }
    }

    /// Whether it goes on in this round.
    pub(crate) fn is_ready(&self) -> bool
        ensures { result ≡ is_ready self.now.stand }
    {
        match self.stand {
            Stand::Ready(_) => true,
            _ => false,
        }
    }

    /// The moment for which it waits.
    pub(crate) fn moment(&self) -> Option<u64>
        ensures { result ≡ moment_of self.now.stand }
    {
        match self.stand {
            Stand::Until(at) => Some(at),
            _ => None,
        }
    }
}

/// The first testbench that is ready, of a number and behind it.
pub(crate) fn next_ready(testbenches: &[Running], from: usize) -> Option<usize>
    ensures next { result ≡ next_ready from (stands_in testbenches.now) }
    ensures there { IfSome result (λ i. i < length testbenches.now) }
{
    for i in from..testbenches.len() {
        if testbenches[i].is_ready() {
            return Some(i);
        }
    }
    None
}
