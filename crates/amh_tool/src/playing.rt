// A run with a counter of its own.
ghost use Rattle.std.specs.Prelude.{◌≡◌, ◌<◌};
ghost use Rattle.amh_tool.specs.Promises.{Promises};

use crate::running::{Status, run};
use amh_host::{Host, Steps, Words};
use std::alloc::Global;
use std::marker::Brand;
use std::sync::ledger::{Blank, Ledger};

/// Runs the program with a counter that begins at 0. What it promises is what `run` does, but for the counter.
pub fn play<H: Host>(alloc: Global, host: &mut H, words: &Words) -> Status
    ensures { Promises words.now result (H.seen host.old) (H.seen host.new) (H.faults host.old) (H.faults host.new) }
{
    counted::<H, Brand>(alloc, host, words, Blank::new(1))
}

// The ledger of the counter is picked at the call, so the counter is made below it.
fn counted<H: Host, L: Ledger>(alloc: Global, host: &mut H, words: &Words, blank: Blank) -> Status
    requires { (blank.name ≡ L.name) × (blank.parts ≡ L.parts) × (0 < L.parts) }
    ensures { Promises words.now result (H.seen host.old) (H.seen host.new) (H.faults host.old) (H.faults host.new) }
{
    let mut steps = Steps::<L>::new(blank);
    run(alloc, words, host, &mut steps)
}
