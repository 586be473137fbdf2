// What the store answers to a request.
ghost use Rattle.std.specs.Prelude.{length, IfOk, OnOk};
ghost use Rattle.py_heap.specs.Heaps.{seen};
ghost use Rattle.amh_values.specs.Acts.{acted, Acts};
ghost use Rattle.amh_things.specs.Held.{AreHeld};

use crate::answering::answered;
use amh_things::shown::Shown;
use amh_things::values::Values;
use design_ir::Exprs;
use lists::NoMemory;
use py_frames::request::{Answer, Request};
use py_heap::Frozen;
use py_machine::Machine;
use std::alloc::Global;

/// What a request comes to.
#[derive(Drop)]
pub enum Acted {
    /// The answer to it.
    Answer(Answer),
    /// It is of the crate above, and nothing has changed.
    Other,
}

/// Serves a request on shapes and values: what specs/Acts.antt says is answered, and the pool and the things are as it says. Of a
/// refusal and of `Other` nothing has changed. What is told first is what raises, then a width, and then a count. After want of
/// memory the pool and the things may have grown, and are only dropped.
///
/// A parameter that says whether a testbench runs comes with testbenches.
pub fn act<P: Exprs>(
    alloc: Global,
    pool: &mut P,
    values: &mut Values,
    machine: &Machine,
    frozen: &Frozen,
    request: &Request,
) -> Result<Acted, NoMemory>
    requires { AreHeld (length (P.pooled pool.old).exprs) values.old }
    ensures held { OnOk result (AreHeld (length (P.pooled pool.new).exprs) values.new) }
    ensures comes { IfOk result (λ a. Acts (acted (seen frozen.now machine.now.going.state.heap) (P.pooled pool.old) values.old request.now) a (P.pooled pool.old) (P.pooled pool.new) values.old values.new) }
{
    let shown = Shown {
        heap: &machine.going.state.heap,
        frozen,
    };
    answered(alloc, pool, values, shown, request)
}
