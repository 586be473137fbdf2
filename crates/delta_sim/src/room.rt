// The room in which a simulator evaluates expressions that are put to it.
ghost use Rattle.std.specs.Prelude.{◌≡◌, ◌<◌, length};
ghost use Rattle.design_ir.specs.Values.{num};
ghost use Rattle.design_ir.proofs.NumbersFit.{FitsSignals};
ghost use Rattle.delta_sim.specs.Evaluations.{eval_room};

use crate::evaluation::Evaluation;
use amh_bits::Int;
use amh_host::NoMemory;
use design_ir::{Design, ExprId, Exprs};
use std::alloc::Global;
use std::marker::Model;

/// How many expressions there is room for: as many as a pool takes of those that are put to it.
const EVAL_ROOM: usize = 262_144;

/// Room for an evaluation. Between two of them nothing is found in it, so that it shows nothing of them.
#[derive(Drop)]
pub struct Room {
    evaluation: Evaluation,
}

impl Model for Room {
    ghost use Rattle.std.specs.Prelude.{◌≤◌, ⊤, length};
    ghost use Rattle.delta_sim.specs.Evaluations.{eval_room, IsIdle};

    ghost Value = { ⊤ };

    ghost view = { λ r. tt };

    ghost invariant = { λ r. IsIdle r.evaluation × (eval_room ≤ length r.evaluation.numbers) };
}

impl Room {
    /// Room in which nothing is found.
    pub fn new(alloc: Global) -> Result<Room, NoMemory> {
        Ok(Room {
            evaluation: Evaluation::new(alloc, EVAL_ROOM)?,
        })
    }

    /// The integer of an expression in an environment. It takes no memory, and time for each expression that stands in
    /// this one and for each that these name.
    pub fn eval(&mut self, design: &Design, env: &[Int], e: ExprId) -> Int
        requires room { e.0 < eval_room }
        requires there { e.0 < length design.now.pool.exprs }
        requires signals { length env.now ≡ length design.now.pool.signals }
        requires fits { FitsSignals design.now.pool env.now }
        ensures { result ≡ num design.now.pool env.now e.0 }
    {
        let n = self.evaluation.find(design, env, e);
        self.evaluation.forget();
        n
    }
}
