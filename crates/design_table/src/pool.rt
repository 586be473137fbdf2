// A pool that grows by what is tested.
ghost use Rattle.std.specs.Prelude.{◌≡◌, ◌<◌, nat_lt, true, false, length, IsTrue};
ghost use Rattle.shape_rules.specs.Forms.{unsigned};
ghost use Rattle.design_ir.specs.PoolRules.{IsAskable};
ghost use Rattle.design_ir.specs.Values.{form, signal_form};
ghost use Rattle.design_table.specs.Tests.{is_reset, no_resets};

use design_ir::{Expr, ExprId, Exprs, Pool, PoolStop, Sig, SigId};
use shape_rules::Shape;
use std::alloc::Global;
use table_text::Stop;

/// A pool, and how many signals it has at least.
#[derive(Drop)]
pub struct Sheet {
    pub pool: Pool,
    pub signals: u64,
    ghost counted: { signals ≡ length pool.signals },
    ghost clear: { no_resets pool.exprs ≡ true },
}

// Why a pool takes no more, as the table tells it.
fn told(stop: PoolStop) -> Stop {
    match stop {
        PoolStop::NoMemory => Stop::NoMemory,
        PoolStop::Width | PoolStop::BadOperand | PoolStop::Limit => Stop::NoCase,
    }
}

impl Sheet {
    /// A sheet with nothing on it.
    pub fn new(alloc: Global) -> Sheet {
        Sheet {
            pool: Pool::new(alloc),
            signals: 0,
        }
    }

    /// One signal more, whose init is of its shape.
    #[tactic(auto, using(design_ir::proofs::Events::of_shape))]
    pub fn sig(&mut self, s: Sig) -> Result<SigId, Stop> {
        if s.init.wrap(s.shape.width, s.shape.signed) != s.init {
            return Err(Stop::NoCase);
        }
        match self.pool.sig(s) {
            Ok(id) => {
                self.signals = id.0 as u64 + 1;
                Ok(id)
            }
            Err(stop) => Err(told(stop)),
        }
    }

    /// One expression more.
    #[tactic(auto, using(crate::proofs::NoResets::no_resets_more))]
    pub fn expr(&mut self, e: Expr) -> Result<ExprId, Stop>
        requires askable { IsAskable self.old.pool e }
        requires no_reset { is_reset e ≡ false }
    {
        match self.pool.expr(e) {
            Ok(id) => Ok(id),
            Err(stop) => Err(told(stop)),
        }
    }

    /// Whether an expression is there.
    pub fn has(&self, e: ExprId) -> bool
        ensures { IsTrue result → e.0 < length self.now.pool.exprs }
    {
        e.0 < self.pool.count()
    }

    /// The shape of an expression.
    pub fn shape(&self, e: ExprId) -> Shape
        requires { e.0 < length self.now.pool.exprs }
        ensures { result ≡ form self.now.pool e.0 }
    {
        self.pool.shape(e)
    }

    /// Whether a signal is there.
    pub fn has_signal(&self, s: SigId) -> bool
        ensures { result ≡ nat_lt s.0 (length self.now.pool.signals) }
    {
        (s.0 as u64) < self.signals
    }

    /// The width of a signal.
    pub fn width(&self, s: SigId) -> u8
        requires { s.0 < length self.now.pool.signals }
        ensures { result ≡ (signal_form self.now.pool.signals s.0).width }
    {
        self.pool.sig_at(s).shape.width
    }

    /// Whether a signal is there and one bit without a sign.
    pub fn is_bit(&self, s: SigId) -> bool
        ensures there { IsTrue result → s.0 < length self.now.pool.signals }
        ensures bit { IsTrue result → signal_form self.now.pool.signals s.0 ≡ unsigned 1 }
    {
        let bit = Shape {
            width: 1,
            signed: false,
        };
        (s.0 as u64) < self.signals && self.pool.sig_at(s).shape == bit
    }
}
