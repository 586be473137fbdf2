// The pool: signals and expressions by number.
ghost use Rattle.std.specs.Prelude.{◌≡◌, ◌≢◌, ◌++◌, ◌∷◌, [], ◌<◌, ◌≤◌, ◌^◌, length, false, IfOk, IfErr, OnErr, None, Some, slice_get, take};
ghost use Rattle.shape_rules.specs.Forms.{IsForm, unsigned, common};
ghost use Rattle.shape_rules.specs.Operators.{form_of};
ghost use Rattle.shape_rules.specs.Stops.{is_bad_operand, widest};
ghost use Rattle.design_ir.specs.Pools.{Pooled};
ghost use Rattle.design_ir.specs.Named.{AllBelow};
ghost use Rattle.design_ir.specs.PoolRules.{IsPool, IsRefusal, HasInit, IsAskable, IsFormed, IsShaped, bad_operand, greatest_width, shape_stop, signal_added, signal_refusal, expr_added};
ghost use Rattle.amh_bits.specs.Patterns.{IsOf};
ghost use Rattle.design_ir.specs.Settling.{IsUnsettled, is_signal, reshaped, settle_refusal, signal_settled};
ghost use Rattle.design_ir.specs.Placing.{IsResetAt, reset_placed};
ghost use Rattle.design_ir.specs.Values.{form, form_step, signal_form, total_width, common_of_all};

use crate::copies::copies;
use crate::expr::Expr;
use crate::exprs::Exprs;
use crate::ids::{ExprId, Ids, SigId};
use crate::refusal::PoolStop;
use crate::signal::Sig;
use amh_bits::Int;
use amh_host::NoMemory;
use shape_rules::{Op, Shape, ShapeStop, shape_of, work_of};
use std::alloc::Global;
use std::marker::Model;

/// Signals and expressions, by number. Each expression names earlier ones alone, and contracts see the two lists.
///
/// There are at most 16,384 signals with at most 262,144 bits, and `expr` gives at most 262,144 expressions.
#[derive(Drop)]
pub struct Pool {
    sigs: Vec<Sig>,
    exprs: Vec<Expr>,
    shapes: Vec<Shape>,
    bits: u32,
}

impl Model for Pool {
    ghost use Rattle.design_ir.specs.Pools.{Pooled};
    ghost use Rattle.design_ir.specs.PoolRules.{IsCached};

    ghost Value = { Pooled };

    ghost view = { λ a. record { signals = a.sigs.items; exprs = a.exprs.items } };

    ghost invariant = { λ a. IsCached record { signals = a.sigs.items; exprs = a.exprs.items } a.shapes.items a.bits };
}

impl Pool {
    /// The empty pool, which takes no memory.
    pub fn new(alloc: Global) -> Pool
        ensures { result ≡ record { signals = []; exprs = [] } }
    {
        Pool {
            sigs: Vec::new(alloc),
            exprs: Vec::new(alloc),
            shapes: Vec::new(alloc),
            bits: 0,
        }
    }

    /// Adds a signal at the end. `Limit` comes exactly where there would be more than 16,384 signals, or more than
    /// 262,144 bits in all of them.
    pub fn sig(&mut self, s: Sig) -> Result<SigId, PoolStop>
        requires { HasInit s }
        ensures added { IfOk result (λ id. (signal_refusal self.old s.shape.width ≡ None) × (id ≡ record { 0 = length self.old.signals }) × (self.new ≡ signal_added self.old s)) }
        ensures refused { IfErr result (λ e. IsRefusal (signal_refusal self.old s.shape.width) e × (self.new ≡ self.old)) }
    {
        let width = s.shape.width as u32;
        if self.sigs.len() >= 16_384 || self.bits + width > 262_144 {
            return Err(PoolStop::Limit);
        }
        let id = SigId(self.sigs.len() as u32);
        match self.sigs.push(s) {
            Ok(()) => {
                self.bits += width;
                Ok(id)
            }
            Err(_) => Err(PoolStop::NoMemory),
        }
    }

    /// A signal of the pool.
    pub fn sig_at(&self, s: SigId) -> &Sig
        requires { s.0 < length self.now.signals }
        ensures { slice_get self.now.signals s.0 ≡ Some result.now }
    {
        &self.sigs[s.0 as usize]
    }

    /// Gives a signal that was made without bits its shape and init. Nothing but `Matches` may stand over it, and
    /// `Limit` comes exactly where all signals would have more than 262,144 bits.
    pub fn settle(&mut self, s: SigId, shape: Shape, init: Int) -> Result<(), PoolStop>
        requires unsettled { IsUnsettled self.old s.0 }
        requires init { IsOf shape.signed shape.width init }
        ensures settled { IfOk result (λ _. (settle_refusal self.old shape.width ≡ None) × (self.new ≡ signal_settled self.old s.0 shape init)) }
        ensures refused { IfErr result (λ stop. (stop ≡ PoolStop.Limit) × (settle_refusal self.old shape.width ≡ Some stop) × (self.new ≡ self.old)) }
    {
        let width = shape.width as u32;
        if self.bits + width > 262_144 {
            return Err(PoolStop::Limit);
        }
        reshape(self.exprs.as_slice(), &mut self.shapes, s, shape);
        let sig = &mut self.sigs[s.0 as usize];
        sig.shape = shape;
        sig.init = init;
        self.bits += width;
        Ok(())
    }

    /// Puts an expression at the end that nothing stops, past what a file may ask for: so passes over a design add to
    /// a copy of its pool. There is room for 2^30 of them.
    pub fn more(&mut self, e: Expr) -> Result<ExprId, NoMemory>
        requires askable { IsAskable self.old e }
        requires accepted { shape_stop (bad_operand (form self.old) e) (greatest_width self.old.signals (form self.old) e) ≡ None }
        ensures added { IfOk result (λ id. (id ≡ record { 0 = length self.old.exprs }) × (self.new ≡ expr_added self.old e)) }
        ensures err { OnErr result (self.new ≡ self.old) }
    {
        let Ok(shape) = self.shape_of_new(&e) else {
            unreachable!()
        };
        if self.exprs.len() >= 1 << 30 {
            return Err(NoMemory);
        }
        self.put(e, shape)
    }

    /// Puts a signal of one bit in the place of a reset.
    pub fn place_reset(&mut self, e: ExprId, s: SigId)
        requires reset { IsResetAt self.old e.0 }
        requires there { s.0 < length self.old.signals }
        requires bit { signal_form self.old.signals s.0 ≡ unsigned 1 }
        ensures { self.new ≡ reset_placed self.old e.0 s }
    {
        self.exprs[e.0 as usize] = Expr::Sig(s);
    }

    /// Keeps the first so many expressions, and lets go of those behind them.
    pub fn keep_first(&mut self, count: u32)
        requires { count ≤ length self.old.exprs }
        ensures { self.new ≡ record self.old { exprs = take count self.old.exprs } }
    {
        self.exprs.truncate(count as usize);
        self.shapes.truncate(count as usize);
    }

    /// Opens the pool, so that a caller knows its rules.
    pub fn known(&self)
        ensures { IsPool self.now }
    {
        let _ = &self.bits;
    }

    // The same pool once more.
    pub(crate) fn copied(&self, alloc: Global) -> Result<Pool, NoMemory>
        ensures { IfOk result (λ p. p ≡ self.now) }
    {
        Ok(Pool {
            sigs: copies(alloc, self.sigs.as_slice())?,
            exprs: copies(alloc, self.exprs.as_slice())?,
            shapes: copies(alloc, self.shapes.as_slice())?,
            bits: self.bits,
        })
    }

    // How many signals there are.
    pub fn signals(&self) -> u32
        ensures { result ≡ length self.now.signals }
    {
        self.sigs.len() as u32
    }
}

impl Exprs for Pool {
    ghost pooled = { λ p. p };

    ghost grown = { λ p q. q };

    #[tactic(auto, unfolding(crate::specs::PoolRules::expr_refusal))]
    fn expr(&mut self, e: Expr) -> Result<ExprId, PoolStop> {
        let shape = self.shape_of_new(&e)?;
        if self.exprs.len() >= 262_144 {
            return Err(PoolStop::Limit);
        }
        let answer = self.put(e, shape);
        self.known();
        match answer {
            Ok(id) => Ok(id),
            Err(_) => Err(PoolStop::NoMemory),
        }
    }

    fn count(&self) -> u32 {
        self.exprs.len() as u32
    }

    fn shape(&self, e: ExprId) -> Shape {
        self.shapes[e.0 as usize]
    }

    fn at(&self, e: ExprId) -> &Expr {
        &self.exprs[e.0 as usize]
    }
}

impl Pool {
    // Puts an expression of a shape at the end.
    fn put(&mut self, e: Expr, shape: Shape) -> Result<ExprId, NoMemory>
        requires formed { IsFormed e }
        requires askable { IsAskable self.old e }
        requires accepted { shape_stop (bad_operand (form self.old) e) (greatest_width self.old.signals (form self.old) e) ≡ None }
        requires shape { shape ≡ form_step self.old.signals (form self.old) e }
        requires room { length self.old.exprs < 2 ^ 30 }
        ensures added { IfOk result (λ id. (id ≡ record { 0 = length self.old.exprs }) × (self.new ≡ expr_added self.old e)) }
        ensures err { OnErr result (self.new ≡ self.old) }
    {
        let id = ExprId(self.exprs.len() as u32);
        self.shapes.push(shape)?;
        match self.exprs.push(e) {
            Ok(()) => Ok(id),
            Err(_) => {
                self.shapes.pop();
                Err(NoMemory)
            }
        }
    }

    // The shape of an expression that is not there yet.
    fn shape_of_new(&self, e: &Expr) -> Result<Shape, PoolStop>
        requires { IsAskable self.now e.now }
        ensures shaped { IsShaped result (bad_operand (form self.now) e.now) (greatest_width self.now.signals (form self.now) e.now) (form_step self.now.signals (form self.now) e.now) }
        ensures formed { IfOk result (λ _. IsFormed e.now) }
    {
        match e {
            Expr::Const { shape, .. } => kept(*shape),
            Expr::Sig(s) => kept(self.sig_at(*s).shape),
            Expr::Unary { op, a } => operator_shape(*op, self.shape(*a), bits(0)),
            Expr::Binary { op, a, b } => operator_shape(*op, self.shape(*a), self.shape(*b)),
            Expr::Mux { a, b, .. } => common_shape(self.shape(*a), self.shape(*b)),
            Expr::Slice { width, .. } => narrow(*width as u64),
            Expr::Cat(items) => self.joined_shape(items),
            Expr::Part { offset, width, .. } => {
                if self.shape(*offset).signed {
                    return Err(PoolStop::BadOperand);
                }
                narrow(*width as u64)
            }
            Expr::Pick { index, items } => {
                if self.shape(*index).signed {
                    return Err(PoolStop::BadOperand);
                }
                self.common_shape_of(items)
            }
            Expr::Cast { a, signed } => Ok(Shape {
                width: self.shape(*a).width,
                signed: *signed,
            }),
            Expr::Matches { .. } | Expr::Reset { .. } => Ok(bits(1)),
        }
    }

    // The shape of expressions one above the other.
    fn joined_shape(&self, items: &Ids) -> Result<Shape, PoolStop>
        requires { AllBelow (length self.now.exprs) items.now }
        ensures { IsShaped result false (total_width (form self.now) items.now) (unsigned (total_width (form self.now) items.now)) }
    {
        let mut width = 0;
        for e in items.as_slice() {
            width += self.shape(*e).width as u64;
            if width > 128 {
                return Err(PoolStop::Width);
            }
        }
        narrow(width)
    }

    // The shape of all of these, of which there is at least one.
    fn common_shape_of(&self, items: &Ids) -> Result<Shape, PoolStop>
        requires some { items.now ≢ [] }
        requires there { AllBelow (length self.now.exprs) items.now }
        ensures { IsShaped result false (common_of_all (form self.now) items.now).width (common_of_all (form self.now) items.now) }
    {
        let all = items.as_slice();
        let mut shape = self.shape(all[0]);
        for e in &all[1..] {
            shape = match common_shape(shape, self.shape(*e)) {
                Ok(wider) => wider,
                Err(stop) => return Err(stop),
            };
        }
        kept(shape)
    }
}

// A shape as it is: it has at most 128 bits.
fn kept(shape: Shape) -> Result<Shape, PoolStop>
    ensures shaped { IsShaped result false shape.width shape }
    ensures formed { IsForm shape.width shape.signed }
{
    let _ = shape.width;
    Ok(shape)
}

// So many bits without a sign.
fn bits(width: u8) -> Shape
    requires { width ≤ 128 }
    ensures { result ≡ unsigned width }
{
    Shape {
        width,
        signed: false,
    }
}

// So many bits without a sign, where a shape may have them.
fn narrow(width: u64) -> Result<Shape, PoolStop>
    ensures { IsShaped result false width (unsigned width) }
{
    if width > 128 {
        Err(PoolStop::Width)
    } else {
        Ok(bits(width as u8))
    }
}

// The shape of an operator's result.
fn operator_shape(op: Op, a: Shape, b: Shape) -> Result<Shape, PoolStop>
    ensures { IsShaped result (is_bad_operand op b) (widest op a b) (form_of op a b) }
{
    match shape_of(op, a, b) {
        Ok(shape) => Ok(shape),
        Err(ShapeStop::BadOperand) => Err(PoolStop::BadOperand),
        Err(ShapeStop::Width) => Err(PoolStop::Width),
    }
}

// The shape of both: it is the one at which they are compared.
fn common_shape(a: Shape, b: Shape) -> Result<Shape, PoolStop>
    ensures { IsShaped result false (common a b).width (common a b) }
{
    match work_of(Op::Eq, a, b) {
        Ok(shape) => Ok(shape),
        Err(_) => Err(PoolStop::Width),
    }
}

// Gives the expressions of a signal its shape.
fn reshape(exprs: &[Expr], shapes: &mut Vec<Shape>, s: SigId, shape: Shape)
    requires { length shapes.old.items ≡ length exprs.now }
    ensures { shapes.new.items ≡ reshaped s.0 shape exprs.now shapes.old.items }
{
    for i in 0..exprs.len() {
        if names_signal(&exprs[i], s) {
            shapes[i] = shape;
        }
    }
}

// Whether an expression is this signal.
fn names_signal(e: &Expr, s: SigId) -> bool
    ensures { result ≡ is_signal s.0 e.now }
{
    match e {
        Expr::Sig(t) => t.0 == s.0,
        _ => false,
    }
}
