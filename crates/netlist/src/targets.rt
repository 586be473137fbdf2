// What targets stand for: bits of signals.
ghost use Rattle.std.specs.Prelude.{◌≡◌, ◌<◌, length, take, drop, IfOk};
ghost use Rattle.design_ir.specs.PoolRules.{IsPool};
ghost use Rattle.design_ir.specs.Targets.{bits_of};
ghost use Rattle.design_ir.specs.Values.{signal_form};
ghost use Rattle.netlist_laws.specs.Latest.{places};

use amh_host::NoMemory;
use design_ir::{Design, Expr, ExprId, Exprs, SigId};
use std::alloc::Global;
use std::marker::Model;

/// One bit of a signal.
#[derive(Clone, Copy)]
pub(crate) struct Bit {
    pub sig: u32,
    pub index: u32,
}

impl Model for Bit {
    ghost use Rattle.design_ir.specs.Targets as targets;

    ghost Value = { targets.Bit };

    ghost view = { λ a. record { sig = a.sig; index = a.index } };

    ghost inverse = { λ b. record { sig = b.sig; index = b.index } };
}

/// The width of a signal.
pub(crate) fn signal_width(design: &Design, s: SigId) -> u8
    requires { s.0 < length design.now.pool.signals }
    ensures { result ≡ (signal_form design.now.pool.signals s.0).width }
{
    design.sig_at(s).shape.width
}

// The bits of a signal, the lowest first.
fn bits_of(alloc: Global, sig: u32, width: u8) -> Result<Vec<Bit>, NoMemory>
    ensures { IfOk result (λ bits. bits.items ≡ bits_of sig width) }
{
    let mut bits = Vec::new(alloc);
    for index in 0..width as u32 {
        bits.push(Bit { sig, index })?;
    }
    Ok(bits)
}

// So many of these bits from one on.
#[tactic(auto, using(crate::proofs::LowerTargets::sliced))]
fn sliced(alloc: Global, bits: &[Bit], low: u8, width: u8) -> Result<Vec<Bit>, NoMemory>
    ensures { IfOk result (λ some. some.items ≡ take width (drop low bits.now)) }
{
    let from = (low as usize).min(bits.len());
    let to = (low as usize + width as usize).min(bits.len());
    Ok(Vec::from_slice(alloc, &bits[from..to])?)
}

/// The bits that a fixed target stands for, the lowest first.
pub(crate) fn places(alloc: Global, design: &Design, target: ExprId) -> Result<Vec<Bit>, NoMemory>
    requires pool { IsPool design.now.pool }
    requires there { target.0 < length design.now.pool.exprs }
    ensures { IfOk result (λ bits. bits.items ≡ places design.now.pool target.0) }
{
    match design.at(target) {
        Expr::Sig(s) => bits_of(alloc, s.0, signal_width(design, *s)),
        Expr::Slice { a, low, width } => {
            let bits = places(alloc, design, *a)?;
            sliced(alloc, bits.as_slice(), *low, *width)
        }
        Expr::Cast { a, .. } => places(alloc, design, *a),
        Expr::Cat(items) => {
            let mut bits = Vec::new(alloc);
            for e in items.as_slice() {
                let mut more = places(alloc, design, *e)?;
                bits.append(&mut more)?;
            }
            Ok(bits)
        }
        Expr::Const { .. }
        | Expr::Unary { .. }
        | Expr::Binary { .. }
        | Expr::Mux { .. }
        | Expr::Part { .. }
        | Expr::Pick { .. }
        | Expr::Matches { .. }
        | Expr::Reset { .. } => Ok(Vec::new(alloc)),
    }
}
