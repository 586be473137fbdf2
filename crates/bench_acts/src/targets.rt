// What `ctx.set` takes: an input that is no clock, or bits of one.
ghost use Rattle.std.specs.Prelude.{◌≡◌, ◌<◌, ◌==◌, length};
ghost use Rattle.design_ir.specs.Circuits.{is_clock};
ghost use Rattle.bench_acts.specs.Targets.{input_bits, input_of};

use design_ir::{Design, Domain, DomainId, Expr, ExprId, Exprs, SigId};

/// Bits of an input: so many from `low` on.
#[derive(Clone, Copy, PartialEq, Eq, Drop)]
pub struct InputBits {
    pub sig: SigId,
    pub low: u32,
    pub width: u32,
}

/// The bits that an expression is of an input: it is one, or a slice of such bits, or these as another number.
pub(crate) fn input_bits(design: &Design, e: ExprId) -> Option<InputBits>
    requires { e.0 < length design.now.pool.exprs }
    ensures { result ≡ input_bits design.now e }
{
    let _ = design.count();
    let width = design.shape(e).width as u32;
    let mut low = 0;
    let mut part = e;
    loop {
        match design.at(part) {
            Expr::Sig(s) => return input_of(design, *s, low, width),
            Expr::Slice { a, low: more, .. } => {
                low += *more as u32;
                part = *a;
            }
            Expr::Cast { a, .. } => part = *a,
            _ => return None,
        }
    }
}

fn input_of(design: &Design, sig: SigId, low: u32, width: u32) -> Option<InputBits>
    requires { sig.0 < length design.now.pool.signals }
    ensures { result ≡ input_of design.now sig low width }
{
    let whole = design.sig_at(sig).shape.width;
    if !design.is_input(sig) || is_clock(design, sig) || whole == 0 {
        return None;
    }
    Some(InputBits { sig, low, width })
}

fn is_clock(design: &Design, sig: SigId) -> bool
    ensures { result ≡ is_clock design.now sig.0 }
{
    for d in 0..design.domains() {
        if has_clock(design.domain(DomainId(d)), sig) {
            return true;
        }
    }
    false
}

fn has_clock(domain: &Domain, sig: SigId) -> bool
    ensures { result ≡ (domain.now.clk.0 == sig.0) }
{
    domain.clk.0 == sig.0
}
