// In which list an expression's number stands.
ghost use Rattle.std.specs.Prelude.{◌≡◌, ◌<◌, ◌%◌};
ghost use Rattle.expr_index.specs.Lists as by;

use amh_bits::Int;
use design_ir::{Expr, Ids};

/// So many lists.
pub(crate) const LISTS: usize = 65_536;

/// The list of an expression.
#[tactic(auto, unfolding(crate::specs::Lists::list_of))]
pub(crate) fn list_of(e: &Expr) -> usize
    ensures value { result ≡ by.list_of e.now }
    ensures room { result < by.list_count }
{
    mix_of(e) as usize % LISTS
}

// A mix of what an expression is made of.
fn mix_of(e: &Expr) -> u32
    ensures { result ≡ by.mix_of e.now }
{
    match e {
        Expr::Const { value, .. } => mixed(1, low_bits(*value)),
        Expr::Sig(s) => mixed(2, s.0),
        Expr::Unary { a, .. } => mixed(3, a.0),
        Expr::Binary { a, b, .. } => mixed(mixed(4, a.0), b.0),
        Expr::Mux { s, a, b } => mixed(mixed(mixed(5, s.0), a.0), b.0),
        Expr::Slice { a, low, width } => mixed(mixed(mixed(6, a.0), *low as u32), *width as u32),
        Expr::Cat(ids) => mixed_ids(7, ids),
        Expr::Part { a, offset, .. } => mixed(mixed(8, a.0), offset.0),
        Expr::Pick { index, items } => mixed_ids(mixed(9, index.0), items),
        Expr::Cast { a, .. } => mixed(10, a.0),
        Expr::Matches { a, .. } => mixed(11, a.0),
        Expr::Reset { place, .. } => mixed(12, place.line),
    }
}

// One number more. Both factors and the sum are below 2^64.
#[tactic(auto, unfolding(crate::specs::Lists::mixed))]
fn mixed(sum: u32, n: u32) -> u32
    ensures { result ≡ by.mixed sum n }
{
    ((sum as u64 * 2_654_435_761 + n as u64) % 4_294_967_291) as u32
}

fn mixed_ids(sum: u32, ids: &Ids) -> u32
    ensures { result ≡ by.mixed_ids sum ids.now }
{
    let mut all = sum;
    for id in ids.as_slice() {
        all = mixed(all, id.0);
    }
    all
}

// The size of an integer, its low 32 bits.
fn low_bits(n: Int) -> u32
    ensures { result ≡ by.low_bits n }
{
    (n.size % 4_294_967_296) as u32
}
