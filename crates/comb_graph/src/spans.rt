// The numbers that offsets and indices may have.
ghost use Rattle.std.specs.Prelude.{min, ◌≡◌, ◌≢◌, ◌+◌, ◌-◌, ◌^◌, ◌<◌, ◌≤◌, [], false, length};
ghost use Rattle.design_ir.specs.Targets.{numbers, chosen_items};
ghost use Rattle.design_ir.specs.Values.{form};
ghost use Rattle.comb_graph.specs.Sets.{numbers_in};

use design_ir::{Design, Expr, ExprId, Exprs};

/// The numbers from the least to the greatest.
#[derive(Clone, Copy, Drop)]
pub struct Span {
    pub least: u128,
    pub greatest: u128,
}

// The greatest number of a width without a sign.
fn greatest(width: u8) -> u128
    requires { width ≤ 128 }
    ensures { result ≡ 2 ^ width - 1 }
{
    if width == 128 {
        u128::MAX
    } else {
        (1 << width) - 1
    }
}

/// The numbers of an offset or an index: of a constant its own alone, else all of its shape.
pub fn span_of(design: &Design, e: ExprId) -> Span
    requires there { e.0 < length design.now.pool.exprs }
    requires plain { (form design.now.pool e.0).signed ≡ false }
    ensures numbers { numbers_in result ≡ numbers design.now.pool e.0 }
    ensures some { result.least ≤ result.greatest }
{
    let _ = design.count();
    let width = design.shape(e).width;
    match design.at(e) {
        Expr::Const { value, .. } => {
            let own = value.to_bits(width).bits;
            Span {
                least: own,
                greatest: own,
            }
        }
        _ => Span {
            least: 0,
            greatest: greatest(width),
        },
    }
}

// The place of the first item that an index with these numbers picks.
fn first_picked(index: Span, count: usize) -> usize
    requires { 0 < count }
    ensures { result ≡ min index.least (count - 1) }
{
    if index.least < count as u128 {
        index.least as usize
    } else {
        count - 1
    }
}

// The place behind the last item that it picks.
fn end_picked(index: Span, count: usize) -> usize
    ensures { result ≡ min (index.greatest + 1) count }
{
    if index.greatest < count as u128 {
        index.greatest as usize + 1
    } else {
        count
    }
}

/// The items that an index with these numbers picks: past the end, the last.
pub fn chosen_items(index: Span, items: &[ExprId]) -> &[ExprId]
    requires some { items.now ≢ [] }
    requires order { index.least ≤ index.greatest }
    ensures { result.now ≡ chosen_items (numbers_in index) items.now }
{
    if items.is_empty() {
        return items;
    }
    let upto = &items[..end_picked(index, items.len())];
    &upto[first_picked(index, items.len())..]
}
