// Where the nodes of an expression lead.
ghost use Rattle.std.specs.Prelude.{◌≡◌, ◌+◌, ◌*◌, ◌^◌, ◌<◌, ◌≤◌, ◌++◌, ◌∷◌, [], All, length, map, IfOk, OnOk};
ghost use Rattle.design_ir.specs.Named.{named, AllBelow};
ghost use Rattle.design_ir.specs.Needed.{is_bitwise};
ghost use Rattle.design_ir.specs.Values.{form};
ghost use Rattle.comb_graph.specs.Places.{IsTable, first_of, whole_at, indices_at, extended_at, joined_at, bit_targets, index_targets};

use amh_host::{Items, NoMemory};
use design_ir::{Design, Expr, ExprId, Exprs};
use shape_rules::Op;
use std::alloc::Global;

/// Nodes of a graph.
pub type Nodes = Items<usize>;

// Whether an operator goes bit by bit.
fn is_bitwise(op: Op) -> bool
    ensures { result ≡ is_bitwise op }
{
    matches!(op, Op::Not | Op::And | Op::Or | Op::Xor)
}

// The node of an expression's first bit.
fn first(firsts: &Nodes, e: ExprId) -> usize
    requires known { e.0 < length firsts.now }
    requires room { All (λ n. n < 2 ^ 63) firsts.now }
    ensures value { result ≡ first_of firsts.now e.0 }
    ensures room { result < 2 ^ 63 }
{
    *firsts.get(e.0 as usize)
}

// The node of all bits of an expression.
pub fn whole(design: &Design, firsts: &Nodes, e: ExprId) -> usize
    requires known { e.0 < length firsts.now }
    requires table { IsTable design.now.pool firsts.now }
    ensures value { result ≡ whole_at (form design.now.pool) (first_of firsts.now) e }
    ensures room { result < 2 ^ 63 + 256 }
{
    first(firsts, e) + design.shape(e).width as usize
}

// The node of an expression's offsets and indices.
pub fn indices(design: &Design, firsts: &Nodes, e: ExprId) -> usize
    requires known { e.0 < length firsts.now }
    requires table { IsTable design.now.pool firsts.now }
    ensures { result ≡ indices_at (form design.now.pool) (first_of firsts.now) e }
{
    whole(design, firsts, e) + 1
}

// A list of one node.
pub fn one(alloc: Global, node: usize) -> Result<Nodes, NoMemory>
    ensures { IfOk result (λ ns. ns ≡ node ∷ []) }
{
    let mut out = Items::new(alloc);
    out.push(node)?;
    Ok(out)
}

// A list of two nodes.
pub fn two(alloc: Global, a: usize, b: usize) -> Result<Nodes, NoMemory>
    ensures { IfOk result (λ ns. ns ≡ a ∷ b ∷ []) }
{
    let mut out = one(alloc, a)?;
    out.push(b)?;
    Ok(out)
}

// Adds the node of a bit: past the width that of the top bit of a signed expression.
pub fn push_extended(
    out: &mut Nodes,
    design: &Design,
    firsts: &Nodes,
    e: ExprId,
    k: u8,
) -> Result<(), NoMemory>
    requires known { e.0 < length firsts.now }
    requires table { IsTable design.now.pool firsts.now }
    ensures { OnOk result (out.new ≡ out.old ++ extended_at (form design.now.pool) (first_of firsts.now) e k) }
{
    let shape = design.shape(e);
    let low = first(firsts, e);
    if k < shape.width {
        return out.push(low + k as usize);
    }
    if shape.signed {
        return out.push(low + (shape.width - 1) as usize);
    }
    Ok(())
}

// The nodes of a bit of two expressions.
fn extended_both(
    alloc: Global,
    design: &Design,
    firsts: &Nodes,
    a: ExprId,
    b: ExprId,
    k: u8,
) -> Result<Nodes, NoMemory>
    requires a { a.0 < length firsts.now }
    requires b { b.0 < length firsts.now }
    requires table { IsTable design.now.pool firsts.now }
    ensures { IfOk result (λ ns. ns ≡ extended_at (form design.now.pool) (first_of firsts.now) a k ++ extended_at (form design.now.pool) (first_of firsts.now) b k) }
{
    let mut out = Items::new(alloc);
    push_extended(&mut out, design, firsts, a, k)?;
    push_extended(&mut out, design, firsts, b, k)?;
    Ok(out)
}

// The nodes of a bit of a choice between two expressions.
fn chosen(
    alloc: Global,
    design: &Design,
    firsts: &Nodes,
    e: (ExprId, ExprId, ExprId),
    k: u8,
) -> Result<Nodes, NoMemory>
    requires s { e.0.0 < length firsts.now }
    requires a { e.1.0 < length firsts.now }
    requires b { e.2.0 < length firsts.now }
    requires table { IsTable design.now.pool firsts.now }
    ensures { IfOk result (λ ns. ns ≡ whole_at (form design.now.pool) (first_of firsts.now) e.0 ∷ (extended_at (form design.now.pool) (first_of firsts.now) e.1 k ++ extended_at (form design.now.pool) (first_of firsts.now) e.2 k)) }
{
    let (s, a, b) = e;
    let mut out = one(alloc, whole(design, firsts, s))?;
    push_extended(&mut out, design, firsts, a, k)?;
    push_extended(&mut out, design, firsts, b, k)?;
    Ok(out)
}

// The node of a bit of expressions one above the other.
fn joined(
    alloc: Global,
    design: &Design,
    firsts: &Nodes,
    items: &[ExprId],
    k: u8,
) -> Result<Nodes, NoMemory>
    requires items { AllBelow (length firsts.now) items.now }
    requires table { IsTable design.now.pool firsts.now }
    ensures { IfOk result (λ ns. ns ≡ joined_at (form design.now.pool) (first_of firsts.now) items.now k) }
{
    let mut low = k;
    for item in items {
        let width = design.shape(*item).width;
        if low < width {
            return one(alloc, first(firsts, *item) + low as usize);
        }
        low -= width;
    }
    Ok(Items::new(alloc))
}

// The node of all bits of an index, and those of all items.
fn picked(
    alloc: Global,
    design: &Design,
    firsts: &Nodes,
    index: ExprId,
    items: &[ExprId],
) -> Result<Nodes, NoMemory>
    requires index { index.0 < length firsts.now }
    requires items { AllBelow (length firsts.now) items.now }
    requires table { IsTable design.now.pool firsts.now }
    ensures { IfOk result (λ ns. ns ≡ whole_at (form design.now.pool) (first_of firsts.now) index ∷ map (whole_at (form design.now.pool) (first_of firsts.now)) items.now) }
{
    let mut out = one(alloc, whole(design, firsts, index))?;
    for item in items {
        out.push(whole(design, firsts, *item))?;
    }
    Ok(out)
}

/// Where the node of a bit of an expression leads.
pub fn bit_targets(
    alloc: Global,
    design: &Design,
    firsts: &Nodes,
    e: &Expr,
    k: u8,
) -> Result<Nodes, NoMemory>
    requires names { AllBelow (length firsts.now) (named e.now) }
    requires table { IsTable design.now.pool firsts.now }
    ensures { IfOk result (λ ns. ns ≡ bit_targets (form design.now.pool) (first_of firsts.now) e.now k) }
{
    match e {
        Expr::Const { .. } | Expr::Reset { .. } => Ok(Items::new(alloc)),
        Expr::Sig(s) => one(alloc, 128 * s.0 as usize + k as usize),
        Expr::Unary { op, a } => {
            if is_bitwise(*op) {
                one(alloc, first(firsts, *a) + k as usize)
            } else {
                one(alloc, whole(design, firsts, *a))
            }
        }
        Expr::Binary { op, a, b } => {
            if is_bitwise(*op) {
                extended_both(alloc, design, firsts, *a, *b, k)
            } else {
                two(alloc, whole(design, firsts, *a), whole(design, firsts, *b))
            }
        }
        Expr::Mux { s, a, b } => chosen(alloc, design, firsts, (*s, *a, *b), k),
        Expr::Slice { a, low, .. } => {
            one(alloc, first(firsts, *a) + (*low as usize + k as usize))
        }
        Expr::Cat(items) => joined(alloc, design, firsts, items.as_slice(), k),
        Expr::Part { a, offset, .. } => two(
            alloc,
            whole(design, firsts, *a),
            whole(design, firsts, *offset),
        ),
        Expr::Pick { index, items } => picked(alloc, design, firsts, *index, items.as_slice()),
        Expr::Cast { a, .. } => one(alloc, first(firsts, *a) + k as usize),
        Expr::Matches { a, .. } => one(alloc, whole(design, firsts, *a)),
    }
}

// The nodes of the offsets and indices of expressions, behind others.
fn push_indices(
    out: &mut Nodes,
    design: &Design,
    firsts: &Nodes,
    items: &[ExprId],
) -> Result<(), NoMemory>
    requires items { AllBelow (length firsts.now) items.now }
    requires table { IsTable design.now.pool firsts.now }
    ensures { OnOk result (out.new ≡ out.old ++ map (indices_at (form design.now.pool) (first_of firsts.now)) items.now) }
{
    for item in items {
        out.push(indices(design, firsts, *item))?;
    }
    Ok(())
}

// The nodes of an index, and of the offsets and indices of the items.
fn picked_indices(
    alloc: Global,
    design: &Design,
    firsts: &Nodes,
    index: ExprId,
    items: &[ExprId],
) -> Result<Nodes, NoMemory>
    requires index { index.0 < length firsts.now }
    requires items { AllBelow (length firsts.now) items.now }
    requires table { IsTable design.now.pool firsts.now }
    ensures { IfOk result (λ ns. ns ≡ whole_at (form design.now.pool) (first_of firsts.now) index ∷ map (indices_at (form design.now.pool) (first_of firsts.now)) items.now) }
{
    let mut out = one(alloc, whole(design, firsts, index))?;
    push_indices(&mut out, design, firsts, items)?;
    Ok(out)
}

// The nodes of the offsets and indices of expressions.
fn all_indices(
    alloc: Global,
    design: &Design,
    firsts: &Nodes,
    items: &[ExprId],
) -> Result<Nodes, NoMemory>
    requires items { AllBelow (length firsts.now) items.now }
    requires table { IsTable design.now.pool firsts.now }
    ensures { IfOk result (λ ns. ns ≡ map (indices_at (form design.now.pool) (first_of firsts.now)) items.now) }
{
    let mut out = Items::new(alloc);
    push_indices(&mut out, design, firsts, items)?;
    Ok(out)
}

/// Where the node of the offsets and indices of an expression leads.
pub fn index_targets(
    alloc: Global,
    design: &Design,
    firsts: &Nodes,
    e: &Expr,
) -> Result<Nodes, NoMemory>
    requires names { AllBelow (length firsts.now) (named e.now) }
    requires table { IsTable design.now.pool firsts.now }
    ensures { IfOk result (λ ns. ns ≡ index_targets (form design.now.pool) (first_of firsts.now) e.now) }
{
    match e {
        Expr::Slice { a, .. } | Expr::Cast { a, .. } => one(alloc, indices(design, firsts, *a)),
        Expr::Cat(items) => all_indices(alloc, design, firsts, items.as_slice()),
        Expr::Part { a, offset, .. } => two(
            alloc,
            whole(design, firsts, *offset),
            indices(design, firsts, *a),
        ),
        Expr::Pick { index, items } => {
            picked_indices(alloc, design, firsts, *index, items.as_slice())
        }
        Expr::Const { .. }
        | Expr::Sig(_)
        | Expr::Unary { .. }
        | Expr::Binary { .. }
        | Expr::Mux { .. }
        | Expr::Matches { .. }
        | Expr::Reset { .. } => Ok(Items::new(alloc)),
    }
}
