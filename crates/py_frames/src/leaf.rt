// What a turn reads of an expression: its cost, its place, and its parts by number.
ghost use Rattle.std.specs.Prelude.{◌≡◌, ◌+◌, ◌<◌, IfOk, Some, length, slice_get, map, if◌then◌else◌};
ghost use Rattle.py_tree.specs.Seen.{tree, link_tree, pair_tree, trailer_of};
ghost use Rattle.amh_host.specs.declared.place.Place.{Place};
ghost use Rattle.py_tree.specs.declared.expr.Operator.{Operator};
ghost use Rattle.py_tree.specs.Tree.{Tree, trees, links, pairs, trailers};
ghost use Rattle.py_frames.specs.Parts.{operator_of, prefix_of, place_of, link_count, trailer_count};
ghost use Rattle.py_frames.specs.Expressions.{goes_on, constant_val};
ghost use Rattle.py_frames.specs.Expr_frames.{items_of, pairs_of, links_of, operand_place, first_operand};
ghost use Rattle.py_frames.specs.Begun.{cost_of};
ghost use Rattle.py_frames.specs.Expr_parts.{tree_at, link_at, pair_at, is_tuple, is_trailed, exponent_in, choice_in};
ghost use Rattle.py_frames.specs.Told.{FoundTree, FoundLink, FoundPair, FoundChoice};

use amh_host::{NoMemory, Place};
use py_tree::{Constant, Expr, ExprKind, Link, Operator, Pair, Sign, Trailer};
use py_values::{PyOp, Val};

/// A value, and how many units it costs.
#[derive(Clone, Copy, Drop)]
pub struct Priced {
    pub val: Val,
    pub cost: u64,
}

/// The parts of a choice between which its test decides, and the place of the test.
#[derive(Drop)]
pub struct Choosing {
    pub chosen: Expr,
    pub test: Place,
    pub other: Expr,
}

impl Choosing {
    /// The part for a test that came out so.
    pub fn part(self, holds: bool) -> Expr
        ensures { tree result ≡ (if holds then tree self.chosen else tree self.other) }
    {
        if holds { self.chosen } else { self.other }
    }
}

/// A part of a node, where it has so many, or no memory for a handle of it.
#[derive(Drop)]
pub enum PartAt<T> {
    Part(T),
    Past,
    NoMemory,
}

/// The number behind this one, where there is one: no node has so many parts that there is none.
pub fn following(n: u64) -> Result<u64, NoMemory>
    ensures { IfOk result (λ m. m ≡ n + 1) }
{
    match n.checked_add(1) {
        Some(m) => Ok(m),
        None => Err(NoMemory),
    }
}

// The part of this number.
pub fn part<T>(items: &[T], n: u64) -> &T
    requires { n < length items.now }
    ensures { slice_get items.now n ≡ Some result.now }
{
    &items[n as usize]
}

#[tactic(auto, using(crate::proofs::ExprParts::link_count_links))]
fn link_count(items: &[Link]) -> u64
    ensures { result ≡ link_count (links (map link_tree items.now)) }
{
    items.len() as u64
}

#[tactic(auto, using(crate::proofs::ExprParts::trailer_count_trailers))]
fn trailer_count(items: &[Trailer]) -> u64
    ensures { result ≡ trailer_count (trailers (map trailer_of items.now)) }
{
    items.len() as u64
}

/// How many units a node spends where it begins.
pub fn cost_of(e: &Expr) -> u64
    ensures { result ≡ cost_of (tree e.now) }
{
    match &*e.kind {
        ExprKind::Trailed(_, items) => trailer_count(items.as_slice()),
        ExprKind::Binary(_, items) => link_count(items.as_slice()),
        ExprKind::Boolean(_, items) => link_count(items.as_slice()),
        _ => 1,
    }
}

/// The place of a node.
pub fn place_of(e: &Expr) -> Place
    ensures { result ≡ place_of (tree e.now) }
{
    match &*e.kind {
        ExprKind::Name(_) => e.place,
        _ => e.place,
    }
}

/// Whether a node is a tuple.
pub fn is_tuple(e: &Expr) -> bool
    ensures { result ≡ is_tuple (tree e.now) }
{
    match &*e.kind {
        ExprKind::Tuple(_) => true,
        _ => false,
    }
}

/// Whether a node is a primary with what trails it.
pub fn is_trailed(e: &Expr) -> bool
    ensures { result ≡ is_trailed (tree e.now) }
{
    match &*e.kind {
        ExprKind::Trailed(_, _) => true,
        _ => false,
    }
}

#[tactic(auto, using(crate::proofs::ExprParts::tree_at_past, crate::proofs::ExprParts::tree_at_some))]
pub fn shared_at(items: &[Expr], n: u64) -> PartAt<Expr>
    ensures { FoundTree result (tree_at n (trees (map tree items.now))) }
{
    if n >= items.len() as u64 {
        return PartAt::Past;
    }
    match part(items, n).share() {
        Ok(item) => PartAt::Part(item),
        Err(_) => PartAt::NoMemory,
    }
}

/// The item of a tuple or a list of this number.
pub fn item_at(node: &Expr, n: u64) -> PartAt<Expr>
    ensures { FoundTree result (tree_at n (items_of (tree node.now))) }
{
    match &*node.kind {
        ExprKind::Tuple(items) => shared_at(items.as_slice(), n),
        ExprKind::List(items) => shared_at(items.as_slice(), n),
        _ => PartAt::Past,
    }
}

fn shared_link(link: &Link) -> Result<Link, NoMemory>
    ensures { IfOk result (λ l. ◌≡◌ {A = Operator × Tree} (l.operator, tree l.operand) (link_tree link.now)) }
{
    match link.operand.share() {
        Ok(operand) => Ok(Link {
            operator: link.operator,
            operand,
        }),
        Err(_) => Err(NoMemory),
    }
}

#[tactic(auto, using(crate::proofs::ExprParts::link_at_past, crate::proofs::ExprParts::link_at_some))]
fn shared_link_at(items: &[Link], n: u64) -> PartAt<Link>
    ensures { FoundLink result (link_at n (links (map link_tree items.now))) }
{
    if n >= items.len() as u64 {
        return PartAt::Past;
    }
    match shared_link(part(items, n)) {
        Ok(item) => PartAt::Part(item),
        Err(_) => PartAt::NoMemory,
    }
}

/// The link of a chain of this number.
pub fn link_at(node: &Expr, n: u64) -> PartAt<Link>
    ensures { FoundLink result (link_at n (links_of (tree node.now))) }
{
    match &*node.kind {
        ExprKind::Binary(_, items) => shared_link_at(items.as_slice(), n),
        ExprKind::Compare(_, items) => shared_link_at(items.as_slice(), n),
        ExprKind::Boolean(_, items) => shared_link_at(items.as_slice(), n),
        _ => PartAt::Past,
    }
}

fn shared_pair(pair: &Pair) -> Result<Pair, NoMemory>
    ensures { IfOk result (λ p. ◌≡◌ {A = Tree × Tree} (tree p.key, tree p.value) (pair_tree pair.now)) }
{
    match (pair.key.share(), pair.value.share()) {
        (Ok(key), Ok(value)) => Ok(Pair { key, value }),
        _ => Err(NoMemory),
    }
}

#[tactic(auto, using(crate::proofs::ExprParts::pair_at_past, crate::proofs::ExprParts::pair_at_some))]
fn shared_pair_at(items: &[Pair], n: u64) -> PartAt<Pair>
    ensures { FoundPair result (pair_at n (pairs (map pair_tree items.now))) }
{
    if n >= items.len() as u64 {
        return PartAt::Past;
    }
    match shared_pair(part(items, n)) {
        Ok(item) => PartAt::Part(item),
        Err(_) => PartAt::NoMemory,
    }
}

/// The pair of a dict of this number.
pub fn pair_at(node: &Expr, n: u64) -> PartAt<Pair>
    ensures { FoundPair result (pair_at n (pairs_of (tree node.now))) }
{
    match &*node.kind {
        ExprKind::Dict(items) => shared_pair_at(items.as_slice(), n),
        _ => PartAt::Past,
    }
}

/// The right operand of a power.
pub fn exponent_of(node: &Expr) -> PartAt<Expr>
    ensures { FoundTree result (exponent_in (tree node.now)) }
{
    match &*node.kind {
        ExprKind::Power(_, exponent) => match exponent.share() {
            Ok(exponent) => PartAt::Part(exponent),
            Err(_) => PartAt::NoMemory,
        },
        _ => PartAt::Past,
    }
}

fn parts_of_choice(chosen: &Expr, test: &Expr, other: &Expr) -> Result<Choosing, NoMemory>
    ensures { IfOk result (λ c. ◌≡◌ {A = Tree × Place × Tree} (tree c.chosen, c.test, tree c.other) (tree chosen.now, place_of (tree test.now), tree other.now)) }
{
    match (chosen.share(), other.share()) {
        (Ok(chosen), Ok(other)) => Ok(Choosing {
            chosen,
            test: place_of(test),
            other,
        }),
        _ => Err(NoMemory),
    }
}

/// The parts of a choice.
pub fn choice_of(node: &Expr) -> PartAt<Choosing>
    ensures { FoundChoice result (choice_in (tree node.now)) }
{
    match &*node.kind {
        ExprKind::Choice {
            chosen,
            test,
            other,
        } => match parts_of_choice(chosen, test, other) {
            Ok(parts) => PartAt::Part(parts),
            Err(_) => PartAt::NoMemory,
        },
        _ => PartAt::Past,
    }
}

// The place of the first operand of a chain; of other chains than `and` and `or`, that of the whole.
fn first_operand(node: &Expr) -> Place
    ensures { result ≡ first_operand (tree node.now) }
{
    match &*node.kind {
        ExprKind::Boolean(first, _) => place_of(first),
        _ => node.place,
    }
}

/// The place of the operand before the link of this number of a chain, where there is one.
#[tactic(auto, using(crate::proofs::ExprParts::operand_place_first, crate::proofs::ExprParts::operand_place_after))]
pub fn operand_place(node: &Expr, n: u64) -> Result<Place, NoMemory>
    ensures { IfOk result (λ p. p ≡ operand_place n (first_operand (tree node.now)) (links_of (tree node.now))) }
{
    if n == 0 {
        return Ok(first_operand(node));
    }
    match link_at(node, n - 1) {
        PartAt::Part(link) => Ok(place_of(&link.operand)),
        PartAt::Past => Err(NoMemory),
        PartAt::NoMemory => Err(NoMemory),
    }
}

/// A value that is used again.
pub fn copied(v: &Val) -> Val
    ensures { result ≡ v.now }
{
    *v
}

/// The operator of a sign between two operands; `and` and `or` are none, and read as `==`.
pub fn operator_of(sign: Operator) -> PyOp
    ensures { result ≡ operator_of sign }
{
    match sign {
        Operator::Mul => PyOp::Mul,
        Operator::FloorDiv => PyOp::FloorDiv,
        Operator::Mod => PyOp::Rem,
        Operator::Add => PyOp::Add,
        Operator::Sub => PyOp::Sub,
        Operator::ShiftLeft => PyOp::Shl,
        Operator::ShiftRight => PyOp::Shr,
        Operator::BitAnd => PyOp::And,
        Operator::BitXor => PyOp::Xor,
        Operator::BitOr => PyOp::Or,
        Operator::Less => PyOp::Lt,
        Operator::LessEqual => PyOp::Le,
        Operator::Greater => PyOp::Gt,
        Operator::GreaterEqual => PyOp::Ge,
        Operator::Equal => PyOp::Eq,
        Operator::NotEqual => PyOp::Ne,
        Operator::In => PyOp::In,
        Operator::NotIn => PyOp::NotIn,
        Operator::Is => PyOp::Is,
        Operator::IsNot => PyOp::IsNot,
        Operator::And => PyOp::Eq,
        Operator::Or => PyOp::Eq,
    }
}

/// The operator of a sign before one operand.
pub fn prefix_of(sign: Sign) -> PyOp
    ensures { result ≡ prefix_of sign }
{
    match sign {
        Sign::Minus => PyOp::Neg,
        Sign::Plus => PyOp::Pos,
        Sign::Invert => PyOp::Invert,
    }
}

/// Whether a chain of `and` or of `or` goes on behind an operand of this truth.
pub fn goes_on(sign: Operator, holds: bool) -> bool
    ensures { result ≡ goes_on sign holds }
{
    match sign {
        Operator::Or => !holds,
        _ => holds,
    }
}

/// The value of a constant.
pub fn constant_val(constant: Constant) -> Val
    ensures { result ≡ constant_val constant }
{
    match constant {
        Constant::Nothing => Val::None,
        Constant::True => Val::Bool(true),
        Constant::False => Val::Bool(false),
    }
}
