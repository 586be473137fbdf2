// What a turn reads of targets and of comprehensions.
ghost use Rattle.std.specs.Prelude.{◌≡◌, ◌++◌, ◌<◌, map, IfOk, OnOk, Some, option_map};
ghost use Rattle.py_tree.specs.Seen.{tree, each_of, trailer_of};
ghost use Rattle.py_tree.specs.Tree.{trees, trailers};
ghost use Rattle.py_tree.specs.Programs.{step_of};
ghost use Rattle.py_heap.specs.Members.{is_key};
ghost use Rattle.py_frames.specs.Own.{target_names, targets_names};
ghost use Rattle.py_frames.specs.Parts.{place_of, tree_count, trailers_from};
ghost use Rattle.py_frames.specs.Expressions.{is_row};
ghost use Rattle.py_frames.specs.Expr_parts.{tree_at};
ghost use Rattle.py_frames.specs.Told.{FoundTree};
ghost use Rattle.py_frames.specs.Walk_frames.{one, two, comp_at, comp_of, targets_in};
ghost use Rattle.py_walks.specs.Walk_parts.{behind_walk, item_seen, comp_here, comp_trailing, first_of, FoundComp, IsParted, is_for, is_target};

use amh_host::{Names, NoMemory, Place};
use py_frames::frame::{Comprehended, Walk};
use py_frames::leaf::{PartAt, following, part, place_of, shared_at};
use py_heap::is_key;
use py_tree::{Comprehension, Expr, ExprKind, Pair, Stmt, StmtKind, Trailer};
use py_values::{Val, Vals};
use std::alloc::Global;

/// What a comprehension makes: an element, or a key with its value.
#[derive(Drop)]
pub enum CompItem {
    One(Expr),
    Two(Expr, Expr),
}

impl CompItem {
    /// What is evaluated first of it.
    pub fn first(&self) -> &Expr
        ensures { tree result.now ≡ first_of (item_seen self.now) }
    {
        match self {
            CompItem::One(e) => e,
            CompItem::Two(key, _) => key,
        }
    }
}

/// The parts of a comprehension, and its place.
#[derive(Drop)]
pub struct CompParts {
    pub place: Place,
    pub item: CompItem,
    pub targets: Expr,
    pub source: Expr,
    pub condition: Option<Expr>,
}

/// The first of values, and those behind it.
#[derive(Drop)]
pub enum Parted {
    First(Val, Vals),
    Empty,
    NoMemory,
}

// The names that a target binds, behind those that are there.
#[cycle(targets)]
fn add_names(e: &Expr, names: &mut Names) -> Result<(), NoMemory>
    ensures { OnOk result (names.new ≡ names.old ++ target_names (tree e.now)) }
{
    match &*e.kind {
        ExprKind::Name(name) => names.push(name.as_str()),
        ExprKind::Tuple(items) => add_all_names(items.as_slice(), names),
        _ => Ok(()),
    }
}

#[cycle(targets)]
fn add_all_names(items: &[Expr], names: &mut Names) -> Result<(), NoMemory>
    ensures { OnOk result (names.new ≡ names.old ++ targets_names (trees (map tree items.now))) }
{
    for e in items {
        match add_names(e, names) {
            Ok(()) => {}
            Err(_) => return Err(NoMemory),
        }
    }
    Ok(())
}

/// The names that a target binds, from left to right.
pub fn target_names(alloc: Global, e: &Expr) -> Result<Names, NoMemory>
    ensures { IfOk result (λ names. names ≡ target_names (tree e.now)) }
{
    let mut names = Names::new(alloc);
    match add_names(e, &mut names) {
        Ok(()) => Ok(names),
        Err(_) => Err(NoMemory),
    }
}

#[tactic(auto, using(crate::proofs::WalkParts::tree_count_trees))]
fn tree_count(items: &[Expr]) -> u64
    ensures { result ≡ tree_count (trees (map tree items.now)) }
{
    items.len() as u64
}

/// Whether a value may go to a target of this kind.
pub fn is_target(e: &Expr) -> bool
    ensures { result ≡ is_target (tree e.now) }
{
    match &*e.kind {
        ExprKind::Name(_) => true,
        ExprKind::Tuple(_) => true,
        ExprKind::Trailed(_, _) => true,
        _ => false,
    }
}

/// Whether a statement is a `for`.
pub fn is_for(stmt: &Stmt) -> bool
    ensures { result ≡ is_for (step_of stmt.now) }
{
    match &*stmt.kind {
        StmtKind::For { .. } => true,
        _ => false,
    }
}

/// How many targets a tuple has.
pub fn target_count(node: &Expr) -> u64
    ensures { result ≡ tree_count (targets_in (tree node.now)) }
{
    match &*node.kind {
        ExprKind::Tuple(items) => tree_count(items.as_slice()),
        _ => 0,
    }
}

/// The target of a tuple of this number.
pub fn target_at(node: &Expr, n: u64) -> PartAt<Expr>
    ensures { FoundTree result (tree_at n (targets_in (tree node.now))) }
{
    match &*node.kind {
        ExprKind::Tuple(items) => shared_at(items.as_slice(), n),
        _ => PartAt::Past,
    }
}

/// The first of values, and those behind it.
pub fn split(alloc: Global, vals: &Vals) -> Parted
    ensures { IsParted result vals.now }
{
    match vals.as_slice().split_first() {
        None => Parted::Empty,
        Some((v, behind)) => {
            let mut rest = Vals::new(alloc);
            match rest.extend(behind) {
                Ok(()) => Parted::First(*v, rest),
                Err(_) => Parted::NoMemory,
            }
        }
    }
}

/// Whether one may go over a value.
pub fn is_row(v: &Val) -> bool
    ensures { result ≡ is_row v.now }
{
    match v {
        Val::List(_) => true,
        Val::Tuple(_) => true,
        Val::Dict(_) => true,
        Val::Range(_) => true,
        _ => false,
    }
}

/// Whether a value may be a key of a dict.
pub fn may_be_key(v: &Val) -> bool
    ensures { result ≡ is_key v.now }
{
    is_key(*v)
}

/// The walk behind its next element.
pub fn behind(walk: &Walk) -> Result<Walk, NoMemory>
    requires { 0 < walk.now.turns }
    ensures { IfOk result (λ w. w ≡ behind_walk walk.now) }
{
    match following(walk.next) {
        Ok(next) => Ok(Walk {
            over: walk.over,
            next,
            size: walk.size,
            turns: walk.turns - 1,
        }),
        Err(_) => Err(NoMemory),
    }
}

fn shared_perhaps(e: &Option<Expr>) -> Result<Option<Expr>, NoMemory>
    ensures { IfOk result (λ o. option_map tree o ≡ option_map tree e.now) }
{
    match e {
        None => Ok(None),
        Some(e) => match e.share() {
            Ok(e) => Ok(Some(e)),
            Err(_) => Err(NoMemory),
        },
    }
}

// The parts of a comprehension at this place, which makes this.
fn parts_of(place: Place, item: CompItem, c: &Comprehension) -> PartAt<CompParts>
    ensures { FoundComp result (Some (record { place = place; element = item_seen item; source = each_of c.now })) }
{
    match (
        c.targets.share(),
        c.source.share(),
        shared_perhaps(&c.condition),
    ) {
        (Ok(targets), Ok(source), Ok(condition)) => PartAt::Part(CompParts {
            place,
            item,
            targets,
            source,
            condition,
        }),
        _ => PartAt::NoMemory,
    }
}

fn list_parts(place: Place, e: &Expr, c: &Comprehension) -> PartAt<CompParts>
    ensures { FoundComp result (Some (record { place = place; element = one (tree e.now); source = each_of c.now })) }
{
    match e.share() {
        Ok(e) => parts_of(place, CompItem::One(e), c),
        Err(_) => PartAt::NoMemory,
    }
}

fn dict_parts(place: Place, pair: &Pair, c: &Comprehension) -> PartAt<CompParts>
    ensures { FoundComp result (Some (record { place = place; element = two (tree pair.now.key) (tree pair.now.value); source = each_of c.now })) }
{
    match (pair.key.share(), pair.value.share()) {
        (Ok(key), Ok(value)) => parts_of(place, CompItem::Two(key, value), c),
        _ => PartAt::NoMemory,
    }
}

fn trailer_parts(t: &Trailer) -> PartAt<CompParts>
    ensures { FoundComp result (comp_here (trailer_of t.now)) }
{
    match t {
        Trailer::CallOf(e, c) => list_parts(place_of(e), e, c),
        _ => PartAt::Past,
    }
}

#[tactic(auto, using(crate::proofs::WalkParts::comp_at_past, crate::proofs::WalkParts::comp_at_here))]
fn comp_at(items: &[Trailer], n: u64) -> PartAt<CompParts>
    ensures { FoundComp result (comp_at (trailers_from n (trailers (map trailer_of items.now)))) }
{
    if n >= items.len() as u64 {
        return PartAt::Past;
    }
    trailer_parts(part(items, n))
}

fn comp_trailing(items: &[Trailer], n: Option<u64>) -> PartAt<CompParts>
    ensures { FoundComp result (comp_trailing n (trailers (map trailer_of items.now))) }
{
    match n {
        Some(n) => comp_at(items, n),
        None => PartAt::Past,
    }
}

/// The parts of a comprehension.
pub fn comp_of(c: &Comprehended) -> PartAt<CompParts>
    ensures { FoundComp result (comp_of c.now) }
{
    match &*c.node.kind {
        ExprKind::ListOf(e, each) => list_parts(c.node.place, e, each),
        ExprKind::DictOf(pair, each) => dict_parts(c.node.place, pair, each),
        ExprKind::Trailed(_, items) => comp_trailing(items.as_slice(), c.trailer),
        _ => PartAt::Past,
    }
}
