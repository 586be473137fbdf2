// A target as writes of fixed bits.
ghost use Rattle.std.specs.Prelude.{◌≡◌, ◌≢◌, ◌<◌, ◌≤◌, ◌-◌, ◌==◌, ◌&&◌, nat_le, min, [], ◌∷◌, if◌then◌else◌, length, true, false, IfOk};
ghost use Rattle.std.specs.List.{flat_map, list_all, enumerate_from};
ghost use Rattle.design_ir.specs.declared.ids.ExprId.{ExprId};
ghost use Rattle.design_ir.specs.Named.{AllBelow};
ghost use Rattle.design_ir.specs.Targets.{is_target, numbers};
ghost use Rattle.design_ir.specs.Values.{form, total_width};
ghost use Rattle.flat_design.specs.Writes.{writes, writes_of_all, item_at, is_number, is_no_less};

use crate::pieces::{Selection, cut_writes, part_writes, push_raised, push_tested};
use crate::spans::{Span, span_of};
use amh_host::{Items, NoMemory};
use design_ir::{Expr, ExprId, Exprs, Pool, SigId};
use std::alloc::Global;

/// What an offset or an index is asked: to be this number, or to be no less.
#[derive(Clone, Copy, Drop)]
pub struct Test {
    pub index: ExprId,
    pub number: u128,
    pub and_above: bool,
}

/// A list of tests, all of which are to hold.
pub type Tests = Items<Test>;

/// The bits of a value from one on go into these bits of a signal, where the tests hold.
#[derive(Drop)]
pub struct Write {
    pub tests: Tests,
    pub sig: SigId,
    pub low: u8,
    pub width: u8,
    pub from: u8,
}

/// Writes, one after another.
pub type Writes = Items<Write>;

// The write of a signal as a whole.
fn signal_writes(alloc: Global, s: SigId, width: u8) -> Result<Writes, NoMemory>
    ensures { IfOk result (λ list. list ≡ (if width == 0 then [] else record { tests = []; sig = s; low = 0; width = width; from = 0 } ∷ [])) }
{
    let mut list = Items::new(alloc);
    if width > 0 {
        list.push(Write {
            tests: Items::new(alloc),
            sig: s,
            low: 0,
            width,
            from: 0,
        })?;
    }
    Ok(list)
}

/// The writes of a target.
#[cycle(writes)]
pub(crate) fn writes_of(alloc: Global, pool: &Pool, target: ExprId) -> Result<Writes, NoMemory>
    requires there { target.0 < length pool.now.exprs }
    requires target { is_target pool.now target.0 ≡ true }
    ensures { IfOk result (λ list. list ≡ writes pool.now target.0) }
{
    let _ = pool.count();
    match pool.at(target) {
        Expr::Sig(s) => signal_writes(alloc, *s, pool.shape(target).width),
        Expr::Slice { a, low, width } => {
            let whole = writes_of(alloc, pool, *a)?;
            cut_writes(alloc, whole.as_slice(), *low as u16, *width)
        }
        Expr::Cat(items) => joined_writes(alloc, pool, items.as_slice(), target),
        Expr::Part {
            a,
            offset,
            width,
            stride,
        } => {
            let whole = writes_of(alloc, pool, *a)?;
            let by = Selection {
                offset: *offset,
                numbers: span_of(pool, *offset),
                wide: pool.shape(*a).width,
                width: *width,
                stride: *stride,
            };
            part_writes(alloc, whole.as_slice(), by)
        }
        Expr::Pick { index, items } => picked_writes(alloc, pool, *index, items.as_slice(), target),
        Expr::Cast { a, .. } => writes_of(alloc, pool, *a),
        Expr::Const { .. }
        | Expr::Unary { .. }
        | Expr::Binary { .. }
        | Expr::Mux { .. }
        | Expr::Matches { .. }
        | Expr::Reset { .. } => Ok(Items::new(alloc)),
    }
}

// The writes of the items of a target, one above the other. Each item is an earlier expression than the target.
#[cycle(writes)]
fn joined_writes(
    alloc: Global,
    pool: &Pool,
    items: &[ExprId],
    target: ExprId,
) -> Result<Writes, NoMemory>
    requires there { target.0 < length pool.now.exprs }
    requires names { AllBelow target.0 items.now }
    requires targets { list_all (λ (e : ExprId). is_target pool.now e.0) items.now ≡ true }
    requires narrow { total_width (form pool.now) items.now ≤ 128 }
    ensures { IfOk result (λ list. list ≡ writes_of_all (form pool.now) (writes pool.now) 0 items.now) }
{
    let _ = pool.count();
    let mut list = Items::new(alloc);
    let mut low = 0u8;
    for item in items {
        let own = writes_of(alloc, pool, *item)?;
        push_raised(alloc, &mut list, own.as_slice(), low)?;
        low += pool.shape(*item).width;
    }
    Ok(list)
}

// The writes of the items of a target, of which the index picks one. Each is an earlier expression than the target.
#[cycle(writes)]
fn picked_writes(
    alloc: Global,
    pool: &Pool,
    index: ExprId,
    items: &[ExprId],
    target: ExprId,
) -> Result<Writes, NoMemory>
    requires there { target.0 < length pool.now.exprs }
    requires index { index.0 < length pool.now.exprs }
    requires plain { (form pool.now index.0).signed ≡ false }
    requires some { items.now ≢ [] }
    requires names { AllBelow target.0 items.now }
    requires targets { list_all (λ (e : ExprId). is_target pool.now e.0) items.now ≡ true }
    ensures { IfOk result (λ list. list ≡ flat_map (item_at (numbers pool.now index.0) index (length items.now - 1) (writes pool.now)) (enumerate_from 0 items.now)) }
{
    let numbers = span_of(pool, index);
    let last = items.len() - 1;
    let mut list = Items::new(alloc);
    for (i, item) in items.iter().enumerate() {
        if may_pick(numbers, i, last) {
            let own = writes_of(alloc, pool, *item)?;
            let test = item_test(index, i, last);
            push_tested(alloc, &mut list, own.as_slice(), numbers, test)?;
        }
    }
    Ok(list)
}

// Whether an index with these numbers may pick item i.
fn may_pick(numbers: Span, i: usize, last: usize) -> bool
    requires { i ≤ last }
    ensures { result ≡ (nat_le (min numbers.least last) i && nat_le i numbers.greatest) }
{
    let number = i as u128;
    number <= numbers.greatest && (numbers.least <= number || i == last)
}

// What the index is asked for item i: the last stands for every number from there on.
fn item_test(index: ExprId, i: usize, last: usize) -> Test
    ensures { result ≡ (if i == last then is_no_less index i else is_number index i) }
{
    Test {
        index,
        number: i as u128,
        and_above: i == last,
    }
}
