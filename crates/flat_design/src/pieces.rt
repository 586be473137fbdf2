// Writes that are cut, raised and tested.
ghost use Rattle.std.specs.Prelude.{◌≡◌, ◌+◌, ◌++◌, [], ◌≤◌, ◌<◌, map, All, IfOk, OnOk};
ghost use Rattle.std.specs.List.{filter_map, cons_option};
ghost use Rattle.flat_design.specs.Pieces.{IsNarrow, IsWithin, numbers_in};
ghost use Rattle.flat_design.specs.Writes.{cut, raised, tested, part_at, parts_at};

use crate::spans::Span;
use crate::writes::{Test, Tests, Write, Writes};
use amh_host::{Items, NoMemory};
use design_ir::ExprId;
use std::alloc::Global;

// The same tests.
fn copied_tests(alloc: Global, tests: &[Test]) -> Result<Tests, NoMemory>
    ensures { IfOk result (λ copy. copy ≡ tests.now) }
{
    let mut copy = Items::new(alloc);
    for t in tests {
        copy.push(*t)?;
    }
    Ok(copy)
}

// The same write.
fn copied(alloc: Global, w: &Write) -> Result<Write, NoMemory>
    ensures { IfOk result (λ copy. copy ≡ w.now) }
{
    let tests = copied_tests(alloc, w.tests.as_slice())?;
    Ok(Write {
        tests,
        sig: w.sig,
        low: w.low,
        width: w.width,
        from: w.from,
    })
}

// What of a write falls into so many bits of the target from one on.
fn cut(alloc: Global, w: &Write, low: u16, width: u8) -> Result<Option<Write>, NoMemory>
    requires narrow { IsNarrow w.now }
    requires low { low < 65280 }
    ensures { IfOk result (λ piece. piece ≡ cut low width w.now) }
{
    let from = (w.from as u16).max(low);
    let end = (w.from as u16 + w.width as u16).min(low + width as u16);
    if from >= end {
        return Ok(None);
    }
    let mut piece = copied(alloc, w)?;
    piece.low += (from - w.from as u16) as u8;
    piece.from = (from - low) as u8;
    piece.width = (end - from) as u8;
    Ok(Some(piece))
}

// Adds a write, if there is one.
fn push_some(list: &mut Writes, piece: Option<Write>) -> Result<(), NoMemory>
    ensures { OnOk result (list.new ≡ list.old ++ cons_option piece []) }
{
    match piece {
        None => Ok(()),
        Some(w) => list.push(w),
    }
}

/// What of writes falls into so many bits of the target from one on.
pub(crate) fn cut_writes(
    alloc: Global,
    whole: &[Write],
    low: u16,
    width: u8,
) -> Result<Writes, NoMemory>
    requires narrow { All IsNarrow whole.now }
    requires low { low < 65280 }
    ensures { IfOk result (λ list. list ≡ filter_map (cut low width) whole.now) }
{
    let mut list = Items::new(alloc);
    for w in whole {
        let piece = cut(alloc, w, low, width)?;
        push_some(&mut list, piece)?;
    }
    Ok(list)
}

/// Adds writes, each so many bits of the value higher.
pub(crate) fn push_raised(
    alloc: Global,
    list: &mut Writes,
    own: &[Write],
    by: u8,
) -> Result<(), NoMemory>
    requires { All (λ w. by + w.from ≤ 128) own.now }
    ensures { OnOk result (list.new ≡ list.old ++ map (raised by) own.now) }
{
    for w in own {
        let mut higher = copied(alloc, w)?;
        higher.from += by;
        list.push(higher)?;
    }
    Ok(())
}

/// Adds writes that ask one test more, where the index has more numbers than one.
pub(crate) fn push_tested(
    alloc: Global,
    list: &mut Writes,
    own: &[Write],
    numbers: Span,
    test: Test,
) -> Result<(), NoMemory>
    ensures { OnOk result (list.new ≡ list.old ++ map (tested (numbers_in numbers) test) own.now) }
{
    for w in own {
        let mut asked = copied(alloc, w)?;
        if numbers.least != numbers.greatest {
            asked.tests.push(test)?;
        }
        list.push(asked)?;
    }
    Ok(())
}

/// A part of a target of so many bits: its offset with the offset's numbers, its width and its stride.
#[derive(Clone, Copy, Drop)]
pub struct Selection {
    pub offset: ExprId,
    pub numbers: Span,
    pub wide: u8,
    pub width: u8,
    pub stride: u8,
}

// Adds the part at one number of its offset.
fn push_part(
    alloc: Global,
    list: &mut Writes,
    whole: &[Write],
    by: Selection,
    number: u128,
) -> Result<(), NoMemory>
    requires wide { by.wide ≤ 128 }
    requires stride { 0 < by.stride }
    requires narrow { All IsNarrow whole.now }
    requires within { All (IsWithin by.wide) whole.now }
    ensures { OnOk result (list.new ≡ list.old ++ part_at (numbers_in by.numbers) by.offset by.width by.stride whole.now number) }
{
    if number >= by.wide as u128 {
        return Ok(());
    }
    let low = number as u16 * by.stride as u16;
    let pieces = cut_writes(alloc, whole, low, by.width)?;
    let test = Test {
        index: by.offset,
        number,
        and_above: false,
    };
    push_tested(alloc, list, pieces.as_slice(), by.numbers, test)
}

/// The writes of a part, one after another for each number of its offset at which it lies within the target.
pub(crate) fn part_writes(alloc: Global, whole: &[Write], by: Selection) -> Result<Writes, NoMemory>
    requires wide { by.wide ≤ 128 }
    requires some { by.numbers.least ≤ by.numbers.greatest }
    requires narrow { All IsNarrow whole.now }
    requires within { All (IsWithin by.wide) whole.now }
    ensures { IfOk result (λ list. list ≡ parts_at (numbers_in by.numbers) by.offset by.wide by.width by.stride whole.now) }
{
    if by.stride == 0 {
        return cut_writes(alloc, whole, 0, by.width);
    }
    let more = (by.numbers.greatest - by.numbers.least).min(by.wide as u128) as u8;
    let mut list = Items::new(alloc);
    for i in 0..more + 1 {
        push_part(alloc, &mut list, whole, by, by.numbers.least + i as u128)?;
    }
    Ok(list)
}
