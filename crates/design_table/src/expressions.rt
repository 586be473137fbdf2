// Expressions of the table, each operator before its operands.

use crate::form;
use crate::numbers::{shape, small};
use crate::signals::Signals;
use amh_host::Items;
use design_ir::{ExprId, Ids};
use std::alloc::Global;
use table_text::{Stop, integer, natural};

/// The expressions that words stand for, the first of them last: the words are read from the last to the first, so that
/// the operands of an operator are there when it is read.
pub fn expressions(
    alloc: Global,
    signals: &mut Signals,
    words: &[&str],
) -> Result<Vec<ExprId>, Stop> {
    let mut stack = Vec::new(alloc);
    for k in 0..words.len() {
        let e = read_word(alloc, signals, &mut stack, words[words.len() - 1 - k])?;
        stack.push(e)?;
    }
    Ok(stack)
}

/// The one expression that words stand for.
pub fn expression(alloc: Global, signals: &mut Signals, words: &[&str]) -> Result<ExprId, Stop> {
    let stack = expressions(alloc, signals, words)?;
    match stack.as_slice() {
        [only] => Ok(*only),
        _ => Err(Stop::NoCase),
    }
}

// The next operand.
fn take(stack: &mut Vec<ExprId>) -> Result<ExprId, Stop> {
    match stack.pop() {
        Some(e) => Ok(e),
        None => Err(Stop::NoCase),
    }
}

// The next operands, the first of them first.
fn take_all(alloc: Global, stack: &mut Vec<ExprId>, count: u8) -> Result<Ids, Stop> {
    let mut items = Items::new(alloc);
    for _ in 0..count {
        items.push(take(stack)?)?;
    }
    Ok(items)
}

// The expression of a word and its operands.
fn read_word(
    alloc: Global,
    signals: &mut Signals,
    stack: &mut Vec<ExprId>,
    word: &str,
) -> Result<ExprId, Stop> {
    if let Some((head, more)) = word.split_once(':') {
        return read_numbered(alloc, signals, stack, head, more);
    }
    if let Some(op) = form::unary_op(word) {
        let a = take(stack)?;
        return form::unary(&mut signals.sheet, op, a);
    }
    if let Some(op) = form::binary_op(word) {
        let a = take(stack)?;
        let b = take(stack)?;
        return form::binary(&mut signals.sheet, op, a, b);
    }
    read_other(signals, stack, word)
}

// The expression of a word that names no operator.
fn read_other(signals: &mut Signals, stack: &mut Vec<ExprId>, word: &str) -> Result<ExprId, Stop> {
    match word {
        "mux" => {
            let s = take(stack)?;
            let a = take(stack)?;
            let b = take(stack)?;
            form::mux(&mut signals.sheet, s, a, b)
        }
        "signed" => {
            let a = take(stack)?;
            form::cast(&mut signals.sheet, a, true)
        }
        "unsigned" => {
            let a = take(stack)?;
            form::cast(&mut signals.sheet, a, false)
        }
        _ => signals.of_name(word),
    }
}

// The expression of a word with numbers behind it.
fn read_numbered(
    alloc: Global,
    signals: &mut Signals,
    stack: &mut Vec<ExprId>,
    head: &str,
    more: &str,
) -> Result<ExprId, Stop> {
    match head {
        "cat" => {
            let items = take_all(alloc, stack, small(more)?)?;
            form::joined(&mut signals.sheet, items)
        }
        "pick" => {
            let index = take(stack)?;
            let items = take_all(alloc, stack, small(more)?)?;
            form::picked(&mut signals.sheet, index, items)
        }
        "slice" | "part" | "match" => read_paired(alloc, signals, stack, head, more),
        _ => read_constant(signals, head, more),
    }
}

// The expression of a word with two numbers behind it.
fn read_paired(
    alloc: Global,
    signals: &mut Signals,
    stack: &mut Vec<ExprId>,
    head: &str,
    more: &str,
) -> Result<ExprId, Stop> {
    let Some((first, second)) = more.split_once(':') else {
        return Err(Stop::NoCase);
    };
    let a = take(stack)?;
    match head {
        "slice" => form::slice(&mut signals.sheet, a, small(first)?, small(second)?),
        "part" => {
            let offset = take(stack)?;
            form::part(&mut signals.sheet, a, offset, small(first)?, small(second)?)
        }
        _ => form::matches(
            alloc,
            &mut signals.sheet,
            a,
            natural(first)?,
            natural(second)?,
        ),
    }
}

// A number, and its width with `u` or `s` behind it.
fn read_constant(signals: &mut Signals, number: &str, more: &str) -> Result<ExprId, Stop> {
    let (width, sign) = if let Some(width) = more.strip_suffix("u") {
        (width, "u")
    } else if let Some(width) = more.strip_suffix("s") {
        (width, "s")
    } else {
        return Err(Stop::NoCase);
    };
    form::constant(&mut signals.sheet, integer(number)?, shape(width, sign)?)
}
