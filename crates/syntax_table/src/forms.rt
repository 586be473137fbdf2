// What a line is, as text.

use crate::steps::head_of;
use crate::tree::operator_said;
use py_grammar::Word;
use py_parser::{Head, LineForm, Noted, read_line};
use py_tree::{Operator, Stmt, StmtKind};
use std::alloc::Global;
use table_text::{Line, Stop};

/// In how many brackets an expression may stand.
const MOST_BRACKETS: u32 = 64;

/// What a line is, or `nothing` where the grammar has no such line.
pub fn say_form(alloc: Global, said: &mut Line, words: &[Word]) {
    match read_line(alloc, words, MOST_BRACKETS) {
        Ok(LineForm::Simple(stmt)) => say_noted(said, &stmt),
        Ok(LineForm::Headed(head, behind)) => say_headed(said, &head, behind.as_ref()),
        Err(stop) => say_unread(said, stop),
    }
}

/// Why nothing was read.
pub fn say_unread(said: &mut Line, stop: py_grammar::Stop) {
    match stop {
        py_grammar::Stop::Unread => said.word("nothing"),
        py_grammar::Stop::NoMemory => said.give_up(Stop::NoMemory),
    }
}

fn say_headed(said: &mut Line, head: &Noted<Head>, behind: Option<&Noted<Stmt>>) {
    say_head(said, &head.item);
    say_awaits(said, head.awaits);
    if let Some(stmt) = behind {
        said.word("; ");
        say_noted(said, stmt);
    }
}

fn say_noted(said: &mut Line, stmt: &Noted<Stmt>) {
    say_stmt(said, &stmt.item.kind);
    say_awaits(said, stmt.awaits);
}

fn say_awaits(said: &mut Line, awaits: bool) {
    if awaits {
        said.word(", awaiting");
    }
}

fn say_stmt(said: &mut Line, kind: &StmtKind) {
    match kind {
        StmtKind::ImportAll(path) => say_count(said, "import all of ", path.len()),
        _ => {
            said.word(head_of(kind));
            say_rest(said, kind);
        }
    }
}

// What is said of a statement behind its head.
fn say_rest(said: &mut Line, kind: &StmtKind) {
    match kind {
        StmtKind::Return(Some(_)) => said.word(" a value"),
        StmtKind::Assert(_, Some(_)) => said.word(" with a message"),
        StmtKind::Annotate { value: Some(_), .. } => said.word(" with a value"),
        StmtKind::Import(path, names) => {
            say_count(said, " ", names.len());
            say_count(said, " of ", path.len());
        }
        StmtKind::Assign(targets, _) => say_count(said, " to ", targets.len()),
        StmtKind::Augment(_, operator, _) => {
            said.word(" by ");
            said.word(operator_name(*operator));
        }
        _ => {}
    }
}

fn say_count(said: &mut Line, before: &str, count: usize) {
    said.word(before);
    said.number(count as u128);
}

// The name of an operator that may stand before the `=` of an augmented assignment.
fn operator_name(operator: Operator) -> &'static str {
    match operator {
        Operator::Mul => "Mul",
        Operator::FloorDiv => "FloorDiv",
        Operator::Mod => "Mod",
        Operator::Add => "Add",
        Operator::Sub => "Sub",
        Operator::ShiftLeft => "ShiftLeft",
        Operator::ShiftRight => "ShiftRight",
        Operator::BitAnd => "BitAnd",
        Operator::BitXor => "BitXor",
        Operator::BitOr => "BitOr",
        _ => operator_said(operator),
    }
}

fn say_head(said: &mut Line, head: &Head) {
    said.word(head_word(head));
    if let Head::Def { params, .. } = head {
        said.number(params.len() as u128);
    }
}

fn head_word(head: &Head) -> &'static str {
    match head {
        Head::If(_, _) => "if",
        Head::Elif(_, _) => "elif",
        Head::Else(_) => "else",
        Head::While(_, _) => "while",
        Head::For { .. } => "for",
        Head::With { target: None, .. } => "with",
        Head::With { .. } => "with a target",
        Head::Def { is_async: true, .. } => "async def with ",
        Head::Def { .. } => "def with ",
        Head::Class {
            arguments: None,
            ..
        } => "class",
        Head::Class { .. } => "class with brackets",
    }
}
