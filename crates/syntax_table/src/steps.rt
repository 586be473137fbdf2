// The trees of statements, as text.

use crate::nodes::{close, open, open_at, say_name, say_word};
use crate::tree::{operator_said, say_expr, say_exprs, say_perhaps, say_trailer};
use py_tree::{Block, Branch, Expr, Function, Imported, Name, Param, Program, Stmt, StmtKind};
use table_text::Line;

/// The tree of a program.
pub fn say_program(said: &mut Line, program: &Program) {
    said.word("(program");
    say_stmts(said, &program.body);
    close(said);
}

#[cycle(stmt)]
fn say_stmts(said: &mut Line, block: &Block) {
    for stmt in block.stmts.as_slice() {
        say_stmt(said, stmt);
    }
}

#[cycle(stmt)]
fn say_block(said: &mut Line, head: &str, block: &Block) {
    open(said, head);
    say_stmts(said, block);
    close(said);
}

#[cycle(stmt)]
fn say_stmt(said: &mut Line, stmt: &Stmt) {
    open_at(said, head_of(&stmt.kind), stmt.place);
    say_parts(said, &stmt.kind);
    close(said);
}

/// What kind of statement it is, in a word.
pub fn head_of(kind: &StmtKind) -> &'static str {
    match kind {
        StmtKind::Pass => "pass",
        StmtKind::Break => "break",
        StmtKind::Continue => "continue",
        StmtKind::Return(_) => "return",
        StmtKind::Assert(_, _) => "assert",
        StmtKind::Raise(_) => "raise",
        StmtKind::ImportAll(_) => "import-all",
        StmtKind::Import(_, _) => "import",
        StmtKind::Assign(_, _) => "assign",
        StmtKind::Annotate { .. } => "annotate",
        StmtKind::Augment(_, _, _) => "augment",
        StmtKind::Evaluate(_) => "evaluate",
        StmtKind::If(_, _) => "if",
        StmtKind::While(_, _) => "while",
        StmtKind::For { .. } => "for",
        StmtKind::With { .. } => "with",
        StmtKind::Def(_) => "def",
        StmtKind::Class { .. } => "class",
    }
}

// What stands behind the place of a statement without a block.
fn say_simple(said: &mut Line, kind: &StmtKind) {
    match kind {
        StmtKind::Return(value) => say_perhaps(said, value.as_ref()),
        StmtKind::Assert(test, message) => {
            say_expr(said, test);
            say_perhaps(said, message.as_ref());
        }
        StmtKind::Raise(value) | StmtKind::Evaluate(value) => say_expr(said, value),
        StmtKind::ImportAll(path) => say_path(said, path.as_slice()),
        StmtKind::Import(path, names) => {
            say_path(said, path.as_slice());
            say_imported(said, names.as_slice());
        }
        StmtKind::Assign(targets, value) => {
            open(said, "targets");
            say_exprs(said, targets.as_slice());
            close(said);
            say_expr(said, value);
        }
        StmtKind::Annotate {
            target,
            annotation,
            value,
        } => {
            say_expr(said, target);
            say_expr(said, annotation);
            say_perhaps(said, value.as_ref());
        }
        StmtKind::Augment(target, operator, value) => {
            say_word(said, operator_said(*operator));
            say_expr(said, target);
            say_expr(said, value);
        }
        _ => {}
    }
}

// The names of a path.
fn say_path(said: &mut Line, path: &[Name]) {
    open(said, "path");
    for name in path {
        say_name(said, name.as_str());
    }
    close(said);
}

fn say_imported(said: &mut Line, names: &[Imported]) {
    for imported in names {
        open_at(said, "imported", imported.place);
        say_name(said, imported.name.as_str());
        if let Some(bound) = &imported.bound {
            say_name(said, bound.as_str());
        }
        close(said);
    }
}

// What stands behind the place of a statement.
#[cycle(stmt)]
fn say_parts(said: &mut Line, kind: &StmtKind) {
    match kind {
        StmtKind::If(branches, other) => {
            say_branches(said, branches.as_slice());
            say_else(said, other);
        }
        StmtKind::While(test, body) => {
            say_expr(said, test);
            say_block(said, "block", body);
        }
        StmtKind::For {
            targets,
            source,
            body,
        } => {
            say_expr(said, targets);
            say_expr(said, source);
            say_block(said, "block", body);
        }
        StmtKind::With {
            context,
            target,
            body,
        } => {
            say_expr(said, context);
            say_labelled(said, "as", target.as_ref());
            say_block(said, "block", body);
        }
        StmtKind::Def(function) => say_function(said, function),
        StmtKind::Class {
            name,
            arguments,
            body,
        } => {
            say_name(said, name.as_str());
            if let Some(arguments) = arguments {
                say_trailer(said, arguments);
            }
            say_block(said, "block", body);
        }
        _ => say_simple(said, kind),
    }
}

#[cycle(stmt)]
fn say_branches(said: &mut Line, branches: &[Branch]) {
    for branch in branches {
        open(said, "branch");
        say_expr(said, &branch.test);
        say_block(said, "block", &branch.body);
        close(said);
    }
}

#[cycle(stmt)]
fn say_else(said: &mut Line, other: &Option<Block>) {
    match other {
        Some(block) => say_block(said, "else", block),
        None => {}
    }
}

fn say_labelled(said: &mut Line, label: &str, expr: Option<&Expr>) {
    if let Some(expr) = expr {
        open(said, label);
        say_expr(said, expr);
        close(said);
    }
}

#[cycle(stmt)]
fn say_function(said: &mut Line, function: &Function) {
    let head = if function.is_async {
        "async-function"
    } else {
        "function"
    };
    open_at(said, head, function.place);
    say_name(said, function.name.as_str());
    say_params(said, function.params.as_slice());
    say_labelled(said, "result", function.result.as_ref());
    say_block(said, "block", &function.body);
    close(said);
}

fn say_params(said: &mut Line, params: &[Param]) {
    open(said, "params");
    for param in params {
        say_param(said, param);
    }
    close(said);
}

fn say_param(said: &mut Line, param: &Param) {
    match param {
        Param::Named {
            place,
            name,
            annotation,
            default,
        } => {
            open_at(said, "param", *place);
            say_name(said, name.as_str());
            say_labelled(said, "annotation", annotation.as_ref());
            say_labelled(said, "default", default.as_ref());
        }
        Param::Star(place) => open_at(said, "star", *place),
    }
    close(said);
}
