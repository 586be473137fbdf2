// The tree of an expression, as text.

use crate::nodes::{close, open, open_at, say_name, say_number, say_quoted, say_word};
use py_tree::{
    Amount, Argument, Comprehension, Constant, Decimal, Expr, ExprKind, Link, Operator, Pair,
    Piece, Sign, Trailer,
};
use table_text::{Line, Stop};

/// The tree of an expression.
#[cycle(expr)]
pub fn say_expr(said: &mut Line, expr: &Expr) {
    open_at(said, head_of(&expr.kind), expr.place);
    say_parts(said, &expr.kind);
    close(said);
}

/// The tree of an expression, where there is one.
pub fn say_perhaps(said: &mut Line, expr: Option<&Expr>) {
    match expr {
        Some(expr) => say_expr(said, expr),
        None => {}
    }
}

/// The trees of expressions, one after the other.
#[cycle(expr)]
pub fn say_exprs(said: &mut Line, exprs: &[Expr]) {
    for expr in exprs {
        say_expr(said, expr);
    }
}

/// What kind of expression it is, in a word.
pub fn head_of(kind: &ExprKind) -> &'static str {
    match kind {
        ExprKind::Name(_) => "name",
        ExprKind::Number(_) => "number",
        ExprKind::Decimal(_) => "decimal",
        ExprKind::Quotient(_, _) => "quotient",
        ExprKind::Str(_) => "string",
        ExprKind::Format(_) => "format",
        ExprKind::Constant(_) => "constant",
        ExprKind::Tuple(_) => "tuple",
        ExprKind::List(_) | ExprKind::ListOf(_, _) => "list",
        ExprKind::Dict(_) | ExprKind::DictOf(_, _) => "dict",
        ExprKind::Trailed(_, _) => "trailed",
        ExprKind::Await(_) => "await",
        ExprKind::Power(_, _) => "power",
        ExprKind::Unary(_, _) => "unary",
        ExprKind::Not(_) => "not",
        ExprKind::Binary(_, _) => "binary",
        ExprKind::Compare(_, _) => "comparison",
        ExprKind::Boolean(_, _) => "boolean",
        ExprKind::Choice { .. } => "choice",
    }
}

// What stands in a node behind its place.
#[cycle(expr)]
fn say_parts(said: &mut Line, kind: &ExprKind) {
    match kind {
        ExprKind::Tuple(items) | ExprKind::List(items) => say_exprs(said, items.as_slice()),
        ExprKind::Dict(pairs) => say_pairs(said, pairs.as_slice()),
        ExprKind::ListOf(item, each) => {
            say_expr(said, item);
            say_each(said, each);
        }
        ExprKind::DictOf(pair, each) => {
            say_pair(said, pair);
            say_each(said, each);
        }
        ExprKind::Trailed(first, behind) => {
            say_expr(said, first);
            say_trailers(said, behind.as_slice());
        }
        ExprKind::Await(operand) | ExprKind::Not(operand) => say_expr(said, operand),
        ExprKind::Power(base, exponent) => {
            say_expr(said, base);
            say_expr(said, exponent);
        }
        ExprKind::Unary(sign, operand) => {
            say_word(said, sign_said(*sign));
            say_expr(said, operand);
        }
        ExprKind::Binary(first, links)
        | ExprKind::Compare(first, links)
        | ExprKind::Boolean(first, links) => {
            say_expr(said, first);
            say_links(said, links.as_slice());
        }
        ExprKind::Choice {
            chosen,
            test,
            other,
        } => {
            say_expr(said, chosen);
            say_expr(said, test);
            say_expr(said, other);
        }
        _ => say_leaf(said, kind),
    }
}

// What stands in a node without nodes in it.
fn say_leaf(said: &mut Line, kind: &ExprKind) {
    match kind {
        ExprKind::Name(name) => say_name(said, name.as_str()),
        ExprKind::Number(n) => say_number(said, *n),
        ExprKind::Decimal(d) => say_decimal(said, *d),
        ExprKind::Quotient(n, by) => say_quotient(said, *n, *by),
        ExprKind::Str(text) => say_quoted(said, text.as_str()),
        ExprKind::Format(pieces) => say_pieces(said, pieces.as_slice()),
        ExprKind::Constant(constant) => say_word(said, constant_said(*constant)),
        _ => {}
    }
}

/// A decimal number, as its digits and its exponent.
pub fn say_decimal(said: &mut Line, d: Decimal) {
    if write!(said.text, " {}e{}", d.digits, d.exponent).is_err() {
        said.give_up(Stop::NoMemory);
    }
}

fn say_quotient(said: &mut Line, n: u128, by: Amount) {
    say_number(said, n);
    match by {
        Amount::Number(n) => say_number(said, n),
        Amount::Decimal(d) => say_decimal(said, d),
    }
}

fn say_pieces(said: &mut Line, pieces: &[Piece]) {
    for piece in pieces {
        match piece {
            Piece::Text(text) => say_quoted(said, text.as_str()),
            Piece::Hole(name) => say_name(said, name.as_str()),
        }
    }
}

fn constant_said(constant: Constant) -> &'static str {
    match constant {
        Constant::Nothing => "None",
        Constant::True => "True",
        Constant::False => "False",
    }
}

fn sign_said(sign: Sign) -> &'static str {
    match sign {
        Sign::Minus => "-",
        Sign::Plus => "+",
        Sign::Invert => "~",
    }
}

#[cycle(expr)]
fn say_links(said: &mut Line, links: &[Link]) {
    for link in links {
        open(said, operator_said(link.operator));
        say_expr(said, &link.operand);
        close(said);
    }
}

/// An operator, as one word.
pub fn operator_said(operator: Operator) -> &'static str {
    match operator {
        Operator::Mul => "*",
        Operator::FloorDiv => "//",
        Operator::Mod => "%",
        Operator::Add => "+",
        Operator::Sub => "-",
        Operator::ShiftLeft => "<<",
        Operator::ShiftRight => ">>",
        Operator::BitAnd => "&",
        Operator::BitXor => "^",
        Operator::BitOr => "|",
        Operator::Less => "<",
        Operator::LessEqual => "<=",
        Operator::Greater => ">",
        Operator::GreaterEqual => ">=",
        Operator::Equal => "==",
        Operator::NotEqual => "!=",
        Operator::In => "in",
        Operator::NotIn => "not-in",
        Operator::Is => "is",
        Operator::IsNot => "is-not",
        Operator::And => "and",
        Operator::Or => "or",
    }
}

#[cycle(expr)]
fn say_pair(said: &mut Line, pair: &Pair) {
    open(said, "pair");
    say_expr(said, &pair.key);
    say_expr(said, &pair.value);
    close(said);
}

#[cycle(expr)]
fn say_pairs(said: &mut Line, pairs: &[Pair]) {
    for pair in pairs {
        say_pair(said, pair);
    }
}

#[cycle(expr)]
fn say_each(said: &mut Line, each: &Comprehension) {
    open(said, "each");
    say_expr(said, &each.targets);
    say_expr(said, &each.source);
    if let Some(condition) = &each.condition {
        say_expr(said, condition);
    }
    close(said);
}

#[cycle(expr)]
fn say_trailers(said: &mut Line, trailers: &[Trailer]) {
    for trailer in trailers {
        say_trailer(said, trailer);
    }
}

/// What trails a primary.
#[cycle(expr)]
pub fn say_trailer(said: &mut Line, trailer: &Trailer) {
    open(said, trailer_head(trailer));
    match trailer {
        Trailer::Attribute(name) => say_name(said, name.as_str()),
        Trailer::Call(arguments) => say_arguments(said, arguments.as_slice()),
        Trailer::CallOf(item, each) => {
            say_expr(said, item);
            say_each(said, each);
        }
        Trailer::Index(index) => say_expr(said, index),
        Trailer::Slice { start, stop, step } => {
            say_bound(said, start);
            say_bound(said, stop);
            say_bound(said, step);
        }
    }
    close(said);
}

fn trailer_head(trailer: &Trailer) -> &'static str {
    match trailer {
        Trailer::Attribute(_) => "attribute",
        Trailer::Call(_) | Trailer::CallOf(_, _) => "call",
        Trailer::Index(_) => "index",
        Trailer::Slice { .. } => "slice",
    }
}

// A part of a slice: `-` where it is absent.
#[cycle(expr)]
fn say_bound(said: &mut Line, bound: &Option<Expr>) {
    match bound {
        Some(expr) => say_expr(said, expr),
        None => say_word(said, "-"),
    }
}

#[cycle(expr)]
fn say_arguments(said: &mut Line, arguments: &[Argument]) {
    for argument in arguments {
        say_argument(said, argument);
    }
}

#[cycle(expr)]
fn say_argument(said: &mut Line, argument: &Argument) {
    match argument {
        Argument::Positional(value) => say_expr(said, value),
        Argument::Starred(value) => {
            open(said, "starred");
            say_expr(said, value);
            close(said);
        }
        Argument::Keyword(name, value) => {
            open(said, "keyword");
            say_name(said, name.as_str());
            say_expr(said, value);
            close(said);
        }
    }
}
