// What a logical line says, in memory.

use amh_host::Place;
use py_tree::{Expr, Name, Param, Stmt, Trailer};

/// A thing, and whether `await` stands in its words.
#[derive(Drop)]
pub struct Noted<T> {
    pub item: T,
    pub awaits: bool,
}

/// The head of a compound statement, at its first word.
#[derive(Drop)]
pub enum Head {
    If(Place, Expr),
    Elif(Place, Expr),
    Else(Place),
    While(Place, Expr),
    For {
        place: Place,
        targets: Expr,
        source: Expr,
    },
    With {
        place: Place,
        context: Expr,
        target: Option<Expr>,
    },
    Def {
        place: Place,
        name: Name,
        is_async: bool,
        params: Vec<Param>,
        result: Option<Expr>,
    },
    Class {
        place: Place,
        name: Name,
        arguments: Option<Trailer>,
    },
}

/// A simple statement, or a head with the simple statement behind its colon where there is one.
#[derive(Drop)]
pub enum LineForm {
    Simple(Noted<Stmt>),
    Headed(Noted<Head>, Option<Noted<Stmt>>),
}
