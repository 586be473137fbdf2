// What readers make: parts of a tree, with how deep their brackets nest.

use amh_host::Place;
use py_tree::{Comprehension, Expr};

/// An expression, the place where its text begins, and how deep its brackets nest.
#[derive(Drop)]
pub struct Phrase {
    pub place: Place,
    pub expr: Expr,
    pub depth: u32,
}

/// A thing, and how deep its brackets nest.
#[derive(Drop)]
pub struct Deep<T> {
    pub item: T,
    pub depth: u32,
}

/// What follows a first thing: others with a comma before each, and perhaps a comma at the end.
#[derive(Drop)]
pub struct Listed<T> {
    pub items: Vec<T>,
    pub depth: u32,
    pub comma: Option<Place>,
}

/// What follows a first thing in brackets.
#[derive(Drop)]
pub enum Rest<T> {
    Over(Deep<Comprehension>),
    More(Listed<T>),
}
