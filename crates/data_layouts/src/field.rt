// Fields, and what they are made of.

use crate::twins::Named;
use amh_host::{Items, Text};
use shape_rules::Shape;

/// A field: the bits from bit `low` on, as many as the shape has, read as a number of it.
#[derive(Drop)]
pub struct Field {
    pub name: Text,
    pub low: u8,
    pub shape: Shape,
}

/// Fields, in order.
pub type Fields = Items<Field>;

/// A name and a shape, of which a field is made.
#[derive(Drop)]
pub struct Member {
    pub name: Text,
    pub shape: Shape,
}

/// Members, in order.
pub type Members = Items<Member>;

impl Named for Member {
    ghost name_of = { λ m. m.name };

    fn name(&self) -> &str {
        self.name.as_str()
    }
}
