// Why a program gives no design.

use amh_host::{Kind, Place};

/// Why a program gives no design.
#[derive(Clone, Copy, PartialEq, Eq, Drop)]
pub enum ElabStop {
    /// It is refused: the kind and the place.
    Refused(Kind, Place),
    /// The cost reaches what is left.
    Spent(Place),
    /// No memory was left.
    NoMemory,
}
