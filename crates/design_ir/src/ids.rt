// The numbers by which a pool and a design name what they hold.

use amh_host::Items;

/// The number of a signal in its pool, in order of making.
#[derive(Clone, Copy, PartialEq, Eq, Drop)]
pub struct SigId(pub u32);

/// The number of an expression in its pool, in order of making.
#[derive(Clone, Copy, PartialEq, Eq, Drop)]
pub struct ExprId(pub u32);

/// The number of a domain in its design.
#[derive(Clone, Copy, PartialEq, Eq, Drop)]
pub struct DomainId(pub u16);

/// The number of a memory in its design.
#[derive(Clone, Copy, PartialEq, Eq, Drop)]
pub struct MemId(pub u16);

/// A list of expressions by number.
pub type Ids = Items<ExprId>;

/// The domains whose clocks an event toggles, in domain order.
pub type Clocks = Items<DomainId>;
