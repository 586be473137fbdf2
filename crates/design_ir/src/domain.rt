// Clock domains.

use crate::ids::SigId;
use amh_host::{Items, Place, Text};

/// A clock domain: its clock, and its reset where it has one.
///
/// Its registers sample at the rising edge of the clock, or at the falling one where it is `falling`. Its reset acts at
/// that edge alone, or as long as it is 1 where it is an `async_reset`, which is an input then.
#[derive(Drop)]
pub struct Domain {
    pub name: Text,
    pub clk: SigId,
    pub rst: Option<SigId>,
    pub falling: bool,
    pub async_reset: bool,
}

/// A list of domains, in domain order.
pub type Domains = Items<Domain>;

/// A domain that a fragment defines, and where.
#[derive(Drop)]
pub struct DomainDef {
    pub domain: Domain,
    pub place: Place,
}

/// The domains that a fragment defines, in order.
pub type DomainDefs = Items<DomainDef>;
