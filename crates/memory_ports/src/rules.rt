// What is asked of a port before it is made. A memory has 64 ports at most, so they are walked over.
ghost use Rattle.std.specs.Prelude.{◌≡◌, not, ◌||◌, option_copied, Some, codes};
ghost use Rattle.lists.specs.Texts.{text_eq};
ghost use Rattle.std.specs.List.{list_any};
ghost use Rattle.memory_ports.specs.Calls.{is_full, is_elsewhere, is_granule, is_transparent};

use crate::copies::is_text;
use design_ir::{MemWrite, Memory};

/// Whether the memory has as many ports as there may be.
pub fn is_full(memory: &Memory) -> bool
    ensures { result ≡ is_full memory.now }
{
    memory.writes.len() >= 64 || memory.reads.len() >= 64 - memory.writes.len()
}

/// Whether a write port may not have this domain.
pub fn is_bad_domain(memory: &Memory, domain: &str) -> bool
    ensures { result ≡ text_eq domain.now (codes "comb") || is_elsewhere memory.now.writes domain.now }
{
    is_text(domain, "comb") || is_elsewhere(memory.writes.as_slice(), domain)
}

// Whether one of these ports has another domain.
fn is_elsewhere(writes: &[MemWrite], domain: &str) -> bool
    ensures { result ≡ is_elsewhere writes.now domain.now }
{
    writes.iter().any(|w| !w.domain.is(domain))
}

/// Whether a granule may not have so many bits.
pub fn is_bad_granularity(memory: &Memory, granularity: Option<u8>) -> bool
    ensures { result ≡ not (is_granule memory.now.shape.width granularity) }
{
    !is_granule(memory.shape.width, granularity)
}

// Whether a granule of so many bits has bits and divides a row.
fn is_granule(width: u8, granularity: Option<u8>) -> bool
    ensures { result ≡ is_granule width granularity }
{
    match granularity {
        None => true,
        Some(g) => g > 0 && width % g == 0,
    }
}

/// Whether a read port cannot be transparent for one of these.
pub fn is_bad_transparent(memory: &Memory, domain: Option<&str>, transparent: &[u32]) -> bool
    ensures { result ≡ list_any (λ k. not (is_transparent memory.now.writes (option_copied domain.entry) k)) transparent.now }
{
    let writes = memory.writes.as_slice();
    transparent
        .iter()
        .any(|k| !is_transparent(writes, domain, *k))
}

// Whether the write port of this number is there, with this domain, which a comb port has not.
fn is_transparent(writes: &[MemWrite], domain: Option<&str>, number: u32) -> bool
    ensures { result ≡ is_transparent writes.now (option_copied domain.entry) number }
{
    match domain {
        None => false,
        Some(domain) => is_in(writes, domain, number),
    }
}

// Whether the write port of this number is there, with this domain.
fn is_in(writes: &[MemWrite], domain: &str, number: u32) -> bool
    ensures { result ≡ is_transparent writes.now (Some domain.now) number }
{
    match writes.get(number as usize) {
        None => false,
        Some(w) => w.domain.is(domain),
    }
}
