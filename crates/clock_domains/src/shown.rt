// The names under which signals are shown.
ghost use Rattle.std.specs.Prelude.{◌≡◌, ◌<◌, ◌++◌, length, IfOk};
ghost use Rattle.clock_domains.specs.Resolved.{domain_prefix, name_among, name_by, shown_name};

use amh_host::{NoMemory, Text};
use design_ir::{Domain, Pool, SigId};
use fragment_walks::copies::copied;
use std::alloc::Global;

/// The name of a domain's signal.
pub fn signal_name(alloc: Global, domain: &Text, end: &str) -> Result<Text, NoMemory>
    ensures { IfOk result (λ t. t ≡ domain_prefix domain.now ++ end.now) }
{
    let mut name = Text::new(alloc);
    if !domain.is("sync") {
        name.push(domain.as_str())?;
        name.push("_")?;
    }
    name.push(end)?;
    Ok(name)
}

// The name that a domain gives a signal, where it is its clock or its reset.
fn name_by(alloc: Global, domain: &Domain, s: SigId) -> Result<Option<Text>, NoMemory>
    ensures { IfOk result (λ name. name ≡ name_by domain.now s.0) }
{
    if domain.clk.0 == s.0 {
        return Ok(Some(signal_name(alloc, &domain.name, "clk")?));
    }
    match domain.rst {
        Some(reset) if reset.0 == s.0 => Ok(Some(signal_name(alloc, &domain.name, "rst")?)),
        _ => Ok(None),
    }
}

/// The name that the first domain with this clock or reset gives it, else another one.
pub fn name_among(
    alloc: Global,
    domains: &[Domain],
    s: SigId,
    other: &str,
) -> Result<Text, NoMemory>
    ensures { IfOk result (λ name. name ≡ name_among domains.now s.0 other.now) }
{
    for domain in domains {
        if let Some(name) = name_by(alloc, domain, s)? {
            return Ok(name);
        }
    }
    copied(alloc, other)
}

/// The name under which a signal is shown: its own, but for the clocks and resets of domains.
pub fn shown_name(
    alloc: Global,
    pool: &Pool,
    domains: &[Domain],
    s: SigId,
) -> Result<Text, NoMemory>
    requires { s.0 < length pool.now.signals }
    ensures { IfOk result (λ name. name ≡ shown_name pool.now domains.now s.0) }
{
    name_among(alloc, domains, s, pool.sig_at(s).name.as_str())
}
