// The clock domains of all modules, with their signals.
ghost use Rattle.std.specs.Prelude.{◌≡◌, ◌≤◌, false, position, map, length, option_map, IfOk, IfErr, OnOk};
ghost use Rattle.lists.specs.Texts.{text_eq};
ghost use Rattle.design_ir.specs.PoolRules.{signal_refusal};
ghost use Rattle.clock_domains.specs.Resolved.{defined_domain, domain_at, domain_for, domain_number, each_once, file_start, is_past_limit, limit_where, process_in};
ghost use Rattle.clock_domains.specs.Made.{AreMade, IsMade, IsNameMade, IsNameOwed, is_made, is_tight, is_tight_for, limit, pool_for, stop_of, with_domain};
ghost use Rattle.clock_domains.specs.Stops.{IsOwed};

use crate::shown::signal_name;
use crate::stop::ResolveStop;
use amh_bits::Int;
use amh_host::{Items, NoMemory, Place, Text};
use design_ir::{
    DesignProcess, DesignProcesses, Domain, DomainDef, DomainId, Domains, Exprs, Pool, PoolStop,
    Process, Side, Sig, SigId,
};
use fragment_walks::copies::{copied, copied_domain};
use shape_rules::Shape;
use std::alloc::Global;

/// The place of a refusal that is told at no statement.
pub fn file_start() -> Place
    ensures { result ≡ file_start }
{
    Place { line: 1, col: 1 }
}

// A pool refuses a signal where there would be too many, or too many bits.
fn stop_of(stop: PoolStop) -> ResolveStop
    ensures { result ≡ stop_of stop }
{
    match stop {
        PoolStop::NoMemory => ResolveStop::NoMemory,
        PoolStop::Width | PoolStop::BadOperand | PoolStop::Limit => ResolveStop::Limit(
            file_start(),
        ),
    }
}

// One signal of one bit more.
#[tactic(auto, using(crate::proofs::MadeDomains::signal_owed))]
fn bit_made(pool: &mut Pool, name: Text) -> Result<SigId, ResolveStop>
    ensures made { IfOk result (λ s. IsMade name pool.old s.0 pool.new) }
    ensures refused { IfErr result (IsOwed (option_map limit (signal_refusal pool.old 1))) }
{
    let signal = Sig {
        name,
        shape: Shape {
            width: 1,
            signed: false,
        },
        init: Int::of_u128(0),
        reset_less: false,
    };
    match pool.sig(signal) {
        Ok(s) => Ok(s),
        Err(stop) => Err(stop_of(stop)),
    }
}

// A domain that is made, with its clock and its reset.
fn domain_made(alloc: Global, pool: &mut Pool, name: &Text) -> Result<Domain, ResolveStop>
    ensures room { OnOk result (is_tight pool.old ≡ false) }
    ensures pool { OnOk result (pool.new ≡ with_domain pool.old name.now) }
    ensures domain { IfOk result (λ d. d ≡ domain_at (length pool.old.signals) name.now) }
    ensures refused { IfErr result (IsOwed (limit_where (is_tight pool.old))) }
{
    let clock = bit_made(pool, signal_name(alloc, name, "clk")?)?;
    let reset = bit_made(pool, signal_name(alloc, name, "rst")?)?;
    Ok(Domain {
        name: copied(alloc, name.as_str())?,
        clk: clock,
        rst: Some(reset),
        falling: false,
        async_reset: false,
    })
}

/// The number of the domain with a name, where one has it.
pub fn position_named(domains: &[Domain], name: &str) -> Option<usize>
    ensures { result ≡ position (λ d. text_eq d.name name.now) domains.now }
{
    domains.iter().position(|d| d.name.is(name))
}

// The number of the first definition with a name, where one has it.
fn definition_named(definitions: &[DomainDef], name: &str) -> Option<usize>
    ensures { result ≡ position (λ d. text_eq d.domain.name name.now) definitions.now }
{
    definitions.iter().position(|d| d.domain.name.is(name))
}

// The domain of a name: the one that is defined, or one that is made.
fn domain_of(
    alloc: Global,
    pool: &mut Pool,
    definitions: &[DomainDef],
    name: &Text,
) -> Result<Domain, ResolveStop>
    ensures room { OnOk result (is_tight_for (defined_domain definitions.now name.now) pool.old ≡ false) }
    ensures pool { OnOk result (pool.new ≡ pool_for (defined_domain definitions.now name.now) pool.old name.now) }
    ensures domain { IfOk result (λ d. d ≡ domain_for (defined_domain definitions.now name.now) (length pool.old.signals) name.now) }
    ensures refused { IfErr result (IsOwed (limit_where (is_tight_for (defined_domain definitions.now name.now) pool.old))) }
{
    let _ = pool.count();
    match definition_named(definitions, name.as_str()) {
        Some(number) => Ok(copied_domain(alloc, &definitions[number].domain)?),
        None => domain_made(alloc, pool, name),
    }
}

// The domain of a name behind the others, where none of them has its name.
fn add_domain(
    alloc: Global,
    pool: &mut Pool,
    domains: &mut Domains,
    definitions: &[DomainDef],
    name: &Text,
) -> Result<(), ResolveStop>
    ensures made { OnOk result (IsNameMade (is_made domains.old name.now) (defined_domain definitions.now name.now) name.now pool.old domains.old pool.new domains.new) }
    ensures refused { IfErr result (IsNameOwed (is_made domains.old name.now) (defined_domain definitions.now name.now) pool.old domains.old) }
{
    let _ = pool.count();
    if position_named(domains.as_slice(), name.as_str()).is_some() {
        return Ok(());
    }
    if domains.len() >= 64 {
        return Err(ResolveStop::Limit(file_start()));
    }
    domains.push(domain_of(alloc, pool, definitions, name)?)?;
    Ok(())
}

/// A domain for each name, in the order of the names.
pub fn domains_made(
    alloc: Global,
    pool: &mut Pool,
    definitions: &[DomainDef],
    names: &[Text],
) -> Result<Domains, ResolveStop>
    ensures made { IfOk result (AreMade pool.old definitions.now names.now pool.new) }
    ensures refused { IfErr result (IsOwed (limit_where (is_past_limit pool.old definitions.now (each_once names.now)))) }
{
    let _ = pool.count();
    let mut domains = Items::new(alloc);
    for name in names {
        add_domain(alloc, pool, &mut domains, definitions, name)?;
    }
    Ok(domains)
}

// The number of a side's domain.
fn domain_number(domains: &[Domain], side: &Side) -> Option<DomainId>
    requires { length domains.now ≤ 64 }
    ensures { result ≡ domain_number domains.now side.now }
{
    match side {
        Side::Comb => None,
        Side::Clocked(name) => match position_named(domains, name.as_str()) {
            Some(number) => Some(DomainId(number as u16)),
            None => None,
        },
    }
}

/// Processes with the numbers of their domains.
pub fn processes_made(
    alloc: Global,
    domains: &[Domain],
    processes: Vec<Process>,
) -> Result<DesignProcesses, NoMemory>
    requires { length domains.now ≤ 64 }
    ensures { IfOk result (λ ps. ps ≡ map (process_in domains.now) processes.items) }
{
    let mut made = Items::new(alloc);
    for process in processes {
        let side = process.side;
        let body = process.body;
        let domain = domain_number(domains, &side);
        made.push(DesignProcess { domain, body })?;
    }
    Ok(made)
}
