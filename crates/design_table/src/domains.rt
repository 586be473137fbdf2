// Whether domains are those of inputs, and apart.
ghost use Rattle.std.specs.Prelude.{◌≡◌, ◌==◌, false, IsTrue};
ghost use Rattle.std.specs.List.{AllByRecursion, list_any};
ghost use Rattle.lists.specs.Texts.{text_eq};
ghost use Rattle.design_table.specs.Tests.{AreDomains, IsInputBit, IsOfInputs, IsResetBit, domains_apart, is_domain_apart, is_reset_by, share_reset};

use crate::pool::Sheet;
use crate::tables::is_input;
use design_ir::{Domain, Port, SigId};

// Whether a signal is an input of one bit.
fn is_input_bit(sheet: &Sheet, ports: &[Port], s: SigId) -> bool
    ensures { IsTrue result → IsInputBit sheet.now.pool ports.now s }
{
    is_input(ports, s) && sheet.is_bit(s)
}

// Whether a reset is an input of one bit, if there is one.
fn is_reset_bit(sheet: &Sheet, ports: &[Port], rst: Option<SigId>) -> bool
    ensures { IsTrue result → IsResetBit sheet.now.pool ports.now rst }
{
    match rst {
        Some(s) => is_input_bit(sheet, ports, s),
        None => true,
    }
}

// Whether a domain is one of inputs.
fn is_of_inputs(sheet: &Sheet, ports: &[Port], x: &Domain) -> bool
    ensures { IsTrue result → IsOfInputs sheet.now.pool ports.now x.now }
{
    is_input_bit(sheet, ports, x.clk) && is_reset_bit(sheet, ports, x.rst)
}

fn are_of_inputs(sheet: &Sheet, ports: &[Port], domains: &[Domain]) -> bool
    ensures { IsTrue result → AllByRecursion (IsOfInputs sheet.now.pool ports.now) domains.now }
{
    match domains {
        [] => true,
        [x, rest @ ..] => is_of_inputs(sheet, ports, x) && are_of_inputs(sheet, ports, rest),
    }
}

// Whether a signal is the reset of a domain.
fn is_reset_by(s: SigId, x: &Domain) -> bool
    ensures { result ≡ is_reset_by s.0 x.now }
{
    match x.rst {
        Some(r) => r.0 == s.0,
        None => false,
    }
}

// Whether a signal is the reset of one of these domains.
fn is_any_reset(s: SigId, domains: &[Domain]) -> bool
    ensures { result ≡ list_any (is_reset_by s.0) domains.now }
{
    domains.iter().any(|x| is_reset_by(s, x))
}

// Whether a reset is that of one of these domains.
fn share_reset(rst: Option<SigId>, domains: &[Domain]) -> bool
    ensures { result ≡ share_reset rst domains.now }
{
    match rst {
        Some(s) => is_any_reset(s, domains),
        None => false,
    }
}

fn share_name(x: &Domain, others: &[Domain]) -> bool
    ensures { result ≡ list_any (λ y. text_eq x.now.name y.name) others.now }
{
    others.iter().any(|y| x.name.is(y.name.as_str()))
}

fn share_clock(x: &Domain, others: &[Domain]) -> bool
    ensures { result ≡ list_any (λ y. x.now.clk.0 == y.clk.0) others.now }
{
    others.iter().any(|y| x.clk.0 == y.clk.0)
}

// Whether a domain has neither its name nor its clock nor its reset in common with these.
fn is_domain_apart(x: &Domain, others: &[Domain]) -> bool
    ensures { result ≡ is_domain_apart x.now others.now }
{
    !share_name(x, others) && !share_clock(x, others) && !share_reset(x.rst, others)
}

// Whether no two domains have a name, a clock or a reset in common.
fn domains_apart(domains: &[Domain]) -> bool
    ensures { result ≡ domains_apart domains.now }
{
    match domains {
        [] => true,
        [x, rest @ ..] => is_domain_apart(x, rest) && domains_apart(rest),
    }
}

// Whether no clock of these domains is the reset of one of all.
fn no_resets(domains: &[Domain], all: &[Domain]) -> bool
    ensures { IsTrue result → AllByRecursion (λ x. list_any (is_reset_by x.clk.0) all.now ≡ false) domains.now }
{
    match domains {
        [] => true,
        [x, rest @ ..] => !is_any_reset(x.clk, all) && no_resets(rest, all),
    }
}

/// Whether these are domains of inputs that are apart, and no clock of which is a reset.
pub fn are_domains(sheet: &Sheet, ports: &[Port], domains: &[Domain]) -> bool
    ensures { IsTrue result → AreDomains sheet.now.pool ports.now domains.now }
{
    domains.len() < 65536
        && are_of_inputs(sheet, ports, domains)
        && domains_apart(domains)
        && no_resets(domains, domains)
}
